//! A told line as text, with the rows that it shows. To whom it was told is not looked at here.
ghost use Rattle.std.specs.Prelude.{◌≡◌, ◌++◌, ◌∷◌, [], codes, OnOk};
ghost use Rattle.std.specs.Fmt.{decimal};
ghost use Rattle.grs_display.specs.Lines.{spaced, line};
ghost use Rattle.grs_report.specs.Spelled.{verb_word, code_word, event_word, order_word, said_word};
ghost use Rattle.grs_report.specs.Told.{told_line};

use super::spelled::{order_word, put_code, put_event_number, said_word, three_digits, verb_word};
use grs_base::{Code, List, NoMemory};
use grs_display::{put_number_word, put_rows, put_word};
use grs_wire::{Names, Said, Told, ToldLine, Verb};
use std::alloc::Global;

/// Puts the words that end a told line behind a text: a blank, the number of its event, and the line end.
fn put_event(event: u64, out: &mut List<u8>) -> Result<(), NoMemory>
    ensures { OnOk result (out.new ≡ out.old ++ (32 ∷ (event_word event ++ 10 ∷ []))) }
{
    out.push(b' ')?;
    put_event_number(event, out)?;
    out.push(b'\n')
}

/// Puts the number of a line, its kind and its code behind a text.
fn put_answer(k: u32, verb: Verb, code: Code, out: &mut List<u8>) -> Result<(), NoMemory>
    ensures { OnOk result (out.new ≡ out.old
        ++ (codes "T" ++ spaced (decimal k ∷ verb_word verb ∷ code_word code ∷ []))) }
{
    out.push(b'T')?;
    put_number_word(u64::from(k), out)?;
    put_word(verb_word(verb), out)?;
    out.push(b' ')?;
    put_code(code, out)
}

/// Puts the code of a line behind a text.
#[tactic(auto, unfolding(grs_display::specs::Lines::line))]
fn put_coded(k: u32, verb: Verb, code: Code, event: u64, out: &mut List<u8>) -> Result<(), NoMemory>
    ensures { OnOk result (out.new ≡ out.old
        ++ line (codes "T" ∷ decimal k ∷ verb_word verb ∷ code_word code ∷ event_word event ∷ [])) }
{
    put_answer(k, verb, code, out)?;
    put_event(event, out)
}

/// Puts the code of a display behind a text, as the line above its rows.
#[tactic(auto, unfolding(grs_display::specs::Lines::line))]
fn put_shown(
    k: u32,
    verb: Verb,
    code: Code,
    count: usize,
    event: u64,
    out: &mut List<u8>,
) -> Result<(), NoMemory>
    ensures { OnOk result (out.new ≡ out.old ++ line (
        codes "T" ∷ decimal k ∷ verb_word verb ∷ code_word code ∷ decimal count ∷ event_word event ∷ [])) }
{
    put_answer(k, verb, code, out)?;
    put_number_word(count as u64, out)?;
    put_event(event, out)
}

/// Puts the post of a line behind a text.
#[tactic(auto, unfolding(grs_display::specs::Lines::line))]
fn put_post(k: u32, event: u64, out: &mut List<u8>) -> Result<(), NoMemory>
    ensures { OnOk result (out.new ≡ out.old
        ++ line (codes "T" ∷ decimal k ∷ codes "POST" ∷ event_word event ∷ [])) }
{
    out.push(b'T')?;
    put_number_word(u64::from(k), out)?;
    put_word(b"POST", out)?;
    put_event(event, out)
}

/// Puts the end of a task with the digits of its code behind a text.
#[tactic(auto, unfolding(grs_display::specs::Lines::line))]
fn put_ended(code: &[u8], event: u64, out: &mut List<u8>) -> Result<(), NoMemory>
    ensures { OnOk result (out.new ≡ out.old
        ++ line (codes "T" ∷ codes "END" ∷ code.now ∷ event_word event ∷ [])) }
{
    out.push(b'T')?;
    put_word(b"END", out)?;
    put_word(code, out)?;
    put_event(event, out)
}

/// Puts what was said at a desk behind a text.
#[tactic(auto, unfolding(grs_display::specs::Lines::line))]
fn put_said(k: u32, said: Said, event: u64, out: &mut List<u8>) -> Result<(), NoMemory>
    ensures { OnOk result (out.new ≡ out.old
        ++ line (codes "D" ∷ decimal k ∷ order_word said ∷ said_word said ∷ event_word event ∷ [])) }
{
    out.push(b'D')?;
    put_number_word(u64::from(k), out)?;
    put_word(order_word(said), out)?;
    put_word(said_word(said), out)?;
    put_event(event, out)
}

/// Puts a told line behind a text, with the rows that it shows.
#[tactic(auto, unfolding(crate::specs::Told::told_line))]
pub(crate) fn put_told_line(
    alloc: Global,
    names: &Names,
    told: &Told,
    out: &mut List<u8>,
) -> Result<(), NoMemory>
    ensures { OnOk result (out.new ≡ out.old ++ told_line names.now told.now.event told.now.line) }
{
    let event = told.event;
    match &told.line {
        ToldLine::Coded { k, verb, code, .. } => put_coded(*k, *verb, *code, event, out),
        ToldLine::Shown {
            k,
            verb,
            code,
            rows,
            ..
        } => {
            put_shown(*k, *verb, *code, rows.len(), event, out)?;
            put_rows(alloc, names, b'R', rows.as_slice(), out)
        }
        ToldLine::Post { k, .. } => put_post(*k, event, out),
        ToldLine::Ended { code, .. } => put_ended(&three_digits(*code), event, out),
        ToldLine::Desk { k, said } => put_said(*k, *said, event, out),
    }
}
