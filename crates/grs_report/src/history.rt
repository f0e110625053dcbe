//! The history of a run as lines. Entries are numbered from 1, in order.
ghost use Rattle.std.specs.Prelude.{◌≡◌, ◌++◌, ◌∷◌, [], codes, OnOk};
ghost use Rattle.std.specs.Fmt.{decimal};
ghost use Rattle.grs_base.specs.Printed.{ctl_word};
ghost use Rattle.grs_display.specs.Lines.{spaced, line};
ghost use Rattle.grs_display.specs.Names.{name_at, task_word};
ghost use Rattle.grs_display.specs.Rows.{res_word, place_word, filter_word};
ghost use Rattle.grs_report.specs.Spelled.{ret_word, have_word, code_word};
ghost use Rattle.grs_report.specs.History.{history_line, history_lines, history_text};

use super::spelled::{have_word, put_code, ret_word};
use grs_base::{Code, Ctl, Filter, List, NoMemory, Place, Res, Ret, SysId, TaskId, ctl_word};
use grs_display::{
    name_at, put_count, put_filter, put_number_word, put_place, put_res, put_rows, put_task,
    put_word,
};
use grs_wire::{HistEntry, Names};
use std::alloc::Global;

/// Puts the words with which the entry of a task begins behind a text: its number, the task, and its kind.
fn put_front(
    names: &Names,
    number: u64,
    task: TaskId,
    kind: &[u8],
    out: &mut List<u8>,
) -> Result<(), NoMemory>
    ensures { OnOk result (out.new ≡ out.old
        ++ (codes "H" ++ spaced (decimal number ∷ task_word names.now task ∷ kind.now ∷ []))) }
{
    out.push(b'H')?;
    put_number_word(number, out)?;
    out.push(b' ')?;
    put_task(names, task, out)?;
    put_word(kind, out)
}

/// Puts the words with which the entry of a request begins behind a text: those of its task, and its resource.
fn put_request(
    alloc: Global,
    names: &Names,
    number: u64,
    task: TaskId,
    kind: &[u8],
    res: &Res,
    out: &mut List<u8>,
) -> Result<(), NoMemory>
    ensures { OnOk result (out.new ≡ out.old
        ++ (codes "H" ++ spaced (decimal number ∷ task_word names.now task ∷ kind.now ∷ res_word names.now res.now ∷ []))) }
{
    put_front(names, number, task, kind, out)?;
    out.push(b' ')?;
    put_res(alloc, names, res, out)
}

/// Puts a blank, an answer and the line end behind a text.
fn put_answer(code: Code, out: &mut List<u8>) -> Result<(), NoMemory>
    ensures { OnOk result (out.new ≡ out.old ++ (32 ∷ (code_word code ++ 10 ∷ []))) }
{
    out.push(b' ')?;
    put_code(code, out)?;
    out.push(b'\n')
}

/// Puts a request and its answer behind a text.
#[tactic(auto, unfolding(grs_display::specs::Lines::line))]
fn put_enq(
    alloc: Global,
    names: &Names,
    number: u64,
    task: TaskId,
    res: &Res,
    ctl: Ctl,
    ret: Ret,
    code: Code,
    out: &mut List<u8>,
) -> Result<(), NoMemory>
    ensures { OnOk result (out.new ≡ out.old ++ line (
        codes "H" ∷ decimal number ∷ task_word names.now task ∷ codes "ENQ" ∷ res_word names.now res.now
        ∷ ctl_word ctl ∷ ret_word ret ∷ code_word code ∷ [])) }
{
    put_request(alloc, names, number, task, b"ENQ", res, out)?;
    put_word(ctl_word(ctl), out)?;
    put_word(ret_word(ret), out)?;
    put_answer(code, out)
}

/// Puts a release and its answer behind a text.
#[tactic(auto, unfolding(grs_display::specs::Lines::line))]
fn put_deq(
    alloc: Global,
    names: &Names,
    number: u64,
    task: TaskId,
    res: &Res,
    have: bool,
    code: Code,
    out: &mut List<u8>,
) -> Result<(), NoMemory>
    ensures { OnOk result (out.new ≡ out.old ++ line (
        codes "H" ∷ decimal number ∷ task_word names.now task ∷ codes "DEQ" ∷ res_word names.now res.now
        ∷ have_word have ∷ code_word code ∷ [])) }
{
    put_request(alloc, names, number, task, b"DEQ", res, out)?;
    put_word(have_word(have), out)?;
    put_answer(code, out)
}

/// Puts what an ending task had behind a text.
#[tactic(auto, unfolding(grs_display::specs::Lines::line))]
fn put_release(
    alloc: Global,
    names: &Names,
    number: u64,
    task: TaskId,
    res: &Res,
    out: &mut List<u8>,
) -> Result<(), NoMemory>
    ensures { OnOk result (out.new ≡ out.old ++ line (
        codes "H" ∷ decimal number ∷ task_word names.now task ∷ codes "RELEASE" ∷ res_word names.now res.now ∷ [])) }
{
    put_request(alloc, names, number, task, b"RELEASE", res, out)?;
    out.push(b'\n')
}

/// Puts a blank and where a look was taken, and a blank and what it shows, behind a text.
fn put_asked(
    alloc: Global,
    place: Place,
    filter: &Filter,
    out: &mut List<u8>,
) -> Result<(), NoMemory>
    ensures { OnOk result (out.new ≡ out.old ++ spaced (place_word place ∷ filter_word filter.now ∷ [])) }
{
    out.push(b' ')?;
    put_place(place, out)?;
    out.push(b' ')?;
    put_filter(alloc, filter, out)
}

/// Puts a look behind a text, as the line above its rows.
#[tactic(auto, unfolding(grs_display::specs::Lines::line))]
fn put_look(
    alloc: Global,
    names: &Names,
    number: u64,
    task: TaskId,
    place: Place,
    filter: &Filter,
    count: usize,
    out: &mut List<u8>,
) -> Result<(), NoMemory>
    ensures { OnOk result (out.new ≡ out.old ++ line (
        codes "H" ∷ decimal number ∷ task_word names.now task ∷ codes "LOOK" ∷ place_word place
        ∷ filter_word filter.now ∷ decimal count ∷ [])) }
{
    put_front(names, number, task, b"LOOK", out)?;
    put_asked(alloc, place, filter, out)?;
    put_number_word(count as u64, out)?;
    out.push(b'\n')
}

/// Puts the removal of a system behind a text.
#[tactic(auto, unfolding(grs_display::specs::Lines::line))]
fn put_removal(
    names: &Names,
    number: u64,
    by: SysId,
    target: SysId,
    out: &mut List<u8>,
) -> Result<(), NoMemory>
    ensures { OnOk result (out.new ≡ out.old ++ line (
        codes "H" ∷ decimal number ∷ name_at names.now.systems by.0 ∷ codes "REMOVE"
        ∷ name_at names.now.systems target.0 ∷ [])) }
{
    out.push(b'H')?;
    put_number_word(number, out)?;
    put_word(name_at(&names.systems, usize::from(by.0)), out)?;
    put_word(b"REMOVE", out)?;
    put_word(name_at(&names.systems, usize::from(target.0)), out)?;
    out.push(b'\n')
}

/// Puts the entry of a number behind a text: its line, and behind that the lines of the rows that a look showed. Where
/// memory is wanting a part of that may stand there.
#[tactic(auto, unfolding(crate::specs::History::history_line))]
pub fn put_entry(
    alloc: Global,
    names: &Names,
    number: u64,
    entry: &HistEntry,
    out: &mut List<u8>,
) -> Result<(), NoMemory>
    ensures { OnOk result (out.new ≡ out.old ++ history_line names.now number entry.now) }
{
    match entry {
        HistEntry::Enq {
            task,
            res,
            ctl,
            ret,
            code,
        } => put_enq(alloc, names, number, *task, res, *ctl, *ret, *code, out),
        HistEntry::Deq {
            task,
            res,
            have,
            code,
        } => put_deq(alloc, names, number, *task, res, *have, *code, out),
        HistEntry::Look {
            task,
            place,
            filter,
            rows,
        } => {
            put_look(alloc, names, number, *task, *place, filter, rows.len(), out)?;
            put_rows(alloc, names, b'R', rows.as_slice(), out)
        }
        HistEntry::Remove { by, target } => put_removal(names, number, *by, *target, out),
        HistEntry::Release { task, res } => put_release(alloc, names, number, *task, res, out),
    }
}

/// Puts entries behind a text, each as a line.
fn put_entries(
    alloc: Global,
    names: &Names,
    hist: &[HistEntry],
    out: &mut List<u8>,
) -> Result<(), NoMemory>
    ensures { OnOk result (out.new ≡ out.old ++ history_lines names.now 1 hist.now) }
{
    for (i, entry) in hist.iter().enumerate() {
        put_entry(alloc, names, i as u64 + 1, entry, out)?;
    }
    Ok(())
}

/// Puts the history behind a text.
#[tactic(auto, unfolding(crate::specs::History::history_text))]
pub(crate) fn put_history(
    alloc: Global,
    names: &Names,
    hist: &[HistEntry],
    out: &mut List<u8>,
) -> Result<(), NoMemory>
    ensures { OnOk result (out.new ≡ out.old ++ history_text names.now hist.now) }
{
    put_count(b"HISTORY", hist.len(), out)?;
    put_entries(alloc, names, hist, out)
}
