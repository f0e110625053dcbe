//! How the lists, the units and the lock words stand at the end of a run. They are printed in the order in
//! which they are given.
ghost use Rattle.std.specs.Prelude.{◌≡◌, ◌++◌, ◌∷◌, [], codes, OnOk};
ghost use Rattle.std.specs.Fmt.{decimal};
ghost use Rattle.std.specs.List.{flat_map};
ghost use Rattle.grs_wire.specs.LockWords.{interest, manager, epoch};
ghost use Rattle.grs_display.specs.Lines.{spaced};
ghost use Rattle.grs_report.specs.State.{queues_text, unit_line, units_text, manager_word, word_line, word_lines, words_text, mode_line};

use grs_base::{List, NoMemory, Row, SysId, unit_digits};
use grs_display::{name_at, put_line, put_number_word, put_rows, put_word};
use grs_wire::Names;
use std::alloc::Global;

/// Puts the lists that aren't empty behind a text.
#[tactic(auto, unfolding(crate::specs::State::queues_text))]
pub(crate) fn put_queues(
    alloc: Global,
    names: &Names,
    rows: &[Row],
    out: &mut List<u8>,
) -> Result<(), NoMemory>
    ensures { OnOk result (out.new ≡ out.old ++ queues_text names.now rows.now) }
{
    put_line(&[b"QUEUES".as_slice()], out)?;
    put_rows(alloc, names, b'Q', rows, out)
}

/// Puts the count of a unit's hardware reserves behind a text.
#[tactic(auto, unfolding(crate::specs::State::unit_line, grs_display::specs::Lines::line))]
fn put_unit(names: &Names, unit: (SysId, u16, u32), out: &mut List<u8>) -> Result<(), NoMemory>
    ensures { OnOk result (out.new ≡ out.old ++ unit_line names.now unit) }
{
    out.push(b'U')?;
    put_word(name_at(&names.systems, usize::from(unit.0.0)), out)?;
    put_word(&unit_digits(unit.1), out)?;
    put_number_word(u64::from(unit.2), out)?;
    out.push(b'\n')
}

fn put_unit_lines(
    names: &Names,
    units: &[(SysId, u16, u32)],
    out: &mut List<u8>,
) -> Result<(), NoMemory>
    ensures { OnOk result (out.new ≡ out.old ++ flat_map (unit_line names.now) units.now) }
{
    for unit in units {
        put_unit(names, *unit, out)?;
    }
    Ok(())
}

/// Puts the counts of hardware reserves behind a text.
#[tactic(auto, unfolding(crate::specs::State::units_text))]
pub(crate) fn put_units(
    names: &Names,
    units: &[(SysId, u16, u32)],
    out: &mut List<u8>,
) -> Result<(), NoMemory>
    ensures { OnOk result (out.new ≡ out.old ++ units_text names.now units.now) }
{
    put_line(&[b"UNITS".as_slice()], out)?;
    put_unit_lines(names, units, out)
}

/// The systems that have interest, as a lock word has them.
fn interest(word: u32) -> u64
    ensures { result ≡ interest word }
{
    u64::from(word % 256)
}

/// The manager that a lock word has.
#[tactic(auto, unfolding(grs_wire::specs::LockWords::manager))]
fn manager(word: u32) -> Option<SysId>
    ensures { result ≡ manager word }
{
    let number = (word / 256) % 16;
    if number == 0 {
        None
    } else {
        Some(SysId((number - 1) as u8))
    }
}

/// The epoch of a lock word.
fn epoch(word: u32) -> u64
    ensures { result ≡ epoch word }
{
    u64::from(word / 4096)
}

fn manager_word(names: &Names, manager: Option<SysId>) -> &[u8]
    ensures { result.now ≡ manager_word names.now manager }
{
    match manager {
        None => b"NONE",
        Some(system) => name_at(&names.systems, usize::from(system.0)),
    }
}

/// Puts the name of a number and the number behind a text, each with a blank before it.
fn put_named_number(name: &[u8], n: u64, out: &mut List<u8>) -> Result<(), NoMemory>
    ensures { OnOk result (out.new ≡ out.old ++ spaced (name.now ∷ decimal n ∷ [])) }
{
    put_word(name, out)?;
    put_number_word(n, out)
}

/// Puts the manager of a lock word behind a text.
fn put_manager(names: &Names, word: u32, out: &mut List<u8>) -> Result<(), NoMemory>
    ensures { OnOk result (out.new ≡ out.old
        ++ spaced (codes "MANAGER" ∷ manager_word names.now (manager word) ∷ [])) }
{
    put_word(b"MANAGER", out)?;
    put_word(manager_word(names, manager(word)), out)
}

/// Puts a lock word behind a text.
#[tactic(auto, unfolding(crate::specs::State::word_line, grs_display::specs::Lines::line))]
fn put_lock_word(names: &Names, entry: u64, word: u32, out: &mut List<u8>) -> Result<(), NoMemory>
    ensures { OnOk result (out.new ≡ out.old ++ word_line names.now entry word) }
{
    out.push(b'W')?;
    put_number_word(entry, out)?;
    put_named_number(b"MASK", interest(word), out)?;
    put_manager(names, word, out)?;
    put_named_number(b"EPOCH", epoch(word), out)?;
    out.push(b'\n')
}

fn put_lock_words(names: &Names, words: &[u32], out: &mut List<u8>) -> Result<(), NoMemory>
    ensures { OnOk result (out.new ≡ out.old ++ word_lines names.now 0 words.now) }
{
    for (entry, word) in words.iter().enumerate() {
        if *word != 0 {
            put_lock_word(names, entry as u64, *word, out)?;
        }
    }
    Ok(())
}

/// Puts the lock words that aren't 0 behind a text.
#[tactic(auto, unfolding(crate::specs::State::words_text))]
pub(crate) fn put_words(names: &Names, words: &[u32], out: &mut List<u8>) -> Result<(), NoMemory>
    ensures { OnOk result (out.new ≡ out.old ++ words_text names.now words.now) }
{
    put_line(&[b"WORDS".as_slice()], out)?;
    put_lock_words(names, words, out)
}

/// Puts the mode behind a text.
#[tactic(auto, unfolding(crate::specs::State::mode_line))]
pub(crate) fn put_mode(star: bool, out: &mut List<u8>) -> Result<(), NoMemory>
    ensures { OnOk result (out.new ≡ out.old ++ mode_line star) }
{
    let mode: &[u8] = if star { b"STAR" } else { b"RING" };
    put_line(&[b"MODE".as_slice(), mode], out)
}
