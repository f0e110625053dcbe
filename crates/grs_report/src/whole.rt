//! The whole report, part by part. Each part is put behind the text so far.
ghost use Rattle.std.specs.Prelude.{◌≡◌, ◌++◌, OnOk, IfOk};
ghost use Rattle.grs_wire.specs.Decks.{IsDeck};
ghost use Rattle.grs_display.specs.Names.{names_of};
ghost use Rattle.grs_report.specs.Report.{head_line, end_line, report};

use super::ends::all_ended;
use super::history::put_history;
use super::schedule::put_schedule;
use super::state::{put_mode, put_queues, put_units, put_words};
use super::told::put_told;
use grs_base::{List, NoMemory};
use grs_display::{names_of, put_line};
use grs_wire::{Deck, Names, Seen};
use std::alloc::Global;

/// Puts the last line behind a text.
#[tactic(auto, unfolding(crate::specs::Report::end_line))]
fn put_end(done: bool, out: &mut List<u8>) -> Result<(), NoMemory>
    ensures { OnOk result (out.new ≡ out.old ++ end_line done) }
{
    let end: &[u8] = if done { b"DONE" } else { b"WAITS" };
    put_line(&[b"END".as_slice(), end], out)
}

#[tactic(auto, unfolding(crate::specs::Report::head_line))]
fn put_head(out: &mut List<u8>) -> Result<(), NoMemory>
    ensures { OnOk result (out.new ≡ out.old ++ head_line) }
{
    put_line(&[b"GRS".as_slice(), b"REPORT", b"1"], out)
}

/// Puts the report of what a run of a deck shows behind a text, by the names of the deck.
#[tactic(auto, unfolding(crate::specs::Report::report))]
fn put_report(
    alloc: Global,
    names: &Names,
    deck: &Deck,
    seen: &Seen,
    out: &mut List<u8>,
) -> Result<(), NoMemory>
    requires deck { IsDeck deck.now }
    requires names { names.now ≡ names_of deck.now }
    ensures { OnOk result (out.new ≡ out.old ++ report deck.now seen.now) }
{
    let ended = seen.ended.as_slice();
    put_head(out)?;
    put_schedule(names, seen.events.as_slice(), out)?;
    put_history(alloc, names, seen.hist.as_slice(), out)?;
    put_told(
        alloc,
        names,
        seen.told.as_slice(),
        ended,
        deck.systems.as_slice(),
        out,
    )?;
    put_queues(alloc, names, seen.queues.as_slice(), out)?;
    put_units(names, seen.units.as_slice(), out)?;
    put_words(names, seen.words.as_slice(), out)?;
    put_mode(seen.star, out)?;
    put_end(all_ended(ended), out)
}

/// The report of what a run of a deck shows. Of a run of one event, in which the only task asks for a
/// resource and gets it, the text is
///
///     GRS REPORT 1
///     SCHEDULE 1
///     SYA TASK J1.T1
///     HISTORY 1
///     H 1 SYA.J1.T1 ENQ SYSTEM(SYA,PAYROLL,MASTER) E NONE 00
///     TOLD
///     SYSTEM SYA
///     TASK J1.T1
///     T 1 ENQ 00 @1
///     S OPEN
///     QUEUES
///     Q SYSTEM(SYA,PAYROLL,MASTER) SYA.J1.T1:E*
///     UNITS
///     WORDS
///     MODE RING
///     END WAITS
///
/// Each line ends with LF. Nothing is written for the name of a system, job or task that the deck does not
/// have, and a task without an entry in `ended` counts as open. Want of memory is `NoMemory`.
pub fn report(alloc: Global, deck: &Deck, seen: &Seen) -> Result<List<u8>, NoMemory>
    requires { IsDeck deck.now }
    ensures { IfOk result (λ text. text ≡ report deck.now seen.now) }
{
    let names = names_of(alloc, deck)?;
    let mut out = List::new(alloc);
    put_report(alloc, &names, deck, seen, &mut out)?;
    Ok(out)
}
