//! Who asks by a line of a history, and what they may ask. What a line says else isn't read.
ghost use Rattle.std.specs.Prelude.{◌≡◌, IfOk};
ghost use Rattle.grs_wire.specs.Decks.{Fits, IsWithin};
ghost use Rattle.grs_deck.specs.Places.{system_at, task_in};
ghost use Rattle.grs_track.specs.Tracks.{view_of};
ghost use Rattle.grs_audit.specs.Lines.{front, behind};
ghost use Rattle.grs_audit.specs.Words as words;

use super::parts::{cut, holds};
use grs_base::{NoMemory, SysId, TaskId};
use grs_deck::{system_at, task_in};
use grs_track::Tracks;
use grs_wire::{Deck, HistEntry, SystemDef};
use std::alloc::Global;

/// What a task may ask next, if there is one.
fn next_of_task(
    alloc: Global,
    tracks: &Tracks<'_>,
    task: Option<TaskId>,
) -> Result<Option<HistEntry>, NoMemory>
    ensures { IfOk result (λ next. next ≡ words.next_of_task (view_of tracks.now) task) }
{
    match task {
        Some(task) => tracks.next(alloc, task),
        None => Ok(None),
    }
}

/// The task of a system whose job and own name stand behind the point of a word.
fn task_of(id: SysId, found: &SystemDef, word: &[u8]) -> Option<TaskId>
    requires { IsWithin found.now }
    ensures { result ≡ task_in id found.now (front 46 (behind 46 word.now)) (behind 46 (behind 46 word.now)) }
{
    let (_, names) = cut(word, b'.');
    let (job, task) = cut(names, b'.');
    task_in(id, found, job, task)
}

/// The removal of the system by another whose name stands behind the first blank.
fn removal_of(deck: &Deck, tracks: &Tracks<'_>, by: SysId, text: &[u8]) -> Option<HistEntry>
    requires { Fits deck.now.systems }
    ensures { result ≡ words.removal_of (view_of tracks.now) by (system_at deck.now.systems (behind 32 text.now)) }
{
    let (_, name) = cut(text, b' ');
    match system_at(deck.systems.as_slice(), name) {
        Some((target, _)) => tracks.next_removal(by, target),
        None => None,
    }
}

/// The one entry that may stand next by what a line says of who asks, if one may.
pub(crate) fn next_by_line(
    alloc: Global,
    deck: &Deck,
    tracks: &Tracks<'_>,
    line: &[u8],
) -> Result<Option<HistEntry>, NoMemory>
    requires deck { tracks.now.deck ≡ deck.now }
    requires fits { Fits deck.now.systems }
    ensures { IfOk result (λ next. next ≡ words.next_by_line (view_of tracks.now) line.now) }
{
    let (_, rest) = cut(line, b' ');
    let (_, rest) = cut(rest, b' ');
    let (word, rest) = cut(rest, b' ');
    let (name, _) = cut(word, b'.');
    match system_at(deck.systems.as_slice(), name) {
        Some((id, found)) => {
            if holds(word, b'.') {
                next_of_task(alloc, tracks, task_of(id, found, word))
            } else {
                Ok(removal_of(deck, tracks, id, rest))
            }
        }
        None => Ok(None),
    }
}
