//! Goes through the lines of a history, entry by entry: what may stand next is printed, and compared with what stands there.
ghost use Rattle.std.specs.Prelude.{◌≡◌, ◌≤◌, ◌-◌, ℕ, [], length, IfOk};
ghost use Rattle.std.specs.Str.{bytes_eq};
ghost use Rattle.grs_wire.specs.Decks.{IsDeck};
ghost use Rattle.grs_report.specs.History.{history_line};
ghost use Rattle.grs_display.specs.Names.{names_of};
ghost use Rattle.grs_track.specs.Tracks.{view_of, IsBehind};
ghost use Rattle.grs_audit.specs.Found.{capped};
ghost use Rattle.grs_audit.specs.Lines.{front, lines_in, most_lines};
ghost use Rattle.grs_audit.specs.Steps.{GoesBy, Steps, IsJudged};
ghost use Rattle.grs_audit.specs.Way.{told_word};

use super::asker::next_by_line;
use super::compare::{Compared, compare};
use super::parts::{cut, line_count};
use grs_base::{List, NoMemory};
use grs_display::names_of;
use grs_report::put_entry;
use grs_track::Tracks;
use grs_wire::{Deck, HistEntry, Names};
use std::alloc::Global;

/// The line behind a history.
const TOLD: &[u8] = b"TOLD";

/// How many bytes there is room for with each line of an entry, which is as many as most lines have at most.
const LINE_ROOM: usize = 64;

/// How many lines an entry has.
fn lines_of(entry: &HistEntry) -> usize {
    match entry {
        HistEntry::Look { rows, .. } => rows.len().saturating_add(1),
        _ => 1,
    }
}

/// The lines of an entry of a number.
fn printed(
    alloc: Global,
    names: &Names,
    number: u64,
    entry: &HistEntry,
) -> Result<List<u8>, NoMemory>
    ensures { IfOk result (λ text. text ≡ history_line names.now number entry.now) }
{
    let mut text = List::with_room(alloc, lines_of(entry).saturating_mul(LINE_ROOM))?;
    put_entry(alloc, names, number, entry, &mut text)?;
    Ok(text)
}

/// Goes on by one entry if a text goes on with its lines.
fn go_on<'t>(
    alloc: Global,
    names: &Names,
    tracks: &mut Tracks<'_>,
    number: u64,
    entry: &HistEntry,
    text: &'t [u8],
) -> Result<Compared<'t>, NoMemory>
    requires few { length (lines_in text.now) ≤ most_lines }
    ensures deck { tracks.new.deck ≡ tracks.old.deck }
    ensures goes { IfOk result (λ step. GoesBy names.now number (view_of tracks.old) entry.now (lines_in text.now) step (view_of tracks.new)) }
{
    let wanted = printed(alloc, names, number, entry)?;
    match compare(wanted.as_slice(), text) {
        Compared::All { rest } => {
            tracks.carry_out(alloc, entry)?;
            Ok(Compared::All { rest })
        }
        Compared::Some { lines } => Ok(Compared::Some { lines }),
    }
}

/// Goes on by the one entry that the first line of a text says, if it may stand and its lines stand there.
fn step<'t>(
    alloc: Global,
    deck: &Deck,
    names: &Names,
    tracks: &mut Tracks<'_>,
    number: u64,
    text: &'t [u8],
) -> Result<Compared<'t>, NoMemory>
    requires deck { tracks.old.deck ≡ deck.now }
    requires read { IsDeck deck.now }
    requires few { length (lines_in text.now) ≤ most_lines }
    ensures deck { tracks.new.deck ≡ tracks.old.deck }
    ensures steps { IfOk result (λ step. Steps names.now number (view_of tracks.old) (lines_in text.now) step (view_of tracks.new)) }
{
    let (line, _) = cut(text, b'\n');
    match next_by_line(alloc, deck, tracks, line)? {
        Some(entry) => go_on(alloc, names, tracks, number, &entry, text),
        None => Ok(Compared::Some { lines: 0 }),
    }
}

/// How many lines of a text stand before the rest of them.
fn lines_before(text: &[u8], rest: &[u8]) -> usize
    requires few { length (lines_in text.now) ≤ most_lines }
    requires less { length (lines_in rest.now) ≤ length (lines_in text.now) }
    ensures { result ≡ length (lines_in text.now) - length (lines_in rest.now) }
{
    line_count(text) - line_count(rest)
}

/// Whether a text begins with the line behind a history.
fn is_told(text: &[u8]) -> bool
    ensures { result ≡ bytes_eq (front 10 text.now) told_word }
{
    let (line, _) = cut(text, b'\n');
    line == TOLD
}

/// How many of the lines behind `HISTORY n` are on the way, where they aren't a whole history and TOLD, by what is kept of
/// the deck behind no entry. `count` is n, or the largest number where n is larger.
fn walk_on(
    alloc: Global,
    deck: &Deck,
    names: &Names,
    tracks: &mut Tracks<'_>,
    count: u64,
    text: &[u8],
) -> Result<Option<usize>, NoMemory>
    requires read { IsDeck deck.now }
    requires names { names.now ≡ names_of deck.now }
    requires deck { tracks.old.deck ≡ deck.now }
    requires begins { IsBehind [] (view_of tracks.old) }
    requires few { length (lines_in text.now) ≤ most_lines }
    ensures { IfOk result (λ off. (n : ℕ) → count ≡ capped n → IsJudged deck.now n (lines_in text.now) off) }
{
    let mut rest = text;
    let mut done: u64 = 0;
    'entries: while done < count {
        match step(alloc, deck, names, tracks, done + 1, rest)? {
            Compared::All { rest: behind } => {
                rest = behind;
                done += 1;
            }
            Compared::Some { lines } => return Ok(Some(lines_before(text, rest) + lines)),
        }
    }
    if is_told(rest) {
        Ok(None)
    } else {
        Ok(Some(lines_before(text, rest)))
    }
}

/// The same by the names of a deck, of which nothing is kept yet.
fn walk_named(
    alloc: Global,
    deck: &Deck,
    names: &Names,
    count: u64,
    text: &[u8],
) -> Result<Option<usize>, NoMemory>
    requires read { IsDeck deck.now }
    requires names { names.now ≡ names_of deck.now }
    requires few { length (lines_in text.now) ≤ most_lines }
    ensures { IfOk result (λ off. (n : ℕ) → count ≡ capped n → IsJudged deck.now n (lines_in text.now) off) }
{
    let mut tracks = Tracks::new(alloc, deck)?;
    walk_on(alloc, deck, names, &mut tracks, count, text)
}

/// The same by a deck alone.
pub(crate) fn walk(
    alloc: Global,
    deck: &Deck,
    count: u64,
    text: &[u8],
) -> Result<Option<usize>, NoMemory>
    requires read { IsDeck deck.now }
    requires few { length (lines_in text.now) ≤ most_lines }
    ensures { IfOk result (λ off. (n : ℕ) → count ≡ capped n → IsJudged deck.now n (lines_in text.now) off) }
{
    let names = names_of(alloc, deck)?;
    walk_named(alloc, deck, &names, count, text)
}
