//! The words after the program's name. What a command does is not known here.
ghost use Rattle.std.specs.Prelude.{◌≡◌, map, string_bytes};
ghost use Rattle.grs_top.specs.Words.{command_named, size_in, size_named, invocation_of_two, invocation_of_three, invocation_of};

use super::stop::Stop;
use deck_form::written_number;

/// The greatest number of which a deck is made.
const MOST_SIZE: u32 = 64;

/// What the program can be asked to do.
#[derive(Clone, Copy)]
pub enum Command {
    /// Runs the schedule of a deck and reports the run.
    Replay,
    /// Runs the systems of a deck beside each other and reports the run.
    Run,
    /// Writes the name lists of a deck.
    Lists,
    /// Runs the schedule of a deck and tells who waits for whom in the end.
    Analyze,
    /// Runs the schedule of a deck and tells what is noticed of contention along its history.
    Notices,
    /// Carries out calls of latches.
    Latch,
    /// Runs the schedule of a deck with a system that stops, and reports the run.
    Stop(Stop),
    /// Judges the report behind a deck.
    Audit,
}

/// What the words after the program's name ask for.
#[derive(Clone, Copy)]
pub enum Invocation {
    /// A command on a text that is read.
    OfText(Command),
    /// The run of the deck that is made from this number, which is one from 1 to 64.
    Generate(u32),
}

/// The command of a word.
fn command_named(word: &[u8]) -> Option<Command>
    ensures { result ≡ command_named word.now }
{
    if word == b"replay".as_slice() {
        Some(Command::Replay)
    } else if word == b"run".as_slice() {
        Some(Command::Run)
    } else if word == b"lists".as_slice() {
        Some(Command::Lists)
    } else if word == b"analyze".as_slice() {
        Some(Command::Analyze)
    } else if word == b"notices".as_slice() {
        Some(Command::Notices)
    } else if word == b"latch".as_slice() {
        Some(Command::Latch)
    } else if word == b"audit".as_slice() {
        Some(Command::Audit)
    } else {
        None
    }
}

/// A number, where a deck can be made of it.
fn size_in(number: u32) -> Option<u32>
    ensures { result ≡ size_in number }
{
    if (1..=MOST_SIZE).contains(&number) {
        Some(number)
    } else {
        None
    }
}

/// The number from 1 to 64 that a word is, in decimal digits without a leading zero.
fn size_named(word: &[u8]) -> Option<u32>
    ensures { result ≡ size_named word.now }
{
    match word {
        [unit] if unit.is_ascii_digit() => size_in(u32::from(unit - b'0')),
        [ten, unit] if ten.is_ascii_digit() && *ten != b'0' && unit.is_ascii_digit() => {
            size_in(u32::from(ten - b'0') * 10 + u32::from(unit - b'0'))
        }
        _ => None,
    }
}

/// What two words ask for: `gen` and a number.
fn invocation_of_two(word: &[u8], number: &[u8]) -> Option<Invocation>
    ensures { result ≡ invocation_of_two word.now number.now }
{
    if word == b"gen".as_slice() {
        size_named(number).map(Invocation::Generate)
    } else {
        None
    }
}

/// What three words ask for: `stop`, a system's name and a number of 1 to 9 digits.
fn invocation_of_three(word: &[u8], name: &[u8], events: &[u8]) -> Option<Invocation>
    ensures { result ≡ invocation_of_three word.now name.now events.now }
{
    if word != b"stop".as_slice() {
        return None;
    }
    match written_number(events) {
        Ok(events) => Stop::new(name, events).map(|stop| Invocation::OfText(Command::Stop(stop))),
        Err(_) => None,
    }
}

/// What the words ask for, if they are of one of the forms: a command's name alone, `gen` and a number, or `stop` with the name of a
/// system and a number.
pub(crate) fn invocation_of(words: &[String]) -> Option<Invocation>
    ensures { result ≡ invocation_of (map string_bytes words.now) }
{
    match words {
        [word] => command_named(word.as_bytes()).map(Invocation::OfText),
        [word, number] => invocation_of_two(word.as_bytes(), number.as_bytes()),
        [word, name, events] => {
            invocation_of_three(word.as_bytes(), name.as_bytes(), events.as_bytes())
        }
        _ => None,
    }
}
