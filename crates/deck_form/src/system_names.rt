//! The names that the SYSTEM statements of a deck give. A command may name a system whose statement stands further on.
ghost use Rattle.std.specs.List.{cons_option};
ghost use Rattle.std.specs.Prelude.{◌≡◌, ◌++◌, ◌==◌, ◌&&◌, not, length, [], IfOk, OnOk};
ghost use Rattle.deck_scan.specs.Next.{Reads};
ghost use Rattle.deck_form.specs.SystemNames.{name_given, begins_schedule, names_in, name_place};

use crate::words::named_at;
use deck_scan::{GivenName, Lines, Miss, TokenLine, word_at};
use grs_base::{List, MOST_NAME_BYTES, NoMemory};
use std::alloc::Global;
use std::marker::Model;

/// The name of a SYSTEM statement, where it isn't too long.
#[tactic(auto, unfolding(crate::specs::SystemNames::name_given))]
fn name_given<'a, 't>(line: &'a TokenLine<'t>) -> Result<GivenName<'a>, Miss>
    ensures { Reads (λ x. x) result (name_given line.now) }
{
    if line.joined {
        return Err(Miss);
    }
    let ts = word_at(b"SYSTEM", line.tokens.as_slice())?;
    let name = named_at(ts)?;
    if name.bytes().len() <= MOST_NAME_BYTES {
        Ok(name)
    } else {
        Err(Miss)
    }
}

/// Whether the first word of a line is SCHEDULE.
#[tactic(auto, unfolding(crate::specs::SystemNames::begins_schedule))]
fn begins_schedule(line: &TokenLine<'_>) -> bool
    ensures { result ≡ begins_schedule line.now }
{
    if line.joined {
        return false;
    }
    match word_at(b"SCHEDULE", line.tokens.as_slice()) {
        Ok(_) => true,
        Err(Miss) => false,
    }
}

/// Adds the name that a line gives to a system, if it gives one, in memory of its own.
fn add_name(names: &mut List<List<u8>>, alloc: Global, line: &TokenLine<'_>) -> Result<(), NoMemory>
    ensures { OnOk result (names.new ≡ names.old ++ cons_option (name_given line.now) []) }
{
    match name_given(line) {
        Err(Miss) => Ok(()),
        Ok(name) => {
            let name = List::from_bytes(alloc, name.bytes())?;
            names.push(name)
        }
    }
}

/// Whether no further name is given from this line on: a system has a name, and the first word is SCHEDULE.
fn is_last(names: &List<List<u8>>, line: &TokenLine<'_>) -> bool
    ensures { result ≡ (not (length names.now == 0) && begins_schedule line.now) }
{
    names.len() != 0 && begins_schedule(line)
}

/// The names that the lines of a text give to systems: behind the first of them up to a line whose first word is SCHEDULE.
fn gather(alloc: Global, text: &[u8]) -> Result<List<List<u8>>, NoMemory>
    ensures { IfOk result (λ names. names ≡ names_in text.now) }
{
    let mut names = List::new(alloc);
    let mut rest = Lines::of_any(text);
    while let Some(line) = rest.next(alloc)? {
        if is_last(&names, &line) {
            return Ok(names);
        }
        add_name(&mut names, alloc, &line)?;
    }
    Ok(names)
}

/// Where a name stands among others for the first time.
#[tactic(auto, unfolding(crate::specs::SystemNames::name_place))]
fn place_among(names: &[List<u8>], name: &[u8]) -> Option<usize>
    ensures { result ≡ name_place names.now name.now }
{
    names.iter().position(|given| name == given.as_slice())
}

/// The names that the SYSTEM statements of a text give. Contracts see all of them, in the order of the text. The text is
/// gone through when a name is looked for the first time, up to SCHEDULE; then the names are kept.
#[derive(Drop)]
pub struct SystemNames<'t> {
    text: &'t [u8],
    names: Option<List<List<u8>>>,
}

impl<'t> Model for SystemNames<'t> {
    ghost use Rattle.std.specs.Prelude.{◌≡◌, List, ℕ};
    ghost use Rattle.std.specs.Option.{ForSome};
    ghost use Rattle.deck_form.specs.SystemNames.{names_in};

    ghost Value = { List (List ℕ) };

    ghost view = { λ a. names_in a.text.now };

    ghost invariant = { λ a. ForSome a.names (λ names. names ≡ names_in a.text.now) };
}

impl<'t> SystemNames<'t> {
    /// The names that this text gives.
    pub fn new(text: &'t [u8]) -> Self
        ensures { result ≡ names_in text.now }
    {
        SystemNames { text, names: None }
    }

    /// Where this name stands among them for the first time.
    pub fn place(&mut self, alloc: Global, name: &[u8]) -> Result<Option<usize>, NoMemory>
        ensures place { IfOk result (λ place. place ≡ name_place self.old name.now) }
        ensures same { self.new ≡ self.old }
    {
        if let Some(names) = &self.names {
            return Ok(place_among(names.as_slice(), name));
        }
        let names = gather(alloc, self.text)?;
        let place = place_among(names.as_slice(), name);
        self.names = Some(names);
        Ok(place)
    }
}
