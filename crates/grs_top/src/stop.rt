//! A system that stops, as the words of `stop` name it, and where it stands in a deck.
ghost use Rattle.std.specs.Prelude.{◌≡◌, ◌<◌, ◌≤◌, length, IfSome};
ghost use Rattle.grs_base.specs.Limits.{most_name_bytes};
ghost use Rattle.grs_base.specs.ShortNames.{is_name};
ghost use Rattle.grs_deck.specs.Places.{system_place};
ghost use Rattle.grs_top.specs.StopWords.{stop_of, with_blanks};

use deck_form::short_at;
use deck_scan::{Part, Token};
use grs_base::MOST_NAME_BYTES;
use grs_wire::SystemDef;
use std::marker::Model;

/// Which system stops under `stop`, by its name, and how many events it makes before. The first `len` of the bytes that are kept
/// are the name, and the others blanks.
#[derive(Clone, Copy)]
pub struct Stop {
    len: u8,
    kept: [u8; MOST_NAME_BYTES],
    events: u32,
}

impl Model for Stop {
    ghost use Rattle.std.specs.Prelude.{◌≡◌, ◌≤◌, length, take};
    ghost use Rattle.std.proofs.Common.{arith, length-take-le, sym};
    ghost use Rattle.grs_base.specs.Limits.{most_name_bytes};
    ghost use Rattle.grs_top.specs.StopWords.{StopValue, with_blanks};

    ghost Value = { StopValue };

    ghost view = { λ a. record { name = take a.len a.kept; events = a.events } };

    ghost invariant = { λ a. (a.len ≤ most_name_bytes) × (length a.kept ≡ most_name_bytes) × (a.kept ≡ with_blanks (take a.len a.kept)) };

    ghost inverse = { λ v. record { len = length v.name; kept = with_blanks v.name; events = v.events } };

    ghost inverse_ok = { λ a h i. record {
      len = length-take-le a.len a.kept (omega (arith, h.0, h.1)) i;
      kept = sym h.2 i;
      events = a.events;
    } };
}

/// Whether bytes are a name of a system, but for their number: as a word of a statement they would be.
#[tactic(auto, unfolding(deck_form::specs::Words::short_at))]
fn is_name(bytes: &[u8]) -> bool
    ensures { result ≡ is_name bytes.now }
{
    short_at(&[Token::Word(Part::there(bytes))]).is_ok()
}

/// A name with blanks behind it, up to eight bytes.
#[tactic(auto, using(grs_base::proofs::NameLaws::pads))]
fn with_blanks(name: &[u8]) -> [u8; MOST_NAME_BYTES]
    requires { length name.now ≤ most_name_bytes }
    ensures { result ≡ with_blanks name.now }
{
    let mut kept = [b' '; MOST_NAME_BYTES];
    kept[..name.len()].copy_from_slice(name);
    kept
}

impl Stop {
    /// A system's name, and a number of events. None exactly where the name isn't one of 1 to 8 bytes that a system may have.
    pub fn new(name: &[u8], events: u32) -> Option<Stop>
        ensures { result ≡ stop_of name.now events }
    {
        if !is_name(name) || name.len() > MOST_NAME_BYTES {
            return None;
        }
        Some(Stop {
            len: name.len() as u8,
            kept: with_blanks(name),
            events,
        })
    }

    /// The name of the system.
    pub fn name(&self) -> &[u8]
        ensures { result.now ≡ self.now.name }
    {
        &self.kept[..usize::from(self.len)]
    }

    /// How many events it makes before it stops.
    pub fn events(&self) -> u32
        ensures { result ≡ self.now.events }
    {
        self.events
    }
}

/// Where the first system of this name stands.
#[tactic(auto, unfolding(grs_deck::specs::Places::system_place))]
pub(crate) fn system_place(systems: &[SystemDef], name: &[u8]) -> Option<usize>
    ensures at { result ≡ system_place systems.now name.now }
    ensures within { IfSome result (λ i. i < length systems.now) }
{
    systems.iter().position(|s| s.name.as_slice() == name)
}
