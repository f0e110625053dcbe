//! What is wrong with a call, behind those that were read. Each test is one kind of fault.
ghost use Rattle.std.specs.Prelude.{◌≡◌, ◌≤◌, ◌+◌};
ghost use Rattle.grs_latch.specs.Limits.{most_sets};
ghost use Rattle.latch_form.specs.Drafts.{makes};
ghost use Rattle.latch_form.specs.Reading.{is_too_long, is_full, verdict};

use crate::form::{Ask, GivenCall};
use grs_base::{Kind, List, MOST_NAME_BYTES};
use grs_latch::{LatchCall, MOST_SETS};

/// The most calls of a text.
const MOST_CALLS: usize = 16_384;

/// The calls that were read so far.
#[derive(Drop)]
pub struct Draft {
    pub calls: List<LatchCall>,
    /// How many of them are to make a set: as many as there may be sets, at most.
    pub made: u32,
}

/// How many sets a call makes, if they aren't there.
pub(crate) fn makes(ask: Ask) -> u32
    ensures makes { result ≡ makes ask }
    ensures one { result ≤ 1 }
{
    match ask {
        Ask::Make(_) => 1,
        _ => 0,
    }
}

fn is_too_long(call: &GivenCall<'_>) -> bool
    ensures { result ≡ is_too_long call.now }
{
    call.set.bytes().len() > MOST_NAME_BYTES
}

fn is_full(draft: &Draft, call: &GivenCall<'_>) -> bool
    requires { draft.now.made ≤ most_sets }
    ensures { result ≡ is_full draft.now call.now }
{
    MOST_CALLS <= draft.calls.len() || MOST_SETS < draft.made + makes(call.ask)
}

/// The least kind that applies to a call of the right form.
pub(crate) fn verdict(draft: &Draft, call: &GivenCall<'_>) -> Option<Kind>
    requires { draft.now.made ≤ most_sets }
    ensures { result ≡ verdict draft.now call.now }
{
    if is_too_long(call) {
        Some(Kind::NameLength)
    } else if is_full(draft, call) {
        Some(Kind::TooMany)
    } else {
        None
    }
}
