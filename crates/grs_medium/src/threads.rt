//! What may be handed to another thread, or lent to several. There is nothing to run.
use super::medium::{Medium, TurnRefusal};
use grs_base::threads::crosses;

/// A medium, with the message in it, may be handed to another thread, and lent to several.
pub fn media_cross(medium: &Medium) {
    crosses(medium)
}

/// So may what a Turn is answered that is refused.
pub fn refusals_cross(refusal: &TurnRefusal) {
    crosses(refusal)
}
