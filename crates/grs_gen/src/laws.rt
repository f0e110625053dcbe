//! The law of decks that are made from a number. There is nothing to run.
ghost use Rattle.std.specs.Prelude.{ℕ};
ghost use Rattle.grs_gen.specs.Generated.{IsSize, deck_of};
ghost use Rattle.grs_wire.specs.Decks.{IsDeck};

/// The deck of a number keeps all that a deck keeps that is read, so that what holds of these decks and their runs holds of it.
pub fn are_decks()
    ensures { (n : ℕ) → IsSize n → IsDeck (deck_of n) }
{}
