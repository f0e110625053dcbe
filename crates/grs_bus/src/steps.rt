//! The rule that all seats keep, and the steps on the word that keep it.
ghost use Rattle.grs_bus.specs.Rule.{IsKept, founder, cut_left, cut_right, joined, spent_view};
ghost use Rattle.grs_bus.specs.Steps.{took, gave};

use crate::slot::Slot;
use crate::view::View;
use atomic_table::{Join, Play, Split, TableRule};
use grs_medium::Medium;
use std::snapshot::Snapshot;

/// The rule; its key is the medium as it was handed in.
pub struct InTurn;

impl TableRule<Slot, View, Snapshot<Medium>> for InTurn {
    ghost holds = { λ key. IsKept key.value };

    ghost first = { λ key. founder key.value };
}

/// A seat takes the word.
pub struct Take;

impl Play<Slot, View> for Take {
    ghost then = { took };
}

/// A seat gives the word back.
pub struct GiveBack;

impl Play<Slot, View> for GiveBack {
    ghost then = { gave };
}

/// The first seat cuts another one off.
pub struct CutOff;

impl Split<View> for CutOff {
    ghost left = { cut_left };

    ghost right = { cut_right };
}

/// The first seat takes another one in.
pub struct TakeIn;

impl Join<View> for TakeIn {
    ghost both = { joined };

    ghost spent = { spent_view };
}
