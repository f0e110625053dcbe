//! Which systems were removed, and which may be removed by which.
ghost use Rattle.std.specs.Prelude.{◌≡◌, option_copied, slice_get};
ghost use Rattle.std.specs.List.{list_any};
ghost use Rattle.grs_legal.specs.Legal as legal;
ghost use Rattle.grs_track.specs.Tracks as tracks;

use grs_base::SysId;
use grs_wire::{Deck, Desk, Order, SystemDef};

/// Whether a system was removed.
pub(crate) fn is_removed(removed: &[SysId], system: SysId) -> bool
    ensures { result ≡ tracks.is_removed removed.now system }
{
    removed.iter().any(|other| system.0 == other.0)
}

/// Whether a command is to remove this system.
fn is_removal_of(target: SysId, order: Order) -> bool
    ensures { result ≡ legal.is_removal_of target order }
{
    match order {
        Order::Star => false,
        Order::Vary(named) => target.0 == named.0,
    }
}

/// Whether one of these commands is to remove this system.
fn names_removal(target: SysId, desk: &[Desk]) -> bool
    ensures { result ≡ list_any (λ c. legal.is_removal_of target c.order) desk.now }
{
    desk.iter()
        .any(|command| is_removal_of(target, command.order))
}

/// The system of a number, if it is there.
fn system_at(deck: &Deck, system: SysId) -> Option<&SystemDef>
    ensures { option_copied result ≡ slice_get deck.now.systems system.0 }
{
    deck.systems.as_slice().get(usize::from(system.0))
}

/// Whether the desk of a system, if it is there, commands the removal of another.
pub(crate) fn commands_removal(deck: &Deck, by: SysId, target: SysId) -> bool
    ensures { result ≡ legal.commands_removal target (slice_get deck.now.systems by.0) }
{
    match system_at(deck, by) {
        Some(def) => names_removal(target, def.desk.as_slice()),
        None => false,
    }
}
