//! The events of a run in which a system stops, as it may at any event: what it would have done behind that is left out, and
//! where another removed it, the message goes one lap more.
ghost use Rattle.std.specs.Prelude.{◌≡◌, ◌<◌, ◌++◌, IfOk, OnOk};
ghost use Rattle.grs_wire.specs.Decks.{IsBounded};
ghost use Rattle.grs_world.specs.Stopped as definitions;
ghost use Rattle.grs_world.specs.Stopped.{cut, goes_lap, left_of};

use super::world::{World, replay};
use grs_base::{List, NoMemory, SysId};
use grs_wire::masks::has_system;
use grs_wire::{Deck, Event};
use std::alloc::Global;

/// How many events the system has left behind this one, of so many before it. None where the event isn't made: it is the
/// system's, which has none left.
#[tactic(auto, unfolding(crate::specs::Stopped::left_of))]
fn left_of(system: SysId, left: u32, event: &Event) -> Option<u32>
    ensures { result ≡ left_of system left event.now }
{
    if event.system.0 != system.0 {
        return Some(left);
    }
    if left == 0 { None } else { Some(left - 1) }
}

/// These events without those that the system makes behind its first so many.
fn cut(
    alloc: Global,
    events: &[Event],
    system: SysId,
    events_made: u32,
) -> Result<List<Event>, NoMemory>
    ensures { IfOk result (λ kept. kept ≡ cut system events_made events.now) }
{
    let mut kept = List::new(alloc);
    let mut left = events_made;
    for event in events {
        match left_of(system, left, event) {
            Some(behind) => {
                kept.push(*event)?;
                left = behind;
            }
            None => {}
        }
    }
    Ok(kept)
}

/// Whether a lap is gone behind a run in which the system stopped: in ring mode, where it was removed.
fn goes_lap(world: &World<'_>, system: SysId) -> bool
    requires { system.0 < 32 }
    ensures { result ≡ goes_lap system world.now.world }
{
    !world.medium().star() && has_system(world.medium().removed(), system)
}

/// Adds the Turns of a lap to the events before.
fn add_turns(events: &mut List<Event>, turns: List<Event>) -> Result<(), NoMemory>
    ensures { OnOk result (events.new ≡ events.old ++ turns) }
{
    for turn in turns.into_vec() {
        events.push(turn)?;
    }
    Ok(())
}

/// What these events of a deck come to where the system of this number stops behind its first so many: the events that are left,
/// and behind them one lap of the message (`World::lap`) where the complex then is in ring mode and the system was removed. What
/// stood in the message then is processed by all that are left.
///
/// NoMemory comes where memory is wanting, or there were 2^57 events.
pub fn stopped(
    alloc: Global,
    deck: &Deck,
    events: &[Event],
    system: SysId,
    events_made: u32,
) -> Result<List<Event>, NoMemory>
    requires deck { IsBounded deck.now }
    requires system { system.0 < 32 }
    ensures { IfOk result (λ all. all ≡ definitions.stopped deck.now system events_made events.now) }
{
    let mut kept = cut(alloc, events, system, events_made)?;
    let mut world = replay(alloc, deck, kept.as_slice())?;
    if goes_lap(&world, system) {
        let turns = world.lap()?;
        add_turns(&mut kept, turns)?;
    }
    Ok(kept)
}
