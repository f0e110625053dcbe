//! The workers of a deck.
ghost use Rattle.std.specs.Prelude.{◌≡◌, ◌<◌, ◌∷◌, ◌++◌, [], length, map, vec_len, vec_capacity, All, IfOk, OnOk};
ghost use Rattle.grs_bus.specs.Seats.{AllSeats, AreTheSeats, IsNew};
ghost use Rattle.grs_medium.specs.Medium.{systems_of};
ghost use Rattle.grs_wire.specs.Decks.{IsBounded};
ghost use Rattle.grs_workers.specs.Stands.{stand, first_stand, IsOn, Agrees};

use crate::agenda::Agenda;
use crate::worker::Worker;
use grs_base::{List, NoMemory};
use grs_bus::{Bus, Seat};
use grs_node::Node;
use grs_wire::Deck;
use std::alloc::Global;

/// Makes room for one worker more.
fn make_room(workers: &mut Vec<Worker<'_>>) -> Result<(), NoMemory>
    ensures same { workers.new.items ≡ workers.old.items }
    ensures room { OnOk result (vec_len workers.new < vec_capacity workers.new) }
{
    match workers.reserve(1) {
        Ok(()) => Ok(()),
        Err(_) => Err(NoMemory),
    }
}

/// Adds a worker with this seat, of the system whose seat it is. All that may want memory is made ahead of the worker, so that
/// no system is dropped here.
fn add_worker<'d>(
    alloc: Global,
    deck: &'d Deck,
    workers: &mut Vec<Worker<'d>>,
    seat: Seat,
) -> Result<(), NoMemory>
    requires deck { IsBounded deck.now }
    requires system { seat.system.0 < length deck.now.systems }
    ensures { OnOk result (map stand workers.new.items ≡ map stand workers.old.items ++ first_stand deck.now seat ∷ []) }
{
    make_room(workers)?;
    let agenda = Agenda::new(alloc, deck, seat.system())?;
    let node = Node::new(alloc, deck, seat.system())?;
    workers.push_reserved(Worker::new(node, seat, agenda));
    Ok(())
}

/// A worker with each of these seats.
fn workers_with<'d>(
    alloc: Global,
    deck: &'d Deck,
    seats: List<Seat>,
) -> Result<Vec<Worker<'d>>, NoMemory>
    requires deck { IsBounded deck.now }
    requires systems { All (λ v. v.system.0 < length deck.now.systems) seats }
    ensures { IfOk result (λ ws. map stand ws.items ≡ map (first_stand deck.now) seats) }
{
    let mut workers = Vec::new(alloc);
    for seat in seats.into_vec() {
        add_worker(alloc, deck, &mut workers, seat)?;
    }
    Ok(workers)
}

/// The workers of a deck at a bus, before their first round: a worker for each system, with the system's seat, in the
/// order of the systems. The medium of the bus has as many systems and lock entries as the deck.
#[tactic(auto, using(crate::proofs::FirstStands::first_stands))]
pub fn workers_of<'d>(
    alloc: Global,
    deck: &'d Deck,
    bus: &Bus,
    seats: List<Seat>,
) -> Result<Vec<Worker<'d>>, NoMemory>
    requires deck { IsBounded deck.now }
    requires seats { AreTheSeats bus.now seats }
    requires new { AllSeats IsNew seats }
    requires count { length seats ≡ length deck.now.systems }
    requires systems { systems_of bus.now.first ≡ length deck.now.systems }
    requires entries { length bus.now.first.words ≡ deck.now.entries }
    ensures workers { IfOk result (λ ws. map stand ws.items ≡ map (first_stand deck.now) seats) }
    ensures on { IfOk result (λ ws. All (λ w. IsOn bus.now (stand w)) ws.items) }
    ensures agree { IfOk result (λ ws. All (λ w. Agrees (stand w)) ws.items) }
{
    workers_with(alloc, deck, seats)
}
