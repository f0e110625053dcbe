//! The systems of a deck beside each other, from their first events until all have come to rest.
ghost use Rattle.std.specs.Prelude.{◌≡◌, true, length, map, All, IfOk};
ghost use Rattle.grs_wire.specs.Decks.{IsBounded};
ghost use Rattle.grs_workers.specs.Beside.{medium_of, RanBeside, AllLast, AreFirst, IsOver};
ghost use Rattle.grs_workers.specs.Rounds.{Grew, Each};
ghost use Rattle.grs_workers.specs.Stands.{stand, IsOn, Agrees};

use crate::crew::workers_of;
use crate::gate::Gate;
use crate::rounds::round;
use crate::stretch::stretch;
use crate::worker::Worker;
use grs_base::{List, NoMemory};
use grs_bus::{Bus, Seat};
use grs_medium::Medium;
use grs_node::Node;
use grs_wire::{Deck, JEntry};
use std::alloc::Global;
use std::sync::Wait;
use std::thread::Threads;

/// What systems that ran beside each other leave behind: the medium, the journal of its calls, and the systems in their order,
/// each with its log.
#[derive(Drop)]
pub struct Ran<'d> {
    pub medium: Medium,
    pub journal: List<JEntry>,
    pub nodes: List<Node<'d>>,
}

/// A bus over the medium of a deck, and a worker for each system.
#[tactic(auto, using(crate::proofs::RanLaws::begins))]
fn begin<'d>(alloc: Global, deck: &'d Deck) -> Result<(Bus, Vec<Worker<'d>>), NoMemory>
    requires { IsBounded deck.now }
    ensures first { IfOk result (λ x. x.0.first ≡ medium_of deck.now) }
    ensures workers { IfOk result (λ x. AreFirst deck.now x.0 x.1.items) }
    ensures on { IfOk result (λ x. All (λ w. IsOn x.0 (stand w)) x.1.items) }
    ensures agree { IfOk result (λ x. All (λ w. Agrees (stand w)) x.1.items) }
{
    let systems = deck.systems.len() as u32;
    let medium = Medium::new(alloc, systems, deck.entries, deck.star)?;
    let (bus, seats) = Bus::new(alloc, medium, systems)?;
    let workers = workers_of(alloc, deck, &bus, seats)?;
    Ok((bus, workers))
}

/// A stretch, and behind it a round, where each worker was answered Over or Removed, or nobody got on: the workers, and whether each was
/// answered so in the round.
#[tactic(auto, using(crate::proofs::RoundLaws::rounds))]
fn stretch_and_round<'d, R: Threads + Wait + Sync, G: Gate + Sync>(
    rt: &R,
    alloc: Global,
    bus: &Bus,
    workers: Vec<Worker<'d>>,
    gate: &G,
) -> Result<(Vec<Worker<'d>>, bool), NoMemory>
    requires on { All (λ w. IsOn bus.now (stand w)) workers.items }
    requires agree { All (λ w. Agrees (stand w)) workers.items }
    ensures grew { IfOk result (λ x. Each (λ v w. Grew (stand v) (stand w)) workers.entry.items x.0.items) }
    ensures count { IfOk result (λ x. length x.0.items ≡ length workers.entry.items) }
    ensures over { IfOk result (λ x. x.1 ≡ true → All (λ w. IsOver (stand w)) x.0.items) }
    ensures on { IfOk result (λ x. All (λ w. IsOn bus.now (stand w)) x.0.items) }
    ensures agree { IfOk result (λ x. All (λ w. Agrees (stand w)) x.0.items) }
{
    let (mut moved, ends) = stretch(rt, alloc, bus, workers, gate)?;
    if !ends {
        return Ok((moved, false));
    }
    let over = round(rt, bus, moved.as_mut_slice(), gate)?;
    Ok((moved, over))
}

/// Stretches and rounds, until each worker is answered Over or Removed in a round.
#[tactic(auto, using(crate::proofs::RoundLaws::rounds))]
fn rounds<'d, R: Threads + Wait + Sync, G: Gate + Sync>(
    rt: &R,
    alloc: Global,
    bus: &Bus,
    workers: Vec<Worker<'d>>,
    gate: &G,
) -> Result<Vec<Worker<'d>>, NoMemory>
    requires on { All (λ w. IsOn bus.now (stand w)) workers.items }
    requires agree { All (λ w. Agrees (stand w)) workers.items }
    ensures grew { IfOk result (λ ws. Each (λ v w. Grew (stand v) (stand w)) workers.entry.items ws.items) }
    ensures count { IfOk result (λ ws. length ws.items ≡ length workers.entry.items) }
    ensures over { IfOk result (λ ws. All (λ w. IsOver (stand w)) ws.items) }
{
    let mut workers = workers;
    for _ in rt.forever() {
        let (moved, over) = stretch_and_round(rt, alloc, bus, workers, gate)?;
        workers = moved;
        if over {
            return Ok(workers);
        }
    }
    unreachable!()
}

/// The systems of workers, and their seats.
fn apart<'d>(
    alloc: Global,
    workers: Vec<Worker<'d>>,
) -> Result<(List<Node<'d>>, List<Seat>), NoMemory>
    ensures nodes { IfOk result (λ x. x.0 ≡ map (λ w. w.node) workers.entry.items) }
    ensures seats { IfOk result (λ x. x.1 ≡ map (λ w. w.seat) workers.entry.items) }
{
    let mut nodes = List::new(alloc);
    let mut seats = List::new(alloc);
    for worker in workers {
        nodes.push(worker.node)?;
        seats.push(worker.seat)?;
    }
    Ok((nodes, seats))
}

/// Runs the systems of a deck beside each other, for which it waits, until each was answered that all have come to rest, or that
/// it was removed. The gate is lent each worker ahead of its calls and behind them, and is told how its sleeps end.
pub fn run_workers<'d, R: Threads + Wait + Sync, G: Gate + Sync>(
    rt: &R,
    alloc: Global,
    deck: &'d Deck,
    gate: &G,
) -> Result<Ran<'d>, NoMemory>
    requires { IsBounded deck.now }
    ensures ran { IfOk result (λ r. RanBeside deck.now r.medium.state r.journal r.nodes) }
    ensures last { IfOk result (λ r. AllLast deck.now r.journal) }
{
    let (bus, first) = begin(alloc, deck)?;
    let workers = rounds(rt, alloc, &bus, first, gate)?;
    let (nodes, seats) = apart(alloc, workers)?;
    let (medium, journal) = bus.close(seats);
    Ok(Ran {
        medium,
        journal,
        nodes,
    })
}
