//! The rounds of events that run a deck.
ghost use Rattle.std.specs.Prelude.{◌≡◌, ◌≤◌, ◌++◌, ◌∷◌, [], map, drop, length, IfOk, OnOk};
ghost use Rattle.std.specs.List.{range_with_len};
ghost use Rattle.grs_base.specs.Limits.{most_jobs, most_tasks};
ghost use Rattle.grs_wire.specs.Decks.{task_count, IsDeck};
ghost use Rattle.grs_wire.specs.declared.deck.Choice.TheVariants as choices;
ghost use Rattle.deck_tasks.specs.Tasks.{tasks_from};
ghost use Rattle.grs_wire.specs.declared.deck.Deck.{Deck as DeckValue};
ghost use Rattle.grs_gen.specs.Rounds.{by, system_round, switch_in, switch_round, round_of};

use deck_tasks::tasks_of_system;
use grs_base::{List, NoMemory, SysId, TaskId};
use grs_wire::{Choice, Deck, Event, JobDef};
use std::alloc::Global;

/// The round from which on the complex is to change to star mode. All rounds from it on have the same events.
pub const SWITCH_ROUND: u32 = 3;

/// These events without the first.
fn behind_first(events: &[Event]) -> &[Event]
    ensures { result.now ≡ drop 1 events.now }
{
    match events.split_first() {
        Some((_, rest)) => rest,
        None => events,
    }
}

/// Puts an event of a system last.
fn put(system: SysId, choice: Choice, out: &mut List<Event>) -> Result<(), NoMemory>
    ensures { OnOk result (out.new ≡ out.old ++ by system choice ∷ []) }
{
    out.push(Event { system, choice })
}

/// Puts the change to star mode last, in a round in which it is due.
fn put_switch(round: u32, out: &mut List<Event>) -> Result<(), NoMemory>
    ensures { OnOk result (out.new ≡ out.old ++ switch_in round) }
{
    if round >= SWITCH_ROUND {
        put(SysId(0), Choice::Switch, out)?;
    }
    Ok(())
}

/// Puts a step of each of these tasks last.
fn put_tasks(system: SysId, tasks: &[TaskId], out: &mut List<Event>) -> Result<(), NoMemory>
    ensures { OnOk result (out.new ≡ out.old ++ map (λ t. by system (choices.Task t)) tasks.now) }
{
    for task in tasks {
        put(system, Choice::Task(*task), out)?;
    }
    Ok(())
}

/// Puts the sending of each task's request last.
fn put_sends(system: SysId, tasks: &[TaskId], out: &mut List<Event>) -> Result<(), NoMemory>
    ensures { OnOk result (out.new ≡ out.old ++ map (λ t. by system (choices.Send t)) tasks.now) }
{
    for task in tasks {
        put(system, Choice::Send(*task), out)?;
    }
    Ok(())
}

/// Puts the telling of each lock entry's owners last.
fn put_tells(system: SysId, entries: u32, out: &mut List<Event>) -> Result<(), NoMemory>
    ensures { OnOk result (out.new ≡ out.old ++ map (λ e. by system (choices.Tell e)) (range_with_len 0 entries)) }
{
    for entry in 0..entries {
        put(system, Choice::Tell(entry), out)?;
    }
    Ok(())
}

/// Puts the events of a system with these tasks last.
fn put_events(
    system: SysId,
    tasks: &[TaskId],
    entries: u32,
    out: &mut List<Event>,
) -> Result<(), NoMemory>
    ensures { OnOk result (out.new ≡ out.old ++ system_round system tasks.now entries) }
{
    put_tasks(system, tasks, out)?;
    put(system, Choice::Turn, out)?;
    put_sends(system, tasks, out)?;
    put(system, Choice::Take, out)?;
    put(system, Choice::Settle, out)?;
    put_tells(system, entries, out)
}

/// Puts the events of a system with these jobs last.
fn put_system(
    alloc: Global,
    system: SysId,
    jobs: &[JobDef],
    entries: u32,
    out: &mut List<Event>,
) -> Result<(), NoMemory>
    requires jobs { length jobs.now ≤ most_jobs }
    requires tasks { task_count jobs.now ≤ most_tasks }
    ensures { OnOk result (out.new ≡ out.old ++ system_round system (tasks_from system 0 0 jobs.now) entries) }
{
    let tasks = tasks_of_system(alloc, system, jobs)?;
    put_events(system, tasks.as_slice(), entries, out)
}

/// The events of a round, which is numbered from 1: of each system in order TASK of each of its tasks, TURN, SEND of each,
/// TAKE, SETTLE, and TELL of each lock entry; from the third round on SWITCH of the first system ahead of all.
#[tactic(auto, unfolding(crate::specs::Rounds::round_of))]
pub fn round_events(alloc: Global, deck: &Deck, round: u32) -> Result<List<Event>, NoMemory>
    requires { IsDeck deck.now }
    ensures { IfOk result (λ events. events ≡ round_of deck.now round) }
{
    let mut out = List::new(alloc);
    put_switch(round, &mut out)?;
    for (place, def) in deck.systems.as_slice().iter().enumerate() {
        put_system(
            alloc,
            SysId(place as u8),
            def.jobs.as_slice(),
            deck.entries,
            &mut out,
        )?;
    }
    Ok(out)
}

/// The events of a round, given those of the round `SWITCH_ROUND`: an earlier one has the same without the first.
#[tactic(auto, using(crate::proofs::RoundLemmas::earlier_rounds))]
pub fn events_in(last: &[Event], round: u32) -> &[Event]
    ensures { (deck : DeckValue) → last.now ≡ round_of deck switch_round → result.now ≡ round_of deck round }
{
    if round >= SWITCH_ROUND {
        last
    } else {
        behind_first(last)
    }
}
