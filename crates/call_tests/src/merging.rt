//! Logs of systems that ran beside each other, in the order of a journal. What the program runs by a schedule needs none.
ghost use Rattle.std.specs.Prelude.{◌≡◌, ◌≤◌, length, IfOk};
ghost use Rattle.grs_base.specs.Limits.{most_systems};

use grs_base::{List, NoMemory, SysId, TaskId};
use grs_history::merge;
use grs_wire::{Act, Call, Choice, Event, JEntry, NodeLog, Reply, StepDone, ToldLine};
use std::alloc::Global;
use std::test::Fail;

fn step(alloc: Global, choice: Choice, journalled: bool) -> StepDone {
    StepDone {
        choice,
        journalled,
        fixed: List::new(alloc),
        told: List::new(alloc),
    }
}

/// A step in which the first task of a system is told its end.
fn telling(alloc: Global, system: SysId) -> Result<StepDone, NoMemory> {
    let task = TaskId {
        system,
        job: 0,
        task: 0,
    };
    let mut told = List::new(alloc);
    told.push(ToldLine::Ended { task, code: 0 })?;
    Ok(StepDone {
        choice: Choice::Task(task),
        journalled: false,
        fixed: List::new(alloc),
        told,
    })
}

/// A journal of calls of these systems, of which nothing but their order matters.
fn journal(alloc: Global, systems: &[u8]) -> Result<List<JEntry>, NoMemory> {
    let mut journal = List::new(alloc);
    for system in systems {
        journal.push(JEntry {
            system: SysId(*system),
            call: Call {
                known: 0,
                act: Act::Rest,
            },
            reply: Reply::Resting,
        })?;
    }
    Ok(journal)
}

/// One system turns, tells its task's end and rests; the other one rests twice.
fn logs(alloc: Global) -> Result<List<NodeLog>, NoMemory>
    ensures { IfOk result (λ logs. length logs ≡ 2) }
{
    let mut first = List::new(alloc);
    first.push(step(alloc, Choice::Turn, true))?;
    first.push(telling(alloc, SysId(0))?)?;
    first.push(step(alloc, Choice::Rest, true))?;
    let mut second = List::new(alloc);
    second.push(telling(alloc, SysId(1))?)?;
    second.push(step(alloc, Choice::Rest, true))?;
    second.push(step(alloc, Choice::Rest, true))?;
    let mut logs = List::new(alloc);
    logs.push(NodeLog { steps: first })?;
    logs.push(NodeLog { steps: second })?;
    Ok(logs)
}

fn event(system: u8, choice: Choice) -> Event {
    Event {
        system: SysId(system),
        choice,
    }
}

/// The events, how many entries the history has, and with which events the lines stand.
#[derive(Drop)]
struct Shown {
    events: List<Event>,
    hist: usize,
    told: [u64; 2],
}

fn merged_in_brief(
    alloc: Global,
    journal: &List<JEntry>,
    logs: &List<NodeLog>,
) -> Result<Shown, NoMemory>
    requires { length logs.now ≤ most_systems }
{
    let merged = merge(alloc, journal.as_slice(), logs.as_slice())?;
    let told = match merged.told.as_slice() {
        [first, second] => [first.event, second.event],
        _ => [0, 0],
    };
    Ok(Shown {
        hist: merged.hist.len(),
        events: merged.events,
        told,
    })
}

fn with_logs(alloc: Global, journal: &List<JEntry>) -> Result<Shown, NoMemory> {
    let logs = logs(alloc)?;
    merged_in_brief(alloc, journal, &logs)
}

fn with_journal(alloc: Global) -> Result<Shown, NoMemory> {
    let journal = journal(alloc, &[1, 0, 1, 0])?;
    with_logs(alloc, &journal)
}

fn task(system: u8) -> Choice {
    Choice::Task(TaskId {
        system: SysId(system),
        job: 0,
        task: 0,
    })
}

#[test]
fn steps_stand_in_the_order_of_the_journal(rt: HostRuntime) -> Result<(), Fail> {
    let shown = with_journal(rt.alloc())?;
    let expected = [
        event(1, task(1)),
        event(1, Choice::Rest),
        event(0, Choice::Turn),
        event(0, task(0)),
        event(1, Choice::Rest),
        event(0, Choice::Rest),
    ];
    assert_eq!(rt; shown.events.as_slice(), &expected[..]);
    assert_eq!(rt; shown.hist, 0);
    assert_eq!(rt; shown.told, [1, 4]);
    Ok(())
}
