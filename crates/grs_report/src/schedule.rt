//! The events of a run as lines. They have the form in which a deck gives a schedule.
ghost use Rattle.std.specs.Prelude.{◌≡◌, ◌++◌, ◌∷◌, [], OnOk};
ghost use Rattle.std.specs.Fmt.{decimal};
ghost use Rattle.std.specs.List.{flat_map};
ghost use Rattle.grs_display.specs.Lines.{line};
ghost use Rattle.grs_display.specs.Names.{task_in_job};
ghost use Rattle.grs_report.specs.Schedule.{event_line, schedule_text};

use grs_base::{List, NoMemory, TaskId};
use grs_display::{name_at, put_count, put_line, put_number_word, put_task_in_job, put_word};
use grs_wire::{Choice, Event, Names};

/// Puts the event of a task behind a text.
#[tactic(auto, unfolding(grs_display::specs::Lines::line))]
fn put_task_event(
    names: &Names,
    system: &[u8],
    kind: &[u8],
    task: TaskId,
    out: &mut List<u8>,
) -> Result<(), NoMemory>
    ensures { OnOk result (out.new ≡ out.old
        ++ line (system.now ∷ kind.now ∷ task_in_job names.now task ∷ [])) }
{
    out.append(system)?;
    put_word(kind, out)?;
    out.push(b' ')?;
    put_task_in_job(names, task, out)?;
    out.push(b'\n')
}

/// Puts the event of an entry behind a text.
#[tactic(auto, unfolding(grs_display::specs::Lines::line))]
fn put_entry_event(
    system: &[u8],
    kind: &[u8],
    entry: u32,
    out: &mut List<u8>,
) -> Result<(), NoMemory>
    ensures { OnOk result (out.new ≡ out.old ++ line (system.now ∷ kind.now ∷ decimal entry ∷ [])) }
{
    out.append(system)?;
    put_word(kind, out)?;
    put_number_word(u64::from(entry), out)?;
    out.push(b'\n')
}

/// Puts an event that its kind says whole behind a text.
#[tactic(auto, unfolding(grs_display::specs::Lines::line))]
fn put_plain_event(system: &[u8], kind: &[u8], out: &mut List<u8>) -> Result<(), NoMemory>
    ensures { OnOk result (out.new ≡ out.old ++ line (system.now ∷ kind.now ∷ [])) }
{
    out.append(system)?;
    put_word(kind, out)?;
    out.push(b'\n')
}

/// Puts an event behind a text.
#[tactic(auto, unfolding(crate::specs::Schedule::event_line, crate::specs::Schedule::choice_words))]
fn put_event(names: &Names, event: Event, out: &mut List<u8>) -> Result<(), NoMemory>
    ensures { OnOk result (out.new ≡ out.old ++ event_line names.now event) }
{
    let system = name_at(&names.systems, usize::from(event.system.0));
    match event.choice {
        Choice::Task(task) => put_task_event(names, system, b"TASK", task, out),
        Choice::Send(task) => put_task_event(names, system, b"SEND", task, out),
        Choice::Tell(entry) => put_entry_event(system, b"TELL", entry, out),
        Choice::Part(entry) => put_entry_event(system, b"PART", entry, out),
        Choice::Leave(entry) => put_entry_event(system, b"LEAVE", entry, out),
        Choice::Purge(target) => {
            let target = name_at(&names.systems, usize::from(target.0));
            put_line(&[system, b"PURGE", target], out)
        }
        Choice::Turn => put_plain_event(system, b"TURN", out),
        Choice::Take => put_plain_event(system, b"TAKE", out),
        Choice::Settle => put_plain_event(system, b"SETTLE", out),
        Choice::Switch => put_plain_event(system, b"SWITCH", out),
        Choice::Rest => put_plain_event(system, b"REST", out),
    }
}

/// Puts events behind a text, each as a line.
fn put_events(names: &Names, events: &[Event], out: &mut List<u8>) -> Result<(), NoMemory>
    ensures { OnOk result (out.new ≡ out.old ++ flat_map (event_line names.now) events.now) }
{
    for event in events {
        put_event(names, *event, out)?;
    }
    Ok(())
}

/// Puts the schedule behind a text.
#[tactic(auto, unfolding(crate::specs::Schedule::schedule_text))]
pub(crate) fn put_schedule(
    names: &Names,
    events: &[Event],
    out: &mut List<u8>,
) -> Result<(), NoMemory>
    ensures { OnOk result (out.new ≡ out.old ++ schedule_text names.now events.now) }
{
    put_count(b"SCHEDULE", events.len(), out)?;
    put_events(names, events, out)
}
