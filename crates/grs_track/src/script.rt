//! Which task of a deck has which lines. The lines stay in the deck.
ghost use Rattle.std.specs.Prelude.{◌≡◌, option_copied, slice_get};
ghost use Rattle.grs_legal.specs.Asks.{lines_at, lines_in, scripts_from, scripts_in, scripts_of};
ghost use Rattle.grs_track.specs.Tracks.{script_of};

use grs_base::{Line, List, TaskId};
use grs_wire::{Deck, JobDef, TaskDef};

/// The lines of a task that stands at a place among those of the job of a number.
fn lines_in_job<'d>(
    number: usize,
    tasks: &'d [TaskDef],
    place: usize,
    task: TaskId,
) -> Option<&'d List<Line>>
    ensures { option_copied result ≡ lines_at task.job (slice_get (scripts_in number tasks.now) place) }
{
    match tasks.get(place) {
        Some(def) => {
            if number == task.job as usize {
                Some(&def.lines)
            } else {
                None
            }
        }
        None => None,
    }
}

/// The lines of a task of these jobs, each of which has its tasks behind those of the jobs before it.
fn lines_in_jobs(jobs: &[JobDef], task: TaskId) -> Option<&List<Line>>
    ensures { option_copied result ≡ lines_in (scripts_from 0 jobs.now) task }
{
    let mut place = task.task as usize;
    for (number, job) in jobs.iter().enumerate() {
        let count = job.tasks.len();
        if place < count {
            return lines_in_job(number, job.tasks.as_slice(), place, task);
        }
        place -= count;
    }
    None
}

/// The lines of a task of a deck, if the deck has it.
pub(crate) fn lines_of(deck: &Deck, task: TaskId) -> Option<&List<Line>>
    ensures { option_copied result ≡ lines_in (scripts_of deck.now task.system.0) task }
{
    match deck.systems.as_slice().get(task.system.0 as usize) {
        Some(def) => lines_in_jobs(def.jobs.as_slice(), task),
        None => None,
    }
}

/// The lines of a task of a deck, none where the deck hasn't the task.
pub(crate) fn script_of(deck: &Deck, task: TaskId) -> &[Line]
    ensures { result.now ≡ script_of deck.now task }
{
    match lines_of(deck, task) {
        Some(lines) => lines.as_slice(),
        None => &[],
    }
}
