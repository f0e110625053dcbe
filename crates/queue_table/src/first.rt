//! Which of its resources a task has had longest.
ghost use Rattle.std.specs.Prelude.{◌≡◌, true, option_copied, slice_get, IfSome, Some};
ghost use Rattle.grs_base.specs.State.{queued_by};
ghost use Rattle.queue_table.specs.Names.{is_paired, name_of, named, IsTable};

use super::resources::Resources;
use grs_base::{Queues, Res, TaskId};

/// The resource at a place, if its queue has this number.
fn named_at(numbers: &Resources, place: usize, queue: u32) -> Option<&Res>
    requires { is_paired numbers.now.entries ≡ true }
    ensures { IfSome result (λ res. name_of numbers.now.entries queue ≡ Some res.now) }
{
    match numbers.entry(place) {
        Some((res, number)) if number == queue => Some(res),
        _ => None,
    }
}

/// The resource whose queue has this number, sought from the first on.
fn name_from(numbers: &Resources, queue: u32) -> Option<&Res>
    ensures { option_copied result ≡ name_of numbers.now.entries queue }
{
    for i in 0..numbers.len() {
        match numbers.entry(i) {
            Some((res, number)) => {
                if number == queue {
                    return Some(res);
                }
            }
            None => unreachable!(),
        }
    }
    None
}

/// The resource whose queue has this number: mostly it stands at the place of the number.
fn name_in(numbers: &Resources, queue: u32) -> Option<&Res>
    requires { is_paired numbers.now.entries ≡ true }
    ensures { option_copied result ≡ name_of numbers.now.entries queue }
{
    match named_at(numbers, queue as usize, queue) {
        Some(res) => Some(res),
        None => name_from(numbers, queue),
    }
}

/// The resource of the first element that a task queued, of those that are there.
pub(crate) fn first_in<'r, Q: Queues>(
    numbers: &'r Resources,
    queues: &Q,
    task: TaskId,
) -> Option<&'r Res>
    requires table { IsTable numbers.now.entries (Q.elements queues.now) (Q.is_live queues.now) }
    ensures { option_copied result ≡ slice_get (queued_by (named numbers.now.entries (Q.elements queues.now)) task) 0 }
{
    match queues.first_of(task) {
        Some(queue) => name_in(numbers, queue),
        None => None,
    }
}
