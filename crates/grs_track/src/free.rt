//! Whether a task owns what it waits for.
ghost use Rattle.std.specs.Prelude.{◌≡◌};
ghost use Rattle.grs_base.specs.Lists.{owns};
ghost use Rattle.grs_base.specs.State.{list_of};
ghost use Rattle.grs_track.specs.Track.{is_free};
ghost use Rattle.grs_track.specs.Walk.{is_granted};

use grs_base::{Code, Res, TaskId};
use qel_store::LinkedQueues;
use queue_table::Table;

/// Whether a task that a DEQ with RET=HAVE would be answered so owns the resource.
fn is_granted(code: Code) -> bool
    ensures { result ≡ is_granted code }
{
    match code {
        Code::C00 => true,
        _ => false,
    }
}

/// Whether a task owns a resource.
fn owns(table: &Table<LinkedQueues>, task: TaskId, res: &Res) -> bool
    ensures { result ≡ owns (list_of table.now.elements res.now) task }
{
    is_granted(table.decide_deq(res, task, true))
}

/// Whether a task owns what it waits for, if it waits.
pub(crate) fn is_free(table: &Table<LinkedQueues>, task: TaskId, waits: &Option<Res>) -> bool
    ensures { result ≡ is_free table.now.elements task waits.now }
{
    match waits {
        Some(res) => owns(table, task, res),
        None => true,
    }
}
