//! A request of the authority message, at one system.
ghost use Rattle.std.specs.Prelude.{◌≡◌, ◌&&◌, length, OnOk};
ghost use Rattle.task_state.specs.View.{is_task, state_of, is_sent};
ghost use Rattle.ring_mode.specs.Ring as ring;
ghost use Rattle.ring_mode.specs.Ring.{side_of};

use super::same::is_asked;
use grs_base::{NoMemory, Queues};
use grs_wire::{Answer, Req, Want, is_for_all, res_of};
use queue_table::{Outcome, Table};
use std::alloc::Global;
use task_state::{Tasks, tell_answer, tell_new};

/// Whether a request is that of a task of this system which isn't answered yet.
fn is_awaited(tasks: &Tasks, req: &Req) -> bool
    ensures { result ≡ (is_task tasks.now req.now.task && (is_sent (state_of tasks.now req.now.task).phase && ring.is_asked req.now.want (state_of tasks.now req.now.task).outstanding)) }
{
    tasks.has(req.task)
        && tasks.phase(req.task).is_sent()
        && is_asked(&req.want, tasks.asked(req.task))
}

/// Answers an own task that sent this request.
#[tactic(auto, unfolding(crate::specs::Ring::answer_own))]
fn answer_own(alloc: Global, tasks: &mut Tasks, req: &Req, answer: Answer) -> Result<(), NoMemory>
    ensures step { OnOk result (tasks.new ≡ ring.answer_own tasks.old req.now answer) }
    ensures system { tasks.new.system ≡ tasks.old.system }
    ensures count { length tasks.new.tasks ≡ length tasks.old.tasks }
{
    if is_awaited(tasks, req) {
        tell_answer(alloc, tasks, req.task, answer)
    } else {
        Ok(())
    }
}

/// Processes a request. Looks change nothing, so those of another system's task are passed over.
#[tactic(auto, unfolding(crate::specs::Ring::process, crate::specs::Ring::answer_own, task_state::specs::Replies::tell_new))]
fn process<Q: Queues>(
    alloc: Global,
    table: &mut Table<Q>,
    tasks: &mut Tasks,
    req: &Req,
) -> Result<(), NoMemory>
    ensures step { OnOk result (side_of tasks.new table.new.elements ≡ ring.process (side_of tasks.old table.old.elements) req.now) }
    ensures system { tasks.new.system ≡ tasks.old.system }
    ensures count { length tasks.new.tasks ≡ length tasks.old.tasks }
{
    if let Want::Look { .. } = &req.want {
        if !is_awaited(tasks, req) {
            return Ok(());
        }
    }
    let Outcome { answer, owners, .. } = table.carry_out(alloc, req)?;
    answer_own(alloc, tasks, req, answer)?;
    tell_new(tasks, res_of(&req.want), owners.as_slice())
}

/// Processes a request that the message brought, on the table of the Systems resources, and tells the tasks of the
/// system what concerns them. One for a resource of one system alone is passed over. After NoMemory the system is to
/// be given up.
#[tactic(auto, unfolding(crate::specs::Ring::process_entry))]
pub fn on_request<Q: Queues>(
    alloc: Global,
    table: &mut Table<Q>,
    tasks: &mut Tasks,
    req: &Req,
) -> Result<(), NoMemory>
    ensures step { OnOk result (side_of tasks.new table.new.elements ≡ ring.process_entry (side_of tasks.old table.old.elements) req.now) }
    ensures system { tasks.new.system ≡ tasks.old.system }
    ensures count { length tasks.new.tasks ≡ length tasks.old.tasks }
{
    if is_for_all(res_of(&req.want)) {
        process(alloc, table, tasks, req)
    } else {
        Ok(())
    }
}
