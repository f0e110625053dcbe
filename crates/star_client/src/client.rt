//! The tasks of a system after a mail, and after the system itself, as a manager, has answered one of them.
ghost use Rattle.std.specs.Prelude.{◌≡◌, true, length, IfOk, OnOk};
ghost use Rattle.std.specs.Option.{option_copied};
ghost use Rattle.grs_wire.specs.Wants.{res_wanted};
ghost use Rattle.star_client.specs.Client as client;
ghost use Rattle.task_state.specs.View.{is_task, state_of};

use super::answers::can_get;
use grs_base::{LAST_NUMBER, NoMemory, Res, TaskId};
use grs_wire::{Answer, Mail, Want};
use std::alloc::Global;
use task_state::{Asked, Tasks, tell_answer, tell_new};

/// The resource of a request, if it is for one and the task has no record of it.
fn unrecorded(
    alloc: Global,
    tasks: &Tasks,
    task: TaskId,
    want: &Want,
) -> Result<Option<Res>, NoMemory>
    requires { is_task tasks.now task ≡ true }
    ensures { IfOk result (λ res. res ≡ client.unrecorded tasks.now task (res_wanted want.now)) }
{
    match want {
        Want::Enq { res, .. } | Want::Deq { res, .. } | Want::Release { res } => {
            if tasks.record(task, res).is_none() {
                Ok(Some(res.copy(alloc)?))
            } else {
                Ok(None)
            }
        }
        Want::Look { .. } => Ok(None),
    }
}

/// Answers the request of a task that isn't answered yet, if it has one; a record that this makes has this rank.
#[tactic(auto, using(task_state::proofs::Keeps::keeps), unfolding(crate::specs::Client::tell_answer_ranked, task_state::specs::Replies::tell_answer_any))]
pub fn tell_answer_ranked(
    alloc: Global,
    tasks: &mut Tasks,
    task: TaskId,
    answer: Answer,
    rank: u64,
) -> Result<(), NoMemory>
    requires { is_task tasks.old task ≡ true }
    ensures step { OnOk result (tasks.new ≡ client.tell_answer_any_ranked tasks.old task answer rank (state_of tasks.old task).outstanding) }
    ensures system { tasks.new.system ≡ tasks.old.system }
    ensures count { length tasks.new.tasks ≡ length tasks.old.tasks }
{
    let Some(asked) = tasks.asked(task) else {
        return Ok(());
    };
    let res = unrecorded(alloc, tasks, task, &asked.req.want)?;
    tell_answer(alloc, tasks, task, answer)?;
    if let Some(res) = res {
        tasks.set_rank(task, &res, rank);
    }
    Ok(())
}

/// Whether an answer is one that the outstanding request of a task can get.
fn is_awaited(alloc: Global, answer: &Answer, asked: Option<&Asked>) -> Result<bool, NoMemory>
    ensures { IfOk result (λ awaited. awaited ≡ client.is_awaited answer.now (option_copied asked.entry)) }
{
    match asked {
        None => Ok(false),
        Some(asked) => can_get(alloc, &asked.req.want, answer),
    }
}

/// Whether the answer to a task's request has an effect: the task has sent one that can get this answer, and the rank is
/// one that there can be.
fn has_effect(
    alloc: Global,
    tasks: &Tasks,
    task: TaskId,
    answer: &Answer,
    rank: u64,
) -> Result<bool, NoMemory>
    ensures { IfOk result (λ has. has ≡ client.has_effect tasks.now task answer.now rank) }
{
    if tasks.has(task) && tasks.phase(task).is_sent() && rank <= LAST_NUMBER {
        is_awaited(alloc, answer, tasks.asked(task))
    } else {
        Ok(false)
    }
}

/// A mail reaches its task: the answer to a request that it has sent, or control that it got. What no task here awaits has
/// no effect. A request is for the system as a manager, and nothing to its tasks; nor is a notice or a part. After NoMemory
/// the system is to be given up.
#[tactic(auto, using(task_state::proofs::Keeps::keeps), unfolding(crate::specs::Client::after_mail, task_state::specs::Replies::tell_new, task_state::specs::Replies::tell_all))]
pub fn on_mail(alloc: Global, tasks: &mut Tasks, mail: Mail) -> Result<(), NoMemory>
    ensures step { OnOk result (tasks.new ≡ client.after_mail tasks.old mail) }
    ensures system { tasks.new.system ≡ tasks.old.system }
    ensures count { length tasks.new.tasks ≡ length tasks.old.tasks }
{
    match mail {
        Mail::Request { .. } | Mail::Notice { .. } | Mail::Part { .. } => Ok(()),
        Mail::Answered { task, answer, rank } => {
            if has_effect(alloc, tasks, task, &answer, rank)? {
                tell_answer_ranked(alloc, tasks, task, answer, rank)
            } else {
                Ok(())
            }
        }
        Mail::Granted { task, res } => tell_new(tasks, Some(&res), &[task]),
    }
}
