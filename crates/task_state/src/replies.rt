//! What the tasks of a system are told: the answers to their own requests, and control that another's
//! request gave them. Only the tasks change here, never the lists. Where memory is wanting in the midst of it a part may have
//! been done, unless a clause says that all is as it was: the system is then to be given up.
ghost use Rattle.std.specs.Prelude.{◌≡◌, true, cond, length, option_copied, IfOk, OnOk, OnErr};
ghost use Rattle.gqscan.specs.Shown.{code_for};
ghost use Rattle.task_state.specs.View.{is_task, state_of, telling, without_record, without_rows, with_told};
ghost use Rattle.task_state.specs.Replies as steps;
ghost use Rattle.task_state.specs.Replies.{IsFront, tell_line};

use super::codes::{
    is_changed, is_granted, is_held, is_held_for, is_leaving, is_queued, phase_after, phase_asking,
};
use super::state::{Asked, Phase, Rec, Showing};
use super::tasks::Tasks;
use gqscan::code_of;
use grs_base::{Code, Ctl, List, NoMemory, Res, Ret, Row, TaskId};
use grs_wire::{Answer, Req, ToldLine, Verb, Want};
use std::alloc::Global;

/// Tells the code of a task's last line; WAIT isn't told.
#[tactic(auto, using(crate::proofs::Keeps::keeps), unfolding(crate::specs::Replies::tell_code))]
pub fn tell_code(tasks: &mut Tasks, task: TaskId, verb: Verb, code: Code) -> Result<(), NoMemory>
    requires { is_task tasks.old task ≡ true }
    ensures step { OnOk result (tasks.new ≡ steps.tell_code tasks.old task verb code) }
    ensures err { OnErr result (tasks.new ≡ tasks.old) }
    ensures system { tasks.new.system ≡ tasks.old.system }
    ensures count { length tasks.new.tasks ≡ length tasks.old.tasks }
{
    match code {
        Code::Wait => Ok(()),
        Code::C00 | Code::C04 | Code::C08 | Code::C14 | Code::C18 | Code::End(_) => {
            let k = tasks.state(task).line;
            tasks.tell(ToldLine::Coded {
                task,
                k,
                part: 0,
                verb,
                code,
            })
        }
    }
}

/// Keeps the records of a task whose ENQ was answered; `unit` is the unit that it reserves.
#[tactic(auto, using(crate::proofs::Keeps::keeps), unfolding(crate::specs::Replies::record_enq))]
fn record_enq(
    alloc: Global,
    tasks: &mut Tasks,
    task: TaskId,
    res: &Res,
    ctl: Ctl,
    unit: Option<u16>,
    ret: Ret,
    code: Code,
) -> Result<(), NoMemory>
    requires { is_task tasks.old task ≡ true }
    ensures step { OnOk result (tasks.new ≡ steps.record_enq tasks.old task res.now ctl unit ret code) }
    ensures err { OnErr result (tasks.new ≡ tasks.old) }
    ensures system { tasks.new.system ≡ tasks.old.system }
    ensures count { length tasks.new.tasks ≡ length tasks.old.tasks }
{
    if is_queued(ret, code) {
        let rec = Rec {
            res: res.copy(alloc)?,
            ctl,
            rank: 0,
            told: is_granted(code),
            unit,
            line: tasks.state(task).line,
        };
        tasks.add_record(task, rec)
    } else {
        if is_changed(ret, code) {
            tasks.make_exclusive(task, res);
        }
        Ok(())
    }
}

/// Drops the record of a task whose DEQ was granted.
#[tactic(auto, using(crate::proofs::Keeps::keeps))]
fn record_deq(tasks: &mut Tasks, task: TaskId, res: &Res, code: Code)
    requires { is_task tasks.old task ≡ true }
    ensures step { tasks.new ≡ cond (steps.is_granted code) (without_record tasks.old task res.now) tasks.old }
    ensures system { tasks.new.system ≡ tasks.old.system }
    ensures count { length tasks.new.tasks ≡ length tasks.old.tasks }
{
    if is_granted(code) {
        let _ = tasks.take_record(task, res);
    }
}

/// Answers a task's own request; a record that it makes has this unit.
#[tactic(auto, using(crate::proofs::Keeps::keeps, crate::proofs::Fronts::lines), unfolding(crate::specs::Replies::after_code))]
fn after_code(
    alloc: Global,
    tasks: &mut Tasks,
    task: TaskId,
    want: &Want,
    unit: Option<u16>,
    code: Code,
) -> Result<(), NoMemory>
    requires { is_task tasks.old task ≡ true }
    ensures step { OnOk result (tasks.new ≡ steps.after_code tasks.old task want.now unit code) }
    ensures err { OnErr result (tasks.new.told ≡ tasks.old.told) }
    ensures system { tasks.new.system ≡ tasks.old.system }
    ensures count { length tasks.new.tasks ≡ length tasks.old.tasks }
{
    match want {
        Want::Enq { res, ctl, ret, .. } => {
            record_enq(alloc, tasks, task, res, *ctl, unit, *ret, code)?;
            tasks.set_phase(task, phase_after(code));
            tell_code(tasks, task, Verb::Enq, code)
        }
        Want::Deq { res, .. } => {
            record_deq(tasks, task, res, code);
            tasks.set_phase(task, phase_after(code));
            tell_code(tasks, task, Verb::Deq, code)
        }
        Want::Release { res } => {
            let _ = tasks.take_record(task, res);
            Ok(())
        }
        Want::Look { .. } => Ok(()),
    }
}

/// The same by the whole answer of a request that was decided at once. Looks aren't. Where memory is wanting nothing was told;
/// the task's record and its phase may have changed.
#[tactic(auto, using(crate::proofs::Keeps::keeps, crate::proofs::Fronts::lines), unfolding(crate::specs::Replies::replied))]
pub fn replied(
    alloc: Global,
    tasks: &mut Tasks,
    task: TaskId,
    want: &Want,
    unit: Option<u16>,
    answer: &Answer,
) -> Result<(), NoMemory>
    requires { is_task tasks.old task ≡ true }
    ensures step { OnOk result (tasks.new ≡ steps.replied tasks.old task want.now unit answer.now) }
    ensures err { OnErr result (tasks.new.told ≡ tasks.old.told) }
    ensures system { tasks.new.system ≡ tasks.old.system }
    ensures count { length tasks.new.tasks ≡ length tasks.old.tasks }
{
    match answer {
        Answer::Coded(code) => after_code(alloc, tasks, task, want, unit, *code),
        Answer::Rows(_) => Ok(()),
    }
}

/// A task that was held at a WAIT line for this resource goes on.
#[tactic(auto, using(crate::proofs::Keeps::keeps, crate::proofs::Fronts::lines), unfolding(crate::specs::Replies::passes_wait))]
fn passes_wait(tasks: &mut Tasks, task: TaskId, res: &Res) -> Result<(), NoMemory>
    requires { is_task tasks.old task ≡ true }
    ensures step { OnOk result (tasks.new ≡ steps.passes_wait tasks.old task res.now) }
    ensures err { OnErr result (tasks.new.told ≡ tasks.old.told) }
    ensures system { tasks.new.system ≡ tasks.old.system }
    ensures count { length tasks.new.tasks ≡ length tasks.old.tasks }
{
    let state = tasks.state(task);
    if !is_held_for(res, &state.phase) {
        return Ok(());
    }
    let k = state.line;
    tasks.set_phase(task, Phase::Ready);
    tasks.tell(ToldLine::Coded {
        task,
        k,
        part: 0,
        verb: Verb::Wait,
        code: Code::C00,
    })
}

/// Posts the event control block of a task's line of this number. The task goes on if it was held at a WAIT line for the
/// resource.
#[tactic(auto, using(crate::proofs::Keeps::keeps, crate::proofs::Fronts::lines))]
fn post_line(tasks: &mut Tasks, task: TaskId, res: &Res, line: u32) -> Result<(), NoMemory>
    requires { is_task tasks.old task ≡ true }
    ensures step { OnOk result (tasks.new ≡ steps.passes_wait (telling tasks.old (ToldLine.Post task line)) task res.now) }
    ensures err { OnErr result (IsFront tasks.new.told (steps.passes_wait (telling tasks.old (ToldLine.Post task line)) task res.now).told) }
    ensures system { tasks.new.system ≡ tasks.old.system }
    ensures count { length tasks.new.tasks ≡ length tasks.old.tasks }
{
    tasks.tell(ToldLine::Post { task, k: line })?;
    passes_wait(tasks, task, res)
}

/// Tells a task control for which its line of this number asked: by that line's code if it waited, else
/// by posting its event control block.
#[tactic(auto, using(crate::proofs::Keeps::keeps, crate::proofs::Fronts::lines), unfolding(crate::specs::Replies::tell_line))]
fn tell_waiter(tasks: &mut Tasks, task: TaskId, res: &Res, line: u32) -> Result<(), NoMemory>
    requires { is_task tasks.old task ≡ true }
    ensures step { OnOk result (tasks.new ≡ tell_line tasks.old task res.now line) }
    ensures err { OnErr result (IsFront tasks.new.told (tell_line tasks.old task res.now line).told) }
    ensures system { tasks.new.system ≡ tasks.old.system }
    ensures count { length tasks.new.tasks ≡ length tasks.old.tasks }
{
    let state = tasks.state(task);
    let is_waiting = is_held(&state.phase) && line == state.line;
    tasks.mark_told(task, res);
    if is_waiting {
        tasks.set_phase(task, Phase::Ready);
        tasks.tell(ToldLine::Coded {
            task,
            k: line,
            part: 0,
            verb: Verb::Enq,
            code: Code::C00,
        })
    } else {
        post_line(tasks, task, res, line)
    }
}

/// The same, unless the task is about to give the resource up: then it is told nothing.
#[tactic(auto, using(crate::proofs::Keeps::keeps, crate::proofs::Fronts::lines))]
fn tell_unless_leaving(
    tasks: &mut Tasks,
    task: TaskId,
    res: &Res,
    line: u32,
) -> Result<(), NoMemory>
    requires { is_task tasks.old task ≡ true }
    ensures step { OnOk result (tasks.new ≡ cond (steps.is_leaving res.now (state_of tasks.old task).outstanding) (with_told tasks.old task res.now) (tell_line tasks.old task res.now line)) }
    ensures err { OnErr result (IsFront tasks.new.told (cond (steps.is_leaving res.now (state_of tasks.old task).outstanding) (with_told tasks.old task res.now) (tell_line tasks.old task res.now line)).told) }
    ensures system { tasks.new.system ≡ tasks.old.system }
    ensures count { length tasks.new.tasks ≡ length tasks.old.tasks }
{
    if is_leaving(res, tasks.asked(task)) {
        tasks.mark_told(task, res);
        Ok(())
    } else {
        tell_waiter(tasks, task, res, line)
    }
}

/// Tells a task control that it got by another's request; one that isn't of this system is passed over.
#[tactic(auto, using(crate::proofs::Keeps::keeps, crate::proofs::Fronts::lines), unfolding(crate::specs::Replies::tell_control, crate::specs::Replies::tell_untold))]
fn tell_control(tasks: &mut Tasks, res: &Res, task: TaskId) -> Result<(), NoMemory>
    ensures step { OnOk result (tasks.new ≡ steps.tell_control tasks.old res.now task) }
    ensures err { OnErr result (IsFront tasks.new.told (steps.tell_control tasks.old res.now task).told) }
    ensures system { tasks.new.system ≡ tasks.old.system }
    ensures count { length tasks.new.tasks ≡ length tasks.old.tasks }
{
    if !tasks.has(task) {
        return Ok(());
    }
    match tasks.record(task, res) {
        Some(rec) if !rec.told => {
            let line = rec.line;
            tell_unless_leaving(tasks, task, res, line)
        }
        _ => Ok(()),
    }
}

/// Tells these tasks control in order.
#[tactic(auto, using(crate::proofs::Keeps::keeps, crate::proofs::Fronts::lines), unfolding(crate::specs::Replies::tell_all))]
fn tell_all(tasks: &mut Tasks, res: &Res, owners: &[TaskId]) -> Result<(), NoMemory>
    ensures step { OnOk result (tasks.new ≡ steps.tell_all tasks.old res.now owners.now) }
    ensures err { OnErr result (IsFront tasks.new.told (steps.tell_all tasks.old res.now owners.now).told) }
    ensures system { tasks.new.system ≡ tasks.old.system }
    ensures count { length tasks.new.tasks ≡ length tasks.old.tasks }
{
    let mut rest = owners;
    while let Some((task, tail)) = rest.split_first() {
        tell_control(tasks, res, *task)?;
        rest = tail;
    }
    Ok(())
}

/// Tells control to the tasks that became owners of this resource, if it is one. Where memory is wanting some of them were told
/// it, in this order; one more may be marked, and may have gone on to its next line, untold.
#[tactic(auto, using(crate::proofs::Keeps::keeps, crate::proofs::Fronts::lines), unfolding(crate::specs::Replies::tell_new))]
pub fn tell_new(tasks: &mut Tasks, res: Option<&Res>, owners: &[TaskId]) -> Result<(), NoMemory>
    ensures step { OnOk result (tasks.new ≡ steps.tell_new tasks.old (option_copied res.entry) owners.now) }
    ensures err { OnErr result (IsFront tasks.new.told (steps.tell_new tasks.old (option_copied res.entry) owners.now).told) }
    ensures system { tasks.new.system ≡ tasks.old.system }
    ensures count { length tasks.new.tasks ≡ length tasks.old.tasks }
{
    match res {
        None => Ok(()),
        Some(res) => tell_all(tasks, res, owners),
    }
}

/// The code of a display that shows these rows. There is no memory for more than 4,294,967,295.
fn code_of_rows(rows: &List<Row>) -> Result<Code, NoMemory>
    ensures { IfOk result (λ code. code ≡ code_for (length rows.now)) }
{
    match u32::try_from(rows.len()) {
        Ok(count) => Ok(code_of(count)),
        Err(_) => Err(NoMemory),
    }
}

/// Tells a task the rows that its last line shows, all of them, and leaves none. Where memory is wanting it has none either, was
/// told none, and all else is as it was.
#[tactic(auto, using(crate::proofs::Keeps::keeps, crate::proofs::Fronts::lines), unfolding(crate::specs::Replies::tell_rows))]
pub fn tell_rows(tasks: &mut Tasks, task: TaskId, verb: Verb) -> Result<(), NoMemory>
    requires { is_task tasks.old task ≡ true }
    ensures step { OnOk result (tasks.new ≡ steps.tell_rows tasks.old task verb) }
    ensures err { OnErr result (tasks.new ≡ without_rows tasks.old task) }
    ensures system { tasks.new.system ≡ tasks.old.system }
    ensures count { length tasks.new.tasks ≡ length tasks.old.tasks }
{
    let k = tasks.line(task);
    let rows = tasks.take_rows(task);
    let code = code_of_rows(&rows)?;
    tasks.tell(ToldLine::Shown {
        task,
        k,
        verb,
        code,
        rows,
    })
}

/// The look at the slice behind those of a request. There is no memory for one past the last number.
fn next_look(want: Want) -> Result<Want, NoMemory>
    ensures { IfOk result (λ next. next ≡ steps.next_look want) }
{
    match want {
        Want::Look {
            first,
            count,
            filter,
        } => match first.checked_add(count) {
            Some(first) => Ok(Want::Look {
                first,
                count: 1,
                filter,
            }),
            None => Err(NoMemory),
        },
        want => Ok(want),
    }
}

/// A task that was shown what this request looked at is told all rows of its line where nothing of it is left; else it
/// waits to send the look at the next slice.
#[tactic(auto, using(crate::proofs::Keeps::keeps, crate::proofs::Fronts::lines), unfolding(crate::specs::Replies::goes_on_looking))]
fn go_on_looking(
    tasks: &mut Tasks,
    task: TaskId,
    asked: Asked,
    showing: Showing,
) -> Result<(), NoMemory>
    requires { is_task tasks.old task ≡ true }
    ensures step { OnOk result (tasks.new ≡ steps.goes_on_looking tasks.old task asked showing.verb showing.left) }
    ensures err { OnErr result (tasks.new.told ≡ tasks.old.told) }
    ensures system { tasks.new.system ≡ tasks.old.system }
    ensures count { length tasks.new.tasks ≡ length tasks.old.tasks }
{
    if showing.left == 0 {
        return tell_rows(tasks, task, showing.verb);
    }
    let Asked { req, unit, .. } = asked;
    let want = next_look(req.want)?;
    let next = Asked {
        req: Req { task, want },
        unit,
        showing: Some(Showing {
            verb: showing.verb,
            left: showing.left - 1,
        }),
    };
    tasks.set_phase(task, Phase::ToSend);
    tasks.set_outstanding(task, Some(next));
    Ok(())
}

/// A task whose looks show these rows.
#[tactic(auto, using(crate::proofs::Keeps::keeps, crate::proofs::Fronts::lines))]
fn looked(tasks: &mut Tasks, task: TaskId, asked: Asked, rows: List<Row>) -> Result<(), NoMemory>
    requires { is_task tasks.old task ≡ true }
    ensures step { OnOk result (tasks.new ≡ steps.looked tasks.old task asked rows asked.showing) }
    ensures err { OnErr result (tasks.new.told ≡ tasks.old.told) }
    ensures system { tasks.new.system ≡ tasks.old.system }
    ensures count { length tasks.new.tasks ≡ length tasks.old.tasks }
{
    let Some(showing) = asked.showing else {
        return Ok(());
    };
    tasks.add_rows(task, rows)?;
    go_on_looking(tasks, task, asked, showing)
}

/// The request of a task, which isn't outstanding any more, is answered.
#[tactic(auto, using(crate::proofs::Keeps::keeps, crate::proofs::Fronts::lines))]
fn answer_asked(
    alloc: Global,
    tasks: &mut Tasks,
    task: TaskId,
    asked: Asked,
    answer: Answer,
) -> Result<(), NoMemory>
    requires { is_task tasks.old task ≡ true }
    ensures step { OnOk result (tasks.new ≡ steps.answered tasks.old task asked answer) }
    ensures err { OnErr result (tasks.new.told ≡ tasks.old.told) }
    ensures system { tasks.new.system ≡ tasks.old.system }
    ensures count { length tasks.new.tasks ≡ length tasks.old.tasks }
{
    match answer {
        Answer::Coded(_) => {
            let Asked { req, unit, .. } = asked;
            replied(alloc, tasks, task, &req.want, unit, &answer)
        }
        Answer::Rows(rows) => looked(tasks, task, asked, rows),
    }
}

/// Answers the request of a task that isn't answered yet, if it has one. Where memory is wanting nothing was told, and the
/// request is no longer outstanding; the task's phase, its record and its rows may have changed.
#[tactic(auto, using(crate::proofs::Keeps::keeps, crate::proofs::Fronts::lines, crate::proofs::ViewLaws::still_asked), unfolding(crate::specs::Replies::tell_answer_any, crate::specs::Replies::tell_answer, crate::specs::Replies::recalled))]
pub fn tell_answer(
    alloc: Global,
    tasks: &mut Tasks,
    task: TaskId,
    answer: Answer,
) -> Result<(), NoMemory>
    requires { is_task tasks.old task ≡ true }
    ensures step { OnOk result (tasks.new ≡ steps.tell_answer_any tasks.old task answer (state_of tasks.old task).outstanding) }
    ensures err { OnErr result (tasks.new.told ≡ tasks.old.told) }
    ensures system { tasks.new.system ≡ tasks.old.system }
    ensures count { length tasks.new.tasks ≡ length tasks.old.tasks }
{
    let Some(asked) = tasks.asked(task) else {
        return Ok(());
    };
    let phase = phase_asking(&asked.req.want, tasks.ending(task));
    tasks.set_phase(task, phase);
    let Some(asked) = tasks.take_outstanding(task) else {
        return Ok(());
    };
    answer_asked(alloc, tasks, task, asked, answer)
}
