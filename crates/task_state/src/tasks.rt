//! The tasks of a system. Each call changes one task, or tells one line.
ghost use Rattle.std.specs.Prelude.{◌≡◌, ◌<◌, ◌+◌, ◌++◌, ◌∷◌, [], true, length, map, sum, vec_len, vec_capacity, None, IsTrue, ◌↔◌, IfOk, OnOk, OnErr};
ghost use Rattle.std.specs.Option.{option_copied, option_map};
ghost use Rattle.grs_base.specs.Limits.{most_lines};
ghost use Rattle.task_state.specs.Units.{counted, reserved_of};
ghost use Rattle.task_state.specs.View as view;
ghost use Rattle.task_state.specs.View.{TasksView, new_tasks, is_task, code_in, state_of, record_of, with_line, with_phase, with_outstanding, with_record, without_record, with_told, with_exclusive, with_rank, with_rows, without_rows, telling};

use super::records::Records;
use super::state::{Asked, Phase, Rec, TaskState};
use super::units::count_units;
use grs_base::{List, NoMemory, Res, Row, SysId, TaskId};
use grs_wire::{Req, ToldLine};
use std::alloc::Global;
use std::marker::Model;

/// The tasks of a system and the lines that they were told, in the order of telling.
#[derive(Drop)]
pub struct Tasks {
    system: SysId,
    tasks: Vec<TaskState>,
    told: List<ToldLine>,
    alloc: Global,
}

impl Model for Tasks {
    ghost use Rattle.task_state.specs.View.{TasksView};

    ghost Value = { TasksView };

    ghost view = { λ a. record { system = a.system.0; tasks = a.tasks.items; told = a.told } };
}

/// A task at the start.
fn new_task(alloc: Global) -> TaskState
    ensures { result ≡ view.new_task }
{
    TaskState {
        line: 0,
        phase: Phase::Ready,
        code: 0,
        records: Records::new(alloc),
        outstanding: None,
        rows: List::new(alloc),
    }
}

/// Puts a task at the start behind others.
fn push_task(alloc: Global, tasks: &mut Vec<TaskState>) -> Result<(), NoMemory>
    ensures { OnOk result (tasks.new.items ≡ tasks.old.items ++ view.new_task ∷ []) }
{
    match tasks.push(new_task(alloc)) {
        Ok(()) => Ok(()),
        Err(_) => Err(NoMemory),
    }
}

/// Puts this many tasks at the start behind others.
fn add_tasks(alloc: Global, tasks: &mut Vec<TaskState>, count: u32) -> Result<(), NoMemory>
    ensures { OnOk result (tasks.new.items ≡ tasks.old.items ++ new_tasks count) }
{
    for _ in 0..count {
        push_task(alloc, tasks)?;
    }
    Ok(())
}

/// The tasks of these jobs at the start.
fn make_tasks(alloc: Global, jobs: &[u32]) -> Result<Vec<TaskState>, NoMemory>
    ensures { IfOk result (λ tasks. tasks.items ≡ new_tasks (sum jobs.now)) }
{
    let mut tasks = Vec::new(alloc);
    for count in jobs {
        add_tasks(alloc, &mut tasks, *count)?;
    }
    Ok(tasks)
}

/// The end code of a task that goes to a phase.
fn end_code(phase: &Phase, old: u16) -> u16
    ensures { result ≡ code_in phase.now old }
{
    match phase {
        Phase::Ending(code) => *code,
        _ => old,
    }
}

/// Lines and one more behind them, moved to where there is room for all of them, so that no memory is taken.
fn moved_with(lines: Vec<ToldLine>, line: ToldLine, room: Vec<ToldLine>) -> Vec<ToldLine>
    requires none { room.items ≡ [] }
    requires room { vec_len lines < vec_capacity room }
    ensures { result.items ≡ lines.items ++ line ∷ [] }
{
    let mut lines = lines;
    let mut all = room;
    match all.append(&mut lines) {
        Ok(()) => all.push_reserved(line),
        Err(_) => unreachable!(),
    }
    all
}

/// Puts rows behind others. Without memory there are as many as before.
fn join_rows(alloc: Global, rows: &mut List<Row>, more: List<Row>) -> Result<(), NoMemory>
    ensures ok { OnOk result (rows.new ≡ rows.old ++ more) }
    ensures err { OnErr result (rows.new ≡ rows.old) }
{
    let mut items = std::mem::replace(rows, List::new(alloc)).into_vec();
    let mut more = more.into_vec();
    let joined = items.append(&mut more);
    *rows = List::from_vec(items);
    match joined {
        Ok(()) => Ok(()),
        Err(_) => Err(NoMemory),
    }
}

#[tactic(auto, using(crate::proofs::ViewLaws::kept), unfolding(crate::specs::View::state_of, crate::specs::View::with_state, crate::specs::View::with_line, crate::specs::View::with_phase, crate::specs::View::with_outstanding, crate::specs::View::with_record, crate::specs::View::without_record, crate::specs::View::with_told, crate::specs::View::with_exclusive, crate::specs::View::with_rank, crate::specs::View::with_rows, crate::specs::View::without_rows, crate::specs::View::telling))]
impl Tasks {
    /// The tasks of a system at the start. `jobs` has the number of tasks of each of its jobs, in order.
    pub fn new(alloc: Global, system: SysId, jobs: &[u32]) -> Result<Tasks, NoMemory>
        ensures { IfOk result (λ v. v ≡ record { system = system.0; tasks = new_tasks (sum jobs.now); told = [] }) }
    {
        let tasks = make_tasks(alloc, jobs)?;
        Ok(Tasks {
            system,
            tasks,
            told: List::new(alloc),
            alloc,
        })
    }

    /// The system.
    pub fn system(&self) -> SysId
        ensures { result.0 ≡ self.now.system }
    {
        self.system
    }

    /// How each task stands, in order.
    pub fn all(&self) -> &[TaskState]
        ensures { result.now ≡ self.now.tasks }
    {
        self.tasks.as_slice()
    }

    /// Whether a task is one of this system's.
    pub fn has(&self, task: TaskId) -> bool
        ensures { result ≡ is_task self.now task }
    {
        self.system == task.system && (task.task as usize) < self.tasks.len()
    }

    /// How a task stands.
    pub fn state(&self, task: TaskId) -> &TaskState
        requires { is_task self.now task ≡ true }
        ensures { result.now ≡ state_of self.now task }
    {
        &self.tasks[task.task as usize]
    }

    /// The number of lines that the task has taken.
    pub fn line(&self, task: TaskId) -> u32
        requires { is_task self.now task ≡ true }
        ensures { result ≡ (state_of self.now task).line }
    {
        self.state(task).line
    }

    /// What the task does next.
    pub fn phase(&self, task: TaskId) -> &Phase
        requires { is_task self.now task ≡ true }
        ensures { result.now ≡ (state_of self.now task).phase }
    {
        &self.state(task).phase
    }

    /// Whether the task has ended.
    pub fn ended(&self, task: TaskId) -> bool
        requires { is_task self.now task ≡ true }
        ensures { IsTrue result ↔ ((state_of self.now task).phase ≡ Phase.Ended) }
    {
        matches!(self.phase(task), Phase::Ended)
    }

    /// The task's end code, 0 as long as it has none.
    pub fn ending(&self, task: TaskId) -> u16
        requires { is_task self.now task ≡ true }
        ensures { result ≡ (state_of self.now task).code }
    {
        self.state(task).code
    }

    /// The task's requests on record, in the order in which they were queued.
    pub fn records(&self, task: TaskId) -> &Records
        requires { is_task self.now task ≡ true }
        ensures { result.now ≡ (state_of self.now task).records }
    {
        &self.state(task).records
    }

    /// How many requests the task has on record.
    pub fn count(&self, task: TaskId) -> u32
        requires { is_task self.now task ≡ true }
        ensures { result ≡ length (state_of self.now task).records }
    {
        self.state(task).records.len() as u32
    }

    /// The request that isn't answered yet, if there is one.
    pub fn outstanding(&self, task: TaskId) -> Option<&Req>
        requires { is_task self.now task ≡ true }
        ensures { option_copied result ≡ option_map (λ a. a.req) (state_of self.now task).outstanding }
    {
        self.asked(task).map(|asked| &asked.req)
    }

    /// The same, with the device that its record will reserve.
    pub fn asked(&self, task: TaskId) -> Option<&Asked>
        requires { is_task self.now task ≡ true }
        ensures { option_copied result ≡ (state_of self.now task).outstanding }
    {
        self.state(task).outstanding.as_ref()
    }

    /// The rows of the task's display so far.
    pub fn rows(&self, task: TaskId) -> &List<Row>
        requires { is_task self.now task ≡ true }
        ensures { result.now ≡ (state_of self.now task).rows }
    {
        &self.state(task).rows
    }

    /// The first record that the task has of a resource.
    pub fn record(&self, task: TaskId, res: &Res) -> Option<&Rec>
        requires { is_task self.now task ≡ true }
        ensures { option_copied result ≡ record_of (state_of self.now task).records res.now }
    {
        self.state(task).records.find(res)
    }

    /// The lines that were told, in the order of telling.
    pub fn told(&self) -> &List<ToldLine>
        ensures { result.now ≡ self.now.told }
    {
        &self.told
    }

    /// How often each unit is reserved by tasks that were told control, by unit, without those that aren't
    /// reserved.
    pub fn units(&self) -> Result<List<(u16, u32)>, NoMemory>
        ensures { IfOk result (λ counts. counts ≡ counted (reserved_of self.now.tasks)) }
    {
        Ok(List::from_vec(count_units(self.alloc, self.tasks.as_slice())?))
    }

    /// The task takes one more line, of those that a deck may have.
    pub fn next_line(&mut self, task: TaskId)
        requires task { is_task self.old task ≡ true }
        requires line { (state_of self.old task).line < most_lines }
        ensures { self.new ≡ with_line self.old task }
    {
        let state = &mut self.tasks[task.task as usize];
        state.line += 1;
    }

    /// The task goes to a phase; `Ending` also sets its end code.
    pub fn set_phase(&mut self, task: TaskId, phase: Phase)
        requires { is_task self.old task ≡ true }
        ensures { self.new ≡ with_phase self.old task phase }
    {
        let state = &mut self.tasks[task.task as usize];
        state.code = end_code(&phase, state.code);
        state.phase = phase;
    }

    /// The task has this request, or none, that isn't answered yet.
    pub fn set_outstanding(&mut self, task: TaskId, asked: Option<Asked>)
        requires { is_task self.old task ≡ true }
        ensures { self.new ≡ with_outstanding self.old task asked }
    {
        let state = &mut self.tasks[task.task as usize];
        state.outstanding = asked;
    }

    /// Takes the request that isn't answered yet away from the task, if it has one.
    pub fn take_outstanding(&mut self, task: TaskId) -> Option<Asked>
        requires { is_task self.old task ≡ true }
        ensures taken { result ≡ (state_of self.old task).outstanding }
        ensures left { self.new ≡ with_outstanding self.old task None }
    {
        let state = &mut self.tasks[task.task as usize];
        std::mem::replace(&mut state.outstanding, None)
    }

    /// Puts a record behind the others of its task, unless the task has one of that resource. There is no memory
    /// for more than 4,294,967,295.
    pub fn add_record(&mut self, task: TaskId, rec: Rec) -> Result<(), NoMemory>
        requires { is_task self.old task ≡ true }
        ensures ok { OnOk result (self.new ≡ with_record self.old task rec) }
        ensures err { OnErr result (self.new ≡ self.old) }
    {
        let state = &mut self.tasks[task.task as usize];
        state.records.push(self.alloc, rec)
    }

    /// Takes the first record of a resource out, where there is one.
    pub fn take_record(&mut self, task: TaskId, res: &Res) -> Option<Rec>
        requires { is_task self.old task ≡ true }
        ensures taken { result ≡ record_of (state_of self.old task).records res.now }
        ensures left { self.new ≡ without_record self.old task res.now }
    {
        let state = &mut self.tasks[task.task as usize];
        state.records.take(res)
    }

    /// The task was told control of a resource.
    pub fn mark_told(&mut self, task: TaskId, res: &Res)
        requires { is_task self.old task ≡ true }
        ensures { self.new ≡ with_told self.old task res.now }
    {
        let state = &mut self.tasks[task.task as usize];
        state.records.mark_told(res);
    }

    /// The task's control of a resource is exclusive.
    pub fn make_exclusive(&mut self, task: TaskId, res: &Res)
        requires { is_task self.old task ≡ true }
        ensures { self.new ≡ with_exclusive self.old task res.now }
    {
        let state = &mut self.tasks[task.task as usize];
        state.records.make_exclusive(res);
    }

    /// The task's request for a resource has this rank.
    pub fn set_rank(&mut self, task: TaskId, res: &Res, rank: u64)
        requires { is_task self.old task ≡ true }
        ensures { self.new ≡ with_rank self.old task res.now rank }
    {
        let state = &mut self.tasks[task.task as usize];
        state.records.set_rank(res, rank);
    }

    /// Puts rows behind those of the task's display so far.
    pub fn add_rows(&mut self, task: TaskId, rows: List<Row>) -> Result<(), NoMemory>
        requires { is_task self.old task ≡ true }
        ensures ok { OnOk result (self.new ≡ with_rows self.old task rows) }
        ensures err { OnErr result (self.new ≡ self.old) }
    {
        let state = &mut self.tasks[task.task as usize];
        join_rows(self.alloc, &mut state.rows, rows)
    }

    /// Hands the rows of the task's display out, and leaves none.
    pub fn take_rows(&mut self, task: TaskId) -> List<Row>
        requires { is_task self.old task ≡ true }
        ensures taken { result ≡ (state_of self.old task).rows }
        ensures left { self.new ≡ without_rows self.old task }
    {
        let state = &mut self.tasks[task.task as usize];
        std::mem::replace(&mut state.rows, List::new(self.alloc))
    }

    /// Tells one more line.
    pub fn tell(&mut self, line: ToldLine) -> Result<(), NoMemory>
        ensures ok { OnOk result (self.new ≡ telling self.old line) }
        ensures err { OnErr result (self.new ≡ self.old) }
    {
        self.told.push(line)
    }

    /// Tells one more line. All lines move to a vector that has room for them, so no memory is taken.
    pub fn tell_within(&mut self, line: ToldLine, room: Vec<ToldLine>)
        requires none { room.items ≡ [] }
        requires room { length self.old.told < vec_capacity room }
        ensures { self.new ≡ telling self.old line }
    {
        let lines = std::mem::replace(&mut self.told, List::new(self.alloc)).into_vec();
        self.told = List::from_vec(moved_with(lines, line, room));
    }
}
