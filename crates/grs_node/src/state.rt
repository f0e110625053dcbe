//! A system without its deck: its tasks, its lists and its outbox, and what each event does to them. Each step
//! gives what it fixed.
ghost use Rattle.std.specs.Prelude.{◌≡◌, ◌<◌, ◌≤◌, ◌≢◌, ◌-◌, None, ◌∷◌, [], true, map, length, sum, option_copied, IfOk, IfSome, OnOk};
ghost use Rattle.grs_base.specs.Limits.{most_lines};
ghost use Rattle.task_state.specs.View.{new_tasks, is_task, state_of, record_of};
ghost use Rattle.grs_legal.specs.Asks.{meaning_of, meanings, scripts_of};
ghost use Rattle.grs_node.specs.declared.prepared.Prepared.TheVariants.{Quiet};
ghost use Rattle.grs_wire.specs.Decks.{IsBounded};
ghost use Rattle.grs_wire.specs.Wants.{res_wanted};
ghost use Rattle.grs_wire.specs.declared.request.Fixed.TheVariants as fixes;
ghost use Rattle.grs_node.specs.Node as steps;
ghost use Rattle.grs_node.specs.Node.{are_of_system};
ghost use Rattle.grs_node.specs.Log.{stepped};
ghost use Rattle.task_state.specs.Replies as replies;

use super::lines::meaning_at;
use super::scripts::{Script, lines_among, sizes_of};
use super::star::StarPart;
use grs_base::{Code, Filter, Line, List, NoMemory, Res, SysId, TaskId};
use grs_legal::{Display, Meaning};
use grs_wire::{Choice, Deck, Fixed, Req, ToldLine, Verb, Want, is_for_all, res_of};
use local_queue::Local;
use qel_store::LinkedQueues;
use queue_table::{Outcome, Table};
use scope_resolve::Resolver;
use std::alloc::Global;
use std::marker::Model;
use task_state::{Asked, Phase, Showing, Tasks, replied, tell_code, tell_new, tell_rows};

/// A system.
#[derive(Drop)]
pub(crate) struct NodeState {
    pub(crate) tasks: Tasks,
    pub(crate) local: Local,
    pub(crate) shared: Table<LinkedQueues>,
    pub(crate) outbox: List<Req>,
    pub(crate) star: Option<StarPart>,
    pub(crate) known: u32,
    pub(crate) done: u32,
}

impl Model for NodeState {
    ghost use Rattle.std.specs.Prelude.{◌≡◌, true, length};
    ghost use Rattle.grs_node.specs.Node.{are_of_system};
    ghost use Rattle.grs_node.specs.Node as steps;

    ghost Value = { steps.NodeState };

    ghost view = { λ a. record { tasks = a.tasks; own = a.local.elements; shared = a.shared.elements; outbox = a.outbox; star = a.star; known = a.known; done = a.done } };

    ghost invariant = { λ a. (are_of_system a.tasks.system (length a.tasks.tasks) a.outbox ≡ true) × (a.local.system.0 ≡ a.tasks.system) };
}

/// A request that was fixed.
pub(crate) fn asked_alone(alloc: Global, req: Req) -> Result<List<Fixed>, NoMemory>
    ensures { IfOk result (λ fixed. fixed ≡ fixes.Asked req ∷ []) }
{
    let mut fixed = List::with_room(alloc, 1)?;
    fixed.push(Fixed::Asked(req))?;
    Ok(fixed)
}

/// A look at a system's own lists that was fixed.
fn looked_alone(alloc: Global, task: TaskId, filter: Filter) -> Result<List<Fixed>, NoMemory>
    ensures { IfOk result (λ fixed. fixed ≡ fixes.LocalLook task filter ∷ []) }
{
    let mut fixed = List::with_room(alloc, 1)?;
    fixed.push(Fixed::LocalLook { task, filter })?;
    Ok(fixed)
}

/// What the system's own lists decided on a request is told: the asker's answer first, then control for the tasks that
/// became owners.
#[tactic(auto, using(crate::proofs::Kept::kept))]
fn tell_decided(
    alloc: Global,
    tasks: &mut Tasks,
    req: &Req,
    unit: Option<u16>,
    outcome: &Outcome,
) -> Result<(), NoMemory>
    requires { is_task tasks.old req.now.task ≡ true }
    ensures step { OnOk result (tasks.new ≡ replies.tell_new (replies.replied tasks.old req.now.task req.now.want unit outcome.now.answer) (res_wanted req.now.want) outcome.now.owners) }
    ensures system { tasks.new.system ≡ tasks.old.system }
    ensures count { length tasks.new.tasks ≡ length tasks.old.tasks }
{
    replied(alloc, tasks, req.task, &req.want, unit, &outcome.answer)?;
    tell_new(tasks, res_of(&req.want), outcome.owners.as_slice())
}

/// A WAIT line: 00 where control was told, 08 where there is no request on record, else the task is held.
#[tactic(auto, using(crate::proofs::Kept::kept), unfolding(crate::specs::Node::wait))]
fn wait(tasks: &mut Tasks, task: TaskId, res: Res) -> Result<(), NoMemory>
    requires { is_task tasks.old task ≡ true }
    ensures step { OnOk result (tasks.new ≡ steps.wait tasks.old task res (record_of (state_of tasks.old task).records res)) }
    ensures system { tasks.new.system ≡ tasks.old.system }
    ensures count { length tasks.new.tasks ≡ length tasks.old.tasks }
{
    match tasks.record(task, &res) {
        None => tell_code(tasks, task, Verb::Wait, Code::C08),
        Some(rec) if rec.told => tell_code(tasks, task, Verb::Wait, Code::C00),
        Some(_) => {
            tasks.set_phase(task, Phase::HeldLine(res));
            Ok(())
        }
    }
}

impl NodeState {
    /// A system of a deck at the start, and nothing queued. `jobs` has the number of tasks of each of its jobs.
    fn new(alloc: Global, deck: &Deck, system: SysId, jobs: &[u32]) -> Result<NodeState, NoMemory>
        requires { deck.now.entries ≢ 0 }
        ensures { IfOk result (λ n. n ≡ record { tasks = record { system = system.0; tasks = new_tasks (sum jobs.now); told = [] }; own = []; shared = []; outbox = []; star = steps.part_at_first deck.now system.0; known = 0; done = 0 }) }
    {
        let star = if deck.star {
            Some(StarPart::new(alloc, system, deck.entries)?)
        } else {
            None
        };
        Ok(NodeState {
            tasks: Tasks::new(alloc, system, jobs)?,
            local: Local::new(alloc, system),
            shared: Table::new(alloc, LinkedQueues::new(alloc)),
            outbox: List::new(alloc),
            star,
            known: 0,
            done: 0,
        })
    }

    /// A system of a deck before its first event.
    #[tactic(auto, using(grs_wire::proofs::DeckLaws::parts), unfolding(crate::specs::Node::first_node))]
    pub(crate) fn of_deck(alloc: Global, deck: &Deck, system: SysId) -> Result<NodeState, NoMemory>
        requires { IsBounded deck.now }
        ensures { IfOk result (λ n. n ≡ steps.first_node deck.now system.0) }
    {
        let jobs = sizes_of(alloc, deck, system)?;
        NodeState::new(alloc, deck, system, jobs.as_slice())
    }

    /// The table of the Systems resources is let go, and this is the system's part in star mode from then on.
    pub(crate) fn let_table_go(&mut self, alloc: Global, star: Option<StarPart>)
        ensures { self.new ≡ record self.old { shared = []; star = star } }
    {
        self.shared = Table::new(alloc, LinkedQueues::new(alloc));
        self.star = star;
    }

    /// A system that is to be given up, since memory was wanting in a step, keeps no table and no part in star mode.
    pub(crate) fn give_up(&mut self, alloc: Global)
        ensures { self.new ≡ record self.old { shared = []; star = None } }
    {
        self.let_table_go(alloc, None);
    }

    /// The system's own lists decide a request and change by it, and it is told.
    #[tactic(auto, using(crate::proofs::Kept::kept), unfolding(crate::specs::Node::decide))]
    fn decide_req(&mut self, alloc: Global, req: &Req, unit: Option<u16>) -> Result<(), NoMemory>
        requires { is_task self.old.tasks req.now.task ≡ true }
        ensures step { OnOk result (self.new ≡ (steps.decide self.old req.now.task req.now.want unit).node) }
        ensures system { self.new.tasks.system ≡ self.old.tasks.system }
    {
        let outcome = self.local.request(req)?;
        tell_decided(alloc, &mut self.tasks, req, unit, &outcome)
    }

    /// A request that the system's own lists decide: the asker's answer first, then control for the tasks that
    /// became owners.
    #[tactic(auto, unfolding(crate::specs::Node::decide))]
    fn decide(
        &mut self,
        alloc: Global,
        task: TaskId,
        want: Want,
        unit: Option<u16>,
    ) -> Result<List<Fixed>, NoMemory>
        requires { is_task self.old.tasks task ≡ true }
        ensures step { IfOk result (λ fixed. stepped self.new fixed ≡ steps.decide self.old task want unit) }
        ensures system { self.new.tasks.system ≡ self.old.tasks.system }
    {
        let req = Req { task, want };
        self.decide_req(alloc, &req, unit)?;
        asked_alone(alloc, req)
    }

    /// A request waits to be put into the message; in star mode none does.
    #[tactic(auto, using(crate::proofs::Kept::kept))]
    fn put_out(&mut self, alloc: Global, req: &Req) -> Result<(), NoMemory>
        requires { is_task self.old.tasks req.now.task ≡ true }
        ensures step { OnOk result (self.new ≡ record self.old { outbox = steps.outbox_with self.old req.now }) }
        ensures tasks { self.new.tasks ≡ self.old.tasks }
    {
        if self.star.is_none() {
            let copy = req.copy(alloc)?;
            self.outbox.push(copy)
        } else {
            Ok(())
        }
    }

    /// What a task asks for waits to be put into the message, or, in star mode, to be sent.
    #[tactic(auto, using(crate::proofs::Kept::kept))]
    fn post_asked(&mut self, alloc: Global, task: TaskId, asked: Asked) -> Result<(), NoMemory>
        requires task { is_task self.old.tasks task ≡ true }
        requires own { asked.req.task ≡ task }
        ensures step { OnOk result (self.new ≡ steps.posted self.old task asked) }
        ensures system { self.new.tasks.system ≡ self.old.tasks.system }
    {
        self.put_out(alloc, &asked.req)?;
        self.tasks.set_phase(task, Phase::ToSend);
        self.tasks.set_outstanding(task, Some(asked));
        Ok(())
    }

    /// The same of a request that is for a resource.
    #[tactic(auto, unfolding(crate::specs::Node::post))]
    fn post(
        &mut self,
        alloc: Global,
        task: TaskId,
        want: Want,
        unit: Option<u16>,
    ) -> Result<List<Fixed>, NoMemory>
        requires { is_task self.old.tasks task ≡ true }
        ensures step { IfOk result (λ fixed. stepped self.new fixed ≡ steps.post self.old task want unit) }
        ensures system { self.new.tasks.system ≡ self.old.tasks.system }
    {
        let asked = Asked {
            req: Req { task, want },
            unit,
            showing: None,
        };
        self.post_asked(alloc, task, asked)?;
        Ok(List::new(alloc))
    }

    /// A request: decided at once, or, for a resource of the whole complex, kept until it can be put in or sent.
    #[tactic(auto, unfolding(crate::specs::Node::ask))]
    fn ask(
        &mut self,
        alloc: Global,
        task: TaskId,
        want: Want,
        unit: Option<u16>,
    ) -> Result<List<Fixed>, NoMemory>
        requires { is_task self.old.tasks task ≡ true }
        ensures step { IfOk result (λ fixed. stepped self.new fixed ≡ steps.ask self.old task want unit) }
        ensures system { self.new.tasks.system ≡ self.old.tasks.system }
    {
        if is_for_all(res_of(&want)) {
            self.post(alloc, task, want, unit)
        } else {
            self.decide(alloc, task, want, unit)
        }
    }

    /// Whether a task has as many requests on record as it may.
    fn has_most(&self, task: TaskId, limit: u32) -> bool
        requires { is_task self.now.tasks task ≡ true }
        ensures { result ≡ steps.has_most limit self.now.tasks task }
    {
        limit as usize <= self.tasks.state(task).records.len()
    }

    /// A line that shows lists looks at its system's own at once, if it looks at those: what was fixed.
    #[tactic(auto, using(crate::proofs::Kept::kept, crate::proofs::Kept::own_look))]
    fn look_home(
        &mut self,
        alloc: Global,
        task: TaskId,
        display: &Display,
    ) -> Result<List<Fixed>, NoMemory>
        requires { is_task self.old.tasks task ≡ true }
        ensures step { IfOk result (λ fixed. stepped self.new fixed ≡ steps.look_home self.old task display.now display.now.home) }
        ensures system { self.new.tasks.system ≡ self.old.tasks.system }
        ensures count { length self.new.tasks.tasks ≡ length self.old.tasks.tasks }
    {
        if display.home.is_none() {
            return Ok(List::new(alloc));
        }
        let rows = self.local.look(&display.filter)?;
        self.tasks.add_rows(task, rows)?;
        let filter = display.filter.copy(alloc)?;
        looked_alone(alloc, task, filter)
    }

    /// What a line asks for slices that shows lists: for all at once in ring mode, for the first in star mode.
    fn looks_asked(&self, task: TaskId, display: Display) -> Asked
        requires { display.count ≢ 0 }
        ensures { result ≡ steps.looks_asked task display (display.count - 1) self.now.star }
    {
        let (count, left) = if self.star.is_some() {
            (1, display.count - 1)
        } else {
            (display.count, 0)
        };
        let want = Want::Look {
            first: display.first,
            count,
            filter: display.filter,
        };
        Asked {
            req: Req { task, want },
            unit: None,
            showing: Some(Showing {
                verb: display.verb,
                left,
            }),
        }
    }

    /// It asks for its slices; where there are none, its task is told all rows.
    #[tactic(auto, using(crate::proofs::Kept::kept))]
    fn look_around(&mut self, alloc: Global, task: TaskId, display: Display) -> Result<(), NoMemory>
        requires { is_task self.old.tasks task ≡ true }
        ensures step { OnOk result (self.new ≡ steps.look_around self.old task display display.count) }
        ensures system { self.new.tasks.system ≡ self.old.tasks.system }
    {
        if display.count == 0 {
            return tell_rows(&mut self.tasks, task, display.verb);
        }
        let asked = self.looks_asked(task, display);
        self.post_asked(alloc, task, asked)
    }

    /// A line that shows lists.
    #[tactic(auto, unfolding(crate::specs::Node::show))]
    fn show(
        &mut self,
        alloc: Global,
        task: TaskId,
        display: Display,
    ) -> Result<List<Fixed>, NoMemory>
        requires { is_task self.old.tasks task ≡ true }
        ensures step { IfOk result (λ fixed. stepped self.new fixed ≡ steps.show self.old task display) }
        ensures system { self.new.tasks.system ≡ self.old.tasks.system }
    {
        let fixed = self.look_home(alloc, task, &display)?;
        self.look_around(alloc, task, display)?;
        Ok(fixed)
    }

    /// A line that was taken, by what it means.
    #[tactic(auto, using(crate::proofs::Kept::kept), unfolding(crate::specs::Node::take_line))]
    fn take_line(
        &mut self,
        alloc: Global,
        task: TaskId,
        line: Meaning,
        limit: u32,
    ) -> Result<List<Fixed>, NoMemory>
        requires { is_task self.old.tasks task ≡ true }
        ensures step { IfOk result (λ fixed. stepped self.new fixed ≡ steps.take_line limit self.old task line) }
        ensures system { self.new.tasks.system ≡ self.old.tasks.system }
    {
        match line {
            Meaning::Enq {
                res,
                ctl,
                ret,
                unit,
            } => {
                let full = self.has_most(task, limit);
                let want = Want::Enq {
                    res,
                    ctl,
                    ret,
                    full,
                };
                self.ask(alloc, task, want, unit)
            }
            Meaning::Deq { res, have } => self.ask(alloc, task, Want::Deq { res, have }, None),
            Meaning::Wait { res } => {
                wait(&mut self.tasks, task, res)?;
                Ok(List::new(alloc))
            }
            Meaning::Shows(display) => self.show(alloc, task, display),
            Meaning::Nothing => Ok(List::new(alloc)),
        }
    }

    /// A task that is ending: it releases the first request on record, or has ended.
    #[tactic(auto, using(crate::proofs::Kept::kept), unfolding(crate::specs::Node::end_step))]
    fn end_step(&mut self, alloc: Global, task: TaskId, code: u16) -> Result<List<Fixed>, NoMemory>
        requires { is_task self.old.tasks task ≡ true }
        ensures step { IfOk result (λ fixed. stepped self.new fixed ≡ steps.end_step self.old task code (state_of self.old.tasks task).records) }
        ensures system { self.new.tasks.system ≡ self.old.tasks.system }
    {
        match self.tasks.state(task).records.first() {
            None => {
                self.tasks.set_phase(task, Phase::Ended);
                self.tasks.tell(ToldLine::Ended { task, code })?;
                Ok(List::new(alloc))
            }
            Some(rec) => {
                let res = rec.res.copy(alloc)?;
                self.ask(alloc, task, Want::Release { res }, None)
            }
        }
    }

    /// A task that is ready: it takes its next line, or begins to end.
    #[tactic(auto, using(crate::proofs::Kept::kept), unfolding(crate::specs::Node::ready_step))]
    fn ready_step(
        &mut self,
        alloc: Global,
        task: TaskId,
        line: Option<Meaning>,
        limit: u32,
    ) -> Result<List<Fixed>, NoMemory>
        requires task { is_task self.old.tasks task ≡ true }
        requires line { IfSome line (λ _. (state_of self.old.tasks task).line < most_lines) }
        ensures step { IfOk result (λ fixed. stepped self.new fixed ≡ steps.ready_step limit self.old task line) }
        ensures system { self.new.tasks.system ≡ self.old.tasks.system }
    {
        let Some(line) = line else {
            self.tasks.set_phase(task, Phase::Ending(0));
            return self.end_step(alloc, task, 0);
        };
        self.tasks.next_line(task);
        self.take_line(alloc, task, line, limit)
    }

    /// What a task of the system does by its phase.
    #[tactic(auto, using(crate::proofs::Kept::kept), unfolding(crate::specs::Node::phase_step))]
    pub(crate) fn phase_step(
        &mut self,
        alloc: Global,
        resolver: &Resolver<'_>,
        task: TaskId,
        lines: &List<Line>,
        limit: u32,
    ) -> Result<List<Fixed>, NoMemory>
        requires task { is_task self.old.tasks task ≡ true }
        requires lines { length lines.now ≤ most_lines }
        ensures step { IfOk result (λ fixed. stepped self.new fixed ≡ steps.phase_step limit self.old task (map (meaning_of resolver.now task) lines.now) (state_of self.old.tasks task).phase) }
        ensures system { self.new.tasks.system ≡ self.old.tasks.system }
    {
        let state = self.tasks.state(task);
        match &state.phase {
            Phase::Ready => {
                let line = meaning_at(alloc, resolver, task, lines, state.line)?;
                self.ready_step(alloc, task, line, limit)
            }
            Phase::Ending(code) => {
                let code = *code;
                self.end_step(alloc, task, code)
            }
            Phase::ToSend | Phase::Sent | Phase::HeldAnswer | Phase::HeldLine(_) | Phase::Ended =>
                Ok(List::new(alloc)),
        }
    }

    /// A task of the system goes on, if it has lines.
    #[tactic(auto, unfolding(crate::specs::Node::task_step))]
    fn task_step(
        &mut self,
        alloc: Global,
        resolver: &Resolver<'_>,
        task: TaskId,
        lines: Option<&List<Line>>,
        limit: u32,
    ) -> Result<List<Fixed>, NoMemory>
        requires task { is_task self.old.tasks task ≡ true }
        requires lines { IfSome lines (λ lines. length lines.now ≤ most_lines) }
        ensures step { IfOk result (λ fixed. stepped self.new fixed ≡ steps.task_step limit self.old task (meanings resolver.now task (option_copied lines.entry))) }
        ensures system { self.new.tasks.system ≡ self.old.tasks.system }
    {
        match lines {
            None => Ok(List::new(alloc)),
            Some(lines) => self.phase_step(alloc, resolver, task, lines, limit),
        }
    }

    /// A choice that is done without a call of the medium.
    #[tactic(auto, using(crate::proofs::Deck::of_system), unfolding(crate::specs::Node::finish_quiet))]
    pub(crate) fn finish_quiet(
        &mut self,
        alloc: Global,
        deck: &Deck,
        resolver: &Resolver<'_>,
        scripts: &[Script<'_>],
        choice: Choice,
    ) -> Result<List<Fixed>, NoMemory>
        requires lists { resolver.now ≡ deck.now.lists }
        requires scripts { scripts.now ≡ scripts_of deck.now self.old.tasks.system }
        requires quiet { steps.prepare deck.now self.old choice ≡ Quiet }
        ensures step { IfOk result (λ fixed. stepped self.new fixed ≡ steps.finish_quiet deck.now self.old choice) }
        ensures system { self.new.tasks.system ≡ self.old.tasks.system }
    {
        match choice {
            Choice::Task(task) => {
                let lines = lines_among(scripts, task);
                self.task_step(alloc, resolver, task, lines, deck.limit)
            }
            Choice::Turn
            | Choice::Send(_)
            | Choice::Take
            | Choice::Settle
            | Choice::Tell(_)
            | Choice::Part(_)
            | Choice::Leave(_)
            | Choice::Switch
            | Choice::Purge(_)
            | Choice::Rest => Ok(List::new(alloc)),
        }
    }
}
