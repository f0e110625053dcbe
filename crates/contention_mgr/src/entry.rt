//! One lock entry that is managed: the lists of its resources, and beside them the ranks of their elements.
ghost use Rattle.std.specs.Prelude.{◌≡◌, ◌≤◌, ◌==◌, ℕ, true, false, not, cond, length, nat_le, option_map, IfOk, OnOk, OnErr};
ghost use Rattle.std.specs.List.{list_all, flat_map};
ghost use Rattle.grs_base.specs.Limits.{last_number};
ghost use Rattle.grs_base.specs.Rows.{rows_of};
ghost use Rattle.grs_base.specs.State.{State as Plain, release_state};
ghost use Rattle.grs_wire.specs.Wants.{answer_to, after_want, new_owners};
ghost use Rattle.contention_mgr.specs.Manager.{plain, no_elements, settled, appends, queues as queues_by, rank_given, with_control, taken_out, with_mark, any_untold_in, first_untold, owner_of};
ghost use Rattle.contention_mgr.specs.Loads.{loaded};
ghost use Rattle.contention_mgr.specs.Loses.{freed_lists, with_freed, lost};
ghost use Rattle.contention_mgr.specs.Installs.{installed, places_apart, ranks_on, own_in};
ghost use Rattle.lock_structure.specs.RankedRows.{rows_apart, all_apart, ranks_of};
ghost use Rattle.contention_mgr.specs.Marks.{mark_in, ranked_all, entry_of_parts, is_gone, AreMarked};

use crate::install::{greatest_of, lists_of, marks_of, owners_in};
use crate::load::{add_rows, greatest_rank};
use crate::lose::freed_rows;
use crate::marks::{Mark, Marks};
use crate::untold::first_in;
use grs_base::{Code, Effect, LAST_NUMBER, List, NoMemory, Res, Row, SysId, TaskId};
use grs_wire::{Answer, PartRec, Req, Want};
use qel_store::LinkedQueues;
use queue_table::{Outcome, Table};
use std::alloc::Global;
use std::marker::Model;

/// A managed entry, seen as the rank that its next element gets and its elements, on each resource in order of arrival,
/// each with its rank and whether its task is still to be told.
#[derive(Drop)]
pub(crate) struct Entry {
    next: u64,
    table: Table<LinkedQueues>,
    marks: Marks,
}

impl Model for Entry {
    ghost use Rattle.contention_mgr.specs.Manager.{Managed};

    ghost Value = { Managed };

    ghost use Rattle.contention_mgr.specs.Marks.{mark_in, ranked_all, AreMarked};

    ghost view = { λ a. record { next = a.next; items = ranked_all (mark_in a.marks.names.entries a.marks.marks.entries) a.table.elements } };

    ghost invariant = { λ a. AreMarked (mark_in a.marks.names.entries a.marks.marks.entries) a.table.elements };
}

/// Whether a request puts an element into a list.
fn queues(table: &Table<LinkedQueues>, req: &Req) -> bool
    ensures { result ≡ queues_by table.now.elements req.now.task req.now.want }
{
    match &req.want {
        Want::Enq {
            res,
            ctl,
            ret,
            full,
        } => is_append(table.decide_enq(res, req.task, *ctl, *ret, *full).effect),
        _ => false,
    }
}

/// Whether what is decided puts an element into a list.
fn is_append(effect: Effect) -> bool
    ensures { result ≡ appends effect }
{
    match effect {
        Effect::Append => true,
        _ => false,
    }
}

/// Whether an answer is the code 00.
fn is_zero(answer: &Answer) -> bool
    ensures { result ≡ is_gone answer.now }
{
    match answer {
        Answer::Coded(Code::C00) => true,
        _ => false,
    }
}

/// A task got control of a resource: one of another system is still to be told.
fn give_control(marks: &mut Marks, system: SysId, res: &Res, task: TaskId)
    ensures { (s : Plain) → AreMarked (mark_in marks.old.names.entries marks.old.marks.entries) s → (ranked_all (mark_in marks.new.names.entries marks.new.marks.entries) s ≡ cond (not (system.0 == task.system.0)) (with_mark true res.now task (ranked_all (mark_in marks.old.names.entries marks.old.marks.entries) s)) (ranked_all (mark_in marks.old.names.entries marks.old.marks.entries) s)) × AreMarked (mark_in marks.new.names.entries marks.new.marks.entries) s }
{
    if system.0 != task.system.0 {
        marks.set(res, task, true);
    }
}

/// These tasks got control of a resource: those of other systems are still to be told.
fn give_all_control(marks: &mut Marks, system: SysId, res: &Res, tasks: &[TaskId])
    ensures { (s : Plain) → AreMarked (mark_in marks.old.names.entries marks.old.marks.entries) s → (ranked_all (mark_in marks.new.names.entries marks.new.marks.entries) s ≡ with_control system.0 res.now tasks.now (ranked_all (mark_in marks.old.names.entries marks.old.marks.entries) s)) × AreMarked (mark_in marks.new.names.entries marks.new.marks.entries) s }
{
    let mut rest = tasks;
    'tasks: while let Some((task, tail)) = rest.split_first() {
        give_control(marks, system, res, *task);
        rest = tail;
    }
}

/// These tasks got control of these resources: those of other systems are still to be told.
fn give_freed(marks: &mut Marks, system: SysId, all: &[(Res, List<TaskId>)])
    ensures { (s : Plain) → AreMarked (mark_in marks.old.names.entries marks.old.marks.entries) s → (ranked_all (mark_in marks.new.names.entries marks.new.marks.entries) s ≡ with_freed system.0 all.now (ranked_all (mark_in marks.old.names.entries marks.old.marks.entries) s)) × AreMarked (mark_in marks.new.names.entries marks.new.marks.entries) s }
{
    let mut rest = all;
    'all: while let Some((one, tail)) = rest.split_first() {
        give_all_control(marks, system, &one.0, one.1.as_slice());
        rest = tail;
    }
}

/// The element of a task left the list of a resource, by which these tasks got control.
fn give_up(marks: &mut Marks, system: SysId, res: &Res, task: TaskId, owners: &[TaskId])
    ensures { (s : Plain) → AreMarked (mark_in marks.old.names.entries marks.old.marks.entries) s → (ranked_all (mark_in marks.new.names.entries marks.new.marks.entries) (release_state s res.now task) ≡ with_control system.0 res.now owners.now (taken_out res.now task (ranked_all (mark_in marks.old.names.entries marks.old.marks.entries) s))) × AreMarked (mark_in marks.new.names.entries marks.new.marks.entries) (release_state s res.now task) }
{
    marks.take(res, task);
    give_all_control(marks, system, res, owners);
}

/// Carries out a request that puts an element into a list. Without memory nothing changes.
fn settle_queued(
    alloc: Global,
    next: &mut u64,
    table: &mut Table<LinkedQueues>,
    marks: &mut Marks,
    req: &Req,
) -> Result<Outcome, NoMemory>
    requires marked { AreMarked (mark_in marks.old.names.entries marks.old.marks.entries) table.old.elements }
    requires queues { queues_by table.old.elements req.now.task req.now.want ≡ true }
    ensures answer { IfOk result (λ outcome. outcome.answer ≡ answer_to table.old.elements req.now.task req.now.want) }
    ensures rank { IfOk result (λ outcome. outcome.rank ≡ next.old) }
    ensures last { IfOk result (λ outcome. outcome.rank ≤ last_number) }
    ensures owners { IfOk result (λ outcome. outcome.owners ≡ new_owners table.old.elements req.now.task req.now.want) }
    ensures after { OnOk result ((s : ℕ) → entry_of_parts next.new table.new.elements (mark_in marks.new.names.entries marks.new.marks.entries) ≡ settled s (entry_of_parts next.old table.old.elements (mark_in marks.old.names.entries marks.old.marks.entries)) req.now.task req.now.want) }
    ensures unchanged { OnErr result (entry_of_parts next.new table.new.elements (mark_in marks.new.names.entries marks.new.marks.entries) ≡ entry_of_parts next.old table.old.elements (mark_in marks.old.names.entries marks.old.marks.entries)) }
    ensures marked { AreMarked (mark_in marks.new.names.entries marks.new.marks.entries) table.new.elements }
{
    if *next > LAST_NUMBER {
        return Err(NoMemory);
    }
    match &req.want {
        Want::Enq { res, .. } => {
            let rank = *next;
            let mark = Mark {
                rank,
                untold: false,
            };
            marks.add(alloc, res, req.task, mark)?;
            match table.carry_out(alloc, req) {
                Ok(outcome) => {
                    *next = rank + 1;
                    Ok(Outcome {
                        answer: outcome.answer,
                        rank,
                        owners: outcome.owners,
                    })
                }
                Err(refused) => {
                    marks.take(res, req.task);
                    Err(refused)
                }
            }
        }
        _ => unreachable!(),
    }
}

/// Brings the marks to what a request left that put no element into a list.
fn mark_after(marks: &mut Marks, system: SysId, req: &Req, outcome: &Outcome)
    ensures { (n : ℕ) (s after : Plain) → queues_by s req.now.task req.now.want ≡ false → AreMarked (mark_in marks.old.names.entries marks.old.marks.entries) s → outcome.now.answer ≡ answer_to s req.now.task req.now.want → outcome.now.owners ≡ new_owners s req.now.task req.now.want → after ≡ after_want s req.now.task req.now.want → (entry_of_parts n after (mark_in marks.new.names.entries marks.new.marks.entries) ≡ settled system.0 (entry_of_parts n s (mark_in marks.old.names.entries marks.old.marks.entries)) req.now.task req.now.want) × AreMarked (mark_in marks.new.names.entries marks.new.marks.entries) after }
{
    match &req.want {
        Want::Enq { .. } => {}
        Want::Deq { res, .. } => {
            if is_zero(&outcome.answer) {
                give_up(marks, system, res, req.task, outcome.owners.as_slice());
            }
        }
        Want::Release { res } => {
            give_up(marks, system, res, req.task, outcome.owners.as_slice());
        }
        Want::Look { .. } => {}
    }
}

/// Carries out a request that puts no element into a list. Without memory nothing changes.
fn settle_unqueued(
    alloc: Global,
    system: SysId,
    next: u64,
    table: &mut Table<LinkedQueues>,
    marks: &mut Marks,
    req: &Req,
) -> Result<Outcome, NoMemory>
    requires marked { AreMarked (mark_in marks.old.names.entries marks.old.marks.entries) table.old.elements }
    requires queues { queues_by table.old.elements req.now.task req.now.want ≡ false }
    ensures answer { IfOk result (λ outcome. outcome.answer ≡ answer_to table.old.elements req.now.task req.now.want) }
    ensures rank { IfOk result (λ outcome. outcome.rank ≡ 0) }
    ensures owners { IfOk result (λ outcome. outcome.owners ≡ new_owners table.old.elements req.now.task req.now.want) }
    ensures after { OnOk result (entry_of_parts next table.new.elements (mark_in marks.new.names.entries marks.new.marks.entries) ≡ settled system.0 (entry_of_parts next table.old.elements (mark_in marks.old.names.entries marks.old.marks.entries)) req.now.task req.now.want) }
    ensures unchanged { OnErr result (entry_of_parts next table.new.elements (mark_in marks.new.names.entries marks.new.marks.entries) ≡ entry_of_parts next table.old.elements (mark_in marks.old.names.entries marks.old.marks.entries)) }
    ensures marked { AreMarked (mark_in marks.new.names.entries marks.new.marks.entries) table.new.elements }
{
    let outcome = table.carry_out(alloc, req)?;
    mark_after(marks, system, req, &outcome);
    Ok(outcome)
}

impl Entry {
    /// An entry in whose lists nothing stands yet.
    pub(crate) fn new(alloc: Global) -> Self
        ensures { result ≡ no_elements }
    {
        Entry {
            next: 1,
            table: Table::new(alloc, LinkedQueues::new(alloc)),
            marks: Marks::new(alloc),
        }
    }

    /// An entry with these rows and ranks, whose owners all count as told.
    pub(crate) fn load(alloc: Global, rows: &[(Row, List<u64>)]) -> Result<Self, NoMemory>
        requires once { rows_apart rows.now ≡ true }
        requires apart { all_apart rows.now ≡ true }
        requires small { list_all (λ n. nat_le n last_number) (ranks_of rows.now) ≡ true }
        ensures { IfOk result (λ entry. entry ≡ loaded rows.now) }
    {
        let mut table = Table::new(alloc, LinkedQueues::new(alloc));
        let mut marks = Marks::new(alloc);
        add_rows(alloc, &mut table, &mut marks, rows)?;
        Ok(Entry {
            next: greatest_rank(rows) + 1,
            table,
            marks,
        })
    }

    /// An entry of these records, at a manager of this system.
    pub(crate) fn install(alloc: Global, system: SysId, recs: &[PartRec]) -> Result<Self, NoMemory>
        requires apart { places_apart recs.now ≡ true }
        requires small { list_all (λ n. nat_le n last_number) (ranks_on recs.now) ≡ true }
        ensures { IfOk result (λ entry. entry ≡ installed system.0 recs.now) }
    {
        let table = lists_of(alloc, recs)?;
        let marks = marks_of(alloc, system, &table, recs)?;
        Ok(Entry {
            next: greatest_of(recs) + 1,
            table,
            marks,
        })
    }

    /// What a request would be answered, and the rank that it would give. There is no memory for a rank past the last.
    pub(crate) fn answer(&self, alloc: Global, req: &Req) -> Result<(Answer, u64), NoMemory>
        ensures answer { IfOk result (λ given. given.0 ≡ answer_to (plain self.now.items) req.now.task req.now.want) }
        ensures rank { IfOk result (λ given. given.1 ≡ rank_given self.now req.now.task req.now.want) }
        ensures last { IfOk result (λ given. given.1 ≤ last_number) }
    {
        let answer = self.table.answer(alloc, req)?;
        if queues(&self.table, req) {
            if self.next > LAST_NUMBER {
                return Err(NoMemory);
            }
            Ok((answer, self.next))
        } else {
            Ok((answer, 0))
        }
    }

    /// Carries a request out. Without memory nothing changes.
    pub(crate) fn settle(
        &mut self,
        alloc: Global,
        system: SysId,
        req: &Req,
    ) -> Result<Outcome, NoMemory>
        ensures answer { IfOk result (λ outcome. outcome.answer ≡ answer_to (plain self.old.items) req.now.task req.now.want) }
        ensures rank { IfOk result (λ outcome. outcome.rank ≡ rank_given self.old req.now.task req.now.want) }
        ensures last { IfOk result (λ outcome. outcome.rank ≤ last_number) }
        ensures owners { IfOk result (λ outcome. outcome.owners ≡ new_owners (plain self.old.items) req.now.task req.now.want) }
        ensures after { OnOk result (self.new ≡ settled system.0 self.old req.now.task req.now.want) }
        ensures unchanged { OnErr result (self.new ≡ self.old) }
    {
        if queues(&self.table, req) {
            settle_queued(alloc, &mut self.next, &mut self.table, &mut self.marks, req)
        } else {
            settle_unqueued(
                alloc,
                system,
                self.next,
                &mut self.table,
                &mut self.marks,
                req,
            )
        }
    }

    /// The tasks that get control, resource by resource, when the elements of a system leave the lists.
    pub(crate) fn freed(
        &self,
        alloc: Global,
        target: SysId,
    ) -> Result<List<(Res, List<TaskId>)>, NoMemory>
        ensures { IfOk result (λ freed. freed ≡ freed_lists target.0 (plain self.now.items)) }
    {
        let rows = self.table.rows(alloc)?;
        freed_rows(alloc, target, rows.as_slice())
    }

    /// The elements of a system's tasks leave the lists, by which these tasks get control. It takes no memory.
    pub(crate) fn lose(&mut self, system: SysId, target: SysId, freed: &[(Res, List<TaskId>)])
        requires { freed.now ≡ freed_lists target.0 (plain self.old.items) }
        ensures { self.new ≡ lost system.0 target.0 self.old }
    {
        self.table.remove_system(target);
        self.marks.take_system(target);
        give_freed(&mut self.marks, system, freed);
    }

    /// A task is told that it owns a resource.
    pub(crate) fn mark_told(&mut self, res: &Res, task: TaskId)
        ensures { self.new ≡ record { next = self.old.next; items = with_mark false res.now task self.old.items } }
    {
        self.marks.set(res, task, false);
    }

    /// Whether an owner of another system than `home` is still to be told.
    pub(crate) fn any_untold(&self, home: SysId) -> bool
        ensures { result ≡ any_untold_in home.0 self.now.items }
    {
        match self.marks.first_name(home) {
            Some(_) => true,
            None => false,
        }
    }

    /// The owner of another system than `home` who is to be told first, with the resource.
    pub(crate) fn untold(
        &self,
        alloc: Global,
        home: SysId,
    ) -> Result<Option<(TaskId, Res)>, NoMemory>
        ensures { IfOk result (λ owner. owner ≡ option_map owner_of (first_untold home.0 self.now.items)) }
    {
        match self.marks.first_name(home) {
            Some(res) => {
                let list = self.table.list(alloc, res)?;
                match first_in(&self.marks, home, res, list.as_slice()) {
                    Some(task) => {
                        let name = res.copy(alloc)?;
                        Ok(Some((task, name)))
                    }
                    None => unreachable!(),
                }
            }
            None => Ok(None),
        }
    }

    /// The tasks of a system that own, each with the resource: resources as they are shown, and the tasks of a list in its
    /// order.
    pub(crate) fn owners_of(
        &self,
        alloc: Global,
        system: SysId,
    ) -> Result<List<(TaskId, Res)>, NoMemory>
        ensures { IfOk result (λ owners. owners ≡ flat_map (own_in system.0) (rows_of (plain self.now.items))) }
    {
        let rows = self.table.rows(alloc)?;
        owners_in(alloc, system, rows.as_slice())
    }

    /// Whether nothing stands in the lists.
    pub(crate) fn is_empty(&self) -> bool
        ensures { result ≡ (length self.now.items == 0) }
    {
        self.marks.is_empty()
    }
}
