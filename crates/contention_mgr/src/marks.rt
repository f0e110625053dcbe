//! The ranks of the elements of one lock entry, and which of their tasks are still to be told that they own. They stand
//! beside the lists: each resource that had an element has a number, and each element is found by that number and its
//! task. Nothing here knows who owns.
ghost use Rattle.std.specs.Prelude.{◌≡◌, ◌≤◌, ◌++◌, ◌∷◌, [], ◌&&◌, ◌==◌, ℕ, true, false, not, cond, filter, length, slice_get, None, Some, is_some, IfSome, IfNone, IfOk, OnOk, OnErr};
ghost use Rattle.std.specs.List.{list_all};
ghost use Rattle.std.specs.Map.{lookup};
ghost use Rattle.std.specs.Ordering.{is_lt};
ghost use Rattle.grs_base.specs.ResOrder.{res_order};
ghost use Rattle.indexmap.specs.IndexMap.{spare, values};
ghost use Rattle.grs_base.specs.Same.{same_res, same_task};
ghost use Rattle.grs_base.specs.declared.resource.Res.{Res as ResValue};
ghost use Rattle.grs_base.specs.declared.resource.TaskId.{TaskId as TaskValue};
ghost use Rattle.contention_mgr.specs.Marks.{same_spot, mark_at, mark_in, mark_under, numbered_from, untold_in, is_told, with_told};
ghost use Rattle.contention_mgr.specs.Removed.{is_wide, is_removed};
ghost use Rattle.grs_base.specs.State.{is_systems};
ghost use Rattle.contention_mgr.specs.Untold.{is_to_tell};
ghost use Rattle.contention_mgr.specs.declared.marks.Spot.{Spot as SpotValue};

use crate::untold::least_number;
use grs_base::{NoMemory, Res, SysId, TaskId};
use indexmap::IndexMap;
use std::alloc::Global;

/// What is kept of an element beside its list: its rank, and whether its task got control by another's request and is
/// still to be told.
#[derive(Clone, Copy)]
pub(crate) struct Mark {
    pub rank: u64,
    pub untold: bool,
}

/// Where an element is found: the number of its resource, and its task.
#[derive(Clone, Copy, PartialEq, Eq, Hash)]
pub(crate) struct Spot {
    pub number: usize,
    pub task: TaskId,
}

/// The marks of the elements of one entry. `names` has the resources that had an element, each with its place among
/// them as its number; where `told` is set, nobody is still to be told.
#[derive(Drop)]
pub(crate) struct Marks {
    pub names: IndexMap<Res, usize>,
    pub marks: IndexMap<Spot, Mark>,
    told: bool,
    ghost numbered: { numbered_from 0 names.entries ≡ true },
    ghost fresh: { (n : ℕ) (t : TaskValue) → length names.entries ≤ n → mark_at marks.entries n t ≡ None },
    ghost all_told: { told ≡ true → (n : ℕ) (t : TaskValue) → untold_in (mark_at marks.entries n t) ≡ false },
}

/// The number of a resource, if it has one.
fn find_number(names: &IndexMap<Res, usize>, res: &Res) -> Option<usize>
    ensures { result ≡ lookup (same_res res.now) names.now.entries }
{
    names.get(res).copied()
}

/// Makes room for one more number.
fn reserve_name(names: &mut IndexMap<Res, usize>) -> Result<(), NoMemory>
    ensures same { names.new.entries ≡ names.old.entries }
    ensures room { OnOk result (1 ≤ spare names.new) }
{
    match names.reserve(1) {
        Ok(()) => Ok(()),
        Err(_) => Err(NoMemory),
    }
}

/// Gives a resource that has none a number.
fn add_name(names: &mut IndexMap<Res, usize>, res: Res, number: usize)
    requires absent { lookup (same_res res) names.old.entries ≡ None }
    requires room { 1 ≤ spare names.old }
    ensures { names.new.entries ≡ names.old.entries ++ (res, number) ∷ [] }
{
    let _ = names.insert(res, number);
}

/// The mark at a spot.
fn find_mark(marks: &IndexMap<Spot, Mark>, spot: Spot) -> Option<Mark>
    ensures { result ≡ lookup (same_spot spot) marks.now.entries }
{
    marks.get(&spot).copied()
}

/// Makes room for one more mark.
fn reserve_mark(marks: &mut IndexMap<Spot, Mark>) -> Result<(), NoMemory>
    ensures same { marks.new.entries ≡ marks.old.entries }
    ensures room { OnOk result (1 ≤ spare marks.new) }
{
    match marks.reserve(1) {
        Ok(()) => Ok(()),
        Err(_) => Err(NoMemory),
    }
}

/// Puts a mark at a spot.
fn put_mark(marks: &mut IndexMap<Spot, Mark>, spot: Spot, mark: Mark)
    requires { 1 ≤ spare marks.old }
    ensures { (s : SpotValue) → lookup (same_spot s) marks.new.entries ≡ cond (same_spot spot s) (Some mark) (lookup (same_spot s) marks.old.entries) }
{
    match marks.insert(spot, mark) {
        Ok(_) => {}
        Err(_) => unreachable!(),
    }
}

/// Takes the mark at a spot away, if there is one.
fn take_mark(marks: &mut IndexMap<Spot, Mark>, spot: Spot) -> Option<Mark>
    ensures { (s : SpotValue) → lookup (same_spot s) marks.new.entries ≡ cond (same_spot spot s) None (lookup (same_spot s) marks.old.entries) }
{
    marks.swap_remove(&spot)
}

/// Whether the resource of a number is one of the whole complex.
fn is_wide(names: &IndexMap<Res, usize>, number: usize) -> bool
    ensures { result ≡ is_wide (slice_get names.now.entries number) }
{
    match names.get_index(number) {
        Some((res, _)) => match res {
            Res::Systems { .. } => true,
            _ => false,
        },
        None => false,
    }
}

/// Whether the element at a spot leaves when a system is removed.
fn is_removed(names: &IndexMap<Res, usize>, spot: Spot, target: SysId) -> bool
    ensures { result ≡ is_removed names.now.entries target.0 spot }
{
    target.0 == spot.task.system.0 && is_wide(names, spot.number)
}

/// Takes the marks of elements away that leave when a system is removed.
fn remove_marks(names: &IndexMap<Res, usize>, marks: &mut IndexMap<Spot, Mark>, target: SysId)
    ensures { marks.new.entries ≡ filter (λ e. not (is_removed names.now.entries target.0 e.0)) marks.old.entries }
{
    marks.retain(|spot, _mark| !is_removed(names, *spot, target));
}

/// Whether by no mark a task is still to be told.
fn are_told(marks: &IndexMap<Spot, Mark>) -> bool
    ensures { result ≡ list_all is_told (values marks.now) }
{
    marks.values().all(|mark| !mark.untold)
}

/// Whether nobody is still to be told once a mark was added.
fn told_with(told: bool, mark: Mark) -> bool
    ensures { result ≡ (told && is_told mark) }
{
    told && !mark.untold
}

/// Whether nobody is still to be told once a mark was taken away. That need be looked for only where it was of a task that
/// was still to be told.
fn told_without(told: bool, mark: Option<Mark>, marks: &IndexMap<Spot, Mark>) -> bool
    ensures { result ≡ true → told ≡ false → list_all is_told (values marks.now) ≡ true }
{
    match mark {
        Some(mark) if mark.untold => are_told(marks),
        _ => told,
    }
}

/// Whether nobody is still to be told once a mark was set.
fn told_after(told: bool, untold: bool, marks: &IndexMap<Spot, Mark>) -> bool
    ensures set { result ≡ true → untold ≡ false }
    ensures all { result ≡ true → told ≡ false → list_all is_told (values marks.now) ≡ true }
{
    if untold {
        false
    } else if told {
        true
    } else {
        are_told(marks)
    }
}

/// The task at a spot is still to be told, or was told.
fn set_mark(marks: &mut IndexMap<Spot, Mark>, spot: Spot, untold: bool)
    ensures { (s : SpotValue) → lookup (same_spot s) marks.new.entries ≡ cond (same_spot spot s) (with_told untold (lookup (same_spot s) marks.old.entries)) (lookup (same_spot s) marks.old.entries) }
{
    if let Some(mark) = marks.get_mut(&spot) {
        mark.untold = untold;
    }
}

impl Marks {
    /// No marks.
    pub(crate) fn new(alloc: Global) -> Self
        ensures names { result.names.entries ≡ [] }
        ensures marks { result.marks.entries ≡ [] }
    {
        Marks {
            names: IndexMap::new(alloc),
            marks: IndexMap::new(alloc),
            told: true,
        }
    }

    /// The number of a resource, if it has one.
    pub(crate) fn number_of(&self, res: &Res) -> Option<usize>
        ensures { result ≡ lookup (same_res res.now) self.now.names.entries }
    {
        find_number(&self.names, res)
    }

    /// The mark of a task's element on the resource of this number, if it has one.
    pub(crate) fn get(&self, number: Option<usize>, task: TaskId) -> Option<Mark>
        ensures { result ≡ mark_under (mark_at self.now.marks.entries) number task }
    {
        match number {
            Some(number) => find_mark(&self.marks, Spot { number, task }),
            None => None,
        }
    }

    /// The number of a resource, which gets one if it has none.
    fn number(&mut self, alloc: Global, res: &Res) -> Result<usize, NoMemory>
        ensures number { IfOk result (λ n. lookup (same_res res.now) self.new.names.entries ≡ Some n) }
        ensures marks { self.new.marks.entries ≡ self.old.marks.entries }
        ensures same { (r : ResValue) (t : TaskValue) → mark_in self.new.names.entries self.new.marks.entries r t ≡ mark_in self.old.names.entries self.old.marks.entries r t }
    {
        match find_number(&self.names, res) {
            Some(number) => Ok(number),
            None => {
                let number = self.names.len();
                let name = res.copy(alloc)?;
                reserve_name(&mut self.names)?;
                add_name(&mut self.names, name, number);
                Ok(number)
            }
        }
    }

    /// Gives a task's element on a resource a mark. Without memory all marks stay.
    pub(crate) fn add(
        &mut self,
        alloc: Global,
        res: &Res,
        task: TaskId,
        mark: Mark,
    ) -> Result<(), NoMemory>
        ensures ok { OnOk result ((r : ResValue) (t : TaskValue) → mark_in self.new.names.entries self.new.marks.entries r t ≡ cond (same_res res.now r && same_task task t) (Some mark) (mark_in self.old.names.entries self.old.marks.entries r t)) }
        ensures err { OnErr result ((r : ResValue) (t : TaskValue) → mark_in self.new.names.entries self.new.marks.entries r t ≡ mark_in self.old.names.entries self.old.marks.entries r t) }
    {
        let number = self.number(alloc, res)?;
        reserve_mark(&mut self.marks)?;
        put_mark(&mut self.marks, Spot { number, task }, mark);
        self.told = told_with(self.told, mark);
        Ok(())
    }

    /// Takes the mark of a task's element on a resource away.
    pub(crate) fn take(&mut self, res: &Res, task: TaskId)
        ensures { (r : ResValue) (t : TaskValue) → mark_in self.new.names.entries self.new.marks.entries r t ≡ cond (same_res res.now r && same_task task t) None (mark_in self.old.names.entries self.old.marks.entries r t) }
    {
        if let Some(number) = find_number(&self.names, res) {
            let mark = take_mark(&mut self.marks, Spot { number, task });
            self.told = told_without(self.told, mark, &self.marks);
        }
    }

    /// Takes the marks of the elements of a system's tasks on resources of the whole complex away.
    pub(crate) fn take_system(&mut self, target: SysId)
        ensures { (r : ResValue) (t : TaskValue) → mark_in self.new.names.entries self.new.marks.entries r t ≡ cond (is_systems r && (target.0 == t.system.0)) None (mark_in self.old.names.entries self.old.marks.entries r t) }
    {
        remove_marks(&self.names, &mut self.marks, target);
        self.told = told_after(self.told, false, &self.marks);
    }

    /// The task of an element on a resource is still to be told, or was told.
    pub(crate) fn set(&mut self, res: &Res, task: TaskId, untold: bool)
        ensures { (r : ResValue) (t : TaskValue) → mark_in self.new.names.entries self.new.marks.entries r t ≡ cond (same_res res.now r && same_task task t) (with_told untold (mark_in self.old.names.entries self.old.marks.entries r t)) (mark_in self.old.names.entries self.old.marks.entries r t) }
    {
        if let Some(number) = find_number(&self.names, res) {
            set_mark(&mut self.marks, Spot { number, task }, untold);
            self.told = told_after(self.told, untold, &self.marks);
        }
    }

    /// The resource that is shown first among those on which a task of another system is still to be told.
    pub(crate) fn first_name(&self, home: SysId) -> Option<&Res>
        ensures none { IfNone result ((r : ResValue) (t : TaskValue) → is_to_tell home.0 t (mark_in self.now.names.entries self.now.marks.entries r t) ≡ false) }
        ensures there { IfSome result (λ r. (t : TaskValue) × (is_to_tell home.0 t (mark_in self.now.names.entries self.now.marks.entries r.now t) ≡ true)) }
        ensures first { IfSome result (λ r. (p : ResValue) (t : TaskValue) → is_to_tell home.0 t (mark_in self.now.names.entries self.now.marks.entries p t) ≡ true → is_lt (res_order p r.now) ≡ false) }
    {
        if self.told {
            return None;
        }
        match least_number(&self.names, &self.marks, home) {
            Some(number) => match self.names.get_index(number) {
                Some((res, _)) => Some(res),
                None => unreachable!(),
            },
            None => None,
        }
    }

    /// Whether no element has a mark.
    pub(crate) fn is_empty(&self) -> bool
        ensures none { result ≡ true → (r : ResValue) (t : TaskValue) → mark_in self.now.names.entries self.now.marks.entries r t ≡ None }
        ensures some { result ≡ false → (r : ResValue) × (t : TaskValue) × (is_some (mark_in self.now.names.entries self.now.marks.entries r t) ≡ true) }
    {
        match self.marks.get_index(0) {
            Some((spot, _)) => match self.names.get_index(spot.number) {
                Some(_) => false,
                None => unreachable!(),
            },
            None => true,
        }
    }
}
