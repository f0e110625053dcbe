//! What is kept of all tasks of a deck behind a history: the lists, who was removed, and of each task how far it is.
ghost use Rattle.std.specs.Prelude.{◌≡◌, ◌++◌, ◌∷◌, [], cond, IfOk, OnOk, OnErr};
ghost use Rattle.std.specs.Map.{lookup};
ghost use Rattle.grs_base.specs.Same.{same_task};
ghost use Rattle.grs_base.specs.declared.resource.TaskId.{TaskId as TaskValue};
ghost use Rattle.grs_base.specs.State.{remove_state};
ghost use Rattle.grs_wire.specs.History.{step};
ghost use Rattle.grs_track.specs.Track as tracks;
ghost use Rattle.grs_track.specs.Tracks as all;

use super::kept::{Kept, kept_behind, kept_or, put_kept, reserve_kept};
use super::next::next_by;
use super::removal::{commands_removal, is_removed};
use super::script::{lines_of, script_of};
use grs_base::{List, NoMemory, SysId, TaskId};
use grs_history::carry_out;
use grs_wire::{Deck, HistEntry};
use indexmap::IndexMap;
use qel_store::LinkedQueues;
use queue_table::Table;
use scope_resolve::Resolver;
use std::alloc::Global;
use std::marker::Model;

/// What is kept behind a history of a deck. It says which entries may stand next. A task of which nothing is kept has
/// asked for nothing.
#[derive(Drop)]
pub struct Tracks<'d> {
    deck: &'d Deck,
    resolver: Resolver<'d>,
    table: Table<LinkedQueues>,
    removed: List<SysId>,
    kept: IndexMap<TaskId, Kept>,
}

impl<'d> Model for Tracks<'d> {
    ghost use Rattle.std.specs.Prelude.{◌≡◌};
    ghost use Rattle.grs_track.specs.Tracks.{TracksValue, AreInLines};

    ghost Value = { TracksValue };

    ghost view = { λ a. record { deck = a.deck.now; lists = a.table.elements; removed = a.removed; kept = a.kept.entries } };

    ghost invariant = { λ a. (a.resolver ≡ a.deck.now.lists) × AreInLines a.deck.now a.kept.entries };
}

impl<'d> Tracks<'d> {
    /// What is kept behind no entry.
    pub fn new(alloc: Global, deck: &'d Deck) -> Result<Self, NoMemory>
        ensures deck { IfOk result (λ tracks. tracks.deck ≡ deck.now) }
        ensures begins { IfOk result (λ tracks. all.IsBehind [] (all.view_of tracks)) }
    {
        Ok(Tracks {
            deck,
            resolver: Resolver::build(alloc, &deck.lists)?,
            table: Table::new(alloc, LinkedQueues::new(alloc)),
            removed: List::new(alloc),
            kept: IndexMap::new(alloc),
        })
    }

    /// The one entry that a task may ask next, if it may ask one.
    pub fn next(&self, alloc: Global, task: TaskId) -> Result<Option<HistEntry>, NoMemory>
        ensures { IfOk result (λ next. next ≡ all.next_of (all.view_of self.now) task) }
    {
        if is_removed(self.removed.as_slice(), task.system) {
            return Ok(None);
        }
        let fresh = Kept::fresh();
        let kept = kept_or(&self.kept, task, &fresh);
        match lines_of(self.deck, task) {
            Some(lines) => next_by(
                alloc,
                self.deck.limit,
                &self.resolver,
                &self.table,
                task,
                lines.as_slice(),
                kept,
            ),
            None => Ok(None),
        }
    }

    /// Whether a system may remove another.
    fn may_remove(&self, by: SysId, target: SysId) -> bool
        ensures { result ≡ all.may_remove (all.view_of self.now) by target }
    {
        let removed = self.removed.as_slice();
        !is_removed(removed, by)
            && !is_removed(removed, target)
            && target.0 != by.0
            && commands_removal(self.deck, by, target)
    }

    /// The removal of a system by another, if it may come.
    pub fn next_removal(&self, by: SysId, target: SysId) -> Option<HistEntry>
        ensures { result ≡ all.next_removal (all.view_of self.now) by target }
    {
        if self.may_remove(by, target) {
            Some(HistEntry::Remove { by, target })
        } else {
            None
        }
    }

    /// Carries out an entry of a task.
    fn ask(&mut self, alloc: Global, task: TaskId, entry: &HistEntry) -> Result<(), NoMemory>
        ensures deck { self.new.deck ≡ self.old.deck }
        ensures lists { OnOk result (self.new.lists ≡ step self.old.deck.limit self.old.lists entry.now) }
        ensures removed { self.new.removed ≡ self.old.removed }
        ensures tracks { OnOk result ((t : TaskValue) → tracks.track_in (lookup (same_task t) self.new.kept) ≡ cond (same_task t task) (tracks.track_behind (tracks.track_in (lookup (same_task t) self.old.kept)) entry.now) (tracks.track_in (lookup (same_task t) self.old.kept))) }
        ensures unchanged { OnErr result (self.new ≡ self.old) }
    {
        let fresh = Kept::fresh();
        let lines = script_of(self.deck, task);
        let kept = kept_behind(alloc, lines, kept_or(&self.kept, task, &fresh), entry)?;
        reserve_kept(&mut self.kept)?;
        carry_out(alloc, self.deck.limit, &mut self.table, entry)?;
        put_kept(&mut self.kept, task, kept);
        Ok(())
    }

    /// Carries out the removal of a system.
    fn remove(&mut self, alloc: Global, target: SysId) -> Result<(), NoMemory>
        ensures deck { self.new.deck ≡ self.old.deck }
        ensures lists { OnOk result (self.new.lists ≡ remove_state self.old.lists target.0) }
        ensures removed { OnOk result (self.new.removed ≡ self.old.removed ++ target ∷ []) }
        ensures tracks { self.new.kept ≡ self.old.kept }
        ensures unchanged { OnErr result (self.new ≡ self.old) }
    {
        self.removed.push(target)?;
        self.table.remove_system(target);
        Ok(())
    }

    /// Goes on behind one more entry. It should be one that may stand next; what it says of its answer isn't looked at.
    /// Without memory all stays as it was.
    pub fn carry_out(&mut self, alloc: Global, entry: &HistEntry) -> Result<(), NoMemory>
        ensures goes_on { OnOk result (all.GoesOn (all.view_of self.old) entry.now (all.view_of self.new)) }
        ensures unchanged { OnErr result (self.new ≡ self.old) }
    {
        match entry {
            HistEntry::Enq { task, .. } => self.ask(alloc, *task, entry),
            HistEntry::Deq { task, .. } => self.ask(alloc, *task, entry),
            HistEntry::Release { task, .. } => self.ask(alloc, *task, entry),
            HistEntry::Look { task, .. } => self.ask(alloc, *task, entry),
            HistEntry::Remove { target, .. } => self.remove(alloc, *target),
        }
    }
}
