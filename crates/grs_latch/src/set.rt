//! A set of latches.
ghost use Rattle.std.specs.Prelude.{◌≡◌, ◌<◌, ◌≤◌, ◌++◌, ℕ, [], length, replicate, IfOk, OnOk, OnErr};
ghost use Rattle.grs_base.specs.Lists.{can_have, standing_of};
ghost use Rattle.qel_store.specs.Items.{without_task};
ghost use Rattle.grs_latch.specs.Calls.{rows_in};
ghost use Rattle.grs_latch.specs.Limits.{most_latches};
ghost use Rattle.grs_latch.specs.Numbered.{lists_at, IsNumbered};
ghost use Rattle.grs_latch.specs.Latches.{task_of, obtain_code, obtained, release_code, released, code_at, changed_at, release_grants, requests_of, purge_grants, purged as lists_purged};

use super::codes::task_of;
use super::parts::{Purged, no_queues, obtain_at, only_latch, purge_one, purged_in, release_at};
use super::reply::{Grant, LatchRow};
use super::rows::add_rows;
use grs_base::{Ctl, Elem, List, NoMemory, Queues, Steps, TaskId};
use qel_store::LinkedQueues;
use std::alloc::Global;
use std::marker::{Brand, Model};
use std::sync::ledger::{Blank, Ledger};

/// The most latches of a set.
pub const MOST_LATCHES: u32 = 1024;

/// The latches of a set, seen as the list of each, by number from 0. A set has `MOST_LATCHES` at most.
#[derive(Drop)]
pub struct LatchSet {
    /// The queue of each latch, from its first request on.
    numbers: Vec<Option<u32>>,
    /// The latches in the order in which they got queues.
    latches: List<u32>,
    queues: LinkedQueues,
}

/// Takes every request of a task out.
fn take_all<L: Ledger>(queues: &mut LinkedQueues, task: TaskId, blank: Blank)
    requires name { blank.name ≡ L.name }
    requires parts { blank.parts ≡ L.parts }
    requires some { 0 < blank.parts }
    ensures elements { ⟦<LinkedQueues as Queues>⟧.elements queues.new ≡ without_task (⟦<LinkedQueues as Queues>⟧.elements queues.old) task }
    ensures live { (q : ℕ) → ⟦<LinkedQueues as Queues>⟧.is_live queues.new q ≡ ⟦<LinkedQueues as Queues>⟧.is_live queues.old q }
{
    let mut steps = Steps::<L>::begin(blank);
    let _ = queues.end_task(task, &mut steps);
}

/// Purges a set, by its place, of a task that may have several requests. Without memory nothing changes.
fn purge_several(
    alloc: Global,
    set: u32,
    numbers: &[Option<u32>],
    queues: &mut LinkedQueues,
    task: TaskId,
) -> Result<Purged, NoMemory>
    requires numbered { IsNumbered numbers.now (⟦<LinkedQueues as Queues>⟧.is_live queues.old) }
    requires few { length numbers.now ≤ most_latches }
    ensures taken { IfOk result (λ p. p.taken ≡ requests_of (lists_at numbers.now (⟦<LinkedQueues as Queues>⟧.elements queues.old)) task) }
    ensures grants { IfOk result (λ p. p.grants ≡ purge_grants set 0 (lists_at numbers.now (⟦<LinkedQueues as Queues>⟧.elements queues.old)) task) }
    ensures lists { OnOk result (lists_at numbers.now (⟦<LinkedQueues as Queues>⟧.elements queues.new) ≡ lists_purged (lists_at numbers.now (⟦<LinkedQueues as Queues>⟧.elements queues.old)) task) }
    ensures unchanged { OnErr result (⟦<LinkedQueues as Queues>⟧.elements queues.new ≡ ⟦<LinkedQueues as Queues>⟧.elements queues.old) }
    ensures numbered { IsNumbered numbers.now (⟦<LinkedQueues as Queues>⟧.is_live queues.new) }
{
    let purged = purged_in(alloc, set, numbers, queues, task)?;
    take_all::<Brand>(queues, task, Blank::new(1));
    Ok(purged)
}

impl Model for LatchSet {
    ghost use Rattle.std.specs.Prelude.{◌≤◌, length};
    ghost use Rattle.grs_latch.specs.Limits.{most_latches};
    ghost use Rattle.grs_latch.specs.Latches.{Lists};
    ghost use Rattle.grs_latch.specs.Numbered.{lists_at, IsNumbered};

    ghost Value = { Lists };

    ghost view = { λ a. lists_at a.numbers.items (⟦<LinkedQueues as Queues>⟧.elements a.queues) };

    ghost invariant = { λ a. IsNumbered a.numbers.items (⟦<LinkedQueues as Queues>⟧.is_live a.queues) × (length a.numbers.items ≤ most_latches) };
}

impl LatchSet {
    /// So many latches, each without requests.
    pub fn new(alloc: Global, count: u32) -> Result<Self, NoMemory>
        requires { count ≤ most_latches }
        ensures { IfOk result (λ set. set ≡ replicate count []) }
    {
        let numbers = no_queues(alloc, count)?;
        Ok(LatchSet {
            numbers,
            latches: List::new(alloc),
            queues: LinkedQueues::new(alloc),
        })
    }

    /// Asks for a latch, which is granted or not at once; a request that may wait is queued where it isn't. The code is
    /// 00 where it is granted, 04 where it isn't, 08 where its requestor owns the latch, 14 where it waits for it, and 0C
    /// where there is no such latch. Without memory nothing changes.
    pub fn obtain(
        &mut self,
        latch: u32,
        requestor: u16,
        ctl: Ctl,
        may_wait: bool,
    ) -> Result<u8, NoMemory>
        ensures code { IfOk result (λ code. code ≡ code_at (λ es. obtain_code (standing_of es (task_of requestor)) (can_have es ctl)) latch self.old) }
        ensures after { OnOk result (self.new ≡ changed_at (λ es. obtained es (task_of requestor) ctl may_wait) latch self.old) }
        ensures unchanged { OnErr result (self.new ≡ self.old) }
    {
        let elem = Elem {
            task: task_of(requestor),
            ctl,
        };
        obtain_at(
            self.numbers.as_mut_slice(),
            &mut self.latches,
            &mut self.queues,
            latch,
            elem,
            may_wait,
        )
    }

    /// Gives a latch up: the code, and who gets it, where the set has this place among all. The code is 00 where it is
    /// done, 04 where the requestor waits and stays, 08 where it has no request, and 0C where there is no such latch.
    /// Without memory nothing changes.
    pub fn release(
        &mut self,
        alloc: Global,
        set: u32,
        latch: u32,
        requestor: u16,
    ) -> Result<(u8, List<Grant>), NoMemory>
        ensures code { IfOk result (λ told. told.0 ≡ code_at (λ es. release_code (standing_of es (task_of requestor))) latch self.old) }
        ensures grants { IfOk result (λ told. told.1 ≡ release_grants set latch latch self.old (task_of requestor)) }
        ensures after { OnOk result (self.new ≡ changed_at (λ es. released es (task_of requestor)) latch self.old) }
        ensures unchanged { OnErr result (self.new ≡ self.old) }
    {
        let task = task_of(requestor);
        release_at(
            alloc,
            set,
            self.numbers.as_slice(),
            &mut self.queues,
            latch,
            task,
        )
    }

    /// Takes every request of a requestor out: how many there were, and who gets a latch by it, where the set has this
    /// place among all. Without memory nothing changes.
    pub fn purge(&mut self, alloc: Global, set: u32, requestor: u16) -> Result<Purged, NoMemory>
        ensures taken { IfOk result (λ p. p.taken ≡ requests_of self.old (task_of requestor)) }
        ensures grants { IfOk result (λ p. p.grants ≡ purge_grants set 0 self.old (task_of requestor)) }
        ensures after { OnOk result (self.new ≡ lists_purged self.old (task_of requestor)) }
        ensures unchanged { OnErr result (self.new ≡ self.old) }
    {
        let task = task_of(requestor);
        let numbers = self.numbers.as_slice();
        match only_latch(numbers, self.latches.as_slice(), &self.queues, task) {
            Some((latch, queue)) => {
                purge_one(alloc, set, numbers, &mut self.queues, latch, queue, task)
            }
            None => purge_several(alloc, set, numbers, &mut self.queues, task),
        }
    }

    /// Puts the latches that have requests behind others, by number, where the set has this place among all.
    pub(crate) fn add_rows(
        &self,
        alloc: Global,
        set: u32,
        rows: &mut List<LatchRow>,
    ) -> Result<(), NoMemory>
        ensures { OnOk result (rows.new ≡ rows.old ++ rows_in set 0 self.now) }
    {
        add_rows(alloc, set, self.numbers.as_slice(), &self.queues, rows)
    }
}
