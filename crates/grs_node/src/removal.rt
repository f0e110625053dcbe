//! What becomes of a system's part in star mode, and of its tasks, when another system is removed: the lists that the other
//! one's elements leave, the lock entries that it managed and that somebody else manages from then on, and what is gathered
//! of those.
ghost use Rattle.std.specs.Prelude.{◌≡◌, ◌<◌, ◌∷◌, [], true, false, not, ◌==◌, filter, length, OnOk};
ghost use Rattle.std.specs.List.{list_all};
ghost use Rattle.grs_base.specs.Limits.{most_systems};
ghost use Rattle.grs_node.specs.Removal as removal;
ghost use Rattle.grs_node.specs.Removal.{IsOrderly, standing};
ghost use Rattle.grs_node.specs.Star as star;

use super::scripts::number_of;
use super::star::StarPart;
use grs_base::{List, MOST_SYSTEMS, NoMemory, SysId, TaskId};
use grs_wire::masks::{has_system, without_system};
use grs_wire::{Moved, PartRec, Req};
use std::alloc::Global;
use std::collections::VecDeque;
use system_purge::{gathered, part_of, tell_each};
use task_state::{Phase, TaskState, Tasks};

/// Requests without those of a system's tasks.
fn drop_held(held: &mut VecDeque<Req>, system: SysId)
    ensures { held.new.items ≡ filter (λ q. not (system.0 == q.task.system.0)) held.old.items }
{
    held.retain(|req| system.0 != req.task.system.0);
}

/// A set of systems without those that are in another one.
pub(crate) fn without_those(others: u32, set: u32) -> u32
    ensures { result ≡ removal.without_those others set }
{
    let mut left = set;
    for number in 0..MOST_SYSTEMS {
        let system = SysId(number as u8);
        if has_system(others, system) {
            left = without_system(left, system);
        }
    }
    left
}

impl StarPart {
    /// An entry that is gathered is taken up: its lists become what the system's own tasks, which have these names, and the
    /// parts of others say of it. Own owners who weren't told are, and the system manages the entry from then on.
    fn take_up(
        &mut self,
        alloc: Global,
        tasks: &mut Tasks,
        names: &[TaskId],
        entry: u32,
    ) -> Result<(), NoMemory>
        requires below { entry < length self.old.manager.entries }
        requires count { length self.old.gathers ≡ length self.old.manager.entries }
        requires free { star.manages self.old entry ≡ false }
        ensures step { OnOk result (standing tasks.new self.new ≡ removal.take_up names.now (standing tasks.old self.old) entry) }
        ensures system { tasks.new.system ≡ tasks.old.system }
        ensures count { length tasks.new.tasks ≡ length tasks.old.tasks }
    {
        let own = part_of(alloc, tasks, names, self.manager.entries(), entry)?;
        let parts = self.gathers.take(entry)?;
        let records = gathered(alloc, &own, &parts)?;
        self.manager.install(entry, records)?;
        let owners = self.manager.own_owners(entry)?;
        tell_each(tasks, owners.as_slice())
    }

    /// The same where the entry is gathered and no part of it is awaited.
    fn take_up_if(
        &mut self,
        alloc: Global,
        tasks: &mut Tasks,
        names: &[TaskId],
        entry: u32,
    ) -> Result<(), NoMemory>
        requires below { entry < length self.old.manager.entries }
        requires orderly { IsOrderly self.old }
        ensures step { OnOk result (standing tasks.new self.new ≡ removal.take_up_if names.now (standing tasks.old self.old) entry) }
        ensures system { tasks.new.system ≡ tasks.old.system }
        ensures count { length tasks.new.tasks ≡ length tasks.old.tasks }
    {
        if self.gathers.is_complete(entry) {
            self.take_up(alloc, tasks, names, entry)
        } else {
            Ok(())
        }
    }

    /// The same of all entries, by number.
    #[tactic(auto, unfolding(crate::specs::Removal::take_up_below))]
    fn take_up_all(
        &mut self,
        alloc: Global,
        tasks: &mut Tasks,
        names: &[TaskId],
    ) -> Result<(), NoMemory>
        requires { IsOrderly self.old }
        ensures step { OnOk result (standing tasks.new self.new ≡ removal.take_up_all names.now (standing tasks.old self.old)) }
        ensures system { tasks.new.system ≡ tasks.old.system }
        ensures count { length tasks.new.tasks ≡ length tasks.old.tasks }
    {
        for entry in 0..self.manager.entries() {
            self.take_up_if(alloc, tasks, names, entry)?;
        }
        Ok(())
    }

    /// A removed system is lost: the elements of its tasks leave the lists, its held requests and its parts go, and own
    /// tasks that got control are told.
    fn lose(&mut self, tasks: &mut Tasks, system: SysId) -> Result<(), NoMemory>
        requires { system.0 < most_systems }
        ensures step { OnOk result (standing tasks.new self.new ≡ removal.lose (standing tasks.old self.old) system) }
        ensures system { tasks.new.system ≡ tasks.old.system }
        ensures count { length tasks.new.tasks ≡ length tasks.old.tasks }
    {
        let owners = self.manager.lose(system)?;
        drop_held(&mut self.held, system);
        self.gathers.lose(system);
        tell_each(tasks, owners.as_slice())
    }

    /// The systems of a set are lost, by number.
    #[tactic(auto, unfolding(crate::specs::Removal::lose_each, crate::specs::Removal::members_below))]
    fn lose_each(&mut self, tasks: &mut Tasks, systems: u32) -> Result<(), NoMemory>
        ensures step { OnOk result (standing tasks.new self.new ≡ removal.lose_each (standing tasks.old self.old) (removal.members systems)) }
        ensures system { tasks.new.system ≡ tasks.old.system }
        ensures count { length tasks.new.tasks ≡ length tasks.old.tasks }
    {
        for number in 0..MOST_SYSTEMS {
            let system = SysId(number as u8);
            if has_system(systems, system) {
                self.lose(tasks, system)?;
            }
        }
        Ok(())
    }

    /// The systems of a set are lost, by number, before any entry is taken up of which then no part is awaited.
    pub(crate) fn lose_all(
        &mut self,
        alloc: Global,
        tasks: &mut Tasks,
        names: &[TaskId],
        systems: u32,
    ) -> Result<(), NoMemory>
        requires { IsOrderly self.old }
        ensures step { OnOk result (standing tasks.new self.new ≡ removal.lose_all names.now (standing tasks.old self.old) (removal.members systems)) }
        ensures system { tasks.new.system ≡ tasks.old.system }
        ensures count { length tasks.new.tasks ≡ length tasks.old.tasks }
    {
        self.lose_each(tasks, systems)?;
        self.take_up_all(alloc, tasks, names)
    }

    /// The same of one system.
    #[tactic(auto, unfolding(crate::specs::Removal::lose_each))]
    pub(crate) fn lose_one(
        &mut self,
        alloc: Global,
        tasks: &mut Tasks,
        names: &[TaskId],
        system: SysId,
    ) -> Result<(), NoMemory>
        requires orderly { IsOrderly self.old }
        requires system { system.0 < most_systems }
        ensures step { OnOk result (standing tasks.new self.new ≡ removal.lose_all names.now (standing tasks.old self.old) (system ∷ [])) }
        ensures system { tasks.new.system ≡ tasks.old.system }
        ensures count { length tasks.new.tasks ≡ length tasks.old.tasks }
    {
        self.lose(tasks, system)?;
        self.take_up_all(alloc, tasks, names)
    }

    /// Whether a task has sent a request of an entry that isn't answered yet.
    fn has_sent_in(&self, entry: u32, state: &TaskState) -> bool
        ensures { result ≡ removal.has_sent_in self.now entry state.now }
    {
        state.phase.is_sent() && self.asks_in(entry, state.outstanding.as_ref())
    }

    /// Each such task is to send it again. A task is found by its number, whatever its job.
    fn send_again(&self, tasks: &mut Tasks, entry: u32) -> Result<(), NoMemory>
        ensures step { OnOk result (tasks.new ≡ removal.sent_again self.now entry tasks.old) }
        ensures system { tasks.new.system ≡ tasks.old.system }
        ensures count { length tasks.new.tasks ≡ length tasks.old.tasks }
    {
        let system = tasks.system();
        for place in 0..tasks.all().len() {
            let task = TaskId {
                system,
                job: 0,
                task: number_of(place)?,
            };
            if self.has_sent_in(entry, tasks.state(task)) {
                tasks.set_phase(task, Phase::ToSend);
            }
        }
        Ok(())
    }

    /// The system gathers an entry whose manager was removed, where it is to manage it, and else owes its part to the new
    /// manager.
    fn take_role(&mut self, known: u32, item: &Moved)
        requires { item.now.manager.0 < most_systems }
        ensures { self.new ≡ removal.with_role known self.old item.now }
    {
        let system = self.manager.system();
        if item.manager.0 == system.0 {
            let awaited = without_system(without_those(known, item.mask), system);
            self.gathers.begin(item.entry, awaited);
            self.owes.set(item.entry, None);
        } else {
            self.owes.set(item.entry, Some(item.manager));
        }
    }

    /// An entry has another manager than before. It has no effect where the system manages or gathers it.
    fn move_entry(&mut self, tasks: &mut Tasks, known: u32, item: &Moved) -> Result<(), NoMemory>
        requires { item.now.manager.0 < most_systems }
        ensures step { OnOk result (standing tasks.new self.new ≡ removal.move_entry known (standing tasks.old self.old) item.now) }
        ensures system { tasks.new.system ≡ tasks.old.system }
        ensures count { length tasks.new.tasks ≡ length tasks.old.tasks }
    {
        if self.manager.manages(item.entry) || self.gathers.has(item.entry) {
            return Ok(());
        }
        self.send_again(tasks, item.entry)?;
        self.take_role(known, item);
        Ok(())
    }

    /// The same of each entry of a notice.
    #[tactic(auto, using(crate::proofs::Orderly::named), unfolding(crate::specs::Removal::move_each))]
    fn move_each(&mut self, tasks: &mut Tasks, known: u32, items: &[Moved]) -> Result<(), NoMemory>
        requires { list_all removal.names_system items.now ≡ true }
        ensures step { OnOk result (standing tasks.new self.new ≡ removal.move_each known (standing tasks.old self.old) items.now) }
        ensures system { tasks.new.system ≡ tasks.old.system }
        ensures count { length tasks.new.tasks ≡ length tasks.old.tasks }
    {
        let mut rest = items;
        while let Some((item, tail)) = rest.split_first() {
            self.move_entry(tasks, known, item)?;
            rest = tail;
        }
        Ok(())
    }

    /// A notice was taken, with these items. Behind it those entries are taken up of which no part is awaited.
    pub(crate) fn took_notice(
        &mut self,
        alloc: Global,
        tasks: &mut Tasks,
        names: &[TaskId],
        known: u32,
        items: &[Moved],
    ) -> Result<(), NoMemory>
        requires orderly { IsOrderly self.old }
        requires items { list_all removal.names_system items.now ≡ true }
        ensures step { OnOk result (standing tasks.new self.new ≡ removal.took_notice known names.now (standing tasks.old self.old) items.now) }
        ensures system { tasks.new.system ≡ tasks.old.system }
        ensures count { length tasks.new.tasks ≡ length tasks.old.tasks }
    {
        self.move_each(tasks, known, items)?;
        self.take_up_all(alloc, tasks, names)
    }

    /// A part of an entry was taken. One of a system that is known to be removed is dropped; and one has no effect where the
    /// entry isn't gathered, or where none is awaited of its system. Behind it those entries are taken up of which no part is
    /// awaited.
    pub(crate) fn took_part(
        &mut self,
        alloc: Global,
        tasks: &mut Tasks,
        names: &[TaskId],
        known: u32,
        entry: u32,
        from: SysId,
        records: List<PartRec>,
    ) -> Result<(), NoMemory>
        requires orderly { IsOrderly self.old }
        requires system { from.0 < most_systems }
        ensures step { OnOk result (standing tasks.new self.new ≡ removal.took_part known names.now (standing tasks.old self.old) entry from records) }
        ensures system { tasks.new.system ≡ tasks.old.system }
        ensures count { length tasks.new.tasks ≡ length tasks.old.tasks }
    {
        if has_system(known, from) {
            return Ok(());
        }
        self.gathers.add(entry, from, records)?;
        self.take_up_all(alloc, tasks, names)
    }
}
