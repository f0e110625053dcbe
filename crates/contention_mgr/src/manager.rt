//! The manager of a system: of each lock entry what it keeps, where it manages it.
ghost use Rattle.std.specs.Prelude.{◌≡◌, ◌≢◌, ◌<◌, ◌≤◌, ◌+◌, ◌==◌, true, false, is_some, length, replicate, slice_set, map, None, Some, option_map, IfOk, IfSome, OnOk, OnErr};
ghost use Rattle.std.specs.Option.{option_copied};
ghost use Rattle.grs_base.specs.Limits.{last_number};
ghost use Rattle.grs_wire.specs.Wants.{answer_to, new_owners};
ghost use Rattle.contention_mgr.specs.Loads.{loaded};
ghost use Rattle.lock_structure.specs.RankedRows.{IsLoadable};
ghost use Rattle.contention_mgr.specs.Installs.{installed, IsInstallable, own_owners};
ghost use Rattle.contention_mgr.specs.Loses.{freed_at, lost, gained, after_losing};
ghost use Rattle.contention_mgr.specs.Manager.{plain, no_elements, settled, are_of, entry_of_looks, entry_wanted, kept_at, managed_at, managed_of, managed_for, items_of, with_entry, after_request, rank_for, told, after_telling, any_untold_in, any_untold_at, first_untold, owner_of};
ghost use Rattle.lock_structure.specs.Entries.{entry_of_res};

use crate::entry::Entry;
use crate::lose::own_in_order;
use grs_base::{List, NoMemory, Res, Row, SLICES, SysId, TaskId, entry_of, slice_of};
use grs_wire::{Answer, PartRec, Req, Want};
use queue_table::Outcome;
use std::alloc::Global;
use std::marker::Model;

/// What one system keeps of the lock entries that it manages, seen as its number and of each entry the next rank and the
/// elements, on each resource in order of arrival, each with its rank and whether its task is still to be told.
#[derive(Drop)]
pub struct Manager {
    system: SysId,
    entries: u32,
    slots: Vec<Option<Entry>>,
    alloc: Global,
}

impl Model for Manager {
    ghost use Rattle.std.specs.Prelude.{◌≡◌, ◌≢◌, length};
    ghost use Rattle.contention_mgr.specs.Manager.{ManagerView};

    ghost Value = { ManagerView };

    ghost view = { λ a. record { system = a.system; entries = a.slots.items } };

    ghost invariant = { λ a. (length a.slots.items ≡ a.entries) × (a.entries ≢ 0) };
}

/// So many slots without anything.
fn empty_slots<T: Drop>(alloc: Global, count: u32) -> Result<Vec<Option<T>>, NoMemory>
    ensures { IfOk result (λ slots. slots.items ≡ replicate count None) }
{
    let mut slots = Vec::new(alloc);
    for _ in 0..count {
        if slots.push(None).is_err() {
            return Err(NoMemory);
        }
    }
    Ok(slots)
}

/// The lock entry of a resource.
fn res_entry(entries: u32, res: &Res) -> Option<u32>
    requires { entries ≢ 0 }
    ensures entry { result ≡ entry_of_res entries res.now }
    ensures below { IfSome result (λ entry. entry < entries) }
{
    match res {
        Res::Systems { q, r } => Some(entry_of(slice_of(q, r), entries)),
        _ => None,
    }
}

/// Whether so many slices from this one on are all of one entry.
fn are_of(entries: u32, entry: u32, first: u32, count: u32) -> bool
    requires entries { entries ≢ 0 }
    requires there { first + count ≤ 64 }
    ensures { result ≡ are_of entries entry first count }
{
    let mut slice = first;
    let mut left = count;
    'slices: while left > 0 {
        if entry_of(slice, entries) != entry {
            return false;
        }
        slice += 1;
        left -= 1;
    }
    true
}

/// The lock entry of looks at so many slices from this one on.
fn looks_entry(entries: u32, first: u32, count: u32) -> Option<u32>
    requires { entries ≢ 0 }
    ensures entry { result ≡ entry_of_looks entries first count }
    ensures below { IfSome result (λ entry. entry < entries) }
{
    if count == 0 || first > SLICES || count > SLICES - first {
        return None;
    }
    let entry = entry_of(first, entries);
    if are_of(entries, entry, first, count) {
        Some(entry)
    } else {
        None
    }
}

/// The lock entry of a request.
fn wanted_entry(entries: u32, want: &Want) -> Option<u32>
    requires { entries ≢ 0 }
    ensures entry { result ≡ entry_wanted entries want.now }
    ensures below { IfSome result (λ entry. entry < entries) }
{
    match want {
        Want::Enq { res, .. } | Want::Deq { res, .. } | Want::Release { res } => {
            res_entry(entries, res)
        }
        Want::Look { first, count, .. } => looks_entry(entries, *first, *count),
    }
}

/// What is kept of an entry.
fn slot(slots: &Vec<Option<Entry>>, entry: u32) -> Option<&Entry>
    ensures { option_copied result ≡ kept_at slots.now.items entry }
{
    if (entry as usize) < slots.len() {
        slots[entry as usize].as_ref()
    } else {
        None
    }
}

/// Carries a request out in the lists of an entry.
fn settle_at(
    alloc: Global,
    system: SysId,
    slots: &mut Vec<Option<Entry>>,
    entry: u32,
    req: &Req,
) -> Result<Outcome, NoMemory>
    requires { is_some (kept_at slots.old.items entry) ≡ true }
    ensures answer { IfOk result (λ outcome. outcome.answer ≡ answer_to (plain (items_of (kept_at slots.old.items entry))) req.now.task req.now.want) }
    ensures rank { IfOk result (λ outcome. outcome.rank ≡ rank_for (kept_at slots.old.items entry) req.now.task req.now.want) }
    ensures last { IfOk result (λ outcome. outcome.rank ≤ last_number) }
    ensures owners { IfOk result (λ outcome. outcome.owners ≡ new_owners (plain (items_of (kept_at slots.old.items entry))) req.now.task req.now.want) }
    ensures after { OnOk result (slots.new.items ≡ slice_set slots.old.items entry (option_map (λ m. settled system.0 m req.now.task req.now.want) (kept_at slots.old.items entry))) }
    ensures unchanged { OnErr result (slots.new.items ≡ slots.old.items) }
{
    match &mut slots[entry as usize] {
        Some(kept) => kept.settle(alloc, system, req),
        None => unreachable!(),
    }
}

/// The task of an element of an entry is told that it owns this resource.
fn tell_at(slots: &mut Vec<Option<Entry>>, entry: u32, task: TaskId, res: &Res)
    requires { is_some (kept_at slots.old.items entry) ≡ true }
    ensures { slots.new.items ≡ slice_set slots.old.items entry (option_map (told task res.now) (kept_at slots.old.items entry)) }
{
    match &mut slots[entry as usize] {
        Some(kept) => kept.mark_told(res, task),
        None => unreachable!(),
    }
}

/// Whether an owner of another system is still to be told, in what is kept of an entry.
fn is_any_in(slot: &Option<Entry>, home: SysId) -> bool
    ensures { result ≡ any_untold_in home.0 (items_of slot.now) }
{
    match slot {
        Some(kept) => kept.any_untold(home),
        None => false,
    }
}

/// Whether in one of these entries an owner of another system is still to be told.
fn any_in(slots: &[Option<Entry>], home: SysId) -> bool
    ensures { result ≡ any_untold_at home.0 slots.now }
{
    let mut rest = slots;
    'slots: while let Some((slot, tail)) = rest.split_first() {
        if is_any_in(slot, home) {
            return true;
        }
        rest = tail;
    }
    false
}

/// The tasks that get control, resource by resource, when the elements of a system leave the lists of an entry.
fn freed_at(
    alloc: Global,
    target: SysId,
    slot: &Option<Entry>,
) -> Result<List<(Res, List<TaskId>)>, NoMemory>
    ensures { IfOk result (λ freed. freed ≡ freed_at target.0 slot.now) }
{
    match slot {
        Some(kept) => kept.freed(alloc, target),
        None => Ok(List::new(alloc)),
    }
}

/// The same of each entry.
fn freed_in(
    alloc: Global,
    target: SysId,
    slots: &[Option<Entry>],
) -> Result<List<List<(Res, List<TaskId>)>>, NoMemory>
    ensures { IfOk result (λ all. all ≡ map (freed_at target.0) slots.now) }
{
    let mut all = List::with_room(alloc, slots.len())?;
    for slot in slots {
        all.push(freed_at(alloc, target, slot)?)?;
    }
    Ok(all)
}

/// The elements of a system leave the lists of an entry, by which these tasks get control.
fn lose_at(slot: &mut Option<Entry>, system: SysId, target: SysId, freed: &[(Res, List<TaskId>)])
    requires { freed.now ≡ freed_at target.0 slot.old }
    ensures { slot.new ≡ option_map (lost system.0 target.0) slot.old }
{
    match slot {
        Some(kept) => kept.lose(system, target, freed),
        None => {}
    }
}

/// So they do of each entry.
fn lose_all(
    slots: &mut Vec<Option<Entry>>,
    system: SysId,
    target: SysId,
    all: &[List<(Res, List<TaskId>)>],
)
    requires { all.now ≡ map (freed_at target.0) slots.old.items }
    ensures { slots.new.items ≡ map (option_map (lost system.0 target.0)) slots.old.items }
{
    for i in 0..slots.len() {
        let slot = &mut slots[i];
        lose_at(slot, system, target, all[i].as_slice());
    }
}

impl Manager {
    /// A manager of this system, of so many lock entries, none of which it manages yet.
    pub fn new(alloc: Global, system: SysId, entries: u32) -> Result<Manager, NoMemory>
        requires { entries ≢ 0 }
        ensures { IfOk result (λ manager. manager ≡ record { system = system; entries = replicate entries None }) }
    {
        let slots = empty_slots(alloc, entries)?;
        Ok(Manager {
            system,
            entries,
            slots,
            alloc,
        })
    }

    /// The system.
    pub fn system(&self) -> SysId
        ensures { result ≡ self.now.system }
    {
        self.system
    }

    /// How many lock entries there are: one at least.
    pub fn entries(&self) -> u32
        ensures count { result ≡ length self.now.entries }
        ensures some { result ≢ 0 }
    {
        self.entries
    }

    /// The lock entry of a resource. Only one of the whole complex has one.
    pub fn entry_of(&self, res: &Res) -> Option<u32>
        ensures entry { result ≡ entry_of_res (length self.now.entries) res.now }
        ensures below { IfSome result (λ entry. entry < length self.now.entries) }
    {
        res_entry(self.entries, res)
    }

    /// The lock entry of a request; one for looks has it where there are its slices, one at least, and all are of it.
    pub fn entry_wanted(&self, want: &Want) -> Option<u32>
        ensures entry { result ≡ entry_wanted (length self.now.entries) want.now }
        ensures below { IfSome result (λ entry. entry < length self.now.entries) }
    {
        wanted_entry(self.entries, want)
    }

    /// Whether an entry is managed.
    pub fn manages(&self, entry: u32) -> bool
        ensures { result ≡ is_some (managed_at self.now entry) }
    {
        slot(&self.slots, entry).is_some()
    }

    /// This is kept of an entry.
    fn put(&mut self, entry: u32, kept: Option<Entry>)
        requires { entry < length self.old.entries }
        ensures { self.new ≡ with_entry self.old (Some entry) kept }
    {
        self.slots[entry as usize] = kept;
    }

    /// Manages an entry that isn't managed, with empty lists. Without memory nothing changes.
    pub fn begin(&mut self, entry: u32) -> Result<(), NoMemory>
        requires below { entry < length self.old.entries }
        requires free { is_some (managed_at self.old entry) ≡ false }
        ensures ok { OnOk result (self.new ≡ with_entry self.old (Some entry) (Some no_elements)) }
        ensures err { OnErr result (self.new ≡ self.old) }
    {
        let kept = Entry::new(self.alloc);
        self.put(entry, Some(kept));
        Ok(())
    }

    /// Manages an entry that isn't managed, with these lists: rows of resources of the entry, each with the ranks of its
    /// elements. All who own count as told. Without memory nothing changes.
    pub fn load(&mut self, entry: u32, ranked: &List<(Row, List<u64>)>) -> Result<(), NoMemory>
        requires below { entry < length self.old.entries }
        requires free { is_some (managed_at self.old entry) ≡ false }
        requires rows { IsLoadable (length self.old.entries) entry ranked.now }
        ensures ok { OnOk result (self.new ≡ with_entry self.old (Some entry) (Some (loaded ranked.now))) }
        ensures err { OnErr result (self.new ≡ self.old) }
    {
        let kept = Entry::load(self.alloc, ranked.as_slice())?;
        self.put(entry, Some(kept));
        Ok(())
    }

    /// Manages an entry that isn't managed, with the elements of these records, which were gathered of the entry: they
    /// are in the order of their ranks, and no two are of one task and resource. An owner counts as told where its
    /// record says so; the manager's own system tells its tasks itself. Without memory nothing changes.
    pub fn install(&mut self, entry: u32, recs: List<PartRec>) -> Result<(), NoMemory>
        requires below { entry < length self.old.entries }
        requires free { is_some (managed_at self.old entry) ≡ false }
        requires recs { IsInstallable (length self.old.entries) entry recs }
        ensures ok { OnOk result (self.new ≡ with_entry self.old (Some entry) (Some (installed self.old.system.0 recs))) }
        ensures err { OnErr result (self.new ≡ self.old) }
    {
        let kept = Entry::install(self.alloc, self.system, recs.as_slice())?;
        self.put(entry, Some(kept));
        Ok(())
    }

    /// Whether a request is of an entry that is managed; one for looks is where there are its slices, one at least, and
    /// all are of that entry.
    pub fn serves(&self, want: &Want) -> bool
        ensures { result ≡ is_some (managed_for self.now want.now) }
    {
        match wanted_entry(self.entries, want) {
            Some(entry) => self.manages(entry),
            None => false,
        }
    }

    /// Whether a resource is of an entry that is managed.
    pub fn serves_res(&self, res: &Res) -> bool
        ensures { result ≡ is_some (managed_of self.now res.now) }
    {
        match res_entry(self.entries, res) {
            Some(entry) => self.manages(entry),
            None => false,
        }
    }

    /// Gives up an entry that is managed and in whose lists nothing stands.
    pub fn end(&mut self, entry: u32)
        requires managed { is_some (managed_at self.old entry) ≡ true }
        requires empty { (length (items_of (managed_at self.old entry)) == 0) ≡ true }
        ensures { self.new ≡ with_entry self.old (Some entry) None }
    {
        self.put(entry, None);
    }

    /// What a held request would be answered, and the rank that it would give, 0 where it puts no element into a list.
    /// Nothing changes. There is no memory for a rank past the last.
    pub fn decide(&self, req: &Req) -> Result<(Answer, u64), NoMemory>
        requires { is_some (managed_for self.now req.now.want) ≡ true }
        ensures answer { IfOk result (λ given. given.0 ≡ answer_to (plain (items_of (managed_for self.now req.now.want))) req.now.task req.now.want) }
        ensures rank { IfOk result (λ given. given.1 ≡ rank_for (managed_for self.now req.now.want) req.now.task req.now.want) }
        ensures last { IfOk result (λ given. given.1 ≤ last_number) }
    {
        match wanted_entry(self.entries, &req.want) {
            Some(entry) => match slot(&self.slots, entry) {
                Some(kept) => kept.answer(self.alloc, req),
                None => unreachable!(),
            },
            None => unreachable!(),
        }
    }

    /// Carries out a held request, by the decision that `decide` tells. Without memory nothing changes.
    pub fn settle(&mut self, req: &Req) -> Result<Outcome, NoMemory>
        requires { is_some (managed_for self.old req.now.want) ≡ true }
        ensures answer { IfOk result (λ outcome. outcome.answer ≡ answer_to (plain (items_of (managed_for self.old req.now.want))) req.now.task req.now.want) }
        ensures rank { IfOk result (λ outcome. outcome.rank ≡ rank_for (managed_for self.old req.now.want) req.now.task req.now.want) }
        ensures last { IfOk result (λ outcome. outcome.rank ≤ last_number) }
        ensures owners { IfOk result (λ outcome. outcome.owners ≡ new_owners (plain (items_of (managed_for self.old req.now.want))) req.now.task req.now.want) }
        ensures after { OnOk result (self.new ≡ after_request self.old req.now.task req.now.want) }
        ensures unchanged { OnErr result (self.new ≡ self.old) }
    {
        match wanted_entry(self.entries, &req.want) {
            Some(entry) => settle_at(self.alloc, self.system, &mut self.slots, entry, req),
            None => unreachable!(),
        }
    }

    /// Decides and carries out a request of a task of the manager's own system. Without memory nothing changes.
    pub fn own_request(&mut self, req: &Req) -> Result<Outcome, NoMemory>
        requires { is_some (managed_for self.old req.now.want) ≡ true }
        ensures answer { IfOk result (λ outcome. outcome.answer ≡ answer_to (plain (items_of (managed_for self.old req.now.want))) req.now.task req.now.want) }
        ensures rank { IfOk result (λ outcome. outcome.rank ≡ rank_for (managed_for self.old req.now.want) req.now.task req.now.want) }
        ensures last { IfOk result (λ outcome. outcome.rank ≤ last_number) }
        ensures owners { IfOk result (λ outcome. outcome.owners ≡ new_owners (plain (items_of (managed_for self.old req.now.want))) req.now.task req.now.want) }
        ensures after { OnOk result (self.new ≡ after_request self.old req.now.task req.now.want) }
        ensures unchanged { OnErr result (self.new ≡ self.old) }
    {
        self.settle(req)
    }

    /// The owner of another system than `home` who is to be told first that it owns a resource of an entry: by the order
    /// in which resources are shown, and on one resource in the order of its list.
    pub fn untold(&self, entry: u32, home: SysId) -> Result<Option<(TaskId, Res)>, NoMemory>
        ensures { IfOk result (λ owner. owner ≡ option_map owner_of (first_untold home.0 (items_of (managed_at self.now entry)))) }
    {
        match slot(&self.slots, entry) {
            Some(kept) => kept.untold(self.alloc, home),
            None => Ok(None),
        }
    }

    /// A task is told that it owns a resource of an entry that is managed.
    pub fn mark_told(&mut self, task: TaskId, res: &Res)
        requires { is_some (managed_of self.old res.now) ≡ true }
        ensures { self.new ≡ after_telling self.old task res.now }
    {
        match res_entry(self.entries, res) {
            Some(entry) => tell_at(&mut self.slots, entry, task, res),
            None => unreachable!(),
        }
    }

    /// A system is removed: the elements of its tasks leave all lists. Who gets control by that and is of another system than
    /// the manager's is still to be told; those of its own system are given, each with the resource, in the order in which they
    /// are told: resources as they are shown, and the tasks of a list in its order. Without memory nothing changes.
    pub fn lose(&mut self, target: SysId) -> Result<List<(TaskId, Res)>, NoMemory>
        ensures gained { IfOk result (λ owners. owners ≡ gained self.old target) }
        ensures after { OnOk result (self.new ≡ after_losing self.old target) }
        ensures unchanged { OnErr result (self.new ≡ self.old) }
    {
        let all = freed_in(self.alloc, target, self.slots.as_slice())?;
        let owners = own_in_order(self.alloc, self.system, all.as_slice())?;
        lose_all(&mut self.slots, self.system, target, all.as_slice());
        Ok(owners)
    }

    /// The tasks of the manager's own system that own a resource of an entry, each with the resource: resources as they are
    /// shown, and the tasks of a list in its order.
    pub fn own_owners(&self, entry: u32) -> Result<List<(TaskId, Res)>, NoMemory>
        ensures { IfOk result (λ owners. owners ≡ own_owners self.now entry) }
    {
        match slot(&self.slots, entry) {
            Some(kept) => kept.owners_of(self.alloc, self.system),
            None => Ok(List::new(self.alloc)),
        }
    }

    /// Whether nothing stands in the lists of an entry.
    pub fn is_empty(&self, entry: u32) -> bool
        ensures { result ≡ (length (items_of (managed_at self.now entry)) == 0) }
    {
        match slot(&self.slots, entry) {
            Some(kept) => kept.is_empty(),
            None => true,
        }
    }

    /// Whether in some entry an owner of another system than `home` is still to be told.
    pub fn any_untold(&self, home: SysId) -> bool
        ensures { result ≡ any_untold_at home.0 self.now.entries }
    {
        any_in(self.slots.as_slice(), home)
    }
}
