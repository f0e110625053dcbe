//! The lock entries whose lists a system gathers: of each the systems that still owe their parts, and the parts that came.
//! Nothing here knows what the system's own tasks have on record.
ghost use Rattle.std.specs.Prelude.{◌≡◌, ◌≢◌, ◌<◌, true, None, is_some, option_copied, length, map, not, filter, replicate, IfOk, OnOk, OnErr, ◌==◌};
ghost use Rattle.std.specs.List.{list_any};
ghost use Rattle.std.specs.Option.{option_map};
ghost use Rattle.grs_base.specs.Limits.{most_systems};
ghost use Rattle.system_purge.specs.Gathers as gathers;

use super::gather::part_of_entry;
use grs_base::{List, NoMemory, SysId};
use grs_wire::PartRec;
use grs_wire::masks::{has_system, without_system};
use std::alloc::Global;
use std::marker::Model;

/// A part that came: the system that sent it, and those of its records that count.
#[derive(Drop)]
pub struct SentPart {
    pub from: SysId,
    pub records: List<PartRec>,
}

/// What is kept of an entry that is gathered: the set of the systems whose parts are still awaited, and the parts that
/// came, in their order.
#[derive(Drop)]
pub struct Gathering {
    pub awaits: u32,
    pub parts: List<SentPart>,
}

/// The entries that a system gathers, seen as what it keeps of each entry, where it gathers it. Each record that is kept
/// counts in its entry as one of the system that sent it.
#[derive(Drop)]
pub struct Gathers {
    entries: u32,
    slots: Vec<Option<Gathering>>,
    alloc: Global,
}

impl Model for Gathers {
    ghost use Rattle.std.specs.Prelude.{◌≡◌, true, length};
    ghost use Rattle.system_purge.specs.Gathers as gathers;

    ghost Value = { gathers.GathersView };

    ghost view = { λ a. a.slots.items };

    ghost invariant = { λ a. (length a.slots.items ≡ a.entries) × (gathers.keep_right a.slots.items ≡ true) };
}

/// So many entries that aren't gathered.
fn no_slots(alloc: Global, entries: u32) -> Result<Vec<Option<Gathering>>, NoMemory>
    ensures { IfOk result (λ slots. slots.items ≡ replicate entries None) }
{
    let mut slots = Vec::new(alloc);
    for _ in 0..entries {
        if slots.push(None).is_err() {
            return Err(NoMemory);
        }
    }
    Ok(slots)
}

/// What is kept of an entry, where it is gathered.
fn slot(slots: &[Option<Gathering>], entry: u32) -> Option<&Gathering>
    ensures { option_copied result ≡ gathers.gathering_at slots.now entry }
{
    match slots.get(entry as usize) {
        Some(slot) => slot.as_ref(),
        None => None,
    }
}

/// Parts without those of a system.
fn drop_parts(alloc: Global, parts: &mut List<SentPart>, system: SysId)
    ensures { parts.new ≡ filter (λ p. not (p.from.0 == system.0)) parts.old }
{
    let mut items = std::mem::replace(parts, List::new(alloc)).into_vec();
    items.retain(|part| part.from.0 != system.0);
    *parts = List::from_vec(items);
}

/// A system is removed: its part of an entry goes, and none is awaited of it.
fn lose_part(alloc: Global, slot: &mut Option<Gathering>, system: SysId)
    requires { system.0 < most_systems }
    ensures { slot.new ≡ option_map (gathers.without_sender system) slot.old }
{
    if let Some(gathering) = slot {
        gathering.awaits = without_system(gathering.awaits, system);
        drop_parts(alloc, &mut gathering.parts, system);
    }
}

/// A system is removed: its parts of all entries go, and none is awaited of it.
fn lose_parts(alloc: Global, slots: &mut Vec<Option<Gathering>>, system: SysId)
    requires { system.0 < most_systems }
    ensures { slots.new.items ≡ map (option_map (gathers.without_sender system)) slots.old.items }
{
    for i in 0..slots.len() {
        let slot = &mut slots[i];
        lose_part(alloc, slot, system);
    }
}

/// A part of an entry came. Without memory nothing changes.
fn add_part(
    slot: &mut Option<Gathering>,
    entries: u32,
    entry: u32,
    from: SysId,
    records: List<PartRec>,
) -> Result<(), NoMemory>
    requires entries { entries ≢ 0 }
    requires system { from.0 < most_systems }
    ensures ok { OnOk result (slot.new ≡ option_map (gathers.with_part entries entry from records) slot.old) }
    ensures err { OnErr result (slot.new ≡ slot.old) }
{
    match slot {
        Some(gathering) => gathering.add(entries, entry, from, records),
        None => Ok(()),
    }
}

/// The records of parts, part by part.
fn records_in(alloc: Global, parts: List<SentPart>) -> Result<List<List<PartRec>>, NoMemory>
    ensures { IfOk result (λ all. all ≡ map (λ p. p.records) parts) }
{
    let mut all = List::with_room(alloc, parts.len())?;
    for part in parts.into_vec() {
        all.push(part.records)?;
    }
    Ok(all)
}

/// The records of the parts of an entry, part by part. It is gathered no longer.
fn take_parts(alloc: Global, slot: &mut Option<Gathering>) -> Result<List<List<PartRec>>, NoMemory>
    ensures parts { IfOk result (λ parts. parts ≡ gathers.parts_in slot.old) }
    ensures rest { slot.new ≡ None }
{
    match slot.take() {
        Some(gathering) => records_in(alloc, gathering.parts),
        None => Ok(List::new(alloc)),
    }
}

impl Gathering {
    /// A part of an entry came, where there are so many entries: those of its records are kept that count. One of a system
    /// of which none is awaited has no effect. Without memory nothing changes.
    fn add(
        &mut self,
        entries: u32,
        entry: u32,
        from: SysId,
        records: List<PartRec>,
    ) -> Result<(), NoMemory>
        requires entries { entries ≢ 0 }
        requires system { from.0 < most_systems }
        ensures ok { OnOk result (self.new ≡ gathers.with_part entries entry from records self.old) }
        ensures err { OnErr result (self.new ≡ self.old) }
    {
        if !has_system(self.awaits, from) {
            return Ok(());
        }
        self.parts.push(SentPart {
            from,
            records: part_of_entry(records, entries, entry, from),
        })?;
        self.awaits = without_system(self.awaits, from);
        Ok(())
    }
}

impl Gathers {
    /// Of so many entries a system gathers none.
    pub fn new(alloc: Global, entries: u32) -> Result<Gathers, NoMemory>
        ensures { IfOk result (λ all. all ≡ replicate entries None) }
    {
        Ok(Gathers {
            entries,
            slots: no_slots(alloc, entries)?,
            alloc,
        })
    }

    /// Whether an entry is gathered.
    pub fn has(&self, entry: u32) -> bool
        ensures { result ≡ gathers.is_gathered self.now entry }
    {
        slot(self.slots.as_slice(), entry).is_some()
    }

    /// Whether any entry is.
    pub fn any(&self) -> bool
        ensures { result ≡ list_any is_some self.now }
    {
        self.slots.iter().any(|slot| slot.is_some())
    }

    /// An entry is gathered from now on, if there is such an entry: a part is awaited of each system of this set.
    pub fn begin(&mut self, entry: u32, systems: u32)
        ensures { self.new ≡ gathers.awaiting self.old entry systems }
    {
        if entry < self.entries {
            self.slots[entry as usize] = Some(Gathering {
                awaits: systems,
                parts: List::new(self.alloc),
            });
        }
    }

    /// A part of an entry came. It has no effect where the entry isn't gathered, and where none is awaited of its system.
    /// Those of its records are kept that count. Without memory nothing changes.
    pub fn add(&mut self, entry: u32, from: SysId, records: List<PartRec>) -> Result<(), NoMemory>
        requires { from.0 < most_systems }
        ensures ok { OnOk result (self.new ≡ gathers.with_part_at self.old entry from records) }
        ensures err { OnErr result (self.new ≡ self.old) }
    {
        let entries = self.entries;
        if entry >= entries {
            return Ok(());
        }
        let slot = &mut self.slots[entry as usize];
        add_part(slot, entries, entry, from, records)
    }

    /// A system is removed: its parts go, and none is awaited of it.
    pub fn lose(&mut self, system: SysId)
        requires { system.0 < most_systems }
        ensures { self.new ≡ gathers.behind_loss self.old system }
    {
        lose_parts(self.alloc, &mut self.slots, system);
    }

    /// Whether an entry is gathered of which no part is awaited.
    pub fn is_complete(&self, entry: u32) -> bool
        ensures { result ≡ gathers.is_complete self.now entry }
    {
        match slot(self.slots.as_slice(), entry) {
            Some(gathering) => gathering.awaits == 0,
            None => false,
        }
    }

    /// The records of the parts of an entry, part by part, each of which counts. It is gathered no longer, and behind NoMemory
    /// its parts are gone: the system is to be given up.
    pub fn take(&mut self, entry: u32) -> Result<List<List<PartRec>>, NoMemory>
        ensures right { gathers.keeps_right (length self.old) entry (gathers.gathering_at self.old entry) ≡ true }
        ensures parts { IfOk result (λ parts. parts ≡ gathers.parts_in (gathers.gathering_at self.old entry)) }
        ensures rest { self.new ≡ gathers.without_entry self.old entry }
    {
        if entry >= self.entries {
            return Ok(List::new(self.alloc));
        }
        let slot = &mut self.slots[entry as usize];
        take_parts(self.alloc, slot)
    }
}
