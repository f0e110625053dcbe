//! Sets of latches by name, and calls of them.
ghost use Rattle.std.specs.Prelude.{◌≡◌, ◌<◌, ◌≤◌, ◌++◌, ◌∷◌, [], false, length, replicate, IfOk, OnOk, OnErr};
ghost use Rattle.grs_latch.specs.Calls.{name_of, plain, purge_code, reply_in, lists_after, reply_apart, made_by, reply, after, is_there, MayCome, set_name, rows_of};
ghost use Rattle.grs_latch.specs.Limits.{most_latches, most_sets};
ghost use Rattle.grs_latch.specs.Places.{set_place};

use super::call::LatchCall;
use super::codes::NO_LATCH;
use super::reply::{LatchReply, LatchRow};
use super::set::LatchSet;
use grs_base::{List, NoMemory};
use std::alloc::Global;
use std::marker::Model;

/// The most sets.
pub const MOST_SETS: u32 = 64;

/// It is done.
const DONE: u8 = 0x00;

/// A set of that name is there.
const SET_IS_THERE: u8 = 0x04;

/// There was no request to purge.
const NONE_TAKEN: u8 = 0x04;

/// A set of latches with its name.
#[derive(Drop)]
pub struct NamedSet {
    pub name: List<u8>,
    pub latches: LatchSet,
}

/// The place of the first set of this name; where there is none, how many there are.
fn set_place(sets: &[NamedSet], name: &[u8]) -> usize
    ensures place { result ≡ set_place name.now sets.now }
    ensures within { result ≤ length sets.now }
{
    for (place, set) in sets.iter().enumerate() {
        if set.name.as_slice() == name {
            return place;
        }
    }
    sets.len()
}

/// The name of the set of a call.
pub fn name_of(call: &LatchCall) -> &[u8]
    ensures { result.now ≡ name_of call.now }
{
    match call {
        LatchCall::Crt { set, .. } => set.as_slice(),
        LatchCall::Obt { set, .. } => set.as_slice(),
        LatchCall::Rel { set, .. } => set.as_slice(),
        LatchCall::Prg { set, .. } => set.as_slice(),
    }
}

/// A reply by which nobody gets a latch.
fn plain(alloc: Global, code: u8) -> LatchReply
    ensures { result ≡ plain code }
{
    LatchReply {
        code,
        taken: 0,
        grants: List::new(alloc),
    }
}

/// What a purge is answered that takes so many requests out.
fn purge_code(taken: u32) -> u8
    ensures { result ≡ purge_code taken }
{
    if taken == 0 { NONE_TAKEN } else { DONE }
}

/// Carries out a call of the set of its name, which has this place. Without memory nothing changes.
fn call_in(
    alloc: Global,
    place: u32,
    set: &mut NamedSet,
    call: &LatchCall,
) -> Result<LatchReply, NoMemory>
    ensures reply { IfOk result (λ r. r ≡ reply_in place call.now set.old.latches) }
    ensures name { set.new.name ≡ set.old.name }
    ensures after { OnOk result (set.new.latches ≡ lists_after call.now set.old.latches) }
    ensures unchanged { OnErr result (set.new.latches ≡ set.old.latches) }
{
    match call {
        LatchCall::Crt { .. } => Ok(plain(alloc, SET_IS_THERE)),
        LatchCall::Obt {
            latch,
            requestor,
            ctl,
            sync,
            ..
        } => {
            let code = set.latches.obtain(*latch, *requestor, *ctl, *sync)?;
            Ok(plain(alloc, code))
        }
        LatchCall::Rel {
            latch,
            requestor,
            ..
        } => {
            let (code, grants) = set.latches.release(alloc, place, *latch, *requestor)?;
            Ok(LatchReply {
                code,
                taken: 0,
                grants,
            })
        }
        LatchCall::Prg { requestor, .. } => {
            let purged = set.latches.purge(alloc, place, *requestor)?;
            Ok(LatchReply {
                code: purge_code(purged.taken),
                taken: purged.taken,
                grants: purged.grants,
            })
        }
    }
}

/// Makes a set. Without memory nothing changes.
fn make_set(
    alloc: Global,
    sets: &mut Vec<NamedSet>,
    name: &List<u8>,
    count: u32,
) -> Result<(), NoMemory>
    requires { count ≤ most_latches }
    ensures made { OnOk result (sets.new.items ≡ sets.old.items ++ record { name = name.now; latches = replicate count [] } ∷ []) }
    ensures unchanged { OnErr result (sets.new.items ≡ sets.old.items) }
{
    let set = NamedSet {
        name: name.copy(alloc)?,
        latches: LatchSet::new(alloc, count)?,
    };
    match sets.push(set) {
        Ok(()) => Ok(()),
        Err(_) => Err(NoMemory),
    }
}

/// Carries out a call where there is no set of its name. Without memory nothing changes.
fn call_apart(
    alloc: Global,
    sets: &mut Vec<NamedSet>,
    call: &LatchCall,
) -> Result<LatchReply, NoMemory>
    requires come { MayCome call.now sets.old.items }
    requires apart { is_there (name_of call.now) sets.old.items ≡ false }
    requires few { length sets.old.items ≤ most_sets }
    ensures reply { IfOk result (λ r. r ≡ reply_apart call.now) }
    ensures after { OnOk result (sets.new.items ≡ sets.old.items ++ made_by call.now) }
    ensures unchanged { OnErr result (sets.new.items ≡ sets.old.items) }
    ensures few { length sets.new.items ≤ most_sets }
{
    match call {
        LatchCall::Crt { set, count } => {
            make_set(alloc, sets, set, *count)?;
            Ok(plain(alloc, DONE))
        }
        _ => Ok(plain(alloc, NO_LATCH)),
    }
}

/// Carries out a call. Without memory nothing changes.
#[tactic(auto, using(crate::proofs::SetLemmas::calls))]
fn call_of(
    alloc: Global,
    sets: &mut Vec<NamedSet>,
    call: &LatchCall,
) -> Result<LatchReply, NoMemory>
    requires come { MayCome call.now sets.old.items }
    requires few { length sets.old.items ≤ most_sets }
    ensures reply { IfOk result (λ r. r ≡ reply 0 call.now sets.old.items) }
    ensures after { OnOk result (sets.new.items ≡ after call.now sets.old.items) }
    ensures unchanged { OnErr result (sets.new.items ≡ sets.old.items) }
    ensures few { length sets.new.items ≤ most_sets }
{
    let place = set_place(sets.as_slice(), name_of(call));
    if place == sets.len() {
        return call_apart(alloc, sets, call);
    }
    call_in(alloc, place as u32, &mut sets[place], call)
}

/// Puts the rows of sets behind others, of which the first has this place.
fn add_all_rows(alloc: Global, sets: &[NamedSet], rows: &mut List<LatchRow>) -> Result<(), NoMemory>
    requires few { length sets.now ≤ most_sets }
    ensures { OnOk result (rows.new ≡ rows.old ++ rows_of 0 sets.now) }
{
    for (place, set) in sets.iter().enumerate() {
        set.latches.add_rows(alloc, place as u32, rows)?;
    }
    Ok(())
}

/// The latches of all sets, seen as the sets in order of making, each with its name and the list of each latch, by number
/// from 0. There are `MOST_SETS` at most.
#[derive(Drop)]
pub struct Latches {
    sets: Vec<NamedSet>,
}

impl Model for Latches {
    ghost use Rattle.std.specs.Prelude.{◌≤◌, length};
    ghost use Rattle.grs_latch.specs.Calls.{Sets};
    ghost use Rattle.grs_latch.specs.Limits.{most_sets};

    ghost Value = { Sets };

    ghost view = { λ a. a.sets.items };

    ghost invariant = { λ a. length a.sets.items ≤ most_sets };
}

impl Latches {
    /// No sets.
    pub fn new(alloc: Global) -> Self
        ensures { result ≡ [] }
    {
        Latches {
            sets: Vec::new(alloc),
        }
    }

    /// Carries out a call. A set that it makes has 1 to 1,024 latches, and finds fewer than 64 there. What it is answered is
    /// the code of its table, 0C where there is no such set or latch, and who gets a latch by it. Want of memory leaves
    /// all latches as they were.
    pub fn call(&mut self, alloc: Global, call: &LatchCall) -> Result<LatchReply, NoMemory>
        requires { MayCome call.now self.old }
        ensures reply { IfOk result (λ r. r ≡ reply 0 call.now self.old) }
        ensures after { OnOk result (self.new ≡ after call.now self.old) }
        ensures unchanged { OnErr result (self.new ≡ self.old) }
    {
        call_of(alloc, &mut self.sets, call)
    }

    /// The name of the set at a place in the order of making; no bytes where there is none.
    #[tactic(auto, using(crate::proofs::SetLemmas::name_at))]
    pub fn name(&self, place: usize) -> &[u8]
        ensures { result.now ≡ set_name place self.now }
    {
        if place < self.sets.len() {
            self.sets[place].name.as_slice()
        } else {
            &[]
        }
    }

    /// The latches that have requests: sets in order of making, and latches by number.
    pub fn rows(&self, alloc: Global) -> Result<List<LatchRow>, NoMemory>
        ensures { IfOk result (λ rows. rows ≡ rows_of 0 self.now) }
    {
        let mut rows = List::new(alloc);
        add_all_rows(alloc, self.sets.as_slice(), &mut rows)?;
        Ok(rows)
    }
}
