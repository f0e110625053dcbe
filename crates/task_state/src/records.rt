//! The requests on record of one task. Each stands under a number, in the order of the numbers, and its resource
//! leads to that number, so that no call on one record goes over the others. Nothing here knows of other tasks.
ghost use Rattle.std.specs.Prelude.{◌≡◌, ◌<◌, ◌≤◌, ◌+◌, ◌++◌, ◌∷◌, [], true, length, cond, drop, None, OnOk, OnErr, IfSome, IfNone};
ghost use Rattle.std.specs.Option.{option_copied};
ghost use Rattle.std.specs.Ordering.{nat_cmp};
ghost use Rattle.std.specs.BTreeMap.{is_at};
ghost use Rattle.std.specs.Map.{lookup};
ghost use Rattle.indexmap.specs.IndexMap.{spare};
ghost use Rattle.grs_base.specs.Same.{same_res};
ghost use Rattle.grs_base.specs.declared.resource.Ctl.TheVariants.{E};
ghost use Rattle.grs_base.specs.declared.resource.Res.{Res as ResValue};
ghost use Rattle.task_state.specs.Numbers.{rises_to, without_number, on_number};
ghost use Rattle.task_state.specs.View.{record_of, on_record, with_last, without_first};

use super::state::Rec;
use grs_base::{Ctl, NoMemory, Res};
use indexmap::IndexMap;
use std::alloc::Global;
use std::collections::BTreeMap;
use std::collections::btree_map::Values;
use std::marker::Model;

/// Requests of one task that stand in lists, one for each resource, in the order in which they were queued.
/// Contracts see them as a list. `next` is the number of the next one, above all others.
#[derive(Drop)]
pub struct Records {
    numbers: IndexMap<Res, u64>,
    recs: BTreeMap<u64, Rec>,
    next: u64,
}

impl Model for Records {
    ghost use Rattle.std.specs.Prelude.{List};
    ghost use Rattle.std.specs.Map.{values_of};
    ghost use Rattle.task_state.specs.declared.state.Rec.{Rec};

    ghost Value = { List Rec };

    ghost use Rattle.task_state.specs.Numbers.{IsKept};

    ghost view = { λ a. values_of a.recs.entries };

    ghost invariant = { λ a. IsKept a.numbers.entries a.recs.entries a.next };
}

/// The number of a resource's record.
fn find_number(numbers: &IndexMap<Res, u64>, res: &Res) -> Option<u64>
    ensures { result ≡ lookup (same_res res.now) numbers.now.entries }
{
    numbers.get(res).copied()
}

/// Makes room for one more number.
fn reserve_number(numbers: &mut IndexMap<Res, u64>) -> Result<(), NoMemory>
    ensures same { numbers.new.entries ≡ numbers.old.entries }
    ensures room { OnOk result (1 ≤ spare numbers.new) }
{
    match numbers.reserve(1) {
        Ok(()) => Ok(()),
        Err(_) => Err(NoMemory),
    }
}

/// Gives a resource a number.
fn add_number(numbers: &mut IndexMap<Res, u64>, res: Res, number: u64)
    requires { 1 ≤ spare numbers.old }
    ensures { (r : ResValue) → lookup (same_res r) numbers.new.entries ≡ cond (same_res res r) (Some number) (lookup (same_res r) numbers.old.entries) }
{
    let _ = numbers.insert(res, number);
}

/// Takes the number of a resource away from it.
fn take_number(numbers: &mut IndexMap<Res, u64>, res: &Res) -> Option<u64>
    ensures number { result ≡ lookup (same_res res.now) numbers.old.entries }
    ensures left { (r : ResValue) → lookup (same_res r) numbers.new.entries ≡ cond (same_res res.now r) None (lookup (same_res r) numbers.old.entries) }
{
    numbers.swap_remove(res)
}

/// Puts a record under a number above all others.
#[tactic(auto, using(crate::proofs::NumberLaws::entries))]
fn add_under(recs: &mut BTreeMap<u64, Rec>, number: u64, rec: Rec) -> Result<(), NoMemory>
    requires { rises_to number recs.old.entries ≡ true }
    ensures ok { OnOk result (recs.new.entries ≡ recs.old.entries ++ (number, rec) ∷ []) }
    ensures err { OnErr result (recs.new.entries ≡ recs.old.entries) }
{
    match recs.insert(number, rec) {
        Ok(_) => Ok(()),
        Err(_) => Err(NoMemory),
    }
}

/// Takes the record of a number out.
#[tactic(auto, using(crate::proofs::NumberLaws::entries))]
fn take_under(recs: &mut BTreeMap<u64, Rec>, number: u64) -> Option<Rec>
    ensures taken { result ≡ lookup (is_at (nat_cmp number)) recs.old.entries }
    ensures left { recs.new.entries ≡ without_number number recs.old.entries }
{
    recs.remove(&number)
}

/// The task was told control of the record of a number.
fn mark_told_under(recs: &mut BTreeMap<u64, Rec>, number: u64)
    ensures { recs.new.entries ≡ on_number number (λ x. record x { told = true }) recs.old.entries }
{
    if let Some(rec) = recs.get_mut(&number) {
        rec.told = true;
    }
}

/// The task's control of the record of a number is exclusive.
fn make_exclusive_under(recs: &mut BTreeMap<u64, Rec>, number: u64)
    ensures { recs.new.entries ≡ on_number number (λ x. record x { ctl = E }) recs.old.entries }
{
    if let Some(rec) = recs.get_mut(&number) {
        rec.ctl = Ctl::E;
    }
}

/// The record of a number has this rank.
fn set_rank_under(recs: &mut BTreeMap<u64, Rec>, number: u64, rank: u64)
    ensures { recs.new.entries ≡ on_number number (λ x. record x { rank = rank }) recs.old.entries }
{
    if let Some(rec) = recs.get_mut(&number) {
        rec.rank = rank;
    }
}

#[tactic(auto, using(crate::proofs::NumberLaws::kept))]
impl Records {
    /// No requests.
    pub(crate) fn new(alloc: Global) -> Self
        ensures { result ≡ [] }
    {
        Records {
            numbers: IndexMap::new(alloc),
            recs: BTreeMap::new(alloc),
            next: 0,
        }
    }

    /// How many records there are.
    pub fn len(&self) -> usize
        ensures len { result ≡ length self.now }
        ensures few { result ≤ u32.MAX }
    {
        self.recs.len()
    }

    /// The first record.
    pub fn first(&self) -> Option<&Rec>
        ensures some { IfSome result (λ x. self.now ≡ x.now ∷ drop 1 self.now) }
        ensures none { IfNone result (self.now ≡ []) }
    {
        match self.recs.first_key_value() {
            Some((_, rec)) => Some(rec),
            None => None,
        }
    }

    /// The records in order.
    pub fn iter(&self) -> Values<'_, u64, Rec>
        ensures { result ≡ self.now }
    {
        self.recs.values()
    }

    /// The record of a resource.
    pub fn find(&self, res: &Res) -> Option<&Rec>
        ensures { option_copied result ≡ record_of self.now res.now }
    {
        match find_number(&self.numbers, res) {
            Some(number) => self.recs.get(&number),
            None => None,
        }
    }

    /// Puts a record behind the others, of which none is of its resource.
    fn push_new(&mut self, alloc: Global, rec: Rec) -> Result<(), NoMemory>
        requires { record_of self.old rec.res ≡ None }
        ensures ok { OnOk result (self.new ≡ self.old ++ rec ∷ []) }
        ensures err { OnErr result (self.new ≡ self.old) }
    {
        if self.recs.len() >= u32::MAX as usize || self.next == u64::MAX {
            return Err(NoMemory);
        }
        let res = rec.res.copy(alloc)?;
        reserve_number(&mut self.numbers)?;
        add_under(&mut self.recs, self.next, rec)?;
        add_number(&mut self.numbers, res, self.next);
        self.next += 1;
        Ok(())
    }

    /// Puts a record behind the others, unless there is one of its resource. There is no memory for more than
    /// 4,294,967,295 records, nor for one behind 18,446,744,073,709,551,615 that came before.
    pub(crate) fn push(&mut self, alloc: Global, rec: Rec) -> Result<(), NoMemory>
        ensures ok { OnOk result (self.new ≡ with_last self.old rec) }
        ensures err { OnErr result (self.new ≡ self.old) }
    {
        match self.find(&rec.res) {
            Some(_) => Ok(()),
            None => self.push_new(alloc, rec),
        }
    }

    /// Takes the record of a resource out, if there is one.
    pub(crate) fn take(&mut self, res: &Res) -> Option<Rec>
        ensures taken { result ≡ record_of self.old res.now }
        ensures left { self.new ≡ without_first self.old res.now }
    {
        match take_number(&mut self.numbers, res) {
            Some(number) => take_under(&mut self.recs, number),
            None => None,
        }
    }

    /// The task was told control of a resource.
    pub(crate) fn mark_told(&mut self, res: &Res)
        ensures { self.new ≡ on_record res.now (λ x. record x { told = true }) self.old }
    {
        if let Some(number) = find_number(&self.numbers, res) {
            mark_told_under(&mut self.recs, number);
        }
    }

    /// The task's control of a resource is exclusive.
    pub(crate) fn make_exclusive(&mut self, res: &Res)
        ensures { self.new ≡ on_record res.now (λ x. record x { ctl = E }) self.old }
    {
        if let Some(number) = find_number(&self.numbers, res) {
            make_exclusive_under(&mut self.recs, number);
        }
    }

    /// The task's request for a resource has this rank.
    pub(crate) fn set_rank(&mut self, res: &Res, rank: u64)
        ensures { self.new ≡ on_record res.now (λ x. record x { rank = rank }) self.old }
    {
        if let Some(number) = find_number(&self.numbers, res) {
            set_rank_under(&mut self.recs, number, rank);
        }
    }
}
