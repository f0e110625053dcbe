//! An index over a name list: the specific and the generic entries by their qname, and the patterns apart, each by its
//! place in the list. So whoever looks a name up compares the entries of its qname and the patterns, however many
//! others there are.
ghost use Rattle.std.specs.Prelude.{◌≡◌, ◌≤◌, ◌<◌, ◌+◌, ◌++◌, ◌∷◌, [], List, ℕ, All, false, count_by, length, option_copied, if◌then◌else◌, IfOk, IfSome, IfNone, OnOk};
ghost use Rattle.std.specs.Map.{lookup};
ghost use Rattle.std.specs.Str.{bytes_eq};
ghost use Rattle.rnl_match.specs.Matches.{matches, find};
ghost use Rattle.rnl_match.specs.Index.{most_compared, places, is_under, is_pattern, bucket_at, first_place};

use super::entry::matches_counted;
use grs_base::{Form, List, NoMemory, Qname, Rname, RnlEntry, RnlList, Steps};
use indexmap::IndexMap;
use indexmap::map::Entry;
use std::alloc::Global;
use std::marker::{Brand, Model};
use std::sync::ledger::{Blank, Ledger};

/// The places of a qname's entries, in order. There is one at least.
#[derive(Drop)]
struct Bucket {
    first: u32,
    more: List<u32>,
}

impl Model for Bucket {
    ghost use Rattle.std.specs.Prelude.{List, ℕ, ◌∷◌};

    ghost Value = { List ℕ };

    ghost view = { λ a. a.first ∷ a.more };
}

/// A name list with an index, seen as the list.
#[derive(Drop)]
pub struct RnlIndex<'l> {
    list: &'l RnlList,
    buckets: IndexMap<Qname, Bucket>,
    patterns: List<u32>,
}

impl<'l> Model for RnlIndex<'l> {
    ghost use Rattle.grs_base.specs.Rnl.{RnlView};
    ghost use Rattle.rnl_match.specs.Index.{IsIndex};

    ghost Value = { RnlView };

    ghost view = { λ a. a.list.now };

    ghost invariant = { λ a. IsIndex a.list.now.entries a.buckets.entries a.patterns };
}

/// Puts a place behind the others of a bucket.
fn add_to(bucket: &mut Bucket, place: u32) -> Result<(), NoMemory>
    ensures { OnOk result (bucket.new ≡ bucket.old ++ place ∷ []) }
{
    bucket.more.push(place)
}

/// Puts a place behind the others of its qname.
fn add_place(
    alloc: Global,
    buckets: &mut IndexMap<Qname, Bucket>,
    q: &Qname,
    place: u32,
) -> Result<(), NoMemory>
    ensures own { OnOk result (bucket_at buckets.new.entries q.now ≡ bucket_at buckets.old.entries q.now ++ place ∷ []) }
    ensures others { OnOk result ((other : List ℕ) → bytes_eq q.now other ≡ false → bucket_at buckets.new.entries other ≡ bucket_at buckets.old.entries other) }
{
    match buckets.entry(q.copy(alloc)?) {
        Ok(Entry::Occupied(entry)) => add_to(entry.into_mut(), place),
        Ok(Entry::Vacant(entry)) => {
            entry.insert(Bucket {
                first: place,
                more: List::new(alloc),
            });
            Ok(())
        }
        Err(_) => Err(NoMemory),
    }
}

/// The bucket of a qname. Where there is none at all, the qname needn't be hashed.
fn bucket_of<'b>(buckets: &'b IndexMap<Qname, Bucket>, q: &Qname) -> Option<&'b Bucket>
    ensures { option_copied result ≡ lookup (bytes_eq q.now) buckets.now.entries }
{
    if buckets.is_empty() {
        None
    } else {
        buckets.get(q)
    }
}

/// The first of these places whose entry matches, of those before an end.
fn first_before<L: Ledger>(
    entries: &[RnlEntry],
    places: &[u32],
    end: usize,
    q: &Qname,
    r: &Rname,
    steps: &mut Steps<L>,
) -> Option<usize>
    requires within { All (λ p. p < length entries.now) places.now }
    ensures first { result ≡ first_place (λ e. matches e q.now r.now) entries.now end places.now }
    ensures most { steps.new ≤ steps.old + length places.now }
    ensures least { steps.old ≤ steps.new }
    ensures found { IfSome result (λ _. steps.old < steps.new) }
    ensures none { IfNone result (length entries.now ≤ end → steps.new ≡ steps.old + length places.now) }
{
    for place in places {
        let place = *place as usize;
        if place >= end {
            return None;
        }
        if matches_counted(&entries[place], q, r, steps) {
            return Some(place);
        }
    }
    None
}

/// The first entry of a bucket that matches.
fn first_in<L: Ledger>(
    entries: &[RnlEntry],
    bucket: &Bucket,
    q: &Qname,
    r: &Rname,
    steps: &mut Steps<L>,
) -> Option<usize>
    requires within { All (λ p. p < length entries.now) bucket.now }
    ensures first { result ≡ first_place (λ e. matches e q.now r.now) entries.now (length entries.now) bucket.now }
    ensures most { steps.new ≤ steps.old + length bucket.now }
    ensures least { steps.old ≤ steps.new }
    ensures found { IfSome result (λ _. steps.old < steps.new) }
    ensures none { IfNone result (steps.new ≡ steps.old + length bucket.now) }
{
    let first = bucket.first as usize;
    if matches_counted(&entries[first], q, r, steps) {
        return Some(first);
    }
    first_before(entries, bucket.more.as_slice(), entries.len(), q, r, steps)
}

/// Puts the place of an entry where it belongs.
fn add_entry(
    alloc: Global,
    buckets: &mut IndexMap<Qname, Bucket>,
    patterns: &mut List<u32>,
    entry: &RnlEntry,
    place: u32,
) -> Result<(), NoMemory>
    ensures under { OnOk result ((q : List ℕ) → bucket_at buckets.new.entries q ≡ (if is_under q entry.now then bucket_at buckets.old.entries q ++ place ∷ [] else bucket_at buckets.old.entries q)) }
    ensures apart { OnOk result (patterns.new ≡ (if is_pattern entry.now then patterns.old ++ place ∷ [] else patterns.old)) }
{
    match entry.form {
        Form::Pattern => patterns.push(place),
        Form::Specific | Form::Generic => add_place(alloc, buckets, &entry.q, place),
    }
}

impl<'l> RnlIndex<'l> {
    /// An index over a list. A place has 32 bits; a list that is longer than that, for which there is hardly memory, is
    /// answered NoMemory.
    pub fn build(alloc: Global, list: &'l RnlList) -> Result<RnlIndex<'l>, NoMemory>
        ensures { IfOk result (λ index. index ≡ list.now) }
    {
        let mut buckets = IndexMap::new(alloc);
        let mut patterns = List::new(alloc);
        for (place, entry) in list.as_slice().iter().enumerate() {
            let Ok(place) = u32::try_from(place) else {
                return Err(NoMemory);
            };
            add_entry(alloc, &mut buckets, &mut patterns, entry, place)?;
        }
        Ok(RnlIndex {
            list,
            buckets,
            patterns,
        })
    }

    /// The first entry of a qname that matches and is no pattern.
    #[tactic(auto, using(crate::proofs::IndexLaws::placed))]
    fn find_named<L: Ledger>(&self, q: &Qname, r: &Rname, steps: &mut Steps<L>) -> Option<usize>
        ensures first { result ≡ first_place (λ e. matches e q.now r.now) self.now.entries (length self.now.entries) (places (is_under q.now) 0 self.now.entries) }
        ensures most { steps.new ≤ steps.old + count_by (is_under q.now) self.now.entries }
        ensures least { steps.old ≤ steps.new }
        ensures found { IfSome result (λ _. steps.old < steps.new) }
        ensures none { IfNone result (steps.new ≡ steps.old + count_by (is_under q.now) self.now.entries) }
    {
        match bucket_of(&self.buckets, q) {
            None => None,
            Some(bucket) => first_in(self.list.as_slice(), bucket, q, r, steps),
        }
    }

    /// The first pattern before an end that matches.
    #[tactic(auto, using(crate::proofs::IndexLaws::placed))]
    fn find_pattern<L: Ledger>(
        &self,
        end: usize,
        q: &Qname,
        r: &Rname,
        steps: &mut Steps<L>,
    ) -> Option<usize>
        ensures first { result ≡ first_place (λ e. matches e q.now r.now) self.now.entries end (places is_pattern 0 self.now.entries) }
        ensures most { steps.new ≤ steps.old + count_by is_pattern self.now.entries }
        ensures least { steps.old ≤ steps.new }
        ensures found { IfSome result (λ _. steps.old < steps.new) }
        ensures none { IfNone result (length self.now.entries ≤ end → steps.new ≡ steps.old + count_by is_pattern self.now.entries) }
    {
        let entries = self.list.as_slice();
        first_before(entries, self.patterns.as_slice(), end, q, r, steps)
    }

    /// The place of the first entry that matches, as `find` of the list gives it, with a step for each entry that is
    /// compared: those of its qname and the patterns at most, and all of these where none matches.
    pub fn find_counted<L: Ledger>(
        &self,
        q: &Qname,
        r: &Rname,
        steps: &mut Steps<L>,
    ) -> Option<usize>
        ensures first { result ≡ find self.now q.now r.now }
        ensures within { IfSome result (λ place. place < length self.now.entries) }
        ensures most { steps.new ≤ steps.old + most_compared self.now q.now }
        ensures found { IfSome result (λ _. steps.old < steps.new) }
        ensures none { IfNone result (steps.new ≡ steps.old + most_compared self.now q.now) }
    {
        let named = self.find_named(q, r, steps);
        let end = named.unwrap_or(self.list.len());
        self.find_pattern(end, q, r, steps).or(named)
    }

    /// The same of a count that begins.
    fn find_from<L: Ledger>(&self, blank: Blank, q: &Qname, r: &Rname) -> Option<usize>
        requires name { blank.name ≡ L.name }
        requires parts { blank.parts ≡ L.parts }
        requires some { 0 < blank.parts }
        ensures first { result ≡ find self.now q.now r.now }
        ensures within { IfSome result (λ place. place < length self.now.entries) }
    {
        let mut steps = Steps::<L>::begin(blank);
        self.find_counted(q, r, &mut steps)
    }

    /// The place of the first entry that matches, from 0; none where no entry matches.
    pub fn find(&self, q: &Qname, r: &Rname) -> Option<usize>
        ensures first { result ≡ find self.now q.now r.now }
        ensures within { IfSome result (λ place. place < length self.now.entries) }
    {
        self.find_from::<Brand>(Blank::new(1), q, r)
    }
}
