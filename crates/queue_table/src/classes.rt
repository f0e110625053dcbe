//! Which class each place of a list has, so that the places of one class are found without going over the others: its last
//! place leads to the one before, and so on. What the classes are for isn't known here.
ghost use Rattle.std.specs.Prelude.{◌≡◌, ◌<◌, ◌≤◌, ◌+◌, ◌++◌, ◌∷◌, [], ℕ, None, cond, nat_eq, length, take, slice_get, vec_len, vec_capacity, Some, OnOk};
ghost use Rattle.queue_table.specs.Classes.{end_at, last_place, most_classes};

use grs_base::NoMemory;
use std::alloc::Global;
use std::marker::Model;

/// How many classes there may be: 64 slices, and 256 systems.
const MOST_CLASSES: usize = 320;

/// A place: its class, and the place before it that has the same one.
#[derive(Clone, Copy)]
struct Link {
    class: u32,
    before: Option<usize>,
}

/// The classes of the places of a list, seen as these, beside for how many more there is room. The last place of a class
/// stands under its number.
#[derive(Drop)]
pub(crate) struct Classes {
    last: Vec<Option<usize>>,
    links: Vec<Link>,
}

impl Model for Classes {
    ghost use Rattle.std.specs.Prelude.{◌-◌, cond, map, nat_le, length, vec_len, vec_capacity};
    ghost use Rattle.queue_table.specs.Classes.{ClassesView, IsChained, most_classes};

    ghost Value = { ClassesView };

    ghost view = { λ a. record { classes = map (λ l. l.class) a.links.items; room = cond (nat_le most_classes (length a.last.items)) (vec_capacity a.links - vec_len a.links) 0 } };

    ghost invariant = { λ a. IsChained a.last.items (map (λ l. l.before) a.links.items) (map (λ l. l.class) a.links.items) };
}

/// The last place of a class.
#[tactic(auto, using(crate::proofs::EndLemmas::ends))]
fn find_last(last: &Vec<Option<usize>>, class: u32) -> Option<usize>
    ensures { result ≡ end_at last.now.items class }
{
    let at = class as usize;
    if at < last.len() { last[at] } else { None }
}

/// This place is the last one of a class.
#[tactic(auto, using(crate::proofs::EndLemmas::ends))]
fn set_last(last: &mut Vec<Option<usize>>, class: u32, place: usize)
    requires { class < length last.old.items }
    ensures len { length last.new.items ≡ length last.old.items }
    ensures last { (c : ℕ) → end_at last.new.items c ≡ cond (nat_eq c class) (Some place) (end_at last.old.items c) }
{
    last[class as usize] = Some(place);
}

/// Makes room for the last place of any class.
#[tactic(auto, using(crate::proofs::EndLemmas::ends))]
fn reserve_last(last: &mut Vec<Option<usize>>) -> Result<(), NoMemory>
    ensures last { (c : ℕ) → end_at last.new.items c ≡ end_at last.old.items c }
    ensures longer { length last.old.items ≤ length last.new.items }
    ensures room { OnOk result (most_classes ≤ length last.new.items) }
{
    let held = last.len();
    if held >= MOST_CLASSES {
        return Ok(());
    }
    match last.resize(MOST_CLASSES, None) {
        Ok(()) => Ok(()),
        Err(_) => Err(NoMemory),
    }
}

/// No class has a place any more.
#[tactic(auto, using(crate::proofs::EndLemmas::ends))]
fn clear_last(last: &mut Vec<Option<usize>>)
    ensures len { length last.new.items ≡ length last.old.items }
    ensures last { (c : ℕ) → end_at last.new.items c ≡ None }
{
    let held = last.len();
    last.clear();
    let _ = last.resize(held, None);
}

/// Puts a place behind others.
fn add_link(links: &mut Vec<Link>, link: Link)
    requires { vec_len links.old < vec_capacity links.old }
    ensures links { links.new.items ≡ links.old.items ++ link ∷ [] }
    ensures len { vec_len links.new ≡ vec_len links.old + 1 }
    ensures capacity { vec_capacity links.old ≤ vec_capacity links.new }
{
    let _ = links.push(link);
}

impl Classes {
    /// No places.
    pub(crate) fn new(alloc: Global) -> Self
        ensures { result.classes ≡ [] }
    {
        Classes {
            last: Vec::new(alloc),
            links: Vec::new(alloc),
        }
    }

    /// Makes room for one more place.
    pub(crate) fn reserve(&mut self) -> Result<(), NoMemory>
        ensures classes { self.new.classes ≡ self.old.classes }
        ensures room { OnOk result (1 ≤ self.new.room) }
    {
        reserve_last(&mut self.last)?;
        match self.links.reserve(1) {
            Ok(()) => Ok(()),
            Err(_) => Err(NoMemory),
        }
    }

    /// One more place, of this class.
    pub(crate) fn push(&mut self, class: u32)
        requires class { class < most_classes }
        requires room { 1 ≤ self.old.room }
        ensures classes { self.new.classes ≡ self.old.classes ++ class ∷ [] }
        ensures room { self.old.room ≤ self.new.room + 1 }
    {
        let before = find_last(&self.last, class);
        set_last(&mut self.last, class, self.links.len());
        add_link(&mut self.links, Link { class, before });
    }

    /// Lets all places go, and keeps their room.
    pub(crate) fn clear(&mut self)
        ensures classes { self.new.classes ≡ [] }
        ensures room { length self.old.classes ≤ self.new.room }
    {
        clear_last(&mut self.last);
        self.links.clear();
    }

    /// The last place of a class.
    pub(crate) fn last(&self, class: u32) -> Option<usize>
        ensures { result ≡ last_place class self.now.classes }
    {
        find_last(&self.last, class)
    }

    /// The last place before this one that has its class.
    pub(crate) fn before(&self, place: usize, class: u32) -> Option<usize>
        requires { slice_get self.now.classes place ≡ Some class }
        ensures { result ≡ last_place class (take place self.now.classes) }
    {
        self.links[place].before
    }
}
