//! The resources that a table knows, each with the number of its queue. Those of a slice, or of one system, are found
//! without going over the others. Those whose queues are empty leave together, by `let_empty_go`; nothing else here knows
//! queues.
ghost use Rattle.std.specs.Prelude.{◌≡◌, ◌+◌, ◌<◌, ◌≤◌, ◌++◌, ◌∷◌, [], true, None, Some, length, map, take, slice_get, OnOk, IfSome, IfNone};
ghost use Rattle.std.specs.Option.{option_map};
ghost use Rattle.indexmap.specs.IndexMap.{spare};
ghost use Rattle.queue_table.specs.Classes.{class_of, class_at, has_class, last_place, most_classes};
ghost use Rattle.queue_table.specs.Names.{queue_number, named, IsTable};

use super::classes::Classes;
use grs_base::{NoMemory, Place, Queues, Res, SLICES, SysId, slice_of};
use indexmap::IndexMap;
use std::alloc::Global;
use std::marker::Model;

/// Resources with the numbers of their queues, seen as these, beside for how many more there is room.
#[derive(Drop)]
pub(crate) struct Resources {
    numbers: IndexMap<Res, u32>,
    classes: Classes,
}

impl Model for Resources {
    ghost use Rattle.std.specs.Prelude.{◌≡◌, min, map};
    ghost use Rattle.indexmap.specs.IndexMap.{spare};
    ghost use Rattle.queue_table.specs.Classes.{class_of, ResourcesView};

    ghost Value = { ResourcesView };

    ghost view = { λ a. record { entries = a.numbers.entries; room = min (spare a.numbers) a.classes.room } };

    ghost invariant = { λ a. a.classes.classes ≡ map (λ e. class_of e.0) a.numbers.entries };
}

/// The class of the resources of a system's own.
fn class_of_system(system: SysId) -> u32
    ensures class { result ≡ 64 + system.0 }
    ensures below { result < most_classes }
{
    SLICES + u32::from(system.0)
}

/// The class of a resource: of one of the whole complex its slice, of others one for each system.
fn class_of(res: &Res) -> u32
    ensures class { result ≡ class_of res.now }
    ensures below { result < most_classes }
{
    match res {
        Res::Systems { q, r } => slice_of(q, r),
        Res::System { system, .. } | Res::Step { system, .. } => class_of_system(*system),
    }
}

/// The class of the resources of a place.
fn class_at(place: Place) -> u32
    ensures { result ≡ class_at place }
{
    match place {
        Place::Slice(slice) => slice,
        Place::Local(system) => class_of_system(system),
    }
}

/// Whether the resources of a place's class are of the place. Else none is: there are no slices behind the last one.
pub(crate) fn has_class(place: Place) -> bool
    ensures { result ≡ has_class place }
{
    match place {
        Place::Slice(slice) => slice < SLICES,
        Place::Local(_) => true,
    }
}

/// Gives a resource a number.
fn add_number(numbers: &mut IndexMap<Res, u32>, res: Res, queue: u32)
    requires absent { queue_number numbers.old.entries res ≡ None }
    requires room { 1 ≤ spare numbers.old }
    ensures { numbers.new.entries ≡ numbers.old.entries ++ (res, queue) ∷ [] }
{
    let _ = numbers.insert(res, queue);
}

/// The number of the queue of the resource at a place.
fn number_at(numbers: &IndexMap<Res, u32>, place: usize) -> Option<u32>
    ensures { result ≡ option_map (λ e. e.1) (slice_get numbers.now.entries place) }
{
    match numbers.get_index(place) {
        Some((_, queue)) => Some(*queue),
        None => None,
    }
}

/// The resource at a place leaves with its queue, which has this number, if that is empty.
fn let_go<Q: Queues>(numbers: &mut IndexMap<Res, u32>, queues: &mut Q, place: usize, queue: u32)
    requires table { IsTable numbers.old.entries (Q.elements queues.old) (Q.is_live queues.old) }
    requires number { Some queue ≡ option_map (λ e. e.1) (slice_get numbers.old.entries place) }
    ensures table { IsTable numbers.new.entries (Q.elements queues.new) (Q.is_live queues.new) }
    ensures elements { named numbers.new.entries (Q.elements queues.new) ≡ named numbers.old.entries (Q.elements queues.old) }
    ensures fewer { length numbers.new.entries ≤ length numbers.old.entries }
{
    let left = queues.len(queue);
    if left == 0 {
        let _ = numbers.swap_remove_index(place);
        queues.drop_empty(queue);
    }
}

/// The resources whose queues are empty leave, and these queues. It takes no memory. The places are gone through from the
/// last to the first, since what stood last takes the place of what leaves.
fn let_all_go<Q: Queues>(numbers: &mut IndexMap<Res, u32>, queues: &mut Q)
    requires { IsTable numbers.old.entries (Q.elements queues.old) (Q.is_live queues.old) }
    ensures table { IsTable numbers.new.entries (Q.elements queues.new) (Q.is_live queues.new) }
    ensures elements { named numbers.new.entries (Q.elements queues.new) ≡ named numbers.old.entries (Q.elements queues.old) }
    ensures fewer { length numbers.new.entries ≤ length numbers.old.entries }
{
    let mut place = numbers.len();
    'places: while place > 0 {
        place -= 1;
        match number_at(numbers, place) {
            Some(queue) => let_go(numbers, queues, place, queue),
            None => {}
        }
    }
}

/// The classes of these resources, where there is room for them.
fn put_classes(classes: &mut Classes, numbers: &IndexMap<Res, u32>)
    requires none { classes.old.classes ≡ [] }
    requires room { length numbers.now.entries ≤ classes.old.room }
    ensures { classes.new.classes ≡ map (λ e. class_of e.0) numbers.now.entries }
{
    for i in 0..numbers.len() {
        match numbers.get_index(i) {
            Some((res, _)) => classes.push(class_of(res)),
            None => unreachable!(),
        }
    }
}

impl Resources {
    /// No resources.
    pub(crate) fn new(alloc: Global) -> Self
        ensures { result.entries ≡ [] }
    {
        Resources {
            numbers: IndexMap::new(alloc),
            classes: Classes::new(alloc),
        }
    }

    /// Makes room for one more.
    pub(crate) fn reserve(&mut self) -> Result<(), NoMemory>
        ensures entries { self.new.entries ≡ self.old.entries }
        ensures room { OnOk result (1 ≤ self.new.room) }
    {
        if self.numbers.reserve(1).is_err() {
            return Err(NoMemory);
        }
        self.classes.reserve()
    }

    /// How many there are.
    pub(crate) fn len(&self) -> usize
        ensures { result ≡ length self.now.entries }
    {
        self.numbers.len()
    }

    /// The number of a resource's queue.
    pub(crate) fn find(&self, res: &Res) -> Option<u32>
        ensures { result ≡ queue_number self.now.entries res.now }
    {
        self.numbers.get(res).copied()
    }

    /// The resource at a place, with its number.
    pub(crate) fn entry(&self, place: usize) -> Option<(&Res, u32)>
        ensures entry { IfSome result (λ e. slice_get self.now.entries place ≡ Some (e.0.now, e.1)) }
        ensures none { IfNone result (length self.now.entries ≤ place) }
    {
        match self.numbers.get_index(place) {
            Some((res, queue)) => Some((res, *queue)),
            None => None,
        }
    }

    /// One more resource, with the number of its queue.
    pub(crate) fn add(&mut self, res: Res, queue: u32)
        requires absent { queue_number self.old.entries res ≡ None }
        requires room { 1 ≤ self.old.room }
        ensures { self.new.entries ≡ self.old.entries ++ (res, queue) ∷ [] }
    {
        self.classes.push(class_of(&res));
        add_number(&mut self.numbers, res, queue);
    }

    /// The resources whose queues are empty leave, and these queues. It takes no memory.
    pub(crate) fn let_empty_go<Q: Queues>(&mut self, queues: &mut Q)
        requires { IsTable self.old.entries (Q.elements queues.old) (Q.is_live queues.old) }
        ensures table { IsTable self.new.entries (Q.elements queues.new) (Q.is_live queues.new) }
        ensures elements { named self.new.entries (Q.elements queues.new) ≡ named self.old.entries (Q.elements queues.old) }
    {
        let_all_go(&mut self.numbers, queues);
        self.classes.clear();
        put_classes(&mut self.classes, &self.numbers);
    }

    /// The last place of a resource that may be of a place that is looked at: of those that are, none stands behind it.
    pub(crate) fn last_of(&self, place: Place) -> Option<usize>
        ensures { result ≡ last_place (class_at place) (map (λ e. class_of e.0) self.now.entries) }
    {
        self.classes.last(class_at(place))
    }

    /// The one before it.
    pub(crate) fn before(&self, at: usize, place: Place) -> Option<usize>
        requires { slice_get (map (λ e. class_of e.0) self.now.entries) at ≡ Some (class_at place) }
        ensures { result ≡ last_place (class_at place) (take at (map (λ e. class_of e.0) self.now.entries)) }
    {
        self.classes.before(at, class_at(place))
    }
}
