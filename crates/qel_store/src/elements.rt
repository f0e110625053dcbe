//! The elements under the keys that their slab picks, each with its links and the number of its push. Nothing else
//! holds the slab. Each call that reads, changes, puts in or takes out an element is one step.
ghost use Rattle.std.specs.Prelude.{◌≡◌, ◌≤◌, ◌<◌, ◌+◌, ◌++◌, ◌∷◌, [], length, IsSome, None, Some, OnOk};
ghost use Rattle.qel_store.specs.Items.{found, changed, dropped, made_exclusive};
ghost use Rattle.qel_store.specs.Rings.{link_of, with_next as led_to, with_prev as led_from};

use grs_base::{Ctl, Elem, NoMemory, Steps};
use slab::Slab;
use std::alloc::Global;
use std::marker::Model;
use std::sync::ledger::Ledger;

/// The two lists on which an element stands.
#[derive(Clone, Copy)]
pub(crate) enum Side {
    /// Its queue's, in order of arrival.
    Queue,
    /// Its task's, in order of pushing.
    Task,
}

/// Where an element leads on one of its lists.
#[derive(Clone, Copy)]
pub(crate) struct Link {
    /// The element behind it; from the last, the first.
    pub next: u32,
    /// The element before it; from the first, the last.
    pub prev: u32,
}

/// An element with its queue and its links.
#[derive(Clone, Copy)]
pub(crate) struct Element {
    pub elem: Elem,
    pub queue: u32,
    pub in_queue: Link,
    pub of_task: Link,
}

impl Element {
    /// Where it leads on one of its lists.
    pub(crate) fn link(&self, side: Side) -> Link
        ensures { result ≡ link_of side self.now }
    {
        match side {
            Side::Queue => self.in_queue,
            Side::Task => self.of_task,
        }
    }

    /// The same element, which leads to another.
    fn with_next(self, side: Side, to: u32) -> Element
        ensures { result ≡ led_to side to self }
    {
        let mut element = self;
        match side {
            Side::Queue => element.in_queue.next = to,
            Side::Task => element.of_task.next = to,
        }
        element
    }

    /// The same element, which leads back to another.
    fn with_prev(self, side: Side, to: u32) -> Element
        ensures { result ≡ led_from side to self }
    {
        let mut element = self;
        match side {
            Side::Queue => element.in_queue.prev = to,
            Side::Task => element.of_task.prev = to,
        }
        element
    }

    /// The same element with exclusive control.
    fn exclusive(self) -> Element
        ensures { result ≡ made_exclusive self }
    {
        let mut element = self;
        element.elem.ctl = Ctl::E;
        element
    }
}

/// An element with the number of its push.
#[derive(Clone, Copy)]
struct Pushed {
    number: u64,
    element: Element,
}

/// The elements, and how many pushes there were. Contracts see them with their keys in the order of pushing.
#[derive(Drop)]
pub(crate) struct Elements {
    slab: Slab<Pushed>,
    pushes: u64,
}

impl Model for Elements {
    ghost use Rattle.std.specs.Prelude.{◌≡◌, ℕ, true};
    ghost use Rattle.slab.specs.Slab.{get};
    ghost use Rattle.qel_store.specs.Numbered.{in_order, is_below, room_of};
    ghost use Rattle.qel_store.specs.Stored.{Stored};

    ghost Value = { Stored };

    ghost view = { λ a. record { items = in_order a.pushes a.slab.slots; room = room_of a.pushes a.slab; next_key = a.slab.vacant_key } };

    ghost invariant = { λ a. (k : ℕ) → is_below a.pushes (get a.slab k) ≡ true };
}

impl Elements {
    /// No elements.
    pub(crate) fn new(alloc: Global) -> Self
        ensures { result.items ≡ [] }
    {
        Elements {
            slab: Slab::new(alloc),
            pushes: 0,
        }
    }

    /// Makes room for one element more.
    pub(crate) fn reserve(&mut self) -> Result<(), NoMemory>
        ensures items { self.new.items ≡ self.old.items }
        ensures room { OnOk result (1 ≤ self.new.room) }
    {
        if self.pushes == u64::MAX
            || self.slab.vacant_key() >= 0xffff_ffff
            || self.slab.len() >= 0xffff_ffff
        {
            return Err(NoMemory);
        }
        match self.slab.reserve(1) {
            Ok(()) => Ok(()),
            Err(_) => Err(NoMemory),
        }
    }

    /// The key that the next element gets.
    pub(crate) fn next_key(&self) -> u32
        requires { 1 ≤ self.now.room }
        ensures key { result ≡ self.now.next_key }
        ensures free { found self.now.items result ≡ None }
        ensures few { length self.now.items < 0xffff_ffff }
    {
        self.slab.vacant_key() as u32
    }

    /// Puts an element in, last in the order of pushing.
    pub(crate) fn insert<L: Ledger>(&mut self, element: Element, steps: &mut Steps<L>)
        requires { 1 ≤ self.old.room }
        ensures items { self.new.items ≡ self.old.items ++ (self.old.next_key, element) ∷ [] }
        ensures step { steps.new ≡ steps.old + 1 }
    {
        steps.tick();
        let number = self.pushes;
        self.pushes += 1;
        let _ = self.slab.insert_reserved(Pushed { number, element });
    }

    /// The element under a key.
    pub(crate) fn get<L: Ledger>(&self, key: u32, steps: &mut Steps<L>) -> Element
        requires { IsSome (found self.now.items key) }
        ensures element { found self.now.items key ≡ Some result }
        ensures step { steps.new ≡ steps.old + 1 }
    {
        steps.tick();
        self.slab[key as usize].element
    }

    /// The element under a key leads to another.
    pub(crate) fn set_next<L: Ledger>(
        &mut self,
        side: Side,
        key: u32,
        to: u32,
        steps: &mut Steps<L>,
    )
        requires { IsSome (found self.old.items key) }
        ensures items { self.new.items ≡ changed key (led_to side to) self.old.items }
        ensures room { self.new.room ≡ self.old.room }
        ensures key { self.new.next_key ≡ self.old.next_key }
        ensures step { steps.new ≡ steps.old + 1 }
    {
        steps.tick();
        let pushed = &mut self.slab[key as usize];
        pushed.element = pushed.element.with_next(side, to);
    }

    /// The element under a key leads back to another.
    pub(crate) fn set_prev<L: Ledger>(
        &mut self,
        side: Side,
        key: u32,
        to: u32,
        steps: &mut Steps<L>,
    )
        requires { IsSome (found self.old.items key) }
        ensures items { self.new.items ≡ changed key (led_from side to) self.old.items }
        ensures room { self.new.room ≡ self.old.room }
        ensures key { self.new.next_key ≡ self.old.next_key }
        ensures step { steps.new ≡ steps.old + 1 }
    {
        steps.tick();
        let pushed = &mut self.slab[key as usize];
        pushed.element = pushed.element.with_prev(side, to);
    }

    /// The element under a key gets exclusive control.
    pub(crate) fn set_exclusive<L: Ledger>(&mut self, key: u32, steps: &mut Steps<L>)
        requires { IsSome (found self.old.items key) }
        ensures items { self.new.items ≡ changed key made_exclusive self.old.items }
        ensures step { steps.new ≡ steps.old + 1 }
    {
        steps.tick();
        let pushed = &mut self.slab[key as usize];
        pushed.element = pushed.element.exclusive();
    }

    /// Takes the element under a key out.
    pub(crate) fn remove<L: Ledger>(&mut self, key: u32, steps: &mut Steps<L>) -> Element
        requires { IsSome (found self.old.items key) }
        ensures element { found self.old.items key ≡ Some result }
        ensures items { self.new.items ≡ dropped key self.old.items }
        ensures step { steps.new ≡ steps.old + 1 }
    {
        steps.tick();
        self.slab.remove(key as usize).element
    }
}
