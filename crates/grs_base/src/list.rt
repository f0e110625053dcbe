//! A list of items, and copies of lists.
ghost use Rattle.std.specs.Prelude.{◌≡◌, IfOk};

use super::NoMemory;
use std::alloc::Global;
use std::marker::Model;

/// Items in order, which contracts see as a list.
#[derive(Drop)]
pub struct List<T> {
    items: Vec<T>,
}

impl<T> Model for List<T> {
    ghost use Rattle.std.specs.Prelude.{List};

    ghost Value = { List T };

    ghost view = { λ a. a.items.items };
}

impl<T> List<T> {
    ghost use Rattle.std.specs.Prelude.{◌≡◌, ◌<◌, ◌++◌, ◌∷◌, [], length, IfOk, OnOk, OnErr, slice_get, Some, IfSome, IfNone};

    /// A list without items.
    pub fn new(alloc: Global) -> Self
        ensures { result ≡ [] }
    {
        List {
            items: Vec::new(alloc),
        }
    }

    /// A list without items, with room for so many. Room is no part of what contracts see of a list: it saves
    /// growing it step by step.
    pub fn with_room(alloc: Global, room: usize) -> Result<Self, NoMemory>
        ensures { IfOk result (λ list. list ≡ []) }
    {
        match Vec::with_capacity(alloc, room) {
            Ok(items) => Ok(List { items }),
            Err(_) => Err(NoMemory),
        }
    }

    /// Puts an item last.
    pub fn push(&mut self, item: T) -> Result<(), NoMemory>
    where
        T: Drop,
        ensures ok { OnOk result (self.new ≡ self.old ++ item ∷ []) }
        ensures err { OnErr result (self.new ≡ self.old) }
    {
        match self.items.push(item) {
            Ok(()) => Ok(()),
            Err(_) => Err(NoMemory),
        }
    }

    /// Takes the last item out.
    pub fn pop(&mut self) -> Option<T>
        ensures last { IfSome result (λ item. self.old ≡ self.new ++ item ∷ []) }
        ensures none { IfNone result (self.old ≡ []) }
        ensures empty { IfNone result (self.new ≡ []) }
    {
        self.items.pop()
    }

    /// How many items there are.
    pub fn len(&self) -> usize
        ensures { result ≡ length self.now }
    {
        self.items.len()
    }

    /// The item at a place, from 0.
    pub fn get(&self, place: usize) -> &T
        requires { place < length self.now }
        ensures { slice_get self.now place ≡ Some result.now }
    {
        &self.items[place]
    }

    /// The items as a slice.
    pub fn as_slice(&self) -> &[T]
        ensures { result.now ≡ self.now }
    {
        self.items.as_slice()
    }

    /// The items as a vector.
    pub fn into_vec(self) -> Vec<T>
        ensures { result.items ≡ self }
    {
        self.items
    }

    /// A list of a vector's items.
    pub fn from_vec(items: Vec<T>) -> Self
        ensures { result ≡ items.items }
    {
        List { items }
    }
}

impl<T: Copy> List<T> {
    ghost use Rattle.std.specs.Prelude.{◌≡◌, IfOk};

    /// An equal list.
    pub fn copy(&self, alloc: Global) -> Result<Self, NoMemory>
        ensures { IfOk result (λ list. list ≡ self.now) }
    {
        match Vec::from_slice(alloc, self.items.as_slice()) {
            Ok(items) => Ok(List { items }),
            Err(_) => Err(NoMemory),
        }
    }
}

impl List<u8> {
    ghost use Rattle.std.specs.Prelude.{◌≡◌, ◌++◌, OnOk, OnErr, IfOk};

    /// A list of these bytes.
    pub fn from_bytes(alloc: Global, bytes: &[u8]) -> Result<Self, NoMemory>
        ensures { IfOk result (λ list. list ≡ bytes.now) }
    {
        match Vec::from_slice(alloc, bytes) {
            Ok(items) => Ok(List { items }),
            Err(_) => Err(NoMemory),
        }
    }

    /// Puts these bytes last.
    pub fn append(&mut self, bytes: &[u8]) -> Result<(), NoMemory>
        ensures ok { OnOk result (self.new ≡ self.old ++ bytes.now) }
        ensures err { OnErr result (self.new ≡ self.old) }
    {
        match self.items.extend_from_slice(bytes) {
            Ok(()) => Ok(()),
            Err(_) => Err(NoMemory),
        }
    }
}

/// What can be copied where there is memory.
pub trait Copied: Drop {
    /// An equal value.
    fn copied(&self, alloc: Global) -> Result<Self, NoMemory>
        ensures { IfOk result (λ copied. copied ≡ self.now) };
}

/// Equal items, in order.
pub fn copy_all<T: Copied>(alloc: Global, items: &[T]) -> Result<List<T>, NoMemory>
    ensures { IfOk result (λ list. list ≡ items.now) }
{
    let mut list = List::with_room(alloc, items.len())?;
    for item in items {
        list.push(item.copied(alloc)?)?;
    }
    Ok(list)
}
