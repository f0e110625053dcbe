//! What a system makes ready ahead of a call, so that a reply by which little happens takes no memory.
ghost use Rattle.std.specs.Prelude.{◌≡◌, ◌≤◌, ◌+◌, [], None, vec_len, vec_capacity, OnOk, IsOk};
ghost use Rattle.grs_node.specs.Room.{needs_no_memory};

use super::replies::leaves_all;
use grs_base::{NoMemory, Res, TaskId};
use grs_wire::{Reply, ToldLine};
use std::alloc::Global;

/// Who is told next at a lock entry that it owns a resource, if somebody is.
#[derive(Drop)]
pub struct ToldNext {
    pub entry: u32,
    pub owner: Option<(TaskId, Res)>,
}

/// What is ready. Both vectors are empty.
#[derive(Drop)]
pub(crate) struct Ready {
    /// Here the lines that were told move, with one more.
    pub(crate) lines: Vec<ToldLine>,
    /// Here the line of a step is put, if it told one.
    pub(crate) told: Vec<ToldLine>,
    /// Who is told next at an entry, where that was looked for since the system changed.
    pub(crate) next: Option<ToldNext>,
}

impl Ready {
    /// Nothing.
    pub(crate) fn new(alloc: Global) -> Self
        ensures lines { result.lines.items ≡ [] }
        ensures told { result.told.items ≡ [] }
        ensures next { result.next ≡ None }
    {
        Ready {
            lines: Vec::new(alloc),
            told: Vec::new(alloc),
            next: None,
        }
    }
}

/// Makes room for so many items more.
pub(crate) fn make_room<T>(items: &mut Vec<T>, count: usize) -> Result<(), NoMemory>
    ensures items { items.new.items ≡ items.old.items }
    ensures len { vec_len items.new ≡ vec_len items.old }
    ensures room { OnOk result (vec_len items.new + count ≤ vec_capacity items.new) }
    ensures there { vec_len items.old + count ≤ vec_capacity items.old → IsOk result }
{
    match items.reserve(count) {
        Ok(()) => Ok(()),
        Err(_) => Err(NoMemory),
    }
}

/// Whether little happens by a reply, so that it takes no memory where there is room.
pub(crate) fn needs_no_memory(reply: &Reply) -> bool
    ensures { result ≡ needs_no_memory reply.now }
{
    match reply {
        Reply::Sent | Reply::Told | Reply::Left | Reply::Already | Reply::NoSuch => true,
        reply => leaves_all(reply),
    }
}
