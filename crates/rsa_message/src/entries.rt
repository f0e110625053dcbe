//! The entries of the message, in order.
ghost use Rattle.std.specs.Prelude.{◌≡◌, ◌+◌, ◌<◌, ◌≤◌, ◌^◌, ◌++◌, ◌==◌, length, map, filter, not, IfOk, vec_len, vec_capacity};
ghost use Rattle.rsa_message.specs.Message.{left_by, any_unseen, cleared, stamped, first_number};
ghost use Rattle.grs_wire.specs.Unseen.{unseen};

use grs_base::{List, NoMemory, SysId};
use grs_wire::masks::{has_system, with_system, without_system};
use grs_wire::{Req, RingBody, RingEntry};
use std::alloc::Global;

/// The system leaves all masks.
fn leave(entries: &mut Vec<RingEntry>, system: SysId)
    requires { system.0 < 32 }
    ensures items { entries.new.items ≡ map (left_by system) entries.old.items }
    ensures len { vec_len entries.new ≡ vec_len entries.old }
    ensures capacity { vec_capacity entries.new ≡ vec_capacity entries.old }
{
    for i in 0..entries.len() {
        let entry = &mut entries[i];
        entry.mask = without_system(entry.mask, system);
    }
}

/// The entries with this mask go.
fn drop_of(entries: &mut Vec<RingEntry>, mask: u32)
    ensures items { entries.new.items ≡ filter (λ e. not (e.mask == mask)) entries.old.items }
    ensures len { vec_len entries.new ≤ vec_len entries.old }
    ensures capacity { vec_capacity entries.new ≡ vec_capacity entries.old }
{
    entries.retain(|entry| entry.mask != mask);
}

/// The system leaves all masks, and an entry goes where it was the last in its mask.
#[tactic(auto, unfolding(crate::specs::Message::cleared))]
pub fn clear(entries: &mut Vec<RingEntry>, system: SysId)
    requires { system.0 < 32 }
    ensures items { entries.new.items ≡ cleared system entries.old.items }
    ensures len { vec_len entries.new ≤ vec_len entries.old }
    ensures capacity { vec_capacity entries.new ≡ vec_capacity entries.old }
{
    let alone = with_system(0, system);
    drop_of(entries, alone);
    leave(entries, system);
}

/// Puts these requests in as entries of this system with this mask, numbered from this number on. There is
/// room for them, so no memory is taken.
#[tactic(auto, unfolding(crate::specs::Message::stamped))]
pub fn put(entries: &mut Vec<RingEntry>, number: u64, from: SysId, mask: u32, out: List<Req>)
    requires room { vec_len entries.old + length out ≤ vec_capacity entries.old }
    requires numbers { number + length out < 2 ^ 64 }
    ensures items { entries.new.items ≡ entries.old.items ++ stamped number from mask out }
{
    let mut next = number;
    for req in out.into_vec() {
        let _ = entries.push(RingEntry {
            number: next,
            from,
            body: RingBody::Request(req),
            mask,
        });
        next += 1;
    }
}

/// How many entries are unseen by the system.
fn count_unseen(entries: &[RingEntry], system: SysId) -> usize
    requires { system.0 < 32 }
{
    entries
        .iter()
        .filter(|entry| has_system(entry.mask, system))
        .count()
}

/// Copies of the entries that are unseen by the system.
#[tactic(auto, unfolding(grs_wire::specs::Unseen::unseen))]
pub fn copy_unseen(
    alloc: Global,
    entries: &[RingEntry],
    system: SysId,
) -> Result<List<RingEntry>, NoMemory>
    requires { system.0 < 32 }
    ensures { IfOk result (λ list. list ≡ unseen system entries.now) }
{
    let mut list = List::with_room(alloc, count_unseen(entries, system))?;
    for entry in entries {
        if has_system(entry.mask, system) {
            list.push(entry.copy(alloc)?)?;
        }
    }
    Ok(list)
}

/// Whether some entry is unseen by the system.
#[tactic(auto, unfolding(crate::specs::Message::any_unseen))]
pub fn has_unseen(entries: &[RingEntry], system: SysId) -> bool
    requires { system.0 < 32 }
    ensures { result ≡ any_unseen system entries.now }
{
    entries.iter().any(|entry| has_system(entry.mask, system))
}

/// The number of the first entry that is unseen by the system.
#[tactic(auto, unfolding(grs_wire::specs::Unseen::unseen))]
pub fn first_of_unseen(entries: &[RingEntry], system: SysId) -> Option<u64>
    requires { system.0 < 32 }
    ensures { result ≡ first_number (unseen system entries.now) }
{
    for entry in entries {
        if has_system(entry.mask, system) {
            return Some(entry.number);
        }
    }
    None
}
