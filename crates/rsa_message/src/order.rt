//! To which system the message goes next: upwards by number and round.
ghost use Rattle.std.specs.Prelude.{◌≡◌, ◌+◌, ◌%◌, ◌<◌, ◌≤◌};
ghost use Rattle.grs_base.specs.Limits.{most_systems};
ghost use Rattle.grs_wire.specs.Masks.{has};
ghost use Rattle.rsa_message.specs.Message.{stands_at, is_due, first_after, moved_on, or_else, system_number};

use crate::entries::has_unseen;
use grs_base::SysId;
use grs_wire::RingEntry;
use grs_wire::masks::has_system;

/// Whether the message stands at the system.
pub fn stands_at(holder: Option<SysId>, system: SysId) -> bool
    ensures { result ≡ stands_at holder system }
{
    match holder {
        Some(at) => at.0 == system.0,
        None => false,
    }
}

/// The system so many places after another.
fn system_after(systems: u32, system: SysId, places: u32) -> SysId
    requires some { 0 < systems }
    requires few { systems ≤ most_systems }
    requires places { places ≤ most_systems }
    ensures system { result ≡ record { 0 = (system.0 + places) % systems } }
    ensures below { result.0 < systems }
{
    SysId(((system.0 as u32 + places) % systems) as u8)
}

/// The first system of the set after this one.
#[tactic(auto, using(crate::proofs::OrderLaws::find_step), unfolding(crate::specs::Message::first_after))]
pub fn first_in(systems: u32, system: SysId, set: u32) -> Option<SysId>
    requires some { 0 < systems }
    requires few { systems ≤ most_systems }
    ensures first { result ≡ first_after systems system (λ s. has set s.0) }
    ensures below { system_number result < systems }
{
    for places in 0..systems {
        let next = system_after(systems, system, places + 1);
        if has_system(set, next) {
            return Some(next);
        }
    }
    None
}

/// Whether the message has to come to the system.
fn has_to_come(entries: &[RingEntry], live: u32, rest: u32, system: SysId) -> bool
    requires { system.0 < 32 }
    ensures { result ≡ is_due entries.now live rest system }
{
    has_system(live, system) && (has_unseen(entries, system) || !has_system(rest, system))
}

/// The first system after this one to which the message has to come, or this one where there is none.
#[tactic(auto, using(crate::proofs::OrderLaws::find_step), unfolding(crate::specs::Message::first_after))]
pub fn next_due(systems: u32, system: SysId, entries: &[RingEntry], live: u32, rest: u32) -> SysId
    requires system { system.0 < systems }
    requires few { systems ≤ most_systems }
    ensures next { result ≡ or_else (first_after systems system (is_due entries.now live rest)) system }
    ensures below { result.0 < systems }
{
    for places in 0..systems {
        let next = system_after(systems, system, places + 1);
        if has_to_come(entries, live, rest, next) {
            return next;
        }
    }
    system
}

/// Where the message stands once only the systems of the set have to come to it: where it is, if that is one of
/// them, else at the first of them after that; nowhere if there is none.
pub fn moved_to(systems: u32, holder: Option<SysId>, set: u32) -> Option<SysId>
    requires holder { system_number holder < systems }
    requires few { systems ≤ most_systems }
    ensures moved { result ≡ moved_on systems holder set }
    ensures below { system_number result < systems }
{
    match holder {
        Some(at) => {
            if has_system(set, at) {
                Some(at)
            } else {
                first_in(systems, at, set)
            }
        }
        None => None,
    }
}
