//! What is asked of all systems that aren't removed.
ghost use Rattle.std.specs.Prelude.{◌≡◌, ◌<◌, ◌≤◌, ◌||◌};
ghost use Rattle.grs_base.specs.Limits.{most_systems};
ghost use Rattle.grs_wire.specs.Masks.{has, others, without_others, all_others};

use grs_base::SysId;
use grs_wire::masks::{has_system, with_system, without_system};

/// The systems that aren't removed.
pub fn live_of(systems: u32, removed: u32) -> u32
    requires { systems ≤ most_systems }
    ensures { result ≡ others systems removed }
{
    let mut live = 0;
    for s in 0..systems {
        let system = SysId(s as u8);
        if !has_system(removed, system) {
            live = with_system(live, system);
        }
    }
    live
}

/// The flags of rest with those of all systems cleared that aren't removed.
pub fn woken(systems: u32, removed: u32, rest: u32) -> u32
    requires { systems ≤ most_systems }
    ensures { result ≡ without_others systems removed rest }
{
    let mut flags = rest;
    for s in 0..systems {
        let system = SysId(s as u8);
        if !has_system(removed, system) {
            flags = without_system(flags, system);
        }
    }
    flags
}

/// Whether the system is removed or at rest.
fn is_removed_or_rests(removed: u32, rest: u32, system: SysId) -> bool
    requires { system.0 < 32 }
    ensures { result ≡ (has removed system.0 || has rest system.0) }
{
    has_system(removed, system) || has_system(rest, system)
}

/// Whether the flag of rest of each system that isn't removed is set.
#[tactic(auto, using(crate::proofs::SetLaws::all_others_false))]
pub fn all_at_rest(systems: u32, removed: u32, rest: u32) -> bool
    requires { systems ≤ most_systems }
    ensures { result ≡ all_others systems removed (λ s. has rest s) }
{
    for s in 0..systems {
        let system = SysId(s as u8);
        if !is_removed_or_rests(removed, rest, system) {
            return false;
        }
    }
    true
}
