//! The least system of a set.
ghost use Rattle.std.specs.Prelude.{◌≡◌, ◌<◌};
ghost use Rattle.grs_wire.specs.LockWords.{manager_number};
ghost use Rattle.lock_structure.specs.Least.{or_this, least_of};

use grs_base::{MOST_SYSTEMS, SysId};
use grs_wire::masks::has_system;

/// The system that was found, else this one where it passes.
pub fn or_this(found: Option<SysId>, system: SysId, passes: bool) -> Option<SysId>
    ensures { result ≡ or_this found system.0 passes }
{
    match found {
        Some(least) => Some(least),
        None => { if passes { Some(system) } else { None } }
    }
}

/// The least system of a set, if anyone is in it.
pub(crate) fn least_of(set: u32) -> Option<SysId>
    ensures least { result ≡ least_of set }
    ensures number { manager_number result < 16 }
{
    let mut least = None;
    for s in 0..MOST_SYSTEMS {
        let system = SysId(s as u8);
        least = or_this(least, system, has_system(set, system));
    }
    least
}
