//! What the systems are told of a removal in star mode.
ghost use Rattle.std.specs.Prelude.{◌≡◌, ◌<◌, ◌≤◌, ◌^◌, length, IfOk};
ghost use Rattle.grs_base.specs.Limits.{most_systems};
ghost use Rattle.grs_medium.specs.Apply.{moved_by};

use grs_base::{List, NoMemory, SysId};
use grs_wire::Moved;
use lock_structure::Words;
use std::alloc::Global;

/// What each of so many systems gets to know by the removal of one in star mode, by number.
#[tactic(auto, using(lock_structure::proofs::Ranges::ranges))]
pub fn moved_by(
    alloc: Global,
    words: &Words,
    systems: u32,
    target: SysId,
) -> Result<Vec<List<Moved>>, NoMemory>
    requires target { target.0 < most_systems }
    requires systems { systems ≤ most_systems }
    requires entries { length words.now < 2 ^ 32 }
    ensures { IfOk result (λ lists. lists.items ≡ moved_by words.now systems target) }
{
    let mut lists = Vec::new(alloc);
    for s in 0..systems {
        let items = words.moved_for(target, SysId(s as u8))?;
        if lists.push(items).is_err() {
            return Err(NoMemory);
        }
    }
    Ok(lists)
}
