//! The tables of latches, by how a requestor stands: what is answered, and what is queued.
ghost use Rattle.std.specs.Prelude.{◌≡◌};
ghost use Rattle.grs_latch.specs.Latches.{obtain_code, is_queued, release_code, task_of};

use grs_base::{Standing, SysId, TaskId};

/// The latch is granted.
pub(crate) const GRANTED: u8 = 0x00;

/// The requestor has no request at the latch.
pub(crate) const NO_REQUEST: u8 = 0x08;

/// There is no such set or latch.
pub(crate) const NO_LATCH: u8 = 0x0c;

/// The task by which a requestor's requests stand.
pub(crate) fn task_of(requestor: u16) -> TaskId
    ensures { result ≡ task_of requestor }
{
    TaskId {
        system: SysId(0),
        job: 0,
        task: requestor,
    }
}

/// What an obtain is answered. `can` tells whether the latch can be had at once.
pub(crate) fn obtain_code(standing: Standing, can: bool) -> u8
    ensures { result ≡ obtain_code standing can }
{
    match standing {
        Standing::Exclusive | Standing::OnlyShared | Standing::AmongShared => 0x08,
        Standing::Waits => 0x14,
        Standing::Absent if can => 0x00,
        Standing::Absent => 0x04,
    }
}

/// Whether its request is queued.
pub(crate) fn is_queued(standing: Standing, can: bool, may_wait: bool) -> bool
    ensures { result ≡ is_queued standing can may_wait }
{
    standing == Standing::Absent && (can || may_wait)
}

/// What a release is answered.
pub(crate) fn release_code(standing: Standing) -> u8
    ensures { result ≡ release_code standing }
{
    match standing {
        Standing::Exclusive | Standing::OnlyShared | Standing::AmongShared => 0x00,
        Standing::Waits => 0x04,
        Standing::Absent => 0x08,
    }
}
