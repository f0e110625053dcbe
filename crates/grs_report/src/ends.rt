//! Whether a run is done with its tasks. The status of a command and the last line of the report both go by
//! it.
ghost use Rattle.std.specs.Prelude.{◌≡◌};
ghost use Rattle.grs_report.specs.Ends.{is_done, all_ended};

use grs_base::TaskId;
use grs_wire::TaskEnd;

fn is_done(end: TaskEnd) -> bool
    ensures { result ≡ is_done end }
{
    matches!(end, TaskEnd::Ended | TaskEnd::Removed)
}

/// Whether every task has ended or was removed with its system.
pub fn all_ended(ended: &[(TaskId, TaskEnd)]) -> bool
    ensures { result ≡ all_ended ended.now }
{
    ended.iter().all(|(_, end)| is_done(*end))
}
