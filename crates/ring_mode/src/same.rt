//! What a task's request that isn't answered yet is compared by. Nothing here changes anything.
ghost use Rattle.std.specs.Prelude.{◌≡◌};
ghost use Rattle.std.specs.Option.{option_copied};
ghost use Rattle.ring_mode.specs.Ring as ring;

use grs_wire::Want;
use task_state::Asked;

/// Whether a task's request that isn't answered yet is this one.
pub(crate) fn is_asked(want: &Want, asked: Option<&Asked>) -> bool
    ensures { result ≡ ring.is_asked want.now (option_copied asked.entry) }
{
    match asked {
        None => false,
        Some(asked) => *want == asked.req.want,
    }
}
