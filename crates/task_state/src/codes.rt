//! What a code means for the task that is told it. Nothing here changes anything.
ghost use Rattle.std.specs.Prelude.{◌≡◌};
ghost use Rattle.std.specs.Option.{option_copied};
ghost use Rattle.task_state.specs.Replies as steps;

use super::state::{Asked, Phase};
use grs_base::{Code, Res, Ret, is_same_res};
use grs_wire::Want;

/// Whether a code is 00.
pub(crate) fn is_granted(code: Code) -> bool
    ensures { result ≡ steps.is_granted code }
{
    matches!(code, Code::C00)
}

/// Whether an ENQ that was answered like this stands in a list.
pub(crate) fn is_queued(ret: Ret, code: Code) -> bool
    ensures { result ≡ steps.is_queued ret code }
{
    match ret {
        Ret::RetNone | Ret::RetHave => matches!(code, Code::C00 | Code::Wait),
        Ret::RetUse => matches!(code, Code::C00),
        Ret::RetEcb => matches!(code, Code::C00 | Code::C04),
        Ret::RetTest | Ret::RetChng => false,
    }
}

/// Whether an ENQ that was answered like this made its task's control exclusive.
pub(crate) fn is_changed(ret: Ret, code: Code) -> bool
    ensures { result ≡ steps.is_changed ret code }
{
    matches!((ret, code), (Ret::RetChng, Code::C00))
}

/// What a task does behind this answer.
pub(crate) fn phase_after(code: Code) -> Phase
    ensures { result ≡ steps.phase_after code }
{
    match code {
        Code::C00 | Code::C04 | Code::C08 | Code::C14 | Code::C18 => Phase::Ready,
        Code::Wait => Phase::HeldAnswer,
        Code::End(number) => Phase::Ending(number),
    }
}

/// Whether a task is held by the answer of its last line.
pub(crate) fn is_held(phase: &Phase) -> bool
    ensures { result ≡ steps.is_held phase.now }
{
    matches!(phase, Phase::HeldAnswer)
}

/// Whether a task is held by a WAIT line for this resource.
pub(crate) fn is_held_for(res: &Res, phase: &Phase) -> bool
    ensures { result ≡ steps.is_held_for res.now phase.now }
{
    match phase {
        Phase::HeldLine(awaited) => is_same_res(res, awaited),
        Phase::Ready
        | Phase::ToSend
        | Phase::Sent
        | Phase::HeldAnswer
        | Phase::Ending(_)
        | Phase::Ended => false,
    }
}

/// Whether a request gives a resource up.
fn gives_up(res: &Res, want: &Want) -> bool
    ensures { result ≡ steps.gives_up res.now want.now }
{
    match want {
        Want::Deq { res: given, .. } | Want::Release { res: given } => is_same_res(res, given),
        Want::Enq { .. } | Want::Look { .. } => false,
    }
}

/// Whether a task's request that isn't answered yet gives a resource up.
pub(crate) fn is_leaving(res: &Res, asked: Option<&Asked>) -> bool
    ensures { result ≡ steps.is_leaving res.now (option_copied asked.entry) }
{
    match asked {
        None => false,
        Some(asked) => gives_up(res, &asked.req.want),
    }
}

/// What a task that asks this does meanwhile; `code` is its end code.
pub(crate) fn phase_asking(want: &Want, code: u16) -> Phase
    ensures { result ≡ steps.phase_asking want.now code }
{
    match want {
        Want::Release { .. } => Phase::Ending(code),
        Want::Enq { .. } | Want::Deq { .. } | Want::Look { .. } => Phase::Ready,
    }
}
