//! What the lines of tasks mean, and which phases go on. Nothing here changes anything.
ghost use Rattle.std.specs.Prelude.{◌≡◌, ◌<◌, map, length, slice_get, IfOk, IfSome};
ghost use Rattle.grs_legal.specs.Asks.{meaning_of};
ghost use Rattle.grs_node.specs.Log.{end_in};
ghost use Rattle.grs_node.specs.Node as steps;

use grs_base::{Line, List, NoMemory, TaskId};
use grs_legal::{Meaning, meaning_of};
use grs_wire::TaskEnd;
use scope_resolve::Resolver;
use std::alloc::Global;
use task_state::Phase;

/// What the line at a place means, from 0, where there is one.
#[tactic(auto, using(crate::proofs::Places::of_lines))]
pub(crate) fn meaning_at(
    alloc: Global,
    resolver: &Resolver<'_>,
    task: TaskId,
    lines: &List<Line>,
    place: u32,
) -> Result<Option<Meaning>, NoMemory>
    ensures meaning { IfOk result (λ m. m ≡ slice_get (map (meaning_of resolver.now task) lines.now) place) }
    ensures within { IfOk result (λ m. IfSome m (λ _. place < length lines.now)) }
{
    match lines.as_slice().get(place as usize) {
        None => Ok(None),
        Some(line) => Ok(Some(meaning_of(alloc, resolver, task, line)?)),
    }
}

/// Whether a task in this phase has something to do by itself.
pub(crate) fn goes_on(phase: &Phase) -> bool
    ensures { result ≡ steps.goes_on phase.now }
{
    matches!(phase, Phase::Ready | Phase::Ending(_))
}

/// The end of a task in this phase.
pub(crate) fn end_by(phase: &Phase) -> TaskEnd
    ensures { result ≡ end_in phase.now }
{
    match phase {
        Phase::Ended => TaskEnd::Ended,
        Phase::HeldAnswer | Phase::HeldLine(_) => TaskEnd::Waits,
        Phase::Ready | Phase::ToSend | Phase::Sent | Phase::Ending(_) => TaskEnd::Open,
    }
}
