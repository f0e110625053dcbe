//! What systems show that ran beside each other: the run of their events in one order.
ghost use Rattle.std.specs.Prelude.{◌≡◌, ◌≤◌, length, map, IfOk};
ghost use Rattle.grs_base.specs.Limits.{most_systems};
ghost use Rattle.grs_history.specs.Merge.{merged_steps};
ghost use Rattle.grs_wire.specs.Decks.{IsDeck};
ghost use Rattle.grs_workers.specs.Beside.{RanBeside};
ghost use Rattle.grs_top.specs.Beside.{logs_of};
ghost use Rattle.grs_top.specs.Seen.{seen_of_run};

use super::ends::ends_of;
use super::laws::merged_runs;
use grs_base::{List, NoMemory};
use grs_history::{Merged, merge_steps, queues_after};
use grs_medium::Medium;
use grs_node::Node;
use grs_wire::{Deck, JEntry, Seen, StepDone};
use grs_world::units_of;
use std::alloc::Global;

/// The logs of systems, lent.
fn logs_of<'n>(alloc: Global, nodes: &'n [Node<'_>]) -> Result<Vec<&'n [StepDone]>, NoMemory>
    ensures { IfOk result (λ logs. map (λ l. l.now) logs.items ≡ logs_of nodes.now) }
{
    let mut logs = Vec::new(alloc);
    for node in nodes {
        if logs.push(node.log()).is_err() {
            return Err(NoMemory);
        }
    }
    Ok(logs)
}

/// The events of systems in the order of a journal.
fn merged(alloc: Global, journal: &[JEntry], nodes: &[Node<'_>]) -> Result<Merged, NoMemory>
    requires { length nodes.now ≤ most_systems }
    ensures { IfOk result (λ m. m ≡ merged_steps journal.now (logs_of nodes.now)) }
{
    let logs = logs_of(alloc, nodes)?;
    merge_steps(alloc, journal, logs.as_slice())
}

/// What systems show that ran beside each other: what the run of their events in the journal's order shows.
///
/// # Errors
///
/// `NoMemory` where there was no memory for what it shows.
pub fn seen_of(
    alloc: Global,
    deck: &Deck,
    medium: &Medium,
    journal: &[JEntry],
    nodes: &List<Node<'_>>,
) -> Result<Seen, NoMemory>
    requires deck { IsDeck deck.now }
    requires ran { RanBeside deck.now medium.now.state journal.now nodes.now }
    ensures events { IfOk result (λ seen. seen.events ≡ (merged_steps journal.now (logs_of nodes.now)).events) }
    ensures seen { IfOk result (λ seen. seen ≡ seen_of_run deck.now seen.events) }
{
    merged_runs();
    let merged = merged(alloc, journal, nodes.as_slice())?;
    let queues = queues_after(alloc, merged.hist.as_slice(), deck.limit)?;
    let units = units_of(alloc, nodes.as_slice())?;
    let words = medium.words().copy(alloc)?;
    let ended = ends_of(alloc, deck, medium.removed(), nodes.as_slice())?;
    Ok(Seen {
        events: merged.events,
        hist: merged.hist,
        told: merged.told,
        queues,
        units,
        words,
        star: medium.star(),
        ended,
    })
}
