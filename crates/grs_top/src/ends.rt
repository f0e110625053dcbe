//! The tasks of a deck in order, each with its end at its system.
ghost use Rattle.std.specs.Prelude.{◌≡◌, ◌≤◌, length, IfOk};
ghost use Rattle.grs_base.specs.Limits.{most_systems};
ghost use Rattle.grs_wire.specs.Decks.{IsDeck};
ghost use Rattle.deck_tasks.specs.Tasks.{tasks_of};
ghost use Rattle.grs_world.specs.Running.{nodes_of};
ghost use Rattle.grs_top.specs.Tasks.{ends_at};

use deck_tasks::tasks_of;
use grs_base::{List, NoMemory, TaskId};
use grs_node::Node;
use grs_wire::{Deck, TaskEnd};
use grs_world::task_end;
use std::alloc::Global;

/// These tasks, each with its end at these systems, of which those in the set were removed.
fn ends_at(
    alloc: Global,
    removed: u32,
    nodes: &[Node<'_>],
    tasks: &[TaskId],
) -> Result<List<(TaskId, TaskEnd)>, NoMemory>
    requires { length nodes.now ≤ most_systems }
    ensures { IfOk result (λ ends. ends ≡ ends_at removed (nodes_of nodes.now) tasks.now) }
{
    let mut ends = List::new(alloc);
    for task in tasks {
        ends.push((*task, task_end(removed, nodes, *task)))?;
    }
    Ok(ends)
}

/// Each task of a deck with its end at these systems, of which those in the set were removed.
pub(crate) fn ends_of(
    alloc: Global,
    deck: &Deck,
    removed: u32,
    nodes: &[Node<'_>],
) -> Result<List<(TaskId, TaskEnd)>, NoMemory>
    requires deck { IsDeck deck.now }
    requires few { length nodes.now ≤ most_systems }
    ensures { IfOk result (λ ends. ends ≡ ends_at removed (nodes_of nodes.now) (tasks_of deck.now)) }
{
    let tasks = tasks_of(alloc, deck)?;
    ends_at(alloc, removed, nodes, tasks.as_slice())
}
