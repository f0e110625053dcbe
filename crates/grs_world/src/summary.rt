//! What is seen of the systems of a run. Nothing here changes anything.
ghost use Rattle.std.specs.Prelude.{◌≡◌, ◌≤◌, ◌++◌, cond, map, length, IfOk, OnOk};
ghost use Rattle.grs_base.specs.Limits.{most_systems};
ghost use Rattle.task_state.specs.Units.{units_at};
ghost use Rattle.grs_world.specs.Running as runs;
ghost use Rattle.grs_world.specs.Running.{nodes_of, none_busy, busy_at, units_of, end_of, task_end};
ghost use Rattle.grs_world.specs.Stopped.{live_below};

use grs_base::{List, NoMemory, SysId, TaskId};
use grs_node::Node;
use grs_wire::TaskEnd;
use grs_wire::masks::has_system;
use std::alloc::Global;

/// Whether nothing is pending at these systems, and each knows who was removed, but for removed ones.
pub(crate) fn none_busy(removed: u32, nodes: &[Node<'_>]) -> bool
    requires { length nodes.now ≤ most_systems }
    ensures { result ≡ none_busy removed 0 (busy_at removed nodes.now) }
{
    for (place, node) in nodes.iter().enumerate() {
        if !has_system(removed, SysId(place as u8)) && (node.pending() || node.known() != removed) {
            return false;
        }
    }
    true
}

/// How many of so many systems aren't removed.
pub(crate) fn live_count(systems: usize, removed: u32) -> u32
    requires { systems ≤ most_systems }
    ensures count { result ≡ live_below removed systems }
    ensures few { result ≤ systems }
{
    let mut count = 0;
    for place in 0..systems {
        if !has_system(removed, SysId(place as u8)) {
            count += 1;
        }
    }
    count
}

/// Adds the counts of units of a system.
fn add_counts(
    units: &mut List<(SysId, u16, u32)>,
    system: SysId,
    counts: &[(u16, u32)],
) -> Result<(), NoMemory>
    ensures { OnOk result (units.new ≡ units.old ++ map (λ c. (system, c.0, c.1)) counts.now) }
{
    for (unit, count) in counts {
        units.push((system, *unit, *count))?;
    }
    Ok(())
}

/// Adds the units that the tasks of a system reserve.
fn add_units(units: &mut List<(SysId, u16, u32)>, node: &Node<'_>) -> Result<(), NoMemory>
    ensures { OnOk result (units.new ≡ units.old ++ units_at (record { 0 = node.now.node.tasks.system }) node.now.node.tasks.tasks) }
{
    let counts = node.units()?;
    add_counts(units, node.system(), counts.as_slice())
}

/// The units that the tasks of these systems reserve, each with its count.
pub fn units_of(alloc: Global, nodes: &[Node<'_>]) -> Result<List<(SysId, u16, u32)>, NoMemory>
    ensures { IfOk result (λ units. units ≡ units_of (nodes_of nodes.now)) }
{
    let mut units = List::new(alloc);
    for node in nodes {
        add_units(&mut units, node)?;
    }
    Ok(units)
}

/// How a task stands at its system.
fn end_of(node: &Node<'_>, task: TaskId) -> TaskEnd
    ensures { result ≡ end_of node.now.node.tasks task }
{
    if node.has(task) {
        node.task_end(task)
    } else {
        TaskEnd::Open
    }
}

/// The end of a task whose system was removed: it had ended before, or was removed with its system.
fn end_removed(end: TaskEnd) -> TaskEnd
    ensures { result ≡ runs.end_removed end }
{
    match end {
        TaskEnd::Ended => TaskEnd::Ended,
        TaskEnd::Removed | TaskEnd::Waits | TaskEnd::Open => TaskEnd::Removed,
    }
}

/// The end of a task at its system, which was removed or not.
fn end_at(removed: bool, node: &Node<'_>, task: TaskId) -> TaskEnd
    ensures { result ≡ cond removed (runs.end_removed (end_of node.now.node.tasks task)) (end_of node.now.node.tasks task) }
{
    let end = end_of(node, task);
    if removed { end_removed(end) } else { end }
}

/// The end of a task at these systems, of which those in the set were removed. One that isn't there is open.
#[tactic(auto, using(crate::proofs::code::Nodes::nodes))]
pub fn task_end(removed: u32, nodes: &[Node<'_>], task: TaskId) -> TaskEnd
    requires { length nodes.now ≤ most_systems }
    ensures { result ≡ task_end removed (nodes_of nodes.now) task }
{
    match nodes.get(task.system.0 as usize) {
        None => TaskEnd::Open,
        Some(node) => end_at(has_system(removed, task.system), node, task),
    }
}
