//! Events that happen one after the other, without those of which it is told cheaply that they come to nothing. Where nothing
//! is pending at a system, its tasks have nothing to do, and it has nothing to send, to settle or to tell.
ghost use Rattle.std.specs.Prelude.{◌≡◌, true, slice_get, IfOk, OnOk};
ghost use Rattle.grs_wire.specs.declared.deck.Choice.TheVariants as choices;
ghost use Rattle.grs_world.specs.Running.{nodes_of};
ghost use Rattle.grs_world.specs.World.{happens, run_from};
ghost use Rattle.grs_top.specs.LeftOut.{ComesToNothing, IsNothingAt, is_idle, is_idle_if, is_idle_at, is_over, lasting};

use grs_base::{NoMemory, SysId, TaskId};
use grs_node::Node;
use grs_wire::{Choice, Event, TaskEnd};
use grs_world::World;

/// Whether nothing is pending at a system, so that it is idle.
fn is_idle(node: &Node<'_>) -> bool
    ensures { result ≡ true → is_idle node.now.node ≡ true }
{
    !node.pending()
}

/// Whether nothing is pending at the system of this number, if it is among these.
#[tactic(auto, using(grs_world::proofs::code::Nodes::nodes))]
fn is_idle_among(nodes: &[Node<'_>], system: SysId) -> bool
    ensures { result ≡ true → is_idle_if (slice_get (nodes_of nodes.now) system.0) ≡ true }
{
    match nodes.get(system.0 as usize) {
        Some(node) => is_idle(node),
        None => true,
    }
}

/// The same in a world.
fn is_idle_at(world: &World<'_>, system: SysId) -> bool
    ensures { result ≡ true → is_idle_at world.now.world system ≡ true }
{
    is_idle_among(world.nodes(), system)
}

/// Whether a task of this end has ended or waits for control.
fn is_over(end: TaskEnd) -> bool
    ensures { result ≡ is_over end }
{
    match end {
        TaskEnd::Open => false,
        TaskEnd::Ended | TaskEnd::Removed | TaskEnd::Waits => true,
    }
}

/// Whether a task of a system has ended or waits for control, so that it neither goes on nor has something to send.
fn is_held(node: &Node<'_>, task: TaskId) -> bool
    ensures goes { result ≡ true → ComesToNothing node.now.node (choices.Task task) }
    ensures sends { result ≡ true → ComesToNothing node.now.node (choices.Send task) }
{
    if !node.has(task) {
        return false;
    }
    is_over(node.task_end(task))
}

/// Whether a system is in ring mode, so that it has nothing to send, to settle or to tell.
fn is_in_ring(node: &Node<'_>) -> bool
    ensures sends { result ≡ true → (t : _) → ComesToNothing node.now.node (choices.Send t) }
    ensures settles { result ≡ true → ComesToNothing node.now.node choices.Settle }
    ensures tells { result ≡ true → (e : _) → ComesToNothing node.now.node (choices.Tell e) }
{
    match node.known_at_take() {
        Some(_) => false,
        None => true,
    }
}

/// Whether a task of a system that isn't known to be idle has nothing to do, as far as this is told cheaply.
fn goes_nowhere(node: &Node<'_>, idle: bool, task: TaskId) -> bool
    requires { idle ≡ true → is_idle node.now.node ≡ true }
    ensures { result ≡ true → ComesToNothing node.now.node (choices.Task task) }
{
    if idle { true } else { is_held(node, task) }
}

/// Whether it has nothing to send.
fn sends_nothing(node: &Node<'_>, idle: bool, task: TaskId) -> bool
    requires { idle ≡ true → is_idle node.now.node ≡ true }
    ensures { result ≡ true → ComesToNothing node.now.node (choices.Send task) }
{
    if idle {
        true
    } else if is_in_ring(node) {
        true
    } else {
        is_held(node, task)
    }
}

/// Whether a system has nothing to settle and nothing to tell.
fn answers_nothing(node: &Node<'_>, idle: bool) -> bool
    requires { idle ≡ true → is_idle node.now.node ≡ true }
    ensures settles { result ≡ true → ComesToNothing node.now.node choices.Settle }
    ensures tells { result ≡ true → (e : _) → ComesToNothing node.now.node (choices.Tell e) }
{
    if idle { true } else { is_in_ring(node) }
}

/// Whether a choice comes to nothing at a system, as far as this is told cheaply, where the system may be known to be idle.
fn comes_to_nothing(node: &Node<'_>, idle: bool, choice: &Choice) -> bool
    requires { idle ≡ true → is_idle node.now.node ≡ true }
    ensures { result ≡ true → ComesToNothing node.now.node choice.now }
{
    match choice {
        Choice::Task(task) => goes_nowhere(node, idle, *task),
        Choice::Send(task) => sends_nothing(node, idle, *task),
        Choice::Settle | Choice::Tell(_) => answers_nothing(node, idle),
        Choice::Turn
        | Choice::Take
        | Choice::Part(_)
        | Choice::Leave(_)
        | Choice::Switch
        | Choice::Purge(_)
        | Choice::Rest => false,
    }
}

/// Whether an event comes to nothing at its system, if that is among these, as far as this is told cheaply.
#[tactic(auto, using(grs_world::proofs::code::Nodes::nodes))]
fn is_nothing_among(nodes: &[Node<'_>], idle: bool, event: &Event) -> bool
    requires { idle ≡ true → is_idle_if (slice_get (nodes_of nodes.now) event.now.system.0) ≡ true }
    ensures { result ≡ true → IsNothingAt (slice_get (nodes_of nodes.now) event.now.system.0) event.now.choice }
{
    match nodes.get(event.system.0 as usize) {
        Some(node) => comes_to_nothing(node, idle, &event.choice),
        None => true,
    }
}

/// Whether an event leaves what lasts of a world, as far as this is told cheaply, where its system may be known to be idle.
fn leaves(world: &World<'_>, idle: bool, event: &Event) -> bool
    requires { idle ≡ true → is_idle_at world.now.world event.now.system ≡ true }
    ensures { result ≡ true → lasting (happens world.now.deck world.now.world event.now) ≡ lasting world.now.world }
{
    is_nothing_among(world.nodes(), idle, event)
}

/// Whether a system may have become idle by such a choice, so that it is worth a look.
fn is_looked_at(choice: &Choice) -> bool {
    matches!(choice, Choice::Turn | Choice::Take | Choice::Switch)
}

/// Whether a system is known to be idle behind such a choice of it.
fn is_idle_behind(world: &World<'_>, system: SysId, choice: &Choice) -> bool
    ensures { result ≡ true → is_idle_at world.now.world system ≡ true }
{
    if is_looked_at(choice) {
        is_idle_at(world, system)
    } else {
        false
    }
}

/// An event happens, unless it leaves what lasts. It says whether its system is known to be idle then.
fn happen_one(world: &mut World<'_>, idle: bool, event: &Event) -> Result<bool, NoMemory>
    requires { idle ≡ true → is_idle_at world.old.world event.now.system ≡ true }
    ensures deck { OnOk result (world.new.deck ≡ world.old.deck) }
    ensures world { OnOk result (lasting world.new.world ≡ lasting (happens world.old.deck world.old.world event.now)) }
    ensures idle { IfOk result (λ idle. idle ≡ true → is_idle_at world.new.world event.now.system ≡ true) }
{
    if leaves(world, idle, event) {
        return Ok(idle);
    }
    world.step(event)?;
    Ok(is_idle_behind(world, event.system, &event.choice))
}

/// Whether the system of the next event is known to be idle, where the last one's may be.
fn is_known_idle(world: &World<'_>, last: SysId, idle: bool, next: SysId) -> bool
    requires { idle ≡ true → is_idle_at world.now.world last ≡ true }
    ensures { result ≡ true → is_idle_at world.now.world next ≡ true }
{
    if next.0 == last.0 {
        idle
    } else {
        is_idle_at(world, next)
    }
}

/// Each of these events happens, but for some that come to nothing. What lasts of the world is as if all had happened; how
/// many events there were and what was told isn't kept.
#[tactic(auto, using(grs_world::proofs::code::Happens::runs))]
pub(crate) fn happen(world: &mut World<'_>, events: &[Event]) -> Result<(), NoMemory>
    ensures deck { OnOk result (world.new.deck ≡ world.old.deck) }
    ensures world { OnOk result (lasting world.new.world ≡ lasting (run_from world.old.deck world.old.world events.now)) }
{
    let mut last = SysId(0);
    let mut idle = false;
    for event in events {
        let known = is_known_idle(world, last, idle, event.system);
        idle = happen_one(world, known, event)?;
        last = event.system;
    }
    Ok(())
}
