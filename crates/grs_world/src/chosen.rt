//! One choice of one system: it is prepared, makes at most one call of the medium, and is finished.
ghost use Rattle.std.specs.Prelude.{◌≡◌, ◌≢◌, ◌<◌, ◌≤◌, [], true, cond, length, set, Some, None, IfOk, OnOk};
ghost use Rattle.grs_base.specs.Limits.{most_systems};
ghost use Rattle.grs_medium.specs.Apply.{reply_to, medium_after};
ghost use Rattle.grs_medium.specs.Medium.{systems_of};
ghost use Rattle.grs_medium.specs.TurnReplies.{refusal_reply, refusal as refused_with};
ghost use Rattle.grs_node.specs.Addressed.{is_act_addressed};
ghost use Rattle.grs_node.specs.Finish.{MayFinish};
ghost use Rattle.grs_node.specs.Node as steps;
ghost use Rattle.grs_node.specs.TurnCalls.{turn_of};
ghost use Rattle.grs_node.specs.declared.prepared.Prepared.TheVariants.{Call as Calls};
ghost use Rattle.grs_wire.specs.declared.deck.Choice.TheVariants.{Turn, Take};
ghost use Rattle.grs_world.specs.World.{chosen};
ghost use Rattle.grs_world.specs.Done.{last_done, done_by, journalled, finish_of, chosen_by, Ends};
ghost use Rattle.grs_world.specs.Running.{AreOf, AreNumbered, nodes_of, node_at};

use grs_base::{List, NoMemory, SysId};
use grs_medium::{Medium, TurnRefusal};
use grs_node::{Node, Prepared, leaves_all};
use grs_wire::{Act, Call, Choice, Deck, Fixed, Reply, ToldLine};
use std::alloc::Global;

/// What a choice fixed and told.
#[derive(Drop)]
pub(crate) struct Done {
    pub(crate) fixed: List<Fixed>,
    pub(crate) told: List<ToldLine>,
}

/// Takes the last event of a system out of its log: what it fixed and told.
#[tactic(auto, using(crate::proofs::code::Logged::taken_steps))]
fn take_done(node: &mut Node<'_>) -> Done
    requires { node.old.log ≢ [] }
    ensures done { result ≡ last_done node.old.log }
    ensures node { node.new.node ≡ node.old.node }
    ensures deck { node.new.deck ≡ node.old.deck }
{
    match node.take_step() {
        Some(step) => Done {
            fixed: step.fixed,
            told: step.told,
        },
        None => unreachable!(),
    }
}

/// A reply to a call, which has an entry in the journal.
fn journalled(reply: Option<Reply>) -> Option<(Reply, bool)>
    ensures { result ≡ journalled reply }
{
    match reply {
        None => None,
        Some(reply) => Some((reply, true)),
    }
}

/// A prepared choice is finished, with the reply if a call was made.
fn finished(node: &mut Node<'_>, choice: &Choice, reply: Option<Reply>) -> Result<Done, NoMemory>
    requires { MayFinish node.old choice.now (journalled reply) }
    ensures ends { IfOk result (Ends node.old (finish_of node.old choice.now reply) node.new) }
    ensures deck { node.new.deck ≡ node.old.deck }
    ensures number { node.new.node.tasks.system ≡ node.old.node.tasks.system }
{
    node.finish(choice, journalled(reply))?;
    Ok(take_done(node))
}

/// Nothing fixed and nothing told.
fn nothing_done(alloc: Global) -> Done
    ensures { result ≡ record { fixed = []; told = [] } }
{
    Done {
        fixed: List::new(alloc),
        told: List::new(alloc),
    }
}

/// A reply to a call that was prepared. One that leaves the system as it is, as most do where systems look into empty
/// inboxes, costs nothing more.
#[tactic(auto, using(crate::proofs::code::Logged::leaving_steps))]
fn replied(
    alloc: Global,
    node: &mut Node<'_>,
    choice: &Choice,
    reply: Reply,
) -> Result<Done, NoMemory>
    requires { MayFinish node.old choice.now (journalled (Some reply)) }
    ensures ends { IfOk result (Ends node.old (finish_of node.old choice.now (Some reply)) node.new) }
    ensures deck { node.new.deck ≡ node.old.deck }
    ensures number { node.new.node.tasks.system ≡ node.old.node.tasks.system }
{
    if leaves_all(&reply) {
        Ok(nothing_done(alloc))
    } else {
        finished(node, choice, Some(reply))
    }
}

/// A call that was prepared, and its reply.
#[tactic(auto, using(crate::proofs::code::Calls::calls, grs_medium::proofs::KeptSizes::sizes))]
fn called(
    alloc: Global,
    medium: &mut Medium,
    system: SysId,
    node: &mut Node<'_>,
    choice: &Choice,
    call: Call,
) -> Result<Done, NoMemory>
    requires caller { system.0 < systems_of medium.old.state }
    requires systems { systems_of medium.old.state ≡ length node.old.deck.systems }
    requires words { length medium.old.state.words ≡ node.old.deck.entries }
    requires prepared { steps.prepare node.old.deck node.old.node choice.now ≡ Calls call }
    requires addressed { is_act_addressed node.old.deck system.0 call.act ≡ true }
    ensures medium { OnOk result (medium.new.state ≡ medium_after medium.old.state system call) }
    ensures ends { IfOk result (Ends node.old (finish_of node.old choice.now (Some (reply_to medium.old.state system call))) node.new) }
    ensures deck { node.new.deck ≡ node.old.deck }
    ensures number { node.new.node.tasks.system ≡ node.old.node.tasks.system }
    ensures systems { systems_of medium.new.state ≡ systems_of medium.old.state }
    ensures words { length medium.new.state.words ≡ length medium.old.state.words }
{
    medium.reserve(system, &call)?;
    let reply = medium.apply(system, call);
    replied(alloc, node, choice, reply)
}

/// A Turn that the medium refuses.
#[tactic(auto, using(crate::proofs::code::Turns::refused))]
fn refused_turn(
    alloc: Global,
    medium: &Medium,
    system: SysId,
    node: &mut Node<'_>,
    known: u32,
    refusal: TurnRefusal,
) -> Result<Done, NoMemory>
    requires prepared { steps.prepare node.old.deck node.old.node Turn ≡ Calls (turn_of node.old.node known) }
    requires refused { refused_with medium.now.state system known ≡ Some (refusal_reply refusal) }
    ensures medium { OnOk result (medium.now.state ≡ (chosen_by node.old medium.now.state system Turn).medium) }
    ensures ends { IfOk result (Ends node.old (chosen_by node.old medium.now.state system Turn).step node.new) }
    ensures deck { node.new.deck ≡ node.old.deck }
    ensures number { node.new.node.tasks.system ≡ node.old.node.tasks.system }
{
    replied(alloc, node, &Choice::Turn, refusal.into_reply())
}

/// How many requests of so many go into the message: none where it is closed.
fn taken_of(closed: bool, count: u32) -> u32
    ensures { result ≡ cond closed 0 count }
{
    if closed { 0 } else { count }
}

/// A Turn that gets to the message: the system reads the entries where they lie, and its requests go into the
/// message.
#[tactic(auto, using(crate::proofs::code::Turns::given), unfolding(grs_medium::specs::Apply::turn_row))]
fn turned(
    medium: &mut Medium,
    system: SysId,
    node: &mut Node<'_>,
    known: u32,
) -> Result<Done, NoMemory>
    requires caller { system.0 < systems_of medium.old.state }
    requires few { systems_of medium.old.state ≤ most_systems }
    requires prepared { steps.prepare node.old.deck node.old.node Turn ≡ Calls (turn_of node.old.node known) }
    requires given { refused_with medium.old.state system known ≡ None }
    ensures medium { OnOk result (medium.new.state ≡ (chosen_by node.old medium.old.state system Turn).medium) }
    ensures ends { IfOk result (Ends node.old (chosen_by node.old medium.old.state system Turn).step node.new) }
    ensures deck { node.new.deck ≡ node.old.deck }
    ensures number { node.new.node.tasks.system ≡ node.old.node.tasks.system }
    ensures systems { systems_of medium.new.state ≡ systems_of medium.old.state }
    ensures words { length medium.new.state.words ≡ length medium.old.state.words }
{
    let out = node.additions()?;
    let closed = medium.is_closed();
    let count = out.len() as u32;
    let taken = taken_of(closed, count);
    medium.reserve_places(taken)?;
    node.finish_turn(medium.entries(), system, taken, closed)?;
    medium.pass_on(system, out);
    Ok(take_done(node))
}

/// A Turn of a system, which comes to nothing in star mode.
#[tactic(auto, unfolding(crate::specs::World::chosen, crate::specs::World::carry_out))]
fn turn(
    alloc: Global,
    medium: &mut Medium,
    system: SysId,
    node: &mut Node<'_>,
) -> Result<Done, NoMemory>
    requires caller { system.0 < systems_of medium.old.state }
    requires few { systems_of medium.old.state ≤ most_systems }
    ensures medium { OnOk result (medium.new.state ≡ (chosen_by node.old medium.old.state system Turn).medium) }
    ensures ends { IfOk result (Ends node.old (chosen_by node.old medium.old.state system Turn).step node.new) }
    ensures deck { node.new.deck ≡ node.old.deck }
    ensures number { node.new.node.tasks.system ≡ node.old.node.tasks.system }
    ensures systems { systems_of medium.new.state ≡ systems_of medium.old.state }
    ensures words { length medium.new.state.words ≡ length medium.old.state.words }
{
    let Some(known) = node.known_at_turn() else {
        return Ok(nothing_done(alloc));
    };
    match medium.turn_refusal(system, known) {
        Some(refusal) => refused_turn(alloc, medium, system, node, known, refusal),
        None => turned(medium, system, node, known),
    }
}

/// A look of a system into its inbox, which comes to nothing in ring mode. Where it finds nothing, as most do, it costs no
/// call.
#[tactic(auto, using(crate::proofs::code::Takes::takes), unfolding(crate::specs::World::chosen, crate::specs::World::carry_out))]
fn take(
    alloc: Global,
    medium: &mut Medium,
    system: SysId,
    node: &mut Node<'_>,
) -> Result<Done, NoMemory>
    requires caller { system.0 < systems_of medium.old.state }
    requires systems { systems_of medium.old.state ≡ length node.old.deck.systems }
    requires words { length medium.old.state.words ≡ node.old.deck.entries }
    ensures medium { OnOk result (medium.new.state ≡ (chosen_by node.old medium.old.state system Take).medium) }
    ensures ends { IfOk result (Ends node.old (chosen_by node.old medium.old.state system Take).step node.new) }
    ensures deck { node.new.deck ≡ node.old.deck }
    ensures number { node.new.node.tasks.system ≡ node.old.node.tasks.system }
    ensures systems { systems_of medium.new.state ≡ systems_of medium.old.state }
    ensures words { length medium.new.state.words ≡ length medium.old.state.words }
{
    let Some(known) = node.known_at_take() else {
        return Ok(nothing_done(alloc));
    };
    if medium.finds_nothing(system, known) {
        return Ok(nothing_done(alloc));
    }
    let act = Act::Take;
    called(
        alloc,
        medium,
        system,
        node,
        &Choice::Take,
        Call { known, act },
    )
}

/// A choice of a system: it is prepared, makes at most one call of the medium, and is finished.
#[tactic(auto, using(crate::proofs::code::Logged::nothing_told), unfolding(crate::specs::World::chosen, crate::specs::World::carry_out))]
fn choose(
    alloc: Global,
    medium: &mut Medium,
    system: SysId,
    node: &mut Node<'_>,
    choice: &Choice,
) -> Result<Done, NoMemory>
    requires caller { system.0 < systems_of medium.old.state }
    requires systems { systems_of medium.old.state ≡ length node.old.deck.systems }
    requires few { systems_of medium.old.state ≤ most_systems }
    requires words { length medium.old.state.words ≡ node.old.deck.entries }
    requires number { node.old.node.tasks.system ≡ system.0 }
    ensures medium { OnOk result (medium.new.state ≡ (chosen_by node.old medium.old.state system choice.now).medium) }
    ensures ends { IfOk result (Ends node.old (chosen_by node.old medium.old.state system choice.now).step node.new) }
    ensures deck { node.new.deck ≡ node.old.deck }
    ensures number { node.new.node.tasks.system ≡ node.old.node.tasks.system }
    ensures systems { systems_of medium.new.state ≡ systems_of medium.old.state }
    ensures words { length medium.new.state.words ≡ length medium.old.state.words }
{
    if matches!(choice, Choice::Turn) {
        return turn(alloc, medium, system, node);
    }
    if matches!(choice, Choice::Take) {
        return take(alloc, medium, system, node);
    }
    match node.prepare(choice)? {
        Prepared::Nothing => Ok(nothing_done(alloc)),
        Prepared::Quiet => finished(node, choice, None),
        Prepared::Call(call) => called(alloc, medium, system, node, choice, call),
    }
}

/// A choice of the system at its place.
#[tactic(auto, using(crate::proofs::code::Nodes::nodes))]
pub(crate) fn choose_at(
    alloc: Global,
    deck: &Deck,
    medium: &mut Medium,
    nodes: &mut Vec<Node<'_>>,
    system: SysId,
    choice: &Choice,
) -> Result<Done, NoMemory>
    requires place { system.0 < length nodes.old.items }
    requires nodes { AreOf deck.now nodes.old.items }
    requires systems { systems_of medium.old.state ≡ length nodes.old.items }
    requires all { length nodes.old.items ≡ length deck.now.systems }
    requires few { length nodes.old.items ≤ most_systems }
    requires words { length medium.old.state.words ≡ deck.now.entries }
    requires numbers { AreNumbered 0 nodes.old.items }
    ensures medium { OnOk result (medium.new.state ≡ (chosen deck.now medium.old.state system (node_at deck.now (nodes_of nodes.old.items) system) choice.now).medium) }
    ensures node { OnOk result (nodes_of nodes.new.items ≡ set (nodes_of nodes.old.items) system.0 (chosen deck.now medium.old.state system (node_at deck.now (nodes_of nodes.old.items) system) choice.now).step.node) }
    ensures done { IfOk result (λ done. done ≡ done_by (node_at deck.now (nodes_of nodes.old.items) system) (chosen deck.now medium.old.state system (node_at deck.now (nodes_of nodes.old.items) system) choice.now).step) }
    ensures deck { AreOf deck.now nodes.new.items }
    ensures count { length nodes.new.items ≡ length nodes.old.items }
    ensures numbers { AreNumbered 0 nodes.new.items }
    ensures systems { systems_of medium.new.state ≡ systems_of medium.old.state }
    ensures words { length medium.new.state.words ≡ length medium.old.state.words }
{
    choose(alloc, medium, system, &mut nodes[system.0 as usize], choice)
}
