//! The world of a run: the medium, the systems that share it, what the events fixed and what was told. Each event
//! is one system's; one of a system that isn't there, or was removed, does nothing.
ghost use Rattle.std.specs.Prelude.{◌≡◌, ◌<◌, ◌≤◌, ◌+◌, ◌*◌, ◌++◌, ◌∷◌, [], true, length, IfOk, OnOk};
ghost use Rattle.grs_base.specs.Limits.{last_number, most_systems};
ghost use Rattle.grs_wire.specs.Decks.{IsBounded};
ghost use Rattle.grs_node.specs.Node.{first_node};
ghost use Rattle.grs_world.specs.World as runs;
ghost use Rattle.grs_world.specs.World.{run_from};
ghost use Rattle.grs_node.specs.Node.{prepare as prepared_by};
ghost use Rattle.grs_medium.specs.GoesOn.{WaitsForLive};
ghost use Rattle.grs_medium.specs.Medium.{systems_of as systems_at};
ghost use Rattle.grs_wire.specs.declared.deck.Choice.TheVariants.{Turn};
ghost use Rattle.grs_world.specs.Removing.{reply_of, reply_by, call_in};
ghost use Rattle.grs_world.specs.Stopped.{lap, live_count, is_turned, turn_of, left_behind, next_of};
ghost use Rattle.grs_world.specs.Running.{starting, after, ran, nodes_of, AreOf, AreNumbered, is_live, at_rest, units_of, task_end};

use super::chosen::{Done, choose_at};
use super::summary;
use grs_base::{LAST_NUMBER, List, NoMemory, SysId, TaskId};
use grs_medium::Medium;
use grs_node::Node;
use grs_wire::masks::has_system;
use grs_wire::{Choice, Deck, Event, Fixed, TaskEnd, Told, ToldLine};
use std::alloc::Global;
use std::marker::Model;

/// A run as far as it has come: its deck, and the world after its events.
#[derive(Drop)]
pub struct World<'d> {
    deck: &'d Deck,
    medium: Medium,
    nodes: Vec<Node<'d>>,
    events: u64,
    fixed: List<(SysId, Fixed)>,
    told: List<Told>,
    alloc: Global,
}

impl<'d> Model for World<'d> {
    ghost use Rattle.std.specs.Prelude.{◌≡◌, ◌≤◌, length};
    ghost use Rattle.grs_base.specs.Limits.{most_systems};
    ghost use Rattle.grs_medium.specs.Medium.{systems_of};
    ghost use Rattle.grs_world.specs.Running.{Running, AreOf, AreNumbered, nodes_of};

    ghost Value = { Running };

    ghost view = { λ a. record { deck = a.deck.now; world = record { medium = a.medium.state; nodes = nodes_of a.nodes.items; events = a.events; fixed = a.fixed; told = a.told } } };

    ghost invariant = { λ a. AreOf a.deck.now a.nodes.items × AreNumbered 0 a.nodes.items × (systems_of a.medium.state ≡ length a.nodes.items) × (length a.nodes.items ≡ length a.deck.now.systems) × (length a.nodes.items ≤ most_systems) × (length a.medium.state.words ≡ a.deck.now.entries) };
}

/// What is kept of a run: what its events fixed, each with its system, and what was told, both in order.
#[derive(Drop)]
pub struct RunLog {
    pub fixed: List<(SysId, Fixed)>,
    pub told: List<Told>,
}

/// Adds a system of a deck before its first event.
#[tactic(auto, using(crate::proofs::code::Nodes::nodes, crate::proofs::system::First::first))]
fn add_node<'d>(
    alloc: Global,
    deck: &'d Deck,
    nodes: &mut List<Node<'d>>,
    system: SysId,
) -> Result<(), NoMemory>
    requires deck { IsBounded deck.now }
    requires system { system.0 < length deck.now.systems }
    requires nodes { AreOf deck.now nodes.old }
    requires numbers { AreNumbered 0 nodes.old }
    requires next { system.0 ≡ length nodes.old }
    ensures nodes { OnOk result (nodes_of nodes.new ≡ nodes_of nodes.old ++ first_node deck.now system.0 ∷ []) }
    ensures deck { OnOk result (AreOf deck.now nodes.new) }
    ensures numbers { OnOk result (AreNumbered 0 nodes.new) }
    ensures count { OnOk result (length nodes.new ≡ length nodes.old + 1) }
{
    let node = Node::new(alloc, deck, system)?;
    nodes.push(node)
}

/// The systems of a deck before their first events.
#[tactic(auto, using(crate::proofs::system::First::first))]
fn first_nodes<'d>(alloc: Global, deck: &'d Deck) -> Result<Vec<Node<'d>>, NoMemory>
    requires { IsBounded deck.now }
    ensures nodes { IfOk result (λ nodes. nodes_of nodes.items ≡ runs.first_nodes deck.now 0 deck.now.systems) }
    ensures deck { IfOk result (λ nodes. AreOf deck.now nodes.items) }
    ensures numbers { IfOk result (λ nodes. AreNumbered 0 nodes.items) }
    ensures count { IfOk result (λ nodes. length nodes.items ≡ length deck.now.systems) }
{
    let mut nodes = List::new(alloc);
    for place in 0..deck.systems.len() {
        add_node(alloc, deck, &mut nodes, SysId(place as u8))?;
    }
    Ok(nodes.into_vec())
}

/// Adds what an event of a system fixed.
fn add_fixed(
    all: &mut List<(SysId, Fixed)>,
    system: SysId,
    fixed: List<Fixed>,
) -> Result<(), NoMemory>
    ensures { OnOk result (all.new ≡ all.old ++ runs.fixed_by system fixed) }
{
    for one in fixed.into_vec() {
        all.push((system, one))?;
    }
    Ok(())
}

/// Adds what a system told in an event.
fn add_told(
    all: &mut List<Told>,
    event: u64,
    system: SysId,
    lines: List<ToldLine>,
) -> Result<(), NoMemory>
    ensures { OnOk result (all.new ≡ all.old ++ runs.told_by event system lines) }
{
    for line in lines.into_vec() {
        all.push(Told {
            event,
            system,
            line,
        })?;
    }
    Ok(())
}

/// Whether the Turn of a system that wasn't removed gets to the message.
#[tactic(auto, using(crate::proofs::code::Lapped::lapping))]
fn is_served(medium: &Medium, system: SysId, node: &Node<'_>) -> bool
    requires { system.0 < systems_at medium.now.state }
    ensures { result ≡ is_turned (reply_by medium.now.state system (call_in (prepared_by node.now.deck node.now.node Turn))) }
{
    match node.known_at_turn() {
        Some(known) => medium.turn_refusal(system, known).is_none(),
        None => false,
    }
}

impl<'d> World<'d> {
    /// A deck before its first event: nothing is queued and no task has begun.
    #[tactic(auto, using(crate::proofs::system::First::first), unfolding(crate::specs::World::first_world))]
    pub fn new(alloc: Global, deck: &'d Deck) -> Result<World<'d>, NoMemory>
        requires { IsBounded deck.now }
        ensures first { IfOk result (λ w. w ≡ starting deck.now) }
        ensures waits { IfOk result (λ w. WaitsForLive w.world.medium) }
    {
        let systems = deck.systems.len() as u32;
        let medium = Medium::new(alloc, systems, deck.entries, deck.star)?;
        let nodes = first_nodes(alloc, deck)?;
        Ok(World {
            deck,
            medium,
            nodes,
            events: 0,
            fixed: List::new(alloc),
            told: List::new(alloc),
            alloc,
        })
    }

    /// Whether a system is there and wasn't removed.
    fn is_live(&self, system: SysId) -> bool
        ensures { result ≡ is_live self.now.world system }
    {
        (system.0 as usize) < self.nodes.len() && !has_system(self.medium.removed(), system)
    }

    /// An event of a system that is there and wasn't removed.
    #[tactic(auto, using(crate::proofs::code::Happens::happening), unfolding(crate::specs::World::placed))]
    fn happens(&mut self, event: &Event) -> Result<(), NoMemory>
        requires live { is_live self.old.world event.now.system ≡ true }
        requires more { self.old.world.events < last_number }
        ensures { OnOk result (self.new ≡ after self.old event.now) }
    {
        let done = choose_at(
            self.alloc,
            self.deck,
            &mut self.medium,
            &mut self.nodes,
            event.system,
            &event.choice,
        )?;
        let Done { fixed, told } = done;
        self.events += 1;
        add_fixed(&mut self.fixed, event.system, fixed)?;
        add_told(&mut self.told, self.events, event.system, told)
    }

    /// One event happens. NoMemory comes where memory is wanting, or there were 2^57 events; the run is then to be
    /// given up.
    #[tactic(auto, using(crate::proofs::code::Happens::happening, crate::proofs::run::Waits::waiting))]
    pub fn step(&mut self, event: &Event) -> Result<(), NoMemory>
        ensures next { OnOk result (self.new ≡ after self.old event.now) }
        ensures goes_on { OnOk result (WaitsForLive self.old.world.medium → WaitsForLive self.new.world.medium) }
    {
        if self.events >= LAST_NUMBER {
            return Err(NoMemory);
        }
        if self.is_live(event.system) {
            self.happens(event)
        } else {
            self.events += 1;
            Ok(())
        }
    }

    /// Whether the Turn of a system gets to the message.
    #[tactic(auto, using(crate::proofs::code::Lapped::lapping, crate::proofs::code::Nodes::nodes))]
    fn gets_turn(&self, system: SysId) -> bool
        ensures { result ≡ is_turned (reply_of self.now.deck self.now.world (turn_of system)) }
    {
        self.is_live(system) && is_served(&self.medium, system, &self.nodes[system.0 as usize])
    }

    /// The Turn of a system in a lap, of which so many that get to the message are left. It says how many are left then.
    fn take_turn(&mut self, system: SysId, left: u32) -> Result<u32, NoMemory>
        ensures world { OnOk result (self.new ≡ after self.old (turn_of system)) }
        ensures left { IfOk result (λ now. now ≡ left_behind self.old.deck self.old.world system left) }
    {
        let served = self.gets_turn(system);
        self.step(&Event {
            system,
            choice: Choice::Turn,
        })?;
        Ok(if served { left.saturating_sub(1) } else { left })
    }

    /// The system that goes on in a lap of which so many Turns are left: the one at which the message stands.
    fn next_of(&self, left: u32) -> Option<SysId>
        ensures { result ≡ next_of left self.now.world }
    {
        if left == 0 {
            None
        } else {
            self.medium.holder()
        }
    }

    /// The message goes one lap: it hands out the Turns that were made, each of the system at which the message stood, until
    /// as many got to the message as systems are live. A system that has yet to be told which others were removed is told
    /// that by one Turn and makes another, so there are at most twice as many. Of a run in ring mode none of the entries that
    /// stood in the message before is left behind it, whatever the systems that were removed have left undone
    /// (`laws::laps_end`).
    ///
    /// NoMemory comes where memory is wanting, or there were 2^57 events; the run is then to be given up.
    #[tactic(auto, using(crate::proofs::code::Lapped::lapped))]
    pub fn lap(&mut self) -> Result<List<Event>, NoMemory>
        ensures turns { IfOk result (λ turns. turns ≡ lap self.old.deck self.old.world) }
        ensures world { IfOk result (λ turns. self.new.world ≡ run_from self.old.deck self.old.world turns) }
        ensures deck { OnOk result (self.new.deck ≡ self.old.deck) }
        ensures few { IfOk result (λ turns. length turns ≤ 2 * live_count self.old.world) }
    {
        let mut turns = List::new(self.alloc);
        let mut left = summary::live_count(self.nodes.len(), self.medium.removed());
        let mut most = 2 * left;
        'turns: while most > 0 {
            let Some(system) = self.next_of(left) else {
                return Ok(turns);
            };
            left = self.take_turn(system, left)?;
            turns.push(Event {
                system,
                choice: Choice::Turn,
            })?;
            most -= 1;
        }
        Ok(turns)
    }

    /// Whether nothing is left to do: nothing is pending at a system that wasn't removed, each of these knows who was, and
    /// nothing is left to do with the medium.
    #[tactic(auto, using(crate::proofs::code::Nodes::nodes), unfolding(crate::specs::Running::at_rest))]
    pub fn at_rest(&self) -> bool
        ensures { result ≡ at_rest self.now.deck self.now.world }
    {
        summary::none_busy(self.medium.removed(), self.nodes.as_slice()) && self.medium.at_end()
    }

    /// What the events fixed, each with its system, in order.
    pub fn fixed(&self) -> &List<(SysId, Fixed)>
        ensures { result.now ≡ self.now.world.fixed }
    {
        &self.fixed
    }

    /// What was told, in order.
    pub fn told(&self) -> &List<Told>
        ensures { result.now ≡ self.now.world.told }
    {
        &self.told
    }

    /// Hands out what the events fixed, each with its system, and what was told, both in order. The systems and the
    /// medium are let go.
    pub fn into_log(self) -> RunLog
        ensures fixed { result.fixed ≡ self.entry.world.fixed }
        ensures told { result.told ≡ self.entry.world.told }
    {
        RunLog {
            fixed: self.fixed,
            told: self.told,
        }
    }

    /// The medium.
    pub fn medium(&self) -> &Medium
        ensures { result.now.state ≡ self.now.world.medium }
    {
        &self.medium
    }

    /// The systems, by their numbers.
    pub fn nodes(&self) -> &[Node<'d>]
        ensures nodes { nodes_of result.now ≡ self.now.world.nodes }
        ensures few { length result.now ≤ most_systems }
    {
        self.nodes.as_slice()
    }

    /// The units that the tasks reserve in hardware, each with its count, by system and unit.
    pub fn units(&self) -> Result<List<(SysId, u16, u32)>, NoMemory>
        ensures { IfOk result (λ units. units ≡ units_of self.now.world.nodes) }
    {
        summary::units_of(self.alloc, self.nodes.as_slice())
    }

    /// How a task stands. One that isn't there is open.
    pub fn ended(&self, task: TaskId) -> TaskEnd
        ensures { result ≡ task_end self.now.world.medium.removed self.now.world.nodes task }
    {
        summary::task_end(self.medium.removed(), self.nodes.as_slice(), task)
    }
}

/// The run of a list of events.
#[tactic(auto, using(crate::proofs::code::Happens::runs))]
pub fn replay<'d>(alloc: Global, deck: &'d Deck, events: &[Event]) -> Result<World<'d>, NoMemory>
    requires { IsBounded deck.now }
    ensures { IfOk result (λ w. w ≡ ran deck.now events.now) }
{
    let mut world = World::new(alloc, deck)?;
    for event in events {
        world.step(event)?;
    }
    Ok(world)
}
