//! A system with its deck and what it keeps of its own events. A choice is prepared; it makes at most one call
//! of the medium, which somebody else carries out; and with the reply it is finished.
ghost use Rattle.std.specs.Prelude.{◌≡◌, ◌<◌, ◌≤◌, ◌++◌, ◌∷◌, [], None, Some, true, false, take, drop, length, IfOk, IfSome, IfNone, IsOk, OnOk};
ghost use Rattle.std.specs.List.{list_any};
ghost use Rattle.grs_base.specs.Limits.{most_additions, most_systems};
ghost use Rattle.grs_wire.specs.Decks.{IsBounded};
ghost use Rattle.task_state.specs.Units.{counted, reserved_of};
ghost use Rattle.task_state.specs.View.{is_task, state_of};
ghost use Rattle.grs_node.specs.Node as steps;
ghost use Rattle.grs_node.specs.Finish.{MayFinish, may_come};
ghost use Rattle.grs_node.specs.Addressed.{is_addressed};
ghost use Rattle.grs_wire.specs.Unseen.{unseen};
ghost use Rattle.grs_node.specs.Room.{needs_no_memory, takes_no_memory, is_call, next_for, HasRoomFor};
ghost use Rattle.grs_node.specs.TurnCalls.{turn_of, take_of};
ghost use Rattle.grs_wire.specs.declared.deck.Choice.TheVariants.{Turn, Take, Tell};
ghost use Rattle.grs_wire.specs.declared.medium.Reply.TheVariants.{Turned, Stale};
ghost use Rattle.grs_node.specs.Log.{shown, starting, stepped, finished, end_in};
ghost use Rattle.grs_node.specs.declared.prepared.Prepared.TheVariants.{Quiet, Call, Nothing};

use super::choices::{any_on_its_way, tell_call};
use super::lines::end_by;
use super::prepared::Prepared;
use super::ready::{Ready, ToldNext, make_room, needs_no_memory};
use super::scripts::{Script, names_of, scripts_of};
use super::state::NodeState;
use grs_base::{List, NoMemory, SysId, TaskId, copy_all};
use grs_wire::{Choice, Deck, Fixed, Reply, Req, RingEntry, StepDone, TaskEnd, ToldLine};
use scope_resolve::Resolver;
use std::alloc::Global;
use std::marker::Model;

/// A system of a deck.
#[derive(Drop)]
pub struct Node<'d> {
    deck: &'d Deck,
    resolver: Resolver<'d>,
    scripts: List<Script<'d>>,
    names: List<TaskId>,
    state: NodeState,
    steps: Vec<StepDone>,
    ready: Ready,
    alloc: Global,
}

impl<'d> Model for Node<'d> {
    ghost use Rattle.std.specs.Prelude.{◌≡◌, ◌-◌, [], vec_len, vec_capacity};
    ghost use Rattle.grs_legal.specs.Asks.{scripts_of};
    ghost use Rattle.grs_node.specs.Addressed.{NodeFits};
    ghost use Rattle.grs_node.specs.Log.{NodeView};
    ghost use Rattle.grs_node.specs.Names.{names_of};
    ghost use Rattle.grs_node.specs.Room.{IsReady};

    ghost Value = { NodeView };

    ghost view = { λ a. record { deck = a.deck.now; node = a.state; log = a.steps.items; room = record { steps = vec_capacity a.steps - vec_len a.steps; lines = vec_capacity a.ready.lines; told = vec_capacity a.ready.told; next = a.ready.next } } };

    ghost invariant = { λ a. (a.resolver ≡ a.deck.now.lists) × (a.scripts ≡ scripts_of a.deck.now a.state.tasks.system) × (a.names ≡ names_of a.deck.now a.state.tasks.system) × NodeFits a.deck.now a.state × (a.ready.lines.items ≡ []) × (a.ready.told.items ≡ []) × IsReady a.state.star a.ready.next };
}

/// The lines from a place on.
fn lines_from(lines: &[ToldLine], place: usize) -> &[ToldLine]
    ensures { result.now ≡ drop place lines.now }
{
    if place <= lines.len() {
        &lines[place..]
    } else {
        &[]
    }
}

/// An event as its system keeps it: what it fixed, and the lines from a place on, which it told.
fn step_of(
    alloc: Global,
    choice: Choice,
    journalled: bool,
    fixed: List<Fixed>,
    lines: &[ToldLine],
    place: usize,
) -> Result<StepDone, NoMemory>
    ensures { IfOk result (λ step. step ≡ record { choice = choice; journalled = journalled; fixed = fixed; told = drop place lines.now }) }
{
    let told = copy_all(alloc, lines_from(lines, place))?;
    Ok(StepDone {
        choice,
        journalled,
        fixed,
        told,
    })
}

impl<'d> Node<'d> {
    /// A system of a deck before its first event.
    #[tactic(auto, using(grs_wire::proofs::DeckLaws::parts))]
    pub fn new(alloc: Global, deck: &'d Deck, system: SysId) -> Result<Node<'d>, NoMemory>
        requires deck { IsBounded deck.now }
        requires system { system.0 < length deck.now.systems }
        ensures { IfOk result (λ n. shown n ≡ starting deck.now system.0) }
    {
        let scripts = scripts_of(alloc, deck, system)?;
        let names = names_of(alloc, system, scripts.as_slice())?;
        let resolver = Resolver::build(alloc, &deck.lists)?;
        let state = NodeState::of_deck(alloc, deck, system)?;
        Ok(Node {
            deck,
            resolver,
            scripts,
            names,
            state,
            steps: Vec::new(alloc),
            ready: Ready::new(alloc),
            alloc,
        })
    }

    /// What a choice comes to.
    #[tactic(auto, using(crate::proofs::AskFits::prepares))]
    fn prepared(&self, choice: &Choice) -> Result<Prepared, NoMemory>
        ensures prepared { IfOk result (λ prepared. prepared ≡ steps.prepare self.now.deck self.now.node choice.now) }
        ensures addressed { IfOk result (λ prepared. is_addressed self.now.deck self.now.node.tasks.system prepared ≡ true) }
    {
        self.state.prepare(
            self.alloc,
            self.deck,
            self.scripts.as_slice(),
            self.names.as_slice(),
            *choice,
        )
    }

    /// Whether it is kept who is told next at a lock entry.
    fn keeps_next(&self, entry: u32) -> bool
        ensures there { result ≡ true → self.now.room.next ≡ Some (next_for self.now.node.star (Tell entry)) }
        ensures needed { self.now.room.next ≡ Some (next_for self.now.node.star (Tell entry)) → result ≡ true }
    {
        match &self.ready.next {
            None => false,
            Some(next) => next.entry == entry,
        }
    }

    /// Sees to it that it is kept who is told next at a lock entry.
    fn keep_next(&mut self, entry: u32) -> Result<(), NoMemory>
        ensures deck { self.new.deck ≡ self.old.deck }
        ensures node { self.new.node ≡ self.old.node }
        ensures log { self.new.log ≡ self.old.log }
        ensures steps { self.new.room.steps ≡ self.old.room.steps }
        ensures next { OnOk result (self.new.room.next ≡ Some (next_for self.old.node.star (Tell entry))) }
        ensures there { self.old.room.next ≡ Some (next_for self.old.node.star (Tell entry)) → IsOk result }
    {
        if self.keeps_next(entry) {
            return Ok(());
        }
        let owner = self.state.told_next(entry)?;
        self.ready.next = Some(ToldNext { entry, owner });
        Ok(())
    }

    /// What a Tell comes to. Who is told is looked for once, and kept for the reply.
    #[tactic(auto, using(crate::proofs::AskFits::tells))]
    fn prepare_tell(&mut self, entry: u32) -> Result<Prepared, NoMemory>
        ensures prepared { IfOk result (λ prepared. prepared ≡ steps.prepare self.old.deck self.old.node (Tell entry)) }
        ensures addressed { IfOk result (λ prepared. is_addressed self.old.deck self.old.node.tasks.system prepared ≡ true) }
        ensures deck { self.new.deck ≡ self.old.deck }
        ensures node { self.new.node ≡ self.old.node }
        ensures log { self.new.log ≡ self.old.log }
    {
        self.keep_next(entry)?;
        match &self.ready.next {
            Some(next) => tell_call(self.alloc, self.state.known, &next.owner),
            None => unreachable!(),
        }
    }

    /// Makes room for the line that tells how a command of the desk ended.
    fn keep_lines(&mut self) -> Result<(), NoMemory>
        ensures deck { self.new.deck ≡ self.old.deck }
        ensures node { self.new.node ≡ self.old.node }
        ensures log { self.new.log ≡ self.old.log }
        ensures steps { self.new.room.steps ≡ self.old.room.steps }
        ensures lines { OnOk result (length self.old.node.tasks.told < self.new.room.lines) }
        ensures told { OnOk result (1 ≤ self.new.room.told) }
        ensures there { length self.old.node.tasks.told < self.old.room.lines → 1 ≤ self.old.room.told → IsOk result }
    {
        let count = self.state.tasks.told().as_slice().len() + 1;
        make_room(&mut self.ready.lines, count)?;
        make_room(&mut self.ready.told, 1)
    }

    /// Makes room for one step more.
    fn keep_step(&mut self) -> Result<(), NoMemory>
        ensures deck { self.new.deck ≡ self.old.deck }
        ensures node { self.new.node ≡ self.old.node }
        ensures log { self.new.log ≡ self.old.log }
        ensures room { OnOk result (1 ≤ self.new.room.steps) }
        ensures lines { self.new.room.lines ≡ self.old.room.lines }
        ensures told { self.new.room.told ≡ self.old.room.told }
        ensures next { self.new.room.next ≡ self.old.room.next }
        ensures there { 1 ≤ self.old.room.steps → IsOk result }
    {
        make_room(&mut self.steps, 1)
    }

    /// Makes room for a reply to the call that a choice makes, by which little happens. Where there is room, it takes no memory.
    fn make_ready(&mut self, choice: Choice) -> Result<(), NoMemory>
        ensures deck { self.new.deck ≡ self.old.deck }
        ensures node { self.new.node ≡ self.old.node }
        ensures log { self.new.log ≡ self.old.log }
        ensures room { OnOk result (HasRoomFor self.new choice) }
        ensures there { HasRoomFor self.old choice → IsOk result }
    {
        self.keep_step()?;
        match choice {
            Choice::Switch | Choice::Purge(_) => self.keep_lines(),
            Choice::Tell(entry) => self.keep_next(entry),
            Choice::Task(_)
            | Choice::Turn
            | Choice::Send(_)
            | Choice::Take
            | Choice::Settle
            | Choice::Part(_)
            | Choice::Leave(_)
            | Choice::Rest => Ok(()),
        }
    }

    /// What a choice comes to. It changes nothing of the system but what that has ready. A call goes to systems of the deck and to lock
    /// entries that there are, and removes another system alone; and for a reply to it by which little happens there is room then.
    pub fn prepare(&mut self, choice: &Choice) -> Result<Prepared, NoMemory>
        ensures prepared { IfOk result (λ prepared. prepared ≡ steps.prepare self.old.deck self.old.node choice.now) }
        ensures addressed { IfOk result (λ prepared. is_addressed self.old.deck self.old.node.tasks.system prepared ≡ true) }
        ensures deck { self.new.deck ≡ self.old.deck }
        ensures node { self.new.node ≡ self.old.node }
        ensures log { self.new.log ≡ self.old.log }
        ensures room { IfOk result (λ prepared. is_call prepared ≡ true → HasRoomFor self.new choice.now) }
    {
        let prepared = match choice {
            Choice::Tell(entry) => self.prepare_tell(*entry)?,
            choice => self.prepared(choice)?,
        };
        match prepared {
            Prepared::Call(call) => {
                self.make_ready(*choice)?;
                Ok(Prepared::Call(call))
            }
            Prepared::Quiet => Ok(Prepared::Quiet),
            Prepared::Nothing => Ok(Prepared::Nothing),
        }
    }

    /// The set of the systems that the system knows to be removed, as its Turn says. None exactly in star mode, where a
    /// Turn comes to nothing.
    #[tactic(auto, unfolding(crate::specs::Node::prepare))]
    pub fn known_at_turn(&self) -> Option<u32>
        ensures turn { IfSome result (λ known. steps.prepare self.now.deck self.now.node Turn ≡ Call (turn_of self.now.node known)) }
        ensures none { IfNone result (steps.prepare self.now.deck self.now.node Turn ≡ Nothing) }
    {
        if self.state.star.is_some() {
            None
        } else {
            Some(self.state.known)
        }
    }

    /// The set of the systems that the system knows to be removed, as its Take says. None exactly in ring mode, where a
    /// Take comes to nothing.
    #[tactic(auto, unfolding(crate::specs::Node::prepare, crate::specs::Node::star_call))]
    pub fn known_at_take(&self) -> Option<u32>
        ensures take { IfSome result (λ known. steps.prepare self.now.deck self.now.node Take ≡ Call (take_of known)) }
        ensures none { IfNone result (steps.prepare self.now.deck self.now.node Take ≡ Nothing) }
    {
        if self.state.star.is_some() {
            Some(self.state.known)
        } else {
            None
        }
    }

    /// Copies of the requests that a Turn puts in.
    pub fn additions(&self) -> Result<List<Req>, NoMemory>
        ensures first { IfOk result (λ out. out ≡ take most_additions self.now.node.outbox) }
        ensures few { IfOk result (λ out. length out ≤ most_additions) }
    {
        self.state.additions(self.alloc)
    }

    /// Puts an event behind the others, with the lines from a place on, which it told.
    fn keep(
        &mut self,
        choice: Choice,
        journalled: bool,
        fixed: List<Fixed>,
        place: usize,
    ) -> Result<(), NoMemory>
        ensures log { OnOk result (self.new.log ≡ self.old.log ++ record { choice = choice; journalled = journalled; fixed = fixed; told = drop place self.old.node.tasks.told } ∷ []) }
        ensures node { self.new.node ≡ self.old.node }
        ensures deck { self.new.deck ≡ self.old.deck }
    {
        let lines = self.state.tasks.told().as_slice();
        let step = step_of(self.alloc, choice, journalled, fixed, lines, place)?;
        match self.steps.push(step) {
            Ok(()) => Ok(()),
            Err(_) => Err(NoMemory),
        }
    }

    /// Puts an event with an entry in the journal behind the others, which fixed nothing and told this. There is room for it.
    fn keep_little(&mut self, choice: Choice, told: List<ToldLine>)
        requires { 1 ≤ self.old.room.steps }
        ensures log { self.new.log ≡ self.old.log ++ record { choice = choice; journalled = true; fixed = []; told = told } ∷ [] }
        ensures node { self.new.node ≡ self.old.node }
        ensures deck { self.new.deck ≡ self.old.deck }
    {
        self.steps.push_reserved(StepDone {
            choice,
            journalled: true,
            fixed: List::new(self.alloc),
            told,
        });
    }

    /// What a reply to a call comes to, by which little happens, and what is told by it. There is room for it.
    #[tactic(auto, using(crate::proofs::Fits::finishes))]
    fn answered(&mut self, choice: Choice, reply: &Reply) -> List<ToldLine>
        requires come { may_come (steps.prepare self.old.deck self.old.node choice) reply.now ≡ true }
        requires little { needs_no_memory reply.now ≡ true }
        requires room { HasRoomFor self.old choice }
        ensures step { stepped self.new.node [] ≡ steps.finish_call self.old.deck self.old.node choice reply.now }
        ensures log { self.new.log ≡ self.old.log }
        ensures deck { self.new.deck ≡ self.old.deck }
        ensures system { self.new.node.tasks.system ≡ self.old.node.tasks.system }
        ensures told { self.new.node.tasks.told ≡ self.old.node.tasks.told ++ result }
        ensures steps { self.new.room.steps ≡ self.old.room.steps }
    {
        let alloc = self.alloc;
        let deck = self.deck;
        let ready = std::mem::replace(&mut self.ready, Ready::new(alloc));
        self.state.answered(alloc, deck, choice, reply, ready)
    }

    /// Finishes a call that has an entry in the journal with a reply by which little happens. Where there is room for it, that
    /// takes no memory.
    #[tactic(auto, using(crate::proofs::Little::told_steps), unfolding(crate::specs::Log::finished, crate::specs::Node::finish))]
    fn finish_little(&mut self, choice: Choice, reply: &Reply) -> Result<(), NoMemory>
        requires come { may_come (steps.prepare self.old.deck self.old.node choice) reply.now ≡ true }
        requires little { needs_no_memory reply.now ≡ true }
        ensures step { OnOk result (shown self.new ≡ finished (shown self.old) choice (Some (reply.now, true))) }
        ensures sure { HasRoomFor self.old choice → IsOk result }
        ensures deck { self.new.deck ≡ self.old.deck }
        ensures system { self.new.node.tasks.system ≡ self.old.node.tasks.system }
    {
        self.make_ready(choice)?;
        let told = self.answered(choice, reply);
        self.keep_little(choice, told);
        Ok(())
    }

    /// A choice that is done without a call of the medium.
    #[tactic(auto, using(crate::proofs::Fits::finishes))]
    fn finish_quiet(&mut self, choice: Choice) -> Result<List<Fixed>, NoMemory>
        requires { steps.prepare self.old.deck self.old.node choice ≡ Quiet }
        ensures step { IfOk result (λ fixed. stepped self.new.node fixed ≡ steps.finish_quiet self.old.deck self.old.node choice) }
        ensures log { self.new.log ≡ self.old.log }
        ensures deck { self.new.deck ≡ self.old.deck }
        ensures system { self.new.node.tasks.system ≡ self.old.node.tasks.system }
    {
        let alloc = self.alloc;
        let deck = self.deck;
        self.ready.next = None;
        match self.state.finish_quiet(
            alloc,
            deck,
            &self.resolver,
            self.scripts.as_slice(),
            choice,
        ) {
            Ok(fixed) => Ok(fixed),
            Err(refused) => {
                self.state.give_up(alloc);
                Err(refused)
            }
        }
    }

    /// What the reply to a call comes to, by which more than little happens.
    #[tactic(auto, using(crate::proofs::Fits::finishes))]
    fn finish_call(&mut self, choice: Choice, reply: Reply) -> Result<List<Fixed>, NoMemory>
        requires come { may_come (steps.prepare self.old.deck self.old.node choice) reply ≡ true }
        requires more { needs_no_memory reply ≡ false }
        ensures step { IfOk result (λ fixed. stepped self.new.node fixed ≡ steps.finish_call self.old.deck self.old.node choice reply) }
        ensures log { self.new.log ≡ self.old.log }
        ensures deck { self.new.deck ≡ self.old.deck }
        ensures system { self.new.node.tasks.system ≡ self.old.node.tasks.system }
    {
        let alloc = self.alloc;
        let deck = self.deck;
        self.ready.next = None;
        match self
            .state
            .finish_call(alloc, deck, self.names.as_slice(), choice, reply)
        {
            Ok(fixed) => Ok(fixed),
            Err(refused) => {
                self.state.give_up(alloc);
                Err(refused)
            }
        }
    }

    /// What a Turn at the message comes to, which has these entries.
    #[tactic(auto, using(crate::proofs::Fits::finishes))]
    fn turned(
        &mut self,
        entries: &[RingEntry],
        system: SysId,
        taken: u32,
        closed: bool,
    ) -> Result<List<Fixed>, NoMemory>
        requires { system.0 < most_systems }
        ensures step { IfOk result (λ fixed. stepped self.new.node fixed ≡ steps.turned self.old.deck self.old.node (unseen system entries.now) taken closed) }
        ensures log { self.new.log ≡ self.old.log }
        ensures deck { self.new.deck ≡ self.old.deck }
        ensures system { self.new.node.tasks.system ≡ self.old.node.tasks.system }
    {
        let alloc = self.alloc;
        let deck = self.deck;
        self.ready.next = None;
        match self.state.turned_among(
            alloc,
            deck,
            self.names.as_slice(),
            entries,
            system,
            taken,
            closed,
        ) {
            Ok(fixed) => Ok(fixed),
            Err(refused) => {
                self.state.give_up(alloc);
                Err(refused)
            }
        }
    }

    /// Finishes a choice that was prepared to be done without a call. The event goes into the log.
    #[tactic(auto, unfolding(crate::specs::Log::finished, crate::specs::Node::finish))]
    fn finish_alone(&mut self, choice: Choice) -> Result<(), NoMemory>
        requires { MayFinish self.old choice None }
        ensures step { OnOk result (shown self.new ≡ finished (shown self.old) choice None) }
        ensures deck { self.new.deck ≡ self.old.deck }
        ensures system { self.new.node.tasks.system ≡ self.old.node.tasks.system }
    {
        let place = self.state.tasks.told().len();
        let fixed = self.finish_quiet(choice)?;
        self.keep(choice, false, fixed, place)
    }

    /// Finishes a call that has an entry in the journal with a reply by which more than little happens. The event goes into the
    /// log.
    #[tactic(auto, unfolding(crate::specs::Log::finished, crate::specs::Node::finish))]
    fn finish_entered(&mut self, choice: Choice, reply: Reply) -> Result<(), NoMemory>
        requires come { may_come (steps.prepare self.old.deck self.old.node choice) reply ≡ true }
        requires more { needs_no_memory reply ≡ false }
        ensures step { OnOk result (shown self.new ≡ finished (shown self.old) choice (Some (reply, true))) }
        ensures deck { self.new.deck ≡ self.old.deck }
        ensures system { self.new.node.tasks.system ≡ self.old.node.tasks.system }
    {
        let place = self.state.tasks.told().len();
        let fixed = self.finish_call(choice, reply)?;
        self.keep(choice, true, fixed, place)
    }

    /// A system in ring mode is told which systems are removed.
    #[tactic(auto, using(crate::proofs::Fits::finishes))]
    fn informed(&mut self, choice: Choice, set: u32)
        requires come { may_come (steps.prepare self.old.deck self.old.node choice) (Stale set) ≡ true }
        requires ring { self.old.node.star ≡ None }
        ensures step { self.new.node ≡ steps.stale self.old.deck self.old.node set }
        ensures log { self.new.log ≡ self.old.log }
        ensures deck { self.new.deck ≡ self.old.deck }
        ensures system { self.new.node.tasks.system ≡ self.old.node.tasks.system }
        ensures told { self.new.node.tasks.told ≡ self.old.node.tasks.told }
        ensures steps { self.new.room.steps ≡ self.old.room.steps }
    {
        let deck = self.deck;
        self.ready.next = None;
        self.state.informed(deck, set);
    }

    /// Finishes a call that has an entry in the journal, by which a system in ring mode is told which systems are removed. Where
    /// there is room for a step, that takes no memory.
    #[tactic(auto, using(crate::proofs::Little::told_steps), unfolding(crate::specs::Log::finished, crate::specs::Node::finish, crate::specs::Node::finish_call))]
    fn finish_informed(&mut self, choice: Choice, set: u32) -> Result<(), NoMemory>
        requires come { may_come (steps.prepare self.old.deck self.old.node choice) (Stale set) ≡ true }
        requires ring { self.old.node.star ≡ None }
        ensures step { OnOk result (shown self.new ≡ finished (shown self.old) choice (Some (Stale set, true))) }
        ensures sure { 1 ≤ self.old.room.steps → IsOk result }
        ensures deck { self.new.deck ≡ self.old.deck }
        ensures system { self.new.node.tasks.system ≡ self.old.node.tasks.system }
    {
        self.keep_step()?;
        self.informed(choice, set);
        self.keep_little(choice, List::new(self.alloc));
        Ok(())
    }

    /// Finishes a call that has an entry in the journal with a reply by which more than little happens.
    fn finish_more(&mut self, choice: Choice, reply: Reply) -> Result<(), NoMemory>
        requires come { may_come (steps.prepare self.old.deck self.old.node choice) reply ≡ true }
        requires more { needs_no_memory reply ≡ false }
        ensures step { OnOk result (shown self.new ≡ finished (shown self.old) choice (Some (reply, true))) }
        ensures sure { takes_no_memory self.old.node reply ≡ true → HasRoomFor self.old choice → IsOk result }
        ensures deck { self.new.deck ≡ self.old.deck }
        ensures system { self.new.node.tasks.system ≡ self.old.node.tasks.system }
    {
        let is_in_ring = self.state.star.is_none();
        match reply {
            Reply::Stale { set } if is_in_ring => self.finish_informed(choice, set),
            reply => self.finish_entered(choice, reply),
        }
    }

    /// Finishes a choice: without a reply what was prepared to be done without a call, else with the reply to
    /// the call that was prepared, and whether the call has an entry in the journal. An event goes into the
    /// log where it made no call, or where its call has such an entry; a call without one leaves all as it was, and
    /// is never answered NoMemory. After NoMemory the system is to be given up. It never comes for a reply by which little
    /// happens, nor in ring mode for one that tells who is removed, where there is room for that, as `prepare` makes it.
    #[tactic(auto, using(crate::proofs::Finish::leaving))]
    pub fn finish(&mut self, choice: &Choice, reply: Option<(Reply, bool)>) -> Result<(), NoMemory>
        requires { MayFinish self.old choice.now reply }
        ensures step { OnOk result (shown self.new ≡ finished (shown self.old) choice.now reply) }
        ensures unentered { IfSome reply (λ r. r.1 ≡ false → IsOk result) }
        ensures sure { IfSome reply (λ r. takes_no_memory self.old.node r.0 ≡ true → HasRoomFor self.old choice.now → IsOk result) }
        ensures deck { self.new.deck ≡ self.old.deck }
        ensures system { self.new.node.tasks.system ≡ self.old.node.tasks.system }
    {
        match reply {
            None => self.finish_alone(*choice),
            Some((reply, entered)) => {
                if !entered {
                    Ok(())
                } else if needs_no_memory(&reply) {
                    self.finish_little(*choice, &reply)
                } else {
                    self.finish_more(*choice, reply)
                }
            }
        }
    }

    /// Finishes a Turn at the message, which has these entries, with an entry in the journal: what `finish` does with
    /// the reply that gives those that the system has yet to process. They are read where they lie.
    #[tactic(auto, unfolding(crate::specs::Log::finished, crate::specs::Node::finish, crate::specs::Node::finish_call))]
    pub fn finish_turn(
        &mut self,
        entries: &[RingEntry],
        system: SysId,
        taken: u32,
        closed: bool,
    ) -> Result<(), NoMemory>
        requires turn { MayFinish self.old Turn (Some (Turned (unseen system entries.now) taken closed, true)) }
        requires system { system.0 < most_systems }
        ensures step { OnOk result (shown self.new ≡ finished (shown self.old) Turn (Some (Turned (unseen system entries.now) taken closed, true))) }
        ensures deck { self.new.deck ≡ self.old.deck }
        ensures system { self.new.node.tasks.system ≡ self.old.node.tasks.system }
    {
        let place = self.state.tasks.told().len();
        let fixed = self.turned(entries, system, taken, closed)?;
        self.keep(Choice::Turn, true, fixed, place)
    }

    /// Takes the last event out of the log, if there is one. Who keeps what a system fixes and tells elsewhere takes
    /// each event as it comes, so that it is kept once.
    pub fn take_step(&mut self) -> Option<StepDone>
        ensures step { IfSome result (λ step. self.old.log ≡ self.new.log ++ step ∷ []) }
        ensures none { IfNone result (self.old.log ≡ []) }
        ensures left { IfNone result (self.new.log ≡ []) }
        ensures node { self.new.node ≡ self.old.node }
        ensures deck { self.new.deck ≡ self.old.deck }
    {
        self.steps.pop()
    }

    /// The set of the systems that the system knows to be removed.
    pub fn known(&self) -> u32
        ensures { result ≡ self.now.node.known }
    {
        self.state.known
    }

    /// The number of the system.
    pub fn system(&self) -> SysId
        ensures { result.0 ≡ self.now.node.tasks.system }
    {
        self.state.tasks.system()
    }

    /// The events so far.
    pub fn log(&self) -> &[StepDone]
        ensures { result.now ≡ self.now.log }
    {
        self.steps.as_slice()
    }

    /// Whether something is pending: a task that has something to do by itself, a request in the outbox, something of
    /// star mode, or a line of the desk.
    pub fn pending(&self) -> bool
        ensures { result ≡ steps.is_pending self.now.deck self.now.node }
    {
        self.state.is_pending(self.deck)
    }

    /// Whether some task has a request on its way: one that waits to be put in or sent, or isn't answered yet.
    pub fn awaits_answer(&self) -> bool
        ensures { result ≡ list_any (λ x. steps.is_on_its_way x.phase) self.now.node.tasks.tasks }
    {
        any_on_its_way(self.state.tasks.all())
    }

    /// How often each unit is reserved in hardware, by unit, without those that aren't reserved.
    pub fn units(&self) -> Result<List<(u16, u32)>, NoMemory>
        ensures { IfOk result (λ counts. counts ≡ counted (reserved_of self.now.node.tasks.tasks)) }
    {
        self.state.tasks.units()
    }

    /// Whether a task is one of this system's.
    pub fn has(&self, task: TaskId) -> bool
        ensures { result ≡ is_task self.now.node.tasks task }
    {
        self.state.tasks.has(task)
    }

    /// How a task stands.
    pub fn task_end(&self, task: TaskId) -> TaskEnd
        requires { is_task self.now.node.tasks task ≡ true }
        ensures { result ≡ end_in (state_of self.now.node.tasks task).phase }
    {
        end_by(self.state.tasks.phase(task))
    }
}
