//! A system's part of a turn: it reads the entries that it hasn't seen, and its requests are put in.
ghost use Rattle.std.specs.Prelude.{◌≡◌, ◌≢◌, ◌<◌, ◌≤◌, ◌++◌, [], None, Some, true, false, take, drop, length, map, slice_get, vec_capacity, IfOk, IfSome, OnOk};
ghost use Rattle.grs_base.specs.Limits.{most_systems, most_commands};
ghost use Rattle.grs_wire.specs.declared.deck.Deck.{Deck as DeckValue};
ghost use Rattle.grs_wire.specs.declared.medium.RingBody.TheVariants.{Request};
ghost use Rattle.grs_wire.specs.declared.request.Fixed.TheVariants as fixes;
ghost use Rattle.grs_wire.specs.Unseen.{unseen};
ghost use Rattle.grs_node.specs.Addressed.{TargetFits};
ghost use Rattle.grs_node.specs.Removal.{IsOrderly, members};
ghost use Rattle.grs_node.specs.Names.{names_of};
ghost use Rattle.grs_node.specs.Node as steps;
ghost use Rattle.grs_node.specs.Node.{are_of_system};
ghost use Rattle.grs_node.specs.Finish.{may_come};
ghost use Rattle.grs_node.specs.Log.{stepped};
ghost use Rattle.grs_node.specs.Room.{needs_no_memory, is_command, is_tell, next_for};
ghost use Rattle.grs_node.specs.Star.{was_prepared};
ghost use Rattle.mode_migrate.specs.Migrate.{AreApart};

use super::ready::{Ready, ToldNext};
use super::removal::without_those;
use super::scripts::is_of_deck;
use super::state::NodeState;
use grs_base::{List, NoMemory, SysId, TaskId};
use grs_wire::masks::has_system;
use grs_wire::{Choice, Deck, Fixed, Reply, Req, RingBody, RingEntry, Said, ToldLine};
use ring_mode::on_request;
use std::alloc::Global;
use system_purge::remove;
use task_state::{Phase, Tasks};

/// The systems that are known to be removed, where a system is told this set of them. A set with a system outside
/// the deck has no effect.
fn known_from(deck: &Deck, known: u32, set: u32) -> u32
    requires { length deck.now.systems ≤ most_systems }
    ensures { result ≡ steps.known_from deck.now known set }
{
    if set < 1 << deck.systems.len() {
        set
    } else {
        known
    }
}

/// The tasks of these requests have sent them.
#[tactic(auto, using(crate::proofs::Kept::kept), unfolding(crate::specs::Node::all_sent))]
fn all_sent(tasks: &mut Tasks, reqs: &[Req])
    requires { are_of_system tasks.old.system (length tasks.old.tasks) reqs.now ≡ true }
    ensures step { tasks.new ≡ steps.all_sent tasks.old reqs.now }
    ensures system { tasks.new.system ≡ tasks.old.system }
    ensures count { length tasks.new.tasks ≡ length tasks.old.tasks }
{
    let mut rest = reqs;
    while let Some((req, tail)) = rest.split_first() {
        tasks.set_phase(req.task, Phase::Sent);
        rest = tail;
    }
}

/// These requests are fixed.
fn all_asked(alloc: Global, reqs: Vec<Req>) -> Result<List<Fixed>, NoMemory>
    ensures { IfOk result (λ fixed. fixed ≡ map fixes.Asked reqs.items) }
{
    let mut fixed = List::with_room(alloc, reqs.len())?;
    for req in reqs {
        fixed.push(Fixed::Asked(req))?;
    }
    Ok(fixed)
}

/// The first requests, this many or all, and those behind them.
fn divided(reqs: List<Req>, taken: u32) -> Result<(Vec<Req>, List<Req>), NoMemory>
    ensures first { IfOk result (λ parts. parts.0.items ≡ take taken reqs) }
    ensures rest { IfOk result (λ parts. parts.1 ≡ drop taken reqs) }
{
    let mut first = reqs.into_vec();
    let count = (taken as usize).min(first.len());
    match first.split_off(count) {
        Ok(rest) => Ok((first, List::from_vec(rest))),
        Err(_) => Err(NoMemory),
    }
}

impl NodeState {
    /// The system processes that another one is removed: the elements of that one's tasks leave its table, and those of its
    /// own tasks that became owners by it are told control.
    fn process_removal(&mut self, alloc: Global, target: SysId) -> Result<(), NoMemory>
        ensures step { OnOk result (self.new ≡ steps.process_removal self.old target) }
        ensures system { self.new.tasks.system ≡ self.old.tasks.system }
    {
        remove(alloc, &mut self.shared, &mut self.tasks, target)
    }

    /// The system processes a request of the message. One of a task that isn't of the deck has no effect.
    fn read_request(&mut self, alloc: Global, deck: &Deck, req: &Req) -> Result<(), NoMemory>
        ensures step { OnOk result (self.new ≡ steps.read_entry deck.now self.old (Request req.now)) }
        ensures system { self.new.tasks.system ≡ self.old.tasks.system }
    {
        if is_of_deck(deck, req.task) {
            on_request(alloc, &mut self.shared, &mut self.tasks, req)
        } else {
            Ok(())
        }
    }

    /// The system processes an entry of the message.
    fn read_entry(&mut self, alloc: Global, deck: &Deck, body: &RingBody) -> Result<(), NoMemory>
        ensures step { OnOk result (self.new ≡ steps.read_entry deck.now self.old body.now) }
        ensures system { self.new.tasks.system ≡ self.old.tasks.system }
    {
        match body {
            RingBody::Request(req) => self.read_request(alloc, deck, req),
            RingBody::Remove(target) => self.process_removal(alloc, *target),
        }
    }

    /// The system processes the entries of the message that it was given, in order.
    #[tactic(auto, unfolding(crate::specs::Node::read_entries))]
    fn read_entries(
        &mut self,
        alloc: Global,
        deck: &Deck,
        entries: &[RingEntry],
    ) -> Result<(), NoMemory>
        ensures step { OnOk result (self.new ≡ steps.read_entries deck.now self.old entries.now) }
        ensures system { self.new.tasks.system ≡ self.old.tasks.system }
    {
        let mut rest = entries;
        while let Some((entry, tail)) = rest.split_first() {
            self.read_entry(alloc, deck, &entry.body)?;
            rest = tail;
        }
        Ok(())
    }

    /// The system processes those entries of the message that it hasn't seen, in order, where they lie.
    #[tactic(auto, unfolding(crate::specs::Node::read_entries, grs_wire::specs::Unseen::unseen))]
    fn read_unseen(
        &mut self,
        alloc: Global,
        deck: &Deck,
        entries: &[RingEntry],
        system: SysId,
    ) -> Result<(), NoMemory>
        requires { system.0 < most_systems }
        ensures step { OnOk result (self.new ≡ steps.read_entries deck.now self.old (unseen system entries.now)) }
        ensures system { self.new.tasks.system ≡ self.old.tasks.system }
    {
        let mut rest = entries;
        while let Some((entry, tail)) = rest.split_first() {
            if has_system(entry.mask, system) {
                self.read_entry(alloc, deck, &entry.body)?;
            }
            rest = tail;
        }
        Ok(())
    }

    /// The first requests of the outbox were put in.
    #[tactic(auto, using(crate::proofs::Kept::kept), unfolding(crate::specs::Node::put_in))]
    pub(crate) fn put_in(&mut self, alloc: Global, taken: u32) -> Result<List<Fixed>, NoMemory>
        ensures step { IfOk result (λ fixed. stepped self.new fixed ≡ steps.put_in self.old taken) }
        ensures system { self.new.tasks.system ≡ self.old.tasks.system }
    {
        if taken == 0 {
            return Ok(List::new(alloc));
        }
        let waiting = std::mem::replace(&mut self.outbox, List::new(alloc));
        let (first, rest) = divided(waiting, taken)?;
        all_sent(&mut self.tasks, first.as_slice());
        self.outbox = rest;
        all_asked(alloc, first)
    }

    /// In star mode the system loses the removed systems of this set.
    #[tactic(auto, unfolding(crate::specs::Node::losing))]
    pub(crate) fn lose(
        &mut self,
        alloc: Global,
        names: &[TaskId],
        systems: u32,
    ) -> Result<(), NoMemory>
        requires { IfSome self.old.star IsOrderly }
        ensures step { (deck : DeckValue) → names.now ≡ names_of deck self.old.tasks.system → OnOk result (self.new ≡ steps.losing deck self.old (members systems)) }
        ensures system { self.new.tasks.system ≡ self.old.tasks.system }
        ensures count { length self.new.tasks.tasks ≡ length self.old.tasks.tasks }
    {
        match &mut self.star {
            None => Ok(()),
            Some(part) => part.lose_all(alloc, &mut self.tasks, names, systems),
        }
    }

    /// The system is told which systems are removed. In star mode it loses those of which it didn't know.
    #[tactic(auto, unfolding(crate::specs::Node::stale))]
    fn stale(
        &mut self,
        alloc: Global,
        deck: &Deck,
        names: &[TaskId],
        set: u32,
    ) -> Result<(), NoMemory>
        requires few { length deck.now.systems ≤ most_systems }
        requires names { names.now ≡ names_of deck.now self.old.tasks.system }
        requires orderly { IfSome self.old.star IsOrderly }
        ensures step { OnOk result (self.new ≡ steps.stale deck.now self.old set) }
        ensures system { self.new.tasks.system ≡ self.old.tasks.system }
    {
        let known = known_from(deck, self.known, set);
        let more = without_those(self.known, known);
        self.known = known;
        self.lose(alloc, names, more)
    }

    /// A system in ring mode is told which systems are removed, for which it takes no memory.
    #[tactic(auto, unfolding(crate::specs::Node::stale, crate::specs::Node::losing))]
    pub(crate) fn informed(&mut self, deck: &Deck, set: u32)
        requires few { length deck.now.systems ≤ most_systems }
        requires ring { self.old.star ≡ None }
        ensures step { self.new ≡ steps.stale deck.now self.old set }
        ensures system { self.new.tasks.system ≡ self.old.tasks.system }
        ensures told { self.new.tasks.told ≡ self.old.tasks.told }
    {
        self.known = known_from(deck, self.known, set);
    }

    /// What a Turn at the message comes to, of which these entries were given. Where the message is closed the system
    /// changes to star mode.
    #[tactic(auto, unfolding(crate::specs::Node::turned))]
    fn turned(
        &mut self,
        alloc: Global,
        deck: &Deck,
        names: &[TaskId],
        entries: &[RingEntry],
        taken: u32,
        closed: bool,
    ) -> Result<List<Fixed>, NoMemory>
        requires entries { deck.now.entries ≢ 0 }
        requires apart { AreApart self.old.shared }
        requires names { names.now ≡ names_of deck.now self.old.tasks.system }
        ensures step { IfOk result (λ fixed. stepped self.new fixed ≡ steps.turned deck.now self.old entries.now taken closed) }
        ensures system { self.new.tasks.system ≡ self.old.tasks.system }
    {
        self.read_entries(alloc, deck, entries)?;
        let fixed = self.put_in(alloc, taken)?;
        self.change_if(alloc, deck, names, closed)?;
        Ok(fixed)
    }

    /// What a Turn at the message comes to, which has these entries.
    #[tactic(auto, unfolding(crate::specs::Node::turned))]
    pub(crate) fn turned_among(
        &mut self,
        alloc: Global,
        deck: &Deck,
        names: &[TaskId],
        entries: &[RingEntry],
        system: SysId,
        taken: u32,
        closed: bool,
    ) -> Result<List<Fixed>, NoMemory>
        requires system { system.0 < most_systems }
        requires entries { deck.now.entries ≢ 0 }
        requires apart { AreApart self.old.shared }
        requires names { names.now ≡ names_of deck.now self.old.tasks.system }
        ensures step { IfOk result (λ fixed. stepped self.new fixed ≡ steps.turned deck.now self.old (unseen system entries.now) taken closed) }
        ensures system { self.new.tasks.system ≡ self.old.tasks.system }
    {
        self.read_unseen(alloc, deck, entries, system)?;
        let fixed = self.put_in(alloc, taken)?;
        self.change_if(alloc, deck, names, closed)?;
        Ok(fixed)
    }

    /// What the reply to a call of star mode comes to, by which more than little happens.
    #[tactic(auto, unfolding(crate::specs::Node::finish_star))]
    fn finish_star(
        &mut self,
        alloc: Global,
        deck: &Deck,
        names: &[TaskId],
        choice: Choice,
        reply: Reply,
    ) -> Result<List<Fixed>, NoMemory>
        requires call { IfSome self.old.star (λ p. was_prepared self.old.tasks p choice ≡ true) }
        requires more { needs_no_memory reply ≡ false }
        requires names { names.now ≡ names_of deck.now self.old.tasks.system }
        requires orderly { IfSome self.old.star IsOrderly }
        requires few { length deck.now.systems ≤ most_systems }
        ensures step { IfOk result (λ fixed. stepped self.new fixed ≡ steps.finish_star deck.now self.old self.old.star choice reply) }
        ensures system { self.new.tasks.system ≡ self.old.tasks.system }
    {
        match &mut self.star {
            None => Ok(List::new(alloc)),
            Some(part) => {
                part.finish(
                    alloc,
                    deck,
                    &mut self.tasks,
                    names,
                    self.known,
                    choice,
                    reply,
                )
            }
        }
    }

    /// What a reply to a call of star mode comes to, by which little happens, where it is known who is told by it.
    #[tactic(auto, unfolding(crate::specs::Node::finish_star))]
    fn answered_in_star(&mut self, choice: Choice, reply: &Reply, next: Option<ToldNext>)
        requires call { IfSome self.old.star (λ p. was_prepared self.old.tasks p choice ≡ true) }
        requires little { needs_no_memory reply.now ≡ true }
        requires next { is_tell choice ≡ true → next ≡ Some (next_for self.old.star choice) }
        ensures step { (deck : DeckValue) → stepped self.new [] ≡ steps.finish_star deck self.old self.old.star choice reply.now }
        ensures system { self.new.tasks.system ≡ self.old.tasks.system }
        ensures told { self.new.tasks.told ≡ self.old.tasks.told }
    {
        if let Some(part) = &mut self.star {
            part.answered(&mut self.tasks, choice, reply, next);
        }
    }

    /// What a reply to a call comes to, by which little happens, and what is told by it. Where there is room it takes no memory.
    #[tactic(auto, using(crate::proofs::Calls::came, crate::proofs::Calls::ordered_desk, crate::proofs::Calls::commands, crate::proofs::Little::little), unfolding(crate::specs::Node::finish_call))]
    pub(crate) fn answered(
        &mut self,
        alloc: Global,
        deck: &Deck,
        choice: Choice,
        reply: &Reply,
        ready: Ready,
    ) -> List<ToldLine>
        requires come { may_come (steps.prepare deck.now self.old choice) reply.now ≡ true }
        requires little { needs_no_memory reply.now ≡ true }
        requires few { length deck.now.systems ≤ most_systems }
        requires desk { steps.desk_count (slice_get deck.now.systems self.old.tasks.system) ≤ most_commands }
        requires no_lines { ready.lines.items ≡ [] }
        requires no_told { ready.told.items ≡ [] }
        requires lines { is_command choice ≡ true → length self.old.tasks.told < vec_capacity ready.lines }
        requires told { is_command choice ≡ true → 1 ≤ vec_capacity ready.told }
        requires next { is_tell choice ≡ true → ready.next ≡ Some (next_for self.old.star choice) }
        ensures step { stepped self.new [] ≡ steps.finish_call deck.now self.old choice reply.now }
        ensures system { self.new.tasks.system ≡ self.old.tasks.system }
        ensures told { self.new.tasks.told ≡ self.old.tasks.told ++ result }
    {
        match reply {
            Reply::Already => self.desk_told_within(Said::StarAlready, ready),
            Reply::NoSuch => self.desk_told_within(Said::VaryNoSuch, ready),
            Reply::Turned { .. } => List::new(alloc),
            Reply::Stale { .. } | Reply::Switched | Reply::Purged => unreachable!(),
            reply => {
                self.answered_in_star(choice, reply, ready.next);
                List::new(alloc)
            }
        }
    }

    /// What the reply to a call comes to, by which more than little happens.
    #[tactic(auto, using(crate::proofs::Calls::came, crate::proofs::Calls::ordered_desk), unfolding(crate::specs::Node::finish_call))]
    pub(crate) fn finish_call(
        &mut self,
        alloc: Global,
        deck: &Deck,
        names: &[TaskId],
        choice: Choice,
        reply: Reply,
    ) -> Result<List<Fixed>, NoMemory>
        requires come { may_come (steps.prepare deck.now self.old choice) reply ≡ true }
        requires more { needs_no_memory reply ≡ false }
        requires few { length deck.now.systems ≤ most_systems }
        requires entries { deck.now.entries ≢ 0 }
        requires desk { steps.desk_count (slice_get deck.now.systems self.old.tasks.system) ≤ most_commands }
        requires target { TargetFits choice }
        requires apart { AreApart self.old.shared }
        requires names { names.now ≡ names_of deck.now self.old.tasks.system }
        requires orderly { IfSome self.old.star IsOrderly }
        ensures step { IfOk result (λ fixed. stepped self.new fixed ≡ steps.finish_call deck.now self.old choice reply) }
        ensures system { self.new.tasks.system ≡ self.old.tasks.system }
    {
        match reply {
            Reply::Turned {
                entries,
                taken,
                closed,
            } => self.turned(alloc, deck, names, entries.as_slice(), taken, closed),
            Reply::Stale { set } => {
                self.stale(alloc, deck, names, set)?;
                Ok(List::new(alloc))
            }
            Reply::Switched => {
                self.switched(alloc, deck, names)?;
                Ok(List::new(alloc))
            }
            Reply::Purged => self.purged(alloc, deck, names, choice),
            Reply::Already | Reply::NoSuch => unreachable!(),
            reply => self.finish_star(alloc, deck, names, choice, reply),
        }
    }
}
