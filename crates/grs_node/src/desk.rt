//! The commands of a system's desk: which one is next, what it asks of the medium, and that it is done.
ghost use Rattle.std.specs.Prelude.{◌≡◌, ◌≢◌, ◌<◌, ◌≤◌, ◌++◌, ◌∷◌, [], length, replicate, slice_get, vec_capacity, IfOk, IfSome, OnOk};
ghost use Rattle.std.specs.Option.{option_map};
ghost use Rattle.grs_base.specs.Limits.{most_commands, most_systems};
ghost use Rattle.grs_wire.specs.declared.deck.Deck.{Deck as DeckValue};
ghost use Rattle.grs_wire.specs.declared.request.Fixed.TheVariants as fixes;
ghost use Rattle.grs_node.specs.Addressed.{TargetFits};
ghost use Rattle.grs_node.specs.Log.{stepped};
ghost use Rattle.grs_node.specs.Removal.{IsOrderly};
ghost use Rattle.grs_node.specs.Names.{names_of};
ghost use Rattle.grs_node.specs.Node as steps;

use super::prepared::Prepared;
use super::ready::Ready;
use super::scripts::system_at;
use super::state::NodeState;
use grs_base::{List, NoMemory, SysId, TaskId};
use grs_wire::masks::with_system;
use grs_wire::{Act, Call, Choice, Deck, Fixed, Order, Said, ToldLine};
use mode_migrate::words_of;
use std::alloc::Global;

/// What the desk of a system orders behind so many commands that are done, if anything.
fn next_order(deck: &Deck, system: SysId, done: u32) -> Option<Order>
    ensures { result ≡ option_map (λ c. c.order) (slice_get (steps.desk_of (slice_get deck.now.systems system.0)) done) }
{
    match system_at(deck, system) {
        None => None,
        Some(system) => match system.desk.as_slice().get(done as usize) {
            None => None,
            Some(command) => Some(command.order),
        },
    }
}

/// So many lock words in which nobody has interest.
fn no_words(alloc: Global, entries: u32) -> Result<List<u32>, NoMemory>
    ensures { IfOk result (λ words. words ≡ replicate entries 0) }
{
    let mut words = List::new(alloc);
    for _ in 0..entries {
        words.push(0)?;
    }
    Ok(words)
}

/// A removal that was fixed.
fn purged_alone(alloc: Global, target: SysId) -> Result<List<Fixed>, NoMemory>
    ensures { IfOk result (λ fixed. fixed ≡ fixes.Purged target ∷ []) }
{
    let mut fixed = List::with_room(alloc, 1)?;
    fixed.push(Fixed::Purged { target })?;
    Ok(fixed)
}

impl NodeState {
    /// The lock words to which the system's table leads; in star mode it has none.
    fn own_words(&self, alloc: Global, entries: u32) -> Result<List<u32>, NoMemory>
        requires { entries ≢ 0 }
        ensures { IfOk result (λ words. words ≡ steps.words_by entries self.now.shared self.now.star) }
    {
        if self.star.is_some() {
            no_words(alloc, entries)
        } else {
            words_of(alloc, &self.shared, entries)
        }
    }

    /// The change to star mode, where the next command orders it.
    pub(crate) fn prepare_switch(&self, alloc: Global, deck: &Deck) -> Result<Prepared, NoMemory>
        requires { deck.now.entries ≢ 0 }
        ensures { IfOk result (λ prepared. prepared ≡ steps.switch_call deck.now self.now (steps.next_order deck.now self.now)) }
    {
        match next_order(deck, self.tasks.system(), self.done) {
            Some(Order::Star) => {
                let words = self.own_words(alloc, deck.entries)?;
                Ok(Prepared::Call(Call {
                    known: self.known,
                    act: Act::Switch { words },
                }))
            }
            Some(Order::Vary(_)) | None => Ok(Prepared::Nothing),
        }
    }

    /// The removal of a system, where the next command orders it.
    pub(crate) fn prepare_purge(&self, deck: &Deck, target: SysId) -> Prepared
        ensures { result ≡ steps.purge_call self.now target (steps.next_order deck.now self.now) }
    {
        match next_order(deck, self.tasks.system(), self.done) {
            Some(Order::Vary(named)) if named.0 == target.0 => Prepared::Call(Call {
                known: self.known,
                act: Act::Purge { target },
            }),
            Some(_) | None => Prepared::Nothing,
        }
    }

    /// A system was removed by the next command, which is done: the removal is fixed, and the system knows of it. In star
    /// mode it loses the removed one.
    #[tactic(auto, unfolding(crate::specs::Node::desk_told, crate::specs::Node::purged))]
    pub(crate) fn purged(
        &mut self,
        alloc: Global,
        deck: &Deck,
        names: &[TaskId],
        choice: Choice,
    ) -> Result<List<Fixed>, NoMemory>
        requires desk { self.old.done < most_commands }
        requires target { TargetFits choice }
        requires names { names.now ≡ names_of deck.now self.old.tasks.system }
        requires orderly { IfSome self.old.star IsOrderly }
        ensures step { IfOk result (λ fixed. stepped self.new fixed ≡ steps.purged deck.now self.old choice) }
        ensures system { self.new.tasks.system ≡ self.old.tasks.system }
    {
        self.desk_told(Said::VaryDone)?;
        match choice {
            Choice::Purge(target) => {
                self.known = with_system(self.known, target);
                self.lose_one(alloc, names, target)?;
                purged_alone(alloc, target)
            }
            _ => Ok(List::new(alloc)),
        }
    }

    /// In star mode the system loses a removed one.
    #[tactic(auto, unfolding(crate::specs::Node::losing))]
    fn lose_one(&mut self, alloc: Global, names: &[TaskId], target: SysId) -> Result<(), NoMemory>
        requires target { target.0 < most_systems }
        requires orderly { IfSome self.old.star IsOrderly }
        ensures step { (deck : DeckValue) → names.now ≡ names_of deck self.old.tasks.system → OnOk result (self.new ≡ steps.losing deck self.old (target ∷ [])) }
        ensures system { self.new.tasks.system ≡ self.old.tasks.system }
        ensures count { length self.new.tasks.tasks ≡ length self.old.tasks.tasks }
    {
        match &mut self.star {
            None => Ok(()),
            Some(part) => part.lose_one(alloc, &mut self.tasks, names, target),
        }
    }

    /// The next command is done, and told like this.
    #[tactic(auto, using(crate::proofs::Kept::kept), unfolding(crate::specs::Node::desk_told))]
    pub(crate) fn desk_told(&mut self, said: Said) -> Result<(), NoMemory>
        requires { self.old.done < most_commands }
        ensures step { OnOk result (self.new ≡ steps.desk_told self.old said) }
        ensures system { self.new.tasks.system ≡ self.old.tasks.system }
    {
        let k = self.done + 1;
        self.tasks.tell(ToldLine::Desk { k, said })?;
        self.done = k;
        Ok(())
    }

    /// The next command is done, and told like this, where there is room: so it takes no memory. It gives the line that is told.
    #[tactic(auto, using(crate::proofs::Kept::kept), unfolding(crate::specs::Node::desk_told))]
    pub(crate) fn desk_told_within(&mut self, said: Said, ready: Ready) -> List<ToldLine>
        requires desk { self.old.done < most_commands }
        requires no_lines { ready.lines.items ≡ [] }
        requires no_told { ready.told.items ≡ [] }
        requires lines { length self.old.tasks.told < vec_capacity ready.lines }
        requires told { 1 ≤ vec_capacity ready.told }
        ensures step { self.new ≡ steps.desk_told self.old said }
        ensures system { self.new.tasks.system ≡ self.old.tasks.system }
        ensures told { self.new.tasks.told ≡ self.old.tasks.told ++ result }
    {
        let k = self.done + 1;
        let mut told = ready.told;
        told.push_reserved(ToldLine::Desk { k, said });
        self.done += 1;
        self.tasks
            .tell_within(ToldLine::Desk { k, said }, ready.lines);
        List::from_vec(told)
    }
}
