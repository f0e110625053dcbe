//! What a choice of a system comes to. Nothing here changes anything.
ghost use Rattle.std.specs.Prelude.{◌≡◌, ◌≢◌, ◌&&◌, true, is_some, take, IfOk, IfSome};
ghost use Rattle.std.specs.List.{list_all, list_any};
ghost use Rattle.std.specs.Option.{option_copied};
ghost use Rattle.grs_base.specs.Limits.{most_additions};
ghost use Rattle.grs_node.specs.Names.{names_of};
ghost use Rattle.grs_node.specs.Room.{told_next};
ghost use Rattle.grs_node.specs.Node as steps;
ghost use Rattle.grs_node.specs.Removal.{IsOrderly};
ghost use Rattle.grs_node.specs.Star.{is_owed_named, tell_by};
ghost use Rattle.grs_legal.specs.Asks.{lines_in, scripts_of};
ghost use Rattle.task_state.specs.View.{is_task, state_of};

use super::lines::goes_on;
use super::prepared::Prepared;
use super::scripts::{Script, is_of_deck, lines_among, system_at};
use super::star::{Need, StarPart, any_to_send, is_to_send};
use super::state::NodeState;
use grs_base::{List, NoMemory, Res, TaskId, copy_all};
use grs_wire::{Act, Call, Choice, Deck, Mail, Req, SystemDef};
use std::alloc::Global;
use task_state::{Phase, TaskState};

/// The most requests that a Turn puts in.
const MOST_ADDITIONS: usize = 32;

/// The first requests of an outbox, as many as a Turn puts in.
#[tactic(auto, using(crate::proofs::Places::first_places))]
fn first_of(outbox: &[Req]) -> &[Req]
    ensures { result.now ≡ take most_additions outbox.now }
{
    &outbox[..MOST_ADDITIONS.min(outbox.len())]
}

/// How many lines the desk of a system has.
fn desk_count(system: Option<&SystemDef>) -> usize
    ensures { result ≡ steps.desk_count (option_copied system.entry) }
{
    match system {
        None => 0,
        Some(system) => system.desk.len(),
    }
}

/// Whether some task has something to do by itself.
fn any_goes_on(tasks: &[TaskState]) -> bool
    ensures { result ≡ list_any (λ x. steps.goes_on x.phase) tasks.now }
{
    tasks.iter().any(|state| goes_on(&state.phase))
}

/// Whether a task in this phase has a request on its way.
fn is_on_its_way(phase: &Phase) -> bool
    ensures { result ≡ steps.is_on_its_way phase.now }
{
    matches!(phase, Phase::ToSend | Phase::Sent)
}

/// Whether some task has a request on its way.
pub(crate) fn any_on_its_way(tasks: &[TaskState]) -> bool
    ensures { result ≡ list_any (λ x. steps.is_on_its_way x.phase) tasks.now }
{
    tasks.iter().any(|state| is_on_its_way(&state.phase))
}

/// That an owner is told, if there is one to tell.
pub(crate) fn tell_call(
    alloc: Global,
    known: u32,
    owner: &Option<(TaskId, Res)>,
) -> Result<Prepared, NoMemory>
    ensures { IfOk result (λ prepared. prepared ≡ steps.prepared_by known (tell_by owner.now)) }
{
    let Some((task, res)) = owner else {
        return Ok(Prepared::Nothing);
    };
    Ok(Prepared::Call(Call {
        known,
        act: Act::Tell {
            to: task.system,
            mail: Mail::Granted {
                task: *task,
                res: res.copy(alloc)?,
            },
        },
    }))
}

impl NodeState {
    /// Whether in star mode something is pending: a request that waits to be sent, one that is held, an owner of another
    /// system who is still to be told, an entry that is gathered, or a part that is owed.
    fn is_star_pending(&self) -> bool
        ensures { result ≡ steps.is_star_pending self.now.tasks self.now.star }
    {
        match &self.star {
            None => false,
            Some(part) => any_to_send(self.tasks.all()) || part.is_pending(),
        }
    }

    /// Whether something is pending: a task that has something to do by itself, a request in the outbox, something of
    /// star mode, or a line of the desk.
    #[tactic(auto, unfolding(crate::specs::Node::is_pending))]
    pub(crate) fn is_pending(&self, deck: &Deck) -> bool
        ensures { result ≡ steps.is_pending deck.now self.now }
    {
        any_goes_on(self.tasks.all())
            || self.outbox.len() != 0
            || self.is_star_pending()
            || (self.done as usize) < desk_count(system_at(deck, self.tasks.system()))
    }

    /// Whether a task is of this system, has lines, and has something to do.
    fn may_go(&self, scripts: &[Script<'_>], task: TaskId) -> bool
        ensures { result ≡ (is_task self.now.tasks task && (is_some (lines_in scripts.now task) && steps.goes_on (state_of self.now.tasks task).phase)) }
    {
        self.tasks.has(task)
            && lines_among(scripts, task).is_some()
            && goes_on(self.tasks.phase(task))
    }

    /// Whether a task is of this system and of the deck, and has a request that waits to be sent.
    #[tactic(auto, unfolding(crate::specs::Node::may_send))]
    fn may_send(&self, deck: &Deck, task: TaskId) -> bool
        ensures { result ≡ steps.may_send deck.now self.now task }
    {
        self.tasks.has(task) && is_of_deck(deck, task) && is_to_send(self.tasks.phase(task))
    }

    /// Who is told next at a lock entry.
    pub(crate) fn told_next(&self, entry: u32) -> Result<Option<(TaskId, Res)>, NoMemory>
        ensures { IfOk result (λ owner. owner ≡ told_next self.now.star entry) }
    {
        match &self.star {
            None => Ok(None),
            Some(part) => part.to_tell(entry),
        }
    }

    /// Copies of the requests that a Turn puts in.
    pub(crate) fn additions(&self, alloc: Global) -> Result<List<Req>, NoMemory>
        ensures { IfOk result (λ out. out ≡ take most_additions self.now.outbox) }
    {
        copy_all(alloc, first_of(self.outbox.as_slice()))
    }

    /// What a Turn asks. In star mode it is none.
    fn prepare_turn(&self, alloc: Global) -> Result<Prepared, NoMemory>
        ensures { IfOk result (λ prepared. prepared ≡ steps.turn_call self.now self.now.star) }
    {
        if self.star.is_some() {
            return Ok(Prepared::Nothing);
        }
        let out = self.additions(alloc)?;
        Ok(Prepared::Call(Call {
            known: self.known,
            act: Act::Turn { out },
        }))
    }

    /// What an event of star mode needs.
    #[tactic(auto, using(crate::proofs::Calls::senders))]
    fn star_need(
        &self,
        alloc: Global,
        deck: &Deck,
        names: &[TaskId],
        part: &StarPart,
        choice: Choice,
    ) -> Result<Need, NoMemory>
        requires names { names.now ≡ names_of deck.now self.now.tasks.system }
        requires orderly { IsOrderly part.now }
        requires owed { list_all is_owed_named part.now.owes ≡ true }
        ensures { IfOk result (λ need. need ≡ steps.star_need deck.now self.now part.now choice) }
    {
        match choice {
            Choice::Send(task) if self.may_send(deck, task) => {
                part.send(alloc, task, self.tasks.asked(task))
            }
            Choice::Take => Ok(Need::Asks(Act::Take)),
            Choice::Settle => part.settle(),
            Choice::Tell(entry) => part.tell(entry),
            Choice::Part(entry) => part.part(alloc, &self.tasks, names, self.known, entry),
            Choice::Leave(entry) => Ok(part.leave(&self.tasks, entry)),
            Choice::Task(_)
            | Choice::Turn
            | Choice::Send(_)
            | Choice::Switch
            | Choice::Purge(_)
            | Choice::Rest => Ok(Need::Idle),
        }
    }

    /// What an event of star mode comes to. It has nothing to do in a ring.
    #[tactic(auto, unfolding(crate::specs::Node::star_call))]
    fn prepare_star(
        &self,
        alloc: Global,
        deck: &Deck,
        names: &[TaskId],
        choice: Choice,
    ) -> Result<Prepared, NoMemory>
        requires names { names.now ≡ names_of deck.now self.now.tasks.system }
        requires orderly { IfSome self.now.star IsOrderly }
        requires owed { IfSome self.now.star (λ p. list_all is_owed_named p.owes ≡ true) }
        ensures { IfOk result (λ prepared. prepared ≡ steps.star_call deck.now self.now self.now.star choice) }
    {
        let Some(part) = &self.star else {
            return Ok(Prepared::Nothing);
        };
        match self.star_need(alloc, deck, names, part, choice)? {
            Need::Asks(act) => Ok(Prepared::Call(Call {
                known: self.known,
                act,
            })),
            Need::Idle => Ok(Prepared::Nothing),
        }
    }

    /// What a choice comes to.
    #[tactic(auto, using(crate::proofs::Deck::of_system), unfolding(crate::specs::Node::prepare))]
    pub(crate) fn prepare(
        &self,
        alloc: Global,
        deck: &Deck,
        scripts: &[Script<'_>],
        names: &[TaskId],
        choice: Choice,
    ) -> Result<Prepared, NoMemory>
        requires names { names.now ≡ names_of deck.now self.now.tasks.system }
        requires orderly { IfSome self.now.star IsOrderly }
        requires owed { IfSome self.now.star (λ p. list_all is_owed_named p.owes ≡ true) }
        requires scripts { scripts.now ≡ scripts_of deck.now self.now.tasks.system }
        requires entries { deck.now.entries ≢ 0 }
        ensures { IfOk result (λ prepared. prepared ≡ steps.prepare deck.now self.now choice) }
    {
        match choice {
            Choice::Task(task) if self.may_go(scripts, task) => Ok(Prepared::Quiet),
            Choice::Turn => self.prepare_turn(alloc),
            Choice::Switch => self.prepare_switch(alloc, deck),
            Choice::Purge(target) => Ok(self.prepare_purge(deck, target)),
            Choice::Rest if !self.is_pending(deck) => Ok(Prepared::Call(Call {
                known: self.known,
                act: Act::Rest,
            })),
            Choice::Task(_) | Choice::Rest => Ok(Prepared::Nothing),
            Choice::Send(_)
            | Choice::Take
            | Choice::Settle
            | Choice::Tell(_)
            | Choice::Part(_)
            | Choice::Leave(_) => self.prepare_star(alloc, deck, names, choice),
        }
    }
}
