//! What the events of star mode come to: what a system decides as a manager, and what the replies to its calls do to its
//! tasks and its part.
ghost use Rattle.std.specs.Prelude.{◌≡◌, ◌≢◌, ◌<◌, ◌≤◌, ◌==◌, ℕ, [], Some, true, false, length, filter, IfOk, IfSome, IfNone, OnOk};
ghost use Rattle.std.specs.List.{list_all};
ghost use Rattle.std.specs.Option.{option_copied};
ghost use Rattle.contention_mgr.specs.Manager.{after_request, items_of, managed_at};
ghost use Rattle.grs_base.specs.Limits.{most_systems};
ghost use Rattle.grs_node.specs.Room.{needs_no_memory, is_tell, next_for};
ghost use Rattle.grs_node.specs.Names.{names_of};
ghost use Rattle.grs_node.specs.Node as steps;
ghost use Rattle.grs_node.specs.Removal.{IsOrderly};
ghost use Rattle.grs_node.specs.Star as star;
ghost use Rattle.grs_node.specs.Star.{starred};
ghost use Rattle.grs_wire.specs.declared.deck.Choice.TheVariants.{Send, Take};
ghost use Rattle.grs_wire.specs.declared.deck.Deck.{Deck as DeckValue};
ghost use Rattle.grs_wire.specs.Wants.{res_wanted};
ghost use Rattle.star_client.specs.Client as client;
ghost use Rattle.task_state.specs.Replies as replies;
ghost use Rattle.task_state.specs.View.{is_task, state_of};

use super::ready::ToldNext;
use super::scripts::is_of_deck;
use super::star::{StarPart, request_of};
use super::state::asked_alone;
use contention_mgr::Manager;
use grs_base::{List, NoMemory, Res, Row, TaskId};
use grs_wire::masks::has_system;
use grs_wire::{Answer, Choice, Deck, Fixed, Mail, Moved, PartRec, Reply, Req, res_of};
use queue_table::Outcome;
use star_client::{on_mail, tell_answer_ranked};
use std::alloc::Global;
use task_state::{Asked, Phase, Tasks, tell_new};

/// Whether the tasks in the list of a row are of the deck.
fn has_deck_tasks(deck: &Deck, row: &Row) -> bool
    ensures { result ≡ steps.has_deck_tasks deck.now row.now }
{
    let elems = row.elems.as_slice();
    elems.iter().all(|elem| is_of_deck(deck, elem.task))
}

/// The same of each of these rows.
fn have_deck_tasks(deck: &Deck, rows: &[Row]) -> bool
    ensures { result ≡ list_all (steps.has_deck_tasks deck.now) rows.now }
{
    rows.iter().all(|row| has_deck_tasks(deck, row))
}

/// Whether the tasks that an answer names are of the deck. A code names none.
fn names_of_deck(deck: &Deck, answer: &Answer) -> bool
    ensures { result ≡ steps.names_of_deck deck.now answer.now }
{
    match answer {
        Answer::Coded(_) => true,
        Answer::Rows(rows) => have_deck_tasks(deck, rows.as_slice()),
    }
}

/// Whether the tasks and systems that a mail names are of the deck; of a notice the removed system, and of a part the
/// sender and the entry.
fn is_for_deck(deck: &Deck, mail: &Mail) -> bool
    ensures { result ≡ steps.is_for_deck deck.now mail.now }
{
    match mail {
        Mail::Request { from, req, .. } => {
            (from.0 as usize) < deck.systems.len() && is_of_deck(deck, req.task)
        }
        Mail::Answered { task, answer, .. } => {
            is_of_deck(deck, *task) && names_of_deck(deck, answer)
        }
        Mail::Granted { task, .. } => is_of_deck(deck, *task),
        Mail::Notice { target, .. } => (target.0 as usize) < deck.systems.len(),
        Mail::Part { entry, from, .. } => {
            *entry < deck.entries && (from.0 as usize) < deck.systems.len()
        }
    }
}

/// Whether an item of a notice speaks of an entry that there is, and of systems of the deck alone.
fn is_item_of(deck: &Deck, item: &Moved) -> bool
    requires { length deck.now.systems ≤ most_systems }
    ensures { result ≡ steps.is_item_of deck.now item.now }
{
    item.entry < deck.entries
        && (item.manager.0 as usize) < deck.systems.len()
        && item.mask < 1 << deck.systems.len()
}

/// Items of a notice without those that name what isn't of the deck.
fn items_of_deck(deck: &Deck, moved: List<Moved>) -> List<Moved>
    requires { length deck.now.systems ≤ most_systems }
    ensures { result ≡ filter (steps.is_item_of deck.now) moved }
{
    let mut items = moved.into_vec();
    items.retain(|item| is_item_of(deck, item));
    List::from_vec(items)
}

/// Records of a part without those of tasks that aren't of the deck.
fn records_of_deck(deck: &Deck, records: List<PartRec>) -> List<PartRec>
    ensures { result ≡ filter (λ r. steps.is_of_deck deck.now r.task) records }
{
    let mut items = records.into_vec();
    items.retain(|rec| is_of_deck(deck, rec.task));
    List::from_vec(items)
}

/// What the system decided on a request of its own task as the manager of its entry is told: the asker's answer first, then
/// control for the own tasks that became owners.
#[tactic(auto, using(crate::proofs::Kept::kept))]
fn tell_ranked(
    alloc: Global,
    tasks: &mut Tasks,
    req: &Req,
    outcome: Outcome,
) -> Result<(), NoMemory>
    requires { is_task tasks.old req.now.task ≡ true }
    ensures step { OnOk result (tasks.new ≡ replies.tell_new (client.tell_answer_any_ranked tasks.old req.now.task outcome.answer outcome.rank (state_of tasks.old req.now.task).outstanding) (res_wanted req.now.want) outcome.owners) }
    ensures system { tasks.new.system ≡ tasks.old.system }
    ensures count { length tasks.new.tasks ≡ length tasks.old.tasks }
{
    let Outcome {
        answer,
        rank,
        owners,
    } = outcome;
    tell_answer_ranked(alloc, tasks, req.task, answer, rank)?;
    tell_new(tasks, res_of(&req.want), owners.as_slice())
}

/// The system manages an entry from now on. The lists of one that it didn't manage are empty.
fn manage(manager: &mut Manager, entry: u32) -> Result<(), NoMemory>
    requires { entry < length manager.old.entries }
    ensures { OnOk result (manager.new ≡ star.managing manager.old entry) }
{
    if manager.manages(entry) {
        return Ok(());
    }
    manager.begin(entry)
}

/// The system manages an entry no longer.
fn give_up(manager: &mut Manager, entry: u32)
    requires { (length (items_of (managed_at manager.old entry)) == 0) ≡ true }
    ensures { manager.new ≡ star.not_managing manager.old entry }
{
    if manager.manages(entry) {
        manager.end(entry);
    }
}

impl StarPart {
    /// The system has interest in an entry, or none.
    #[tactic(auto, using(crate::proofs::Flags::flags))]
    fn set_interest(&mut self, entry: u32, has: bool)
        ensures { self.new ≡ star.with_interest self.old entry has }
    {
        if (entry as usize) < self.interest.len() {
            self.interest[entry as usize] = has;
        }
    }

    /// The lock entry of what a task asks for.
    fn entry_asked(&self, asked: Option<&Asked>) -> Option<u32>
        ensures entry { result ≡ star.entry_asked self.now (option_copied asked.entry) }
        ensures below { IfSome result (λ entry. entry < length self.now.manager.entries) }
    {
        match asked {
            None => None,
            Some(asked) => self.manager.entry_wanted(&asked.req.want),
        }
    }

    /// The system manages an entry from now on, and has interest in it. The lists of one that it didn't manage are empty.
    fn begin(&mut self, entry: u32) -> Result<(), NoMemory>
        requires below { entry < length self.old.manager.entries }
        ensures { OnOk result (self.new ≡ star.begun self.old entry) }
    {
        manage(&mut self.manager, entry)?;
        self.set_interest(entry, true);
        Ok(())
    }

    /// The system decides a request of a task of its own as the manager of its entry, and it is told.
    #[tactic(auto, using(crate::proofs::Kept::kept))]
    fn decide_req(&mut self, alloc: Global, tasks: &mut Tasks, req: &Req) -> Result<(), NoMemory>
        requires task { is_task tasks.old req.now.task ≡ true }
        requires serves { star.serves self.old req.now ≡ true }
        ensures tasks { OnOk result (tasks.new ≡ replies.tell_new (client.tell_answer_any_ranked tasks.old req.now.task (star.answer_for self.old req.now) (star.rank_of self.old req.now) (state_of tasks.old req.now.task).outstanding) (res_wanted req.now.want) (star.owners_by self.old req.now)) }
        ensures part { OnOk result (self.new ≡ record self.old { manager = after_request self.old.manager req.now.task req.now.want }) }
        ensures system { tasks.new.system ≡ tasks.old.system }
        ensures count { length tasks.new.tasks ≡ length tasks.old.tasks }
    {
        let outcome = self.manager.own_request(req)?;
        tell_ranked(alloc, tasks, req, outcome)
    }

    /// The system decides the request of a task of its own, if it has one, as the manager of its entry: the asker's answer
    /// first, then control for the own tasks that became owners.
    #[tactic(auto, using(crate::proofs::Kept::kept), unfolding(crate::specs::Star::decide_own))]
    pub(crate) fn decide_own(
        &mut self,
        alloc: Global,
        tasks: &mut Tasks,
        task: TaskId,
    ) -> Result<List<Fixed>, NoMemory>
        requires task { is_task tasks.old task ≡ true }
        requires serves { star.manages_if_asked self.old (state_of tasks.old task).outstanding ≡ true }
        ensures step { IfOk result (λ fixed. starred tasks.new self.new fixed ≡ star.own_step tasks.old self.old task (state_of tasks.old task).outstanding) }
        ensures system { tasks.new.system ≡ tasks.old.system }
        ensures count { length tasks.new.tasks ≡ length tasks.old.tasks }
    {
        let Some(asked) = tasks.asked(task) else {
            return Ok(List::new(alloc));
        };
        let req = request_of(alloc, task, asked)?;
        self.decide_req(alloc, tasks, &req)?;
        asked_alone(alloc, req)
    }

    /// The system manages the entry of a task's request from now on, if it didn't before, and decides it.
    #[tactic(auto, using(crate::proofs::Calls::begins))]
    fn begin_own(
        &mut self,
        alloc: Global,
        tasks: &mut Tasks,
        task: TaskId,
    ) -> Result<List<Fixed>, NoMemory>
        requires task { is_task tasks.old task ≡ true }
        ensures step { IfOk result (λ fixed. starred tasks.new self.new fixed ≡ star.begin_at tasks.old self.old task (state_of tasks.old task).outstanding (star.entry_asked self.old (state_of tasks.old task).outstanding)) }
        ensures system { tasks.new.system ≡ tasks.old.system }
        ensures count { length tasks.new.tasks ≡ length tasks.old.tasks }
    {
        match self.entry_asked(tasks.asked(task)) {
            None => Ok(List::new(alloc)),
            Some(entry) => {
                self.begin(entry)?;
                self.decide_own(alloc, tasks, task)
            }
        }
    }

    /// A task's request went to the manager of its entry.
    #[tactic(auto, using(crate::proofs::Kept::kept, crate::proofs::Little::phases))]
    fn sent(&mut self, tasks: &mut Tasks, task: TaskId)
        requires { is_task tasks.old task ≡ true }
        ensures step { starred tasks.new self.new [] ≡ star.sent_to tasks.old self.old task (star.entry_asked self.old (state_of tasks.old task).outstanding) }
        ensures system { tasks.new.system ≡ tasks.old.system }
        ensures count { length tasks.new.tasks ≡ length tasks.old.tasks }
        ensures told { tasks.new.told ≡ tasks.old.told }
    {
        if let Some(entry) = self.entry_asked(tasks.asked(task)) {
            self.set_interest(entry, true);
            tasks.set_phase(task, Phase::Sent);
        }
    }

    /// What the reply to a request that was to be sent comes to, by which more than little happens.
    fn finish_send(
        &mut self,
        alloc: Global,
        tasks: &mut Tasks,
        task: TaskId,
        reply: &Reply,
    ) -> Result<List<Fixed>, NoMemory>
        requires call { star.was_prepared tasks.old self.old (Send task) ≡ true }
        requires more { needs_no_memory reply.now ≡ false }
        ensures step { IfOk result (λ fixed. starred tasks.new self.new fixed ≡ star.send_step tasks.old self.old task reply.now) }
        ensures system { tasks.new.system ≡ tasks.old.system }
        ensures count { length tasks.new.tasks ≡ length tasks.old.tasks }
    {
        match reply {
            Reply::Sole => self.begin_own(alloc, tasks, task),
            _ => Ok(List::new(alloc)),
        }
    }

    /// Whether a request of another system is to be held: it is of this entry, which the system manages or gathers, and its
    /// system isn't known to be removed.
    fn is_held_for(&self, known: u32, entry: u32, req: &Req) -> bool
        requires { req.now.task.system.0 < most_systems }
        ensures { result ≡ star.is_held_for known self.now entry req.now }
    {
        self.is_req_of(entry, req)
            && (self.manager.manages(entry) || self.gathers.has(entry))
            && !has_system(known, req.task.system)
    }

    /// A request of another system is held last, where it is of this entry and the system manages or gathers it. One of a
    /// system that is known to be removed is dropped.
    fn hold(&mut self, known: u32, entry: u32, req: Req) -> Result<(), NoMemory>
        requires { req.task.system.0 < most_systems }
        ensures { OnOk result (self.new ≡ star.with_held known self.old entry req) }
    {
        if !self.is_held_for(known, entry, &req) {
            return Ok(());
        }
        match self.held.push_back(req) {
            Ok(()) => Ok(()),
            Err(_) => Err(NoMemory),
        }
    }

    /// A mail was taken from the inbox, at a system that knows this set of systems to be removed. Its tasks have these names.
    /// The items of a notice, and the records of a part, that name what isn't of the deck have no effect.
    #[tactic(auto, using(crate::proofs::Fits::senders_fit), unfolding(crate::specs::Node::took_mail, star_client::specs::Client::after_mail))]
    fn took(
        &mut self,
        alloc: Global,
        deck: &Deck,
        tasks: &mut Tasks,
        names: &[TaskId],
        known: u32,
        mail: Mail,
    ) -> Result<(), NoMemory>
        requires names { names.now ≡ names_of deck.now tasks.old.system }
        requires orderly { IsOrderly self.old }
        requires few { length deck.now.systems ≤ most_systems }
        requires mail { steps.is_for_deck deck.now mail ≡ true }
        ensures step { OnOk result (starred tasks.new self.new [] ≡ steps.took_mail deck.now known tasks.old self.old mail) }
        ensures system { tasks.new.system ≡ tasks.old.system }
        ensures count { length tasks.new.tasks ≡ length tasks.old.tasks }
    {
        match mail {
            Mail::Request { entry, req, .. } => self.hold(known, entry, req),
            Mail::Notice { moved, .. } => {
                let items = items_of_deck(deck, moved);
                self.took_notice(alloc, tasks, names, known, items.as_slice())
            }
            Mail::Part {
                entry,
                from,
                records,
            } => {
                let records = records_of_deck(deck, records);
                self.took_part(alloc, tasks, names, known, entry, from, records)
            }
            mail => on_mail(alloc, tasks, mail),
        }
    }

    /// A mail was taken. One that names what isn't of the deck has no effect.
    fn take(
        &mut self,
        alloc: Global,
        deck: &Deck,
        tasks: &mut Tasks,
        names: &[TaskId],
        known: u32,
        mail: Mail,
    ) -> Result<(), NoMemory>
        requires names { names.now ≡ names_of deck.now tasks.old.system }
        requires orderly { IsOrderly self.old }
        requires few { length deck.now.systems ≤ most_systems }
        ensures step { OnOk result (starred tasks.new self.new [] ≡ steps.take_mail deck.now known tasks.old self.old mail) }
        ensures system { tasks.new.system ≡ tasks.old.system }
        ensures count { length tasks.new.tasks ≡ length tasks.old.tasks }
    {
        if is_for_deck(deck, &mail) {
            self.took(alloc, deck, tasks, names, known, mail)
        } else {
            Ok(())
        }
    }

    /// What the reply to a Take comes to.
    fn finish_take(
        &mut self,
        alloc: Global,
        deck: &Deck,
        tasks: &mut Tasks,
        names: &[TaskId],
        known: u32,
        reply: Reply,
    ) -> Result<List<Fixed>, NoMemory>
        requires names { names.now ≡ names_of deck.now tasks.old.system }
        requires orderly { IsOrderly self.old }
        requires few { length deck.now.systems ≤ most_systems }
        ensures step { IfOk result (λ fixed. starred tasks.new self.new fixed ≡ steps.take_step deck.now known tasks.old self.old reply) }
        ensures system { tasks.new.system ≡ tasks.old.system }
        ensures count { length tasks.new.tasks ≡ length tasks.old.tasks }
    {
        match reply {
            Reply::Taken { mail } => {
                self.take(alloc, deck, tasks, names, known, mail)?;
                Ok(List::new(alloc))
            }
            _ => Ok(List::new(alloc)),
        }
    }

    /// Takes the first request out that is held of an entry that isn't gathered.
    #[tactic(auto, using(crate::proofs::Settled::firsts))]
    fn pop_first(&mut self) -> Option<Req>
        ensures first { result ≡ star.first_held self.old }
        ensures rest { IfSome result (λ _. self.new ≡ record self.old { held = star.besides_first (star.may_settle self.old) self.old.held }) }
        ensures same { IfNone result (self.new ≡ self.old) }
    {
        match self.first_place() {
            Some(place) => self.held.remove(place),
            None => None,
        }
    }

    /// It was settled: control for the own tasks that became owners.
    #[tactic(auto, using(crate::proofs::Settled::first_is_served))]
    fn settled(&mut self, alloc: Global, tasks: &mut Tasks) -> Result<List<Fixed>, NoMemory>
        requires { IsOrderly self.old }
        ensures step { IfOk result (λ fixed. starred tasks.new self.new fixed ≡ star.settled_by tasks.old self.old (star.first_held self.old)) }
        ensures system { tasks.new.system ≡ tasks.old.system }
        ensures count { length tasks.new.tasks ≡ length tasks.old.tasks }
    {
        let Some(req) = self.pop_first() else {
            return Ok(List::new(alloc));
        };
        let outcome = self.manager.settle(&req)?;
        tell_new(tasks, res_of(&req.want), outcome.owners.as_slice())?;
        asked_alone(alloc, req)
    }

    /// The interest in an entry was given up.
    fn left(&mut self, entry: u32)
        requires { star.is_done_with self.old entry ≡ true }
        ensures { self.new ≡ star.left_at self.old entry }
    {
        give_up(&mut self.manager, entry);
        self.set_interest(entry, false);
    }

    /// This owner of another system was told, if there is one.
    fn told_owner(&mut self, owner: Option<(TaskId, Res)>)
        ensures { self.new ≡ star.told_by self.old owner }
    {
        if let Some((task, res)) = owner {
            if self.manager.serves_res(&res) {
                self.manager.mark_told(task, &res);
            }
        }
    }

    /// What a reply to a Send comes to, by which little happens.
    fn send_answered(&mut self, tasks: &mut Tasks, task: TaskId, reply: &Reply)
        requires task { is_task tasks.old task ≡ true }
        requires little { needs_no_memory reply.now ≡ true }
        ensures step { starred tasks.new self.new [] ≡ star.send_step tasks.old self.old task reply.now }
        ensures system { tasks.new.system ≡ tasks.old.system }
        ensures count { length tasks.new.tasks ≡ length tasks.old.tasks }
        ensures told { tasks.new.told ≡ tasks.old.told }
    {
        match reply {
            Reply::Sent => self.sent(tasks, task),
            Reply::Sole => unreachable!(),
            _ => {}
        }
    }

    /// What a reply to a Tell comes to, by which little happens, where it is known who was told.
    fn tell_answered(&mut self, tasks: &Tasks, entry: u32, reply: &Reply, next: Option<ToldNext>)
        requires next { next ≡ Some (record { entry = entry; owner = star.to_tell self.old entry }) }
        ensures { starred tasks.now self.new [] ≡ star.tell_step tasks.now self.old entry reply.now }
    {
        if let Reply::Told = reply {
            if let Some(next) = next {
                self.told_owner(next.owner);
            }
        }
    }

    /// What a reply to a Tell that sends a part comes to, by which little happens.
    fn part_answered(&mut self, tasks: &Tasks, entry: u32, reply: &Reply)
        ensures { starred tasks.now self.new [] ≡ star.part_step tasks.now self.old entry reply.now }
    {
        if let Reply::Told = reply {
            self.owes.set(entry, None);
        }
    }

    /// What a reply to a Leave comes to, by which little happens.
    fn leave_answered(&mut self, tasks: &Tasks, entry: u32, reply: &Reply)
        requires { star.may_leave self.old tasks.now entry ≡ true }
        ensures { starred tasks.now self.new [] ≡ star.leave_step tasks.now self.old entry reply.now }
    {
        if let Reply::Left = reply {
            self.left(entry);
        }
    }

    /// What a reply to a call of star mode comes to, by which little happens. It takes no memory.
    #[tactic(auto, using(crate::proofs::Little::little))]
    pub(crate) fn answered(
        &mut self,
        tasks: &mut Tasks,
        choice: Choice,
        reply: &Reply,
        next: Option<ToldNext>,
    )
        requires call { star.was_prepared tasks.old self.old choice ≡ true }
        requires little { needs_no_memory reply.now ≡ true }
        requires next { is_tell choice ≡ true → next ≡ Some (next_for (Some self.old) choice) }
        ensures step { (deck : DeckValue) (known : ℕ) → starred tasks.new self.new [] ≡ steps.star_step deck known tasks.old self.old choice reply.now }
        ensures system { tasks.new.system ≡ tasks.old.system }
        ensures count { length tasks.new.tasks ≡ length tasks.old.tasks }
        ensures told { tasks.new.told ≡ tasks.old.told }
    {
        match choice {
            Choice::Send(task) => self.send_answered(tasks, task, reply),
            Choice::Tell(entry) => self.tell_answered(tasks, entry, reply, next),
            Choice::Part(entry) => self.part_answered(tasks, entry, reply),
            Choice::Leave(entry) => self.leave_answered(tasks, entry, reply),
            Choice::Take
            | Choice::Settle
            | Choice::Task(_)
            | Choice::Turn
            | Choice::Switch
            | Choice::Purge(_)
            | Choice::Rest => {}
        }
    }

    /// What the reply to a Settle comes to.
    fn finish_settle(
        &mut self,
        alloc: Global,
        tasks: &mut Tasks,
        reply: &Reply,
    ) -> Result<List<Fixed>, NoMemory>
        requires { IsOrderly self.old }
        ensures step { IfOk result (λ fixed. starred tasks.new self.new fixed ≡ star.settle_step tasks.old self.old reply.now) }
        ensures system { tasks.new.system ≡ tasks.old.system }
        ensures count { length tasks.new.tasks ≡ length tasks.old.tasks }
    {
        match reply {
            Reply::Settled => self.settled(alloc, tasks),
            _ => Ok(List::new(alloc)),
        }
    }

    /// What the reply to a call of star mode other than a Take comes to, by which more than little happens.
    #[tactic(auto, using(crate::proofs::Little::more))]
    fn finish_by(
        &mut self,
        alloc: Global,
        tasks: &mut Tasks,
        choice: Choice,
        reply: &Reply,
    ) -> Result<List<Fixed>, NoMemory>
        requires call { star.was_prepared tasks.old self.old choice ≡ true }
        requires other { choice ≢ Take }
        requires more { needs_no_memory reply.now ≡ false }
        requires orderly { IsOrderly self.old }
        ensures step { (deck : DeckValue) (known : ℕ) → IfOk result (λ fixed. starred tasks.new self.new fixed ≡ steps.star_step deck known tasks.old self.old choice reply.now) }
        ensures system { tasks.new.system ≡ tasks.old.system }
        ensures count { length tasks.new.tasks ≡ length tasks.old.tasks }
    {
        match choice {
            Choice::Send(task) => self.finish_send(alloc, tasks, task, reply),
            Choice::Settle => self.finish_settle(alloc, tasks, reply),
            Choice::Tell(_)
            | Choice::Part(_)
            | Choice::Leave(_)
            | Choice::Task(_)
            | Choice::Turn
            | Choice::Take
            | Choice::Switch
            | Choice::Purge(_)
            | Choice::Rest => Ok(List::new(alloc)),
        }
    }

    /// What the reply to a call of star mode comes to, by which more than little happens, at a system that knows this set of
    /// systems to be removed.
    pub(crate) fn finish(
        &mut self,
        alloc: Global,
        deck: &Deck,
        tasks: &mut Tasks,
        names: &[TaskId],
        known: u32,
        choice: Choice,
        reply: Reply,
    ) -> Result<List<Fixed>, NoMemory>
        requires call { star.was_prepared tasks.old self.old choice ≡ true }
        requires more { needs_no_memory reply ≡ false }
        requires names { names.now ≡ names_of deck.now tasks.old.system }
        requires orderly { IsOrderly self.old }
        requires few { length deck.now.systems ≤ most_systems }
        ensures step { IfOk result (λ fixed. starred tasks.new self.new fixed ≡ steps.star_step deck.now known tasks.old self.old choice reply) }
        ensures system { tasks.new.system ≡ tasks.old.system }
        ensures count { length tasks.new.tasks ≡ length tasks.old.tasks }
    {
        match choice {
            Choice::Take => self.finish_take(alloc, deck, tasks, names, known, reply),
            choice => self.finish_by(alloc, tasks, choice, &reply),
        }
    }
}
