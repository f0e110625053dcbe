//! In which order a worker tries the choices of its system. Clauses say that the system may do what is picked (`MayDo`), and nothing of
//! the order.
ghost use Rattle.std.specs.Prelude.{◌≡◌, false, IfOk, IfSome};
ghost use Rattle.grs_node.specs.Node.{is_pending};
ghost use Rattle.grs_workers.specs.Stands.{is_leave, IsSameNode, MayDo};

mod look_back;

use grs_base::{List, NoMemory, SysId, TaskId};
use grs_node::{Node, Prepared};
use grs_wire::{Act, Call, Choice, Deck, Desk, JobDef, Order};
use std::alloc::Global;
use std::collections::VecDeque;
use std::thread;

/// A command of the desk, and behind how many events of the system it is tried where there is something else to do.
#[derive(Clone, Copy)]
struct Command {
    after: u64,
    order: Order,
}

/// What was picked last, as long as nobody has looked back at it.
#[derive(Clone, Copy)]
enum Last {
    Nothing,
    Choice,
    Leave,
    Turn,
    /// A look into the inbox.
    Look,
    Rest,
}

/// What is asked next where no choice has anything to do.
#[derive(Clone, Copy)]
enum Then {
    /// A turn, or a look into the inbox.
    Turn,
    /// What is left of the desk, and a rest, since a turn or a look was asked.
    Rest,
    /// All was asked.
    Nothing,
}

/// The choices of a system, which are tried one after the other and round again while the system changes, and where it is among
/// them.
#[derive(Drop)]
pub(crate) struct Agenda {
    tries: List<Choice>,
    /// Those of star mode, until the system is in it.
    later: List<Choice>,
    desk: List<Command>,
    star: bool,
    /// The tasks that may get on, in turn: all of them at first, and then those that just did, or were told something. They are tried
    /// ahead of the other choices.
    ready: VecDeque<TaskId>,
    /// How many of its tasks have yet to end.
    open: usize,
    /// Requests of other systems were taken from the inbox since there was none to settle.
    holds: bool,
    /// The lock entry of the request that the last call took from the inbox, or sent to the system itself.
    asked: Option<u32>,
    /// The lock entries of these requests and those, in which there may be owners to tell.
    served: VecDeque<u32>,
    /// Where it is among the tries, and how many of them are left since the system changed.
    next: usize,
    left: usize,
    /// How many lock entries there are, and in which of them interest is given up next.
    entries: u32,
    entry: u32,
    last: Last,
    then: Then,
    /// How many steps the log had when somebody looked back last.
    steps: usize,
    /// The system changed since commands of the desk were tried that are due.
    has_changed: bool,
    /// What is left of the desk was tried since the system changed or was woken last.
    desk_was_tried: bool,
    /// A task or a request of the system got on since it was woken last. It rests only where none did, since else it will hear more.
    busy: bool,
    /// The last call brought entries or mail.
    brought: bool,
    /// Since it was woken last, the message came and brought nothing, or the inbox was empty, or all others slept.
    in_vain: bool,
    /// It has come to rest, and nothing happened since that undoes that in the medium.
    at_rest: bool,
    /// The last call was answered Stale, so that what it asked is to be asked again.
    stale: bool,
}

/// Adds that each task of these jobs of a system goes on, and, in star mode, that it sends.
fn add_tasks(
    tries: &mut List<Choice>,
    system: SysId,
    jobs: &[JobDef],
    sends: bool,
) -> Result<(), NoMemory> {
    let mut task = 0u16;
    let mut job = 0u16;
    for def in jobs {
        for _ in 0..def.tasks.len() {
            let of_deck = TaskId { system, job, task };
            tries.push(Choice::Task(of_deck))?;
            if sends {
                tries.push(Choice::Send(of_deck))?;
            }
            task = task.saturating_add(1);
        }
        job = job.saturating_add(1);
    }
    Ok(())
}

/// The tasks that go on by these choices.
fn tasks_of(alloc: Global, tries: &[Choice]) -> Result<VecDeque<TaskId>, NoMemory> {
    let mut tasks = VecDeque::new(alloc);
    for choice in tries {
        if let Choice::Task(task) = choice {
            add_ready(&mut tasks, *task)?;
        }
    }
    Ok(tasks)
}

/// The task is tried behind those that may get on already.
fn add_ready(ready: &mut VecDeque<TaskId>, task: TaskId) -> Result<(), NoMemory> {
    match ready.push_back(task) {
        Ok(()) => Ok(()),
        Err(_) => Err(NoMemory),
    }
}

/// The lock entry of a request that is to be sent.
fn entry_asked(prepared: &Prepared) -> Option<u32> {
    match prepared {
        Prepared::Call(
            Call {
                known: _,
                act: Act::Submit { entry, req: _ },
            },
        ) => Some(*entry),
        _ => None,
    }
}

/// Adds that owners are told in each of so many lock entries, and that the part of each is sent that is owed.
fn add_entries(tries: &mut List<Choice>, entries: u32) -> Result<(), NoMemory> {
    for entry in 0..entries {
        tries.push(Choice::Tell(entry))?;
        tries.push(Choice::Part(entry))?;
    }
    Ok(())
}

/// The commands of a desk.
fn commands(alloc: Global, desk: &[Desk]) -> Result<List<Command>, NoMemory> {
    let mut commands = List::new(alloc);
    for line in desk {
        commands.push(Command {
            after: u64::from(line.at),
            order: line.order,
        })?;
    }
    Ok(commands)
}

/// The choice to carry out a command.
fn to_order(order: Order) -> Choice
    ensures { is_leave result ≡ false }
{
    match order {
        Order::Star => Choice::Switch,
        Order::Vary(target) => Choice::Purge(target),
    }
}

/// The choice that there always is: a turn in ring mode, and else a look into the inbox.
#[tactic(auto, using(crate::proofs::Choices::choices))]
fn turn_or_take(node: &mut Node<'_>) -> Result<(Choice, Prepared), NoMemory>
    ensures same { IsSameNode node.old node.new }
    ensures may_do { IfOk result (MayDo node.new) }
{
    match node.prepare(&Choice::Turn)? {
        Prepared::Nothing => Ok((Choice::Take, node.prepare(&Choice::Take)?)),
        prepared => Ok((Choice::Turn, prepared)),
    }
}

impl Agenda {
    /// The choices of a system of a deck: its tasks go on, its desk commands; and in star mode its requests are sent, settled
    /// and told, its parts are sent, and its interest in lock entries is given up.
    pub(crate) fn new(alloc: Global, deck: &Deck, system: SysId) -> Result<Agenda, NoMemory> {
        let mut tries = List::new(alloc);
        let mut later = List::new(alloc);
        let mut desk = List::new(alloc);
        if let Some(def) = deck.systems.as_slice().get(system.0 as usize) {
            add_tasks(&mut tries, system, def.jobs.as_slice(), false)?;
            add_tasks(&mut later, system, def.jobs.as_slice(), true)?;
            desk = commands(alloc, def.desk.as_slice())?;
        }
        later.push(Choice::Settle)?;
        add_entries(&mut later, deck.entries)?;
        let ready = tasks_of(alloc, tries.as_slice())?;
        let left = tries.len();
        let open = tries.len();
        Ok(Agenda {
            tries,
            later,
            desk,
            star: false,
            ready,
            open,
            holds: false,
            asked: None,
            served: VecDeque::new(alloc),
            next: 0,
            left,
            entries: deck.entries,
            entry: 0,
            last: Last::Nothing,
            then: Then::Turn,
            steps: 0,
            has_changed: true,
            desk_was_tried: false,
            busy: false,
            brought: false,
            in_vain: false,
            at_rest: false,
            stale: false,
        })
    }

    /// The choice where the system is among the tries.
    fn here(&self) -> Option<Choice>
        ensures { IfSome result (λ choice. is_leave choice ≡ false) }
    {
        match self.tries.as_slice().get(self.next) {
            Some(Choice::Leave(_)) | None => None,
            Some(choice) => Some(*choice),
        }
    }

    /// The system goes on to the next choice.
    fn move_on(&mut self) {
        self.left = self.left.saturating_sub(1);
        self.next = self.next.saturating_add(1);
        if self.next >= self.tries.len() {
            self.next = 0;
        }
    }

    /// What the choice comes to, if it has something to do.
    fn try_choice(
        &mut self,
        node: &mut Node<'_>,
        choice: Choice,
    ) -> Result<Option<(Choice, Prepared)>, NoMemory>
        requires { is_leave choice ≡ false }
        ensures same { IsSameNode node.old node.new }
        ensures may_do { IfOk result (λ o. IfSome o (MayDo node.new)) }
    {
        match node.prepare(&choice)? {
            Prepared::Nothing => Ok(None),
            prepared => {
                self.last = Last::Choice;
                Ok(Some((choice, prepared)))
            }
        }
    }

    /// The choice where the system is among the tries, if it has something to do. Else it goes on to the next one.
    fn try_here(&mut self, node: &mut Node<'_>) -> Result<Option<(Choice, Prepared)>, NoMemory>
        ensures same { IsSameNode node.old node.new }
        ensures may_do { IfOk result (λ o. IfSome o (MayDo node.new)) }
    {
        if let Some(choice) = self.here() {
            if let Some(found) = self.try_choice(node, choice)? {
                return Ok(Some(found));
            }
        }
        self.move_on();
        Ok(None)
    }

    /// The next of the choices that has something to do. Where nothing is pending none has.
    fn find(&mut self, node: &mut Node<'_>) -> Result<Option<(Choice, Prepared)>, NoMemory>
        ensures same { IsSameNode node.old node.new }
        ensures may_do { IfOk result (λ o. IfSome o (MayDo node.new)) }
    {
        if self.left == 0 || !node.pending() {
            self.left = 0;
            return Ok(None);
        }
        for _ in 0..self.left {
            if let Some(found) = self.try_here(node)? {
                return Ok(Some(found));
            }
        }
        Ok(None)
    }

    /// That a task sends, if it has something to send. The lock entry of its request is kept.
    fn try_send(
        &mut self,
        node: &mut Node<'_>,
        task: TaskId,
    ) -> Result<Option<(Choice, Prepared)>, NoMemory>
        ensures same { IsSameNode node.old node.new }
        ensures may_do { IfOk result (λ o. IfSome o (MayDo node.new)) }
    {
        let found = self.try_choice(node, Choice::Send(task))?;
        self.asked = match &found {
            Some((_, prepared)) => entry_asked(prepared),
            None => None,
        };
        Ok(found)
    }

    /// That a task goes on, or in star mode sends, if it has something to do.
    fn try_task(
        &mut self,
        node: &mut Node<'_>,
        task: TaskId,
    ) -> Result<Option<(Choice, Prepared)>, NoMemory>
        ensures same { IsSameNode node.old node.new }
        ensures may_do { IfOk result (λ o. IfSome o (MayDo node.new)) }
    {
        match self.try_choice(node, Choice::Task(task))? {
            None if self.star => self.try_send(node, task),
            found => Ok(found),
        }
    }

    /// The first of the tasks that may get on which has something to do.
    fn find_ready(&mut self, node: &mut Node<'_>) -> Result<Option<(Choice, Prepared)>, NoMemory>
        ensures same { IsSameNode node.old node.new }
        ensures may_do { IfOk result (λ o. IfSome o (MayDo node.new)) }
    {
        for _ in 0..self.ready.len() {
            let Some(task) = self.ready.pop_front() else {
                return Ok(None);
            };
            if let Some(found) = self.try_task(node, task)? {
                return Ok(Some(found));
            }
        }
        Ok(None)
    }

    /// What a manager does: the first request that is held is settled, or else an owner is told in one of the lock entries that were asked
    /// for, if there is something of that to do.
    fn serve(&mut self, node: &mut Node<'_>) -> Result<Option<(Choice, Prepared)>, NoMemory>
        ensures same { IsSameNode node.old node.new }
        ensures may_do { IfOk result (λ o. IfSome o (MayDo node.new)) }
    {
        if self.holds {
            if let Some(found) = self.try_choice(node, Choice::Settle)? {
                return Ok(Some(found));
            }
            self.holds = false;
        }
        for _ in 0..self.served.len() {
            let Some(entry) = self.served.front().copied() else {
                return Ok(None);
            };
            if let Some(found) = self.try_choice(node, Choice::Tell(entry))? {
                return Ok(Some(found));
            }
            let _ = self.served.pop_front();
        }
        Ok(None)
    }

    /// A command of the desk, if one has something to do: of those that are due, or of all.
    fn command(
        &mut self,
        node: &mut Node<'_>,
        all: bool,
    ) -> Result<Option<(Choice, Prepared)>, NoMemory>
        ensures same { IsSameNode node.old node.new }
        ensures may_do { IfOk result (λ o. IfSome o (MayDo node.new)) }
    {
        for place in 0..self.desk.len() {
            let Command { after, order } = match self.desk.as_slice().get(place) {
                Some(command) => *command,
                None => return Ok(None),
            };
            if all || after <= self.steps as u64 {
                if let Some(found) = self.try_choice(node, to_order(order))? {
                    return Ok(Some(found));
                }
            }
        }
        Ok(None)
    }

    /// A command of the desk that is due, once since the system changed.
    fn command_due(&mut self, node: &mut Node<'_>) -> Result<Option<(Choice, Prepared)>, NoMemory>
        ensures same { IsSameNode node.old node.new }
        ensures may_do { IfOk result (λ o. IfSome o (MayDo node.new)) }
    {
        if !self.has_changed {
            return Ok(None);
        }
        self.has_changed = false;
        self.command(node, false)
    }

    /// A command of the desk where there is nothing else to do, once since the system changed or was woken.
    fn command_left(&mut self, node: &mut Node<'_>) -> Result<Option<(Choice, Prepared)>, NoMemory>
        ensures same { IsSameNode node.old node.new }
        ensures may_do { IfOk result (λ o. IfSome o (MayDo node.new)) }
    {
        if self.desk_was_tried {
            return Ok(None);
        }
        self.desk_was_tried = true;
        self.command(node, true)
    }

    /// The next lock entry in which interest can be given up, where nothing is pending.
    fn leave(&mut self, node: &mut Node<'_>) -> Result<Option<(Choice, Prepared)>, NoMemory>
        requires { is_pending node.old.deck node.old.node ≡ false }
        ensures same { IsSameNode node.old node.new }
        ensures may_do { IfOk result (λ o. IfSome o (MayDo node.new)) }
    {
        for entry in self.entry..self.entries {
            let choice = Choice::Leave(entry);
            match node.prepare(&choice)? {
                Prepared::Nothing => {}
                prepared => {
                    self.entry = entry;
                    self.last = Last::Leave;
                    return Ok(Some((choice, prepared)));
                }
            }
        }
        self.entry = self.entries;
        Ok(None)
    }

    /// A turn, or a look into the inbox.
    fn turn(&mut self, node: &mut Node<'_>) -> Result<(Choice, Prepared), NoMemory>
        ensures same { IsSameNode node.old node.new }
        ensures may_do { IfOk result (MayDo node.new) }
    {
        let (choice, prepared) = turn_or_take(node)?;
        self.then = Then::Rest;
        self.last = Last::Turn;
        if matches!(choice, Choice::Take) {
            self.last = Last::Look;
        }
        Ok((choice, prepared))
    }

    /// A rest, if nothing is pending.
    fn rest(&mut self, node: &mut Node<'_>) -> Result<Option<(Choice, Prepared)>, NoMemory>
        ensures same { IsSameNode node.old node.new }
        ensures may_do { IfOk result (λ o. IfSome o (MayDo node.new)) }
    {
        self.then = Then::Nothing;
        match node.prepare(&Choice::Rest)? {
            Prepared::Nothing => Ok(None),
            prepared => {
                self.last = Last::Rest;
                self.at_rest = true;
                Ok(Some((Choice::Rest, prepared)))
            }
        }
    }

    /// Whether it would rest behind a turn or a look: none of its tasks and requests got on, and the last turn or look was in vain.
    fn would_rest(&self) -> bool {
        !self.busy && (self.in_vain || self.at_rest)
    }

    /// Interest in a lock entry is given up in star mode, where nothing is pending, once all tasks have ended or the system would rest. As
    /// long as they go on they are likely to want the entry again, and to see that they don't use it takes a look at each of them.
    fn leave_if(&mut self, node: &mut Node<'_>) -> Result<Option<(Choice, Prepared)>, NoMemory>
        ensures same { IsSameNode node.old node.new }
        ensures may_do { IfOk result (λ o. IfSome o (MayDo node.new)) }
    {
        let is_due = self.open == 0 || self.would_rest();
        if !is_due || !self.star || self.entry >= self.entries || node.pending() {
            return Ok(None);
        }
        self.leave(node)
    }

    /// Behind all other choices: a turn or a look into the inbox, and then what is left of the desk and a rest, each once until the
    /// system changes or is woken. Where it got on it doesn't rest, since it will hear more; but unless a task has a request on its way,
    /// it has nothing else to do, so that it tries what is left of the desk.
    fn turn_then_rest(
        &mut self,
        node: &mut Node<'_>,
    ) -> Result<Option<(Choice, Prepared)>, NoMemory>
        ensures same { IsSameNode node.old node.new }
        ensures may_do { IfOk result (λ o. IfSome o (MayDo node.new)) }
    {
        match self.then {
            Then::Turn => Ok(Some(self.turn(node)?)),
            Then::Rest if self.would_rest() => {
                match self.command_left(node)? {
                    None => self.rest(node),
                    found => Ok(found),
                }
            }
            Then::Rest | Then::Nothing if !node.awaits_answer() => self.command_left(node),
            Then::Rest | Then::Nothing => Ok(None),
        }
    }

    /// The next choice that has something to do, and what it comes to; none where there is nothing to do until the medium changes.
    /// Mail is taken until the inbox is empty. Then come commands of the desk that are due, the tasks that may get on, what requests
    /// want that were taken, and all choices, as long as the system changes.
    pub(crate) fn next(
        &mut self,
        node: &mut Node<'_>,
    ) -> Result<Option<(Choice, Prepared)>, NoMemory>
        ensures same { IsSameNode node.old node.new }
        ensures may_do { IfOk result (λ o. IfSome o (MayDo node.new)) }
    {
        self.look_back(node)?;
        if matches!(self.last, Last::Look) {
            return Ok(Some(self.turn(node)?));
        }
        if let Some(found) = self.command_due(node)? {
            return Ok(Some(found));
        }
        if let Some(found) = self.find_ready(node)? {
            return Ok(Some(found));
        }
        if let Some(found) = self.serve(node)? {
            return Ok(Some(found));
        }
        if let Some(found) = self.find(node)? {
            return Ok(Some(found));
        }
        if let Some(found) = self.leave_if(node)? {
            return Ok(Some(found));
        }
        self.turn_then_rest(node)
    }

    /// The next choice that has something to do, and what it comes to. Where there is nothing to do until the medium changes it is a
    /// turn or a look into the inbox, by turns with a rest; another thread may run before.
    pub(crate) fn pick(&mut self, node: &mut Node<'_>) -> Result<(Choice, Prepared), NoMemory>
        ensures same { IsSameNode node.old node.new }
        ensures may_do { IfOk result (MayDo node.new) }
    {
        match self.next(node)? {
            Some(found) => Ok(found),
            None => {
                thread::yield_now();
                self.wake(false);
                self.turn(node)
            }
        }
    }
}
