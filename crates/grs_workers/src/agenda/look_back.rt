//! What a system's agenda makes of what happened: whether the event that was picked last changed the system, what its call was replied,
//! and that the system was woken. No clause rests on it.

use super::{Agenda, Last, Then, add_ready};
use grs_base::{NoMemory, TaskId};
use grs_node::Node;
use grs_wire::{Choice, Mail, Reply, StepDone, ToldLine};

/// The task that a line tells something.
fn told_task(line: &ToldLine) -> Option<TaskId> {
    match line {
        ToldLine::Coded {
            task,
            k: _,
            part: _,
            verb: _,
            code: _,
        }
        | ToldLine::Shown {
            task,
            k: _,
            verb: _,
            code: _,
            rows: _,
        }
        | ToldLine::Post { task, k: _ }
        | ToldLine::Ended { task, code: _ } => Some(*task),
        ToldLine::Desk { k: _, said: _ } => None,
    }
}

impl Agenda {
    /// A call was answered Stale, so that what it asked is asked again.
    fn ask_if_stale(&mut self) {
        if self.stale {
            self.stale = false;
            self.at_rest = false;
            self.then = Then::Turn;
        }
    }

    /// Whether a system at rest is so still behind the event that was picked last: behind a rest, and a turn that only passed the message
    /// on. The message comes to none at rest, so one that took itself for woken wouldn't rest again, and never be told that all is over.
    fn keeps_rest(&self) -> bool {
        matches!(self.last, Last::Turn | Last::Rest) && !self.brought
    }

    /// The event that was picked last is in the log, so that each choice may have something to do: also a rest, since behind one that was
    /// answered Stale the system may have owners to tell. It fixed or told something, or didn't.
    fn changed(&mut self, got_on: bool) {
        match self.last {
            Last::Turn | Last::Rest => self.busy = self.busy || got_on || self.brought,
            Last::Nothing | Last::Choice | Last::Look => self.busy = true,
            Last::Leave => {}
        }
        self.at_rest = self.at_rest && self.keeps_rest();
        self.has_changed = true;
        self.desk_was_tried = false;
        if !matches!(self.last, Last::Leave) {
            self.entry = 0;
        }
        self.left = self.tries.len();
        if matches!(self.then, Then::Nothing) {
            self.then = Then::Rest;
        }
        self.ask_if_stale();
        if !matches!(self.last, Last::Look) {
            self.last = Last::Nothing;
        }
    }

    /// The event that was picked last changed nothing.
    fn unchanged(&mut self) {
        match self.last {
            Last::Leave => self.entry = self.entry.saturating_add(1),
            Last::Choice => self.move_on(),
            Last::Nothing | Last::Turn | Last::Look | Last::Rest => {}
        }
        self.last = Last::Nothing;
    }

    /// The system came into star mode, so that more choices can have something to do.
    fn enter_star(&mut self) {
        std::mem::swap(&mut self.tries, &mut self.later);
        self.star = true;
        self.at_rest = false;
        self.next = 0;
        self.left = self.tries.len();
        self.then = Then::Turn;
    }

    /// The task of the last event may get on, and each other that it told something.
    fn make_ready(&mut self, step: &StepDone) -> Result<(), NoMemory> {
        let own = match step.choice {
            Choice::Task(task) | Choice::Send(task) => Some(task),
            _ => None,
        };
        if let Some(task) = own {
            add_ready(&mut self.ready, task)?;
        }
        for line in step.told.as_slice() {
            if matches!(line, ToldLine::Ended { task: _, code: _ }) {
                self.open = self.open.saturating_sub(1);
            }
            match told_task(line) {
                Some(task) if own != Some(task) => add_ready(&mut self.ready, task)?,
                Some(_) | None => {}
            }
        }
        Ok(())
    }

    /// In the lock entry of the last call's request there may be owners to tell.
    fn keep_asked(&mut self) -> Result<(), NoMemory> {
        let Some(entry) = self.asked else {
            return Ok(());
        };
        self.asked = None;
        match self.served.push_back(entry) {
            Ok(()) => Ok(()),
            Err(_) => Err(NoMemory),
        }
    }

    /// Sees whether the event that was picked last changed the system.
    pub(crate) fn look_back(&mut self, node: &Node<'_>) -> Result<(), NoMemory> {
        if !self.star && node.known_at_turn().is_none() {
            self.enter_star();
        }
        self.keep_asked()?;
        let steps = node.log();
        match steps.last() {
            Some(step) if steps.len() != self.steps => {
                self.steps = steps.len();
                self.make_ready(step)?;
                self.changed(step.fixed.len() != 0 || step.told.len() != 0);
            }
            Some(_) | None => self.unchanged(),
        }
        Ok(())
    }

    /// What the last call was replied. Where a lock entry has another manager than the system knows, the mail that says so lies in its
    /// inbox, so that a look is due.
    pub(crate) fn replied(&mut self, reply: &Reply) {
        self.stale = matches!(reply, Reply::Stale { set: _ });
        if matches!(reply, Reply::Yours | Reply::Old) {
            self.ask();
        }
        self.brought = match reply {
            Reply::Turned {
                entries,
                taken,
                closed: _,
            } => {
                self.in_vain = entries.len() == 0 && *taken == 0;
                !self.in_vain
            }
            Reply::Empty => {
                self.in_vain = true;
                false
            }
            Reply::Taken { mail: _ } => true,
            _ => false,
        };
        self.asked = match reply {
            Reply::Taken {
                mail: Mail::Request {
                    entry,
                    from: _,
                    req: _,
                },
            } => {
                self.holds = true;
                Some(*entry)
            }
            Reply::Sole => self.asked,
            _ => None,
        };
    }

    /// Whether it has come to rest, and nothing happened since that undoes that.
    pub(crate) fn at_rest(&self) -> bool {
        self.at_rest
    }

    /// The medium may have changed, so that a turn, or a look into the inbox, is due.
    pub(crate) fn ask(&mut self) {
        self.then = Then::Turn;
    }

    /// The system was woken, by others that had something for it, or since all others sleep.
    pub(crate) fn wake(&mut self, alone: bool) {
        self.ask();
        self.in_vain = alone;
        self.busy = false;
        self.desk_was_tried = false;
    }
}
