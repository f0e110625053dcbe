//! A system's part in star mode: the lock entries that it manages, the requests of other systems that it has still to
//! settle, and the entries in which it has interest. Here stands what an event of star mode asks of the medium; nothing
//! here changes anything.
ghost use Rattle.std.specs.Prelude.{◌≡◌, ◌≢◌, ◌<◌, ◌&&◌, true, false, length, replicate, IfOk};
ghost use Rattle.std.specs.List.{list_all, list_any, position};
ghost use Rattle.std.specs.Option.{option_copied};
ghost use Rattle.lock_structure.specs.Entries.{entry_of_res, is_entry};
ghost use Rattle.grs_node.specs.Node.{is_to_send};
ghost use Rattle.grs_node.specs.Removal.{IsOrderly};
ghost use Rattle.grs_node.specs.Star as star;

use contention_mgr::Manager;
use grs_base::{NoMemory, Res, SysId, TaskId};
use grs_wire::masks::has_system;
use grs_wire::{Act, Mail, Req};
use star_client::Owes;
use std::alloc::Global;
use std::collections::VecDeque;
use std::marker::Model;
use system_purge::{Gathers, part_of};
use task_state::{Asked, Phase, Records, TaskState, Tasks};

/// What an event of star mode needs.
#[derive(Drop)]
pub enum Need {
    /// This of the medium.
    Asks(Act),
    /// Nothing: there is nothing to do.
    Idle,
}

/// A system's part in star mode. `held` are requests of entries that it manages or gathers, in the order in which they
/// were taken from the inbox; `interest` has a flag for each lock entry.
#[derive(Drop)]
pub(crate) struct StarPart {
    pub(crate) manager: Manager,
    pub(crate) gathers: Gathers,
    pub(crate) owes: Owes,
    pub(crate) held: VecDeque<Req>,
    pub(crate) interest: Vec<bool>,
}

impl Model for StarPart {
    ghost use Rattle.grs_node.specs.Star as star;

    ghost Value = { star.StarPart };

    ghost view = { λ a. record { manager = a.manager; gathers = a.gathers; owes = a.owes; held = a.held.items; interest = a.interest.items } };
}

/// So many flags that aren't set.
fn no_flags(alloc: Global, count: u32) -> Result<Vec<bool>, NoMemory>
    ensures { IfOk result (λ flags. flags.items ≡ replicate count false) }
{
    let mut flags = Vec::new(alloc);
    for _ in 0..count {
        if flags.push(false).is_err() {
            return Err(NoMemory);
        }
    }
    Ok(flags)
}

/// Whether an entry is this one.
fn is_entry(entry: u32, at: Option<u32>) -> bool
    ensures { result ≡ is_entry entry at }
{
    match at {
        None => false,
        Some(other) => other == entry,
    }
}

/// Whether a request waits to be sent.
pub(crate) fn is_to_send(phase: &Phase) -> bool
    ensures { result ≡ is_to_send phase.now }
{
    matches!(phase, Phase::ToSend)
}

/// Whether a request of some task waits to be sent.
pub(crate) fn any_to_send(tasks: &[TaskState]) -> bool
    ensures { result ≡ list_any (λ x. is_to_send x.phase) tasks.now }
{
    tasks.iter().any(|state| is_to_send(&state.phase))
}

/// What a task asks for that isn't answered yet.
pub(crate) fn request_of(alloc: Global, task: TaskId, asked: &Asked) -> Result<Req, NoMemory>
    ensures { IfOk result (λ req. req ≡ star.request_of task asked.now) }
{
    let want = asked.req.want.copy(alloc)?;
    Ok(Req { task, want })
}

impl StarPart {
    /// The part of a system at the start: of so many lock entries it manages none.
    pub(crate) fn new(alloc: Global, system: SysId, entries: u32) -> Result<StarPart, NoMemory>
        requires { entries ≢ 0 }
        ensures { IfOk result (λ part. part ≡ star.first_part system entries) }
    {
        Ok(StarPart {
            manager: Manager::new(alloc, system, entries)?,
            gathers: Gathers::new(alloc, entries)?,
            owes: Owes::new(alloc, entries)?,
            held: VecDeque::new(alloc),
            interest: no_flags(alloc, entries)?,
        })
    }

    /// Whether a system has interest in an entry.
    #[tactic(auto, using(crate::proofs::Flags::flags))]
    fn has_interest(&self, entry: u32) -> bool
        ensures { result ≡ star.has_interest self.now entry }
    {
        if (entry as usize) < self.interest.len() {
            self.interest[entry as usize]
        } else {
            false
        }
    }

    /// Whether a resource is of an entry.
    fn is_of(&self, entry: u32, res: &Res) -> bool
        ensures { result ≡ is_entry entry (entry_of_res (length self.now.manager.entries) res.now) }
    {
        is_entry(entry, self.manager.entry_of(res))
    }

    /// Whether a request is of an entry.
    pub(crate) fn is_req_of(&self, entry: u32, req: &Req) -> bool
        ensures { result ≡ is_entry entry (star.entry_for self.now req.now.want) }
    {
        is_entry(entry, self.manager.entry_wanted(&req.want))
    }

    /// Whether a request that isn't answered yet is of an entry.
    pub(crate) fn asks_in(&self, entry: u32, asked: Option<&Asked>) -> bool
        ensures { result ≡ star.asks_in self.now entry (option_copied asked.entry) }
    {
        match asked {
            None => false,
            Some(asked) => self.is_req_of(entry, &asked.req),
        }
    }

    /// Whether one of these records is of an entry.
    fn any_record_of(&self, entry: u32, records: &Records) -> bool
        ensures { result ≡ list_any (λ y. is_entry entry (entry_of_res (length self.now.manager.entries) y.res)) records.now }
    {
        for rec in records.iter() {
            if self.is_of(entry, &rec.res) {
                return true;
            }
        }
        false
    }

    /// Whether a task has a request on record, or one that isn't answered yet, in an entry.
    fn is_busy_in(&self, entry: u32, state: &TaskState) -> bool
        ensures { result ≡ star.is_busy_in self.now entry state.now }
    {
        self.any_record_of(entry, &state.records) || self.asks_in(entry, state.outstanding.as_ref())
    }

    /// Whether some task does.
    fn any_busy_in(&self, entry: u32, tasks: &[TaskState]) -> bool
        ensures { result ≡ list_any (star.is_busy_in self.now entry) tasks.now }
    {
        tasks.iter().any(|state| self.is_busy_in(entry, state))
    }

    /// Whether a request of an entry is held.
    fn any_held_of(&self, entry: u32) -> bool
        ensures { result ≡ list_any (λ q. is_entry entry (star.entry_for self.now q.want)) self.now.held }
    {
        self.held.iter().any(|req| self.is_req_of(entry, req))
    }

    /// Whether nothing stands in the lists of an entry that the system manages, and no request of it is held; so of an
    /// entry that it doesn't manage.
    fn is_done_with(&self, entry: u32) -> bool
        ensures { result ≡ star.is_done_with self.now entry }
    {
        self.manager.is_empty(entry) && !(self.manager.manages(entry) && self.any_held_of(entry))
    }

    /// Whether an entry is being gathered, by the system itself, or by another one to whom it owes its part.
    fn is_being_gathered(&self, entry: u32) -> bool
        ensures { result ≡ star.is_being_gathered self.now entry }
    {
        self.gathers.has(entry) || self.owes.to(entry).is_some()
    }

    /// Whether a system of these tasks may give up its interest in an entry. Its tasks are looked at last, since there are
    /// many.
    #[tactic(auto, using(crate::proofs::Flags::leaves))]
    fn may_leave(&self, tasks: &Tasks, entry: u32) -> bool
        ensures { result ≡ star.may_leave self.now tasks.now entry }
    {
        self.has_interest(entry)
            && self.is_done_with(entry)
            && !self.is_being_gathered(entry)
            && !self.any_busy_in(entry, tasks.all())
    }

    /// Whether something is pending: a request that is held, an owner of another system who is still to be told, an entry
    /// that is gathered, or a part that is owed.
    pub(crate) fn is_pending(&self) -> bool
        ensures { result ≡ star.is_part_pending self.now }
    {
        !self.held.is_empty()
            || self.manager.any_untold(self.manager.system())
            || self.gathers.any()
            || self.owes.any()
    }

    /// A task's request is sent to the manager of its entry, who may be the system itself, unless the system gathers the
    /// entry.
    pub(crate) fn send(
        &self,
        alloc: Global,
        task: TaskId,
        asked: Option<&Asked>,
    ) -> Result<Need, NoMemory>
        ensures { IfOk result (λ need. need ≡ star.send_of self.now task (option_copied asked.entry)) }
    {
        let Some(asked) = asked else {
            return Ok(Need::Idle);
        };
        match self.manager.entry_wanted(&asked.req.want) {
            None => Ok(Need::Idle),
            Some(entry) if self.gathers.has(entry) => Ok(Need::Idle),
            Some(entry) => {
                let req = request_of(alloc, task, asked)?;
                Ok(Need::Asks(Act::Submit { entry, req }))
            }
        }
    }

    /// Whether a request that is held waits no longer for the lists of its entry.
    fn may_settle(&self, req: &Req) -> bool
        ensures { result ≡ star.may_settle self.now req.now }
    {
        match self.manager.entry_wanted(&req.want) {
            Some(entry) => !self.gathers.has(entry),
            None => true,
        }
    }

    /// The place of the first request that is held of an entry that isn't gathered.
    pub(crate) fn first_place(&self) -> Option<usize>
        ensures { result ≡ position (star.may_settle self.now) self.now.held }
    {
        self.held.iter().position(|req| self.may_settle(req))
    }

    /// That request.
    #[tactic(auto, using(crate::proofs::Settled::firsts))]
    fn first_held(&self) -> Option<&Req>
        ensures { option_copied result ≡ star.first_held self.now }
    {
        match self.first_place() {
            Some(place) => self.held.get(place),
            None => None,
        }
    }

    /// It is answered by the lists of its entry.
    #[tactic(auto, using(crate::proofs::Settled::first_is_served))]
    pub(crate) fn settle(&self) -> Result<Need, NoMemory>
        requires { IsOrderly self.now }
        ensures { IfOk result (λ need. need ≡ star.settle_by self.now (star.first_held self.now)) }
    {
        let Some(req) = self.first_held() else {
            return Ok(Need::Idle);
        };
        let (answer, rank) = self.manager.decide(req)?;
        Ok(Need::Asks(Act::Settle {
            to: req.task.system,
            mail: Mail::Answered {
                task: req.task,
                answer,
                rank,
            },
        }))
    }

    /// The owner of another system who is to be told first that it owns a resource of an entry, with the resource.
    pub(crate) fn to_tell(&self, entry: u32) -> Result<Option<(TaskId, Res)>, NoMemory>
        ensures { IfOk result (λ owner. owner ≡ star.to_tell self.now entry) }
    {
        self.manager.untold(entry, self.manager.system())
    }

    /// That owner is told.
    pub(crate) fn tell(&self, entry: u32) -> Result<Need, NoMemory>
        ensures { IfOk result (λ need. need ≡ star.tell_by (star.to_tell self.now entry)) }
    {
        match self.to_tell(entry)? {
            None => Ok(Need::Idle),
            Some((task, res)) => Ok(Need::Asks(Act::Tell {
                to: task.system,
                mail: Mail::Granted { task, res },
            })),
        }
    }

    /// The part of an entry goes to the manager to whom it is owed, unless that one is known to be removed. The tasks have
    /// these names.
    #[tactic(auto, using(crate::proofs::Owed::named))]
    pub(crate) fn part(
        &self,
        alloc: Global,
        tasks: &Tasks,
        names: &[TaskId],
        known: u32,
        entry: u32,
    ) -> Result<Need, NoMemory>
        requires { list_all star.is_owed_named self.now.owes ≡ true }
        ensures { IfOk result (λ need. need ≡ star.part_by names.now known self.now tasks.now entry (star.owed_to self.now entry)) }
    {
        match self.owes.to(entry) {
            Some(to) if !has_system(known, to) => {
                let from = self.manager.system();
                let records = part_of(alloc, tasks, names, self.manager.entries(), entry)?;
                Ok(Need::Asks(Act::Tell {
                    to,
                    mail: Mail::Part {
                        entry,
                        from,
                        records,
                    },
                }))
            }
            Some(_) | None => Ok(Need::Idle),
        }
    }

    /// The interest in an entry is given up.
    pub(crate) fn leave(&self, tasks: &Tasks, entry: u32) -> Need
        ensures { result ≡ star.leave_by self.now tasks.now entry }
    {
        if self.may_leave(tasks, entry) {
            Need::Asks(Act::Leave { entry })
        } else {
            Need::Idle
        }
    }
}
