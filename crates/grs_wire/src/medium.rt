//! What passes between a system and the shared medium: calls, replies, mail, and the entries of the authority
//! message, which is the RSA-message of z/OS MVS Planning: Global Resource Serialization. Calls and replies are this
//! project's own. A set of systems is a number here; `masks` has the words for it.
ghost use Rattle.std.specs.Prelude.{◌≡◌, ◌==◌, IfOk};
ghost use Rattle.std.specs.List.{list_any};
ghost use Rattle.grs_wire.specs.Notices.{names};

use super::gather::{Moved, PartRec};
use super::request::{Answer, Req};
use grs_base::{Copied, List, NoMemory, Res, SysId, TaskId, copy_all};
use std::alloc::Global;

/// What an entry of the authority message says.
#[derive(Drop)]
pub enum RingBody {
    /// A task of the sender asks for this.
    Request(Req),
    /// This system is removed.
    Remove(SysId),
}

/// An entry of the authority message. Entries are numbered from 1; `from` put it in, and `mask` is the set of the
/// systems that have yet to process it.
#[derive(Drop)]
pub struct RingEntry {
    pub number: u64,
    pub from: SysId,
    pub body: RingBody,
    pub mask: u32,
}

/// What lies in an inbox.
#[derive(Drop)]
pub enum Mail {
    /// A request to the manager of the lock entry, on behalf of a task of `from`.
    Request {
        entry: u32,
        from: SysId,
        req: Req,
    },
    /// The manager's answer. `rank` says where the task's element stands among all of the lock entry.
    Answered {
        task: TaskId,
        answer: Answer,
        rank: u64,
    },
    /// The task, which waited, got control.
    Granted {
        task: TaskId,
        res: Res,
    },
    /// The system `target` was removed, which managed these lock entries: who manages each from now on.
    Notice {
        target: SysId,
        moved: List<Moved>,
    },
    /// What the tasks of `from` have on record of the lock entry, whose lists its new manager gathers.
    Part {
        entry: u32,
        from: SysId,
        records: List<PartRec>,
    },
}

/// What a call asks of the medium.
#[derive(Drop)]
pub enum Act {
    /// The caller takes its turn at the authority message, and puts these requests in: 32 at most.
    Turn { out: List<Req> },
    /// The complex changes to star mode, with these lock words.
    Switch { words: List<u32> },
    /// A request on this lock entry goes to its manager.
    Submit { entry: u32, req: Req },
    /// The first mail of the caller's inbox is taken out.
    Take,
    /// A mail that settles a request.
    Settle { to: SysId, mail: Mail },
    /// A mail that tells of control, or what a manager gathers.
    Tell { to: SysId, mail: Mail },
    /// The caller gives up its interest in this lock entry.
    Leave { entry: u32 },
    /// This system is removed.
    Purge { target: SysId },
    /// The caller has nothing to do.
    Rest,
}

/// A call of the medium. `known` is the set of the systems that the caller knows to be removed.
#[derive(Drop)]
pub struct Call {
    pub known: u32,
    pub act: Act,
}

/// What the medium replies.
#[derive(Drop)]
pub enum Reply {
    /// The entries that the caller had yet to process, how many of its requests were put in, and whether the
    /// message is closed.
    Turned {
        entries: List<RingEntry>,
        taken: u32,
        closed: bool,
    },
    /// The message stands elsewhere, or nowhere any more.
    NotYours {
        at: Option<SysId>,
    },
    /// The caller has yet to process an entry; this is the number of the first.
    Behind {
        first: u64,
    },
    /// The complex has changed to star mode.
    Switched,
    /// The complex was in star mode already.
    Already,
    /// The caller manages the lock entry.
    Sole,
    /// The request is in its manager's inbox.
    Sent,
    /// The first mail of the inbox, which it is in no longer.
    Taken {
        mail: Mail,
    },
    /// The inbox is empty.
    Empty,
    /// The mail that settles a request is in its inbox.
    Settled,
    /// The mail that tells something is in its inbox.
    Told,
    /// The caller has no interest in the lock entry.
    Left,
    /// The caller still manages the lock entry, since others of this set have interest in it.
    Kept {
        mask: u32,
    },
    /// The lock entry is the caller's to manage from now on, and the mail that says so lies in its inbox.
    Yours,
    /// The lock entry has another manager than the caller knows, and the mail that says so lies in its inbox.
    Old,
    /// The system was removed.
    Purged,
    /// The system was removed before, or there is no such system.
    NoSuch,
    /// The caller rests, and not all have come to rest.
    Resting,
    /// All systems are at rest, and nothing is left to do.
    Over,
    /// The caller doesn't know of all systems that were removed: it is this set.
    Stale {
        set: u32,
    },
    /// The caller itself was removed.
    Removed,
}

/// One line of the journal of calls.
#[derive(Drop)]
pub struct JEntry {
    pub system: SysId,
    pub call: Call,
    pub reply: Reply,
}

impl RingBody {
    /// An equal body.
    pub fn copy(&self, alloc: Global) -> Result<RingBody, NoMemory>
        ensures { IfOk result (λ body. body ≡ self.now) }
    {
        match self {
            RingBody::Request(req) => Ok(RingBody::Request(req.copy(alloc)?)),
            RingBody::Remove(target) => Ok(RingBody::Remove(*target)),
        }
    }
}

impl RingEntry {
    /// An equal entry.
    pub fn copy(&self, alloc: Global) -> Result<RingEntry, NoMemory>
        ensures { IfOk result (λ entry. entry ≡ self.now) }
    {
        let body = self.body.copy(alloc)?;
        Ok(RingEntry {
            number: self.number,
            from: self.from,
            body,
            mask: self.mask,
        })
    }
}

impl Copied for RingEntry {
    fn copied(&self, alloc: Global) -> Result<RingEntry, NoMemory> {
        self.copy(alloc)
    }
}

/// Whether one of these lock entries is this one.
fn is_among(moved: &[Moved], entry: u32) -> bool
    ensures { result ≡ list_any (λ m. m.entry == entry) moved.now }
{
    moved.iter().any(|item| item.entry == entry)
}

impl Mail {
    /// Whether it is a notice that names this lock entry.
    pub fn names(&self, entry: u32) -> bool
        ensures { result ≡ names entry self.now }
    {
        match self {
            Mail::Notice { moved, .. } => is_among(moved.as_slice(), entry),
            Mail::Request { .. }
            | Mail::Answered { .. }
            | Mail::Granted { .. }
            | Mail::Part { .. } => false,
        }
    }

    /// An equal mail.
    pub fn copy(&self, alloc: Global) -> Result<Mail, NoMemory>
        ensures { IfOk result (λ mail. mail ≡ self.now) }
    {
        match self {
            Mail::Request { entry, from, req } => {
                let req = req.copy(alloc)?;
                Ok(Mail::Request {
                    entry: *entry,
                    from: *from,
                    req,
                })
            }
            Mail::Answered { task, answer, rank } => {
                let answer = answer.copy(alloc)?;
                Ok(Mail::Answered {
                    task: *task,
                    answer,
                    rank: *rank,
                })
            }
            Mail::Granted { task, res } => {
                let res = res.copy(alloc)?;
                Ok(Mail::Granted { task: *task, res })
            }
            Mail::Notice { target, moved } => {
                let moved = moved.copy(alloc)?;
                Ok(Mail::Notice {
                    target: *target,
                    moved,
                })
            }
            Mail::Part {
                entry,
                from,
                records,
            } => {
                let records = copy_all(alloc, records.as_slice())?;
                Ok(Mail::Part {
                    entry: *entry,
                    from: *from,
                    records,
                })
            }
        }
    }
}

impl Act {
    /// An equal act.
    pub fn copy(&self, alloc: Global) -> Result<Act, NoMemory>
        ensures { IfOk result (λ act. act ≡ self.now) }
    {
        match self {
            Act::Turn { out } => Ok(Act::Turn {
                out: copy_all(alloc, out.as_slice())?,
            }),
            Act::Switch { words } => Ok(Act::Switch {
                words: words.copy(alloc)?,
            }),
            Act::Submit { entry, req } => {
                let req = req.copy(alloc)?;
                Ok(Act::Submit { entry: *entry, req })
            }
            Act::Take => Ok(Act::Take),
            Act::Settle { to, mail } => {
                let mail = mail.copy(alloc)?;
                Ok(Act::Settle { to: *to, mail })
            }
            Act::Tell { to, mail } => {
                let mail = mail.copy(alloc)?;
                Ok(Act::Tell { to: *to, mail })
            }
            Act::Leave { entry } => Ok(Act::Leave { entry: *entry }),
            Act::Purge { target } => Ok(Act::Purge { target: *target }),
            Act::Rest => Ok(Act::Rest),
        }
    }
}

impl Call {
    /// An equal call.
    pub fn copy(&self, alloc: Global) -> Result<Call, NoMemory>
        ensures { IfOk result (λ call. call ≡ self.now) }
    {
        let act = self.act.copy(alloc)?;
        Ok(Call {
            known: self.known,
            act,
        })
    }
}

impl Reply {
    /// An equal reply.
    pub fn copy(&self, alloc: Global) -> Result<Reply, NoMemory>
        ensures { IfOk result (λ reply. reply ≡ self.now) }
    {
        match self {
            Reply::Turned {
                entries,
                taken,
                closed,
            } => {
                let entries = copy_all(alloc, entries.as_slice())?;
                Ok(Reply::Turned {
                    entries,
                    taken: *taken,
                    closed: *closed,
                })
            }
            Reply::Taken { mail } => Ok(Reply::Taken {
                mail: mail.copy(alloc)?,
            }),
            Reply::NotYours { at } => Ok(Reply::NotYours { at: *at }),
            Reply::Behind { first } => Ok(Reply::Behind { first: *first }),
            Reply::Switched => Ok(Reply::Switched),
            Reply::Already => Ok(Reply::Already),
            Reply::Sole => Ok(Reply::Sole),
            Reply::Sent => Ok(Reply::Sent),
            Reply::Empty => Ok(Reply::Empty),
            Reply::Settled => Ok(Reply::Settled),
            Reply::Told => Ok(Reply::Told),
            Reply::Left => Ok(Reply::Left),
            Reply::Kept { mask } => Ok(Reply::Kept { mask: *mask }),
            Reply::Yours => Ok(Reply::Yours),
            Reply::Old => Ok(Reply::Old),
            Reply::Purged => Ok(Reply::Purged),
            Reply::NoSuch => Ok(Reply::NoSuch),
            Reply::Resting => Ok(Reply::Resting),
            Reply::Over => Ok(Reply::Over),
            Reply::Stale { set } => Ok(Reply::Stale { set: *set }),
            Reply::Removed => Ok(Reply::Removed),
        }
    }
}

impl JEntry {
    /// An equal line.
    pub fn copy(&self, alloc: Global) -> Result<JEntry, NoMemory>
        ensures { IfOk result (λ line. line ≡ self.now) }
    {
        let call = self.call.copy(alloc)?;
        let reply = self.reply.copy(alloc)?;
        Ok(JEntry {
            system: self.system,
            call,
            reply,
        })
    }
}

impl Copied for JEntry {
    fn copied(&self, alloc: Global) -> Result<JEntry, NoMemory> {
        self.copy(alloc)
    }
}
