//! The medium with its journal: what a seat that has the word works on.
ghost use Rattle.std.specs.Prelude.{◌≡◌, ◌<◌, ◌+◌, ◌++◌, ◌∷◌, [], IfOk, OnOk, OnErr, cond, vec_len, vec_capacity};
ghost use Rattle.grs_medium.specs.Apply.{MayCall, reply_to, medium_after};
ghost use Rattle.grs_medium.specs.Concerned.{concerned};
ghost use Rattle.grs_medium.specs.Room.{HasRoomFor};
ghost use Rattle.grs_bus.specs.Journal.{concerned_by, entry_of, is_acted_on, no_length};
ghost use Rattle.grs_bus.specs.Slots.{Answers, IsUnchanged};

use grs_base::{NoMemory, SysId};
use grs_medium::Medium;
use grs_wire::{Call, JEntry, Reply};
use std::alloc::Global;

/// How many entries a journal can have, so that 64 times its length, and who holds the word, fit the word.
const MOST_JOURNAL_ENTRIES: usize = 1 << 57;

/// A medium, and the journal of its calls. `alloc` makes the copies of calls that are entered. `concerned` is the set of the
/// systems which the last call may have given something to do: nobody where it didn't change the medium.
#[derive(Drop)]
pub struct Slot {
    pub medium: Medium,
    pub journal: Vec<JEntry>,
    pub alloc: Global,
    pub concerned: u32,
}

/// Whether a call that is replied this is entered also where the medium stays as it was.
fn is_acted_on(reply: &Reply) -> bool
    ensures { result ≡ is_acted_on reply.now }
{
    matches!(
        reply,
        Reply::Stale { set: _ } | Reply::Already | Reply::NoSuch | Reply::Sole | Reply::Left
    )
}

/// Makes room for an entry, if the journal may have one more.
fn make_room(journal: &mut Vec<JEntry>) -> Result<(), NoMemory>
    ensures same { journal.new.items ≡ journal.old.items }
    ensures count { vec_len journal.new ≡ vec_len journal.old }
    ensures room { OnOk result ((vec_len journal.new < vec_capacity journal.new) × (vec_len journal.new + 1 < no_length)) }
{
    if journal.len() >= MOST_JOURNAL_ENTRIES {
        return Err(NoMemory);
    }
    match journal.reserve(1) {
        Ok(()) => Ok(()),
        Err(_) => Err(NoMemory),
    }
}

impl Slot {
    /// Takes the memory for a call and its entry, and gives the entry's copy of the call.
    fn prepare(&mut self, caller: SysId, call: &Call) -> Result<Call, NoMemory>
        requires { MayCall self.old.medium.state caller call.now }
        ensures copy { IfOk result (λ asked. asked ≡ call.now) }
        ensures same { IsUnchanged self.old self.new }
        ensures count { vec_len self.new.journal ≡ vec_len self.old.journal }
        ensures concerned { self.new.concerned ≡ self.old.concerned }
        ensures room { OnOk result (HasRoomFor self.new.medium caller call.now) }
        ensures place { OnOk result ((vec_len self.new.journal < vec_capacity self.new.journal) × (vec_len self.new.journal + 1 < no_length)) }
    {
        make_room(&mut self.journal)?;
        self.medium.reserve(caller, call)?;
        call.copy(self.alloc)
    }

    /// Makes a call that is entered, and enters it. All memory is taken before the medium changes. It keeps whom the
    /// call concerned, where it changes the medium.
    fn enter(&mut self, caller: SysId, call: Call, changes: bool) -> Result<(), NoMemory>
        requires { MayCall self.old.medium.state caller call }
        ensures journal { OnOk result (self.new.journal.items ≡ self.old.journal.items ++ entry_of caller call (reply_to self.old.medium.state caller call) ∷ []) }
        ensures medium { OnOk result (self.new.medium.state ≡ medium_after self.old.medium.state caller call) }
        ensures concerned { OnOk result (self.new.concerned ≡ cond changes (concerned (medium_after self.old.medium.state caller call) caller call.act) self.old.concerned) }
        ensures err { OnErr result (IsUnchanged self.old self.new) }
        ensures nobody { OnErr result (self.new.concerned ≡ self.old.concerned) }
        ensures short { vec_len self.old.journal < no_length → vec_len self.new.journal < no_length }
    {
        let asked = self.prepare(caller, &call)?;
        let given = self.medium.apply(caller, call);
        if changes {
            self.concerned = self.medium.concerned(caller, &asked.act);
        }
        let entry = JEntry {
            system: caller,
            call: asked,
            reply: given,
        };
        self.journal.push(entry).unwrap();
        Ok(())
    }

    /// Makes the call, and enters it where it is one that is entered: the reply, and whether it was. It keeps whom the
    /// call concerned.
    #[tactic(auto, unfolding(crate::specs::Journal::is_entered))]
    pub fn answer(&mut self, caller: SysId, call: Call) -> Result<(Reply, bool), NoMemory>
        requires { MayCall self.old.medium.state caller call }
        ensures ok { IfOk result (λ told. Answers caller call self.old self.new told) }
        ensures concerned { OnOk result (self.new.concerned ≡ concerned_by self.old.medium.state caller call) }
        ensures err { OnErr result (IsUnchanged self.old self.new) }
        ensures nobody { OnErr result (self.new.concerned ≡ 0) }
        ensures short { vec_len self.old.journal < no_length → vec_len self.new.journal < no_length }
    {
        self.concerned = 0;
        let (reply, changes) = self.medium.preview(caller, &call)?;
        if !(changes || is_acted_on(&reply)) {
            return Ok((reply, false));
        }
        self.enter(caller, call, changes)?;
        Ok((reply, true))
    }
}
