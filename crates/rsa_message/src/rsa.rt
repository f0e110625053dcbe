//! The message as a whole.
ghost use Rattle.std.specs.Prelude.{◌≡◌, ◌+◌, ◌<◌, ◌≤◌, true, length, if◌then◌else◌, Some, None, IfOk, OnOk};
ghost use Rattle.grs_base.specs.Limits.{most_systems, last_number};
ghost use Rattle.rsa_message.specs.Message.{system_number, stands_at, opened, never_opened, first_number, turn_reply, turned, turned_open, turned_closed, turn_changes, wakes, dropped, departed, closed_by, message_at_end, taken, put_in};
ghost use Rattle.grs_wire.specs.Unseen.{unseen};
ghost use Rattle.rsa_message.specs.Places.{HasPlaces};
ghost use Rattle.rsa_message.specs.Room.{HasRoom, given_to};

use crate::entries::{clear, copy_unseen, first_of_unseen, has_unseen, put};
use crate::order::{first_in, moved_to, next_due, stands_at};
use grs_base::{LAST_NUMBER, List, NoMemory, SysId};
use grs_wire::masks::without_system;
use grs_wire::{Reply, Req, RingBody, RingEntry};
use std::alloc::Global;
use std::marker::Model;

/// The authority message. Contracts see what it holds, and the room that `reserve` made. `given` are the copies
/// for the reply to the next Turn of the system `ready`, and `room` says how many entries can be put in.
#[derive(Drop)]
pub struct Rsa {
    alloc: Global,
    systems: u32,
    holder: Option<SysId>,
    closed: bool,
    still: u32,
    entries: Vec<RingEntry>,
    next: u64,
    given: List<RingEntry>,
    ready: Option<SysId>,
    room: u32,
}

impl Model for Rsa {
    ghost use Rattle.std.specs.Prelude.{◌≡◌, ◌+◌, ◌<◌, ◌≤◌, vec_len, vec_capacity};
    ghost use Rattle.grs_base.specs.Limits.{most_systems, last_number};
    ghost use Rattle.rsa_message.specs.Message.{system_number};
    ghost use Rattle.rsa_message.specs.Room.{RsaValue, given_to};

    ghost Value = { RsaValue };

    ghost view = { λ r. record { message = record { systems = r.systems; holder = r.holder; closed = r.closed; still = r.still; entries = r.entries.items; next = r.next }; room = record { caller = r.ready; entries = r.room } } };

    ghost invariant = { λ r. (r.systems ≤ most_systems) × (system_number r.holder < r.systems) × (r.next + r.room ≤ last_number + 1) × (vec_len r.entries + r.room ≤ vec_capacity r.entries) × (r.given ≡ given_to r.ready r.holder r.entries.items) };
}

impl Rsa {
    /// The message at the start: open and at the first system, or in star mode closed and nowhere. `systems` is
    /// the number of systems, from 1 to 8.
    pub fn new(alloc: Global, systems: u32, star: bool) -> Rsa
        requires some { 0 < systems }
        requires few { systems ≤ most_systems }
        ensures { result.message ≡ (if star then never_opened systems else opened systems) }
    {
        Rsa {
            alloc,
            systems,
            holder: if star { None } else { Some(SysId(0)) },
            closed: star,
            still: 0,
            entries: Vec::new(alloc),
            next: 1,
            given: List::new(alloc),
            ready: None,
            room: 0,
        }
    }

    /// Copies of what the reply to a Turn gives: of nothing, where the message isn't at the caller.
    fn copies_for(&self, caller: SysId) -> Result<List<RingEntry>, NoMemory>
        requires { caller.0 < self.now.message.systems }
        ensures { IfOk result (λ given. given ≡ given_to (Some caller) self.now.message.holder self.now.message.entries) }
    {
        if stands_at(self.holder, caller) {
            copy_unseen(self.alloc, self.entries.as_slice(), caller)
        } else {
            Ok(List::new(self.alloc))
        }
    }

    /// Whether so many new entries have numbers up to `LAST_NUMBER`.
    fn has_numbers(&self, count: u32) -> bool
        ensures { result ≡ true → self.now.message.next + count ≤ last_number + 1 }
    {
        self.next + count as u64 <= LAST_NUMBER + 1
    }

    /// Makes room for so many new entries, and keeps no copies for a reply. No entry may have a number above
    /// `LAST_NUMBER`: where one of these would, NoMemory is answered.
    pub fn reserve_places(&mut self, count: u32) -> Result<(), NoMemory>
        ensures message { self.new.message ≡ self.old.message }
        ensures places { OnOk result (HasPlaces self.new.room count) }
        ensures just { OnOk result (self.new.room.entries ≡ count) }
    {
        if !self.has_numbers(count) {
            return Err(NoMemory);
        }
        if self.entries.reserve(count as usize).is_err() {
            return Err(NoMemory);
        }
        self.ready = None;
        self.given = List::new(self.alloc);
        self.room = count;
        Ok(())
    }

    /// How many entries a Turn of the system with so many requests would put in.
    #[tactic(auto, unfolding(crate::specs::Message::put_in))]
    fn put_in(&self, caller: SysId, out: u32) -> u32
        ensures { result ≡ put_in self.now.message caller out }
    {
        if !self.closed && stands_at(self.holder, caller) {
            out
        } else {
            0
        }
    }

    /// Makes room for one Turn of the system with `out` requests: for the entries that it would put in, and no others.
    /// The copies that the reply gives are made here. No entry may have a number above `LAST_NUMBER`: a Turn that would
    /// put in one that does answers NoMemory, and one that puts in none never wants a number.
    pub fn reserve(&mut self, caller: SysId, out: u32) -> Result<(), NoMemory>
        requires { caller.0 < self.old.message.systems }
        ensures message { self.new.message ≡ self.old.message }
        ensures room { OnOk result (HasRoom self.new.room caller (put_in self.old.message caller out)) }
        ensures just { OnOk result (self.new.room.entries ≡ put_in self.old.message caller out) }
    {
        self.reserve_places(self.put_in(caller, out))?;
        self.given = self.copies_for(caller)?;
        self.ready = Some(caller);
        Ok(())
    }

    /// The copies for a reply, of which there are none afterwards.
    fn take_given(&mut self, caller: SysId) -> List<RingEntry>
        requires caller { self.old.room.caller ≡ Some caller }
        requires here { stands_at self.old.message.holder caller ≡ true }
        ensures given { result ≡ unseen caller self.old.message.entries }
        ensures message { self.new.message ≡ self.old.message }
        ensures caller { self.new.room.caller ≡ None }
        ensures room { self.new.room.entries ≡ self.old.room.entries }
    {
        self.ready = None;
        std::mem::replace(&mut self.given, List::new(self.alloc))
    }

    /// A Turn at the open message, once the copies for its reply are taken.
    #[tactic(auto, unfolding(crate::specs::Message::turned))]
    fn turn_open(&mut self, caller: SysId, out: List<Req>, live: u32, rest: u32)
        requires system { caller.0 < self.old.message.systems }
        requires taken { self.old.room.caller ≡ None }
        requires room { length out ≤ self.old.room.entries }
        ensures { self.new.message ≡ turned_open self.old.message caller out live rest }
    {
        let count = out.len();
        let moves = has_unseen(self.entries.as_slice(), caller) || count != 0;
        let rest = if moves {
            without_system(rest, caller)
        } else {
            rest
        };
        clear(&mut self.entries, caller);
        put(&mut self.entries, self.next, caller, live, out);
        self.next += count as u64;
        self.room = 0;
        let next = next_due(self.systems, caller, self.entries.as_slice(), live, rest);
        self.holder = Some(next);
    }

    /// A Turn at the closed message, once the copies for its reply are taken.
    fn turn_closed(&mut self, caller: SysId)
        requires system { caller.0 < self.old.message.systems }
        requires taken { self.old.room.caller ≡ None }
        ensures { self.new.message ≡ turned_closed self.old.message caller }
    {
        clear(&mut self.entries, caller);
        self.room = 0;
        self.still = without_system(self.still, caller);
        self.holder = first_in(self.systems, caller, self.still);
    }

    /// The entries, in order.
    pub fn entries(&self) -> &[RingEntry]
        ensures { result.now ≡ self.now.message.entries }
    {
        self.entries.as_slice()
    }

    /// Whether the message is closed.
    pub fn is_closed(&self) -> bool
        ensures { result ≡ self.now.message.closed }
    {
        self.closed
    }

    /// Whether the message stands at the system.
    pub fn stands_at(&self, system: SysId) -> bool
        ensures { result ≡ stands_at self.now.message.holder system }
    {
        stands_at(self.holder, system)
    }

    /// What a Turn of the system leaves, where the message is at it: its requests go into the message, and the
    /// message goes on. `live` is the set of the systems that aren't removed, `rest` the set of those at rest. It
    /// takes no memory.
    #[tactic(auto, unfolding(crate::specs::Message::turned))]
    pub fn pass_on(&mut self, caller: SysId, out: List<Req>, live: u32, rest: u32)
        requires system { caller.0 < self.old.message.systems }
        requires here { stands_at self.old.message.holder caller ≡ true }
        requires places { HasPlaces self.old.room (taken self.old.message (length out)) }
        ensures message { self.new.message ≡ turned self.old.message caller out live rest }
        ensures systems { self.new.message.systems ≡ self.old.message.systems }
    {
        if self.closed {
            self.turn_closed(caller);
        } else {
            self.turn_open(caller, out, live, rest);
        }
    }

    /// A Turn of the system: it gets the entries that it has yet to process, and its requests go into the message.
    /// `live` is the set of the systems that aren't removed, `rest` the set of those at rest. It takes no memory.
    ///
    /// Answers NotYours exactly where the message isn't at the caller, with where it is; else Turned.
    #[tactic(auto, unfolding(crate::specs::Message::turned, crate::specs::Message::turn_reply))]
    pub fn turn(&mut self, caller: SysId, out: List<Req>, live: u32, rest: u32) -> Reply
        requires system { caller.0 < self.old.message.systems }
        requires room { HasRoom self.old.room caller (put_in self.old.message caller (length out)) }
        ensures reply { result ≡ turn_reply self.old.message caller (length out) }
        ensures message { self.new.message ≡ turned self.old.message caller out live rest }
        ensures systems { self.new.message.systems ≡ self.old.message.systems }
    {
        if !stands_at(self.holder, caller) {
            return Reply::NotYours { at: self.holder };
        }
        let closed = self.closed;
        let entries = self.take_given(caller);
        let taken = if closed { 0 } else { out.len() as u32 };
        self.pass_on(caller, out, live, rest);
        Reply::Turned {
            entries,
            taken,
            closed,
        }
    }

    /// Where the message stands, if anywhere.
    pub fn holder(&self) -> Option<SysId>
        ensures holder { result ≡ self.now.message.holder }
        ensures below { system_number result < self.now.message.systems }
    {
        self.holder
    }

    /// Whether a Turn of the system with so many requests clears its flag of rest: where an entry is given or put in,
    /// and at the closed message always.
    #[tactic(auto, unfolding(crate::specs::Message::wakes))]
    pub fn wakes(&self, caller: SysId, out: u32) -> bool
        requires { caller.0 < self.now.message.systems }
        ensures { result ≡ wakes self.now.message caller out }
    {
        stands_at(self.holder, caller)
            && (self.closed || has_unseen(self.entries.as_slice(), caller) || out != 0)
    }

    /// The reply that `turn` with so many requests would give once there is room for it, and whether it would change the
    /// message. NoMemory comes where there is none for the copies.
    #[tactic(auto, unfolding(crate::specs::Message::turn_reply, crate::specs::Message::turn_changes))]
    pub fn preview_turn(
        &self,
        caller: SysId,
        out: u32,
        live: u32,
        rest: u32,
    ) -> Result<(Reply, bool), NoMemory>
        requires { caller.0 < self.now.message.systems }
        ensures reply { IfOk result (λ shown. shown.0 ≡ turn_reply self.now.message caller out) }
        ensures changes { IfOk result (λ shown. shown.1 ≡ turn_changes self.now.message caller out live rest) }
    {
        if !stands_at(self.holder, caller) {
            return Ok((Reply::NotYours { at: self.holder }, false));
        }
        let entries = copy_unseen(self.alloc, self.entries.as_slice(), caller)?;
        let moves = has_unseen(self.entries.as_slice(), caller) || out != 0;
        let next = next_due(self.systems, caller, self.entries.as_slice(), live, rest);
        let changes = self.closed || moves || next.0 != caller.0;
        let taken = if self.closed { 0 } else { out };
        Ok((
            Reply::Turned {
                entries,
                taken,
                closed: self.closed,
            },
            changes,
        ))
    }

    /// The target, which the caller removed, leaves the message, and an entry that tells of it goes in. `live` is
    /// the set of the systems that aren't removed, without the target. It takes no memory: `reserve_places` made room
    /// for the entry.
    #[tactic(auto, unfolding(crate::specs::Message::dropped))]
    pub fn drop_system(&mut self, caller: SysId, target: SysId, live: u32)
        requires target { target.0 < self.old.message.systems }
        requires room { HasPlaces self.old.room 1 }
        ensures message { self.new.message ≡ dropped self.old.message caller target live }
        ensures systems { self.new.message.systems ≡ self.old.message.systems }
    {
        self.ready = None;
        self.given = List::new(self.alloc);
        clear(&mut self.entries, target);
        let _ = self.entries.push(RingEntry {
            number: self.next,
            from: caller,
            body: RingBody::Remove(target),
            mask: live,
        });
        self.next += 1;
        self.room = 0;
        if stands_at(self.holder, target) {
            self.holder = first_in(self.systems, target, live);
        }
    }

    /// A system that is removed in star mode leaves the message, and no entry tells of it. A message that stood at it goes on to
    /// the next system that has yet to change to star mode, if any. It takes no memory.
    #[tactic(auto, unfolding(crate::specs::Message::departed))]
    pub fn depart(&mut self, system: SysId)
        requires { system.0 < self.old.message.systems }
        ensures message { self.new.message ≡ departed self.old.message system }
        ensures systems { self.new.message.systems ≡ self.old.message.systems }
    {
        self.ready = None;
        self.given = List::new(self.alloc);
        clear(&mut self.entries, system);
        self.room = 0;
        self.still = without_system(self.still, system);
        if stands_at(self.holder, system) {
            self.holder = first_in(self.systems, system, self.still);
        }
    }

    /// The message is closed by the caller, which changes to star mode; `live` is the set of the systems that
    /// aren't removed. From then on it only goes to those that have yet to change. It takes no memory.
    #[tactic(auto, unfolding(crate::specs::Message::closed_by))]
    pub fn close(&mut self, caller: SysId, live: u32)
        requires { caller.0 < self.old.message.systems }
        ensures { self.new.message ≡ closed_by self.old.message caller live }
    {
        self.ready = None;
        self.given = List::new(self.alloc);
        let systems = self.systems;
        let still = without_system(live, caller);
        self.holder = moved_to(systems, self.holder, still);
        self.still = still;
        self.closed = true;
    }

    /// The number of the first entry that the system has yet to process; None exactly where there is none.
    pub fn first_unseen(&self, caller: SysId) -> Option<u64>
        requires { caller.0 < self.now.message.systems }
        ensures { result ≡ first_number (unseen caller self.now.message.entries) }
    {
        first_of_unseen(self.entries.as_slice(), caller)
    }

    /// Whether no entry is left and no system has yet to change to star mode.
    pub fn at_end(&self) -> bool
        ensures { result ≡ message_at_end self.now.message }
    {
        self.entries.is_empty() && self.still == 0
    }
}
