//! The medium and its calls.
ghost use Rattle.std.specs.Prelude.{◌≡◌, ◌<◌, ◌≤◌, ◌&&◌, ℕ, true, false, not, is_none, length, List as ListSpec, None, Some, IfOk, OnOk};
ghost use Rattle.grs_base.specs.Limits.{most_additions, most_systems};
ghost use Rattle.grs_wire.specs.LockWords.{leave_changes};
ghost use Rattle.grs_wire.specs.declared.request.Req.{Req as ReqSpec};
ghost use Rattle.lock_structure.specs.Words.{route};
ghost use Rattle.grs_medium.specs.Inboxes.{is_empty};
ghost use Rattle.grs_medium.specs.Medium.{first_medium, systems_of, awake, inbox, medium_at_end, word};
ghost use Rattle.grs_medium.specs.Apply.{is_live, is_noticed, notice_reply, moved_by, without_in_star, without_system as without_in_ring, turn_row, manages, joined, submit_row, switch_ring, switch_row, take_row, mail_row, leave_row, purge_row, rest_row, reply_to, medium_after, changes, row, row_changes, ActFits, MayCall};
ghost use Rattle.grs_medium.specs.Causes.{is_heard};
ghost use Rattle.grs_medium.specs.Changes.{TellsChanges};
ghost use Rattle.grs_medium.specs.GoesOn.{WaitsForLive};
ghost use Rattle.grs_medium.specs.Concerned.{just, addressee, is_over, concerned};
ghost use Rattle.grs_medium.specs.Room.{HasRoomFor, HasRoomForAct, HasRoomOn, HasRoomToPurge, request_on};
ghost use Rattle.grs_medium.specs.TurnReplies.{refusal_reply, refusal};
ghost use Rattle.grs_medium.specs.TakeReplies.{finds_nothing};
ghost use Rattle.rsa_message.specs.Message.{stands_at, taken, put_in, rest_after_turn, first_number};
ghost use Rattle.grs_wire.specs.Unseen.{unseen};
ghost use Rattle.rsa_message.specs.Places.{HasPlaces};
ghost use Rattle.rsa_message.specs.Room.{HasRoom};
ghost use Rattle.std.specs.Option.{option_map};

use crate::inboxes::Inboxes;
use crate::notices::moved_by;
use crate::sets::{all_at_rest, live_of, woken};
use grs_base::{List, NoMemory, SysId};
use grs_wire::masks::{has_system, with_system, without_system};
use grs_wire::{Act, Call, Mail, Reply, Req, RingEntry};
use lock_structure::{Route, Words};
use rsa_message::Rsa;
use std::alloc::Global;
use std::marker::Model;

/// The shared medium. Contracts see its parts, and the room that `reserve` made.
#[derive(Drop)]
pub struct Medium {
    alloc: Global,
    systems: u32,
    star: bool,
    rsa: Rsa,
    words: Words,
    inboxes: Inboxes,
    removed: u32,
    rest: u32,
}

impl Model for Medium {
    ghost use Rattle.std.specs.Prelude.{◌≡◌, ◌≤◌, length};
    ghost use Rattle.grs_base.specs.Limits.{most_systems};
    ghost use Rattle.grs_medium.specs.Medium.{AreWords};
    ghost use Rattle.grs_medium.specs.Room.{MediumValue};

    ghost Value = { MediumValue };

    ghost view = { λ m. record { state = record { star = m.star; message = m.rsa.message; words = m.words; inboxes = m.inboxes.mail; removed = m.removed; rest = m.rest }; room = m.rsa.room; ready = m.inboxes.ready; moved = m.inboxes.moved } };

    ghost invariant = { λ m. (m.systems ≡ m.rsa.message.systems) × (m.systems ≤ most_systems) × (length m.inboxes.mail ≡ m.systems) × AreWords m.systems m.words };
}

/// What a Turn is answered that doesn't get to the message.
#[derive(Drop)]
pub enum TurnRefusal {
    /// The message stands elsewhere, or nowhere any more.
    NotYours { at: Option<SysId> },
    /// The caller doesn't know of all systems that were removed: it is this set.
    Stale { set: u32 },
    /// The caller itself was removed.
    Removed,
}

impl TurnRefusal {
    /// The same among all replies.
    pub fn into_reply(self) -> Reply
        ensures { result ≡ refusal_reply self }
    {
        match self {
            TurnRefusal::NotYours { at } => Reply::NotYours { at },
            TurnRefusal::Stale { set } => Reply::Stale { set },
            TurnRefusal::Removed => Reply::Removed,
        }
    }
}

/// The mail of a request, and whom it goes to, where it goes to the manager.
fn request_to(route: Route, entry: u32, from: SysId, req: Req) -> Option<(SysId, Mail)>
    ensures { result ≡ request_on route entry from req }
{
    match route {
        Route::Sole => None,
        Route::To(manager) => Some((manager, Mail::Request { entry, from, req })),
    }
}

impl Medium {
    /// The medium at the start, of so many systems (1 to 8) and lock entries, in ring mode or in star mode.
    pub fn new(alloc: Global, systems: u32, entries: u32, star: bool) -> Result<Medium, NoMemory>
        requires some { 0 < systems }
        requires few { systems ≤ most_systems }
        ensures start { IfOk result (λ medium. medium.state ≡ first_medium systems entries star) }
        ensures waits { IfOk result (λ medium. WaitsForLive medium.state) }
    {
        let words = Words::new(alloc, entries)?;
        let inboxes = Inboxes::new(alloc, systems)?;
        Ok(Medium {
            alloc,
            systems,
            star,
            rsa: Rsa::new(alloc, systems, star),
            words,
            inboxes,
            removed: 0,
            rest: 0,
        })
    }

    /// The lock words.
    pub fn words(&self) -> &List<u32>
        ensures { result.now ≡ self.now.state.words }
    {
        self.words.words()
    }

    /// Whether the complex is in star mode.
    pub fn star(&self) -> bool
        ensures { result ≡ self.now.state.star }
    {
        self.star
    }

    /// The set of the systems that were removed.
    pub fn removed(&self) -> u32
        ensures { result ≡ self.now.state.removed }
    {
        self.removed
    }

    /// Whether nothing is left to do with the medium: all inboxes of systems that aren't removed are empty, no
    /// entry of the message is left, and no system has yet to change to star mode.
    #[tactic(auto, unfolding(crate::specs::Medium::medium_at_end))]
    pub fn at_end(&self) -> bool
        ensures { result ≡ medium_at_end self.now.state }
    {
        self.inboxes.all_empty(self.systems, self.removed) && self.rsa.at_end()
    }

    /// Makes room in the manager's inbox for one request of the caller on an entry, where it goes there.
    fn reserve_request(&mut self, caller: SysId, entry: u32) -> Result<(), NoMemory>
        requires { entry < length self.old.state.words }
        ensures state { self.new.state ≡ self.old.state }
        ensures room { OnOk result (HasRoomOn self.new.ready (route (word self.new.state entry) caller)) }
    {
        match self.words.route(entry, caller) {
            Route::Sole => Ok(()),
            Route::To(manager) => self.inboxes.reserve(manager),
        }
    }

    /// Whether a call is neither answered Removed nor Stale: its caller wasn't removed, and knows which systems were.
    fn is_heard(&self, caller: SysId, call: &Call) -> bool
        requires { caller.0 < systems_of self.now.state }
        ensures { result ≡ is_heard self.now.state caller call.now }
    {
        !has_system(self.removed, caller) && call.known == self.removed
    }

    /// Whether this is a system that wasn't removed.
    fn is_live(&self, system: SysId) -> bool
        ensures { result ≡ is_live self.now.state system }
    {
        (system.0 as u32) < self.systems && !has_system(self.removed, system)
    }

    /// Makes room for a removal, where there is one: in ring mode in the message, for the entry that tells of it, and in
    /// star mode in the inboxes, with the lists that the notices have.
    fn reserve_removal(&mut self, target: SysId) -> Result<(), NoMemory>
        ensures state { self.new.state ≡ self.old.state }
        ensures room { OnOk result (HasRoomToPurge self.new target) }
    {
        if !self.is_live(target) {
            return Ok(());
        }
        if self.star {
            let moved = moved_by(self.alloc, &self.words, self.systems, target)?;
            self.inboxes.reserve_moved(moved)
        } else {
            self.rsa.reserve_places(1)
        }
    }

    /// Makes room for one act of the caller.
    fn reserve_act(&mut self, caller: SysId, act: &Act) -> Result<(), NoMemory>
        requires caller { caller.0 < systems_of self.old.state }
        requires fits { ActFits self.old.state caller act.now }
        ensures state { self.new.state ≡ self.old.state }
        ensures room { OnOk result (HasRoomForAct self.new caller act.now) }
    {
        match act {
            Act::Turn { out } => self.rsa.reserve(caller, out.len() as u32),
            Act::Submit { entry, req: _ } => self.reserve_request(caller, *entry),
            Act::Settle { to, mail: _ } | Act::Tell { to, mail: _ } => self.inboxes.reserve(*to),
            Act::Purge { target } => self.reserve_removal(*target),
            Act::Switch { words: _ } | Act::Take | Act::Leave { entry: _ } | Act::Rest => Ok(()),
        }
    }

    /// Makes room for one `apply` of this call. Where an entry that it would put into the message would have a number past
    /// the last that one may have, NoMemory is answered; a call that puts none in is never answered it for that.
    pub fn reserve(&mut self, caller: SysId, call: &Call) -> Result<(), NoMemory>
        requires { MayCall self.old.state caller call.now }
        ensures state { self.new.state ≡ self.old.state }
        ensures room { OnOk result (HasRoomFor self.new caller call.now) }
    {
        if self.is_heard(caller, call) {
            self.reserve_act(caller, &call.act)
        } else {
            Ok(())
        }
    }

    /// A Turn at the message clears the flag of rest of its caller where an entry is given or put in, and at the closed
    /// message always. The flags as they were before it are given.
    #[tactic(auto, unfolding(rsa_message::specs::Message::rest_after_turn))]
    fn wake_at_turn(&mut self, caller: SysId, count: u32) -> u32
        requires { caller.0 < systems_of self.old.state }
        ensures before { result ≡ self.old.state.rest }
        ensures state { self.new.state ≡ record self.old.state { rest = rest_after_turn self.old.state.message caller count self.old.state.rest } }
        ensures room { self.new.room ≡ self.old.room }
    {
        let rest = self.rest;
        if self.rsa.wakes(caller, count) {
            self.rest = without_system(rest, caller);
        }
        rest
    }

    /// A Turn of a caller that was not removed and knows which systems were.
    #[tactic(auto, unfolding(crate::specs::Apply::turn_row))]
    fn give(&mut self, caller: SysId, out: List<Req>) -> Reply
        requires caller { caller.0 < systems_of self.old.state }
        requires few { length out ≤ most_additions }
        requires room { HasRoom self.old.room caller (put_in self.old.state.message caller (length out)) }
        ensures reply { result ≡ (turn_row self.old.state caller out).0 }
        ensures state { self.new.state ≡ (turn_row self.old.state caller out).1 }
        ensures systems { systems_of self.new.state ≡ systems_of self.old.state }
    {
        let live = live_of(self.systems, self.removed);
        let rest = self.wake_at_turn(caller, out.len() as u32);
        self.rsa.turn(caller, out, live, rest)
    }

    /// What a Turn of the caller is answered whatever it would put in, which changes nothing; None exactly where the
    /// Turn gets to the message. So whether a Turn is refused is known before its requests are copied.
    #[tactic(auto, unfolding(crate::specs::TurnReplies::refusal))]
    pub fn turn_refusal(&self, caller: SysId, known: u32) -> Option<TurnRefusal>
        requires { caller.0 < systems_of self.now.state }
        ensures { option_map refusal_reply result ≡ refusal self.now.state caller known }
    {
        if has_system(self.removed, caller) {
            return Some(TurnRefusal::Removed);
        }
        if known != self.removed {
            return Some(TurnRefusal::Stale { set: self.removed });
        }
        if !self.rsa.stands_at(caller) {
            return Some(TurnRefusal::NotYours {
                at: self.rsa.holder(),
            });
        }
        None
    }

    /// Whether a Take of the caller finds its inbox empty. Such a call is answered Empty and changes nothing, so it need not be
    /// made.
    pub fn finds_nothing(&self, caller: SysId, known: u32) -> bool
        requires { caller.0 < systems_of self.now.state }
        ensures { result ≡ finds_nothing self.now.state caller known }
    {
        !has_system(self.removed, caller) && known == self.removed && self.inboxes.is_empty(caller)
    }

    /// The system at which the message stands; None where it stands nowhere any more, or never did.
    pub fn holder(&self) -> Option<SysId>
        ensures { result ≡ self.now.state.message.holder }
    {
        self.rsa.holder()
    }

    /// The entries of the message, in order.
    pub fn entries(&self) -> &[RingEntry]
        ensures { result.now ≡ self.now.state.message.entries }
    {
        self.rsa.entries()
    }

    /// Whether the message is closed.
    pub fn is_closed(&self) -> bool
        ensures { result ≡ self.now.state.message.closed }
    {
        self.rsa.is_closed()
    }

    /// Makes room for so many new entries of the message. One past the last number that one may have is answered
    /// NoMemory.
    pub fn reserve_places(&mut self, count: u32) -> Result<(), NoMemory>
        ensures state { self.new.state ≡ self.old.state }
        ensures places { OnOk result (HasPlaces self.new.room count) }
    {
        self.rsa.reserve_places(count)
    }

    /// What a Turn leaves that gets to the message: its requests go into the message, and the message goes on. It takes
    /// no memory.
    #[tactic(auto, unfolding(crate::specs::Apply::turn_row))]
    pub fn pass_on(&mut self, caller: SysId, out: List<Req>)
        requires caller { caller.0 < systems_of self.old.state }
        requires here { stands_at self.old.state.message.holder caller ≡ true }
        requires few { length out ≤ most_additions }
        requires places { HasPlaces self.old.room (taken self.old.state.message (length out)) }
        ensures state { self.new.state ≡ (turn_row self.old.state caller out).1 }
        ensures goes_on { WaitsForLive self.old.state → WaitsForLive self.new.state }
        ensures systems { systems_of self.new.state ≡ systems_of self.old.state }
    {
        let live = live_of(self.systems, self.removed);
        let rest = self.wake_at_turn(caller, out.len() as u32);
        self.rsa.pass_on(caller, out, live, rest);
    }

    /// Whom a request of the caller on an entry goes to.
    fn addressee(&self, caller: SysId, entry: u32) -> u32
        requires { entry < length self.now.state.words }
        ensures { result ≡ addressee (route (word self.now.state entry) caller) }
    {
        match self.words.route(entry, caller) {
            Route::Sole => 0,
            Route::To(manager) => with_system(0, manager),
        }
    }

    /// Where the message stands, as a set.
    fn at_message(&self) -> u32
        ensures { result ≡ just self.now.state.message.holder }
    {
        match self.rsa.holder() {
            Some(system) => with_system(0, system),
            None => 0,
        }
    }

    /// Whether all systems that aren't removed have come to rest, and nothing is left to do.
    fn is_over(&self) -> bool
        ensures { result ≡ is_over self.now.state }
    {
        all_at_rest(self.systems, self.removed, self.rest) && self.at_end()
    }

    /// The systems which a call may have given something to do that was made last, of this caller, and changed the medium:
    /// the one at which the message stands behind a Turn, whoever got mail, and all behind a Switch, a Purge and the Rest
    /// by which all is over.
    pub fn concerned(&self, caller: SysId, act: &Act) -> u32
        requires { ActFits self.now.state caller act.now }
        ensures { result ≡ concerned self.now.state caller act.now }
    {
        match act {
            Act::Turn { out: _ } => self.at_message(),
            Act::Submit { entry, req: _ } => self.addressee(caller, *entry),
            Act::Settle { to, mail: _ } | Act::Tell { to, mail: _ } => with_system(0, *to),
            Act::Switch { words: _ } | Act::Purge { target: _ } => live_of(self.systems, 0),
            Act::Rest if self.is_over() => live_of(self.systems, 0),
            Act::Rest | Act::Take | Act::Leave { entry: _ } => 0,
        }
    }

    /// The flag of rest of the caller is cleared.
    fn wake(&mut self, caller: SysId)
        requires { caller.0 < systems_of self.old.state }
        ensures state { self.new.state ≡ record self.old.state { rest = awake self.old.state caller } }
        ensures ready { self.new.ready ≡ self.old.ready }
    {
        self.rest = without_system(self.rest, caller);
    }

    /// The caller has interest in an entry from then on. It says where a request of it goes.
    #[tactic(auto, unfolding(lock_structure::specs::Words::route))]
    fn join(&mut self, caller: SysId, entry: u32) -> Route
        requires caller { caller.0 < systems_of self.old.state }
        requires entry { entry < length self.old.state.words }
        ensures route { result ≡ route (word self.old.state entry) caller }
        ensures state { self.new.state ≡ joined self.old.state caller entry }
        ensures ready { self.new.ready ≡ self.old.ready }
    {
        if self.words.is_managed_by(entry, caller) {
            return self.words.route(entry, caller);
        }
        self.wake(caller);
        self.words.submit(entry, caller)
    }

    /// The complex changes to star mode with these lock words. The message is closed.
    fn change_to_star(&mut self, caller: SysId, words: List<u32>)
        requires caller { caller.0 < systems_of self.old.state }
        requires fits { ActFits self.old.state caller (Act.Switch words) }
        ensures { self.new.state ≡ (switch_ring self.old.state caller words None).1 }
    {
        let live = live_of(self.systems, self.removed);
        self.wake(caller);
        self.star = true;
        self.words.install(words);
        self.rsa.close(caller, live);
    }

    /// A Switch.
    #[tactic(auto, unfolding(crate::specs::Apply::switch_row, rsa_message::specs::Message::closed_by))]
    fn switch(&mut self, caller: SysId, words: List<u32>) -> Reply
        requires caller { caller.0 < systems_of self.old.state }
        requires fits { ActFits self.old.state caller (Act.Switch words) }
        ensures reply { result ≡ (switch_row self.old.state caller words).0 }
        ensures state { self.new.state ≡ (switch_row self.old.state caller words).1 }
        ensures systems { systems_of self.new.state ≡ systems_of self.old.state }
    {
        if self.star {
            return Reply::Already;
        }
        match self.rsa.first_unseen(caller) {
            Some(first) => Reply::Behind { first },
            None => {
                self.change_to_star(caller, words);
                Reply::Switched
            }
        }
    }

    /// Whether a notice in the caller's inbox names an entry.
    fn is_noticed(&self, caller: SysId, entry: u32) -> bool
        requires { caller.0 < systems_of self.now.state }
        ensures { result ≡ is_noticed self.now.state caller entry }
    {
        self.inboxes.has_notice(caller, entry)
    }

    /// What a Submit or a Leave of an entry is answered that such a notice names.
    fn notice_reply(&self, caller: SysId, entry: u32) -> Reply
        requires { entry < length self.now.state.words }
        ensures { result ≡ notice_reply self.now.state caller entry }
    {
        if self.words.is_managed_by(entry, caller) {
            Reply::Yours
        } else {
            Reply::Old
        }
    }

    /// A Submit.
    #[tactic(auto, unfolding(crate::specs::Apply::submit_row))]
    fn submit(&mut self, caller: SysId, entry: u32, req: Req) -> Reply
        requires caller { caller.0 < systems_of self.old.state }
        requires entry { entry < length self.old.state.words }
        requires room { HasRoomOn self.old.ready (route (word self.old.state entry) caller) }
        ensures reply { result ≡ (submit_row self.old.state caller entry req).0 }
        ensures state { self.new.state ≡ (submit_row self.old.state caller entry req).1 }
        ensures systems { systems_of self.new.state ≡ systems_of self.old.state }
    {
        if self.is_noticed(caller, entry) {
            return self.notice_reply(caller, entry);
        }
        let route = self.join(caller, entry);
        match request_to(route, entry, caller, req) {
            Some((manager, mail)) => {
                self.inboxes.put(manager, mail);
                Reply::Sent
            }
            None => Reply::Sole,
        }
    }

    /// A Take.
    #[tactic(auto, unfolding(crate::specs::Apply::take_row))]
    fn take(&mut self, caller: SysId) -> Reply
        requires { caller.0 < systems_of self.old.state }
        ensures reply { result ≡ (take_row self.old.state caller).0 }
        ensures state { self.new.state ≡ (take_row self.old.state caller).1 }
        ensures systems { systems_of self.new.state ≡ systems_of self.old.state }
    {
        match self.inboxes.take(caller) {
            Some(mail) => {
                self.wake(caller);
                Reply::Taken { mail }
            }
            None => Reply::Empty,
        }
    }

    /// A mail of the caller to a system, by a Settle or a Tell.
    #[tactic(auto, unfolding(crate::specs::Apply::mail_row))]
    fn send(&mut self, caller: SysId, to: SysId, mail: Mail)
        requires caller { caller.0 < systems_of self.old.state }
        requires room { self.old.ready ≡ Some to }
        ensures state { self.new.state ≡ (mail_row Reply.Settled self.old.state caller to mail).1 }
        ensures systems { systems_of self.new.state ≡ systems_of self.old.state }
    {
        self.wake(caller);
        self.inboxes.put(to, mail);
    }

    /// A Leave.
    #[tactic(auto, unfolding(crate::specs::Apply::leave_row))]
    fn leave(&mut self, caller: SysId, entry: u32) -> Reply
        requires caller { caller.0 < systems_of self.old.state }
        requires entry { entry < length self.old.state.words }
        ensures reply { result ≡ (leave_row self.old.state caller entry).0 }
        ensures state { self.new.state ≡ (leave_row self.old.state caller entry).1 }
        ensures systems { systems_of self.new.state ≡ systems_of self.old.state }
    {
        if self.is_noticed(caller, entry) {
            return self.notice_reply(caller, entry);
        }
        if !self.words.leave_changes(entry, caller) {
            return self.words.leave_reply(entry, caller);
        }
        self.wake(caller);
        self.words.leave(entry, caller)
    }

    /// A Purge of a live system in star mode: it leaves the lock words and the message, its inbox is emptied, and each of the
    /// others gets a notice of the entries that it managed. All live flags of rest are cleared.
    fn purge_in_star(&mut self, target: SysId)
        requires live { is_live self.old.state target ≡ true }
        requires room { self.old.moved ≡ moved_by self.old.state.words (systems_of self.old.state) target }
        ensures state { self.new.state ≡ without_in_star self.old.state target }
        ensures systems { systems_of self.new.state ≡ systems_of self.old.state }
    {
        self.removed = with_system(self.removed, target);
        self.rest = woken(self.systems, self.removed, self.rest);
        self.rsa.depart(target);
        self.words.purge(target);
        self.inboxes.post(target);
    }

    /// A Purge of a live system in ring mode: an entry of the message tells of it.
    fn purge_in_ring(&mut self, caller: SysId, target: SysId)
        requires caller { caller.0 < systems_of self.old.state }
        requires live { is_live self.old.state target ≡ true }
        requires room { HasPlaces self.old.room 1 }
        ensures state { self.new.state ≡ without_in_ring self.old.state caller target }
        ensures systems { systems_of self.new.state ≡ systems_of self.old.state }
    {
        self.removed = with_system(self.removed, target);
        self.rest = without_system(self.rest, caller);
        let live = live_of(self.systems, self.removed);
        self.rsa.drop_system(caller, target, live);
    }

    /// A Purge.
    #[tactic(auto, unfolding(crate::specs::Apply::purge_row))]
    fn purge(&mut self, caller: SysId, target: SysId) -> Reply
        requires caller { caller.0 < systems_of self.old.state }
        requires room { HasRoomToPurge self.old target }
        ensures reply { result ≡ (purge_row self.old.state caller target).0 }
        ensures state { self.new.state ≡ (purge_row self.old.state caller target).1 }
        ensures systems { systems_of self.new.state ≡ systems_of self.old.state }
    {
        if !self.is_live(target) {
            return Reply::NoSuch;
        }
        if self.star {
            self.purge_in_star(target);
            return Reply::Purged;
        }
        self.purge_in_ring(caller, target);
        Reply::Purged
    }

    /// Whether all is over once the system has come to rest.
    #[tactic(auto, unfolding(crate::specs::Apply::rest_row, crate::specs::Medium::medium_at_end))]
    fn rest_reply(&self, caller: SysId) -> Reply
        requires { caller.0 < systems_of self.now.state }
        ensures { result ≡ (rest_row self.now.state caller).0 }
    {
        let systems = self.systems;
        let rest = with_system(self.rest, caller);
        if all_at_rest(systems, self.removed, rest) && self.at_end() {
            Reply::Over
        } else {
            Reply::Resting
        }
    }

    /// A Rest.
    #[tactic(auto, unfolding(crate::specs::Apply::rest_row))]
    fn rest(&mut self, caller: SysId) -> Reply
        requires { caller.0 < systems_of self.old.state }
        ensures reply { result ≡ (rest_row self.old.state caller).0 }
        ensures state { self.new.state ≡ (rest_row self.old.state caller).1 }
        ensures systems { systems_of self.new.state ≡ systems_of self.old.state }
    {
        let reply = self.rest_reply(caller);
        self.rest = with_system(self.rest, caller);
        reply
    }

    /// The row of an act.
    #[tactic(auto, unfolding(crate::specs::Apply::row, crate::specs::Apply::mail_row))]
    fn act(&mut self, caller: SysId, act: Act) -> Reply
        requires caller { caller.0 < systems_of self.old.state }
        requires fits { ActFits self.old.state caller act }
        requires room { HasRoomForAct self.old caller act }
        ensures reply { result ≡ (row self.old.state caller act).0 }
        ensures state { self.new.state ≡ (row self.old.state caller act).1 }
        ensures systems { systems_of self.new.state ≡ systems_of self.old.state }
    {
        match act {
            Act::Turn { out } => self.give(caller, out),
            Act::Switch { words } => self.switch(caller, words),
            Act::Submit { entry, req } => self.submit(caller, entry, req),
            Act::Take => self.take(caller),
            Act::Settle { to, mail } => {
                self.send(caller, to, mail);
                Reply::Settled
            }
            Act::Tell { to, mail } => {
                self.send(caller, to, mail);
                Reply::Told
            }
            Act::Leave { entry } => self.leave(caller, entry),
            Act::Purge { target } => self.purge(caller, target),
            Act::Rest => self.rest(caller),
        }
    }

    /// One call of the medium: its reply, by the table of the medium. It takes no memory.
    ///
    /// Removed comes exactly where the caller was removed; else Stale exactly where the caller doesn't know of all
    /// removed systems. A Turn is answered NotYours exactly where the message isn't at the caller. A Switch is
    /// answered Already exactly in star mode, and else Behind exactly where the caller has yet to process an entry. A
    /// Purge is answered NoSuch exactly where the target was removed or is no system, and else Purged. A Submit or a Leave
    /// of a lock entry that a notice in the caller's inbox names is answered Yours exactly where the caller manages it, and
    /// else Old.
    /// A Rest is answered Over exactly where all that aren't removed are then at rest and nothing is left to do.
    /// A Take is answered Empty exactly where the caller's inbox is empty, and a Leave Kept exactly where the caller
    /// manages the lock entry and others have interest in it as well.
    #[tactic(auto, unfolding(crate::specs::Apply::apply))]
    pub fn apply(&mut self, caller: SysId, call: Call) -> Reply
        requires call { MayCall self.old.state caller call }
        requires room { HasRoomFor self.old caller call }
        ensures reply { result ≡ reply_to self.old.state caller call }
        ensures state { self.new.state ≡ medium_after self.old.state caller call }
        ensures goes_on { WaitsForLive self.old.state → WaitsForLive self.new.state }
        ensures systems { systems_of self.new.state ≡ systems_of self.old.state }
    {
        // An act that isn't heard is dropped by a call: dropped here, each of its parts would take room at every call.
        let Call { known, act } = call;
        if has_system(self.removed, caller) {
            drop(act);
            return Reply::Removed;
        }
        if known != self.removed {
            drop(act);
            return Reply::Stale { set: self.removed };
        }
        self.act(caller, act)
    }

    /// What a Purge would be answered, and whether it would change the medium.
    #[tactic(auto, unfolding(crate::specs::Apply::purge_row, crate::specs::Apply::row_changes))]
    fn preview_purge(&self, caller: SysId, target: SysId) -> (Reply, bool)
        requires { caller.0 < systems_of self.now.state }
        ensures reply { result.0 ≡ (purge_row self.now.state caller target).0 }
        ensures changes { result.1 ≡ row_changes self.now.state caller (Act.Purge target) }
    {
        if !self.is_live(target) {
            return (Reply::NoSuch, false);
        }
        (Reply::Purged, true)
    }

    /// What a Switch would be answered, whatever words it has.
    #[tactic(auto, unfolding(crate::specs::Apply::switch_row))]
    fn preview_switch(&self, caller: SysId) -> (Reply, bool)
        requires { caller.0 < systems_of self.now.state }
        ensures reply { (words : ListSpec ℕ) → result.0 ≡ (switch_row self.now.state caller words).0 }
        ensures changes { result.1 ≡ (not self.now.state.star && is_none (first_number (unseen caller self.now.state.message.entries))) }
    {
        if self.star {
            return (Reply::Already, false);
        }
        match self.rsa.first_unseen(caller) {
            Some(first) => (Reply::Behind { first }, false),
            None => (Reply::Switched, true),
        }
    }

    /// What a Submit would be answered.
    #[tactic(auto, unfolding(crate::specs::Apply::submit_row))]
    fn preview_submit(&self, caller: SysId, entry: u32) -> (Reply, bool)
        requires caller { caller.0 < systems_of self.now.state }
        requires entry { entry < length self.now.state.words }
        ensures reply { (req : ReqSpec) → result.0 ≡ (submit_row self.now.state caller entry req).0 }
        ensures changes { result.1 ≡ (not (is_noticed self.now.state caller entry) && not (manages self.now.state caller entry)) }
    {
        if self.is_noticed(caller, entry) {
            return (self.notice_reply(caller, entry), false);
        }
        let reply = match self.words.route(entry, caller) {
            Route::Sole => Reply::Sole,
            Route::To(_) => Reply::Sent,
        };
        (reply, !self.words.is_managed_by(entry, caller))
    }

    /// What a Take would be answered, with a copy of the mail.
    #[tactic(auto, unfolding(crate::specs::Apply::take_row))]
    fn preview_take(&self, caller: SysId) -> Result<(Reply, bool), NoMemory>
        requires { caller.0 < systems_of self.now.state }
        ensures reply { IfOk result (λ shown. shown.0 ≡ (take_row self.now.state caller).0) }
        ensures changes { IfOk result (λ shown. shown.1 ≡ not (is_empty (inbox self.now.state caller.0))) }
    {
        match self.inboxes.copy_first(caller)? {
            Some(mail) => Ok((Reply::Taken { mail }, true)),
            None => Ok((Reply::Empty, false)),
        }
    }

    /// What a Leave would be answered.
    #[tactic(auto, unfolding(crate::specs::Apply::leave_row))]
    fn preview_leave(&self, caller: SysId, entry: u32) -> (Reply, bool)
        requires caller { caller.0 < systems_of self.now.state }
        requires entry { entry < length self.now.state.words }
        ensures reply { result.0 ≡ (leave_row self.now.state caller entry).0 }
        ensures changes { result.1 ≡ (not (is_noticed self.now.state caller entry) && leave_changes (word self.now.state entry) caller) }
    {
        if self.is_noticed(caller, entry) {
            return (self.notice_reply(caller, entry), false);
        }
        (
            self.words.leave_reply(entry, caller),
            self.words.leave_changes(entry, caller),
        )
    }

    /// What a call would be answered, and whether it changes the medium, by the table of calls.
    #[tactic(auto, unfolding(crate::specs::Apply::apply, crate::specs::Apply::row, crate::specs::Apply::turn_row, crate::specs::Apply::mail_row, crate::specs::Apply::changes, crate::specs::Apply::row_changes))]
    fn preview_row(&self, caller: SysId, call: &Call) -> Result<(Reply, bool), NoMemory>
        requires { MayCall self.now.state caller call.now }
        ensures reply { IfOk result (λ shown. shown.0 ≡ reply_to self.now.state caller call.now) }
        ensures changes { IfOk result (λ shown. shown.1 ≡ changes self.now.state caller call.now) }
    {
        if has_system(self.removed, caller) {
            return Ok((Reply::Removed, false));
        }
        if call.known != self.removed {
            return Ok((Reply::Stale { set: self.removed }, false));
        }
        let live = live_of(self.systems, self.removed);
        match &call.act {
            Act::Turn { out } => self
                .rsa
                .preview_turn(caller, out.len() as u32, live, self.rest),
            Act::Switch { words: _ } => Ok(self.preview_switch(caller)),
            Act::Submit { entry, req: _ } => Ok(self.preview_submit(caller, *entry)),
            Act::Take => self.preview_take(caller),
            Act::Settle { to: _, mail: _ } => Ok((Reply::Settled, true)),
            Act::Tell { to: _, mail: _ } => Ok((Reply::Told, true)),
            Act::Leave { entry } => Ok(self.preview_leave(caller, *entry)),
            Act::Purge { target } => Ok(self.preview_purge(caller, *target)),
            Act::Rest => Ok((self.rest_reply(caller), !has_system(self.rest, caller))),
        }
    }

    /// The reply that `apply` of this call would give, and whether it would change the medium: whether the medium
    /// differs behind it. That the entry of a Purge would have a number past the last that one may have is for `reserve`
    /// to say, and not said here.
    pub fn preview(&self, caller: SysId, call: &Call) -> Result<(Reply, bool), NoMemory>
        requires { MayCall self.now.state caller call.now }
        ensures reply { IfOk result (λ shown. shown.0 ≡ reply_to self.now.state caller call.now) }
        ensures changes { IfOk result (λ shown. shown.1 ≡ changes self.now.state caller call.now) }
        ensures differs { IfOk result (λ shown. TellsChanges self.now.state caller call.now shown.1) }
    {
        // That the medium differs is shown by what always holds of its parts: the inboxes are its systems', and the lock words
        // name these as managers. A read brings that in.
        let _systems = &self.systems;
        self.preview_row(caller, call)
    }
}
