//! An inbox for each system.
ghost use Rattle.std.specs.Prelude.{◌≡◌, ◌<◌, ◌≤◌, ◌++◌, [], true, length, replicate, map, IfOk, OnOk, Some, None};
ghost use Rattle.std.specs.VecDeque.{deque_len, deque_capacity};
ghost use Rattle.grs_base.specs.Limits.{most_systems};
ghost use Rattle.grs_wire.specs.Masks.{all_others};
ghost use Rattle.grs_wire.specs.Notices.{noticed};
ghost use Rattle.grs_medium.specs.Inboxes.{inbox_of, is_empty, first_mail, with_mail, without_first, has_news, notices_to, posted, emptied, HaveSpace};

use grs_base::{List, NoMemory, SysId};
use grs_wire::masks::has_system;
use grs_wire::{Mail, Moved};
use std::alloc::Global;
use std::collections::VecDeque;
use std::marker::Model;
use std::mem;

/// The inboxes of the systems, by number. Contracts see the mail of each in order of arrival, whose inbox has room for one
/// more, and what each system is to get to know by a removal, where that was got ready.
#[derive(Drop)]
pub struct Inboxes {
    alloc: Global,
    boxes: Vec<VecDeque<Mail>>,
    ready: Option<SysId>,
    moved: Vec<List<Moved>>,
}

impl Model for Inboxes {
    ghost use Rattle.std.specs.Prelude.{◌≡◌, map, Some};
    ghost use Rattle.std.specs.VecDeque.{deque_len, deque_capacity};
    ghost use Rattle.grs_base.specs.declared.resource.SysId.{SysId as SysIdSpec};
    ghost use Rattle.grs_medium.specs.Inboxes.{InboxesValue, HasSpace, HaveSpace};

    ghost Value = { InboxesValue };

    ghost view = { λ i. record { mail = map (λ b. b.items) i.boxes.items; ready = i.ready; moved = i.moved.items } };

    ghost invariant = { λ i. ((s : SysIdSpec) → i.ready ≡ Some s → HasSpace i.boxes.items (λ b. deque_len b) (λ b. deque_capacity b) s) × HaveSpace i.moved.items i.boxes.items (λ b. deque_len b) (λ b. deque_capacity b) };
}

/// So many empty inboxes.
fn empty_boxes(alloc: Global, systems: u32) -> Result<Vec<VecDeque<Mail>>, NoMemory>
    ensures { IfOk result (λ boxes. map (λ b. b.items) boxes.items ≡ replicate systems []) }
{
    let mut boxes = Vec::new(alloc);
    for _ in 0..systems {
        if boxes.push(VecDeque::new(alloc)).is_err() {
            return Err(NoMemory);
        }
    }
    Ok(boxes)
}

/// Whether a notice in an inbox names a lock entry.
fn any_names(inbox: &VecDeque<Mail>, entry: u32) -> bool
    ensures { result ≡ noticed entry inbox.now.items }
{
    inbox.iter().any(|mail| mail.names(entry))
}

/// Makes room for a mail where a system is to get to know something.
fn make_room(inbox: &mut VecDeque<Mail>, items: &[Moved]) -> Result<(), NoMemory>
    ensures mail { inbox.new.items ≡ inbox.old.items }
    ensures len { deque_len inbox.new ≡ deque_len inbox.old }
    ensures capacity { deque_capacity inbox.old ≤ deque_capacity inbox.new }
    ensures room { OnOk result (has_news items.now ≡ true → deque_len inbox.new < deque_capacity inbox.new) }
{
    if items.is_empty() {
        return Ok(());
    }
    match inbox.reserve(1) {
        Ok(()) => Ok(()),
        Err(_) => Err(NoMemory),
    }
}

/// The same in the inboxes of all systems.
fn make_all_room(boxes: &mut Vec<VecDeque<Mail>>, moved: &[List<Moved>]) -> Result<(), NoMemory>
    requires { length moved.now ≤ length boxes.old.items }
    ensures mail { map (λ b. b.items) boxes.new.items ≡ map (λ b. b.items) boxes.old.items }
    ensures room { OnOk result (HaveSpace moved.now boxes.new.items (λ b. deque_len b) (λ b. deque_capacity b)) }
{
    for s in 0..moved.len() {
        let inbox = &mut boxes[s];
        make_room(inbox, moved[s].as_slice())?;
    }
    Ok(())
}

/// Puts a notice of these lock entries last into an inbox, where there are any.
fn post(inbox: &mut VecDeque<Mail>, target: SysId, moved: List<Moved>)
    requires { has_news moved ≡ true → deque_len inbox.old < deque_capacity inbox.old }
    ensures { inbox.new.items ≡ inbox.old.items ++ notices_to target moved }
{
    if !moved.as_slice().is_empty() {
        inbox.push_back_reserved(Mail::Notice { target, moved });
    }
}

/// The same in the inboxes of all systems, the last one first.
fn post_all(boxes: &mut Vec<VecDeque<Mail>>, target: SysId, moved: &mut Vec<List<Moved>>)
    requires count { length moved.old.items ≤ length boxes.old.items }
    requires room { HaveSpace moved.old.items boxes.old.items (λ b. deque_len b) (λ b. deque_capacity b) }
    ensures { map (λ b. b.items) boxes.new.items ≡ posted target moved.old.items (map (λ b. b.items) boxes.old.items) }
{
    'systems: while let Some(items) = moved.pop() {
        let inbox = &mut boxes[moved.len()];
        post(inbox, target, items);
    }
}

impl Inboxes {
    /// So many empty inboxes.
    pub fn new(alloc: Global, systems: u32) -> Result<Inboxes, NoMemory>
        ensures { IfOk result (λ inboxes. inboxes.mail ≡ replicate systems []) }
    {
        let boxes = empty_boxes(alloc, systems)?;
        Ok(Inboxes {
            alloc,
            boxes,
            ready: None,
            moved: Vec::new(alloc),
        })
    }

    /// Makes room for one mail to this system.
    pub fn reserve(&mut self, to: SysId) -> Result<(), NoMemory>
        requires { to.0 < length self.old.mail }
        ensures mail { self.new.mail ≡ self.old.mail }
        ensures ready { OnOk result (self.new.ready ≡ Some to) }
    {
        self.ready = None;
        self.moved = Vec::new(self.alloc);
        let inbox = &mut self.boxes[to.0 as usize];
        if inbox.reserve(1).is_err() {
            return Err(NoMemory);
        }
        self.ready = Some(to);
        Ok(())
    }

    /// Puts a mail last into the inbox of this system. It takes no memory.
    pub fn put(&mut self, to: SysId, mail: Mail)
        requires { self.old.ready ≡ Some to }
        ensures { self.new.mail ≡ with_mail self.old.mail to.0 mail }
    {
        self.ready = None;
        self.moved = Vec::new(self.alloc);
        let inbox = &mut self.boxes[to.0 as usize];
        inbox.push_back_reserved(mail);
    }

    /// Gets ready what each system is to get to know by the removal of another, by number, with room for its mail.
    pub fn reserve_moved(&mut self, moved: Vec<List<Moved>>) -> Result<(), NoMemory>
        requires { length moved.items ≤ length self.old.mail }
        ensures mail { self.new.mail ≡ self.old.mail }
        ensures moved { OnOk result (self.new.moved ≡ moved.items) }
    {
        self.ready = None;
        self.moved = Vec::new(self.alloc);
        make_all_room(&mut self.boxes, moved.as_slice())?;
        self.moved = moved;
        Ok(())
    }

    /// A system is removed: its inbox is emptied, and each other gets a notice of what was got ready for it, last into its
    /// inbox. It takes no memory.
    pub fn post(&mut self, target: SysId)
        requires system { target.0 < length self.old.mail }
        requires count { length self.old.moved ≤ length self.old.mail }
        ensures { self.new.mail ≡ posted target self.old.moved (emptied self.old.mail target.0) }
    {
        self.ready = None;
        let mut moved = mem::replace(&mut self.moved, Vec::new(self.alloc));
        let inbox = &mut self.boxes[target.0 as usize];
        inbox.clear();
        post_all(&mut self.boxes, target, &mut moved);
    }

    /// Takes the first mail out of the inbox of this system.
    pub fn take(&mut self, of: SysId) -> Option<Mail>
        requires { of.0 < length self.old.mail }
        ensures first { result ≡ first_mail (inbox_of self.old.mail of.0) }
        ensures mail { self.new.mail ≡ without_first self.old.mail of.0 }
    {
        self.ready = None;
        self.moved = Vec::new(self.alloc);
        let inbox = &mut self.boxes[of.0 as usize];
        inbox.pop_front()
    }

    /// A copy of the first mail in the inbox of this system.
    pub fn copy_first(&self, of: SysId) -> Result<Option<Mail>, NoMemory>
        requires { of.0 < length self.now.mail }
        ensures { IfOk result (λ first. first ≡ first_mail (inbox_of self.now.mail of.0)) }
    {
        match self.boxes[of.0 as usize].front() {
            Some(mail) => Ok(Some(mail.copy(self.alloc)?)),
            None => Ok(None),
        }
    }

    /// Whether a notice in the inbox of this system names a lock entry.
    pub fn has_notice(&self, of: SysId, entry: u32) -> bool
        requires { of.0 < length self.now.mail }
        ensures { result ≡ noticed entry (inbox_of self.now.mail of.0) }
    {
        any_names(&self.boxes[of.0 as usize], entry)
    }

    /// Whether the inbox of this system is empty.
    pub fn is_empty(&self, of: SysId) -> bool
        requires { of.0 < length self.now.mail }
        ensures { result ≡ is_empty (inbox_of self.now.mail of.0) }
    {
        self.boxes[of.0 as usize].is_empty()
    }

    /// Whether the inbox of each system that isn't removed is empty.
    #[tactic(auto, using(crate::proofs::SetLaws::all_others_false))]
    pub fn all_empty(&self, systems: u32, removed: u32) -> bool
        requires few { systems ≤ most_systems }
        requires boxes { length self.now.mail ≡ systems }
        ensures { result ≡ all_others systems removed (λ s. is_empty (inbox_of self.now.mail s)) }
    {
        for s in 0..systems {
            let system = SysId(s as u8);
            if !(has_system(removed, system) || self.is_empty(system)) {
                return false;
            }
        }
        true
    }
}
