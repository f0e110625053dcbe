//! The heads of the queues, each under its queue's number: the queue's circle of elements and how many of them are
//! exclusive, so that nobody has to go round to know.
ghost use Rattle.std.specs.Prelude.{◌≡◌, ◌<◌, ◌≤◌, ◌+◌, ◌==◌, ℕ, true, length, cond, IfOk, OnErr};
ghost use Rattle.qel_store.specs.Heads.{no_head, head_at, is_free_at, exclusive_one, with_elem, without_elem, with_exclusive, in_use as used};

use super::rings::Ring;
use grs_base::{Ctl, NoMemory};

/// One queue. One that isn't in use has no elements, and names the next such queue.
#[derive(Clone, Copy)]
pub(crate) struct Head {
    pub live: bool,
    pub next_free: u32,
    pub ring: Ring,
    pub exclusives: u32,
}

impl Head {
    /// A queue that isn't in use.
    fn none() -> Head
        ensures { result ≡ no_head }
    {
        Head {
            live: false,
            next_free: 0,
            ring: Ring::empty(),
            exclusives: 0,
        }
    }

    /// With an element more, put last.
    pub(crate) fn with(self, key: u32, ctl: Ctl) -> Head
        requires ring { self.ring.len < 0xffff_ffff }
        requires exclusives { self.exclusives < 0xffff_ffff }
        ensures { result ≡ with_elem self key ctl }
    {
        let mut head = self;
        head.ring = self.ring.with(key);
        match ctl {
            Ctl::E => head.exclusives += 1,
            Ctl::S => {}
        }
        head
    }

    /// Without an element, which led to this next one.
    pub(crate) fn without(self, key: u32, next: u32, ctl: Ctl) -> Head
        requires { exclusive_one ctl ≤ self.exclusives }
        ensures { result ≡ without_elem self key next ctl }
    {
        let mut head = self;
        head.ring = self.ring.without(key, next);
        match ctl {
            Ctl::E => head.exclusives -= 1,
            Ctl::S => {}
        }
        head
    }

    /// With one shared element made exclusive.
    pub(crate) fn excluded(self) -> Head
        requires { self.exclusives < 0xffff_ffff }
        ensures { result ≡ with_exclusive self }
    {
        let mut head = self;
        head.exclusives += 1;
        head
    }

    /// Taken into use, or let go.
    pub(crate) fn in_use(self, live: bool, next_free: u32) -> Head
        ensures { result ≡ used self live next_free }
    {
        let mut head = self;
        head.live = live;
        head.next_free = next_free;
        head
    }
}

/// The head of a queue.
#[tactic(auto, using(crate::proofs::HeadLemmas::heads))]
pub(crate) fn head_of(heads: &Vec<Head>, queue: u32) -> Head
    requires { queue < length heads.now.items }
    ensures { result ≡ head_at heads.now.items queue }
{
    heads[queue as usize]
}

/// A queue gets another head.
#[tactic(auto, using(crate::proofs::HeadLemmas::heads))]
pub(crate) fn set_head(heads: &mut Vec<Head>, queue: u32, head: Head)
    requires { queue < length heads.old.items }
    ensures len { length heads.new.items ≡ length heads.old.items }
    ensures heads { (q : ℕ) → head_at heads.new.items q ≡ cond (q == queue) head (head_at heads.old.items q) }
{
    heads[queue as usize] = head;
}

/// Whether a queue is there and not in use.
#[tactic(auto, using(crate::proofs::HeadLemmas::heads))]
fn is_free(heads: &Vec<Head>, queue: u32) -> bool
    ensures { result ≡ is_free_at heads.now.items queue }
{
    let at = queue as usize;
    at < heads.len() && !heads[at].live
}

/// Puts a queue that isn't in use behind the others, and gives its number.
#[tactic(auto, using(crate::proofs::HeadLemmas::heads))]
fn add_head(heads: &mut Vec<Head>) -> Result<u32, NoMemory>
    ensures number { IfOk result (λ number. number ≡ length heads.old.items) }
    ensures few { IfOk result (λ number. number < 0xffff_ffff) }
    ensures len { IfOk result (λ number. length heads.new.items ≡ number + 1) }
    ensures heads { (q : ℕ) → head_at heads.new.items q ≡ head_at heads.old.items q }
    ensures err { OnErr result (heads.new.items ≡ heads.old.items) }
{
    let number = heads.len();
    if number >= 0xffff_ffff {
        return Err(NoMemory);
    }
    match heads.push(Head::none()) {
        Ok(()) => Ok(number as u32),
        Err(_) => Err(NoMemory),
    }
}

/// A queue that isn't in use: this one, or else one more behind the others.
pub(crate) fn reserve_head(heads: &mut Vec<Head>, free: u32) -> Result<u32, NoMemory>
    requires { length heads.old.items ≤ 0xffff_ffff }
    ensures few { length heads.new.items ≤ 0xffff_ffff }
    ensures heads { (q : ℕ) → head_at heads.new.items q ≡ head_at heads.old.items q }
    ensures free { IfOk result (λ number. is_free_at heads.new.items number ≡ true) }
{
    if is_free(heads, free) {
        return Ok(free);
    }
    let number = add_head(heads)?;
    Ok(number)
}
