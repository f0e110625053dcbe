//! The lock words of all entries.
ghost use Rattle.std.specs.Prelude.{◌≡◌, ◌<◌, ◌^◌, ◌++◌, length, replicate, slice_set, filter, IfOk, OnOk};
ghost use Rattle.grs_base.specs.Limits.{most_systems};
ghost use Rattle.grs_wire.specs.LockWords.{manager, is_manager, leave_reply, leave_changes};
ghost use Rattle.grs_wire.specs.Masks.{has};
ghost use Rattle.lock_structure.specs.Words.{word_at, route, submitted_words, left_words};
ghost use Rattle.lock_structure.specs.Purge.{purged_words, moved_at, moved_for};

use crate::word;
use crate::word::Route;
use grs_base::{List, NoMemory, SysId};
use grs_wire::masks::has_system;
use grs_wire::{Moved, Reply};
use std::alloc::Global;
use std::marker::Model;
use std::mem;

/// A lock word for each entry, by number. Contracts see them as a list.
#[derive(Drop)]
pub struct Words {
    alloc: Global,
    words: List<u32>,
}

impl Model for Words {
    ghost use Rattle.std.specs.Prelude.{ℕ, List};

    ghost Value = { List ℕ };

    ghost view = { λ w. w.words };
}

impl Words {
    /// So many entries in which nobody has interest.
    pub fn new(alloc: Global, entries: u32) -> Result<Words, NoMemory>
        ensures { IfOk result (λ words. words ≡ replicate entries 0) }
    {
        match Vec::from_elem(alloc, 0, entries as usize) {
            Ok(words) => Ok(Words {
                alloc,
                words: List::from_vec(words),
            }),
            Err(_) => Err(NoMemory),
        }
    }

    /// The words.
    pub fn words(&self) -> &List<u32>
        ensures { result.now ≡ self.now }
    {
        &self.words
    }

    /// The word of an entry.
    fn word(&self, entry: u32) -> u32
        requires { entry < length self.now }
        ensures { result ≡ word_at self.now entry }
    {
        self.words.as_slice()[entry as usize]
    }

    /// Puts the word of an entry in place of the one that was there.
    fn put(&mut self, entry: u32, word: u32)
        requires { entry < length self.old }
        ensures { self.new ≡ slice_set self.old entry word }
    {
        // A list lends no item to be changed, so it is a vector meanwhile. Neither takes memory.
        let mut words = mem::replace(&mut self.words, List::new(self.alloc)).into_vec();
        words[entry as usize] = word;
        self.words = List::from_vec(words);
    }

    /// These words in place of all that were there, as many.
    pub fn install(&mut self, words: List<u32>)
        requires { length words ≡ length self.old }
        ensures { self.new ≡ words }
    {
        self.words = words;
    }

    /// Where a request of the caller on an entry goes.
    pub fn route(&self, entry: u32, caller: SysId) -> Route
        requires { entry < length self.now }
        ensures { result ≡ route (word_at self.now entry) caller }
    {
        word::route_of(self.word(entry), caller)
    }

    /// Whether the caller manages an entry.
    pub fn is_managed_by(&self, entry: u32, caller: SysId) -> bool
        requires { entry < length self.now }
        ensures { result ≡ is_manager (manager (word_at self.now entry)) caller }
    {
        word::is_managed_by(self.word(entry), caller)
    }

    /// The caller submits a request on an entry. It says where the request goes.
    pub fn submit(&mut self, entry: u32, caller: SysId) -> Route
        requires entry { entry < length self.old }
        requires caller { caller.0 < most_systems }
        ensures route { result ≡ route (word_at self.old entry) caller }
        ensures words { self.new ≡ submitted_words self.old entry caller }
    {
        let before = self.word(entry);
        self.put(entry, word::submitted(before, caller));
        word::route_of(before, caller)
    }

    /// What the caller would be answered that gives up its interest in an entry.
    pub fn leave_reply(&self, entry: u32, caller: SysId) -> Reply
        requires entry { entry < length self.now }
        requires caller { caller.0 < most_systems }
        ensures { result ≡ leave_reply (word_at self.now entry) caller }
    {
        word::leave_reply(self.word(entry), caller)
    }

    /// Whether the word of an entry changes where the caller gives up its interest.
    pub fn leave_changes(&self, entry: u32, caller: SysId) -> bool
        requires entry { entry < length self.now }
        requires caller { caller.0 < most_systems }
        ensures { result ≡ leave_changes (word_at self.now entry) caller }
    {
        word::leave_changes(self.word(entry), caller)
    }

    /// The caller gives up its interest in an entry, unless it manages it and others have interest.
    pub fn leave(&mut self, entry: u32, caller: SysId) -> Reply
        requires entry { entry < length self.old }
        requires caller { caller.0 < most_systems }
        ensures reply { result ≡ leave_reply (word_at self.old entry) caller }
        ensures words { self.new ≡ left_words self.old entry caller }
    {
        let before = self.word(entry);
        self.put(entry, word::left(before, caller));
        word::leave_reply(before, caller)
    }

    /// A system is removed: it loses its interest in all entries. Where it managed one, the least of the others that
    /// have interest in it does, in the next epoch; where nobody has, it is without a manager.
    pub fn purge(&mut self, target: SysId)
        requires { target.0 < most_systems }
        ensures { self.new ≡ purged_words self.old target }
    {
        let mut words = mem::replace(&mut self.words, List::new(self.alloc)).into_vec();
        purge_all(&mut words, target);
        self.words = List::from_vec(words);
    }

    /// What a system gets to know once another one is removed: the entries that this one managed and in which it has
    /// interest, by number, as they are behind the removal. NoMemory comes where there is none for the list.
    #[tactic(auto, using(crate::proofs::MovedLaws::moving))]
    pub fn moved_for(&self, target: SysId, system: SysId) -> Result<List<Moved>, NoMemory>
        requires target { target.0 < most_systems }
        requires system { system.0 < most_systems }
        requires entries { length self.now < 2 ^ 32 }
        ensures { IfOk result (λ items. items ≡ moved_for self.now target system) }
    {
        let mut items = List::new(self.alloc);
        for entry in 0..self.words.len() {
            let word = self.words.as_slice()[entry];
            add_moved(&mut items, entry as u32, word, target, system)?;
        }
        Ok(items)
    }
}

/// Takes a removed system out of each word.
#[tactic(auto, using(crate::proofs::MovedLaws::purging))]
fn purge_all(words: &mut Vec<u32>, target: SysId)
    requires { target.0 < most_systems }
    ensures { words.new.items ≡ purged_words words.old.items target }
{
    for entry in 0..words.len() {
        let slot = &mut words[entry];
        *slot = word::purged(*slot, target);
    }
}

/// Puts last what a system gets to know of an entry with this word, where it has interest in it.
fn add_moved(
    items: &mut List<Moved>,
    entry: u32,
    word: u32,
    target: SysId,
    system: SysId,
) -> Result<(), NoMemory>
    requires target { target.0 < most_systems }
    requires system { system.0 < most_systems }
    ensures { OnOk result (items.new ≡ items.old ++ filter (λ m. has m.mask system.0) (moved_at entry word target)) }
{
    match word::moved(entry, word, target) {
        Some(item) => {
            if has_system(item.mask, system) {
                items.push(item)
            } else {
                Ok(())
            }
        }
        None => Ok(()),
    }
}
