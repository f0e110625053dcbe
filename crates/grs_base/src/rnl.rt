//! Resource name lists, as GRSRNLxx has them: their entries, and the three lists of a deck. Nothing here
//! knows what an entry matches. (z/OS MVS Planning: Global Resource Serialization, "Resource name lists".)
ghost use Rattle.std.specs.Prelude.{◌≡◌, IfOk};

use super::NoMemory;
use super::list::{Copied, List, copy_all};
use super::look::copy_rname;
use super::name::{Qname, Rname};
use std::alloc::Global;
use std::marker::Model;

/// Which of the three lists.
#[derive(Clone, Copy, Debug, PartialEq, Eq)]
pub enum Which {
    /// The inclusion list: requests of one system that become requests of the whole complex.
    Incl,
    /// The exclusion list: requests of the whole complex that stay in one system.
    Excl,
    /// The conversion list: RESERVEs that need no hardware reserve.
    Con,
}

/// How the names of an entry are compared with those of a request.
#[derive(Clone, Copy, Debug, PartialEq, Eq)]
pub enum Form {
    /// Both names are equal.
    Specific,
    /// The qname is equal, and the rname begins with the entry's.
    Generic,
    /// `*` stands for any bytes, `?` for any one.
    Pattern,
}

/// An entry of a name list. Without an rname, a generic entry and a pattern match every rname, and a
/// specific one none.
#[derive(Drop)]
pub struct RnlEntry {
    pub which: Which,
    pub form: Form,
    pub q: Qname,
    pub r: Option<Rname>,
}

impl RnlEntry {
    /// An equal entry.
    pub fn copy(&self, alloc: Global) -> Result<RnlEntry, NoMemory>
        ensures { IfOk result (λ entry. entry ≡ self.now) }
    {
        let q = self.q.copy(alloc)?;
        let r = copy_rname(alloc, &self.r)?;
        Ok(RnlEntry {
            which: self.which,
            form: self.form,
            q,
            r,
        })
    }
}

impl Copied for RnlEntry {
    fn copied(&self, alloc: Global) -> Result<RnlEntry, NoMemory> {
        self.copy(alloc)
    }
}

/// A name list, seen as which one it is and its entries in order.
#[derive(Drop)]
pub struct RnlList {
    which: Which,
    entries: List<RnlEntry>,
}

impl Model for RnlList {
    ghost use Rattle.grs_base.specs.Rnl.{RnlView};

    ghost Value = { RnlView };

    ghost view = { λ a. record { which = a.which; entries = a.entries } };
}

impl RnlList {
    ghost use Rattle.std.specs.Prelude.{◌≡◌, ◌<◌, ◌++◌, ◌∷◌, [], length, OnOk, OnErr, IfOk, slice_get, Some};
    ghost use Rattle.grs_base.specs.Limits.{most_entries};
    ghost use Rattle.grs_base.specs.Rnl.{no_entries};

    /// A list without entries.
    pub fn new(alloc: Global, which: Which) -> Self
        ensures { result ≡ no_entries which }
    {
        RnlList {
            which,
            entries: List::new(alloc),
        }
    }

    /// Which list it is.
    pub fn which(&self) -> Which
        ensures { result ≡ self.now.which }
    {
        self.which
    }

    /// Puts an entry of this list last.
    pub fn push(&mut self, entry: RnlEntry) -> Result<(), NoMemory>
        requires which { entry.which ≡ self.old.which }
        requires room { length self.old.entries < most_entries }
        ensures which { self.new.which ≡ self.old.which }
        ensures ok { OnOk result (self.new.entries ≡ self.old.entries ++ entry ∷ []) }
        ensures err { OnErr result (self.new ≡ self.old) }
    {
        self.entries.push(entry)
    }

    /// How many entries there are.
    pub fn len(&self) -> usize
        ensures { result ≡ length self.now.entries }
    {
        self.entries.len()
    }

    /// The entry at a place, from 0.
    pub fn entry(&self, place: usize) -> &RnlEntry
        requires { place < length self.now.entries }
        ensures { slice_get self.now.entries place ≡ Some result.now }
    {
        self.entries.get(place)
    }

    /// The entries as a slice.
    pub fn as_slice(&self) -> &[RnlEntry]
        ensures { result.now ≡ self.now.entries }
    {
        self.entries.as_slice()
    }

    /// An equal list.
    pub fn copy(&self, alloc: Global) -> Result<RnlList, NoMemory>
        ensures { IfOk result (λ list. list ≡ self.now) }
    {
        Ok(RnlList {
            which: self.which,
            entries: copy_all(alloc, self.entries.as_slice())?,
        })
    }
}

/// The three name lists of a deck.
#[derive(Drop)]
pub struct Lists {
    pub incl: RnlList,
    pub excl: RnlList,
    pub con: RnlList,
}

impl Lists {
    ghost use Rattle.grs_base.specs.Rnl.{no_entries};

    /// Three lists without entries.
    pub fn new(alloc: Global) -> Self
        ensures { result ≡ record { incl = no_entries Which.Incl; excl = no_entries Which.Excl; con = no_entries Which.Con } }
    {
        Lists {
            incl: RnlList::new(alloc, Which::Incl),
            excl: RnlList::new(alloc, Which::Excl),
            con: RnlList::new(alloc, Which::Con),
        }
    }

    /// Equal lists.
    pub fn copy(&self, alloc: Global) -> Result<Lists, NoMemory>
        ensures { IfOk result (λ lists. lists ≡ self.now) }
    {
        let incl = self.incl.copy(alloc)?;
        let excl = self.excl.copy(alloc)?;
        let con = self.con.copy(alloc)?;
        Ok(Lists { incl, excl, con })
    }
}
