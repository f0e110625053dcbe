//! The two names of a resource. (z/OS MVS Programming: Authorized Assembler Services Reference, "ENQ".) That a qname may
//! be shorter than eight bytes, as if blanks stood behind it, is this project's own.
ghost use Rattle.std.specs.Prelude.{◌≡◌, ◌≤◌, ◌↔◌, length, List, ℕ, IfOk, OnOk, Err, true, false};
ghost use Rattle.grs_base.specs.Limits.{most_qname_bytes, most_rname_bytes};
ghost use Rattle.grs_base.specs.Names.{trim_blanks, is_qname, is_rname, IsQname, padded};
ghost use Rattle.grs_base.specs.NameBytes.{bytes_of, HasPlace};

use super::fault::{NameFault, NoMemory};
use super::limits::{MOST_QNAME_BYTES, MOST_RNAME_BYTES};
use std::alloc::Global;
use std::hash::{Hash, Hasher};
use std::marker::Model;

/// The first name of a resource, of 1 to 8 bytes, seen as its bytes without trailing blanks. They are kept in place:
/// the first `len` of `kept`, with blanks behind them.
#[derive(Drop)]
pub struct Qname {
    len: u8,
    kept: [u8; MOST_QNAME_BYTES],
}

impl Model for Qname {
    ghost use Rattle.std.specs.Prelude.{List, ℕ, take, ◌≤◌};
    ghost use Rattle.std.specs.Prelude.{◌≡◌};
    ghost use Rattle.grs_base.specs.Limits.{most_qname_bytes};
    ghost use Rattle.grs_base.specs.Names.{IsQname, padded};

    ghost Value = { List ℕ };

    ghost view = { λ a. take a.len a.kept };

    ghost invariant = { λ a. (a.len ≤ most_qname_bytes) × IsQname (take a.len a.kept) × (a.kept ≡ padded (take a.len a.kept)) };
}

/// How many bytes stand before the trailing blanks.
#[tactic(auto, using(crate::proofs::NameLaws::trims))]
fn trimmed_len(bytes: &[u8]) -> usize
    ensures len { result ≡ length (trim_blanks bytes.now) }
    ensures within { result ≤ length bytes.now }
{
    let mut end = 0;
    for (i, b) in bytes.iter().enumerate() {
        if *b != b' ' {
            end = i + 1;
        }
    }
    end
}

/// Whether bytes make a qname: at most eight of them, and not blanks alone.
#[tactic(auto, using(crate::proofs::NameLaws::trims))]
pub fn is_qname(bytes: &[u8]) -> bool
    ensures { result ≡ is_qname bytes.now }
{
    bytes.len() <= MOST_QNAME_BYTES && 1 <= trimmed_len(bytes)
}

/// Whether bytes make an rname: 1 to 255 of them.
pub fn is_rname(bytes: &[u8]) -> bool
    ensures { result ≡ is_rname bytes.now }
{
    1 <= bytes.len() && bytes.len() <= MOST_RNAME_BYTES
}

/// Whether eight bytes are these, by one comparison of numbers.
pub(crate) fn are_same(a: &[u8; 8], b: &[u8; 8]) -> bool
    ensures { (result ≡ true) ↔ (a.now ≡ b.now) }
{
    u64::from_be_bytes(*a) == u64::from_be_bytes(*b)
}

/// Bytes with blanks behind them, up to eight.
#[tactic(auto, using(crate::proofs::NameLaws::pads))]
fn with_blanks(bytes: &[u8]) -> [u8; MOST_QNAME_BYTES]
    requires { length bytes.now ≤ most_qname_bytes }
    ensures { result ≡ padded bytes.now }
{
    let mut kept = [b' '; MOST_QNAME_BYTES];
    kept[..bytes.len()].copy_from_slice(bytes);
    kept
}

impl Qname {
    /// The qname of bytes, without their trailing blanks. Answers BadLength exactly where there are more than 8
    /// bytes, trailing blanks counted, or none but blanks. It takes no memory.
    #[tactic(auto, using(crate::proofs::NameLaws::trims))]
    pub fn new(_alloc: Global, bytes: &[u8]) -> Result<Qname, NameFault>
        ensures value { IfOk result (λ q. q ≡ trim_blanks bytes.now) }
        ensures good { OnOk result (is_qname bytes.now ≡ true) }
        ensures bad { (result ≡ Err NameFault.BadLength) ↔ (is_qname bytes.now ≡ false) }
    {
        let end = trimmed_len(bytes);
        if bytes.len() > MOST_QNAME_BYTES || end == 0 {
            return Err(NameFault::BadLength);
        }
        Ok(Qname {
            len: end as u8,
            kept: with_blanks(&bytes[..end]),
        })
    }

    /// An equal name. It takes no memory.
    pub fn copy(&self, _alloc: Global) -> Result<Qname, NoMemory>
        ensures { IfOk result (λ q. q ≡ self.now) }
    {
        Ok(Qname {
            len: self.len,
            kept: self.kept,
        })
    }

    /// The bytes, without trailing blanks.
    pub fn bytes(&self) -> &[u8]
        ensures bytes { result.now ≡ self.now }
        ensures short { length self.now ≤ most_qname_bytes }
        ensures name { IsQname self.now }
    {
        &self.kept[..usize::from(self.len)]
    }

    /// The bytes with blanks behind them, up to eight.
    pub(crate) fn padded(&self) -> &[u8]
        ensures { result.now ≡ padded self.now }
    {
        &self.kept
    }
}

impl PartialEq for Qname {
    ghost use Rattle.std.specs.Str.{bytes_eq};
    ghost use Rattle.std.proofs.Common.{rules};
    ghost use Rattle.std.specs.Cmp.Rules.{comparing};

    ghost eq = { bytes_eq };

    ghost laws = { Prim.search (comparing, rules) };

    #[tactic(auto, using(crate::proofs::NameLaws::kept_tells))]
    fn eq(&self, other: &Qname) -> bool {
        are_same(&self.kept, &other.kept)
    }
}

impl Eq for Qname {
    ghost use Rattle.std.proofs.Common.{rules};
    ghost use Rattle.std.specs.Cmp.Rules.{comparing};

    ghost laws = { Prim.search (comparing, rules) };
}

// The hasher gets a name as one piece, of which it takes up to 16 bytes at a time: a slice would give it each byte alone.
impl Hash for Qname {
    ghost use Rattle.std.specs.Prelude.{◌∷◌, []};
    ghost use Rattle.std.proofs.Common.{rules};
    ghost use Rattle.std.specs.Cmp.Rules.{comparing, hashing};

    ghost hash_input = { λ name. name ∷ [] };

    ghost respects_eq = { Prim.search (hashing, rules) };

    fn hash<H: Hasher>(&self, state: &mut H) {
        state.write(self.bytes());
    }
}

/// How many bytes of an rname are kept in place. With their length they take 24 bytes, so a resource whose names are
/// in place is no larger than one that owns them, and the data sets' and volumes' usual names fit.
const MOST_IN_PLACE: usize = 23;

/// The bytes of an rname, in memory of their own only where they are many.
#[derive(Drop)]
pub(crate) enum NameBytes {
    /// The first `len` of `kept`.
    InPlace { len: u8, kept: [u8; MOST_IN_PLACE] },
    Owned(Vec<u8>),
}

/// Bytes as they are kept.
fn kept(alloc: Global, bytes: &[u8]) -> Result<NameBytes, NoMemory>
    ensures bytes { IfOk result (λ held. bytes_of held ≡ bytes.now) }
    ensures place { IfOk result HasPlace }
{
    if bytes.len() <= MOST_IN_PLACE {
        let mut kept = [0; MOST_IN_PLACE];
        kept[..bytes.len()].copy_from_slice(bytes);
        return Ok(NameBytes::InPlace {
            len: bytes.len() as u8,
            kept,
        });
    }
    match Vec::from_slice(alloc, bytes) {
        Ok(bytes) => Ok(NameBytes::Owned(bytes)),
        Err(_) => Err(NoMemory),
    }
}

/// The second name of a resource, of 1 to 255 bytes, seen as its bytes.
#[derive(Drop)]
pub struct Rname {
    held: NameBytes,
}

impl Model for Rname {
    ghost use Rattle.std.specs.Prelude.{List, ℕ, ◌≡◌, true};
    ghost use Rattle.grs_base.specs.Names.{is_rname};
    ghost use Rattle.grs_base.specs.NameBytes.{bytes_of, HasPlace};

    ghost Value = { List ℕ };

    ghost view = { λ a. bytes_of a.held };

    ghost invariant = { λ a. HasPlace a.held × (is_rname (bytes_of a.held) ≡ true) };
}

impl Rname {
    /// The rname of bytes. Answers BadLength exactly where there are none or more than 255; NoMemory where they
    /// are too many to be kept in place, and there is none for them.
    pub fn new(alloc: Global, bytes: &[u8]) -> Result<Rname, NameFault>
        ensures value { IfOk result (λ r. r ≡ bytes.now) }
        ensures good { OnOk result (is_rname bytes.now ≡ true) }
        ensures bad { (result ≡ Err NameFault.BadLength) ↔ (is_rname bytes.now ≡ false) }
    {
        if bytes.is_empty() || bytes.len() > MOST_RNAME_BYTES {
            return Err(NameFault::BadLength);
        }
        match kept(alloc, bytes) {
            Ok(held) => Ok(Rname { held }),
            Err(_) => Err(NameFault::NoMemory),
        }
    }

    /// An equal name. It takes memory only for bytes that are too many to be kept in place.
    pub fn copy(&self, alloc: Global) -> Result<Rname, NoMemory>
        ensures { IfOk result (λ r. r ≡ self.now) }
    {
        let held = match &self.held {
            NameBytes::InPlace { len, kept } => NameBytes::InPlace {
                len: *len,
                kept: *kept,
            },
            NameBytes::Owned(bytes) => kept(alloc, bytes.as_slice())?,
        };
        Ok(Rname { held })
    }

    /// The bytes.
    pub fn bytes(&self) -> &[u8]
        ensures bytes { result.now ≡ self.now }
        ensures short { length self.now ≤ most_rname_bytes }
        ensures name { is_rname self.now ≡ true }
    {
        match &self.held {
            NameBytes::InPlace { len, kept } => &kept[..usize::from(*len)],
            NameBytes::Owned(bytes) => bytes.as_slice(),
        }
    }
}

impl PartialEq for Rname {
    ghost use Rattle.std.specs.Str.{bytes_eq};
    ghost use Rattle.std.proofs.Common.{rules};
    ghost use Rattle.std.specs.Cmp.Rules.{comparing};

    ghost eq = { bytes_eq };

    ghost laws = { Prim.search (comparing, rules) };

    fn eq(&self, other: &Rname) -> bool {
        self.bytes() == other.bytes()
    }
}

impl Eq for Rname {
    ghost use Rattle.std.proofs.Common.{rules};
    ghost use Rattle.std.specs.Cmp.Rules.{comparing};

    ghost laws = { Prim.search (comparing, rules) };
}

// As one piece too.
impl Hash for Rname {
    ghost use Rattle.std.specs.Prelude.{◌∷◌, []};
    ghost use Rattle.std.proofs.Common.{rules};
    ghost use Rattle.std.specs.Cmp.Rules.{comparing, hashing};

    ghost hash_input = { λ name. name ∷ [] };

    ghost respects_eq = { Prim.search (hashing, rules) };

    fn hash<H: Hasher>(&self, state: &mut H) {
        state.write(self.bytes());
    }
}
