//! The names of a resource as a statement gives them: bytes of any length, of which those of a right
//! length make a name.
ghost use Rattle.std.specs.Prelude.{◌≡◌, true, false, IfOk};
ghost use Rattle.grs_base.specs.Names.{trim_blanks, is_qname, is_rname};
ghost use Rattle.deck_scan.specs.Lengths.{is_bad_qname, is_bad_rname, trimmed};

use crate::given::GivenName;
use grs_base::{NameFault, NoMemory, Qname, Rname, is_qname, is_rname};
use std::alloc::Global;

/// Whether a qname is given that has no bytes but blanks, or more than 8.
pub fn is_bad_qname(q: &Option<GivenName<'_>>) -> bool
    ensures { result ≡ is_bad_qname q.now }
{
    match q {
        None => false,
        Some(q) => !is_qname(q.bytes()),
    }
}

/// Whether an rname is given that has no bytes, or more than 255.
pub fn is_bad_rname(r: &Option<GivenName<'_>>) -> bool
    ensures { result ≡ is_bad_rname r.now }
{
    match r {
        None => false,
        Some(r) => !is_rname(r.bytes()),
    }
}

/// The qname of bytes whose length is right, without its trailing blanks.
pub fn qname_of(alloc: Global, bytes: &[u8]) -> Result<Qname, NoMemory>
    requires { is_qname bytes.now ≡ true }
    ensures { IfOk result (λ q. q ≡ trim_blanks bytes.now) }
{
    match Qname::new(alloc, bytes) {
        Ok(q) => Ok(q),
        Err(NameFault::BadLength) => unreachable!(),
        Err(NameFault::NoMemory) => Err(NoMemory),
    }
}

/// The rname of bytes whose length is right.
pub fn rname_of(alloc: Global, bytes: &[u8]) -> Result<Rname, NoMemory>
    requires { is_rname bytes.now ≡ true }
    ensures { IfOk result (λ r. r ≡ bytes.now) }
{
    match Rname::new(alloc, bytes) {
        Ok(r) => Ok(r),
        Err(NameFault::BadLength) => unreachable!(),
        Err(NameFault::NoMemory) => Err(NoMemory),
    }
}

/// The qname, where one is given.
pub fn maybe_qname(alloc: Global, q: &Option<GivenName<'_>>) -> Result<Option<Qname>, NoMemory>
    requires { is_bad_qname q.now ≡ false }
    ensures { IfOk result (λ x. x ≡ trimmed q.now) }
{
    match q {
        None => Ok(None),
        Some(q) => Ok(Some(qname_of(alloc, q.bytes())?)),
    }
}

/// The rname, where one is given.
pub fn maybe_rname(alloc: Global, r: &Option<GivenName<'_>>) -> Result<Option<Rname>, NoMemory>
    requires { is_bad_rname r.now ≡ false }
    ensures { IfOk result (λ x. x ≡ r.now) }
{
    match r {
        None => Ok(None),
        Some(r) => Ok(Some(rname_of(alloc, r.bytes())?)),
    }
}
