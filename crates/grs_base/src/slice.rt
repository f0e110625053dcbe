//! The slices of Systems resources, by a hash of their names, and the lock entries of the slices. How they are dealt
//! out is this project's own.
ghost use Rattle.std.specs.Prelude.{◌≡◌, ◌<◌, ◌≢◌};
ghost use Rattle.grs_base.specs.Slices.{hash_from, slice_of, entry_of};

use super::name::{Qname, Rname};

/// How many slices there are.
pub const SLICES: u32 = 64;

/// A prime below 65,536: hashes are below it.
const PRIME: u32 = 65521;

/// A hash that goes on over bytes.
fn hashed(start: u32, bytes: &[u8]) -> u32
    requires { start < PRIME }
    ensures value { result ≡ hash_from start bytes.now }
    ensures below { result < PRIME }
{
    let mut hash = start;
    let mut rest = bytes;
    while let Some((b, tail)) = rest.split_first() {
        hash = (hash * 31 + u32::from(*b)) % PRIME;
        rest = tail;
    }
    hash
}

/// The slice of the Systems resource of these names, from 0 to 63.
pub fn slice_of(q: &Qname, r: &Rname) -> u32
    ensures value { result ≡ slice_of q.now r.now }
    ensures below { result < SLICES }
{
    let hash = hashed(0, q.padded());
    hashed(hash, r.bytes()) % SLICES
}

/// The lock entry of a slice, where there are `entries` of them.
pub fn entry_of(slice: u32, entries: u32) -> u32
    requires { entries ≢ 0 }
    ensures value { result ≡ entry_of slice entries }
    ensures below { result < entries }
{
    slice % entries
}
