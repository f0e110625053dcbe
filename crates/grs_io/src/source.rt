//! What bytes are read from. A source counts its failed reads, so that who reads can tell a fault of
//! the source from one of the reader.
ghost use Rattle.std.specs.Prelude.{◌≡◌, ℕ, ◌≤◌, List, length, min, take, Option, IfOk, OnOk, OnErr};
ghost use Rattle.std.specs.Io.KnownBytes.{ReadConsumes};
ghost use Rattle.grs_io.specs.Faults.{HasRisen};

use super::Failed;

/// A stream of bytes that is read from its front. Reads that failed are counted: the count stays where
/// a read is answered and rises where one fails, so it never falls.
pub trait Source {
    /// The bytes left, or `None` where the source does not tell them.
    ghost left: { Self → Option (List ℕ) };

    /// How many reads failed.
    ghost faults: { Self → ℕ };

    /// Moves some of the bytes left into the front of `buf` and says how many. A buffer that is not empty
    /// gets none only at the end. A failed read moves nothing.
    fn read(&mut self, buf: &mut [u8]) -> Result<usize, Failed>
        ensures within { IfOk result (λ n. n ≤ length buf.new) }
        ensures moved { ReadConsumes (left self.old) (left self.new) result buf.new }
        ensures kept { OnOk result (faults self.new ≡ faults self.old) }
        ensures counted { OnErr result (HasRisen (faults self.old) (faults self.new)) };
}

/// Copies the front of `rest` into the front of `buf`, at most `most` bytes, and says how many.
pub(crate) fn move_front(rest: &[u8], buf: &mut [u8], most: usize) -> usize
    ensures count { result ≡ min (min (length rest.now) (length buf.new)) most }
    ensures moved { take result buf.new ≡ take result rest.now }
{
    let n = rest.len().min(buf.len()).min(most);
    buf[..n].copy_from_slice(&rest[..n]);
    n
}
