//! What bytes are written to. A sink counts its failed writes, so that who writes can tell that a fault
//! was the sink's.
ghost use Rattle.std.specs.Prelude.{◌≡◌, ℕ, ◌≤◌, ◌<◌, List, length, Option, IfOk, OnOk, OnErr};
ghost use Rattle.std.specs.Io.KnownBytes.{WriteAppends};
ghost use Rattle.grs_io.specs.Faults.{HasRisen};

use super::Failed;

/// A stream of bytes that is written at its end. Writes that failed are counted: the count stays where a
/// write is answered and rises where one fails, so it never falls.
pub trait Sink {
    /// The bytes written, or `None` where the sink does not tell them.
    ghost written: { Self → Option (List ℕ) };

    /// How many writes failed.
    ghost faults: { Self → ℕ };

    /// Writes some of the bytes of `piece`, from its front, and says how many: at least one of a piece that
    /// is not empty. A failed write writes nothing.
    fn write(&mut self, piece: &[u8]) -> Result<usize, Failed>
        ensures within { IfOk result (λ n. n ≤ length piece.now) }
        ensures some { IfOk result (λ n. 0 < length piece.now → 0 < n) }
        ensures appended { WriteAppends (written self.old) (written self.new) result piece.now }
        ensures kept { OnOk result (faults self.new ≡ faults self.old) }
        ensures counted { OnErr result (HasRisen (faults self.old) (faults self.new)) };
}
