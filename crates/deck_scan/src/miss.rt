//! That tokens are of another form, and the fault that a reader tells of it. Every reader of tokens answers so,
//! in this crate and in those above.
ghost use Rattle.std.specs.Prelude.{◌≡◌, Option};
ghost use Rattle.deck_scan.specs.Gives.{Gives, or_bad};
ghost use Rattle.deck_scan.specs.Next.{Reads};

use grs_base::{DeckFault, Kind, ReadError};

/// The tokens are of another form than the one that is read.
#[derive(Clone, Copy, Debug, PartialEq, Eq)]
pub struct Miss;

/// A fault of this kind on this line, which counts from 1; 0 is the text as a whole.
pub fn refused(line: u32, kind: Kind) -> ReadError
    ensures { result ≡ ReadError.Fault (record { line = line; kind = kind }) }
{
    ReadError::Fault(DeckFault { line, kind })
}

/// What was read of the tokens of a statement on this line; `BadOperand` where they are of another form.
pub fn or_bad<T>(line: u32, read: Result<T, Miss>) -> Result<T, ReadError>
    ensures { (x : Option T) → Reads (λ y. y) read x → Gives result (or_bad line x) }
{
    match read {
        Ok(value) => Ok(value),
        Err(Miss) => Err(refused(line, Kind::BadOperand)),
    }
}
