//! What can go wrong with a stream. A failed call says no more than that it failed.
use grs_base::NoMemory;

/// A call of a source or a sink failed, and moved no byte.
#[derive(Clone, Copy, Debug, PartialEq, Eq)]
pub struct Failed;

/// Why a source was not read.
#[derive(Clone, Copy, Debug, PartialEq, Eq)]
pub enum ReadFailure {
    /// A read failed.
    Failed,
    NoMemory,
}

impl From<Failed> for ReadFailure {
    ghost use Rattle.std.specs.Prelude.{◌≡◌};
    ghost use Rattle.grs_io.specs.declared.fault.ReadFailure.TheVariants as failures;

    ghost from_gives = { λ _ e. e ≡ failures.Failed };

    fn from(_e: Failed) -> ReadFailure {
        ReadFailure::Failed
    }
}

impl From<NoMemory> for ReadFailure {
    ghost use Rattle.std.specs.Prelude.{◌≡◌};
    ghost use Rattle.grs_io.specs.declared.fault.ReadFailure.TheVariants as failures;

    ghost from_gives = { λ _ e. e ≡ failures.NoMemory };

    fn from(_e: NoMemory) -> ReadFailure {
        ReadFailure::NoMemory
    }
}
