//! How a command ends.
ghost use Rattle.std.specs.Prelude.{◌≡◌};

/// How a command ended.
#[derive(Clone, Copy, Debug, PartialEq, Eq)]
pub enum Status {
    /// The whole report, or the line of a number, was written, and each task ended or was removed with its
    /// system; or the name lists were written, what latches were answered, or that a report can stand.
    Done,
    /// The whole report, or the line of a number, was written, and some task of a live system hasn't
    /// ended.
    Waits,
    /// The text is no deck, and the line of its first fault was written whole.
    Deck,
    /// The words are of none of the forms. Nothing was read or written.
    Words,
    /// A read failed. Nothing was written.
    ReadFault,
    /// A write failed. What was due was not written whole.
    WriteFault,
    /// Memory was wanted and not given. Nothing was written.
    NoMemory,
    /// The report behind a deck has a line that can't stand, or lacks one, and the line that says which was written.
    Bad,
}

impl Status {
    ghost use Rattle.grs_top.specs.Status.{number};

    /// The number of the status, which is the exit status of the program.
    pub fn number(self) -> u8
        ensures { result ≡ number self }
    {
        match self {
            Status::Done => 0,
            Status::Waits => 4,
            Status::Deck => 8,
            Status::Words => 12,
            Status::ReadFault => 16,
            Status::WriteFault => 20,
            Status::NoMemory => 24,
            Status::Bad => 28,
        }
    }
}
