//! What can be wrong with a deck, and want of memory. Decks are this project's own, and so are their faults.

/// Memory was wanted and not given.
#[derive(Clone, Copy, Debug, PartialEq, Eq)]
pub struct NoMemory;

/// Why bytes are no name.
#[derive(Clone, Copy, Debug, PartialEq, Eq)]
pub enum NameFault {
    /// The name is empty or too long, or a qname is blanks alone.
    BadLength,
    /// There was no memory for the name.
    NoMemory,
}

/// What is wrong with a deck. The kinds are numbered from 1 in this order.
#[derive(Clone, Copy, Debug, PartialEq, Eq)]
pub enum Kind {
    /// More than 1,048,576 bytes.
    TooLong,
    /// A byte that no deck may have.
    BadByte,
    /// A first word that is no statement word.
    UnknownStatement,
    /// The statement has another form.
    BadOperand,
    /// A name that is too short or too long.
    NameLength,
    /// A name that was given before.
    Repeated,
    /// A statement that may not stand at its place.
    OutOfPlace,
    /// One statement more than the limits allow.
    TooMany,
    /// A name that no statement gave.
    UnknownName,
    /// No SYSTEM statement.
    NoSystem,
}

/// The first fault of a deck: the line on which the faulty statement begins, from 1, or 0 where the
/// fault is of the whole deck.
#[derive(Clone, Copy, Debug, PartialEq, Eq)]
pub struct DeckFault {
    /// The line, from 1; or 0.
    pub line: u32,
    /// What is wrong.
    pub kind: Kind,
}

/// Why a text was not read.
#[derive(Clone, Copy, Debug, PartialEq, Eq)]
pub enum ReadError {
    /// The text has a fault; this is its first.
    Fault(DeckFault),
    /// There was no memory for what the text says. It may have a fault or none.
    NoMemory,
}

impl From<NoMemory> for NameFault {
    ghost use Rattle.std.specs.Prelude.{◌≡◌};
    ghost use Rattle.grs_base.specs.declared.fault.NameFault.TheVariants as name_faults;

    ghost from_gives = { λ _ e. e ≡ name_faults.NoMemory };

    fn from(_e: NoMemory) -> NameFault {
        NameFault::NoMemory
    }
}

impl From<NoMemory> for ReadError {
    ghost use Rattle.std.specs.Prelude.{◌≡◌};
    ghost use Rattle.grs_base.specs.declared.fault.ReadError.TheVariants as read_errors;

    ghost from_gives = { λ _ e. e ≡ read_errors.NoMemory };

    fn from(_e: NoMemory) -> ReadError {
        ReadError::NoMemory
    }
}
