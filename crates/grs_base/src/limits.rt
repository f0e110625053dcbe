//! The limits of a complex and of a deck, each in one place. All are this project's own but those of names. (z/OS
//! MVS Programming: Authorized Assembler Services Reference, "ENQ".)

/// The most systems of a complex: a set of systems has a bit for each in one byte.
pub const MOST_SYSTEMS: usize = 8;

/// The most bytes of a qname as it is written, trailing blanks too.
pub const MOST_QNAME_BYTES: usize = 8;

/// The most bytes of an rname.
pub const MOST_RNAME_BYTES: usize = 255;

/// The most entries of a name list.
pub const MOST_ENTRIES: usize = 4096;

/// The greatest limit of concurrent requests of a task.
pub const MOST_LIMIT: u32 = 4096;

/// The most bytes of the name of a system, a job or a task.
pub const MOST_NAME_BYTES: usize = 8;

/// The most jobs of a system.
pub const MOST_JOBS: usize = 64;

/// The most tasks of a system, of all its jobs together.
pub const MOST_TASKS: usize = 64;

/// The most task lines of a deck.
pub const MOST_LINES: u32 = 16_384;

/// The last number that an event, an entry of the authority message or an element (its rank) can have: there is no
/// memory for more.
pub const LAST_NUMBER: u64 = 1 << 57;
