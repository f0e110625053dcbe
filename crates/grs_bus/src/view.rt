//! What a seat knows, which clauses alone speak of: no value of these types is made. An array in a clause is a list
//! of any length.
use grs_base::SysId;
use grs_medium::Medium;
use grs_wire::JEntry;

/// What is kept of a seat that the first seat has taken in.
pub struct Past {
    pub system: SysId,
    pub own: [JEntry; 0],
    pub seen: [JEntry; 0],
}

/// What a seat knows.
pub struct View {
    pub system: SysId,
    /// The entries of its system.
    pub own: [JEntry; 0],
    /// The longest journal that it has seen.
    pub seen: [JEntry; 0],
    /// How often it took the word.
    pub takes: u64,
    /// It has the word.
    pub holding: bool,
    /// The first seat has taken it in.
    pub spent: bool,
    /// Of the first seat: how many seats there are.
    pub given: u32,
    /// Of the first seat: the seats that it has taken in.
    pub olds: [Past; 0],
    /// The medium at the start.
    pub first: Medium,
}
