//! The verdict on a report.

/// Whether a report has the history of a deck.
#[derive(Clone, Copy, Debug, PartialEq, Eq)]
pub enum Verdict {
    /// It is a legal one, whole.
    Yes,
    /// The line of this number is the first that can't stand where it stands, or the first that is missing.
    No { line: u32 },
}
