//! Each function's contract is one law, and there is nothing to run.
ghost use Rattle.grs_audit.specs.Reports.{ReportsAreYes};
ghost use Rattle.grs_audit.specs.Verdicts.{OneVerdict};
ghost use Rattle.grs_audit.specs.Words.{NextLineIsSaid};

/// A text has one verdict at most.
pub fn one_verdict()
    ensures { OneVerdict }
{}

/// Behind the lines of a legal history the next line is TOLD, or that of the one entry that may stand next by what the
/// line says of who asks.
pub fn next_line_is_said()
    ensures { NextLineIsSaid }
{}

/// A report of a deck whose history is legal, with events of the deck, is answered Yes, whatever else it shows.
pub fn reports_are_yes()
    ensures { ReportsAreYes }
{}
