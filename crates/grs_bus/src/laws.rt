//! The law of the journal: which calls are entered. There is nothing to run.
ghost use Rattle.grs_bus.specs.Entered.{EntersJustThese};

/// Of the medium to which a journal leads from the first one on, a call is entered exactly where the medium differs behind it, or
/// its reply is Stale, Already, NoSuch, Sole or Left, on which its system acts.
pub fn enters_just_these()
    ensures { EntersJustThese }
{}
