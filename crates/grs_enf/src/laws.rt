//! Laws of notices: each function's contract is one, and there is nothing to run.
ghost use Rattle.grs_enf.specs.Laws.{CodesTellNotices, NoticesAlternate, OthersStay};

/// The codes of a legal history tell its notices.
pub fn codes_tell_notices()
    ensures { CodesTellNotices }
{}

/// Of each resource BEGIN and END come by turns, beginning with BEGIN, and the last of them is BEGIN exactly where the
/// resource is contended in the end.
pub fn notices_alternate()
    ensures { NoticesAlternate }
{}

/// An entry changes no list but those of the resources at which is looked, so no other list needs to be looked at.
pub fn others_stay()
    ensures { OthersStay }
{}
