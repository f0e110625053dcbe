//! Laws of the words and the parts to which a table leads: each function's contract is one, and there is nothing to run.
ghost use Rattle.mode_migrate.specs.Laws.{WordsSay, LeastManages, InterestIsByElements, OwnWordsFit, PartsAreNumbered, PartsAreLoadable};

/// A word says who has interest in its entry by the table, and who manages it.
pub fn words_say()
    ensures { WordsSay }
{}

/// The least of the systems that have elements on resources of an entry manages it.
pub fn least_manages()
    ensures { LeastManages }
{}

/// By the words of a table a system has interest in an entry exactly where the table has an element of it there.
pub fn interest_is_by_elements()
    ensures { InterestIsByElements }
{}

/// The words of a table are such as the complex may change by.
pub fn own_words_fit()
    ensures { OwnWordsFit }
{}

/// An entry's part of all ranked rows is the rows of the entry, their elements numbered from 1.
pub fn parts_are_numbered()
    ensures { PartsAreNumbered }
{}

/// Its manager may keep it, where no task stands twice in a list and ranks are small.
pub fn parts_are_loadable()
    ensures { PartsAreLoadable }
{}
