//! Laws of what a manager keeps: each function's contract is one, and there is nothing to run.
ghost use Rattle.contention_mgr.specs.Elements.{ElementsAreAskers, TellingKeepsElements, LosingKeepsElements, InstalledAreRecords};
ghost use Rattle.contention_mgr.specs.Laws.{ListsFollow, TellingKeepsLists, RanksBegin, LoadedRanksRise, RanksRise, TellingKeepsRanks, FirstIsAny, FirstIsUntold, FirstIsLeast, UntoldOwnBegins, LoadedUntoldOwn, UntoldStayOwners, TellingKeepsUntoldOwn, FirstUntoldOwns, UntoldFollow, GainersAreUntold, TellingTells, LoadedAreTold, OthersStay, WellKeptBegins, EntriesAreWellKept, RequestsKeepWell, TellingKeepsWell};

/// The plain lists of an entry after a request are what the request makes of them.
pub fn lists_follow()
    ensures { ListsFollow }
{}

/// Telling an owner leaves the plain lists.
pub fn telling_keeps_lists()
    ensures { TellingKeepsLists }
{}

/// Ranks rise along each list of an entry in whose lists nothing stands.
pub fn ranks_begin()
    ensures { RanksBegin }
{}

/// Ranks rise along each list of an entry that is loaded.
pub fn loaded_ranks_rise()
    ensures { LoadedRanksRise }
{}

/// Where ranks rise along each list, they do behind each request.
pub fn ranks_rise()
    ensures { RanksRise }
{}

/// Where ranks rise along each list, they do once an owner was told.
pub fn telling_keeps_ranks()
    ensures { TellingKeepsRanks }
{}

/// An owner to be told is found exactly where there is one.
pub fn first_is_any()
    ensures { FirstIsAny }
{}

/// The owner to be told first is one of the elements, of another system, and still to be told.
pub fn first_is_untold()
    ensures { FirstIsUntold }
{}

/// Who is told first has the resource that is shown first, and there the first place in the list.
pub fn first_is_least()
    ensures { FirstIsLeast }
{}

/// Where nothing stands in the lists of an entry, nobody is still to be told.
pub fn untold_own_begins()
    ensures { UntoldOwnBegins }
{}

/// Where an entry is loaded, each who is still to be told owns, and is of another system: nobody is.
pub fn loaded_untold_own()
    ensures { LoadedUntoldOwn }
{}

/// Where each who is still to be told owns by the plain lists and is of another system, so it is behind each request.
pub fn untold_stay_owners()
    ensures { UntoldStayOwners }
{}

/// So it is once an owner was told.
pub fn telling_keeps_untold_own()
    ensures { TellingKeepsUntoldOwn }
{}

/// Then the owner to be told first owns by the plain lists.
pub fn first_untold_owns()
    ensures { FirstUntoldOwns }
{}

/// A request makes those who gain control by it at other systems still to be told, and leaves whether others are.
pub fn untold_follow()
    ensures { UntoldFollow }
{}

/// Who gains control at another system by another's request is still to be told.
pub fn gainers_are_untold()
    ensures { GainersAreUntold }
{}

/// Once an owner was told, it is no longer to be told, and all others are as they were.
pub fn telling_tells()
    ensures { TellingTells }
{}

/// Of an entry that is loaded nobody is still to be told.
pub fn loaded_are_told()
    ensures { LoadedAreTold }
{}

/// The elements after a request are of tasks that had one before it, or of the asker.
pub fn elements_are_askers()
    ensures { ElementsAreAskers }
{}

/// Telling an owner adds no element.
pub fn telling_keeps_elements()
    ensures { TellingKeepsElements }
{}

/// The loss of a system adds none.
pub fn losing_keeps_elements()
    ensures { LosingKeepsElements }
{}

/// The elements of an entry that is made of records are of their tasks.
pub fn installed_are_records()
    ensures { InstalledAreRecords }
{}

/// A request leaves what is kept of other entries than its own.
pub fn others_stay()
    ensures { OthersStay }
{}

/// A manager that manages nothing keeps its entries well: ranks rise, and each who is still to be told owns and is of another
/// system.
pub fn well_kept_begins()
    ensures { WellKeptBegins }
{}

/// So it does where an entry is begun, given up or loaded.
pub fn entries_are_well_kept()
    ensures { EntriesAreWellKept }
{}

/// So it does behind each request.
pub fn requests_keep_well()
    ensures { RequestsKeepWell }
{}

/// So it does once an owner was told.
pub fn telling_keeps_well()
    ensures { TellingKeepsWell }
{}
