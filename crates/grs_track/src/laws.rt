//! Each function's contract is one law, and there is nothing to run.
ghost use Rattle.grs_track.specs.Tracks.{BeginsByTracks, LongerByTracks, NextIsOwn, StandsByTracks};

/// Behind a history an entry may stand exactly where it may come by what is kept: of a task it is the one entry that
/// the task may ask next, and of two systems the removal of the one by the other.
pub fn stands_by_tracks()
    ensures { StandsByTracks }
{}

/// What is kept behind one more entry is what the longer history leaves.
pub fn longer_by_tracks()
    ensures { LongerByTracks }
{}

/// Behind no entry the lists are empty, no system was removed, and no task has asked for anything.
pub fn begins_by_tracks()
    ensures { BeginsByTracks }
{}

/// What a task may ask next is an entry of this task, which may come.
pub fn next_is_own()
    ensures { NextIsOwn }
{}
