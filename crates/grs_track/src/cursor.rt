//! How far a task is in its lines.
ghost use Rattle.std.specs.Prelude.{◌≡◌, ℕ};
ghost use Rattle.grs_track.specs.Walk.{IsPast};

use super::walk::asks_count;
use grs_base::Line;

/// Where a task is in its lines.
#[derive(Clone, Copy, Debug, PartialEq, Eq)]
pub(crate) struct Cursor {
    /// So many lines it is past: of each it has all entries, and of a later one at least one.
    pub(crate) place: usize,
    /// So many entries it has of the lines behind those.
    pub(crate) part: usize,
}

/// Goes past each line of which a task has all entries, if it has more or has just asked the last of them.
pub(crate) fn onward(lines: &[Line], from: Cursor) -> Cursor
    ensures { (asked : ℕ) → IsPast lines.now asked from.place from.part → IsPast lines.now asked result.place result.part }
{
    let mut part = from.part;
    let mut place = from.place;
    'lines: while place < lines.len() {
        let count = asks_count(&lines[place]);
        if part == 0 || part < count {
            break;
        }
        part -= count;
        place += 1;
    }
    Cursor { place, part }
}
