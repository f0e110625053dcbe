//! The lock words that a table leads to.
ghost use Rattle.std.specs.Prelude.{◌≡◌, ◌≢◌, ◌<◌, cond, map, IfOk};
ghost use Rattle.std.specs.List.{list_any};
ghost use Rattle.grs_base.specs.Limits.{most_systems};
ghost use Rattle.grs_wire.specs.LockWords.{manager_number};
ghost use Rattle.grs_wire.specs.Masks.{with_also};
ghost use Rattle.mode_migrate.specs.Migrate.{is_by, table_words};
ghost use Rattle.mode_migrate.specs.Groups.{is_among, interest_of, manager_of, word_of};

use crate::groups::grouped;
use grs_base::{List, MOST_SYSTEMS, NoMemory, Queues, Row, SysId};
use grs_wire::masks::with_system;
use lock_structure::or_this;
use queue_table::Table;
use std::alloc::Global;

/// So many sets of systems can stand in the lowest bits of a lock word, below the manager's number plus one.
const SETS: u32 = 256;

/// Whether a task of the system has an element in a row.
fn has_elem(row: &Row, system: SysId) -> bool
    ensures { result ≡ list_any (is_by system.0) row.now.elems }
{
    row.elems
        .as_slice()
        .iter()
        .any(|elem| elem.task.system.0 == system.0)
}

/// Whether the system has an element in one of these rows.
pub(crate) fn is_among(rows: &[Row], system: SysId) -> bool
    ensures { result ≡ is_among rows.now system.0 }
{
    rows.iter().any(|row| has_elem(row, system))
}

/// The set, with the system where it passes.
#[tactic(auto, using(grs_wire::proofs::MaskLaws::small_sets))]
fn with_if(set: u32, system: SysId, passes: bool) -> u32
    requires system { system.0 < most_systems }
    requires small { set < 256 }
    ensures set { result ≡ cond passes (with_also set system.0) set }
    ensures small { result < 256 }
{
    if passes {
        with_system(set, system)
    } else {
        set
    }
}

/// The systems that have interest in a lock entry with these rows.
fn interest(rows: &[Row]) -> u32
    ensures set { result ≡ interest_of rows.now }
    ensures small { result < 256 }
{
    let mut set = 0;
    for s in 0..MOST_SYSTEMS {
        let system = SysId(s as u8);
        let passes = is_among(rows, system);
        set = with_if(set, system, passes);
    }
    set
}

/// The system that manages a lock entry with these rows, if anyone has elements there.
pub(crate) fn manager(rows: &[Row]) -> Option<SysId>
    ensures { result ≡ manager_of rows.now }
{
    let mut least = None;
    for s in 0..MOST_SYSTEMS {
        let system = SysId(s as u8);
        let passes = is_among(rows, system);
        least = or_this(least, system, passes);
    }
    least
}

/// The number that stands in a word for the manager.
fn manager_number(manager: Option<SysId>) -> u32
    ensures number { result ≡ manager_number manager }
    ensures small { result < 257 }
{
    match manager {
        None => 0,
        Some(system) => system.0 as u32 + 1,
    }
}

/// The word of a lock entry with these rows.
#[tactic(auto, unfolding(grs_wire::specs::LockWords::lock_word))]
fn word(rows: &[Row]) -> u32
    ensures { result ≡ word_of rows.now }
{
    let number = manager_number(manager(rows));
    interest(rows) + SETS * number
}

/// The words of all lock entries.
fn words(alloc: Global, groups: &[List<Row>]) -> Result<List<u32>, NoMemory>
    ensures { IfOk result (λ words. words ≡ map word_of groups.now) }
{
    let mut words = List::with_room(alloc, groups.len())?;
    for rows in groups {
        words.push(word(rows.as_slice()))?;
    }
    Ok(words)
}

/// The lock words that a table leads to, where there are so many entries: in each entry those systems have interest that
/// have elements there, and the least of them manages it. NoMemory comes where there is none for the words, or for the
/// rows of the table.
pub fn words_of<Q: Queues>(
    alloc: Global,
    table: &Table<Q>,
    entries: u32,
) -> Result<List<u32>, NoMemory>
    requires { entries ≢ 0 }
    ensures { IfOk result (λ words. words ≡ table_words entries table.now.elements) }
{
    let groups = grouped(alloc, table.rows(alloc)?, entries)?;
    words(alloc, groups.as_slice())
}
