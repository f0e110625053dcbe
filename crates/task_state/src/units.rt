//! Reserves of hardware units, counted by unit. A unit is counted once for each record whose task was told
//! control.
ghost use Rattle.std.specs.Prelude.{◌≡◌, ◌≤◌, length, insert, slice_get, IfOk, OnOk};
ghost use Rattle.task_state.specs.Units.{reserved_by, reserved_in, reserved_of, counting, counting_all, counted, unit_place};

use super::records::Records;
use super::state::{Rec, TaskState};
use grs_base::NoMemory;
use std::alloc::Global;

/// The place of the first count that isn't below a unit, or the number of counts.
fn place_of_unit(counts: &[(u16, u32)], unit: u16) -> usize
    ensures place { result ≡ unit_place unit counts.now }
    ensures within { result ≤ length counts.now }
{
    let mut place = 0;
    let mut rest = counts;
    while let Some((count, tail)) = rest.split_first() {
        if count.0 >= unit {
            return place;
        }
        place += 1;
        rest = tail;
    }
    place
}

/// Counts a unit for the first time.
fn insert_unit(counts: &mut Vec<(u16, u32)>, place: usize, unit: u16) -> Result<(), NoMemory>
    requires { place ≤ length counts.old.items }
    ensures { OnOk result (counts.new.items ≡ insert counts.old.items place (unit, 1)) }
{
    match counts.insert(place, (unit, 1)) {
        Ok(()) => Ok(()),
        Err(_) => Err(NoMemory),
    }
}

/// The count at a place.
fn count_in(counts: &[(u16, u32)], place: usize) -> Option<(u16, u32)>
    ensures { result ≡ slice_get counts.now place }
{
    counts.get(place).copied()
}

/// Counts one more reserve of a unit.
#[tactic(auto, using(crate::proofs::UnitLaws::counts))]
fn add_unit(counts: &mut Vec<(u16, u32)>, unit: u16) -> Result<(), NoMemory>
    ensures { OnOk result (counts.new.items ≡ counting unit counts.old.items) }
{
    let place = place_of_unit(counts.as_slice(), unit);
    match count_in(counts.as_slice(), place) {
        None => insert_unit(counts, place, unit),
        Some(count) if count.0 != unit => insert_unit(counts, place, unit),
        Some(count) => {
            let Some(more) = count.1.checked_add(1) else {
                return Err(NoMemory);
            };
            counts[place] = (unit, more);
            Ok(())
        }
    }
}

/// Counts what a record reserves.
fn add_record(counts: &mut Vec<(u16, u32)>, rec: &Rec) -> Result<(), NoMemory>
    ensures { OnOk result (counts.new.items ≡ counting_all counts.old.items (reserved_by rec.now)) }
{
    match rec.unit {
        Some(unit) if rec.told => add_unit(counts, unit),
        _ => Ok(()),
    }
}

/// Counts what these records reserve.
#[tactic(auto, using(crate::proofs::UnitLaws::parts))]
fn add_records(counts: &mut Vec<(u16, u32)>, records: &Records) -> Result<(), NoMemory>
    ensures { OnOk result (counts.new.items ≡ counting_all counts.old.items (reserved_in records.now)) }
{
    for rec in records.iter() {
        add_record(counts, rec)?;
    }
    Ok(())
}

/// The reserves of each unit by these tasks, by unit.
#[tactic(auto, using(crate::proofs::UnitLaws::parts))]
pub(crate) fn count_units(alloc: Global, tasks: &[TaskState]) -> Result<Vec<(u16, u32)>, NoMemory>
    ensures { IfOk result (λ all. all.items ≡ counted (reserved_of tasks.now)) }
{
    let mut counts = Vec::new(alloc);
    let mut rest = tasks;
    while let Some((task, tail)) = rest.split_first() {
        add_records(&mut counts, &task.records)?;
        rest = tail;
    }
    Ok(counts)
}
