//! The events of systems that ran beside each other, in one order.
ghost use Rattle.std.specs.Prelude.{◌≡◌, ◌≤◌, ◌++◌, ◌∷◌, [], length, map, take, drop, set, IfOk, OnOk};
ghost use Rattle.grs_base.specs.Limits.{most_systems, last_number};
ghost use Rattle.grs_wire.specs.History.{answered_from};
ghost use Rattle.grs_history.specs.Merge as merges;
ghost use Rattle.grs_history.specs.Merging.{after_all_fixed, Leads};

use super::replies::fix;
use grs_base::{LAST_NUMBER, List, NoMemory, SysId};
use grs_wire::{Event, Fixed, HistEntry, JEntry, NodeLog, StepDone, Told, ToldLine};
use qel_store::LinkedQueues;
use queue_table::Table;
use std::alloc::Global;

/// What the events of several systems show in one order: the events, the history, and what was told.
#[derive(Drop)]
pub struct Merged {
    pub events: List<Event>,
    pub hist: List<HistEntry>,
    pub told: List<Told>,
}

/// Events that are gone through one by one: what they show so far, and the lists after them.
#[derive(Drop)]
struct Merging {
    table: Table<LinkedQueues>,
    merged: Merged,
}

/// How many of these steps come before the first journalled one.
fn quiet_count(steps: &[StepDone]) -> usize
    ensures count { result ≡ merges.quiet_count steps.now }
    ensures within { result ≤ length steps.now }
{
    for (place, step) in steps.iter().enumerate() {
        if step.journalled {
            return place;
        }
    }
    steps.len()
}

/// How many the first of these steps makes with the quiet ones behind it.
fn run_count(steps: &[StepDone]) -> usize
    ensures count { result ≡ merges.run_count steps.now }
    ensures within { result ≤ length steps.now }
{
    match steps {
        [] => 0,
        [_, behind @ ..] => 1 + quiet_count(behind),
    }
}

/// Puts what a step fixed behind a history, with the replies of the lists.
fn add_fixed(
    alloc: Global,
    table: &mut Table<LinkedQueues>,
    system: SysId,
    fixed: &[Fixed],
    hist: &mut List<HistEntry>,
) -> Result<(), NoMemory>
    ensures entries { OnOk result (hist.new ≡ hist.old ++ answered_from table.old.elements (map (λ f. (system, f)) fixed.now)) }
    ensures after { OnOk result (table.new.elements ≡ after_all_fixed table.old.elements fixed.now) }
{
    for one in fixed {
        fix(alloc, table, system, one, hist)?;
    }
    Ok(())
}

/// Puts the lines that a step told as the event of this number behind the others.
fn add_told(
    alloc: Global,
    all: &mut List<Told>,
    event: u64,
    system: SysId,
    lines: &[ToldLine],
) -> Result<(), NoMemory>
    ensures { OnOk result (all.new ≡ all.old ++ map (λ l. record { event = event; system = system; line = l }) lines.now) }
{
    for line in lines {
        let line = line.copy(alloc)?;
        all.push(Told {
            event,
            system,
            line,
        })?;
    }
    Ok(())
}

impl Merging {
    /// Goes through one more step. There is no memory for more than 2^57.
    fn add(&mut self, alloc: Global, system: SysId, step: &StepDone) -> Result<(), NoMemory>
        requires { length self.old.merged.events ≤ last_number }
        ensures leads { OnOk result (Leads self.old.table.elements self.old.merged ((system, step.now) ∷ []) self.new.table.elements self.new.merged) }
        ensures few { length self.new.merged.events ≤ last_number }
    {
        if self.merged.events.len() as u64 >= LAST_NUMBER {
            return Err(NoMemory);
        }
        self.merged.events.push(Event {
            system,
            choice: step.choice,
        })?;
        let event = self.merged.events.len() as u64;
        let fixed = step.fixed.as_slice();
        add_fixed(alloc, &mut self.table, system, fixed, &mut self.merged.hist)?;
        let lines = step.told.as_slice();
        add_told(alloc, &mut self.merged.told, event, system, lines)?;
        Ok(())
    }

    /// Goes through steps of one system.
    fn add_all(&mut self, alloc: Global, system: SysId, steps: &[StepDone]) -> Result<(), NoMemory>
        requires { length self.old.merged.events ≤ last_number }
        ensures leads { OnOk result (Leads self.old.table.elements self.old.merged (merges.steps_by system steps.now) self.new.table.elements self.new.merged) }
        ensures few { length self.new.merged.events ≤ last_number }
    {
        for step in steps {
            self.add(alloc, system, step)?;
        }
        Ok(())
    }

    /// Goes through the quiet steps of each log before its first journalled one: what the logs have behind these.
    fn begin<'l>(
        &mut self,
        alloc: Global,
        logs: &[&'l [StepDone]],
    ) -> Result<Vec<&'l [StepDone]>, NoMemory>
        requires systems { length logs.now ≤ most_systems }
        requires few { length self.old.merged.events ≤ last_number }
        ensures leads { OnOk result (Leads self.old.table.elements self.old.merged (merges.quiet_fronts 0 (map (λ l. l.now) logs.now)) self.new.table.elements self.new.merged) }
        ensures rests { IfOk result (λ rests. map (λ r. r.now) rests.items ≡ map merges.without_front (map (λ l. l.now) logs.now)) }
        ensures few { length self.new.merged.events ≤ last_number }
    {
        let mut rests = Vec::new(alloc);
        for (number, steps) in logs.iter().enumerate() {
            let steps = *steps;
            let (front, rest) = steps.split_at(quiet_count(steps));
            self.add_all(alloc, SysId(number as u8), front)?;
            if rests.push(rest).is_err() {
                return Err(NoMemory);
            }
        }
        Ok(rests)
    }

    /// Goes through the next step of a system, with the quiet ones behind it.
    fn go_on(
        &mut self,
        alloc: Global,
        rests: &mut Vec<&[StepDone]>,
        system: SysId,
    ) -> Result<(), NoMemory>
        requires { length self.old.merged.events ≤ last_number }
        ensures leads { OnOk result (let rest = merges.rest_of (map (λ r. r.now) rests.old.items) system in Leads self.old.table.elements self.old.merged (merges.steps_by system (take (merges.run_count rest) rest)) self.new.table.elements self.new.merged) }
        ensures rests { let rest = merges.rest_of (map (λ r. r.now) rests.old.items) system in map (λ r. r.now) rests.new.items ≡ set (map (λ r. r.now) rests.old.items) system.0 (drop (merges.run_count rest) rest) }
        ensures few { length self.new.merged.events ≤ last_number }
    {
        let place = system.0 as usize;
        if place >= rests.len() {
            return Ok(());
        }
        let steps = rests[place];
        let (run, rest) = steps.split_at(run_count(steps));
        rests[place] = rest;
        self.add_all(alloc, system, run)
    }

    /// Goes through all steps of the logs, in the journal's order.
    fn go_through(
        &mut self,
        alloc: Global,
        journal: &[JEntry],
        logs: &[&[StepDone]],
    ) -> Result<(), NoMemory>
        requires systems { length logs.now ≤ most_systems }
        requires few { length self.old.merged.events ≤ last_number }
        ensures leads { OnOk result (Leads self.old.table.elements self.old.merged (merges.in_order journal.now (map (λ l. l.now) logs.now)) self.new.table.elements self.new.merged) }
        ensures few { length self.new.merged.events ≤ last_number }
    {
        let mut rests = self.begin(alloc, logs)?;
        for entry in journal {
            self.go_on(alloc, &mut rests, entry.system)?;
        }
        Ok(())
    }
}

/// The events of at most eight logs that are lent, as `merge` puts them in order.
pub fn merge_steps(
    alloc: Global,
    journal: &[JEntry],
    logs: &[&[StepDone]],
) -> Result<Merged, NoMemory>
    requires { length logs.now ≤ most_systems }
    ensures merged { IfOk result (λ m. m ≡ merges.merged_steps journal.now (map (λ l. l.now) logs.now)) }
    ensures few { IfOk result (λ m. length m.events ≤ last_number) }
{
    let mut merging = Merging {
        table: Table::new(alloc, LinkedQueues::new(alloc)),
        merged: Merged {
            events: List::new(alloc),
            hist: List::new(alloc),
            told: List::new(alloc),
        },
    };
    merging.go_through(alloc, journal, logs)?;
    Ok(merging.merged)
}

/// The events of the logs in one order: those that the journal has in its order, and behind each the quiet ones that its
/// system made before its next one of the journal. Before all stand the quiet ones that came before any of the journal, system by
/// system. The logs, eight at most, stand in the order of their systems, and a log is to have as many journalled steps as the
/// journal has entries of its system. The replies in the history are those of the plain lists at its place; what was told is what the logs say. There is no
/// memory for more than 2^57 events.
pub fn merge(alloc: Global, journal: &[JEntry], logs: &[NodeLog]) -> Result<Merged, NoMemory>
    requires { length logs.now ≤ most_systems }
    ensures merged { IfOk result (λ m. m ≡ merges.merged journal.now logs.now) }
    ensures few { IfOk result (λ m. length m.events ≤ last_number) }
{
    let mut lent = Vec::new(alloc);
    for log in logs {
        if lent.push(log.steps.as_slice()).is_err() {
            return Err(NoMemory);
        }
    }
    merge_steps(alloc, journal, lent.as_slice())
}
