//! What a system keeps of its own events.
ghost use Rattle.std.specs.Prelude.{◌≡◌, IfOk};

use super::deck::Choice;
use super::request::Fixed;
use super::told::ToldLine;
use grs_base::{Copied, List, NoMemory, copy_all};
use std::alloc::Global;

/// One event of a system: what it chose, whether the call that it made of the medium has an entry in the
/// journal, what it fixed and what it told.
#[derive(Drop)]
pub struct StepDone {
    pub choice: Choice,
    pub journalled: bool,
    pub fixed: List<Fixed>,
    pub told: List<ToldLine>,
}

impl StepDone {
    /// An equal step.
    pub fn copy(&self, alloc: Global) -> Result<StepDone, NoMemory>
        ensures { IfOk result (λ step. step ≡ self.now) }
    {
        let fixed = copy_all(alloc, self.fixed.as_slice())?;
        let told = copy_all(alloc, self.told.as_slice())?;
        Ok(StepDone {
            choice: self.choice,
            journalled: self.journalled,
            fixed,
            told,
        })
    }
}

impl Copied for StepDone {
    fn copied(&self, alloc: Global) -> Result<StepDone, NoMemory> {
        self.copy(alloc)
    }
}

/// The events of a system, in order.
#[derive(Drop)]
pub struct NodeLog {
    pub steps: List<StepDone>,
}

impl NodeLog {
    /// An equal log.
    pub fn copy(&self, alloc: Global) -> Result<NodeLog, NoMemory>
        ensures { IfOk result (λ log. log ≡ self.now) }
    {
        Ok(NodeLog {
            steps: copy_all(alloc, self.steps.as_slice())?,
        })
    }
}

impl Copied for NodeLog {
    fn copied(&self, alloc: Global) -> Result<NodeLog, NoMemory> {
        self.copy(alloc)
    }
}
