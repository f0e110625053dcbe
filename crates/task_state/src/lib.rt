//! The tasks of one system: how far each is in its lines, what it waits for, its requests on record, and
//! what was told; and what an answer, or control that another's request gave, does to a task. It knows
//! nothing of the lists that grant control.
#![tactic(auto)]

mod codes;
mod records;
mod replies;
mod state;
mod tasks;
mod units;

pub use records::Records;
pub use replies::{replied, tell_answer, tell_code, tell_new, tell_rows};
pub use state::{Asked, Phase, Rec, Showing, TaskState};
pub use tasks::Tasks;
