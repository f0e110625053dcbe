//! One system of a complex: its tasks, its lists, and what each of its events does. An event is prepared, makes
//! at most one call of the medium, and is finished with the reply.
#![tactic(auto)]

mod change;
mod choices;
mod desk;
pub mod laws;
mod lines;
mod node;
mod prepared;
mod ready;
mod removal;
mod replies;
mod scripts;
mod star;
mod star_replies;
mod state;
pub mod threads;
mod turn;

pub use node::Node;
pub use prepared::Prepared;
pub use ready::ToldNext;
pub use replies::leaves_all;
pub use star::Need;
