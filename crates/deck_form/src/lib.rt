//! From lines of tokens to statements: which lines make one, and what it says. It knows the forms, and
//! not what other statements said.
#![tactic(auto)]

mod command;
mod complex;
mod event;
mod form;
mod grouping;
mod laws;
mod system_names;
mod words;

pub use command::{Command, GivenOrder};
pub use complex::Setup;
pub use event::EventAct;
pub use form::{Stmt, plain_statement, statement};
pub use grouping::Statements;
pub use laws::{names_are_spelled, one_statement};
pub use system_names::SystemNames;
pub use words::{short_at, written_number};
