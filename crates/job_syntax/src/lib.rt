//! Task lines: from the tokens of a line to what it says, and from a line back to its text. It knows
//! the forms of single lines, and nothing of systems, jobs and tasks. (The words and operands are those of
//! z/OS MVS Programming: Assembler Services Reference, "ENQ" and "DEQ"; Authorized Assembler Services
//! Reference, "GQSCAN" and "RESERVE"; and z/OS MVS System Commands, "DISPLAY GRS".)
#![tactic(auto)]

mod ask;
mod display;
mod laws;
mod line;
mod line_ask;
mod options;
mod print;
mod read;
mod unit;

pub use ask::{EnqAsk, ResAsk};
pub use display::{ScanAsk, Shown, Wanted};
pub use laws::{one_line, printed_lines, spelled_tokens};
pub use line::{has_bad_name, line_of};
pub use line_ask::{LineAsk, LineWord, line_ask_at, line_word_of};
pub use options::Opts;
pub use print::print_line;
pub use read::read_line;
