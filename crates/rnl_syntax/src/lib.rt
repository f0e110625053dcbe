//! Entries of name lists as RNLDEF statements: from tokens to an entry, and from an entry back to its
//! text. It knows the form of one statement, and which lines belong to it.
#![tactic(auto)]

mod laws;
mod lines;
mod operands;
mod print;
mod read;

pub use laws::{one_entry, printed_entries, spelled_tokens, used_bytes};
pub use lines::{gather, is_rnldef_word};
pub use operands::{Operands, Rnldef, entry_of, has_bad_name, rnldef_at};
pub use print::print_rnldef;
pub use read::read_rnldef;
