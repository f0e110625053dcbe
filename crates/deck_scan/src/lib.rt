//! From the bytes of a deck to its lines of tokens, which are read one by one: a line is cut into pieces by
//! searches over its bytes, and its tokens borrow them. It knows what a token is, and nothing of what a statement
//! is made of.
#![tactic(auto)]

mod bytes;
mod closes;
mod cursor;
mod gaps;
mod given;
mod laws;
mod lengths;
mod miss;
mod next;
mod plain;
mod row;
mod token;

pub use bytes::{digit_of, is_hex_byte};
pub use closes::bytes_to_close;
pub use cursor::{Lines, MOST_TEXT_BYTES};
pub use given::GivenName;
pub use laws::{bad_bytes, printed_names, spelled_lines};
pub use lengths::{is_bad_qname, is_bad_rname, maybe_qname, maybe_rname, qname_of, rname_of};
pub use miss::{Miss, or_bad, refused};
pub use next::{
    any_word_at, close_at, comma_at, end_at, equals_at, name_at, open_at, value_at, word_at,
};
pub use plain::PlainLine;
pub use token::{Part, Token, TokenLine};
