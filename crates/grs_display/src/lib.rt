//! Lists of elements as lines of text, with the names of a deck. What a line stands in is not known here, nor
//! how a list comes about.
#![tactic(auto)]

mod lines;
mod names;
mod rows;

pub use lines::{put_count, put_line, put_number, put_number_word, put_word};
pub use names::{name_at, names_of, put_task, put_task_in_job};
pub use rows::{print_row, put_filter, put_place, put_res, put_rows};
