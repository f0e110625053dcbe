//! Names, resources, the lists of elements that wait for them, and the codes that are answered.
//! Every other crate stands on this one; it knows nothing of decks, systems at work or messages.
#![tactic(auto)]

mod decision;
mod fault;
mod limits;
mod line;
mod list;
mod look;
mod name;
mod order;
mod print;
mod queues;
mod resource;
mod rnl;
mod slice;
mod steps;
pub mod threads;

pub use decision::{Code, Decision, Effect, Standing};
pub use fault::{DeckFault, Kind, NameFault, NoMemory, ReadError};
pub use limits::{
    LAST_NUMBER, MOST_ENTRIES, MOST_JOBS, MOST_LIMIT, MOST_LINES, MOST_NAME_BYTES,
    MOST_QNAME_BYTES, MOST_RNAME_BYTES, MOST_SYSTEMS, MOST_TASKS,
};
pub use line::{Item, Line, Scope};
pub use list::{Copied, List, copy_all};
pub use look::{Filter, Place};
pub use name::{Qname, Rname, is_qname, is_rname};
pub use print::{ctl_word, is_plain_byte, is_printable, print_name, unit_digits};
pub use queues::Queues;
pub use resource::{Ctl, Elem, Res, Ret, Row, SysId, TaskId, is_same_res, is_same_task};
pub use rnl::{Form, Lists, RnlEntry, RnlList, Which};
pub use slice::{SLICES, entry_of, slice_of};
pub use steps::Steps;
