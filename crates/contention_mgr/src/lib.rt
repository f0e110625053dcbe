//! A contention manager: the lists of the lock entries that one system manages in star mode. It answers requests by the
//! tables of ENQ and DEQ, gives each new element the next rank of its entry, and knows which owners of other systems are
//! still to be told. It knows nothing of mail, lock words or what the tasks of its system do.
#![tactic(auto)]

mod entry;
mod install;
pub mod install_laws;
pub mod laws;
mod load;
mod lose;
pub mod lose_laws;
mod manager;
mod marks;
mod untold;

pub use manager::Manager;
