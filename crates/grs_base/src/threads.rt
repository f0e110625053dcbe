//! What may be handed to another thread, or lent to several. There is nothing to run.
use super::name::{Qname, Rname};
use super::resource::Res;

/// A value that other threads may be handed and lent.
pub fn crosses<T: Send + Sync>(_value: &T) {}

/// A value that may be handed to another thread.
pub fn moves<T: Send>(_value: &T) {}

/// Names may be handed to another thread, and lent to several, though copies share their bytes.
pub fn names_cross(qname: &Qname, rname: &Rname) {
    crosses(qname);
    crosses(rname)
}

/// So may resources.
pub fn resources_cross(res: &Res) {
    crosses(res)
}
