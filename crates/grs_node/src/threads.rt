//! What may be handed to another thread, or lent to several. There is nothing to run.
use super::node::Node;
use super::prepared::Prepared;
use grs_base::threads::crosses;

/// A system may be handed to another thread, and lent to several.
pub fn nodes_cross(node: &Node<'_>) {
    crosses(node)
}

/// So may what a choice comes to.
pub fn prepared_crosses(prepared: &Prepared) {
    crosses(prepared)
}
