//! What may be handed to another thread, or lent to several. There is nothing to run.
use crate::bus::{Bus, Seat};
use grs_base::threads::{crosses, moves};

/// A bus may be handed to another thread, and lent to several.
pub fn buses_cross(bus: &Bus) {
    crosses(bus)
}

/// A seat may be handed to another thread.
pub fn seats_move(seat: &Seat) {
    moves(seat)
}
