//! A bus and its seats.
ghost use Rattle.std.specs.Prelude.{◌≡◌};

use crate::sleepers::Sleepers;
use crate::slot::Slot;
use crate::steps::InTurn;
use crate::view::View;
use atomic_table::Table;
use grs_base::SysId;
use grs_medium::Medium;
use std::alloc::Global;
use std::marker::Model;
use std::snapshot::Snapshot;

/// A seat's place at the table.
pub type Place = atomic_table::Seat<Slot, View>;

/// One medium and the journal of its calls, which the seats of several threads call in turn. Contracts see which bus
/// it is, and its medium at the start.
#[derive(Drop)]
pub struct Bus {
    pub(crate) table: Table<Slot, View, Snapshot<Medium>, InTurn, Global>,
    pub(crate) sleepers: Sleepers,
}

impl Model for Bus {
    ghost use Rattle.std.specs.Prelude.{◌≡◌};
    ghost use Rattle.grs_bus.specs.Seats.{BusValue};

    ghost Value = { BusValue };

    ghost view = { λ b. record { table = b.table.shared.table_id; first = b.table.shared.key.value.state } };

    ghost invariant = { λ b. (b.table.shared.table_id.words ≡ 1) × (b.table.shared.table_id.slots ≡ 1) };
}

/// The right of one system to call the medium of a bus. Contracts see its bus and system, the entries of its system
/// so far, the longest journal that it has seen, how often it took the word, and whom its last call concerned.
#[derive(Drop)]
pub struct Seat {
    pub(crate) place: Place,
    pub(crate) system: SysId,
    /// Whom the last call of the seat concerned.
    pub(crate) concerned: u32,
}

impl Model for Seat {
    ghost use Rattle.grs_bus.specs.Places.{seat_of, Rests};
    ghost use Rattle.grs_bus.specs.Seats.{SeatValue};

    ghost Value = { SeatValue };

    ghost view = { λ s. seat_of s.place.table_id s.place.me.0 s.concerned };

    ghost invariant = { λ s. Rests s.place s.system };
}

impl Seat {
    /// Whose seat it is.
    pub fn system(&self) -> SysId
        ensures { result ≡ self.now.system }
    {
        self.system
    }

    /// The systems which the last call of the seat may have given something to do, so that who makes it can wake them: nobody before
    /// the first call, and where it didn't change the medium.
    pub fn concerned(&self) -> u32
        ensures { result ≡ self.now.concerned }
    {
        self.concerned
    }
}
