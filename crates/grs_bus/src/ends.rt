//! How a bus begins and ends.
ghost use Rattle.std.specs.Prelude.{◌≡◌, ◌≢◌, ◌<◌, ◌≤◌, [], length, IfOk, All};
ghost use Rattle.grs_base.specs.Limits.{most_systems};
ghost use Rattle.grs_wire.specs.declared.medium.Reply.TheVariants as replies;
ghost use Rattle.grs_bus.specs.Journal.{after_all, AreRight};
ghost use Rattle.grs_bus.specs.Places.{Rests, IsSamePlace};
ghost use Rattle.grs_bus.specs.Rule.{founder, joined_all};
ghost use Rattle.grs_bus.specs.Seats.{AllSeats, AreTheSeats, IsNew, Agrees};

use crate::bus::{Bus, Place, Seat};
use crate::sleepers::Sleepers;
use crate::slot::Slot;
use crate::steps::{CutOff, TakeIn};
use atomic_table::{Refused, Table};
use grs_base::{List, NoMemory, SysId};
use grs_medium::Medium;
use grs_wire::JEntry;
use std::alloc::Global;
use std::snapshot::Snapshot;

impl Bus {
    /// A bus over the medium, with a seat for each of its systems, of which there are one to `MOST_SYSTEMS`, in their order. Without memory
    /// for the bus and its seats there is none.
    pub fn new(alloc: Global, medium: Medium, systems: u32) -> Result<(Bus, List<Seat>), NoMemory>
        requires some { 0 < systems }
        requires few { systems ≤ most_systems }
        ensures first { IfOk result (λ made. made.0.first ≡ medium.state) }
        ensures count { IfOk result (λ made. length made.1 ≡ systems) }
        ensures seats { IfOk result (λ made. AreTheSeats made.0 made.1) }
        ensures new { IfOk result (λ made. AllSeats IsNew made.1) }
    {
        let first = Snapshot::of(&medium);
        let slot = Slot {
            medium,
            journal: Vec::new(alloc),
            alloc,
            concerned: 0,
        };
        let mut slots = List::new(alloc);
        slots.push(slot)?;
        let (table, place) = match Table::new(alloc, &[0], slots.into_vec(), &first) {
            Ok(made) => made,
            Err(Refused { slots: _ }) => return Err(NoMemory),
        };
        let sleepers = Sleepers::new();
        let bus = Bus { table, sleepers };
        let seats = bus.deal(alloc, place, systems)?;
        Ok((bus, seats))
    }

    // A seat for each system, cut off from the first place.
    fn deal(&self, alloc: Global, place: Place, systems: u32) -> Result<List<Seat>, NoMemory>
        requires some { 0 < systems }
        requires few { systems ≤ most_systems }
        requires table { place.table_id ≡ self.now.table }
        requires new { place.me ≡ (founder place.me.0.first, []) }
        requires first { place.me.0.first.state ≡ self.now.first }
        ensures count { IfOk result (λ seats. length seats ≡ systems) }
        ensures seats { IfOk result (λ seats. AreTheSeats self.now seats) }
        ensures new { IfOk result (λ seats. AllSeats IsNew seats) }
    {
        let mut lead = place;
        let mut others = List::new(alloc);
        for number in 1..systems {
            let place = self.table.shared.split_seat::<CutOff>(&mut lead);
            let system = SysId(number as u8);
            others.push(Seat {
                place,
                system,
                concerned: 0,
            })?;
        }
        let first = Seat {
            place: lead,
            system: SysId(0),
            concerned: 0,
        };
        let mut seats = others.into_vec();
        if seats.insert(0, first).is_err() {
            return Err(NoMemory);
        }
        Ok(List::from_vec(seats))
    }

    /// The medium and the journal, once all seats are back, in the order in which `new` gave them. It takes no
    /// memory.
    pub fn close(self, seats: List<Seat>) -> (Medium, List<JEntry>)
        requires { AreTheSeats self seats }
        ensures medium { result.0.state ≡ after_all self.first result.1 }
        ensures right { AreRight self.first result.1 }
        ensures none_removed { All (λ e. e.reply ≢ replies.Removed) result.1 }
        ensures seats { AllSeats (Agrees result.1) seats }
    {
        let mut rest = seats.into_vec();
        let Seat {
            place: mut lead,
            system: _,
            concerned: _,
        } = rest.remove(0);
        self.gather(&mut lead, rest);
        let Bus { table, sleepers: _ } = self;
        let mut closed = table.close_with(lead);
        let Slot {
            medium,
            journal,
            alloc: _,
            concerned: _,
        } = closed.take(0);
        closed.free();
        (medium, List::from_vec(journal))
    }

    // The first seat takes the others in.
    fn gather(&self, lead: &mut Place, rest: Vec<Seat>)
        requires table { lead.old.table_id ≡ self.now.table }
        requires rests { Rests lead.old (record { 0 = 0 }) }
        requires rest { AllSeats (λ v. v.bus.table ≡ self.now.table) rest.items }
        ensures same { IsSamePlace lead.old lead.new }
        ensures views { lead.new.me ≡ (joined_all lead.old.me.0 rest.items, []) }
    {
        let mut rest = rest;
        while let Some(seat) = rest.pop() {
            let Seat {
                place,
                system: _,
                concerned: _,
            } = seat;
            self.table.shared.join_seat::<TakeIn>(lead, place);
        }
    }
}
