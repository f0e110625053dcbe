//! One call: the word is taken, the slot is worked on, and the word is given back.
ghost use Rattle.std.specs.Prelude.{◌≡◌, ◌<◌, ◌+◌, [], true, false, IfOk, OnErr, MatchResult, length};
ghost use Rattle.grs_medium.specs.Apply.{MayCall};
ghost use Rattle.grs_bus.specs.Journal.{concerned_by, no_length};
ghost use Rattle.grs_bus.specs.Places.{Rests, IsSamePlace, Holds};
ghost use Rattle.grs_bus.specs.Seats.{IsSameSeat, IsAnswered, IsRefused};
ghost use Rattle.grs_bus.specs.Slots.{Answers, IsUnchanged};
ghost use Rattle.grs_bus.specs.Steps.{Took, MayComeHome, given_back};

use crate::bus::{Bus, Place, Seat};
use crate::steps::{GiveBack, Take};
use grs_base::{NoMemory, SysId};
use grs_wire::{Call, Reply};
use std::sync::Wait;

/// How many numbers of a holder the word tells apart: 0 for nobody, and else a system's number and one. The journal's
/// length stands above it.
const HOLDERS: u64 = 64;

impl Bus {
    // Waits until no seat has the word, and takes it: the word as it was.
    fn take<R: Wait>(&self, rt: &R, place: &mut Place, system: SysId) -> u64
        requires table { place.old.table_id ≡ self.now.table }
        requires rests { Rests place.old system }
        ensures same { IsSamePlace place.old place.new }
        ensures took { Took result place.old.me place.new.me }
    {
        let shared = &self.table.shared;
        for _ in rt.forever() {
            let word = shared.peek(0);
            if word % HOLDERS == 0 {
                let held = word + u64::from(system.0) + 1;
                if shared.compare_exchange::<Take>(place, 0, word, held) == word {
                    return word;
                }
            } else {
                self.sleep(rt, word);
            }
        }
        unreachable!()
    }

    // The answer to the call, the length of the journal after it, and whom the call concerned.
    fn work(
        &self,
        place: &mut Place,
        system: SysId,
        call: Call,
    ) -> (Result<(Reply, bool), NoMemory>, u64, u32)
        requires table { place.old.table_id ≡ self.now.table }
        requires holds { Holds place.old.me (λ slot. MayCall slot.medium.state system call) }
        ensures same { IsSamePlace place.old place.new }
        ensures view { place.new.me.0 ≡ place.old.me.0 }
        ensures answer { Holds place.old.me (λ old. Holds place.new.me (λ new. MatchResult result.0 (λ told. Answers system call old new told × (result.2 ≡ concerned_by old.medium.state system call)) (λ _. IsUnchanged old new × (result.2 ≡ 0)) × (result.1 ≡ length new.journal.items) × (length old.journal.items < no_length → result.1 < no_length))) }
    {
        let slot = place.slot_mut(&self.table.shared, 0);
        let answer = slot.answer(system, call);
        (answer, slot.journal.len() as u64, slot.concerned)
    }

    // Gives the word back, with the journal's length, and wakes one seat that waits for it.
    fn give_back(&self, place: &mut Place, count: u64)
        requires table { place.old.table_id ≡ self.now.table }
        requires holds { (place.old.me.0.spent ≡ false) × (place.old.me.0.holding ≡ true) × (count < no_length) }
        requires home { Holds place.old.me (λ slot. MayComeHome place.old.me.0 slot × (count ≡ length slot.journal.items)) }
        ensures same { IsSamePlace place.old place.new }
        ensures gave { Holds place.old.me (λ slot. place.new.me ≡ (given_back place.old.me.0 slot.journal.items, [])) }
    {
        self.table
            .shared
            .store::<GiveBack>(place, 0, count * HOLDERS);
        self.wake(place);
    }

    /// Waits until no other seat has the word, takes it, makes the call, and gives the word back: the medium's reply,
    /// and whether the call was entered into the journal. It is entered where it changes the medium, and where its
    /// reply is Stale, Already, NoSuch, Sole or Left. The seat keeps whom the call concerned. All memory is taken before
    /// the medium changes, so on NoMemory neither the medium nor the journal has changed, and nobody is concerned. An entry
    /// past the 2^57th is answered NoMemory too.
    pub fn call<R: Wait>(
        &self,
        rt: &R,
        seat: &mut Seat,
        call: Call,
    ) -> Result<(Reply, bool), NoMemory>
        requires seat { seat.old.bus ≡ self.now }
        requires call { MayCall self.now.first seat.old.system call }
        ensures same { IsSameSeat seat.old seat.new }
        ensures takes { seat.new.takes ≡ seat.old.takes + 1 }
        ensures ok { IfOk result (λ told. IsAnswered seat.old call told seat.new) }
        ensures err { OnErr result (IsRefused seat.old seat.new) }
    {
        let system = seat.system;
        let _ = self.take(rt, &mut seat.place, system);
        let (answer, count, concerned) = self.work(&mut seat.place, system, call);
        seat.concerned = concerned;
        self.give_back(&mut seat.place, count);
        answer
    }
}
