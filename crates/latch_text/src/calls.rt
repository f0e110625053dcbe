//! Calls that are carried out one behind the other, each answered behind a text.
ghost use Rattle.std.specs.Prelude.{◌≡◌, ◌++◌, [], IfOk, OnOk};
ghost use Rattle.grs_latch.specs.Calls.{MayCome, AllCome, reply, replies, after, after_all};
ghost use Rattle.latch_text.specs.Text.{reply_text, calls_text, latch_text};

use crate::lines::put_reply;
use crate::rows::put_rows;
use grs_base::{List, NoMemory};
use grs_latch::{LatchCall, Latches};
use std::alloc::Global;

/// Carries out a call, and puts what it is answered behind a text.
fn put_call(
    alloc: Global,
    number: u64,
    call: &LatchCall,
    latches: &mut Latches,
    out: &mut List<u8>,
) -> Result<(), NoMemory>
    requires { MayCome call.now latches.old }
    ensures text { OnOk result (out.new ≡ out.old ++ reply_text number call.now (reply 0 call.now latches.old)) }
    ensures after { OnOk result (latches.new ≡ after call.now latches.old) }
{
    let reply = latches.call(alloc, call)?;
    put_reply(number, call, &reply, out)
}

/// The same of calls in order, from number 1 on.
fn put_calls(
    alloc: Global,
    calls: &[LatchCall],
    latches: &mut Latches,
    out: &mut List<u8>,
) -> Result<(), NoMemory>
    requires { AllCome calls.now latches.old }
    ensures text { OnOk result (out.new ≡ out.old ++ calls_text 1 calls.now (replies calls.now latches.old)) }
    ensures after { OnOk result (latches.new ≡ after_all calls.now latches.old) }
{
    for (place, call) in calls.iter().enumerate() {
        put_call(alloc, place as u64 + 1, call, latches, out)?;
    }
    Ok(())
}

/// The text of calls that may come one behind the other, from no sets on. Of the calls of
///
///     CRT SETA 2
///     OBT SETA 0 1 E SYNC
///     OBT SETA 0 2 S SYNC
///     REL SETA 0 1
///
/// it is
///
///     L 1 CRT 00
///     L 2 OBT 00
///     L 3 OBT 04
///     L 4 REL 00
///     G SETA 0 2
///     LATCHES 1
///     Q SETA 0 2:S*
///
/// A line with L has the number of a call, its word and its code in hexadecimal digits, and of a purge how many requests it
/// took out. A line with G tells who gets a latch by the call above it, and one with Q a latch that has requests at the
/// end: sets in order of making, latches by number, requests in order of arrival, owners with a star.
pub fn latch_text(alloc: Global, calls: &[LatchCall]) -> Result<List<u8>, NoMemory>
    requires { AllCome calls.now [] }
    ensures { IfOk result (λ out. out ≡ latch_text calls.now) }
{
    let mut out = List::new(alloc);
    let mut latches = Latches::new(alloc);
    put_calls(alloc, calls, &mut latches, &mut out)?;
    let rows = latches.rows(alloc)?;
    put_rows(&latches, rows.as_slice(), &mut out)?;
    Ok(out)
}
