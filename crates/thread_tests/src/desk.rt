//! That a command of a desk comes once its system has nothing else to do, and waits for nobody to fall asleep.
//!
//! The first of three systems of a ring has a task that makes no call, and commands for behind more events than it has to make. The others
//! are held ahead of their first calls until the first has made seven events, of which the last command is the last. The message stands
//! at one that is held until then, so nothing comes to the first. Of the commands the second changes nothing, so that nobody is called
//! behind it.
use crate::hold::{Hold, Outcome, Part};
use crate::runs::ran;
use crate::sleeps::RIGHT;
use grs_base::List;
use std::test::Fail;

/// A ring whose first system has little to do by itself, and is to remove the others, one of them twice.
const RING: &[u8] =
    b"SYSTEM SYA\nAT 999 VARY GRS(SYC),PURGE\nAT 999 VARY GRS(SYC),PURGE\nAT 999 VARY GRS(SYB),PURGE\n\
    JOB J1\nTASK T1\nENQ (A,B,E,SYSTEM)\nDEQ (A,B,SYSTEM)\nSYSTEM SYB\nSYSTEM SYC\n";

/// The steps of the first: two lines of its task, the task's end, the turn by which the message goes to the next, and three commands.
const STEPS: u64 = 7;

#[test]
fn commands_wait_for_nobody(rt: HostRuntime) -> Result<(), Fail> {
    let parts = [Part::GoesOn, Part::Held, Part::Held];
    let gate = Hold::new(rt.alloc(), &parts, 0, 0, STEPS)?;
    let deck = List::from_bytes(rt.alloc(), RING)?;
    let (end, _) = ran(&rt, rt.alloc(), deck, &gate)?;
    let right = Outcome {
        end: RIGHT,
        passed: 2,
        gave_up: 0,
    };
    assert_eq!(rt; gate.outcome(end), right);
    Ok(())
}
