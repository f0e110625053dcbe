//! That systems of a star go on while others are held ahead of a call.
//!
//! Those that go on mail to and fro, since they ask for one resource again and again, and one of them manages it. The others have no
//! task, or share a resource of another lock entry, so that nobody waits for one that is held.
use crate::hold::{Hold, Outcome, Part};
use crate::runs::{NAMES, STAR, add_system, ran};
use crate::sleeps::RIGHT;
use grs_base::{List, MOST_SYSTEMS, NoMemory};
use std::alloc::Global;
use std::sync::Wait;
use std::test::Fail;
use std::thread::Threads;

/// What those ask for that go on, and the others, which is in another lock entry.
const SHARED: &[u8] = b"ENQ (A,F,E,SYSTEMS)\nDEQ (A,F,SYSTEMS)\n";

const OTHER: &[u8] = b"ENQ (A,C,E,SYSTEMS)\nDEQ (A,C,SYSTEMS)\n";

/// How many calls and steps those that go on are to get to, and how often they ask for the resource and give it back. Each request of the
/// one that doesn't manage it is two calls and three steps at least, and two calls of the manager.
const CALLS: u64 = 1_000;

const STEPS: u64 = 1_000;

const PAIRS: u32 = 300;

/// Behind how many calls a system is held that has made some, and how often it asks for a resource and gives it back.
const SOME_CALLS: u64 = 100;

const SOME_PAIRS: u32 = 100;

fn right(passed: u64) -> Outcome {
    Outcome {
        end: RIGHT,
        passed,
        gave_up: 0,
    }
}

/// Runs systems with these parts, of which those that don't go on ask so often for another resource and give it back, and are held behind
/// so many calls.
fn outcome_of<R: Threads + Wait + Sync>(
    rt: &R,
    alloc: Global,
    parts: &[Part],
    other_pairs: u32,
    behind: u64,
) -> Result<Outcome, NoMemory> {
    let mut deck = List::from_bytes(alloc, STAR)?;
    for (name, part) in NAMES.iter().zip(parts) {
        match part {
            Part::GoesOn => add_system(&mut deck, name, SHARED, PAIRS)?,
            Part::Held | Part::Free => add_system(&mut deck, name, OTHER, other_pairs)?,
        }
    }
    let gate = Hold::new(alloc, parts, behind, CALLS, STEPS)?;
    let (end, _) = ran(rt, alloc, deck, &gate)?;
    Ok(gate.outcome(end))
}

#[test]
fn two_of_three_mail_while_the_first_is_held(rt: HostRuntime) -> Result<(), Fail> {
    let parts = [Part::Held, Part::GoesOn, Part::GoesOn];
    assert_eq!(rt; outcome_of(&rt, rt.alloc(), &parts, 0, 0)?, right(1));
    Ok(())
}

#[test]
fn two_of_three_mail_while_the_second_is_held(rt: HostRuntime) -> Result<(), Fail> {
    let parts = [Part::GoesOn, Part::Held, Part::GoesOn];
    assert_eq!(rt; outcome_of(&rt, rt.alloc(), &parts, 0, 0)?, right(1));
    Ok(())
}

#[test]
fn two_of_three_mail_while_the_third_is_held(rt: HostRuntime) -> Result<(), Fail> {
    let parts = [Part::GoesOn, Part::GoesOn, Part::Held];
    assert_eq!(rt; outcome_of(&rt, rt.alloc(), &parts, 0, 0)?, right(1));
    Ok(())
}

#[test]
fn two_of_four_mail_while_the_first_is_held_behind_some_calls(rt: HostRuntime) -> Result<(), Fail> {
    let parts = [Part::Held, Part::Free, Part::GoesOn, Part::GoesOn];
    let outcome = outcome_of(&rt, rt.alloc(), &parts, SOME_PAIRS, SOME_CALLS)?;
    assert_eq!(rt; outcome, right(1));
    Ok(())
}

#[test]
fn two_of_four_mail_while_the_second_is_held_behind_some_calls(
    rt: HostRuntime,
) -> Result<(), Fail> {
    let parts = [Part::Free, Part::Held, Part::GoesOn, Part::GoesOn];
    let outcome = outcome_of(&rt, rt.alloc(), &parts, SOME_PAIRS, SOME_CALLS)?;
    assert_eq!(rt; outcome, right(1));
    Ok(())
}

#[test]
fn two_of_four_mail_while_the_third_is_held_behind_some_calls(rt: HostRuntime) -> Result<(), Fail> {
    let parts = [Part::GoesOn, Part::GoesOn, Part::Held, Part::Free];
    let outcome = outcome_of(&rt, rt.alloc(), &parts, SOME_PAIRS, SOME_CALLS)?;
    assert_eq!(rt; outcome, right(1));
    Ok(())
}

#[test]
fn two_of_four_mail_while_the_fourth_is_held_behind_some_calls(
    rt: HostRuntime,
) -> Result<(), Fail> {
    let parts = [Part::GoesOn, Part::GoesOn, Part::Free, Part::Held];
    let outcome = outcome_of(&rt, rt.alloc(), &parts, SOME_PAIRS, SOME_CALLS)?;
    assert_eq!(rt; outcome, right(1));
    Ok(())
}

#[test]
fn the_first_two_of_eight_mail_while_six_are_held(rt: HostRuntime) -> Result<(), Fail> {
    let mut parts = [Part::Held; MOST_SYSTEMS];
    parts[0] = Part::GoesOn;
    parts[1] = Part::GoesOn;
    assert_eq!(rt; outcome_of(&rt, rt.alloc(), &parts, 0, 0)?, right(6));
    Ok(())
}

#[test]
fn the_last_two_of_eight_mail_while_six_are_held(rt: HostRuntime) -> Result<(), Fail> {
    let mut parts = [Part::Held; MOST_SYSTEMS];
    parts[6] = Part::GoesOn;
    parts[7] = Part::GoesOn;
    assert_eq!(rt; outcome_of(&rt, rt.alloc(), &parts, 0, 0)?, right(6));
    Ok(())
}
