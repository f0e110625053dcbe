//! Decks made from parts, and runs of their systems beside each other; and how a gate waits.
use crate::sleeps::{End, RIGHT, Sleeps};
use crossbeam_utils::atomic::AtomicCell;
use grs_base::{List, MOST_SYSTEMS, NoMemory};
use grs_io::{MemSink, MemSource};
use grs_top::run_command;
use grs_workers::Gate;
use std::alloc::Global;
use std::sync::Wait;
use std::thread;
use std::thread::Threads;

/// The names of the systems of these decks.
pub const NAMES: [&[u8]; MOST_SYSTEMS] = [
    b"SYA", b"SYB", b"SYC", b"SYD", b"SYE", b"SYF", b"SYG", b"SYH",
];

/// A star with eight lock entries.
pub const STAR: &[u8] = b"COMPLEX MODE(STAR) ENTRIES(8)\n";

/// How often a gate looks whether something came about before it gives up.
const MOST_TURNS: u64 = 1_000_000_000;

/// How many bytes a read or write moves.
const CHUNK: usize = 4096;

/// Behind how many looks who waits lets other threads run.
const LOOKS: u64 = 128;

/// How often the systems of a deck are run at most, where one run that is right is enough.
const TRIES: u32 = 5;

/// Whether a count reaches this in the end; it gives up behind so many turns.
pub fn reaches(count: &AtomicCell<u64>, least: u64) -> bool {
    for turn in 0..MOST_TURNS {
        if count.load() >= least {
            return true;
        }
        if turn % LOOKS == 0 {
            thread::yield_now();
        }
    }
    false
}

/// Adds a system with a task that has these lines so many times; none where that is 0.
pub fn add_system(
    deck: &mut List<u8>,
    name: &[u8],
    lines: &[u8],
    times: u32,
) -> Result<(), NoMemory> {
    deck.append(b"SYSTEM ")?;
    deck.append(name)?;
    deck.append(b"\n")?;
    if times != 0 {
        deck.append(b"JOB J1\nTASK T1\n")?;
    }
    for _ in 0..times {
        deck.append(lines)?;
    }
    Ok(())
}

/// Runs a deck by threads under this gate: how that ended, and the report.
pub fn ran<R: Threads + Wait + Sync, G: Gate + Sync>(
    rt: &R,
    alloc: Global,
    deck: List<u8>,
    gate: &G,
) -> Result<(End, List<u8>), NoMemory> {
    let mut source = MemSource::new(deck, CHUNK, List::new(alloc));
    let mut sink = MemSink::new(alloc, CHUNK, List::new(alloc));
    let sleeps = Sleeps::new(alloc, gate)?;
    let status = run_command(rt, alloc, &mut source, &mut sink, &sleeps);
    let report = List::from_bytes(alloc, sink.bytes())?;
    Ok((sleeps.end(status), report))
}

/// Whether one of a few runs is right, where other work of the machine may keep threads from getting on at the same time. Each ends as
/// a run does that is right.
pub fn once<F: Fn() -> Result<(End, bool), NoMemory>>(run: &F) -> Result<bool, NoMemory>
    requires { F.IsAlwaysCallable run.now }
{
    for _ in 0..TRIES {
        let (end, is_right) = run()?;
        if end != RIGHT {
            return Ok(false);
        }
        if is_right {
            return Ok(true);
        }
    }
    Ok(false)
}
