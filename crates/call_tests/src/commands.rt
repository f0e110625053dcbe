//! The commands over streams in memory, of which some calls fail, and over streams that are sure never to.
use grs_base::{List, NoMemory};
use grs_io::{MemSink, MemSource, SureSink, SureSource};
use grs_top::{Status, lists_command, replay_command};
use std::alloc::Global;
use std::test::Fail;

const DECK: &[u8] = b"RNLDEF RNL(INCL) TYPE(PATTERN) QNAME(APPL*)\n\
    SYSTEM SYA\n";

const LISTS: &[u8] = b"RNLDEF RNL(INCL) TYPE(PATTERN) QNAME(APPL*)\n";

/// A task asks for a file and gives it back.
const TASK_DECK: &[u8] = b"SYSTEM SYA\n\
    JOB J1\n\
    TASK T1\n\
    ENQ (PAYROLL,MASTER,E,SYSTEM)\n\
    DEQ (PAYROLL,MASTER,SYSTEM)\n\
    SCHEDULE\n\
    SYA TASK J1.T1\n\
    SYA TASK J1.T1\n\
    SYA TASK J1.T1\n";

const REPORT: &[u8] = b"GRS REPORT 1\n\
    SCHEDULE 3\n\
    SYA TASK J1.T1\n\
    SYA TASK J1.T1\n\
    SYA TASK J1.T1\n\
    HISTORY 2\n\
    H 1 SYA.J1.T1 ENQ SYSTEM(SYA,PAYROLL,MASTER) E NONE 00\n\
    H 2 SYA.J1.T1 DEQ SYSTEM(SYA,PAYROLL,MASTER) NONE 00\n\
    TOLD\n\
    SYSTEM SYA\n\
    TASK J1.T1\n\
    T 1 ENQ 00 @1\n\
    T 2 DEQ 00 @2\n\
    T END 000 @3\n\
    S ENDED\n\
    QUEUES\n\
    UNITS\n\
    WORDS\n\
    MODE RING\n\
    END DONE\n";

/// How many bytes one call moves, the numbers of the read and of the write that fail (0 where none does), and what
/// is to come of it: the status, and how many bytes of the lists are written.
type Case = (usize, u64, u64, Status, usize);

/// The deck has 55 bytes and its lists 44. Behind the last byte a read tells the end.
const CASES: [Case; 10] = [
    (1, 0, 0, Status::Done, 44),
    (10, 0, 0, Status::Done, 44),
    (4096, 0, 0, Status::Done, 44),
    (10, 1, 0, Status::ReadFault, 0),
    (10, 2, 0, Status::ReadFault, 0),
    (10, 7, 0, Status::ReadFault, 0),
    (10, 8, 0, Status::Done, 44),
    (10, 0, 1, Status::WriteFault, 0),
    (10, 0, 2, Status::WriteFault, 10),
    (10, 0, 6, Status::Done, 44),
];

/// The number of the call that is to fail.
fn calls(alloc: Global, call: u64) -> Result<List<u64>, NoMemory> {
    let mut calls = List::new(alloc);
    calls.push(call)?;
    Ok(calls)
}

fn source_of(alloc: Global, deck: &[u8], chunk: usize, call: u64) -> Result<MemSource, NoMemory> {
    let bytes = List::from_bytes(alloc, deck)?;
    Ok(MemSource::new(bytes, chunk.max(1), calls(alloc, call)?))
}

fn sink_of(alloc: Global, chunk: usize, call: u64) -> Result<MemSink, NoMemory> {
    Ok(MemSink::new(alloc, chunk.max(1), calls(alloc, call)?))
}

/// The status of a case, and whether so many bytes of the lists were written as are due.
fn answer(alloc: Global, case: &Case) -> Result<(Status, bool), NoMemory> {
    let (chunk, read, write, _, count) = *case;
    let mut source = source_of(alloc, DECK, chunk, read)?;
    let mut sink = sink_of(alloc, chunk, write)?;
    let status = lists_command(alloc, &mut source, &mut sink);
    let due = LISTS.get(..count).unwrap_or(b"");
    Ok((status, sink.bytes() == due))
}

#[test]
fn streams_in_memory(rt: HostRuntime) -> Result<(), Fail> {
    for case in &CASES {
        let (status, is_due) = answer(rt.alloc(), case)?;
        assert_eq!(rt; status, case.3);
        assert!(rt; is_due);
    }
    Ok(())
}

/// How many bytes one call moves, and how many reads and writes a replay makes then: the deck has 138 bytes, behind which one
/// read tells the end, and the report 301.
type Pieces = (usize, u64, u64);

const PIECES: [Pieces; 3] = [(1, 139, 301), (10, 15, 31), (4096, 2, 1)];

/// Whether a replay ends so, and has written so many bytes of the report, where the read and the write of these numbers fail (0
/// where none does).
fn replays(
    alloc: Global,
    chunk: usize,
    read: u64,
    write: u64,
    wanted: Status,
    count: usize,
) -> Result<bool, NoMemory> {
    let mut source = source_of(alloc, TASK_DECK, chunk, read)?;
    let mut sink = sink_of(alloc, chunk, write)?;
    let status = replay_command(alloc, &mut source, &mut sink);
    let due = REPORT.get(..count).unwrap_or(b"");
    Ok(status == wanted && sink.bytes() == due)
}

/// Whether a replay of which one read fails writes nothing, whichever of so many it is. There is none behind these.
fn each_read_fails(alloc: Global, chunk: usize, reads: u64) -> Result<bool, NoMemory> {
    for made in 0..reads {
        let call = made.saturating_add(1);
        if !replays(alloc, chunk, call, 0, Status::ReadFault, 0)? {
            return Ok(false);
        }
    }
    let behind = reads.saturating_add(1);
    replays(alloc, chunk, behind, 0, Status::Done, REPORT.len())
}

/// Whether a replay of which one write fails has written what the writes before it took, whichever of so many it is. There is
/// none behind these.
fn each_write_fails(alloc: Global, chunk: usize, writes: u64) -> Result<bool, NoMemory> {
    let mut before = 0usize;
    for made in 0..writes {
        let call = made.saturating_add(1);
        if !replays(alloc, chunk, 0, call, Status::WriteFault, before)? {
            return Ok(false);
        }
        before = before.saturating_add(chunk);
    }
    let behind = writes.saturating_add(1);
    replays(alloc, chunk, 0, behind, Status::Done, REPORT.len())
}

#[test]
fn each_call_of_a_replay_fails_in_turn(rt: HostRuntime) -> Result<(), Fail> {
    for pieces in &PIECES {
        let (chunk, reads, writes) = *pieces;
        assert!(rt; each_read_fails(rt.alloc(), chunk, reads)?);
        assert!(rt; each_write_fails(rt.alloc(), chunk, writes)?);
    }
    Ok(())
}

#[test]
fn sure_streams(rt: HostRuntime) -> Result<(), Fail> {
    let alloc = rt.alloc();
    let mut source = SureSource::new(List::from_bytes(alloc, DECK)?);
    let status = lists_command(alloc, &mut source, &mut SureSink::new());
    assert_eq!(rt; status, Status::Done);
    let mut source = SureSource::new(List::from_bytes(alloc, DECK)?);
    let status = replay_command(alloc, &mut source, &mut SureSink::new());
    assert_eq!(rt; status, Status::Done);
    Ok(())
}
