//! The commands: what each does to its source and its sink. All read and write in the same way.
ghost use Rattle.std.specs.Prelude.{◌≡◌, ◌<◌, ℕ, List, IfOk, OnOk, IfSome, IfNone, Err, map, string_bytes};
ghost use Rattle.std.specs.Fn.{FnReturnsAt};
ghost use Rattle.grs_io.specs.Faults.{HasRisen};
ghost use Rattle.grs_top.specs.Answers.{streams, Answers, ReadsDue, Writes};
ghost use Rattle.grs_top.specs.Commands.{limit_of, NamesStatus};
ghost use Rattle.grs_top.specs.Due.{IsDue};
ghost use Rattle.grs_top.specs.Invocations.{AnswersInvocation};
ghost use Rattle.grs_top.specs.Words.{invocation_of};

use super::Status;
use super::due::{
    Due, due_by_analyze, due_by_audit, due_by_latch, due_by_lists, due_by_notices, due_by_replay,
    due_by_run, due_by_stop,
};
use super::generate::gen_command;
use super::stop::Stop;
use super::words::{Command, Invocation, invocation_of};
use deck_scan::MOST_TEXT_BYTES;
use grs_audit::MOST_AUDITED_BYTES;
use grs_base::NoMemory;
use grs_io::{ReadFailure, Sink, Source, read_all, write_all};
use grs_workers::Gate;
use std::alloc::Global;
use std::sync::Wait;
use std::thread::Threads;

/// How many bytes the text of a command may have.
fn limit_of(command: Command) -> usize
    ensures limit { result ≡ limit_of command }
    ensures room { result < usize.MAX }
{
    match command {
        Command::Replay
        | Command::Run
        | Command::Lists
        | Command::Analyze
        | Command::Notices
        | Command::Latch
        | Command::Stop(_) => MOST_TEXT_BYTES,
        Command::Audit => MOST_AUDITED_BYTES,
    }
}

/// Reads the text of a command, up to one byte more than it may have, and builds what it is answered by.
fn read_due<S: Source, F: Fn(&[u8]) -> Result<Due, NoMemory>>(
    alloc: Global,
    command: Command,
    source: &mut S,
    due_of: &F,
) -> Result<Due, ReadFailure>
    requires callable { F.IsAlwaysCallable due_of.now }
    requires due { (text : List ℕ) (result : _) → FnReturnsAt F.Fn due_of.now text result
        → IfOk result (λ due. IsDue command text due.out due.status) }
    ensures due { IfOk result (λ due. ReadsDue command (S.left source.old) (S.left source.new) due.out due.status) }
    ensures kept { OnOk result (S.faults source.new ≡ S.faults source.old) }
    ensures failed { result ≡ Err ReadFailure.Failed
        → HasRisen (S.faults source.old) (S.faults source.new) }
    ensures memory { result ≡ Err ReadFailure.NoMemory → S.faults source.new ≡ S.faults source.old }
{
    let text = read_all(alloc, source, limit_of(command))?;
    let due = due_of(text.as_slice())?;
    Ok(due)
}

/// Writes what is due.
#[tactic(none)]
pub(crate) fn write_due<K: Sink>(sink: &mut K, due: &Due) -> Status
    ensures { Writes (K.written sink.old) (K.written sink.new) (K.faults sink.old) (K.faults sink.new)
        due.now.out due.now.status result }
{
    match write_all(sink, due.out.as_slice()) {
        Ok(()) => due.status,
        Err(_) => Status::WriteFault,
    }
}

/// Does what a command asks for, by what a text is answered by under it. The answer is built whole before the first write, and
/// the first read or write that fails ends the command.
#[tactic(none)]
fn answer<S: Source, K: Sink, F: Fn(&[u8]) -> Result<Due, NoMemory>>(
    alloc: Global,
    command: Command,
    source: &mut S,
    sink: &mut K,
    due_of: &F,
) -> Status
    requires callable { F.IsAlwaysCallable due_of.now }
    requires due { (text : List ℕ) (result : _) → FnReturnsAt F.Fn due_of.now text result
        → IfOk result (λ due. IsDue command text due.out due.status) }
    ensures answer { Answers command
        (streams (S.left source.old) (K.written sink.old) (S.faults source.old) (K.faults sink.old))
        (streams (S.left source.new) (K.written sink.new) (S.faults source.new) (K.faults sink.new))
        result }
    ensures named { NamesStatus command result }
{
    match read_due(alloc, command, source, due_of) {
        Ok(due) => write_due(sink, &due),
        Err(ReadFailure::Failed) => Status::ReadFault,
        Err(ReadFailure::NoMemory) => Status::NoMemory,
    }
}

/// Reads a deck from a source, runs its schedule and writes the report of the run to a sink. The source is
/// read to its end, or until it gave one byte more than a deck may have. The report is built whole before
/// the first write, and the first read or write that fails ends the command.
///
/// `Done` and `Waits` say how the run ended, `Deck` that the line of the text's first fault was written in
/// place of a report, `ReadFault` and `WriteFault` that a read or write failed, and `NoMemory` that nothing
/// was written for want of memory.
pub fn replay_command<S: Source, K: Sink>(alloc: Global, source: &mut S, sink: &mut K) -> Status
    ensures answer { Answers Command.Replay
        (streams (S.left source.old) (K.written sink.old) (S.faults source.old) (K.faults sink.old))
        (streams (S.left source.new) (K.written sink.new) (S.faults source.new) (K.faults sink.new))
        result }
    ensures named { NamesStatus Command.Replay result }
{
    answer(
        alloc,
        Command::Replay,
        source,
        sink,
        &|text| due_by_replay(alloc, text),
    )
}

/// Reads a deck from a source, runs its systems beside each other, each in a thread where there is one for it, and writes the report
/// of the run to a sink: of the events that they made, in one order. The deck's schedule isn't used. It ends once all systems have
/// come to rest, for which it waits; the gate is lent each system ahead of its calls of the medium and behind them. It reads and
/// writes as `replay_command` does, and its statuses say what they say there.
pub fn run_command<R: Threads + Wait + Sync, S: Source, K: Sink, G: Gate + Sync>(
    rt: &R,
    alloc: Global,
    source: &mut S,
    sink: &mut K,
    gate: &G,
) -> Status
    ensures answer { Answers Command.Run
        (streams (S.left source.old) (K.written sink.old) (S.faults source.old) (K.faults sink.old))
        (streams (S.left source.new) (K.written sink.new) (S.faults source.new) (K.faults sink.new))
        result }
    ensures named { NamesStatus Command.Run result }
{
    answer(
        alloc,
        Command::Run,
        source,
        sink,
        &|text| due_by_run(rt, alloc, text, gate),
    )
}

/// Reads a deck from a source and writes the entries of its name lists to a sink, one printed RNLDEF a line:
/// those of the inclusion list, then of the exclusion list, then of the conversion list. It reads and writes
/// as `replay_command` does.
///
/// `Done` says that all of it was written, and the other statuses what they say there; `Waits` never comes.
pub fn lists_command<S: Source, K: Sink>(alloc: Global, source: &mut S, sink: &mut K) -> Status
    ensures answer { Answers Command.Lists
        (streams (S.left source.old) (K.written sink.old) (S.faults source.old) (K.faults sink.old))
        (streams (S.left source.new) (K.written sink.new) (S.faults source.new) (K.faults sink.new))
        result }
    ensures named { NamesStatus Command.Lists result }
{
    answer(
        alloc,
        Command::Lists,
        source,
        sink,
        &|text| due_by_lists(alloc, text),
    )
}

/// Reads a deck from a source, runs its schedule, and writes to a sink who waits for whom by the lists that the run leaves: how many
/// elements wait, each list where somebody waits with the task that keeps each waiter from control, and tasks that wait for one another
/// in a circle, where there are such. (z/OS MVS System Commands: DISPLAY GRS,ANALYZE.) It reads and writes as `replay_command` does, and
/// its statuses say what they say there.
pub fn analyze_command<S: Source, K: Sink>(alloc: Global, source: &mut S, sink: &mut K) -> Status
    ensures answer { Answers Command.Analyze
        (streams (S.left source.old) (K.written sink.old) (S.faults source.old) (K.faults sink.old))
        (streams (S.left source.new) (K.written sink.new) (S.faults source.new) (K.faults sink.new))
        result }
    ensures named { NamesStatus Command.Analyze result }
{
    answer(
        alloc,
        Command::Analyze,
        source,
        sink,
        &|text| due_by_analyze(alloc, text),
    )
}

/// Reads a deck from a source, runs its schedule, and writes to a sink what is noticed of contention along the run's history: where
/// somebody begins to wait for a resource, where the list of one for which somebody waits changes, and where nobody waits any more.
/// (z/OS MVS Programming: Authorized Assembler Services Guide, event notification facility, signal 51.) It reads and writes as
/// `replay_command` does, and its statuses say what they say there.
pub fn notices_command<S: Source, K: Sink>(alloc: Global, source: &mut S, sink: &mut K) -> Status
    ensures answer { Answers Command.Notices
        (streams (S.left source.old) (K.written sink.old) (S.faults source.old) (K.faults sink.old))
        (streams (S.left source.new) (K.written sink.new) (S.faults source.new) (K.faults sink.new))
        result }
    ensures named { NamesStatus Command.Notices result }
{
    answer(
        alloc,
        Command::Notices,
        source,
        sink,
        &|text| due_by_notices(alloc, text),
    )
}

/// Reads calls of latches from a source, one a line, carries them out, and writes to a sink what each is answered, who gets a latch by
/// it, and in the end which latches are held and awaited. (z/OS MVS Programming: Authorized Assembler Services Reference, ISGLCRT,
/// ISGLOBT, ISGLREL and ISGLPRG.) It reads and writes as `replay_command` does, up to one byte more than a text of calls may have.
///
/// `Done` says that all of it was written, `Deck` that the line of the text's first fault was written in its place, and the other
/// statuses what they say there; `Waits` never comes.
pub fn latch_command<S: Source, K: Sink>(alloc: Global, source: &mut S, sink: &mut K) -> Status
    ensures answer { Answers Command.Latch
        (streams (S.left source.old) (K.written sink.old) (S.faults source.old) (K.faults sink.old))
        (streams (S.left source.new) (K.written sink.new) (S.faults source.new) (K.faults sink.new))
        result }
    ensures named { NamesStatus Command.Latch result }
{
    answer(
        alloc,
        Command::Latch,
        source,
        sink,
        &|text| due_by_latch(alloc, text),
    )
}

/// Reads a deck from a source, runs its schedule with a system that stops, and writes the report of the run to a sink. The system of
/// this name makes its first so many events, and none behind them. Where it then is removed, and the complex is in ring mode, the
/// message goes one lap more, whose Turns the report shows as well. It reads and writes as `replay_command` does, and waits for
/// nobody.
///
/// Its statuses say what they say there; `Deck` also comes where the text has no fault and the deck no system of that name: then the
/// line that is written is `FAULT LINE 0 KIND 9`.
pub fn stop_command<S: Source, K: Sink>(
    alloc: Global,
    stop: Stop,
    source: &mut S,
    sink: &mut K,
) -> Status
    ensures answer { Answers (Command.Stop stop)
        (streams (S.left source.old) (K.written sink.old) (S.faults source.old) (K.faults sink.old))
        (streams (S.left source.new) (K.written sink.new) (S.faults source.new) (K.faults sink.new))
        result }
    ensures named { NamesStatus (Command.Stop stop) result }
{
    answer(
        alloc,
        Command::Stop(stop),
        source,
        sink,
        &|text| due_by_stop(alloc, stop, text),
    )
}

/// Reads a deck and a report behind it from a source, and writes to a sink whether the report's history is one of the deck, whoever
/// wrote it: a legal one, each entry as it is printed, with as many entries as its first line says, and TOLD behind them. What stands
/// before that first line and behind TOLD isn't judged. The report begins with the first line that is exactly `GRS REPORT 1`. It reads
/// and writes as `replay_command` does, up to one byte more than a deck and a report may have together.
///
/// `Done` says that the history can stand and the line that says so was written, and `Bad` that a line of the report can't, or is missing,
/// and the line with its number was written; `Deck` that the line of the first fault of the deck, or of a text that is too long, was written
/// in its place. The other statuses say what they say there; `Waits` never comes.
pub fn audit_command<S: Source, K: Sink>(alloc: Global, source: &mut S, sink: &mut K) -> Status
    ensures answer { Answers Command.Audit
        (streams (S.left source.old) (K.written sink.old) (S.faults source.old) (K.faults sink.old))
        (streams (S.left source.new) (K.written sink.new) (S.faults source.new) (K.faults sink.new))
        result }
    ensures named { NamesStatus Command.Audit result }
{
    answer(
        alloc,
        Command::Audit,
        source,
        sink,
        &|text| due_by_audit(alloc, text),
    )
}

/// Does what a command asks for. Only `run` waits, and looks at the gate.
fn of_text<R: Threads + Wait + Sync, S: Source, K: Sink, G: Gate + Sync>(
    rt: &R,
    alloc: Global,
    command: Command,
    source: &mut S,
    sink: &mut K,
    gate: &G,
) -> Status
    ensures answer { Answers command
        (streams (S.left source.old) (K.written sink.old) (S.faults source.old) (K.faults sink.old))
        (streams (S.left source.new) (K.written sink.new) (S.faults source.new) (K.faults sink.new))
        result }
    ensures named { NamesStatus command result }
{
    match command {
        Command::Replay => replay_command(alloc, source, sink),
        Command::Run => run_command(rt, alloc, source, sink, gate),
        Command::Lists => lists_command(alloc, source, sink),
        Command::Analyze => analyze_command(alloc, source, sink),
        Command::Notices => notices_command(alloc, source, sink),
        Command::Latch => latch_command(alloc, source, sink),
        Command::Stop(stop) => stop_command(alloc, stop, source, sink),
        Command::Audit => audit_command(alloc, source, sink),
    }
}

/// Does what the words after the program's name ask for. The words are the name of a command alone, `stop` with a system's name and
/// a number of its events, or `gen` and a number from 1 to 64; no others are known, and `Words` is the answer to these: then nothing
/// is read and nothing written. Nothing is read for `gen` either. Only `run` waits, and looks at the gate.
pub fn grs<R: Threads + Wait + Sync, S: Source, K: Sink, G: Gate + Sync>(
    rt: &R,
    alloc: Global,
    words: &[String],
    source: &mut S,
    sink: &mut K,
    gate: &G,
) -> Status
    ensures invocation { IfSome (invocation_of (map string_bytes words.now)) (λ asked. AnswersInvocation asked
        (streams (S.left source.old) (K.written sink.old) (S.faults source.old) (K.faults sink.old))
        (streams (S.left source.new) (K.written sink.new) (S.faults source.new) (K.faults sink.new))
        result) }
    // Other words are answered Words alone, and nothing happens.
    ensures words { IfNone (invocation_of (map string_bytes words.now)) (result ≡ Status.Words) }
    ensures unread { IfNone (invocation_of (map string_bytes words.now))
        ((S.left source.new ≡ S.left source.old) × (S.faults source.new ≡ S.faults source.old)) }
    ensures unwritten { IfNone (invocation_of (map string_bytes words.now))
        ((K.written sink.new ≡ K.written sink.old) × (K.faults sink.new ≡ K.faults sink.old)) }
{
    match invocation_of(words) {
        Some(Invocation::OfText(command)) => of_text(rt, alloc, command, source, sink, gate),
        Some(Invocation::Generate(n)) => gen_command(alloc, n, sink),
        None => Status::Words,
    }
}
