//! How far a task is in its lines. A line's names are resolved only where a WAIT line may hold the task.
ghost use Rattle.std.specs.Prelude.{◌≡◌, drop, IfOk};
ghost use Rattle.grs_legal.specs.Asks.{meaning_of};
ghost use Rattle.grs_legal.specs.Legal.{lets_pass};
ghost use Rattle.grs_track.specs.Walk as walks;

use super::cursor::Cursor;
use grs_base::{Code, Line, NoMemory, Res, SLICES, TaskId};
use grs_legal::{Meaning, meaning_of};
use qel_store::LinkedQueues;
use queue_table::Table;
use scope_resolve::Resolver;
use std::alloc::Global;

/// Where a task stands in its lines.
#[derive(Clone, Copy, Debug, PartialEq, Eq)]
pub(crate) enum Stand {
    /// At a line that asks, of whose entries so many are there (`part`).
    At { place: usize, part: usize },
    /// At a WAIT line that doesn't let it pass.
    Held,
    /// Behind its last line.
    Behind,
}

/// How many entries a line asks for.
pub(crate) fn asks_count(line: &Line) -> usize
    ensures { result ≡ walks.asks_count line.now }
{
    match line {
        Line::Enq { items, .. } => { if items.len() == 0 { 0 } else { 1 } }
        Line::Reserve { .. } | Line::Deq { .. } => 1,
        Line::Wait { .. } => 0,
        Line::Gqscan { global, .. } => { if *global { SLICES as usize } else { 1 } }
        Line::DisplayC => 1 + SLICES as usize,
        Line::DisplayRes { .. } => 2,
    }
}

/// Whether a task that a DEQ with RET=HAVE would be answered so passes a WAIT line: it doesn't wait there.
fn is_no_wait(code: Code) -> bool
    ensures { result ≡ walks.is_no_wait code }
{
    match code {
        Code::C04 => false,
        _ => true,
    }
}

/// Whether a WAIT for a resource lets a task pass.
fn passes_wait(table: &Table<LinkedQueues>, task: TaskId, res: &Res) -> bool
    ensures { result ≡ lets_pass table.now.elements task (Meaning.Wait res.now) }
{
    is_no_wait(table.decide_deq(res, task, true))
}

/// Whether a line lets its task pass: each but a WAIT for what the task waits for.
fn lets_pass(
    alloc: Global,
    resolver: &Resolver<'_>,
    table: &Table<LinkedQueues>,
    task: TaskId,
    line: &Line,
) -> Result<bool, NoMemory>
    ensures { IfOk result (λ passes. passes ≡ lets_pass table.now.elements task (meaning_of resolver.now task line.now)) }
{
    match meaning_of(alloc, resolver, task, line)? {
        Meaning::Wait { res } => Ok(passes_wait(table, task, &res)),
        _ => Ok(true),
    }
}

/// Where a task stands that is so far in its lines.
pub(crate) fn stand_in(
    alloc: Global,
    resolver: &Resolver<'_>,
    table: &Table<LinkedQueues>,
    task: TaskId,
    lines: &[Line],
    from: Cursor,
) -> Result<Stand, NoMemory>
    ensures { IfOk result (λ s. s ≡ walks.stand table.now.elements task resolver.now (drop from.place lines.now) from.place from.part) }
{
    let mut left = from.part;
    for place in from.place..lines.len() {
        let line = &lines[place];
        let count = asks_count(line);
        if left < count {
            return Ok(Stand::At { place, part: left });
        }
        if left == 0 && !lets_pass(alloc, resolver, table, task, line)? {
            return Ok(Stand::Held);
        }
        left -= count;
    }
    Ok(Stand::Behind)
}
