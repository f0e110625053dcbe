//! The text of an analysis.
ghost use Rattle.std.specs.Prelude.{◌≡◌, ◌++◌, ◌∷◌, ◌+◌, length, map, OnOk, IfOk};
ghost use Rattle.std.specs.List.{flat_map};
ghost use Rattle.grs_display.specs.Lines.{spaced};
ghost use Rattle.grs_display.specs.Names.{task_word};
ghost use Rattle.grs_analyze.specs.Depends.{AreApart};
ghost use Rattle.grs_analyze.specs.Waits.{blocked_in};
ghost use Rattle.grs_analyze.specs.Text.{wait_line, row_lines, cycle_line, analysis_text};

use super::analysis::{Blocked, analyze};
use grs_base::{List, NoMemory, Row, TaskId};
use grs_display::{names_of, print_row, put_count, put_line, put_task};
use grs_wire::{Deck, Names};
use ret_codes::owners_among;
use std::alloc::Global;

/// Puts a blank and a task behind a text.
fn put_task_word(names: &Names, task: TaskId, out: &mut List<u8>) -> Result<(), NoMemory>
    ensures { OnOk result (out.new ≡ out.old ++ (32 ∷ task_word names.now task)) }
{
    out.push(b' ')?;
    put_task(names, task, out)
}

/// A task as a text.
fn task_text(alloc: Global, names: &Names, task: TaskId) -> Result<List<u8>, NoMemory>
    ensures { IfOk result (λ text. text ≡ task_word names.now task) }
{
    let mut text = List::new(alloc);
    put_task(names, task, &mut text)?;
    Ok(text)
}

/// Puts who waits and by whom it is kept away behind a text.
#[tactic(auto, unfolding(crate::specs::Text::wait_line))]
fn put_wait(
    alloc: Global,
    names: &Names,
    wait: &Blocked,
    out: &mut List<u8>,
) -> Result<(), NoMemory>
    ensures { OnOk result (out.new ≡ out.old ++ wait_line names.now wait.now) }
{
    let task = task_text(alloc, names, wait.task)?;
    let by = task_text(alloc, names, wait.by)?;
    put_line(
        &[
            b"W".as_slice(),
            task.as_slice(),
            b"BLOCKED",
            b"BY",
            by.as_slice(),
        ],
        out,
    )
}

fn put_waits(
    alloc: Global,
    names: &Names,
    waits: &[Blocked],
    out: &mut List<u8>,
) -> Result<(), NoMemory>
    ensures { OnOk result (out.new ≡ out.old ++ flat_map (wait_line names.now) waits.now) }
{
    for wait in waits {
        put_wait(alloc, names, wait, out)?;
    }
    Ok(())
}

/// Puts a list where somebody waits behind a text, with its part of those that wait, and nothing of another list.
#[tactic(auto, using(crate::proofs::WaitLemmas::row_texts))]
fn put_row(
    alloc: Global,
    names: &Names,
    row: &Row,
    waits: &[Blocked],
    out: &mut List<u8>,
) -> Result<(), NoMemory>
    requires { waits.now ≡ blocked_in row.now }
    ensures { OnOk result (out.new ≡ out.old ++ row_lines names.now row.now) }
{
    if waits.is_empty() {
        return Ok(());
    }
    print_row(alloc, b'A', row, names, out)?;
    put_waits(alloc, names, waits, out)
}

/// How many elements of a list wait.
#[tactic(auto, using(crate::proofs::WaitLemmas::lengths))]
fn waiting(row: &Row) -> usize
    ensures { result ≡ length (blocked_in row.now) }
{
    row.elems.len() - owners_among(row.elems.as_slice())
}

/// Puts the lists where somebody waits behind a text.
#[tactic(auto, using(crate::proofs::WaitLemmas::row_parts))]
fn put_all(
    alloc: Global,
    names: &Names,
    rows: &[Row],
    waits: &[Blocked],
    out: &mut List<u8>,
) -> Result<(), NoMemory>
    requires { waits.now ≡ flat_map blocked_in rows.now }
    ensures { OnOk result (out.new ≡ out.old ++ flat_map (row_lines names.now) rows.now) }
{
    let mut left = waits;
    for row in rows {
        let (own, others) = left.split_at(waiting(row));
        put_row(alloc, names, row, own, out)?;
        left = others;
    }
    Ok(())
}

fn put_tasks(names: &Names, tasks: &[TaskId], out: &mut List<u8>) -> Result<(), NoMemory>
    ensures { OnOk result (out.new ≡ out.old ++ spaced (map (task_word names.now) tasks.now)) }
{
    for task in tasks {
        put_task_word(names, *task, out)?;
    }
    Ok(())
}

/// Puts the tasks of a cycle behind a text.
#[tactic(auto, unfolding(crate::specs::Text::cycle_line, grs_display::specs::Lines::line))]
fn put_cycle(names: &Names, cycle: &[TaskId], out: &mut List<u8>) -> Result<(), NoMemory>
    ensures { OnOk result (out.new ≡ out.old ++ cycle_line names.now cycle.now) }
{
    if cycle.is_empty() {
        return put_line(&[b"CYCLE".as_slice(), b"NONE"], out);
    }
    out.append(b"CYCLE")?;
    put_tasks(names, cycle, out)?;
    out.push(b'\n')
}

/// The analysis of a deck's lists as a text. Of two tasks that hold what the other waits for it is
///
///     ANALYZE 2
///     A SYSTEM(SYA,A,X) SYA.J1.T1:E* SYA.J1.T2:E
///     W SYA.J1.T2 BLOCKED BY SYA.J1.T1
///     A SYSTEM(SYA,A,Y) SYA.J1.T2:E* SYA.J1.T1:E
///     W SYA.J1.T1 BLOCKED BY SYA.J1.T2
///     CYCLE SYA.J1.T1 SYA.J1.T2
///
/// Each line ends with LF. Nothing is written for the name of a system, job or task that the deck does not have. Want
/// of memory is `NoMemory`.
#[tactic(auto, unfolding(crate::specs::Text::analysis_text))]
pub fn analysis_text(alloc: Global, deck: &Deck, rows: &List<Row>) -> Result<List<u8>, NoMemory>
    requires { AreApart rows.now }
    ensures { IfOk result (λ text. text ≡ analysis_text deck.now rows.now) }
{
    let names = names_of(alloc, deck)?;
    let analysis = analyze(alloc, rows)?;
    let waits = analysis.waits.as_slice();
    let mut out = List::new(alloc);
    put_count(b"ANALYZE", waits.len(), &mut out)?;
    put_all(alloc, &names, rows.as_slice(), waits, &mut out)?;
    put_cycle(&names, analysis.cycle.as_slice(), &mut out)?;
    Ok(out)
}
