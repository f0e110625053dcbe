//! Looks, by the calls alone: at the lists of a system, at slices, and in a history; and the line of a row.
//! A value that is dear to drop is dropped on one path alone.
use grs_base::{Ctl, Elem, Filter, List, NameFault, Qname, Res, Ret, Rname, Row, SysId, TaskId};
use grs_deck::read_deck;
use grs_display::{names_of, print_row};
use grs_history::{answers, queues_after};
use grs_wire::{Answer, Deck, Fixed, HistEntry, Req, Want};
use local_queue::Local;
use qel_store::LinkedQueues;
use queue_table::{Outcome, Table};
use std::alloc::Global;
use std::test::Fail;
use task_state::Tasks;

const TASK: TaskId = TaskId {
    system: SysId(0),
    job: 0,
    task: 0,
};

fn own(alloc: Global) -> Result<Res, NameFault> {
    let q = Qname::new(alloc, b"A")?;
    let r = Rname::new(alloc, b"B")?;
    let system = SysId(0);
    Ok(Res::System { system, q, r })
}

/// A resource in slice 52.
fn shared(alloc: Global) -> Result<Res, NameFault> {
    let q = Qname::new(alloc, b"A")?;
    let r = Rname::new(alloc, b"B")?;
    Ok(Res::Systems { q, r })
}

fn enq(res: Res) -> Req {
    let want = Want::Enq {
        res,
        ctl: Ctl::E,
        ret: Ret::RetNone,
        full: false,
    };
    Req { task: TASK, want }
}

/// A look at two slices.
fn look(first: u32) -> Req {
    let want = Want::Look {
        first,
        count: 2,
        filter: Filter::All,
    };
    Req { task: TASK, want }
}

fn request(local: &mut Local, req: &Req) -> Result<(), NameFault> {
    let _outcome = local.request(req)?;
    Ok(())
}

/// A task of the system has control of its resource.
fn ask(alloc: Global, local: &mut Local) -> Result<(), NameFault> {
    let req = enq(own(alloc)?);
    request(local, &req)
}

/// How many rows a task keeps of a display.
fn kept(tasks: &mut Tasks, rows: List<Row>) -> Result<usize, NameFault> {
    if tasks.has(TASK) {
        tasks.add_rows(TASK, rows)?;
    }
    Ok(if tasks.has(TASK) {
        tasks.rows(TASK).len()
    } else {
        0
    })
}

fn kept_of_one(alloc: Global, rows: List<Row>) -> Result<usize, NameFault> {
    let mut tasks = Tasks::new(alloc, SysId(0), &[1])?;
    kept(&mut tasks, rows)
}

/// How many rows a look at the lists of a system shows.
fn shown(alloc: Global, local: &mut Local) -> Result<usize, NameFault> {
    ask(alloc, local)?;
    let rows = local.look(&Filter::All)?;
    kept_of_one(alloc, rows)
}

fn looks_at_a_system(alloc: Global) -> Result<usize, NameFault> {
    let mut local = Local::new(alloc, SysId(0));
    shown(alloc, &mut local)
}

/// How many rows an outcome shows, 9 for a code.
fn rows_of(outcome: &Outcome) -> usize {
    match &outcome.answer {
        Answer::Coded(_) => 9,
        Answer::Rows(rows) => rows.len(),
    }
}

fn rows_for(alloc: Global, table: &mut Table<LinkedQueues>, req: &Req) -> Result<usize, NameFault> {
    let outcome = table.carry_out(alloc, req)?;
    Ok(rows_of(&outcome))
}

fn asks(alloc: Global, table: &mut Table<LinkedQueues>) -> Result<usize, NameFault> {
    let req = enq(shared(alloc)?);
    rows_for(alloc, table, &req)
}

fn looks_from(
    alloc: Global,
    table: &mut Table<LinkedQueues>,
    first: u32,
) -> Result<usize, NameFault> {
    let req = look(first);
    rows_for(alloc, table, &req)
}

/// How many rows an ENQ shows, a look that misses its slice, and one that meets it.
fn counts(alloc: Global, table: &mut Table<LinkedQueues>) -> Result<[usize; 3], NameFault> {
    Ok([
        asks(alloc, table)?,
        looks_from(alloc, table, 50)?,
        looks_from(alloc, table, 51)?,
    ])
}

fn looks_at_slices(alloc: Global) -> Result<[usize; 3], NameFault> {
    let mut table = Table::new(alloc, LinkedQueues::new(alloc));
    counts(alloc, &mut table)
}

/// How many rows a look in a history shows, 9 for any other entry.
fn rows_in(entry: &HistEntry) -> usize {
    match entry {
        HistEntry::Look { rows, .. } => rows.len(),
        _ => 9,
    }
}

/// An ENQ, looks at slices and at a system's own lists, and a removal.
fn asked(alloc: Global) -> Result<List<(SysId, Fixed)>, NameFault> {
    let task = TASK;
    let filter = Filter::All;
    let first = enq(shared(alloc)?);
    let mut fixed = List::new(alloc);
    fixed.push((SysId(0), Fixed::Asked(first)))?;
    fixed.push((SysId(0), Fixed::Asked(look(51))))?;
    fixed.push((SysId(0), Fixed::LocalLook { task, filter }))?;
    fixed.push((SysId(1), Fixed::Purged { target: SysId(0) }))?;
    Ok(fixed)
}

/// How many rows each entry of a history shows.
fn all_rows(alloc: Global, hist: &[HistEntry]) -> Result<List<usize>, NameFault> {
    let mut counts = List::new(alloc);
    for entry in hist {
        counts.push(rows_in(entry))?;
    }
    Ok(counts)
}

/// Whether a history shows what it must, and leaves no list.
fn is_shown(alloc: Global, hist: &[HistEntry]) -> Result<bool, NameFault> {
    let queues = queues_after(alloc, hist, 4096)?;
    let left = queues.len();
    let counts = all_rows(alloc, hist)?;
    Ok(counts.as_slice() == [9, 0, 1, 0, 9].as_slice() && left == 0)
}

fn is_answered(alloc: Global, fixed: &[(SysId, Fixed)]) -> Result<bool, NameFault> {
    let hist = answers(alloc, fixed)?;
    is_shown(alloc, hist.as_slice())
}

fn looks_in_a_history(alloc: Global) -> Result<bool, NameFault> {
    let fixed = asked(alloc)?;
    is_answered(alloc, fixed.as_slice())
}

fn row(alloc: Global) -> Result<Row, NameFault> {
    let res = own(alloc)?;
    let mut elems = List::new(alloc);
    elems.push(Elem {
        task: TASK,
        ctl: Ctl::E,
    })?;
    Ok(Row {
        res,
        elems,
        owners: 1,
    })
}

/// The line of a row, by a deck's names.
fn line_of(alloc: Global, deck: &Deck, row: &Row) -> Result<List<u8>, Fail> {
    let names = names_of(alloc, deck)?;
    let mut line = List::new(alloc);
    print_row(alloc, b'R', row, &names, &mut line)?;
    Ok(line)
}

fn line_by(alloc: Global, deck: &Deck) -> Result<List<u8>, Fail> {
    let row = row(alloc)?;
    line_of(alloc, deck, &row)
}

fn printed(alloc: Global) -> Result<List<u8>, Fail> {
    let deck = read_deck(alloc, b"SYSTEM SYA\nJOB J1\nTASK T1\n")?;
    line_by(alloc, &deck)
}

#[test]
fn looks(rt: HostRuntime) -> Result<(), Fail> {
    let alloc = rt.alloc();
    assert_eq!(rt; looks_at_a_system(alloc)?, 1);
    assert_eq!(rt; looks_at_slices(alloc)?, [9, 0, 1]);
    assert!(rt; looks_in_a_history(alloc)?);
    assert_eq!(rt;
        printed(alloc)?.as_slice(),
        b"R SYSTEM(SYA,A,B) SYA.J1.T1:E*\n".as_slice()
    );
    Ok(())
}
