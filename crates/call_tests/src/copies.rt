//! Each kind of value that passes between the parts is copied once, in the outermost value that holds it. That a
//! copy is equal is in the contracts; that one is made, where there is memory, is in none. A value that is dear to
//! drop is dropped on one path alone.
use grs_base::{
    Code, Ctl, Elem, Filter, List, NameFault, Place, Qname, ReadError, Res, Ret, Rname, Row, SysId,
    TaskId,
};
use grs_deck::read_deck;
use grs_wire::{
    Act, Answer, Call, Choice, Deck, Fixed, HistEntry, JEntry, Mail, NodeLog, Reply, Req, RingBody,
    RingEntry, StepDone, Told, ToldLine, Verb, Want,
};
use std::alloc::Global;
use std::test::Fail;

/// A deck with a name list, and with two systems, of which one has a job.
const TEXT: &[u8] = b"RNLDEF RNL(CON) TYPE(GENERIC) QNAME(SYSVTOC) RNAME(VOL)\n\
    SYSTEM SYA\n\
    JOB J1\n\
    TASK T1\n\
    ENQ (A,B,E,SYSTEM)\n\
    SYSTEM SYB\n\
    SCHEDULE\n\
    SYB REST\n";

const TASK: TaskId = TaskId {
    system: SysId(1),
    job: 2,
    task: 3,
};

fn copy_deck(alloc: Global, deck: &Deck) -> Result<usize, ReadError> {
    let copied = deck.copy(alloc)?;
    Ok(copied.systems.len())
}

fn copies_decks(alloc: Global) -> Result<usize, ReadError> {
    let deck = read_deck(alloc, TEXT)?;
    copy_deck(alloc, &deck)
}

fn res(alloc: Global) -> Result<Res, NameFault> {
    let q = Qname::new(alloc, b"A")?;
    let r = Rname::new(alloc, b"B")?;
    Ok(Res::Systems { q, r })
}

fn row(alloc: Global) -> Result<Row, NameFault> {
    let res = res(alloc)?;
    let mut elems = List::new(alloc);
    elems.push(Elem {
        task: TASK,
        ctl: Ctl::S,
    })?;
    Ok(Row {
        res,
        elems,
        owners: 1,
    })
}

/// A list of one row with one element.
fn rows(alloc: Global) -> Result<List<Row>, NameFault> {
    let row = row(alloc)?;
    let mut rows = List::new(alloc);
    rows.push(row)?;
    Ok(rows)
}

fn request(alloc: Global) -> Result<Req, NameFault> {
    Ok(Req {
        task: TASK,
        want: Want::Enq {
            res: res(alloc)?,
            ctl: Ctl::E,
            ret: Ret::RetUse,
            full: true,
        },
    })
}

fn shown(alloc: Global) -> Result<ToldLine, NameFault> {
    Ok(ToldLine::Shown {
        task: TASK,
        k: 2,
        verb: Verb::Display,
        code: Code::C00,
        rows: rows(alloc)?,
    })
}

fn copy_look(alloc: Global, entry: &HistEntry) -> Result<(), NameFault> {
    let _copied = entry.copy(alloc)?;
    Ok(())
}

fn copies_looks(alloc: Global) -> Result<(), NameFault> {
    let q = Some(Qname::new(alloc, b"A")?);
    let rows = rows(alloc)?;
    let look = HistEntry::Look {
        task: TASK,
        place: Place::Slice(7),
        filter: Filter::Named { q, r: None },
        rows,
    };
    copy_look(alloc, &look)
}

fn copy_answer(alloc: Global, answer: &Answer) -> Result<(), NameFault> {
    let _copied = answer.copy(alloc)?;
    Ok(())
}

fn copies_answers(alloc: Global) -> Result<(), NameFault> {
    let answer = Answer::Rows(rows(alloc)?);
    copy_answer(alloc, &answer)
}

fn copy_mail(alloc: Global, mail: &Mail) -> Result<(), NameFault> {
    let _copied = mail.copy(alloc)?;
    Ok(())
}

fn copies_mail(alloc: Global) -> Result<(), NameFault> {
    let mail = Mail::Request {
        entry: 4,
        from: SysId(2),
        req: request(alloc)?,
    };
    copy_mail(alloc, &mail)
}

fn call(alloc: Global) -> Result<Call, NameFault> {
    let req = request(alloc)?;
    let mut out = List::new(alloc);
    out.push(req)?;
    Ok(Call {
        known: 3,
        act: Act::Turn { out },
    })
}

fn reply(alloc: Global) -> Result<Reply, NameFault> {
    let body = RingBody::Request(request(alloc)?);
    let mut entries = List::new(alloc);
    entries.push(RingEntry {
        number: 9,
        from: SysId(1),
        body,
        mask: 6,
    })?;
    Ok(Reply::Turned {
        entries,
        taken: 1,
        closed: true,
    })
}

fn copy_line(alloc: Global, line: &JEntry) -> Result<(), NameFault> {
    let _copied = line.copy(alloc)?;
    Ok(())
}

/// Copies a line of the journal, of a Turn and its reply.
fn copies_calls(alloc: Global) -> Result<(), NameFault> {
    let call = call(alloc)?;
    let line = JEntry {
        system: SysId(1),
        call,
        reply: reply(alloc)?,
    };
    copy_line(alloc, &line)
}

fn copy_told(alloc: Global, told: &Told) -> Result<(), NameFault> {
    let _copied = told.copy(alloc)?;
    Ok(())
}

fn copies_told(alloc: Global) -> Result<(), NameFault> {
    let told = Told {
        event: 11,
        system: SysId(1),
        line: shown(alloc)?,
    };
    copy_told(alloc, &told)
}

fn fixed(alloc: Global) -> Result<List<Fixed>, NameFault> {
    let req = request(alloc)?;
    let mut fixed = List::new(alloc);
    fixed.push(Fixed::Asked(req))?;
    Ok(fixed)
}

fn told(alloc: Global) -> Result<List<ToldLine>, NameFault> {
    let line = shown(alloc)?;
    let mut told = List::new(alloc);
    told.push(line)?;
    Ok(told)
}

fn log(alloc: Global) -> Result<NodeLog, NameFault> {
    let fixed = fixed(alloc)?;
    let told = told(alloc)?;
    let mut steps = List::new(alloc);
    steps.push(StepDone {
        choice: Choice::Take,
        journalled: true,
        fixed,
        told,
    })?;
    Ok(NodeLog { steps })
}

fn copy_log(alloc: Global, log: &NodeLog) -> Result<(), NameFault> {
    let _copied = log.copy(alloc)?;
    Ok(())
}

fn copies_logs(alloc: Global) -> Result<(), NameFault> {
    let log = log(alloc)?;
    copy_log(alloc, &log)
}

#[test]
fn copies(rt: HostRuntime) -> Result<(), Fail> {
    let alloc = rt.alloc();
    assert_eq!(rt; copies_decks(alloc)?, 2);
    copies_looks(alloc)?;
    copies_answers(alloc)?;
    copies_mail(alloc)?;
    copies_calls(alloc)?;
    copies_told(alloc)?;
    copies_logs(alloc)?;
    Ok(())
}
