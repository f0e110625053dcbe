//! A manager that begins with lists, as none does before a complex can change to star mode, and looks at the lists of an
//! entry, for which no task asks yet. What else a manager does is run by decks.
ghost use Rattle.std.specs.Prelude.{◌≡◌, [], ◌∷◌, IfOk};
ghost use Rattle.grs_base.specs.declared.resource.Res.TheVariants.{Systems};
ghost use Rattle.call_tests.specs.Rows.{elem_of, two_rows};

use contention_mgr::Manager;
use grs_base::{
    Code, Ctl, Elem, Filter, List, NameFault, NoMemory, Qname, Res, Ret, Rname, Row, SysId, TaskId,
};
use grs_wire::{Answer, Req, Want};
use std::alloc::Global;
use std::test::Fail;

/// The code of an answer, its rank, and how many tasks got control or, of looks, how many rows there are.
type Given = (Option<Code>, u64, usize);

fn task(system: u8) -> TaskId {
    TaskId {
        system: SysId(system),
        job: 0,
        task: 0,
    }
}

/// The resource of this rname.
pub(crate) fn named(alloc: Global, rname: &[u8]) -> Result<Res, NameFault>
    ensures { IfOk result (λ res. res ≡ Systems (80 ∷ []) rname.now) }
{
    let q = Qname::new(alloc, b"P")?;
    let r = Rname::new(alloc, rname)?;
    Ok(Res::Systems { q, r })
}

fn enq(alloc: Global, system: u8, rname: &[u8]) -> Result<Req, NameFault> {
    let want = Want::Enq {
        res: named(alloc, rname)?,
        ctl: Ctl::E,
        ret: Ret::RetNone,
        full: false,
    };
    Ok(Req {
        task: task(system),
        want,
    })
}

fn release(alloc: Global, system: u8, rname: &[u8]) -> Result<Req, NameFault> {
    let want = Want::Release {
        res: named(alloc, rname)?,
    };
    Ok(Req {
        task: task(system),
        want,
    })
}

/// A look at the slices of both resources.
fn look(system: u8) -> Req {
    let want = Want::Look {
        first: 13,
        count: 2,
        filter: Filter::All,
    };
    Req {
        task: task(system),
        want,
    }
}

fn code_of(answer: &Answer) -> Option<Code> {
    match answer {
        Answer::Coded(code) => Some(*code),
        Answer::Rows(_) => None,
    }
}

fn rows_of(answer: &Answer) -> usize {
    match answer {
        Answer::Coded(_) => 0,
        Answer::Rows(rows) => rows.len(),
    }
}

/// What a request is given by `decide`, and by the call that carries it out.
fn given(manager: &mut Manager, req: &Req) -> Result<[Given; 2], NameFault> {
    if !manager.serves(&req.want) {
        return Ok([(None, 0, 0), (None, 0, 0)]);
    }
    let (answer, rank) = manager.decide(req)?;
    let outcome = if req.task.system.0 == 0 {
        manager.own_request(req)?
    } else {
        manager.settle(req)?
    };
    let others = match &outcome.answer {
        Answer::Coded(_) => outcome.owners.len(),
        Answer::Rows(rows) => rows.len(),
    };
    Ok([
        (code_of(&answer), rank, rows_of(&answer)),
        (code_of(&outcome.answer), outcome.rank, others),
    ])
}

/// The first byte of an rname.
fn first_byte(bytes: &[u8]) -> u8 {
    match bytes.first() {
        Some(byte) => *byte,
        None => 0,
    }
}

/// The first byte of its rname, of a resource of the whole complex.
pub(crate) fn letter(res: &Res) -> u8 {
    match res {
        Res::Systems { r, .. } => first_byte(r.bytes()),
        _ => 0,
    }
}

/// The system whose owner is told first, and of which resource, by its letter; 9 and 0 where there is none. It is then
/// told.
fn told(manager: &mut Manager) -> Result<(u8, u8), NameFault> {
    match manager.untold(0, SysId(0))? {
        Some((task, res)) => {
            if manager.serves_res(&res) {
                manager.mark_told(task, &res);
            }
            Ok((task.system.0, letter(&res)))
        }
        None => Ok((9, 0)),
    }
}

/// These items as a list.
fn list<T: Copy>(alloc: Global, items: &[T]) -> Result<List<T>, NoMemory>
    ensures { IfOk result (λ list. list ≡ items.now) }
{
    match Vec::from_slice(alloc, items) {
        Ok(items) => Ok(List::from_vec(items)),
        Err(_) => Err(NoMemory),
    }
}

fn elem(system: u8, ctl: Ctl) -> Elem
    ensures { result ≡ elem_of system ctl }
{
    let task = TaskId {
        system: SysId(system),
        job: 0,
        task: 0,
    };
    Elem { task, ctl }
}

/// A row of the resource of this rname, with the ranks of its elements.
fn row(
    alloc: Global,
    rname: &[u8],
    elems: &[Elem],
    owners: u32,
    ranks: &[u64],
) -> Result<(Row, List<u64>), NameFault>
    ensures { IfOk result (λ row. row ≡ (record { res = Systems (80 ∷ []) rname.now; elems = elems.now; owners = owners }, ranks.now)) }
{
    let res = named(alloc, rname)?;
    let elems = list(alloc, elems)?;
    let ranks = list(alloc, ranks)?;
    Ok((Row { res, elems, owners }, ranks))
}

/// Two shared owners in front of an exclusive task, and one.
fn rows(alloc: Global) -> Result<List<(Row, List<u64>)>, NameFault>
    ensures { IfOk result (λ rows. rows ≡ two_rows) }
{
    let two = [elem(0, Ctl::S), elem(1, Ctl::S), elem(2, Ctl::E)];
    let one = [elem(1, Ctl::S), elem(2, Ctl::E)];
    let mut rows = List::new(alloc);
    rows.push(row(alloc, b"Q", &two, 2, &[2, 5, 9])?)?;
    rows.push(row(alloc, b"R", &one, 1, &[3, 4])?)?;
    Ok(rows)
}

/// A manager of one lock entry, which is loaded with these rows.
fn loaded_with(alloc: Global, rows: &List<(Row, List<u64>)>) -> Result<Manager, NameFault>
    requires { rows.now ≡ two_rows }
{
    let mut manager = Manager::new(alloc, SysId(0), 1)?;
    if !manager.manages(0) {
        manager.load(0, rows)?;
    }
    Ok(manager)
}

fn loaded(alloc: Global) -> Result<Manager, NameFault> {
    let rows = rows(alloc)?;
    loaded_with(alloc, &rows)
}

/// A task of the manager's own system looks at both lists and so does one of another; a task comes, and an owner gives up
/// control.
fn goes_on(alloc: Global, manager: &mut Manager) -> Result<[[Given; 2]; 4], NameFault> {
    let first = given(manager, &look(0))?;
    let second = given(manager, &look(1))?;
    let third = given(manager, &enq(alloc, 0, b"R")?)?;
    let fourth = given(manager, &release(alloc, 1, b"R")?)?;
    Ok([first, second, third, fourth])
}

#[test]
fn loads_and_looks(rt: HostRuntime) -> Result<(), Fail> {
    let alloc = rt.alloc();
    let mut manager = loaded(alloc)?;
    assert_eq!(rt; told(&mut manager)?, (9, 0));
    assert_eq!(rt;
        goes_on(alloc, &mut manager)?,
        [
            [(None, 0, 2), (None, 0, 2)],
            [(None, 0, 2), (None, 0, 2)],
            [(Some(Code::Wait), 10, 0), (Some(Code::Wait), 10, 0)],
            [(Some(Code::C00), 0, 0), (Some(Code::C00), 0, 1)],
        ]
    );
    assert_eq!(rt; told(&mut manager)?, (2, b'R'));
    Ok(())
}
