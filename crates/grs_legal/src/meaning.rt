//! What a line of a task means once its names are resolved by the name lists of the deck.
ghost use Rattle.std.specs.Prelude.{◌≡◌, IfOk};
ghost use Rattle.grs_legal.specs.Asks.{named, reserved, scan_of, meaning_of};

use grs_base::{
    Ctl, Filter, Item, Line, NoMemory, Qname, Res, Ret, Rname, SLICES, Scope, SysId, TaskId,
    slice_of,
};
use grs_wire::Verb;
use scope_resolve::{Resolved, Resolver, Unresolved};
use std::alloc::Global;

/// What a line asks that shows lists: a look at the own lists of a system (`home`), if it has one, and then one at each
/// of `count` slices of the Systems resources from slice `first` on, all with one filter. `verb` is the kind of line.
#[derive(Drop)]
pub struct Display {
    pub verb: Verb,
    pub home: Option<SysId>,
    pub first: u32,
    pub count: u32,
    pub filter: Filter,
}

/// What a line of a task means.
#[derive(Drop)]
pub enum Meaning {
    /// An ENQ or a RESERVE. `unit` is the unit that a RESERVE also reserves in hardware.
    Enq {
        res: Res,
        ctl: Ctl,
        ret: Ret,
        unit: Option<u16>,
    },
    /// A DEQ. `have` is RET=HAVE.
    Deq {
        res: Res,
        have: bool,
    },
    /// A WAIT.
    Wait {
        res: Res,
    },
    /// A GQSCAN or a DISPLAY.
    Shows(Display),
    /// A line that asks nothing.
    Nothing,
}

/// What a RESERVE comes to, of which this was resolved.
fn reserved(found: Resolved, ctl: Ctl, unit: u16, ret: Ret) -> Meaning
    ensures { result ≡ reserved found ctl unit ret }
{
    let unit = if found.hardware { Some(unit) } else { None };
    Meaning::Enq {
        res: found.res,
        ctl,
        ret,
        unit,
    }
}

/// What an ENQ line means. Until an ENQ can name several, it means its first item.
fn meaning_of_items(
    alloc: Global,
    resolver: &Resolver<'_>,
    task: TaskId,
    items: &[Item],
    ret: Ret,
    rnl: bool,
) -> Result<Meaning, NoMemory>
    ensures { IfOk result (λ m. m ≡ meaning_of resolver.now task (Line.Enq items.now ret rnl)) }
{
    let Some((item, _)) = items.split_first() else {
        return Ok(Meaning::Nothing);
    };
    let ask = Unresolved {
        reserve: false,
        q: &item.q,
        r: &item.r,
        scope: item.scope,
        rnl,
    };
    let found = resolver.resolve(alloc, &ask, task.system, task.job)?;
    Ok(Meaning::Enq {
        res: found.res,
        ctl: item.ctl,
        ret,
        unit: None,
    })
}

/// The resource of a DEQ or a WAIT, which resolves as that of an ENQ does.
fn named(
    alloc: Global,
    resolver: &Resolver<'_>,
    task: TaskId,
    scope: Scope,
    q: &Qname,
    r: &Rname,
    rnl: bool,
) -> Result<Res, NoMemory>
    ensures { IfOk result (λ res. res ≡ named resolver.now task scope q.now r.now rnl) }
{
    let ask = Unresolved {
        reserve: false,
        q,
        r,
        scope,
        rnl,
    };
    let found = resolver.resolve(alloc, &ask, task.system, task.job)?;
    Ok(found.res)
}

/// What a GQSCAN asks: `global` is SCOPE=GLOBAL.
fn scan_of(task: TaskId, global: bool, filter: Filter) -> Display
    ensures { result ≡ scan_of task global filter }
{
    let (home, count) = if global {
        (None, SLICES)
    } else {
        (Some(task.system), 0)
    };
    Display {
        verb: Verb::Gqscan,
        home,
        first: 0,
        count,
        filter,
    }
}

/// What a line of a task means by these name lists.
pub fn meaning_of(
    alloc: Global,
    resolver: &Resolver<'_>,
    task: TaskId,
    line: &Line,
) -> Result<Meaning, NoMemory>
    ensures { IfOk result (λ m. m ≡ meaning_of resolver.now task line.now) }
{
    match line {
        Line::Enq { items, ret, rnl } => {
            meaning_of_items(alloc, resolver, task, items.as_slice(), *ret, *rnl)
        }
        Line::Reserve {
            q,
            r,
            ctl,
            unit,
            ret,
            rnl,
        } => {
            let ask = Unresolved {
                reserve: true,
                q,
                r,
                scope: Scope::Systems,
                rnl: *rnl,
            };
            let found = resolver.resolve(alloc, &ask, task.system, task.job)?;
            Ok(reserved(found, *ctl, *unit, *ret))
        }
        Line::Deq {
            q,
            r,
            scope,
            have,
            rnl,
            ..
        } => Ok(Meaning::Deq {
            res: named(alloc, resolver, task, *scope, q, r, *rnl)?,
            have: *have,
        }),
        Line::Wait { q, r, scope, rnl } => Ok(Meaning::Wait {
            res: named(alloc, resolver, task, *scope, q, r, *rnl)?,
        }),
        Line::Gqscan { global, filter } => {
            let filter = filter.copy(alloc)?;
            Ok(Meaning::Shows(scan_of(task, *global, filter)))
        }
        Line::DisplayC => Ok(Meaning::Shows(Display {
            verb: Verb::Display,
            home: Some(task.system),
            first: 0,
            count: SLICES,
            filter: Filter::Contended,
        })),
        Line::DisplayRes { q, r } => Ok(Meaning::Shows(Display {
            verb: Verb::Display,
            home: Some(task.system),
            first: slice_of(q, r),
            count: 1,
            filter: Filter::Named {
                q: Some(q.copy(alloc)?),
                r: Some(r.copy(alloc)?),
            },
        })),
    }
}
