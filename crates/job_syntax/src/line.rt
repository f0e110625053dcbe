//! The line that a task line makes. What is read without options has their plain values here.
ghost use Rattle.std.specs.Prelude.{◌≡◌, true, false, IfOk};
ghost use Rattle.grs_base.specs.Names.{trim_blanks};
ghost use Rattle.deck_scan.specs.Lengths.{is_bad_qname, is_bad_rname};
ghost use Rattle.job_syntax.specs.Lines.{are_bad_names, is_bad_shown, has_bad_name, ret_or_none, rnl_or_yes, is_have, filter_of, enq_line, reserve_line, deq_line, wait_line, display_line, line_of};

use crate::ask::{EnqAsk, ResAsk};
use crate::display::{Shown, Wanted};
use crate::line_ask::LineAsk;
use deck_scan::{is_bad_qname, is_bad_rname, maybe_qname, maybe_rname, qname_of, rname_of};
use grs_base::{Filter, Item, Line, List, NoMemory, Qname, Ret, Rname, is_qname, is_rname};
use std::alloc::Global;

fn are_bad_names(q: &[u8], r: &[u8]) -> bool
    ensures { result ≡ are_bad_names q.now r.now }
{
    !is_qname(q) || !is_rname(r)
}

fn is_bad_shown(shown: &Shown<'_>) -> bool
    ensures { result ≡ is_bad_shown shown.now }
{
    match shown {
        Shown::Contended => false,
        Shown::Resource { q, r } => are_bad_names(q.bytes(), r.bytes()),
    }
}

/// Whether a name has a length that it may not have: a qname of blanks alone or over 8 bytes, an rname of
/// no byte or over 255.
pub fn has_bad_name(line_ask: &LineAsk<'_>) -> bool
    ensures { result ≡ has_bad_name line_ask.now }
{
    match line_ask {
        LineAsk::Enq(enq) => are_bad_names(enq.ask.q.bytes(), enq.ask.r.bytes()),
        LineAsk::Reserve(enq) => are_bad_names(enq.ask.q.bytes(), enq.ask.r.bytes()),
        LineAsk::Deq(ask) => are_bad_names(ask.q.bytes(), ask.r.bytes()),
        LineAsk::Wait(ask) => are_bad_names(ask.q.bytes(), ask.r.bytes()),
        LineAsk::Gqscan(scan) => is_bad_qname(&scan.names.q) || is_bad_rname(&scan.names.r),
        LineAsk::Display(shown) => is_bad_shown(shown),
    }
}

fn ret_or_none(ret: Option<Ret>) -> Ret
    ensures { result ≡ ret_or_none ret }
{
    match ret {
        None => Ret::RetNone,
        Some(ret) => ret,
    }
}

fn rnl_or_yes(rnl: Option<bool>) -> bool
    ensures { result ≡ rnl_or_yes rnl }
{
    match rnl {
        None => true,
        Some(rnl) => rnl,
    }
}

fn is_have(ret: Option<Ret>) -> bool
    ensures { result ≡ is_have ret }
{
    match ret {
        Some(Ret::RetHave) => true,
        _ => false,
    }
}

/// The names of a line, whose lengths are right.
fn names_of(alloc: Global, q: &[u8], r: &[u8]) -> Result<(Qname, Rname), NoMemory>
    requires { are_bad_names q.now r.now ≡ false }
    ensures q { IfOk result (λ x. x.0 ≡ trim_blanks q.now) }
    ensures r { IfOk result (λ x. x.1 ≡ r.now) }
{
    let q = qname_of(alloc, q)?;
    let r = rname_of(alloc, r)?;
    Ok((q, r))
}

fn enq_line(alloc: Global, enq: &EnqAsk<'_>) -> Result<Line, NoMemory>
    requires { are_bad_names enq.now.ask.q enq.now.ask.r ≡ false }
    ensures { IfOk result (λ l. l ≡ enq_line enq.now) }
{
    let (q, r) = names_of(alloc, enq.ask.q.bytes(), enq.ask.r.bytes())?;
    let item = Item {
        q,
        r,
        ctl: enq.ctl,
        scope: enq.ask.scope,
    };
    let mut items = List::with_room(alloc, 1)?;
    items.push(item)?;
    Ok(Line::Enq {
        items,
        ret: ret_or_none(enq.ask.opts.ret),
        rnl: rnl_or_yes(enq.ask.opts.rnl),
    })
}

fn reserve_line(alloc: Global, enq: &EnqAsk<'_>) -> Result<Line, NoMemory>
    requires { are_bad_names enq.now.ask.q enq.now.ask.r ≡ false }
    ensures { IfOk result (λ l. l ≡ reserve_line enq.now) }
{
    let (q, r) = names_of(alloc, enq.ask.q.bytes(), enq.ask.r.bytes())?;
    Ok(Line::Reserve {
        q,
        r,
        ctl: enq.ctl,
        unit: enq.ask.opts.unit.unwrap_or(0),
        ret: ret_or_none(enq.ask.opts.ret),
        rnl: rnl_or_yes(enq.ask.opts.rnl),
    })
}

fn deq_line(alloc: Global, ask: &ResAsk<'_>) -> Result<Line, NoMemory>
    requires { are_bad_names ask.now.q ask.now.r ≡ false }
    ensures { IfOk result (λ l. l ≡ deq_line ask.now) }
{
    let (q, r) = names_of(alloc, ask.q.bytes(), ask.r.bytes())?;
    Ok(Line::Deq {
        q,
        r,
        scope: ask.scope,
        have: is_have(ask.opts.ret),
        unit: ask.opts.unit,
        rnl: rnl_or_yes(ask.opts.rnl),
    })
}

fn wait_line(alloc: Global, ask: &ResAsk<'_>) -> Result<Line, NoMemory>
    requires { are_bad_names ask.now.q ask.now.r ≡ false }
    ensures { IfOk result (λ l. l ≡ wait_line ask.now) }
{
    let (q, r) = names_of(alloc, ask.q.bytes(), ask.r.bytes())?;
    Ok(Line::Wait {
        q,
        r,
        scope: ask.scope,
        rnl: rnl_or_yes(ask.opts.rnl),
    })
}

fn filter_of(alloc: Global, names: &Wanted<'_>) -> Result<Filter, NoMemory>
    requires q { is_bad_qname names.now.q ≡ false }
    requires r { is_bad_rname names.now.r ≡ false }
    ensures { IfOk result (λ f. f ≡ filter_of names.now) }
{
    let q = maybe_qname(alloc, &names.q)?;
    let r = maybe_rname(alloc, &names.r)?;
    if names.q.is_none() && names.r.is_none() {
        Ok(Filter::All)
    } else {
        Ok(Filter::Named { q, r })
    }
}

fn display_line(alloc: Global, shown: &Shown<'_>) -> Result<Line, NoMemory>
    requires { is_bad_shown shown.now ≡ false }
    ensures { IfOk result (λ l. l ≡ display_line shown.now) }
{
    match shown {
        Shown::Contended => Ok(Line::DisplayC),
        Shown::Resource { q, r } => {
            let (q, r) = names_of(alloc, q.bytes(), r.bytes())?;
            Ok(Line::DisplayRes { q, r })
        }
    }
}

/// The line that a task line makes whose names have the right lengths.
pub fn line_of(alloc: Global, line_ask: &LineAsk<'_>) -> Result<Line, NoMemory>
    requires { has_bad_name line_ask.now ≡ false }
    ensures { IfOk result (λ l. l ≡ line_of line_ask.now) }
{
    match line_ask {
        LineAsk::Enq(enq) => enq_line(alloc, enq),
        LineAsk::Reserve(enq) => reserve_line(alloc, enq),
        LineAsk::Deq(ask) => deq_line(alloc, ask),
        LineAsk::Wait(ask) => wait_line(alloc, ask),
        LineAsk::Gqscan(scan) => Ok(Line::Gqscan {
            global: scan.global,
            filter: filter_of(alloc, &scan.names)?,
        }),
        LineAsk::Display(shown) => display_line(alloc, shown),
    }
}
