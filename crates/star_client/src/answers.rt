//! Which answers a request can get. Nothing here changes anything.
ghost use Rattle.std.specs.Prelude.{◌≡◌, IfOk};
ghost use Rattle.std.specs.List.{list_all};
ghost use Rattle.std.specs.Ordering.{is_lt};
ghost use Rattle.grs_base.specs.ResOrder.{res_order};
ghost use Rattle.star_client.specs.Client as client;

use super::apart::are_apart;
use gqscan::matches_filter;
use grs_base::{Code, Filter, NoMemory, Res, Ret, Row, slice_of};
use grs_wire::{Answer, Want};
use ret_codes::owners_among;
use std::alloc::Global;
use std::cmp::Ordering;

/// Whether the table of ENQ has a code, whatever stands in the list.
fn is_enq_code(ret: Ret, full: bool, code: Code) -> bool
    ensures { result ≡ client.is_code_of (client.enq_codes ret full) code }
{
    match (ret, code) {
        (Ret::RetNone, Code::End(number)) => number == 138 || full && number == 538,
        (Ret::RetNone, Code::C00 | Code::Wait) => !full,
        (Ret::RetChng, Code::C00 | Code::C04 | Code::C08 | Code::C14) => true,
        (Ret::RetHave, Code::C00 | Code::Wait) => !full,
        (Ret::RetUse | Ret::RetTest | Ret::RetEcb, Code::C00 | Code::C04) => !full,
        (Ret::RetUse | Ret::RetHave | Ret::RetTest | Ret::RetEcb, Code::C08 | Code::C14) => true,
        (Ret::RetUse | Ret::RetHave | Ret::RetTest | Ret::RetEcb, Code::C18) => full,
        _ => false,
    }
}

/// Whether the table of DEQ has a code, whatever stands in the list.
fn is_deq_code(have: bool, code: Code) -> bool
    ensures { result ≡ client.is_code_of (client.deq_codes have) code }
{
    match code {
        Code::C00 => true,
        Code::C04 | Code::C08 => have,
        Code::End(number) => !have && (number == 530 || number == 130),
        Code::C14 | Code::C18 | Code::Wait => false,
    }
}

/// The slice of a resource. Only one of the whole complex has one.
fn slice_in(res: &Res) -> Option<u32>
    ensures { result ≡ client.slice_in res.now }
{
    match res {
        Res::Systems { q, r } => Some(slice_of(q, r)),
        Res::System { .. } | Res::Step { .. } => None,
    }
}

/// Whether a resource is of one of so many slices from this one on.
fn is_among(first: u32, count: u32, res: &Res) -> bool
    ensures { result ≡ client.is_among first count res.now }
{
    match slice_in(res) {
        Some(slice) => first <= slice && slice - first < count,
        None => false,
    }
}

/// Whether a row tells of its list how many own.
fn tells_owners(row: &Row) -> bool
    ensures { result ≡ client.tells_owners row.now }
{
    !row.elems.as_slice().is_empty() && row.owners as usize == owners_among(row.elems.as_slice())
}

/// Whether looks at so many slices from this one on can show a row.
fn can_show(
    alloc: Global,
    first: u32,
    count: u32,
    filter: &Filter,
    row: &Row,
) -> Result<bool, NoMemory>
    ensures { IfOk result (λ shown. shown ≡ client.can_show first count filter.now row.now) }
{
    let waits = (row.owners as usize) < row.elems.len();
    if is_among(first, count, &row.res)
        && matches_filter(filter, &row.res, waits)
        && tells_owners(row)
    {
        are_apart(alloc, row.elems.as_slice())
    } else {
        Ok(false)
    }
}

/// Whether the first of two names comes before the second.
fn is_before(a: &Res, b: &Res) -> bool
    ensures { result ≡ is_lt (res_order a.now b.now) }
{
    match a.order(b) {
        Ordering::Less => true,
        Ordering::Equal | Ordering::Greater => false,
    }
}

/// Whether looks, slice after slice, show the first of two resources before the second.
fn is_shown_before(a: &Res, b: &Res) -> bool
    ensures { result ≡ client.is_shown_before a.now b.now }
{
    match (slice_in(a), slice_in(b)) {
        (Some(n), Some(k)) => n < k || n == k && is_before(a, b),
        _ => false,
    }
}

/// Whether the first of these rows is shown behind this one, if there is one.
fn is_next(row: &Row, rest: &[Row]) -> bool
    ensures { result ≡ client.is_next row.now rest.now }
{
    match rest.first() {
        Some(next) => is_shown_before(&row.res, &next.res),
        None => true,
    }
}

/// Whether looks, slice after slice, show rows in this order.
fn are_in_order(rows: &[Row]) -> bool
    ensures { result ≡ client.are_in_order rows.now }
{
    let mut rest = rows;
    'rows: while let Some((row, tail)) = rest.split_first() {
        if !is_next(row, tail) {
            return false;
        }
        rest = tail;
    }
    true
}

/// Whether looks at so many slices from this one on can show each of these rows.
fn can_show_each(
    alloc: Global,
    first: u32,
    count: u32,
    filter: &Filter,
    rows: &[Row],
) -> Result<bool, NoMemory>
    ensures { IfOk result (λ shown. shown ≡ list_all (client.can_show first count filter.now) rows.now) }
{
    for row in rows {
        if !can_show(alloc, first, count, filter, row)? {
            return Ok(false);
        }
    }
    Ok(true)
}

/// Whether looks at so many slices from this one on can show these rows, in their order.
fn can_show_all(
    alloc: Global,
    first: u32,
    count: u32,
    filter: &Filter,
    rows: &[Row],
) -> Result<bool, NoMemory>
    ensures { IfOk result (λ shown. shown ≡ client.can_show_all first count filter.now rows.now) }
{
    if are_in_order(rows) {
        can_show_each(alloc, first, count, filter, rows)
    } else {
        Ok(false)
    }
}

/// Whether a request can get this answer.
pub(crate) fn can_get(alloc: Global, want: &Want, answer: &Answer) -> Result<bool, NoMemory>
    ensures { IfOk result (λ gets. gets ≡ client.can_get want.now answer.now) }
{
    match (want, answer) {
        (Want::Enq { ret, full, .. }, Answer::Coded(code)) => Ok(is_enq_code(*ret, *full, *code)),
        (Want::Deq { have, .. }, Answer::Coded(code)) => Ok(is_deq_code(*have, *code)),
        (Want::Release { .. }, Answer::Coded(code)) => Ok(matches!(code, Code::C00)),
        (
            Want::Look {
                first,
                count,
                filter,
            },
            Answer::Rows(rows),
        ) => can_show_all(alloc, *first, *count, filter, rows.as_slice()),
        _ => Ok(false),
    }
}
