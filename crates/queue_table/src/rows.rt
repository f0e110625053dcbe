//! The lists of a table as they are shown: with their resources, in order, and with their numbers of owners;
//! all of them, or those of a place that pass a filter.
ghost use Rattle.std.specs.Prelude.{◌≡◌, ◌++◌, ◌∷◌, ◌&&◌, [], true, cond, filter, map, nat_eq, Some, None, IfOk, OnOk, IsPermutation, IsSortedBy};
ghost use Rattle.std.specs.List.Sorted.{IsStableBy};
ghost use Rattle.grs_base.specs.Lists.{is_apart};
ghost use Rattle.grs_base.specs.State.{list_at, list_of};
ghost use Rattle.grs_base.specs.Rows.{lists_of, row_of, rows_of};
ghost use Rattle.queue_table.specs.Classes.{class_of, class_at};
ghost use Rattle.queue_table.specs.Names.{named, IsTable};
ghost use Rattle.grs_base.specs.Looks.{look};
ghost use Rattle.queue_table.specs.Shown.{has_elements, kept, numbers_of, lists_at, sooner, AreLive, may_show, passes, shows};
ghost use Rattle.queue_table.specs.Classes.{visits};

use super::parts::number;
use super::resources::{Resources, has_class};
use gqscan::matches_filter;
use grs_base::{Elem, Filter, List, NoMemory, Place, Queues, Res, Row};
use ret_codes::owners_among;
use std::alloc::Global;

/// The elements of a resource.
pub(crate) fn list_in<Q: Queues>(
    alloc: Global,
    numbers: &Resources,
    queues: &Q,
    res: &Res,
) -> Result<List<Elem>, NoMemory>
    requires table { IsTable numbers.now.entries (Q.elements queues.now) (Q.is_live queues.now) }
    ensures list { IfOk result (λ elems. elems ≡ list_of (named numbers.now.entries (Q.elements queues.now)) res.now) }
    ensures apart { IfOk result (λ elems. is_apart elems ≡ true) }
{
    match number(numbers, res, queues) {
        Some(queue) => queues.elems(alloc, queue),
        None => Ok(List::new(alloc)),
    }
}

/// Whether the list of a resource may be shown that is of the class of a place. Its names tell no more than the class does where it is
/// looked at.
#[tactic(auto, using(crate::proofs::ClassLemmas::own_classes))]
fn may_be_shown_at(place: Place, chosen: &Filter, res: &Res) -> bool
    requires { class_of res.now ≡ class_at place }
    ensures { result ≡ may_show (Some place) chosen.now res.now }
{
    has_class(place) && matches_filter(chosen, res, true)
}

/// Puts a resource last whose list is to be shown, unless that is empty.
fn add_shown<'t, Q: Queues>(
    queues: &Q,
    shown: bool,
    res: &'t Res,
    queue: u32,
    found: &mut Vec<(&'t Res, u32)>,
) -> Result<(), NoMemory>
    requires { Q.is_live queues.now queue ≡ true }
    ensures { OnOk result (numbers_of found.new.items ≡ numbers_of found.old.items ++ cond (shown && has_elements (Q.elements queues.now) queue) ((res.now, queue) ∷ []) []) }
{
    if !shown || queues.len(queue) == 0 {
        return Ok(());
    }
    match found.push((res, queue)) {
        Ok(()) => Ok(()),
        Err(_) => Err(NoMemory),
    }
}

/// The resources whose lists aren't empty and may be shown, each with its queue.
fn found_in<'t, Q: Queues>(
    alloc: Global,
    numbers: &'t Resources,
    queues: &Q,
    chosen: &Filter,
) -> Result<Vec<(&'t Res, u32)>, NoMemory>
    requires table { IsTable numbers.now.entries (Q.elements queues.now) (Q.is_live queues.now) }
    ensures { IfOk result (λ found. numbers_of found.items ≡ kept (may_show None chosen.now) (Q.elements queues.now) numbers.now.entries) }
{
    let mut found = Vec::new(alloc);
    for i in 0..numbers.len() {
        match numbers.entry(i) {
            Some((res, queue)) => {
                let shown = matches_filter(chosen, res, true);
                add_shown(queues, shown, res, queue, &mut found)?
            }
            None => unreachable!(),
        }
    }
    Ok(found)
}

/// The same of a place, whose resources are gone through alone, or nearly so.
fn found_at<'t, Q: Queues>(
    alloc: Global,
    numbers: &'t Resources,
    queues: &Q,
    place: Place,
    chosen: &Filter,
) -> Result<Vec<(&'t Res, u32)>, NoMemory>
    requires table { IsTable numbers.now.entries (Q.elements queues.now) (Q.is_live queues.now) }
    ensures { IfOk result (λ found. numbers_of found.items ≡ kept (may_show (Some place) chosen.now) (Q.elements queues.now) (visits (class_at place) numbers.now.entries)) }
{
    let mut found = Vec::new(alloc);
    let mut next = numbers.last_of(place);
    'places: while let Some(at) = next {
        match numbers.entry(at) {
            Some((res, queue)) => {
                let shown = may_be_shown_at(place, chosen, res);
                add_shown(queues, shown, res, queue, &mut found)?
            }
            None => unreachable!(),
        }
        next = numbers.before(at, place);
    }
    Ok(found)
}

/// Resources in the order in which they are shown.
fn in_order<'t>(found: Vec<(&'t Res, u32)>) -> Result<Vec<(&'t Res, u32)>, NoMemory>
    ensures sorted { IfOk result (λ sorted. IsSortedBy sooner sorted.items) }
    ensures stable { IfOk result (λ sorted. IsStableBy sooner found.entry.items sorted.items) }
    ensures permutation { IfOk result (λ sorted. IsPermutation found.entry.items sorted.items) }
{
    let mut found = found;
    match found.sort_by(|a, b| a.0.order(b.0)) {
        Ok(()) => Ok(found),
        Err(_) => Err(NoMemory),
    }
}

/// The resources whose lists aren't empty and may be shown, of a place or of all, in order.
fn found_shown<'t, Q: Queues>(
    alloc: Global,
    numbers: &'t Resources,
    queues: &Q,
    place: Option<Place>,
    chosen: &Filter,
) -> Result<Vec<(&'t Res, u32)>, NoMemory>
    requires table { IsTable numbers.now.entries (Q.elements queues.now) (Q.is_live queues.now) }
    ensures lists { IfOk result (λ found. lists_at (Q.elements queues.now) found.items ≡ filter (λ e. may_show place chosen.now e.0) (lists_of (named numbers.now.entries (Q.elements queues.now)))) }
    ensures live { IfOk result (λ found. AreLive (Q.is_live queues.now) found.items) }
{
    match place {
        Some(place) => {
            let found = found_at(alloc, numbers, queues, place, chosen)?;
            let sorted = in_order(found)?;
            Ok(sorted)
        }
        None => {
            let found = found_in(alloc, numbers, queues, chosen)?;
            let sorted = in_order(found)?;
            Ok(sorted)
        }
    }
}

/// A list with its resource and its number of owners.
fn row(res: Res, elems: List<Elem>) -> Result<Row, NoMemory>
    ensures { IfOk result (λ row. row ≡ row_of (res, elems)) }
{
    match u32::try_from(owners_among(elems.as_slice())) {
        Ok(owners) => Ok(Row { res, elems, owners }),
        Err(_) => Err(NoMemory),
    }
}

/// Puts a row behind others, if it passes.
fn add_row(rows: &mut List<Row>, row: Row, chosen: &Filter) -> Result<(), NoMemory>
    ensures { OnOk result (rows.new ≡ rows.old ++ filter (passes chosen.now) (row ∷ [])) }
{
    let waits = (row.owners as usize) < row.elems.len();
    if matches_filter(chosen, &row.res, waits) {
        rows.push(row)
    } else {
        Ok(())
    }
}

/// The row of a resource.
fn row_at<Q: Queues>(alloc: Global, queues: &Q, res: &Res, queue: u32) -> Result<Row, NoMemory>
    requires { Q.is_live queues.now queue ≡ true }
    ensures { IfOk result (λ row. row ≡ row_of (res.now, list_at nat_eq (Q.elements queues.now) queue)) }
{
    let elems = queues.elems(alloc, queue)?;
    let res = res.copy(alloc)?;
    row(res, elems)
}

/// The rows of resources that pass.
fn rows_from<Q: Queues>(
    alloc: Global,
    queues: &Q,
    found: &[(&Res, u32)],
    chosen: &Filter,
) -> Result<List<Row>, NoMemory>
    requires { AreLive (Q.is_live queues.now) found.now }
    ensures { IfOk result (λ rows. rows ≡ filter (passes chosen.now) (map row_of (lists_at (Q.elements queues.now) found.now))) }
{
    let mut rows = List::with_room(alloc, found.len())?;
    for one in found {
        let row = row_at(alloc, queues, one.0, one.1)?;
        add_row(&mut rows, row, chosen)?;
    }
    Ok(rows)
}

/// What is shown of the lists of a place, or of all.
fn shown_in<Q: Queues>(
    alloc: Global,
    numbers: &Resources,
    queues: &Q,
    place: Option<Place>,
    chosen: &Filter,
) -> Result<List<Row>, NoMemory>
    requires table { IsTable numbers.now.entries (Q.elements queues.now) (Q.is_live queues.now) }
    ensures { IfOk result (λ rows. rows ≡ filter (shows place chosen.now) (rows_of (named numbers.now.entries (Q.elements queues.now)))) }
{
    let found = found_shown(alloc, numbers, queues, place, chosen)?;
    rows_from(alloc, queues, found.as_slice(), chosen)
}

/// What is shown of all lists.
#[tactic(auto, using(crate::proofs::RowLemmas::all_shown))]
pub(crate) fn rows_in<Q: Queues>(
    alloc: Global,
    numbers: &Resources,
    queues: &Q,
) -> Result<List<Row>, NoMemory>
    requires table { IsTable numbers.now.entries (Q.elements queues.now) (Q.is_live queues.now) }
    ensures { IfOk result (λ rows. rows ≡ rows_of (named numbers.now.entries (Q.elements queues.now))) }
{
    shown_in(alloc, numbers, queues, None, &Filter::All)
}

/// What a look at a place shows.
pub(crate) fn look_in<Q: Queues>(
    alloc: Global,
    numbers: &Resources,
    queues: &Q,
    place: Place,
    chosen: &Filter,
) -> Result<List<Row>, NoMemory>
    requires table { IsTable numbers.now.entries (Q.elements queues.now) (Q.is_live queues.now) }
    ensures { IfOk result (λ rows. rows ≡ look (named numbers.now.entries (Q.elements queues.now)) place chosen.now) }
{
    shown_in(alloc, numbers, queues, Some(place), chosen)
}
