//! What is noticed by the list of a resource before and after an entry. How the lists came about is not known here.
ghost use Rattle.std.specs.Prelude.{◌≡◌, ◌++◌, ◌-◌, length, take, option_to_list, OnOk, IfOk};
ghost use Rattle.grs_enf.specs.Same.{same_ctl, same_elems};
ghost use Rattle.grs_enf.specs.Notices.{is_contended, what_of, whats, notices_at, last_noticed, changes_control, is_left_waiting};

use super::notice::{Notice, What};
use grs_base::{Code, Ctl, Elem, List, NoMemory, Res, Ret, is_same_task};
use ret_codes::owners_among;
use std::alloc::Global;

/// Whether two controls are one.
fn is_same_ctl(a: Ctl, b: Ctl) -> bool
    ensures { result ≡ same_ctl a b }
{
    match (a, b) {
        (Ctl::E, Ctl::E) | (Ctl::S, Ctl::S) => true,
        (Ctl::E, Ctl::S) | (Ctl::S, Ctl::E) => false,
    }
}

/// Whether two lists are the same.
fn is_same(a: &[Elem], b: &[Elem]) -> bool
    ensures { result ≡ same_elems a.now b.now }
{
    if a.len() != b.len() {
        return false;
    }
    for place in 0..a.len() {
        if !is_same_task(a[place].task, b[place].task) || !is_same_ctl(a[place].ctl, b[place].ctl) {
            return false;
        }
    }
    true
}

/// Whether somebody waits.
fn is_contended(elems: &[Elem]) -> bool
    ensures { result ≡ is_contended elems.now }
{
    owners_among(elems) < elems.len()
}

/// What is noticed where a list changes.
fn what_of(was: bool, is: bool) -> Option<What>
    ensures { option_to_list result ≡ what_of was is }
{
    match (was, is) {
        (false, false) => None,
        (false, true) => Some(What::Begin),
        (true, true) => Some(What::Change),
        (true, false) => Some(What::End),
    }
}

/// What is noticed of a list.
fn what(before: &[Elem], after: &[Elem]) -> Option<What>
    ensures { option_to_list result ≡ whats before.now after.now }
{
    if is_same(before, after) {
        None
    } else {
        what_of(is_contended(before), is_contended(after))
    }
}

/// A number of elements, for which there is no memory past 4,294,967,295.
fn counted(count: usize) -> Result<u32, NoMemory>
    ensures { IfOk result (λ n. n ≡ count) }
{
    match u32::try_from(count) {
        Ok(count) => Ok(count),
        Err(_) => Err(NoMemory),
    }
}

/// Puts the notice of a resource behind others, where there is one. There is no memory for a notice of more than
/// 4,294,967,295 elements.
pub(crate) fn put_notice(
    alloc: Global,
    res: &Res,
    before: &[Elem],
    after: &[Elem],
    out: &mut List<Notice>,
) -> Result<(), NoMemory>
    ensures { OnOk result (out.new ≡ out.old ++ notices_at res.now before.now after.now) }
{
    let Some(what) = what(before, after) else {
        return Ok(());
    };
    let owners = owners_among(after);
    let waiters = after.len() - owners;
    let res = res.copy(alloc)?;
    out.push(Notice {
        what,
        res,
        owners: counted(owners)?,
        waiters: counted(waiters)?,
    })
}

/// Whether an ENQ of this kind changes control that its task has (RET=CHNG).
pub(crate) fn changes_control(ret: Ret) -> bool
    ensures { result ≡ changes_control ret }
{
    match ret {
        Ret::RetChng => true,
        Ret::RetNone | Ret::RetUse | Ret::RetHave | Ret::RetTest | Ret::RetEcb => false,
    }
}

/// Whether an ENQ of this kind that is answered so leaves an element that waits.
pub(crate) fn is_left_waiting(ret: Ret, code: Code) -> bool
    ensures { result ≡ is_left_waiting ret code }
{
    match code {
        Code::Wait => true,
        Code::C04 => matches!(ret, Ret::RetEcb),
        Code::C00 | Code::C08 | Code::C14 | Code::C18 | Code::End(_) => false,
    }
}

/// A list without its last element.
fn without_last(elems: &[Elem]) -> &[Elem]
    ensures { result.now ≡ take (length elems.now - 1) elems.now }
{
    &elems[..elems.len().saturating_sub(1)]
}

/// The notice of a resource whose list got its last element just now, where there is one.
pub(crate) fn notice_of_last(
    alloc: Global,
    res: &Res,
    after: &[Elem],
) -> Result<List<Notice>, NoMemory>
    ensures { IfOk result (λ ns. ns ≡ last_noticed res.now after.now) }
{
    let mut notices = List::new(alloc);
    put_notice(alloc, res, without_last(after), after, &mut notices)?;
    Ok(notices)
}
