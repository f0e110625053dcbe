//! The first entry of a list that matches.
ghost use Rattle.std.specs.Prelude.{◌≡◌, ◌<◌, ◌+◌, length, IfSome};
ghost use Rattle.std.specs.Str.{bytes_eq};
ghost use Rattle.rnl_match.specs.Matches.{matches_qname, matches_rname, matches_every, matches_some_rname, matches, find};

use super::pattern::matches_pattern;
use grs_base::{Form, Qname, Rname, RnlEntry, RnlList, Steps};
use std::sync::ledger::Ledger;

/// Whether two names are the same bytes. It is asked of each entry of a list, where std's test of two slices would be a
/// call of its own.
fn is_same(wanted: &[u8], name: &[u8]) -> bool
    ensures { result ≡ bytes_eq wanted.now name.now }
{
    if wanted.len() != name.len() {
        return false;
    }
    for i in 0..wanted.len() {
        if wanted[i] != name[i] {
            return false;
        }
    }
    true
}

/// Whether a qname is matched.
fn matches_qname(form: Form, wanted: &Qname, q: &Qname) -> bool
    ensures { result ≡ matches_qname form wanted.now q.now }
{
    match form {
        Form::Specific | Form::Generic => is_same(wanted.bytes(), q.bytes()),
        Form::Pattern => matches_pattern(wanted.bytes(), q.bytes()),
    }
}

/// Whether an rname is matched by an entry that has one.
fn matches_rname(form: Form, wanted: &Rname, r: &Rname) -> bool
    ensures { result ≡ matches_rname form wanted.now r.now }
{
    match form {
        Form::Specific => is_same(wanted.bytes(), r.bytes()),
        Form::Generic => r.bytes().starts_with(wanted.bytes()),
        Form::Pattern => matches_pattern(wanted.bytes(), r.bytes()),
    }
}

/// Whether an entry without an rname matches every rname.
fn matches_every(form: Form) -> bool
    ensures { result ≡ matches_every form }
{
    match form {
        Form::Specific => false,
        Form::Generic | Form::Pattern => true,
    }
}

/// Whether an rname is matched by an entry that may have none.
fn matches_some_rname(form: Form, wanted: &Option<Rname>, r: &Rname) -> bool
    ensures { result ≡ matches_some_rname form wanted.now r.now }
{
    match wanted {
        None => matches_every(form),
        Some(wanted) => matches_rname(form, wanted, r),
    }
}

/// Whether an entry matches the names of a resource: a specific one where both are equal, a generic one
/// where the qname is equal and the rname begins with the entry's, a pattern where both are matched. A
/// generic entry or a pattern without an rname matches every rname.
pub fn matches(entry: &RnlEntry, q: &Qname, r: &Rname) -> bool
    ensures { result ≡ matches entry.now q.now r.now }
{
    matches_qname(entry.form, &entry.q, q) && matches_some_rname(entry.form, &entry.r, r)
}

/// The same, counted as one step.
pub fn matches_counted<L: Ledger>(
    entry: &RnlEntry,
    q: &Qname,
    r: &Rname,
    steps: &mut Steps<L>,
) -> bool
    ensures answer { result ≡ matches entry.now q.now r.now }
    ensures step { steps.new ≡ steps.old + 1 }
{
    steps.tick();
    matches(entry, q, r)
}

/// The place of the first entry that matches, from 0; none where no entry matches.
pub fn find(list: &RnlList, q: &Qname, r: &Rname) -> Option<usize>
    ensures first { result ≡ find list.now q.now r.now }
    ensures within { IfSome result (λ place. place < length list.now.entries) }
{
    list.as_slice()
        .iter()
        .position(|entry| matches(entry, q, r))
}
