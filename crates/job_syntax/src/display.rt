//! GQSCAN and DISPLAY: which lists are looked at.
ghost use Rattle.deck_scan.specs.Next.{Reads, maybe};
ghost use Rattle.job_syntax.specs.Display.{reach_of, with_q, with_r, named_at, want_of, want_at, scan_at, resource_at, shown_at, display_at};

use deck_scan::{
    GivenName, Miss, Token, any_word_at, close_at, comma_at, end_at, equals_at, name_at, open_at,
    value_at, word_at,
};

/// The names that a GQSCAN gives, of any length.
#[derive(Drop)]
pub struct Wanted<'t> {
    pub q: Option<GivenName<'t>>,
    pub r: Option<GivenName<'t>>,
}

/// What a GQSCAN says.
#[derive(Drop)]
pub struct ScanAsk<'t> {
    /// True for SCOPE=GLOBAL, false for SCOPE=LOCAL.
    pub global: bool,
    pub names: Wanted<'t>,
}

/// What a DISPLAY shows: the lists in which a task waits, or the list of a resource, with names of
/// any length.
#[derive(Drop)]
pub enum Shown<'t> {
    /// `GRS,C`
    Contended,
    /// `GRS,RES=(q,r)`
    Resource { q: GivenName<'t>, r: GivenName<'t> },
}

#[tactic(auto, unfolding(crate::specs::Display::reach_of))]
fn reach_of(w: &[u8]) -> Result<bool, Miss>
    ensures { Reads (λ x. x) result (reach_of w.now) }
{
    if w == b"GLOBAL".as_slice() {
        Ok(true)
    } else if w == b"LOCAL".as_slice() {
        Ok(false)
    } else {
        Err(Miss)
    }
}

fn with_q<'a>(names: Wanted<'a>, q: GivenName<'a>) -> Result<Wanted<'a>, Miss>
    ensures { Reads (λ x. x) result (with_q names.entry q.entry) }
{
    match names.q {
        Some(_) => Err(Miss),
        None => Ok(Wanted {
            q: Some(q),
            r: names.r,
        }),
    }
}

fn with_r<'a>(names: Wanted<'a>, r: GivenName<'a>) -> Result<Wanted<'a>, Miss>
    ensures { Reads (λ x. x) result (with_r names.entry r.entry) }
{
    match names.r {
        Some(_) => Err(Miss),
        None => Ok(Wanted {
            q: names.q,
            r: Some(r),
        }),
    }
}

/// An equals sign and a name.
fn named_at<'a, 't>(ts: &'a [Token<'t>]) -> Result<(GivenName<'a>, &'a [Token<'t>]), Miss>
    ensures { Reads (λ x. (x.0, x.1.now)) result (named_at ts.now) }
{
    let ts = equals_at(ts)?;
    name_at(ts)
}

/// What stands behind the first word of an option.
#[tactic(auto, unfolding(crate::specs::Display::want_of))]
fn want_of<'a, 't>(
    names: Wanted<'a>,
    w: &[u8],
    ts: &'a [Token<'t>],
) -> Result<(Wanted<'a>, &'a [Token<'t>]), Miss>
    ensures { Reads (λ x. (x.0, x.1.now)) result (want_of names.entry w.now ts.now) }
{
    if w == b"QNAME".as_slice() {
        let (q, ts) = named_at(ts)?;
        Ok((with_q(names, q)?, ts))
    } else if w == b"RNAME".as_slice() {
        let (r, ts) = named_at(ts)?;
        Ok((with_r(names, r)?, ts))
    } else {
        Err(Miss)
    }
}

/// One more option.
#[tactic(auto, unfolding(crate::specs::Display::want_at))]
fn want_at<'a, 't>(
    names: Wanted<'a>,
    ts: &'a [Token<'t>],
) -> Result<(Wanted<'a>, &'a [Token<'t>]), Miss>
    ensures { Reads (λ x. (x.0, x.1.now)) result (want_at names.entry ts.now) }
{
    let ts = comma_at(ts)?;
    let (w, ts) = any_word_at(ts)?;
    want_of(names, w, ts)
}

fn maybe_want<'a, 't>(
    names: Wanted<'a>,
    ts: &'a [Token<'t>],
) -> Result<(Wanted<'a>, &'a [Token<'t>]), Miss>
    ensures { Reads (λ x. (x.0, x.1.now)) result (maybe want_at names.entry ts.now) }
{
    if ts.len() == 0 {
        return Ok((names, ts));
    }
    want_at(names, ts)
}

/// SCOPE=GLOBAL or SCOPE=LOCAL, and at most one name of each kind.
#[tactic(auto, unfolding(crate::specs::Display::scan_at))]
pub fn scan_at<'a, 't>(ts: &'a [Token<'t>]) -> Result<ScanAsk<'a>, Miss>
    ensures { Reads (λ x. x) result (scan_at ts.now) }
{
    let ts = word_at(b"SCOPE", ts)?;
    let (w, ts) = value_at(ts)?;
    let global = reach_of(w)?;
    let none = Wanted { q: None, r: None };
    let (first, ts) = maybe_want(none, ts)?;
    let (names, ts) = maybe_want(first, ts)?;
    end_at(ts)?;
    Ok(ScanAsk { global, names })
}

/// An equals sign and two names between parentheses, and nothing after them.
#[tactic(auto, unfolding(crate::specs::Display::resource_at))]
fn resource_at<'a, 't>(ts: &'a [Token<'t>]) -> Result<(GivenName<'a>, GivenName<'a>), Miss>
    ensures { Reads (λ x. x) result (resource_at ts.now) }
{
    let ts = equals_at(ts)?;
    let ts = open_at(ts)?;
    let (q, ts) = name_at(ts)?;
    let ts = comma_at(ts)?;
    let (r, ts) = name_at(ts)?;
    let ts = close_at(ts)?;
    end_at(ts)?;
    Ok((q, r))
}

/// What stands behind the second word of a DISPLAY.
#[tactic(auto, unfolding(crate::specs::Display::shown_at))]
fn shown_at<'a, 't>(w: &[u8], ts: &'a [Token<'t>]) -> Result<Shown<'a>, Miss>
    ensures { Reads (λ x. x) result (shown_at w.now ts.now) }
{
    if w == b"C".as_slice() {
        end_at(ts)?;
        Ok(Shown::Contended)
    } else if w == b"RES".as_slice() {
        let (q, r) = resource_at(ts)?;
        Ok(Shown::Resource { q, r })
    } else {
        Err(Miss)
    }
}

/// GRS, a comma, and what is shown.
#[tactic(auto, unfolding(crate::specs::Display::display_at))]
pub fn display_at<'a, 't>(ts: &'a [Token<'t>]) -> Result<Shown<'a>, Miss>
    ensures { Reads (λ x. x) result (display_at ts.now) }
{
    let ts = word_at(b"GRS", ts)?;
    let ts = comma_at(ts)?;
    let (w, ts) = any_word_at(ts)?;
    shown_at(w, ts)
}
