//! ENQ, RESERVE, DEQ and WAIT: two names, a scope and options.
ghost use Rattle.std.specs.Prelude.{◌≡◌};
ghost use Rattle.deck_scan.specs.Next.{Reads};
ghost use Rattle.job_syntax.specs.Ask.{scope_at, ctl_at, names_at, enq_may, reserve_may, deq_may, wait_may, controlled_at, uncontrolled_at, enq_at, reserve_at, deq_at, wait_at, place_at};

use crate::options::{Opts, options_at};
use deck_scan::{GivenName, Miss, Token, any_word_at, close_at, comma_at, name_at, open_at};
use grs_base::{Ctl, Ret, Scope};

/// What a task line names, with names of any length, and the options that stand in it.
#[derive(Drop)]
pub struct ResAsk<'t> {
    /// The bytes of the qname as they are written, trailing blanks too.
    pub q: GivenName<'t>,
    /// The bytes of the rname.
    pub r: GivenName<'t>,
    pub scope: Scope,
    pub opts: Opts,
}

/// What an ENQ or a RESERVE says.
#[derive(Drop)]
pub struct EnqAsk<'t> {
    pub ctl: Ctl,
    pub ask: ResAsk<'t>,
}

#[tactic(auto, unfolding(crate::specs::Ask::ctl_at))]
fn ctl_at<'a, 't>(ts: &'a [Token<'t>]) -> Result<(Ctl, &'a [Token<'t>]), Miss>
    ensures { Reads (λ x. (x.0, x.1.now)) result (ctl_at ts.now) }
{
    let (w, rest) = any_word_at(ts)?;
    if w == b"E".as_slice() {
        Ok((Ctl::E, rest))
    } else if w == b"S".as_slice() {
        Ok((Ctl::S, rest))
    } else {
        Err(Miss)
    }
}

#[tactic(auto, unfolding(crate::specs::Ask::scope_at))]
fn scope_at<'a, 't>(ts: &'a [Token<'t>]) -> Result<(Scope, &'a [Token<'t>]), Miss>
    ensures { Reads (λ x. (x.0, x.1.now)) result (scope_at ts.now) }
{
    let (w, rest) = any_word_at(ts)?;
    if w == b"STEP".as_slice() {
        Ok((Scope::Step, rest))
    } else if w == b"SYSTEM".as_slice() {
        Ok((Scope::System, rest))
    } else if w == b"SYSTEMS".as_slice() {
        Ok((Scope::Systems, rest))
    } else {
        Err(Miss)
    }
}

/// A qname, an rname, and the tokens behind them.
type Names<'a, 't> = (GivenName<'a>, GivenName<'a>, &'a [Token<'t>]);

/// An open parenthesis and two names, each with a comma behind it.
#[tactic(auto, unfolding(crate::specs::Ask::names_at))]
fn names_at<'a, 't>(ts: &'a [Token<'t>]) -> Result<Names<'a, 't>, Miss>
    ensures { Reads (λ x. (x.0, x.1, x.2.now)) result (names_at ts.now) }
{
    let ts = open_at(ts)?;
    let (q, ts) = name_at(ts)?;
    let ts = comma_at(ts)?;
    let (r, ts) = name_at(ts)?;
    let ts = comma_at(ts)?;
    Ok((q, r, ts))
}

/// A scope, the closing parenthesis, and the options.
#[tactic(auto, unfolding(crate::specs::Ask::place_at))]
fn place_at(ts: &[Token<'_>]) -> Result<(Scope, Opts), Miss>
    ensures { Reads (λ x. x) result (place_at ts.now) }
{
    let (scope, ts) = scope_at(ts)?;
    let ts = close_at(ts)?;
    let opts = options_at(ts)?;
    Ok((scope, opts))
}

/// An ENQ has no UCB.
fn enq_may(ask: &ResAsk<'_>) -> bool
    ensures { result ≡ enq_may ask.now }
{
    ask.opts.unit.is_none()
}

/// A RESERVE has UCB, and the scope SYSTEMS.
fn reserve_may(ask: &ResAsk<'_>) -> bool
    ensures { result ≡ reserve_may ask.now }
{
    match ask.scope {
        Scope::Step => false,
        Scope::System => false,
        Scope::Systems => ask.opts.unit.is_some(),
    }
}

/// A DEQ has RET=NONE or RET=HAVE alone.
fn deq_may(ask: &ResAsk<'_>) -> bool
    ensures { result ≡ deq_may ask.now }
{
    match ask.opts.ret {
        None => true,
        Some(Ret::RetNone) => true,
        Some(Ret::RetHave) => true,
        Some(_) => false,
    }
}

/// A WAIT has neither RET nor UCB.
fn wait_may(ask: &ResAsk<'_>) -> bool
    ensures { result ≡ wait_may ask.now }
{
    ask.opts.ret.is_none() && ask.opts.unit.is_none()
}

/// Names, a control, a scope and options.
#[tactic(auto, unfolding(crate::specs::Ask::controlled_at))]
fn controlled_at<'a, 't>(ts: &'a [Token<'t>]) -> Result<EnqAsk<'a>, Miss>
    ensures { Reads (λ x. x) result (controlled_at ts.now) }
{
    let (q, r, ts) = names_at(ts)?;
    let (ctl, ts) = ctl_at(ts)?;
    let ts = comma_at(ts)?;
    let (scope, opts) = place_at(ts)?;
    Ok(EnqAsk {
        ctl,
        ask: ResAsk { q, r, scope, opts },
    })
}

/// Names, a scope and options.
#[tactic(auto, unfolding(crate::specs::Ask::uncontrolled_at))]
fn uncontrolled_at<'a, 't>(ts: &'a [Token<'t>]) -> Result<ResAsk<'a>, Miss>
    ensures { Reads (λ x. x) result (uncontrolled_at ts.now) }
{
    let (q, r, ts) = names_at(ts)?;
    let (scope, opts) = place_at(ts)?;
    Ok(ResAsk { q, r, scope, opts })
}

/// What stands behind ENQ: no UCB.
#[tactic(auto, unfolding(crate::specs::Ask::enq_at))]
pub fn enq_at<'a, 't>(ts: &'a [Token<'t>]) -> Result<EnqAsk<'a>, Miss>
    ensures { Reads (λ x. x) result (enq_at ts.now) }
{
    let enq = controlled_at(ts)?;
    if enq_may(&enq.ask) {
        Ok(enq)
    } else {
        Err(Miss)
    }
}

/// What stands behind RESERVE: the scope SYSTEMS, and UCB.
#[tactic(auto, unfolding(crate::specs::Ask::reserve_at))]
pub fn reserve_at<'a, 't>(ts: &'a [Token<'t>]) -> Result<EnqAsk<'a>, Miss>
    ensures { Reads (λ x. x) result (reserve_at ts.now) }
{
    let reserve = controlled_at(ts)?;
    if reserve_may(&reserve.ask) {
        Ok(reserve)
    } else {
        Err(Miss)
    }
}

/// What stands behind DEQ: of RET only NONE and HAVE, and no ECB.
#[tactic(auto, unfolding(crate::specs::Ask::deq_at))]
pub fn deq_at<'a, 't>(ts: &'a [Token<'t>]) -> Result<ResAsk<'a>, Miss>
    ensures { Reads (λ x. x) result (deq_at ts.now) }
{
    let ask = uncontrolled_at(ts)?;
    if deq_may(&ask) { Ok(ask) } else { Err(Miss) }
}

/// What stands behind WAIT: no option but RNL.
#[tactic(auto, unfolding(crate::specs::Ask::wait_at))]
pub fn wait_at<'a, 't>(ts: &'a [Token<'t>]) -> Result<ResAsk<'a>, Miss>
    ensures { Reads (λ x. x) result (wait_at ts.now) }
{
    let ask = uncontrolled_at(ts)?;
    if wait_may(&ask) { Ok(ask) } else { Err(Miss) }
}
