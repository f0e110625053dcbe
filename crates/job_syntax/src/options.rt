//! The options behind the parentheses of a task line, in any order, each at most once. Which of
//! them a line may have is not said here.
ghost use Rattle.std.specs.Prelude.{◌≡◌};
ghost use Rattle.deck_scan.specs.Next.{Reads, maybe};
ghost use Rattle.job_syntax.specs.Options.{with_ret, with_rnl, with_unit, ret_of, rnl_of, chosen, option_at, options_at};

use crate::unit::unit_of;
use deck_scan::{Miss, Token, any_word_at, comma_at, end_at, value_at};
use grs_base::Ret;

/// The options that stand in a line.
#[derive(Clone, Copy, Debug, PartialEq, Eq)]
pub struct Opts {
    /// RET, or ECB, which stands in its place.
    pub ret: Option<Ret>,
    /// RNL: true for YES, which looks at the name lists, false for NO, which passes them by.
    pub rnl: Option<bool>,
    /// The number of the device that UCB gives.
    pub unit: Option<u16>,
}

#[tactic(auto, unfolding(crate::specs::Options::ret_of))]
fn ret_of(w: &[u8]) -> Result<Ret, Miss>
    ensures { Reads (λ x. x) result (ret_of w.now) }
{
    if w == b"NONE".as_slice() {
        Ok(Ret::RetNone)
    } else if w == b"USE".as_slice() {
        Ok(Ret::RetUse)
    } else if w == b"HAVE".as_slice() {
        Ok(Ret::RetHave)
    } else if w == b"TEST".as_slice() {
        Ok(Ret::RetTest)
    } else if w == b"CHNG".as_slice() {
        Ok(Ret::RetChng)
    } else {
        Err(Miss)
    }
}

#[tactic(auto, unfolding(crate::specs::Options::rnl_of))]
fn rnl_of(w: &[u8]) -> Result<bool, Miss>
    ensures { Reads (λ x. x) result (rnl_of w.now) }
{
    if w == b"YES".as_slice() {
        Ok(true)
    } else if w == b"NO".as_slice() {
        Ok(false)
    } else {
        Err(Miss)
    }
}

fn with_ret(opts: Opts, ret: Ret) -> Result<Opts, Miss>
    ensures { Reads (λ x. x) result (with_ret opts ret) }
{
    match opts.ret {
        Some(_) => Err(Miss),
        None => Ok(Opts {
            ret: Some(ret),
            ..opts
        }),
    }
}

fn with_rnl(opts: Opts, rnl: bool) -> Result<Opts, Miss>
    ensures { Reads (λ x. x) result (with_rnl opts rnl) }
{
    match opts.rnl {
        Some(_) => Err(Miss),
        None => Ok(Opts {
            rnl: Some(rnl),
            ..opts
        }),
    }
}

fn with_unit(opts: Opts, unit: u16) -> Result<Opts, Miss>
    ensures { Reads (λ x. x) result (with_unit opts unit) }
{
    match opts.unit {
        Some(_) => Err(Miss),
        None => Ok(Opts {
            unit: Some(unit),
            ..opts
        }),
    }
}

/// What stands behind the first word of an option.
#[tactic(auto, unfolding(crate::specs::Options::chosen))]
fn chosen<'a, 't>(
    opts: Opts,
    w: &[u8],
    ts: &'a [Token<'t>],
) -> Result<(Opts, &'a [Token<'t>]), Miss>
    ensures { Reads (λ x. (x.0, x.1.now)) result (chosen opts w.now ts.now) }
{
    if w == b"ECB".as_slice() {
        Ok((with_ret(opts, Ret::RetEcb)?, ts))
    } else if w == b"RET".as_slice() {
        let (v, ts) = value_at(ts)?;
        let ret = ret_of(v)?;
        Ok((with_ret(opts, ret)?, ts))
    } else if w == b"RNL".as_slice() {
        let (v, ts) = value_at(ts)?;
        let rnl = rnl_of(v)?;
        Ok((with_rnl(opts, rnl)?, ts))
    } else if w == b"UCB".as_slice() {
        let (v, ts) = value_at(ts)?;
        let unit = unit_of(v)?;
        Ok((with_unit(opts, unit)?, ts))
    } else {
        Err(Miss)
    }
}

/// One more option.
#[tactic(auto, unfolding(crate::specs::Options::option_at))]
fn option_at<'a, 't>(opts: Opts, ts: &'a [Token<'t>]) -> Result<(Opts, &'a [Token<'t>]), Miss>
    ensures { Reads (λ x. (x.0, x.1.now)) result (option_at opts ts.now) }
{
    let ts = comma_at(ts)?;
    let (w, ts) = any_word_at(ts)?;
    chosen(opts, w, ts)
}

fn maybe_option<'a, 't>(opts: Opts, ts: &'a [Token<'t>]) -> Result<(Opts, &'a [Token<'t>]), Miss>
    ensures { Reads (λ x. (x.0, x.1.now)) result (maybe option_at opts ts.now) }
{
    if ts.len() == 0 {
        return Ok((opts, ts));
    }
    option_at(opts, ts)
}

/// At most as many options as there are kinds of them, and nothing after them.
#[tactic(auto, unfolding(crate::specs::Options::options_at))]
pub fn options_at(ts: &[Token<'_>]) -> Result<Opts, Miss>
    ensures { Reads (λ x. x) result (options_at ts.now) }
{
    let none = Opts {
        ret: None,
        rnl: None,
        unit: None,
    };
    let (first, ts) = maybe_option(none, ts)?;
    let (second, ts) = maybe_option(first, ts)?;
    let (third, ts) = maybe_option(second, ts)?;
    end_at(ts)?;
    Ok(third)
}
