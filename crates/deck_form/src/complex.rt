//! The operands of COMPLEX, in any order, each at most once.
ghost use Rattle.std.specs.Prelude.{◌≡◌};
ghost use Rattle.grs_base.specs.Limits.{is_entries};
ghost use Rattle.deck_scan.specs.Next.{Reads, maybe};
ghost use Rattle.deck_form.specs.Complex.{mode_of, entries_of, limit_of, with_star, with_entries, with_limit, with_operand, operand_at, complex_at};

use crate::words::written_number;
use deck_scan::{Miss, Token, any_word_at, close_at, end_at, open_at};
use grs_base::MOST_LIMIT;

/// The operands that stand in a COMPLEX.
#[derive(Clone, Copy, Debug, PartialEq, Eq)]
pub struct Setup {
    /// MODE: true for STAR, false for RING.
    pub star: Option<bool>,
    /// ENTRIES, how many lock entries there are: 1, 2, 4, 8, 16, 32 or 64.
    pub entries: Option<u32>,
    /// LIMIT, how many requests a task may have: 1 to 4,096.
    pub limit: Option<u32>,
}

#[tactic(auto, unfolding(crate::specs::Complex::mode_of))]
fn mode_of(w: &[u8]) -> Result<bool, Miss>
    ensures { Reads (λ x. x) result (mode_of w.now) }
{
    if w == b"RING".as_slice() {
        Ok(false)
    } else if w == b"STAR".as_slice() {
        Ok(true)
    } else {
        Err(Miss)
    }
}

fn is_entries(n: u32) -> bool
    ensures { result ≡ is_entries n }
{
    n == 1 || n == 2 || n == 4 || n == 8 || n == 16 || n == 32 || n == 64
}

#[tactic(auto, unfolding(crate::specs::Complex::entries_of))]
fn entries_of(w: &[u8]) -> Result<u32, Miss>
    ensures { Reads (λ x. x) result (entries_of w.now) }
{
    let n = written_number(w)?;
    if is_entries(n) { Ok(n) } else { Err(Miss) }
}

#[tactic(auto, unfolding(crate::specs::Complex::limit_of))]
fn limit_of(w: &[u8]) -> Result<u32, Miss>
    ensures { Reads (λ x. x) result (limit_of w.now) }
{
    let n = written_number(w)?;
    if 1 <= n && n <= MOST_LIMIT {
        Ok(n)
    } else {
        Err(Miss)
    }
}

fn with_star(setup: Setup, star: bool) -> Result<Setup, Miss>
    ensures { Reads (λ x. x) result (with_star setup star) }
{
    match setup.star {
        Some(_) => Err(Miss),
        None => Ok(Setup {
            star: Some(star),
            ..setup
        }),
    }
}

fn with_entries(setup: Setup, entries: u32) -> Result<Setup, Miss>
    ensures { Reads (λ x. x) result (with_entries setup entries) }
{
    match setup.entries {
        Some(_) => Err(Miss),
        None => Ok(Setup {
            entries: Some(entries),
            ..setup
        }),
    }
}

fn with_limit(setup: Setup, limit: u32) -> Result<Setup, Miss>
    ensures { Reads (λ x. x) result (with_limit setup limit) }
{
    match setup.limit {
        Some(_) => Err(Miss),
        None => Ok(Setup {
            limit: Some(limit),
            ..setup
        }),
    }
}

/// Takes the value of an operand.
#[tactic(auto, unfolding(crate::specs::Complex::with_operand))]
fn with_operand(setup: Setup, word: &[u8], value: &[u8]) -> Result<Setup, Miss>
    ensures { Reads (λ x. x) result (with_operand setup word.now value.now) }
{
    if word == b"MODE".as_slice() {
        with_star(setup, mode_of(value)?)
    } else if word == b"ENTRIES".as_slice() {
        with_entries(setup, entries_of(value)?)
    } else if word == b"LIMIT".as_slice() {
        with_limit(setup, limit_of(value)?)
    } else {
        Err(Miss)
    }
}

/// One more operand.
#[tactic(auto, unfolding(crate::specs::Complex::operand_at))]
fn operand_at<'a, 't>(setup: Setup, ts: &'a [Token<'t>]) -> Result<(Setup, &'a [Token<'t>]), Miss>
    ensures { Reads (λ x. (x.0, x.1.now)) result (operand_at setup ts.now) }
{
    let (word, ts) = any_word_at(ts)?;
    let ts = open_at(ts)?;
    let (value, ts) = any_word_at(ts)?;
    let ts = close_at(ts)?;
    let setup = with_operand(setup, word, value)?;
    Ok((setup, ts))
}

fn maybe_operand<'a, 't>(
    setup: Setup,
    ts: &'a [Token<'t>],
) -> Result<(Setup, &'a [Token<'t>]), Miss>
    ensures { Reads (λ x. (x.0, x.1.now)) result (maybe operand_at setup ts.now) }
{
    if ts.len() == 0 {
        return Ok((setup, ts));
    }
    operand_at(setup, ts)
}

/// At most as many operands as there are kinds of them, and nothing after them.
#[tactic(auto, unfolding(crate::specs::Complex::complex_at))]
pub fn complex_at(ts: &[Token<'_>]) -> Result<Setup, Miss>
    ensures { Reads (λ x. x) result (complex_at ts.now) }
{
    let none = Setup {
        star: None,
        entries: None,
        limit: None,
    };
    let (first, ts) = maybe_operand(none, ts)?;
    let (second, ts) = maybe_operand(first, ts)?;
    let (third, ts) = maybe_operand(second, ts)?;
    end_at(ts)?;
    Ok(third)
}
