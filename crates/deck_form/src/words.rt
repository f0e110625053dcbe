//! Names of systems, jobs and tasks, and numbers, as the bytes of a word.
ghost use Rattle.std.specs.Prelude.{◌≡◌, ◌==◌, [], ◌∷◌, position};
ghost use Rattle.bstr.specs.Text.{SplitsOnce};
ghost use Rattle.grs_base.specs.ShortNames.{is_digit, is_name_byte, is_name, all_name};
ghost use Rattle.deck_scan.specs.Next.{Reads};
ghost use Rattle.deck_form.specs.Words.{short_at, named_at, parted, digits, written_number};

use bstr::ByteSlice;
use deck_scan::{GivenName, Miss, Token, any_word_at, end_at};

/// How many digits a number may have, so that it has less than 32 bits.
const MOST_DIGITS: usize = 9;

fn is_digit(b: u8) -> bool
    ensures { result ≡ is_digit b }
{
    b'0' <= b && b <= b'9'
}

#[tactic(auto, unfolding(grs_base::specs::ShortNames::is_name_byte))]
fn is_name_byte(b: u8) -> bool
    ensures { result ≡ is_name_byte b }
{
    (b'A' <= b && b <= b'Z') || is_digit(b) || b == b'$' || b == b'#' || b == b'@'
}

#[tactic(auto, unfolding(grs_base::specs::ShortNames::all_name))]
fn all_name(w: &[u8]) -> bool
    ensures { result ≡ all_name w.now }
{
    let mut rest = w;
    while let Some((b, tail)) = rest.split_first() {
        if !is_name_byte(*b) {
            return false;
        }
        rest = tail;
    }
    true
}

#[tactic(auto, unfolding(grs_base::specs::ShortNames::is_name))]
pub fn is_name(w: &[u8]) -> bool
    ensures { result ≡ is_name w.now }
{
    match w.split_first() {
        None => false,
        Some((b, _)) => !is_digit(*b) && all_name(w),
    }
}

/// The name of a system, job or task, of any length.
#[tactic(auto, unfolding(crate::specs::Words::short_at))]
pub fn short_at<'a, 't>(ts: &'a [Token<'t>]) -> Result<(GivenName<'a>, &'a [Token<'t>]), Miss>
    ensures { Reads (λ x. (x.0, x.1.now)) result (short_at ts.now) }
{
    let (w, rest) = any_word_at(ts)?;
    if is_name(w) {
        Ok((GivenName::new(w), rest))
    } else {
        Err(Miss)
    }
}

/// The name of a system, job or task, of any length, and nothing after it.
#[tactic(auto, unfolding(crate::specs::Words::named_at))]
pub fn named_at<'a, 't>(ts: &'a [Token<'t>]) -> Result<GivenName<'a>, Miss>
    ensures { Reads (λ x. x) result (named_at ts.now) }
{
    let (name, ts) = short_at(ts)?;
    end_at(ts)?;
    Ok(name)
}

/// What stands before the first point, and what stands behind it.
fn around_point<'a>(w: &'a [u8]) -> Option<(&'a [u8], &'a [u8])>
    ensures { SplitsOnce w.now (46 ∷ []) (position (λ b. b == 46) w.now) result }
{
    w.split_once_str(b".")
}

/// A name, a point, a name.
pub fn parted<'a>(w: &'a [u8]) -> Result<(GivenName<'a>, GivenName<'a>), Miss>
    ensures { Reads (λ x. x) result (parted (position (λ b. b == 46) w.now) w.now) }
{
    match around_point(w) {
        None => Err(Miss),
        Some((job, task)) => {
            if !is_name(job) {
                return Err(Miss);
            }
            if !is_name(task) {
                return Err(Miss);
            }
            Ok((GivenName::new(job), GivenName::new(task)))
        }
    }
}

/// The number that 1 to 9 decimal digits write.
#[tactic(auto, unfolding(crate::specs::Words::written_number, crate::specs::Words::digits))]
pub fn written_number(w: &[u8]) -> Result<u32, Miss>
    ensures { Reads (λ x. x) result (written_number w.now) }
{
    if w.is_empty() || w.len() > MOST_DIGITS {
        return Err(Miss);
    }
    let mut number = 0;
    let mut rest = w;
    while let Some((b, tail)) = rest.split_first() {
        if !is_digit(*b) {
            return Err(Miss);
        }
        number = number * 10 + u32::from(*b - b'0');
        rest = tail;
    }
    Ok(number)
}
