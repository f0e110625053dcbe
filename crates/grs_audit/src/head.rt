//! The first line of a text that begins a history, as `HISTORY 12`.
ghost use Rattle.std.specs.Prelude.{◌≡◌, ◌≤◌, ◌<◌, ◌^◌, ◌-◌, min, Some, None, length};
ghost use Rattle.std.specs.Option.{option_map};
ghost use Rattle.grs_base.specs.ShortNames.{is_digit};
ghost use Rattle.deck_form.specs.Words.{digits};
ghost use Rattle.grs_audit.specs.Lines.{lines_in, most_lines};
ghost use Rattle.grs_audit.specs.Verdicts.{plain_number, count_in};
ghost use Rattle.grs_audit.specs.Found.{IsFound, capped};

use super::parts::cut;

/// The word and the blank with which a history begins.
const WORD: &[u8] = b"HISTORY ";

/// Where a text begins a history.
#[derive(Clone, Copy)]
pub(crate) enum Found<'t> {
    /// Behind so many lines, with this number, or the largest where the line has a larger one; and this behind the line.
    At {
        place: usize,
        count: u64,
        rest: &'t [u8],
    },
    /// Nowhere, in so many lines.
    Nowhere {
        lines: usize,
    },
}

fn is_digit(b: u8) -> bool
    ensures { result ≡ is_digit b }
{
    b'0' <= b && b <= b'9'
}

/// The number that a text writes by its digits behind those of another, or the largest where it is larger.
fn number_behind(before: u64, text: &[u8]) -> Option<u64>
    ensures { result ≡ option_map capped (digits before text.now) }
{
    let mut number = before;
    let mut rest = text;
    'digits: while let Some((b, behind)) = rest.split_first() {
        if !is_digit(*b) {
            return None;
        }
        number = number
            .saturating_mul(10)
            .saturating_add(u64::from(*b - b'0'));
        rest = behind;
    }
    Some(number)
}

/// The number that these write as decimal digits, of which the first is 0 only where it stands alone.
fn plain_number(text: &[u8]) -> Option<u64>
    ensures { result ≡ option_map capped (plain_number text.now) }
{
    match text {
        [] => None,
        [b'0', _, ..] => None,
        _ => number_behind(0, text),
    }
}

/// How many entries the history has of which this is the first line.
fn count_in(line: &[u8]) -> Option<u64>
    ensures { result ≡ option_map capped (count_in line.now) }
{
    match line.strip_prefix(WORD) {
        Some(number) => plain_number(number),
        None => None,
    }
}

/// The first line of a text that begins a history.
pub(crate) fn find_head<'t>(text: &'t [u8]) -> Found<'t>
    requires { length (lines_in text.now) ≤ most_lines }
    ensures { IsFound (lines_in text.now) result }
{
    let mut rest = text;
    let mut place: usize = 0;
    'lines: while !rest.is_empty() {
        let (line, behind) = cut(rest, b'\n');
        match count_in(line) {
            Some(count) => {
                return Found::At {
                    place,
                    count,
                    rest: behind,
                };
            }
            None => {
                rest = behind;
                place += 1;
            }
        }
    }
    Found::Nowhere { lines: place }
}
