//! Kinds of bytes: of plain names, of hexadecimal digits, and those that a deck may have.
ghost use Rattle.std.specs.Prelude.{◌≡◌, ℕ, Bool, ◌<◌, ◌≤◌, ◌+◌, ◌^◌, ◌==◌, not, length, position, IfSome, if◌then◌else◌};
ghost use Rattle.std.specs.List.{list_all};
ghost use Rattle.grs_base.specs.Printed.{is_printable};
ghost use Rattle.deck_scan.specs.Bytes.{is_word, is_hex, digit, is_allowed, bad_line};
ghost use Rattle.deck_scan.specs.Pieces.{is_in_comment};
ghost use Rattle.deck_scan.specs.Reading.{most_text_bytes};
ghost use Rattle.deck_scan.specs.Rows.{is_no_quote, IsSplit};

use bstr::ByteSlice;
use grs_base::{is_plain_byte, is_printable};

/// Whether a byte is one of a plain name.
#[tactic(auto, unfolding(crate::specs::Bytes::is_word))]
pub fn is_word_byte(b: u8) -> bool
    ensures { result ≡ is_word b }
{
    is_plain_byte(b)
}

/// Whether a byte is a hexadecimal digit of either case.
#[tactic(auto, unfolding(crate::specs::Bytes::is_hex))]
pub fn is_hex_byte(b: u8) -> bool
    ensures { result ≡ is_hex b }
{
    matches!(b, b'0'..=b'9' | b'A'..=b'F' | b'a'..=b'f')
}

/// What a hexadecimal digit counts, and 0 for any other byte.
#[tactic(auto, unfolding(crate::specs::Bytes::digit))]
pub fn digit_of(b: u8) -> u8
    ensures value { result ≡ digit b }
    ensures small { result < 16 }
{
    match b {
        b'0'..=b'9' => b - b'0',
        b'A'..=b'F' => b - b'A' + 10,
        b'a'..=b'f' => b - b'a' + 10,
        _ => 0,
    }
}

/// Whether a deck may have a byte before this rest.
#[tactic(auto, unfolding(crate::specs::Bytes::is_allowed))]
pub fn is_allowed_byte(b: u8, rest: &[u8]) -> bool
    ensures { result ≡ is_allowed b rest.now }
{
    let before_lf = matches!(rest, [b'\n', ..]);
    is_printable(b) || b == b'\n' || (b == b'\r' && before_lf)
}

/// A text cut at a place, or behind all of it.
fn cut<'t>(text: &'t [u8], at: Option<usize>) -> (&'t [u8], &'t [u8])
    requires { IfSome at (λ i. i ≤ length text.now) }
    ensures { (p : ℕ → Bool) → at ≡ position (λ b. not (p b)) text.now → IsSplit p text.now result.0.now result.1.now }
{
    match at {
        Some(i) => text.split_at(i),
        None => (text, &[]),
    }
}

fn end_of_word(text: &[u8]) -> Option<usize>
    ensures at { result ≡ position (λ b. not (is_word b)) text.now }
    ensures within { IfSome result (λ i. i ≤ length text.now) }
{
    text.iter().position(|b| !is_word_byte(*b))
}

/// A text cut behind the bytes of plain names at its front.
pub fn split_word<'t>(text: &'t [u8]) -> (&'t [u8], &'t [u8])
    ensures { IsSplit is_word text.now result.0.now result.1.now }
{
    cut(text, end_of_word(text))
}

fn quote_of(text: &[u8]) -> Option<usize>
    ensures at { result ≡ position (λ b. not (is_no_quote b)) text.now }
    ensures within { IfSome result (λ i. i ≤ length text.now) }
{
    text.find_byte(b'\'')
}

/// A text cut before its first quote.
pub fn split_at_quote<'t>(text: &'t [u8]) -> (&'t [u8], &'t [u8])
    ensures { IsSplit is_no_quote text.now result.0.now result.1.now }
{
    cut(text, quote_of(text))
}

fn end_of_printable(text: &[u8]) -> Option<usize>
    ensures at { result ≡ position (λ b. not (is_printable b)) text.now }
    ensures within { IfSome result (λ i. i ≤ length text.now) }
{
    text.iter().position(|b| !is_printable(*b))
}

/// A text cut behind the printable bytes at its front.
pub fn split_printable<'t>(text: &'t [u8]) -> (&'t [u8], &'t [u8])
    ensures { IsSplit is_printable text.now result.0.now result.1.now }
{
    cut(text, end_of_printable(text))
}

/// Whether all bytes are printable or end a line. It goes over all, which takes less time than to stop at the first.
fn all_common(text: &[u8]) -> bool
    ensures { result ≡ list_all is_in_comment text.now }
{
    let mut common = true;
    for b in text {
        common = common & (is_printable(*b) || *b == b'\n');
    }
    common
}

fn line_behind(b: u8, line: u32) -> u32
    requires { line + 1 < 2 ^ 32 }
    ensures { result ≡ (if b == 10 then line + 1 else line) }
{
    if b == b'\n' { line + 1 } else { line }
}

/// The line of the first byte that a deck may not have.
pub fn bad_line(text: &[u8]) -> Option<u32>
    requires { length text.now ≤ most_text_bytes }
    ensures { result ≡ bad_line 1 text.now }
{
    if all_common(text) {
        return None;
    }
    let mut line = 1;
    let mut rest = text;
    while let Some((b, tail)) = rest.split_first() {
        if !is_allowed_byte(*b, tail) {
            return Some(line);
        }
        line = line_behind(*b, line);
        rest = tail;
    }
    None
}
