//! A text cut at a byte: into its first line and those behind it, or a line into its words.
ghost use Rattle.std.specs.Prelude.{◌≡◌, ◌<◌, ◌≤◌, ◌==◌, length, position, IfSome};
ghost use Rattle.grs_audit.specs.Lines.{lines_in, most_lines, front, behind, holds};

use bstr::ByteSlice;

/// Where the first of a byte stands.
fn first_of(text: &[u8], byte: u8) -> Option<usize>
    ensures at { result ≡ position (λ x. x == byte) text.now }
    ensures within { IfSome result (λ i. i < length text.now) }
{
    text.find_byte(byte)
}

/// What stands before the first of a byte, and what stands behind it.
#[tactic(auto, using(crate::proofs::PartLaws::cuts))]
pub(crate) fn cut<'t>(text: &'t [u8], byte: u8) -> (&'t [u8], &'t [u8])
    ensures front { result.0.now ≡ front byte text.now }
    ensures behind { result.1.now ≡ behind byte text.now }
{
    match first_of(text, byte) {
        Some(at) => (&text[..at], &text[at + 1..]),
        None => (text, &[]),
    }
}

/// How many lines a text has.
pub(crate) fn line_count(text: &[u8]) -> usize
    requires { length (lines_in text.now) ≤ most_lines }
    ensures { result ≡ length (lines_in text.now) }
{
    let mut rest = text;
    let mut lines: usize = 0;
    'lines: while !rest.is_empty() {
        let (_, behind) = cut(rest, b'\n');
        rest = behind;
        lines += 1;
    }
    lines
}

/// Whether a byte is among these.
pub(crate) fn holds(text: &[u8], byte: u8) -> bool
    ensures { result ≡ holds byte text.now }
{
    text.iter().any(|b| *b == byte)
}
