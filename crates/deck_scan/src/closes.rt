//! Finds the end of a statement that ends with a closing parenthesis, by one pass over the bytes. It keeps nothing but
//! what stands open between two of them, makes no token and knows no statement: how many closing parentheses that has
//! is told by the caller.
ghost use Rattle.std.specs.Prelude.{◌≡◌, ◌≤◌};
ghost use Rattle.deck_scan.specs.Closes.{all_closes, HaveCloses, begun, in_word, in_name, opened_in, opened, is_closing};
ghost use Rattle.deck_scan.specs.Scan.{lines_of};

use crate::bytes::is_word_byte;

/// What stands open, as far as it tells whether a closing parenthesis is a token.
#[derive(Clone, Copy)]
pub enum Open {
    Nothing,
    /// A slash, which begins a comment or is stray.
    Slash,
    /// The word X, with which a quote begins a hexadecimal name.
    X,
    Word,
    Quoted,
    Hexed,
    Comment,
    /// A star in a comment, which a slash would end.
    Star,
}

/// What a byte opens where nothing stands open.
#[tactic(auto, unfolding(crate::specs::Closes::begun))]
fn begun(b: u8) -> Open
    ensures { result ≡ begun b }
{
    match b {
        b'\'' => Open::Quoted,
        b'/' => Open::Slash,
        b'X' => Open::X,
        _ if is_word_byte(b) => Open::Word,
        _ => Open::Nothing,
    }
}

/// What stands open behind a byte that follows a word.
fn in_word(b: u8) -> Open
    ensures { result ≡ in_word b }
{
    if is_word_byte(b) {
        Open::Word
    } else {
        begun(b)
    }
}

/// What stands open behind a byte of a name between quotes, which ends with a quote or with its line. A quote that is
/// written twice ends it and begins another.
fn in_name(inside: Open, b: u8) -> Open
    ensures { result ≡ in_name inside b }
{
    if b == b'\'' || b == b'\n' {
        Open::Nothing
    } else {
        inside
    }
}

fn opened_in(inside: Open, b: u8) -> Open
    ensures { result ≡ opened_in inside b }
{
    match inside {
        Open::Nothing => begun(b),
        Open::Slash => if b == b'*' { Open::Comment } else { begun(b) },
        Open::X => if b == b'\'' { Open::Hexed } else { in_word(b) },
        Open::Word => in_word(b),
        Open::Quoted => in_name(inside, b),
        Open::Hexed => in_name(inside, b),
        Open::Comment => if b == b'*' { Open::Star } else { Open::Comment },
        Open::Star => match b {
            b'/' => Open::Nothing,
            b'*' => Open::Star,
            _ => Open::Comment,
        },
    }
}

/// What stands open behind a byte. A CR, which stands before an LF, is passed over.
fn opened(inside: Open, b: u8) -> Open
    ensures { result ≡ opened inside b }
{
    if b == b'\r' {
        inside
    } else {
        opened_in(inside, b)
    }
}

/// Whether a byte was a closing parenthesis of its own, where so much stands open behind it.
fn is_closing(b: u8, inside: Open) -> bool
    ensures { result ≡ is_closing b inside }
{
    b == b')' && matches!(inside, Open::Nothing)
}

/// The fewest bytes of a text that have this many closing parentheses, of which those in names and comments do
/// not count. No byte behind them is looked at. Of `RNL(CON) /* :-) */ QNAME(')') TYPE(PATTERN)` the first
/// two are in its first 29 bytes.
pub fn bytes_to_close(text: &[u8], closes: usize) -> usize
    requires { closes ≤ all_closes (lines_of text.now) }
    ensures { HaveCloses text.now closes result }
{
    let mut inside = Open::Nothing;
    let mut left = closes;
    let mut rest = text;
    while left != 0 {
        let Some((b, tail)) = rest.split_first() else {
            unreachable!()
        };
        inside = opened(inside, *b);
        left = if is_closing(*b, inside) {
            left - 1
        } else {
            left
        };
        rest = tail;
    }
    text.len() - rest.len()
}
