//! Looks ahead: goes over blanks, comments and ends of lines up to the next token, byte by byte, and says with which
//! word that begins. It looks at nothing behind that word.
ghost use Rattle.std.specs.Prelude.{◌≡◌, ◌<◌, ◌+◌, ◌^◌, true, false, is_some, IfOk, IfSome, IfNone};
ghost use Rattle.deck_scan.specs.Rows.{coming, first_word, is_at_token, GoesOver};

use crate::bytes::{is_allowed_byte, split_word};
use crate::cursor::{Cursor, LAST_LINE};
use crate::row::begins_hexed;
use crate::token::Part;
use grs_base::NoMemory;

/// Goes over a byte or two of a comment that stands open.
fn pass_inside<'t>(from: Cursor<'t>) -> Option<Cursor<'t>>
    requires inside { is_some from.begun ≡ true }
    requires number { from.line + 1 < 2 ^ 32 }
    ensures over { IfSome result (λ to. GoesOver from.entry to) }
    ensures stops { IfNone result (is_at_token from.entry.begun from.entry.rest.now ≡ true) }
{
    match from.rest {
        [b'*', b'/', rest @ ..] => Some(Cursor {
            rest,
            line: from.line,
            begun: None,
        }),
        [b'\n', rest @ ..] => Some(Cursor {
            rest,
            line: from.line + 1,
            begun: from.begun,
        }),
        [b, rest @ ..] if is_allowed_byte(*b, rest) => Some(Cursor {
            rest,
            line: from.line,
            begun: from.begun,
        }),
        _ => None,
    }
}

/// Goes over a blank, the end of a line or the begin of a comment, where none stands open.
fn pass_apart<'t>(from: Cursor<'t>) -> Option<Cursor<'t>>
    requires apart { is_some from.begun ≡ false }
    requires number { from.line + 1 < 2 ^ 32 }
    ensures over { IfSome result (λ to. GoesOver from.entry to) }
    ensures stops { IfNone result (is_at_token from.entry.begun from.entry.rest.now ≡ true) }
{
    match from.rest {
        [b'/', b'*', rest @ ..] => Some(Cursor {
            rest,
            line: from.line,
            begun: Some(from.line),
        }),
        [b'\n', rest @ ..] => Some(Cursor {
            rest,
            line: from.line + 1,
            begun: None,
        }),
        [b'\r', b'\n', rest @ ..] => Some(Cursor {
            rest,
            line: from.line + 1,
            begun: None,
        }),
        [b' ', rest @ ..] => Some(Cursor {
            rest,
            line: from.line,
            begun: None,
        }),
        _ => None,
    }
}

/// Goes over a byte or two that are part of no token, where some stand here.
fn pass<'t>(from: Cursor<'t>) -> Option<Cursor<'t>>
    requires { from.line + 1 < 2 ^ 32 }
    ensures over { IfSome result (λ to. GoesOver from.entry to) }
    ensures stops { IfNone result (is_at_token from.entry.begun from.entry.rest.now ≡ true) }
{
    if from.begun.is_some() {
        pass_inside(from)
    } else {
        pass_apart(from)
    }
}

/// The place of the next token, or where no further line is to come.
pub(crate) fn next_token<'t>(from: Cursor<'t>) -> Result<Cursor<'t>, NoMemory>
    ensures same { IfOk result (λ to. coming to ≡ coming from.entry) }
    ensures there { IfOk result (λ to. is_at_token to.begun to.rest.now ≡ true) }
{
    let mut at = from;
    loop {
        if LAST_LINE < at.line {
            return Err(NoMemory);
        }
        match pass(at) {
            Some(next) => at = next,
            None => return Ok(at),
        }
    }
}

/// The word that the token here is, if it is one.
pub(crate) fn word_at_front<'t>(at: Cursor<'t>) -> Option<Part<'t>>
    requires { is_at_token at.begun at.rest.now ≡ true }
    ensures { result ≡ first_word (coming at.entry) }
{
    if at.begun.is_some() {
        return None;
    }
    let (word, behind) = split_word(at.rest);
    if word.is_empty() {
        return None;
    }
    if begins_hexed(word, behind) {
        return None;
    }
    Some(Part::there(word))
}
