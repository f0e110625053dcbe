//! A line of two or three words with one blank between them, as most event lines are, read straight from its bytes: no
//! list of tokens is made of it. Any other line is left to the reader of all lines.
ghost use Rattle.std.specs.Prelude.{◌≡◌, ◌∷◌, Some, IfSome};
ghost use Rattle.deck_scan.specs.Rows.{coming, Next};
ghost use Rattle.deck_scan.specs.Plain.{plain_tokens, IsFront, IsThird};

use crate::bytes::split_word;
use crate::cursor::{Cursor, LAST_LINE, behind_end};
use std::marker::Model;

/// A line of two or three words and nothing else, seen as the line of tokens that it is.
#[derive(Drop)]
pub struct PlainLine<'t> {
    at: u32,
    first: &'t [u8],
    second: &'t [u8],
    third: Option<&'t [u8]>,
}

impl<'t> Model for PlainLine<'t> {
    ghost use Rattle.deck_scan.specs.declared.token.TokenLine.{TokenLine};
    ghost use Rattle.deck_scan.specs.Plain.{plain_line};

    ghost Value = { TokenLine };

    ghost view = { λ a. plain_line a.at a.first.now a.second.now a.third };
}

impl<'t> PlainLine<'t> {
    /// The number of the line in the text, from 1.
    pub fn at(&self) -> u32
        ensures { result ≡ self.now.at }
    {
        self.at
    }

    /// Its words: the first, the second, and the third if there is one.
    pub fn words(&self) -> (&'t [u8], &'t [u8], Option<&'t [u8]>)
        ensures { self.now.tokens ≡ plain_tokens result.0.now result.1.now result.2 }
    {
        (self.first, self.second, self.third)
    }
}

/// The word at the front of a text, and what stands behind it.
fn front_word<'t>(text: &'t [u8]) -> Option<(&'t [u8], &'t [u8])>
    ensures { IfSome result (λ x. IsFront text.now x.0.now x.1.now) }
{
    let (word, behind) = split_word(text);
    if word.is_empty() {
        return None;
    }
    Some((word, behind))
}

/// What stands behind the blank at the front of a text.
fn behind_blank<'t>(text: &'t [u8]) -> Option<&'t [u8]>
    ensures { IfSome result (λ rest. text.now ≡ 32 ∷ rest.now) }
{
    match text {
        [b' ', rest @ ..] => Some(rest),
        _ => None,
    }
}

/// A blank and a word at the front of a text, where a blank stands there, and what stands behind it.
fn third_word<'t>(text: &'t [u8]) -> Option<(Option<&'t [u8]>, &'t [u8])>
    ensures { IfSome result (λ x. IsThird text.now x.0 x.1.now) }
{
    let Some(rest) = behind_blank(text) else {
        return Some((None, text));
    };
    let (word, behind) = front_word(rest)?;
    Some((Some(word), behind))
}

/// Reads the line that begins here, and goes behind it, where it is a plain one that ends with an end of line.
pub(crate) fn take_plain<'t>(from: Cursor<'t>) -> Option<(PlainLine<'t>, Cursor<'t>)>
    ensures { IfSome result (λ x. Next (Some x.0) (coming from.entry) (coming x.1)) }
{
    if from.begun.is_some() {
        return None;
    }
    if LAST_LINE < from.line {
        return None;
    }
    let (first, behind) = front_word(from.rest)?;
    let text = behind_blank(behind)?;
    let (second, behind) = front_word(text)?;
    let (third, behind) = third_word(behind)?;
    let rest = behind_end(behind)?;
    let line = PlainLine {
        at: from.line,
        first,
        second,
        third,
    };
    let to = Cursor {
        rest,
        line: from.line + 1,
        begun: None,
    };
    Some((line, to))
}
