//! The next token. Each reader takes what it reads from the front of the tokens and hands on the rest;
//! where something else stands there it is a `Miss`. Nothing is copied.
ghost use Rattle.std.specs.Prelude.{◌≡◌};
ghost use Rattle.deck_scan.specs.Next.{Reads, open_at, close_at, comma_at, equals_at, end_at, word_at, any_word_at, value_at, name_at};

use crate::given::GivenName;
use crate::miss::Miss;
use crate::token::Token;

/// Takes `(`.
pub fn open_at<'a, 't>(ts: &'a [Token<'t>]) -> Result<&'a [Token<'t>], Miss>
    ensures { Reads (λ x. x.now) result (open_at ts.now) }
{
    match ts.split_first() {
        Some((Token::Open, rest)) => Ok(rest),
        _ => Err(Miss),
    }
}

/// Takes `)`.
pub fn close_at<'a, 't>(ts: &'a [Token<'t>]) -> Result<&'a [Token<'t>], Miss>
    ensures { Reads (λ x. x.now) result (close_at ts.now) }
{
    match ts.split_first() {
        Some((Token::Close, rest)) => Ok(rest),
        _ => Err(Miss),
    }
}

/// Takes `,`.
pub fn comma_at<'a, 't>(ts: &'a [Token<'t>]) -> Result<&'a [Token<'t>], Miss>
    ensures { Reads (λ x. x.now) result (comma_at ts.now) }
{
    match ts.split_first() {
        Some((Token::Comma, rest)) => Ok(rest),
        _ => Err(Miss),
    }
}

/// Takes `=`.
pub fn equals_at<'a, 't>(ts: &'a [Token<'t>]) -> Result<&'a [Token<'t>], Miss>
    ensures { Reads (λ x. x.now) result (equals_at ts.now) }
{
    match ts.split_first() {
        Some((Token::Equals, rest)) => Ok(rest),
        _ => Err(Miss),
    }
}

/// Nothing stands there any more.
pub fn end_at(ts: &[Token<'_>]) -> Result<(), Miss>
    ensures { Reads (λ x. x) result (end_at ts.now) }
{
    match ts.split_first() {
        Some(_) => Err(Miss),
        None => Ok(()),
    }
}

/// Takes a word, and gives its bytes.
pub fn any_word_at<'a, 't>(ts: &'a [Token<'t>]) -> Result<(&'a [u8], &'a [Token<'t>]), Miss>
    ensures { Reads (λ x. (x.0.now, x.1.now)) result (any_word_at ts.now) }
{
    match ts.split_first() {
        Some((Token::Word(w), rest)) => Ok((w.bytes(), rest)),
        _ => Err(Miss),
    }
}

/// Takes this word.
pub fn word_at<'a, 't>(word: &[u8], ts: &'a [Token<'t>]) -> Result<&'a [Token<'t>], Miss>
    ensures { Reads (λ x. x.now) result (word_at word.now ts.now) }
{
    let (w, rest) = any_word_at(ts)?;
    if w == word { Ok(rest) } else { Err(Miss) }
}

/// Takes `=` and a word, and gives the bytes of the word.
pub fn value_at<'a, 't>(ts: &'a [Token<'t>]) -> Result<(&'a [u8], &'a [Token<'t>]), Miss>
    ensures { Reads (λ x. (x.0.now, x.1.now)) result (value_at ts.now) }
{
    let ts = equals_at(ts)?;
    any_word_at(ts)
}

/// Takes the name of a resource, plain, quoted or hexadecimal, of any length.
pub fn name_at<'a, 't>(ts: &'a [Token<'t>]) -> Result<(GivenName<'a>, &'a [Token<'t>]), Miss>
    ensures { Reads (λ x. (x.0, x.1.now)) result (name_at ts.now) }
{
    match ts.split_first() {
        Some((Token::Word(w), rest)) => Ok((GivenName::new(w.bytes()), rest)),
        Some((Token::Name(w), rest)) => Ok((GivenName::new(w.bytes()), rest)),
        _ => Err(Miss),
    }
}
