//! Goes through a text line by line. A line is read when it is asked for, and nothing behind it is looked at; only for
//! bytes that no deck may have is the whole text gone over first. With which word the next line begins can be asked
//! without reading it.
ghost use Rattle.std.specs.Prelude.{◌≡◌, ◌<◌, ◌+◌, ◌^◌, ◌++◌, ℕ, [], length, true, false, Some, OnErr, IfOk, IfSome, IfNone};
ghost use Rattle.std.specs.List.{list_all};
ghost use Rattle.grs_base.specs.Printed.{is_printable};
ghost use Rattle.deck_scan.specs.AnyBytes.{wrong_byte, readable};
ghost use Rattle.deck_scan.specs.Pieces.{SpellsLines};
ghost use Rattle.deck_scan.specs.Scan.{lines_of};
ghost use Rattle.deck_scan.specs.Gives.{Gives};
ghost use Rattle.deck_scan.specs.Reading.{lines_or_fault, Answers};
ghost use Rattle.deck_scan.specs.Rows.{EndsLine, begins_end, starts, IsRow, IsLast, Passes, Next, to_come, first_word};

use crate::bytes::{bad_line, split_printable};
use crate::gaps::{next_token, word_at_front};
use crate::miss::refused;
use crate::plain::{PlainLine, take_plain};
use crate::row::{ScannedLine, read_row};
use crate::token::{Part, Token, TokenLine};
use grs_base::{Kind, List, NoMemory, ReadError};
use std::alloc::Global;
use std::marker::Model;

/// The most bytes of a deck.
pub const MOST_TEXT_BYTES: usize = 1_048_576;

/// The greatest number of a line. No memory holds the tokens of more, and blank lines are counted no further.
pub(crate) const LAST_LINE: u32 = u32::MAX - 2;

/// A place in a text, at the begin of a line.
#[derive(Clone, Copy)]
pub struct Cursor<'t> {
    /// What was not read.
    pub rest: &'t [u8],
    /// The number of the line that begins here.
    pub line: u32,
    /// The line on which the comment began that stands open here.
    pub begun: Option<u32>,
}

/// What stands behind the end of a line.
pub(crate) fn behind_end<'t>(text: &'t [u8]) -> Option<&'t [u8]>
    ensures ends { IfSome result (λ rest. EndsLine text.now rest.now) }
    ensures none { IfNone result (begins_end text.now ≡ false) }
{
    match text {
        [b'\n', rest @ ..] => Some(rest),
        [b'\r', b'\n', rest @ ..] => Some(rest),
        _ => None,
    }
}

/// An equal token with bytes of its own.
fn owned_token<'t>(alloc: Global, token: &Token<'_>) -> Result<Token<'t>, NoMemory>
    ensures { IfOk result (λ t. t ≡ token.now) }
{
    match token {
        Token::Word(w) => Ok(Token::Word(Part::made(List::from_bytes(alloc, w.bytes())?))),
        Token::Name(w) => Ok(Token::Name(Part::made(List::from_bytes(alloc, w.bytes())?))),
        Token::Open => Ok(Token::Open),
        Token::Close => Ok(Token::Close),
        Token::Comma => Ok(Token::Comma),
        Token::Equals => Ok(Token::Equals),
        Token::Stray => Ok(Token::Stray),
        Token::Unclosed => Ok(Token::Unclosed),
    }
}

/// Equal tokens with bytes of their own.
fn owned_tokens<'t>(alloc: Global, tokens: &[Token<'_>]) -> Result<List<Token<'t>>, NoMemory>
    ensures { IfOk result (λ ts. ts ≡ tokens.now) }
{
    let mut owned = List::with_room(alloc, tokens.len())?;
    for token in tokens {
        owned.push(owned_token(alloc, token)?)?;
    }
    Ok(owned)
}

/// Reads a line that ends in front of a byte that no deck may have.
fn read_wrong<'t>(
    alloc: Global,
    at: u32,
    begun: Option<u32>,
    text: &[u8],
) -> Result<ScannedLine<'t>, NoMemory>
    requires { list_all is_printable text.now ≡ true }
    ensures { IfOk result (λ row. IsRow at begun (text.now ++ wrong_byte) row) }
{
    let mut bytes = List::from_bytes(alloc, text)?;
    bytes.append(b"!*/!")?;
    let row = read_row(alloc, at, begun, bytes.as_slice())?;
    Ok(ScannedLine {
        tokens: owned_tokens(alloc, row.tokens.as_slice())?,
        near: row.near,
        joined: row.joined,
        begun: row.begun,
    })
}

/// Reads the last line of a text, which ends with it, or in front of a byte that no deck may have.
fn read_last<'t>(
    alloc: Global,
    at: u32,
    begun: Option<u32>,
    text: &'t [u8],
    behind: &[u8],
) -> Result<ScannedLine<'t>, NoMemory>
    requires printable { list_all is_printable text.now ≡ true }
    requires stops { starts is_printable behind.now ≡ false }
    requires last { begins_end behind.now ≡ false }
    ensures { IfOk result (λ row. IsLast at begun (text.now ++ behind.now) row) }
{
    if behind.is_empty() {
        read_row(alloc, at, begun, text)
    } else {
        read_wrong(alloc, at, begun, text)
    }
}

/// Reads the line that begins here, and goes behind it.
fn take_row<'t>(alloc: Global, from: Cursor<'t>) -> Result<(ScannedLine<'t>, Cursor<'t>), NoMemory>
    requires some { 0 < length from.rest.now }
    requires number { from.line + 1 < 2 ^ 32 }
    ensures { IfOk result (λ x. Passes from.entry x.0 x.1) }
{
    let (text, behind) = split_printable(from.rest);
    let Some(rest) = behind_end(behind) else {
        let row = read_last(alloc, from.line, from.begun, text, behind)?;
        let to = Cursor {
            rest: &[],
            line: from.line,
            begun: row.begun,
        };
        return Ok((row, to));
    };
    let row = read_row(alloc, from.line, from.begun, text)?;
    let to = Cursor {
        rest,
        line: from.line + 1,
        begun: row.begun,
    };
    Ok((row, to))
}

/// What stands behind all lines: nothing, or a comment that is not closed, as a line of its own.
fn last_line<'t>(alloc: Global, begun: Option<u32>) -> Result<Option<TokenLine<'t>>, NoMemory>
    ensures { IfOk result (λ l. (line : ℕ) → Next l (to_come line begun []) []) }
{
    match begun {
        None => Ok(None),
        Some(begun) => {
            let mut tokens = List::with_room(alloc, 1)?;
            tokens.push(Token::Unclosed)?;
            Ok(Some(TokenLine {
                at: begun,
                tokens,
                joined: false,
            }))
        }
    }
}

/// The lines of a text that have a token, in order, which are read one by one. Contracts see those that are
/// still to come. Blanks and comments separate tokens and are gone, and a comment that is not closed is a line of
/// its own at the end. Of the text
///
///     JOB J1    /* nightly */
///
///     ENQ (PAYROLL,'it''s',E,SYSTEM)
///
/// the lines are 1 with the words `JOB` and `J1`, and 3 with the word `ENQ`, `(`, the word `PAYROLL`,
/// a comma, the name `it's`, a comma, and so on.
#[derive(Drop)]
pub struct Lines<'t> {
    at: Cursor<'t>,
}

impl<'t> Model for Lines<'t> {
    ghost use Rattle.std.specs.Prelude.{List};
    ghost use Rattle.deck_scan.specs.declared.token.TokenLine.{TokenLine as LineValue};
    ghost use Rattle.deck_scan.specs.Rows.{coming};

    ghost Value = { List LineValue };

    ghost view = { λ a. coming a.at };
}

impl<'t> Lines<'t> {
    /// The lines of a deck.
    ///
    /// A deck of more than 1,048,576 bytes is `TooLong`, with line 0. A byte that no deck may have, which
    /// is each but blank to `~`, LF and a CR directly before an LF, is `BadByte`, with the line of the
    /// first one.
    #[tactic(auto, unfolding(crate::specs::Reading::lines_or_fault))]
    pub fn new(text: &'t [u8]) -> Result<Self, ReadError>
        // By the grammar of pieces.
        ensures exact { Answers result text.now }
        // By the function on lists that the readers above this one are built on.
        ensures read { Gives result (lines_or_fault text.now) }
    {
        if text.len() > MOST_TEXT_BYTES {
            return Err(refused(0, Kind::TooLong));
        }
        match bad_line(text) {
            Some(line) => Err(refused(line, Kind::BadByte)),
            None => Ok(Lines::of_any(text)),
        }
    }

    /// The lines of a text of any bytes and any length. It is read as a deck is, up to the first byte that no
    /// deck may have: in the place of that byte stands a token that is part of no statement, and what is behind
    /// it is not read. Of `ENQ`, a tab and `(A,B,E,SYSTEM)` the line is the word `ENQ` and what is joined to it
    /// and is no token. No byte is looked at before its line is asked for.
    pub fn of_any(text: &'t [u8]) -> Self
        ensures spelled { SpellsLines (readable text.now) result }
        ensures read { result ≡ lines_of (readable text.now) }
    {
        Lines {
            at: Cursor {
                rest: text,
                line: 1,
                begun: None,
            },
        }
    }

    /// The next line, or none where no line is to come. It takes the time of that line and of what stands before
    /// it.
    ///
    /// It is `NoMemory` for want of memory, also where 4,294,967,293 lines or more stand before, and then
    /// nothing was taken.
    pub fn next(&mut self, alloc: Global) -> Result<Option<TokenLine<'t>>, NoMemory>
        ensures next { IfOk result (λ line. Next line self.old self.new) }
        ensures same { OnErr result (self.new ≡ self.old) }
    {
        let mut at = self.at;
        while !at.rest.is_empty() {
            if LAST_LINE < at.line {
                return Err(NoMemory);
            }
            let (row, behind) = take_row(alloc, at)?;
            if row.tokens.len() != 0 {
                self.at = behind;
                return Ok(Some(TokenLine {
                    at: at.line,
                    tokens: row.tokens,
                    joined: row.joined,
                }));
            }
            at = behind;
        }
        let last = last_line(alloc, at.begun)?;
        at.begun = None;
        self.at = at;
        Ok(last)
    }

    /// The next line, where it is one of two or three words with a blank between them, no blank line or comment stands
    /// before it, and it isn't the last of the text; else nothing is taken.
    pub fn next_plain(&mut self) -> Option<PlainLine<'t>>
        ensures next { IfSome result (λ line. Next (Some line) self.old self.new) }
        ensures same { IfNone result (self.new ≡ self.old) }
    {
        let (line, behind) = take_plain(self.at)?;
        self.at = behind;
        Some(line)
    }

    /// The word with which the next line begins; none where it begins with another token, or no line is to come.
    /// Nothing is taken, and no byte behind that word is looked at but the one that ends it. Of
    /// ` /* local */ RNLDEF RNL(CON)` it is `RNLDEF`, at the time of 19 bytes.
    ///
    /// It is `NoMemory` where 4,294,967,293 lines or more stand before.
    pub fn next_word(&mut self) -> Result<Option<Part<'t>>, NoMemory>
        ensures word { IfOk result (λ word. word ≡ first_word self.old) }
        ensures same { self.new ≡ self.old }
    {
        let at = next_token(self.at)?;
        self.at = at;
        Ok(word_at_front(at))
    }
}
