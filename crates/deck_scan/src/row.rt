//! One line of a text, read piece by piece: the piece at the front is taken, and the rest handed on. It knows no
//! statement, and of other lines no more than whether a comment stands open.
ghost use Rattle.std.specs.Prelude.{◌≡◌, ◌&&◌, ◌==◌, [], ◌∷◌, true, false, length, Some, None, OnOk, IfOk, IfSome, IfNone};
ghost use Rattle.std.specs.List.{list_all};
ghost use Rattle.std.specs.Str.{bytes_eq};
ghost use Rattle.grs_base.specs.Printed.{is_printable};
ghost use Rattle.deck_scan.specs.Bytes.{begins};
ghost use Rattle.deck_scan.specs.Pieces.{is_mark, is_single, has_no_end, hex_token};
ghost use Rattle.deck_scan.specs.Rows.{row_with, after_mark, no_row, is_doubled, Unquotes, Takes, IsRow, ClosesComment};

use crate::bytes::{digit_of, is_hex_byte, split_at_quote, split_word};
use crate::token::{Part, Token};
use bstr::ByteSlice;
use grs_base::{List, NoMemory};
use std::alloc::Global;

/// How many tokens most lines have at most: those of a task line with two options are 18.
const USUAL_TOKENS: usize = 20;

/// What has been read of a line.
#[derive(Drop)]
pub struct ScannedLine<'t> {
    /// Its tokens so far.
    pub tokens: List<Token<'t>>,
    /// Whether it has one token, a word, and nothing stood behind that yet.
    pub near: bool,
    /// Whether a token stood directly behind its first word.
    pub joined: bool,
    /// The line on which the comment began that stands open.
    pub begun: Option<u32>,
}

/// The token of these digits between quotes behind an X.
fn hex_token<'t>(alloc: Global, digits: &[u8]) -> Result<Token<'t>, NoMemory>
    ensures { IfOk result (λ t. t ≡ hex_token digits.now) }
{
    let mut made = List::with_room(alloc, digits.len() / 2)?;
    let mut rest = digits;
    while let Some((high, behind)) = rest.split_first() {
        let Some((low, tail)) = behind.split_first() else {
            return Ok(Token::Stray);
        };
        if !is_hex_byte(*high) || !is_hex_byte(*low) {
            return Ok(Token::Stray);
        }
        made.push(16 * digit_of(*high) + digit_of(*low))?;
        rest = tail;
    }
    Ok(Token::Name(Part::made(made)))
}

/// Whether a byte is a piece by itself: a blank, a sign or a slash.
fn is_single(b: u8) -> bool
    ensures { result ≡ is_single b }
{
    matches!(b, b' ' | b'(' | b')' | b',' | b'=' | b'/')
}

/// Whether this word and what stands behind it are X and a quote.
pub(crate) fn begins_hexed(word: &[u8], behind: &[u8]) -> bool
    ensures { result ≡ (bytes_eq word.now (88 ∷ []) && begins 39 behind.now) }
{
    word == b"X".as_slice() && matches!(behind, [b'\'', ..])
}

fn is_doubled(quote: &[u8]) -> bool
    ensures { result ≡ is_doubled quote.now }
{
    matches!(quote, [_, b'\'', ..])
}

/// A quoted name, behind its first quote, and what stands from the quote on that closes it; nothing where none does.
fn doubled<'t>(alloc: Global, text: &'t [u8]) -> Result<(List<u8>, &'t [u8]), NoMemory>
    requires { list_all is_printable text.now ≡ true }
    ensures { IfOk result (λ x. Unquotes text.now x.0 x.1.now) }
{
    let mut name = List::new(alloc);
    let mut rest = text;
    loop {
        let (part, quote) = split_at_quote(rest);
        name.append(part)?;
        if !is_doubled(quote) {
            return Ok((name, quote));
        }
        name.push(b'\'')?;
        rest = &quote[2..];
    }
}

/// The same. Where no quote is written twice, the name is not copied.
fn quoted<'t>(alloc: Global, text: &'t [u8]) -> Result<(Part<'t>, &'t [u8]), NoMemory>
    requires { list_all is_printable text.now ≡ true }
    ensures { IfOk result (λ x. Unquotes text.now x.0 x.1.now) }
{
    let (name, quote) = split_at_quote(text);
    if !is_doubled(quote) {
        return Ok((Part::there(name), quote));
    }
    let (name, quote) = doubled(alloc, text)?;
    Ok((Part::made(name), quote))
}

/// What stands behind the end of a comment, if it ends in this text.
fn behind_comment<'t>(text: &'t [u8]) -> Option<&'t [u8]>
    ensures closed { IfSome result (λ rest. ClosesComment text.now rest.now) }
    ensures begun { IfNone result (has_no_end text.now ≡ true) }
{
    match text.split_once_str(b"*/") {
        Some((_, behind)) => Some(behind),
        None => None,
    }
}

impl<'t> ScannedLine<'t> {
    /// A line of which nothing is read.
    fn new(alloc: Global, begun: Option<u32>) -> Self
        ensures { result ≡ no_row begun }
    {
        ScannedLine {
            tokens: List::new(alloc),
            near: false,
            joined: false,
            begun,
        }
    }

    /// The same, with room for the tokens of most lines.
    fn with_room(alloc: Global) -> Result<Self, NoMemory>
        ensures { IfOk result (λ row. row ≡ no_row None) }
    {
        Ok(ScannedLine {
            tokens: List::with_room(alloc, USUAL_TOKENS)?,
            near: false,
            joined: false,
            begun: None,
        })
    }

    fn put(&mut self, token: Token<'t>) -> Result<(), NoMemory>
        ensures { OnOk result (self.new ≡ row_with token.entry self.old) }
    {
        self.tokens.push(token)?;
        self.joined = self.joined || self.near;
        self.near = false;
        Ok(())
    }

    fn put_word(&mut self, word: &'t [u8]) -> Result<(), NoMemory>
        ensures { OnOk result (self.new ≡ record (row_with (Token.Word word.now) self.old) { near = length self.old.tokens == 0 }) }
    {
        let is_first = self.tokens.len() == 0;
        self.put(Token::Word(Part::there(word)))?;
        self.near = is_first;
        Ok(())
    }

    /// An opening parenthesis joins no word.
    fn put_open(&mut self) -> Result<(), NoMemory>
        ensures { OnOk result (self.new ≡ record (row_with Token.Open self.old) { joined = self.old.joined }) }
    {
        let joined = self.joined;
        self.put(Token::Open)?;
        self.joined = joined;
        Ok(())
    }

    /// Takes a quoted name, behind its first quote.
    fn take_quoted(&mut self, alloc: Global, text: &'t [u8]) -> Result<&'t [u8], NoMemory>
        requires { list_all is_printable text.now ≡ true }
        ensures { IfOk result (λ rest. Takes (39 ∷ text.now) self.old rest.now self.new) }
    {
        let (name, quote) = quoted(alloc, text)?;
        let Some((_, behind)) = quote.split_first() else {
            self.put(Token::Stray)?;
            return Ok(quote);
        };
        self.put(Token::Name(name))?;
        Ok(behind)
    }

    /// Takes a hexadecimal name, behind its X and first quote.
    fn take_hexed(&mut self, alloc: Global, text: &'t [u8]) -> Result<&'t [u8], NoMemory>
        requires { list_all is_printable text.now ≡ true }
        ensures { IfOk result (λ rest. Takes (88 ∷ 39 ∷ text.now) self.old rest.now self.new) }
    {
        let (digits, quote) = split_at_quote(text);
        let Some((_, behind)) = quote.split_first() else {
            self.put(Token::Stray)?;
            return Ok(quote);
        };
        let token = hex_token(alloc, digits)?;
        self.put(token)?;
        Ok(behind)
    }

    /// Takes a word, a hexadecimal name, or a byte that begins no token.
    fn take_word(
        &mut self,
        alloc: Global,
        b: u8,
        text: &'t [u8],
        tail: &'t [u8],
    ) -> Result<&'t [u8], NoMemory>
        requires front { text.now ≡ b ∷ tail.now }
        requires printable { list_all is_printable text.now ≡ true }
        requires other { is_mark b ≡ false }
        ensures { IfOk result (λ rest. Takes text.now self.old rest.now self.new) }
    {
        let (word, rest) = split_word(text);
        if word.is_empty() {
            self.put(Token::Stray)?;
            return Ok(tail);
        }
        if begins_hexed(word, rest) {
            return self.take_hexed(alloc, &rest[1..]);
        }
        self.put_word(word)?;
        Ok(rest)
    }

    /// Takes a blank, a sign or a slash.
    #[tactic(auto, unfolding(crate::specs::Rows::after_mark))]
    fn take_mark(&mut self, b: u8) -> Result<(), NoMemory>
        ensures { OnOk result (self.new ≡ after_mark b self.old) }
    {
        match b {
            b' ' => {
                self.near = false;
                Ok(())
            }
            b'(' => self.put_open(),
            b')' => self.put(Token::Close),
            b',' => self.put(Token::Comma),
            b'=' => self.put(Token::Equals),
            _ => self.put(Token::Stray),
        }
    }

    /// Takes a piece that begins with this byte, and is no comment.
    fn take_piece(
        &mut self,
        alloc: Global,
        b: u8,
        text: &'t [u8],
        tail: &'t [u8],
    ) -> Result<&'t [u8], NoMemory>
        requires front { text.now ≡ b ∷ tail.now }
        requires printable { list_all is_printable text.now ≡ true }
        requires comment { (b == 47 && begins 42 tail.now) ≡ false }
        ensures { IfOk result (λ rest. Takes text.now self.old rest.now self.new) }
    {
        if b == b'\'' {
            return self.take_quoted(alloc, tail);
        }
        if is_single(b) {
            self.take_mark(b)?;
            return Ok(tail);
        }
        self.take_word(alloc, b, text, tail)
    }
}

/// Reads a line on which no comment stands open.
fn read_apart<'t>(alloc: Global, at: u32, text: &'t [u8]) -> Result<ScannedLine<'t>, NoMemory>
    requires { list_all is_printable text.now ≡ true }
    ensures { IfOk result (λ row. IsRow at None text.now row) }
{
    let mut row = ScannedLine::with_room(alloc)?;
    let mut rest = text;
    while let Some((b, tail)) = rest.split_first() {
        if let [b'/', b'*', inside @ ..] = rest {
            row.near = false;
            match behind_comment(inside) {
                Some(behind) => rest = behind,
                None => {
                    row.begun = Some(at);
                    return Ok(row);
                }
            }
        } else {
            rest = row.take_piece(alloc, *b, rest, tail)?;
        }
    }
    Ok(row)
}

/// Reads a line on which a comment stands open, or none.
pub(crate) fn read_row<'t>(
    alloc: Global,
    at: u32,
    begun: Option<u32>,
    text: &'t [u8],
) -> Result<ScannedLine<'t>, NoMemory>
    requires { list_all is_printable text.now ≡ true }
    ensures { IfOk result (λ row. IsRow at begun text.now row) }
{
    if begun.is_none() {
        return read_apart(alloc, at, text);
    }
    match behind_comment(text) {
        Some(behind) => read_apart(alloc, at, behind),
        None => Ok(ScannedLine::new(alloc, begun)),
    }
}
