//! The tokens of a deck, line by line.
ghost use Rattle.std.specs.Prelude.{◌≡◌};

use grs_base::List;
use std::marker::Model;

/// What a line is made of, once its blanks and comments are gone.
#[derive(Drop)]
pub enum Token<'t> {
    /// Bytes of the plain form (letters, digits, `$ # @ . _ - * ?`), as many as stand together.
    Word(Part<'t>),
    /// The bytes of a quoted or hexadecimal name, of which there may be none.
    Name(Part<'t>),
    /// `(`
    Open,
    /// `)`
    Close,
    /// `,`
    Comma,
    /// `=`
    Equals,
    /// What is no token: a byte that begins none, a quote that is not closed on its line, a
    /// hexadecimal name that is not closed or whose digits are wrong.
    Stray,
    /// A comment that is not closed. It is the only token of its line, the last of all lines.
    Unclosed,
}

/// A line with at least one token, or the begin of a comment that is not closed.
#[derive(Drop)]
pub struct TokenLine<'t> {
    /// The number of the line in the text, from 1.
    pub at: u32,
    /// At least one.
    pub tokens: List<Token<'t>>,
    /// Whether the line begins with a word and another token but `(` stands directly behind it, so
    /// that its text up to the next blank, `(` or end of the line is more than that word.
    pub joined: bool,
}

/// Bytes of a text, as they stand in it or made, seen as the bytes.
#[derive(Drop)]
pub struct Part<'t> {
    kept: Kept<'t>,
}

#[derive(Drop)]
pub(crate) enum Kept<'t> {
    There(&'t [u8]),
    Made(List<u8>),
}

impl<'t> Model for Part<'t> {
    ghost use Rattle.std.specs.Prelude.{List, ℕ};
    ghost use Rattle.deck_scan.specs.Part.{part_bytes};

    ghost Value = { List ℕ };

    ghost view = { λ a. part_bytes a.kept };
}

impl<'t> Part<'t> {
    /// Bytes as they stand in a text.
    pub fn there(bytes: &'t [u8]) -> Self
        ensures { result ≡ bytes.now }
    {
        Part {
            kept: Kept::There(bytes),
        }
    }

    /// Bytes that were made.
    pub fn made(bytes: List<u8>) -> Self
        ensures { result ≡ bytes }
    {
        Part {
            kept: Kept::Made(bytes),
        }
    }

    /// The bytes.
    pub fn bytes(&self) -> &[u8]
        ensures { result.now ≡ self.now }
    {
        match &self.kept {
            Kept::There(bytes) => *bytes,
            Kept::Made(bytes) => bytes.as_slice(),
        }
    }
}
