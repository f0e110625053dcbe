//! Reads the line of a task from a text of its own.
ghost use Rattle.grs_base.specs.declared.line.Line.{Line as LineValue};
ghost use Rattle.deck_scan.specs.Gives.{Gives, IsOkUnlessMemory};
ghost use Rattle.job_syntax.specs.Reading.{line_ask_by, line_ask_on, sized_alone, one_line, SpellsLine, Answers};

use crate::line::{has_bad_name, line_of};
use crate::line_ask::{LineAsk, LineWord, line_ask_at, line_word_of};
use deck_scan::{Lines, Token, TokenLine, or_bad, refused};
use grs_base::{Kind, Line, ReadError};
use std::alloc::Global;

fn line_ask_by<'a, 't>(
    at: u32,
    line_word: Option<LineWord>,
    ts: &'a [Token<'t>],
) -> Result<LineAsk<'a>, ReadError>
    ensures { Gives result (line_ask_by at line_word ts.now) }
{
    match line_word {
        None => Err(refused(at, Kind::UnknownStatement)),
        Some(line_word) => or_bad(at, line_ask_at(line_word, ts)),
    }
}

/// What a line says.
#[tactic(auto, unfolding(crate::specs::Reading::line_ask_on))]
fn line_ask_on<'a, 't>(line: &'a TokenLine<'t>) -> Result<LineAsk<'a>, ReadError>
    ensures { Gives result (line_ask_on line.now) }
{
    if line.joined {
        return Err(refused(line.at, Kind::UnknownStatement));
    }
    match line.tokens.as_slice().split_first() {
        Some((Token::Word(w), rest)) => line_ask_by(line.at, line_word_of(w.bytes()), rest),
        Some((Token::Unclosed, _)) => Err(refused(line.at, Kind::BadOperand)),
        _ => Err(refused(line.at, Kind::UnknownStatement)),
    }
}

/// The line that a task line makes which stands alone. Of what stands behind it at most the next line is read.
fn alone(
    alloc: Global,
    at: u32,
    line_ask: &LineAsk<'_>,
    behind: &mut Lines<'_>,
) -> Result<Line, ReadError>
    ensures { Gives result (sized_alone at line_ask.now behind.old) }
{
    if has_bad_name(line_ask) {
        return Err(refused(at, Kind::NameLength));
    }
    match behind.next(alloc)? {
        Some(next) => Err(refused(next.at, Kind::BadOperand)),
        None => Ok(line_of(alloc, line_ask)?),
    }
}

#[tactic(auto, unfolding(crate::specs::Reading::one_line))]
fn one_line(alloc: Global, lines: &mut Lines<'_>) -> Result<Line, ReadError>
    ensures { Gives result (one_line lines.old) }
{
    match lines.next(alloc)? {
        None => Err(refused(1, Kind::UnknownStatement)),
        Some(line) => {
            let line_ask = line_ask_on(&line)?;
            alone(alloc, line.at, &line_ask, lines)
        }
    }
}

/// The line of a task that a text spells, or the fault of the text, whose lines count from 1. Of
///
///     ENQ (PAYROLL,'it''s',E,SYSTEM),RNL=NO,RET=USE     /* options in any order */
///
/// it makes an ENQ of one resource, with the qname `PAYROLL` and the rname `it's`, exclusive, of scope
/// SYSTEM, with RET=USE, past the name lists.
///
/// The fault is `UnknownStatement` where the text has no statement (on line 1), or its first word begins no
/// task line; `BadOperand` where its form is another, and for a further statement behind a first one without
/// fault, on the line where that begins; `NameLength` where a name is too short or too long. The text has no
/// limit of its own, and a byte that no deck may have is part of no statement: where it stands in the first
/// word or before it the text is `UnknownStatement`, and else `BadOperand`. Want of memory is `NoMemory`.
pub fn read_line(alloc: Global, text: &[u8]) -> Result<Line, ReadError>
    // What is read is spelled so; a fault is the text's.
    ensures exact { Answers result text.now }
    // What is spelled so is read, unless memory runs out.
    ensures only { (l : LineValue) → SpellsLine text.now l → IsOkUnlessMemory result l }
{
    let mut lines = Lines::of_any(text);
    one_line(alloc, &mut lines)
}
