//! Task lines, by their first words. It knows the forms, and not which names have the right length.
ghost use Rattle.std.specs.Prelude.{◌≡◌};
ghost use Rattle.deck_scan.specs.Next.{Reads};
ghost use Rattle.job_syntax.specs.LineAsk.{line_word, line_ask_at};
ghost use Rattle.job_syntax.specs.Spelled.{Answers};

use crate::ask::{EnqAsk, ResAsk, deq_at, enq_at, reserve_at, wait_at};
use crate::display::{ScanAsk, Shown, display_at, scan_at};
use deck_scan::{Miss, Token};

/// What a task line says, with names of any length.
#[derive(Drop)]
pub enum LineAsk<'t> {
    /// No unit stands.
    Enq(EnqAsk<'t>),
    /// The scope is SYSTEMS, and a unit stands.
    Reserve(EnqAsk<'t>),
    Deq(ResAsk<'t>),
    Wait(ResAsk<'t>),
    Gqscan(ScanAsk<'t>),
    Display(Shown<'t>),
}

/// The words with which task lines begin. `D` is `Display` too.
#[derive(Clone, Copy, Debug, PartialEq, Eq)]
pub enum LineWord {
    Enq,
    Reserve,
    Deq,
    Wait,
    Gqscan,
    Display,
}

/// Which word of a task line this is, or none.
#[tactic(auto, unfolding(crate::specs::LineAsk::line_word))]
pub fn line_word_of(w: &[u8]) -> Option<LineWord>
    ensures { result ≡ line_word w.now }
{
    if w == b"ENQ".as_slice() {
        Some(LineWord::Enq)
    } else if w == b"RESERVE".as_slice() {
        Some(LineWord::Reserve)
    } else if w == b"DEQ".as_slice() {
        Some(LineWord::Deq)
    } else if w == b"WAIT".as_slice() {
        Some(LineWord::Wait)
    } else if w == b"GQSCAN".as_slice() {
        Some(LineWord::Gqscan)
    } else if w == b"DISPLAY".as_slice() {
        Some(LineWord::Display)
    } else if w == b"D".as_slice() {
        Some(LineWord::Display)
    } else {
        None
    }
}

/// What stands behind the first word, by that word.
#[tactic(auto, unfolding(crate::specs::LineAsk::line_ask_at))]
fn by_line_word<'a, 't>(line_word: LineWord, ts: &'a [Token<'t>]) -> Result<LineAsk<'a>, Miss>
    ensures { Reads (λ x. x) result (line_ask_at line_word ts.now) }
{
    match line_word {
        LineWord::Enq => Ok(LineAsk::Enq(enq_at(ts)?)),
        LineWord::Reserve => Ok(LineAsk::Reserve(reserve_at(ts)?)),
        LineWord::Deq => Ok(LineAsk::Deq(deq_at(ts)?)),
        LineWord::Wait => Ok(LineAsk::Wait(wait_at(ts)?)),
        LineWord::Gqscan => Ok(LineAsk::Gqscan(scan_at(ts)?)),
        LineWord::Display => Ok(LineAsk::Display(display_at(ts)?)),
    }
}

/// What the tokens behind the first word of a task line say. Behind `WAIT` the tokens of `(A,B,STEP)` say that a task
/// waits for control of the resource `A`, `B` of its step, and those of `(A,B)` are a `Miss`.
pub fn line_ask_at<'a, 't>(line_word: LineWord, ts: &'a [Token<'t>]) -> Result<LineAsk<'a>, Miss>
    ensures exact { Answers result line_word ts.now }
    ensures read { Reads (λ x. x) result (line_ask_at line_word ts.now) }
{
    by_line_word(line_word, ts)
}
