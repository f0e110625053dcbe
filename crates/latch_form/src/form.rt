//! The call that a line spells: by its first word, then the name of a set, then what is asked of it.
ghost use Rattle.std.specs.Prelude.{◌≡◌, Option};
ghost use Rattle.deck_scan.specs.Next.{Reads};
ghost use Rattle.latch_form.specs.Form.{number_at, requestor_at, ctl_at, sync_at, make_at, obtain_at, release_at, purge_at, ask_at, verb_of, call_at, formed, or_bad, form};
ghost use Rattle.latch_form.specs.declared.form.GivenCall.{GivenCall as GivenValue};

use deck_form::{short_at, written_number};
use deck_scan::{GivenName, Miss, Token, TokenLine, any_word_at, end_at};
use grs_base::{Ctl, Kind};
use grs_latch::MOST_LATCHES;

/// The greatest number of a requestor.
const MOST_REQUESTOR: u32 = 0xffff;

/// What a call asks of its set.
#[derive(Clone, Copy)]
pub enum Ask {
    /// To be made, with so many latches.
    Make(u32),
    /// A latch, and to wait for it where `sync`.
    Obtain {
        latch: u32,
        requestor: u16,
        ctl: Ctl,
        sync: bool,
    },
    /// To take a latch back.
    Release {
        latch: u32,
        requestor: u16,
    },
    /// To take every request of a requestor out.
    Purge(u16),
}

/// A call, whose set has a name of any length.
#[derive(Drop)]
pub struct GivenCall<'t> {
    pub set: GivenName<'t>,
    pub ask: Ask,
}

/// The words with which calls begin.
#[derive(Clone, Copy)]
pub enum Verb {
    Crt,
    Obt,
    Rel,
    Prg,
}

/// Takes a number.
#[tactic(auto, unfolding(crate::specs::Form::number_at))]
fn number_at<'a, 't>(ts: &'a [Token<'t>]) -> Result<(u32, &'a [Token<'t>]), Miss>
    ensures { Reads (λ x. (x.0, x.1.now)) result (number_at ts.now) }
{
    let (w, rest) = any_word_at(ts)?;
    let number = written_number(w)?;
    Ok((number, rest))
}

/// Takes the number of a requestor.
#[tactic(auto, unfolding(crate::specs::Form::requestor_at))]
fn requestor_at<'a, 't>(ts: &'a [Token<'t>]) -> Result<(u16, &'a [Token<'t>]), Miss>
    ensures { Reads (λ x. (x.0, x.1.now)) result (requestor_at ts.now) }
{
    let (number, rest) = number_at(ts)?;
    if number <= MOST_REQUESTOR {
        Ok((number as u16, rest))
    } else {
        Err(Miss)
    }
}

/// Takes E or S.
#[tactic(auto, unfolding(crate::specs::Form::ctl_at))]
fn ctl_at<'a, 't>(ts: &'a [Token<'t>]) -> Result<(Ctl, &'a [Token<'t>]), Miss>
    ensures { Reads (λ x. (x.0, x.1.now)) result (ctl_at ts.now) }
{
    let (w, rest) = any_word_at(ts)?;
    if w == b"E".as_slice() {
        Ok((Ctl::E, rest))
    } else if w == b"S".as_slice() {
        Ok((Ctl::S, rest))
    } else {
        Err(Miss)
    }
}

/// Takes SYNC or COND.
#[tactic(auto, unfolding(crate::specs::Form::sync_at))]
fn sync_at<'a, 't>(ts: &'a [Token<'t>]) -> Result<(bool, &'a [Token<'t>]), Miss>
    ensures { Reads (λ x. (x.0, x.1.now)) result (sync_at ts.now) }
{
    let (w, rest) = any_word_at(ts)?;
    if w == b"SYNC".as_slice() {
        Ok((true, rest))
    } else if w == b"COND".as_slice() {
        Ok((false, rest))
    } else {
        Err(Miss)
    }
}

/// How many latches a set is to have, and nothing behind it.
#[tactic(auto, unfolding(crate::specs::Form::make_at))]
fn make_at(ts: &[Token<'_>]) -> Result<Ask, Miss>
    ensures { Reads (λ x. x) result (make_at ts.now) }
{
    let (count, ts) = number_at(ts)?;
    end_at(ts)?;
    if 1 <= count && count <= MOST_LATCHES {
        Ok(Ask::Make(count))
    } else {
        Err(Miss)
    }
}

/// A latch, a requestor, its control and whether it may wait.
#[tactic(auto, unfolding(crate::specs::Form::obtain_at))]
fn obtain_at(ts: &[Token<'_>]) -> Result<Ask, Miss>
    ensures { Reads (λ x. x) result (obtain_at ts.now) }
{
    let (latch, ts) = number_at(ts)?;
    let (requestor, ts) = requestor_at(ts)?;
    let (ctl, ts) = ctl_at(ts)?;
    let (sync, ts) = sync_at(ts)?;
    end_at(ts)?;
    Ok(Ask::Obtain {
        latch,
        requestor,
        ctl,
        sync,
    })
}

/// A latch and a requestor.
#[tactic(auto, unfolding(crate::specs::Form::release_at))]
fn release_at(ts: &[Token<'_>]) -> Result<Ask, Miss>
    ensures { Reads (λ x. x) result (release_at ts.now) }
{
    let (latch, ts) = number_at(ts)?;
    let (requestor, ts) = requestor_at(ts)?;
    end_at(ts)?;
    Ok(Ask::Release { latch, requestor })
}

/// A requestor.
#[tactic(auto, unfolding(crate::specs::Form::purge_at))]
fn purge_at(ts: &[Token<'_>]) -> Result<Ask, Miss>
    ensures { Reads (λ x. x) result (purge_at ts.now) }
{
    let (requestor, ts) = requestor_at(ts)?;
    end_at(ts)?;
    Ok(Ask::Purge(requestor))
}

/// What is asked of a set, behind its name.
fn ask_at(verb: Verb, ts: &[Token<'_>]) -> Result<Ask, Miss>
    ensures { Reads (λ x. x) result (ask_at verb ts.now) }
{
    match verb {
        Verb::Crt => make_at(ts),
        Verb::Obt => obtain_at(ts),
        Verb::Rel => release_at(ts),
        Verb::Prg => purge_at(ts),
    }
}

/// The verb of a word.
fn verb_of(w: &[u8]) -> Option<Verb>
    ensures { result ≡ verb_of w.now }
{
    if w == b"CRT".as_slice() {
        Some(Verb::Crt)
    } else if w == b"OBT".as_slice() {
        Some(Verb::Obt)
    } else if w == b"REL".as_slice() {
        Some(Verb::Rel)
    } else if w == b"PRG".as_slice() {
        Some(Verb::Prg)
    } else {
        None
    }
}

/// What stands behind the first word.
#[tactic(auto, unfolding(crate::specs::Form::call_at))]
fn call_at<'a, 't>(verb: Verb, ts: &'a [Token<'t>]) -> Result<GivenCall<'a>, Miss>
    ensures { Reads (λ x. x) result (call_at verb ts.now) }
{
    let (set, ts) = short_at(ts)?;
    let ask = ask_at(verb, ts)?;
    Ok(GivenCall { set, ask })
}

/// What is read, or BadOperand.
fn or_bad<'a>(read: Result<GivenCall<'a>, Miss>) -> Result<GivenCall<'a>, Kind>
    ensures { (x : Option GivenValue) → Reads (λ y. y) read.entry x → result ≡ or_bad x }
{
    match read {
        Ok(call) => Ok(call),
        Err(Miss) => Err(Kind::BadOperand),
    }
}

/// The call behind a first word.
fn formed<'a, 't>(verb: Option<Verb>, ts: &'a [Token<'t>]) -> Result<GivenCall<'a>, Kind>
    ensures { result ≡ formed verb ts.now }
{
    match verb {
        Some(verb) => or_bad(call_at(verb, ts)),
        None => Err(Kind::UnknownStatement),
    }
}

/// The call that a line spells. A line that doesn't begin with a word of a call is `UnknownStatement`, and so is one on
/// which a token other than an opening parenthesis stands directly behind that word; any other line that spells none is
/// `BadOperand`, a comment that isn't closed among them.
#[tactic(auto, unfolding(crate::specs::Form::form))]
pub fn call_of<'a, 't>(line: &'a TokenLine<'t>) -> Result<GivenCall<'a>, Kind>
    ensures { result ≡ form line.now }
{
    if line.joined {
        return Err(Kind::UnknownStatement);
    }
    match line.tokens.as_slice().split_first() {
        Some((Token::Word(w), rest)) => formed(verb_of(w.bytes()), rest),
        Some((Token::Unclosed, _)) => Err(Kind::BadOperand),
        _ => Err(Kind::UnknownStatement),
    }
}
