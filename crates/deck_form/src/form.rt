//! The statement of a line: by its first word before SCHEDULE, an event behind it.
ghost use Rattle.std.specs.Prelude.{◌≡◌, true, Option};
ghost use Rattle.deck_scan.specs.Next.{Reads};
ghost use Rattle.deck_form.specs.Form.{plain_form, first_form, event_form, form, line_key, key, or_bad};
ghost use Rattle.deck_form.specs.Spelled.{Answers};
ghost use Rattle.deck_form.specs.declared.form.Stmt.{Stmt as StmtValue};

use crate::command::{Command, command_at};
use crate::complex::{Setup, complex_at};
use crate::event::{EventAct, event_at, event_of};
use crate::words::named_at;
use deck_scan::{GivenName, Miss, PlainLine, Token, TokenLine, end_at};
use grs_base::Kind;
use job_syntax::{LineAsk, LineWord, line_ask_at, line_word_of};
use rnl_syntax::{Rnldef, is_rnldef_word, rnldef_at};

/// A statement, with names of any length.
#[derive(Drop)]
pub enum Stmt<'t> {
    /// The settings of the complex.
    Complex(Setup),
    /// An entry of a name list.
    Rnldef(Rnldef<'t>),
    /// The name of a system.
    System(GivenName<'t>),
    /// The name of a job.
    Job(GivenName<'t>),
    /// The name of a task.
    Task(GivenName<'t>),
    /// What a task is to ask, to wait for or to show.
    Line(LineAsk<'t>),
    /// What is commanded at the desk of a system.
    Command(Command<'t>),
    /// Every line behind it is an event.
    Schedule,
    /// What a system does next.
    Event {
        system: GivenName<'t>,
        act: EventAct<'t>,
    },
}

/// The words with which statements begin.
#[derive(Clone, Copy)]
pub enum Key {
    Complex,
    Rnldef,
    System,
    Job,
    Task,
    Line(LineWord),
    At,
    Schedule,
    Unknown,
}

/// What is read, or BadOperand.
fn or_bad<'a>(read: Result<Stmt<'a>, Miss>) -> Result<Stmt<'a>, Kind>
    ensures { (x : Option StmtValue) → Reads (λ y. y) read.entry x → result ≡ or_bad x }
{
    match read {
        Ok(st) => Ok(st),
        Err(Miss) => Err(Kind::BadOperand),
    }
}

fn line_key(line_word: Option<LineWord>) -> Key
    ensures { result ≡ line_key line_word }
{
    match line_word {
        None => Key::Unknown,
        Some(line_word) => Key::Line(line_word),
    }
}

#[tactic(auto, unfolding(crate::specs::Form::key))]
fn key_of(w: &[u8]) -> Key
    ensures { result ≡ key w.now }
{
    if w == b"COMPLEX".as_slice() {
        Key::Complex
    } else if is_rnldef_word(w) {
        Key::Rnldef
    } else if w == b"SYSTEM".as_slice() {
        Key::System
    } else if w == b"JOB".as_slice() {
        Key::Job
    } else if w == b"TASK".as_slice() {
        Key::Task
    } else if w == b"AT".as_slice() {
        Key::At
    } else if w == b"SCHEDULE".as_slice() {
        Key::Schedule
    } else {
        line_key(line_word_of(w))
    }
}

/// What stands behind the first word.
#[tactic(auto, unfolding(crate::specs::Form::plain_form))]
fn plain_form<'a, 't>(key: Key, ts: &'a [Token<'t>]) -> Result<Stmt<'a>, Miss>
    ensures { Reads (λ x. x) result (plain_form key ts.now) }
{
    match key {
        Key::Complex => Ok(Stmt::Complex(complex_at(ts)?)),
        Key::Rnldef => Ok(Stmt::Rnldef(rnldef_at(ts)?)),
        Key::System => Ok(Stmt::System(named_at(ts)?)),
        Key::Job => Ok(Stmt::Job(named_at(ts)?)),
        Key::Task => Ok(Stmt::Task(named_at(ts)?)),
        Key::Line(line_word) => Ok(Stmt::Line(line_ask_at(line_word, ts)?)),
        Key::At => Ok(Stmt::Command(command_at(ts)?)),
        Key::Schedule => {
            end_at(ts)?;
            Ok(Stmt::Schedule)
        }
        Key::Unknown => Err(Miss),
    }
}

/// A statement before SCHEDULE. A word that something else stands directly behind is no statement word.
#[tactic(auto, unfolding(crate::specs::Form::first_form))]
fn first_form<'a, 't>(joined: bool, ts: &'a [Token<'t>]) -> Result<Stmt<'a>, Kind>
    ensures { result ≡ first_form joined ts.now }
{
    if joined {
        return Err(Kind::UnknownStatement);
    }
    match ts.split_first() {
        Some((Token::Word(w), rest)) => match key_of(w.bytes()) {
            Key::Unknown => Err(Kind::UnknownStatement),
            key => or_bad(plain_form(key, rest)),
        },
        Some((Token::Unclosed, _)) => Err(Kind::BadOperand),
        _ => Err(Kind::UnknownStatement),
    }
}

/// An event line.
#[tactic(auto, unfolding(crate::specs::Form::event_form))]
fn event_form<'a, 't>(entries: u32, ts: &'a [Token<'t>]) -> Result<Stmt<'a>, Miss>
    ensures { Reads (λ x. x) result (event_form entries ts.now) }
{
    let (system, act) = event_at(entries, ts)?;
    Ok(Stmt::Event { system, act })
}

/// What is read of a line.
#[tactic(auto, unfolding(crate::specs::Form::form))]
fn read_form<'a, 't>(
    scheduled: bool,
    entries: u32,
    line: &'a TokenLine<'t>,
) -> Result<Stmt<'a>, Kind>
    ensures { result ≡ form scheduled entries line.now }
{
    let ts = line.tokens.as_slice();
    if scheduled {
        or_bad(event_form(entries, ts))
    } else {
        first_form(line.joined, ts)
    }
}

/// The statement that a line spells, before SCHEDULE or behind it (`scheduled`), in a deck with so many
/// lock `entries`, which bound the entry that an event names. Before SCHEDULE the line
/// `ENQ (PAYROLL,MASTER,E,SYSTEM)` is a [`Stmt::Line`], and behind it the line `SYA TASK J1.T1` is a
/// [`Stmt::Event`]; no line is both.
///
/// A line before SCHEDULE whose first word is no statement word is `UnknownStatement`; any other
/// line that spells no statement is `BadOperand`.
pub fn statement<'a, 't>(
    scheduled: bool,
    entries: u32,
    line: &'a TokenLine<'t>,
) -> Result<Stmt<'a>, Kind>
    ensures exact { Answers result scheduled entries line.now }
    ensures read { result ≡ form scheduled entries line.now }
{
    read_form(scheduled, entries, line)
}

/// The event that a plain line spells behind SCHEDULE.
#[tactic(auto, unfolding(crate::specs::Form::event_form))]
fn plain_event<'t>(entries: u32, line: &PlainLine<'t>) -> Result<Stmt<'t>, Miss>
    ensures { Reads (λ x. x) result (event_form entries line.now.tokens) }
{
    let (system, word, operand) = line.words();
    let (system, act) = event_of(entries, system, word, operand)?;
    Ok(Stmt::Event { system, act })
}

#[tactic(auto, unfolding(crate::specs::Form::form))]
fn read_plain<'t>(entries: u32, line: &PlainLine<'t>) -> Result<Stmt<'t>, Kind>
    ensures { result ≡ form true entries line.now }
{
    or_bad(plain_event(entries, line))
}

/// The event that a plain line spells behind SCHEDULE, in a deck with so many lock `entries`: what [`statement`] says of
/// this line, also its fault, `BadOperand`.
pub fn plain_statement<'t>(entries: u32, line: &PlainLine<'t>) -> Result<Stmt<'t>, Kind>
    ensures exact { Answers result true entries line.now }
    ensures read { result ≡ form true entries line.now }
{
    read_plain(entries, line)
}
