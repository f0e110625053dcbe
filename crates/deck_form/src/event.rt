//! Event lines: a system, what it does, and on what.
ghost use Rattle.std.specs.Prelude.{◌≡◌, ℕ, [], ◌∷◌};
ghost use Rattle.deck_scan.specs.declared.token.Token.TheVariants.{Word};
ghost use Rattle.deck_scan.specs.Next.{Reads};
ghost use Rattle.deck_scan.specs.Plain.{third_token, plain_tokens};
ghost use Rattle.deck_form.specs.Words.{named_at};
ghost use Rattle.deck_form.specs.Event.{event_word, pair_at, entry_at, act_at, event_at, ReadsOperand};

use crate::words::{is_name, parted, written_number};
use deck_scan::{GivenName, Miss, Token, any_word_at, end_at};

/// What a system does at an event, with names of any length.
#[derive(Drop)]
pub enum EventAct<'t> {
    /// A task of it goes on.
    Task {
        job: GivenName<'t>,
        task: GivenName<'t>,
    },
    /// It takes its turn at the message.
    Turn,
    /// A request of a task of it is sent to the manager of its lock entry.
    Send {
        job: GivenName<'t>,
        task: GivenName<'t>,
    },
    /// It takes the first mail of its inbox.
    Take,
    /// It settles the first request that it has taken from another system.
    Settle,
    /// An owner of another system in this lock entry, which is below the deck's number of them, is told control.
    Tell(u32),
    /// It sends what it has on record of this lock entry, which is below the deck's number of them, to the entry's new manager.
    Part(u32),
    /// It gives up its interest in this lock entry, which is below the deck's number of them.
    Leave(u32),
    /// It changes the complex to star mode.
    Switch,
    /// It removes this system.
    Purge(GivenName<'t>),
    /// It comes to rest.
    Rest,
}

/// The words of events.
#[derive(Clone, Copy)]
pub enum EventWord {
    Task,
    Turn,
    Send,
    Take,
    Settle,
    Tell,
    Part,
    Leave,
    Switch,
    Purge,
    Rest,
    Unknown,
}

#[tactic(auto, unfolding(crate::specs::Event::event_word))]
fn event_word_of(w: &[u8]) -> EventWord
    ensures { result ≡ event_word w.now }
{
    if w == b"TASK".as_slice() {
        EventWord::Task
    } else if w == b"TURN".as_slice() {
        EventWord::Turn
    } else if w == b"SEND".as_slice() {
        EventWord::Send
    } else if w == b"TAKE".as_slice() {
        EventWord::Take
    } else if w == b"SETTLE".as_slice() {
        EventWord::Settle
    } else if w == b"TELL".as_slice() {
        EventWord::Tell
    } else if w == b"PART".as_slice() {
        EventWord::Part
    } else if w == b"LEAVE".as_slice() {
        EventWord::Leave
    } else if w == b"SWITCH".as_slice() {
        EventWord::Switch
    } else if w == b"PURGE".as_slice() {
        EventWord::Purge
    } else if w == b"REST".as_slice() {
        EventWord::Rest
    } else {
        EventWord::Unknown
    }
}

/// The name of a system, of any length.
#[tactic(auto, unfolding(crate::specs::Words::named_at, crate::specs::Words::short_at))]
fn name_of<'t>(word: &'t [u8]) -> Result<GivenName<'t>, Miss>
    ensures { Reads (λ x. x) result (named_at (Word word.now ∷ [])) }
{
    if is_name(word) {
        Ok(GivenName::new(word))
    } else {
        Err(Miss)
    }
}

/// The names of a job and a task with a point between them.
#[tactic(auto, unfolding(crate::specs::Event::pair_at, crate::specs::Words::dotted_at))]
fn pair_of<'t>(word: &'t [u8]) -> Result<(GivenName<'t>, GivenName<'t>), Miss>
    ensures { Reads (λ x. x) result (pair_at (Word word.now ∷ [])) }
{
    parted(word)
}

/// An entry below the number of entries.
#[tactic(auto, unfolding(crate::specs::Event::entry_at))]
fn entry_of(entries: u32, word: &[u8]) -> Result<u32, Miss>
    ensures { Reads (λ x. x) result (entry_at entries (Word word.now ∷ [])) }
{
    let entry = written_number(word)?;
    if entry < entries {
        Ok(entry)
    } else {
        Err(Miss)
    }
}

/// What a system does by the word of an event with nothing behind it.
#[tactic(auto, unfolding(crate::specs::Event::act_at, crate::specs::Event::pair_at, crate::specs::Event::entry_at, crate::specs::Words::dotted_at, crate::specs::Words::named_at, crate::specs::Words::short_at))]
fn act_alone<'t>(event_word: EventWord) -> Result<EventAct<'t>, Miss>
    ensures { (entries : ℕ) → Reads (λ x. x) result (act_at entries event_word []) }
{
    match event_word {
        EventWord::Turn => Ok(EventAct::Turn),
        EventWord::Take => Ok(EventAct::Take),
        EventWord::Settle => Ok(EventAct::Settle),
        EventWord::Switch => Ok(EventAct::Switch),
        EventWord::Rest => Ok(EventAct::Rest),
        EventWord::Task => Err(Miss),
        EventWord::Send => Err(Miss),
        EventWord::Tell => Err(Miss),
        EventWord::Part => Err(Miss),
        EventWord::Leave => Err(Miss),
        EventWord::Purge => Err(Miss),
        EventWord::Unknown => Err(Miss),
    }
}

/// What a system does by the word of an event with one word behind it.
#[tactic(auto, unfolding(crate::specs::Event::act_at))]
fn act_on<'t>(entries: u32, event_word: EventWord, word: &'t [u8]) -> Result<EventAct<'t>, Miss>
    ensures { Reads (λ x. x) result (act_at entries event_word (Word word.now ∷ [])) }
{
    match event_word {
        EventWord::Task => {
            let (job, task) = pair_of(word)?;
            Ok(EventAct::Task { job, task })
        }
        EventWord::Send => {
            let (job, task) = pair_of(word)?;
            Ok(EventAct::Send { job, task })
        }
        EventWord::Tell => Ok(EventAct::Tell(entry_of(entries, word)?)),
        EventWord::Part => Ok(EventAct::Part(entry_of(entries, word)?)),
        EventWord::Leave => Ok(EventAct::Leave(entry_of(entries, word)?)),
        EventWord::Purge => Ok(EventAct::Purge(name_of(word)?)),
        EventWord::Turn => Err(Miss),
        EventWord::Take => Err(Miss),
        EventWord::Settle => Err(Miss),
        EventWord::Switch => Err(Miss),
        EventWord::Rest => Err(Miss),
        EventWord::Unknown => Err(Miss),
    }
}

/// What a system does by the word of an event, with a word behind it or none.
fn act_of<'t>(
    entries: u32,
    event_word: EventWord,
    operand: Option<&'t [u8]>,
) -> Result<EventAct<'t>, Miss>
    ensures { Reads (λ x. x) result (act_at entries event_word (third_token operand.entry)) }
{
    match operand {
        None => act_alone(event_word),
        Some(word) => act_on(entries, event_word, word),
    }
}

/// A system and what it does, by the words of an event line.
#[tactic(auto, unfolding(crate::specs::Event::event_at, crate::specs::Words::short_at))]
pub fn event_of<'t>(
    entries: u32,
    system: &'t [u8],
    word: &[u8],
    operand: Option<&'t [u8]>,
) -> Result<(GivenName<'t>, EventAct<'t>), Miss>
    ensures { Reads (λ x. x) result (event_at entries (plain_tokens system.now word.now operand.entry)) }
{
    if !is_name(system) {
        return Err(Miss);
    }
    let act = act_of(entries, event_word_of(word), operand)?;
    Ok((GivenName::new(system), act))
}

/// The word that stands behind the word of an event, or none where nothing stands there.
fn operand_at<'a, 't>(ts: &'a [Token<'t>]) -> Result<Option<&'a [u8]>, Miss>
    ensures { ReadsOperand result ts.now }
{
    if ts.is_empty() {
        return Ok(None);
    }
    let (word, rest) = any_word_at(ts)?;
    end_at(rest)?;
    Ok(Some(word))
}

/// A system and what it does.
pub fn event_at<'a, 't>(
    entries: u32,
    ts: &'a [Token<'t>],
) -> Result<(GivenName<'a>, EventAct<'a>), Miss>
    ensures { Reads (λ x. x) result (event_at entries ts.now) }
{
    let (system, front) = any_word_at(ts)?;
    let (word, behind) = any_word_at(front)?;
    let operand = operand_at(behind)?;
    event_of(entries, system, word, operand)
}
