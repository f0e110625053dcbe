//! Commands at the desk of a system: about when, and what is commanded.
ghost use Rattle.deck_scan.specs.Next.{Reads};
ghost use Rattle.deck_form.specs.Command.{setgrs_at, vary_at, order_at, command_at};

use crate::words::{short_at, written_number};
use deck_scan::{
    GivenName, Miss, Token, any_word_at, close_at, comma_at, end_at, open_at, value_at, word_at,
};

/// What is commanded, with a name of any length. (z/OS MVS System Commands, "SETGRS" and "VARY GRS".)
#[derive(Drop)]
pub enum GivenOrder<'t> {
    /// SETGRS MODE=STAR: the complex changes to star mode.
    Star,
    /// VARY GRS(system),PURGE: this system is removed.
    Vary(GivenName<'t>),
}

/// A command at the desk of a system.
#[derive(Drop)]
pub struct Command<'t> {
    /// About how many events the system makes before.
    pub at: u32,
    /// What is commanded.
    pub order: GivenOrder<'t>,
}

/// MODE=STAR, and nothing after it.
#[tactic(auto, unfolding(crate::specs::Command::setgrs_at))]
fn setgrs_at<'a>(ts: &[Token<'_>]) -> Result<GivenOrder<'a>, Miss>
    ensures { Reads (λ x. x) result (setgrs_at ts.now) }
{
    let ts = word_at(b"MODE", ts)?;
    let (mode, ts) = value_at(ts)?;
    end_at(ts)?;
    if mode == b"STAR".as_slice() {
        Ok(GivenOrder::Star)
    } else {
        Err(Miss)
    }
}

/// GRS with a name in parentheses, a comma and PURGE, and nothing after it.
#[tactic(auto, unfolding(crate::specs::Command::vary_at))]
fn vary_at<'a, 't>(ts: &'a [Token<'t>]) -> Result<GivenOrder<'a>, Miss>
    ensures { Reads (λ x. x) result (vary_at ts.now) }
{
    let ts = word_at(b"GRS", ts)?;
    let ts = open_at(ts)?;
    let (name, ts) = short_at(ts)?;
    let ts = close_at(ts)?;
    let ts = comma_at(ts)?;
    let ts = word_at(b"PURGE", ts)?;
    end_at(ts)?;
    Ok(GivenOrder::Vary(name))
}

/// What stands behind the word of a command.
#[tactic(auto, unfolding(crate::specs::Command::order_at))]
fn order_at<'a, 't>(word: &[u8], ts: &'a [Token<'t>]) -> Result<GivenOrder<'a>, Miss>
    ensures { Reads (λ x. x) result (order_at word.now ts.now) }
{
    if word == b"SETGRS".as_slice() {
        setgrs_at(ts)
    } else if word == b"VARY".as_slice() {
        vary_at(ts)
    } else {
        Err(Miss)
    }
}

/// A number and a command.
#[tactic(auto, unfolding(crate::specs::Command::command_at))]
pub fn command_at<'a, 't>(ts: &'a [Token<'t>]) -> Result<Command<'a>, Miss>
    ensures { Reads (λ x. x) result (command_at ts.now) }
{
    let (w, ts) = any_word_at(ts)?;
    let at = written_number(w)?;
    let (word, ts) = any_word_at(ts)?;
    let order = order_at(word, ts)?;
    Ok(Command { at, order })
}
