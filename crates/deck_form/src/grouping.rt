//! Which lines make a statement. Each line is one, but that an RNLDEF may go over several.
ghost use Rattle.std.specs.Prelude.{◌≡◌, Some, IfOk, IfSome, IfNone};
ghost use Rattle.deck_scan.specs.Rows.{Next};
ghost use Rattle.deck_form.specs.Statements.{is_schedule, statements};

use deck_scan::{Lines, PlainLine, Token, TokenLine};
use grs_base::NoMemory;
use rnl_syntax::gather;
use std::alloc::Global;
use std::marker::Model;

/// Whether a line is SCHEDULE.
fn is_schedule(ts: &[Token<'_>]) -> bool
    ensures { result ≡ is_schedule ts.now }
{
    match ts.split_first() {
        Some((Token::Word(w), rest)) => { rest.len() == 0 && w.bytes() == b"SCHEDULE".as_slice() }
        _ => false,
    }
}

/// The statements of lines in order, each as one line with the number of its first. One is gathered when it is asked
/// for. Contracts see those that are still to come.
#[derive(Drop)]
pub struct Statements<'t> {
    lines: Lines<'t>,
    /// Whether SCHEDULE was among the statements.
    scheduled: bool,
}

impl<'t> Model for Statements<'t> {
    ghost use Rattle.std.specs.Prelude.{List};
    ghost use Rattle.deck_scan.specs.declared.token.TokenLine.{TokenLine as LineValue};
    ghost use Rattle.deck_form.specs.Statements.{still};

    ghost Value = { List LineValue };

    ghost view = { λ a. still a.scheduled a.lines };
}

impl<'t> Statements<'t> {
    /// The statements of these lines.
    #[tactic(auto, unfolding(crate::specs::Statements::still))]
    pub fn new(lines: Lines<'t>) -> Self
        ensures { result ≡ statements lines.entry }
    {
        Statements {
            lines,
            scheduled: false,
        }
    }

    /// The next statement, where it stands behind SCHEDULE and is a line that [`Lines::next_plain`] takes.
    pub fn next_plain(&mut self) -> Option<PlainLine<'t>>
        ensures next { IfSome result (λ line. Next (Some line) self.old self.new) }
        ensures same { IfNone result (self.new ≡ self.old) }
    {
        if self.scheduled {
            self.lines.next_plain()
        } else {
            None
        }
    }

    /// The next statement, or none where no statement is to come.
    pub fn next(&mut self, alloc: Global) -> Result<Option<TokenLine<'t>>, NoMemory>
        ensures { IfOk result (λ statement. Next statement self.old self.new) }
    {
        let Some(first) = self.lines.next(alloc)? else {
            return Ok(None);
        };
        if self.scheduled {
            return Ok(Some(first));
        }
        if is_schedule(first.tokens.as_slice()) {
            self.scheduled = true;
            return Ok(Some(first));
        }
        Ok(Some(gather(alloc, first, &mut self.lines)?))
    }
}
