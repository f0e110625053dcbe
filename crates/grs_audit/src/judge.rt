//! The verdict on a text that should be a report.
ghost use Rattle.std.specs.Prelude.{◌≡◌, ◌≤◌, ◌+◌, length, IfOk};
ghost use Rattle.grs_wire.specs.Decks.{IsDeck};
ghost use Rattle.grs_audit.specs.Lines.{lines_in, most_lines};
ghost use Rattle.grs_audit.specs.Verdicts.{IsVerdict};

use super::head::{Found, find_head};
use super::verdict::Verdict;
use super::walk::walk;
use grs_base::NoMemory;
use grs_wire::Deck;
use std::alloc::Global;

/// Whether a text has the history of a deck: Yes where the lines behind its first line `HISTORY n`, n a number without a
/// leading zero, are those of a legal history of n entries, and then `TOLD`; what stands before that line and behind TOLD
/// isn't judged. Else No, with the first line that can't stand where it stands; or with the number behind the last line,
/// where the text ends too early or has no such first line. `first` is the number of the text's first line. A line ends
/// with a byte 10, which the last one may lack.
pub fn audit(alloc: Global, deck: &Deck, text: &[u8], first: u32) -> Result<Verdict, NoMemory>
    requires deck { IsDeck deck.now }
    requires few { first + length (lines_in text.now) ≤ most_lines }
    ensures { IfOk result (λ v. IsVerdict deck.now text.now first v) }
{
    match find_head(text) {
        Found::At { place, count, rest } => match walk(alloc, deck, count, rest)? {
            Some(lines) => Ok(Verdict::No {
                line: first + (place + 1 + lines) as u32,
            }),
            None => Ok(Verdict::Yes),
        },
        Found::Nowhere { lines } => Ok(Verdict::No {
            line: first + lines as u32,
        }),
    }
}
