//! Reads calls, line by line, up to the first fault.
ghost use Rattle.std.specs.Prelude.{◌≡◌, ◌≤◌, [], None, List, OnOk, IfOk};
ghost use Rattle.deck_scan.specs.Gives.{Gives, IsOkUnlessMemory};
ghost use Rattle.grs_latch.specs.Calls.{AllCome};
ghost use Rattle.grs_latch.specs.Limits.{most_sets};
ghost use Rattle.grs_latch.specs.declared.call.LatchCall.{LatchCall as CallValue};
ghost use Rattle.latch_form.specs.Faults.{Answers};
ghost use Rattle.latch_form.specs.Spelled.{SpellsCalls};
ghost use Rattle.latch_form.specs.Drafts.{call_for, no_draft, grow};
ghost use Rattle.latch_form.specs.Reading.{verdict, judge_call, judge, judge_all, reading, Took};

use crate::form::{Ask, GivenCall, call_of};
use crate::judge::{Draft, makes, verdict};
use deck_scan::{Lines, TokenLine, refused};
use grs_base::{List, NoMemory, ReadError};
use grs_latch::LatchCall;
use std::alloc::Global;

/// The call of a set of this name.
fn call_for(set: List<u8>, ask: Ask) -> LatchCall
    ensures { result ≡ call_for set ask }
{
    match ask {
        Ask::Make(count) => LatchCall::Crt { set, count },
        Ask::Obtain {
            latch,
            requestor,
            ctl,
            sync,
        } => LatchCall::Obt {
            set,
            latch,
            requestor,
            ctl,
            sync,
        },
        Ask::Release { latch, requestor } => LatchCall::Rel {
            set,
            latch,
            requestor,
        },
        Ask::Purge(requestor) => LatchCall::Prg { set, requestor },
    }
}

/// Adds a call without a fault.
fn grow(draft: &mut Draft, alloc: Global, call: &GivenCall<'_>) -> Result<(), NoMemory>
    requires few { draft.old.made ≤ most_sets }
    ensures { OnOk result (draft.new ≡ grow draft.old call.now) }
{
    let set = List::from_bytes(alloc, call.set.bytes())?;
    draft.calls.push(call_for(set, call.ask))?;
    draft.made += makes(call.ask);
    Ok(())
}

/// Takes a call.
fn take_call(
    draft: &mut Draft,
    alloc: Global,
    at: u32,
    call: &GivenCall<'_>,
) -> Result<(), ReadError>
    requires few { draft.old.made ≤ most_sets }
    ensures { Took result draft.new (judge_call draft.old at call.now) }
{
    match verdict(draft, call) {
        Some(kind) => Err(refused(at, kind)),
        None => {
            grow(draft, alloc, call)?;
            Ok(())
        }
    }
}

/// Takes a line.
#[tactic(auto, unfolding(crate::specs::Reading::judge))]
fn take_line(draft: &mut Draft, alloc: Global, line: &TokenLine<'_>) -> Result<(), ReadError>
    requires few { draft.old.made ≤ most_sets }
    ensures { Took result draft.new (judge draft.old line.now) }
{
    match call_of(line) {
        Err(kind) => Err(refused(line.at, kind)),
        Ok(call) => take_call(draft, alloc, line.at, &call),
    }
}

/// Nothing was read.
fn start(alloc: Global) -> Draft
    ensures { result ≡ no_draft }
{
    Draft {
        calls: List::new(alloc),
        made: 0,
    }
}

/// Takes lines in order, up to the first with a fault. Each is let go before the next one is read.
fn take_all(alloc: Global, lines: Lines<'_>) -> Result<Draft, ReadError>
    ensures { Gives result (judge_all no_draft lines.entry) }
{
    let mut draft = start(alloc);
    let mut rest = lines;
    while let Some(line) = rest.next(alloc)? {
        take_line(&mut draft, alloc, &line)?;
    }
    Ok(draft)
}

/// What is read of a text.
#[tactic(auto, unfolding(crate::specs::Reading::reading))]
fn read_all(alloc: Global, text: &[u8]) -> Result<List<LatchCall>, ReadError>
    ensures { Gives result (reading text.now) }
{
    let lines = Lines::new(text)?;
    let draft = take_all(alloc, lines)?;
    Ok(draft.calls)
}

/// The calls that a text spells, or its first fault. Of
///
///     CRT SETA 2
///     OBT SETA 0 7 E SYNC
///     PRG SETA 7
///
/// they are: a set SETA of two latches is made; requestor 7 asks for its latch 0 exclusively, and waits for it if it
/// must; all requests of requestor 7 are taken out. Blanks and comments are those of decks.
///
/// `TooLong` is told with line 0, `BadByte` with the line of the first such byte, and any other kind with the first
/// faulty line: `UnknownStatement` where it begins with no word of a call, or a token other than an opening parenthesis
/// stands directly behind that word; else `BadOperand` where its form is another or a number beyond its range; else
/// `NameLength` where the name of its set has more than 8 bytes; else `TooMany` where it is the 16,385th call, or the
/// 65th CRT, be there sets of those names or not. A comment that isn't closed is a line of its own, a `BadOperand`,
/// behind what stands before it. Want of memory is `NoMemory`.
pub fn read_calls(alloc: Global, text: &[u8]) -> Result<List<LatchCall>, ReadError>
    // What is read is spelled so, and has no fault; the fault is the text's first one, of the least kind.
    ensures exact { Answers result text.now }
    // What is spelled so is read, unless memory runs out.
    ensures only { (cs : List CallValue) → SpellsCalls text.now cs → IsOkUnlessMemory result cs }
    // What is read may come one behind the other, from no sets on.
    ensures whole { IfOk result (λ cs. AllCome cs []) }
{
    read_all(alloc, text)
}
