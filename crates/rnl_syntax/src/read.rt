//! Reads an RNLDEF from the front of a text of its own.
ghost use Rattle.std.specs.Prelude.{◌≡◌, Ok, IfOk, ℕ};
ghost use Rattle.grs_base.specs.declared.rnl.RnlEntry.{RnlEntry as EntryValue};
ghost use Rattle.deck_scan.specs.Gives.{Gives, IsOkUnlessMemory};
ghost use Rattle.rnl_syntax.specs.Reading.{first_statement, by_word, rnldef_on, sized, entry_on, reading, operand_count, SpellsEntry, Answers, Found};

use crate::lines::{gather, is_rnldef_word};
use crate::operands::{Rnldef, entry_of, has_bad_name, rnldef_at};
use deck_scan::{Lines, Token, TokenLine, bytes_to_close, or_bad, refused};
use grs_base::{Kind, NoMemory, ReadError, RnlEntry};
use std::alloc::Global;

/// The first statement of lines.
fn first_statement<'t>(
    alloc: Global,
    lines: &mut Lines<'t>,
) -> Result<Option<TokenLine<'t>>, NoMemory>
    ensures { IfOk result (λ s. s ≡ first_statement lines.old) }
{
    match lines.next(alloc)? {
        None => Ok(None),
        Some(first) => Ok(Some(gather(alloc, first, lines)?)),
    }
}

fn by_word<'a, 't>(at: u32, w: &[u8], ts: &'a [Token<'t>]) -> Result<Rnldef<'a>, ReadError>
    ensures { Gives result (by_word at w.now ts.now) }
{
    if is_rnldef_word(w) {
        or_bad(at, rnldef_at(ts))
    } else {
        Err(refused(at, Kind::UnknownStatement))
    }
}

/// What a statement says.
#[tactic(auto, unfolding(crate::specs::Reading::rnldef_on))]
fn rnldef_on<'a, 't>(statement: &'a TokenLine<'t>) -> Result<Rnldef<'a>, ReadError>
    ensures { Gives result (rnldef_on statement.now) }
{
    if statement.joined {
        return Err(refused(statement.at, Kind::UnknownStatement));
    }
    match statement.tokens.as_slice().split_first() {
        Some((Token::Word(w), rest)) => by_word(statement.at, w.bytes(), rest),
        Some((Token::Unclosed, _)) => Err(refused(statement.at, Kind::BadOperand)),
        _ => Err(refused(statement.at, Kind::UnknownStatement)),
    }
}

/// The entry of a statement whose names have the right lengths.
fn sized(alloc: Global, at: u32, rnldef: &Rnldef<'_>) -> Result<RnlEntry, ReadError>
    ensures { Gives result (sized at rnldef.now) }
{
    if has_bad_name(rnldef) {
        return Err(refused(at, Kind::NameLength));
    }
    Ok(entry_of(alloc, rnldef)?)
}

fn entry_on(alloc: Global, statement: &Option<TokenLine<'_>>) -> Result<RnlEntry, ReadError>
    ensures { Gives result (entry_on statement.now) }
{
    match statement {
        None => Err(refused(1, Kind::UnknownStatement)),
        Some(statement) => {
            let rnldef = rnldef_on(statement)?;
            sized(alloc, statement.at, &rnldef)
        }
    }
}

/// What is read of a text.
fn read_entry(alloc: Global, text: &[u8]) -> Result<RnlEntry, ReadError>
    ensures { Gives result (reading text.now) }
{
    let mut lines = Lines::of_any(text);
    let statement = first_statement(alloc, &mut lines)?;
    entry_on(alloc, &statement)
}

/// How many operands the statement of an entry has.
fn operand_count(entry: &RnlEntry) -> usize
    ensures { result ≡ operand_count entry.now }
{
    match entry.r {
        None => 3,
        Some(_) => 4,
    }
}

/// How many bytes the statement of an entry uses in the text that makes it. Each operand ends with a closing
/// parenthesis, and no other one is part of the statement or stands before it.
fn bytes_used(text: &[u8], entry: &RnlEntry) -> usize
    requires { reading text.now ≡ Ok entry.now }
    ensures { SpellsEntry text.now entry.now result }
{
    bytes_to_close(text, operand_count(entry))
}

/// What is read of a text, and how many bytes of it.
fn read_front(alloc: Global, text: &[u8]) -> Result<(RnlEntry, usize), ReadError>
    ensures { Found result text.now }
{
    let entry = read_entry(alloc, text)?;
    let used = bytes_used(text, &entry);
    Ok((entry, used))
}

/// The entry that the RNLDEF at the front of a text makes, and how many bytes it uses: up to the closing
/// parenthesis of its last operand. The statement goes on over lines as in a deck; of what follows it no more
/// than the first token is looked at, which decides whether it goes on. So a caller reads the next statement from
/// there on, and statement after statement costs no more than the text. Of
///
///     RNLDEF TYPE(GENERIC) QNAME(SYSDSN)
///            RNL(EXCL)
///     SYSTEM SYA
///
/// it makes an entry of the exclusion list for all names of `SYSDSN`, of the first 51 bytes.
///
/// The lines of a fault count from 1. It is `UnknownStatement` where the text has no statement (on line 1),
/// or its first word isn't RNLDEF; `BadOperand` where its form is another; `NameLength` where a name is too
/// short or too long. The text has no limit of its own, and a byte that no deck may have is part of no
/// statement: where it stands in the first word or before it the text is `UnknownStatement`, where it stands
/// in a line of the statement `BadOperand`, and behind these it isn't told. Want of memory is `NoMemory`.
pub fn read_rnldef(alloc: Global, text: &[u8]) -> Result<(RnlEntry, usize), ReadError>
    // What is read is spelled so; a fault is the text's.
    ensures exact { Answers result text.now }
    // What is spelled so is read, unless memory runs out.
    ensures only { (e : EntryValue) (used : ℕ) → SpellsEntry text.now e used → IsOkUnlessMemory result (e, used) }
{
    read_front(alloc, text)
}
