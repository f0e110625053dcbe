//! Which lines belong to an RNLDEF, which may go over several.
ghost use Rattle.std.specs.Prelude.{◌≡◌, ◌++◌, OnOk, IfOk};
ghost use Rattle.rnl_syntax.specs.Lines.{is_operand_word, is_rnldef_word, begins_rnldef, is_open, with_line, first_from, left_from, wants_more};

use deck_scan::{Lines, Token, TokenLine};
use grs_base::{List, NoMemory};
use std::alloc::Global;

fn is_operand_word(w: &[u8]) -> bool
    ensures { result ≡ is_operand_word w.now }
{
    w == b"RNL".as_slice()
        || w == b"TYPE".as_slice()
        || w == b"QNAME".as_slice()
        || w == b"RNAME".as_slice()
}

/// Whether a word is RNLDEF.
pub fn is_rnldef_word(w: &[u8]) -> bool
    ensures { result ≡ is_rnldef_word w.now }
{
    w == b"RNLDEF".as_slice()
}

/// Whether a statement begins with the word RNLDEF: no other goes on over lines.
fn begins_rnldef(ts: &[Token<'_>]) -> bool
    ensures { result ≡ begins_rnldef ts.now }
{
    match ts.split_first() {
        Some((Token::Word(w), _)) => is_rnldef_word(w.bytes()),
        _ => false,
    }
}

/// Whether an operand is begun and not ended.
fn is_open(ts: &[Token<'_>]) -> bool
    ensures { result ≡ is_open ts.now }
{
    ts.len() % 4 != 1
}

/// Whether the statement so far is an RNLDEF that isn't ended: one of its operands is begun and not ended, or the next
/// line begins with the word of an operand. Of that line no more is read.
fn wants_more(so_far: &TokenLine<'_>, lines: &mut Lines<'_>) -> Result<bool, NoMemory>
    ensures wants { IfOk result (λ wants. wants ≡ wants_more so_far.now lines.old) }
    ensures same { lines.new ≡ lines.old }
{
    let tokens = so_far.tokens.as_slice();
    if !begins_rnldef(tokens) {
        return Ok(false);
    }
    if is_open(tokens) {
        return Ok(true);
    }
    match lines.next_word()? {
        Some(word) => Ok(is_operand_word(word.bytes())),
        None => Ok(false),
    }
}

/// Puts tokens behind tokens.
fn append_tokens<'t>(
    tokens: List<Token<'t>>,
    more: List<Token<'t>>,
) -> Result<List<Token<'t>>, NoMemory>
    ensures { IfOk result (λ all. all ≡ tokens.entry ++ more.entry) }
{
    let mut all = tokens;
    for token in more.into_vec() {
        all.push(token)?;
    }
    Ok(all)
}

/// The statement so far with the tokens of a further line behind its own.
fn with_line<'t>(so_far: TokenLine<'t>, next: TokenLine<'t>) -> Result<TokenLine<'t>, NoMemory>
    ensures { IfOk result (λ l. l ≡ with_line so_far.entry next.entry) }
{
    let tokens = append_tokens(so_far.tokens, next.tokens)?;
    Ok(TokenLine {
        at: so_far.at,
        tokens,
        joined: so_far.joined,
    })
}

/// The statement that begins with a line, with the further lines that it goes on over. Of what stands behind it no
/// more than the first token is looked at.
pub fn gather<'t>(
    alloc: Global,
    first: TokenLine<'t>,
    lines: &mut Lines<'t>,
) -> Result<TokenLine<'t>, NoMemory>
    ensures statement { IfOk result (λ statement. statement ≡ first_from first.entry lines.old) }
    ensures left { OnOk result (lines.new ≡ left_from first.entry lines.old) }
{
    let mut statement = first;
    loop {
        if !wants_more(&statement, lines)? {
            return Ok(statement);
        }
        let Some(line) = lines.next(alloc)? else {
            return Ok(statement);
        };
        statement = with_line(statement, line)?;
    }
}
