//! The lines of a call: what it is answered, and who gets a latch by it.
ghost use Rattle.std.specs.Prelude.{◌≡◌, ◌++◌, OnOk};
ghost use Rattle.std.specs.List.{flat_map};
ghost use Rattle.grs_display.specs.Lines.{spaced};
ghost use Rattle.grs_latch.specs.Calls.{name_of};
ghost use Rattle.latch_text.specs.Text.{verb_word, code_word, taken_words, reply_line, grant_line, reply_text};

use grs_base::{List, NoMemory, unit_digits};
use grs_display::{put_number_word, put_word};
use grs_latch::{Grant, LatchCall, LatchReply, name_of};

fn verb_word(call: &LatchCall) -> &'static [u8]
    ensures { result.now ≡ verb_word call.now }
{
    match call {
        LatchCall::Crt { .. } => b"CRT",
        LatchCall::Obt { .. } => b"OBT",
        LatchCall::Rel { .. } => b"REL",
        LatchCall::Prg { .. } => b"PRG",
    }
}

/// The two hexadecimal digits of a code.
fn code_word(code: u8) -> [u8; 2]
    ensures { result ≡ code_word code }
{
    let [_, _, high, low] = unit_digits(u16::from(code));
    [high, low]
}

/// Puts how many requests a purge took out behind a text, and nothing of another call.
fn put_taken(call: &LatchCall, taken: u32, out: &mut List<u8>) -> Result<(), NoMemory>
    ensures { OnOk result (out.new ≡ out.old ++ spaced (taken_words call.now taken)) }
{
    match call {
        LatchCall::Prg { .. } => put_number_word(u64::from(taken), out),
        _ => Ok(()),
    }
}

/// Puts the number, the verb and the code of a call behind a text.
#[tactic(auto, unfolding(crate::specs::Text::reply_line, grs_display::specs::Lines::line))]
fn put_reply_line(
    number: u64,
    call: &LatchCall,
    reply: &LatchReply,
    out: &mut List<u8>,
) -> Result<(), NoMemory>
    ensures { OnOk result (out.new ≡ out.old ++ reply_line number call.now reply.now) }
{
    out.push(b'L')?;
    put_number_word(number, out)?;
    put_word(verb_word(call), out)?;
    put_word(&code_word(reply.code), out)?;
    put_taken(call, reply.taken, out)?;
    out.push(b'\n')
}

/// Puts who got a latch of this set behind a text.
#[tactic(auto, unfolding(crate::specs::Text::grant_line, grs_display::specs::Lines::line))]
fn put_grant(set: &[u8], grant: Grant, out: &mut List<u8>) -> Result<(), NoMemory>
    ensures { OnOk result (out.new ≡ out.old ++ grant_line set.now grant) }
{
    out.push(b'G')?;
    put_word(set, out)?;
    put_number_word(u64::from(grant.latch), out)?;
    put_number_word(u64::from(grant.requestor), out)?;
    out.push(b'\n')
}

/// Puts all those behind a text.
fn put_grants(set: &[u8], grants: &[Grant], out: &mut List<u8>) -> Result<(), NoMemory>
    ensures { OnOk result (out.new ≡ out.old ++ flat_map (grant_line set.now) grants.now) }
{
    for grant in grants {
        put_grant(set, *grant, out)?;
    }
    Ok(())
}

/// Puts what a call is answered behind a text, and who gets a latch by it.
pub(crate) fn put_reply(
    number: u64,
    call: &LatchCall,
    reply: &LatchReply,
    out: &mut List<u8>,
) -> Result<(), NoMemory>
    ensures { OnOk result (out.new ≡ out.old ++ reply_text number call.now reply.now) }
{
    put_reply_line(number, call, reply, out)?;
    put_grants(name_of(call), reply.grants.as_slice(), out)
}
