//! How answers and numbers are written. No names are known here.
ghost use Rattle.std.specs.Prelude.{◌≡◌, ◌++◌, OnOk};
ghost use Rattle.grs_report.specs.Spelled.{ret_word, have_word, code_word, verb_word, order_word, said_word, end_word, event_word, three_digits};

use grs_base::{Code, List, NoMemory, Ret};
use grs_display::put_number;
use grs_wire::{Said, TaskEnd, Verb};

pub(crate) fn ret_word(ret: Ret) -> &'static [u8]
    ensures { result.now ≡ ret_word ret }
{
    match ret {
        Ret::RetNone => b"NONE",
        Ret::RetUse => b"USE",
        Ret::RetHave => b"HAVE",
        Ret::RetTest => b"TEST",
        Ret::RetChng => b"CHNG",
        Ret::RetEcb => b"ECB",
    }
}

pub(crate) fn have_word(have: bool) -> &'static [u8]
    ensures { result.now ≡ have_word have }
{
    if have { b"HAVE" } else { b"NONE" }
}

pub(crate) fn verb_word(verb: Verb) -> &'static [u8]
    ensures { result.now ≡ verb_word verb }
{
    match verb {
        Verb::Enq => b"ENQ",
        Verb::Deq => b"DEQ",
        Verb::Wait => b"WAIT",
        Verb::Gqscan => b"GQSCAN",
        Verb::Display => b"DISPLAY",
    }
}

/// The order that was given at a desk.
pub(crate) fn order_word(said: Said) -> &'static [u8]
    ensures { result.now ≡ order_word said }
{
    match said {
        Said::StarDone | Said::StarAlready => b"SETGRS",
        Said::VaryDone | Said::VaryNoSuch => b"VARY",
    }
}

/// What was said to an order.
pub(crate) fn said_word(said: Said) -> &'static [u8]
    ensures { result.now ≡ said_word said }
{
    match said {
        Said::StarDone | Said::VaryDone => b"DONE",
        Said::StarAlready => b"ALREADY",
        Said::VaryNoSuch => b"NOSUCH",
    }
}

pub(crate) fn end_word(end: TaskEnd) -> &'static [u8]
    ensures { result.now ≡ end_word end }
{
    match end {
        TaskEnd::Ended => b"ENDED",
        TaskEnd::Removed => b"REMOVED",
        TaskEnd::Waits => b"WAITS",
        TaskEnd::Open => b"OPEN",
    }
}

/// Puts an answer behind a text.
pub(crate) fn put_code(code: Code, out: &mut List<u8>) -> Result<(), NoMemory>
    ensures { OnOk result (out.new ≡ out.old ++ code_word code) }
{
    match code {
        Code::C00 => out.append(b"00"),
        Code::C04 => out.append(b"04"),
        Code::C08 => out.append(b"08"),
        Code::C14 => out.append(b"14"),
        Code::C18 => out.append(b"18"),
        Code::Wait => out.append(b"WAIT"),
        Code::End(n) => put_number(u64::from(n), out),
    }
}

/// Puts the number of the event in which something was told behind a text.
pub(crate) fn put_event_number(event: u64, out: &mut List<u8>) -> Result<(), NoMemory>
    ensures { OnOk result (out.new ≡ out.old ++ event_word event) }
{
    out.push(b'@')?;
    put_number(event, out)
}

/// The last three digits of a number.
pub(crate) fn three_digits(n: u16) -> [u8; 3]
    ensures { result ≡ three_digits n }
{
    let hundreds = (n / 100) % 10;
    let tens = (n / 10) % 10;
    [
        b'0' + hundreds as u8,
        b'0' + tens as u8,
        b'0' + (n % 10) as u8,
    ]
}
