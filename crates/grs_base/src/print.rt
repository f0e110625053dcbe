//! How names, controls and units are printed, in decks and in reports alike. The forms are this project's own.
ghost use Rattle.std.specs.Prelude.{◌≡◌, ◌<◌, ◌++◌, length, OnOk, OnErr, IfOk};
ghost use Rattle.std.specs.List.{list_all};
ghost use Rattle.grs_base.specs.Printed.{is_plain_byte, is_printable, hex_digit, quoted, hexed, printed_name, ctl_word, unit_digits};

use super::NoMemory;
use super::list::List;
use super::resource::Ctl;
use std::alloc::Global;

/// Whether a byte may stand in a plain name: a letter, a digit or one of `$ # @ . _ - * ?`.
pub fn is_plain_byte(b: u8) -> bool
    ensures { result ≡ is_plain_byte b }
{
    b.is_ascii_alphanumeric() || matches!(b, b'$' | b'#' | b'@' | b'.' | b'_' | b'-' | b'*' | b'?')
}

/// Whether a byte is one from blank to `~`.
pub fn is_printable(b: u8) -> bool
    ensures { result ≡ is_printable b }
{
    32 <= b && b <= 126
}

fn all_plain(bytes: &[u8]) -> bool
    ensures { result ≡ list_all is_plain_byte bytes.now }
{
    bytes.iter().all(|b| is_plain_byte(*b))
}

fn all_printable(bytes: &[u8]) -> bool
    ensures { result ≡ list_all is_printable bytes.now }
{
    bytes.iter().all(|b| is_printable(*b))
}

/// The name between quotes, with each quote in it doubled.
fn quoted(alloc: Global, bytes: &[u8]) -> Result<List<u8>, NoMemory>
    ensures { IfOk result (λ text. text ≡ quoted bytes.now) }
{
    let mut text = List::from_bytes(alloc, b"'")?;
    for b in bytes {
        if *b == b'\'' {
            text.push(b'\'')?;
        }
        text.push(*b)?;
    }
    text.push(b'\'')?;
    Ok(text)
}

fn hex_digit(n: u8) -> u8
    requires { n < 16 }
    ensures { result ≡ hex_digit n }
{
    if n < 10 { b'0' + n } else { b'A' - 10 + n }
}

/// The name as two hexadecimal digits for each byte.
fn hexed(alloc: Global, bytes: &[u8]) -> Result<List<u8>, NoMemory>
    ensures { IfOk result (λ text. text ≡ hexed bytes.now) }
{
    let mut text = List::from_bytes(alloc, b"X'")?;
    for b in bytes {
        text.push(hex_digit(*b / 16))?;
        text.push(hex_digit(*b % 16))?;
    }
    text.push(b'\'')?;
    Ok(text)
}

/// Puts a resource's name behind a text: as it is where each byte is a letter, a digit or one of
/// `$ # @ . _ - * ?`, else between quotes where each byte is printable, else as hexadecimal digits.
pub fn print_name(alloc: Global, bytes: &[u8], out: &mut List<u8>) -> Result<(), NoMemory>
    requires { 0 < length bytes.now }
    ensures ok { OnOk result (out.new ≡ out.old ++ printed_name bytes.now) }
    ensures err { OnErr result (out.new ≡ out.old) }
{
    if all_plain(bytes) {
        return out.append(bytes);
    }
    let text = if all_printable(bytes) {
        quoted(alloc, bytes)?
    } else {
        hexed(alloc, bytes)?
    };
    out.append(text.as_slice())
}

/// The word of a control: `E` or `S`.
pub fn ctl_word(ctl: Ctl) -> &'static [u8]
    ensures { result.now ≡ ctl_word ctl }
{
    match ctl {
        Ctl::E => b"E",
        Ctl::S => b"S",
    }
}

/// The four hexadecimal digits of a unit, 0 to 9 or A to F.
pub fn unit_digits(unit: u16) -> [u8; 4]
    ensures { result ≡ unit_digits unit }
{
    let [high, low] = unit.to_be_bytes();
    [
        hex_digit(high / 16),
        hex_digit(high % 16),
        hex_digit(low / 16),
        hex_digit(low % 16),
    ]
}
