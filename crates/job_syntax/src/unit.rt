//! Units of devices, as the bytes of a word.
ghost use Rattle.std.specs.Prelude.{◌<◌, IfOk};
ghost use Rattle.deck_scan.specs.Next.{Reads};
ghost use Rattle.job_syntax.specs.Unit.{hex_of, hex_at, unit_of};

use deck_scan::{Miss, digit_of, is_hex_byte};

/// The value of a hexadecimal digit of either case.
fn hex_of(b: u8) -> Result<u8, Miss>
    ensures value { Reads (λ x. x) result (hex_of b) }
    ensures small { IfOk result (λ x. x < 16) }
{
    if is_hex_byte(b) {
        Ok(digit_of(b))
    } else {
        Err(Miss)
    }
}

/// A hexadecimal digit, and the bytes behind it.
fn hex_at(w: &[u8]) -> Result<(u16, &[u8]), Miss>
    ensures value { Reads (λ x. (x.0, x.1.now)) result (hex_at w.now) }
    ensures small { IfOk result (λ x. x.0 < 16) }
{
    match w.split_first() {
        None => Err(Miss),
        Some((b, rest)) => {
            let digit = hex_of(*b)?;
            Ok((u16::from(digit), rest))
        }
    }
}

/// The unit that four hexadecimal digits write.
#[tactic(auto, unfolding(crate::specs::Unit::unit_of))]
pub fn unit_of(w: &[u8]) -> Result<u16, Miss>
    ensures { Reads (λ x. x) result (unit_of w.now) }
{
    let (a, w) = hex_at(w)?;
    let (b, w) = hex_at(w)?;
    let (c, w) = hex_at(w)?;
    let (d, w) = hex_at(w)?;
    if w.len() == 0 {
        Ok(a * 4096 + b * 256 + c * 16 + d)
    } else {
        Err(Miss)
    }
}
