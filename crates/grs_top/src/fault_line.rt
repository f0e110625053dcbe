//! The line that tells a deck's first fault.
ghost use Rattle.std.specs.Prelude.{◌≡◌, IfOk};
ghost use Rattle.grs_base.specs.Faults.{number};
ghost use Rattle.grs_top.specs.Due.{fault_line};

use grs_base::{DeckFault, Kind, List, NoMemory};
use grs_display::put_number;
use std::alloc::Global;

fn kind_number(kind: Kind) -> u32
    ensures { result ≡ number kind }
{
    match kind {
        Kind::TooLong => 1,
        Kind::BadByte => 2,
        Kind::UnknownStatement => 3,
        Kind::BadOperand => 4,
        Kind::NameLength => 5,
        Kind::Repeated => 6,
        Kind::OutOfPlace => 7,
        Kind::TooMany => 8,
        Kind::UnknownName => 9,
        Kind::NoSystem => 10,
    }
}

/// The line of a fault.
#[tactic(auto, unfolding(crate::specs::Due::fault_line))]
pub(crate) fn fault_line(alloc: Global, fault: DeckFault) -> Result<List<u8>, NoMemory>
    ensures { IfOk result (λ text. text ≡ fault_line fault) }
{
    let mut text = List::from_bytes(alloc, b"FAULT LINE ")?;
    put_number(u64::from(fault.line), &mut text)?;
    text.append(b" KIND ")?;
    put_number(u64::from(kind_number(fault.kind)), &mut text)?;
    text.push(b'\n')?;
    Ok(text)
}
