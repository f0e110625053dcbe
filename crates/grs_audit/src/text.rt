//! How a verdict is written.
ghost use Rattle.std.specs.Prelude.{◌≡◌, IfOk};
ghost use Rattle.grs_audit.specs.Text.{verdict_text};

use super::verdict::Verdict;
use grs_base::{List, NoMemory};
use grs_display::put_number;
use std::alloc::Global;

/// The line of a No.
fn no_text(alloc: Global, line: u32) -> Result<List<u8>, NoMemory>
    ensures { IfOk result (λ text. text ≡ verdict_text (Verdict.No line)) }
{
    let mut text = List::from_bytes(alloc, b"AUDIT NO LINE ")?;
    put_number(u64::from(line), &mut text)?;
    text.push(b'\n')?;
    Ok(text)
}

/// The line of a verdict.
pub fn verdict_text(alloc: Global, verdict: Verdict) -> Result<List<u8>, NoMemory>
    ensures { IfOk result (λ text. text ≡ verdict_text verdict) }
{
    match verdict {
        Verdict::Yes => List::from_bytes(alloc, b"AUDIT YES\n"),
        Verdict::No { line } => no_text(alloc, line),
    }
}
