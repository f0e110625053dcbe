//! A text that has a deck, and a report behind it.
ghost use Rattle.std.specs.Prelude.{◌≡◌, ◌≤◌, ◌+◌, length};
ghost use Rattle.grs_audit.specs.Found.{IsReportAt};
ghost use Rattle.grs_audit.specs.Halves.{most_audited_bytes, deck_part, report_part, first_line};
ghost use Rattle.grs_audit.specs.Lines.{lines_in, most_lines};

use super::parts::cut;

/// How many bytes a deck and a report may have together.
pub const MOST_AUDITED_BYTES: usize = 268_435_456;

/// The line with which a report begins.
const REPORT: &[u8] = b"GRS REPORT 1";

/// A deck's text, and a report's behind it.
#[derive(Clone, Copy)]
pub struct Halves<'t> {
    /// What stands before the first line that is exactly `GRS REPORT 1`, or all where there is no such line.
    pub deck: &'t [u8],
    /// What stands from that line on, or nothing.
    pub report: &'t [u8],
    /// The number of that line; where there is none, that behind the last line.
    pub first: u32,
}

/// What stands from the first line on that begins a report, and how many lines stand before.
fn find_report<'t>(text: &'t [u8]) -> (&'t [u8], u32)
    requires { length text.now ≤ most_audited_bytes }
    ensures { IsReportAt text.now result.0.now result.1 }
{
    let mut rest = text;
    let mut lines: u32 = 0;
    'lines: while !rest.is_empty() {
        let (line, behind) = cut(rest, b'\n');
        if line == REPORT {
            return (rest, lines);
        }
        rest = behind;
        lines += 1;
    }
    (rest, lines)
}

/// The deck's text and the report's in a text, in which a line ends with a byte 10, which the last one may lack.
pub fn halves_of<'t>(text: &'t [u8]) -> Halves<'t>
    requires { length text.now ≤ most_audited_bytes }
    ensures deck { result.deck.now ≡ deck_part text.now }
    ensures report { result.report.now ≡ report_part text.now }
    ensures first { result.first ≡ first_line text.now }
    ensures few { result.first + length (lines_in result.report.now) ≤ most_lines }
{
    let (report, lines) = find_report(text);
    Halves {
        deck: &text[..text.len() - report.len()],
        report,
        first: lines + 1,
    }
}
