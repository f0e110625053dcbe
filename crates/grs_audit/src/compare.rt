//! Lines that are wanted, compared with those that a text begins with.
ghost use Rattle.std.specs.Prelude.{◌≡◌, ◌≤◌, ◌++◌, length, IfSome};
ghost use Rattle.grs_audit.specs.Lines.{lines_in, most_lines};
ghost use Rattle.grs_audit.specs.Compared.{AreCompared};

use super::parts::cut;

/// How far a text has the lines that are wanted.
#[derive(Clone, Copy)]
pub(crate) enum Compared<'t> {
    /// It begins with all of them, and goes on with this.
    All { rest: &'t [u8] },
    /// It begins with so many of them, and then ends or has another line.
    Some { lines: usize },
}

/// What stands behind the lines that are wanted, where a text begins with them, and they end with a line end.
fn behind_all<'t>(wanted: &[u8], text: &'t [u8]) -> Option<&'t [u8]>
    ensures { IfSome result (λ rest. lines_in text.now ≡ lines_in wanted.now ++ lines_in rest.now) }
{
    match wanted.split_last() {
        Some((last, _)) if *last == b'\n' => text.strip_prefix(wanted),
        _ => None,
    }
}

/// Compares the lines of a text with those that are wanted, line by line.
fn compare_lines<'t>(wanted: &[u8], text: &'t [u8]) -> Compared<'t>
    requires { length (lines_in text.now) ≤ most_lines }
    ensures { AreCompared (lines_in wanted.now) (lines_in text.now) result }
{
    let mut left = wanted;
    let mut rest = text;
    let mut lines: usize = 0;
    'lines: while !left.is_empty() {
        if rest.is_empty() {
            return Compared::Some { lines };
        }
        let (want, left_behind) = cut(left, b'\n');
        let (line, behind) = cut(rest, b'\n');
        if want != line {
            return Compared::Some { lines };
        }
        left = left_behind;
        rest = behind;
        lines += 1;
    }
    Compared::All { rest }
}

/// Compares the lines of a text with those that are wanted. A text that begins with them all is compared at one go.
pub(crate) fn compare<'t>(wanted: &[u8], text: &'t [u8]) -> Compared<'t>
    requires { length (lines_in text.now) ≤ most_lines }
    ensures { AreCompared (lines_in wanted.now) (lines_in text.now) result }
{
    match behind_all(wanted, text) {
        Some(rest) => Compared::All { rest },
        None => compare_lines(wanted, text),
    }
}
