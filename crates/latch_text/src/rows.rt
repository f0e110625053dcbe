//! The lines of latches that have requests.
ghost use Rattle.std.specs.Prelude.{◌≡◌, ◌++◌, OnOk};
ghost use Rattle.std.specs.List.{flat_map};
ghost use Rattle.grs_display.specs.Lines.{spaced};
ghost use Rattle.latch_text.specs.Text.{elem_word, elem_words, row_line, rows_text};

use grs_base::{Ctl, List, NoMemory, ctl_word};
use grs_display::{put_count, put_number, put_number_word, put_word};
use grs_latch::{LatchRow, Latches};

/// Puts a request behind a text: whose it is, its control, and a star for an owner.
#[tactic(auto, unfolding(crate::specs::Text::elem_word))]
fn put_elem(owns: bool, elem: (u16, Ctl), out: &mut List<u8>) -> Result<(), NoMemory>
    ensures { OnOk result (out.new ≡ out.old ++ elem_word owns elem) }
{
    put_number(u64::from(elem.0), out)?;
    out.push(b':')?;
    out.append(ctl_word(elem.1))?;
    if owns { out.push(b'*') } else { Ok(()) }
}

/// Puts requests behind a text, of which so many own the latch, each with a blank before it.
fn put_elems(owners: u32, elems: &[(u16, Ctl)], out: &mut List<u8>) -> Result<(), NoMemory>
    ensures { OnOk result (out.new ≡ out.old ++ spaced (elem_words owners elems.now)) }
{
    let mut left = owners;
    for elem in elems {
        out.push(b' ')?;
        put_elem(left > 0, *elem, out)?;
        left = left.saturating_sub(1);
    }
    Ok(())
}

/// Puts a latch and its requests behind a text.
#[tactic(auto, unfolding(crate::specs::Text::row_line, grs_display::specs::Lines::line))]
fn put_row(latches: &Latches, row: &LatchRow, out: &mut List<u8>) -> Result<(), NoMemory>
    ensures { OnOk result (out.new ≡ out.old ++ row_line latches.now row.now) }
{
    out.push(b'Q')?;
    put_word(latches.name(row.set as usize), out)?;
    put_number_word(u64::from(row.latch), out)?;
    put_elems(row.owners, row.elems.as_slice(), out)?;
    out.push(b'\n')
}

/// Puts the rows behind a text, with their number.
pub(crate) fn put_rows(
    latches: &Latches,
    rows: &[LatchRow],
    out: &mut List<u8>,
) -> Result<(), NoMemory>
    ensures { OnOk result (out.new ≡ out.old ++ rows_text latches.now rows.now) }
{
    put_count(b"LATCHES", rows.len(), out)?;
    for row in rows {
        put_row(latches, row, out)?;
    }
    Ok(())
}
