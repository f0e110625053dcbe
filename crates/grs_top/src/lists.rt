//! The name lists of a deck as text.
ghost use Rattle.std.specs.Prelude.{◌≡◌, ◌++◌, OnOk, IfOk};
ghost use Rattle.grs_top.specs.Lists.{entry_text, entries_text, lists_text};

use grs_base::{List, NoMemory, RnlEntry, RnlList};
use grs_wire::Deck;
use rnl_syntax::print_rnldef;
use std::alloc::Global;

/// Puts an entry behind a text, as one printed statement with the end of its line.
fn put_entry(alloc: Global, entry: &RnlEntry, out: &mut List<u8>) -> Result<(), NoMemory>
    ensures { OnOk result (out.new ≡ out.old ++ entry_text entry.now) }
{
    print_rnldef(alloc, entry, out)?;
    out.push(b'\n')?;
    Ok(())
}

/// Puts the entries of a list behind a text, one printed statement a line.
fn put_entries(alloc: Global, list: &RnlList, out: &mut List<u8>) -> Result<(), NoMemory>
    ensures { OnOk result (out.new ≡ out.old ++ entries_text list.now.entries) }
{
    for entry in list.as_slice() {
        put_entry(alloc, entry, out)?;
    }
    Ok(())
}

/// The entries of the inclusion list, then of the exclusion list, then of the conversion list.
#[tactic(auto, unfolding(crate::specs::Lists::lists_text))]
pub(crate) fn lists_text(alloc: Global, deck: &Deck) -> Result<List<u8>, NoMemory>
    ensures { IfOk result (λ text. text ≡ lists_text deck.now) }
{
    let mut out = List::new(alloc);
    put_entries(alloc, &deck.lists.incl, &mut out)?;
    put_entries(alloc, &deck.lists.excl, &mut out)?;
    put_entries(alloc, &deck.lists.con, &mut out)?;
    Ok(out)
}
