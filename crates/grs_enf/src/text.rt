//! The text of the notices of a history.
ghost use Rattle.std.specs.Prelude.{◌≡◌, ◌++◌, OnOk, IfOk};
ghost use Rattle.std.specs.List.{flat_map};
ghost use Rattle.grs_legal.specs.Legal.{Legal};
ghost use Rattle.grs_enf.specs.Notices.{notices, told_notices};
ghost use Rattle.grs_enf.specs.Text.{what_word, notice_line, notices_text};

use super::notice::{Noted, What};
use super::watch::notices_of;
use grs_base::{List, NoMemory};
use grs_display::{names_of, put_count, put_number_word, put_res, put_word};
use grs_wire::{Deck, HistEntry, Names};
use std::alloc::Global;

fn what_word(what: What) -> &'static [u8]
    ensures { result.now ≡ what_word what }
{
    match what {
        What::Begin => b"BEGIN",
        What::Change => b"CHANGE",
        What::End => b"END",
    }
}

/// Puts a notice behind a text.
fn put_notice(
    alloc: Global,
    names: &Names,
    noted: &Noted,
    out: &mut List<u8>,
) -> Result<(), NoMemory>
    ensures { OnOk result (out.new ≡ out.old ++ notice_line names.now noted.now) }
{
    out.push(b'N')?;
    put_number_word(noted.entry, out)?;
    put_word(what_word(noted.notice.what), out)?;
    out.push(b' ')?;
    put_res(alloc, names, &noted.notice.res, out)?;
    put_number_word(u64::from(noted.notice.owners), out)?;
    put_number_word(u64::from(noted.notice.waiters), out)?;
    out.push(b'\n')
}

fn put_notices(
    alloc: Global,
    names: &Names,
    noted: &[Noted],
    out: &mut List<u8>,
) -> Result<(), NoMemory>
    ensures { OnOk result (out.new ≡ out.old ++ flat_map (notice_line names.now) noted.now) }
{
    for one in noted {
        put_notice(alloc, names, one, out)?;
    }
    Ok(())
}

/// The notices of a history of a deck as a text. Of two tasks, of which the second waits until the first gives up what
/// it has, it is
///
///     NOTICES 2
///     N 2 BEGIN SYSTEM(SYA,A,B) 1 1
///     N 3 END SYSTEM(SYA,A,B) 1 0
///
/// with the number of the entry, what is noticed, the resource, and how many own and wait then. Each line ends with LF.
/// Nothing is written for the name of a system or job that the deck does not have. Want of memory is `NoMemory`.
#[tactic(auto, unfolding(crate::specs::Text::notices_text), using(crate::proofs::CodeLaws::told))]
pub fn notices_text(alloc: Global, deck: &Deck, hist: &[HistEntry]) -> Result<List<u8>, NoMemory>
    ensures told { IfOk result (λ text. text ≡ notices_text deck.now (told_notices hist.now)) }
    ensures legal { Legal deck.now hist.now → IfOk result (λ text. text ≡ notices_text deck.now (notices deck.now.limit hist.now)) }
{
    let names = names_of(alloc, deck)?;
    let noted = notices_of(alloc, hist)?;
    let mut out = List::new(alloc);
    put_count(b"NOTICES", noted.len(), &mut out)?;
    put_notices(alloc, &names, noted.as_slice(), &mut out)?;
    Ok(out)
}
