//! Prints an entry of a name list as an RNLDEF.
ghost use Rattle.std.specs.Prelude.{◌≡◌, ◌++◌, OnOk, OnErr, IfOk};
ghost use Rattle.rnl_syntax.specs.Spelled.{which_word, form_word};
ghost use Rattle.rnl_syntax.specs.Printed.{printed_rname, printed_rnldef};

use grs_base::{Form, List, NoMemory, Rname, RnlEntry, Which, print_name};
use std::alloc::Global;

fn which_word(which: Which) -> &'static [u8]
    ensures { result.now ≡ which_word which }
{
    match which {
        Which::Incl => b"INCL",
        Which::Excl => b"EXCL",
        Which::Con => b"CON",
    }
}

fn form_word(form: Form) -> &'static [u8]
    ensures { result.now ≡ form_word form }
{
    match form {
        Form::Specific => b"SPECIFIC",
        Form::Generic => b"GENERIC",
        Form::Pattern => b"PATTERN",
    }
}

fn print_rname(alloc: Global, r: &Option<Rname>, out: &mut List<u8>) -> Result<(), NoMemory>
    ensures { OnOk result (out.new ≡ out.old ++ printed_rname r.now) }
{
    match r {
        None => Ok(()),
        Some(r) => {
            out.append(b" RNAME(")?;
            print_name(alloc, r.bytes(), out)?;
            out.append(b")")
        }
    }
}

/// The printed form of an entry.
fn rnldef_text(alloc: Global, entry: &RnlEntry) -> Result<List<u8>, NoMemory>
    ensures { IfOk result (λ text. text ≡ printed_rnldef entry.now) }
{
    let mut text = List::from_bytes(alloc, b"RNLDEF RNL(")?;
    text.append(which_word(entry.which))?;
    text.append(b") TYPE(")?;
    text.append(form_word(entry.form))?;
    text.append(b") QNAME(")?;
    print_name(alloc, entry.q.bytes(), &mut text)?;
    text.append(b")")?;
    print_rname(alloc, &entry.r, &mut text)?;
    Ok(text)
}

/// Puts the printed RNLDEF of an entry behind a text, without a line end: RNL, TYPE, QNAME and, where the
/// entry has one, RNAME, with one blank before each. An entry of the exclusion list for all names of
/// `SYSDSN` that begin with `SYS1` is printed as
///
///     RNLDEF RNL(EXCL) TYPE(GENERIC) QNAME(SYSDSN) RNAME(SYS1)
///
/// Each entry that a deck can have is read back from its printed form as the same entry
/// ([`printed_entries`](crate::printed_entries)). Where memory is wanting, the text is as it was.
pub fn print_rnldef(alloc: Global, entry: &RnlEntry, out: &mut List<u8>) -> Result<(), NoMemory>
    ensures ok { OnOk result (out.new ≡ out.old ++ printed_rnldef entry.now) }
    ensures err { OnErr result (out.new ≡ out.old) }
{
    let text = rnldef_text(alloc, entry)?;
    out.append(text.as_slice())
}
