//! Resources and their lists as lines. Names of resources are printed so that they can be read back. Where
//! memory is wanting, all but `print_row` may leave a part of what they put.
ghost use Rattle.std.specs.Prelude.{◌≡◌, ◌<◌, ◌++◌, ◌∷◌, [], OnOk, OnErr};
ghost use Rattle.grs_base.specs.Printed.{printed_name};
ghost use Rattle.std.specs.List.{flat_map};
ghost use Rattle.grs_display.specs.Lines.{spaced};
ghost use Rattle.grs_display.specs.Names.{name_at};
ghost use Rattle.grs_display.specs.Rows.{names_word, res_word, elem_word, elem_words, row_line, place_word, name_word, rname_word, filter_word};

use super::lines::put_number;
use super::names::{name_at, name_in, put_task};
use grs_base::{
    Elem, Filter, List, NoMemory, Place, Qname, Res, Rname, Row, SysId, ctl_word, print_name,
};
use grs_wire::Names;
use std::alloc::Global;

/// Puts a resource's name behind a text, and no byte for an empty one.
fn put_name(alloc: Global, bytes: &[u8], out: &mut List<u8>) -> Result<(), NoMemory>
    ensures { OnOk result (out.new ≡ out.old ++ printed_name bytes.now) }
{
    if bytes.is_empty() {
        return Ok(());
    }
    print_name(alloc, bytes, out)
}

/// Puts the two names of a resource and the closing parenthesis behind a text.
#[tactic(auto, unfolding(crate::specs::Rows::names_word))]
fn put_names(alloc: Global, q: &Qname, r: &Rname, out: &mut List<u8>) -> Result<(), NoMemory>
    ensures { OnOk result (out.new ≡ out.old ++ names_word q.now r.now) }
{
    put_name(alloc, q.bytes(), out)?;
    out.push(b',')?;
    put_name(alloc, r.bytes(), out)?;
    out.push(b')')
}

/// Puts the name of a system and a comma behind a text.
fn put_system_name(names: &Names, system: SysId, out: &mut List<u8>) -> Result<(), NoMemory>
    ensures { OnOk result (out.new ≡ (out.old ++ name_at names.now.systems system.0) ++ 44 ∷ []) }
{
    out.append(name_at(&names.systems, usize::from(system.0)))?;
    out.push(b',')
}

/// Puts a resource behind a text, with its kind and its names.
#[tactic(auto, unfolding(crate::specs::Rows::res_word))]
pub fn put_res(alloc: Global, names: &Names, res: &Res, out: &mut List<u8>) -> Result<(), NoMemory>
    ensures { OnOk result (out.new ≡ out.old ++ res_word names.now res.now) }
{
    match res {
        Res::Systems { q, r } => {
            out.append(b"SYSTEMS(")?;
            put_names(alloc, q, r, out)
        }
        Res::System { system, q, r } => {
            out.append(b"SYSTEM(")?;
            put_system_name(names, *system, out)?;
            put_names(alloc, q, r, out)
        }
        Res::Step { system, job, q, r } => {
            out.append(b"STEP(")?;
            put_system_name(names, *system, out)?;
            out.append(name_in(&names.jobs, usize::from(system.0), usize::from(*job)))?;
            out.push(b',')?;
            put_names(alloc, q, r, out)
        }
    }
}

/// Puts an element behind a text, with its task and its control, and a star for an owner.
#[tactic(auto, unfolding(crate::specs::Rows::elem_word))]
fn put_elem(names: &Names, owns: bool, elem: Elem, out: &mut List<u8>) -> Result<(), NoMemory>
    ensures { OnOk result (out.new ≡ out.old ++ elem_word names.now owns elem) }
{
    put_task(names, elem.task, out)?;
    out.push(b':')?;
    out.append(ctl_word(elem.ctl))?;
    if owns { out.push(b'*') } else { Ok(()) }
}

/// Puts elements behind a text, of which so many own the resource, each with a blank before it.
fn put_elems(names: &Names, owners: u32, elems: &[Elem], out: &mut List<u8>) -> Result<(), NoMemory>
    ensures { OnOk result (out.new ≡ out.old ++ spaced (elem_words names.now owners elems.now)) }
{
    let mut left = owners;
    for elem in elems {
        out.push(b' ')?;
        put_elem(names, left > 0, *elem, out)?;
        left = left.saturating_sub(1);
    }
    Ok(())
}

/// Puts a row behind a text, or a part of it where memory is wanting.
#[tactic(auto, unfolding(crate::specs::Rows::row_line, crate::specs::Lines::line))]
fn put_row(
    alloc: Global,
    names: &Names,
    letter: u8,
    row: &Row,
    out: &mut List<u8>,
) -> Result<(), NoMemory>
    ensures { OnOk result (out.new ≡ out.old ++ row_line names.now letter row.now) }
{
    out.push(letter)?;
    out.push(b' ')?;
    put_res(alloc, names, &row.res, out)?;
    put_elems(names, row.owners, row.elems.as_slice(), out)?;
    out.push(b'\n')
}

/// Puts a row behind a text as a line: a letter, the resource, and its elements in order, the owners with
/// a star, as in `Q SYSTEM(SYA,A,B) SYA.J1.T1:E* SYA.J1.T2:S`. Where a system, job or task has no name in
/// `names`, nothing is written for it. Where memory is wanting, the text is as it was.
pub fn print_row(
    alloc: Global,
    letter: u8,
    row: &Row,
    names: &Names,
    out: &mut List<u8>,
) -> Result<(), NoMemory>
    ensures ok { OnOk result (out.new ≡ out.old ++ row_line names.now letter row.now) }
    ensures err { OnErr result (out.new ≡ out.old) }
{
    let mut line = List::new(alloc);
    put_row(alloc, names, letter, row, &mut line)?;
    out.append(line.as_slice())
}

/// Puts rows behind a text, each as a line that begins with this letter.
pub fn put_rows(
    alloc: Global,
    names: &Names,
    letter: u8,
    rows: &[Row],
    out: &mut List<u8>,
) -> Result<(), NoMemory>
    ensures { OnOk result (out.new ≡ out.old ++ flat_map (row_line names.now letter) rows.now) }
{
    for row in rows {
        put_row(alloc, names, letter, row, out)?;
    }
    Ok(())
}

/// Puts where a look was taken behind a text.
#[tactic(auto, unfolding(crate::specs::Rows::place_word))]
pub fn put_place(place: Place, out: &mut List<u8>) -> Result<(), NoMemory>
    ensures { OnOk result (out.new ≡ out.old ++ place_word place) }
{
    match place {
        Place::Slice(slice) => put_number(u64::from(slice), out),
        Place::Local(_) => out.append(b"LOCAL"),
    }
}

/// Puts the qname that a look asks for behind a text, where it asks for one.
fn put_asked_qname(alloc: Global, q: &Option<Qname>, out: &mut List<u8>) -> Result<(), NoMemory>
    ensures { OnOk result (out.new ≡ out.old ++ name_word q.now) }
{
    match q {
        Some(q) => put_name(alloc, q.bytes(), out),
        None => Ok(()),
    }
}

/// Puts a comma and the rname that a look asks for behind a text, where it asks for one.
fn put_asked_rname(alloc: Global, r: &Option<Rname>, out: &mut List<u8>) -> Result<(), NoMemory>
    ensures { OnOk result (out.new ≡ out.old ++ rname_word r.now) }
{
    match r {
        Some(r) => {
            out.push(b',')?;
            put_name(alloc, r.bytes(), out)
        }
        None => Ok(()),
    }
}

/// Puts what a look shows behind a text.
#[tactic(auto, unfolding(crate::specs::Rows::filter_word))]
pub fn put_filter(alloc: Global, filter: &Filter, out: &mut List<u8>) -> Result<(), NoMemory>
    ensures { OnOk result (out.new ≡ out.old ++ filter_word filter.now) }
{
    match filter {
        Filter::All => out.append(b"ALL"),
        Filter::Contended => out.append(b"C"),
        Filter::Named { q, r } => {
            out.push(b'(')?;
            put_asked_qname(alloc, q, out)?;
            put_asked_rname(alloc, r, out)?;
            out.push(b')')
        }
    }
}
