//! Prints the line of a task, so that it is read back as the same line.
ghost use Rattle.std.specs.Prelude.{◌≡◌, ◌<◌, ◌++◌, OnOk, OnErr, IfOk};
ghost use Rattle.std.specs.List.{flat_map};
ghost use Rattle.grs_base.specs.Printed.{unit_digits};
ghost use Rattle.job_syntax.specs.Spelled.{scope_word, reach_word};
ghost use Rattle.job_syntax.specs.Printed.{printed_names, printed_ret, printed_have, printed_rnl, maybe_unit, printed_item, printed_q, printed_r, printed_filter, printed_enq, printed_reserve, printed_place, printed_gqscan, printed_resource, printed_line};

use grs_base::{
    Ctl, Filter, Item, Line, List, NoMemory, Qname, Ret, Rname, Scope, ctl_word, print_name,
    unit_digits,
};
use std::alloc::Global;

fn scope_word(scope: Scope) -> &'static [u8]
    ensures { result.now ≡ scope_word scope }
{
    match scope {
        Scope::Step => b"STEP",
        Scope::System => b"SYSTEM",
        Scope::Systems => b"SYSTEMS",
    }
}

fn reach_word(global: bool) -> &'static [u8]
    ensures { result.now ≡ reach_word global }
{
    match global {
        true => b"GLOBAL",
        false => b"LOCAL",
    }
}

fn ret_text(ret: Ret) -> &'static [u8]
    ensures { result.now ≡ printed_ret ret }
{
    match ret {
        Ret::RetNone => b"",
        Ret::RetUse => b",RET=USE",
        Ret::RetHave => b",RET=HAVE",
        Ret::RetTest => b",RET=TEST",
        Ret::RetChng => b",RET=CHNG",
        Ret::RetEcb => b",ECB",
    }
}

fn have_text(have: bool) -> &'static [u8]
    ensures { result.now ≡ printed_have have }
{
    match have {
        true => b",RET=HAVE",
        false => b"",
    }
}

fn rnl_text(rnl: bool) -> &'static [u8]
    ensures { result.now ≡ printed_rnl rnl }
{
    match rnl {
        true => b"",
        false => b",RNL=NO",
    }
}

fn print_maybe_unit(unit: Option<u16>, out: &mut List<u8>) -> Result<(), NoMemory>
    ensures { OnOk result (out.new ≡ out.old ++ maybe_unit unit) }
{
    match unit {
        None => Ok(()),
        Some(unit) => {
            out.append(b",UCB=")?;
            out.append(&unit_digits(unit))
        }
    }
}

/// Two names with a comma between them.
fn print_names(alloc: Global, q: &Qname, r: &Rname, out: &mut List<u8>) -> Result<(), NoMemory>
    ensures { OnOk result (out.new ≡ out.old ++ printed_names q.now r.now) }
{
    print_name(alloc, q.bytes(), out)?;
    out.append(b",")?;
    print_name(alloc, r.bytes(), out)
}

fn print_item(alloc: Global, item: &Item, out: &mut List<u8>) -> Result<(), NoMemory>
    ensures { OnOk result (out.new ≡ out.old ++ printed_item item.now) }
{
    out.append(b"(")?;
    print_names(alloc, &item.q, &item.r, out)?;
    out.append(b",")?;
    out.append(ctl_word(item.ctl))?;
    out.append(b",")?;
    out.append(scope_word(item.scope))?;
    out.append(b")")
}

/// The items, each as it stands alone.
fn items_text(alloc: Global, items: &[Item]) -> Result<List<u8>, NoMemory>
    ensures { IfOk result (λ text. text ≡ flat_map printed_item items.now) }
{
    let mut text = List::new(alloc);
    for item in items {
        print_item(alloc, item, &mut text)?;
    }
    Ok(text)
}

fn print_q(alloc: Global, q: &Option<Qname>, out: &mut List<u8>) -> Result<(), NoMemory>
    ensures { OnOk result (out.new ≡ out.old ++ printed_q q.now) }
{
    match q {
        None => Ok(()),
        Some(q) => {
            out.append(b",QNAME=")?;
            print_name(alloc, q.bytes(), out)
        }
    }
}

fn print_r(alloc: Global, r: &Option<Rname>, out: &mut List<u8>) -> Result<(), NoMemory>
    ensures { OnOk result (out.new ≡ out.old ++ printed_r r.now) }
{
    match r {
        None => Ok(()),
        Some(r) => {
            out.append(b",RNAME=")?;
            print_name(alloc, r.bytes(), out)
        }
    }
}

fn print_filter(alloc: Global, filter: &Filter, out: &mut List<u8>) -> Result<(), NoMemory>
    ensures { OnOk result (out.new ≡ out.old ++ printed_filter filter.now) }
{
    match filter {
        Filter::All => Ok(()),
        Filter::Contended => Ok(()),
        Filter::Named { q, r } => {
            print_q(alloc, q, out)?;
            print_r(alloc, r, out)
        }
    }
}

fn enq_text(alloc: Global, items: &List<Item>, ret: Ret, rnl: bool) -> Result<List<u8>, NoMemory>
    ensures { IfOk result (λ text. text ≡ printed_enq items.now ret rnl) }
{
    let items = items_text(alloc, items.as_slice())?;
    let mut text = List::from_bytes(alloc, b"ENQ ")?;
    text.append(items.as_slice())?;
    text.append(ret_text(ret))?;
    text.append(rnl_text(rnl))?;
    Ok(text)
}

/// A RESERVE up to its names.
fn reserve_text(alloc: Global, q: &Qname, r: &Rname, ctl: Ctl) -> Result<List<u8>, NoMemory>
    ensures { IfOk result (λ text. text ≡ printed_reserve q.now r.now ctl) }
{
    let mut text = List::from_bytes(alloc, b"RESERVE (")?;
    print_names(alloc, q, r, &mut text)?;
    text.append(b",")?;
    text.append(ctl_word(ctl))?;
    text.append(b",SYSTEMS),UCB=")?;
    Ok(text)
}

/// The word and the parentheses of a DEQ or a WAIT.
fn place_text(
    alloc: Global,
    word: &[u8],
    q: &Qname,
    r: &Rname,
    scope: Scope,
) -> Result<List<u8>, NoMemory>
    ensures { IfOk result (λ text. text ≡ printed_place word.now q.now r.now scope) }
{
    let mut text = List::from_bytes(alloc, word)?;
    text.append(b" (")?;
    print_names(alloc, q, r, &mut text)?;
    text.append(b",")?;
    text.append(scope_word(scope))?;
    text.append(b")")?;
    Ok(text)
}

fn gqscan_text(alloc: Global, global: bool, filter: &Filter) -> Result<List<u8>, NoMemory>
    ensures { IfOk result (λ text. text ≡ printed_gqscan global filter.now) }
{
    let mut text = List::from_bytes(alloc, b"GQSCAN SCOPE=")?;
    text.append(reach_word(global))?;
    print_filter(alloc, filter, &mut text)?;
    Ok(text)
}

fn resource_text(alloc: Global, q: &Qname, r: &Rname) -> Result<List<u8>, NoMemory>
    ensures { IfOk result (λ text. text ≡ printed_resource q.now r.now) }
{
    let mut text = List::from_bytes(alloc, b"DISPLAY GRS,RES=(")?;
    print_names(alloc, q, r, &mut text)?;
    text.append(b")")?;
    Ok(text)
}

/// The printed form of a line.
fn line_text(alloc: Global, line: &Line) -> Result<List<u8>, NoMemory>
    ensures { IfOk result (λ text. text ≡ printed_line line.now) }
{
    match line {
        Line::Enq { items, ret, rnl } => enq_text(alloc, items, *ret, *rnl),
        Line::Reserve {
            q,
            r,
            ctl,
            unit,
            ret,
            rnl,
        } => {
            let mut text = reserve_text(alloc, q, r, *ctl)?;
            text.append(&unit_digits(*unit))?;
            text.append(ret_text(*ret))?;
            text.append(rnl_text(*rnl))?;
            Ok(text)
        }
        Line::Deq {
            q,
            r,
            scope,
            have,
            unit,
            rnl,
        } => {
            let mut text = place_text(alloc, b"DEQ", q, r, *scope)?;
            print_maybe_unit(*unit, &mut text)?;
            text.append(have_text(*have))?;
            text.append(rnl_text(*rnl))?;
            Ok(text)
        }
        Line::Wait { q, r, scope, rnl } => {
            let mut text = place_text(alloc, b"WAIT", q, r, *scope)?;
            text.append(rnl_text(*rnl))?;
            Ok(text)
        }
        Line::Gqscan { global, filter } => gqscan_text(alloc, *global, filter),
        Line::DisplayC => List::from_bytes(alloc, b"DISPLAY GRS,C"),
        Line::DisplayRes { q, r } => resource_text(alloc, q, r),
    }
}

/// Puts the printed form of a line behind a text, without a line end: one blank behind its first word,
/// UCB before RET or ECB before RNL=NO, and no option that says what holds without it. What is read of
/// `DEQ ( A , X'42', STEP ),RNL=NO,RET=HAVE,UCB=00ff` is printed as
///
///     DEQ (A,B,STEP),UCB=00FF,RET=HAVE,RNL=NO
///
/// Each line that a deck can have is read back from its printed form as the same line
/// ([`printed_lines`](crate::printed_lines)). Where memory is wanting, the text is as it was.
pub fn print_line(alloc: Global, line: &Line, out: &mut List<u8>) -> Result<(), NoMemory>
    ensures ok { OnOk result (out.new ≡ out.old ++ printed_line line.now) }
    ensures err { OnErr result (out.new ≡ out.old) }
{
    let text = line_text(alloc, line)?;
    out.append(text.as_slice())
}
