//! The operands of RNLDEF, in any order, each at most once.
ghost use Rattle.std.specs.Prelude.{◌≡◌, true, false, IfOk};
ghost use Rattle.grs_base.specs.NameLists.{is_specific};
ghost use Rattle.deck_scan.specs.Next.{Reads, maybe};
ghost use Rattle.rnl_syntax.specs.Spelled.{Answers};
ghost use Rattle.rnl_syntax.specs.Operands.{which_of, form_of, with_which, with_form, with_q, with_r, value_of, operand_at, whole, rnldef_at, has_bad_name, entry_of};

use deck_scan::{
    GivenName, Miss, Token, any_word_at, close_at, end_at, is_bad_rname, maybe_rname, name_at,
    open_at, qname_of,
};
use grs_base::{Form, NoMemory, RnlEntry, Which, is_qname};
use std::alloc::Global;

/// The operands that stand in an RNLDEF: RNL, TYPE, QNAME and RNAME, with names of any length.
#[derive(Drop)]
pub struct Operands<'t> {
    pub which: Option<Which>,
    pub form: Option<Form>,
    pub q: Option<GivenName<'t>>,
    pub r: Option<GivenName<'t>>,
}

/// An RNLDEF of the right form, with names of any length.
#[derive(Drop)]
pub struct Rnldef<'t> {
    pub which: Which,
    pub form: Form,
    pub q: GivenName<'t>,
    pub r: Option<GivenName<'t>>,
}

#[tactic(auto, unfolding(crate::specs::Operands::which_of))]
fn which_of(w: &[u8]) -> Result<Which, Miss>
    ensures { Reads (λ x. x) result (which_of w.now) }
{
    if w == b"INCL".as_slice() {
        Ok(Which::Incl)
    } else if w == b"EXCL".as_slice() {
        Ok(Which::Excl)
    } else if w == b"CON".as_slice() {
        Ok(Which::Con)
    } else {
        Err(Miss)
    }
}

#[tactic(auto, unfolding(crate::specs::Operands::form_of))]
fn form_of(w: &[u8]) -> Result<Form, Miss>
    ensures { Reads (λ x. x) result (form_of w.now) }
{
    if w == b"SPECIFIC".as_slice() {
        Ok(Form::Specific)
    } else if w == b"GENERIC".as_slice() {
        Ok(Form::Generic)
    } else if w == b"PATTERN".as_slice() {
        Ok(Form::Pattern)
    } else {
        Err(Miss)
    }
}

fn with_which<'a>(o: Operands<'a>, which: Which) -> Result<Operands<'a>, Miss>
    ensures { Reads (λ x. x) result (with_which o.entry which) }
{
    match o.which {
        Some(_) => Err(Miss),
        None => Ok(Operands {
            which: Some(which),
            form: o.form,
            q: o.q,
            r: o.r,
        }),
    }
}

fn with_form<'a>(o: Operands<'a>, form: Form) -> Result<Operands<'a>, Miss>
    ensures { Reads (λ x. x) result (with_form o.entry form) }
{
    match o.form {
        Some(_) => Err(Miss),
        None => Ok(Operands {
            which: o.which,
            form: Some(form),
            q: o.q,
            r: o.r,
        }),
    }
}

fn with_q<'a>(o: Operands<'a>, q: GivenName<'a>) -> Result<Operands<'a>, Miss>
    ensures { Reads (λ x. x) result (with_q o.entry q.entry) }
{
    match o.q {
        Some(_) => Err(Miss),
        None => Ok(Operands {
            which: o.which,
            form: o.form,
            q: Some(q),
            r: o.r,
        }),
    }
}

fn with_r<'a>(o: Operands<'a>, r: GivenName<'a>) -> Result<Operands<'a>, Miss>
    ensures { Reads (λ x. x) result (with_r o.entry r.entry) }
{
    match o.r {
        Some(_) => Err(Miss),
        None => Ok(Operands {
            which: o.which,
            form: o.form,
            q: o.q,
            r: Some(r),
        }),
    }
}

/// The value of the operand of this word.
#[tactic(auto, unfolding(crate::specs::Operands::value_of))]
fn value_of<'a, 't>(
    o: Operands<'a>,
    w: &[u8],
    ts: &'a [Token<'t>],
) -> Result<(Operands<'a>, &'a [Token<'t>]), Miss>
    ensures { Reads (λ x. (x.0, x.1.now)) result (value_of o.entry w.now ts.now) }
{
    if w == b"RNL".as_slice() {
        let (v, ts) = any_word_at(ts)?;
        let which = which_of(v)?;
        Ok((with_which(o, which)?, ts))
    } else if w == b"TYPE".as_slice() {
        let (v, ts) = any_word_at(ts)?;
        let form = form_of(v)?;
        Ok((with_form(o, form)?, ts))
    } else if w == b"QNAME".as_slice() {
        let (q, ts) = name_at(ts)?;
        Ok((with_q(o, q)?, ts))
    } else if w == b"RNAME".as_slice() {
        let (r, ts) = name_at(ts)?;
        Ok((with_r(o, r)?, ts))
    } else {
        Err(Miss)
    }
}

/// One more operand.
#[tactic(auto, unfolding(crate::specs::Operands::operand_at))]
fn operand_at<'a, 't>(
    o: Operands<'a>,
    ts: &'a [Token<'t>],
) -> Result<(Operands<'a>, &'a [Token<'t>]), Miss>
    ensures { Reads (λ x. (x.0, x.1.now)) result (operand_at o.entry ts.now) }
{
    let (w, ts) = any_word_at(ts)?;
    let ts = open_at(ts)?;
    let (o, ts) = value_of(o, w, ts)?;
    let ts = close_at(ts)?;
    Ok((o, ts))
}

fn maybe_operand<'a, 't>(
    o: Operands<'a>,
    ts: &'a [Token<'t>],
) -> Result<(Operands<'a>, &'a [Token<'t>]), Miss>
    ensures { Reads (λ x. (x.0, x.1.now)) result (maybe operand_at o.entry ts.now) }
{
    if ts.len() == 0 {
        return Ok((o, ts));
    }
    operand_at(o, ts)
}

fn is_specific(form: Form) -> bool
    ensures { result ≡ is_specific form }
{
    match form {
        Form::Specific => true,
        Form::Generic => false,
        Form::Pattern => false,
    }
}

/// Wants RNL, TYPE and QNAME, and RNAME where the entry is SPECIFIC.
#[tactic(auto, unfolding(crate::specs::Operands::whole))]
fn whole<'a>(o: Operands<'a>) -> Result<Rnldef<'a>, Miss>
    ensures { Reads (λ x. x) result (whole o.entry) }
{
    let which = o.which.ok_or(Miss)?;
    let form = o.form.ok_or(Miss)?;
    let q = o.q.ok_or(Miss)?;
    if is_specific(form) && o.r.is_none() {
        return Err(Miss);
    }
    Ok(Rnldef {
        which,
        form,
        q,
        r: o.r,
    })
}

/// At most as many operands as there are kinds of them, and nothing after them.
#[tactic(auto, unfolding(crate::specs::Operands::rnldef_at))]
fn operands_at<'a, 't>(ts: &'a [Token<'t>]) -> Result<Rnldef<'a>, Miss>
    ensures { Reads (λ x. x) result (rnldef_at ts.now) }
{
    let none = Operands {
        which: None,
        form: None,
        q: None,
        r: None,
    };
    let (first, ts) = maybe_operand(none, ts)?;
    let (second, ts) = maybe_operand(first, ts)?;
    let (third, ts) = maybe_operand(second, ts)?;
    let (fourth, ts) = maybe_operand(third, ts)?;
    end_at(ts)?;
    whole(fourth)
}

/// What the tokens behind the word RNLDEF say. Those of `RNL(CON) TYPE(GENERIC) QNAME(A)` say an entry of the conversion
/// list for all names of `A`, and without the last operand they are a `Miss`.
pub fn rnldef_at<'a, 't>(ts: &'a [Token<'t>]) -> Result<Rnldef<'a>, Miss>
    ensures exact { Answers result ts.now }
    ensures read { Reads (λ x. x) result (rnldef_at ts.now) }
{
    operands_at(ts)
}

/// Whether a name has a length that it may not have.
pub fn has_bad_name(d: &Rnldef<'_>) -> bool
    ensures { result ≡ has_bad_name d.now }
{
    !is_qname(d.q.bytes()) || is_bad_rname(&d.r)
}

/// The entry that a statement makes whose names have the right lengths.
pub fn entry_of(alloc: Global, d: &Rnldef<'_>) -> Result<RnlEntry, NoMemory>
    requires { has_bad_name d.now ≡ false }
    ensures { IfOk result (λ e. e ≡ entry_of d.now) }
{
    let q = qname_of(alloc, d.q.bytes())?;
    let r = maybe_rname(alloc, &d.r)?;
    Ok(RnlEntry {
        which: d.which,
        form: d.form,
        q,
        r,
    })
}
