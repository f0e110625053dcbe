//! Name lists: a long one and its index, which compares few of its entries; and the calls that resolve by lists without
//! an index, which no part of the program makes.
ghost use Rattle.std.specs.Prelude.{◌≡◌, ◌≤◌, ◌<◌, ◌+◌, ◌||◌, ◌==◌, ◌∷◌, [], false, true, IfOk};
ghost use Rattle.grs_base.specs.declared.rnl.Which.TheVariants.{Excl};
ghost use Rattle.grs_base.specs.Names.{trim_blanks};
ghost use Rattle.rnl_match.specs.Index.{most_compared, is_under, is_pattern};

use grs_base::{
    Form, Lists, NameFault, NoMemory, Qname, Res, Rname, RnlEntry, RnlList, Scope, Steps, SysId,
    Which,
};
use grs_deck::read_deck;
use rnl_match::{RnlIndex, find};
use scope_resolve::{Resolved, Resolver, Unresolved, resolve, resolve_kind};
use std::alloc::Global;
use std::marker::Brand;
use std::sync::ledger::{Blank, Ledger};
use std::test::Fail;

/// An entry of the exclusion list.
fn entry(
    alloc: Global,
    form: Form,
    qname: &[u8],
    rname: Option<&[u8]>,
) -> Result<RnlEntry, NameFault>
    ensures which { IfOk result (λ e. e.which ≡ Excl) }
    ensures form { IfOk result (λ e. e.form ≡ form) }
    ensures qname { IfOk result (λ e. e.q ≡ trim_blanks qname.now) }
{
    let q = Qname::new(alloc, qname)?;
    let r = match rname {
        None => None,
        Some(rname) => Some(Rname::new(alloc, rname)?),
    };
    Ok(RnlEntry {
        which: Which::Excl,
        form,
        q,
        r,
    })
}

/// The entry at a place of the long list: two generic ones of the qname A, three patterns that match nothing of it, and
/// specific ones of other qnames.
fn entry_at(alloc: Global, place: u16) -> Result<RnlEntry, NameFault>
    ensures which { IfOk result (λ e. e.which ≡ Excl) }
    ensures under { IfOk result (λ e. is_under (65 ∷ []) e ≡ (place == 7 || place == 4000)) }
    ensures pattern { IfOk result (λ e. is_pattern e ≡ (place == 2 || place == 2000 || place == 4095)) }
{
    match place {
        7 | 4000 => entry(alloc, Form::Generic, b"A", None),
        2 => entry(alloc, Form::Pattern, b"A?", None),
        2000 => entry(alloc, Form::Pattern, b"*", Some(b"C*")),
        4095 => entry(alloc, Form::Pattern, b"*B", Some(b"B")),
        _ => {
            let qname = [b'O', (place / 256) as u8, (place % 256) as u8, b'.'];
            entry(alloc, Form::Specific, &qname, Some(b"B"))
        }
    }
}

/// The long list, of which five entries may be compared with a name of the qname A.
fn long_list(alloc: Global) -> Result<RnlList, NameFault>
    ensures { IfOk result (λ list. most_compared list (65 ∷ []) ≡ 5) }
{
    let mut list = RnlList::new(alloc, Which::Excl);
    for place in 0..4096u16 {
        list.push(entry_at(alloc, place)?)?;
    }
    Ok(list)
}

/// The name that is looked up: a qname of one letter.
fn qname(alloc: Global, letter: u8) -> Result<Qname, NameFault>
    ensures { IfOk result (λ q. q ≡ trim_blanks (letter ∷ [])) }
{
    Qname::new(alloc, &[letter])
}

/// What an index finds of a name that five entries at most are compared with.
fn find_in_five<L: Ledger>(
    index: &RnlIndex<'_>,
    q: &Qname,
    r: &Rname,
    steps: &mut Steps<L>,
) -> Option<usize>
    requires { most_compared index.now q.now ≡ 5 }
    ensures { steps.new ≤ steps.old + 5 }
{
    index.find_counted(q, r, steps)
}

/// The places that are found in the long list: of (A,B) by the list, by its index, and counted; of (C,B) by its index.
fn places<L: Ledger>(
    alloc: Global,
    blank: Blank,
    list: &RnlList,
) -> Result<[Option<usize>; 4], NameFault>
    requires name { blank.name ≡ L.name }
    requires parts { blank.parts ≡ L.parts }
    requires some { 0 < blank.parts }
    requires few { most_compared list.now (65 ∷ []) ≡ 5 }
{
    let a = qname(alloc, b'A')?;
    let c = qname(alloc, b'C')?;
    let b = Rname::new(alloc, b"B")?;
    let index = RnlIndex::build(alloc, list)?;
    let mut steps = Steps::<L>::begin(blank);
    Ok([
        find(list, &a, &b),
        index.find(&a, &b),
        find_in_five(&index, &a, &b, &mut steps),
        index.find(&c, &b),
    ])
}

fn places_in_long_list(alloc: Global) -> Result<[Option<usize>; 4], NameFault> {
    let list = long_list(alloc)?;
    places::<Brand>(alloc, Blank::new(1), &list)
}

#[test]
fn few_entries_are_compared(rt: HostRuntime) -> Result<(), Fail> {
    assert_eq!(rt;
        places_in_long_list(rt.alloc())?,
        [Some(7), Some(7), Some(7), None]
    );
    Ok(())
}

/// A deck with an entry that includes, two that exclude and one that converts.
const TEXT: &[u8] = b"RNLDEF RNL(INCL) TYPE(GENERIC) QNAME(APPL)\n\
    RNLDEF RNL(EXCL) TYPE(SPECIFIC) QNAME(APPL) RNAME(TEMP)\n\
    RNLDEF RNL(EXCL) TYPE(SPECIFIC) QNAME(SYSVTOC) RNAME(VOL001)\n\
    RNLDEF RNL(CON) TYPE(SPECIFIC) QNAME(SYSVTOC) RNAME(VOL002)\n\
    SYSTEM SYA\n";

fn scope_of(res: &Res) -> Scope {
    match res {
        Res::Step { .. } => Scope::Step,
        Res::System { .. } => Scope::System,
        Res::Systems { .. } => Scope::Systems,
    }
}

fn kind_of(found: Resolved) -> (Scope, bool) {
    (scope_of(&found.res), found.hardware)
}

/// What lists make of what is asked: the decision, and the resource.
fn by_lists(
    alloc: Global,
    lists: &Lists,
    ask: &Unresolved<'_>,
) -> Result<[(Scope, bool); 2], NoMemory> {
    let found = resolve(alloc, lists, ask, SysId(0), 0)?;
    Ok([resolve_kind(lists, ask), kind_of(found)])
}

/// The same by indices that are there.
fn by_resolver(
    alloc: Global,
    resolver: &Resolver<'_>,
    ask: &Unresolved<'_>,
) -> Result<[(Scope, bool); 2], NoMemory> {
    let found = resolver.resolve(alloc, ask, SysId(0), 0)?;
    Ok([resolver.resolve_kind(ask), kind_of(found)])
}

/// The same by indices that are made for it.
fn by_indices(
    alloc: Global,
    lists: &Lists,
    ask: &Unresolved<'_>,
) -> Result<[(Scope, bool); 2], NoMemory> {
    let resolver = Resolver::build(alloc, lists)?;
    by_resolver(alloc, &resolver, ask)
}

/// The same by the lists and by indices, of a request of this scope, or of a RESERVE where there is none, for these
/// names.
fn kinds_of(
    alloc: Global,
    lists: &Lists,
    scope: Option<Scope>,
    names: (&[u8], &[u8]),
    rnl: bool,
) -> Result<[[(Scope, bool); 2]; 2], NameFault> {
    let q = Qname::new(alloc, names.0)?;
    let r = Rname::new(alloc, names.1)?;
    let ask = Unresolved {
        reserve: scope.is_none(),
        q: &q,
        r: &r,
        scope: scope.unwrap_or(Scope::Systems),
        rnl,
    };
    Ok([
        by_lists(alloc, lists, &ask)?,
        by_indices(alloc, lists, &ask)?,
    ])
}

/// The same by the lists of the deck.
fn kinds_in_deck(
    alloc: Global,
    scope: Option<Scope>,
    names: (&[u8], &[u8]),
    rnl: bool,
) -> Result<[[(Scope, bool); 2]; 2], NameFault> {
    match read_deck(alloc, TEXT) {
        Ok(deck) => kinds_of(alloc, &deck.lists, scope, names, rnl),
        Err(_) => Err(NameFault::NoMemory),
    }
}

#[test]
fn resolves_by_lists_and_by_indices(rt: HostRuntime) -> Result<(), Fail> {
    let alloc = rt.alloc();
    let (temp, data): ((&[u8], &[u8]), (&[u8], &[u8])) = ((b"APPL", b"TEMP"), (b"APPL", b"DATA"));
    let (first, second, third): ((&[u8], &[u8]), (&[u8], &[u8]), (&[u8], &[u8])) = (
        (b"SYSVTOC", b"VOL001"),
        (b"SYSVTOC", b"VOL002"),
        (b"SYSVTOC", b"VOL003"),
    );
    for (scope, names, rnl, want) in [
        (Some(Scope::System), temp, true, (Scope::System, false)),
        (Some(Scope::System), data, true, (Scope::Systems, false)),
        (Some(Scope::System), data, false, (Scope::System, false)),
        (Some(Scope::Step), data, true, (Scope::Step, false)),
        (Some(Scope::Systems), temp, true, (Scope::System, false)),
        (Some(Scope::Systems), second, true, (Scope::Systems, false)),
        (None, first, true, (Scope::System, true)),
        (None, second, true, (Scope::Systems, false)),
        (None, third, true, (Scope::Systems, true)),
        (None, second, false, (Scope::Systems, true)),
    ] {
        assert_eq!(rt; kinds_in_deck(alloc, scope, names, rnl)?, [[want; 2]; 2]);
    }
    Ok(())
}
