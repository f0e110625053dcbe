//! What GQSCAN and DISPLAY show: which resources are of a place and pass a filter, and the code. It knows no lists.
//! (z/OS MVS Programming: Authorized Assembler Services Reference, "GQSCAN".)
#![tactic(auto)]

ghost use Rattle.std.specs.Prelude.{◌≡◌};
ghost use Rattle.grs_base.specs.Looks.{is_of_place, is_named, matches};
ghost use Rattle.gqscan.specs.Shown.{code_for};

use grs_base::{Code, Filter, Place, Qname, Res, Rname, slice_of};

/// Whether a qname is the one that is asked for, if one is.
fn is_qname_named(wanted: &Option<Qname>, name: &Qname) -> bool
    ensures { result ≡ is_named wanted.now name.now }
{
    match wanted {
        None => true,
        Some(wanted) => wanted == name,
    }
}

/// Whether an rname is the one that is asked for, if one is.
fn is_rname_named(wanted: &Option<Rname>, name: &Rname) -> bool
    ensures { result ≡ is_named wanted.now name.now }
{
    match wanted {
        None => true,
        Some(wanted) => wanted == name,
    }
}

/// Whether a resource passes a filter. `waits` tells whether somebody waits on it.
pub fn matches_filter(filter: &Filter, res: &Res, waits: bool) -> bool
    ensures { result ≡ matches filter.now res.now waits }
{
    match filter {
        Filter::All => true,
        Filter::Contended => waits,
        Filter::Named { q, r } => is_qname_named(q, res.qname()) && is_rname_named(r, res.rname()),
    }
}

/// Whether a resource is of a place: a Systems resource of its slice, any other of its system.
pub fn is_of_place(place: Place, res: &Res) -> bool
    ensures { result ≡ is_of_place place res.now }
{
    match (place, res) {
        (Place::Slice(slice), Res::Systems { q, r }) => slice_of(q, r) == slice,
        (Place::Local(home), Res::System { system, .. } | Res::Step { system, .. }) => {
            *system == home
        }
        _ => false,
    }
}

/// The code of a display that shows the lists of so many resources: 00 where it shows any, else 04.
pub fn code_of(rows: u32) -> Code
    ensures { result ≡ code_for rows }
{
    if rows == 0 { Code::C04 } else { Code::C00 }
}
