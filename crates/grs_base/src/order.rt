//! The order in which resources are shown, which is this project's own.
ghost use Rattle.std.specs.Prelude.{◌≡◌};
ghost use Rattle.std.specs.Ordering.{on, then_cmp};
ghost use Rattle.grs_base.specs.Names.{padded};
ghost use Rattle.grs_base.specs.ResOrder.{group_of, qname_of, rname_of, by_numbers, res_order};

use super::name::{Qname, Rname, are_same};
use super::resource::Res;
use std::cmp::Ordering;

impl Res {
    /// The first name.
    pub fn qname(&self) -> &Qname
        ensures { result.now ≡ qname_of self.now }
    {
        match self {
            Res::Step { q, .. } | Res::System { q, .. } | Res::Systems { q, .. } => q,
        }
    }

    /// The second name.
    pub fn rname(&self) -> &Rname
        ensures { result.now ≡ rname_of self.now }
    {
        match self {
            Res::Step { r, .. } | Res::System { r, .. } | Res::Systems { r, .. } => r,
        }
    }

    /// Whether this resource is shown before another: by its group, its padded qname and its rname.
    pub fn order(&self, other: &Res) -> Ordering
        ensures { result ≡ res_order self.now other.now }
    {
        let groups = order_of_groups(self, other);
        if groups.is_ne() {
            return groups;
        }
        order_of_names(self, other)
    }
}

/// The order of the groups: Systems resources first, then system by system its System resources and,
/// job by job, its Step resources.
#[tactic(auto, using(crate::proofs::OrderLaws::orders))]
fn order_of_groups(a: &Res, b: &Res) -> Ordering
    ensures { result ≡ on group_of by_numbers a.now b.now }
{
    match (a, b) {
        (Res::Systems { .. }, Res::Systems { .. }) => Ordering::Equal,
        (Res::Systems { .. }, _) => Ordering::Less,
        (_, Res::Systems { .. }) => Ordering::Greater,
        (Res::System { system: s, .. }, Res::System { system: t, .. }) => s.0.cmp(&t.0),
        (Res::System { system: s, .. }, Res::Step { system: t, .. }) => {
            s.0.cmp(&t.0).then(Ordering::Less)
        }
        (Res::Step { system: s, .. }, Res::System { system: t, .. }) => {
            s.0.cmp(&t.0).then(Ordering::Greater)
        }
        (
            Res::Step {
                system: s,
                job: j,
                ..
            },
            Res::Step {
                system: t,
                job: k,
                ..
            },
        ) => { s.0.cmp(&t.0).then(j.cmp(k)) }
    }
}

/// Two runs of bytes behind as many equal ones as eight at a time pass, which their order doesn't hang on.
#[tactic(auto, using(crate::proofs::OrderLaws::runs))]
fn behind_equal<'a>(a: &'a [u8], b: &'a [u8]) -> (&'a [u8], &'a [u8])
    ensures { by_numbers result.0.now result.1.now ≡ by_numbers a.now b.now }
{
    let (mut first, mut second) = (a, b);
    'eights: while let (Some((x, xs)), Some((y, ys))) = (
        first.split_first_chunk::<8>(),
        second.split_first_chunk::<8>(),
    ) {
        if !are_same(x, y) {
            return (first, second);
        }
        first = xs;
        second = ys;
    }
    (first, second)
}

/// The order of two runs of bytes.
#[tactic(auto, using(crate::proofs::OrderLaws::runs))]
fn order_of_bytes(a: &[u8], b: &[u8]) -> Ordering
    ensures { result ≡ by_numbers a.now b.now }
{
    let (mut first, mut second) = behind_equal(a, b);
    'bytes: while let (Some((x, xs)), Some((y, ys))) = (first.split_first(), second.split_first()) {
        if x != y {
            return x.cmp(y);
        }
        first = xs;
        second = ys;
    }
    first.len().cmp(&second.len())
}

/// The order of the names. The qnames without their blanks are compared for names that are else the same.
fn order_of_names(a: &Res, b: &Res) -> Ordering
    ensures { result ≡ then_cmp (on (λ r. padded (qname_of r)) by_numbers) (then_cmp (on rname_of by_numbers) (on qname_of by_numbers)) a.now b.now }
{
    let padded_qnames = order_of_bytes(a.qname().padded(), b.qname().padded());
    if padded_qnames.is_ne() {
        return padded_qnames;
    }
    let rnames = order_of_bytes(a.rname().bytes(), b.rname().bytes());
    if rnames.is_ne() {
        return rnames;
    }
    order_of_bytes(a.qname().bytes(), b.qname().bytes())
}
