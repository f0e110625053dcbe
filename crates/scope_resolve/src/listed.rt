//! Which of the three name lists a name stands in, whether the lists are gone through or an index is asked.
ghost use Rattle.std.specs.Prelude.{◌≡◌};
ghost use Rattle.grs_base.specs.declared.rnl.Lists.{Lists as ListsValue};
ghost use Rattle.scope_resolve.specs.Resolve.{is_listed};

use super::resolver::Resolver;
use grs_base::{Lists, Qname, Rname};
use rnl_match::find;

/// Three name lists that can be asked for a name.
pub(crate) trait Listed {
    /// The lists, however they are kept.
    ghost lists: { Self → ListsValue };

    /// Whether the inclusion list has an entry that matches.
    fn is_included(&self, q: &Qname, r: &Rname) -> bool
        ensures { result ≡ is_listed (lists self.now).incl q.now r.now };

    /// Whether the exclusion list has one.
    fn is_excluded(&self, q: &Qname, r: &Rname) -> bool
        ensures { result ≡ is_listed (lists self.now).excl q.now r.now };

    /// Whether the conversion list has one.
    fn is_converted(&self, q: &Qname, r: &Rname) -> bool
        ensures { result ≡ is_listed (lists self.now).con q.now r.now };
}

impl Listed for Lists {
    ghost lists = { λ s. s };

    fn is_included(&self, q: &Qname, r: &Rname) -> bool {
        find(&self.incl, q, r).is_some()
    }

    fn is_excluded(&self, q: &Qname, r: &Rname) -> bool {
        find(&self.excl, q, r).is_some()
    }

    fn is_converted(&self, q: &Qname, r: &Rname) -> bool {
        find(&self.con, q, r).is_some()
    }
}

impl<'l> Listed for Resolver<'l> {
    ghost lists = { λ s. s };

    fn is_included(&self, q: &Qname, r: &Rname) -> bool {
        self.incl.find(q, r).is_some()
    }

    fn is_excluded(&self, q: &Qname, r: &Rname) -> bool {
        self.excl.find(q, r).is_some()
    }

    fn is_converted(&self, q: &Qname, r: &Rname) -> bool {
        self.con.find(q, r).is_some()
    }
}
