//! Looks at the lists: the place that is looked at, and which of its resources are shown.
ghost use Rattle.std.specs.Prelude.{◌≡◌, IfOk};

use super::NoMemory;
use super::name::{Qname, Rname};
use super::resource::SysId;
use std::alloc::Global;

/// Which resources are shown.
#[derive(PartialEq, Eq, Drop)]
pub enum Filter {
    /// Every resource with a list that isn't empty.
    All,
    /// Resources on which somebody waits.
    Contended,
    /// Resources of these names; a name that isn't given may be any. At least one is given.
    Named { q: Option<Qname>, r: Option<Rname> },
}

/// What is looked at: a slice of the Systems resources, from 0 to 63, or the Step and System resources of
/// one system.
#[derive(Clone, Copy, Debug, PartialEq, Eq)]
pub enum Place {
    /// A slice of the Systems resources.
    Slice(u32),
    /// The Step and System resources of a system.
    Local(SysId),
}

/// An equal name, if there is one.
pub(crate) fn copy_qname(alloc: Global, name: &Option<Qname>) -> Result<Option<Qname>, NoMemory>
    ensures { IfOk result (λ copied. copied ≡ name.now) }
{
    match name {
        None => Ok(None),
        Some(name) => Ok(Some(name.copy(alloc)?)),
    }
}

/// An equal name, if there is one.
pub(crate) fn copy_rname(alloc: Global, name: &Option<Rname>) -> Result<Option<Rname>, NoMemory>
    ensures { IfOk result (λ copied. copied ≡ name.now) }
{
    match name {
        None => Ok(None),
        Some(name) => Ok(Some(name.copy(alloc)?)),
    }
}

impl Filter {
    /// An equal filter.
    pub fn copy(&self, alloc: Global) -> Result<Filter, NoMemory>
        ensures { IfOk result (λ filter. filter ≡ self.now) }
    {
        match self {
            Filter::All => Ok(Filter::All),
            Filter::Contended => Ok(Filter::Contended),
            Filter::Named { q, r } => {
                let q = copy_qname(alloc, q)?;
                let r = copy_rname(alloc, r)?;
                Ok(Filter::Named { q, r })
            }
        }
    }
}
