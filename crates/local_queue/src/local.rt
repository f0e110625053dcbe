//! The lists of one system.
ghost use Rattle.std.specs.Prelude.{◌≡◌, [], IfOk, OnOk, OnErr};
ghost use Rattle.grs_base.specs.Looks.{look as looked};
ghost use Rattle.grs_base.specs.declared.look.Place.TheVariants.{Local as LocalPlace};
ghost use Rattle.grs_wire.specs.Wants.{answer_to, after_want, new_owners};

use grs_base::{Filter, List, NoMemory, Place, Row, SysId};
use grs_wire::Req;
use qel_store::LinkedQueues;
use queue_table::{Outcome, Table};
use std::alloc::Global;
use std::marker::Model;

/// The lists of one system, seen as its number and all their elements with their resources in order of
/// arrival.
#[derive(Drop)]
pub struct Local {
    system: SysId,
    table: Table<LinkedQueues>,
    alloc: Global,
}

impl Model for Local {
    ghost use Rattle.local_queue.specs.LocalView.{LocalView};

    ghost Value = { LocalView };

    ghost view = { λ a. record { system = a.system; elements = a.table.elements } };
}

impl Local {
    /// No lists yet, of this system.
    pub fn new(alloc: Global, system: SysId) -> Self
        ensures { result ≡ record { system = system; elements = [] } }
    {
        Local {
            system,
            table: Table::new(alloc, LinkedQueues::new(alloc)),
            alloc,
        }
    }

    /// Answers a request at once. Without memory nothing changes.
    pub fn request(&mut self, req: &Req) -> Result<Outcome, NoMemory>
        ensures answer { IfOk result (λ outcome. outcome.answer ≡ answer_to self.old.elements req.now.task req.now.want) }
        ensures rank { IfOk result (λ outcome. outcome.rank ≡ 0) }
        ensures owners { IfOk result (λ outcome. outcome.owners ≡ new_owners self.old.elements req.now.task req.now.want) }
        ensures system { self.new.system ≡ self.old.system }
        ensures after { OnOk result (self.new.elements ≡ after_want self.old.elements req.now.task req.now.want) }
        ensures unchanged { OnErr result (self.new ≡ self.old) }
    {
        self.table.carry_out(self.alloc, req)
    }

    /// The lists of the system's own resources that pass a filter, in the order in which resources are shown.
    pub fn look(&self, filter: &Filter) -> Result<List<Row>, NoMemory>
        ensures { IfOk result (λ rows. rows ≡ looked self.now.elements (LocalPlace self.now.system) filter.now) }
    {
        self.table
            .look(self.alloc, Place::Local(self.system), filter)
    }
}
