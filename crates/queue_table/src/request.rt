//! A request on a table of resources: its answer, and who got control by it.
ghost use Rattle.std.specs.Prelude.{◌≡◌, IfOk, OnOk, OnErr};
ghost use Rattle.grs_wire.specs.Wants.{answer_to, after_want, new_owners};

use super::slices::look_slices;
use super::table::Table;
use grs_base::{Code, List, NoMemory, Queues, TaskId};
use grs_wire::{Answer, Req, Want};
use std::alloc::Global;

/// What a request led to: its answer, the rank that it was given (0 where nothing is ranked), and the
/// tasks other than the asker that got control by it, in the order of the list.
#[derive(Drop)]
pub struct Outcome {
    pub answer: Answer,
    pub rank: u64,
    pub owners: List<TaskId>,
}

/// An outcome in which nothing is ranked.
fn unranked(answer: Answer, owners: List<TaskId>) -> Outcome
    ensures answer { result.answer ≡ answer }
    ensures rank { result.rank ≡ 0 }
    ensures owners { result.owners ≡ owners }
{
    Outcome {
        answer,
        rank: 0,
        owners,
    }
}

impl<Q: Queues> Table<Q> {
    /// What a request would be answered, whatever its resource. Nothing changes.
    pub fn answer(&self, alloc: Global, req: &Req) -> Result<Answer, NoMemory>
        ensures { IfOk result (λ answer. answer ≡ answer_to self.now.elements req.now.task req.now.want) }
    {
        match &req.want {
            Want::Enq {
                res,
                ctl,
                ret,
                full,
            } => Ok(Answer::Coded(self.decide_enq(res, req.task, *ctl, *ret, *full).code)),
            Want::Deq { res, have } => { Ok(Answer::Coded(self.decide_deq(res, req.task, *have))) }
            Want::Release { .. } => Ok(Answer::Coded(Code::C00)),
            Want::Look {
                first,
                count,
                filter,
            } => Ok(Answer::Rows(look_slices(alloc, self, *first, *count, filter)?)),
        }
    }

    /// Carries a request out, whatever its resource, and answers it at once. Without memory the table stays as
    /// it was.
    #[tactic(auto, using(crate::proofs::OwnerLemmas::outcomes))]
    pub fn carry_out(&mut self, alloc: Global, req: &Req) -> Result<Outcome, NoMemory>
        ensures answer { IfOk result (λ outcome. outcome.answer ≡ answer_to self.old.elements req.now.task req.now.want) }
        ensures rank { IfOk result (λ outcome. outcome.rank ≡ 0) }
        ensures owners { IfOk result (λ outcome. outcome.owners ≡ new_owners self.old.elements req.now.task req.now.want) }
        ensures after { OnOk result (self.new.elements ≡ after_want self.old.elements req.now.task req.now.want) }
        ensures unchanged { OnErr result (self.new.elements ≡ self.old.elements) }
    {
        match &req.want {
            Want::Enq {
                res,
                ctl,
                ret,
                full,
            } => {
                self.reserve(res)?;
                let code = self.enq_copied(alloc, res, req.task, *ctl, *ret, *full)?;
                Ok(unranked(Answer::Coded(code), List::new(alloc)))
            }
            Want::Deq { res, have } => {
                let (code, owners) = self.deq_told(alloc, res, req.task, *have)?;
                Ok(unranked(Answer::Coded(code), owners))
            }
            Want::Release { res } => {
                let owners = self.release_told(alloc, res, req.task)?;
                Ok(unranked(Answer::Coded(Code::C00), owners))
            }
            Want::Look {
                first,
                count,
                filter,
            } => {
                let rows = look_slices(alloc, self, *first, *count, filter)?;
                Ok(unranked(Answer::Rows(rows), List::new(alloc)))
            }
        }
    }
}
