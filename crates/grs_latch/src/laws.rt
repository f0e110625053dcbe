//! Laws of latches: each function's contract is one, and there is nothing to run.
ghost use Rattle.std.specs.Prelude.{◌≡◌, ◌++◌, Bool, List, true, false, Some, if◌then◌else◌};
ghost use Rattle.grs_base.specs.Lists.{enq_decision, deq_code, is_owner, list_without};
ghost use Rattle.grs_base.specs.State.{State, list_of, enq_state, deq_state, release_state};
ghost use Rattle.grs_base.specs.declared.resource.TaskId.{TaskId};
ghost use Rattle.grs_base.specs.declared.resource.Res.{Res};
ghost use Rattle.grs_base.specs.declared.resource.Ctl.{Ctl};
ghost use Rattle.grs_base.specs.declared.decision.Standing.{Standing};
ghost use Rattle.grs_base.specs.declared.decision.Effect.TheVariants.{Nothing, Append};
ghost use Rattle.grs_latch.specs.Latches.{number_of, ret_of, obtain_code, is_queued, obtained, release_code, released};
ghost use Rattle.grs_latch.specs.Calls.{Sets, reply, replies, after, after_all};
ghost use Rattle.grs_latch.specs.Granted.{granted_of};
ghost use Rattle.grs_latch.specs.declared.call.LatchCall.{LatchCall};

/// An obtain is answered and queued as an ENQ of a task without a limit, a release as a DEQ with RET=HAVE.
pub fn latches_are_resources()
    ensures obtain { (st : Standing) (can may_wait : Bool) → number_of (enq_decision st (ret_of may_wait) false can).code ≡ Some (obtain_code st can) }
    ensures queued { (st : Standing) (can may_wait : Bool) → (enq_decision st (ret_of may_wait) false can).effect ≡ if is_queued st can may_wait then Append else Nothing }
    ensures release { (st : Standing) → number_of (deq_code st true) ≡ Some (release_code st) }
{}

/// The list of a latch after an obtain is that of a resource after such an ENQ, after a release that after a DEQ, and after
/// a purge that of a resource whose element was taken out wherever it stood.
#[tactic(auto, using(crate::proofs::LawLemmas::lists))]
pub fn latches_have_lists_of_resources()
    ensures obtained { (s : State) (r : Res) (t : TaskId) (c : Ctl) (may_wait : Bool) → obtained (list_of s r) t c may_wait ≡ list_of (enq_state s r t c (ret_of may_wait) false) r }
    ensures released { (s : State) (r : Res) (t : TaskId) → released (list_of s r) t ≡ list_of (deq_state s r t) r }
    ensures purged { (s : State) (r : Res) (t : TaskId) → list_without (list_of s r) t ≡ list_of (release_state s r t) r }
{}

/// Those get latches by a call, whichever it is, who waited before it and own behind it: by set, by latch, and then in
/// order of arrival.
#[tactic(auto, using(crate::proofs::GrantLemmas::grants))]
pub fn grants_are_new_owners()
    ensures { (c : LatchCall) (ss : Sets) → (reply 0 c ss).grants ≡ granted_of 0 ss (after c ss) }
{}

/// Calls behind others are answered, and leave the sets, as by what those before them left.
#[tactic(auto, using(crate::proofs::LawLemmas::lists_of_calls))]
pub fn calls_go_on()
    ensures replies { (cs ds : List LatchCall) (ss : Sets) → replies (cs ++ ds) ss ≡ replies cs ss ++ replies ds (after_all cs ss) }
    ensures after { (cs ds : List LatchCall) (ss : Sets) → after_all (cs ++ ds) ss ≡ after_all ds (after_all cs ss) }
{}
