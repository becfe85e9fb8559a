//! Laws of calls with passes. Each law is the contract of a function that does nothing.
ghost use Rattle.std.specs.Prelude.{◌≡◌, ◌≢◌, ◌++◌, ◌∷◌, [], ℕ, All, List, false, true};
ghost use mathlib.Core.List.{IsPrefix};
ghost use Rattle.stamp_values.specs.Operations.{names_container};
ghost use Rattle.stamp_values.specs.declared.signing.Credential.TheVariants.{Token};
ghost use Rattle.stamp_types.specs.Requests.{Asked};
ghost use Rattle.stamp_types.specs.declared.past.Past.{Past};
ghost use Rattle.sas_token.specs.Tokens.{IsToken, Sent};
ghost use Rattle.stamp_model.specs.Withdrawals.{gives_policy, withdraws_policy};
ghost use Rattle.tickets.specs.declared.answer.Answer.{Answer};
ghost use Rattle.slot_pass.specs.Calls.{AdmitsBy, IsTokenDenied};
ghost use Rattle.slot_pass.specs.Passes.{IsOrder, IsShown, PassState};
ghost use Rattle.slot_pass.specs.declared.meeting.Order.{Order};
ghost use Rattle.stamp_locks.specs.InTurn.{AreCalls, AreInOneList, HasInTurn, PassCall};
ghost use Rattle.stamp_locks.specs.Shown.{AdmitsKnown, IsHandledAfter};

use extent_node::Wire;
use slot_pass::{
    changes_of_two_passes_are_in_one_list as in_a_slot,
    who_was_shown_a_withdrawal_gets_no_answer_by_it as of_a_slot,
};

/// Who was shown that a policy or a key was withdrawn gets no answer by it from a stamp. If an entry of the front takes a policy away, and no
/// entry after it in the front that the call gives is a Set Container ACL with this policy, then a request by a token that names the policy is
/// denied by one of S2 to S5, unless nodes were out of reach or memory ran out. If a reply names no rule, the last key pair that the pass shows
/// after the call admits the request. So who knows a key pair gets no answer by a key that is not in the pair, unless the call shows a later pair
/// that has the key.
pub fn who_was_shown_a_withdrawal_gets_no_answer_by_it<W: Wire>()
    ensures policy { (p after : PassState) (q : Asked) (t : ℕ) (a : Answer) (front rest later : List Past) (e : Past) (id : List ℕ) (token : Sent)
        → IsHandledAfter W.faults p q t a after → IsShown after.pairs after.key after.front
        → p.front ≡ front ++ e ∷ rest → withdraws_policy id e.request ≡ true
        → after.front ≡ front ++ e ∷ later → All (λ l. gives_policy id l.request ≡ false) later
        → names_container q.ask.op ≡ true → q.ask.credential ≡ Token → IsToken q.ask.signing.query token → token.id ≡ id → id ≢ []
        → IsTokenDenied a }
    ensures key { (p after : PassState) (q : Asked) (t : ℕ) (a : Answer)
        → IsHandledAfter W.faults p q t a after → names_container q.ask.op ≡ true
        → AdmitsBy after q t a }
    ensures known { (p after : PassState) (q : Asked) (t : ℕ) (a : Answer)
        → IsHandledAfter W.faults p q t a after → names_container q.ask.op ≡ true
        → AdmitsKnown p after q t a }
{
    of_a_slot();
    in_a_slot();
}

/// The changes of two passes are in one list. The front after calls with one pass begins with what the pass had shown. After that it has what
/// these calls changed, each change once, in the order of the calls. If two fronts are of one history, one list has in turn the changes of the
/// calls with both passes.
pub fn changes_of_two_passes_are_in_one_list<W: Wire>()
    ensures made { (p after : PassState) (calls : List PassCall) → AreCalls W.faults p calls after → HasInTurn p.front calls after.front }
    ensures grown { (p after : PassState) (calls : List PassCall) → AreCalls W.faults p calls after → IsPrefix p.front after.front × IsPrefix p.pairs after.pairs }
    ensures one { (p after o last : PassState) (calls others : List PassCall) (order : Order) → AreCalls W.faults p calls after → AreCalls W.faults o others last
        → IsOrder after.front last.front order → AreInOneList p.front o.front calls others }
{
    in_a_slot();
}
