//! Laws of passes. Each law is the contract of a function that does nothing.
ghost use Rattle.std.specs.Prelude.{◌≡◌, ◌≢◌, ◌++◌, ◌∷◌, [], ℕ, All, List, false, true};
ghost use mathlib.Core.List.{IsPrefix};
ghost use Rattle.slot_pass.specs.declared.meeting.Order.{Order};
ghost use Rattle.extent_node.specs.Faults.{Calls};
ghost use Rattle.stamp_values.specs.Operations.{names_container};
ghost use Rattle.stamp_values.specs.declared.signing.Credential.TheVariants.{Token};
ghost use Rattle.stamp_types.specs.Requests.{Asked};
ghost use Rattle.stamp_types.specs.declared.past.Past.{Past};
ghost use Rattle.sas_token.specs.Tokens.{IsToken, Sent};
ghost use Rattle.stamp_model.specs.Withdrawals.{gives_policy, withdraws_policy};
ghost use Rattle.tickets.specs.declared.answer.Answer.{Answer};
ghost use Rattle.slot_state.specs.Slots.{SlotState};
ghost use Rattle.slot_pass.specs.Calls.{AdmitsBy, AnswersAfter, IsTokenDenied, MeetsIfServed};
ghost use Rattle.slot_pass.specs.Passes.{IsOrder, IsShown, PassState};

/// A caller who was shown that a policy or a key was withdrawn gets no answer by it. If an entry of the front takes a policy away, and no
/// entry after it in the front that the call gives is a Set Container ACL with this policy, then a request by a token that names the policy
/// is denied by one of S2 to S5, unless nodes were out of reach or memory ran out. If a reply names no rule, the last key pair that the pass
/// shows after the call admits the request; so a key that is not in this pair opened nothing.
pub fn who_was_shown_a_withdrawal_gets_no_answer_by_it()
    ensures policy { (p after : PassState) (s next : SlotState) (q : Asked) (t : ℕ) (old new : Calls) (a : Answer) (front rest later : List Past)
        (e : Past) (id : List ℕ) (token : Sent)
        → AnswersAfter p s q t old new a after next → IsShown after.pairs after.key after.front
        → p.front ≡ front ++ e ∷ rest → withdraws_policy id e.request ≡ true
        → after.front ≡ front ++ e ∷ later → All (λ l. gives_policy id l.request ≡ false) later
        → names_container q.ask.op ≡ true → q.ask.credential ≡ Token → IsToken q.ask.signing.query token → token.id ≡ id → id ≢ []
        → IsTokenDenied a }
    ensures key { (p after : PassState) (s next : SlotState) (q : Asked) (t : ℕ) (old new : Calls) (a : Answer)
        → AnswersAfter p s q t old new a after next → names_container q.ask.op ≡ true
        → AdmitsBy after q t a }
{}

/// The changes of two passes are in one list. A call leaves what its pass showed at its place: the request meets a history that the old
/// front begins, and the new front is this history, with the entry of the request after it if the request makes a change. And if two fronts
/// are of one history, both are beginnings of one list.
pub fn changes_of_two_passes_are_in_one_list()
    ensures made { (p after : PassState) (s next : SlotState) (q : Asked) (t : ℕ) (old new : Calls) (a : Answer)
        → AnswersAfter p s q t old new a after next → MeetsIfServed p q t a after }
    ensures grown { (p after : PassState) (s next : SlotState) (q : Asked) (t : ℕ) (old new : Calls) (a : Answer)
        → AnswersAfter p s q t old new a after next → IsPrefix p.front after.front × IsPrefix p.pairs after.pairs }
    ensures one { (p other : PassState) (order : Order) → IsOrder p.front other.front order
        → (list : List Past) × IsPrefix p.front list × IsPrefix other.front list }
{}
