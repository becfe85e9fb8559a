//! The front of each container that a connection knows. A law about definitions is the contract of a function that does nothing.
ghost use Rattle.std.specs.Prelude.{◌≡◌, ◌≢◌, ◌++◌, ◌∷◌, [], ℕ, All, IsTrue, List, Some, false};
ghost use Rattle.std.specs.FinMap as finite;
ghost use mathlib.Core.List.{IsPrefix};
ghost use Rattle.stamp_values.specs.declared.key.Key.{Key};
ghost use Rattle.stamp_values.specs.declared.signing.Credential.TheVariants.{Token};
ghost use Rattle.stamp_types.specs.declared.reply.Reply.{Reply};
ghost use Rattle.stamp_types.specs.declared.rule.Rule.{Rule};
ghost use Rattle.stamp_types.specs.Requests.{Asked};
ghost use Rattle.stamp_types.specs.World.{no_part, part_at};
ghost use Rattle.sas_token.specs.Tokens.{IsToken, Sent};
ghost use Rattle.stamp_model.specs.Runs.{Timed, part_after_all};
ghost use Rattle.stamp_model.specs.Withdrawals.{gives_policy, is_before_fields, withdraws_policy};
ghost use Rattle.served_history.specs.declared.entry.Entry.{Entry};
ghost use Rattle.served_history.specs.Fronts.{front_at, own_change};
ghost use Rattle.served_history.specs.Histories.{IsServed, world_left};

/// A connection knows a front of each container: the accepted changes of the container, in their order. The container is the replay
/// of its front. A call makes a front longer, if at all. After a call the front of the request's own container is the front that the request
/// met, and then the request's own change, if it made one. The fronts that two connections have of a container are beginnings of one list.
pub fn a_connection_is_a_pass_of_each_container()
    ensures grown { (known known' : List Entry) (q : Asked) (t : ℕ) (reply : Reply) (key : Key)
        → IsServed known q t reply known' → IsPrefix (front_at known key) (front_at known' key) }
    ensures own { (known known' : List Entry) (q : Asked) (t : ℕ) (reply : Reply)
        (turn : IsServed known q t reply known')
        → front_at known' q.ask.key
        ≡ front_at (known ++ turn.others) q.ask.key ++ own_change (known ++ turn.others) q t }
    ensures replay { (known : List Entry) (key : Key)
        → part_at (world_left known) key ≡ part_after_all (part_at finite.empty key) (front_at known key) }
    ensures one { (one other history : List Entry) (key : Key) → IsPrefix one history → IsPrefix other history
        → (list : List Timed) × IsPrefix (front_at one key) list × IsPrefix (front_at other key) list }
{}

/// A connection that knows that a policy was withdrawn gets no answer by it. If the front of a container has a change that withdraws a policy,
/// and no later change of this front gives the policy again, a request with a token of this policy on this container is refused by one of the
/// rules S2 to S5. The front is the one that the request meets: of the entries that the connection knew, and of those that came after them.
pub fn who_knows_a_withdrawal_gets_no_answer_by_it()
    ensures { (known known' : List Entry) (q : Asked) (t : ℕ) (reply : Reply)
        (front rest : List Timed) (e : Timed) (id : List ℕ) (token : Sent)
        (turn : IsServed known q t reply known')
        → front_at (known ++ turn.others) q.ask.key ≡ front ++ e ∷ rest
        → IsTrue (withdraws_policy id e.request)
        → All (λ r. gives_policy id r.request ≡ false) rest
        → q.ask.credential ≡ Token → IsToken q.ask.signing.query token
        → token.id ≡ id → id ≢ []
        → (rule : Rule) × (IsTrue (is_before_fields rule) × (reply.rule ≡ Some rule)) }
{}
