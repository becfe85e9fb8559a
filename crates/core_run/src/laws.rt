//! Laws of runs. Each law is the contract of a function that does nothing.
ghost use Rattle.std.specs.Prelude.{◌≡◌, ◌≢◌, ◌⊎◌, ◌↔◌, ℕ, ◌+◌, Bool, true, false, All, IfSome, IsSome, IsTrue, List, [], ◌∷◌, ◌++◌, length, slice_set, Option, Some, None, Ok, Err};
ghost use Rattle.stamp_values.specs.declared.acl.Acl.{Acl};
ghost use Rattle.stamp_values.specs.declared.key.Key.{Key};
ghost use Rattle.stamp_values.specs.declared.condition.Condition.TheVariants as condition;
ghost use Rattle.stamp_values.specs.declared.op.Op.TheVariants.{GetBlob, PutBlob};
ghost use Rattle.stamp_types.specs.declared.ask.Ask.{Ask};
ghost use Rattle.stamp_types.specs.declared.committed.Committed.{Committed};
ghost use Rattle.stamp_values.specs.declared.signing.Credential.TheVariants.{Token};
ghost use Rattle.stamp_types.specs.declared.past.Past.{Past};
ghost use Rattle.stamp_types.specs.declared.reply.Reply.{Reply};
ghost use Rattle.stamp_types.specs.declared.rule.Rule.{Rule};
ghost use Rattle.stamp_types.specs.declared.rule.Rule.TheVariants.{N1, N2};
ghost use Rattle.stamp_types.specs.EffectKinds.{EtagsAtMost};
ghost use Rattle.stamp_types.specs.Requests.{Asked, IsAsk};
ghost use Rattle.stamp_types.specs.World.{Part, World, blob_in, part_at};
ghost use Rattle.sas_token.specs.Tokens.{IsToken, Sent};
ghost use Rattle.access_rules.specs.declared.keys.Keys.{Keys};
ghost use Rattle.access_rules.specs.declared.rotation.Which.{Which};
ghost use Rattle.access_rules.specs.Rotation.{rotated};
ghost use Rattle.access_rules.specs.Rules.{first_rule};
ghost use Rattle.partition_map.specs.Spans.{bound_at, slot_of, split_refusal};
ghost use Rattle.stamp_model.specs.AcceptedRequests.{accepted_at};
ghost use Rattle.stamp_model.specs.Effects.{accepted, effect};
ghost use Rattle.stamp_model.specs.Histories.{IsLegal, pair_of};
ghost use Rattle.stamp_model.specs.Kept.{SparesContent};
ghost use Rattle.stamp_model.specs.Responses as responses;
ghost use Rattle.stamp_model.specs.Runs.{IsAdmitted, IsOn, Timed, part_after_all, replies_to, reply_to_one, timed, world_after_all, world_after_one};
ghost use Rattle.stamp_model.specs.SeenContainers.{is_under, routed};
ghost use Rattle.stamp_model.specs.Withdrawals.{gives_policy, is_before_fields, withdraws_policy};
ghost use Rattle.slot_state.specs.HistoryMaps.{history_at};
ghost use Rattle.slot_state.specs.Pairs.{AreNumbered, Pairs, current_at, epoch_of, first_pairs, pairs_at};
ghost use Rattle.slot_state.specs.Slots.{IsServed, SlotState, entry_of};
ghost use Rattle.core_run.specs.declared.step.Step.{Step};
ghost use Rattle.core_run.specs.declared.step.Step.TheVariants as step;
ghost use Rattle.core_run.specs.declared.step.Outcome.TheVariants as outcome;
ghost use Rattle.core_run.specs.declared.step.StepFault.{StepFault};
ghost use Rattle.core_run.specs.declared.step.StepFault.TheVariants as faults;
ghost use Rattle.core_run.specs.Cores.{CoreState, StandsFor, first_core, slot_at, with_halves};
ghost use Rattle.core_run.specs.Machine.{Answer, Fails, IsRun, SettlesDoubt, Serves, Takes};
ghost use Rattle.core_run.specs.Places.{AddsOwnTurn, DoubtsAreAcceptable, DoubtsPass, GivesReply, HasEnded, HasPlace, IsSound, PassesStep, SettlesOneAtMost, doubt_at, is_fault_rule, is_rotate, tells_fault, works_on};
ghost use Rattle.core_run.specs.Services.{IsServedWhole, SameButTickets};
ghost use Rattle.core_run.specs.States.{State, Turn, slot_doubt, doubted, has_slot, held_by, opening, reply_in, requests, served, slot_for, split, timed_in};

/// The headline over one thread. Take any run of the machine, and what its history has beyond the
/// history at first. Each reply of a Serve, at once or by a ticket, is the model's at the place of its
/// request in this history, and names the first rule that refuses the request there; of the two replies
/// that tell of a fault nothing is said here. The containers are those after the requests of the history in
/// turn, and each container is changed by those of them that the model accepts on it, and by nothing
/// else. Each request of the history is one that a Serve of the run asked at its moment, or one that
/// was in doubt at first: whatever test these pass, it passes. A refused request has no trace: without
/// it all other replies and the containers in the end are the same. What is written is read. A policy
/// that was withdrawn opens nothing until it is given again. A conditional write changes what its caller
/// saw. An ETag names one state.
///
/// Premises: for the requests of the history (`asked`) the run begins from a sound state. For `conditional`
/// and `etag` no ETag is over the count of its container at first. In `read` and `conditional` the request
/// that writes fits its operation, and the Get Blob asks for the whole blob.
pub fn the_headline()
    ensures reply { (s m m' s' : State) (before n k after : ℕ) (xs ys : List Step)
        (rs ss : List Answer) (q : Asked) (t : ℕ) (a : Answer) (o : Reply)
        → IsRun s before xs rs m n → IsRun m n (step.Serve q t ∷ []) (a ∷ []) m' k
        → IsRun m' k ys ss s' after → GivesReply a m' o → HasPlace s s' (timed_in m q t) o }
    ensures change { (s s' : State) (before after : ℕ) (steps : List Step) (answers : List Answer)
        (us : List Turn)
        → IsRun s before steps answers s' after → s'.history ≡ s.history ++ us
        → s'.world ≡ world_after_all s.world (requests us) }
    ensures container { (s s' : State) (before after : ℕ) (steps : List Step)
        (answers : List Answer) (us : List Turn) (key : Key)
        → IsRun s before steps answers s' after → s'.history ≡ s.history ++ us
        → part_at s'.world key
        ≡ part_after_all (part_at s.world key) (accepted_at key s.world (requests us)) }
    ensures asked { (s s' : State) (before after : ℕ) (steps : List Step) (answers : List Answer)
        (us : List Turn) (test : Asked → ℕ → Bool)
        → IsRun s before steps answers s' after → IsSound s
        → s'.history ≡ s.history ++ us
        → All (λ x. PassesStep test x) steps → DoubtsPass test s
        → All (λ u. IsTrue (test u.served.request u.served.moment)) us }
    ensures refused { (s s' : State) (before after : ℕ) (steps : List Step) (answers : List Answer)
        (front : List Turn) (u : Turn) (rest : List Turn) (r : Reply) (rule : Rule)
        → IsRun s before steps answers s' after
        → s'.history ≡ s.history ++ (front ++ u ∷ rest)
        → u.reply ≡ Some r → r.rule ≡ Some rule
        → (s'.world ≡ world_after_all s.world (requests (front ++ rest)))
        × (replies_to s.world (requests (front ++ rest))
        ≡ replies_to s.world (requests front)
        ++ replies_to (world_after_all s.world (requests (front ++ u ∷ []))) (requests rest)) }
    ensures read { (s s' : State) (before after : ℕ) (steps : List Step) (answers : List Answer)
        (front : List Turn) (put : Turn) (middle : List Turn) (get : Turn) (rest : List Turn)
        (key : Key) (name : List ℕ) (p g : Reply)
        → IsRun s before steps answers s' after
        → s'.history ≡ s.history ++ (front ++ put ∷ (middle ++ get ∷ rest))
        → IsAsk put.served.request.ask → IsOn PutBlob key name put.served.request
        → put.reply ≡ Some p → p.rule ≡ None
        → SparesContent key name (world_after_one (world_after_all s.world (requests front)) put.served)
        (requests middle)
        → IsOn GetBlob key name get.served.request
        → get.served.request.ask.args.range ≡ None
        → get.reply ≡ Some g → g.rule ≡ None
        → g.body ≡ put.served.request.body }
    ensures withdrawn { (s s' : State) (before after : ℕ) (steps : List Step) (answers : List Answer)
        (us : List Turn) (front rest : List Timed) (e : Timed) (id : List ℕ) (q : Asked) (t : ℕ)
        (token : Sent)
        → IsRun s before steps answers s' after → s'.history ≡ s.history ++ us
        → accepted_at q.ask.key s.world (requests us) ≡ front ++ e ∷ rest
        → IsTrue (withdraws_policy id e.request)
        → All (λ r. gives_policy id r.request ≡ false) rest
        → q.ask.credential ≡ Token → IsToken q.ask.signing.query token
        → token.id ≡ id → id ≢ []
        → (rule : Rule) × (IsTrue (is_before_fields rule) × ((reply_in s' q t).rule ≡ Some rule)) }
    ensures conditional { (s s' : State) (before after : ℕ) (steps : List Step)
        (answers : List Answer) (front middle : List Turn) (u : Turn) (rest : List Turn)
        (name : List ℕ) (seen : Committed (List ℕ)) (r : Reply)
        → IsRun s before steps answers s' after
        → s'.history ≡ s.history ++ (front ++ (middle ++ u ∷ rest))
        → EtagsAtMost (part_at s.world u.served.request.ask.key).count
        (part_at s.world u.served.request.ask.key)
        → IsAsk u.served.request.ask → u.served.request.ask.blob ≡ Some name
        → u.served.request.ask.args.if_match ≡ Some (condition.Count seen.etag)
        → (blob_in (part_at (world_after_all s.world (requests front)) u.served.request.ask.key) name).committed
        ≡ Some seen
        → u.reply ≡ Some r → r.rule ≡ None
        → (blob_in (part_at (world_after_all s.world (requests (front ++ middle))) u.served.request.ask.key) name).committed
        ≡ Some seen }
    ensures etag { (s s' : State) (before after : ℕ) (steps : List Step) (answers : List Answer)
        (front middle rest : List Turn) (key : Key) (name : List ℕ)
        (first last : Committed (List ℕ))
        → IsRun s before steps answers s' after
        → s'.history ≡ s.history ++ (front ++ (middle ++ rest))
        → EtagsAtMost (part_at s.world key).count (part_at s.world key)
        → (blob_in (part_at (world_after_all s.world (requests front)) key) name).committed
        ≡ Some first
        → (blob_in (part_at s'.world key) name).committed ≡ Some last
        → first.etag ≡ last.etag
        → (blob_in (part_at (world_after_all s.world (requests (front ++ middle))) key) name).committed
        ≡ Some first }
{}

/// Each run serves requests in turn: it adds them to the history, and leaves the containers that they
/// leave. Each reply in the history is the model's, after the requests that come before it.
pub fn a_run_serves_requests_in_turn()
    ensures history { (s s' : State) (before after : ℕ) (steps : List Step) (answers : List Answer)
        → IsRun s before steps answers s' after
        → (us : List Turn) × (s'.history ≡ s.history ++ us) }
    ensures world { (s s' : State) (before after : ℕ) (steps : List Step) (answers : List Answer)
        (us : List Turn)
        → IsRun s before steps answers s' after → s'.history ≡ s.history ++ us
        → s'.world ≡ world_after_all s.world (requests us) }
    ensures reply { (s s' : State) (before after : ℕ) (steps : List Step) (answers : List Answer)
        (front : List Turn) (u : Turn) (rest : List Turn) (r : Reply)
        → IsRun s before steps answers s' after → s'.history ≡ s.history ++ (front ++ u ∷ rest)
        → u.reply ≡ Some r
        → r ≡ reply_to_one (world_after_all s.world (requests front)) u.served }
{}

/// A run may be cut after each of its steps, and runs that follow each other are one run. Each reply that
/// a Serve of a run gives, at once or by a ticket, has its place in the history that the run added. Of two
/// Serves that give replies, the later one has its place after the earlier one's.
pub fn each_answer_has_its_place()
    ensures cut { (s s' : State) (before after : ℕ) (xs ys : List Step) (rs ss : List Answer)
        → length rs ≡ length xs → IsRun s before (xs ++ ys) (rs ++ ss) s' after
        → (m : State) × ((n : ℕ) × (IsRun s before xs rs m n × IsRun m n ys ss s' after)) }
    ensures join { (s m s' : State) (before n after : ℕ) (xs ys : List Step) (rs ss : List Answer)
        → IsRun s before xs rs m n → IsRun m n ys ss s' after
        → IsRun s before (xs ++ ys) (rs ++ ss) s' after }
    ensures place { (s m m' s' : State) (before n k after : ℕ) (xs ys : List Step)
        (rs ss : List Answer) (q : Asked) (t : ℕ) (a : Answer) (o : Reply)
        → IsRun s before xs rs m n → IsRun m n (step.Serve q t ∷ []) (a ∷ []) m' k
        → IsRun m' k ys ss s' after → GivesReply a m' o → HasPlace s s' (timed_in m q t) o }
    ensures order { (s m m' n n' s' : State) (before a b c d after : ℕ) (xs ys zs : List Step)
        (rs ss ts : List Answer) (q q' : Asked) (t t' : ℕ) (r r' : Answer) (o o' : Reply)
        → IsRun s before xs rs m a → IsRun m a (step.Serve q t ∷ []) (r ∷ []) m' b
        → GivesReply r m' o → IsRun m' b ys ss n c
        → IsRun n c (step.Serve q' t' ∷ []) (r' ∷ []) n' d → GivesReply r' n' o'
        → IsRun n' d zs ts s' after
        → (front : List Turn) × ((middle : List Turn) × ((rest : List Turn)
        × (s'.history ≡ s.history ++ (front ++ record { served = timed_in m q t; reply = Some o }
        ∷ (middle ++ record { served = timed_in n q' t'; reply = Some o' } ∷ rest))))) }
{}

/// The first state is sound, if the key pairs are numbered by their epochs, and a run from a sound state
/// leads to a sound state. In the first state no ETag is over the count of its container. So in each run the split points are those of spans, each slot has at most one
/// doubt, and the container of a doubt is in the span of its slot.
pub fn a_run_keeps_its_states_sound()
    ensures opening { (pairs : Pairs) → AreNumbered pairs → IsSound (opening pairs) }
    ensures etags { (pairs : Pairs) (key : Key)
        → EtagsAtMost (part_at (opening pairs).world key).count (part_at (opening pairs).world key) }
    ensures run { (s s' : State) (before after : ℕ) (steps : List Step) (answers : List Answer)
        → IsRun s before steps answers s' after → IsSound s → IsSound s' }
{}

/// A step that answers a fault changes nothing, but for a doubt that it settled first.
pub fn a_step_that_fails_changes_nothing()
    ensures { (s s' : State) (x : Step) (faulted : Bool) (fault : StepFault)
        → Takes s x faulted (Err fault) s' → (s' ≡ s) ⊎ ((i : ℕ) × SettlesDoubt s i s') }
{}

/// A step settles one doubt at most. Then it adds its own turn to the history, if it is a Serve that is answered with the model's
/// reply, at once or by the next ticket; or it leaves the history and the containers. So a Serve has one turn at most. A Serve that
/// answers N1 leaves nothing but a settle, so its request may be sent again. A Serve that answers N2 leaves the containers and the
/// history after a settle, and its change is then in doubt, if the state before it was sound.
pub fn a_step_adds_its_own_turn_alone()
    ensures turn { (s s' : State) (x : Step) (faulted : Bool) (answer : Answer)
        → Takes s x faulted answer s'
        → (m : State) × (SettlesOneAtMost s m × AddsOwnTurn x answer m s') }
    ensures busy { (s s' : State) (q : Asked) (t : ℕ) (faulted : Bool) (o : Reply)
        → Takes s (step.Serve q t) faulted (Ok (outcome.Reply o)) s' → o.rule ≡ Some N1
        → (s' ≡ s) ⊎ SettlesDoubt s (slot_for s q) s' }
    ensures unknown { (s s' : State) (q : Asked) (t : ℕ) (faulted : Bool) (o : Reply)
        → IsSound s → Takes s (step.Serve q t) faulted (Ok (outcome.Reply o)) s'
        → o.rule ≡ Some N2
        → (m : State) × (SettlesDoubt s (slot_for s q) m × ((s'.world ≡ m.world)
        × ((s'.history ≡ m.history)
        × (doubt_at s' (routed q) ≡ Some (entry_of m.pairs q t))))) }
{}

/// A Split that says Made is one: the spans allow it, and the slot is split after a settle of its doubt.
pub fn a_split_that_is_made_is_one()
    ensures { (s s' : State) (i : ℕ) (middle : Key) (faulted : Bool)
        → Takes s (step.Split i middle) faulted (Ok outcome.Made) s'
        → (split_refusal s.points i middle ≡ None)
        × ((m : State) × (SettlesDoubt s i m × (s' ≡ split m i middle))) }
{}

/// No reply of the model names N1 or N2. A step during which no call of the wire failed answers neither
/// of them, nor Busy, nor Unreachable, if no ticket holds such a reply. These two replies and these two
/// faults are the answers that tell of a fault.
pub fn a_fault_is_told_only_if_a_call_failed()
    ensures model { (w : World (List ℕ)) (now : Timed)
        → is_fault_rule (reply_to_one w now).rule ≡ false }
    ensures step { (s s' : State) (x : Step) (answer : Answer)
        → ((n : ℕ) (o : Reply) → held_by s n ≡ Some o → is_fault_rule o.rule ≡ false)
        → Takes s x false answer s' → tells_fault answer ≡ false }
    ensures rule { (r : Option Rule)
        → IsTrue (is_fault_rule r) ↔ ((r ≡ Some N1) ⊎ (r ≡ Some N2)) }
    ensures answer { (a : Answer)
        → IsTrue (tells_fault a)
        ↔ (((o : Reply) × ((a ≡ Ok (outcome.Reply o)) × IsTrue (is_fault_rule o.rule)))
        ⊎ ((a ≡ Err faults.Busy) ⊎ (a ≡ Err faults.Unreachable))) }
{}

/// A step on a slot is a settle of the slot's doubt, and then the step from that state. Or nothing
/// changes: the settle failed, the slot does not exist, or the spans refuse the split.
pub fn a_step_on_a_slot_is_a_settle_and_then_the_step()
    ensures { (s s' : State) (x : Step) (faulted : Bool) (answer : Answer)
        → Takes s x faulted answer s'
        → IfSome (works_on s x) (λ i. (s' ≡ s)
        ⊎ ((m : State) × (SettlesDoubt s i m × Takes m x faulted answer s'))) }
{}

/// A doubt ends whole, once. A settle makes the change that was in doubt, at the moment of its Serve and
/// by the key pair that was in force then, or leaves all containers as they were. Then the slot has no
/// doubt, and each other slot has the doubt that it had. A Serve on a slot in doubt settles first, or it
/// fails: no request is served by a slot in doubt.
pub fn a_doubt_ends_whole_before_its_slot_serves()
    ensures whole { (s m : State) (i : ℕ) (e : Past) → slot_doubt s i ≡ Some e → SettlesDoubt s i m
        → (m.world ≡ world_after_one s.world (doubted s e)) ⊎ (m.world ≡ s.world) }
    ensures once { (s m : State) (i : ℕ) → SettlesDoubt s i m → slot_doubt m i ≡ None }
    ensures others { (s m : State) (i j : ℕ) → j ≢ i → SettlesDoubt s i m → slot_doubt m j ≡ slot_doubt s j }
    ensures serves { (s s' : State) (q : Asked) (t : ℕ) (faulted : Bool) (answer : Answer)
        → Takes s (step.Serve q t) faulted answer s'
        → Fails (step.Serve q t) faulted answer
        ⊎ ((m : State) × (SettlesDoubt s (slot_for s q) m × Serves m q t faulted answer s')) }
{}

/// A doubt ends at the next Serve of its slot, or at the next Settle of it, during which no call of the wire fails, unless memory
/// runs out.
pub fn a_doubt_ends_at_the_next_step_without_a_fault()
    ensures serve { (s s' : State) (q : Asked) (t : ℕ) (answer : Answer)
        → Takes s (step.Serve q t) false answer s'
        → (slot_doubt s' (slot_for s q) ≡ None) ⊎ (answer ≡ Err faults.NoMemory) }
    ensures settle { (s s' : State) (i : ℕ) (answer : Answer)
        → has_slot s i ≡ true → Takes s (step.Settle i) false answer s'
        → (slot_doubt s' i ≡ None) ⊎ (answer ≡ Err faults.NoMemory) }
{}

/// A doubt has ended before its container answers. Let a run begin from a sound state in which the slot of a request has a change in
/// doubt, for example after a Serve on this container that was answered N2. If the last step of the run serves the request, and gives its
/// reply, at once or by a ticket, then the doubt was settled before the request had its turn. So the reply tells that the change is
/// decided: it is in the history by now, or it was dropped. Then the slot has no doubt. If a sound state has no doubt in the slot of a
/// container, then a run from it adds to the history only those requests on this container that its Serves asked: whatever test these
/// pass, they pass. So a change that was dropped never comes back.
pub fn a_doubt_has_ended_before_its_container_answers()
    ensures reply { (s m s' : State) (before n after : ℕ) (xs : List Step) (rs : List Answer)
        (q : Asked) (t : ℕ) (a : Answer) (o : Reply) (e : Past)
        → IsSound s → doubt_at s (routed q) ≡ Some e
        → IsRun s before xs rs m n → IsRun m n (step.Serve q t ∷ []) (a ∷ []) s' after
        → GivesReply a s' o
        → HasEnded s (routed q) e (record { served = timed_in m q t; reply = Some o }) s' }
    ensures asked { (s s' : State) (before after : ℕ) (steps : List Step) (answers : List Answer)
        (us : List Turn) (key : Key) (test : Asked → ℕ → Bool)
        → IsRun s before steps answers s' after → IsSound s → doubt_at s key ≡ None
        → s'.history ≡ s.history ++ us → All (λ x. PassesStep test x) steps
        → All (λ u. u.served.request.ask.key ≡ key
        → IsTrue (test u.served.request u.served.moment)) us }
{}

/// From a sound state and until a step on its slot, a doubt waits, and the container of each key in the span of the slot is as it
/// was: whatever other slots do, and however they are split. So nothing of the slot is served between a
/// Serve whose change is in doubt and its settle, and a change that is kept may be read as of its Serve.
pub fn a_doubt_waits_until_its_slot_settles()
    ensures { (s s' : State) (x : Step) (faulted : Bool) (answer : Answer) (key : Key) (e : Past)
        → IsSound s → Takes s x faulted answer s' → works_on s x ≢ Some (slot_of s.points key)
        → doubt_at s key ≡ Some e
        → (doubt_at s' key ≡ Some e) × (part_at s'.world key ≡ part_at s.world key) }
{}

/// A change is judged by the key pair of its time. In a sound state the pair in force is the pair of its
/// epoch, so a change that comes in doubt is judged as its Serve judged it. No step changes the
/// pair of an epoch that an account has. So a change that is kept is judged by the pair that was in force
/// at its Serve, also if keys were replaced since.
pub fn a_change_is_judged_by_the_pair_of_its_serve()
    ensures current { (s : State) (account : List ℕ) → IsSound s
        → pair_of (pairs_at s.pairs account) (epoch_of (current_at s.pairs account))
        ≡ current_at s.pairs account }
    ensures stays { (s s' : State) (x : Step) (faulted : Bool) (answer : Answer)
        (account : List ℕ) (epoch : ℕ)
        → Takes s x faulted answer s' → IsSome (pair_of (pairs_at s.pairs account) epoch)
        → pair_of (pairs_at s'.pairs account) epoch ≡ pair_of (pairs_at s.pairs account) epoch }
    ensures entry { (s : State) (q : Asked) (t : ℕ) → IsSound s
        → doubted s (entry_of s.pairs q t) ≡ record (timed_in s q t) { bound = None } }
    ensures kept { (s s' : State) (x : Step) (faulted : Bool) (answer : Answer) (e : Past)
        → Takes s x faulted answer s' → IsSome (doubted s e).keys → doubted s' e ≡ doubted s e }
{}

/// A change that is kept is accepted at its settle. In the first state no change is in doubt. In each later state of a run from a sound
/// state the model accepts each change in doubt, by the key pair of its epoch and as its container is then, if that was so at first.
pub fn a_change_that_is_kept_is_accepted()
    ensures opening { (pairs : Pairs) → DoubtsAreAcceptable (opening pairs) }
    ensures run { (s s' : State) (before after : ℕ) (steps : List Step) (answers : List Answer)
        → IsRun s before steps answers s' after → IsSound s → DoubtsAreAcceptable s
        → DoubtsAreAcceptable s' }
{}

/// A ticket gives the reply of its Serve. It holds the model's reply at the place of the Serve. It goes on
/// to hold it, whatever steps come, until a Fetch of it answers with that reply. A Fetch that fails
/// leaves it.
pub fn a_ticket_gives_the_reply_of_its_serve()
    ensures given { (s s' : State) (q : Asked) (t : ℕ) (faulted : Bool) (n : ℕ)
        → Takes s (step.Serve q t) faulted (Ok (outcome.Later n)) s'
        → (m : State)
        × (SettlesDoubt s (slot_for s q) m × (held_by s' n ≡ Some (reply_in m q t))) }
    ensures stays { (s s' : State) (x : Step) (faulted : Bool) (answer : Answer) (n : ℕ) (r : Reply)
        → Takes s x faulted answer s' → held_by s n ≡ Some r
        → ((x ≡ step.Fetch n) × (answer ≡ Ok (outcome.Reply r))) ⊎ (held_by s' n ≡ Some r) }
    ensures run { (s s' : State) (before after : ℕ) (steps : List Step) (answers : List Answer)
        (n : ℕ) (r : Reply)
        → IsRun s before steps answers s' after → All (λ x. x ≢ step.Fetch n) steps
        → held_by s n ≡ Some r → held_by s' n ≡ Some r }
    ensures fetched { (s s' : State) (faulted : Bool) (answer : Answer) (n : ℕ) (r : Reply)
        → Takes s (step.Fetch n) faulted answer s' → held_by s n ≡ Some r
        → (answer ≡ Ok (outcome.Reply r)) ⊎ (Fails (step.Fetch n) faulted answer × (s' ≡ s)) }
{}

/// If the reply of a Serve names no rule, its request was admitted by the key pair that is in force, and
/// by no other key of the account. After a Rotate the pair in force is the old one with the new key in
/// place of the one that was named, and all earlier pairs are where they were.
pub fn a_replaced_key_opens_nothing()
    ensures served { (s s' : State) (q : Asked) (t : ℕ) (faulted : Bool) (answer : Answer) (o : Reply)
        → Takes s (step.Serve q t) faulted answer s' → GivesReply answer s' o → o.rule ≡ None
        → (m : State) × (SettlesDoubt s (slot_for s q) m × IsAdmitted m.world (timed_in s q t)) }
    ensures rotated { (s s' : State) (account : List ℕ) (which : Which) (key : List ℕ)
        (faulted : Bool) (n : ℕ)
        → Takes s (step.Rotate account which key) faulted (Ok (outcome.Epoch n)) s'
        → (old : Keys) × ((current_at s.pairs account ≡ Some old) × ((n ≡ old.epoch + 1)
        × ((current_at s'.pairs account ≡ Some (rotated old which key n))
        × (pairs_at s'.pairs account
        ≡ pairs_at s.pairs account ++ rotated old which key n ∷ [])))) }
{}

/// Key pairs change by a Rotate that answers an epoch, and by no other step. A Rotate leaves the pairs of other accounts. So after a
/// run without a Rotate a request is judged by the pair that was in force before the run.
pub fn a_step_that_answers_no_epoch_leaves_the_pairs()
    ensures step { (s s' : State) (x : Step) (faulted : Bool) (answer : Answer)
        → Takes s x faulted answer s' → ((n : ℕ) → answer ≢ Ok (outcome.Epoch n))
        → s'.pairs ≡ s.pairs }
    ensures others { (s s' : State) (account : List ℕ) (which : Which) (key : List ℕ)
        (faulted : Bool) (answer : Answer) (other : List ℕ)
        → Takes s (step.Rotate account which key) faulted answer s' → other ≢ account
        → pairs_at s'.pairs other ≡ pairs_at s.pairs other }
    ensures run { (s s' : State) (before after : ℕ) (steps : List Step) (answers : List Answer)
        → IsRun s before steps answers s' after → All (λ x. is_rotate x ≡ false) steps
        → s'.pairs ≡ s.pairs }
    ensures judged { (s s' : State) (before after : ℕ) (steps : List Step)
        (answers : List Answer) (q : Asked) (t : ℕ)
        → IsRun s before steps answers s' after → All (λ x. is_rotate x ≡ false) steps
        → (timed_in s' q t).keys ≡ current_at s.pairs q.ask.key.account }
    ensures rotate { (x : Step)
        → IsTrue (is_rotate x)
        ↔ ((account : List ℕ) × ((which : Which) × ((key : List ℕ)
        × (x ≡ step.Rotate account which key)))) }
{}

/// A service that makes a Serve and then the Fetch of its ticket answers as the model. If no call failed
/// and the slot has no doubt, the reply is the model's in the state before, and the state after it
/// differs from the one after the request in tickets at most.
pub fn a_serve_and_its_fetch_answer_as_the_model()
    ensures { (s s' : State) (q : Asked) (t : ℕ) (r : Reply) → slot_doubt s (slot_for s q) ≡ None
        → IsServedWhole s q t r s'
        → (r ≡ reply_in s q t) × SameButTickets (served s q t) s' }
{}

/// Keys of another account count as none. If keys are not of the account of a request, the request is
/// judged the same with these keys or with none: the same rule of permission is the first that holds, the
/// reply is the same, the request makes the same change, and it leaves the same containers. So a machine
/// that has one key pair judges the requests of all accounts as by this pair.
pub fn keys_of_another_account_count_as_none()
    ensures rule { (pair : Keys) (acl : Option Acl) (q : Ask) (t : ℕ)
        → pair.account ≢ q.key.account
        → first_rule (Some pair) acl q t ≡ first_rule None acl q t }
    ensures reply { (pair : Keys) (w : World (List ℕ)) (q : Asked) (t : ℕ) (bound : Option Key)
        → pair.account ≢ q.ask.key.account
        → responses.reply (Some pair) w q t bound ≡ responses.reply None w q t bound }
    ensures change { (pair : Keys) (p : Part ℕ) (q : Asked) (t : ℕ)
        → pair.account ≢ q.ask.key.account
        → accepted (Some pair) p q t ≡ accepted None p q t }
    ensures effect { (pair : Keys) (w : World (List ℕ)) (q : Asked) (t : ℕ)
        → pair.account ≢ q.ask.key.account → effect (Some pair) w q t ≡ effect None w q t }
    ensures one { (pair : Keys) (s : State) (q : Asked) (t : ℕ) → s.pairs ≡ first_pairs (pair ∷ [])
        → (reply_in s q t
        ≡ reply_to_one s.world (record (timed pair q t) { bound = bound_at s.points (routed q) }))
        × ((served s q t).world ≡ world_after_one s.world (timed pair q t)) }
{}

/// A core of one slot without containers stands for the first state, if the key pairs are numbered by their
/// epochs. If a core stands for a state, and the slot of a request serves it up to the bound of its span, the
/// reply is the machine's, and the core with the slot as it is then stands for the state after the request;
/// the first key of the request comes before that bound. If the spans allow the split of a slot without a
/// doubt, the core with its two halves stands for the state after the split. A policy that was withdrawn in
/// the history of a container, and that no later entry gives again, opens nothing in any state that the core
/// stands for, if the history is legal.
pub fn a_core_stands_for_its_state()
    ensures opening { (pairs : Pairs) → AreNumbered pairs → StandsFor (first_core pairs) (opening pairs) }
    ensures under { (points : List Key) (q : Asked)
        → IsTrue (is_under (bound_at points (routed q)) (routed q)) }
    ensures reply { (c : CoreState) (s : State) (q : Asked) (t : ℕ) (r : Reply) (after : SlotState)
        → StandsFor c s
        → IsServed (slot_at c.slots c.points (routed q)) q t (bound_at c.points (routed q)) r after
        → r ≡ reply_in s q t }
    ensures served { (c : CoreState) (s : State) (q : Asked) (t : ℕ) (r : Reply) (after : SlotState)
        → StandsFor c s
        → IsServed (slot_at c.slots c.points (routed q)) q t (bound_at c.points (routed q)) r after
        → StandsFor (record c { slots = slice_set c.slots (slot_of c.points (routed q)) after })
        (served s q t) }
    ensures split { (c : CoreState) (s : State) (i : ℕ) (middle : Key)
        → StandsFor c s → split_refusal c.points i middle ≡ None → slot_doubt s i ≡ None
        → StandsFor (with_halves c i middle) (split s i middle) }
    ensures withdrawn { (c : CoreState) (s : State) (q : Asked) (t : ℕ) (front rest : List Past) (e : Past)
        (id : List ℕ) (token : Sent)
        → StandsFor c s
        → history_at (slot_at c.slots c.points q.ask.key).histories q.ask.key ≡ front ++ e ∷ rest
        → IsLegal (pairs_at s.pairs q.ask.key.account) q.ask.key (front ++ e ∷ rest)
        → IsTrue (withdraws_policy id e.request)
        → All (λ later. gives_policy id later.request ≡ false) rest
        → q.ask.credential ≡ Token → IsToken q.ask.signing.query token → token.id ≡ id → id ≢ []
        → (rule : Rule) × (IsTrue (is_before_fields rule) × ((reply_in s q t).rule ≡ Some rule)) }
{}
