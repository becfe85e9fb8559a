//! What slots and connections know of the history. A law about definitions is the contract of a function that does nothing.
ghost use Rattle.std.specs.Prelude.{◌≡◌, ℕ, List, [], ◌∷◌, ◌++◌, None, Result};
ghost use Rattle.stamp_values.specs.declared.key.Key.{Key};
ghost use Rattle.stamp_values.specs.declared.op.Op.TheVariants.{GetBlob, PutBlob, PutBlockList};
ghost use Rattle.stamp_types.specs.declared.reply.Reply.{Reply};
ghost use Rattle.stamp_types.specs.Requests.{Asked, IsAsk};
ghost use Rattle.stamp_types.specs.World.{blob_in, part_at};
ghost use Rattle.range_rows.specs.Readings.{wanted_blocks};
ghost use Rattle.stamp_model.specs.Blocks.{wanted_bytes};
ghost use Rattle.stamp_model.specs.Kept.{SparesContent};
ghost use Rattle.stamp_model.specs.Runs.{IsOn, reply_to_one, world_after_one};
ghost use Rattle.stamp_model.specs.SeenContainers.{routed};
ghost use Rattle.http_front.specs.declared.end.End.{End};
ghost use Rattle.http_front.specs.declared.end.FrontFault.{FrontFault};
ghost use Rattle.http_front.specs.Connections.{ConnectionState};
ghost use Rattle.http_front.specs.Conversations.{AnswersInput, BreaksOff, EndsOutOfMemory};
ghost use Rattle.served_history.specs.declared.entry.Entry.{Entry};
ghost use Rattle.served_history.specs.Fronts.{front_at};
ghost use Rattle.served_history.specs.Growth.{IsEntered};
ghost use Rattle.served_history.specs.Histories.{GoesOnWithout, HasStayed, IsHistory, IsServed, IsUnchanged, entry_after, owner, served_requests, timed_at, world_left};
ghost use Rattle.served_history.specs.Connections.{AddsOneAtMost, AreOfOneHistory, Call, IsReadAfter, ReadsHistory, calls_of};

use crate::history::{Account, LogFront};
use http_front::Clock;

/// While a slot makes no entry, its keys stay its own, and their bounds, their key pairs, their containers and the fronts of their containers
/// stay as they are, whatever entries other slots make. So the reply to a request on one of its keys stays the same too, also to a List Containers.
pub fn a_slot_keeps_what_it_has()
    ensures stays { (slot : ℕ) (front log : List Entry) (key : Key)
        → GoesOnWithout slot front log → owner front key ≡ slot → HasStayed key front log }
    ensures front { (slot : ℕ) (front log : List Entry) (key : Key)
        → GoesOnWithout slot front log → owner front key ≡ slot → front_at log key ≡ front_at front key }
    ensures reply { (slot : ℕ) (front log : List Entry) (q : Asked) (t : ℕ)
        → GoesOnWithout slot front log → owner front (routed q) ≡ slot → IsAsk q.ask
        → reply_to_one (world_left log) (timed_at log q t)
        ≡ reply_to_one (world_left front) (timed_at front q t) }
{}

/// After its own entry a slot's keys, their bounds, their key pairs and their containers are as if the slot had made the entry right after what it knew.
pub fn a_slot_has_what_its_entry_leaves()
    ensures { (slot : ℕ) (front known : List Entry) (e : Entry) (known' : List Entry) (key : Key)
        → IsEntered slot front known e known' → owner front key ≡ slot
        → HasStayed key (front ++ e ∷ []) known' }
{}

/// A reply that is the model's after what the slot knew is the model's after all entries before the request, those of other slots too.
pub fn an_entered_request_is_served()
    ensures { (slot : ℕ) (front known known' : List Entry) (q : Asked) (t : ℕ) (reply : Reply)
        → IsAsk q.ask → owner front (routed q) ≡ slot
        → IsEntered slot front known (entry_after front q t) known'
        → reply ≡ reply_to_one (world_left front) (timed_at front q t)
        → IsServed known q t reply known' }
{}

/// What is known of the history is a history: it begins with the key pairs of the accounts, and each slot had the keys of its entries.
pub fn what_is_known_is_a_history<A: Account>(front: &LogFront<A>)
    ensures { IsHistory front.now }
{
    let _same = front.again();
}

/// The replies of a connection are the model's replies along one history. This history begins with what the connection knew, and
/// has the connection's own requests in their order, with requests of others between them. `run` ensures the premises.
///
/// If memory runs out, the same holds of the requests that were answered in full. After them one more request of the connection was entered
/// at most, whose reply was made and not written. If a write fails, the same holds of the requests to which the service replied.
pub fn each_connection_reads_one_history<C: Clock>()
    ensures answered { (clock clock' : C) (seen seen' : List Entry)
        (from to : ConnectionState) (result : Result End FrontFault) (input : List ℕ)
        (talk : AnswersInput C.gives IsServed clock clock' seen seen' from to result input)
        → ReadsHistory seen (calls_of talk.exchanges) seen' }
    ensures starved { (clock clock' : C) (seen seen' : List Entry)
        (from to : ConnectionState) (last : List ℕ)
        (talk : EndsOutOfMemory C.gives IsServed IsUnchanged clock clock' seen seen' from to last)
        → ReadsHistory seen (calls_of talk.exchanges) talk.world_then
        × AddsOneAtMost talk.world_then seen' }
    ensures broken { (clock clock' : C) (seen seen' : List Entry)
        (from to : ConnectionState)
        (talk : BreaksOff C.gives IsServed clock clock' seen seen' from to)
        → ReadsHistory seen (calls_of talk.exchanges) seen' }
{}

/// What two connections know, or two slots, are beginnings of one history.
pub fn two_connections_agree<A: Account>(one: &LogFront<A>, other: &LogFront<A>)
    ensures { AreOfOneHistory one.now other.now }
{
    let mut both = one.again();
    both.learn(other);
}

/// A connection reads its own writes. The history that the connection knows in the end has an entry of the earlier request and, after it,
/// one of the later request, which is answered at what the entries before it left. So if a Put Blob and a later Get Blob of that blob without
/// a range succeed, and each entry between them that asks to put, commit or delete the blob, or to make or delete its container, is refused at
/// its place, the reply to the Get Blob has the body that was put.
/// If the earlier request is a Put Block List, the reply has the content of the wanted blocks, as the blob had it before the list.
pub fn a_connection_reads_its_own_writes()
    ensures later { (seen seen' : List Entry) (front : List Call) (earlier : Call)
        (middle : List Call) (later : Call) (back : List Call)
        → ReadsHistory seen (front ++ earlier ∷ (middle ++ later ∷ back)) seen'
        → IsReadAfter seen' earlier later }
    ensures put { (known : List Entry) (key : Key) (name : List ℕ) (put get : Call)
        (reads : IsReadAfter known put get)
        → SparesContent key name (world_after_one (world_left reads.before) reads.first)
        (served_requests reads.between)
        → IsAsk put.0.request.ask → IsOn PutBlob key name put.0.request
        → IsOn GetBlob key name get.0.request → get.0.request.ask.args.range ≡ None
        → put.1.rule ≡ None → get.1.rule ≡ None → get.1.body ≡ put.0.request.body }
    ensures commit { (known : List Entry) (key : Key) (name : List ℕ) (list get : Call)
        (reads : IsReadAfter known list get)
        → SparesContent key name (world_after_one (world_left reads.before) reads.first)
        (served_requests reads.between)
        → IsAsk list.0.request.ask → IsOn PutBlockList key name list.0.request
        → IsOn GetBlob key name get.0.request → get.0.request.ask.args.range ≡ None
        → list.1.rule ≡ None → get.1.rule ≡ None
        → get.1.body
        ≡ wanted_bytes (blob_in (part_at (world_left reads.before) key) name)
        (wanted_blocks list.0.request) }
{}
