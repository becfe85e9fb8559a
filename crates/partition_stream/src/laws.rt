//! Laws of what a log means. Each law is the contract of a function that does nothing.
ghost use Rattle.std.specs.Prelude.{◌≡◌, ◌≢◌, ℕ, All, Bool, IsSome, IsTrue, List, Option, None, Some, Result, Err, [], ◌∷◌, ◌++◌, map};
ghost use Rattle.extent_node.specs.Copies.{Block};
ghost use Rattle.extent_node.specs.Faults.{held};
ghost use Rattle.stamp_types.specs.Changes.{KeyedAct, change_with, content_of};
ghost use Rattle.stamp_types.specs.Contents.{EachContent};
ghost use Rattle.stamp_types.specs.Pieces.{cut, is_held};
ghost use Rattle.stamp_types.specs.World.{Part, changed, no_part, part_value, same_pieces};
ghost use Rattle.stamp_types.specs.declared.piece.Piece.{Piece};
ghost use Rattle.stamp_values.specs.declared.key.Key.{Key};
ghost use Rattle.stream_manager.specs.Places.{KeepsPlaces, blocks_of};
ghost use Rattle.stream_manager.specs.Streams.{laid};
ghost use Rattle.stream_manager.specs.declared.faults.StoredFault.{StoredFault};
ghost use Rattle.partition_stream.specs.Changes.{Recorded};
ghost use Rattle.partition_stream.specs.Contents.{AreStored, content_at};
ghost use Rattle.partition_stream.specs.Meanings.{acts_on, after_acts, held_of, meaning, IsOneMore, IsWithDoubt};
ghost use Rattle.partition_stream.specs.Outcomes.{Logs, IsLogged, IsLogSealed};
ghost use Rattle.partition_stream.specs.Positions.{IsFirstPart, all_changes, changes_before};
ghost use Rattle.partition_stream.specs.Storing.{AreKept, IsStoredChange};
ghost use Rattle.partition_stream.specs.Streams.{HaveSameBlocks, Logged, ThreeStreams, logged};
ghost use Rattle.partition_stream.specs.Written.{IsWritten, Written, said_of, written_bytes};
ghost use Rattle.partition_stream.specs.declared.faults.TakeFault.{TakeFault};
ghost use Rattle.partition_stream.specs.declared.position.Position.{Position};

/// Content that is stored stays stored and reads the same, if the blocks of the data stay at their places. A change that gets content
/// which is stored brings content that is stored. Each content of a container is stored, since every partition keeps `AreKept`.
pub fn stored_content_stays()
    ensures pieces { (es fs : List (List Block)) (ps : List Piece) → KeepsPlaces es fs → AreStored es ps
        → AreStored fs ps × (content_at fs ps ≡ content_at es ps) }
    ensures part { (es fs : List (List Block)) (p : Part (List Piece)) → KeepsPlaces es fs → EachContent (AreStored es) p
        → EachContent (AreStored fs) p × (part_value (content_at fs) p ≡ part_value (content_at es) p) }
    ensures brought { (es : List (List Block)) (c : KeyedAct) (ps : List Piece) → IsSome (content_of c.act) → AreStored es ps
        → IsStoredChange es (change_with c ps) }
    ensures each { (s : ThreeStreams) (key : Key) → AreKept s → EachContent (AreStored (laid s.blobs)) (held_of (logged s) key) }
{}

/// The changes of the rows and of the log are those whose records their blocks are, each with its epoch, in the order of the blocks.
/// The change that is in doubt is the one whose record is in doubt. One log may have records of both versions: what each record says
/// does not depend on the records beside it.
pub fn each_record_is_its_change()
    ensures rows { (s : ThreeStreams) (ws : List Written) → All IsWritten ws → blocks_of (laid s.rows) ≡ map written_bytes ws
        → (logged s).rows ≡ map said_of ws }
    ensures log { (s : ThreeStreams) (ws : List Written) → All IsWritten ws → blocks_of (laid s.log) ≡ map written_bytes ws
        → (logged s).log ≡ map said_of ws }
    ensures doubt { (s : ThreeStreams) (w : Written) → IsWritten w → s.log.last.tried ≡ Some (written_bytes w)
        → (logged s).doubt ≡ Some (said_of w) }
{}

/// Rows and a log without a change mean a container that never was, in pieces and in bytes, whatever is in doubt.
pub fn an_empty_log_means_no_container()
    ensures pieces { (s : Logged) (key : Key) → s.rows ≡ [] → s.log ≡ [] → held_of s key ≡ no_part }
    ensures bytes { (s : Logged) (key : Key) → s.rows ≡ [] → s.log ≡ [] → meaning s key ≡ no_part }
{}

/// A change more in the log is one more change of its container, in pieces and in bytes. A change that is logged without an older
/// doubt is a change more.
pub fn an_acknowledged_change_is_one_more()
    ensures pieces { (s t : Logged) (c : Recorded) → IsOneMore s c t
        → held_of t c.0.key ≡ changed same_pieces c.0.act (held_of s c.0.key) }
    ensures bytes { (s t : Logged) (c : Recorded) → IsOneMore s c t → KeepsPlaces s.blobs t.blobs
        → EachContent (AreStored s.blobs) (held_of s c.0.key)
        → meaning t c.0.key ≡ changed (content_at t.blobs) c.0.act (meaning s c.0.key) }
    ensures logged { (s t : ThreeStreams) (c : Recorded) → (logged s).doubt ≡ None → Logs s (c ∷ []) None t → t.rows ≡ s.rows
        → IsOneMore (logged s) c (logged t) }
{}

/// If a doubt is kept or dropped, each container is as it was, or as the one change that was in doubt leaves it.
pub fn a_doubt_is_one_change_or_none()
    ensures { (s t : Logged) (kept : Bool) (doubt : Option Recorded) (key : Key) → t.rows ≡ s.rows → t.log ≡ s.log ++ held kept doubt
        → IsWithDoubt s t doubt key }
{}

/// A change that fails leaves each container as it was, or as the older change that was in doubt leaves it. So does a seal, whatever
/// it answers.
pub fn a_change_that_fails_is_not_counted()
    ensures logged { (s t : ThreeStreams) (e : TakeFault) (c : Recorded) (key : Key) → IsLogged (Err e) s c t
        → (logged t).rows ≡ (logged s).rows → IsWithDoubt (logged s) (logged t) (logged s).doubt key }
    ensures sealed { (s t : ThreeStreams) (r : Result (Unit {0}) StoredFault) (key : Key) → IsLogSealed r s t
        → (logged t).rows ≡ (logged s).rows → IsWithDoubt (logged s) (logged t) (logged s).doubt key }
{}

/// What the log means is the same, whether each content is read in the data before the changes are made or after them.
pub fn reading_first_or_last_is_the_same()
    ensures { (s : Logged) (key : Key)
        → meaning s key ≡ after_acts (content_at s.blobs) (acts_on key (s.rows ++ s.log)) no_part }
{}

/// A change more in the log leaves all other containers, in pieces and in bytes.
pub fn another_container_is_left()
    ensures pieces { (s t : Logged) (c : Recorded) (key : Key) → IsOneMore s c t → key ≢ c.0.key → held_of t key ≡ held_of s key }
    ensures bytes { (s t : Logged) (c : Recorded) (key : Key) → IsOneMore s c t → key ≢ c.0.key → KeepsPlaces s.blobs t.blobs
        → EachContent (AreStored s.blobs) (held_of s key) → meaning t key ≡ meaning s key }
{}

/// Streams that have the same blocks at the same places mean the same. What `share` gives has the same blocks.
pub fn a_shared_log_means_the_same()
    ensures pieces { (s t : ThreeStreams) (key : Key) → HaveSameBlocks s t
        → held_of (logged t) key ≡ held_of (logged s) key }
    ensures bytes { (s t : ThreeStreams) (key : Key) → HaveSameBlocks s t
        → meaning (logged t) key ≡ meaning (logged s) key }
{}

/// The pieces that a body is cut into hold their bytes, so they may be put into the data.
pub fn a_body_that_is_cut_may_be_put()
    ensures { (body : List ℕ) → IsTrue (is_held (cut body)) }
{}

/// The changes before a position are the first of all changes. So a walk with `next_change` ends, and it has then met each change once.
/// All changes, made in the order of the walk, make each container what the log means.
pub fn a_walk_meets_all_changes_in_order()
    ensures first { (s : ThreeStreams) (p : Position) → IsFirstPart (changes_before s p) (all_changes s) }
    ensures made { (s : ThreeStreams) (key : Key) → held_of (logged s) key ≡ after_acts same_pieces (acts_on key (all_changes s)) no_part }
{}
