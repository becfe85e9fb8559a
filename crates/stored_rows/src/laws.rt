//! Laws of stored rows. Each law is the contract of a function that does nothing.
ghost use Rattle.std.specs.Prelude.{◌≡◌, ◌≢◌, ◌⊎◌, Bool, Err, List, None, Ok, Option, Some, false, true};
ghost use Rattle.stamp_types.specs.Changes.{KeyedAct};
ghost use Rattle.stamp_types.specs.Pieces.{held};
ghost use Rattle.stamp_types.specs.World.{World, changed, no_part, part_at, part_value, same_pieces};
ghost use Rattle.stamp_types.specs.declared.piece.Piece.{Piece};
ghost use Rattle.stamp_values.specs.declared.key.Key.{Key};
ghost use Rattle.stream_manager.specs.Streams.{laid};
ghost use Rattle.partition_stream.specs.Changes.{Recorded};
ghost use Rattle.partition_stream.specs.Contents.{content_at};
ghost use Rattle.partition_stream.specs.Meanings.{IsOneMore, acts_on, after_acts, held_of, meaning};
ghost use Rattle.partition_stream.specs.Positions.{all_changes};
ghost use Rattle.partition_stream.specs.Storing.{AreKept};
ghost use Rattle.partition_stream.specs.Streams.{ThreeStreams, logged};
ghost use Rattle.partition_stream.specs.Sweeping.{GivesUpBefore};
ghost use Rattle.partition_stream.specs.declared.mark.Mark.{Mark};
ghost use Rattle.partition_stream.specs.declared.faults.TakeFault.{TakeFault};
ghost use Rattle.partition_stream.specs.declared.faults.TakeFault.TheVariants as fault;
ghost use Rattle.row_trees.specs.Halfway.{IsAllNew};
ghost use Rattle.stored_rows.specs.Swept.{AllNews, IsRowInDoubt, IsSwept};
ghost use Rattle.stored_rows.specs.Loaded.{AreLoaded};
ghost use Rattle.stored_rows.specs.Ranges.{covers};
ghost use Rattle.stored_rows.specs.States.{AreTaken, IsChanged, IsInDoubt, IsTaken, MeansTheSame, SettlesRows, Stored, bytes_of, doubt_of, own_doubt_of, pieces_of};
ghost use Rattle.stored_rows.specs.declared.faults.Ended.{Ended};
ghost use Rattle.stored_rows.specs.declared.key_range.KeyRange.{KeyRange};

/// Rows that are loaded are what the streams mean, and nothing else: each container of the range is what all changes make of it, in
/// their order and each once, and the rows have only these containers. So rows that are thrown away and loaded again are the same.
pub fn a_load_is_what_the_streams_mean()
    ensures pieces { (s : ThreeStreams) (w : World (List Piece)) (d : Option KeyedAct) (range : KeyRange) (key : Key)
        → AreLoaded s (Some w) d range → covers range key ≡ true
        → part_at w key ≡ after_acts same_pieces (acts_on key (all_changes s)) no_part }
    ensures bytes { (s : ThreeStreams) (w : World (List Piece)) (d : Option KeyedAct) (range : KeyRange) (key : Key)
        → AreLoaded s (Some w) d range → covers range key ≡ true
        → part_value (content_at (laid s.blobs)) (part_at w key) ≡ meaning (logged s) key }
    ensures others { (s : ThreeStreams) (w : World (List Piece)) (d : Option KeyedAct) (range : KeyRange) (key : Key)
        → AreLoaded s (Some w) d range → covers range key ≡ false → part_at w key ≡ no_part }
    ensures again { (s : ThreeStreams) (v w : World (List Piece)) (c d : Option KeyedAct) (range : KeyRange) (key : Key)
        → AreLoaded s (Some v) c range → AreLoaded s (Some w) d range → part_at v key ≡ part_at w key }
{}

/// A change that is taken is one more change of its container, in bytes, and leaves all others. After changes that were taken one after
/// the other, each container is what its own changes make of it, in their order.
pub fn a_taken_change_is_one_more()
    ensures one { (u : Unit {0}) (s t : Stored) (c : Recorded) → IsTaken (Ok u) s c t
        → bytes_of t c.0.key ≡ changed held c.0.act (bytes_of s c.0.key) }
    ensures others { (u : Unit {0}) (s t : Stored) (c : Recorded) (key : Key) → IsTaken (Ok u) s c t → key ≢ c.0.key
        → bytes_of t key ≡ bytes_of s key }
    ensures all { (s t : Stored) (cs : List Recorded) (key : Key) → AreTaken s cs t
        → bytes_of t key ≡ after_acts held (acts_on key cs) (bytes_of s key) }
{}

/// A change that is not taken leaves each container as it was, in pieces and in bytes, and the rows loaded if they were loaded. If it is
/// not in doubt, nothing is.
pub fn a_refused_take_changes_nothing()
    ensures same { (s t : Stored) (c : Recorded) (e : TakeFault) → IsTaken (Err e) s c t → MeansTheSame s t }
    ensures sure { (s t : Stored) (c : Recorded) (e : TakeFault) → IsTaken (Err e) s c t → e ≢ fault.Doubt → doubt_of t ≡ None }
{}

/// A change that is in doubt and then settled is the change as if it had been taken, or nothing: each container is as the change leaves
/// it, or each container is as it was. Then no change that was taken is in doubt.
pub fn a_doubt_is_one_change_or_none()
    ensures { (s t u : Stored) (c : Recorded) (e : Ended) → IsTaken (Err fault.Doubt) s c t → SettlesRows (Ok e) t u
        → IsChanged s c u ⊎ (MeansTheSame s u × (own_doubt_of u ≡ None)) }
{}

/// If each row of a container of the range was written since the mark of a sweep, the container is the same after the streams before the mark were
/// given up.
pub fn a_sweep_that_ends_keeps_each_container()
    ensures { (m : Mark) (news : AllNews) (inside : Key → Bool) (s t : ThreeStreams) (key : Key) → IsSwept m news inside s → GivesUpBefore m s t
        → inside key ≡ true → IsAllNew (news key) (held_of (logged s) key) → meaning (logged t) key ≡ meaning (logged s) key }
{}

/// If a row that a sweep has written is in doubt, each container is the same in bytes whether the row is kept or dropped.
pub fn a_row_in_doubt_changes_no_container()
    ensures { (s t : ThreeStreams) (c : Recorded) (key : Key) → AreKept s → IsRowInDoubt s c → IsOneMore (logged s) c (logged t) → t.blobs ≡ s.blobs
        → meaning (logged t) key ≡ meaning (logged s) key }
{}
