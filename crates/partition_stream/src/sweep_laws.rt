//! Laws of sweeps. Each law is the contract of a function that does nothing.
ghost use Rattle.std.specs.Prelude.{◌≡◌, ◌≤◌, [], ◌++◌, List, length};
ghost use Rattle.stamp_values.specs.declared.key.Key.{Key};
ghost use Rattle.stream_manager.specs.Places.{GoesOn};
ghost use Rattle.stream_manager.specs.Streams.{laid};
ghost use Rattle.partition_stream.specs.Changes.{Recorded};
ghost use Rattle.partition_stream.specs.Meanings.{held_of, meaning};
ghost use Rattle.partition_stream.specs.Storing.{AreKept};
ghost use Rattle.partition_stream.specs.Streams.{ThreeStreams, logged};
ghost use Rattle.partition_stream.specs.Sweeping.{GivesUpBefore, LieFrom, changes_from, handles_before, made_from, mark_of};
ghost use Rattle.partition_stream.specs.declared.mark.Mark.{Mark};

/// If the changes since the mark make of a container that never was what the container is, then the streams mean the same container after
/// the extents before the mark were given up, in pieces and in bytes.
pub fn what_is_given_up_means_the_same()
    ensures pieces { (m : Mark) (s t : ThreeStreams) (key : Key) → GivesUpBefore m s t
        → made_from m s key ≡ held_of (logged s) key → held_of (logged t) key ≡ held_of (logged s) key }
    ensures bytes { (m : Mark) (s t : ThreeStreams) (key : Key) → LieFrom m s → GivesUpBefore m s t
        → made_from m s key ≡ held_of (logged s) key → meaning (logged t) key ≡ meaning (logged s) key }
{}

/// No change was logged since a mark that is taken while the last extent of the log has no block. Changes that are added to the log are
/// added to the changes since the mark. A put or a change after the mark leaves the room that the mark needs as it was.
pub fn a_change_after_the_mark_is_one_more_since_it()
    ensures none { (s : ThreeStreams) → s.log.last.blocks ≡ [] → changes_from (mark_of s) s ≡ [] }
    ensures more { (m : Mark) (s t : ThreeStreams) (cs : List Recorded) → m.log ≤ length s.log.sealed
        → GoesOn (laid s.log) (laid t.log) → (logged t).log ≡ (logged s).log ++ cs → changes_from m t ≡ changes_from m s ++ cs }
    ensures room { (m : Mark) (s t : ThreeStreams) → m.log ≤ length s.log.sealed → m.blobs ≤ length s.blobs.sealed
        → GoesOn (laid s.log) (laid t.log) → GoesOn (laid s.blobs) (laid t.blobs) → handles_before m t ≡ handles_before m s }
{}
