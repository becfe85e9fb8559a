//! Laws of checkpoints. Each law is the contract of a function that does nothing.
ghost use Rattle.std.specs.Prelude.{◌≡◌};
ghost use Rattle.stamp_types.specs.World.{part_value};
ghost use Rattle.stamp_values.specs.declared.key.Key.{Key};
ghost use Rattle.stream_manager.specs.Streams.{Streamed, laid};
ghost use Rattle.partition_stream.specs.Checkpoints.{IsInPlace, made_by, new_rows};
ghost use Rattle.partition_stream.specs.Contents.{content_at};
ghost use Rattle.partition_stream.specs.Meanings.{held_of, meaning};
ghost use Rattle.partition_stream.specs.Streams.{ThreeStreams, logged};

/// Once a checkpoint is in place, each container is what its new rows make of a container that never was, in pieces and in bytes.
pub fn a_checkpoint_means_its_rows()
    ensures pieces { (s t : ThreeStreams) (rows : Streamed) (key : Key) → IsInPlace s rows t
        → held_of (logged t) key ≡ made_by (new_rows rows) key }
    ensures bytes { (s t : ThreeStreams) (rows : Streamed) (key : Key) → IsInPlace s rows t
        → meaning (logged t) key ≡ part_value (content_at (laid s.blobs)) (made_by (new_rows rows) key) }
{}

/// If the new rows make a container as the streams mean it, then the streams mean the same container once the checkpoint is in place,
/// in pieces and in bytes: also one that was deleted, with its count.
pub fn a_checkpoint_means_what_it_meant()
    ensures pieces { (s t : ThreeStreams) (rows : Streamed) (key : Key) → IsInPlace s rows t
        → made_by (new_rows rows) key ≡ held_of (logged s) key → held_of (logged t) key ≡ held_of (logged s) key }
    ensures bytes { (s t : ThreeStreams) (rows : Streamed) (key : Key) → IsInPlace s rows t
        → made_by (new_rows rows) key ≡ held_of (logged s) key → meaning (logged t) key ≡ meaning (logged s) key }
{}
