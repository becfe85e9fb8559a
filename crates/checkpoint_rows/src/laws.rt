//! Laws of checkpoints of rows. Each law is the contract of a function that does nothing.
ghost use Rattle.std.specs.Prelude.{◌≡◌, List};
ghost use Rattle.std.specs.FinMap.{entries};
ghost use Rattle.stamp_values.specs.declared.key.Key.{Key};
ghost use Rattle.stamp_types.specs.World.{World, no_part, part_at};
ghost use Rattle.stamp_types.specs.declared.piece.Piece.{Piece};
ghost use Rattle.partition_stream.specs.Checkpoints.{made_by};
ghost use Rattle.partition_stream.specs.Meanings.{held_of};
ghost use Rattle.partition_stream.specs.Storing.{AreKept};
ghost use Rattle.partition_stream.specs.Streams.{ThreeStreams, logged};
ghost use Rattle.checkpoint_rows.specs.Writing.{AreWritable, IsWritable, all_records};

/// The rows of all containers of a world, in the order of their keys, make each container of it again, of a container that never was. A
/// container that was deleted is made with its count, and one that never was stays so.
pub fn the_rows_of_a_world_make_it_again()
    ensures { (w : World (List Piece)) (key : Key) → AreWritable w → made_by (all_records (entries w)) key ≡ part_at w key }
{}

/// Each container that streams mean can be written, and so can a container that never was. So rows that are what the streams mean meet
/// what a checkpoint asks for.
pub fn what_streams_mean_can_be_written()
    ensures held { (s : ThreeStreams) (key : Key) → AreKept s → IsWritable key (held_of (logged s) key) }
    ensures none { (key : Key) → IsWritable key no_part }
{}
