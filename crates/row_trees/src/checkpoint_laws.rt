//! The law of checkpoints. It is the contract of a function that does nothing.
ghost use Rattle.std.specs.Prelude.{◌≡◌, List};
ghost use Rattle.stamp_types.specs.declared.piece.Piece.{Piece};
ghost use Rattle.stamp_types.specs.World.{Part, no_part};
ghost use Rattle.row_trees.specs.RowRecords.{after_acts, rows_of};

/// The rows that a container gives to a checkpoint make the container again: its own row, and then
/// the row of each blob, make it of a container that never was.
pub fn a_checkpoint_makes_its_container_again()
    ensures { (p : Part (List Piece)) → after_acts (rows_of p) no_part ≡ p }
{}
