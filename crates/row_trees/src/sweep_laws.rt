//! Laws of a container whose rows are written again, one after the other. Each law is the contract of a function that does nothing.
ghost use Rattle.std.specs.Prelude.{◌≡◌, List, Option};
ghost use Rattle.stamp_types.specs.Pieces.{pieces_len};
ghost use Rattle.stamp_types.specs.World.{Part, changed, no_part, part_value, same_pieces};
ghost use Rattle.stamp_types.specs.declared.act.Act.{Act};
ghost use Rattle.stamp_types.specs.declared.act.Act.TheVariants as act;
ghost use Rattle.stamp_types.specs.declared.piece.Piece.{Piece};
ghost use Rattle.row_trees.specs.Fits.{fits};
ghost use Rattle.row_trees.specs.Halfway.{IsAllNew, IsHalfway, IsSweptPart, IsTouched, News, news_after, no_news};
ghost use Rattle.row_trees.specs.RowRecords.{container_row_of};

/// Once the row of a container and the row of each of its blobs were written since a mark, the changes since the mark make the
/// container. If no row was written, the container has to be one that never was.
pub fn what_is_all_new_is_the_container()
    ensures { (news : Option News) (p q : Part (List Piece)) → IsSweptPart news p q → IsAllNew news p → q ≡ p }
{}

/// A container is halfway once its own row was written since a mark. It is halfway after each further change and after each further row,
/// if the blob that the change reads was written since the mark. Such a change fits the container if and only if it fits what the
/// changes since the mark make.
pub fn a_container_stays_halfway()
    ensures begins { (p : Part (List Piece)) → IsHalfway no_news p (changed same_pieces (act.ContainerRow (container_row_of p)) no_part) }
    ensures more { (news : News) (p q : Part (List Piece)) (a : Act) → IsHalfway news p q → IsTouched news p a
        → IsHalfway (news_after news a) (changed same_pieces a p) (changed same_pieces a q) }
    ensures fits { (news : News) (p q : Part (List Piece)) (a : Act) → IsHalfway news p q → IsTouched news p a
        → fits (part_value pieces_len q) a ≡ fits (part_value pieces_len p) a }
{}
