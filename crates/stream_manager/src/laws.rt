//! Laws of streams, over any list of calls and any wire.
ghost use Rattle.std.specs.Prelude.{◌≡◌, ◌≤◌, ◌<◌, ◌⊎◌, ◌+◌, ◌++◌, ◌∷◌, [], ℕ, Bool, List, Ok, Some, drop, length};
ghost use Rattle.std.specs.List.{slice_get};
ghost use Rattle.stamp_values.specs.declared.place.Place.{Place};
ghost use Rattle.extent_node.specs.Copies.{Block};
ghost use Rattle.extent_node.specs.Faults.{held};
ghost use Rattle.stream_manager.specs.GivenUp.{GivesUp, GivesUpFront};
ghost use Rattle.stream_manager.specs.Outcomes.{IsAppend};
ghost use Rattle.stream_manager.specs.Places.{block_at, blocks_of};
ghost use Rattle.stream_manager.specs.Runs.{IsStep, IsRunFrom, end_of};
ghost use Rattle.stream_manager.specs.Streams.{Streamed, laid};
ghost use Rattle.stream_manager.specs.Walks.{before};

/// A place that an append answered has the block that was appended, at the end of every run that comes after it and does not give up the
/// extent of the place.
pub fn an_acknowledged_block_is_read_for_good()
    ensures { (old new : Streamed) (p : Place) (block : Block) (from : ℕ) (ts : List Streamed)
        → IsAppend (Ok p) (laid old) old.last block (laid new) new.last → from ≤ p.extent → IsRunFrom from new ts
        → block_at (laid (end_of new ts)) p ≡ Some block }
{}

/// A sealed extent has the same blocks at the end of every run that does not give it up, so its commit length is the same.
pub fn a_commit_length_never_changes()
    ensures { (s : Streamed) (ts : List Streamed) (from e : ℕ) → IsRunFrom from s ts → from ≤ e → e < length s.sealed
        → slice_get (laid (end_of s ts)) e ≡ slice_get (laid s) e }
{}

/// A doubt stays as it is, or it ends: its block then comes as one block after all acknowledged blocks, or it comes nowhere. A give-up
/// leaves a doubt as it was.
pub fn a_doubt_ends_whole()
    ensures ended { (s t : Streamed) (d : Block) → s.last.tried ≡ Some d → IsStep s t
        → ((laid t ≡ laid s) × (t.last.tried ≡ Some d))
        ⊎ ((kept : Bool) × ((after : List Block) × (blocks_of (laid t) ≡ blocks_of (laid s) ++ (held kept (Some d) ++ after)))) }
    ensures left { (e : ℕ) (s t : Streamed) (d : Block) → s.last.tried ≡ Some d → GivesUp e s t → t.last.tried ≡ Some d }
    ensures front { (n : ℕ) (s t : Streamed) (d : Block) → s.last.tried ≡ Some d → GivesUpFront n s t → t.last.tried ≡ Some d }
{}

/// At the end of every run that gives up no extent from a number on, the blocks from this number on are those of before, in their order,
/// and then others.
pub fn blocks_keep_their_order()
    ensures { (s : Streamed) (ts : List Streamed) (from : ℕ) → IsRunFrom from s ts → from ≤ length s.sealed
        → (added : List Block) × (blocks_of (drop from (laid (end_of s ts))) ≡ blocks_of (drop from (laid s)) ++ added) }
{}

/// Two streams with the same sealed extents have the same blocks at the places of these extents.
pub fn a_shared_place_has_the_same_block()
    ensures { (s t : Streamed) (p : Place) → t.sealed ≡ s.sealed → p.extent < length s.sealed
        → block_at (laid t) p ≡ block_at (laid s) p }
{}

/// A walk by extent and by index meets each block once, in the order of the blocks.
pub fn a_walk_meets_all_blocks_in_order()
    ensures first { (es : List (List Block)) → before es 0 0 ≡ [] }
    ensures next { (es : List (List Block)) (e i : ℕ) (blocks : List Block) (b : Block)
        → slice_get es e ≡ Some blocks → slice_get blocks i ≡ Some b → before es e (i + 1) ≡ before es e i ++ b ∷ [] }
    ensures over { (es : List (List Block)) (e : ℕ) (blocks : List Block)
        → slice_get es e ≡ Some blocks → before es (e + 1) 0 ≡ before es e (length blocks) }
    ensures all { (es : List (List Block)) → before es (length es) 0 ≡ blocks_of es }
{}
