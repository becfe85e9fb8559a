//! Laws of spans. Each law is the contract of a function that does nothing.
ghost use Rattle.std.specs.Prelude.{◌≡◌, ◌≢◌, ◌≤◌, ◌<◌, ◌↔◌, ◌+◌, ℕ, List, Some, None, length, true, false, slice_index_or};
ghost use Rattle.std.specs.List.{remove};
ghost use Rattle.stamp_values.specs.Trees.{is_below, is_from};
ghost use Rattle.stamp_values.specs.declared.key.Key.{Key};
ghost use Rattle.partition_map.specs.Spans.{AreSpans, bound_at, bound_of, first_key, is_before, is_in_span, is_inside, points_limit, slot_of, split_refusal, with_point, with_two};

/// Each key lies in one span: in the span of the slot that is found for the key, and in no other.
pub fn each_key_has_one_span()
    ensures { (points : List Key) (key : Key) (i : ℕ) → AreSpans points → i ≤ length points
        → (is_in_span points i key ≡ true) ↔ (slot_of points key ≡ i) }
{}

/// A key lies in the span of its slot, so it comes before the bound of that span. Each key from that
/// key on and before that bound has the same slot.
pub fn keys_up_to_the_bound_have_one_slot()
    ensures own { (points : List Key) (key : Key) → is_in_span points (slot_of points key) key ≡ true }
    ensures under { (points : List Key) (key : Key) → is_before (bound_at points key) key ≡ true }
    ensures others { (points : List Key) (k key : Key)
        → is_from key k ≡ true → is_before (bound_at points key) k ≡ true
        → slot_of points k ≡ slot_of points key }
{}

/// A key is inside a span if and only if it lies in the span and is not the first key of the span.
pub fn a_key_is_inside_a_span_if_it_lies_after_its_first_key()
    ensures { (points : List Key) (i : ℕ) (key : Key)
        → (is_inside points i key ≡ true)
        ↔ ((is_in_span points i key ≡ true) × (key ≢ first_key points i)) }
{}

/// No cause refuses the split of a span if and only if the span exists, the key is inside the span,
/// and there may be one split point more.
pub fn a_span_is_split_if_no_cause_refuses_it()
    ensures { (points : List Key) (i : ℕ) (middle : Key)
        → (split_refusal points i middle ≡ None)
        ↔ ((i ≤ length points) × (is_inside points i middle ≡ true) × (length points < points_limit)) }
{}

/// After the split of a span, its keys before the split point have the slot that they had, and its
/// other keys have the next slot. Keys of earlier slots have the slot that they had. Keys of later
/// slots have a slot whose number is higher by one.
pub fn a_split_moves_later_slots_up()
    ensures lower { (points : List Key) (i : ℕ) (middle k : Key)
        → i ≤ length points → slot_of points k ≡ i → is_below middle k ≡ true
        → slot_of (with_point points i middle) k ≡ i }
    ensures upper { (points : List Key) (i : ℕ) (middle k : Key)
        → i ≤ length points → slot_of points k ≡ i → is_from middle k ≡ true
        → slot_of (with_point points i middle) k ≡ i + 1 }
    ensures earlier { (points : List Key) (i : ℕ) (middle k : Key)
        → i ≤ length points → slot_of points k < i
        → slot_of (with_point points i middle) k ≡ slot_of points k }
    ensures later { (points : List Key) (i : ℕ) (middle k : Key)
        → is_before (bound_of points i) middle ≡ true → i < slot_of points k
        → slot_of (with_point points i middle) k ≡ slot_of points k + 1 }
{}

/// After the split of a span, the lower half begins as the span did and ends at the split point. The
/// upper half begins there and ends as the span did. Earlier and later spans have the first keys and
/// the bounds that they had.
pub fn the_halves_share_the_bounds_of_their_span()
    ensures lower { (points : List Key) (i : ℕ) (middle : Key) → i ≤ length points
        → (first_key (with_point points i middle) i ≡ first_key points i)
        × (bound_of (with_point points i middle) i ≡ Some middle) }
    ensures upper { (points : List Key) (i : ℕ) (middle : Key) → i ≤ length points
        → (first_key (with_point points i middle) (i + 1) ≡ middle)
        × (bound_of (with_point points i middle) (i + 1) ≡ bound_of points i) }
    ensures earlier { (points : List Key) (i j : ℕ) (middle : Key) → i ≤ length points → j < i
        → (first_key (with_point points i middle) j ≡ first_key points j)
        × (bound_of (with_point points i middle) j ≡ bound_of points j) }
    ensures later { (points : List Key) (i j : ℕ) (middle : Key) → i ≤ length points → i < j
        → (first_key (with_point points i middle) (j + 1) ≡ first_key points j)
        × (bound_of (with_point points i middle) (j + 1) ≡ bound_of points j) }
{}

/// Each slot has something. If a span is split, and the half with a key gets what the slot of the key
/// had, then the slot of the key has it after the split too.
pub fn a_split_slot_is_found_by_its_halves<T>()
    ensures { (none lower upper x : T) (k middle : Key) (points : List Key) (hs : List T) (i : ℕ)
        → i ≤ length points → is_before (bound_of points i) middle ≡ true
        → length hs ≡ length points + 1
        → slice_index_or hs (slot_of points k) none ≡ x
        → (slot_of points k ≡ i → is_below middle k ≡ true → lower ≡ x)
        → (slot_of points k ≡ i → is_below middle k ≡ false → upper ≡ x)
        → slice_index_or (with_two hs i lower upper) (slot_of (with_point points i middle) k) none
        ≡ x }
{}

/// A join of the two halves of a span gives the spans from before the split.
pub fn a_join_undoes_a_split()
    ensures { (points : List Key) (i : ℕ) (middle : Key) → i ≤ length points
        → remove (with_point points i middle) i ≡ points }
{}
