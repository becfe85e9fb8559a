//! Laws of slots. Each law is the contract of a function that does nothing.
ghost use Rattle.std.specs.Prelude.{◌≡◌, ℕ, List, [], Option, true};
ghost use Rattle.stamp_values.specs.Trees.{is_below, is_from};
ghost use Rattle.stamp_values.specs.declared.key.Key.{Key};
ghost use Rattle.stamp_types.specs.Requests.{Asked};
ghost use Rattle.stamp_types.specs.World.{World, no_part, part_at};
ghost use Rattle.stamp_types.specs.declared.past.Past.{Past};
ghost use Rattle.stamp_types.specs.declared.reply.Reply.{Reply};
ghost use Rattle.stamp_model.specs.Effects.{effect};
ghost use Rattle.stamp_model.specs.Responses.{reply};
ghost use Rattle.stamp_model.specs.SeenContainers.{routed};
ghost use Rattle.slot_state.specs.HistoryMaps as maps;
ghost use Rattle.slot_state.specs.HistoryMaps.{NoneIsEmpty, history_at, with_entry, without_last};
ghost use Rattle.slot_state.specs.Pairs.{AreNumbered, Pairs, current_at};
ghost use Rattle.slot_state.specs.Slots.{IsServed, KeepsToRange, SlotState, covers, empty_slot, lower_half, replayed_at, upper_half};

/// If each container of a world is what its history in a slot replays to, then a request that the slot
/// serves gets the model's reply in this world, by the pair in force and up to the bound, and after it
/// each container of the model's next world is what its history in the slot replays to.
pub fn a_slot_serves_one_step()
    ensures { (s after : SlotState) (w : World (List ℕ)) (q : Asked) (t : ℕ) (bound : Option Key) (r : Reply)
        → AreNumbered s.pairs
        → ((key : Key) → part_at w key ≡ replayed_at s.pairs s.histories key)
        → IsServed s q t bound r after
        → (r ≡ reply (current_at s.pairs q.ask.key.account) w q t bound)
        × ((key : Key) → part_at (effect (current_at s.pairs q.ask.key.account) w q t) key
        ≡ replayed_at after.pairs after.histories key) }
{}

/// After a split each container is whole in one half: its history is there, and so is what its history
/// replays to, which is its count, what it has beside its blobs, its blobs and their uncommitted blocks.
/// The other half has no history of it.
pub fn a_split_loses_nothing()
    ensures lower { (s : SlotState) (middle key : Key) → is_below middle key ≡ true
        → (history_at (lower_half s middle).histories key ≡ history_at s.histories key)
        × (replayed_at s.pairs (lower_half s middle).histories key ≡ replayed_at s.pairs s.histories key)
        × (history_at (upper_half s middle).histories key ≡ [])
        × (replayed_at s.pairs (upper_half s middle).histories key ≡ no_part) }
    ensures upper { (s : SlotState) (middle key : Key) → is_from middle key ≡ true
        → (history_at (upper_half s middle).histories key ≡ history_at s.histories key)
        × (replayed_at s.pairs (upper_half s middle).histories key ≡ replayed_at s.pairs s.histories key)
        × (history_at (lower_half s middle).histories key ≡ [])
        × (replayed_at s.pairs (lower_half s middle).histories key ≡ no_part) }
{}

/// If each request is sent to the slot that covers the first key that the request looks at, then a slot
/// has accepted changes of the keys of its range only: at first, after each request, and in both halves
/// of a split.
pub fn a_slot_keeps_to_its_range()
    ensures empty { (pairs : Pairs) → KeepsToRange (empty_slot pairs) }
    ensures served { (s after : SlotState) (q : Asked) (t : ℕ) (bound : Option Key) (r : Reply)
        → KeepsToRange s → covers s (routed q) ≡ true → IsServed s q t bound r after
        → KeepsToRange after }
    ensures lower { (s : SlotState) (middle : Key) → KeepsToRange s → KeepsToRange (lower_half s middle) }
    ensures upper { (s : SlotState) (middle : Key) → KeepsToRange s → KeepsToRange (upper_half s middle) }
{}

/// If an entry is pushed and taken back, the histories are those from before, also if the entry was the
/// first of its container.
pub fn what_is_pushed_back_was_not_there()
    ensures { (h : maps.Histories) (e : Past) → NoneIsEmpty h
        → without_last (with_entry h e) e.request.ask.key ≡ h }
{}
