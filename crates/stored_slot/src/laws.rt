//! Laws of slots over streams. Each law is the contract of a function that does nothing.
ghost use Rattle.std.specs.Prelude.{◌≡◌, ◌⊎◌, ℕ, IsSome, List, None, Ok, false, true};
ghost use Rattle.stamp_types.specs.Requests.{Asked};
ghost use Rattle.stamp_types.specs.World.{World, no_part, part_at, part_value};
ghost use Rattle.stamp_types.specs.declared.piece.Piece.{Piece};
ghost use Rattle.stamp_values.specs.declared.key.Key.{Key};
ghost use Rattle.stream_manager.specs.Streams.{laid};
ghost use Rattle.partition_stream.specs.Contents.{content_at};
ghost use Rattle.stored_rows.specs.Loaded.{AreRowsOf};
ghost use Rattle.stored_rows.specs.Ranges.{covers};
ghost use Rattle.stored_rows.specs.States.{Stored, bytes_of};
ghost use Rattle.slot_state.specs.HistoryMaps.{Histories};
ghost use Rattle.slot_state.specs.Pairs.{Pairs};
ghost use Rattle.slot_state.specs.Slots as slots;
ghost use Rattle.slot_state.specs.Slots.{SlotState, change_now, replayed_at, slot_after};
ghost use Rattle.stored_slot.specs.Meanings.{AreOfStreams, AreReplays, slot_with};
ghost use Rattle.stored_slot.specs.Served.{doubting};
ghost use Rattle.stored_slot.specs.Settled.{CutsSettled, SettlesSlot};

/// Rows that are dropped from memory and loaded again are what the histories replay to: of the range, each container that the rows have
/// is in bytes what its own history makes of it, and the rows have no other container.
pub fn after_unload_and_load_the_rows_are_the_replay()
    ensures bytes { (pairs : Pairs) (h : Histories) (s m t : Stored) (w : World (List Piece)) (key : Key)
        → AreReplays pairs h s → m ≡ record s { is_loaded = false } → t ≡ record m { is_loaded = true } → AreRowsOf t.range t.streams w
        → covers t.range key ≡ true
        → part_value (content_at (laid t.streams.blobs)) (part_at w key) ≡ replayed_at pairs h key }
    ensures others { (s m t : Stored) (w : World (List Piece)) (key : Key)
        → m ≡ record s { is_loaded = false } → t ≡ record m { is_loaded = true } → AreRowsOf t.range t.streams w
        → covers t.range key ≡ false → part_at w key ≡ no_part }
{}

/// A change of which it was not known whether it was made ends whole: after the settle the slot is as if its request had been served at
/// the moment and by the keys at which it came, or as if it had never come.
pub fn a_doubt_of_a_slot_ends_whole()
    ensures { (s t : SlotState) (q : Asked) (moment : ℕ)
        → s.doubt ≡ None → IsSome (change_now s.pairs s.histories q moment) → SettlesSlot (doubting s q moment) t
        → (t ≡ slot_after s q moment) ⊎ (t ≡ s) }
{}

/// A split loses nothing of what streams keep: each container of the slot is in the range of one half, and the streams of this half have
/// it in bytes as its history in the whole slot replays, after a doubt of the slot was kept or dropped.
pub fn a_split_loses_nothing()
    ensures { (pairs : Pairs) (below above : Histories) (lower upper : Stored) (s : SlotState) (middle key : Key)
        → AreOfStreams pairs below lower None → AreOfStreams pairs above upper None
        → CutsSettled (Ok (slot_with pairs above upper None)) s middle (slot_with pairs below lower None)
        → slots.covers s key ≡ true
        → (m : SlotState) × (SettlesSlot s m
        × (((covers lower.range key ≡ true) × (bytes_of lower key ≡ replayed_at m.pairs m.histories key))
        ⊎ ((covers upper.range key ≡ true) × (bytes_of upper key ≡ replayed_at m.pairs m.histories key)))) }
{}
