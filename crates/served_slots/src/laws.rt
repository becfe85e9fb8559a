//! What a slot has, and what the history leaves. Each law is the contract of a function that does nothing.
ghost use Rattle.std.specs.Prelude.{◌≡◌, ◌∷◌, [], ℕ, List, None, Option, Some, true};
ghost use Rattle.stamp_values.specs.declared.key.Key.{Key};
ghost use Rattle.stamp_types.specs.Requests.{Asked, IsAsk};
ghost use Rattle.stamp_types.specs.declared.reply.Reply.{Reply};
ghost use Rattle.access_rules.specs.declared.keys.Keys.{Keys};
ghost use Rattle.stamp_model.specs.SeenContainers.{routed};
ghost use Rattle.slot_state.specs.Pairs.{AreNumbered, first_pairs};
ghost use Rattle.slot_state.specs.Slots as slots;
ghost use Rattle.slot_state.specs.Slots.{SlotState, covers, empty_slot, is_inside, lower_half, upper_half};
ghost use Rattle.served_history.specs.declared.entry.Entry.{Entry};
ghost use Rattle.served_history.specs.declared.entry.Entry.TheVariants.{Opened, Served};
ghost use Rattle.served_history.specs.Growth.{IsEntered, SlotFront};
ghost use Rattle.served_history.specs.Histories.{IsOwn, IsServed, owner};
ghost use Rattle.served_slots.specs.Slots.{IsLeftBy, IsParted, timed_in};

/// The slot 0 has all keys at first, and no container is there.
pub fn the_first_slot_has_all_keys()
    ensures { (own : SlotFront) (first : List Keys)
        → own.slot ≡ 0 → own.log ≡ Opened first ∷ [] → AreNumbered (first_pairs first)
        → IsLeftBy own None (empty_slot (first_pairs first)) }
{}

/// A slot whose containers are those that its history leaves may enter a request on one of its keys. If it serves the request and enters it, the
/// reply is the model's after all entries before the request, those of other slots too, and the slot's containers are again those that its
/// history leaves.
pub fn a_slot_has_what_its_requests_leave()
    ensures own { (front : SlotFront) (to : Option Key) (s : SlotState) (q : Asked) (t : ℕ)
        → IsLeftBy front to s → covers s (routed q) ≡ true
        → IsOwn front.log (Served front.slot (timed_in s to q t)) }
    ensures served { (front : SlotFront) (to : Option Key) (s after : SlotState) (q : Asked) (t : ℕ) (r : Reply) (known known' : List Entry)
        → IsLeftBy front to s → covers s (routed q) ≡ true → IsAsk q.ask
        → slots.IsServed s q t s.to r after
        → IsEntered front.slot front.log known (Served front.slot (timed_in after to q t)) known'
        → IsServed known q t r known' }
    ensures left { (front : SlotFront) (to : Option Key) (s after : SlotState) (q : Asked) (t : ℕ) (r : Reply) (known known' : List Entry)
        → IsLeftBy front to s → covers s (routed q) ≡ true
        → slots.IsServed s q t s.to r after
        → IsEntered front.slot front.log known (Served front.slot (timed_in after to q t)) known'
        → IsLeftBy (record { slot = front.slot; log = known' }) to after }
{}

/// A slot whose containers are those that its history leaves may enter a split at a key inside its range. Then the containers of each half are
/// those that the half's history leaves.
pub fn both_halves_have_what_is_left()
    ensures own { (front : SlotFront) (to : Option Key) (s : SlotState) (middle : Key)
        → IsLeftBy front to s → is_inside s middle ≡ true → owner front.log middle ≡ front.slot }
    ensures lower { (front lower upper : SlotFront) (to : Option Key) (s : SlotState) (middle : Key)
        → IsLeftBy front to s → is_inside s middle ≡ true → IsParted front middle lower upper
        → IsLeftBy lower (Some middle) (lower_half s middle) }
    ensures upper { (front lower upper : SlotFront) (to : Option Key) (s : SlotState) (middle : Key)
        → IsLeftBy front to s → is_inside s middle ≡ true → IsParted front middle lower upper
        → IsLeftBy upper to (upper_half s middle) }
{}
