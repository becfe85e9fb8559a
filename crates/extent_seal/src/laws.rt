//! Laws of extents.
ghost use Rattle.std.specs.Prelude.{◌≡◌, ◌++◌, Bool, List};
ghost use Rattle.std.specs.Option.{option_to_list};
ghost use Rattle.extent_node.specs.Copies.{Block};
ghost use Rattle.extent_node.specs.Faults.{Calls};
ghost use Rattle.extent_seal.specs.Counting.{AsksEach, FailsEach};
ghost use Rattle.extent_seal.specs.Extents.{Open, replica};
ghost use Rattle.extent_seal.specs.Heard.{AsksAreHeard, CanCount};

/// Each replica holds a prefix of the extent's blocks, and each acknowledged block lies in every replica.
pub fn replicas_hold_prefixes()
    ensures prefix { (e : Open) (took : Bool) → (rest : List Block) × (replica e took ++ rest ≡ e.blocks ++ option_to_list e.tried) }
    ensures acknowledged { (e : Open) (took : Bool) → (rest : List Block) × (replica e took ≡ e.blocks ++ rest) }
{}

/// If each node was asked once and answered no, the asks are not heard, as long as the wire can count on. So a call that gave up cannot say what
/// calls say that did what they should.
pub fn asks_in_vain_are_not_heard()
    ensures { (old new failed_old failed_new : Calls) → CanCount old.asks → AsksEach old new → FailsEach failed_old failed_new
        → AsksAreHeard old new failed_old failed_new → ⊥ }
{}
