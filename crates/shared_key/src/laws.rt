//! Laws of the definitions.
ghost use Rattle.std.specs.Prelude.{List, ℕ};
ghost use Rattle.stamp_values.specs.Order.{name_cmp};
ghost use Rattle.shared_key.specs.Arranged.{in_order, IsArrangement};

/// A list of texts that is put in order has the same members and is sorted by the bytes of the texts, and no other list has both.
/// So the order of values does not depend on how it is found.
pub fn arrangements_are_unique()
    ensures { (texts : List (List ℕ)) → IsArrangement name_cmp texts (in_order name_cmp texts) }
{}
