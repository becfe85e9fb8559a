//! The accepted changes of each container, however they are kept.
ghost use Rattle.std.specs.Prelude.{◌≡◌, ◌≢◌, [], IfOk, OnErr, OnOk};
ghost use Rattle.std.specs.FinMap as finite;
ghost use Rattle.stamp_values.specs.Trees.{is_below, is_from};
ghost use Rattle.slot_state.specs.HistoryMaps as maps;
ghost use Rattle.slot_state.specs.HistoryMaps.{NoneIsEmpty, history_at, with_entry, without_last};

use stamp_types::{Key, Past};
use std::alloc::{AllocError, Global};

/// The accepted changes of each container, each a list in the order in which they were accepted. A container without accepted changes
/// has no list.
///
/// Proofs read the lists. A type that implements this need not have them in memory.
pub trait Histories: Sized + Drop {
    /// The lists by the keys of their containers.
    ghost held: { Self → maps.Histories };

    /// No list is empty.
    ghost none_is_empty: { (s : Self) → NoneIsEmpty (held s) };

    /// No lists. Takes no memory.
    fn none(alloc: Global) -> Self
        ensures { held result ≡ finite.empty };

    /// One more entry, which is the last of its container. It is one more owner of its request, of which no byte is copied. All other
    /// lists stay.
    ///
    /// `AllocError` if the entry cannot be kept. All lists are then as they were.
    fn push(&mut self, alloc: Global, entry: &Past) -> Result<(), AllocError>
        ensures pushed { OnOk result (held self.new ≡ with_entry (held self.old) entry.now) }
        ensures refused { OnErr result (held self.new ≡ held self.old) };

    /// The last entry of a container goes, and a list of one entry goes with it. Takes no memory.
    fn take_back(&mut self, key: &Key)
        requires { history_at (held self.old) key.now ≢ [] }
        ensures { held self.new ≡ without_last (held self.old) key.now };

    /// Two new parts that have the lists between them: those of the keys before `middle`, and those of `middle` and of each key after
    /// it. These histories stay as they are.
    ///
    /// `AllocError` if memory runs out.
    fn halves(&self, alloc: Global, middle: &Key) -> Result<(Self, Self), AllocError>
        ensures below { IfOk result (λ p.
            held p.0 ≡ finite.retain_keys (held self.now) (is_below middle.now)) }
        ensures from { IfOk result (λ p.
            held p.1 ≡ finite.retain_keys (held self.now) (is_from middle.now)) };
}
