//! Values by key.
ghost use Rattle.std.specs.Prelude.{◌≡◌, IfOk, OnOk, OnErr, None, map};
ghost use Rattle.std.specs.List.{filter};
ghost use Rattle.std.specs.Option.{option_copied, option_copied_mut};
ghost use Rattle.std.specs.Borrow.{sem};
ghost use Rattle.std.specs.FinMap as finite;
ghost use Rattle.stamp_values.specs.Lending.{LendsKeyed};
ghost use Rattle.stamp_values.specs.Trees.{entry_key, is_below, is_from, own_key};

use crate::key::Key;
use std::alloc::{AllocError, Global};
use std::collections::BTreeMap;
use std::collections::btree_map::{Iter, Range};
use std::marker::Model;

/// Values by key in a tree, seen as the map from the keys to the values. A call takes time with the
/// logarithm of the number of values.
#[derive(Drop)]
pub struct Keyed<V> {
    tree: BTreeMap<Key, V>,
}

impl<V> Model for Keyed<V> {
    ghost use Rattle.std.specs.FinMap.{FinMap, code};
    ghost use Rattle.stamp_values.specs.Order.{key_cmp};
    ghost use Rattle.stamp_values.specs.Trees.{key_code, keyed_map};

    ghost Value = { FinMap key_cmp V };

    ghost coded = { code key_code V.code };

    ghost view = { λ k. keyed_map k.tree };
}

impl<V> Keyed<V> {
    /// No values. Takes no memory.
    pub fn new(alloc: Global) -> Self
        ensures { result ≡ finite.empty }
    {
        Self {
            tree: BTreeMap::new(alloc),
        }
    }

    /// The value of the key, if the key has a value.
    #[tactic(auto, using(crate::proofs::KeyedTrees::found_keyed))]
    pub fn get(&self, key: &Key) -> Option<&V>
        ensures { option_copied result ≡ finite.get self.now key.now }
    {
        self.tree.get(key)
    }

    /// The value of the key, to be changed in its place, if the key has a value.
    pub fn get_mut(&mut self, key: &Key) -> Option<&mut V>
        ensures* writes_back { sem 𝓛 (LendsKeyed V.row self.entry key.now result) }
        ensures value { option_copied_mut result ≡ finite.get self.old key.now }
    {
        self.tree.get_mut(key)
    }

    /// The keys with their values, in the order of the keys.
    #[tactic(auto, using(crate::proofs::KeyedTrees::listed_keyed))]
    pub fn iter(&self) -> Iter<'_, Key, V>
        ensures { map (entry_key own_key) result ≡ finite.entries self.now }
    {
        self.tree.iter()
    }

    /// The keys from a bound on with their values, in the order of the keys. The bound need not be a
    /// key that has a value. What is given outlives the bound.
    pub fn range_from<'a>(&'a self, bound: &Key) -> Range<'a, Key, V>
        ensures { map (entry_key own_key) result
            ≡ filter (λ e. is_from bound.now e.0) (finite.entries self.now) }
    {
        self.tree.range(bound..)
    }

    /// Takes the values of `middle` and of each key after it out of the map, and gives them. The
    /// values of the keys before `middle` stay.
    ///
    /// `AllocError` if memory runs out. Each value is then where it was.
    #[tactic(auto, using(crate::proofs::KeyedTrees::kept_below, crate::proofs::KeyedTrees::moved_from, crate::proofs::KeyedTrees::same_tree))]
    pub fn split_off(&mut self, middle: &Key) -> Result<Self, AllocError>
        ensures below { OnOk result (self.new ≡ finite.retain_keys self.old (is_below middle.now)) }
        ensures from { IfOk result (λ upper.
            upper ≡ finite.retain_keys self.old (is_from middle.now)) }
        ensures refused { OnErr result (self.new ≡ self.old) }
    {
        let tree = self.tree.split_off(middle)?;
        Ok(Self { tree })
    }
}

impl<V: Drop> Keyed<V> {
    /// Puts a value under a key, and gives the value that the key had.
    ///
    /// `AllocError` if memory runs out for one more value. This happens only if the key had no
    /// value. The values are then as they were.
    #[tactic(auto, using(crate::proofs::KeyedTrees::inserted_keyed, crate::proofs::KeyedTrees::found_keyed, crate::proofs::KeyedTrees::absent_keyed))]
    pub fn insert(&mut self, key: Key, value: V) -> Result<Option<V>, AllocError>
        ensures inserted { OnOk result (self.new ≡ finite.insert self.old key value) }
        ensures before { IfOk result (λ before. before ≡ finite.get self.old key) }
        ensures refused { OnErr result (self.new ≡ self.old) }
        ensures absent { OnErr result (finite.get self.old key ≡ None) }
    {
        Ok(self.tree.insert(key, value)?)
    }

    /// Removes the value of the key, and gives it. Takes no memory.
    #[tactic(auto, using(crate::proofs::KeyedTrees::found_keyed, crate::proofs::KeyedTrees::removed_keyed))]
    pub fn remove(&mut self, key: &Key) -> Option<V>
        ensures value { result ≡ finite.get self.old key.now }
        ensures removed { self.new ≡ finite.remove self.old key.now }
    {
        self.tree.remove(key)
    }
}
