//! Spans of keys: which slot has a key, and how a span is split.
ghost use Rattle.std.specs.Prelude.{◌≡◌, ◌≤◌, ◌<◌, ◌+◌, [], true, length, OnOk, OnErr, IfErr, None};
ghost use Rattle.std.specs.Option.{option_copied};
ghost use Rattle.std.specs.List.{remove};
ghost use Rattle.stamp_values.specs.Trees.{is_below, is_from};
ghost use Rattle.partition_map.specs.Spans.{bound_of, cause_of, first_key, is_before, is_inside, is_least, points_limit, slot_of, split_refusal, with_point};

use crate::fault::MapFault;
use stamp_values::Key;
use std::alloc::{AllocError, Global};
use std::marker::Model;

/// How many slots there may be. Each of them has one span.
pub const MOST_SLOTS: usize = 256;

// How many split points there may be.
const POINTS_LIMIT: usize = MOST_SLOTS - 1;

/// The spans of all slots: each key lies in one span. There are 1 to 256 spans, numbered from 0 in
/// the order of their keys.
///
/// Contracts see the list of the split points, which are the first keys of all spans but the first.
/// They rise, and the first span begins with the least key.
#[derive(Drop)]
pub struct Spans {
    points: Vec<Key>,
}

impl Model for Spans {
    ghost use Rattle.std.specs.Prelude.{List};
    ghost use Rattle.stamp_values.specs.declared.key.Key.{Key};
    ghost use Rattle.partition_map.specs.Spans.{AreSpans};

    ghost Value = { List Key };

    ghost view = { λ s. s.points.items };

    ghost invariant = { λ s. AreSpans s.points.items };
}

// Whether the key comes before all other keys.
fn is_least(key: &Key) -> bool
    ensures { result ≡ is_least key.now }
{
    key.account.as_str().is_empty() && key.container.as_str().is_empty()
}

// Whether the key comes before the other key.
fn comes_before(key: &Key, other: &Key) -> bool
    ensures { result ≡ is_below other.now key.now }
{
    other.cmp(key).is_gt()
}

// Whether the key is the split point, or comes after it.
fn begins_by(point: &Key, key: &Key) -> bool
    ensures { result ≡ is_from point.now key.now }
{
    point.cmp(key).is_le()
}

impl Spans {
    /// One span, which has all keys. Takes no memory.
    #[tactic(auto, using(crate::proofs::RiseLemmas::no_points))]
    pub fn new(alloc: Global) -> Self
        ensures { result ≡ [] }
    {
        Self {
            points: Vec::new(alloc),
        }
    }

    /// How many spans there are. They are numbered from 0.
    pub fn len(&self) -> usize
        ensures value { result ≡ length self.now + 1 }
        ensures limit { result ≤ 256 }
    {
        self.points.len() + 1
    }

    /// The number of the slot whose span has the key. Takes no memory.
    pub fn find(&self, key: &Key) -> usize
        ensures slot { result ≡ slot_of self.now key.now }
        ensures within { result ≤ length self.now }
    {
        self.points
            .as_slice()
            .partition_point(|point| begins_by(point, key))
    }

    /// The first key past the span of a slot, which is the first key of the next span. `None` if the
    /// span is the last one, and if no slot has this number.
    pub fn bound(&self, slot: usize) -> Option<&Key>
        ensures { option_copied result ≡ bound_of self.now slot }
    {
        self.points.get(slot)
    }

    // Whether the key comes after the first key of the span.
    #[tactic(auto, using(crate::proofs::RiseLemmas::past_least, crate::proofs::RiseLemmas::past_point))]
    fn is_past_first(&self, slot: usize, key: &Key) -> bool
        requires { slot ≤ length self.now }
        ensures { result ≡ is_below key.now (first_key self.now slot) }
    {
        if slot == 0 {
            return !is_least(key);
        }
        comes_before(&self.points[slot - 1], key)
    }

    // Whether the key comes before the bound of the span.
    fn is_under(&self, slot: usize, key: &Key) -> bool
        ensures { result ≡ is_before (bound_of self.now slot) key.now }
    {
        match self.points.get(slot) {
            None => true,
            Some(bound) => comes_before(key, bound),
        }
    }

    // Puts one more split point at its place among the others.
    #[tactic(auto, using(crate::proofs::RiseLemmas::one_more_if))]
    fn put(&mut self, slot: usize, middle: Key) -> Result<(), AllocError>
        requires within { slot ≤ length self.old }
        requires inside { is_inside self.old slot middle ≡ true }
        requires room { length self.old < points_limit }
        ensures put { OnOk result (self.new ≡ with_point self.old slot middle) }
        ensures unchanged { OnErr result (self.new ≡ self.old) }
    {
        self.points.insert(slot, middle).map_err(AllocError::from)
    }

    /// Splits the span of a slot at a key: the span then ends before the key, and a new span begins
    /// with the key. The new span has the next number, and each later span has a number that is
    /// higher by one.
    ///
    /// A fault is the first cause that exists: `NoSuchSlot` if no slot has this number; `NotInside`
    /// if the key does not come after the first key of the span and before its bound, so also if the
    /// key is a split point or the least key; `Full` if there are 256 spans; `NoMemory` if memory
    /// runs out. After a fault the spans are as they were.
    pub fn split(&mut self, slot: usize, middle: &Key) -> Result<(), MapFault>
        ensures split { OnOk result (self.new ≡ with_point self.old slot middle.now) }
        ensures allowed { OnOk result (split_refusal self.old slot middle.now ≡ None) }
        ensures refused { IfErr result (λ fault.
            split_refusal self.old slot middle.now ≡ cause_of fault) }
        ensures unchanged { OnErr result (self.new ≡ self.old) }
    {
        if slot > self.points.len() {
            return Err(MapFault::NoSuchSlot);
        }
        if !(self.is_past_first(slot, middle) && self.is_under(slot, middle)) {
            return Err(MapFault::NotInside);
        }
        if self.points.len() >= POINTS_LIMIT {
            return Err(MapFault::Full);
        }
        let middle = middle.clone()?;
        Ok(self.put(slot, middle)?)
    }

    /// Joins the span of a slot with the span after it, which undoes a split of that slot. Each later
    /// span has a number that is lower by one. Takes no memory.
    ///
    /// A caller knows from `len` that there is a span after it.
    #[tactic(auto, using(crate::proofs::RiseLemmas::one_less))]
    pub fn join(&mut self, slot: usize)
        requires { slot < length self.old }
        ensures { self.new ≡ remove self.old slot }
    {
        self.points.remove(slot);
    }
}
