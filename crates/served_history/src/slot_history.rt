//! What a slot knows of the history, and how it adds its entries.
ghost use Rattle.std.specs.Prelude.{◌≡◌, ◌+◌, ◌<◌, ◌^◌, IfSome, IsFalse, MatchBool, OnSome};
ghost use Rattle.served_history.specs.declared.entry.Entry.TheVariants.{Rotated, Served, Split};
ghost use Rattle.served_history.specs.Growth.{IsEntered};
ghost use Rattle.served_history.specs.Histories.{count_of, GoesOnWithout, IsOwn};

use crate::entry::TimedCall;
use crate::history::{Account, LogFront, SlotWord};
use access_rules::Which;
use hmac_sign::SigningKey;
use stamp_types::{Key, Text};
use std::marker::Model;

/// The most entries of a slot. A server that answers a million requests a second reaches it after 70,000 years.
const MOST: u64 = 1 << 61;

/// The part of the history that the lock of a slot has: the slot's word, how many entries the slot made, and a beginning of the history that
/// has all of these entries. Contracts see the number of the slot, and this beginning.
#[derive(Drop)]
pub struct SlotHistory<A: Account> {
    word: SlotWord<A>,
    count: u64,
    front: LogFront<A>,
}

impl<A: Account> Model for SlotHistory<A> {
    ghost use Rattle.std.specs.Prelude.{◌≡◌};
    ghost use Rattle.served_history.specs.Growth.{SlotFront};
    ghost use Rattle.served_history.specs.Histories.{count_of};

    ghost Value = { SlotFront };

    ghost view = { λ s. record { slot = s.word.number; log = s.front } };

    ghost invariant = { λ s. s.count ≡ count_of s.word.number s.front };
}

impl<A: Account> SlotHistory<A> {
    /// What a slot without entries knows.
    pub fn new(word: SlotWord<A>, front: LogFront<A>) -> Self
        requires { count_of word.number front ≡ 0 }
        ensures slot { result.slot ≡ word.number }
        ensures log { result.log ≡ front }
    {
        Self {
            word,
            count: 0,
            front,
        }
    }

    /// Whether the slot has made as many entries as it may.
    pub fn is_full(&self) -> bool
        ensures { IsFalse result → count_of self.now.slot self.now.log < 2 ^ 62 }
    {
        self.count >= MOST
    }

    /// A copy of what the slot knows of the history.
    pub fn front(&self) -> LogFront<A>
        ensures { result ≡ self.now.log }
    {
        self.front.again()
    }

    /// Enters a request that the slot serves from the containers that its history leaves, and returns whether it did. Then the slot and the
    /// connection know the history up to this entry.
    ///
    /// It did not if the slot's word says another number of entries than the slot made. No thread makes such an entry, though no clause says so.
    /// Then both know what they knew, and the slot is of no use any more.
    pub fn enter(&mut self, known: &mut LogFront<A>, call: &TimedCall<'_>) -> bool
        requires room { count_of self.old.slot self.old.log < 2 ^ 62 }
        requires own { IsOwn self.old.log (Served self.old.slot call.now) }
        ensures entered { MatchBool result (IsEntered self.old.slot self.old.log known.old (Served self.old.slot call.now) known.new)
            (known.new ≡ known.old) }
        ensures slot { MatchBool result (self.new ≡ record self.old { log = known.new })
            (self.new ≡ self.old) }
        ensures made { MatchBool result (count_of self.old.slot self.new.log ≡ count_of self.old.slot self.old.log + 1)
            (self.new ≡ self.old) }
    {
        let mut next = self.front.again();
        next.learn(known);
        if !next.add_served(&self.word, self.count, call) {
            return false;
        }
        *known = next.again();
        self.count += 1;
        self.front = next;
        true
    }

    /// Enters that the slot replaced a key of an account, and returns whether it did. Then the slot and whoever knows `known` know the history up
    /// to this entry. From there on the slot judges requests on its keys by the pair with the new key.
    ///
    /// It did not if the slot's word says another number of entries than the slot made, as `enter`.
    pub fn rotate(
        &mut self,
        known: &mut LogFront<A>,
        account: &Text,
        which: Which,
        key: &SigningKey,
    ) -> bool
        requires room { count_of self.old.slot self.old.log < 2 ^ 62 }
        requires own { IsOwn self.old.log (Rotated self.old.slot account.now which key.now) }
        ensures entered { MatchBool result (IsEntered self.old.slot self.old.log known.old (Rotated self.old.slot account.now which key.now) known.new)
            (known.new ≡ known.old) }
        ensures slot { MatchBool result (self.new ≡ record self.old { log = known.new })
            (self.new ≡ self.old) }
        ensures made { MatchBool result (count_of self.old.slot self.new.log ≡ count_of self.old.slot self.old.log + 1)
            (self.new ≡ self.old) }
    {
        let mut after = self.front.again();
        after.learn(known);
        if !after.add_rotation(&self.word, self.count, account, which, key) {
            return false;
        }
        *known = after.again();
        self.count += 1;
        self.front = after;
        true
    }

    /// Gives the keys from `middle` on to the slot of the spare word, and returns what the upper slot knows.
    ///
    /// `None` if the words say other numbers of entries than the slots made. No thread makes such entries, though no clause says so. Then the
    /// slot is of no use any more.
    pub fn split(&mut self, spare: SlotWord<A>, middle: &Key) -> Option<SlotHistory<A>>
        requires room { count_of self.old.slot self.old.log < 2 ^ 62 }
        requires own { IsOwn self.old.log (Split self.old.slot middle.now spare.number) }
        ensures lower { OnSome result (IsEntered self.old.slot self.old.log self.old.log (Split self.old.slot middle.now spare.number) self.new.log) }
        ensures upper { IfSome result (λ upper. GoesOnWithout spare.number self.new.log upper.log) }
        ensures slots { IfSome result (λ upper. (upper.slot ≡ spare.number) × (self.new.slot ≡ self.old.slot)) }
    {
        let mut lower = self.front.again();
        if !lower.add_split(&self.word, self.count, middle, spare.number) {
            return None;
        }
        let mut front = lower.again();
        let found = front.look(&spare, middle);
        self.count += 1;
        self.front = lower;
        if found != 0 {
            return None;
        }
        Some(SlotHistory::new(spare, front))
    }
}
