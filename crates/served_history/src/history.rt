//! One history of the requests to all slots. It only grows, and it exists only in proofs: each slot has a word, which is the number of its
//! entries.
ghost use Rattle.std.specs.Prelude.{◌≡◌, ◌+◌, ◌<◌, ◌^◌, ◌∷◌, List, [], MatchBool};
ghost use mathlib.Core.List.{IsPrefix};
ghost use Rattle.served_history.specs.declared.entry.Entry.{Entry as History_entry};
ghost use Rattle.served_history.specs.declared.entry.Entry.TheVariants.{Opened, Rotated, Served, Split};
ghost use Rattle.served_history.specs.Growth.{IsAdded, word_of};
ghost use Rattle.served_history.specs.Histories.{count_of, IsHistory, IsOwn};

use crate::entry::{Entry, NextRotation, NextServed, NextSplit, TimedCall};
use access_rules::{Keys, Which};
use hmac_sign::SigningKey;
use logbook::{Gain, Offer, Opening, Pens, Plain, Play, Rule, Seen, Start, Word};
use partition_map::MOST_SLOTS;
use stamp_types::{Key, Text};
use std::marker::{Brand, Model, PhantomData};

/// The rule of a history: each word is the number of entries of its slot.
pub struct Counted;

impl Rule<Entry, u64> for Counted {
    ghost use Rattle.std.specs.Prelude.{[]};
    ghost use base.Fml.{ftrue};
    ghost use Rattle.served_history.specs.Growth.{IsRow};

    ghost holds = { λ cells log. IsRow cells log };

    ghost first = { [] };

    ghost hinted = { λ n log. Unit {0} };

    ghost shows = { λ log. [] };

    ghost keeps = { λ names log. ftrue };

    ghost moves = { λ ask before after answer. Unit {0} };
}

/// Callers trade nothing.
pub struct Nothing;

impl Gain<Entry, u64> for Nothing {
    ghost use base.Fml.{ftrue};

    ghost after = { λ names about answer. ftrue };
}

/// A step that adds an entry.
pub struct Add;

impl Play<Entry, u64> for Add {
    ghost use Rattle.served_history.specs.Growth.{Adds};

    ghost then = { Adds };
}

impl<'a> Plain<NextServed<'a>, Entry, u64> for Add {
    ghost use Rattle.std.specs.Prelude.{None};
    ghost use Rattle.served_history.specs.declared.entry.Entry.TheVariants.{Served};

    ghost ask = { λ e. Served e.slot e.call.now };

    ghost state = { λ e. None };
}

impl<'a> Plain<NextSplit<'a>, Entry, u64> for Add {
    ghost use Rattle.std.specs.Prelude.{None};
    ghost use Rattle.served_history.specs.declared.entry.Entry.TheVariants.{Split};

    ghost ask = { λ e. Split e.slot e.middle.now e.upper };

    ghost state = { λ e. None };
}

impl<'a> Plain<NextRotation<'a>, Entry, u64> for Add {
    ghost use Rattle.std.specs.Prelude.{None};
    ghost use Rattle.served_history.specs.declared.entry.Entry.TheVariants.{Rotated};

    ghost ask = { λ e. Rotated e.slot e.account.now e.which e.key.now };

    ghost state = { λ e. None };
}

/// A step that looks.
pub struct Look;

impl Play<Entry, u64> for Look {
    ghost use Rattle.served_history.specs.Growth.{Looks};

    ghost then = { Looks };
}

/// The first history has one entry: the key pairs.
pub struct First;

impl<'a> Opening<&'a [Keys], Entry> for First {
    ghost use Rattle.std.specs.Prelude.{[], ◌∷◌};
    ghost use Rattle.served_history.specs.declared.entry.Entry.TheVariants.{Opened};

    ghost log = { λ n pairs. Opened pairs.now ∷ [] };
}

/// The stamp that slots serve: its history. Each call of a program picks it.
pub trait Account {
    ghost use Rattle.logbook.specs.Pages.{Book};

    ghost history: { Book };
}

impl Account for Brand {
    ghost history = { record { number = 0; log_name = 0; cells_name = 0 } };
}

/// A history with its first entry, which belongs to no stamp yet, and the words of all slots.
#[derive(Drop)]
pub struct NewHistory {
    seen: Seen<Entry, u64, Counted>,
    pens: Pens,
}

impl Model for NewHistory {
    ghost use Rattle.std.specs.Prelude.{◌≡◌, ◌+◌};
    ghost use Rattle.served_history.specs.Growth.{NewBook};
    ghost use Rattle.served_history.specs.Histories.{IsHistory};

    ghost Value = { NewBook };

    ghost view = { λ h. record { book = h.seen.book; next = h.pens.next; log = h.seen.log } };

    ghost invariant = { λ h. (h.pens.book ≡ h.seen.book) × (h.pens.next + h.pens.left ≡ 256) × IsHistory h.seen.log };
}

impl NewHistory {
    /// A history that begins with these first key pairs of the accounts. Takes no memory.
    pub fn new(pairs: &[Keys]) -> NewHistory
        ensures opened { result.log ≡ Opened pairs.now ∷ [] }
        ensures fresh { result.next ≡ 0 }
    {
        let (seen, pens) = Seen::open_row::<&[Keys], First>(&pairs, Start::alone(), MOST_SLOTS);
        NewHistory { seen, pens }
    }

    /// The word of the next slot, which has this number.
    pub fn word<A: Account>(&mut self, number: u64) -> SlotWord<A>
        requires book { self.old.book ≡ A.history }
        requires next { self.old.next ≡ number }
        requires left { number < 256 }
        ensures word { result.number ≡ number }
        ensures rest { self.new ≡ record self.old { next = number + 1 } }
    {
        let mut pen = self.pens.take();
        SlotWord {
            word: Word::tracked(0, &mut pen),
            number,
            account: PhantomData,
        }
    }

    /// What is known of it: its first entry.
    pub fn front<A: Account>(&self) -> LogFront<A>
        requires { self.now.book ≡ A.history }
        ensures { result ≡ self.now.log }
    {
        LogFront {
            seen: self.seen.again(),
            account: PhantomData,
        }
    }
}

/// The word of a slot: the number of the slot's entries in the history. Who has it makes the slot's entries.
#[derive(Drop)]
pub struct SlotWord<A: Account> {
    word: Word<Entry, u64, Counted>,
    pub(crate) number: u64,
    account: PhantomData<A>,
    pub(crate) ghost slot_is: { number < 256 },
    ghost word_is: { word ≡ word_of A.history number },
}

/// A beginning of the history, which somebody knows. Contracts see it as its entries.
#[derive(Drop)]
pub struct LogFront<A: Account> {
    seen: Seen<Entry, u64, Counted>,
    account: PhantomData<A>,
}

impl<A: Account> Model for LogFront<A> {
    ghost use Rattle.std.specs.Prelude.{◌≡◌, List};
    ghost use Rattle.served_history.specs.declared.entry.Entry.{Entry};
    ghost use Rattle.served_history.specs.Histories.{IsHistory};

    ghost Value = { List Entry };

    ghost view = { λ f. f.seen.log };

    ghost invariant = { λ f. (f.seen.book ≡ A.history) × IsHistory f.seen.log };
}

impl<A: Account> LogFront<A> {
    /// A copy.
    pub fn again(&self) -> LogFront<A>
        ensures same { result ≡ self.now }
        ensures history { IsHistory self.now }
    {
        LogFront {
            seen: self.seen.again(),
            account: PhantomData,
        }
    }

    /// Afterwards it knows what both knew.
    pub fn learn(&mut self, other: &LogFront<A>)
        ensures this { IsPrefix self.old self.new }
        ensures that { IsPrefix other.now self.new }
    {
        self.seen.learn(&other.seen);
    }

    /// Adds a request of a slot to a history that goes on from what is known, and returns whether it did. It did not if the slot has not made
    /// so many entries.
    pub(crate) fn add_served(
        &mut self,
        word: &SlotWord<A>,
        count: u64,
        call: &TimedCall<'_>,
    ) -> bool
        requires room { count < 2 ^ 62 }
        requires own { (log : List History_entry) → IsPrefix self.old log → count_of word.now.number log ≡ count → IsHistory log → IsOwn log (Served word.now.number call.now) }
        ensures { MatchBool result (IsAdded word.now.number count self.old (Served word.now.number call.now) self.new) (Unit {0}) }
    {
        let next = NextServed {
            slot: word.number,
            call,
        };
        let mut offer: Offer<Entry, u64, Counted, Nothing> = self
            .seen
            .plain::<Nothing, NextServed<'_>, Add>(&next);
        let mut pen = self.seen.no_pen();
        let found = word
            .word
            .compare_exchange::<Add, Nothing>(
                count,
                count + 1,
                &mut self.seen,
                &mut offer,
                &mut pen,
            );
        found == count
    }

    /// Adds a split of a slot at a key to a history that goes on from what is known, and returns whether it did. It did not if the slot has not
    /// made so many entries.
    pub(crate) fn add_split(
        &mut self,
        word: &SlotWord<A>,
        count: u64,
        middle: &Key,
        upper: u64,
    ) -> bool
        requires room { count < 2 ^ 62 }
        requires own { (log : List History_entry) → IsPrefix self.old log → count_of word.now.number log ≡ count → IsHistory log → IsOwn log (Split word.now.number middle.now upper) }
        ensures { MatchBool result (IsAdded word.now.number count self.old (Split word.now.number middle.now upper) self.new) (Unit {0}) }
    {
        let next = NextSplit {
            slot: word.number,
            middle,
            upper,
        };
        let mut offer: Offer<Entry, u64, Counted, Nothing> = self
            .seen
            .plain::<Nothing, NextSplit<'_>, Add>(&next);
        let mut pen = self.seen.no_pen();
        let found = word
            .word
            .compare_exchange::<Add, Nothing>(
                count,
                count + 1,
                &mut self.seen,
                &mut offer,
                &mut pen,
            );
        found == count
    }

    /// Adds a rotation by a slot to a history that goes on from what is known, and returns whether it did. It did not if the slot has not made so
    /// many entries.
    pub(crate) fn add_rotation(
        &mut self,
        word: &SlotWord<A>,
        count: u64,
        account: &Text,
        which: Which,
        key: &SigningKey,
    ) -> bool
        requires room { count < 2 ^ 62 }
        requires own { (log : List History_entry) → IsPrefix self.old log → count_of word.now.number log ≡ count → IsHistory log → IsOwn log (Rotated word.now.number account.now which key.now) }
        ensures { MatchBool result (IsAdded word.now.number count self.old (Rotated word.now.number account.now which key.now) self.new) (Unit {0}) }
    {
        let next = NextRotation {
            slot: word.number,
            account,
            which,
            key,
        };
        let mut offer: Offer<Entry, u64, Counted, Nothing> = self
            .seen
            .plain::<Nothing, NextRotation<'_>, Add>(&next);
        let mut pen = self.seen.no_pen();
        let found = word
            .word
            .compare_exchange::<Add, Nothing>(
                count,
                count + 1,
                &mut self.seen,
                &mut offer,
                &mut pen,
            );
        found == count
    }

    /// How many entries the slot has in the history, which is known then.
    pub(crate) fn look(&mut self, word: &SlotWord<A>, middle: &Key) -> u64
        ensures begins { IsPrefix self.old self.new }
        ensures counted { count_of word.now.number self.new ≡ result }
        ensures history { IsHistory self.new }
    {
        let none = NextSplit {
            slot: word.number,
            middle,
            upper: word.number,
        };
        let mut offer: Offer<Entry, u64, Counted, Nothing> = self
            .seen
            .plain::<Nothing, NextSplit<'_>, Add>(&none);
        word.word.load::<Look, Nothing>(&mut self.seen, &mut offer)
    }
}
