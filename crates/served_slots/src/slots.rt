//! The slots of a stamp.
ghost use Rattle.std.specs.Prelude.{◌≡◌, ◌⊎◌, ◌∷◌, [], Err, IfErr, IfOk, None, OnErr, OnOk, Some, false};
ghost use Rattle.std.specs.Arc.{arc_value};
ghost use Rattle.access_rules.specs.declared.rotation.KeysFault.TheVariants.{Last};
ghost use Rattle.policy_book.specs.Judgements.{IsOfAsk};
ghost use Rattle.range_rows.specs.Readings.{reading_of};
ghost use Rattle.stamp_model.specs.SeenContainers.{routed};
ghost use Rattle.slot_state.specs.PairFaults.{pairs_fault};
ghost use Rattle.slot_state.specs.Pairs.{AreNumbered, first_pairs};
ghost use Rattle.slot_state.specs.declared.pairs_fault.PairsFault.TheVariants.{NoMemory};
ghost use Rattle.slot_state.specs.Slots.{empty_slot};
ghost use Rattle.served_history.specs.declared.entry.Entry.TheVariants.{Opened};
ghost use Rattle.served_history.specs.Histories.{IsServed, count_of};
ghost use Rattle.served_slots.specs.Audits.{AuditsLast};
ghost use Rattle.served_slots.specs.Rotations.{HasLastEpoch, HasRotated};
ghost use Rattle.served_slots.specs.Slots.{IsLeftBy};
ghost use Rattle.served_slots.specs.Steps.{IsSplitFault, SpansSay};

mod sweeping;

use crate::effort::step_before;
use crate::garbage::Garbage;
use crate::locked::sweeping::Swept;
use crate::next_pairs::{judging_pairs, made_pair};
use crate::splitting::SplitFault;
use crate::table::Table;
use crate::told::Told;
use access_rules::{Keys, KeysFault, Which};
use hmac_sign::SigningKey;
use partition_map::MOST_SLOTS;
use range_rows::Reading;
use served_history::{Account, LogFront, NewHistory, SlotHistory, SlotWord};
use slot_state::{AccountPairs, PairsFault, Ready};
use stamp_types::{Key, Moment, Request, Text};
use std::alloc::{AllocError, Global};
use std::marker::PhantomData;
use std::sync::{Arc, RwLock, Wait};
use stored_rows::StepLimit;

// A history, and the number of the slot whose word comes next.
#[derive(Drop)]
struct Words<A: Account> {
    history: NewHistory,
    next: u64,
    account: PhantomData<A>,
    ghost book: { history.book ≡ A.history },
    ghost words: { history.next ≡ next },
}

impl<A: Account> Words<A> {
    // The word of the next slot; none if all slots have theirs.
    fn next(&mut self) -> Option<SlotWord<A>> {
        if self.next >= MOST_SLOTS as u64 {
            return None;
        }
        let word = self.history.word::<A>(self.next);
        self.next += 1;
        Some(word)
    }
}

// The words of all slots but the first.
fn spares<A: Account>(alloc: Global, words: Words<A>) -> Result<Vec<SlotWord<A>>, AllocError> {
    let mut words = words;
    let mut spares = Vec::with_capacity(alloc, MOST_SLOTS - 1)?;
    for _ in 1..MOST_SLOTS {
        if let Some(word) = words.next() {
            spares.push(word)?;
        }
    }
    Ok(spares)
}

// The key pairs in an allocation that can be shared.
fn share(alloc: Global, pairs: AccountPairs) -> Result<Arc<AccountPairs>, AllocError>
    ensures { IfOk result (λ shared. arc_value shared ≡ pairs) }
{
    let shared = Arc::new(alloc, pairs)?;
    Ok(shared)
}

// The first key pairs of the accounts, in an allocation that can be shared.
fn shared_pairs(alloc: Global, pairs: Vec<Keys>) -> Result<Arc<AccountPairs>, PairsFault>
    ensures value { IfOk result (λ all. arc_value all ≡ first_pairs pairs.items) }
    ensures numbered { IfOk result (λ all. AreNumbered (arc_value all)) }
    ensures taken { OnOk result (pairs_fault pairs.items ≡ None) }
    ensures refused { IfErr result (λ fault. (fault ≡ NoMemory) ⊎ (pairs_fault pairs.items ≡ Some fault)) }
{
    let pairs = AccountPairs::of(alloc, pairs)?;
    pairs.numbered();
    let shared = share(alloc, pairs)?;
    Ok(shared)
}

// What the first slot knows of a new history.
fn first_own<A: Account>(history: &mut NewHistory, front: &LogFront<A>) -> SlotHistory<A>
    requires book { history.old.book ≡ A.history }
    requires fresh { history.old.next ≡ 0 }
    requires none { count_of 0 front.now ≡ 0 }
    ensures slot { result.slot ≡ 0 }
    ensures log { result.log ≡ front.now }
    ensures book { history.new.book ≡ history.old.book }
    ensures next { history.new.next ≡ 1 }
{
    let word = history.word::<A>(0);
    SlotHistory::new(word, front.again())
}

// The table of one slot of all keys.
fn first_table<A: Account>(
    alloc: Global,
    pairs: &Arc<AccountPairs>,
    own: SlotHistory<A>,
    spares: Vec<SlotWord<A>>,
) -> Result<Table<A>, AllocError>
    requires { IsLeftBy own None (empty_slot (arc_value pairs.now)) }
{
    let shared = pairs.clone()?;
    let table = Table::new(alloc, shared, own, spares)?;
    Ok(table)
}

// One more owner of the pairs.
fn one_more(pairs: &Arc<AccountPairs>) -> Result<Arc<AccountPairs>, AllocError> {
    pairs.clone()
}

// The next pairs take the place of the pairs, if there are next pairs.
fn replace(pairs: &mut Arc<AccountPairs>, next: Option<Arc<AccountPairs>>) {
    if let Some(next) = next {
        *pairs = next;
    }
}

/// Slots that many threads share: a lock for their table, and a lock for each slot. The requests to all of them are the entries of one history.
///
/// A split or a rotation takes the table's lock to write. A request takes it to read, and then the lock of one slot. The key pairs by which signatures
/// are judged before have a lock of their own, which is held while one more owner of them is made, and while they are replaced.
#[derive(Drop)]
pub struct Slots<A: Account> {
    pairs: RwLock<Arc<AccountPairs>>,
    table: RwLock<Table<A>>,
    garbage: Garbage,
}

impl<A: Account> Slots<A> {
    /// One slot of all keys, without containers, for the accounts of these first key pairs, with which the history begins; and what is known of
    /// this history.
    ///
    /// `NotFirst` if the epoch of a pair is not 0, `Twice` if two pairs are of one account, and `NoMemory` if memory runs out.
    pub fn new(
        alloc: Global,
        pairs: Vec<Keys>,
        history: NewHistory,
    ) -> Result<(Slots<A>, LogFront<A>), PairsFault>
        requires book { history.book ≡ A.history }
        requires fresh { history.next ≡ 0 }
        requires log { history.log ≡ Opened pairs.items ∷ [] }
        ensures known { IfOk result (λ made. made.1 ≡ Opened pairs.items ∷ []) }
        ensures taken { OnOk result (pairs_fault pairs.items ≡ None) }
        ensures refused { IfErr result (λ fault. (fault ≡ NoMemory) ⊎ (pairs_fault pairs.items ≡ Some fault)) }
    {
        let mut history = history;
        let front = history.front::<A>();
        let own = first_own(&mut history, &front);
        let spares = spares(
            alloc,
            Words {
                history,
                next: 1,
                account: PhantomData,
            },
        )?;
        let pairs = shared_pairs(alloc, pairs)?;
        let table = first_table(alloc, &pairs, own, spares)?;
        let table = RwLock::new(table);
        let pairs = RwLock::new(pairs);
        let slots = Slots {
            pairs,
            table,
            garbage: Garbage::none(),
        };
        Ok((slots, front))
    }

    /// The request with what is made of it before a lock is taken.
    ///
    /// `AllocError` if memory runs out.
    pub(crate) fn ready<'a, R: Wait>(
        &self,
        rt: &R,
        alloc: Global,
        request: &'a Request,
        moment: Moment,
        is_audited: bool,
    ) -> Result<Ready<'a>, AllocError>
        ensures request { IfOk result (λ ready. ready.request.now ≡ request.now) }
        ensures moment { IfOk result (λ ready. ready.moment ≡ moment) }
        ensures first { IfOk result (λ ready. ready.first ≡ routed request.now) }
        ensures judged { IfOk result (λ ready. IsOfAsk ready.judged request.now.ask) }
    {
        let pairs = self.judging_pairs(rt)?;
        Ready::of(alloc, &pairs, request, moment, is_audited)
    }

    /// The key pairs by which signatures are judged before a lock is taken.
    ///
    /// `AllocError` if they can have no further owner.
    pub(crate) fn judging_pairs<R: Wait>(&self, rt: &R) -> Result<Arc<AccountPairs>, AllocError> {
        one_more(&self.pairs.read(rt))
    }

    // Serves a request under the lock of the slot that has its first key, as `serve` does.
    fn answer_under_lock<R: Wait>(
        &self,
        rt: &R,
        alloc: Global,
        known: &mut LogFront<A>,
        ready: &Ready<'_>,
        reading: Reading,
    ) -> Result<Told, AllocError>
        requires first { ready.now.first ≡ routed ready.now.request.now }
        requires judged { IsOfAsk ready.now.judged ready.now.request.now.ask }
        requires read { reading ≡ reading_of ready.now.request.now }
        ensures served { IfOk result (λ told. IsServed known.old ready.now.request.now ready.now.moment told.replied known.new) }
        ensures audited { IfOk result (λ told. AuditsLast known.new ready.now.request.now ready.now.moment told.entry) }
        ensures unasked { IfOk result (λ told. ready.now.is_audited ≡ false → told.entry ≡ None) }
        ensures same { OnErr result (known.new ≡ known.old) }
    {
        let table = self.table.read(rt);
        let mut locked = table.locked(rt, &ready.first);
        match locked.answer(alloc, known, ready, reading) {
            Ok(told) => Ok(told),
            Err(_missed) => Err(AllocError),
        }
    }

    // The same of a request that makes a step of a sweep first, up to this limit, if the slot is to be swept. If that is the last step, the request gives
    // the locks back, leaves what is given up, or drops it if memory is short, and then waits for the locks once more.
    fn answer_after_step<R: Wait>(
        &self,
        rt: &R,
        alloc: Global,
        known: &mut LogFront<A>,
        ready: &Ready<'_>,
        reading: Reading,
        limit: StepLimit,
        is_short: bool,
    ) -> Result<Told, AllocError>
        requires first { ready.now.first ≡ routed ready.now.request.now }
        requires judged { IsOfAsk ready.now.judged ready.now.request.now.ask }
        requires read { reading ≡ reading_of ready.now.request.now }
        ensures served { IfOk result (λ told. IsServed known.old ready.now.request.now ready.now.moment told.replied known.new) }
        ensures audited { IfOk result (λ told. AuditsLast known.new ready.now.request.now ready.now.moment told.entry) }
        ensures unasked { IfOk result (λ told. ready.now.is_audited ≡ false → told.entry ≡ None) }
        ensures same { OnErr result (known.new ≡ known.old) }
    {
        let table = self.table.read(rt);
        let mut locked = table.locked(rt, &ready.first);
        if locked.is_to_sweep(is_short) {
            if let Swept::Over(away) = locked.sweep(alloc, limit) {
                drop(locked);
                drop(table);
                self.put_away(rt, away, is_short);
                return self.answer_under_lock(rt, alloc, known, ready, reading);
            }
        }
        match locked.answer(alloc, known, ready, reading) {
            Ok(told) => Ok(told),
            Err(_missed) => Err(AllocError),
        }
    }

    /// Serves a request by the slot that has its first key. The request is then the last entry that the connection knows. If entries of the
    /// audit book are asked for, the one of the request is by what the history left before it.
    ///
    /// A request that writes makes a step of a sweep first, if the slot is to be swept. If memory is short, a few bytes to which nothing refers are
    /// enough for that.
    ///
    /// `AllocError` as of the slot. Then the connection knows what it knew.
    pub(crate) fn serve<R: Wait>(
        &self,
        rt: &R,
        alloc: Global,
        known: &mut LogFront<A>,
        ready: &Ready<'_>,
        reading: Reading,
        is_short: bool,
    ) -> Result<Told, AllocError>
        requires first { ready.now.first ≡ routed ready.now.request.now }
        requires judged { IsOfAsk ready.now.judged ready.now.request.now.ask }
        requires read { reading ≡ reading_of ready.now.request.now }
        ensures served { IfOk result (λ told. IsServed known.old ready.now.request.now ready.now.moment told.replied known.new) }
        ensures audited { IfOk result (λ told. AuditsLast known.new ready.now.request.now ready.now.moment told.entry) }
        ensures unasked { IfOk result (λ told. ready.now.is_audited ≡ false → told.entry ≡ None) }
        ensures same { OnErr result (known.new ≡ known.old) }
    {
        match step_before(ready.request) {
            Some(limit) => {
                self.answer_after_step(rt, alloc, known, ready, reading, limit, is_short)
            }
            None => self.answer_under_lock(rt, alloc, known, ready, reading),
        }
    }

    /// Replaces a key of the account for all slots, or for none. Answers the epoch of the new pair. Each slot enters the rotation, so that requests on
    /// its keys that come after its entry are judged by the new pair. No request is answered meanwhile.
    ///
    /// `Last` if no epoch comes after that of a slot's pair. `NoMemory` if memory runs out, or if the stamp has no such account, or if a slot has made
    /// as many entries as it may, or if no slot is of use. A slot of no use is passed over.
    pub(crate) fn rotate<R: Wait>(
        &self,
        rt: &R,
        alloc: Global,
        known: &mut LogFront<A>,
        account: &Text,
        which: Which,
        key: &SigningKey,
    ) -> Result<u64, KeysFault>
        ensures rotated { IfOk result (λ epoch. HasRotated known.old account.now which key.now epoch known.new) }
        ensures same { OnErr result (known.new ≡ known.old) }
        ensures last { result ≡ Err Last → HasLastEpoch known.old account.now }
    {
        let mut table = self.table.write(rt);
        let mut pairs = self.pairs.write(rt);
        let Ok(next) = judging_pairs(&pairs, alloc, account, which, key) else {
            return Err(KeysFault::NoMemory);
        };
        let made = made_pair(&next, account);
        let epoch = table.rotate(alloc, known, account, which, key, made)?;
        replace(&mut pairs, next);
        Ok(epoch)
    }

    /// Splits the slot that has the key. The key is then the first key of the upper half. No request is answered meanwhile.
    ///
    /// `FirstKey` if a slot begins with the key, or else `Full` if there are 256 slots. `NoMemory` if memory runs out, if no word is left for the upper
    /// half, or if the slot is of no use any more. After a fault nothing is changed.
    #[tactic(auto, using(crate::proofs::SpanLemmas::said_by))]
    pub fn split<R: Wait>(&self, rt: &R, alloc: Global, middle: &Key) -> Result<(), SplitFault>
        ensures allowed { OnOk result (SpansSay middle.now None) }
        ensures fault { IfErr result (IsSplitFault middle.now) }
    {
        let mut table = self.table.write(rt);
        table.split(alloc, middle)
    }
}
