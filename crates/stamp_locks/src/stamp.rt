//! The stamp.
ghost use Rattle.std.specs.Prelude.{◌≡◌, ◌⊎◌, ◌<◌, Err, IfErr, IfOk, OnOk, None, Some};
ghost use Rattle.std.specs.Option.{option_copied};
ghost use Rattle.range_rows.specs.Readings.{reading_of};
ghost use Rattle.slot_state.specs.PairFaults.{pairs_fault};
ghost use Rattle.slot_state.specs.declared.pairs_fault.PairsFault.TheVariants.{NoMemory};
ghost use Rattle.stamp_locks.specs.Lent.{FailsSplit, HasSlot, IsHandled, IsHandledWith, IsSplit, IsTended};
ghost use Rattle.stamp_locks.specs.Rotations.{IsNotRotated, IsRotated};
ghost use Rattle.stamp_locks.specs.Shown.{IsBack, IsHandledAfter, IsHandledAfterWith};
ghost use Rattle.stamp_locks.specs.declared.faults.MoveFault.TheVariants as move_fault;

use crate::care::Care;
use crate::faults::{MoveFault, SplitError, TendFault};
use crate::posting::post;
use crate::table::Table;
use crate::tending::TakenOut;
use access_rules::{Keys, Which};
use extent_node::Wire;
use hmac_sign::SigningKey;
use policy_book::Book;
use range_rows::Reading;
use slot_pass::{AfterFault, Pass};
use slot_state::{AccountPairs, PairsFault, RotateFault};
use stamp_types::{Key, Moment, Request, Text};
use std::alloc::Global;
use std::sync::{RwLock, Wait};
use stored_rows::Unloaded;
use stored_slot::Audited;
use tickets::Answer;

/// Slots over streams that many threads share: a lock for the table of the slots, and a lock for each slot with its wire.
///
/// The table has the spans of keys, one slot for each span, and the key pairs of all accounts. Each call takes the table's lock once: a split to
/// write, each other call to read. A call on a slot takes the slot's lock too, and no call takes the locks of two slots.
///
/// A stamp may keep an audit book ([`with_book`](Stamp::with_book)).
#[derive(Drop)]
pub struct Stamp<W: Wire + Drop> {
    table: RwLock<Table<W>>,
    book: Option<Book>,
}

impl<W: Wire + Drop> Stamp<W> {
    /// A stamp of one slot of all keys, without containers, for the accounts of these first pairs of keys. The wire is the slot's. No audit book is
    /// kept.
    ///
    /// `NotFirst` if the epoch of a pair is not 0, `Twice` if two pairs are of one account, and `NoMemory` if memory runs out. If several
    /// pairs are refused, the last of them names the cause.
    pub fn new(alloc: Global, pairs: Vec<Keys>, wire: W) -> Result<Self, PairsFault>
        ensures taken { OnOk result (pairs_fault pairs.items ≡ None) }
        ensures refused { IfErr result (λ fault. (fault ≡ NoMemory) ⊎ (pairs_fault pairs.items ≡ Some fault)) }
        ensures book { IfOk result (λ stamp. stamp.book ≡ None) }
    {
        let pairs = AccountPairs::of(alloc, pairs)?;
        let table = Table::new(alloc, pairs, wire)?;
        Ok(Self {
            table: RwLock::new(table),
            book: None,
        })
    }

    /// The same stamp, which keeps this audit book: from now on, each request that is let in and names a container is entered in the book, as long
    /// as the book takes entries and memory lasts. A book that the stamp kept is dropped.
    pub fn with_book(self, book: Book) -> Self
        ensures book { result.book ≡ Some book }
        ensures table { result.table ≡ self.table }
    {
        let Self { table, book: old } = self;
        drop(old);
        Self {
            table,
            book: Some(book),
        }
    }

    /// The audit book that the stamp keeps, if there is one. It can be read while other threads use the stamp.
    pub fn book(&self) -> Option<&Book>
        ensures { option_copied result ≡ self.now.book }
    {
        self.book.as_ref()
    }

    // The answer to a request whose body was read, and its entry of the audit book, while the table is locked.
    fn handle_locked<R: Wait>(
        &self,
        rt: &R,
        alloc: Global,
        request: &Request,
        reading: Reading,
        moment: Moment,
    ) -> Audited
        requires { reading ≡ reading_of request.now }
        ensures handled { IsHandledWith W.faults request.now moment result.answer result.entry }
        ensures unasked { self.now.book ≡ None → result.entry ≡ None }
    {
        let table = self.table.read(rt);
        table.handle(rt, alloc, request, reading, moment, self.book.is_some())
    }

    /// One step of the model, by the slot that has the first key that the request looks at. If the stamp keeps an audit book, the entry of the
    /// request is posted after the locks are given back.
    ///
    /// The signature is judged and the body is read before the slot's lock is taken. The answer is that of [`StoredSlot::serve`]. It is
    /// `NoMemory` also if memory runs out before the slot's lock is taken, and if the slot that was found is not the request's: only tests show
    /// that it always is.
    ///
    /// [`StoredSlot::serve`]: stored_slot::StoredSlot::serve
    pub fn handle<R: Wait>(
        &self,
        rt: &R,
        alloc: Global,
        request: &Request,
        moment: Moment,
    ) -> Answer
        ensures { IsHandled W.faults request.now moment result }
    {
        let Ok(reading) = Reading::of(alloc, request) else {
            return Answer::NoMemory;
        };
        let Audited { answer, entry } = self.handle_locked(rt, alloc, request, reading, moment);
        post(rt, self.book(), entry);
        answer
    }

    // The answer to a request after what the pass shows, and its entry of the audit book, while the table is locked.
    fn handle_after_locked<R: Wait>(
        &self,
        rt: &R,
        alloc: Global,
        pass: Pass,
        request: &Request,
        moment: Moment,
    ) -> Result<(Audited, Pass), (Pass, AfterFault)>
        requires { request.now.ask.key ≡ pass.key }
        ensures handled { IfOk result (λ r. IsHandledAfterWith W.faults pass request.now moment r.0.answer r.0.entry r.1) }
        ensures unasked { IfOk result (λ r. self.now.book ≡ None → r.0.entry ≡ None) }
        ensures back { IfErr result (λ r. IsBack pass request.now r.0 r.1) }
    {
        let table = self.table.read(rt);
        table.handle_after(rt, alloc, pass, request, moment, self.book.is_some())
    }

    /// One step of the model, by a slot that has what the caller of the pass was shown. Then the pass shows all that the slot has of its
    /// container. The time is linear in the front, and the slot is locked all the while. The audit book is kept as by [`handle`](Stamp::handle).
    ///
    /// After a fault the pass comes back as it was, and nothing is served: `Pairs` if the pass shows a key pair that is not the slot's, or else
    /// `Alien` if its front is not a beginning of the slot's accepted changes, or else `NoMemory` if memory runs out for the new front. It is
    /// `NoMemory` too if memory runs out before the pass is compared, and if the slot that was found is not the request's: only tests show that
    /// it always is.
    pub fn handle_after<R: Wait>(
        &self,
        rt: &R,
        alloc: Global,
        pass: Pass,
        request: &Request,
        moment: Moment,
    ) -> Result<(Answer, Pass), (Pass, AfterFault)>
        requires { request.now.ask.key ≡ pass.key }
        ensures handled { IfOk result (λ r. IsHandledAfter W.faults pass request.now moment r.0 r.1) }
        ensures back { IfErr result (λ r. IsBack pass request.now r.0 r.1) }
    {
        match self.handle_after_locked(rt, alloc, pass, request, moment) {
            Ok((audited, pass)) => {
                let Audited { answer, entry } = audited;
                post(rt, self.book(), entry);
                Ok((answer, pass))
            }
            Err(back) => Err(back),
        }
    }

    // Takes a care of the slot with this number. What is taken out is kept.
    fn tend_locked<R: Wait>(
        &self,
        rt: &R,
        alloc: Global,
        slot: usize,
        care: Care,
        taken: &mut Option<TakenOut>,
    ) -> Result<(), TendFault>
        ensures { IsTended W.faults slot care result }
    {
        let table = self.table.read(rt);
        table.tend(rt, alloc, slot, care, taken)
    }

    /// Settles, seals, loads, unloads, sweeps or repairs the slot with this number, or makes a checkpoint of it. All but an unload settle the
    /// doubt of the slot first. Streams that a checkpoint replaces or a sweep gives up, and rows that an unload takes out of memory, are dropped after
    /// the locks.
    ///
    /// `NoSuchSlot` if no slot has the number, `Slot` with the fault of the slot's call, `Repair` with the fault of the repair. If the slot does
    /// not begin with the first key of its span, the answer is `Slot` with `NoMemory`, and the slot stays: only tests show that each slot does.
    pub fn tend<R: Wait>(
        &self,
        rt: &R,
        alloc: Global,
        slot: usize,
        care: Care,
    ) -> Result<(), TendFault>
        ensures { IsTended W.faults slot care result }
    {
        let mut taken = None;
        let tended = self.tend_locked(rt, alloc, slot, care, &mut taken);
        drop(taken);
        tended
    }

    /// Gives the slot with this number to another partition server, which has none of the rows in memory. A change in doubt stays in doubt.
    /// Gives the rows that were in memory, which may be dropped after a lock of the caller.
    ///
    /// `NoSuchSlot` if no slot has the number. `NoMemory` only if the slot does not begin with the first key of its span, and the rows then
    /// stay in memory: only tests show that each slot does.
    pub fn move_to<R: Wait>(
        &self,
        rt: &R,
        alloc: Global,
        slot: usize,
        server: u32,
    ) -> Result<Unloaded, MoveFault>
        ensures has { OnOk result (HasSlot slot) }
        ensures none { (result ≡ Err move_fault.NoSuchSlot) → 0 < slot }
    {
        let table = self.table.read(rt);
        table.take_rows(rt, alloc, slot, server)
    }

    /// Splits the slot with this number at a key, which is the first key of the upper half. The slot settles its doubt first. The upper half has
    /// the next number, and this wire; each later slot has a number that is higher by one. No other call of the stamp runs meanwhile.
    ///
    /// After a fault the wire comes back, and nothing is changed, except that a doubt may have ended. `Map` with the first cause that refuses the
    /// split, or if memory runs out for the split point: nothing is settled then. `Slot` if nodes that were needed did not answer, or if memory
    /// runs out for the halves of the slot. If the slot does not begin with the first key of its span, the answer is `Slot` with `NoMemory`, and
    /// nothing is settled: only tests show that each slot does.
    pub fn split<R: Wait>(
        &self,
        rt: &R,
        alloc: Global,
        slot: usize,
        middle: &Key,
        wire: W,
    ) -> Result<(), (W, SplitError)>
        ensures split { OnOk result (IsSplit slot middle.now) }
        ensures back { IfErr result (λ r. r.0 ≡ wire) }
        ensures fault { IfErr result (λ r. FailsSplit W.faults slot middle.now r.1) }
    {
        let mut table = self.table.write(rt);
        table.split(alloc, slot, middle, wire)
    }

    /// A key of the account's pair in force is replaced, for all slots at once. Answers the epoch of the new pair. From now on requests are judged
    /// by the new pair: each slot takes it before the slot serves a request of the account. What was accepted before stays as it is, and a change
    /// in doubt is judged by the pair that was in force when it was served. No other call of the stamp runs meanwhile.
    ///
    /// `NoAccount` if the stamp has no such account, `Last` if no epoch comes after the epoch of the pair in force, and `NoMemory` if memory
    /// runs out. Then no key is replaced.
    pub fn rotate<R: Wait>(
        &self,
        rt: &R,
        alloc: Global,
        account: &Text,
        which: Which,
        key: SigningKey,
    ) -> Result<u64, RotateFault>
        ensures rotated { IfOk result (λ epoch. IsRotated account.now which key epoch) }
        ensures refused { IfErr result (λ fault. IsNotRotated account.now fault) }
    {
        let mut table = self.table.write(rt);
        table.rotate(alloc, account, which, key)
    }
}
