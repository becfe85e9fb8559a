//! The slot whose containers are kept in streams.
ghost use Rattle.std.specs.Prelude.{◌≡◌, ◌⊎◌, None, true};
ghost use Rattle.std.specs.Arc.{arc_value};
ghost use Rattle.std.specs.FinMap as finite;
ghost use Rattle.std.specs.Option.{option_copied};
ghost use Rattle.extent_seal.specs.Counting.{Grows};
ghost use Rattle.policy_book.specs.Judgements.{IsOfAsk};
ghost use Rattle.range_rows.specs.Readings.{reading_of};
ghost use Rattle.stamp_types.specs.World.{no_part};
ghost use Rattle.stamp_values.specs.declared.key.Key.{Key};
ghost use Rattle.stamp_model.specs.SeenContainers.{routed};
ghost use Rattle.stored_rows.specs.Counting.{FailsStored};
ghost use Rattle.stored_rows.specs.Repairs.{FailsRepair, IsRepairOf, unnamed};
ghost use Rattle.stored_rows.specs.States.{doubt_of, pieces_of};
ghost use Rattle.slot_state.specs.Slots as slots;
ghost use Rattle.tickets.specs.declared.answer.Answer.TheVariants as answer;
ghost use Rattle.stored_slot.specs.Meanings.{slot_with};
ghost use Rattle.stored_slot.specs.Served.{Faulted, SlotServes};
ghost use Rattle.stored_slot.specs.Settled.{CutsSettled, LeavesRepaired, LeavesSettled, SettlesOrFails};

mod sweep;

use crate::parts::SlotParts;
use extent_node::{Node, Wire};
use partition_stream::{Replaced, StreamName};
use policy_book::Judged;
use range_rows::Reading;
use slot_state::{AccountPairs, Histories};
use stamp_types::{Key, Moment, Request};
use std::alloc::{AllocError, Global};
use std::marker::Model;
use std::sync::Arc;
use stored_rows::{AllSealed, Repaired, StoredFault, StoredRows, Unloaded, Unrepaired};
use tickets::Answer;

/// How many bytes an extent of two or more blocks may have, if nothing asks for another limit.
pub const EXTENT_BYTES: u32 = 268_435_456;

/// The containers of a range of keys, which three streams keep, and the accepted changes of each, with the key pairs of all accounts.
///
/// Contracts see it as its histories, its key pairs, its range and its doubt. In bytes, each container of the range is what its history
/// replays to, always. A change of which it is not known whether it was made is the slot's doubt.
#[derive(Drop)]
pub struct StoredSlot<H: Histories> {
    pub(crate) parts: SlotParts<H>,
}

impl<H: Histories> Model for StoredSlot<H> {
    ghost use Rattle.slot_state.specs.Slots.{SlotState, slot_code};
    ghost use Rattle.stored_slot.specs.Parts.{AreOfSlot, slot_of};

    ghost Value = { SlotState };

    ghost coded = { slot_code };

    ghost view = { λ s. slot_of H.held s.parts };

    ghost invariant = { λ s. AreOfSlot H.held s.parts };
}

impl<H: Histories> StoredSlot<H> {
    /// A slot of the range of these rows, which are new and have no container, for these key pairs. Its extents have the limit of the rows.
    /// Takes no memory: the slot shares the pairs.
    pub fn of_rows(alloc: Global, rows: StoredRows, pairs: Arc<AccountPairs>) -> Self
        requires none { (key : Key) → pieces_of rows key ≡ no_part }
        requires sure { doubt_of rows ≡ None }
        ensures { result ≡ slot_with (arc_value pairs) finite.empty rows None }
    {
        pairs.numbered();
        let parts = SlotParts {
            histories: H::none(alloc),
            stored: rows,
            pairs,
            doubt: None,
            unknown: None,
        };
        Self { parts }
    }

    /// Whether the key is in the range of the slot.
    #[tactic(auto, using(crate::proofs::DecisionLemmas::covers_same))]
    pub fn covers(&self, key: &Key) -> bool
        ensures { result ≡ slots.covers self.now key.now }
    {
        self.parts.stored.covers(key)
    }

    /// Whether the key comes after the first key of the slot and before the end of its range, so that the slot can be split at it.
    #[tactic(auto, using(crate::proofs::HalfLemmas::inside_same))]
    pub fn is_inside(&self, key: &Key) -> bool
        ensures { result ≡ slots.is_inside self.now key.now }
    {
        key.cmp(self.parts.stored.first()).is_gt() && self.parts.stored.covers(key)
    }

    /// One step of the model, on a request whose body was read before. The caller keeps the request, and may judge its signature before:
    /// `judged` changes no reply. A List Containers is answered up to the end of the slot's range.
    ///
    /// First the slot settles its doubt, if it has one, and loads its rows, if they are not loaded. The answer is Done with the reply, or with
    /// the reply of N1 if nodes that were needed did not answer, or with the reply of N2 if it is not known whether the change was made. It is
    /// Later if content of the reply is in sealed extents, and NoMemory if memory ran out. Without a reply of the model, nothing changed except
    /// that a doubt may have ended; after N2 the change is the slot's doubt.
    pub fn serve_read<W: Wire>(
        &mut self,
        alloc: Global,
        request: &Request,
        judged: Option<&Judged<'_>>,
        reading: Reading,
        moment: Moment,
        wire: &mut W,
    ) -> Answer
        requires judged { IsOfAsk (option_copied judged) request.now.ask }
        requires read { reading ≡ reading_of request.now }
        requires covered { slots.covers self.old (routed request.now) ≡ true }
        ensures served { SlotServes self.old request.now moment (Faulted (W.faults wire.old) (W.faults wire.new)) result self.new }
        ensures grown { Grows (W.faults wire.old) (W.faults wire.new) }
    {
        self.parts
            .serve(alloc, request, judged, reading, moment, wire)
    }

    /// One step of the model. The answer is NoMemory if memory runs out for the reading of the body.
    pub fn serve<W: Wire>(
        &mut self,
        alloc: Global,
        request: &Request,
        judged: Option<&Judged<'_>>,
        moment: Moment,
        wire: &mut W,
    ) -> Answer
        requires judged { IsOfAsk (option_copied judged) request.now.ask }
        requires covered { slots.covers self.old (routed request.now) ≡ true }
        ensures served { SlotServes self.old request.now moment (Faulted (W.faults wire.old) (W.faults wire.new)) result self.new
            ⊎ ((result ≡ answer.NoMemory) × (self.new ≡ self.old)) }
        ensures grown { Grows (W.faults wire.old) (W.faults wire.new) }
    {
        match Reading::of(alloc, request) {
            Ok(reading) => { self.serve_read(alloc, request, judged, reading, moment, wire) }
            Err(AllocError) => Answer::NoMemory,
        }
    }

    /// Settles the change that is in doubt, if there is one: it is kept with the moment and the epoch at which it was served, or it is dropped.
    ///
    /// After a fault nothing is changed, and the doubt is as it was. Busy: nodes that were needed did not answer. NoMemory: memory ran out.
    pub fn settle<W: Wire>(&mut self, alloc: Global, wire: &mut W) -> Result<(), StoredFault>
        ensures settled { SettlesOrFails result self.old self.new }
        ensures counted { FailsStored result (W.faults wire.old) (W.faults wire.new) }
    {
        self.parts.settle(alloc, wire)
    }

    /// Takes the rows out of memory, and gives them, so that a caller may drop them once it holds no lock. A change that is in doubt stays in
    /// doubt.
    pub fn unload(&mut self) -> Unloaded
        ensures { self.new ≡ self.old }
    {
        self.parts.stored.unload()
    }

    /// Settles a doubt, if there is one, and reads the rows from the streams, if they are not loaded.
    ///
    /// After a fault nothing is changed, except that a doubt may have ended. Busy: nodes that were needed did not answer. NoMemory: memory ran
    /// out.
    pub fn load<W: Wire>(&mut self, alloc: Global, wire: &mut W) -> Result<(), StoredFault>
        ensures left { LeavesSettled result self.old self.new }
        ensures counted { FailsStored result (W.faults wire.old) (W.faults wire.new) }
    {
        self.parts.load(alloc, wire)
    }

    /// Settles a doubt, if there is one, and seals the streams: what is written later goes to new extents.
    ///
    /// After a fault nothing is changed, except that a doubt may have ended. Busy: nodes that were needed did not answer. NoMemory: memory ran
    /// out.
    pub fn seal<W: Wire>(&mut self, alloc: Global, wire: &mut W) -> Result<AllSealed, StoredFault>
        ensures left { LeavesSettled result self.old self.new }
        ensures counted { FailsStored result (W.faults wire.old) (W.faults wire.new) }
    {
        self.parts.seal(alloc, wire)
    }

    /// Settles a doubt, if there is one, loads the rows, if they are not loaded, and writes them as a checkpoint: they take the place of the
    /// log and of the older rows. Gives what was replaced, which may be dropped after a lock. No byte of content is copied.
    ///
    /// After a fault nothing is changed, except that a doubt may have ended and that the rows may be loaded; what was written of the new rows
    /// is dropped. Busy: nodes that were needed did not answer, or a row was tried twice.
    pub fn checkpoint<W: Wire>(
        &mut self,
        alloc: Global,
        wire: &mut W,
    ) -> Result<Replaced, StoredFault>
        ensures left { LeavesSettled result self.old self.new }
        ensures counted { FailsStored result (W.faults wire.old) (W.faults wire.new) }
    {
        self.parts.checkpoint(alloc, wire)
    }

    /// Settles a doubt, if there is one, seals the streams, and cuts the slot at a key: the containers of `middle` and of the keys after it
    /// leave. Each container is in one half, whole, with its history. Both halves share the sealed extents and the key pairs.
    ///
    /// After a fault nothing was cut, and nothing is changed, except that a doubt may have ended. Busy: nodes that were needed did not
    /// answer. NoMemory: memory ran out.
    pub fn split<W: Wire>(
        &mut self,
        alloc: Global,
        middle: &Key,
        wire: &mut W,
    ) -> Result<Self, StoredFault>
        requires { slots.is_inside self.old middle.now ≡ true }
        ensures cut { CutsSettled result self.old middle.now self.new }
        ensures counted { FailsStored result (W.faults wire.old) (W.faults wire.new) }
    {
        self.parts.cut(alloc, middle, wire)
    }

    /// Another partition server takes the slot: it has none of the rows in memory, and reads them from the streams when they are needed. A
    /// change that is in doubt stays in doubt. Gives the rows that were in memory.
    ///
    /// The server's number is not kept, since nothing that a slot answers depends on it.
    pub fn move_to(&mut self, _server: u32) -> Unloaded
        ensures { self.new ≡ self.old }
    {
        self.parts.stored.unload()
    }

    /// Settles a doubt, if there is one, and gives the node a copy of a whole sealed extent of one stream, if it has no copy. No byte is
    /// copied.
    ///
    /// The other nodes, which have a copy, are asked in the order 0, 1, 2 until one of them answers yes. Then each block of the extent is put
    /// to the node once. Only the extent of this slot is repaired, also if other slots share it.
    ///
    /// The answer is of the stream, the extent and the node that were named. After a fault nothing is changed, except that a doubt may have
    /// ended. NoSuchExtent: no sealed extent of the stream has this number. Unreachable: the doubt could not be settled, since nodes that
    /// were needed did not answer; or each node with a copy was asked and answered no; or a put was not Done. NoMemory: memory ran out.
    pub fn repair<W: Wire>(
        &mut self,
        alloc: Global,
        part: StreamName,
        extent: u64,
        node: Node,
        wire: &mut W,
    ) -> Result<Repaired, Unrepaired>
        ensures own { IsRepairOf part extent node result }
        ensures left { LeavesRepaired (unnamed result) self.old self.new }
        ensures counted { FailsRepair (unnamed result) (W.faults wire.old) (W.faults wire.new) }
    {
        self.parts.repair(alloc, part, extent, node, wire)
    }
}
