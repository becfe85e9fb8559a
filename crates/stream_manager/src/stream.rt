//! Streams.
ghost use Rattle.std.specs.Prelude.{◌≡◌};

use crate::faults::{AppendFault, RepairFault, Settled, StoredFault};
use crate::handle::Handle;
use crate::handle_room::HandleRoom;
use crate::parts::Parts;
use extent_node::{Node, Wire};
use extent_seal::ReadFault;
use stamp_values::{Place, Share};
use std::alloc::{AllocError, Global};
use std::marker::Model;
use std::mem;

/// A list of extents of blocks, whose last extent takes blocks (SOSP 2011, section 4.1).
#[derive(Drop)]
pub struct Stream {
    parts: Parts,
}

impl Model for Stream {
    ghost use Rattle.stream_manager.specs.Parts.{IsWhole};
    ghost use Rattle.stream_manager.specs.Streams.{Streamed};

    ghost Value = { Streamed };

    ghost view = { λ s. record { limit = s.parts.limit; sealed = s.parts.sealed.extents; last = s.parts.last.extent } };

    ghost invariant = { λ s. IsWhole s.parts };
}

impl Stream {
    ghost use Rattle.std.specs.Prelude.{◌≡◌, ◌≢◌, ◌↔◌, ◌⊎◌, ◌≤◌, ◌<◌, ◌+◌, ◌++◌, [], None, Some, Ok, Err, length, take, IfOk, IsSome, IsSomeAnd, OnOk, OnErr};
    ghost use Rattle.std.specs.List.{slice_get};
    ghost use Rattle.std.specs.Option.{is_some};
    ghost use Rattle.extent_seal.specs.Extents.{Closed};
    ghost use Rattle.extent_seal.specs.Counting.{AsksCopies, AsksNoOther, FailsCopies, FailsEach, Grows, SomeAnswers, all_faults};
    ghost use Rattle.extent_seal.specs.Heard.{AsksAreHeard};
    ghost use Rattle.extent_seal.specs.Repairs.{FirstAnswers};
    ghost use Rattle.extent_seal.specs.declared.sealed.ReadFault.TheVariants.{Unreachable};
    ghost use Rattle.stream_manager.specs.Counting.{CallsAppend, FailsAppend, CallsSettle, FailsSettle, CallsSeal, FailsSeal, kept_in};
    ghost use Rattle.stream_manager.specs.GivenUp.{GivesUp, GivesUpFront, with_blocks};
    ghost use Rattle.stream_manager.specs.Outcomes.{IsAppend, IsRefused, IsSettled, IsSealed};
    ghost use Rattle.stream_manager.specs.Places.{block_at, next_place};
    ghost use Rattle.stream_manager.specs.Repairs.{CountsRepair, IsUnheardFault, repaired};
    ghost use Rattle.stream_manager.specs.Sizes.{AreSized};
    ghost use Rattle.stream_manager.specs.Streams.{laid};
    ghost use Rattle.stream_manager.specs.declared.faults.AppendFault.TheVariants.{TooLarge, Busy, Doubt};
    ghost use Rattle.stream_manager.specs.declared.faults.RepairFault.TheVariants as repair_fault;
    ghost use Rattle.stream_manager.specs.declared.faults.StoredFault.TheVariants as stored_fault;

    /// A stream without blocks, whose extents of two or more blocks have at most `extent_bytes` bytes. Takes no memory.
    pub fn new(alloc: Global, extent_bytes: u32) -> Self
        ensures limit { result.limit ≡ extent_bytes }
        ensures sealed { result.sealed ≡ [] }
        ensures blocks { result.last.blocks ≡ [] }
        ensures tried { result.last.tried ≡ None }
    {
        Self {
            parts: Parts::new(alloc, extent_bytes),
        }
    }

    /// Appends a block after all others, and answers its place. No byte is copied.
    ///
    /// An older doubt is settled first, and an extent that the block would make too large is sealed first. If some delivery is not
    /// Done, the extent is sealed; if the block is not within its commit length, the block is tried once more, on a new extent.
    ///
    /// All memory that these steps may need is taken first. TooLarge, for a block of over 16,777,216 bytes, and NoMemory: no node was
    /// called, and the stream is as it was. Busy: the block is in no extent, since it was tried twice, or no node answered the seal of a
    /// full extent or of an older doubt. Doubt: some delivery was not Done, and then no node answered; the block is in doubt until the
    /// next settle, append or seal.
    pub fn append<W: Wire>(&mut self, block: &Share, wire: &mut W) -> Result<Place, AppendFault>
        ensures appended { IsAppend result (laid self.old) self.old.last block.now (laid self.new) self.new.last }
        ensures after { IfOk result (λ p. length self.old.sealed ≤ p.extent) }
        ensures called { CallsAppend result (length self.old.sealed) (length self.new.sealed) (W.calls wire.old) (W.calls wire.new) }
        ensures counted { FailsAppend result (length self.old.sealed) (length self.new.sealed) (W.faults wire.old) (W.faults wire.new) }
        ensures heard { result ≢ Err Doubt → result ≢ Err Busy → AsksAreHeard (W.calls wire.old) (W.calls wire.new) (W.faults wire.old) (W.faults wire.new) }
        ensures large { (result ≡ Err TooLarge) ↔ (16_777_216 < length block.now) }
        ensures refused { IsRefused result → self.new ≡ self.old }
        ensures unheard { IsRefused result → wire.new ≡ wire.old }
        ensures busy { (result ≡ Err Busy) → ((self.new.sealed ≡ self.old.sealed) × FailsEach (W.faults wire.old) (W.faults wire.new)) ⊎ (length self.old.sealed + 2 ≤ length self.new.sealed) }
        ensures limit { self.new.limit ≡ self.old.limit }
        ensures sized { AreSized self.new.limit self.new.sealed self.new.last }
    {
        self.parts.append(block, wire)
    }

    /// Settles a doubt, if there is one: the block that is in doubt is kept or dropped.
    ///
    /// Busy: no node answered. NoMemory: no node was called. After both the stream is as it was, and the doubt stays.
    pub fn settle<W: Wire>(&mut self, wire: &mut W) -> Result<Settled, StoredFault>
        ensures settled { IsSettled result (laid self.old) self.old.last (laid self.new) self.new.last }
        ensures called { CallsSettle result (W.calls wire.old) (W.calls wire.new) }
        ensures counted { FailsSettle result (W.faults wire.old) (W.faults wire.new) }
        ensures heard { result ≢ Err stored_fault.Busy → AsksAreHeard (W.calls wire.old) (W.calls wire.new) (W.faults wire.old) (W.faults wire.new) }
        ensures limit { self.new.limit ≡ self.old.limit }
        ensures sized { AreSized self.new.limit self.new.sealed self.new.last }
    {
        self.parts.settle(wire)
    }

    /// Seals the last extent, if it has a block or a doubt. A doubt is settled by this. Each node is asked once, and no node if there is
    /// nothing to seal.
    ///
    /// Busy: no node answered. NoMemory: no node was called. After both the stream is as it was.
    pub fn seal<W: Wire>(&mut self, wire: &mut W) -> Result<(), StoredFault>
        ensures sealed { IsSealed result (laid self.old) self.old.last (laid self.new) self.new.last }
        ensures called { CallsSeal result (length self.old.sealed) (length self.new.sealed) (W.calls wire.old) (W.calls wire.new) }
        ensures counted { FailsSeal result (W.faults wire.old) (W.faults wire.new) }
        ensures heard { result ≢ Err stored_fault.Busy → AsksAreHeard (W.calls wire.old) (W.calls wire.new) (W.faults wire.old) (W.faults wire.new) }
        ensures unused { self.old.last.blocks ≡ [] → self.old.last.tried ≡ None → wire.new ≡ wire.old }
        ensures same { self.old.last.blocks ≡ [] → self.old.last.tried ≡ None → self.new.sealed ≡ self.old.sealed }
        ensures limit { self.new.limit ≡ self.old.limit }
        ensures sized { AreSized self.new.limit self.new.sealed self.new.last }
    {
        self.parts.seal(wire)
    }

    /// The block at a place. No byte is copied.
    ///
    /// The nodes that have a copy of the extent are asked in the order 0, 1, 2 until one of them answers yes. Unreachable: every node
    /// with a copy was asked once and answered no. NoMemory: a node answered, and the block can have no further owner.
    pub fn read<W: Wire>(&self, place: Place, wire: &mut W) -> Result<Share, ReadFault>
        requires { IsSome (block_at (laid self.now) place) }
        ensures read { IfOk result (λ b. block_at (laid self.now) place ≡ Some b) }
        ensures called { result ≡ Err Unreachable → AsksCopies (kept_in self.now.sealed place.extent) (W.calls wire.old) (W.calls wire.new) }
        ensures unreachable { result ≡ Err Unreachable → FailsCopies (kept_in self.now.sealed place.extent) (W.faults wire.old) (W.faults wire.new) }
        ensures faulty { result ≡ Err Unreachable → all_faults (W.faults wire.old) < all_faults (W.faults wire.new) }
        ensures answered { result ≢ Err Unreachable → SomeAnswers (kept_in self.now.sealed place.extent) (W.calls wire.old) (W.calls wire.new) (W.faults wire.old) (W.faults wire.new) }
        ensures first { result ≢ Err Unreachable → FirstAnswers (kept_in self.now.sealed place.extent) (W.calls wire.old).asks (W.calls wire.new).asks (W.faults wire.old).asks (W.faults wire.new).asks }
        ensures heard { result ≢ Err Unreachable → AsksAreHeard (W.calls wire.old) (W.calls wire.new) (W.faults wire.old) (W.faults wire.new) }
        ensures discarded { AsksNoOther (kept_in self.now.sealed place.extent) (W.calls wire.old) (W.calls wire.new) }
        ensures grown { Grows (W.faults wire.old) (W.faults wire.new) }
    {
        self.parts.read(place, wire)
    }

    /// Whether there is an acknowledged block at the place. No node is called.
    pub fn has_block(&self, place: Place) -> bool
        ensures { result ≡ is_some (block_at (laid self.now) place) }
    {
        self.parts.has_block(place)
    }

    /// The place after the last acknowledged block. No node is called.
    ///
    /// A block that is in doubt is at this place if a later append, settle or seal keeps it. If it is dropped, no block comes there.
    pub fn next_place(&self) -> Place
        ensures { result ≡ next_place (laid self.now) self.now.last }
    {
        self.parts.next_place()
    }

    /// How many extents there are: the sealed ones, and the last one, which takes blocks.
    pub fn extent_count(&self) -> usize
        ensures { result ≡ length (laid self.now) }
    {
        self.parts.extent_count()
    }

    /// How many acknowledged blocks an extent has.
    pub fn extent_len(&self, extent: usize) -> usize
        requires { extent < length (laid self.now) }
        ensures { IsSomeAnd (slice_get (laid self.now) extent) (λ blocks. result ≡ length blocks) }
    {
        self.parts.extent_len(extent)
    }

    /// How many sealed extents have a block.
    pub fn filled_count(&self) -> usize
        ensures { result ≡ length (with_blocks self.now.sealed) }
    {
        self.parts.sealed.filled()
    }

    /// How many sealed extents there are, with those that were given up. Their numbers come before the number of the last extent.
    pub fn sealed_count(&self) -> usize
        ensures { result ≡ length self.now.sealed }
    {
        self.parts.sealed.len()
    }

    /// One more handle of a sealed extent, which reads its blocks whatever becomes of the stream. No block is copied.
    ///
    /// An extent gets its count of owners when it is first shared. `AllocError`: the stream is as it was.
    pub fn handle(&mut self, extent: usize) -> Result<Handle, AllocError>
        requires { extent < length self.old.sealed }
        ensures same { self.new ≡ self.old }
        ensures shared { IfOk result (λ h. slice_get self.old.sealed extent ≡ Some h) }
    {
        self.parts.sealed.share_at(extent, self.parts.alloc)
    }

    /// Gives the node a copy of a whole sealed extent, if it has no copy. No byte is copied, and no block changes.
    ///
    /// The other nodes, which have a copy, are asked in the order 0, 1, 2 until one of them answers yes. Then each block of the extent is
    /// put to the node once. An extent without blocks is repaired by the asks. If the node has a copy, no node is called.
    ///
    /// If streams share the extent, it is repaired for this stream. After a fault the stream is as it was. NoSuchExtent: no sealed extent
    /// has this number; the last extent takes blocks. Unreachable: each node with a copy was asked once and answered no, or a put was not
    /// Done. NoSuchExtent and NoMemory: no node was called.
    pub fn repair<W: Wire>(
        &mut self,
        extent: u64,
        node: Node,
        wire: &mut W,
    ) -> Result<(), RepairFault>
        ensures refused { (result ≡ Err repair_fault.NoSuchExtent) ↔ (length self.old.sealed ≤ extent) }
        ensures repaired { OnOk result (self.new ≡ repaired node extent self.old) }
        ensures same { OnErr result (self.new ≡ self.old) }
        ensures blocks { laid self.new ≡ laid self.old }
        ensures last { self.new.last ≡ self.old.last }
        ensures limit { self.new.limit ≡ self.old.limit }
        ensures counted { (e : Closed) → slice_get self.old.sealed extent ≡ Some e → CountsRepair result node e (W.calls wire.old) (W.calls wire.new) (W.faults wire.old) (W.faults wire.new) }
        ensures faulty { result ≡ Err repair_fault.Unreachable → all_faults (W.faults wire.old) < all_faults (W.faults wire.new) }
        ensures unheard { IsUnheardFault result → wire.new ≡ wire.old }
        ensures grown { Grows (W.faults wire.old) (W.faults wire.new) }
    {
        self.parts
            .sealed
            .repair(extent, node, self.parts.alloc, wire)
    }

    /// Gives up the blocks of a sealed extent, to which nothing refers any more, and answers its handle. The extent keeps its number, and
    /// each other block stays at its place. Takes no memory, and calls no node.
    pub fn give_up(&mut self, extent: usize) -> Handle
        requires { extent < length self.old.sealed }
        ensures given { slice_get self.old.sealed extent ≡ Some result }
        ensures left { GivesUp extent self.old self.new }
    {
        self.parts.give_up(extent)
    }

    /// Gives up the blocks of the first `count` sealed extents, to which nothing refers any more, and moves a handle of each of these
    /// extents that has a block into the room. The extents keep their numbers, and each block after them stays at its place. Takes no
    /// memory, and calls no node.
    #[tactic(auto, using(crate::proofs::GivenUpLemmas::laid_front))]
    pub fn give_up_front(&mut self, count: usize, room: &mut HandleRoom)
        requires there { count ≤ length self.old.sealed }
        requires room { length (with_blocks (take count self.old.sealed)) ≤ room.old.room }
        ensures left { GivesUpFront count self.old self.new }
        ensures given { room.new.extents ≡ room.old.extents ++ with_blocks (take count self.old.sealed) }
        ensures room { room.new.room + length (with_blocks (take count self.old.sealed)) ≡ room.old.room }
    {
        self.parts.give_up_front(count, room);
    }

    /// Puts a stream without blocks in the place of this one, with the same limit of bytes, and answers what was there. Takes no memory,
    /// and calls no node.
    pub fn take(&mut self) -> Self
        ensures taken { result ≡ self.old }
        ensures sealed { self.new.sealed ≡ [] }
        ensures blocks { self.new.last.blocks ≡ [] }
        ensures tried { self.new.last.tried ≡ None }
        ensures limit { self.new.limit ≡ self.old.limit }
    {
        let empty = Parts::new(self.parts.alloc, self.parts.limit);
        let parts = mem::replace(&mut self.parts, empty);
        Self { parts }
    }

    /// A stream with the same sealed extents under the same numbers, and without a block after them. No block is copied.
    ///
    /// Both streams share the sealed extents; an extent gets its count of owners when it is first shared. `AllocError`: the stream
    /// is as it was.
    pub fn share(&mut self) -> Result<Self, AllocError>
        ensures same { self.new ≡ self.old }
        ensures sealed { IfOk result (λ s. s.sealed ≡ self.old.sealed) }
        ensures blocks { IfOk result (λ s. s.last.blocks ≡ []) }
        ensures tried { IfOk result (λ s. s.last.tried ≡ None) }
        ensures limit { IfOk result (λ s. s.limit ≡ self.old.limit) }
    {
        let parts = self.parts.share()?;
        Ok(Self { parts })
    }
}
