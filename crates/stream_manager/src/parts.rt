//! The extents of a stream, and how blocks are tried on them.
ghost use Rattle.std.specs.Prelude.{◌≡◌};

use crate::faults::{AppendFault, Settled, StoredFault};
use crate::handle::Handle;
use crate::handle_room::HandleRoom;
use crate::sealed_extents::SealedExtents;
use crate::spares::Spares;
use extent_node::Wire;
use extent_seal::{Appended, BlockOwners, NoReplica, OpenExtent, ReadFault};
use stamp_values::{BLOCK_LIMIT, Place, Share};
use std::alloc::{AllocError, Global};
use std::mem;

/// What became of a block that was tried on the last extent.
#[derive(Drop)]
pub(crate) enum Tried {
    /// The block is at the place.
    Placed(Place),
    /// The extent is sealed without the block.
    Excluded,
    /// No node answered the seal.
    Doubt,
}

/// The sealed extents of a stream, and the last one, which takes blocks.
#[derive(Drop)]
pub(crate) struct Parts {
    pub alloc: Global,
    // The bytes that an extent of two or more blocks may hold.
    pub limit: u32,
    pub sealed: SealedExtents,
    pub last: OpenExtent,
    // The bytes of the acknowledged blocks of the last extent.
    pub bytes: u64,
    // The extents that follow when the last one is sealed.
    pub spares: Spares,
}

impl Parts {
    ghost use Rattle.std.specs.Prelude.{◌≡◌, ◌≢◌, ◌↔◌, ◌⊎◌, Ok, ◌<◌, ◌≤◌, ◌+◌, ◌++◌, ◌∷◌, [], true, false, None, Some, Err, map, take, length, IfOk, IsSome, IsSomeAnd, OnOk, OnErr};
    ghost use Rattle.std.specs.List.{slice_get};
    ghost use Rattle.std.specs.Option.{is_some};
    ghost use Rattle.extent_node.specs.Faults.{held};
    ghost use Rattle.extent_node.specs.Copies.{Block};
    ghost use Rattle.extent_node.specs.Faults.{CountsNone};
    ghost use Rattle.extent_seal.specs.Counting.{AsksCopies, AsksEach, AsksNoOther, FailsCopies, FailsEach, Grows, SomeAnswers, all_faults};
    ghost use Rattle.extent_seal.specs.Heard.{AsksAreHeard};
    ghost use Rattle.extent_seal.specs.Repairs.{FirstAnswers};
    ghost use Rattle.extent_seal.specs.declared.sealed.ReadFault.TheVariants.{Unreachable};
    ghost use Rattle.stamp_values.specs.declared.place.Place.{Place};
    ghost use Rattle.stream_manager.specs.Counting.{AsksAtMost, CallsTry, FailsTry, CallsAppend, FailsAppend, CallsSettle, FailsSettle, CallsSeal, FailsSeal, kept_in};
    ghost use Rattle.stream_manager.specs.Extents.{closed_blocks};
    ghost use Rattle.stream_manager.specs.GivenUp.{with_blocks, without, without_front};
    ghost use Rattle.stream_manager.specs.Outcomes.{IsTried, IsPut, IsAppend, IsRefused, IsSettled, IsSealed};
    ghost use Rattle.stream_manager.specs.Parts.{EndsDoubt, IsReadyFor, IsSame, IsUnanswered, IsWhole, SealsAtMostOne, SealsLast, StaysWhole, extents_of};
    ghost use Rattle.stream_manager.specs.Places.{IsLastAt, block_at, next_place};
    ghost use Rattle.stream_manager.specs.Sizes.{IsWithin, AreSized, AreCounted};
    ghost use Rattle.stream_manager.specs.declared.faults.AppendFault.TheVariants as append_fault;
    ghost use Rattle.stream_manager.specs.declared.faults.AppendFault.TheVariants.{TooLarge, Busy};
    ghost use Rattle.stream_manager.specs.declared.faults.StoredFault.TheVariants as stored_fault;
    ghost use Rattle.stream_manager.specs.declared.parts.Tried.TheVariants.{Doubt, Excluded, Placed};

    /// Seals the last extent, and answers whether the block that was tried on it lies in it.
    pub fn close<W: Wire>(&mut self, wire: &mut W) -> Result<bool, NoReplica>
        requires room { 0 < self.old.sealed.room }
        ensures limit { self.new.limit ≡ self.old.limit }
        ensures moved { IfOk result (λ kept. map closed_blocks self.new.sealed.extents
            ≡ map closed_blocks self.old.sealed.extents ++ (self.old.last.extent.blocks ++ held kept self.old.last.extent.tried) ∷ []) }
        ensures sealed { IfOk result (λ kept. SealsLast self.old self.new (W.faults wire.old) (W.faults wire.new)) }
        ensures same { OnErr result (IsUnanswered self.old self.new (W.faults wire.old) (W.faults wire.new)) }
        ensures called { AsksEach (W.calls wire.old) (W.calls wire.new) }
        ensures heard { IfOk result (λ kept. AsksAreHeard (W.calls wire.old) (W.calls wire.new) (W.faults wire.old) (W.faults wire.new)) }
        ensures room { SealsAtMostOne self.old self.new }
        ensures bytes { IfOk result (λ kept. self.new.bytes ≡ 0) }
        ensures same_bytes { OnErr result (self.new.bytes ≡ self.old.bytes) }
    {
        let len = self.last.len();
        let next = self.spares.take(self.alloc);
        let last = mem::replace(&mut self.last, next);
        match last.seal(wire) {
            Ok(sealed) => {
                let kept = len < sealed.commit_len();
                self.sealed.push_reserved(sealed);
                self.bytes = 0;
                Ok(kept)
            }
            Err((last, none)) => {
                self.last = last;
                Err(none)
            }
        }
    }

    // The extents after a seal follow those before it.
    fn close_last<W: Wire>(&mut self, wire: &mut W) -> Result<bool, NoReplica>
        requires whole { IsWhole self.old }
        requires room { 0 < self.old.sealed.room }
        ensures ended { IfOk result (λ kept. EndsDoubt kept self.old self.new) }
        ensures at { IfOk result (λ kept. (b : Block) → (p : Place) → held kept self.old.last.extent.tried ≡ b ∷ []
            → p.extent ≡ length self.old.sealed.extents → p.index ≡ length self.old.last.extent.blocks
            → IsLastAt (extents_of self.new) p b) }
        ensures sealed { IfOk result (λ kept. SealsLast self.old self.new (W.faults wire.old) (W.faults wire.new)) }
        ensures same { OnErr result (IsUnanswered self.old self.new (W.faults wire.old) (W.faults wire.new)) }
        ensures called { AsksEach (W.calls wire.old) (W.calls wire.new) }
        ensures heard { IfOk result (λ kept. AsksAreHeard (W.calls wire.old) (W.calls wire.new) (W.faults wire.old) (W.faults wire.new)) }
        ensures room { SealsAtMostOne self.old self.new }
        ensures whole { StaysWhole self.old self.new }
    {
        self.close(wire)
    }

    // Tries the block on the last extent. Takes no memory.
    #[tactic(auto, using(crate::proofs::SizeLemmas::short_sized, crate::proofs::SizeLemmas::whole_sized, crate::proofs::CountLemmas::one_more_bound, extent_seal::proofs::HeardLemmas::heard_put, extent_seal::proofs::HeardLemmas::heard_then))]
    fn try_once<W: Wire>(&mut self, block: BlockOwners, wire: &mut W) -> Tried
        requires whole { IsWhole self.old }
        requires ready { IsReadyFor self.old block }
        requires room { 0 < self.old.sealed.room }
        ensures tried { IsTried result (extents_of self.old) block
            (extents_of self.new) self.new.last.extent }
        ensures called { CallsTry result (length self.old.sealed.extents) (length self.new.sealed.extents) (W.calls wire.old) (W.calls wire.new) }
        ensures counted { FailsTry result (W.faults wire.old) (W.faults wire.new) }
        ensures heard { result ≢ Doubt → AsksAreHeard (W.calls wire.old) (W.calls wire.new) (W.faults wire.old) (W.faults wire.new) }
        ensures room { SealsAtMostOne self.old self.new }
        ensures whole { StaysWhole self.old self.new }
        ensures longer { length self.old.sealed.extents ≤ length self.new.sealed.extents }
        ensures after { (p : Place) → (result ≡ Placed p) → length self.old.sealed.extents ≤ p.extent }
        ensures once { (result ≡ Excluded) → length self.new.sealed.extents ≡ length self.old.sealed.extents + 1 }
        ensures last_room { (result ≡ Excluded) → self.new.last.room ≡ self.old.spares.next }
    {
        let place = Place {
            extent: self.sealed.len() as u64,
            index: self.last.len() as u64,
        };
        let len = block.len();
        match self.last.append_reserved(block, wire) {
            Appended::All => {
                self.bytes = self.bytes.saturating_add(len as u64);
                Tried::Placed(place)
            }
            Appended::Short => match self.close_last(wire) {
                Ok(true) => Tried::Placed(place),
                Ok(false) => Tried::Excluded,
                Err(NoReplica) => Tried::Doubt,
            },
        }
    }

    // Tries the block, and once more on a new extent if it is excluded. Takes no memory.
    #[tactic(auto, using(crate::proofs::SizeLemmas::first_within, crate::proofs::CountLemmas::one_more_bound))]
    fn put<W: Wire>(
        &mut self,
        block: BlockOwners,
        again: BlockOwners,
        wire: &mut W,
    ) -> Result<Place, AppendFault>
        requires whole { IsWhole self.old }
        requires ready { IsReadyFor self.old block }
        requires room { 1 < self.old.sealed.room }
        requires next_room { 0 < self.old.spares.next }
        requires again { again ≡ block }
        ensures put { IsPut result (extents_of self.old) block
            (extents_of self.new) self.new.last.extent }
        ensures called { CallsAppend result (length self.old.sealed.extents) (length self.new.sealed.extents) (W.calls wire.old) (W.calls wire.new) }
        ensures counted { FailsAppend result (length self.old.sealed.extents) (length self.new.sealed.extents) (W.faults wire.old) (W.faults wire.new) }
        ensures heard { result ≢ Err append_fault.Doubt → AsksAreHeard (W.calls wire.old) (W.calls wire.new) (W.faults wire.old) (W.faults wire.new) }
        ensures whole { StaysWhole self.old self.new }
        ensures after { IfOk result (λ p. length self.old.sealed.extents ≤ p.extent) }
        ensures twice { (result ≡ Err Busy) → length self.new.sealed.extents ≡ length self.old.sealed.extents + 2 }
    {
        match self.try_once(block, wire) {
            Tried::Placed(place) => return Ok(place),
            Tried::Doubt => return Err(AppendFault::Doubt),
            Tried::Excluded => {}
        }
        match self.try_once(again, wire) {
            Tried::Placed(place) => Ok(place),
            Tried::Doubt => Err(AppendFault::Doubt),
            Tried::Excluded => Err(AppendFault::Busy),
        }
    }

    // Whether the last extent is sealed before a block of `len` bytes is tried: it has a doubt, or would hold too many bytes.
    #[tactic(auto, using(crate::proofs::SizeLemmas::first_within, crate::proofs::SizeLemmas::room_within))]
    fn seals_before(&self, len: usize) -> bool
        requires bytes { AreCounted self.now.bytes self.now.last.extent }
        ensures clear { (result ≡ false) → self.now.last.extent.tried ≡ None }
        ensures fits { (result ≡ false) → (b : Block) → length b ≡ len → IsWithin self.now.limit (self.now.last.extent.blocks ++ b ∷ []) }
    {
        if self.last.is_short() {
            return true;
        }
        self.last.len() > 0 && self.bytes.saturating_add(len as u64) > u64::from(self.limit)
    }

    // Makes all room that an append may need: for three seals, in two extents that follow, and in the last one if it is not sealed first.
    fn make_room(&mut self, seals: bool) -> Result<(), AllocError>
        ensures same { IsSame self.old self.new }
        ensures room { OnOk result (2 < self.new.sealed.room) }
        ensures last_room { OnOk result ((seals ≡ false) → 0 < self.new.last.room) }
        ensures next_room { OnOk result (0 < self.new.spares.next) }
        ensures after_room { OnOk result (0 < self.new.spares.after) }
    {
        self.sealed.reserve(3)?;
        self.spares.reserve()?;
        if !seals {
            self.last.reserve()?;
        }
        Ok(())
    }

    // Seals the last extent, if it is to be sealed before a block is tried. Takes no memory.
    #[tactic(auto, using(crate::proofs::SizeLemmas::first_within, crate::proofs::CountLemmas::one_more_bound, extent_seal::proofs::HeardLemmas::heard_none))]
    fn make_ready<W: Wire>(&mut self, seals: bool, wire: &mut W) -> Result<bool, NoReplica>
        requires whole { IsWhole self.old }
        requires room { 0 < self.old.sealed.room }
        requires clear { (seals ≡ false) → self.old.last.extent.tried ≡ None }
        requires last_room { (seals ≡ false) → 0 < self.old.last.room }
        requires next_room { 0 < self.old.spares.next }
        requires after_room { 0 < self.old.spares.after }
        ensures ended { IfOk result (λ kept. EndsDoubt kept self.old self.new) }
        ensures tried { IfOk result (λ kept. self.new.last.extent.tried ≡ None) }
        ensures same { OnErr result (IsUnanswered self.old self.new (W.faults wire.old) (W.faults wire.new)) }
        ensures called { IfOk result (λ kept. AsksAtMost 0 (length self.old.sealed.extents) (length self.new.sealed.extents) (W.calls wire.old).asks (W.calls wire.new).asks) }
        ensures unput { IfOk result (λ kept. CountsNone (W.calls wire.old).puts (W.calls wire.new).puts) }
        ensures unanswered_calls { OnErr result (AsksEach (W.calls wire.old) (W.calls wire.new)) }
        ensures counted { IfOk result (λ kept. Grows (W.faults wire.old) (W.faults wire.new)) }
        ensures heard { IfOk result (λ kept. AsksAreHeard (W.calls wire.old) (W.calls wire.new) (W.faults wire.old) (W.faults wire.new)) }
        ensures room { SealsAtMostOne self.old self.new }
        ensures whole { StaysWhole self.old self.new }
        ensures fits { IfOk result (λ kept. (b : Block)
            → ((seals ≡ false) → IsWithin self.old.limit (self.old.last.extent.blocks ++ b ∷ []))
            → IsWithin self.new.limit (self.new.last.extent.blocks ++ b ∷ [])) }
        ensures longer { IfOk result (λ kept. length self.old.sealed.extents ≤ length self.new.sealed.extents) }
        ensures last_room { IfOk result (λ kept. 0 < self.new.last.room) }
        ensures next_room { IfOk result (λ kept. 0 < self.new.spares.next) }
    {
        if seals {
            return self.close_last(wire);
        }
        Ok(false)
    }

    /// Appends the block, after a doubt is settled. All memory that this may need is taken before a node is called.
    #[tactic(auto, using(crate::proofs::CountLemmas::one_more_bound, extent_seal::proofs::HeardLemmas::heard_none))]
    pub fn append<W: Wire>(&mut self, block: &Share, wire: &mut W) -> Result<Place, AppendFault>
        requires whole { IsWhole self.old }
        ensures appended { IsAppend result (extents_of self.old) self.old.last.extent block.now
            (extents_of self.new) self.new.last.extent }
        ensures called { CallsAppend result (length self.old.sealed.extents) (length self.new.sealed.extents) (W.calls wire.old) (W.calls wire.new) }
        ensures counted { FailsAppend result (length self.old.sealed.extents) (length self.new.sealed.extents) (W.faults wire.old) (W.faults wire.new) }
        ensures heard { result ≢ Err append_fault.Doubt → result ≢ Err Busy → AsksAreHeard (W.calls wire.old) (W.calls wire.new) (W.faults wire.old) (W.faults wire.new) }
        ensures after { IfOk result (λ p. length self.old.sealed.extents ≤ p.extent) }
        ensures large { (result ≡ Err TooLarge) ↔ (16_777_216 < length block.now) }
        ensures unheard { IsRefused result → wire.new ≡ wire.old }
        ensures same_sealed { IsRefused result → self.new.sealed.extents ≡ self.old.sealed.extents }
        ensures same_last { IsRefused result → self.new.last.extent ≡ self.old.last.extent }
        ensures whole { StaysWhole self.old self.new }
        ensures busy { (result ≡ Err Busy) → ((self.new.sealed.extents ≡ self.old.sealed.extents) × FailsEach (W.faults wire.old) (W.faults wire.new))
            ⊎ (length self.old.sealed.extents + 2 ≤ length self.new.sealed.extents) }
    {
        if block.len() > BLOCK_LIMIT {
            return Err(AppendFault::TooLarge);
        }
        let first = BlockOwners::new(block)?;
        let again = BlockOwners::new(block)?;
        let seals = self.seals_before(block.len());
        self.make_room(seals)?;
        match self.make_ready(seals, wire) {
            Ok(_) => self.put(first, again, wire),
            Err(NoReplica) => {
                drop(first);
                drop(again);
                Err(AppendFault::Busy)
            }
        }
    }

    /// Takes the blocks of a sealed extent, which keeps its number. Takes no memory.
    pub fn give_up(&mut self, extent: usize) -> Handle
        requires whole { IsWhole self.old }
        requires there { extent < length self.old.sealed.extents }
        ensures given { slice_get self.old.sealed.extents extent ≡ Some result }
        ensures left { self.new.sealed.extents ≡ without extent self.old.sealed.extents }
        ensures last { self.new.last.extent ≡ self.old.last.extent }
        ensures whole { StaysWhole self.old self.new }
    {
        self.sealed.give_up(extent, self.alloc)
    }

    /// Takes the blocks of the first sealed extents, which keep their numbers. Takes no memory.
    pub fn give_up_front(&mut self, count: usize, room: &mut HandleRoom)
        requires whole { IsWhole self.old }
        requires there { count ≤ length self.old.sealed.extents }
        requires room { length (with_blocks (take count self.old.sealed.extents)) ≤ room.old.room }
        ensures left { self.new.sealed.extents ≡ without_front count self.old.sealed.extents }
        ensures last { self.new.last.extent ≡ self.old.last.extent }
        ensures whole { StaysWhole self.old self.new }
        ensures given { room.new.extents ≡ room.old.extents ++ with_blocks (take count self.old.sealed.extents) }
        ensures room { room.new.room + length (with_blocks (take count self.old.sealed.extents)) ≡ room.old.room }
    {
        self.sealed.give_up_front(count, room, self.alloc);
    }

    /// Settles a doubt, if there is one.
    #[tactic(auto, using(extent_seal::proofs::HeardLemmas::heard_none))]
    pub fn settle<W: Wire>(&mut self, wire: &mut W) -> Result<Settled, StoredFault>
        requires whole { IsWhole self.old }
        ensures settled { IsSettled result (extents_of self.old) self.old.last.extent
            (extents_of self.new) self.new.last.extent }
        ensures called { CallsSettle result (W.calls wire.old) (W.calls wire.new) }
        ensures counted { FailsSettle result (W.faults wire.old) (W.faults wire.new) }
        ensures heard { result ≢ Err stored_fault.Busy → AsksAreHeard (W.calls wire.old) (W.calls wire.new) (W.faults wire.old) (W.faults wire.new) }
        ensures whole { StaysWhole self.old self.new }
    {
        if !self.last.is_short() {
            return Ok(Settled::Clean);
        }
        self.sealed.reserve(1)?;
        let place = Place {
            extent: self.sealed.len() as u64,
            index: self.last.len() as u64,
        };
        match self.close_last(wire) {
            Ok(true) => Ok(Settled::Kept(place)),
            Ok(false) => Ok(Settled::Dropped),
            Err(NoReplica) => Err(StoredFault::Busy),
        }
    }

    /// Seals the last extent if it holds a block or a doubt.
    pub fn seal<W: Wire>(&mut self, wire: &mut W) -> Result<(), StoredFault>
        requires whole { IsWhole self.old }
        ensures sealed { IsSealed result (extents_of self.old) self.old.last.extent
            (extents_of self.new) self.new.last.extent }
        ensures called { CallsSeal result (length self.old.sealed.extents) (length self.new.sealed.extents) (W.calls wire.old) (W.calls wire.new) }
        ensures counted { FailsSeal result (W.faults wire.old) (W.faults wire.new) }
        ensures heard { result ≢ Err stored_fault.Busy → AsksAreHeard (W.calls wire.old) (W.calls wire.new) (W.faults wire.old) (W.faults wire.new) }
        ensures unused { self.old.last.extent.blocks ≡ [] → self.old.last.extent.tried ≡ None → wire.new ≡ wire.old }
        ensures same_sealed { self.old.last.extent.blocks ≡ [] → self.old.last.extent.tried ≡ None → self.new.sealed.extents ≡ self.old.sealed.extents }
        ensures whole { StaysWhole self.old self.new }
    {
        if !self.last.is_short() && self.last.len() == 0 {
            return Ok(());
        }
        self.sealed.reserve(1)?;
        match self.close_last(wire) {
            Ok(_kept) => Ok(()),
            Err(NoReplica) => Err(StoredFault::Busy),
        }
    }

    /// No extents but an empty one. Takes no memory.
    pub fn new(alloc: Global, limit: u32) -> Self
        ensures limit { result.limit ≡ limit }
        ensures whole { IsWhole result }
        ensures sealed { result.sealed.extents ≡ [] }
        ensures blocks { result.last.extent.blocks ≡ [] }
        ensures tried { result.last.extent.tried ≡ None }
    {
        Self {
            alloc,
            limit,
            sealed: SealedExtents::new(alloc),
            last: OpenExtent::new(alloc),
            bytes: 0,
            spares: Spares::new(alloc),
        }
    }

    /// The block at a place.
    #[tactic(auto, using(crate::proofs::ReadLemmas::in_sealed, crate::proofs::ReadLemmas::in_last))]
    pub fn read<W: Wire>(&self, place: Place, wire: &mut W) -> Result<Share, ReadFault>
        requires { IsSome (block_at (extents_of self.now) place) }
        ensures read { IfOk result (λ b. block_at (extents_of self.now) place ≡ Some b) }
        ensures called { result ≡ Err Unreachable → AsksCopies (kept_in self.now.sealed.extents place.extent) (W.calls wire.old) (W.calls wire.new) }
        ensures unreachable { result ≡ Err Unreachable → FailsCopies (kept_in self.now.sealed.extents place.extent) (W.faults wire.old) (W.faults wire.new) }
        ensures faulty { result ≡ Err Unreachable → all_faults (W.faults wire.old) < all_faults (W.faults wire.new) }
        ensures answered { result ≢ Err Unreachable → SomeAnswers (kept_in self.now.sealed.extents place.extent) (W.calls wire.old) (W.calls wire.new) (W.faults wire.old) (W.faults wire.new) }
        ensures first { result ≢ Err Unreachable → FirstAnswers (kept_in self.now.sealed.extents place.extent) (W.calls wire.old).asks (W.calls wire.new).asks (W.faults wire.old).asks (W.faults wire.new).asks }
        ensures heard { result ≢ Err Unreachable → AsksAreHeard (W.calls wire.old) (W.calls wire.new) (W.faults wire.old) (W.faults wire.new) }
        ensures discarded { AsksNoOther (kept_in self.now.sealed.extents place.extent) (W.calls wire.old) (W.calls wire.new) }
        ensures grown { Grows (W.faults wire.old) (W.faults wire.new) }
    {
        let index = place.index as usize;
        match self.sealed.get(place.extent as usize) {
            Some(sealed) => sealed.read(index, wire),
            None => self.last.read(index, wire),
        }
    }

    /// Whether there is an acknowledged block at the place.
    #[tactic(auto, using(crate::proofs::ReadLemmas::has_sealed, crate::proofs::ReadLemmas::has_last))]
    pub fn has_block(&self, place: Place) -> bool
        ensures { result ≡ is_some (block_at (extents_of self.now) place) }
    {
        let extent = place.extent as usize;
        let index = place.index as usize;
        match self.sealed.get(extent) {
            Some(sealed) => index < sealed.commit_len(),
            None => extent == self.sealed.len() && index < self.last.len(),
        }
    }

    /// The place after the last acknowledged block.
    #[tactic(auto, using(crate::proofs::PlaceLemmas::last_number))]
    pub fn next_place(&self) -> Place
        ensures { result ≡ next_place (extents_of self.now) self.now.last.extent }
    {
        Place {
            extent: self.sealed.len() as u64,
            index: self.last.len() as u64,
        }
    }

    /// How many extents there are, with the last one.
    #[tactic(auto, using(crate::proofs::ReadLemmas::count_of_extents))]
    pub fn extent_count(&self) -> usize
        ensures { result ≡ length (extents_of self.now) }
    {
        self.sealed.len() + 1
    }

    /// How many acknowledged blocks an extent has.
    #[tactic(auto, using(crate::proofs::ReadLemmas::sealed_extent, crate::proofs::ReadLemmas::last_extent))]
    pub fn extent_len(&self, extent: usize) -> usize
        requires { extent < length (extents_of self.now) }
        ensures { IsSomeAnd (slice_get (extents_of self.now) extent) (λ blocks. result ≡ length blocks) }
    {
        match self.sealed.get(extent) {
            Some(sealed) => sealed.commit_len(),
            None => self.last.len(),
        }
    }

    /// The same sealed extents, each of them shared, with a last extent of its own.
    #[tactic(auto, using(crate::proofs::SizeLemmas::none_sized))]
    pub fn share(&mut self) -> Result<Self, AllocError>
        requires sized { AreSized self.old.limit self.old.sealed.extents self.old.last.extent }
        ensures same { IsSame self.old self.new }
        ensures sealed { IfOk result (λ s. s.sealed.extents ≡ self.old.sealed.extents) }
        ensures blocks { IfOk result (λ s. s.last.extent.blocks ≡ []) }
        ensures tried { IfOk result (λ s. s.last.extent.tried ≡ None) }
        ensures whole { IfOk result (λ s. StaysWhole self.old s) }
    {
        let sealed = self.sealed.share(self.alloc)?;
        Ok(Self {
            alloc: self.alloc,
            limit: self.limit,
            sealed,
            last: OpenExtent::new(self.alloc),
            bytes: 0,
            spares: Spares::new(self.alloc),
        })
    }
}
