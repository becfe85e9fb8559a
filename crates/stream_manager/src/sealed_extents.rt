//! The sealed extents of a stream, in the order of their numbers.
ghost use Rattle.std.specs.Prelude.{◌≡◌, ◌≤◌, ◌<◌, ◌+◌, ◌++◌, drop, length, take};
ghost use Rattle.stream_manager.specs.GivenUp.{with_blocks, without_front};

use crate::faults::RepairFault;
use crate::handle::{Handle, share_all, share_at};
use crate::handle_room::HandleRoom;
use crate::repair::repair_at;
use extent_node::{Node, Wire};
use extent_seal::Sealed;
use std::alloc::{AllocError, Global};
use std::marker::Model;
use std::mem;

/// Sealed extents, each under its number.
///
/// The extents that were given up at the front have no handle, and only their count is kept. An extent after them that was given up has a
/// handle without a block.
#[derive(Drop)]
pub(crate) struct SealedExtents {
    // How many extents at the front were given up.
    first: usize,
    // The extent that is read under each of their numbers.
    none: Sealed,
    handles: Vec<Handle>,
}

impl Model for SealedExtents {
    ghost use Rattle.std.specs.Prelude.{◌≡◌, ◌≤◌, ◌+◌};
    ghost use Rattle.std.specs.Vec.{vec_len, vec_capacity};
    ghost use Rattle.extent_seal.specs.Extents.{no_blocks};
    ghost use Rattle.stream_manager.specs.SealedExtents.{SealedList, numbered, room_of};

    ghost Value = { SealedList };

    ghost view = { λ s. record {
      extents = numbered s.first s.handles.items;
      room = room_of s.first (vec_len s.handles) (vec_capacity s.handles);
    } };

    ghost invariant = { λ s. (s.none ≡ no_blocks) × (s.first + vec_len s.handles ≤ 18_446_744_073_709_551_614) };
}

// Moves the handles of the first extents into the room, and leaves an extent without a block under each of their numbers.
#[tactic(auto, using(crate::proofs::GivenUpLemmas::front_at, crate::proofs::GivenUpLemmas::front_length, crate::proofs::GivenUpLemmas::front_more, crate::proofs::GivenUpLemmas::filled_more, crate::proofs::GivenUpLemmas::filled_next))]
fn empty_front(handles: &mut Vec<Handle>, count: usize, room: &mut HandleRoom, alloc: Global)
    requires there { count ≤ length handles.old.items }
    requires room { length (with_blocks (take count handles.old.items)) ≤ room.old.room }
    ensures left { handles.new.items ≡ without_front count handles.old.items }
    ensures given { room.new.extents ≡ room.old.extents ++ with_blocks (take count handles.old.items) }
    ensures room { room.new.room + length (with_blocks (take count handles.old.items)) ≡ room.old.room }
{
    for i in 0..count {
        let none = Handle::new(Sealed::none(alloc));
        let handle = mem::replace(&mut handles[i], none);
        room.keep(handle);
    }
}

// Moves the handles of the first extents into the room. The handles after them move to the front.
fn take_front(handles: &mut Vec<Handle>, count: usize, room: &mut HandleRoom, alloc: Global)
    requires there { count ≤ length handles.old.items }
    requires room { length (with_blocks (take count handles.old.items)) ≤ room.old.room }
    ensures left { handles.new.items ≡ drop count handles.old.items }
    ensures given { room.new.extents ≡ room.old.extents ++ with_blocks (take count handles.old.items) }
    ensures room { room.new.room + length (with_blocks (take count handles.old.items)) ≡ room.old.room }
{
    let left = handles.len() - count;
    empty_front(handles, count, room, alloc);
    handles.rotate_left(count);
    handles.truncate(left);
}

// How many of the extents have a block.
#[tactic(auto, using(crate::proofs::GivenUpLemmas::filled_count))]
fn count_filled(handles: &[Handle]) -> usize
    ensures { result ≡ length (with_blocks handles.now) }
{
    let mut count = 0;
    for handle in handles {
        if handle.extent().commit_len() > 0 {
            count += 1;
        }
    }
    count
}

impl SealedExtents {
    ghost use Rattle.std.specs.Prelude.{◌≡◌, ◌↔◌, ◌≤◌, ◌<◌, ◌+◌, ◌++◌, ◌∷◌, [], Err, None, Some, IfOk, MatchOption, OnErr, OnOk, length, map, take};
    ghost use Rattle.std.specs.List.{slice_get};
    ghost use Rattle.extent_seal.specs.Counting.{Grows, all_faults};
    ghost use Rattle.extent_seal.specs.Extents.{Closed};
    ghost use Rattle.stream_manager.specs.Extents.{closed_blocks};
    ghost use Rattle.stream_manager.specs.GivenUp.{with_blocks, without, without_front};
    ghost use Rattle.stream_manager.specs.Repairs.{CountsRepair, IsUnheardFault, with_copy_at};
    ghost use Rattle.stream_manager.specs.declared.faults.RepairFault.TheVariants.{NoSuchExtent, Unreachable};

    /// No extent. Takes no memory.
    pub fn new(alloc: Global) -> Self
        ensures { result.extents ≡ [] }
    {
        Self {
            first: 0,
            none: Sealed::none(alloc),
            handles: Vec::new(alloc),
        }
    }

    /// How many extents there are, with those that were given up.
    #[tactic(auto, using(crate::proofs::GivenUpLemmas::numbered_length))]
    pub fn len(&self) -> usize
        ensures value { result ≡ length self.now.extents }
        ensures limit { result < 18_446_744_073_709_551_615 }
    {
        self.first + self.handles.len()
    }

    /// How many extents have a block.
    #[tactic(auto, using(crate::proofs::GivenUpLemmas::filled_held))]
    pub fn filled(&self) -> usize
        ensures { result ≡ length (with_blocks self.now.extents) }
    {
        count_filled(&self.handles)
    }

    /// Lends the extent under a number, if there is one. An extent that was given up has no block.
    #[tactic(auto, using(crate::proofs::GivenUpLemmas::at_given, crate::proofs::GivenUpLemmas::at_held))]
    pub fn get(&self, extent: usize) -> Option<&Sealed>
        ensures { MatchOption result (slice_get self.now.extents extent ≡ None) (λ s. slice_get self.now.extents extent ≡ Some s.now) }
    {
        if extent < self.first {
            return Some(&self.none);
        }
        match self.handles.get(extent - self.first) {
            Some(handle) => Some(handle.extent()),
            None => None,
        }
    }

    /// Makes room for so many more extents.
    ///
    /// `AllocError`: memory ran out, or no numbers are left. The extents are as they were.
    pub fn reserve(&mut self, more: usize) -> Result<(), AllocError>
        ensures same { self.new.extents ≡ self.old.extents }
        ensures room { OnOk result (more ≤ self.new.room) }
    {
        let numbers = 18_446_744_073_709_551_614 - (self.first + self.handles.len());
        if numbers < more {
            return Err(AllocError);
        }
        self.handles.reserve(more)?;
        Ok(())
    }

    /// Adds an extent after all others. Takes no memory.
    #[tactic(auto, using(crate::proofs::GivenUpLemmas::numbered_more, crate::proofs::GivenUpLemmas::numbered_length))]
    pub fn push_reserved(&mut self, sealed: Sealed)
        requires { 0 < self.old.room }
        ensures extents { self.new.extents ≡ self.old.extents ++ sealed ∷ [] }
        ensures room { self.new.room + 1 ≡ self.old.room }
    {
        self.handles.push_reserved(Handle::new(sealed));
    }

    /// Takes the blocks of an extent. The extent keeps its number. Takes no memory.
    #[tactic(auto, using(crate::proofs::GivenUpLemmas::at_given, crate::proofs::GivenUpLemmas::at_held, crate::proofs::GivenUpLemmas::set_given, crate::proofs::GivenUpLemmas::set_held, crate::proofs::GivenUpLemmas::set_first, crate::proofs::GivenUpLemmas::numbered_length))]
    pub fn give_up(&mut self, extent: usize, alloc: Global) -> Handle
        requires { extent < length self.old.extents }
        ensures given { slice_get self.old.extents extent ≡ Some result }
        ensures left { self.new.extents ≡ without extent self.old.extents }
    {
        if extent < self.first {
            return Handle::new(Sealed::none(alloc));
        }
        if extent == self.first {
            self.first += 1;
            return self.handles.remove(0);
        }
        let none = Handle::new(Sealed::none(alloc));
        mem::replace(&mut self.handles[extent - self.first], none)
    }

    /// Takes the blocks of the first extents, and moves a handle of each extent that had a block into the room. The extents keep their
    /// numbers. Takes no memory.
    #[tactic(auto, using(crate::proofs::GivenUpLemmas::front_given, crate::proofs::GivenUpLemmas::front_held, crate::proofs::GivenUpLemmas::filled_front_given, crate::proofs::GivenUpLemmas::filled_front, crate::proofs::GivenUpLemmas::numbered_length))]
    pub fn give_up_front(&mut self, count: usize, room: &mut HandleRoom, alloc: Global)
        requires there { count ≤ length self.old.extents }
        requires room { length (with_blocks (take count self.old.extents)) ≤ room.old.room }
        ensures left { self.new.extents ≡ without_front count self.old.extents }
        ensures given { room.new.extents ≡ room.old.extents ++ with_blocks (take count self.old.extents) }
        ensures room { room.new.room + length (with_blocks (take count self.old.extents)) ≡ room.old.room }
    {
        if count <= self.first {
            return;
        }
        take_front(&mut self.handles, count - self.first, room, alloc);
        self.first = count;
    }

    /// One more handle of an extent.
    #[tactic(auto, using(crate::proofs::GivenUpLemmas::at_given, crate::proofs::GivenUpLemmas::at_held, crate::proofs::GivenUpLemmas::numbered_length))]
    pub fn share_at(&mut self, extent: usize, alloc: Global) -> Result<Handle, AllocError>
        requires { extent < length self.old.extents }
        ensures same { self.new.extents ≡ self.old.extents }
        ensures shared { IfOk result (λ h. slice_get self.old.extents extent ≡ Some h) }
    {
        if extent < self.first {
            return Ok(Handle::new(Sealed::none(alloc)));
        }
        share_at(&mut self.handles, extent - self.first, alloc)
    }

    /// The same extents, each of them shared.
    pub fn share(&mut self, alloc: Global) -> Result<Self, AllocError>
        ensures same { self.new.extents ≡ self.old.extents }
        ensures shared { IfOk result (λ s. s.extents ≡ self.old.extents) }
    {
        let handles = share_all(&mut self.handles, alloc)?;
        Ok(Self {
            first: self.first,
            none: Sealed::none(alloc),
            handles,
        })
    }

    /// Gives the node a copy of an extent, if there is an extent under this number and the node has no copy. Of an extent that was given up
    /// each node has a copy.
    #[tactic(auto, using(crate::proofs::GivenUpLemmas::copied_given, crate::proofs::GivenUpLemmas::copied_held, crate::proofs::GivenUpLemmas::blocks_numbered, crate::proofs::GivenUpLemmas::at_held, crate::proofs::GivenUpLemmas::counts_given, crate::proofs::GivenUpLemmas::numbered_length))]
    pub fn repair<W: Wire>(
        &mut self,
        extent: u64,
        node: Node,
        alloc: Global,
        wire: &mut W,
    ) -> Result<(), RepairFault>
        ensures refused { (result ≡ Err NoSuchExtent) ↔ (length self.old.extents ≤ extent) }
        ensures repaired { OnOk result (self.new.extents ≡ with_copy_at node extent self.old.extents) }
        ensures same { OnErr result (self.new.extents ≡ self.old.extents) }
        ensures blocks { map closed_blocks self.new.extents ≡ map closed_blocks self.old.extents }
        ensures counted { (e : Closed) → slice_get self.old.extents extent ≡ Some e → CountsRepair result node e (W.calls wire.old) (W.calls wire.new) (W.faults wire.old) (W.faults wire.new) }
        ensures faulty { result ≡ Err Unreachable → all_faults (W.faults wire.old) < all_faults (W.faults wire.new) }
        ensures unheard { IsUnheardFault result → wire.new ≡ wire.old }
        ensures grown { Grows (W.faults wire.old) (W.faults wire.new) }
    {
        let first = self.first as u64;
        if extent < first {
            return Ok(());
        }
        repair_at(&mut self.handles, extent - first, node, alloc, wire)
    }
}
