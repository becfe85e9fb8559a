//! Handles of sealed extents, which streams may share.
ghost use Rattle.std.specs.Prelude.{◌≡◌, ◌<◌, Some, IfOk, length};
ghost use Rattle.std.specs.List.{slice_get};

use extent_node::{Node, Wire};
use extent_seal::{ReadFault, Sealed};
use stamp_values::Share;
use std::alloc::{AllocError, Global};
use std::marker::Model;
use std::mem;
use std::sync::Arc;

// A sealed extent that one stream has, or that streams share. It gets its count of owners when it is first shared, since a seal takes no memory.
#[derive(Drop)]
enum Held {
    Own(Sealed),
    Shared(Arc<Sealed>),
    // Only while the extent of a handle is moved from one variant to the other.
    Moved,
}

/// A sealed extent. Streams, and others that read it, share it without a copy once it was shared.
///
/// Its blocks stay in memory as long as there is a handle of it.
#[derive(Drop)]
pub struct Handle {
    held: Held,
}

impl Model for Handle {
    ghost use Rattle.std.specs.Prelude.{◌≡◌, false};
    ghost use Rattle.extent_seal.specs.Extents.{Closed};
    ghost use Rattle.stream_manager.specs.Handles.{closed_of, is_moved};

    ghost Value = { Closed };

    ghost view = { λ h. closed_of h.held };

    ghost invariant = { λ h. is_moved h.held ≡ false };
}

impl Handle {
    ghost use Rattle.std.specs.Prelude.{◌≡◌, ◌≢◌, ◌<◌, true, false, Some, Err, IfOk, OnOk, OnErr, length};
    ghost use Rattle.std.specs.List.{slice_get};
    ghost use Rattle.extent_seal.specs.Counting.{AsksCopies, AsksNoOther, FailsCopies, Grows, SomeAnswers, all_faults};
    ghost use Rattle.extent_seal.specs.Extents.{answer_of};
    ghost use Rattle.extent_seal.specs.Heard.{AsksAreHeard};
    ghost use Rattle.extent_seal.specs.Repairs.{Copies, FailsToCopy, FirstAnswers, with_copy};
    ghost use Rattle.extent_seal.specs.declared.sealed.ReadFault.TheVariants.{NoMemory, Unreachable};

    /// A handle of an extent that one stream has. Takes no memory.
    pub(crate) fn new(sealed: Sealed) -> Self
        ensures { result ≡ sealed }
    {
        Self {
            held: Held::Own(sealed),
        }
    }

    /// Lends the extent.
    pub(crate) fn extent(&self) -> &Sealed
        ensures { result.now ≡ self.now }
    {
        match &self.held {
            Held::Own(sealed) => sealed,
            Held::Shared(sealed) => &**sealed,
            Held::Moved => unreachable!("a handle is moved only inside of `share`"),
        }
    }

    /// The block at an index of the extent. No byte is copied.
    ///
    /// The nodes that have a copy of the extent are asked in the order 0, 1, 2 until one of them answers yes. Unreachable: every node
    /// with a copy was asked once and answered no. NoMemory: a node answered, and the block can have no further owner.
    pub fn read<W: Wire>(&self, index: usize, wire: &mut W) -> Result<Share, ReadFault>
        requires { index < length self.now.blocks }
        ensures read { IfOk result (λ b. slice_get self.now.blocks index ≡ Some b) }
        ensures called { result ≡ Err Unreachable → AsksCopies self.now.kept (W.calls wire.old) (W.calls wire.new) }
        ensures unreachable { result ≡ Err Unreachable → FailsCopies self.now.kept (W.faults wire.old) (W.faults wire.new) }
        ensures faulty { result ≡ Err Unreachable → all_faults (W.faults wire.old) < all_faults (W.faults wire.new) }
        ensures answered { result ≢ Err Unreachable → SomeAnswers self.now.kept (W.calls wire.old) (W.calls wire.new) (W.faults wire.old) (W.faults wire.new) }
        ensures first { result ≢ Err Unreachable → FirstAnswers self.now.kept (W.calls wire.old).asks (W.calls wire.new).asks (W.faults wire.old).asks (W.faults wire.new).asks }
        ensures heard { result ≢ Err Unreachable → AsksAreHeard (W.calls wire.old) (W.calls wire.new) (W.faults wire.old) (W.faults wire.new) }
        ensures discarded { AsksNoOther self.now.kept (W.calls wire.old) (W.calls wire.new) }
        ensures grown { Grows (W.faults wire.old) (W.faults wire.new) }
    {
        self.extent().read(index, wire)
    }

    /// Gives the node a copy of the whole extent, if it has no copy. No byte is copied.
    ///
    /// An extent that is shared is repaired for this handle: the handle gets lists of blocks of its own, and the other handles stay as
    /// they are. After a fault the handle is as it was.
    pub(crate) fn repair<W: Wire>(
        &mut self,
        node: Node,
        alloc: Global,
        wire: &mut W,
    ) -> Result<(), ReadFault>
        ensures repaired { OnOk result (self.new ≡ with_copy node self.old) }
        ensures same { OnErr result (self.new ≡ self.old) }
        ensures lacking { OnErr result (answer_of self.old.kept node ≡ false) }
        ensures unused { answer_of self.old.kept node ≡ true → wire.new ≡ wire.old }
        ensures copied { OnOk result (answer_of self.old.kept node ≡ false → Copies node self.old (W.calls wire.old) (W.calls wire.new) (W.faults wire.old) (W.faults wire.new)) }
        ensures unreachable { result ≡ Err Unreachable → FailsToCopy node self.old (W.calls wire.old) (W.calls wire.new) (W.faults wire.old) (W.faults wire.new) }
        ensures faulty { result ≡ Err Unreachable → all_faults (W.faults wire.old) < all_faults (W.faults wire.new) }
        ensures unheard { result ≡ Err NoMemory → wire.new ≡ wire.old }
        ensures grown { Grows (W.faults wire.old) (W.faults wire.new) }
    {
        let shared = match &mut self.held {
            Held::Own(sealed) => return sealed.repair(node, alloc, wire),
            Held::Shared(shared) => shared,
            Held::Moved => unreachable!("a handle is moved only inside of `share`"),
        };
        if shared.replica(node).is_some() {
            return Ok(());
        }
        let mut own = shared.copy(alloc)?;
        own.repair(node, alloc, wire)?;
        self.held = Held::Own(own);
        Ok(())
    }

    /// One more handle of the same extent. No block and no list of blocks is copied.
    pub(crate) fn share(&mut self, alloc: Global) -> Result<Self, AllocError>
        ensures same { self.new ≡ self.old }
        ensures shared { IfOk result (λ h. h ≡ self.old) }
    {
        let shared = match mem::replace(&mut self.held, Held::Moved) {
            Held::Moved => unreachable!("a handle is moved only inside of `share`"),
            Held::Shared(shared) => shared,
            Held::Own(sealed) => match Arc::new(alloc, sealed) {
                Ok(shared) => shared,
                Err(refused) => {
                    self.held = Held::Own(refused.value);
                    return Err(AllocError);
                }
            },
        };
        let other = Arc::try_clone(&shared);
        self.held = Held::Shared(shared);
        Ok(Self {
            held: Held::Shared(other?),
        })
    }
}

/// One more handle of each extent.
pub(crate) fn share_all(handles: &mut Vec<Handle>, alloc: Global) -> Result<Vec<Handle>, AllocError>
    ensures same { handles.new.items ≡ handles.old.items }
    ensures shared { IfOk result (λ s. s.items ≡ handles.old.items) }
{
    let count = handles.len();
    let mut shared = Vec::with_capacity(alloc, count)?;
    for i in 0..count {
        shared.push(handles[i].share(alloc)?)?;
    }
    Ok(shared)
}

/// One more handle of one of the extents.
pub(crate) fn share_at(
    handles: &mut Vec<Handle>,
    at: usize,
    alloc: Global,
) -> Result<Handle, AllocError>
    requires { at < length handles.old.items }
    ensures same { handles.new.items ≡ handles.old.items }
    ensures shared { IfOk result (λ h. slice_get handles.old.items at ≡ Some h) }
{
    handles[at].share(alloc)
}
