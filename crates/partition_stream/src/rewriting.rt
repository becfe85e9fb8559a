//! The row of a blob whose content is put again, at the end of the data that has it. No byte is copied: a block that is read is put as a
//! later block of the same data (SOSP 2011, section 5.3, checkpoints).
ghost use Rattle.std.specs.Prelude.{◌≡◌, All, IfOk, IfSome, length};
ghost use Rattle.stamp_types.specs.Contents.{EachActContent, EachCommittedContent};
ghost use Rattle.stamp_types.specs.declared.act.Act.TheVariants as act;
ghost use Rattle.stream_manager.specs.Places.{GoesOn};
ghost use Rattle.stream_manager.specs.Streams.{laid};
ghost use Rattle.partition_stream.specs.Compactions.{AreMoved, AreMovedBlocks, AreMovedUncommitted, IsMovedBlock, IsMovedCommitted, IsMovedPart, IsMovedRow, IsMovedUncommitted};
ghost use Rattle.partition_stream.specs.Contents.{AreStored};
ghost use Rattle.partition_stream.specs.Counting.{FailsCompaction};
ghost use Rattle.partition_stream.specs.Heard.{HearsCompaction};
ghost use Rattle.partition_stream.specs.Sweeping.{AreFrom};

use crate::faults::CompactionFault;
use crate::moving::{put_read, read_content};
use crate::streams::Streams;
use extent_node::Wire;
use stamp_types::{
    Act, Block, Change, Committed, Key, Metadata, Pieces, Props, StoredBlob, UncommittedBlock,
};
use stamp_values::Items;
use std::alloc::{AllocError, Global};
use stream_manager::Stream;

// Puts content that is in the data again, and answers the pieces that say where it is now.
#[tactic(auto, using(crate::proofs::MoveLemmas::held_read, crate::proofs::MoveLemmas::moved_content, stream_manager::proofs::RunLemmas::stays_on, extent_seal::proofs::HeardLemmas::heard_then, crate::proofs::HeardLemmas::compaction_later))]
fn put_content_again<W: Wire>(
    alloc: Global,
    blobs: &mut Stream,
    content: &Pieces,
    wire: &mut W,
) -> Result<Pieces, CompactionFault>
    requires { AreStored (laid blobs.old) content.now }
    ensures moved { IfOk result (λ ps. AreMoved (laid blobs.old) content.now (laid blobs.new) ps) }
    ensures after { IfOk result (λ ps. AreFrom (length blobs.old.sealed) ps) }
    ensures follows { GoesOn (laid blobs.old) (laid blobs.new) }
    ensures limit { blobs.new.limit ≡ blobs.old.limit }
    ensures counted { FailsCompaction result (W.faults wire.old) (W.faults wire.new) }
    ensures heard { HearsCompaction result (W.calls wire.old) (W.calls wire.new) (W.faults wire.old) (W.faults wire.new) }
{
    let read = read_content(alloc, blobs, content, wire)?;
    let placed = put_read(alloc, blobs, &read, wire)?;
    Ok(placed)
}

// Puts the content of a block again.
#[tactic(auto, using(stream_manager::proofs::RunLemmas::stays_on, extent_seal::proofs::HeardLemmas::heard_none))]
fn put_block_again<W: Wire>(
    alloc: Global,
    blobs: &mut Stream,
    block: &Block<Pieces>,
    wire: &mut W,
) -> Result<Block<Pieces>, CompactionFault>
    requires { AreStored (laid blobs.old) block.now.content }
    ensures moved { IfOk result (λ b. IsMovedBlock (laid blobs.old) block.now (laid blobs.new) b) }
    ensures after { IfOk result (λ b. AreFrom (length blobs.old.sealed) b.content) }
    ensures follows { GoesOn (laid blobs.old) (laid blobs.new) }
    ensures limit { blobs.new.limit ≡ blobs.old.limit }
    ensures counted { FailsCompaction result (W.faults wire.old) (W.faults wire.new) }
    ensures heard { HearsCompaction result (W.calls wire.old) (W.calls wire.new) (W.faults wire.old) (W.faults wire.new) }
{
    let id = block.id.clone()?;
    let content = put_content_again(alloc, blobs, &block.content, wire)?;
    Ok(Block { id, content })
}

// Puts the content of blocks again, one block after the other.
#[tactic(auto, using(stream_manager::proofs::RunLemmas::stays_on, extent_seal::proofs::HeardLemmas::heard_none))]
fn put_blocks_again<W: Wire>(
    alloc: Global,
    blobs: &mut Stream,
    blocks: &[Block<Pieces>],
    wire: &mut W,
) -> Result<Vec<Block<Pieces>>, CompactionFault>
    requires { All (λ b. AreStored (laid blobs.old) b.content) blocks.now }
    ensures moved { IfOk result (λ bs. AreMovedBlocks (laid blobs.old) blocks.now (laid blobs.new) bs.items) }
    ensures after { IfOk result (λ bs. All (λ b. AreFrom (length blobs.old.sealed) b.content) bs.items) }
    ensures follows { GoesOn (laid blobs.old) (laid blobs.new) }
    ensures limit { blobs.new.limit ≡ blobs.old.limit }
    ensures counted { FailsCompaction result (W.faults wire.old) (W.faults wire.new) }
    ensures heard { HearsCompaction result (W.calls wire.old) (W.calls wire.new) (W.faults wire.old) (W.faults wire.new) }
{
    let mut moved = Vec::with_capacity(alloc, blocks.len())?;
    for block in blocks {
        let at = put_block_again(alloc, blobs, block, wire)?;
        moved.push(at)?;
    }
    Ok(moved)
}

// Puts the content of an uncommitted block again.
#[tactic(auto, using(stream_manager::proofs::RunLemmas::stays_on, extent_seal::proofs::HeardLemmas::heard_none))]
fn put_uncommitted_block_again<W: Wire>(
    alloc: Global,
    blobs: &mut Stream,
    block: &UncommittedBlock,
    wire: &mut W,
) -> Result<UncommittedBlock, CompactionFault>
    requires { AreStored (laid blobs.old) block.now.content }
    ensures moved { IfOk result (λ b. IsMovedUncommitted (laid blobs.old) block.now (laid blobs.new) b) }
    ensures after { IfOk result (λ b. AreFrom (length blobs.old.sealed) b.content) }
    ensures follows { GoesOn (laid blobs.old) (laid blobs.new) }
    ensures limit { blobs.new.limit ≡ blobs.old.limit }
    ensures counted { FailsCompaction result (W.faults wire.old) (W.faults wire.new) }
    ensures heard { HearsCompaction result (W.calls wire.old) (W.calls wire.new) (W.faults wire.old) (W.faults wire.new) }
{
    let id = block.id.clone()?;
    let content = put_content_again(alloc, blobs, &block.content, wire)?;
    Ok(UncommittedBlock { id, content })
}

// Puts the content of uncommitted blocks again, one block after the other.
#[tactic(auto, using(stream_manager::proofs::RunLemmas::stays_on, extent_seal::proofs::HeardLemmas::heard_none))]
fn put_uncommitted_again<W: Wire>(
    alloc: Global,
    blobs: &mut Stream,
    blocks: &[UncommittedBlock],
    wire: &mut W,
) -> Result<Vec<UncommittedBlock>, CompactionFault>
    requires { All (λ u. AreStored (laid blobs.old) u.content) blocks.now }
    ensures moved { IfOk result (λ us. AreMovedUncommitted (laid blobs.old) blocks.now (laid blobs.new) us.items) }
    ensures after { IfOk result (λ us. All (λ u. AreFrom (length blobs.old.sealed) u.content) us.items) }
    ensures follows { GoesOn (laid blobs.old) (laid blobs.new) }
    ensures limit { blobs.new.limit ≡ blobs.old.limit }
    ensures counted { FailsCompaction result (W.faults wire.old) (W.faults wire.new) }
    ensures heard { HearsCompaction result (W.calls wire.old) (W.calls wire.new) (W.faults wire.old) (W.faults wire.new) }
{
    let mut moved = Vec::with_capacity(alloc, blocks.len())?;
    for block in blocks {
        let at = put_uncommitted_block_again(alloc, blobs, block, wire)?;
        moved.push(at)?;
    }
    Ok(moved)
}

// A committed part without its blocks.
fn beside_blocks(committed: &Committed<Pieces>) -> Result<(Props, Metadata), AllocError>
    ensures props { IfOk result (λ copies. copies.0 ≡ committed.now.props) }
    ensures metadata { IfOk result (λ copies. copies.1 ≡ committed.now.metadata) }
{
    let props = committed.props.clone()?;
    match committed.metadata.clone() {
        Ok(metadata) => Ok((props, metadata)),
        Err(fault) => {
            drop(props);
            Err(fault)
        }
    }
}

// The same committed part with these blocks.
fn with_blocks(
    committed: &Committed<Pieces>,
    blocks: Vec<Block<Pieces>>,
) -> Result<Committed<Pieces>, AllocError>
    ensures { IfOk result (λ c. c ≡ record { etag = committed.now.etag; made = committed.now.made; props = committed.now.props; metadata = committed.now.metadata; blocks = blocks.items }) }
{
    match beside_blocks(committed) {
        Ok((props, metadata)) => Ok(Committed {
            etag: committed.etag,
            made: committed.made,
            props,
            metadata,
            blocks: Items::new(blocks),
        }),
        Err(fault) => {
            drop(blocks);
            Err(fault)
        }
    }
}

// Puts the content of a committed part again.
fn put_committed_again<W: Wire>(
    alloc: Global,
    blobs: &mut Stream,
    committed: &Committed<Pieces>,
    wire: &mut W,
) -> Result<Committed<Pieces>, CompactionFault>
    requires { EachCommittedContent (AreStored (laid blobs.old)) committed.now }
    ensures moved { IfOk result (λ c. IsMovedCommitted (laid blobs.old) committed.now (laid blobs.new) c) }
    ensures after { IfOk result (λ c. EachCommittedContent (AreFrom (length blobs.old.sealed)) c) }
    ensures follows { GoesOn (laid blobs.old) (laid blobs.new) }
    ensures limit { blobs.new.limit ≡ blobs.old.limit }
    ensures counted { FailsCompaction result (W.faults wire.old) (W.faults wire.new) }
    ensures heard { HearsCompaction result (W.calls wire.old) (W.calls wire.new) (W.faults wire.old) (W.faults wire.new) }
{
    let blocks = put_blocks_again(alloc, blobs, committed.blocks.as_slice(), wire)?;
    let moved = with_blocks(committed, blocks)?;
    Ok(moved)
}

// Puts the content of a committed part again, if there is a committed part.
#[tactic(auto, using(stream_manager::proofs::RunLemmas::stays_on, extent_seal::proofs::HeardLemmas::heard_none))]
fn put_part_again<W: Wire>(
    alloc: Global,
    blobs: &mut Stream,
    part: &Option<Committed<Pieces>>,
    wire: &mut W,
) -> Result<Option<Committed<Pieces>>, CompactionFault>
    requires { IfSome part.now (EachCommittedContent (AreStored (laid blobs.old))) }
    ensures moved { IfOk result (λ p. IsMovedPart (laid blobs.old) part.now (laid blobs.new) p) }
    ensures after { IfOk result (λ p. IfSome p (EachCommittedContent (AreFrom (length blobs.old.sealed)))) }
    ensures follows { GoesOn (laid blobs.old) (laid blobs.new) }
    ensures limit { blobs.new.limit ≡ blobs.old.limit }
    ensures counted { FailsCompaction result (W.faults wire.old) (W.faults wire.new) }
    ensures heard { HearsCompaction result (W.calls wire.old) (W.calls wire.new) (W.faults wire.old) (W.faults wire.new) }
{
    match part {
        None => Ok(None),
        Some(committed) => {
            let moved = put_committed_again(alloc, blobs, committed, wire)?;
            Ok(Some(moved))
        }
    }
}

// Puts the content of the row of a blob again.
#[tactic(auto, using(stream_manager::proofs::RunLemmas::stays_on, crate::proofs::DataLemmas::twice_on, extent_seal::proofs::HeardLemmas::heard_none, extent_seal::proofs::HeardLemmas::heard_then, crate::proofs::HeardLemmas::compaction_later))]
fn put_stored_again<W: Wire>(
    alloc: Global,
    blobs: &mut Stream,
    row: &StoredBlob,
    wire: &mut W,
) -> Result<StoredBlob, CompactionFault>
    requires { EachActContent (AreStored (laid blobs.old)) (act.StoredBlob row.now) }
    ensures moved { IfOk result (λ r. IsMovedRow (laid blobs.old) row.now (laid blobs.new) r) }
    ensures after { IfOk result (λ r. EachActContent (AreFrom (length blobs.old.sealed)) (act.StoredBlob r)) }
    ensures follows { GoesOn (laid blobs.old) (laid blobs.new) }
    ensures limit { blobs.new.limit ≡ blobs.old.limit }
    ensures counted { FailsCompaction result (W.faults wire.old) (W.faults wire.new) }
    ensures heard { HearsCompaction result (W.calls wire.old) (W.calls wire.new) (W.faults wire.old) (W.faults wire.new) }
{
    let blob = row.blob.clone()?;
    let committed = put_part_again(alloc, blobs, &row.committed, wire)?;
    let uncommitted = put_uncommitted_again(alloc, blobs, row.uncommitted.as_slice(), wire)?;
    Ok(StoredBlob {
        blob,
        committed,
        uncommitted: Items::new(uncommitted),
    })
}

impl Streams {
    ghost use Rattle.std.specs.Prelude.{◌≡◌, IfOk, IsTrue, length};
    ghost use Rattle.stamp_types.specs.Changes.{is_change};
    ghost use Rattle.stamp_types.specs.Contents.{EachActContent};
    ghost use Rattle.stamp_types.specs.declared.act.Act.TheVariants as act;
    ghost use Rattle.stream_manager.specs.Places.{GoesOn, KeepsPlaces};
    ghost use Rattle.stream_manager.specs.Streams.{laid};
    ghost use Rattle.partition_stream.specs.Compactions.{IsMovedChange};
    ghost use Rattle.partition_stream.specs.Contents.{AreStored};
    ghost use Rattle.partition_stream.specs.Counting.{FailsCompaction};
    ghost use Rattle.partition_stream.specs.Heard.{HearsCompaction};
    ghost use Rattle.partition_stream.specs.Sweeping.{AreFrom};

    /// Puts each content of the row of a blob again, at the end of the data, and answers the change that is the same row with the new
    /// places. Its bytes are the same, and no byte is copied. The caller logs the change.
    ///
    /// After a fault blocks may be left in the data to which nothing refers. Busy: a block was tried twice, or no node answered a seal.
    /// Unreachable: no node with a copy of some content answered. NoMemory: memory ran out; it may come after some calls of nodes.
    #[tactic(auto, using(crate::proofs::MovedRowLemmas::moved_good, stream_manager::proofs::RunLemmas::stays_on, extent_seal::proofs::HeardLemmas::heard_none))]
    pub fn put_row_again<W: Wire>(
        &mut self,
        key: &Key,
        row: &StoredBlob,
        wire: &mut W,
    ) -> Result<Change, CompactionFault>
        requires good { IsTrue (is_change (record { key = key.now; act = act.StoredBlob row.now })) }
        requires stored { EachActContent (AreStored (laid self.old.blobs)) (act.StoredBlob row.now) }
        ensures moved { IfOk result (λ c. IsMovedChange (laid self.old.blobs) (record { key = key.now; act = act.StoredBlob row.now }) (laid self.new.blobs) c) }
        ensures after { IfOk result (λ c. EachActContent (AreFrom (length self.old.blobs.sealed)) c.act) }
        ensures kept { KeepsPlaces (laid self.old.blobs) (laid self.new.blobs) }
        ensures follows { GoesOn (laid self.old.blobs) (laid self.new.blobs) }
        ensures log { self.new.log ≡ self.old.log }
        ensures rows { self.new.rows ≡ self.old.rows }
        ensures limit { self.new.blobs.limit ≡ self.old.blobs.limit }
        ensures counted { FailsCompaction result (W.faults wire.old) (W.faults wire.new) }
        ensures heard { HearsCompaction result (W.calls wire.old) (W.calls wire.new) (W.faults wire.old) (W.faults wire.new) }
    {
        let key = key.clone()?;
        let moved = put_stored_again(self.alloc, &mut self.blobs, row, wire)?;
        Ok(Change::fitting(key, Act::StoredBlob(moved)))
    }
}
