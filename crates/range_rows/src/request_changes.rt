//! What writing requests do.
ghost use Rattle.std.specs.Prelude.{◌≡◌, ◌≤◌, IfOk, IsTrue, None, Some, length, nat_le};
ghost use Rattle.stamp_values.specs.Limits.{entries_limit, put_blob_limit, put_block_limit};
ghost use Rattle.stamp_types.specs.PropsFields.{is_kept, kept_fields};
ghost use Rattle.block_blobs.specs.BlockLists.{found_entries};
ghost use Rattle.stamp_values.specs.Operations.{writes};
ghost use Rattle.stamp_types.specs.Changes.{is_act, is_in_one_piece};
ghost use Rattle.row_trees.specs.FoundParts.{sizes_found};
ghost use Rattle.range_rows.specs.Judgements.{IsAllowed};
ghost use Rattle.range_rows.specs.NamedBlobs.{target_blob};
ghost use Rattle.range_rows.specs.Readings.{listed_in, policies_in, reading_of, wanted_blocks};
ghost use Rattle.range_rows.specs.RequestChanges as changes;

use crate::judged::Allowed;
use crate::reading::Reading;
use block_blobs::entries_from;
use stamp_types::{
    Acl, Act, BlockId, Change, CreateContainer, DeleteBlob, Items, Kept, Level, Moment, Op, Pieces,
    Policies, Props, PutBlob, PutBlock, PutBlockList, Request, SetAcl, SetContainerMetadata,
    SetMetadata, Taken, Text, Wanted,
};
use std::alloc::{AllocError, Global};

fn copy_of(kept: &Kept) -> Result<Kept, AllocError>
    ensures { IfOk result (λ copy. copy ≡ kept.now) }
{
    Ok(Kept {
        content_type: kept.content_type.clone()?,
        encoding: kept.encoding.clone()?,
        language: kept.language.clone()?,
        cache_control: kept.cache_control.clone()?,
        md5: kept.md5,
    })
}

// What is kept of the headers that a Put Blob asks to be kept.
fn props_of(alloc: Global, request: &Request, kept: &Kept) -> Result<Props, AllocError>
    requires { IsTrue (is_kept kept.now) }
    ensures { IfOk result (λ props. props ≡ changes.put_props request.now kept.now) }
{
    let props = Props::new(alloc, copy_of(kept)?, Some(request.body().sum()))?;
    Ok(props)
}

// What a Put Blob of this name does. The body is shared, and not copied.
fn put_blob(
    alloc: Global,
    request: &Request,
    moment: Moment,
    blob: &Text,
    kept: &Kept,
) -> Result<PutBlob, AllocError>
    requires kept { IsTrue (is_kept kept.now) }
    requires body { length request.now.body ≤ put_blob_limit }
    ensures { IfOk result (λ put. put ≡ changes.put_blob request.now moment blob.now kept.now) }
{
    let content = Pieces::cut(alloc, request.body().as_share())?;
    let metadata = request.ask().args.metadata.clone()?;
    let blob = blob.clone()?;
    let props = props_of(alloc, request, kept)?;
    Ok(PutBlob {
        blob,
        moment,
        props,
        metadata,
        content,
    })
}

// What a Create Container does.
fn create_container(request: &Request, moment: Moment) -> Result<CreateContainer, AllocError>
    ensures { IfOk result (λ create. create ≡ changes.create_container request.now moment) }
{
    let args = &request.ask().args;
    Ok(CreateContainer {
        moment,
        level: args.level.unwrap_or(Level::Closed),
        metadata: args.metadata.clone()?,
    })
}

// What a Set Container Metadata does.
fn set_container_metadata(
    request: &Request,
    moment: Moment,
) -> Result<SetContainerMetadata, AllocError>
    ensures { IfOk result (λ set. set ≡ changes.set_container_metadata request.now moment) }
{
    Ok(SetContainerMetadata {
        moment,
        metadata: request.ask().args.metadata.clone()?,
    })
}

// The policies that the body says: no policies if it says none.
fn policies_in(alloc: Global, reading: Reading) -> Policies
    ensures { result ≡ policies_in reading }
{
    match reading {
        Reading::Policies(policies) => policies,
        _ => Policies::empty(alloc),
    }
}

// What a Set Container ACL does. The policies move from the reading.
fn set_acl(alloc: Global, request: &Request, reading: Reading, moment: Moment) -> SetAcl
    requires { reading ≡ reading_of request.now }
    ensures { result ≡ changes.set_acl request.now moment }
{
    SetAcl {
        moment,
        acl: Acl {
            level: request.ask().args.level.unwrap_or(Level::Closed),
            policies: policies_in(alloc, reading),
        },
    }
}

// What a Set Blob Metadata of this name does.
fn set_metadata(request: &Request, moment: Moment, blob: &Text) -> Result<SetMetadata, AllocError>
    ensures { IfOk result (λ set. set ≡ changes.set_metadata request.now moment blob.now) }
{
    Ok(SetMetadata {
        blob: blob.clone()?,
        moment,
        metadata: request.ask().args.metadata.clone()?,
    })
}

// What a Delete Blob of this name does.
fn delete_blob(blob: &Text) -> Result<DeleteBlob, AllocError>
    ensures { IfOk result (λ delete. delete ≡ changes.delete_blob blob.now) }
{
    Ok(DeleteBlob {
        blob: blob.clone()?,
    })
}

// What a Put Block of this name and this id does. The body is shared, and not copied.
#[tactic(auto, using(crate::proofs::PutParts::cut_in_one_piece))]
fn put_block(
    alloc: Global,
    request: &Request,
    blob: &Text,
    id: &BlockId,
) -> Result<PutBlock, AllocError>
    requires { length request.now.body ≤ put_block_limit }
    ensures value { IfOk result (λ put. put ≡ changes.put_block request.now blob.now id.now) }
    ensures piece { IfOk result (λ put. IsTrue (is_in_one_piece put.content)) }
{
    let body = request.body();
    Ok(PutBlock {
        blob: blob.clone()?,
        id: id.clone()?,
        content: Pieces::cut(alloc, body.as_share())?,
    })
}

// The blocks that the body wants: no blocks if the body is not a block list.
fn wanted_in(alloc: Global, reading: Reading) -> Items<Wanted>
    ensures { result ≡ listed_in reading }
{
    match reading {
        Reading::BlockList(wanted) => wanted,
        _ => Items::new(Vec::new(alloc)),
    }
}

// What is kept of the headers that a Put Block List asks to be kept: no MD5 is computed.
fn list_props(alloc: Global, kept: &Kept) -> Result<Props, AllocError>
    requires { IsTrue (is_kept kept.now) }
    ensures { IfOk result (λ props. props ≡ kept_fields kept.now None) }
{
    let props = Props::new(alloc, copy_of(kept)?, None)?;
    Ok(props)
}

// What a Put Block List of this name does, which takes these blocks. No content moves.
fn put_block_list(
    alloc: Global,
    request: &Request,
    moment: Moment,
    blob: &Text,
    kept: &Kept,
    entries: Items<Taken>,
) -> Result<PutBlockList, AllocError>
    requires { IsTrue (is_kept kept.now) }
    ensures { IfOk result (λ put.
        put ≡ changes.put_block_list_of entries request.now moment blob.now kept.now) }
{
    let metadata = request.ask().args.metadata.clone()?;
    let blob = blob.clone()?;
    let props = list_props(alloc, kept)?;
    Ok(PutBlockList {
        blob,
        moment,
        props,
        metadata,
        entries,
    })
}

impl<'a> Allowed<'a> {
    ghost use Rattle.row_trees.specs.Fits.{fits};
    ghost use Rattle.row_trees.specs.ListedBlocks.{AreFoundFor};

    // The entries of the block list that the request wants. The ids move from the reading.
    fn entries(
        &self,
        alloc: Global,
        request: &Request,
        reading: Reading,
    ) -> Result<Items<Taken>, AllocError>
        requires allowed { IsAllowed self.now request.now }
        requires read { reading ≡ reading_of request.now }
        ensures value { IfOk result (λ entries.
            entries ≡ found_entries (target_blob (sizes_found self.now.target.container) request.now.ask)
            (wanted_blocks request.now)) }
        ensures few { IfOk result (λ entries. IsTrue (nat_le (length entries) entries_limit)) }
    {
        entries_from(
            alloc,
            wanted_in(alloc, reading),
            self.found.sources.as_slice(),
        )
    }

    // What the request does, if it writes.
    #[tactic(auto, using(crate::proofs::PutParts::kept_fits, crate::proofs::BlockLemmas::blob_of_target))]
    fn act(
        &self,
        alloc: Global,
        request: &Request,
        reading: Reading,
        moment: Moment,
    ) -> Result<Act, AllocError>
        requires allowed { IsAllowed self.now request.now }
        requires writes { IsTrue (writes request.now.ask.op) }
        requires read { reading ≡ reading_of request.now }
        ensures value { IfOk result (λ act. changes.act_by request.now.ask.op
            (sizes_found self.now.target.container) request.now moment ≡ Some act) }
        ensures valid { IfOk result (λ act. IsTrue (is_act act)) }
    {
        let ask = request.ask();
        match (ask.op, &ask.blob, &ask.args.kept, &ask.args.block) {
            (Op::CreateContainer, _, _, _) => {
                Ok(Act::CreateContainer(create_container(request, moment)?))
            }
            (Op::SetContainerMetadata, _, _, _) => {
                let set = set_container_metadata(request, moment)?;
                Ok(Act::SetContainerMetadata(set))
            }
            (Op::SetAcl, _, _, _) => Ok(Act::SetAcl(set_acl(alloc, request, reading, moment))),
            (Op::DeleteContainer, _, _, _) => Ok(Act::DeleteContainer),
            (Op::PutBlob, Some(blob), Some(kept), _) => {
                Ok(Act::PutBlob(put_blob(alloc, request, moment, blob, kept)?))
            }
            (Op::SetMetadata, Some(blob), _, _) => {
                Ok(Act::SetMetadata(set_metadata(request, moment, blob)?))
            }
            (Op::DeleteBlob, Some(blob), _, _) => Ok(Act::DeleteBlob(delete_blob(blob)?)),
            (Op::PutBlock, Some(blob), _, Some(id)) => {
                Ok(Act::PutBlock(put_block(alloc, request, blob, id)?))
            }
            (Op::PutBlockList, Some(blob), Some(kept), _) => {
                let entries = self.entries(alloc, request, reading)?;
                let put = put_block_list(alloc, request, moment, blob, kept, entries)?;
                Ok(Act::PutBlockList(put))
            }
            _ => unreachable!("each operation that writes has these arguments"),
        }
    }

    // The change that the request makes, if it writes.
    fn change_made(
        &self,
        alloc: Global,
        request: &Request,
        reading: Reading,
        moment: Moment,
    ) -> Result<Change, AllocError>
        requires allowed { IsAllowed self.now request.now }
        requires writes { IsTrue (writes request.now.ask.op) }
        requires read { reading ≡ reading_of request.now }
        ensures { IfOk result (λ change. changes.change_of
            (sizes_found self.now.target.container) request.now moment ≡ Some change) }
    {
        let key = request.ask().key.clone()?;
        let act = self.act(alloc, request, reading, moment)?;
        Ok(Change::fitting(key, act))
    }

    /// The change that the request makes at the moment, if its operation writes. Rows make this change.
    /// The request was judged with `reading`, whose ids or policies move into the change. The ETag is
    /// given when the change is made. If the request is a Put Block List, the blocks of `found` are those
    /// that the change commits.
    ///
    /// `AllocError` if memory runs out for the change, or if the body can have no further owner.
    pub fn change(
        &self,
        alloc: Global,
        request: &Request,
        reading: Reading,
        moment: Moment,
    ) -> Result<Change, AllocError>
        requires allowed { IsAllowed self.now request.now }
        requires writes { IsTrue (writes request.now.ask.op) }
        requires read { reading ≡ reading_of request.now }
        ensures value { IfOk result (λ change. changes.change_of
            (sizes_found self.now.target.container) request.now moment ≡ Some change) }
        ensures fits { IfOk result (λ change. (change.key ≡ request.now.ask.key)
            × IsTrue (fits (sizes_found self.now.target.container) change.act)) }
        ensures found { IfOk result (λ change.
            AreFoundFor self.now.target.container change.act self.now.found.blocks) }
    {
        self.change_made(alloc, request, reading, moment)
    }
}
