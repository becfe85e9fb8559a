//! What changes of a container do.
ghost use Rattle.std.specs.Prelude.{◌≡◌};
ghost use Rattle.std.specs.Option.{option_copied};

use crate::committed::{Committed, UncommittedBlock, copy_props_and_metadata};
use crate::pieces::Pieces;
use crate::props::Props;
use crate::standing::Standing;
use stamp_values::{Acl, BlockId, Items, Level, Metadata, Moment, Taken, Text};
use std::alloc::AllocError;

#[derive(Clone, PartialEq, Eq, Drop)]
pub struct CreateContainer {
    pub moment: Moment,
    pub level: Level,
    pub metadata: Metadata,
}

#[derive(Clone, PartialEq, Eq, Drop)]
pub struct SetContainerMetadata {
    pub moment: Moment,
    pub metadata: Metadata,
}

#[derive(Clone, PartialEq, Eq, Drop)]
pub struct SetAcl {
    pub moment: Moment,
    pub acl: Acl,
}

#[derive(PartialEq, Eq, Drop)]
pub struct PutBlob {
    pub blob: Text,
    pub moment: Moment,
    pub props: Props,
    pub metadata: Metadata,
    pub content: Pieces,
}

#[derive(Clone, PartialEq, Eq, Drop)]
pub struct SetMetadata {
    pub blob: Text,
    pub moment: Moment,
    pub metadata: Metadata,
}

#[derive(Clone, PartialEq, Eq, Drop)]
pub struct DeleteBlob {
    pub blob: Text,
}

#[derive(Clone, PartialEq, Eq, Drop)]
pub struct PutBlock {
    pub blob: Text,
    pub id: BlockId,
    pub content: Pieces,
}

/// The new content is the blocks that `entries` name, in the order of the entries.
#[derive(PartialEq, Eq, Drop)]
pub struct PutBlockList {
    pub blob: Text,
    pub moment: Moment,
    pub props: Props,
    pub metadata: Metadata,
    pub entries: Items<Taken>,
}

/// The row of a container in a checkpoint: what the container has beside its blobs. `count` is the
/// number of changes that the container has seen so far, even if the container was deleted.
#[derive(PartialEq, Eq, Drop)]
pub struct ContainerRow {
    pub count: u64,
    pub standing: Option<Standing>,
}

/// The row of a stored blob in a checkpoint: its committed part, and its uncommitted blocks by
/// their ids.
#[derive(PartialEq, Eq, Drop)]
pub struct StoredBlob {
    pub blob: Text,
    pub committed: Option<Committed<Pieces>>,
    pub uncommitted: Items<UncommittedBlock>,
}

/// What a change of a container does: what a request did, or one row of a checkpoint.
#[derive(PartialEq, Eq, Drop)]
pub enum Act {
    CreateContainer(CreateContainer),
    SetContainerMetadata(SetContainerMetadata),
    SetAcl(SetAcl),
    DeleteContainer,
    PutBlob(PutBlob),
    SetMetadata(SetMetadata),
    DeleteBlob(DeleteBlob),
    PutBlock(PutBlock),
    PutBlockList(PutBlockList),
    ContainerRow(ContainerRow),
    StoredBlob(StoredBlob),
}

// The copies of these structs are written by hand, because the derived copies take five to nine times
// as long to prove. What was copied is dropped by name before an early end.
impl Clone for PutBlob {
    ghost is_clone = { λ x y. y ≡ x };

    fn clone(&self) -> Result<Self, AllocError> {
        let blob = self.blob.clone()?;
        let (props, metadata) = match copy_props_and_metadata(&self.props, &self.metadata) {
            Ok(copies) => copies,
            Err(fault) => {
                drop(blob);
                return Err(fault);
            }
        };
        match self.content.clone() {
            Ok(content) => Ok(Self {
                blob,
                moment: self.moment,
                props,
                metadata,
                content,
            }),
            Err(fault) => {
                drop(metadata);
                drop(props);
                drop(blob);
                Err(fault)
            }
        }
    }
}

impl Clone for PutBlockList {
    ghost is_clone = { λ x y. y ≡ x };

    fn clone(&self) -> Result<Self, AllocError> {
        let blob = self.blob.clone()?;
        let (props, metadata) = match copy_props_and_metadata(&self.props, &self.metadata) {
            Ok(copies) => copies,
            Err(fault) => {
                drop(blob);
                return Err(fault);
            }
        };
        match self.entries.clone() {
            Ok(entries) => Ok(Self {
                blob,
                moment: self.moment,
                props,
                metadata,
                entries,
            }),
            Err(fault) => {
                drop(metadata);
                drop(props);
                drop(blob);
                Err(fault)
            }
        }
    }
}

// Written by hand, so that the copy of an act is proved without a search.
impl Clone for ContainerRow {
    ghost is_clone = { λ x y. y ≡ x };

    fn clone(&self) -> Result<Self, AllocError> {
        Ok(Self {
            count: self.count,
            standing: self.standing.clone()?,
        })
    }
}

impl Clone for StoredBlob {
    ghost is_clone = { λ x y. y ≡ x };

    fn clone(&self) -> Result<Self, AllocError> {
        let blob = self.blob.clone()?;
        let committed = match self.committed.clone() {
            Ok(committed) => committed,
            Err(fault) => {
                drop(blob);
                return Err(fault);
            }
        };
        match self.uncommitted.clone() {
            Ok(uncommitted) => Ok(Self {
                blob,
                committed,
                uncommitted,
            }),
            Err(fault) => {
                drop(committed);
                drop(blob);
                Err(fault)
            }
        }
    }
}

impl Clone for Act {
    ghost is_clone = { λ x y. y ≡ x };

    fn clone(&self) -> Result<Self, AllocError> {
        match self {
            Act::CreateContainer(create) => create.clone().map(Act::CreateContainer),
            Act::SetContainerMetadata(set) => set.clone().map(Act::SetContainerMetadata),
            Act::SetAcl(set) => set.clone().map(Act::SetAcl),
            Act::DeleteContainer => Ok(Act::DeleteContainer),
            Act::PutBlob(put) => put.clone().map(Act::PutBlob),
            Act::SetMetadata(set) => set.clone().map(Act::SetMetadata),
            Act::DeleteBlob(delete) => delete.clone().map(Act::DeleteBlob),
            Act::PutBlock(put) => put.clone().map(Act::PutBlock),
            Act::PutBlockList(put) => put.clone().map(Act::PutBlockList),
            Act::ContainerRow(row) => row.clone().map(Act::ContainerRow),
            Act::StoredBlob(row) => row.clone().map(Act::StoredBlob),
        }
    }
}

impl Act {
    ghost use Rattle.stamp_types.specs.Changes.{content_of, act_with};

    /// The content that comes with Put Blob and Put Block.
    pub fn content(&self) -> Option<&Pieces>
        ensures { option_copied result ≡ content_of self.now }
    {
        match self {
            Act::PutBlob(put) => Some(&put.content),
            Act::PutBlock(put) => Some(&put.content),
            _ => None,
        }
    }

    /// The same act with other content, if the act comes with content.
    pub fn with_content(self, content: Pieces) -> Self
        ensures { result ≡ act_with self content }
    {
        match self {
            Act::PutBlob(put) => Act::PutBlob(PutBlob { content, ..put }),
            Act::PutBlock(put) => Act::PutBlock(PutBlock { content, ..put }),
            other => other,
        }
    }
}
