//! The committed part of a blob, which readers see.
ghost use Rattle.std.specs.Prelude.{◌≡◌, IfOk};

use crate::pieces::Pieces;
use crate::props::Props;
use stamp_values::{BlockId, Items, Metadata, Moment};
use std::alloc::AllocError;

/// A block of a blob, with its content in some form. A block that Put Blob wrote has no id.
#[derive(Clone, PartialEq, Eq, Drop)]
pub struct Block<C> {
    pub id: Option<BlockId>,
    pub content: C,
}

/// What readers of a blob see, with its blocks in their order and their content in some form.
/// `etag` is the count of changes of the blob's container at which this was written, and `made` is
/// the moment at which this was written (Last-Modified).
#[derive(PartialEq, Eq, Drop)]
pub struct Committed<C> {
    pub etag: u64,
    pub made: Moment,
    pub props: Props,
    pub metadata: Metadata,
    pub blocks: Items<Block<C>>,
}

/// A block that Put Block wrote, and that no Put Block List has taken over so far.
#[derive(Clone, PartialEq, Eq, Drop)]
pub struct UncommittedBlock {
    pub id: BlockId,
    pub content: Pieces,
}

// Copies of what a blob has beside its content.
pub(crate) fn copy_props_and_metadata(
    props: &Props,
    metadata: &Metadata,
) -> Result<(Props, Metadata), AllocError>
    ensures props { IfOk result (λ copies. copies.0 ≡ props.now) }
    ensures metadata { IfOk result (λ copies. copies.1 ≡ metadata.now) }
{
    let props = props.clone()?;
    match metadata.clone() {
        Ok(metadata) => Ok((props, metadata)),
        Err(fault) => {
            drop(props);
            Err(fault)
        }
    }
}

// Written by hand, because the derived copy takes five times as long to prove.
impl Clone for Committed<Pieces> {
    ghost is_clone = { λ x y. y ≡ x };

    fn clone(&self) -> Result<Self, AllocError> {
        let (props, metadata) = copy_props_and_metadata(&self.props, &self.metadata)?;
        match self.blocks.clone() {
            Ok(blocks) => Ok(Self {
                etag: self.etag,
                made: self.made,
                props,
                metadata,
                blocks,
            }),
            Err(fault) => {
                drop(metadata);
                drop(props);
                Err(fault)
            }
        }
    }
}
