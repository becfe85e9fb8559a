//! Ids, content and acts for tests.
ghost use Rattle.std.specs.Prelude.{◌≡◌, IsTrue};
ghost use Rattle.stamp_types.specs.Changes.{is_in_one_piece};

use stamp_types::{
    BlockId, Bytes, Items, Metadata, Moment, Piece, Pieces, Props, PutBlob, PutBlockList,
    SetMetadata, Share, Taken, Text, Visible,
};
use std::alloc::Global;
use std::process::Abort;

pub(crate) fn id(rt: &impl Abort, alloc: Global, bytes: &[u8]) -> BlockId {
    let bytes = Vec::from_slice(alloc, bytes).expect(rt, "memory");
    BlockId::new(Bytes::new(bytes)).expect(rt, "an id")
}

fn in_one_piece(rt: &impl Abort, alloc: Global, bytes: Vec<u8>) -> Pieces
    ensures { IsTrue (is_in_one_piece result) }
{
    let share = Share::new(alloc, bytes).expect(rt, "memory");
    let pieces = vec![in alloc; Piece::Bytes(share)].expect(rt, "memory");
    Pieces::new(pieces).expect(rt, "a good piece")
}

/// The content of a block.
pub(crate) fn content(rt: &impl Abort, alloc: Global, text: &str) -> Pieces
    ensures { IsTrue (is_in_one_piece result) }
{
    if text.is_empty() {
        return Pieces::empty(alloc);
    }
    in_one_piece(
        rt,
        alloc,
        Vec::from_slice(alloc, text.as_bytes()).expect(rt, "memory"),
    )
}

/// The content of a block of so many equal bytes.
pub(crate) fn long_content(rt: &impl Abort, alloc: Global, count: usize) -> Pieces
    ensures { IsTrue (is_in_one_piece result) }
{
    in_one_piece(rt, alloc, vec![in alloc; 7; count].expect(rt, "memory"))
}

fn props(rt: &impl Abort, alloc: Global) -> Props {
    let octets = Visible::octet_stream(alloc).expect(rt, "memory");
    let empty = || Visible::empty(alloc);
    Props::from_parts(alloc, octets, empty(), empty(), empty(), None)
        .expect(rt, "memory")
        .expect(rt, "props")
}

pub(crate) fn put_blob(rt: &impl Abort, alloc: Global, text: &str) -> PutBlob {
    PutBlob {
        blob: Text::empty(alloc),
        moment: Moment::first(),
        props: props(rt, alloc),
        metadata: Metadata::empty(),
        content: content(rt, alloc, text),
    }
}

pub(crate) fn put_block_list(rt: &impl Abort, alloc: Global, entries: Items<Taken>) -> PutBlockList
    ensures { result.entries ≡ entries }
{
    PutBlockList {
        blob: Text::empty(alloc),
        moment: Moment::first(),
        props: props(rt, alloc),
        metadata: Metadata::empty(),
        entries,
    }
}

pub(crate) fn set_metadata(alloc: Global) -> SetMetadata {
    SetMetadata {
        blob: Text::empty(alloc),
        moment: Moment::first(),
        metadata: Metadata::empty(),
    }
}
