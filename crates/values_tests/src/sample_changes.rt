//! What a change of each kind does, for tests.
ghost use Rattle.std.specs.Prelude.{◌≡◌, [], ◌∷◌, map};
ghost use Rattle.stamp_types.specs.Pieces.{piece_len};

use crate::sample_parts::first_place;
use crate::sample_values::{acl, block_id, metadata, moment, text, visible};
use stamp_types::{
    Act, Block, BlockSource, Committed, ContainerRow, CreateContainer, DeleteBlob, Items, Level,
    Piece, Pieces, Props, PutBlob, PutBlockList, SetAcl, SetContainerMetadata, SetMetadata,
    Standing, StoredBlob, Taken, UncommittedBlock,
};
use std::alloc::Global;
use std::process::Abort;

// Five bytes in an extent.
pub(crate) fn five_in(rt: &impl Abort, alloc: Global, extent: u64) -> Pieces
    ensures { map piece_len result ≡ 5 ∷ [] }
{
    let place = first_place(extent);
    let pieces = vec![in alloc; Piece::At { place, length: 5 }].expect(rt, "memory");
    Pieces::new(pieces).expect(rt, "a good piece")
}

fn props(rt: &impl Abort, alloc: Global) -> Props {
    Props::from_parts(
        alloc,
        visible(rt, alloc, "text/plain"),
        visible(rt, alloc, "gzip"),
        visible(rt, alloc, "en"),
        visible(rt, alloc, "no-cache"),
        Some([7; 16]),
    )
    .expect(rt, "memory")
    .expect(rt, "props")
}

pub(crate) fn create_container(rt: &impl Abort, alloc: Global) -> Act {
    Act::CreateContainer(CreateContainer {
        moment: moment(rt),
        level: Level::Blob,
        metadata: metadata(rt, alloc),
    })
}

pub(crate) fn set_container_metadata(rt: &impl Abort, alloc: Global) -> Act {
    Act::SetContainerMetadata(SetContainerMetadata {
        moment: moment(rt),
        metadata: metadata(rt, alloc),
    })
}

pub(crate) fn set_acl(rt: &impl Abort, alloc: Global) -> Act {
    Act::SetAcl(SetAcl {
        moment: moment(rt),
        acl: acl(rt, alloc, Level::Container),
    })
}

pub(crate) fn put_blob(rt: &impl Abort, alloc: Global) -> Act {
    Act::PutBlob(PutBlob {
        blob: text(rt, alloc, "a"),
        moment: moment(rt),
        props: props(rt, alloc),
        metadata: metadata(rt, alloc),
        content: five_in(rt, alloc, 3),
    })
}

pub(crate) fn set_metadata(rt: &impl Abort, alloc: Global) -> Act {
    Act::SetMetadata(SetMetadata {
        blob: text(rt, alloc, "a"),
        moment: moment(rt),
        metadata: metadata(rt, alloc),
    })
}

pub(crate) fn delete_blob(rt: &impl Abort, alloc: Global) -> Act {
    Act::DeleteBlob(DeleteBlob {
        blob: text(rt, alloc, "a"),
    })
}

pub(crate) fn put_block_list(rt: &impl Abort, alloc: Global) -> Act {
    let taken = Taken {
        id: block_id(rt, alloc, b"0001"),
        from: BlockSource::Committed,
    };
    Act::PutBlockList(PutBlockList {
        blob: text(rt, alloc, "a"),
        moment: moment(rt),
        props: props(rt, alloc),
        metadata: metadata(rt, alloc),
        entries: Items::new(vec![in alloc; taken].expect(rt, "memory")),
    })
}

pub(crate) fn container_row(rt: &impl Abort, alloc: Global) -> Act {
    let standing = Some(Standing {
        etag: 1,
        made: moment(rt),
        metadata: metadata(rt, alloc),
        acl: acl(rt, alloc, Level::Closed),
    });
    Act::ContainerRow(ContainerRow { count: 1, standing })
}

fn committed(rt: &impl Abort, alloc: Global) -> Committed<Pieces> {
    let id = Some(block_id(rt, alloc, b"0001"));
    let content = five_in(rt, alloc, 3);
    Committed {
        etag: 4,
        made: moment(rt),
        props: props(rt, alloc),
        metadata: metadata(rt, alloc),
        blocks: Items::new(vec![in alloc; Block { id, content }].expect(rt, "memory")),
    }
}

// The row of a stored blob with a committed block and an uncommitted block.
pub(crate) fn stored_blob(rt: &impl Abort, alloc: Global) -> Act {
    let id = block_id(rt, alloc, b"0002");
    let content = five_in(rt, alloc, 4);
    let uncommitted = vec![in alloc; UncommittedBlock { id, content }].expect(rt, "memory");
    Act::StoredBlob(StoredBlob {
        blob: text(rt, alloc, "a"),
        committed: Some(committed(rt, alloc)),
        uncommitted: Items::new(uncommitted),
    })
}
