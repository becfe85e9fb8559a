//! What a change of each kind does, for tests.

use crate::sample_fields::{
    acl, acl_with_expiries, bare, five, hello, id, meta, metadata, noon, plain, red, text,
    two_pieces,
};
use stamp_types::{
    Act, Block, BlockSource, Committed, ContainerRow, CreateContainer, DeleteBlob, Items, Level,
    Pieces, PutBlob, PutBlock, PutBlockList, SetAcl, SetContainerMetadata, SetMetadata, Standing,
    StoredBlob, Taken, UncommittedBlock,
};
use std::alloc::Global;
use std::process::Abort;

const LONGEST_ID: &[u8] = b"iiiiiiiiiiiiiiiiiiiiiiiiiiiiiiiiiiiiiiiiiiiiiiiiiiiiiiiiiiiiiiii";

pub(crate) fn create_container(rt: &impl Abort, alloc: Global) -> Act {
    Act::CreateContainer(CreateContainer {
        moment: noon(rt),
        level: Level::Container,
        metadata: red(rt, alloc),
    })
}

pub(crate) fn set_container_metadata(rt: &impl Abort, alloc: Global) -> Act {
    let color = meta(rt, alloc, "color", "red");
    let size = meta(rt, alloc, "size", "");
    let metas = vec![in alloc; color, size].expect(rt, "memory");
    Act::SetContainerMetadata(SetContainerMetadata {
        moment: noon(rt),
        metadata: metadata(rt, alloc, metas),
    })
}

pub(crate) fn set_acl(rt: &impl Abort, alloc: Global) -> Act {
    Act::SetAcl(SetAcl {
        moment: noon(rt),
        acl: acl(rt, alloc, Level::Blob),
    })
}

pub(crate) fn set_acl_with_expiries(rt: &impl Abort, alloc: Global) -> Act {
    Act::SetAcl(SetAcl {
        moment: noon(rt),
        acl: acl_with_expiries(rt, alloc, Level::Closed),
    })
}

fn put_blob_of(rt: &impl Abort, alloc: Global, content: Pieces) -> Act {
    Act::PutBlob(PutBlob {
        blob: text(rt, alloc, "a.txt"),
        moment: noon(rt),
        props: plain(rt, alloc),
        metadata: red(rt, alloc),
        content,
    })
}

pub(crate) fn put_blob(rt: &impl Abort, alloc: Global) -> Act {
    put_blob_of(rt, alloc, five(rt, alloc))
}

// The blob comes with its five bytes.
pub(crate) fn put_hello(rt: &impl Abort, alloc: Global) -> Act {
    put_blob_of(rt, alloc, hello(rt, alloc))
}

pub(crate) fn put_blob_of_no_pieces(rt: &impl Abort, alloc: Global) -> Act {
    put_blob_of(rt, alloc, Pieces::empty(alloc))
}

pub(crate) fn put_blob_of_two_pieces(rt: &impl Abort, alloc: Global) -> Act {
    put_blob_of(rt, alloc, two_pieces(rt, alloc))
}

pub(crate) fn set_metadata(rt: &impl Abort, alloc: Global) -> Act {
    Act::SetMetadata(SetMetadata {
        blob: text(rt, alloc, "a.txt"),
        moment: noon(rt),
        metadata: red(rt, alloc),
    })
}

pub(crate) fn delete_blob(rt: &impl Abort, alloc: Global) -> Act {
    Act::DeleteBlob(DeleteBlob {
        blob: text(rt, alloc, "a.txt"),
    })
}

pub(crate) fn put_block(rt: &impl Abort, alloc: Global) -> Act {
    put_block_of(rt, alloc, hello(rt, alloc))
}

pub(crate) fn put_block_of(rt: &impl Abort, alloc: Global, content: Pieces) -> Act {
    Act::PutBlock(PutBlock {
        blob: text(rt, alloc, "a.txt"),
        id: id(rt, alloc, b"one"),
        content,
    })
}

fn entries(rt: &impl Abort, alloc: Global) -> Items<Taken> {
    let first = Taken {
        id: id(rt, alloc, b"one"),
        from: BlockSource::Uncommitted,
    };
    let second = Taken {
        id: id(rt, alloc, b"two"),
        from: BlockSource::Committed,
    };
    Items::new(vec![in alloc; first, second].expect(rt, "memory"))
}

// As many entries as a list may have, each with an id of 64 bytes.
fn most_entries(rt: &impl Abort, alloc: Global) -> Items<Taken> {
    let mut entries = Vec::with_capacity(alloc, 50_000).expect(rt, "memory");
    for _ in 0..50_000 {
        let entry = Taken {
            id: id(rt, alloc, LONGEST_ID),
            from: BlockSource::Uncommitted,
        };
        entries.push(entry).expect(rt, "memory");
    }
    Items::new(entries)
}

fn put_block_list_of(rt: &impl Abort, alloc: Global, entries: Items<Taken>) -> Act {
    Act::PutBlockList(PutBlockList {
        blob: text(rt, alloc, "a.txt"),
        moment: noon(rt),
        props: bare(rt, alloc),
        metadata: red(rt, alloc),
        entries,
    })
}

pub(crate) fn put_no_blocks(rt: &impl Abort, alloc: Global) -> Act {
    put_block_list_of(rt, alloc, Items::new(Vec::new(alloc)))
}

// The list takes the block of `put_block`.
pub(crate) fn put_one_block(rt: &impl Abort, alloc: Global) -> Act {
    let block = Taken {
        id: id(rt, alloc, b"one"),
        from: BlockSource::Uncommitted,
    };
    let entries = vec![in alloc; block].expect(rt, "memory");
    put_block_list_of(rt, alloc, Items::new(entries))
}

pub(crate) fn put_block_list(rt: &impl Abort, alloc: Global) -> Act {
    put_block_list_of(rt, alloc, entries(rt, alloc))
}

pub(crate) fn put_longest_list(rt: &impl Abort, alloc: Global) -> Act {
    put_block_list_of(rt, alloc, most_entries(rt, alloc))
}

pub(crate) fn container_row(rt: &impl Abort, alloc: Global) -> Act {
    let standing = Some(Standing {
        etag: 3,
        made: noon(rt),
        metadata: red(rt, alloc),
        acl: acl(rt, alloc, Level::Closed),
    });
    Act::ContainerRow(ContainerRow { count: 7, standing })
}

pub(crate) fn deleted_container_row() -> Act {
    Act::ContainerRow(ContainerRow {
        count: 7,
        standing: None,
    })
}

fn committed(rt: &impl Abort, alloc: Global, blocks: Vec<Block<Pieces>>) -> Committed<Pieces> {
    Committed {
        etag: 5,
        made: noon(rt),
        props: plain(rt, alloc),
        metadata: red(rt, alloc),
        blocks: Items::new(blocks),
    }
}

fn blob_row(
    rt: &impl Abort,
    alloc: Global,
    committed: Option<Committed<Pieces>>,
    uncommitted: Vec<UncommittedBlock>,
) -> Act {
    Act::StoredBlob(StoredBlob {
        blob: text(rt, alloc, "a.txt"),
        committed,
        uncommitted: Items::new(uncommitted),
    })
}

// A blob whose one committed block has no id, with one uncommitted block.
pub(crate) fn stored_blob(rt: &impl Abort, alloc: Global) -> Act {
    let content = five(rt, alloc);
    let blocks = vec![in alloc; Block { id: None, content }].expect(rt, "memory");
    let id = id(rt, alloc, b"one");
    let content = five(rt, alloc);
    let uncommitted = vec![in alloc; UncommittedBlock { id, content }].expect(rt, "memory");
    blob_row(rt, alloc, Some(committed(rt, alloc, blocks)), uncommitted)
}

// A blob of two committed blocks, of which the second has no bytes.
pub(crate) fn committed_blob(rt: &impl Abort, alloc: Global) -> Act {
    let first = Block {
        id: Some(id(rt, alloc, b"one")),
        content: five(rt, alloc),
    };
    let second = Block {
        id: Some(id(rt, alloc, b"two")),
        content: Pieces::empty(alloc),
    };
    let blocks = vec![in alloc; first, second].expect(rt, "memory");
    blob_row(
        rt,
        alloc,
        Some(committed(rt, alloc, blocks)),
        Vec::new(alloc),
    )
}

// A blob of two uncommitted blocks, of which the second has no bytes.
pub(crate) fn uncommitted_blob(rt: &impl Abort, alloc: Global) -> Act {
    let first = UncommittedBlock {
        id: id(rt, alloc, b"one"),
        content: five(rt, alloc),
    };
    let second = UncommittedBlock {
        id: id(rt, alloc, b"two"),
        content: Pieces::empty(alloc),
    };
    let uncommitted = vec![in alloc; first, second].expect(rt, "memory");
    blob_row(rt, alloc, None, uncommitted)
}
