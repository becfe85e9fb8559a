//! What no clause says about writing block lists: that a list can be written, and bytes made outside of this repository's code.

use body_forms::{ListedBlock, write_block_list};
use stamp_types::{BlockId, Bytes};
use std::alloc::Global;
use std::process::Abort;
use std::test::Fail;

const ONE_AND_ONE: &str =
    "<?xml version=\"1.0\" encoding=\"utf-8\"?><BlockList><CommittedBlocks><Block><Name>AAAA</Name><Size>3</Size></Block><Block><Name>AAAA</Name><Size>3</Size></Block></CommittedBlocks><UncommittedBlocks></UncommittedBlocks></BlockList>";

const UNCOMMITTED_ALONE: &str =
    "<?xml version=\"1.0\" encoding=\"utf-8\"?><BlockList><UncommittedBlocks><Block><Name>AAAA</Name><Size>3</Size></Block></UncommittedBlocks></BlockList>";

const NEITHER: &str = "<?xml version=\"1.0\" encoding=\"utf-8\"?><BlockList></BlockList>";

fn written<'a>(
    rt: &impl Abort,
    alloc: Global,
    committed: Option<&'a [ListedBlock<'a>]>,
    uncommitted: Option<&'a [ListedBlock<'a>]>,
) -> Vec<u8> {
    write_block_list(alloc, committed, uncommitted).expect(rt, "memory")
}

#[test]
fn lists_are_written(rt: HostRuntime) -> Result<(), Fail> {
    let alloc = rt.alloc();
    let bytes = vec![in alloc; 0u8; 3].expect(&rt, "memory");
    let id = BlockId::new(Bytes::new(bytes)).expect(&rt, "an id");
    let block = ListedBlock { id: &id, len: 3 };
    let twice = [block, block];
    let none: [ListedBlock<'_>; 0] = [];
    let both = written(&rt, alloc, Some(twice.as_slice()), Some(none.as_slice()));
    assert!(rt; both.as_slice() == ONE_AND_ONE.as_bytes());
    assert!(rt; both.len() == 227);
    let once = [block];
    let uncommitted = written(&rt, alloc, None, Some(once.as_slice()));
    assert!(rt; uncommitted.as_slice() == UNCOMMITTED_ALONE.as_bytes());
    let neither = written(&rt, alloc, None, None);
    assert!(rt; neither.as_slice() == NEITHER.as_bytes());
    Ok(())
}
