//! Repairs of the sealed extents of a slot over streams (SOSP 2011, section 4.3).
use crate::requests::{CREATE, CREATED, GET, PUT};
use crate::samples::{begins, ends, says};
use crate::stored_samples::{D, R, Streamed, make_streamed};
use extent_node::Node;
use partition_stream::StreamName;
use std::alloc::Global;
use std::process::Abort;
use stored_rows::Unrepaired;
use stream_manager::RepairFault;

// What the reply to a second Create Container of the same name begins with.
const CONFLICT: &[u8] = b"HTTP/1.1 409 Conflict\r\n";

// The seals of the log and of the data, which node Two does not answer; a repair, which no node answers, and one which node Zero answers;
// a read, which node Two answers alone.
const ASKS: [bool; 12] = [
    true, true, false, true, true, false, false, false, true, false, false, true,
];

// Repairs an extent of this stream on node Two.
fn repair(
    alloc: Global,
    slot: &mut Streamed,
    part: StreamName,
    extent: u64,
) -> Result<(), RepairFault> {
    match slot
        .slot
        .repair(alloc, part, extent, Node::Two, &mut slot.wire)
    {
        Ok(_repaired) => Ok(()),
        Err(Unrepaired::NoSuchExtent(_none)) => Err(RepairFault::NoSuchExtent),
        Err(Unrepaired::Unreachable) => Err(RepairFault::Unreachable),
        Err(Unrepaired::NoMemory) => Err(RepairFault::NoMemory),
    }
}

// A slot with a blob, whose streams are sealed. Node Two has no copy of the sealed extents.
fn seal_without_two(rt: &impl Abort, alloc: Global, slot: &mut Streamed) {
    assert!(rt; begins(rt, alloc, slot, CREATE, CREATED));
    assert!(rt; begins(rt, alloc, slot, PUT, CREATED));
    assert!(rt; slot.slot.seal(alloc, &mut slot.wire).is_ok());
}

// The slot has no sealed extent 99. The data is repaired if a node with a copy answers, and then node Two has the blob.
fn repair_data(rt: &impl Abort, alloc: Global, slot: &mut Streamed) {
    seal_without_two(rt, alloc, slot);
    let called = slot.wire.called().len();
    assert_eq!(rt;
        repair(alloc, slot, StreamName::Blobs, 99),
        Err(RepairFault::NoSuchExtent)
    );
    assert_eq!(rt; slot.wire.called().len(), called);
    assert_eq!(rt;
        repair(alloc, slot, StreamName::Blobs, 0),
        Err(RepairFault::Unreachable)
    );
    assert_eq!(rt; repair(alloc, slot, StreamName::Blobs, 0), Ok(()));
    assert!(rt; ends(rt, alloc, slot, GET, b"\r\n\r\nhello"));
    assert_eq!(rt; slot.tickets, 1);
}

#[test]
fn a_repaired_node_gives_a_blob_alone(rt: HostRuntime) {
    let mut slot = make_streamed(&rt, rt.alloc(), &[], &ASKS);
    repair_data(&rt, rt.alloc(), &mut *slot);
}

// A repair settles first. As long as no node answers, it is Unreachable, also if the extent does not exist. Then the change is kept, and
// extent 0 of the log is sealed, without a copy on node Two.
fn repair_a_doubt(rt: &impl Abort, alloc: Global, slot: &mut Streamed) {
    assert!(rt; says(rt, alloc, slot, CREATE, "Refused by rule N2."));
    assert_eq!(rt;
        repair(alloc, slot, StreamName::Log, 99),
        Err(RepairFault::Unreachable)
    );
    assert_eq!(rt;
        repair(alloc, slot, StreamName::Log, 99),
        Err(RepairFault::NoSuchExtent)
    );
    assert_eq!(rt; repair(alloc, slot, StreamName::Log, 0), Ok(()));
    assert!(rt; begins(rt, alloc, slot, CREATE, CONFLICT));
}

#[test]
fn a_repair_settles_a_doubt_first(rt: HostRuntime) {
    let asks = [false, false, false, false, false, false, true, false, false];
    let mut slot = make_streamed(&rt, rt.alloc(), &[D, R, R], &asks);
    repair_a_doubt(&rt, rt.alloc(), &mut *slot);
}
