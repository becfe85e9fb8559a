//! Streams of a partition whose front is given up (SOSP 2011, section 5).
ghost use Rattle.partition_stream.specs.Streams.{AreSealed};

use crate::partition_samples::{Told, keeps, log, put, streams};
use crate::sample_wires::script;
use partition_stream::Streams;
use stamp_types::Share;
use std::alloc::Global;
use std::process::Abort;

// Logs a change, puts a byte, and seals the streams.
fn log_put_and_seal(rt: &impl Abort, alloc: Global, streams: &mut Streams)
    ensures { AreSealed streams.new }
{
    let mut wire = script(rt, alloc, &[], &[]);
    let bytes = vec![in alloc; 7u8].expect(rt, "memory");
    let body = Share::new(alloc, bytes).expect(rt, "memory");
    let placed = put(rt, alloc, streams, &body, &mut wire);
    drop(placed);
    assert!(rt; log(rt, alloc, streams, "one", &mut wire) == Told::Done);
    assert!(rt; streams.seal(&mut wire).is_ok());
}

// Gives up all extents of sealed streams.
#[tactic(auto, using(partition_stream::proofs::SweepingLemmas::none_lies_since, partition_stream::proofs::SweepingLemmas::sealed_is_sure))]
fn give_up_all(rt: &impl Abort, alloc: Global, streams: &mut Streams)
    requires { AreSealed streams.old }
{
    let mark = streams.mark();
    assert!(rt; mark.log == 1 && mark.blobs == 1);
    let room = streams.sweep_room().expect(rt, "memory");
    let given = streams.give_up_before(mark, room);
    drop(given);
    assert!(rt; keeps(rt, alloc, streams, &[]));
    let mut wire = script(rt, alloc, &[], &[]);
    assert!(rt; log(rt, alloc, streams, "two", &mut wire) == Told::Done);
    assert!(rt; keeps(rt, alloc, streams, &["two"]));
}

#[test]
fn a_sweep_gives_up_what_is_before_its_mark(rt: HostRuntime) {
    let mut streams = streams(&rt, rt.alloc(), 1_000_000);
    log_put_and_seal(&rt, rt.alloc(), &mut *streams);
    give_up_all(&rt, rt.alloc(), &mut *streams);
}
