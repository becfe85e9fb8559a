//! Tickets, and the answers of spans.
ghost use Rattle.std.specs.Prelude.{◌≡◌, length};
ghost use Rattle.stream_manager.specs.Streams.{laid};
ghost use Rattle.partition_stream.specs.Contents.{AreStored};

use crate::partition_samples::{put_and_seal, put_three, streams};
use crate::sample_wires::script;
use body_forms::Draft;
use extent_node::Script;
use extent_seal::ReadFault;
use partition_stream::Streams;
use range_rows::Span;
use stamp_types::{Piece, Pieces, Reply, text_reply};
use std::alloc::Global;
use std::process::Abort;
use tickets::{Answer, Ticket, Unreachable, make_answer};

/// A reply whose own body is the bytes 1 and 2.
pub(crate) fn frame(rt: &impl Abort, alloc: Global) -> Reply
    ensures { length result.body ≡ 2 }
{
    let text = vec![in alloc; 1u8, 2].expect(rt, "memory");
    text_reply(alloc, Vec::new(alloc), text).expect(rt, "memory")
}

// The answer of the frame with the bytes from 1 to 3 of the piece after its body.
fn answer_of_two(
    rt: &impl Abort,
    alloc: Global,
    streams: &mut Streams,
    placed: &Pieces,
    wire: &mut Script,
) -> Result<Answer, Unreachable>
    requires { AreStored (laid streams.old.blobs) placed.now }
{
    match placed.as_slice() {
        [Piece::At { place, length }] => {
            assert!(rt; *length == 3);
            let spans = [Span {
                piece: Piece::At {
                    place: *place,
                    length: *length,
                },
                from: 1,
                to: 3,
            }];
            make_answer(
                alloc,
                streams,
                Draft::written(frame(rt, alloc)),
                &spans,
                true,
                wire,
            )
        }
        _ => panic!(rt; "one piece"),
    }
}

// The body: the bytes 1 and 2 of the frame, and then 8 and 9 of the piece.
const WHOLE: [u8; 4] = [1, 2, 8, 9];

/// Whether these bytes are the body of the reply.
pub(crate) fn has_body(rt: &impl Abort, alloc: Global, reply: &Reply, wanted: &[u8]) -> bool {
    let body = reply.body.joined(alloc).expect(rt, "memory");
    body.as_slice() == wanted
}

/// Whether the answer is a reply whose body is these bytes.
pub(crate) fn is_done(rt: &impl Abort, alloc: Global, answer: Answer, wanted: &[u8]) -> bool {
    match answer {
        Answer::Done(reply) => has_body(rt, alloc, &reply, wanted),
        Answer::Later(_) => false,
        Answer::NoMemory => false,
    }
}

#[test]
fn content_of_the_last_extent_goes_out_now(rt: HostRuntime) {
    let mut streams = streams(&rt, rt.alloc(), 1_000_000);
    let placed = put_three(&rt, rt.alloc(), &mut *streams);
    let mut wire = script(&rt, rt.alloc(), &[], &[]);
    let answer = answer_of_two(&rt, rt.alloc(), &mut *streams, &placed, &mut wire);
    assert!(rt; wire.called().len() == 1);
    let answer = answer.ok().expect(&rt, "a node answers");
    assert!(rt; is_done(&rt, rt.alloc(), answer, &WHOLE));
}

#[test]
fn content_that_no_node_gives_is_no_lack_of_memory(rt: HostRuntime) {
    let mut streams = streams(&rt, rt.alloc(), 1_000_000);
    let placed = put_three(&rt, rt.alloc(), &mut *streams);
    let mut wire = script(&rt, rt.alloc(), &[], &[false, false, false]);
    let answer = answer_of_two(&rt, rt.alloc(), &mut *streams, &placed, &mut wire);
    assert!(rt; wire.called().len() == 3);
    assert!(rt; answer.is_err());
}

/// The ticket of an answer that is given later.
pub(crate) fn later(rt: &impl Abort, answer: Answer) -> Ticket {
    match answer {
        Answer::Later(ticket) => ticket,
        Answer::Done(_) => panic!(rt; "some content is sealed"),
        Answer::NoMemory => panic!(rt; "no memory"),
    }
}

fn fetch_twice(rt: &impl Abort, alloc: Global, ticket: Ticket, wire: &mut Script) {
    match ticket.fetch(wire) {
        Ok(_) => panic!(rt; "no node answers"),
        Err((ticket, fault)) => {
            assert!(rt; matches!(fault, ReadFault::Unreachable));
            match ticket.fetch(wire) {
                Ok(reply) => {
                    assert!(rt; has_body(rt, alloc, &reply, &WHOLE));
                }
                Err(_) => panic!(rt; "node 0 answers"),
            }
        }
    }
}

#[test]
fn content_of_a_sealed_extent_is_fetched_without_the_streams(rt: HostRuntime) {
    let mut streams = streams(&rt, rt.alloc(), 1_000_000);
    let placed = put_and_seal(&rt, rt.alloc(), &mut *streams);
    let mut wire = script(&rt, rt.alloc(), &[], &[false, false, false]);
    let answer = answer_of_two(&rt, rt.alloc(), &mut *streams, &placed, &mut wire);
    let ticket = later(&rt, answer.ok().expect(&rt, "no node is called"));
    drop(streams);
    assert!(rt; wire.called().len() == 0);
    fetch_twice(&rt, rt.alloc(), ticket, &mut wire);
    assert!(rt; wire.called().len() == 4);
}
