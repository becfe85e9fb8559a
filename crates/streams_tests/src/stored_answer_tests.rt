//! What rows that streams keep answer with the content of a blob: now, or by a ticket.

use crate::partition_samples::Told;
use crate::sample_wires::script;
use crate::stored_samples::{Seen, create, delete, load, look, piece, put, seal, stored, take};
use crate::ticket_tests::{frame, has_body, is_done, later};
use body_forms::Draft;
use extent_node::Script;
use extent_seal::ReadFault;
use range_rows::Span;
use std::alloc::Global;
use std::process::Abort;
use stored_rows::StoredRows;
use tickets::{Answer, Ticket, Unreachable};

// Rows that have the blob `a.txt` of the bytes `hello` in the container `pics`.
fn with_blob(rt: &impl Abort, alloc: Global) -> Box<StoredRows> {
    let mut stored = stored(rt, alloc);
    let mut wire = script(rt, alloc, &[], &[]);
    let change = create(rt, alloc, "pics");
    assert_eq!(rt; take(rt, &mut *stored, change, &mut wire), Told::Done);
    let change = put(rt, alloc, "pics");
    assert_eq!(rt; take(rt, &mut *stored, change, &mut wire), Told::Done);
    stored
}

// The answer of the frame with the bytes from 1 to 4 of the blob after its body.
fn answer_of_three(
    rt: &impl Abort,
    alloc: Global,
    stored: &mut StoredRows,
    wire: &mut Script,
) -> Result<Answer, Unreachable> {
    let piece = piece(rt, alloc, stored, "pics");
    assert!(rt; piece.len() == 5);
    let spans = [Span {
        piece,
        from: 1,
        to: 4,
    }];
    stored.answer(Draft::written(frame(rt, alloc)), &spans, true, wire)
}

// The body: the bytes 1 and 2 of the frame, and then `ell` of the blob.
const WHOLE: [u8; 5] = *b"\x01\x02ell";

// The answer is given now. So many nodes are asked, which answer so.
fn answers_now(
    rt: &impl Abort,
    alloc: Global,
    stored: &mut StoredRows,
    answers: &[bool],
    asked: usize,
) -> bool {
    let mut wire = script(rt, alloc, &[], answers);
    let answer = answer_of_three(rt, alloc, stored, &mut wire);
    let answer = answer.ok().expect(rt, "a node answers");
    wire.called().len() == asked && is_done(rt, alloc, answer, &WHOLE)
}

#[test]
fn content_that_no_seal_closed_is_answered_now(rt: HostRuntime) {
    let mut stored = with_blob(&rt, rt.alloc());
    assert!(rt; answers_now(&rt, rt.alloc(), &mut *stored, &[], 1));
    assert_eq!(rt; look(&rt, rt.alloc(), &*stored, "pics"), Seen::Blob(2, 5));
}

#[test]
fn the_next_node_is_asked_if_a_node_is_down(rt: HostRuntime) {
    let mut stored = with_blob(&rt, rt.alloc());
    assert!(rt; answers_now(&rt, rt.alloc(), &mut *stored, &[false, true], 2));
}

fn refuse(rt: &impl Abort, alloc: Global, stored: &mut StoredRows) {
    let mut wire = script(rt, alloc, &[], &[false, false, false]);
    let answer = answer_of_three(rt, alloc, stored, &mut wire);
    assert!(rt; answer.is_err());
    assert!(rt; wire.called().len() == 3);
}

#[test]
fn nodes_that_are_down_refuse_the_answer_and_change_nothing(rt: HostRuntime) {
    let mut stored = with_blob(&rt, rt.alloc());
    refuse(&rt, rt.alloc(), &mut *stored);
    assert_eq!(rt; look(&rt, rt.alloc(), &*stored, "pics"), Seen::Blob(2, 5));
    assert!(rt; answers_now(&rt, rt.alloc(), &mut *stored, &[], 1));
}

// The ticket of the answer, once the data is sealed. No node is asked for it, though each of them is down.
fn ticket(rt: &impl Abort, alloc: Global, stored: &mut StoredRows) -> Ticket {
    let mut wire = script(rt, alloc, &[], &[]);
    assert_eq!(rt; seal(rt, stored, &mut wire), Told::Done);
    let mut wire = script(rt, alloc, &[], &[false, false, false]);
    let answer = answer_of_three(rt, alloc, stored, &mut wire);
    assert!(rt; wire.called().len() == 0);
    later(rt, answer.ok().expect(rt, "no node is asked"))
}

// Deletes the container, unloads the rows and loads them again.
fn delete_and_load(rt: &impl Abort, alloc: Global, stored: &mut StoredRows) {
    let mut wire = script(rt, alloc, &[], &[]);
    let change = delete(rt, alloc, "pics");
    assert_eq!(rt; take(rt, stored, change, &mut wire), Told::Done);
    stored.unload();
    assert_eq!(rt; load(stored, &mut wire), Told::Done);
    assert_eq!(rt; look(rt, alloc, stored, "pics"), Seen::Deleted(3));
}

// The ticket comes back if no node answers. Then node 0 is down, and node 1 answers.
fn fetch(rt: &impl Abort, alloc: Global, ticket: Ticket) {
    let mut wire = script(rt, alloc, &[], &[false, false, false, false, true]);
    match ticket.fetch(&mut wire) {
        Ok(_) => panic!(rt; "no node answers"),
        Err((ticket, fault)) => {
            assert!(rt; matches!(fault, ReadFault::Unreachable));
            assert!(rt; wire.called().len() == 3);
            let reply = ticket.fetch(&mut wire).ok().expect(rt, "node 1 answers");
            assert!(rt; has_body(rt, alloc, &reply, &WHOLE));
        }
    }
    assert!(rt; wire.called().len() == 5);
}

#[test]
fn sealed_content_is_fetched_after_its_container_is_deleted(rt: HostRuntime) {
    let mut stored = with_blob(&rt, rt.alloc());
    let ticket = ticket(&rt, rt.alloc(), &mut *stored);
    delete_and_load(&rt, rt.alloc(), &mut *stored);
    drop(stored);
    fetch(&rt, rt.alloc(), ticket);
}
