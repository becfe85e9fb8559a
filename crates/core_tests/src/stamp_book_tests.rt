//! A stamp that keeps an audit book.
use crate::requests::{
    CREATE, CREATED, GET, GET_BY_POLICY, LIST, PUT, PUT_BLOCK, PUT_BY_NEW, PUT_POLICY,
};
use crate::samples::{begins, ends, says};
use crate::stamp_samples::{Caller, caller_of, empty_stamp};
use access_rules::Way;
use extent_node::Script;
use policy_book::Book;
use stamp_locks::Stamp;
use stamp_types::Op;
use std::alloc::Global;
use std::process::Abort;
use std::sync::Wait;
use std::thread;
use std::thread::Threads;

// A stamp of the account, without containers, with a book of so many entries at most.
fn booked_stamp(rt: &impl Abort, alloc: Global, limit: usize) -> Stamp<Script> {
    let book = Book::new(alloc, limit).expect(rt, "memory");
    empty_stamp(rt, alloc).with_book(book)
}

// How many entries the book of the stamp has, and the sum of their places. Each entry is of the first key pair.
fn entries_of(rt: &impl Abort, alloc: Global, stamp: &Stamp<Script>) -> (usize, u64) {
    let book = stamp.book().expect(rt, "a book");
    let entries = book.audit_from(alloc, 0).expect(rt, "memory");
    let mut sum: u64 = 0;
    for entry in entries.iter() {
        let keys = entry.revision().keys();
        assert!(rt; keys.is_some_and(|keys| keys.epoch == 0));
        sum = sum.saturating_add(entry.place());
    }
    (entries.len(), sum)
}

// The entry at this index is of the operation, the place and the way.
fn is_entry(stamp: &Stamp<Script>, index: usize, op: Op, place: u64, way: Way) -> bool {
    match stamp.book().and_then(|book| book.at(index)) {
        Some(entry) => {
            entry.request().ask().op == op && entry.place() == place && entry.way() == way
        }
        None => false,
    }
}

// Requests with a pass and without one. No entry is of a request that is refused, or that names no container.
fn posts<R: Wait + Abort>(rt: &R, alloc: Global) {
    let stamp = booked_stamp(rt, alloc, 10);
    let mut plain = Caller::new(rt, alloc, &stamp);
    let mut shown = caller_of(rt, alloc, &stamp, "pics");
    assert!(rt; begins(rt, alloc, &mut plain, CREATE, CREATED));
    assert!(rt; begins(rt, alloc, &mut plain, CREATE, b"HTTP/1.1 409 Conflict\r\n"));
    assert!(rt; begins(rt, alloc, &mut shown, PUT, CREATED));
    assert!(rt; says(rt, alloc, &mut shown, PUT_BY_NEW, "Refused by rule K5."));
    assert!(rt; ends(rt, alloc, &mut plain, LIST, b"</EnumerationResults>"));
    assert!(rt; begins(rt, alloc, &mut plain, PUT_POLICY, b"HTTP/1.1 200 OK\r\n"));
    assert!(rt; ends(rt, alloc, &mut shown, GET_BY_POLICY, b"\r\n\r\nhello"));
    assert!(rt; is_entry(&stamp, 0, Op::CreateContainer, 0, Way::Shared));
    assert!(rt; is_entry(&stamp, 1, Op::PutBlob, 1, Way::Shared));
    assert!(rt; is_entry(&stamp, 2, Op::SetAcl, 2, Way::Shared));
    assert!(rt; is_entry(&stamp, 3, Op::GetBlob, 3, Way::Token));
    assert!(rt; entries_of(rt, alloc, &stamp) == (4, 6));
}

#[test]
fn a_stamp_posts_what_is_let_in(rt: HostRuntime) {
    posts(&rt, rt.alloc());
}

// The book takes two entries. A third request is answered as without a book.
fn is_full<R: Wait + Abort>(rt: &R, alloc: Global) {
    let stamp = booked_stamp(rt, alloc, 2);
    let mut caller = caller_of(rt, alloc, &stamp, "pics");
    assert!(rt; begins(rt, alloc, &mut caller, CREATE, CREATED));
    assert!(rt; begins(rt, alloc, &mut caller, PUT, CREATED));
    assert!(rt; ends(rt, alloc, &mut caller, GET, b"\r\n\r\nhello"));
    assert!(rt; entries_of(rt, alloc, &stamp) == (2, 1));
}

#[test]
fn a_full_book_takes_no_entry_and_requests_are_answered(rt: HostRuntime) {
    is_full(&rt, rt.alloc());
}

#[test]
fn a_stamp_without_a_book_has_none(rt: HostRuntime) {
    let stamp = empty_stamp(&rt, rt.alloc());
    assert!(rt; stamp.book().is_none());
}

// Sends a request a hundred times, each of which changes the container.
fn call<R: Wait + Abort>(rt: &R, alloc: Global, stamp: &Stamp<Script>, request: &[u8]) {
    let mut caller = Caller::new(rt, alloc, stamp);
    for _ in 0..100u8 {
        assert!(rt; begins(rt, alloc, &mut caller, request, CREATED));
    }
}

// Reads the entries that are there, again and again.
fn read(rt: &impl Abort, alloc: Global, stamp: &Stamp<Script>) {
    for _ in 0..50u8 {
        let (count, _sum) = entries_of(rt, alloc, stamp);
        assert!(rt; count <= 201);
        thread::yield_now();
    }
}

// Two callers put beside a reader. Then each place from 0 to 200 has one entry.
fn call_and_read<R: Threads + Wait + Abort + Sync>(rt: &R, alloc: Global) {
    let stamp = booked_stamp(rt, alloc, 1000);
    let mut caller = Caller::new(rt, alloc, &stamp);
    assert!(rt; begins(rt, alloc, &mut caller, CREATE, CREATED));
    let (_, _) = thread::join(
        rt,
        || {
            thread::join(
                rt,
                || call(rt, alloc, &stamp, PUT),
                || call(rt, alloc, &stamp, PUT_BLOCK),
            )
        },
        || read(rt, alloc, &stamp),
    );
    assert!(rt; entries_of(rt, alloc, &stamp) == (201, 20_100));
}

#[test]
fn a_reader_walks_beside_two_callers_of_a_stamp(rt: HostRuntime) {
    call_and_read(&rt, rt.alloc());
}
