//! Replies to the two lists, against bytes that were made outside of this repository's code.

use crate::page_tests::{ACCOUNT, create, page, rows_of};
use crate::sample_requests::{key, list_request};
use crate::written_page_tests::{CONTAINERS, WITH_A_GROUP};
use list_pages::{blob_list_reply, container_list_reply};
use row_trees::Rows;
use stamp_types::{Header, Op, Reply, Status};
use std::alloc::Global;
use std::process::Abort;

// The reply has status 200, one header, which is its content type, and this body.
fn is_list(rt: &impl Abort, alloc: Global, reply: &Reply, wanted: &str) {
    assert!(rt; reply.status == Status::Success && reply.rule.is_none());
    assert!(rt; reply.length == wanted.len() as u64);
    match reply.headers.as_slice() {
        [Header::ContentType(kind)] => assert!(rt; kind.as_str() == "application/xml"),
        _ => assert!(rt; false, "one header"),
    }
    let bytes = reply.body.joined(alloc).expect(rt, "memory");
    assert!(rt; bytes.as_slice() == wanted.as_bytes());
}

#[test]
fn a_list_of_blobs_is_answered(rt: HostRuntime) {
    let alloc = rt.alloc();
    let rows = rows_of(&rt, alloc, &["a&b<c>.txt", "d/1", "d/2"]);
    let pics = key(&rt, alloc, ACCOUNT, "pics");
    let found = rows.find(&pics);
    let page = page(&rt, alloc, ("", "/", "", 5000));
    let asked = list_request(
        &rt,
        alloc,
        Op::ListBlobs,
        key(&rt, alloc, ACCOUNT, "pics"),
        page,
    );
    assert!(rt; asked.ask().op.lists_names());
    let draft = blob_list_reply(alloc, &found, &asked).expect(&rt, "memory");
    let reply = draft.write(alloc).expect(&rt, "memory");
    is_list(&rt, alloc, &reply, WITH_A_GROUP);
}

#[test]
fn a_list_of_containers_is_answered(rt: HostRuntime) {
    let alloc = rt.alloc();
    let mut rows = Rows::new(alloc);
    create(&rt, alloc, &mut rows, ACCOUNT, "alpha");
    create(&rt, alloc, &mut rows, ACCOUNT, "beta");
    create(&rt, alloc, &mut rows, "other", "alpha");
    let page = page(&rt, alloc, ("", "", "", 5000));
    let account = key(&rt, alloc, ACCOUNT, "");
    let asked = list_request(&rt, alloc, Op::ListContainers, account, page);
    assert!(rt; asked.ask().op.lists_names());
    let draft = container_list_reply(alloc, &rows, &asked, None).expect(&rt, "memory");
    let reply = draft.write(alloc).expect(&rt, "memory");
    is_list(&rt, alloc, &reply, CONTAINERS);
}

#[test]
fn a_list_is_written_after_its_rows_are_gone(rt: HostRuntime) {
    let alloc = rt.alloc();
    let rows = rows_of(&rt, alloc, &["a&b<c>.txt", "d/1", "d/2"]);
    let pics = key(&rt, alloc, ACCOUNT, "pics");
    let page = page(&rt, alloc, ("", "/", "", 5000));
    let asked = list_request(
        &rt,
        alloc,
        Op::ListBlobs,
        key(&rt, alloc, ACCOUNT, "pics"),
        page,
    );
    assert!(rt; asked.ask().op.lists_names());
    let draft = blob_list_reply(alloc, &rows.find(&pics), &asked).expect(&rt, "memory");
    drop(rows);
    drop(asked);
    let reply = draft.write(alloc).expect(&rt, "memory");
    is_list(&rt, alloc, &reply, WITH_A_GROUP);
}
