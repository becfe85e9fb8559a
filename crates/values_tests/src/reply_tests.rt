//! What no clause says about replies: printed bytes and lengths, and that each call can succeed.

use crate::sample_values::{shares, visible};
use stamp_types::{
    Body, Change, Code, Gathering, Header, Items, Past, Refusal, Reply, Request, Rule, SentRange,
    Share, Shares, Status, write_error,
};
use std::alloc::Global;
use std::process::Abort;

fn crosses<T: Send + Sync>() {}

#[test]
fn threads_may_have_each_type() {
    crosses::<Share>();
    crosses::<Body>();
    crosses::<Gathering>();
    crosses::<Shares>();
    crosses::<Change>();
    crosses::<Request>();
    crosses::<Past>();
    crosses::<Reply>();
}

#[test]
fn the_error_of_a_public_read(rt: HostRuntime) {
    let alloc = rt.alloc();
    let error = write_error(alloc, Code::ResourceNotFound, Rule::P2).expect(&rt, "memory");
    let printed =
        b"<?xml version=\"1.0\" encoding=\"utf-8\"?><Error><Code>ResourceNotFound</Code><Message>Refused by rule P2.</Message></Error>";
    assert!(rt; error.as_slice() == printed.as_slice());
    let reply = Reply::denied(
        alloc,
        Refusal {
            rule: Rule::P2,
            code: Code::ResourceNotFound,
        },
    )
    .expect(&rt, "memory");
    assert!(rt; reply.status.number() == 404 && reply.length == 120);
    assert!(rt; reply.body.joined(alloc).expect(&rt, "memory") == error);
    let xml = Header::ContentType(visible(&rt, alloc, "application/xml"));
    assert!(rt; reply.headers.as_slice() == [xml].as_slice());
}

#[test]
fn the_longest_error_and_no_error(rt: HostRuntime) {
    let alloc = rt.alloc();
    for (rule, code, number, length) in [
        (Rule::F3, Code::InvalidQueryParameterValue, 400, 130),
        (Rule::O4, Code::NotModified, 304, 0),
    ] {
        let reply = Reply::denied(alloc, Refusal { rule, code }).expect(&rt, "memory");
        assert!(rt;
            reply.status.number() == number && reply.length == length,
            "at {rule:?}"
        );
    }
}

// A reply with part of a blob. The body is in these pieces.
fn sent(rt: &impl Abort, alloc: Global, pieces: &[&[u8]]) -> Reply {
    let range = Header::ContentRange(SentRange {
        first: 4,
        last: 5,
        total: 6,
    });
    let plain = Header::ContentType(visible(rt, alloc, "text/plain"));
    Reply {
        status: Status::Partial,
        code: None,
        rule: None,
        headers: Items::new(vec![in alloc; plain, range].expect(rt, "memory")),
        length: 2,
        body: shares(rt, alloc, pieces),
    }
}

#[test]
fn replies_are_copied_and_compared_whole(rt: HostRuntime) {
    let alloc = rt.alloc();
    let reply = sent(&rt, alloc, &[b"ne"]);
    assert!(rt; reply.clone().expect(&rt, "memory").same(&reply));
    assert!(rt; reply.same(&sent(&rt, alloc, &[b"n", b"", b"e"])));
    assert!(rt; !reply.same(&sent(&rt, alloc, &[b"no"])));
}
