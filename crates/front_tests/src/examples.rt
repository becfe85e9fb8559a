//! An example of each crate whose tests are here, which the README of the crate shows whole.

use crate::connection_tests::{Closed, Start};
use http_front::{Connection, End, Progress, Stage, advance, finish, run};
use reply_form::{write_head, write_reply};
use request_form::{HeadFault, read_head};
use stamp_types::{Body, Code, Moment, Op, Refusal, Reply, Rule, Share, Verb};

// request_form
#[test]
fn a_head_is_read_and_gets_its_body(rt: HostRuntime) {
    let alloc = rt.alloc();
    let text = b"PUT /acct/box/a%2Fb HTTP/1.1\r\nx-ms-blob-type: BlockBlob\r\n\
        Expect: 100-continue\r\nContent-Length: 5\r\n\r\n";
    let head = read_head(alloc, text).expect(&rt, "a head");
    assert!(rt; head.verb() == Verb::Put && !head.closes());
    assert!(rt; head.expects()); // the caller writes the interim reply, and then reads the body
    let hello = b"hello".to_vec(alloc).expect(&rt, "memory");
    let body = Body::of(Share::new(alloc, hello).expect(&rt, "memory"));
    assert!(rt; head.body_len() == body.len() as u64); // `with_body` requires it
    let request = head.with_body(body);
    let ask = request.ask();
    assert!(rt; ask.op == Op::PutBlob && ask.key.container.as_str() == "box");
    assert!(rt; ask.blob.as_ref().is_some_and(|blob| blob.as_str() == "a/b"));
    // No operation has this parameter, so rule F3 refuses the head. The caller closes the connection.
    let fault = read_head(alloc, b"HEAD /acct/box/b?comp=x HTTP/1.1\r\n\r\n").err();
    let Some(HeadFault::Denied(denial)) = fault else {
        panic!(rt; "a denial");
    };
    assert!(rt; denial.rule == Rule::F3 && denial.verb == Some(Verb::Head));
}

// reply_form
#[test]
fn a_denial_is_written_with_its_body_or_without(rt: HostRuntime) {
    let alloc = rt.alloc();
    let refusal = Refusal {
        rule: Rule::P2,
        code: Code::ResourceNotFound,
    };
    let reply = Reply::denied(alloc, refusal).expect(&rt, "memory");
    let noon = Moment::new(13_490_928_000_000_000).expect(&rt, "2012-10-01T12:00:00Z");
    // `false`: the connection stays open.
    let to_get = write_reply(alloc, &reply, noon, Some(Verb::Get), false).expect(&rt, "memory");
    assert!(rt; to_get.ends_with(b"<Message>Refused by rule P2.</Message></Error>"));
    // A reply to HEAD has no body, but has the length of the body of a reply to GET.
    let to_head = write_reply(alloc, &reply, noon, Some(Verb::Head), false).expect(&rt, "memory");
    let wanted = b"HTTP/1.1 404 Not Found\r\nDate: Mon, 01 Oct 2012 12:00:00 GMT\r\n\
        x-ms-version: 2012-02-12\r\nx-stamp-rule: P2\r\n\
        Content-Type: application/xml\r\nContent-Length: 120\r\n\r\n";
    assert!(rt; to_head.as_slice() == wanted.as_slice());
    // The head alone, of a reply whose body is sent later.
    let head = write_head(alloc, &reply, noon, false).expect(&rt, "memory");
    assert!(rt; head.as_slice() == wanted.as_slice());
}

// http_front
#[test]
fn a_connection_is_served_to_its_end(rt: HostRuntime) {
    let alloc = rt.alloc();
    let input = b"GET /acct/box/b HTTP/1.1\r\n\r\n".as_slice();
    // A clock that gives the first moment, and a service that refuses each request by rule P2.
    let (mut clock, mut service) = (Start, Closed { starved: false });
    // The reader, the writer, and how many reads the connection may make.
    let mut connection = Connection::new(alloc, input, Vec::new(alloc), 10);
    let end = run(alloc, &mut connection, &mut clock, &mut service);
    assert!(rt; end == Ok(End::Clean)); // the input ended between two requests
    let (_, written) = connection.into_parts();
    assert!(rt; written.starts_with(b"HTTP/1.1 404 Not Found\r\nDate: Thu, 01 Jan 1970 "));
    // A caller that is not to wait inside a call. `true`: there is room for a long reply.
    let mut connection = Connection::new(alloc, input, Vec::new(alloc), 10);
    let progress = advance(
        alloc,
        &mut connection,
        Stage::new(),
        &mut clock,
        &mut service,
        true,
    );
    let Ok(Progress::Ended(end)) = progress else {
        panic!(rt; "this reader never waits");
    };
    assert!(rt; finish(&mut connection, Ok(end)) == Ok(End::Clean));
}
