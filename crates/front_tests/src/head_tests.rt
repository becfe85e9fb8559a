//! What the replies on a connection do not show about a head: what the head lends, and the request that a head and its body
//! make.

use request_form::{Denial, Head, HeadFault, no_head, read_head};
use stamp_types::{
    Ask, Body, Code, Credential, FieldList, Kept, Op, Request, Rule, Share, Signing, Status, Verb,
};
use std::alloc::Global;
use std::process::Abort;

const PUT: &str =
    "PUT http://h/acct/box/a%2Fb?x=1&&y&%7A=%zz&w=+&v=e=f HTTP/1.1\r\nHost: h\r\nContent-Type: text/plain\r\nContent-MD5: XUFAKrxLKna5cZ2REBfFkg==\r\nx-ms-blob-type: BlockBlob\r\nAuthorization: SharedKey acct:x\r\nContent-Length:\t5 \r\nExpect: 100-continue\r\nConnection: close\r\n\r\n";

// The MD5 of `hello`.
const SUM: [u8; 16] = [
    0x5d, 0x41, 0x40, 0x2a, 0xbc, 0x4b, 0x2a, 0x76, 0xb9, 0x71, 0x9d, 0x91, 0x10, 0x17, 0xc5, 0x92,
];

// The request that the head and these bytes make.
fn with_bytes(rt: &impl Abort, alloc: Global, head: Head, bytes: &[u8]) -> Request {
    assert!(rt; head.body_len() == bytes.len() as u64);
    let bytes = bytes.to_vec(alloc).expect(rt, "memory");
    let share = Share::new(alloc, bytes).expect(rt, "memory");
    head.with_body(Body::of(share))
}

const QUERY: &[(&str, &str)] = &[
    ("x", "1"),
    ("y", ""),
    ("z", "%zz"),
    ("w", "+"),
    ("v", "e=f"),
];

const HEADERS: &[(&str, &str)] = &[
    ("host", "h"),
    ("content-type", "text/plain"),
    ("content-md5", "XUFAKrxLKna5cZ2REBfFkg=="),
    ("x-ms-blob-type", "BlockBlob"),
    ("content-length", "5"),
    ("expect", "100-continue"),
    ("connection", "close"),
];

// Whether these are the fields, in this order.
fn are_fields(fields: &FieldList, wanted: &[(&str, &str)]) -> bool {
    for (field, (name, value)) in fields.fields().zip(wanted) {
        if field.name != name.as_bytes() || field.value != value.as_bytes() {
            return false;
        }
    }
    fields.len() == wanted.len()
}

// Asserts the path as it was sent, the decoded parameters in their order with names in lower case, and all headers
// except Authorization.
fn assert_signs(rt: &impl Abort, signing: &Signing) {
    assert!(rt; signing.verb == Verb::Put);
    assert!(rt; signing.path.as_slice() == b"/acct/box/a%2Fb".as_slice());
    assert!(rt; are_fields(&signing.query, QUERY));
    assert!(rt; are_fields(&signing.headers, HEADERS));
}

fn assert_keeps(rt: &impl Abort, kept: &Kept) {
    assert!(rt; kept.content_type.as_str() == "text/plain");
    assert!(rt; kept.encoding.as_str() == "");
    assert!(rt; kept.md5.is_none());
}

fn assert_asks(rt: &impl Abort, ask: &Ask) {
    assert!(rt; ask.op == Op::PutBlob);
    assert!(rt; ask.key.account.as_str() == "acct");
    assert!(rt; ask.key.container.as_str() == "box");
    assert!(rt; matches!(&ask.blob, Some(blob) if blob.as_str() == "a/b"));
    assert!(rt; ask.args.content_md5 == Some(SUM));
    assert!(rt;
        matches!(&ask.credential, Credential::Shared(values) if values.as_slice().len() == 1)
    );
    assert_signs(rt, &ask.signing);
    let Some(kept) = &ask.args.kept else {
        panic!(rt; "nothing kept");
    };
    assert_keeps(rt, kept);
}

#[test]
fn a_put_with_its_body(rt: HostRuntime) {
    let head = read_head(rt.alloc(), PUT.as_bytes()).expect(&rt, "a head");
    assert!(rt; head.verb() == Verb::Put);
    assert!(rt; head.expects());
    assert!(rt; head.closes());
    let request = with_bytes(&rt, rt.alloc(), head, b"hello");
    assert!(rt; request.body().as_slice() == b"hello".as_slice());
    assert_asks(&rt, request.ask());
}

#[test]
fn the_body_of_a_get_is_dropped(rt: HostRuntime) {
    let text = b"GET /acct/box/b HTTP/1.1\r\nContent-Length: 5\r\n\r\n";
    let head = read_head(rt.alloc(), text).expect(&rt, "a head");
    assert!(rt; !head.expects());
    assert!(rt; !head.closes());
    let request = with_bytes(&rt, rt.alloc(), head, b"hello");
    assert!(rt; request.body().is_empty());
    assert!(rt; request.ask().args.kept.is_none());
    assert!(rt; matches!(request.ask().credential, Credential::Anonymous));
}

// How bytes are refused.
fn denial(alloc: Global, text: &str) -> Option<Denial> {
    match read_head(alloc, text.as_bytes()).err() {
        Some(HeadFault::Denied(denial)) => Some(denial),
        _ => None,
    }
}

#[test]
fn a_denial_names_the_verb_that_was_read(rt: HostRuntime) {
    let no_head = no_head();
    assert!(rt; no_head.rule == Rule::F1 && no_head.code == Code::InvalidInput);
    assert!(rt; no_head.status == Status::BadRequest && no_head.verb.is_none());
    // No bytes, no request line, bytes after a head, a head without the empty line at its end, and a fragment.
    let refused = [
        "",
        "hello\r\n\r\n",
        "GET /acct/box/b HTTP/1.1\r\n\r\nb",
        "GET /acct/box/b HTTP/1.1\r\n",
        "HEAD /acct/box/b# HTTP/1.1\r\n\r\n",
    ];
    for text in refused {
        assert!(rt; denial(rt.alloc(), text) == Some(no_head), "of {text}");
    }
    let unserved = Denial {
        rule: Rule::F3,
        status: Status::BadRequest,
        code: Code::InvalidQueryParameterValue,
        verb: Some(Verb::Head),
    };
    assert!(rt; denial(rt.alloc(), "HEAD /acct/box/b?comp=x HTTP/1.1\r\n\r\n") == Some(unserved));
}
