//! Metadata and levels of public access in heads: what a request has of them, and which values are refused.

use request_form::{HeadFault, read_head};
use stamp_types::{Body, Code, Level, Meta, Request, Rule};
use std::alloc::Global;
use std::process::Abort;

fn request(rt: &impl Abort, alloc: Global, text: &str) -> Request {
    let head = read_head(alloc, text.as_bytes()).expect(rt, "a head");
    assert!(rt; head.body_len() == 0);
    head.with_body(Body::empty())
}

// Whether these are the metadata, in this order.
fn are_metas(metas: &[Meta], wanted: &[(&str, &str)]) -> bool {
    for (meta, (name, value)) in metas.iter().zip(wanted) {
        if meta.name.as_str() != *name || meta.value.as_str() != *value {
            return false;
        }
    }
    metas.len() == wanted.len()
}

#[test]
fn metadata_come_by_their_names_in_lower_case(rt: HostRuntime) {
    let text =
        "PUT /acct/box?restype=container HTTP/1.1\r\nContent-Length: 0\r\nx-ms-meta-Color: red\r\nX-MS-Meta-a:\r\nx-ms-meta-_1: ~ ~\r\nx-ms-meta-a1: 2\r\n\r\n";
    let request = request(&rt, rt.alloc(), text);
    let wanted = [("_1", "~ ~"), ("a", ""), ("a1", "2"), ("color", "red")];
    assert!(rt; are_metas(request.ask().args.metadata.as_slice(), &wanted));
    assert!(rt; request.ask().args.level == Some(Level::Closed));
    assert!(rt; request.ask().blob.is_none());
}

#[test]
fn metadata_of_a_get_are_dropped(rt: HostRuntime) {
    let text = "GET /acct/box/b HTTP/1.1\r\nx-ms-meta-a: \u{e9}\r\n\r\n";
    let request = request(&rt, rt.alloc(), text);
    assert!(rt; request.ask().args.metadata.as_slice().is_empty());
    assert!(rt; request.ask().args.level.is_none());
}

// The code of rule F7, if F7 refuses a head.
fn bad_value(alloc: Global, text: &str) -> Option<Code> {
    match read_head(alloc, text.as_bytes()).err() {
        Some(HeadFault::Denied(denial)) if denial.rule == Rule::F7 => Some(denial.code),
        _ => None,
    }
}

#[test]
fn values_of_metadata_and_levels_beside_their_neighbours(rt: HostRuntime) {
    let metadata = Some(Code::InvalidMetadata);
    let value = Some(Code::InvalidHeaderValue);
    let rows = [
        (
            "PUT /acct/box?restype=container HTTP/1.1\r\nContent-Length: 0\r\nx-ms-meta-:\r\n\r\n",
            metadata,
        ),
        (
            "PUT /acct/box?restype=container HTTP/1.1\r\nContent-Length: 0\r\nx-ms-meta-1a:\r\n\r\n",
            metadata,
        ),
        (
            "PUT /acct/box?restype=container HTTP/1.1\r\nContent-Length: 0\r\nx-ms-meta-a-b:\r\n\r\n",
            metadata,
        ),
        (
            "PUT /acct/box?restype=container HTTP/1.1\r\nContent-Length: 0\r\nx-ms-meta-a: \u{e9}\r\n\r\n",
            metadata,
        ),
        (
            "PUT /acct/box?restype=container HTTP/1.1\r\nContent-Length: 0\r\nx-ms-meta-a: 1\r\nx-ms-meta-A: 1\r\n\r\n",
            metadata,
        ),
        (
            "GET /acct/box/b HTTP/1.1\r\nx-ms-meta-a: 1\r\nx-ms-meta-A: 2\r\n\r\n",
            metadata,
        ),
        (
            "HEAD /acct/box/b HTTP/1.1\r\nx-ms-meta-1: 1\r\n\r\n",
            metadata,
        ),
        (
            "GET /acct/box/b HTTP/1.1\r\nx-ms-meta-a: \u{e9}\r\n\r\n",
            None,
        ),
        (
            "PUT /acct/box?restype=container HTTP/1.1\r\nContent-Length: 0\r\nx-ms-blob-public-access: blob\r\n\r\n",
            None,
        ),
        (
            "PUT /acct/box?restype=container HTTP/1.1\r\nContent-Length: 0\r\nx-ms-blob-public-access: container\r\n\r\n",
            None,
        ),
        (
            "PUT /acct/box?restype=container HTTP/1.1\r\nContent-Length: 0\r\nx-ms-blob-public-access: Blob\r\n\r\n",
            value,
        ),
        (
            "PUT /acct/box?restype=container HTTP/1.1\r\nContent-Length: 0\r\nx-ms-blob-public-access:\r\n\r\n",
            value,
        ),
        (
            "PUT /acct/box?restype=container HTTP/1.1\r\nContent-Length: 0\r\nx-ms-meta-1:\r\nx-ms-blob-public-access: x\r\n\r\n",
            value,
        ),
        (
            "DELETE /acct/box?restype=container HTTP/1.1\r\nx-ms-blob-public-access: x\r\n\r\n",
            None,
        ),
    ];
    for (text, wanted) in rows {
        assert!(rt; bad_value(rt.alloc(), text) == wanted, "of {text}");
    }
}

#[test]
fn levels_that_are_set(rt: HostRuntime) {
    let blob =
        "PUT /acct/box?restype=container HTTP/1.1\r\nContent-Length: 0\r\nx-ms-blob-public-access: blob\r\n\r\n";
    let container =
        "PUT /acct/box?restype=container HTTP/1.1\r\nContent-Length: 0\r\nx-ms-blob-public-access: container\r\n\r\n";
    assert!(rt; request(&rt, rt.alloc(), blob).ask().args.level == Some(Level::Blob));
    assert!(rt; request(&rt, rt.alloc(), container).ask().args.level == Some(Level::Container));
}
