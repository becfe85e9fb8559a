//! Which operation a head asks for: each row of the table of operations, beside heads that fit no row.

use request_form::read_head;
use stamp_types::{Body, Op};
use std::alloc::Global;
use std::process::Abort;

// The operation of a head without a body, if no rule refuses the head.
fn op(rt: &impl Abort, alloc: Global, text: &str) -> Option<Op> {
    let head = read_head(alloc, text.as_bytes()).ok()?;
    assert!(rt; head.body_len() == 0);
    let request = head.with_body(Body::empty());
    Some(request.ask().op)
}

fn assert_ops(rt: &impl Abort, alloc: Global, rows: &[(&str, Option<Op>)]) {
    for (text, wanted) in rows {
        assert!(rt; op(rt, alloc, text) == *wanted, "of {text}");
    }
}

#[test]
fn heads_about_containers(rt: HostRuntime) {
    let rows = [
        (
            "PUT /acct/box?restype=container HTTP/1.1\r\nContent-Length: 0\r\n\r\n",
            Some(Op::CreateContainer),
        ),
        (
            "PUT /acct/box/?restype=container HTTP/1.1\r\nContent-Length: 0\r\n\r\n",
            Some(Op::CreateContainer),
        ),
        ("PUT /acct/box HTTP/1.1\r\nContent-Length: 0\r\n\r\n", None),
        (
            "PUT /acct/box?restype= HTTP/1.1\r\nContent-Length: 0\r\n\r\n",
            None,
        ),
        (
            "PUT /acct/box?restype=Container HTTP/1.1\r\nContent-Length: 0\r\n\r\n",
            None,
        ),
        (
            "PUT /acct/box?restype=container&comp= HTTP/1.1\r\nContent-Length: 0\r\n\r\n",
            None,
        ),
        (
            "PUT /acct?restype=container HTTP/1.1\r\nContent-Length: 0\r\n\r\n",
            None,
        ),
        (
            "GET /acct/box?restype=container HTTP/1.1\r\n\r\n",
            Some(Op::ContainerProperties),
        ),
        (
            "HEAD /acct/box?restype=container HTTP/1.1\r\n\r\n",
            Some(Op::ContainerProperties),
        ),
        (
            "GET /acct/box?restype=container&comp=metadata HTTP/1.1\r\n\r\n",
            None,
        ),
        (
            "PUT /acct/box?comp=metadata&restype=container HTTP/1.1\r\nContent-Length: 0\r\n\r\n",
            Some(Op::SetContainerMetadata),
        ),
        (
            "PUT /acct/box?comp=metadata HTTP/1.1\r\nContent-Length: 0\r\n\r\n",
            None,
        ),
        (
            "DELETE /acct/box?restype=container HTTP/1.1\r\n\r\n",
            Some(Op::DeleteContainer),
        ),
        (
            "DELETE /acct/box?restype=container&comp=metadata HTTP/1.1\r\n\r\n",
            None,
        ),
    ];
    assert_ops(&rt, rt.alloc(), &rows);
}

#[test]
fn heads_about_blobs(rt: HostRuntime) {
    let rows = [
        (
            "PUT /acct/box/b HTTP/1.1\r\nContent-Length: 0\r\nx-ms-blob-type: BlockBlob\r\n\r\n",
            Some(Op::PutBlob),
        ),
        (
            "PUT /acct/box/b?restype=container HTTP/1.1\r\nContent-Length: 0\r\nx-ms-blob-type: BlockBlob\r\n\r\n",
            None,
        ),
        ("GET /acct/box/b HTTP/1.1\r\n\r\n", Some(Op::GetBlob)),
        ("GET /acct/box/b?comp=Metadata HTTP/1.1\r\n\r\n", None),
        (
            "HEAD /acct/box/b HTTP/1.1\r\n\r\n",
            Some(Op::BlobProperties),
        ),
        ("HEAD /acct/box/b?comp= HTTP/1.1\r\n\r\n", None),
        (
            "GET /acct/box/b?comp=metadata HTTP/1.1\r\n\r\n",
            Some(Op::GetMetadata),
        ),
        (
            "HEAD /acct/box/b?COMP=metadata HTTP/1.1\r\n\r\n",
            Some(Op::GetMetadata),
        ),
        (
            "HEAD /acct/box/b?restype=container&comp=metadata HTTP/1.1\r\n\r\n",
            None,
        ),
        (
            "PUT /acct/box/b?comp=metadata HTTP/1.1\r\nContent-Length: 0\r\n\r\n",
            Some(Op::SetMetadata),
        ),
        (
            "PUT /acct/box/b?comp=metadata&comp=metadata HTTP/1.1\r\nContent-Length: 0\r\n\r\n",
            None,
        ),
        ("DELETE /acct/box/b HTTP/1.1\r\n\r\n", Some(Op::DeleteBlob)),
        ("DELETE /acct/box/b?comp=metadata HTTP/1.1\r\n\r\n", None),
    ];
    assert_ops(&rt, rt.alloc(), &rows);
}

#[test]
fn heads_about_lists(rt: HostRuntime) {
    let rows = [
        (
            "GET /acct?comp=list HTTP/1.1\r\n\r\n",
            Some(Op::ListContainers),
        ),
        (
            "GET /acct/?comp=list HTTP/1.1\r\n\r\n",
            Some(Op::ListContainers),
        ),
        ("GET /acct HTTP/1.1\r\n\r\n", None),
        ("GET /acct?comp=List HTTP/1.1\r\n\r\n", None),
        ("GET /acct?comp=list&restype= HTTP/1.1\r\n\r\n", None),
        (
            "GET /acct?comp=list&restype=container HTTP/1.1\r\n\r\n",
            None,
        ),
        ("HEAD /acct?comp=list HTTP/1.1\r\n\r\n", None),
        (
            "PUT /acct?comp=list HTTP/1.1\r\nContent-Length: 0\r\n\r\n",
            None,
        ),
        ("GET /?comp=list HTTP/1.1\r\n\r\n", None),
        (
            "GET /acct/box?restype=container&comp=list HTTP/1.1\r\n\r\n",
            Some(Op::ListBlobs),
        ),
        ("GET /acct/box?comp=list HTTP/1.1\r\n\r\n", None),
        (
            "HEAD /acct/box?restype=container&comp=list HTTP/1.1\r\n\r\n",
            None,
        ),
        (
            "DELETE /acct/box?restype=container&comp=list HTTP/1.1\r\n\r\n",
            None,
        ),
        ("GET /acct/box/b?comp=list HTTP/1.1\r\n\r\n", None),
        (
            "GET /acct/box/b?restype=container&comp=list HTTP/1.1\r\n\r\n",
            None,
        ),
    ];
    assert_ops(&rt, rt.alloc(), &rows);
}

#[test]
fn heads_about_access(rt: HostRuntime) {
    let rows = [
        (
            "GET /acct/box?restype=container&comp=acl HTTP/1.1\r\n\r\n",
            Some(Op::GetAcl),
        ),
        (
            "HEAD /acct/box?restype=container&comp=acl HTTP/1.1\r\n\r\n",
            Some(Op::GetAcl),
        ),
        (
            "PUT /acct/box?restype=container&comp=acl HTTP/1.1\r\nContent-Length: 0\r\n\r\n",
            Some(Op::SetAcl),
        ),
        (
            "DELETE /acct/box?restype=container&comp=acl HTTP/1.1\r\n\r\n",
            None,
        ),
        ("GET /acct/box?comp=acl HTTP/1.1\r\n\r\n", None),
        (
            "GET /acct/box?restype=container&comp=ACL HTTP/1.1\r\n\r\n",
            None,
        ),
        (
            "GET /acct/box/b?restype=container&comp=acl HTTP/1.1\r\n\r\n",
            None,
        ),
    ];
    assert_ops(&rt, rt.alloc(), &rows);
}

#[test]
fn heads_about_blocks(rt: HostRuntime) {
    let rows = [
        (
            "PUT /acct/box/b?comp=block&blockid=YQ== HTTP/1.1\r\nContent-Length: 0\r\n\r\n",
            Some(Op::PutBlock),
        ),
        (
            "PUT /acct/box/b?comp=block HTTP/1.1\r\nContent-Length: 0\r\n\r\n",
            None,
        ),
        (
            "PUT /acct/box/b?comp=Block&blockid=YQ== HTTP/1.1\r\nContent-Length: 0\r\n\r\n",
            None,
        ),
        (
            "PUT /acct/box?comp=block&blockid=YQ== HTTP/1.1\r\nContent-Length: 0\r\n\r\n",
            None,
        ),
        (
            "GET /acct/box/b?comp=block&blockid=YQ== HTTP/1.1\r\n\r\n",
            None,
        ),
        (
            "PUT /acct/box/b?comp=blocklist HTTP/1.1\r\nContent-Length: 0\r\n\r\n",
            Some(Op::PutBlockList),
        ),
        (
            "PUT /acct/box/b?restype=container&comp=blocklist HTTP/1.1\r\nContent-Length: 0\r\n\r\n",
            None,
        ),
        (
            "GET /acct/box/b?comp=blocklist HTTP/1.1\r\n\r\n",
            Some(Op::GetBlockList),
        ),
        ("HEAD /acct/box/b?comp=blocklist HTTP/1.1\r\n\r\n", None),
        ("DELETE /acct/box/b?comp=blocklist HTTP/1.1\r\n\r\n", None),
    ];
    assert_ops(&rt, rt.alloc(), &rows);
}
