//! What no clause says about requests: that each call can succeed, and how much memory requests
//! take.

use crate::resident::resident;
use crate::sample_values::{kept, key, long_share, moment, share, text};
use stamp_types::{
    Args, Ask, Body, Bytes, Credential, FieldList, Op, Past, Request, Share, Signing, Verb,
};
use std::alloc::Global;
use std::process::Abort;

const HOLDS: usize = 1024 * 1024;

// The signing of a request that nobody signed.
fn unsigned(alloc: Global) -> Signing {
    Signing {
        verb: Verb::Put,
        headers: FieldList::new(alloc),
        path: Bytes::new(Vec::new(alloc)),
        query: FieldList::new(alloc),
    }
}

// A Put Blob into this container.
pub(crate) fn put_blob(rt: &impl Abort, alloc: Global, container: &str) -> Ask {
    let mut args = Args::none();
    args.kept = Some(kept(alloc));
    Ask {
        op: Op::PutBlob,
        key: key(rt, alloc, "pantry", container),
        blob: Some(text(rt, alloc, "plum/2012")),
        args,
        signing: unsigned(alloc),
        credential: Credential::Anonymous,
    }
}

// A Put Blob of these bytes into this container.
fn put(rt: &impl Abort, alloc: Global, container: &str, body: Share) -> Option<Request> {
    Request::new(alloc, put_blob(rt, alloc, container), Body::of(body)).expect(rt, "memory")
}

fn put_bytes(rt: &impl Abort, alloc: Global, bytes: &[u8]) -> Request {
    put(rt, alloc, "jam", share(rt, alloc, bytes)).expect(rt, "a request")
}

#[test]
fn requests_are_made_and_compared_with_their_bodies_or_without(rt: HostRuntime) {
    let hello = put_bytes(&rt, rt.alloc(), b"hello");
    assert!(rt; hello.body().as_slice() == b"hello".as_slice());
    let without = hello.without_body().expect(&rt, "memory");
    assert!(rt; without.body().is_empty());
    assert!(rt; without.same_ask(&hello));
    assert!(rt; !without.same(&hello));
}

#[test]
fn a_bad_container_is_refused(rt: HostRuntime) {
    assert!(rt; put(&rt, rt.alloc(), "-jam", Share::empty()).is_none());
}

#[test]
fn pasts_are_copied(rt: HostRuntime) {
    let past = Past {
        request: put_bytes(&rt, rt.alloc(), b"hello"),
        moment: moment(&rt),
        epoch: 1,
    };
    assert!(rt; past.clone().expect(&rt, "memory").same(&past));
}

#[test]
fn requests_share_their_bodies(rt: HostRuntime) {
    let alloc = rt.alloc();
    let body = long_share(&rt, alloc, HOLDS);
    let request = put(&rt, alloc, "jam", body).expect(&rt, "a request");
    assert_eq!(rt; request.body().len(), HOLDS);
    let before = resident(&rt).expect(&rt, "a status");
    assert!(rt; before >= 1024, "the body isn't in the count");
    let mut requests = Vec::new(alloc);
    let mut slices = Vec::new(alloc);
    for i in 0..1000 {
        let slice = request.body().as_share().slice(i, HOLDS - i);
        requests
            .push(request.clone().expect(&rt, "memory"))
            .expect(&rt, "memory");
        slices
            .push(slice.expect(&rt, "memory"))
            .expect(&rt, "memory");
    }
    let more = resident(&rt).expect(&rt, "a status").saturating_sub(before);
    assert!(rt; more < 8 * 1024, "{more} kB more than {before} kB");
    // All requests and slices are still owned here.
    assert!(rt; requests.iter().all(|r| r.body().len() == HOLDS));
    assert!(rt; slices.iter().all(|s| s.len() > HOLDS - 2000));
}
