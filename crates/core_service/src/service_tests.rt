//! A service that has its core to itself. Signatures and sums were made outside of this repository's code.
ghost use Rattle.std.specs.Prelude.{◌≡◌};

use crate::service::CoreService;
use access_rules::Keys;
use hmac_sign::SigningKey;
use http_front::{Clock, End, Service, run};
use stamp_types::{AccountName, Moment, Text};
use std::alloc::Global;
use std::process::Abort;

// 2012-10-01T12:00:00Z, in steps of 100 ns since 1970.
const NOON: i64 = 13_490_928_000_000_000;

// A Create Container of `pics`, signed by `key1`.
const CREATE: &[u8] =
    b"PUT /devstoreaccount1/pics?restype=container HTTP/1.1\r\nHost: 127.0.0.1:10000\r\nContent-Length: 0\r\nx-ms-date: Mon, 01 Oct 2012 12:00:00 GMT\r\nx-ms-version: 2012-02-12\r\nAuthorization: SharedKey devstoreaccount1:/Zt/M8NwlklmDGB00sttbyo87McxrIOvJXhMqumuXk0=\r\n\r\n";

// A Put Blob of `hello`, signed by `key2`.
const PUT: &[u8] =
    b"PUT /devstoreaccount1/pics/a.txt HTTP/1.1\r\nHost: 127.0.0.1:10000\r\nContent-Length: 5\r\nx-ms-blob-type: BlockBlob\r\nx-ms-version: 2012-02-12\r\nx-ms-date: Mon, 01 Oct 2012 12:00:00 GMT\r\nAuthorization: SharedKey devstoreaccount1:O9UZNW452QDPdLw1F6p3ZC4NHU5qWVzYuTPZoHu3yXw=\r\n\r\nhello";

// The head of a Put Block of 3,500,000 bytes, signed by `key1`.
const PUT_BLOCK: &[u8] =
    b"PUT /devstoreaccount1/pics/a.txt?comp=block&blockid=AAAA HTTP/1.1\r\nx-ms-date: Mon, 01 Oct 2012 12:00:00 GMT\r\nx-ms-version: 2012-02-12\r\nContent-Length: 3500000\r\nAuthorization: SharedKey devstoreaccount1:nEov6sNyTR++xDdeS1fSSQbYU+lTqqbgLXdRS+TMJi0=\r\n\r\n";

// A Get Blob of it, signed by `key1`.
const GET: &[u8] =
    b"GET /devstoreaccount1/pics/a.txt HTTP/1.1\r\nHost: 127.0.0.1:10000\r\nx-ms-date: Mon, 01 Oct 2012 12:00:00 GMT\r\nx-ms-version: 2012-02-12\r\nAuthorization: SharedKey devstoreaccount1:1faO58/enDoA9unDNvD2pMLw3jmfkbnVyTRBzimElkI=\r\n\r\n";

const CREATED: &[u8] = b"HTTP/1.1 201 Created\r\n";

const CONFLICT: &[u8] = b"HTTP/1.1 409 Conflict\r\n";

const MISSING: &[u8] = b"HTTP/1.1 404 Not Found\r\n";

/// A clock that always gives the same moment.
#[derive(Drop)]
struct Still {
    moment: Moment,
}

impl Clock for Still {
    ghost gives = { λ still moment new. (moment ≡ still.moment) × (new ≡ still) };

    fn now(&mut self) -> Moment {
        self.moment
    }
}

// Sends the input to the service, and returns all that is written.
fn sent<S: Service, R: Abort>(rt: &R, alloc: Global, service: &mut S, input: &[u8]) -> Vec<u8> {
    let moment = Moment::new(NOON).expect(rt, "a moment");
    let mut http = http_front::Connection::new(alloc, input, Vec::new(alloc), 1_000);
    let end = run(alloc, &mut http, &mut Still { moment }, service);
    assert!(rt; end == Ok(End::Clean));
    let (_, out) = http.into_parts();
    out
}

// A block is put five times under one id. A block that is not committed counts as wasted before a sweep, and five are more than 16 MiB.
fn waste<S: Service, R: Abort>(rt: &R, alloc: Global, service: &mut S) {
    assert!(rt; sent(rt, alloc, service, CREATE).starts_with(CREATED));
    let mut request = PUT_BLOCK.to_vec(alloc).expect(rt, "memory");
    let body = vec![in alloc; 7u8; 3_500_000].expect(rt, "memory");
    request
        .extend_from_slice(body.as_slice())
        .expect(rt, "memory");
    for _put in 0..5 {
        assert!(rt; sent(rt, alloc, service, request.as_slice()).starts_with(CREATED));
    }
}

// The bytes of a key that signs.
fn key(rt: &impl Abort, alloc: Global, bytes: &[u8]) -> SigningKey {
    SigningKey::new(bytes.to_vec(alloc).expect(rt, "memory"))
}

// The account `devstoreaccount1` with the keys `key1` and `key2`.
fn keys(rt: &impl Abort, alloc: Global) -> Keys
    ensures { result.epoch ≡ 0 }
{
    let name = String::from_str(alloc, "devstoreaccount1").expect(rt, "memory");
    Keys {
        account: Text::new(name)
            .and_then(AccountName::new)
            .expect(rt, "the name of an account"),
        first: key(rt, alloc, b"key1"),
        second: key(rt, alloc, b"key2"),
        epoch: 0,
    }
}

#[test]
fn a_service_over_a_core_keeps_what_it_creates(rt: HostRuntime) {
    let keys = keys(&rt, rt.alloc()); // `key1` and `key2` of `devstoreaccount1`, of the epoch 0
    let mut service = CoreService::new(rt.alloc(), &keys).expect(&rt, "memory");
    // `sent` serves a new connection by `run`, and returns all that is written to it.
    assert!(rt; sent(&rt, rt.alloc(), &mut service, CREATE).starts_with(CREATED));
    assert!(rt; sent(&rt, rt.alloc(), &mut service, CREATE).starts_with(CONFLICT));
    // A Put Blob of `hello`, and a Get Blob of it.
    assert!(rt; sent(&rt, rt.alloc(), &mut service, PUT).starts_with(CREATED));
    assert!(rt; sent(&rt, rt.alloc(), &mut service, GET).ends_with(b"\r\n\r\nhello"));
}

#[test]
fn a_service_sweeps_what_is_wasted(rt: HostRuntime) {
    let keys = keys(&rt, rt.alloc());
    let mut service = CoreService::new(rt.alloc(), &keys).expect(&rt, "memory");
    waste(&rt, rt.alloc(), &mut service);
    assert!(rt; service.is_wasteful());
    // A request that reads makes no step.
    assert!(rt; sent(&rt, rt.alloc(), &mut service, GET).starts_with(MISSING));
    assert!(rt; service.is_wasteful());
    // The container and the blob have a row each, so two requests that write are enough.
    for _put in 0..2 {
        assert!(rt; sent(&rt, rt.alloc(), &mut service, PUT).starts_with(CREATED));
    }
    assert!(rt; !service.is_wasteful());
    assert!(rt; sent(&rt, rt.alloc(), &mut service, GET).ends_with(b"\r\n\r\nhello"));
}
