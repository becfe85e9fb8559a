//! Connections of tests, and what is sent by them.
ghost use Rattle.std.specs.Prelude.{◌≡◌};

use crate::sample_pairs::pair_of;
use access_rules::Keys;
use hmac_sign::SigningKey;
use http_front::{Clock, Connection, End, Service, run};
use request_form::read_head;
use stamp_types::{AccountName, Body, Key, Moment, Request, Share, Text};
use std::alloc::Global;
use std::process::Abort;

// 2012-10-01T12:00:00Z, in steps of 100 ns since 1970.
const NOON: i64 = 13_490_928_000_000_000;

/// 2012-10-01T12:00:00Z.
pub(crate) fn noon(rt: &impl Abort) -> Moment {
    Moment::new(NOON).expect(rt, "a moment")
}

/// A clock that always gives the same moment.
#[derive(Drop)]
struct Still {
    moment: Moment,
}

impl Clock for Still {
    ghost gives = { λ still moment new. (moment ≡ still.moment) × (new ≡ still) };

    fn now(&mut self) -> Moment {
        self.moment
    }
}

/// Sends the input to the service, and returns what is written.
pub(crate) fn sent<S: Service>(
    rt: &impl Abort,
    alloc: Global,
    service: &mut S,
    input: &[u8],
) -> Vec<u8> {
    let moment = Moment::new(NOON).expect(rt, "a moment");
    let mut http = Connection::new(alloc, input, Vec::new(alloc), 100);
    let end = run(alloc, &mut http, &mut Still { moment }, service);
    assert!(rt; end == Ok(End::Clean));
    let (_, out) = http.into_parts();
    out
}

/// Sends the input to the service, and looks at nothing that is written.
pub(crate) fn sent_if<S: Service>(rt: &impl Abort, alloc: Global, service: &mut S, input: &[u8]) {
    let moment = Moment::new(NOON).expect(rt, "a moment");
    let mut http = Connection::new(alloc, input, Vec::new(alloc), 100);
    let end = run(alloc, &mut http, &mut Still { moment }, service);
    assert!(rt; end.is_err());
}

/// The request of this head and this body.
pub(crate) fn request(rt: &impl Abort, alloc: Global, head: &[u8], body: &[u8]) -> Request {
    let head = read_head(alloc, head).expect(rt, "a head");
    assert!(rt; head.body_len() == body.len() as u64);
    let bytes = body.to_vec(alloc).expect(rt, "memory");
    let share = Share::new(alloc, bytes).expect(rt, "memory");
    head.with_body(Body::of(share))
}

/// The text.
pub(crate) fn text(rt: &impl Abort, alloc: Global, text: &str) -> Text {
    let text = String::from_str(alloc, text).expect(rt, "memory");
    Text::new(text).expect(rt, "a clean text")
}

/// The key of a container of the account.
pub(crate) fn key(rt: &impl Abort, alloc: Global, container: &str) -> Key {
    Key {
        account: text(rt, alloc, "devstoreaccount1"),
        container: text(rt, alloc, container),
    }
}

fn signing_key(rt: &impl Abort, alloc: Global, bytes: &[u8]) -> SigningKey {
    SigningKey::new(bytes.to_vec(alloc).expect(rt, "memory"))
}

/// A pair of these keys of the account, of this epoch.
pub(crate) fn pair_with(
    rt: &impl Abort,
    alloc: Global,
    account: &str,
    first: &[u8],
    epoch: u64,
) -> Keys {
    let account = AccountName::new(text(rt, alloc, account)).expect(rt, "a name");
    let first = signing_key(rt, alloc, first);
    let second = signing_key(rt, alloc, b"key2");
    pair_of(account, first, second, epoch)
}

/// A pair of keys of the account, of this epoch.
pub(crate) fn pair(rt: &impl Abort, alloc: Global, epoch: u64) -> Keys {
    pair_with(rt, alloc, "devstoreaccount1", b"key1", epoch)
}

/// The first pair of keys of the account.
pub(crate) fn pairs(rt: &impl Abort, alloc: Global) -> Vec<Keys> {
    let mut pairs = Vec::new(alloc);
    pairs.push(pair(rt, alloc, 0)).expect(rt, "memory");
    pairs
}

/// Whether the service answers the input with a reply that begins like this.
pub(crate) fn begins<S: Service>(
    rt: &impl Abort,
    alloc: Global,
    service: &mut S,
    input: &[u8],
    front: &[u8],
) -> bool {
    sent(rt, alloc, service, input).starts_with(front)
}

/// Whether the service answers the input with a reply that ends like this.
pub(crate) fn ends<S: Service>(
    rt: &impl Abort,
    alloc: Global,
    service: &mut S,
    input: &[u8],
    end: &[u8],
) -> bool {
    sent(rt, alloc, service, input).ends_with(end)
}

/// Whether the text is in the service's reply to the input.
pub(crate) fn says<S: Service>(
    rt: &impl Abort,
    alloc: Global,
    service: &mut S,
    input: &[u8],
    text: &str,
) -> bool {
    let out = sent(rt, alloc, service, input);
    match str::from_utf8(&out) {
        Ok(reply) => reply.contains(text),
        Err(_) => false,
    }
}
