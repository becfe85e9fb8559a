//! Two threads on two slots, with splits before and after. Signatures were made outside of this repository's code.
ghost use Rattle.std.specs.Prelude.{◌≡◌, ◌∷◌, []};
ghost use Rattle.served_history.specs.declared.entry.Entry.TheVariants.{Opened};

use crate::connection::{SlotsService, two_connections_agree};
use crate::slots::Slots;
use crate::splitting::SplitFault;
use access_rules::Keys;
use hmac_sign::SigningKey;
use http_front::{Clock, End, run};
use served_history::{Account, LogFront, NewHistory};
use stamp_types::{AccountName, Key, Moment, Text};
use std::alloc::Global;
use std::marker::Brand;
use std::process::Abort;
use std::sync::Wait;
use std::thread;
use std::thread::Threads;

// 2012-10-01T12:00:00Z, in steps of 100 ns since 1970.
const NOON: i64 = 13_490_928_000_000_000;

// A Create Container of `pics`, and one of `zoo`, signed by `key1`.
pub(crate) const CREATE_PICS: &[u8] =
    b"PUT /devstoreaccount1/pics?restype=container HTTP/1.1\r\nHost: 127.0.0.1:10000\r\nContent-Length: 0\r\nx-ms-date: Mon, 01 Oct 2012 12:00:00 GMT\r\nx-ms-version: 2012-02-12\r\nAuthorization: SharedKey devstoreaccount1:/Zt/M8NwlklmDGB00sttbyo87McxrIOvJXhMqumuXk0=\r\n\r\n";

pub(crate) const CREATE_ZOO: &[u8] =
    b"PUT /devstoreaccount1/zoo?restype=container HTTP/1.1\r\nHost: 127.0.0.1:10000\r\nContent-Length: 0\r\nx-ms-date: Mon, 01 Oct 2012 12:00:00 GMT\r\nx-ms-version: 2012-02-12\r\nAuthorization: SharedKey devstoreaccount1:haukiv7v0Kzr/F0PL2Q2U8U8/IFnNxb5QESCzHeV8s4=\r\n\r\n";

// A Put Blob of `hello` in `zoo`, signed by `key2`, and a Get Blob of it, signed by `key1`.
pub(crate) const PUT_ZOO: &[u8] =
    b"PUT /devstoreaccount1/zoo/a.txt HTTP/1.1\r\nHost: 127.0.0.1:10000\r\nContent-Length: 5\r\nx-ms-blob-type: BlockBlob\r\nx-ms-version: 2012-02-12\r\nx-ms-date: Mon, 01 Oct 2012 12:00:00 GMT\r\nAuthorization: SharedKey devstoreaccount1:J7x7YYTVFdd/9H13v+LVnSI57kU5E0iRDARdHIZtI2s=\r\n\r\nhello";

pub(crate) const GET_ZOO: &[u8] =
    b"GET /devstoreaccount1/zoo/a.txt HTTP/1.1\r\nHost: 127.0.0.1:10000\r\nx-ms-date: Mon, 01 Oct 2012 12:00:00 GMT\r\nx-ms-version: 2012-02-12\r\nAuthorization: SharedKey devstoreaccount1:Muw219Dbwl1JBUm8X+nd46mT5S/ZOET7XXuau7CuBeI=\r\n\r\n";

pub(crate) const CREATED: &[u8] = b"HTTP/1.1 201 Created\r\n";

/// A clock that always gives the same moment.
#[derive(Drop)]
struct Still {
    moment: Moment,
}

impl Clock for Still {
    ghost gives = { λ still moment new. (moment ≡ still.moment) × (new ≡ still) };

    fn now(&mut self) -> Moment {
        self.moment
    }
}

// Sends the input on the connection, and gives all that is written.
pub(crate) fn sent<A: Account, R: Wait + Abort>(
    rt: &R,
    alloc: Global,
    connection: &mut SlotsService<'_, A, R>,
    input: &[u8],
) -> Vec<u8> {
    let moment = Moment::new(NOON).expect(rt, "a moment");
    let mut http = http_front::Connection::new(alloc, input, Vec::new(alloc), 1_000);
    let end = run(alloc, &mut http, &mut Still { moment }, connection);
    assert!(rt; end == Ok(End::Clean));
    let (_, out) = http.into_parts();
    out
}

// The same, on a connection that ends then and gives what it knows.
fn sent_on<A: Account, R: Wait + Abort>(
    rt: &R,
    alloc: Global,
    connection: SlotsService<'_, A, R>,
    input: &[u8],
) -> (Vec<u8>, LogFront<A>) {
    let mut connection = connection;
    let out = sent(rt, alloc, &mut connection, input);
    (out, connection.into_known())
}

// A key of the account.
pub(crate) fn key(rt: &impl Abort, alloc: Global, container: &str) -> Key {
    let account = String::from_str(alloc, "devstoreaccount1").expect(rt, "memory");
    let container = String::from_str(alloc, container).expect(rt, "memory");
    Key {
        account: Text::new(account).expect(rt, "a text"),
        container: Text::new(container).expect(rt, "a text"),
    }
}

// Two threads create containers of two slots. Then the upper slot is split, and each connection reads what the other one wrote.
fn two_slots<A: Account + Send + Sync, R: Threads + Wait + Abort + Sync>(
    rt: &R,
    alloc: Global,
    pairs: Vec<Keys>,
    history: NewHistory,
)
    requires book { history.book ≡ A.history }
    requires fresh { history.next ≡ 0 }
    requires log { history.log ≡ Opened pairs.items ∷ [] }
{
    let (slots, front) = Slots::<A>::new(alloc, pairs, history).expect(rt, "memory");
    let slots = &slots;
    assert!(rt; slots.split(rt, alloc, &key(rt, alloc, "q")).is_ok());
    let first = SlotsService::new(rt, slots, front.again());
    let second = SlotsService::new(rt, slots, front);
    let ((one, known), (two, also)) = thread::join(
        rt,
        move || -> (Vec<u8>, LogFront<A>) { sent_on(rt, alloc, first, CREATE_PICS) },
        move || -> (Vec<u8>, LogFront<A>) { sent_on(rt, alloc, second, CREATE_ZOO) },
    );
    assert!(rt; one.starts_with(CREATED));
    assert!(rt; two.starts_with(CREATED));
    assert!(rt; slots.split(rt, alloc, &key(rt, alloc, "z")).is_ok());
    assert!(rt; slots.split(rt, alloc, &key(rt, alloc, "z")) == Err(SplitFault::FirstKey));
    let mut first = SlotsService::new(rt, slots, known);
    let mut second = SlotsService::new(rt, slots, also);
    assert!(rt; sent(rt, alloc, &mut first, PUT_ZOO).starts_with(CREATED));
    assert!(rt; sent(rt, alloc, &mut second, GET_ZOO).ends_with(b"\r\n\r\nhello"));
    two_connections_agree(&first, &second);
}

// The bytes of a key that signs.
pub(crate) fn signing(rt: &impl Abort, alloc: Global, bytes: &[u8]) -> SigningKey {
    SigningKey::new(bytes.to_vec(alloc).expect(rt, "memory"))
}

// The account `devstoreaccount1` with the keys `key1` and `key2`.
pub(crate) fn pairs(rt: &impl Abort, alloc: Global) -> Vec<Keys> {
    let name = String::from_str(alloc, "devstoreaccount1").expect(rt, "memory");
    let keys = Keys {
        account: Text::new(name)
            .and_then(AccountName::new)
            .expect(rt, "the name of an account"),
        first: signing(rt, alloc, b"key1"),
        second: signing(rt, alloc, b"key2"),
        epoch: 0,
    };
    let mut pairs = Vec::new(alloc);
    pairs.push(keys).expect(rt, "memory");
    pairs
}

#[test]
fn requests_to_two_slots_have_one_history(rt: HostRuntime) {
    let pairs = pairs(&rt, rt.alloc());
    let history = NewHistory::new(&pairs);
    two_slots::<Brand, _>(&rt, rt.alloc(), pairs, history);
}
