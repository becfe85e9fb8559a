//! What no clause says about the audit book: that entries of each way can be made and posted, when posts come back, in which order
//! entries are read, and that readers and writers go on side by side.

use crate::access_cases::{ACCOUNT, Case, Sent, get_with, keys, request};
use crate::rule_tests::{DATED, FIRST, FIRST_OF_PLAIN, NOON};
use access_rules::{Keys, Way};
use policy_book::{Book, Entry, Revision};
use stamp_types::{Acl, Level, Moment, Op, Policies, Request};
use std::alloc::Global;
use std::process::Abort;
use std::sync::atomic::{AtomicUsize, Ordering};
use std::sync::{Arc, Wait};
use std::thread;
use std::thread::Threads;

// A token for `a.txt` until 13 o'clock. The signature was made by Python's hmac: see docs/formats/tokens.md.
const TOKEN: [(&str, &str); 5] = [
    ("sv", "2012-02-12"),
    ("sr", "b"),
    ("sp", "r"),
    ("se", "2012-10-01T13:00:00Z"),
    ("sig", "/pBX2z6ZAz3Vfm5I/v36IJDo956LK+rZZR6bLQuIrbY="),
];

// What judges the requests: a container that everybody may read blobs of, and the keys of the account.
#[derive(Drop)]
struct Policy {
    acl: Arc<Acl>,
    keys: Arc<Keys>,
}

fn new_policy(rt: &impl Abort, alloc: Global, epoch: u64) -> Policy {
    let mut pair = keys(rt, alloc, ACCOUNT);
    pair.epoch = epoch;
    let acl = Acl {
        level: Level::Blob,
        policies: Policies::empty(alloc),
    };
    Policy {
        acl: Arc::new(alloc, acl).expect(rt, "memory"),
        keys: Arc::new(alloc, pair).expect(rt, "memory"),
    }
}

fn revision(rt: &impl Abort, policy: &Policy) -> Revision {
    let acl = policy.acl.clone().expect(rt, "an owner");
    let keys = policy.keys.clone().expect(rt, "an owner");
    Revision::new(Some(acl), Some(keys))
}

// A request of `a.txt` in `pics` with this credential.
fn asked(rt: &impl Abort, alloc: Global, op: Op, sent: Sent) -> Request {
    let case = Case {
        op,
        kinds: None,
        sent,
        dated: DATED,
        account: ACCOUNT,
        level: None,
        now: NOON,
    };
    request(rt, alloc, &case)
}

// The entry of a request at noon.
fn entry(
    rt: &impl Abort,
    alloc: Global,
    request: &Request,
    place: u64,
    policy: &Policy,
) -> Option<Entry> {
    let noon = Moment::new(NOON).expect(rt, "a moment");
    let judged = Entry::judged(alloc, request, place, noon, revision(rt, policy));
    judged.expect(rt, "memory")
}

// The entry says what was asked and what allowed it.
fn check(rt: &impl Abort, alloc: Global, request: &Request, place: u64, way: Way) {
    let policy = new_policy(rt, alloc, 4);
    let entry = entry(rt, alloc, request, place, &policy).expect(rt, "an allowed request");
    assert!(rt; entry.way() == way && entry.place() == place);
    assert!(rt; Some(entry.moment()) == Moment::new(NOON));
    assert!(rt; entry.request().same_ask(request));
    assert!(rt; entry.revision().keys().is_some_and(|keys| keys.epoch == 4));
    assert!(rt;
        entry
            .revision()
            .acl()
            .is_some_and(|acl| acl.level == Level::Blob)
    );
}

#[test]
fn an_entry_is_made_of_each_way(rt: HostRuntime) {
    let alloc = rt.alloc();
    let put = asked(&rt, alloc, Op::PutBlob, Sent::Authorization(&[FIRST]));
    check(&rt, alloc, &put, 1, Way::Shared);
    check(&rt, alloc, &get_with(&rt, alloc, &TOKEN), 2, Way::Token);
    let get = asked(&rt, alloc, Op::GetBlob, Sent::Nothing);
    check(&rt, alloc, &get, 3, Way::Anonymous);
}

// The signature of another string, a Put Blob without a credential, and a token without parameters.
#[test]
fn a_refused_request_has_no_entry(rt: HostRuntime) {
    let alloc = rt.alloc();
    let policy = new_policy(&rt, alloc, 0);
    for sent in [
        Sent::Authorization(&[FIRST_OF_PLAIN]),
        Sent::Nothing,
        Sent::Token,
    ] {
        let put = asked(&rt, alloc, Op::PutBlob, sent);
        assert!(rt; entry(&rt, alloc, &put, 0, &policy).is_none());
    }
}

// Posts an entry of the place.
fn post<R: Wait + Abort>(
    rt: &R,
    alloc: Global,
    book: &Book,
    request: &Request,
    place: u64,
    policy: &Policy,
) -> Result<usize, u64> {
    let entry = entry(rt, alloc, request, place, policy).expect(rt, "an allowed request");
    match book.post(rt, entry) {
        Ok(receipt) => Ok(receipt.index()),
        Err(back) => Err(back.place()),
    }
}

#[test]
fn a_post_past_the_limit_comes_back(rt: HostRuntime) {
    let alloc = rt.alloc();
    let policy = new_policy(&rt, alloc, 0);
    let get = asked(&rt, alloc, Op::GetBlob, Sent::Nothing);
    let book = Book::new(alloc, 2).expect(&rt, "memory");
    assert!(rt; post(&rt, alloc, &book, &get, 10, &policy) == Ok(0));
    assert!(rt; post(&rt, alloc, &book, &get, 11, &policy) == Ok(1));
    assert!(rt; post(&rt, alloc, &book, &get, 12, &policy) == Err(12));
    assert!(rt; post(&rt, alloc, &book, &get, 13, &policy) == Err(13));
    assert!(rt; book.count() == 2 && book.limit() == 2);
    assert!(rt; book.at(1).is_some_and(|entry| entry.place() == 11));
    assert!(rt; book.at(2).is_none());
    let receipt = book.receipt_at(0).expect(&rt, "an entry");
    assert!(rt; book.audit_one(&receipt).place() == 10);
}

#[test]
fn a_book_without_entries_takes_none(rt: HostRuntime) {
    let alloc = rt.alloc();
    let policy = new_policy(&rt, alloc, 0);
    let get = asked(&rt, alloc, Op::GetBlob, Sent::Nothing);
    let book = Book::new(alloc, 0).expect(&rt, "memory");
    assert!(rt; post(&rt, alloc, &book, &get, 7, &policy) == Err(7));
    assert!(rt; book.audit_from(alloc, 0).expect(&rt, "memory").is_empty());
}

#[test]
fn entries_are_read_in_their_order(rt: HostRuntime) {
    let alloc = rt.alloc();
    let policy = new_policy(&rt, alloc, 0);
    let get = asked(&rt, alloc, Op::GetBlob, Sent::Nothing);
    let book = Book::new(alloc, 100).expect(&rt, "memory");
    for place in 0..50u64 {
        assert!(rt; post(&rt, alloc, &book, &get, place, &policy).is_ok());
    }
    let mut wanted = 20;
    for entry in book.audit_from(alloc, 20).expect(&rt, "memory") {
        assert!(rt; entry.place() == wanted);
        wanted = wanted.saturating_add(1);
    }
    assert!(rt; wanted == 50);
    assert!(rt; book.audit_from(alloc, 50).expect(&rt, "memory").is_empty());
}

// Posts entries of the places from 0 to 99.
fn write<R: Wait + Abort>(
    rt: &R,
    alloc: Global,
    book: &Book,
    request: &Request,
    policy: &Policy,
    ended: &AtomicUsize,
) {
    for place in 0..100u64 {
        assert!(rt; post(rt, alloc, book, request, place, policy).is_ok());
    }
    ended.fetch_add(1, Ordering::SeqCst);
}

// Whether the entry has the revision that allowed it: epoch 1 is that of the writer with a key, epoch 2 that of the other writer.
fn is_right(entry: &Entry) -> bool {
    let epoch = entry.revision().keys().map_or(0, |keys| keys.epoch);
    match entry.way() {
        Way::Shared => epoch == 1,
        Way::Anonymous => epoch == 2,
        Way::Token => false,
    }
}

// Reads all entries, and how many are right, with the places of each writer in their order.
fn read(rt: &impl Abort, alloc: Global, book: &Book) -> usize {
    let mut signed = 0;
    let mut public = 0;
    for entry in book.audit_from(alloc, 0).expect(rt, "memory") {
        assert!(rt; is_right(entry));
        let next = if entry.way() == Way::Shared {
            &mut signed
        } else {
            &mut public
        };
        assert!(rt; entry.place() >= *next);
        *next = entry.place().saturating_add(1);
    }
    book.count()
}

// Reads until both writers have ended.
fn read_beside<R: Wait + Abort>(rt: &R, alloc: Global, book: &Book, ended: &AtomicUsize) {
    for _ in rt.forever() {
        if ended.load(Ordering::SeqCst) == 2 {
            break;
        }
        let _count = read(rt, alloc, book);
        thread::yield_now();
    }
}

fn write_and_read<R: Threads + Wait + Abort + Sync>(rt: &R, alloc: Global, book: &Book) {
    let put = asked(rt, alloc, Op::PutBlob, Sent::Authorization(&[FIRST]));
    let get = asked(rt, alloc, Op::GetBlob, Sent::Nothing);
    let first = new_policy(rt, alloc, 1);
    let second = new_policy(rt, alloc, 2);
    let ended = AtomicUsize::new(0);
    let (_, _) = thread::join(
        rt,
        || {
            thread::join(
                rt,
                || write(rt, alloc, book, &put, &first, &ended),
                || write(rt, alloc, book, &get, &second, &ended),
            )
        },
        || read_beside(rt, alloc, book, &ended),
    );
}

#[test]
fn a_reader_walks_beside_two_writers(rt: HostRuntime) {
    let alloc = rt.alloc();
    let book = Book::new(alloc, 1000).expect(&rt, "memory");
    write_and_read(&rt, alloc, &book);
    assert!(rt; read(&rt, alloc, &book) == 200);
    assert!(rt; book.audit_from(alloc, 0).expect(&rt, "memory").len() == 200);
}
