//! What no clause says about lines of the audit book: that they can be written, and that the definitions mean what the page on the audit
//! file says. The lines were written by hand from that page, and the signatures were made by Python's hmac.

use crate::access_cases::{ACCOUNT, Case, Sent, get_with, key, keys, request};
use crate::rule_tests::{DATED, FIRST, NOON, SECOND};
use crate::sample_values::{bytes, text};
use access_rules::Keys;
use audit_lines::{append_line, append_line_at};
use policy_book::{Book, Entry, Revision};
use stamp_types::{
    Acl, Args, Ask, Body, Credential, FieldList, Items, Key, Letters, Level, Moment, Op, Policies,
    Policy, Request, Signing, Verb,
};
use std::alloc::Global;
use std::process::Abort;
use std::sync::{Arc, Wait};

// A token for `a.txt` until 13 o'clock, signed by the first key.
const BY_FIRST_TOKEN: [(&str, &str); 5] = [
    ("sv", "2012-02-12"),
    ("sr", "b"),
    ("sp", "r"),
    ("se", "2012-10-01T13:00:00Z"),
    ("sig", "/pBX2z6ZAz3Vfm5I/v36IJDo956LK+rZZR6bLQuIrbY="),
];

// The same token, signed by the second key.
const BY_SECOND_TOKEN: [(&str, &str); 5] = [
    ("sv", "2012-02-12"),
    ("sr", "b"),
    ("sp", "r"),
    ("se", "2012-10-01T13:00:00Z"),
    ("sig", "VL5Okp+giXtLqFLJGulNEhGgIvYO/4iUk4wAGqiz/Js="),
];

// A token of the policy `read only`.
const BY_POLICY: [(&str, &str); 4] = [
    ("sv", "2012-02-12"),
    ("sr", "c"),
    ("si", "read only"),
    ("sig", "raerpJlX4O6B/WCfKtN+D+3xKjW5/dI6ErydUpeAWiQ="),
];

// A container whose blobs everybody may read, and which has the policy `read only` until 13 o'clock.
fn acl(rt: &impl Abort, alloc: Global) -> Acl {
    let policy = Policy {
        id: text(rt, alloc, "read only"),
        start: None,
        expiry: Moment::new(13_490_964_000_000_000),
        letters: Letters::read(b"r"),
    };
    let policies = vec![in alloc; policy].expect(rt, "memory");
    Acl {
        level: Level::Blob,
        policies: Policies::new(Items::new(policies)).expect(rt, "good policies"),
    }
}

/// The entry of the request at noon.
pub(crate) fn entry(rt: &impl Abort, alloc: Global, request: &Request, place: u64) -> Entry {
    entry_under(rt, alloc, keys(rt, alloc, ACCOUNT), request, place)
}

// The entry of the request at noon, if the stamp has these keys.
fn entry_under(rt: &impl Abort, alloc: Global, keys: Keys, request: &Request, place: u64) -> Entry {
    let noon = Moment::new(NOON).expect(rt, "a moment");
    let acl = Arc::new(alloc, acl(rt, alloc)).expect(rt, "memory");
    let keys = Arc::new(alloc, keys).expect(rt, "memory");
    let revision = Revision::new(Some(acl), Some(keys));
    let entry = Entry::judged(alloc, request, place, noon, revision).expect(rt, "memory");
    entry.expect(rt, "an allowed request")
}

// Whether this is the line of the entry.
fn is_line_of(rt: &impl Abort, alloc: Global, entry: &Entry, line: &str) -> bool {
    let mut out = Vec::new(alloc);
    append_line(alloc, &mut out, entry).expect(rt, "memory");
    out.as_slice() == line.as_bytes()
}

// Whether this is the line of the request's entry.
fn is_line(rt: &impl Abort, alloc: Global, request: &Request, place: u64, line: &str) -> bool {
    let entry = entry(rt, alloc, request, place);
    is_line_of(rt, alloc, &entry, line)
}

/// A Put Blob of `a.txt` with this Authorization.
pub(crate) fn put_by(
    rt: &impl Abort,
    alloc: Global,
    authorization: &'static [&'static str],
) -> Request {
    let case = Case {
        op: Op::PutBlob,
        kinds: None,
        sent: Sent::Authorization(authorization),
        dated: DATED,
        account: ACCOUNT,
        level: None,
        now: NOON,
    };
    request(rt, alloc, &case)
}

// A Get Blob of this name without a credential.
fn get_named(rt: &impl Abort, alloc: Global, name: &str) -> Request {
    let ask = Ask {
        op: Op::GetBlob,
        key: Key {
            account: text(rt, alloc, ACCOUNT),
            container: text(rt, alloc, "pics"),
        },
        blob: Some(text(rt, alloc, name)),
        args: Args::none(),
        signing: Signing {
            verb: Verb::Get,
            headers: FieldList::new(alloc),
            path: bytes(rt, alloc, "/"),
            query: FieldList::new(alloc),
        },
        credential: Credential::Anonymous,
    };
    let request = Request::new(alloc, ask, Body::empty()).expect(rt, "memory");
    request.expect(rt, "parts that fit")
}

pub(crate) const BY_FIRST: &str =
    "2012-10-01T12:00:00.0000000Z shared key1 PutBlob /devstoreaccount1/pics/a.txt 7\n";

pub(crate) const BY_SECOND: &str =
    "2012-10-01T12:00:00.0000000Z shared key2 PutBlob /devstoreaccount1/pics/a.txt 8\n";

#[test]
fn a_line_names_the_key(rt: HostRuntime) {
    let alloc = rt.alloc();
    assert!(rt; is_line(&rt, alloc, &put_by(&rt, alloc, &[FIRST]), 7, BY_FIRST));
    assert!(rt; is_line(&rt, alloc, &put_by(&rt, alloc, &[SECOND]), 8, BY_SECOND));
}

#[test]
fn a_line_names_the_key_of_a_token(rt: HostRuntime) {
    let alloc = rt.alloc();
    let first = "2012-10-01T12:00:00.0000000Z token key1 GetBlob /devstoreaccount1/pics/a.txt 1\n";
    assert!(rt; is_line(&rt, alloc, &get_with(&rt, alloc, &BY_FIRST_TOKEN), 1, first));
    let second = "2012-10-01T12:00:00.0000000Z token key2 GetBlob /devstoreaccount1/pics/a.txt 2\n";
    assert!(rt;
        is_line(
            &rt,
            alloc,
            &get_with(&rt, alloc, &BY_SECOND_TOKEN),
            2,
            second
        )
    );
}

// Both keys are the one that signed.
#[test]
fn a_line_names_the_first_of_two_equal_keys(rt: HostRuntime) {
    let alloc = rt.alloc();
    let mut pair = keys(&rt, alloc, ACCOUNT);
    pair.first = key(&rt, alloc, "key2");
    let put = put_by(&rt, alloc, &[SECOND]);
    let entry = entry_under(&rt, alloc, pair, &put, 7);
    assert!(rt; is_line_of(&rt, alloc, &entry, BY_FIRST));
}

#[test]
fn a_line_names_the_policy(rt: HostRuntime) {
    let alloc = rt.alloc();
    let by_policy =
        "2012-10-01T12:00:00.0000000Z token policy=read%20only GetBlob /devstoreaccount1/pics/a.txt 3\n";
    assert!(rt; is_line(&rt, alloc, &get_with(&rt, alloc, &BY_POLICY), 3, by_policy));
}

#[test]
fn a_name_has_no_spaces_in_a_line(rt: HostRuntime) {
    let alloc = rt.alloc();
    let line =
        "2012-10-01T12:00:00.0000000Z anonymous - GetBlob /devstoreaccount1/pics/50%25%20of/\u{e4}.txt 18446744073709551615\n";
    let get = get_named(&rt, alloc, "50% of/\u{e4}.txt");
    assert!(rt; is_line(&rt, alloc, &get, u64::MAX, line));
}

// Posts the entry of the request.
fn post<R: Wait + Abort>(rt: &R, alloc: Global, book: &Book, request: &Request, place: u64) {
    assert!(rt; book.post(rt, entry(rt, alloc, request, place)).is_ok());
}

#[test]
fn a_book_is_written_line_by_line(rt: HostRuntime) {
    let alloc = rt.alloc();
    let book = Book::new(alloc, 2).expect(&rt, "memory");
    // The entries of two Put Blobs, by the first key and by the second. 7 and 8 are their places.
    post(&rt, alloc, &book, &put_by(&rt, alloc, &[FIRST]), 7);
    post(&rt, alloc, &book, &put_by(&rt, alloc, &[SECOND]), 8);
    let mut out = Vec::new(alloc);
    assert!(rt; append_line_at(alloc, &mut out, &book, 0) == Ok(true));
    // BY_FIRST: 2012-10-01T12:00:00.0000000Z shared key1 PutBlob /devstoreaccount1/pics/a.txt 7
    assert!(rt; out.as_slice() == BY_FIRST.as_bytes());
    assert!(rt; append_line_at(alloc, &mut out, &book, 1) == Ok(true));
    assert!(rt; out.as_slice().ends_with(BY_SECOND.as_bytes()));
    // No entry is at this index.
    assert!(rt; append_line_at(alloc, &mut out, &book, 2) == Ok(false));
    assert!(rt; out.len() == BY_FIRST.len() + BY_SECOND.len());
}
