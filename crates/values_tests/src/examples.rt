//! An example of each crate whose tests are here, which the README of the crate shows whole.

use crate::access_cases::{Sent, get_with, keys};
use crate::judgement_tests::{put, shared};
use crate::policy_tests::{acl, moment, token};
use crate::request_tests::put_blob;
use crate::rule_tests::{FIRST, NOON};
use crate::sample_values::{bytes, key, share, text};
use crate::string_tests::{DATE, VERSION, fields};
use access_rules::{Letter, Need, Verdict, Way, need_of, verdict};
use base64_text::{append_base64, decoded_base64, is_base64_within, write_base64};
use container_acl::{FieldFault, fields_with, permits};
use hmac_sign::{SecretFault, SigningKey, read_key, sign};
use moment_text::{TimeFault, read_http, read_iso, write_http, write_iso};
use name_rules::{NameFault, account_ok, blob_name, container_ok};
use partition_map::{MapFault, Spans};
use policy_book::{Book, Entry, Revision, Signature, judge, verdict_by};
use sas_token::{read_token, token_string};
use shared_key::{key_string, read_authorization};
use stamp_types::{Act, Body, Change, Level, Moment, Op, Request, Rule, Signing, Verb};

// base64_text
#[test]
fn a_text_is_written_and_read_strictly(rt: HostRuntime) {
    // The texts are those of RFC 4648, section 10.
    let mut text = write_base64(rt.alloc(), b"foobar").expect(&rt, "memory");
    assert_eq!(rt; text.as_str(), "Zm9vYmFy");
    // If memory runs out here, the text may have a part of the Base64, and the caller drops it.
    append_base64(&mut text, b"fo").expect(&rt, "memory");
    assert_eq!(rt; text.as_str(), "Zm9vYmFyZm8=");
    let read = decoded_base64(rt.alloc(), b"Zg==").expect(&rt, "memory");
    assert_eq!(rt; read.expect(&rt, "Base64").as_slice(), b"f".as_slice());
    // The padding is missing, so the text is not Base64.
    let read = decoded_base64(rt.alloc(), b"Zg").expect(&rt, "memory");
    assert!(rt; read.is_none());
    // Whether the text is the Base64 of 1 or 2 bytes: it is that of 3 bytes.
    assert!(rt; is_base64_within(rt.alloc(), 1, 2, b"Zm9v") == Ok(false));
}

// hmac_sign
#[test]
fn a_message_is_signed_by_a_key_in_base64(rt: HostRuntime) {
    // RFC 4231, section 4.3: the key is `Jefe`.
    let secret = read_key(rt.alloc(), b"SmVmZQ==").expect(&rt, "a key");
    let message = b"what do ya want for nothing?";
    let signature = sign(rt.alloc(), &secret, message).expect(&rt, "memory");
    assert_eq!(rt;
        signature.as_str(),
        "W9zBRr9gdU5qBCQmCJV1x1oAPwidJzmDnexYuWTsOEM="
    );
    // For many messages under one key: the blocks of the key are hashed once.
    let key = SigningKey::new(secret);
    // A signature that came with a message is judged so: it is made anew, and the texts are compared.
    let again = key.signature(message);
    assert_eq!(rt; again.as_slice(), signature.as_bytes());
    // The second pad is missing.
    let fault = read_key(rt.alloc(), b"SmVmZQ=").err();
    assert_eq!(rt; fault, Some(SecretFault::NotBase64));
}

// moment_text
#[test]
fn a_time_is_read_and_written_in_two_forms(rt: HostRuntime) {
    // A moment counts steps of 100 ns since 1970. The numbers come from Python's datetime.
    let moment = read_iso(b"2012-10-01T12:00:00.0000001Z").expect(&rt, "a time");
    assert_eq!(rt; moment.ticks(), 13_490_928_000_000_001);
    let iso = write_iso(rt.alloc(), moment).expect(&rt, "memory");
    assert_eq!(rt; iso.as_str(), "2012-10-01T12:00:00.0000001Z");
    // A date of HTTP is cut down to the second.
    let date = write_http(moment);
    assert_eq!(rt;
        date.as_slice(),
        b"Mon, 01 Oct 2012 12:00:00 GMT".as_slice()
    );
    let read = read_http(&date).expect(&rt, "a date");
    assert_eq!(rt; read.ticks(), 13_490_928_000_000_000);
    // A text of no shape, and a day that does not exist.
    assert_eq!(rt; read_iso(b"2012-10-1").err(), Some(TimeFault::Form));
    assert_eq!(rt; read_iso(b"2012-02-30").err(), Some(TimeFault::Range));
}

// shared_key
#[test]
fn the_string_of_a_request_has_the_signature_that_was_sent(rt: HostRuntime) {
    let alloc = rt.alloc();
    // A Create Container of `pics`. The path is as it was sent, and the query is decoded.
    let signing = Signing {
        verb: Verb::Put,
        headers: fields(&rt, alloc, &[("content-length", "0"), DATE, VERSION]),
        path: bytes(&rt, alloc, "/devstoreaccount1/pics"),
        query: fields(&rt, alloc, &[("restype", "container")]),
    };
    let string = key_string(alloc, &signing, b"devstoreaccount1").expect(&rt, "memory");
    assert!(rt; string.starts_with(b"PUT\n\n\n0\n\n\n\n\n\n\n\n\nx-ms-date:Mon, 01 Oct 2012"));
    assert!(rt; string.ends_with(b"\n/devstoreaccount1/devstoreaccount1/pics\nrestype:container"));
    // The values of the header Authorization that were sent: one.
    let sent = "SharedKey devstoreaccount1:/Zt/M8NwlklmDGB00sttbyo87McxrIOvJXhMqumuXk0=";
    let values = [bytes(&rt, alloc, sent)];
    let read = read_authorization(&values).expect(&rt, "an account and a signature");
    // The caller compares the account with that of the path, and the signature with its own.
    assert_eq!(rt; read.account, b"devstoreaccount1".as_slice());
    let signature = sign(alloc, b"key1", &string).expect(&rt, "memory");
    assert_eq!(rt; read.signature, signature.as_bytes());
}

// name_rules
#[test]
fn names_are_tested_as_they_are_sent(rt: HostRuntime) {
    // An account has 3 to 24 letters and digits. A container may also have single hyphens inside.
    assert!(rt; account_ok(b"abc"));
    assert!(rt; !account_ok(b"ab"));
    assert!(rt; container_ok(b"a-b"));
    assert!(rt; !container_ok(b"a--b"));
    // The rest of a path, after the container, is decoded once.
    let name = blob_name(rt.alloc(), b"a%2Fb").expect(&rt, "a name");
    assert_eq!(rt; name.as_str(), "a/b");
    let name = blob_name(rt.alloc(), b"%2500").expect(&rt, "a name");
    assert_eq!(rt; name.as_str(), "%00");
    let fault = blob_name(rt.alloc(), b"%ff").err();
    assert_eq!(rt; fault, Some(NameFault::NotUtf8));
}

// sas_token
#[test]
fn the_string_of_a_token_has_the_signature_that_was_sent(rt: HostRuntime) {
    let alloc = rt.alloc();
    // The query of a Get Blob, decoded.
    let query = [
        ("sv", "2012-02-12"),
        ("sr", "b"),
        ("sp", "r"),
        ("se", "2012-10-01T13:00:00Z"),
        ("sig", "/pBX2z6ZAz3Vfm5I/v36IJDo956LK+rZZR6bLQuIrbY="),
    ];
    let query = fields(&rt, alloc, &query);
    let token = read_token(&query).expect(&rt, "a token");
    let key = key(&rt, alloc, "devstoreaccount1", "pics");
    let blob = text(&rt, alloc, "a.txt");
    // `token_string` requires a container, and for a token with `sr=b` the name of a blob.
    assert!(rt; !key.container.as_str().is_empty());
    let string = token_string(alloc, &token, &key, Some(&blob)).expect(&rt, "memory");
    let signature = sign(alloc, b"key1", &string).expect(&rt, "memory");
    assert_eq!(rt; token.signature, signature.as_bytes());
}

// container_acl
#[test]
fn a_token_and_its_policy_give_each_field_once(rt: HostRuntime) {
    // A closed container. Its policy `read-only` gives the expiry.
    let acl = acl(&rt, rt.alloc(), "", "2012-10-02", "");
    assert!(rt; permits(&acl, Level::Closed));
    assert!(rt; !permits(&acl, Level::Blob));
    // The token names the policy, and gives the start and the permissions.
    let given = token("read-only", "2012-10-01", "", "rw");
    let fields = fields_with(Some(&acl), &given).ok().expect(&rt, "fields");
    assert_eq!(rt; fields.start, moment("2012-10-01"));
    assert_eq!(rt; Some(fields.expiry), moment("2012-10-02"));
    assert_eq!(rt; fields.letters.as_str(), "rw");
    // The token and the policy give the expiry. Without a container, the policy does not exist.
    let given = token("read-only", "", "2012-10-02", "rw");
    assert_eq!(rt;
        fields_with(Some(&acl), &given).err(),
        Some(FieldFault::Both)
    );
    assert_eq!(rt; fields_with(None, &given).err(), Some(FieldFault::Absent));
}

// access_rules
#[test]
fn a_token_opens_a_blob_until_its_expiry(rt: HostRuntime) {
    let alloc = rt.alloc();
    let query = [
        ("sv", "2012-02-12"),
        ("sr", "b"),
        ("sp", "r"),
        ("se", "2012-10-01T13:00:00Z"),
        ("sig", "/pBX2z6ZAz3Vfm5I/v36IJDo956LK+rZZR6bLQuIrbY="), // by `key1`
    ];
    let request = get_with(&rt, alloc, &query); // a Get Blob of /devstoreaccount1/pics/a.txt
    let need = need_of(request.ask().op, None);
    assert!(rt; need.letter == Some(Letter::Read) && need.level == Some(Level::Blob));
    let keys = keys(&rt, alloc, "devstoreaccount1"); // `key1` and `key2`
    // The container does not exist, so there is no access: `None`.
    let noon = Moment::new(13_490_928_000_000_000).expect(&rt, "2012-10-01T12:00:00Z");
    let judged = verdict(alloc, Some(&keys), None, &request, noon).expect(&rt, "memory");
    assert!(rt; judged == Verdict::Allow(Way::Token));
    let one = Moment::new(13_490_964_000_000_000).expect(&rt, "2012-10-01T13:00:00Z");
    let judged = verdict(alloc, Some(&keys), None, &request, one).expect(&rt, "memory");
    assert!(rt; judged == Verdict::Deny(Rule::S9));
}

// policy_book
#[test]
fn a_signature_is_judged_first_and_an_entry_is_posted_last(rt: HostRuntime) {
    let alloc = rt.alloc();
    let pair = shared(&rt, alloc, 0); // `key1` and `key2` of `devstoreaccount1`
    let request = put(&rt, alloc, Sent::Authorization(&[FIRST])); // a Put Blob, signed by `key1`
    let judged = judge(alloc, &pair, &request).expect(&rt, "memory");
    assert!(rt; judged.signature() == Signature::True);
    // Here a server takes its lock, and finds the access of the container: `None`, it does not exist.
    let noon = Moment::new(NOON).expect(&rt, "a moment");
    assert!(rt; judged.is_for(&request)); // `verdict_by` requires it
    let verdict = verdict_by(alloc, Some(&pair), None, &request, noon, Some(&judged));
    assert!(rt; verdict == Ok(Verdict::Allow(Way::Shared)));
    // The container took seven changes before this request.
    let revision = Revision::new(None, pair.clone().ok());
    let entry = Entry::judged(alloc, &request, 7, noon, revision).expect(&rt, "memory");
    let entry = entry.expect(&rt, "an allowed request");
    // Here the server gives its lock back, since a post may wait.
    let book = Book::new(alloc, 2).expect(&rt, "memory");
    let receipt = book
        .post(&rt, entry)
        .ok()
        .expect(&rt, "room for two entries");
    assert!(rt; receipt.index() == 0 && book.audit_one(&receipt).place() == 7);
}

// partition_map
#[test]
fn a_span_is_split_and_joined_again(rt: HostRuntime) {
    let alloc = rt.alloc();
    let mut spans = Spans::new(alloc); // one span: slot 0 has all keys
    let middle = key(&rt, alloc, "devstoreaccount1", "m");
    spans.split(0, &middle).expect(&rt, "a split");
    // Slot 0 keeps the keys before `m`. The caller puts the slot of the other keys at number 1.
    assert_eq!(rt; spans.len(), 2);
    assert_eq!(rt; spans.find(&key(&rt, alloc, "devstoreaccount1", "lz")), 0);
    assert_eq!(rt; spans.find(&key(&rt, alloc, "devstoreaccount1", "pics")), 1);
    assert!(rt; spans.bound(0).is_some_and(|bound| bound.same(&middle)));
    assert!(rt; spans.bound(1).is_none()); // the last span has no end
    // The key is not inside the span: the span ends before it.
    assert!(rt; spans.split(0, &middle) == Err(MapFault::NotInside));
    // If the slot itself could not be split, the caller undoes the split of its span.
    spans.join(0);
    assert_eq!(rt; spans.len(), 1);
}

// stamp_types
#[test]
fn a_request_and_a_change_have_parts_that_fit(rt: HostRuntime) {
    let alloc = rt.alloc();
    let body = Body::of(share(&rt, alloc, b"hello"));
    let ask = put_blob(&rt, alloc, "jam"); // a Put Blob into the container `jam` of `pantry`
    let request = Request::new(alloc, ask, body).expect(&rt, "memory");
    let request = request.expect(&rt, "parts that fit");
    assert!(rt; request.ask().op == Op::PutBlob);
    assert!(rt; request.body().as_slice() == b"hello".as_slice());
    // `None`: this is not the name of a container.
    let ask = put_blob(&rt, alloc, "-jam");
    let request = Request::new(alloc, ask, Body::empty()).expect(&rt, "memory");
    assert!(rt; request.is_none());
    // A change is a key and an act. An account has at least three letters.
    let change = Change::new(key(&rt, alloc, "pantry", "jam"), Act::DeleteContainer);
    assert!(rt; change.map(drop).is_some());
    let change = Change::new(key(&rt, alloc, "ac", "jam"), Act::DeleteContainer);
    assert!(rt; change.map(drop).is_none());
}
