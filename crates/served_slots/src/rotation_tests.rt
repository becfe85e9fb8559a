//! A key is replaced on two slots while a client uses them. Signatures were made outside of this repository's code.
ghost use Rattle.std.specs.Prelude.{◌≡◌, ◌∷◌, []};
ghost use Rattle.served_history.specs.declared.entry.Entry.TheVariants.{Opened};

use crate::connection::{SlotsService, two_connections_agree};
use crate::operator::Operator;
use crate::slots::Slots;
use crate::slots_tests::{
    CREATE_PICS, CREATE_ZOO, CREATED, GET_ZOO, PUT_ZOO, key, pairs, sent, signing,
};
use crate::splitting::SplitFault;
use access_rules::{Keys, Which};
use served_history::{Account, NewHistory};
use stamp_types::Text;
use std::alloc::Global;
use std::marker::Brand;
use std::process::Abort;
use std::sync::{Arc, Wait};

// The Get Blob of `slots_tests`, signed by `new1`, and a Get Blob of `pics/a.txt`, signed by `key1` and by `new1`.
const GET_ZOO_BY_NEW: &[u8] =
    b"GET /devstoreaccount1/zoo/a.txt HTTP/1.1\r\nHost: 127.0.0.1:10000\r\nx-ms-date: Mon, 01 Oct 2012 12:00:00 GMT\r\nx-ms-version: 2012-02-12\r\nAuthorization: SharedKey devstoreaccount1:dS+ewTYJ/A75BqDiaopcVixNZ3eU7/hyAiydefXVKpw=\r\n\r\n";

pub(crate) const GET_PICS: &[u8] =
    b"GET /devstoreaccount1/pics/a.txt HTTP/1.1\r\nHost: 127.0.0.1:10000\r\nx-ms-date: Mon, 01 Oct 2012 12:00:00 GMT\r\nx-ms-version: 2012-02-12\r\nAuthorization: SharedKey devstoreaccount1:1faO58/enDoA9unDNvD2pMLw3jmfkbnVyTRBzimElkI=\r\n\r\n";

const GET_PICS_BY_NEW: &[u8] =
    b"GET /devstoreaccount1/pics/a.txt HTTP/1.1\r\nHost: 127.0.0.1:10000\r\nx-ms-date: Mon, 01 Oct 2012 12:00:00 GMT\r\nx-ms-version: 2012-02-12\r\nAuthorization: SharedKey devstoreaccount1:jRnYwf6R0U5vDquilBpUBtxC2AQg0vcyT3gA8D63wMU=\r\n\r\n";

// A Put Blob of `hello` in `pics`, signed by `key2`.
pub(crate) const PUT_PICS: &[u8] =
    b"PUT /devstoreaccount1/pics/a.txt HTTP/1.1\r\nHost: 127.0.0.1:10000\r\nContent-Length: 5\r\nx-ms-blob-type: BlockBlob\r\nx-ms-version: 2012-02-12\r\nx-ms-date: Mon, 01 Oct 2012 12:00:00 GMT\r\nAuthorization: SharedKey devstoreaccount1:O9UZNW452QDPdLw1F6p3ZC4NHU5qWVzYuTPZoHu3yXw=\r\n\r\nhello";

// A Get Blob of `pics/a.txt` by a token that `key1` signed, and one by a token that `new1` signed.
const GET_BY_TOKEN: &[u8] =
    b"GET /devstoreaccount1/pics/a.txt?sv=2012-02-12&sr=b&sp=r&se=2030-01-01T00%3A00%3A00Z&sig=ig4uuEvzfPnX4HtS2AmgpxBq64uRprcDh%2BvbpO45jjA%3D HTTP/1.1\r\nHost: 127.0.0.1:10000\r\n\r\n";

const GET_BY_NEW_TOKEN: &[u8] =
    b"GET /devstoreaccount1/pics/a.txt?sv=2012-02-12&sr=b&sp=r&se=2030-01-01T00%3A00%3A00Z&sig=RtvixFmZF1Udi3%2F5WSjMjunT5K3%2B3WYyjFzNVyzqBc0%3D HTTP/1.1\r\nHost: 127.0.0.1:10000\r\n\r\n";

const OK: &[u8] = b"HTTP/1.1 200 OK\r\n";

const FORBIDDEN: &[u8] = b"HTTP/1.1 403 Forbidden\r\n";

// What the connection is answered to a request begins so.
fn is_answered<A: Account, R: Wait + Abort>(
    rt: &R,
    alloc: Global,
    connection: &mut SlotsService<'_, A, R>,
    request: &[u8],
    answer: &[u8],
) -> bool {
    sent(rt, alloc, connection, request).starts_with(answer)
}

// The name of the account.
fn account(rt: &impl Abort, alloc: Global) -> Text {
    let name = String::from_str(alloc, "devstoreaccount1").expect(rt, "memory");
    Text::new(name).expect(rt, "a text")
}

// Before the rotation the first key opens on both slots, and the new key opens nothing.
fn opens_by_first<A: Account, R: Wait + Abort>(
    rt: &R,
    alloc: Global,
    client: &mut SlotsService<'_, A, R>,
) {
    assert!(rt; is_answered(rt, alloc, client, CREATE_PICS, CREATED));
    assert!(rt; is_answered(rt, alloc, client, CREATE_ZOO, CREATED));
    assert!(rt; is_answered(rt, alloc, client, PUT_PICS, CREATED));
    assert!(rt; is_answered(rt, alloc, client, PUT_ZOO, CREATED));
    assert!(rt; is_answered(rt, alloc, client, GET_PICS, OK));
    assert!(rt; is_answered(rt, alloc, client, GET_ZOO, OK));
    assert!(rt; is_answered(rt, alloc, client, GET_BY_TOKEN, OK));
    assert!(rt; is_answered(rt, alloc, client, GET_PICS_BY_NEW, FORBIDDEN));
}

// After the rotation the first key opens nothing on either slot. The new key opens, and the second key goes on.
fn opens_by_new<A: Account, R: Wait + Abort>(
    rt: &R,
    alloc: Global,
    client: &mut SlotsService<'_, A, R>,
) {
    assert!(rt; is_answered(rt, alloc, client, GET_PICS, FORBIDDEN));
    assert!(rt; is_answered(rt, alloc, client, GET_ZOO, FORBIDDEN));
    assert!(rt; is_answered(rt, alloc, client, GET_BY_TOKEN, FORBIDDEN));
    assert!(rt; is_answered(rt, alloc, client, GET_PICS_BY_NEW, OK));
    assert!(rt; is_answered(rt, alloc, client, GET_BY_NEW_TOKEN, OK));
    assert!(rt; is_answered(rt, alloc, client, GET_ZOO_BY_NEW, OK));
    assert!(rt; is_answered(rt, alloc, client, PUT_PICS, CREATED));
    assert!(rt; is_answered(rt, alloc, client, PUT_ZOO, CREATED));
}

// A key is replaced on two slots. Then the upper slot is split, and its halves go on by the new pair.
fn rotates<A: Account, R: Wait + Abort>(
    rt: &R,
    alloc: Global,
    pairs: Vec<Keys>,
    history: NewHistory,
)
    requires book { history.book ≡ A.history }
    requires fresh { history.next ≡ 0 }
    requires log { history.log ≡ Opened pairs.items ∷ [] }
{
    let (slots, front) = Slots::<A>::new(alloc, pairs, history).expect(rt, "memory");
    let slots = &slots;
    assert!(rt; slots.split(rt, alloc, &key(rt, alloc, "q")).is_ok());
    let mut operator = Operator::new(rt, slots, account(rt, alloc), front.again());
    let mut client = SlotsService::new(rt, slots, front);
    opens_by_first(rt, alloc, &mut client);
    let new = signing(rt, alloc, b"new1");
    assert!(rt; operator.rotate(alloc, Which::First, &new) == Ok(1));
    opens_by_new(rt, alloc, &mut client);
    let name = String::from_str(alloc, "r").expect(rt, "memory");
    let middle = operator
        .container(Text::new(name).expect(rt, "a text"))
        .expect(rt, "memory");
    assert!(rt; operator.split(alloc, &middle).is_ok());
    assert!(rt; operator.split(alloc, &middle) == Err(SplitFault::FirstKey));
    assert!(rt; operator.rotate(alloc, Which::First, &new) == Ok(2));
    opens_by_new(rt, alloc, &mut client);
}

// Two connections are served over two slots, and then a key is replaced.
fn serves_two_slots<A: Account, R: Wait + Abort>(
    rt: &R,
    alloc: Global,
    pairs: Vec<Keys>,
    history: NewHistory,
)
    requires book { history.book ≡ A.history }
    requires fresh { history.next ≡ 0 }
    requires log { history.log ≡ Opened pairs.items ∷ [] }
{
    // The first key pairs of the accounts, and the history that begins with them.
    let (slots, front) = Slots::<A>::new(alloc, pairs, history).expect(rt, "memory");
    // Slot 0 keeps the keys before `q`, and slot 1 gets the others.
    assert!(rt; slots.split(rt, alloc, &key(rt, alloc, "q")).is_ok());
    // The services of two connections, each on any thread. `sent` calls `run` with one of them.
    let mut first = SlotsService::new(rt, &slots, front.again());
    let mut second = SlotsService::new(rt, &slots, front.again());
    assert!(rt; sent(rt, alloc, &mut first, CREATE_PICS).starts_with(CREATED));
    assert!(rt; sent(rt, alloc, &mut second, CREATE_ZOO).starts_with(CREATED));
    two_connections_agree(&first, &second); // a law: both know beginnings of one history
    let mut operator = Operator::new(rt, &slots, account(rt, alloc), front);
    let new = signing(rt, alloc, b"new1"); // in the place of `key1`
    assert!(rt; operator.rotate(alloc, Which::First, &new) == Ok(1)); // the epoch of the new pair
    assert!(rt; sent(rt, alloc, &mut first, GET_PICS).starts_with(FORBIDDEN)); // signed by `key1`
}

#[test]
fn two_connections_are_served_and_a_key_is_replaced(rt: HostRuntime) {
    let pairs = pairs(&rt, rt.alloc());
    let history = NewHistory::new(&pairs);
    serves_two_slots::<Brand, _>(&rt, rt.alloc(), pairs, history);
}

#[test]
fn a_replaced_key_opens_nothing_on_any_slot(rt: HostRuntime) {
    let pairs = pairs(&rt, rt.alloc());
    let history = NewHistory::new(&pairs);
    rotates::<Brand, _>(&rt, rt.alloc(), pairs, history);
}

// How many owners the account's pair in force has by which signatures are judged.
fn owners<A: Account, R: Wait + Abort>(rt: &R, slots: &Slots<A>, account: &Text) -> usize {
    let pairs = slots.judging_pairs(rt).expect(rt, "an owner");
    match pairs.of_account(account).last() {
        Some(pair) => Arc::strong_count(pair),
        None => 0,
    }
}

// A key is replaced on two slots, and once more on three. The new pair is made once: each slot owns it, and so do the pairs that judge signatures.
fn shares<A: Account, R: Wait + Abort>(rt: &R, alloc: Global, pairs: Vec<Keys>, history: NewHistory)
    requires book { history.book ≡ A.history }
    requires fresh { history.next ≡ 0 }
    requires log { history.log ≡ Opened pairs.items ∷ [] }
{
    let (slots, front) = Slots::<A>::new(alloc, pairs, history).expect(rt, "memory");
    let slots = &slots;
    let name = account(rt, alloc);
    let mut operator = Operator::new(rt, slots, account(rt, alloc), front);
    let new = signing(rt, alloc, b"new1");
    assert!(rt; slots.split(rt, alloc, &key(rt, alloc, "q")).is_ok());
    assert!(rt; operator.rotate(alloc, Which::First, &new) == Ok(1));
    assert!(rt; owners(rt, slots, &name) == 3);
    assert!(rt; slots.split(rt, alloc, &key(rt, alloc, "r")).is_ok());
    assert!(rt; operator.rotate(alloc, Which::Second, &new) == Ok(2));
    assert!(rt; owners(rt, slots, &name) == 4);
}

#[test]
fn slots_share_the_new_pair(rt: HostRuntime) {
    let pairs = pairs(&rt, rt.alloc());
    let history = NewHistory::new(&pairs);
    shares::<Brand, _>(&rt, rt.alloc(), pairs, history);
}
