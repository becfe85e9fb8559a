//! A slot of two accounts, a request of an account that it does not have, and long lists of key pairs.
ghost use Rattle.std.specs.Arc.{arc_value};
ghost use Rattle.slot_state.specs.NextPairs.{IsNext};
ghost use Rattle.slot_state.specs.Pairs.{pairs_at};

use crate::requests::{CREATE, CREATE_OF_GUEST, CREATED, GET_OF_NOBODY};
use crate::samples::{begins, key, pair, pair_with, says, text};
use crate::stored_samples::{Streamed, changes, make_of_pairs, rows};
use access_rules::{Keys, Which};
use extent_node::Script;
use hmac_sign::SigningKey;
use slot_state::{AccountPairs, PairList};
use stamp_types::{Key, Text};
use std::alloc::Global;
use std::process::Abort;
use std::sync::Arc;

// The first pairs of two accounts.
fn two_accounts(rt: &impl Abort, alloc: Global) -> Arc<AccountPairs> {
    let mut pairs = Vec::new(alloc);
    pairs.push(pair(rt, alloc, 0)).expect(rt, "memory");
    let guest = pair_with(rt, alloc, "guestaccount", b"key1", 0);
    pairs.push(guest).expect(rt, "memory");
    let pairs = AccountPairs::of(alloc, pairs).expect(rt, "memory");
    Arc::new(alloc, pairs).expect(rt, "memory")
}

// How many pairs the slot has of the account, and whether the last of them has the epoch 0.
fn first_pair_of(rt: &impl Abort, alloc: Global, served: &Streamed, account: &str) -> bool {
    let account = text(rt, alloc, account);
    let pairs = served.slot.pairs(&account);
    match pairs.last() {
        Some(pair) => {
            pairs.len() == 1 && pair.epoch == 0 && pair.account.as_str() == account.as_str()
        }
        None => false,
    }
}

// Each account has a container of its own, though both have one name.
fn serves_two_accounts(rt: &impl Abort, alloc: Global, served: &mut Streamed) {
    assert!(rt; begins(rt, alloc, served, CREATE, CREATED));
    assert!(rt; changes(served, &key(rt, alloc, "pics")) == 1);
    assert!(rt; begins(rt, alloc, served, CREATE_OF_GUEST, CREATED));
    let guest = Key {
        account: text(rt, alloc, "guestaccount"),
        container: text(rt, alloc, "pics"),
    };
    assert!(rt; changes(served, &guest) == 1);
    assert!(rt; changes(served, &key(rt, alloc, "pics")) == 1);
}

#[test]
fn a_slot_serves_two_accounts(rt: HostRuntime) {
    let alloc = rt.alloc();
    let wire = Script::new(alloc, Vec::new(alloc), Vec::new(alloc));
    let pairs = two_accounts(&rt, alloc);
    let mut served = make_of_pairs(&rt, alloc, rows(alloc), pairs, wire);
    assert!(rt; first_pair_of(&rt, alloc, &*served, "devstoreaccount1"));
    assert!(rt; first_pair_of(&rt, alloc, &*served, "guestaccount"));
    assert!(rt; !first_pair_of(&rt, alloc, &*served, "nobody"));
    serves_two_accounts(&rt, alloc, &mut *served);
    assert!(rt;
        says(
            &rt,
            alloc,
            &mut *served,
            GET_OF_NOBODY,
            "Refused by rule K2."
        )
    );
}

// Whether these are so many pairs, with the epochs 0, 1, 2 and so on.
fn has_epochs(pairs: &PairList, count: usize) -> bool {
    for at in 0..count {
        match pairs.get(at) {
            Some(pair) => {
                if pair.epoch != at as u64 {
                    return false;
                }
            }
            None => return false,
        }
    }
    pairs.len() == count && pairs.get(count).is_none()
}

// The epoch of the last pair.
fn last_epoch(pairs: &PairList) -> Option<u64> {
    match pairs.last() {
        Some(pair) => Some(pair.epoch),
        None => None,
    }
}

// The pairs, and one pair more with this epoch.
fn longer(rt: &impl Abort, alloc: Global, pairs: &PairList, epoch: u64) -> PairList {
    let pair = Arc::new(alloc, pair(rt, alloc, epoch)).expect(rt, "memory");
    pairs.longer(alloc, pair).expect(rt, "memory")
}

// A list of so many pairs.
fn list_of(rt: &impl Abort, alloc: Global, count: u64) -> PairList {
    let mut pairs = PairList::new(alloc);
    for epoch in 0..count {
        pairs = longer(rt, alloc, &pairs, epoch);
    }
    pairs
}

// Chunks of 64 pairs begin at the places 64 and 128.
#[test]
fn a_list_keeps_its_pairs_over_the_ends_of_chunks(rt: HostRuntime) {
    let alloc = rt.alloc();
    let none = PairList::new(alloc);
    assert!(rt; has_epochs(&none, 0) && last_epoch(&none) == None);
    for count in [1u64, 63, 64, 65, 127, 128, 129, 192, 193] {
        let pairs = list_of(&rt, alloc, count);
        assert!(rt; has_epochs(&pairs, count as usize));
        assert!(rt; last_epoch(&pairs) == count.checked_sub(1));
    }
}

// How many owners the pair at this place has; 0 without a pair.
fn owners_at(pairs: &PairList, at: usize) -> usize {
    match pairs.get(at) {
        Some(pair) => Arc::strong_count(pair),
        None => 0,
    }
}

// Two lists share a chunk that is full, and have pointers of their own to the newest pairs.
#[test]
fn lists_share_their_older_pairs(rt: HostRuntime) {
    let alloc = rt.alloc();
    let pairs = list_of(&rt, alloc, 65);
    let more = longer(&rt, alloc, &pairs, 65);
    assert!(rt; has_epochs(&pairs, 65) && has_epochs(&more, 66));
    assert_eq!(rt; (owners_at(&more, 0), owners_at(&more, 63)), (1, 1));
    assert_eq!(rt; (owners_at(&more, 64), owners_at(&more, 65)), (2, 1));
    drop(pairs);
    assert!(rt; has_epochs(&more, 66) && owners_at(&more, 64) == 1);
}

/// The pair after the pair in force, with the first key replaced by `new1`.
pub(crate) fn next_pair(
    rt: &impl Abort,
    alloc: Global,
    pairs: &AccountPairs,
    account: &Text,
) -> Keys
    ensures { IsNext (pairs_at pairs.now account.now) result }
{
    let key = SigningKey::new(b"new1".to_vec(alloc).expect(rt, "memory"));
    let Some(old) = pairs.current(account) else {
        panic!(rt; "the account has a pair");
    };
    match old.next(Which::First, key) {
        Ok(pair) => pair,
        Err(_fault) => panic!(rt; "a pair comes next"),
    }
}

// The pair in an allocation that can be shared.
fn shared(rt: &impl Abort, alloc: Global, pair: Keys) -> Arc<Keys>
    ensures { arc_value result ≡ pair }
{
    Arc::new(alloc, pair).expect(rt, "memory")
}

// The pairs after a key of the account is replaced.
fn rotated(
    rt: &impl Abort,
    alloc: Global,
    pairs: &AccountPairs,
    account: &Text,
) -> Arc<AccountPairs> {
    let next = shared(rt, alloc, next_pair(rt, alloc, pairs, account));
    pairs.with_next(alloc, account, next).expect(rt, "memory")
}

// The pairs of each epoch are there after 130 rotations, and the other account keeps its one pair.
#[test]
fn old_epochs_stay_after_many_rotations(rt: HostRuntime) {
    let alloc = rt.alloc();
    let account = text(&rt, alloc, "devstoreaccount1");
    let guest = text(&rt, alloc, "guestaccount");
    let first = two_accounts(&rt, alloc);
    let mut pairs = rotated(&rt, alloc, &first, &account);
    for _ in 1..130u32 {
        pairs = rotated(&rt, alloc, &pairs, &account);
    }
    assert!(rt; has_epochs(pairs.of_account(&account), 131) && pairs.epoch(&account) == 130);
    assert!(rt; has_epochs(pairs.of_account(&guest), 1) && pairs.epoch(&guest) == 0);
    assert!(rt; has_epochs(first.of_account(&account), 1));
}
