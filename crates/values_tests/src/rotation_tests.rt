//! Pairs of keys of which one key is replaced, and requests that the old keys and the new key sign.

use crate::access_cases::{ACCOUNT, Case, Sent, key, keys, verdict_under};
use crate::rule_tests::{DATED, FIRST, NOON, SECOND};
use access_rules::{Keys, KeysFault, Verdict, Way, Which};
use stamp_types::{Op, Rule};
use std::alloc::Global;
use std::process::Abort;

// By the key `new1`, of the same string as `FIRST` and `SECOND`: computed with Python's hmac.
const THIRD: &str = "SharedKey devstoreaccount1:68RPmJw/K+rl99IL8yyuYZ68h8m7TIwNAvUdxd/H3t0=";

const ALLOW: Verdict = Verdict::Allow(Way::Shared);

const K5: Verdict = Verdict::Deny(Rule::K5);

// Whether the pair is of the account, and has these keys and this epoch.
fn is_pair(
    rt: &impl Abort,
    alloc: Global,
    pair: &Keys,
    first: &str,
    second: &str,
    epoch: u64,
) -> bool {
    let first = key(rt, alloc, first);
    let second = key(rt, alloc, second);
    let is_named = pair.account.as_str() == ACCOUNT;
    is_named && pair.first == first && pair.second == second && pair.epoch == epoch
}

// The pair after this one, with a key of these bytes.
fn next(rt: &impl Abort, alloc: Global, pair: &Keys, which: Which, text: &str) -> Keys {
    pair.next(which, key(rt, alloc, text))
        .expect(rt, "an epoch")
}

#[test]
fn one_key_is_replaced_and_the_other_one_stays(rt: HostRuntime) {
    let alloc = rt.alloc();
    let pair = keys(&rt, alloc, ACCOUNT);
    let second = next(&rt, alloc, &pair, Which::First, "new1");
    assert!(rt; is_pair(&rt, alloc, &second, "new1", "key2", 1));
    let third = next(&rt, alloc, &second, Which::Second, "new2");
    assert!(rt; is_pair(&rt, alloc, &third, "new1", "new2", 2));
    assert!(rt; is_pair(&rt, alloc, &pair, "key1", "key2", 0));
}

#[test]
fn an_equal_key_raises_the_epoch(rt: HostRuntime) {
    let alloc = rt.alloc();
    let pair = keys(&rt, alloc, ACCOUNT);
    let same = next(&rt, alloc, &pair, Which::Second, "key2");
    assert!(rt; is_pair(&rt, alloc, &same, "key1", "key2", 1));
}

#[test]
fn no_pair_comes_after_the_last_epoch(rt: HostRuntime) {
    let alloc = rt.alloc();
    let mut pair = keys(&rt, alloc, ACCOUNT);
    pair.epoch = u64::MAX - 1;
    let last = next(&rt, alloc, &pair, Which::First, "new1");
    assert!(rt; is_pair(&rt, alloc, &last, "new1", "key2", u64::MAX));
    let fault = last.next(Which::First, key(&rt, alloc, "new2")).err();
    assert!(rt; fault == Some(KeysFault::Last));
}

// The verdict on a Put Blob with this value of Authorization.
fn verdict(rt: &impl Abort, alloc: Global, pair: &Keys, value: &'static [&'static str]) -> Verdict {
    let case = Case {
        op: Op::PutBlob,
        kinds: None,
        sent: Sent::Authorization(value),
        dated: DATED,
        account: ACCOUNT,
        level: None,
        now: NOON,
    };
    verdict_under(rt, alloc, &case, pair)
}

#[test]
fn a_key_signs_until_it_is_replaced(rt: HostRuntime) {
    let alloc = rt.alloc();
    let pair = keys(&rt, alloc, ACCOUNT);
    assert!(rt;
        verdict(&rt, alloc, &pair, &[FIRST]) == ALLOW,
        "the first key"
    );
    assert!(rt;
        verdict(&rt, alloc, &pair, &[THIRD]) == K5,
        "the new key before"
    );
    let pair = next(&rt, alloc, &pair, Which::First, "new1");
    assert!(rt;
        verdict(&rt, alloc, &pair, &[FIRST]) == K5,
        "the first key after"
    );
    assert!(rt;
        verdict(&rt, alloc, &pair, &[SECOND]) == ALLOW,
        "the second key"
    );
    assert!(rt;
        verdict(&rt, alloc, &pair, &[THIRD]) == ALLOW,
        "the new key"
    );
}
