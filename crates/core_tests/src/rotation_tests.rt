//! Keys that are replaced, for all slots at once. The signatures were made outside of this repository's code.
ghost use Rattle.std.specs.Prelude.{⊤};

use crate::core_samples::{Driven, empty_core, give, split, tended};
use crate::requests::{CREATE, CREATE_LATER, CREATED, PUT, PUT_BY_NEW};
use crate::samples::{begins, ends, pair, says, text};
use crate::stored_samples::{D, R};
use access_rules::{Keys, Which};
use core_run::{Outcome, Step, StepFault};
use extent_node::Script;
use hmac_sign::SigningKey;
use http_front::Service;
use policy_book::judge;
use range_rows::Reading;
use slot_state::KeptHistories;
use stamp_core::{Core, CoreCare};
use stamp_types::{Moment, Reply, Request};
use std::alloc::{AllocError, Global};
use std::process::Abort;
use std::sync::Arc;

const ACCOUNT: &str = "devstoreaccount1";

// A Get Blob of `a.txt`, signed by the second key.
const GET_BY_SECOND: &[u8] =
    b"GET /devstoreaccount1/pics/a.txt HTTP/1.1\r\nx-ms-date: Mon, 01 Oct 2012 12:00:00 GMT\r\nx-ms-version: 2012-02-12\r\nAuthorization: SharedKey devstoreaccount1:DuiynJyS+mDOHSJRXf+WYpJjcrfM5PfHk6fLnEqv5zo=\r\n\r\n";

// A Create Container of `video`, signed by the key `new1`.
const CREATE_LATER_BY_NEW: &[u8] =
    b"PUT /devstoreaccount1/video?restype=container HTTP/1.1\r\nx-ms-date: Mon, 01 Oct 2012 12:00:00 GMT\r\nx-ms-version: 2012-02-12\r\nContent-Length: 0\r\nAuthorization: SharedKey devstoreaccount1:1ytNpXGYN3NcV67LUrgo1hl6N+AHmVgzm8jOW4zbhr0=\r\n\r\n";

// A Get Blob of `a.txt` by a token that the first key signed, until 13:00.
const GET_BY_TOKEN: &[u8] =
    b"GET /devstoreaccount1/pics/a.txt?sv=2012-02-12&sr=b&sp=r&se=2012-10-01T13%3A00%3A00Z&sig=%2FpBX2z6ZAz3Vfm5I%2Fv36IJDo956LK%2BrZZR6bLQuIrbY%3D HTTP/1.1\r\n\r\n";

// The same token, signed by the second key.
const GET_BY_SECOND_TOKEN: &[u8] =
    b"GET /devstoreaccount1/pics/a.txt?sv=2012-02-12&sr=b&sp=r&se=2012-10-01T13%3A00%3A00Z&sig=VL5Okp%2BgiXtLqFLJGulNEhGgIvYO%2F4iUk4wAGqiz%2FJs%3D HTTP/1.1\r\n\r\n";

fn key_of(rt: &impl Abort, alloc: Global, bytes: &[u8]) -> SigningKey {
    SigningKey::new(bytes.to_vec(alloc).expect(rt, "memory"))
}

// The epoch after the first key of the account is replaced; none if it is not replaced.
fn rotated(rt: &impl Abort, alloc: Global, driven: &mut Driven, key: &[u8]) -> Option<u64> {
    let account = text(rt, alloc, ACCOUNT);
    let key = key_of(rt, alloc, key);
    match driven.core.rotate(alloc, &account, Which::First, key) {
        Ok(Outcome::Epoch(epoch)) => Some(epoch),
        _ => None,
    }
}

// The container and the blob are made by the first key, `key1`.
fn put_hello(rt: &impl Abort, alloc: Global, driven: &mut Driven) {
    assert!(rt; begins(rt, alloc, driven, CREATE, CREATED));
    assert!(rt; begins(rt, alloc, driven, PUT, CREATED));
}

// The first key is replaced by `new1`. No signature by the old key opens anything, and the second key opens what it opened.
fn closes_by_key(rt: &impl Abort, alloc: Global, driven: &mut Driven) {
    put_hello(rt, alloc, driven);
    assert!(rt; says(rt, alloc, driven, PUT_BY_NEW, "Refused by rule K5."));
    assert!(rt; rotated(rt, alloc, driven, b"new1") == Some(1));
    assert!(rt; says(rt, alloc, driven, PUT, "Refused by rule K5."));
    assert!(rt; begins(rt, alloc, driven, PUT_BY_NEW, CREATED));
    assert!(rt; ends(rt, alloc, driven, GET_BY_SECOND, b"\r\n\r\nhello"));
}

// The same of tokens.
fn closes_by_token(rt: &impl Abort, alloc: Global, driven: &mut Driven) {
    put_hello(rt, alloc, driven);
    assert!(rt; ends(rt, alloc, driven, GET_BY_TOKEN, b"\r\n\r\nhello"));
    assert!(rt; rotated(rt, alloc, driven, b"new1") == Some(1));
    assert!(rt; says(rt, alloc, driven, GET_BY_TOKEN, "Refused by rule S4."));
    assert!(rt; ends(rt, alloc, driven, GET_BY_SECOND_TOKEN, b"\r\n\r\nhello"));
}

// A key that is replaced by the same key raises the epoch, and goes on to open.
fn takes_the_same_key(rt: &impl Abort, alloc: Global, driven: &mut Driven) {
    assert!(rt; rotated(rt, alloc, driven, b"key1") == Some(1));
    assert!(rt; rotated(rt, alloc, driven, b"key1") == Some(2));
    put_hello(rt, alloc, driven);
}

// Both halves of a slot have the new key at once, and neither has the old one.
fn closes_both_halves(rt: &impl Abort, alloc: Global, driven: &mut Driven) {
    put_hello(rt, alloc, driven);
    assert!(rt; split(rt, alloc, driven, 0, "q").is_none());
    assert!(rt; rotated(rt, alloc, driven, b"new1") == Some(1));
    assert!(rt; says(rt, alloc, driven, PUT, "Refused by rule K5."));
    assert!(rt; says(rt, alloc, driven, CREATE_LATER, "Refused by rule K5."));
    assert!(rt; begins(rt, alloc, driven, PUT_BY_NEW, CREATED));
    assert!(rt; begins(rt, alloc, driven, CREATE_LATER_BY_NEW, CREATED));
}

// One node took the record of the Create Container, and then no node answers. The key that signed it is replaced. Then only that node answers,
// so the settle keeps the container.
fn keeps_a_doubt(rt: &impl Abort, alloc: Global, driven: &mut Driven) {
    give(rt, alloc, driven, &[D, R, R], &[false, false, false]);
    assert!(rt; says(rt, alloc, driven, CREATE, "Refused by rule N2."));
    assert!(rt; rotated(rt, alloc, driven, b"new1") == Some(1));
    give(rt, alloc, driven, &[], &[true, false, false]);
    assert!(rt; tended(alloc, driven, 0, CoreCare::Settle).is_none());
    assert!(rt; begins(rt, alloc, driven, PUT_BY_NEW, CREATED));
    assert!(rt; says(rt, alloc, driven, CREATE, "Refused by rule K5."));
}

// The log has changes by two pairs, and the rows are read from it again.
fn loads_both_epochs(rt: &impl Abort, alloc: Global, driven: &mut Driven) {
    assert!(rt; begins(rt, alloc, driven, CREATE, CREATED));
    assert!(rt; rotated(rt, alloc, driven, b"new1") == Some(1));
    assert!(rt; begins(rt, alloc, driven, PUT_BY_NEW, CREATED));
    assert!(rt; tended(alloc, driven, 0, CoreCare::Unload).is_none());
    assert!(rt; ends(rt, alloc, driven, GET_BY_SECOND, b"\r\n\r\nhello"));
}

#[test]
fn a_replaced_key_signs_nothing(rt: HostRuntime) {
    let mut driven = empty_core(&rt, rt.alloc());
    closes_by_key(&rt, rt.alloc(), &mut *driven);
}

#[test]
fn a_token_of_a_replaced_key_opens_nothing(rt: HostRuntime) {
    let mut driven = empty_core(&rt, rt.alloc());
    closes_by_token(&rt, rt.alloc(), &mut *driven);
}

#[test]
fn an_equal_key_raises_the_epoch(rt: HostRuntime) {
    let mut driven = empty_core(&rt, rt.alloc());
    takes_the_same_key(&rt, rt.alloc(), &mut *driven);
}

#[test]
fn all_slots_have_the_new_key_at_once(rt: HostRuntime) {
    let mut driven = empty_core(&rt, rt.alloc());
    closes_both_halves(&rt, rt.alloc(), &mut *driven);
}

#[test]
fn a_doubt_is_kept_by_the_pair_of_its_epoch(rt: HostRuntime) {
    let mut driven = empty_core(&rt, rt.alloc());
    keeps_a_doubt(&rt, rt.alloc(), &mut *driven);
}

#[test]
fn rows_are_loaded_that_two_pairs_wrote(rt: HostRuntime) {
    let mut driven = empty_core(&rt, rt.alloc());
    loads_both_epochs(&rt, rt.alloc(), &mut *driven);
}

// The step that replaces a key of an account.
fn rotate_step(rt: &impl Abort, alloc: Global, account: &str, which: Which, key: &[u8]) -> Step {
    Step::Rotate {
        account: text(rt, alloc, account),
        which,
        key: key_of(rt, alloc, key),
    }
}

// Each key of the account is replaced once, and one of an account that the stamp does not have.
fn rotations(rt: &impl Abort, alloc: Global) -> Vec<Step> {
    let mut steps = Vec::new(alloc);
    let first = rotate_step(rt, alloc, ACCOUNT, Which::First, b"new1");
    steps.push(first).expect(rt, "memory");
    let second = rotate_step(rt, alloc, ACCOUNT, Which::Second, b"new2");
    steps.push(second).expect(rt, "memory");
    let other = rotate_step(rt, alloc, "other", Which::First, b"new1");
    steps.push(other).expect(rt, "memory");
    steps
}

#[test]
fn rotations_are_steps(rt: HostRuntime) {
    let alloc = rt.alloc();
    let mut driven = empty_core(&rt, alloc);
    let steps = rotations(&rt, alloc);
    let Driven { core, wire, .. } = &mut *driven;
    let answers = core.run(alloc, steps, wire).expect(&rt, "memory");
    let [first, second, other] = answers.as_slice() else {
        panic!(&rt; "three answers");
    };
    assert!(rt; matches!(first, Ok(Outcome::Epoch(1))));
    assert!(rt; matches!(second, Ok(Outcome::Epoch(2))));
    assert!(rt; matches!(other, Err(StepFault::NoAccount)));
}

/// A core that gets each request with its signature judged, under these keys.
#[derive(Drop)]
struct Judging {
    core: Core<KeptHistories>,
    wire: Script,
    keys: Arc<Keys>,
}

impl Service for Judging {
    ghost World = { ⊤ };

    ghost world = { λ s. tt };

    ghost answers = { λ old asked moment reply new. ⊤ };

    ghost starves = { λ old new. ⊤ };

    fn answer(
        &mut self,
        alloc: Global,
        request: Request,
        moment: Moment,
    ) -> Result<Reply, AllocError> {
        let judged = judge(alloc, &self.keys, &request)?;
        let reading = Reading::of(alloc, &request)?;
        self.core.answer(
            alloc,
            &request,
            Some(&judged),
            reading,
            moment,
            &mut self.wire,
        )
    }
}

// Signatures are judged by the first pair.
fn with_judge(rt: &impl Abort, alloc: Global) -> Box<Judging> {
    let mut pairs = Vec::new(alloc);
    pairs.push(pair(rt, alloc, 0)).expect(rt, "memory");
    let core = Core::new(alloc, pairs).expect(rt, "memory");
    let wire = Script::new(alloc, Vec::new(alloc), Vec::new(alloc));
    let keys = Arc::new(alloc, pair(rt, alloc, 0)).expect(rt, "memory");
    Box::new(alloc, Judging { core, wire, keys }).expect(rt, "memory")
}

// The judgements say that the signatures are true, as they were by the first pair. They do not count after the rotation.
fn forgets_judgements(rt: &impl Abort, alloc: Global, judging: &mut Judging) {
    assert!(rt; begins(rt, alloc, judging, CREATE, CREATED));
    assert!(rt; begins(rt, alloc, judging, PUT, CREATED));
    assert!(rt; ends(rt, alloc, judging, GET_BY_TOKEN, b"\r\n\r\nhello"));
    let account = text(rt, alloc, ACCOUNT);
    let key = key_of(rt, alloc, b"new1");
    assert!(rt;
        judging
            .core
            .rotate(alloc, &account, Which::First, key)
            .is_ok()
    );
    assert!(rt; says(rt, alloc, judging, GET_BY_TOKEN, "Refused by rule S4."));
    assert!(rt; says(rt, alloc, judging, PUT, "Refused by rule K5."));
    assert!(rt; begins(rt, alloc, judging, PUT_BY_NEW, CREATED));
}

#[test]
fn a_judgement_of_a_replaced_pair_opens_nothing(rt: HostRuntime) {
    let mut judging = with_judge(&rt, rt.alloc());
    forgets_judgements(&rt, rt.alloc(), &mut *judging);
}
