//! An example of each crate whose tests are here, which the README of the crate shows whole.

use crate::core_samples::{Driven, empty_core, serve};
use crate::pair_tests::next_pair;
use crate::pass_samples::{Passing, new_passing};
use crate::requests::{CREATE, GET, PUT_HEAD};
use crate::samples::{key, noon, pair, pairs, request, text};
use crate::stamp_samples::{empty_stamp, steady};
use crate::stored_samples::{Streamed, empty_slot, has_container};
use access_rules::Which;
use core_run::{Outcome, Step};
use hmac_sign::SigningKey;
use range_partition::{FramedDecision, JudgedRequest, decide_frame};
use range_rows::{Reading, Target};
use row_trees::Rows;
use slot_pass::{AfterCall, Order, Pass, meet, serve_after};
use slot_state::{AccountPairs, Ready};
use stamp_locks::Care;
use stamp_types::Status;
use std::sync::Arc;
use tickets::Answer;

// range_partition
#[test]
fn a_create_container_is_decided_and_then_made(rt: HostRuntime) {
    let alloc = rt.alloc();
    let mut rows = Rows::new(alloc);
    let pair = pair(&rt, alloc, 0); // `key1` and `key2` of `devstoreaccount1`
    let request = request(&rt, alloc, CREATE, b""); // a Create Container of `pics`, signed by `key1`
    let ask = request.ask();
    let reading = Reading::of(alloc, &request).expect(&rt, "memory");
    let target = Target::of(rows.find(&ask.key), ask);
    let asked = JudgedRequest {
        request: &request,
        judged: None, // nobody judged the signature before
        moment: noon(&rt),
    };
    // No other rows have keys after these: `None`.
    let decided = decide_frame(alloc, Some(&pair), &asked, &rows, target, reading, None);
    let FramedDecision::Allowed(answer, change, _) = decided.expect(&rt, "memory") else {
        panic!(rt; "a rule refuses");
    };
    // First the change, and then the frame and the bytes of the spans.
    let change = change.expect(&rt, "a change");
    let fits = rows.fits(alloc, &change).expect(&rt, "memory");
    assert!(rt; fits);
    rows.take(alloc, change).expect(&rt, "memory");
    assert_eq!(rt; rows.find(&ask.key).count(), 1);
    let frame = answer.frame.write(alloc).expect(&rt, "memory");
    assert!(rt; frame.status == Status::Created && answer.spans.as_slice().is_empty());
}

// slot_state
#[test]
fn a_key_is_replaced_after_a_request_was_judged(rt: HostRuntime) {
    let alloc = rt.alloc();
    let account = text(&rt, alloc, "devstoreaccount1");
    // The first pair of the account, of the epoch 0.
    let first = AccountPairs::of(alloc, pairs(&rt, alloc)).expect(&rt, "first pairs");
    // Before a lock: the first key at which a request looks, and the judgement of its signature.
    let request = request(&rt, alloc, CREATE, b"");
    let ready = Ready::of(alloc, &first, &request, noon(&rt), false).expect(&rt, "memory");
    assert!(rt; ready.first.same(&key(&rt, alloc, "pics")));
    assert!(rt; ready.judged.is_some());
    // The next pair has `new1` in the place of `key1`, and is in force for later requests.
    let next = next_pair(&rt, alloc, &first, &account);
    let next = Arc::new(alloc, next).expect(&rt, "memory");
    let later = first.with_next(alloc, &account, next).expect(&rt, "memory");
    assert!(rt; later.epoch(&account) == 1 && later.of_account(&account).len() == 2);
    // The older pairs stay as they were.
    assert!(rt; first.epoch(&account) == 0 && first.of_account(&account).len() == 1);
}

// stored_slot
#[test]
fn a_slot_serves_a_blob_now_and_by_a_ticket(rt: HostRuntime) {
    let alloc = rt.alloc();
    // A slot of all keys, and a wire to three nodes that do all that they are told.
    let mut served = empty_slot(&rt, alloc);
    let Streamed { slot, wire, .. } = &mut *served;
    let create = request(&rt, alloc, CREATE, b""); // a Create Container of `pics`
    assert!(rt; has_container(slot, &create)); // `serve` requires it
    let answer = slot.serve(alloc, &create, None, noon(&rt), wire);
    assert!(rt; matches!(&answer, Answer::Done(reply) if reply.status == Status::Created));
    let put = request(&rt, alloc, PUT_HEAD, b"hello"); // a Put Blob of `a.txt`
    assert!(rt; has_container(slot, &put));
    let answer = slot.serve(alloc, &put, None, noon(&rt), wire);
    assert!(rt; matches!(&answer, Answer::Done(reply) if reply.status == Status::Created));
    // Content in a sealed extent is read later. The next request loads the rows.
    assert!(rt; slot.seal(alloc, wire).is_ok());
    slot.unload();
    let get = request(&rt, alloc, GET, b"");
    assert!(rt; has_container(slot, &get));
    let Answer::Later(ticket) = slot.serve(alloc, &get, None, noon(&rt), wire) else {
        panic!(rt; "a ticket");
    };
    let reply = ticket.fetch(wire).ok().expect(&rt, "a node");
    let body = reply.body.joined(alloc).expect(&rt, "memory");
    assert!(rt; body.as_slice() == b"hello".as_slice());
}

// slot_pass
#[test]
fn a_pass_gets_what_its_caller_is_shown(rt: HostRuntime) {
    let alloc = rt.alloc();
    // A slot of all keys with its wire, and a new pass of the container `pics`: nothing was shown yet.
    let mut passing = new_passing(&rt, alloc, "pics", pairs(&rt, alloc), &[], &[]);
    let Passing {
        slot,
        wire,
        pass,
        ..
    } = &mut *passing;
    let create = request(&rt, alloc, CREATE, b""); // a Create Container of `pics`
    // `serve_after` requires it: a container of the slot, and that of the pass.
    assert!(rt; has_container(slot, &create) && create.ask().key.same(pass.key()));
    let call = AfterCall {
        request: &create,
        judged: None,
        moment: noon(&rt),
        is_audited: false,
    };
    let served = serve_after(slot, alloc, pass, &call, wire);
    assert!(rt; served.is_ok()); // the slot has all that the pass shows
    assert!(rt; pass.front().len() == 1 && pass.pairs().len() == 1);
    // Another caller was shown nothing, so the accepted changes of its pass begin those of this pass.
    let other = Pass::new(alloc, key(&rt, alloc, "pics"));
    assert!(rt; meet(&other, pass) == Ok(Order::First));
}

// stamp_core
#[test]
fn a_core_answers_each_step_of_a_list(rt: HostRuntime) {
    let alloc = rt.alloc();
    // `Core::new` with the first pair of keys of an account, and a wire to three nodes.
    let mut driven = empty_core(&rt, alloc);
    let Driven { core, wire, .. } = &mut *driven;
    let create = serve(&rt, alloc, CREATE, b""); // a Create Container of `pics`
    let put = serve(&rt, alloc, PUT_HEAD, b"hello"); // a Put Blob of `a.txt`
    let seal = Step::Seal { slot: 0 };
    let get = serve(&rt, alloc, GET, b""); // a Get Blob of sealed content gives a ticket
    let fetch = Step::Fetch { ticket: 0 };
    let steps = vec![in alloc; create, put, seal, get, fetch].expect(&rt, "memory");
    let answers = core.run(alloc, steps, wire).expect(&rt, "memory");
    assert!(rt; answers.len() == 5); // an answer for each step
    assert!(rt; matches!(&answers[1], Ok(Outcome::Reply(_))));
    assert!(rt; matches!(&answers[2], Ok(Outcome::Made)));
    assert!(rt; matches!(&answers[3], Ok(Outcome::Later(0))));
    assert!(rt; matches!(&answers[4], Ok(Outcome::Reply(reply)) if reply.length == 5));
    // The same as a single step. Slot 0 keeps the keys before `q`.
    let middle = key(&rt, alloc, "q");
    assert!(rt; core.split(alloc, 0, &middle, wire).is_ok());
}

// stamp_locks
#[test]
fn a_stamp_serves_splits_and_replaces_a_key(rt: HostRuntime) {
    let alloc = rt.alloc();
    // `Stamp::new` with the first pair of keys of an account, and the wire of its one slot.
    let stamp = empty_stamp(&rt, alloc);
    // On any thread: a Create Container without a pass, and then a Put Blob with one.
    let create = request(&rt, alloc, CREATE, b"");
    let answer = stamp.handle(&rt, alloc, &create, noon(&rt));
    assert!(rt; matches!(&answer, Answer::Done(reply) if reply.status == Status::Created));
    let put = request(&rt, alloc, PUT_HEAD, b"hello");
    let pass = Pass::new(alloc, key(&rt, alloc, "pics"));
    assert!(rt; put.ask().key.same(pass.key())); // `handle_after` requires it
    let handled = stamp.handle_after(&rt, alloc, pass, &put, noon(&rt)).ok();
    let (_, pass) = handled.expect(&rt, "all that the pass shows");
    assert_eq!(rt; pass.front().len(), 2);
    // A ticket is fetched under no lock, over a wire of the caller.
    assert!(rt; stamp.tend(&rt, alloc, 0, Care::Seal).is_ok());
    let get = request(&rt, alloc, GET, b"");
    let Answer::Later(ticket) = stamp.handle(&rt, alloc, &get, noon(&rt)) else {
        panic!(rt; "sealed content is read later");
    };
    assert!(rt; ticket.fetch(&mut steady(alloc)).is_ok());
    // The upper half of a slot gets a wire of its own.
    let middle = key(&rt, alloc, "q");
    assert!(rt; stamp.split(&rt, alloc, 0, &middle, steady(alloc)).is_ok());
    let new = SigningKey::new(b"new1".to_vec(alloc).expect(&rt, "memory"));
    let account = text(&rt, alloc, "devstoreaccount1");
    assert!(rt; stamp.rotate(&rt, alloc, &account, Which::First, new) == Ok(1)); // the epoch
}
