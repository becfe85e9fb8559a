//! What no clause says about judgements of signatures: that each call answers if memory is left.
ghost use Rattle.std.specs.Option.{option_copied};
ghost use Rattle.policy_book.specs.Judgements.{IsOfAsk};

use crate::access_cases::{ACCOUNT, Case, Sent, keys, request};
use crate::rule_tests::{DATED, FIRST, FIRST_OF_PLAIN, NOON, SECOND};
use access_rules::{Keys, SignedBy, Verdict, Way};
use policy_book::{Judged, Revision, Signature, judge, signer_by, verdict_by, vouch};
use stamp_types::{Acl, Level, Moment, Op, Policies, Request, Rule};
use std::alloc::Global;
use std::process::Abort;
use std::sync::Arc;

type Row = (Sent, Signature, SignedBy, Verdict);

// The credential, how its signature is judged, the key that gives it, and the verdict. The signatures are those of `rule_tests`; the third is that of
// another string.
fn rows() -> [Row; 4] {
    [
        (
            Sent::Authorization(&[FIRST]),
            Signature::True,
            SignedBy::First,
            Verdict::Allow(Way::Shared),
        ),
        (
            Sent::Authorization(&[SECOND]),
            Signature::True,
            SignedBy::Second,
            Verdict::Allow(Way::Shared),
        ),
        (
            Sent::Authorization(&[FIRST_OF_PLAIN]),
            Signature::False,
            SignedBy::Neither,
            Verdict::Deny(Rule::K5),
        ),
        (
            Sent::Nothing,
            Signature::Unjudged,
            SignedBy::Neither,
            Verdict::Deny(Rule::P1),
        ),
    ]
}

// A Put Blob of `a.txt` in `pics` with this credential.
pub(crate) fn put(rt: &impl Abort, alloc: Global, sent: Sent) -> Request {
    let case = Case {
        op: Op::PutBlob,
        kinds: None,
        sent,
        dated: DATED,
        account: ACCOUNT,
        level: None,
        now: NOON,
    };
    request(rt, alloc, &case)
}

pub(crate) fn shared(rt: &impl Abort, alloc: Global, epoch: u64) -> Arc<Keys> {
    let mut pair = keys(rt, alloc, ACCOUNT);
    pair.epoch = epoch;
    Arc::new(alloc, pair).expect(rt, "memory")
}

fn verdict_with(
    rt: &impl Abort,
    alloc: Global,
    keys: &Keys,
    request: &Request,
    judged: Option<&Judged<'_>>,
) -> Verdict
    requires { IsOfAsk (option_copied judged) request.now.ask }
{
    let now = Moment::new(NOON).expect(rt, "a moment");
    verdict_by(alloc, Some(keys), None, request, now, judged).expect(rt, "memory")
}

#[test]
fn a_signature_is_judged_before_the_verdict(rt: HostRuntime) {
    let alloc = rt.alloc();
    let pair = shared(&rt, alloc, 0);
    for (sent, signature, by, wanted) in rows() {
        let request = put(&rt, alloc, sent);
        let judged = judge(alloc, &pair, &request).expect(&rt, "memory");
        assert!(rt; judged.signature() == signature);
        assert!(rt; judged.by() == by);
        assert!(rt; judged.is_for(&request));
        let verdict = verdict_with(&rt, alloc, &pair, &request, Some(&judged));
        assert!(rt; verdict == wanted);
    }
}

#[test]
fn a_voucher_is_given_for_a_true_signature_alone(rt: HostRuntime) {
    let alloc = rt.alloc();
    let pair = shared(&rt, alloc, 0);
    for (sent, signature, _, _) in rows() {
        let request = put(&rt, alloc, sent);
        let voucher = vouch(alloc, &pair, &request).expect(&rt, "memory");
        assert!(rt; voucher.is_some() == (signature == Signature::True));
    }
}

// The judgement of another epoch is not used, and the verdict is the same.
#[test]
fn the_verdict_is_the_same_without_a_judgement_of_the_pair(rt: HostRuntime) {
    let alloc = rt.alloc();
    let older = shared(&rt, alloc, 0);
    let pair = shared(&rt, alloc, 1);
    for (sent, _, by, wanted) in rows() {
        let request = put(&rt, alloc, sent);
        let judged = judge(alloc, &older, &request).expect(&rt, "memory");
        assert!(rt; verdict_with(&rt, alloc, &pair, &request, Some(&judged)) == wanted);
        assert!(rt; verdict_with(&rt, alloc, &pair, &request, None) == wanted);
        assert!(rt; signer_by(alloc, Some(&pair), &request, Some(&judged)) == Ok(by));
    }
}

#[test]
fn a_judgement_is_for_its_request(rt: HostRuntime) {
    let alloc = rt.alloc();
    let pair = shared(&rt, alloc, 0);
    let request = put(&rt, alloc, Sent::Authorization(&[FIRST]));
    let other = put(&rt, alloc, Sent::Authorization(&[SECOND]));
    let voucher = vouch(alloc, &pair, &request).expect(&rt, "memory");
    let voucher = voucher.expect(&rt, "a true signature");
    assert!(rt; voucher.is_for(&request));
    assert!(rt; !voucher.is_for(&other));
    assert!(rt; voucher.keys().epoch == 0);
}

#[test]
fn a_revision_lends_what_it_shares(rt: HostRuntime) {
    let alloc = rt.alloc();
    let acl = Acl {
        level: Level::Blob,
        policies: Policies::empty(alloc),
    };
    let acl = Arc::new(alloc, acl).expect(&rt, "memory");
    let revision = Revision::new(Some(acl), Some(shared(&rt, alloc, 3)));
    assert!(rt; revision.acl().is_some_and(|acl| acl.level == Level::Blob));
    assert!(rt; revision.keys().is_some_and(|keys| keys.epoch == 3));
}
