//! The rules of permission once more, for tests: each rule is judged by itself, from what was sent.

use crate::access_cases::{ACCOUNT, Case, Sent};
use access_rules::{Verdict, Way};
use moment_text::read_http;
use stamp_types::{BlockKinds, Level, Op, Rule};

// 15 minutes, in steps of 100 ns.
const FIFTEEN_MINUTES: u64 = 9_000_000_000;

// The account that Authorization claims, if it was sent once and in its form.
fn claimed_account(case: &Case) -> Option<&'static str> {
    let Sent::Authorization([value]) = case.sent else {
        return None;
    };
    let (account, signature) = value.strip_prefix("SharedKey ")?.split_once(':')?;
    if account.is_empty() || signature.is_empty() {
        None
    } else {
        Some(account)
    }
}

fn is_signed(case: &Case) -> bool {
    match case.sent {
        Sent::Authorization([value]) => {
            *value == case.dated.by_first || *value == case.dated.by_second
        }
        _ => false,
    }
}

// How far the date is from the moment.
fn distance(case: &Case) -> Option<u64> {
    let date = read_http(case.dated.date.as_bytes()).ok()?;
    Some(date.ticks().abs_diff(case.now.unsigned_abs()))
}

// Whether a container opens the operation: the level of blobs opens blob data, and the level of containers container data too. A
// container that does not exist opens nothing.
fn is_open(level: Option<Level>, case: &Case) -> bool {
    match case.op {
        Op::GetBlob | Op::BlobProperties | Op::GetMetadata => level >= Some(Level::Blob),
        Op::GetBlockList => {
            level >= Some(Level::Blob) && case.kinds == Some(BlockKinds::Committed)
        }
        Op::ContainerProperties | Op::ListBlobs => level == Some(Level::Container),
        _ => false,
    }
}

fn holds_by_key(rule: Rule, case: &Case) -> bool {
    let claimed = claimed_account(case);
    match rule {
        Rule::K1 => claimed.is_none(),
        Rule::K2 => { claimed.is_some() && (claimed != Some(ACCOUNT) || case.account != ACCOUNT) }
        Rule::K3 => distance(case).is_none(),
        Rule::K4 => distance(case) > Some(FIFTEEN_MINUTES),
        Rule::K5 => claimed.is_some() && case.account == ACCOUNT && !is_signed(case),
        _ => false,
    }
}

fn holds(rule: Rule, case: &Case) -> bool {
    let may_be_open = is_open(Some(Level::Container), case);
    match (case.sent, rule) {
        (Sent::Authorization(_), _) => holds_by_key(rule, case),
        (Sent::Token, Rule::S1) => true,
        (Sent::Nothing, Rule::P1) => !may_be_open,
        (Sent::Nothing, Rule::P2) => may_be_open && !is_open(case.level, case),
        _ => false,
    }
}

/// Whether K5 holds of a case, whatever the other rules say.
pub(crate) fn slow_has_false_signature(case: &Case) -> bool {
    holds(Rule::K5, case)
}

/// The verdict on a case: the first of the rules that holds.
pub(crate) fn slow_verdict(case: &Case) -> Verdict {
    use Rule::{K1, K2, K3, K4, K5, P1, P2, S1};
    for rule in [K1, K2, K3, K4, K5, S1, P1, P2] {
        if holds(rule, case) {
            return Verdict::Deny(rule);
        }
    }
    Verdict::Allow(match case.sent {
        Sent::Authorization(_) => Way::Shared,
        Sent::Token => Way::Token,
        Sent::Nothing => Way::Anonymous,
    })
}
