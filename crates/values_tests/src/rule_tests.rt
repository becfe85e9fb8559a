//! What no clause says about the rules: that a request can be allowed, and that the definitions mean what the reference says.
//! The rules of the key route that a client can meet are cases of `replay_cases`.

use crate::access_cases::{
    ACCOUNT, Case, Dated, Sent, case_has_false_signature, case_has_true_signature, case_verdict,
    token_verdict,
};
use crate::slow_rules::{slow_has_false_signature, slow_verdict};
use access_rules::{Letter, Need, Verdict, Way, need_of};
use stamp_types::{BlockKinds, Level, Op, Rule};
use std::alloc::Global;
use std::process::Abort;

// 2012-10-01T12:00:00Z
pub(crate) const NOON: i64 = 13_490_928_000_000_000;

const DATE: &str = "Mon, 01 Oct 2012 12:00:00 GMT";

// The signatures were computed with Python's hmac, from the strings that the reference gives for these headers.
pub(crate) const FIRST: &str =
    "SharedKey devstoreaccount1:d6Z+te/s0/4E59HxWmnrHiDmMywuU/tdYZOanDvfbmU=";

pub(crate) const SECOND: &str =
    "SharedKey devstoreaccount1:O9UZNW452QDPdLw1F6p3ZC4NHU5qWVzYuTPZoHu3yXw=";

pub(crate) const FIRST_OF_PLAIN: &str =
    "SharedKey devstoreaccount1:ePRVCZLPt7I+xXfjP5/XGitY47nxn8CnHH9IT3/CirM=";

const SECOND_OF_PLAIN: &str =
    "SharedKey devstoreaccount1:Q0voD+n40xNLU5uGUgXexCY4DVjCzZJKH97vt5u+Vwc=";

pub(crate) const DATED: Dated = Dated {
    name: "x-ms-date",
    date: DATE,
    by_first: FIRST,
    by_second: SECOND,
};

const PLAIN: Dated = Dated {
    name: "date",
    date: DATE,
    by_first: FIRST_OF_PLAIN,
    by_second: SECOND_OF_PLAIN,
};

const ALLOW: Verdict = Verdict::Allow(Way::Shared);

const K2: Verdict = Verdict::Deny(Rule::K2);

const K4: Verdict = Verdict::Deny(Rule::K4);

// The verdict is the one that is wanted, and the slow judge agrees, also on the signature alone. If the verdict is that a key
// allows, the signature is true.
fn check(rt: &impl Abort, alloc: Global, case: &Case, wanted: Verdict) {
    let is_right = case_verdict(rt, alloc, case) == wanted
        && case_has_false_signature(rt, alloc, case) == slow_has_false_signature(case)
        && (wanted != ALLOW || case_has_true_signature(rt, alloc, case));
    assert!(rt;
        is_right && slow_verdict(case) == wanted,
        "{:?} {:?}",
        case.op,
        case.level
    );
}

type KeyRow = (&'static [&'static str], Dated, &'static str, i64, Verdict);

// Authorization, the date, the account of the keys, the moment, the verdict.
fn key_rows() -> [KeyRow; 4] {
    [
        (&[FIRST], DATED, ACCOUNT, NOON, ALLOW),
        (&[SECOND_OF_PLAIN], PLAIN, ACCOUNT, NOON, ALLOW),
        (&[FIRST], DATED, ACCOUNT, NOON + 9_000_000_001, K4),
        // The stamp has the keys of another account.
        (&[FIRST], DATED, "otheraccount", NOON, K2),
    ]
}

#[test]
fn either_key_allows(rt: HostRuntime) {
    for (values, dated, account, now, wanted) in key_rows() {
        let case = Case {
            op: Op::PutBlob,
            kinds: None,
            sent: Sent::Authorization(values),
            dated,
            account,
            level: None,
            now,
        };
        check(&rt, rt.alloc(), &case, wanted);
    }
}

type LevelRow = (Op, Option<BlockKinds>, Option<Letter>, Option<Level>);

// The operation, the kinds of blocks that it lists, the letter that it needs, and the lowest level that opens it. `None` in place
// of a letter or a level: no shared access signature, or no level, opens the operation.
fn level_rows() -> [LevelRow; 19] {
    use BlockKinds::{All, Committed, Uncommitted};
    use Letter::{Delete, List, Read, Write};
    [
        (Op::ListContainers, None, None, None),
        (Op::CreateContainer, None, None, None),
        (Op::ContainerProperties, None, None, Some(Level::Container)),
        (Op::SetContainerMetadata, None, None, None),
        (Op::GetAcl, None, None, None),
        (Op::SetAcl, None, None, None),
        (Op::DeleteContainer, None, None, None),
        (Op::ListBlobs, None, Some(List), Some(Level::Container)),
        (Op::PutBlob, None, Some(Write), None),
        (Op::GetBlob, None, Some(Read), Some(Level::Blob)),
        (Op::BlobProperties, None, Some(Read), Some(Level::Blob)),
        (Op::GetMetadata, None, Some(Read), Some(Level::Blob)),
        (Op::SetMetadata, None, Some(Write), None),
        (Op::DeleteBlob, None, Some(Delete), None),
        (Op::PutBlock, None, Some(Write), None),
        (Op::PutBlockList, None, Some(Write), None),
        (
            Op::GetBlockList,
            Some(Committed),
            Some(Read),
            Some(Level::Blob),
        ),
        (Op::GetBlockList, Some(Uncommitted), Some(Read), None),
        (Op::GetBlockList, Some(All), Some(Read), None),
    ]
}

// The verdict without a credential: P1 if no level opens the operation, P2 if the container does not exist or its level is lower.
fn public_verdict(lowest: Option<Level>, level: Option<Level>) -> Verdict {
    if lowest.is_none() {
        Verdict::Deny(Rule::P1)
    } else if level < lowest {
        Verdict::Deny(Rule::P2)
    } else {
        Verdict::Allow(Way::Anonymous)
    }
}

// What the container says matters to a request without a credential alone.
fn check_level(rt: &impl Abort, alloc: Global, row: LevelRow, level: Option<Level>) {
    let (op, kinds, _, lowest) = row;
    for (sent, wanted) in [
        (Sent::Nothing, public_verdict(lowest, level)),
        // This is the signature of another string.
        (
            Sent::Authorization(&[FIRST_OF_PLAIN]),
            Verdict::Deny(Rule::K5),
        ),
        (
            Sent::Authorization(&[FIRST, FIRST]),
            Verdict::Deny(Rule::K1),
        ),
        (Sent::Token, Verdict::Deny(Rule::S1)),
    ] {
        let case = Case {
            op,
            kinds,
            sent,
            dated: DATED,
            account: ACCOUNT,
            level,
            now: NOON,
        };
        check(rt, alloc, &case, wanted);
    }
}

// The letters and levels are those of the reference's pages on shared access signatures and on access to containers.
#[test]
fn each_operation_is_opened_by_the_levels_of_the_reference(rt: HostRuntime) {
    for row in level_rows() {
        let (op, kinds, letter, level) = row;
        assert_eq!(rt; need_of(op, kinds), Need { letter, level }, "{op:?}");
        check_level(&rt, rt.alloc(), row, None);
        check_level(&rt, rt.alloc(), row, Some(Level::Closed));
        check_level(&rt, rt.alloc(), row, Some(Level::Blob));
        check_level(&rt, rt.alloc(), row, Some(Level::Container));
    }
}

// The signatures were made by Python's hmac, and the first of them by Azure's clients too: see docs/formats/tokens.md.
#[test]
fn either_key_allows_by_a_token(rt: HostRuntime) {
    for (signature, now, wanted, is_false) in [
        (
            "/pBX2z6ZAz3Vfm5I/v36IJDo956LK+rZZR6bLQuIrbY=",
            NOON,
            Verdict::Allow(Way::Token),
            false,
        ),
        (
            "VL5Okp+giXtLqFLJGulNEhGgIvYO/4iUk4wAGqiz/Js=",
            NOON,
            Verdict::Allow(Way::Token),
            false,
        ),
        (
            "TIGKkDHmlrdB8WeYksI8cRDgS/QFtDWqXqapUkFpU44=",
            NOON,
            Verdict::Deny(Rule::S4),
            true,
        ),
        (
            "/pBX2z6ZAz3Vfm5I/v36IJDo956LK+rZZR6bLQuIrbY=",
            NOON + 36_000_000_000,
            Verdict::Deny(Rule::S9),
            false,
        ),
    ] {
        let query = [
            ("sv", "2012-02-12"),
            ("sr", "b"),
            ("sp", "r"),
            ("se", "2012-10-01T13:00:00Z"),
            ("sig", signature),
        ];
        let judged = token_verdict(&rt, rt.alloc(), &query, now);
        assert!(rt; judged == (wanted, is_false, !is_false), "{signature}");
    }
}
