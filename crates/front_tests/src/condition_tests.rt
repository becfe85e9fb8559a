//! Conditions: which texts are ETags of the stamp, and which operations take a condition.

use crate::test_heads::request;
use stamp_types::{Code, Condition, Rule};
use std::alloc::Global;
use std::process::Abort;

const GET: &str = "GET /acct/box/b HTTP/1.1\r\n";

// Both conditions of a request, or the rule and the code that refuse the head.
type Outcome = Result<(Option<Condition>, Option<Condition>), (Rule, Code)>;

fn outcome(rt: &impl Abort, alloc: Global, start: &str, lines: &str) -> Outcome {
    request(rt, alloc, start, lines).map(|request| {
        let args = &request.ask().args;
        (args.if_match, args.if_none_match)
    })
}

fn conditions() -> [(&'static str, Condition); 12] {
    [
        ("If-Match: *", Condition::Any),
        ("If-Match: \"0x0000000000000000\"", Condition::Count(0)),
        ("If-Match: \"0x0000000000000002\"", Condition::Count(2)),
        ("If-Match: \"0x000000000000000a\"", Condition::Count(10)),
        (
            "If-Match: \"0xffffffffffffffff\"",
            Condition::Count(18_446_744_073_709_551_615),
        ),
        ("If-Match: \"0x000000000000000A\"", Condition::Never),
        ("If-Match: \"0X0000000000000002\"", Condition::Never),
        ("If-Match: \"0x000000000000002\"", Condition::Never),
        ("If-Match: \"0x00000000000000002\"", Condition::Never),
        ("If-Match: \"0x10000000000000002\"", Condition::Never),
        ("If-Match: \"0x000000000000000g\"", Condition::Never),
        ("If-Match: \"*\"", Condition::Never),
    ]
}

#[test]
fn what_a_condition_names(rt: HostRuntime) {
    for (lines, wanted) in conditions() {
        let both = outcome(&rt, rt.alloc(), GET, lines);
        assert!(rt; both == Ok((Some(wanted), None)), "of {lines}");
    }
}

#[test]
fn conditions_of_another_form(rt: HostRuntime) {
    let rows = [
        "If-Match:",
        "If-Match: 2",
        "If-Match: \"\"",
        "If-Match: W/\"0x0000000000000002\"",
        "If-Match: \"0x0000000000000002\", \"0x0000000000000003\"",
        "If-None-Match: 0x0000000000000002",
        "If-None-Match: **",
        "If-None-Match: *\r\nIf-None-Match: *",
    ];
    for lines in rows {
        let both = outcome(&rt, rt.alloc(), GET, lines);
        assert!(rt;
            both == Err((Rule::F7, Code::InvalidHeaderValue)),
            "of {lines}"
        );
    }
}

#[test]
fn operations_that_take_conditions(rt: HostRuntime) {
    let starts = [
        "PUT /acct/box/b HTTP/1.1\r\nContent-Length: 0\r\nx-ms-blob-type: BlockBlob\r\n",
        GET,
        "HEAD /acct/box/b HTTP/1.1\r\n",
        "GET /acct/box/b?comp=metadata HTTP/1.1\r\n",
        "PUT /acct/box/b?comp=metadata HTTP/1.1\r\nContent-Length: 0\r\n",
        "DELETE /acct/box/b HTTP/1.1\r\n",
    ];
    let lines = "If-None-Match: *\r\nIf-Match: \"0x0000000000000005\"";
    for start in starts {
        let both = outcome(&rt, rt.alloc(), start, lines);
        assert!(rt;
            both == Ok((Some(Condition::Count(5)), Some(Condition::Any))),
            "of {start}"
        );
    }
}

#[test]
fn operations_that_refuse_conditions(rt: HostRuntime) {
    let starts = [
        "PUT /acct/box?restype=container HTTP/1.1\r\nContent-Length: 0\r\n",
        "GET /acct/box?restype=container HTTP/1.1\r\n",
        "PUT /acct/box?restype=container&comp=metadata HTTP/1.1\r\nContent-Length: 0\r\n",
        "DELETE /acct/box?restype=container HTTP/1.1\r\n",
    ];
    for start in starts {
        for lines in ["If-Match: *", "If-None-Match: 2"] {
            let both = outcome(&rt, rt.alloc(), start, lines);
            assert!(rt;
                both == Err((Rule::F6, Code::UnsupportedHeader)),
                "of {start}"
            );
        }
    }
}
