//! What no clause says about writing stored policies: that they can be written, and bytes made outside of this repository's code.

use body_forms::write_policies;
use stamp_types::{Items, Letters, Moment, Policies, Policy, Text};
use std::alloc::Global;
use std::process::Abort;

const NONE: &str =
    "<?xml version=\"1.0\" encoding=\"utf-8\"?><SignedIdentifiers></SignedIdentifiers>";

const ONE: &str =
    "<?xml version=\"1.0\" encoding=\"utf-8\"?><SignedIdentifiers><SignedIdentifier><Id>read-only</Id><AccessPolicy><Expiry>2012-10-01T13:00:00.0000000Z</Expiry><Permission>r</Permission></AccessPolicy></SignedIdentifier></SignedIdentifiers>";

const TWO: &str =
    "<?xml version=\"1.0\" encoding=\"utf-8\"?><SignedIdentifiers><SignedIdentifier><Id>a &amp; b</Id><AccessPolicy><Start>2012-10-01T00:00:00.0000000Z</Start><Expiry>2012-10-02T00:00:00.5000000Z</Expiry><Permission>rwdl</Permission></AccessPolicy></SignedIdentifier><SignedIdentifier><Id>p2</Id><AccessPolicy></AccessPolicy></SignedIdentifier></SignedIdentifiers>";

const BRACKETS: &str =
    "<?xml version=\"1.0\" encoding=\"utf-8\"?><SignedIdentifiers><SignedIdentifier><Id>&lt;\"'&gt;&amp;amp;</Id><AccessPolicy></AccessPolicy></SignedIdentifier></SignedIdentifiers>";

pub(crate) fn policy(
    rt: &impl Abort,
    alloc: Global,
    id: &str,
    start: Option<i64>,
    expiry: Option<i64>,
    letters: &str,
) -> Policy {
    let id = String::from_str(alloc, id).expect(rt, "memory");
    Policy {
        id: Text::new(id).expect(rt, "no control character"),
        start: start.and_then(Moment::new),
        expiry: expiry.and_then(Moment::new),
        letters: Letters::read(letters.as_bytes()),
    }
}

fn written(rt: &impl Abort, alloc: Global, policies: Vec<Policy>) -> Vec<u8> {
    let policies = Policies::new(Items::new(policies)).expect(rt, "policies");
    write_policies(alloc, &policies).expect(rt, "memory")
}

#[test]
fn no_policies_are_written(rt: HostRuntime) {
    let alloc = rt.alloc();
    let bytes = written(&rt, alloc, Vec::new(alloc));
    assert!(rt; bytes.as_slice() == NONE.as_bytes());
    assert!(rt; bytes.len() == 77);
}

#[test]
fn absent_fields_are_left_out(rt: HostRuntime) {
    let alloc = rt.alloc();
    let mut policies = Vec::new(alloc);
    let expiry = Some(13_490_964_000_000_000);
    policies
        .push(policy(&rt, alloc, "read-only", None, expiry, "r"))
        .expect(&rt, "memory");
    let bytes = written(&rt, alloc, policies);
    assert!(rt; bytes.as_slice() == ONE.as_bytes());
    assert!(rt; bytes.len() == 232);
}

#[test]
fn policies_keep_their_order(rt: HostRuntime) {
    let alloc = rt.alloc();
    let mut policies = Vec::new(alloc);
    let start = Some(13_490_496_000_000_000);
    let expiry = Some(13_491_360_005_000_000);
    policies
        .push(policy(&rt, alloc, "a & b", start, expiry, "rwdl"))
        .expect(&rt, "memory");
    policies
        .push(policy(&rt, alloc, "p2", None, None, ""))
        .expect(&rt, "memory");
    let bytes = written(&rt, alloc, policies);
    assert!(rt; bytes.as_slice() == TWO.as_bytes());
    assert!(rt; bytes.len() == 355);
}

#[test]
fn brackets_and_ampersands_are_written_as_references(rt: HostRuntime) {
    let alloc = rt.alloc();
    let mut policies = Vec::new(alloc);
    policies
        .push(policy(&rt, alloc, "<\"'>&amp;", None, None, ""))
        .expect(&rt, "memory");
    let bytes = written(&rt, alloc, policies);
    assert!(rt; bytes.as_slice() == BRACKETS.as_bytes());
}
