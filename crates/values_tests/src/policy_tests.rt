//! Tokens and stored policies, field by field.
use crate::sample_values::text;
use container_acl::{FieldFault, fields_with, find};
use moment_text::read_iso;
use sas_token::{Overrides, Resource, Token};
use stamp_types::{Acl, Items, Letters, Level, Moment, Policies, Policy};
use std::alloc::Global;
use std::process::Abort;

pub(crate) fn moment(text: &str) -> Option<Moment> {
    read_iso(text.as_bytes()).ok()
}

// A token that gives what is not empty.
pub(crate) fn token<'a>(
    id: &'a str,
    start: &'a str,
    expiry: &'a str,
    letters: &'a str,
) -> Token<'a> {
    Token {
        version: b"2012-02-12",
        resource: Resource::Container,
        permissions: letters.as_bytes(),
        start_text: start.as_bytes(),
        expiry_text: expiry.as_bytes(),
        id: id.as_bytes(),
        signature: b"",
        letters: Letters::read(letters.as_bytes()),
        start: moment(start),
        expiry: moment(expiry),
        overrides: Overrides {
            cache_control: b"",
            disposition: b"",
            encoding: b"",
            language: b"",
            content_type: b"",
        },
    }
}

// A container with one policy, `read-only`, that gives what is not empty.
pub(crate) fn acl(rt: &impl Abort, alloc: Global, start: &str, expiry: &str, letters: &str) -> Acl {
    let mut policies = Vec::new(alloc);
    policies
        .push(Policy {
            id: text(rt, alloc, "read-only"),
            start: moment(start),
            expiry: moment(expiry),
            letters: Letters::read(letters.as_bytes()),
        })
        .expect(rt, "memory");
    Acl {
        level: Level::Closed,
        policies: Policies::new(Items::new(policies)).expect(rt, "policies"),
    }
}

const DAY: &str = "2012-10-01";

const NEXT: &str = "2012-10-02";

#[test]
fn a_policy_is_found_by_all_bytes_of_its_id(rt: HostRuntime) {
    let acl = acl(&rt, rt.alloc(), "", "", "");
    for (id, found) in [
        ("read-only", true),
        ("read-onl", false),
        ("read-only ", false),
        ("Read-only", false),
        ("", false),
    ] {
        assert_eq!(rt; find(&acl, id.as_bytes()).is_some(), found, "{id}");
    }
}

#[test]
fn each_field_is_given_once(rt: HostRuntime) {
    for (id, own, stored, fault) in [
        ("read-only", ["", DAY, "r"], ["", "", ""], None),
        ("read-only", ["", "", ""], ["", DAY, "r"], None),
        ("read-only", [DAY, "", "r"], ["", NEXT, ""], None),
        ("read-only", ["", NEXT, ""], [DAY, "", "r"], None),
        ("", [DAY, NEXT, "r"], [DAY, NEXT, "r"], None),
        (
            "read-only",
            [DAY, "", ""],
            [DAY, NEXT, "r"],
            Some(FieldFault::Both),
        ),
        (
            "read-only",
            ["", DAY, ""],
            ["", DAY, "r"],
            Some(FieldFault::Both),
        ),
        (
            "read-only",
            ["", DAY, "r"],
            ["", "", "r"],
            Some(FieldFault::Both),
        ),
        (
            "read-only",
            [DAY, "", ""],
            [DAY, "", ""],
            Some(FieldFault::Both),
        ),
        (
            "read-only",
            ["", "", "r"],
            ["", "", ""],
            Some(FieldFault::Lacks),
        ),
        (
            "read-only",
            [DAY, DAY, ""],
            ["", "", ""],
            Some(FieldFault::Lacks),
        ),
        ("", ["", "", "r"], ["", DAY, ""], Some(FieldFault::Lacks)),
        (
            "read-onl",
            ["", "", ""],
            ["", "", ""],
            Some(FieldFault::Absent),
        ),
        (
            "read-only!",
            [DAY, NEXT, "r"],
            ["", "", ""],
            Some(FieldFault::Absent),
        ),
    ] {
        let acl = acl(&rt, rt.alloc(), stored[0], stored[1], stored[2]);
        let token = token(id, own[0], own[1], own[2]);
        let found = fields_with(Some(&acl), &token).err();
        assert_eq!(rt; found, fault, "{id} {own:?} {stored:?}");
    }
}

#[test]
fn fields_are_those_that_one_gives(rt: HostRuntime) {
    let acl = acl(&rt, rt.alloc(), "", NEXT, "");
    let token = token("read-only", DAY, "", "rw");
    let fields = fields_with(Some(&acl), &token).ok().expect(&rt, "fields");
    assert_eq!(rt; fields.start, moment(DAY));
    assert_eq!(rt; Some(fields.expiry), moment(NEXT));
    assert_eq!(rt; fields.letters.as_str(), "rw");
}
