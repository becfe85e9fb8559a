//! Entries of the audit book that a core makes beside its replies.
ghost use Rattle.std.specs.Prelude.{⊤};

use crate::core_samples::{Driven, empty_core, give, split};
use crate::requests::{CREATE, CREATED, GET, GET_B, LIST, MISSING, PUT};
use crate::samples::{begins, ends, says};
use crate::stored_samples::{D, R};
use access_rules::Way;
use http_front::Service;
use policy_book::Entry;
use range_rows::Reading;
use stamp_core::AuditedReply;
use stamp_types::{Moment, Op, Reply, Request};
use std::alloc::{AllocError, Global};
use std::process::Abort;

// A core, and the entries of the requests that it answered.
#[derive(Drop)]
struct Booked {
    driven: Box<Driven>,
    entries: Vec<Entry>,
}

impl Service for Booked {
    ghost World = { ⊤ };

    ghost world = { λ s. tt };

    ghost answers = { λ old asked moment reply new. ⊤ };

    ghost starves = { λ old new. ⊤ };

    fn answer(
        &mut self,
        alloc: Global,
        request: Request,
        moment: Moment,
    ) -> Result<Reply, AllocError> {
        let reading = Reading::of(alloc, &request)?;
        let Driven { core, wire, .. } = &mut *self.driven;
        let AuditedReply { reply, entry } = core.answer_audited(
            alloc, &request, None, reading, moment, wire,
        );
        if let Some(entry) = entry {
            self.entries.push(entry)?;
        }
        reply
    }
}

fn booked_core(rt: &impl Abort, alloc: Global) -> Box<Booked> {
    let booked = Booked {
        driven: empty_core(rt, alloc),
        entries: Vec::new(alloc),
    };
    Box::new(alloc, booked).expect(rt, "memory")
}

// The last entry is of the operation and the place, and there are so many.
fn is_last(booked: &Booked, count: usize, op: Op, place: u64) -> bool {
    match booked.entries.last() {
        Some(entry) => {
            booked.entries.len() == count
                && entry.request().ask().op == op
                && entry.place() == place
                && entry.way() == Way::Shared
        }
        None => false,
    }
}

// A split leaves the places of the containers. Requests that are refused, and a List Containers, have no entry.
fn places(rt: &impl Abort, alloc: Global, booked: &mut Booked) {
    assert!(rt; begins(rt, alloc, booked, CREATE, CREATED));
    assert!(rt; is_last(booked, 1, Op::CreateContainer, 0));
    assert!(rt; begins(rt, alloc, booked, PUT, CREATED));
    assert!(rt; is_last(booked, 2, Op::PutBlob, 1));
    assert!(rt; split(rt, alloc, &mut booked.driven, 0, "mmm").is_none());
    assert!(rt; begins(rt, alloc, booked, GET_B, MISSING));
    assert!(rt; ends(rt, alloc, booked, LIST, b"</EnumerationResults>"));
    assert!(rt; ends(rt, alloc, booked, GET, b"\r\n\r\nhello"));
    assert!(rt; is_last(booked, 3, Op::GetBlob, 2));
}

#[test]
fn each_place_is_of_its_container(rt: HostRuntime) {
    let mut booked = booked_core(&rt, rt.alloc());
    places(&rt, rt.alloc(), &mut *booked);
}

// The content of the blob is out of reach, so the Get is answered N1 after it was let in.
fn out_of_reach(rt: &impl Abort, alloc: Global, booked: &mut Booked) {
    assert!(rt; begins(rt, alloc, booked, CREATE, CREATED));
    assert!(rt; begins(rt, alloc, booked, PUT, CREATED));
    give(rt, alloc, &mut booked.driven, &[], &[false, false, false]);
    assert!(rt; says(rt, alloc, booked, GET, "Refused by rule N1."));
    assert!(rt; is_last(booked, 2, Op::PutBlob, 1));
}

#[test]
fn a_denial_of_n1_has_no_entry(rt: HostRuntime) {
    let mut booked = booked_core(&rt, rt.alloc());
    out_of_reach(&rt, rt.alloc(), &mut *booked);
}

// One node takes the record, and then no node answers.
fn unknown(rt: &impl Abort, alloc: Global, booked: &mut Booked) {
    give(
        rt,
        alloc,
        &mut booked.driven,
        &[D, R, R],
        &[false, false, false],
    );
    assert!(rt; says(rt, alloc, booked, CREATE, "Refused by rule N2."));
    assert!(rt; is_last(booked, 1, Op::CreateContainer, 0));
}

#[test]
fn a_denial_of_n2_has_an_entry(rt: HostRuntime) {
    let mut booked = booked_core(&rt, rt.alloc());
    unknown(&rt, rt.alloc(), &mut *booked);
}
