//! Steps of a core under written deliveries: splits, tickets, doubts, and what is done to one slot.

use crate::core_samples::{
    DELETE, Driven, LIST_FROM_Q, PUT_MORE, PUT_WORLD, empty_core, fault_of, fetched, give,
    not_fetched, split, tended,
};
use crate::requests::{
    CREATE, CREATE_LATER, CREATED, GET, GET_B, GET_BY_POLICY, LIST, MISSING, PUT, PUT_BLOCK,
    PUT_LIST, PUT_POLICY, WITHDRAW,
};
use crate::samples::{begins, ends, key, says, sent_if};
use crate::stored_samples::{D, R};
use core_run::{Outcome, Step, StepFault};
use extent_node::Node;
use partition_map::MapFault;
use partition_stream::StreamName;
use stamp_core::{CoreCare, Tended, Untended};
use std::alloc::Global;
use std::process::Abort;
use stored_rows::{StepLimit, Unloaded};
use stored_slot::SweepStep;

// What the reply to a second Create Container of the same name begins with.
const CONFLICT: &[u8] = b"HTTP/1.1 409 Conflict\r\n";

// No node answers, twice, and then only the node that has the record.
const SILENT_TWICE: [bool; 9] = [false, false, false, false, false, false, true, false, false];

// The same request with the token of the policy is answered while the container has the policy, and is refused afterwards (S5), also by the
// upper half of a split.
fn is_withdrawn(rt: &impl Abort, alloc: Global, driven: &mut Driven) {
    assert!(rt; begins(rt, alloc, driven, CREATE, CREATED));
    assert!(rt; begins(rt, alloc, driven, PUT, CREATED));
    assert!(rt; begins(rt, alloc, driven, PUT_POLICY, b"HTTP/1.1 200 OK\r\n"));
    assert!(rt; ends(rt, alloc, driven, GET_BY_POLICY, b"\r\n\r\nhello"));
    assert!(rt; begins(rt, alloc, driven, WITHDRAW, b"HTTP/1.1 200 OK\r\n"));
    assert!(rt; says(rt, alloc, driven, GET_BY_POLICY, "Refused by rule S5."));
    assert!(rt; split(rt, alloc, driven, 0, "pics").is_none());
    assert!(rt; says(rt, alloc, driven, GET_BY_POLICY, "Refused by rule S5."));
}

// A page ends at the bound of its slot, and its marker leads to the next slot.
fn lists_two_pages(rt: &impl Abort, alloc: Global, driven: &mut Driven) {
    assert!(rt; begins(rt, alloc, driven, CREATE, CREATED));
    assert!(rt; begins(rt, alloc, driven, CREATE_LATER, CREATED));
    assert!(rt; says(rt, alloc, driven, LIST, "<Name>video</Name>"));
    assert!(rt; split(rt, alloc, driven, 0, "q").is_none());
    assert!(rt; says(rt, alloc, driven, LIST, "<Name>pics</Name>"));
    assert!(rt; !says(rt, alloc, driven, LIST, "<Name>video</Name>"));
    assert!(rt; says(rt, alloc, driven, LIST, "<NextMarker>q</NextMarker>"));
    assert!(rt; says(rt, alloc, driven, LIST_FROM_Q, "<Name>video</Name>"));
    assert!(rt; !says(rt, alloc, driven, LIST_FROM_Q, "<Name>pics</Name>"));
    assert!(rt; says(rt, alloc, driven, LIST_FROM_Q, "<NextMarker></NextMarker>"));
}

// The block is put before the split, and its list is committed after it, in either half.
fn is_committed(rt: &impl Abort, alloc: Global, driven: &mut Driven, container: &str) {
    assert!(rt; begins(rt, alloc, driven, CREATE, CREATED));
    assert!(rt; begins(rt, alloc, driven, PUT_BLOCK, CREATED));
    assert!(rt; split(rt, alloc, driven, 0, container).is_none());
    assert!(rt; begins(rt, alloc, driven, PUT_LIST, CREATED));
    assert!(rt; ends(rt, alloc, driven, GET_B, b"\r\n\r\nabc"));
}

// The blob is put, and the extents of its slot are sealed. So a Get Blob gives a ticket, which is kept.
fn keep_a_ticket(rt: &impl Abort, alloc: Global, driven: &mut Driven) {
    assert!(rt; begins(rt, alloc, driven, CREATE, CREATED));
    assert!(rt; begins(rt, alloc, driven, PUT, CREATED));
    assert!(rt; tended(alloc, driven, 0, CoreCare::Seal).is_none());
    driven.keeps = true;
    sent_if(rt, alloc, driven, GET);
    driven.keeps = false;
    assert!(rt; driven.kept == Some(0));
}

// The ticket gives the content of its Get Blob after the blob was written again and deleted, and its slot was split. It gives it once, and
// stays as long as no node answers.
fn gives_what_was_read(rt: &impl Abort, alloc: Global, driven: &mut Driven) {
    keep_a_ticket(rt, alloc, driven);
    assert!(rt; begins(rt, alloc, driven, PUT_WORLD, CREATED));
    assert!(rt; ends(rt, alloc, driven, GET, b"\r\n\r\nworld"));
    assert!(rt; begins(rt, alloc, driven, DELETE, b"HTTP/1.1 202 Accepted\r\n"));
    assert!(rt; split(rt, alloc, driven, 0, "m").is_none());
    assert!(rt; begins(rt, alloc, driven, GET, MISSING));
    assert!(rt; not_fetched(driven, 1) == Some(StepFault::NoSuchTicket));
    give(rt, alloc, driven, &[], &[false, false, false]);
    assert!(rt; not_fetched(driven, 0) == Some(StepFault::Unreachable));
    let content = fetched(rt, alloc, driven, 0).expect(rt, "a reply");
    assert!(rt; content.as_slice() == b"hello".as_slice());
    assert!(rt; not_fetched(driven, 0) == Some(StepFault::NoSuchTicket));
}

// A Create Container of which it is not known whether it was made: one node took its record, and then no node answers.
fn begin_a_doubt(rt: &impl Abort, alloc: Global, driven: &mut Driven) {
    give(rt, alloc, driven, &[D, R, R], &[false, false, false]);
    assert!(rt; says(rt, alloc, driven, CREATE, "Refused by rule N2."));
}

// As long as no node answers the doubt stays, and its slot serves nothing. Then it is kept, since a node that answers has the record.
fn settles_a_doubt(rt: &impl Abort, alloc: Global, driven: &mut Driven) {
    begin_a_doubt(rt, alloc, driven);
    give(rt, alloc, driven, &[], &SILENT_TWICE);
    assert!(rt; tended(alloc, driven, 0, CoreCare::Settle) == Some(StepFault::Busy));
    assert!(rt; says(rt, alloc, driven, CREATE, "Refused by rule N1."));
    assert!(rt; tended(alloc, driven, 0, CoreCare::Settle).is_none());
    assert!(rt; begins(rt, alloc, driven, CREATE, CONFLICT));
}

// A split that the spans refuse settles nothing: the slot is then still in doubt. A split that they allow settles first.
fn splits_in_doubt(rt: &impl Abort, alloc: Global, driven: &mut Driven) {
    begin_a_doubt(rt, alloc, driven);
    give(rt, alloc, driven, &[], &SILENT_TWICE);
    assert!(rt; split(rt, alloc, driven, 7, "q") == Some(StepFault::Map(MapFault::NoSuchSlot)));
    assert!(rt; split(rt, alloc, driven, 0, "q") == Some(StepFault::Busy));
    assert!(rt; says(rt, alloc, driven, CREATE, "Refused by rule N1."));
    assert!(rt; split(rt, alloc, driven, 0, "q").is_none());
    assert!(rt; begins(rt, alloc, driven, CREATE, CONFLICT));
}

// A slot that was moved or unloaded keeps its doubt, and loads its rows again.
fn moves_in_doubt(rt: &impl Abort, alloc: Global, driven: &mut Driven) {
    begin_a_doubt(rt, alloc, driven);
    assert!(rt; tended(alloc, driven, 0, CoreCare::Unload).is_none());
    assert!(rt; tended(alloc, driven, 0, CoreCare::Move { server: 1 }).is_none());
    give(
        rt,
        alloc,
        driven,
        &[],
        &[false, false, false, true, false, false],
    );
    assert!(rt; tended(alloc, driven, 0, CoreCare::Load) == Some(StepFault::Busy));
    assert!(rt; tended(alloc, driven, 0, CoreCare::Load).is_none());
    assert!(rt; begins(rt, alloc, driven, CREATE, CONFLICT));
}

// What is done to a slot that does not exist.
fn has_one_slot(rt: &impl Abort, alloc: Global, driven: &mut Driven) {
    assert!(rt; tended(alloc, driven, 1, CoreCare::Settle) == Some(StepFault::NoSuchSlot));
    assert!(rt; tended(alloc, driven, 1, CoreCare::Checkpoint) == Some(StepFault::NoSuchSlot));
    assert!(rt; tended(alloc, driven, 1, CoreCare::Unload) == Some(StepFault::NoSuchSlot));
    assert!(rt; tended(alloc, driven, 1, repair_of(0)) == Some(StepFault::NoSuchSlot));
}

// The repair of an extent of the log, on the second node.
fn repair_of(extent: u64) -> CoreCare {
    CoreCare::Repair {
        stream: StreamName::Log,
        extent,
        node: Node::One,
    }
}

// The second node did not answer when the log was sealed, so it has no copy of the extent. It gets one if another node answers.
fn repairs_the_log(rt: &impl Abort, alloc: Global, driven: &mut Driven) {
    assert!(rt; begins(rt, alloc, driven, CREATE, CREATED));
    give(rt, alloc, driven, &[], &[true, false, true]);
    assert!(rt; tended(alloc, driven, 0, CoreCare::Seal).is_none());
    assert!(rt; tended(alloc, driven, 0, repair_of(99)) == Some(StepFault::NoSuchExtent));
    give(rt, alloc, driven, &[], &[false, false]);
    assert!(rt; tended(alloc, driven, 0, repair_of(0)) == Some(StepFault::Unreachable));
    assert!(rt; tended(alloc, driven, 0, repair_of(0)).is_none());
    assert!(rt; tended(alloc, driven, 0, CoreCare::Unload).is_none());
    give(rt, alloc, driven, &[], &[false, true]);
    assert!(rt; tended(alloc, driven, 0, CoreCare::Load).is_none());
}

// A checkpoint settles first: it is Busy as long as no node answers. Then the container is kept, also after its rows are loaded again. A checkpoint
// puts rows: it is Busy if the row of the container is refused twice, and the container is kept.
fn makes_a_checkpoint(rt: &impl Abort, alloc: Global, driven: &mut Driven) {
    begin_a_doubt(rt, alloc, driven);
    give(rt, alloc, driven, &[], &SILENT_TWICE);
    assert!(rt; tended(alloc, driven, 0, CoreCare::Checkpoint) == Some(StepFault::Busy));
    assert!(rt; says(rt, alloc, driven, CREATE, "Refused by rule N1."));
    assert!(rt; tended(alloc, driven, 0, CoreCare::Checkpoint).is_none());
    assert!(rt; tended(alloc, driven, 0, CoreCare::Unload).is_none());
    assert!(rt; begins(rt, alloc, driven, CREATE, CONFLICT));
    give(rt, alloc, driven, &[R, R, R, R, R, R], &[]);
    assert!(rt; tended(alloc, driven, 0, CoreCare::Checkpoint) == Some(StepFault::Busy));
    assert!(rt; begins(rt, alloc, driven, CREATE, CONFLICT));
}

// A sweep settles first, as a checkpoint does. It is Busy if a row is refused twice, and the container is kept.
fn makes_a_sweep(rt: &impl Abort, alloc: Global, driven: &mut Driven) {
    begin_a_doubt(rt, alloc, driven);
    give(rt, alloc, driven, &[], &SILENT_TWICE);
    assert!(rt; tended(alloc, driven, 0, CoreCare::Compact) == Some(StepFault::Busy));
    assert!(rt; says(rt, alloc, driven, CREATE, "Refused by rule N1."));
    assert!(rt; tended(alloc, driven, 0, CoreCare::Compact).is_none());
    assert!(rt; begins(rt, alloc, driven, PUT, CREATED));
    assert!(rt; tended(alloc, driven, 0, CoreCare::Compact).is_none());
    assert!(rt; ends(rt, alloc, driven, GET, b"\r\n\r\nhello"));
    give(rt, alloc, driven, &[R, R, R, R, R, R], &[]);
    assert!(rt; tended(alloc, driven, 0, CoreCare::Compact) == Some(StepFault::Busy));
    assert!(rt; ends(rt, alloc, driven, GET, b"\r\n\r\nhello"));
}

// The rows that an unload or a move gives.
fn rows_told(unloaded: &Unloaded) -> &'static str {
    if unloaded.rows().is_some() {
        "rows"
    } else {
        "no rows"
    }
}

// How far a sweep is.
fn swept_told(swept: &SweepStep) -> &'static str {
    match swept {
        SweepStep::RowsLeft(_made) => "rows left",
        SweepStep::Over(_away) => "over",
        SweepStep::Stopped(_made) => "stopped",
    }
}

// The name of the value that a care gave.
fn told(given: Result<Tended, Untended>) -> &'static str {
    match given {
        Ok(Tended::Settled) => "settled",
        Ok(Tended::Sealed(_sealed)) => "sealed",
        Ok(Tended::Loaded) => "loaded",
        Ok(Tended::Checkpointed(_replaced)) => "checkpointed",
        Ok(Tended::Swept(swept)) => swept_told(&swept),
        Ok(Tended::Unloaded(unloaded) | Tended::Moved(unloaded)) => rows_told(&unloaded),
        Ok(Tended::Repaired(_repaired)) => "repaired",
        Err(untended) => {
            let _fault = fault_of(untended);
            "untended"
        }
    }
}

// Each care gives a value of its own kind. An unload and a move give the rows that were in memory.
fn gives_what_was_done(rt: &impl Abort, alloc: Global, driven: &mut Driven) {
    assert!(rt; begins(rt, alloc, driven, CREATE, CREATED));
    assert!(rt; begins(rt, alloc, driven, PUT, CREATED));
    let cares = [
        (CoreCare::Settle, "settled"),
        (CoreCare::Seal, "sealed"),
        (repair_of(0), "repaired"),
        (repair_of(99), "untended"),
        (CoreCare::Checkpoint, "checkpointed"),
        (CoreCare::Compact, "over"),
        (CoreCare::Load, "loaded"),
        (CoreCare::Unload, "rows"),
        (CoreCare::Unload, "no rows"),
        (CoreCare::Load, "loaded"),
        (CoreCare::Move { server: 1 }, "rows"),
        (CoreCare::Move { server: 2 }, "no rows"),
    ];
    for (care, says) in cares {
        let given = driven.core.tend(alloc, 0, care, &mut driven.wire);
        assert!(rt; told(given) == says, "{says}");
    }
    assert!(rt; ends(rt, alloc, driven, GET, b"\r\n\r\nhello"));
}

// A ticket reads the old data, also if its blob is written again and the slot is swept.
fn reads_the_old_data(rt: &impl Abort, alloc: Global, driven: &mut Driven) {
    keep_a_ticket(rt, alloc, driven);
    assert!(rt; begins(rt, alloc, driven, PUT_WORLD, CREATED));
    assert!(rt; tended(alloc, driven, 0, CoreCare::Compact).is_none());
    assert!(rt; ends(rt, alloc, driven, GET, b"\r\n\r\nworld"));
    let content = fetched(rt, alloc, driven, 0).expect(rt, "a reply");
    assert!(rt; content.as_slice() == b"hello".as_slice());
}

// A Put Blob of 768 KiB under `a.txt`.
fn put_more(rt: &impl Abort, alloc: Global) -> Vec<u8> {
    let mut request = PUT_MORE.to_vec(alloc).expect(rt, "memory");
    let body = vec![in alloc; 7u8; 786_432].expect(rt, "memory");
    request
        .extend_from_slice(body.as_slice())
        .expect(rt, "memory");
    request
}

fn puts_again(rt: &impl Abort, alloc: Global, driven: &mut Driven, count: usize) {
    let request = put_more(rt, alloc);
    for _put in 0..count {
        assert!(rt; begins(rt, alloc, driven, request.as_slice(), CREATED));
    }
}

// One row in each step.
const ONE: StepLimit = StepLimit {
    rows: 1,
    blocks: 2_000,
    bytes: 4_194_304,
};

// How far the sweep of a core is after a step, if one is due.
fn sweep(alloc: Global, driven: &mut Driven) -> &'static str {
    match driven.core.sweep_wasteful(alloc, ONE, &mut driven.wire) {
        Some(swept) => swept_told(&swept),
        None => "no step",
    }
}

// Each Put Blob but the last wastes 768 KiB, so 22 of them waste more than the 16 MiB and a third of the blob that exists. No row is swept before.
// The container and the blob have a row each. The third step finds no blob more, and the fourth no container more.
fn sweeps_if_it_is_due(rt: &impl Abort, alloc: Global, driven: &mut Driven) {
    assert!(rt; begins(rt, alloc, driven, CREATE, CREATED));
    puts_again(rt, alloc, driven, 22);
    assert!(rt; !driven.core.is_wasteful());
    assert!(rt; sweep(alloc, driven) == "no step");
    puts_again(rt, alloc, driven, 2);
    for _step in 0..3 {
        assert!(rt; driven.core.is_wasteful());
        assert!(rt; sweep(alloc, driven) == "rows left");
    }
    assert!(rt; driven.core.is_wasteful());
    assert!(rt; sweep(alloc, driven) == "over");
    assert!(rt; !driven.core.is_wasteful());
    assert!(rt; sweep(alloc, driven) == "no step");
    assert!(rt; begins(rt, alloc, driven, PUT, CREATED));
    assert!(rt; ends(rt, alloc, driven, GET, b"\r\n\r\nhello"));
}

// The container of a split: their names rise, and have three digits.
fn split_at(rt: &impl Abort, alloc: Global, driven: &mut Driven, slot: usize) -> Option<StepFault> {
    let name = format!(in alloc; "k{}", slot.saturating_add(100)).expect(rt, "memory");
    split(rt, alloc, driven, slot, &name)
}

#[test]
fn a_policy_that_is_withdrawn_opens_nothing_after_a_split(rt: HostRuntime) {
    let mut driven = empty_core(&rt, rt.alloc());
    is_withdrawn(&rt, rt.alloc(), &mut *driven);
}

#[test]
fn two_pages_list_two_slots(rt: HostRuntime) {
    let mut driven = empty_core(&rt, rt.alloc());
    lists_two_pages(&rt, rt.alloc(), &mut *driven);
}

#[test]
fn a_block_is_committed_in_the_upper_half(rt: HostRuntime) {
    let mut driven = empty_core(&rt, rt.alloc());
    is_committed(&rt, rt.alloc(), &mut *driven, "pics");
}

#[test]
fn a_block_is_committed_in_the_lower_half(rt: HostRuntime) {
    let mut driven = empty_core(&rt, rt.alloc());
    is_committed(&rt, rt.alloc(), &mut *driven, "picsa");
}

#[test]
fn a_ticket_gives_its_reply_once(rt: HostRuntime) {
    let mut driven = empty_core(&rt, rt.alloc());
    gives_what_was_read(&rt, rt.alloc(), &mut *driven);
}

#[test]
fn a_doubt_is_settled_before_its_slot_serves(rt: HostRuntime) {
    let mut driven = empty_core(&rt, rt.alloc());
    settles_a_doubt(&rt, rt.alloc(), &mut *driven);
}

#[test]
fn a_split_that_the_spans_refuse_settles_nothing(rt: HostRuntime) {
    let mut driven = empty_core(&rt, rt.alloc());
    splits_in_doubt(&rt, rt.alloc(), &mut *driven);
}

#[test]
fn a_slot_that_is_moved_keeps_its_doubt(rt: HostRuntime) {
    let mut driven = empty_core(&rt, rt.alloc());
    moves_in_doubt(&rt, rt.alloc(), &mut *driven);
}

#[test]
fn a_slot_that_does_not_exist_is_told_so(rt: HostRuntime) {
    let mut driven = empty_core(&rt, rt.alloc());
    has_one_slot(&rt, rt.alloc(), &mut *driven);
}

#[test]
fn a_repair_gives_a_node_its_copy(rt: HostRuntime) {
    let mut driven = empty_core(&rt, rt.alloc());
    repairs_the_log(&rt, rt.alloc(), &mut *driven);
}

#[test]
fn a_checkpoint_settles_its_slot_first(rt: HostRuntime) {
    let mut driven = empty_core(&rt, rt.alloc());
    makes_a_checkpoint(&rt, rt.alloc(), &mut *driven);
}

#[test]
fn a_sweep_settles_its_slot_first(rt: HostRuntime) {
    let mut driven = empty_core(&rt, rt.alloc());
    makes_a_sweep(&rt, rt.alloc(), &mut *driven);
}

#[test]
fn each_care_of_a_slot_gives_a_value_of_its_own(rt: HostRuntime) {
    let mut driven = empty_core(&rt, rt.alloc());
    gives_what_was_done(&rt, rt.alloc(), &mut *driven);
}

#[test]
fn a_ticket_keeps_what_it_reads_over_a_sweep(rt: HostRuntime) {
    let mut driven = empty_core(&rt, rt.alloc());
    reads_the_old_data(&rt, rt.alloc(), &mut *driven);
}

#[test]
fn a_core_sweeps_once_enough_is_wasted(rt: HostRuntime) {
    let mut driven = empty_core(&rt, rt.alloc());
    sweeps_if_it_is_due(&rt, rt.alloc(), &mut *driven);
}

#[test]
fn a_split_that_the_spans_refuse_names_the_cause(rt: HostRuntime) {
    let mut driven = empty_core(&rt, rt.alloc());
    assert!(rt;
        split(&rt, rt.alloc(), &mut *driven, 7, "q") == Some(StepFault::Map(MapFault::NoSuchSlot))
    );
    assert!(rt; split(&rt, rt.alloc(), &mut *driven, 0, "q").is_none());
    assert!(rt;
        split(&rt, rt.alloc(), &mut *driven, 0, "q") == Some(StepFault::Map(MapFault::NotInside))
    );
}

#[test]
fn the_split_after_the_256th_span_is_refused(rt: HostRuntime) {
    let mut driven = empty_core(&rt, rt.alloc());
    for slot in 0..255 {
        assert!(rt; split_at(&rt, rt.alloc(), &mut *driven, slot).is_none());
    }
    assert!(rt;
        split_at(&rt, rt.alloc(), &mut *driven, 255) == Some(StepFault::Map(MapFault::Full))
    );
}

// Two splits at one key, a ticket that was not given, a seal and a checkpoint: the first step and the last two are made, and each other step
// says why it is not.
fn steps_of_all_kinds(rt: &impl Abort, alloc: Global) -> Vec<Step> {
    let mut steps = Vec::new(alloc);
    for slot in [0, 0] {
        let middle = key(rt, alloc, "q");
        steps
            .push(Step::Split { slot, middle })
            .expect(rt, "memory");
    }
    steps.push(Step::Fetch { ticket: 0 }).expect(rt, "memory");
    steps.push(Step::Seal { slot: 1 }).expect(rt, "memory");
    steps
        .push(Step::Checkpoint { slot: 0 })
        .expect(rt, "memory");
    steps
}

#[test]
fn a_list_of_steps_is_answered_in_turn(rt: HostRuntime) {
    let alloc = rt.alloc();
    let mut driven = empty_core(&rt, alloc);
    let steps = steps_of_all_kinds(&rt, alloc);
    let Driven { core, wire, .. } = &mut *driven;
    let answers = core.run(alloc, steps, wire).expect(&rt, "memory");
    assert!(rt; answers.len() == 5);
    assert!(rt; matches!(&answers[0], Ok(Outcome::Made)));
    assert!(rt; matches!(&answers[1], Err(StepFault::Map(MapFault::NotInside))));
    assert!(rt; matches!(&answers[2], Err(StepFault::NoSuchTicket)));
    assert!(rt; matches!(&answers[3], Ok(Outcome::Made)));
    assert!(rt; matches!(&answers[4], Ok(Outcome::Made)));
}
