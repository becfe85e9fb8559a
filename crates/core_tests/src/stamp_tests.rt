//! A stamp that many callers share: passes, threads, splits, and what is done to its slots.
use crate::requests::{
    CREATE, CREATE_EARLIER, CREATE_LATER, CREATED, GET, GET_B, GET_BY_POLICY, LIST, MISSING, PUT,
    PUT_BLOCK, PUT_LIST, PUT_POLICY, WITHDRAW,
};
use crate::samples::{begins, ends, key, pair_with, pairs, says, sent_if};
use crate::stamp_samples::{Caller, Signs, Waiting, caller_of, empty_stamp, front_len, steady};
use extent_node::{Node, Script, Wire};
use partition_map::MapFault;
use partition_stream::StreamName;
use slot_pass::{AfterFault, MeetFault, Order, meet};
use stamp_locks::{Care, MoveFault, SplitError, Stamp, TendFault};
use std::alloc::Global;
use std::process::Abort;
use std::sync::Wait;
use std::thread;
use std::thread::Threads;
use stored_rows::Unrepaired;
use tickets::Ticket;

const OK: &[u8] = b"HTTP/1.1 200 OK\r\n";

// What the reply to a second Create Container of the same name begins with.
const CONFLICT: &[u8] = b"HTTP/1.1 409 Conflict\r\n";

// How the fronts of the passes of two callers lie to each other.
fn met<R: Wait + Abort, W: Wire + Drop>(
    rt: &R,
    one: &Caller<'_, R, W>,
    other: &Caller<'_, R, W>,
) -> Result<Order, MeetFault> {
    match (&one.pass, &other.pass) {
        (Some(one), Some(other)) => meet(one, other),
        _ => panic!(rt; "a caller without a pass"),
    }
}

// Makes the container, without a pass.
fn create<R: Wait + Abort, W: Wire + Drop>(rt: &R, alloc: Global, stamp: &Stamp<W>) {
    let mut caller = Caller::new(rt, alloc, stamp);
    assert!(rt; begins(rt, alloc, &mut caller, CREATE, CREATED));
}

// Why the pass of the first caller is not answered by the stamp of the other. It comes back as it was.
fn fault_at<R: Wait + Abort>(
    rt: &R,
    alloc: Global,
    first: &mut Caller<'_, R, Script>,
    other: &mut Caller<'_, R, Script>,
) -> Option<AfterFault> {
    other.pass = first.pass.take();
    sent_if(rt, alloc, other, GET);
    first.pass = other.pass.take();
    assert_eq!(rt; front_len(first), 2);
    other.fault.take()
}

// The pass of the caller is not answered by this stamp, for this reason.
fn comes_back<R: Wait + Abort>(
    rt: &R,
    alloc: Global,
    first: &mut Caller<'_, R, Script>,
    stamp: &Stamp<Script>,
    fault: AfterFault,
) {
    let mut other = Caller::new(rt, alloc, stamp);
    assert!(rt; fault_at(rt, alloc, first, &mut other) == Some(fault));
}

// One caller puts a blob and reads it, and another caller puts a blob after it.
fn follows<R: Wait + Abort>(rt: &R, alloc: Global) {
    let stamp = empty_stamp(rt, alloc);
    create(rt, alloc, &stamp);
    let mut first = caller_of(rt, alloc, &stamp, "pics");
    assert!(rt; begins(rt, alloc, &mut first, PUT, CREATED));
    assert!(rt; ends(rt, alloc, &mut first, GET, b"\r\n\r\nhello"));
    assert_eq!(rt; front_len(&first), 2);
    let mut second = caller_of(rt, alloc, &stamp, "pics");
    assert!(rt; begins(rt, alloc, &mut second, PUT_BLOCK, CREATED));
    assert!(rt; begins(rt, alloc, &mut second, PUT_LIST, CREATED));
    assert!(rt; met(rt, &first, &second) == Ok(Order::First));
    assert!(rt; met(rt, &second, &first) == Ok(Order::Second));
    let mut plain = Caller::new(rt, alloc, &stamp);
    assert!(rt; ends(rt, alloc, &mut plain, GET_B, b"\r\n\r\nabc"));
    let fresh = empty_stamp(rt, alloc);
    comes_back(rt, alloc, &mut first, &fresh, AfterFault::Alien(0));
    let mut pairs = Vec::new(alloc);
    let pair = pair_with(rt, alloc, "devstoreaccount1", b"new1", 0);
    pairs.push(pair).expect(rt, "memory");
    let other = Stamp::new(alloc, pairs, steady(alloc)).expect(rt, "first pairs");
    comes_back(rt, alloc, &mut first, &other, AfterFault::Pairs(0));
}

#[test]
fn a_pass_has_the_entries_of_its_calls_and_of_others(rt: HostRuntime) {
    follows(&rt, rt.alloc());
}

// Sends the request, which makes something.
fn make<'a, R: Wait + Abort, W: Wire + Drop>(
    rt: &R,
    alloc: Global,
    caller: Caller<'a, R, W>,
    request: &[u8],
) -> Caller<'a, R, W> {
    let mut caller = caller;
    assert!(rt; begins(rt, alloc, &mut caller, request, CREATED));
    caller
}

// Two callers put from two threads. After one more request of each both know the same.
fn both_put<R: Threads + Wait + Abort + Sync>(rt: &R, alloc: Global) {
    let stamp = empty_stamp(rt, alloc);
    create(rt, alloc, &stamp);
    let first = caller_of(rt, alloc, &stamp, "pics");
    let second = caller_of(rt, alloc, &stamp, "pics");
    let (mut first, mut second) = thread::join(
        rt,
        move || -> Caller<'_, R, Script> { make(rt, alloc, first, PUT) },
        move || -> Caller<'_, R, Script> { make(rt, alloc, second, PUT_BLOCK) },
    );
    assert!(rt; ends(rt, alloc, &mut first, GET, b"\r\n\r\nhello"));
    assert!(rt; ends(rt, alloc, &mut second, GET, b"\r\n\r\nhello"));
    assert!(rt; met(rt, &first, &second) == Ok(Order::Same));
    assert_eq!(rt; front_len(&first), 3);
}

#[test]
fn callers_of_two_threads_come_to_the_same_front(rt: HostRuntime) {
    both_put(&rt, rt.alloc());
}

// The token of a policy opens the blob until the policy is withdrawn, by a pass that has the withdrawal and without a pass.
fn withdraws<R: Wait + Abort>(rt: &R, alloc: Global) {
    let stamp = empty_stamp(rt, alloc);
    let mut caller = caller_of(rt, alloc, &stamp, "pics");
    assert!(rt; begins(rt, alloc, &mut caller, CREATE, CREATED));
    assert!(rt; begins(rt, alloc, &mut caller, PUT, CREATED));
    assert!(rt; begins(rt, alloc, &mut caller, PUT_POLICY, OK));
    assert!(rt; ends(rt, alloc, &mut caller, GET_BY_POLICY, b"\r\n\r\nhello"));
    assert!(rt; begins(rt, alloc, &mut caller, WITHDRAW, OK));
    assert!(rt; says(rt, alloc, &mut caller, GET_BY_POLICY, "Refused by rule S5."));
    let mut plain = Caller::new(rt, alloc, &stamp);
    assert!(rt; says(rt, alloc, &mut plain, GET_BY_POLICY, "Refused by rule S5."));
}

#[test]
fn a_withdrawn_policy_opens_nothing(rt: HostRuntime) {
    withdraws(&rt, rt.alloc());
}

// Passes of two stamps, and of two containers.
fn differ<R: Wait + Abort>(rt: &R, alloc: Global) {
    let one = empty_stamp(rt, alloc);
    let two = empty_stamp(rt, alloc);
    let mut first = caller_of(rt, alloc, &one, "pics");
    let mut second = caller_of(rt, alloc, &two, "pics");
    assert!(rt; begins(rt, alloc, &mut first, CREATE, CREATED));
    assert!(rt; begins(rt, alloc, &mut second, CREATE, CREATED));
    assert!(rt; met(rt, &first, &second) == Ok(Order::Same));
    assert!(rt; begins(rt, alloc, &mut first, PUT, CREATED));
    assert!(rt; begins(rt, alloc, &mut second, PUT_BLOCK, CREATED));
    assert!(rt; met(rt, &first, &second) == Err(MeetFault::Differ(1)));
    let alpha = caller_of(rt, alloc, &one, "alpha");
    assert!(rt; met(rt, &first, &alpha) == Err(MeetFault::Keys));
}

#[test]
fn passes_of_two_stamps_differ(rt: HostRuntime) {
    differ(&rt, rt.alloc());
}

// A stamp of two slots: the lower one has `pics` and a wire that waits by these signs, and the upper one begins with `q`.
fn two_slots<'a, R: Wait + Abort>(rt: &R, alloc: Global, signs: &'a Signs) -> Stamp<Waiting<'a>> {
    let waiting = Waiting {
        script: steady(alloc),
        signs: Some(signs),
    };
    let stamp = Stamp::new(alloc, pairs(rt, alloc), waiting).expect(rt, "first pairs");
    let upper = Waiting {
        script: steady(alloc),
        signs: None,
    };
    let middle = key(rt, alloc, "q");
    assert!(rt; stamp.split(rt, alloc, 0, &middle, upper).is_ok());
    create(rt, alloc, &stamp);
    stamp
}

// Puts the blob, while the other thread does something else.
fn put_and_wait<R: Wait + Abort>(rt: &R, alloc: Global, stamp: &Stamp<Waiting<'_>>) {
    let mut caller = Caller::new(rt, alloc, stamp);
    assert!(rt; begins(rt, alloc, &mut caller, PUT, CREATED));
}

// While the lower slot waits in its wire, the upper slot makes a container.
fn answers_meanwhile<R: Wait + Abort>(
    rt: &R,
    alloc: Global,
    stamp: &Stamp<Waiting<'_>>,
    signs: &Signs,
) {
    assert!(rt; signs.wire_waits());
    let mut caller = Caller::new(rt, alloc, stamp);
    assert!(rt; begins(rt, alloc, &mut caller, CREATE_LATER, CREATED));
    signs.reopen();
}

fn slots_are_apart<R: Threads + Wait + Abort + Sync>(rt: &R, alloc: Global) {
    let signs = Signs::new();
    let stamp = two_slots(rt, alloc, &signs);
    signs.close();
    let ((), ()) = thread::join(
        rt,
        || put_and_wait(rt, alloc, &stamp),
        || answers_meanwhile(rt, alloc, &stamp, &signs),
    );
    assert!(rt; signs.waited());
}

#[test]
fn a_slot_is_served_while_another_waits_for_its_nodes(rt: HostRuntime) {
    slots_are_apart(&rt, rt.alloc());
}

// While the slot waits in its wire, a ticket of the same slot gives its content.
fn fetches_meanwhile<R: Wait + Abort>(rt: &R, alloc: Global, ticket: Ticket, signs: &Signs) {
    assert!(rt; signs.wire_waits());
    let Ok(reply) = ticket.fetch(&mut steady(alloc)) else {
        panic!(rt; "no reply");
    };
    let content = reply.body.joined(alloc).expect(rt, "memory");
    assert!(rt; content.as_slice() == b"hello".as_slice());
    signs.reopen();
}

fn fetch_takes_no_lock<R: Threads + Wait + Abort + Sync>(rt: &R, alloc: Global) {
    let signs = Signs::new();
    let stamp = two_slots(rt, alloc, &signs);
    put_and_wait(rt, alloc, &stamp);
    assert!(rt; stamp.tend(rt, alloc, 0, Care::Seal).is_ok());
    let mut reader = Caller::new(rt, alloc, &stamp);
    reader.keeps = true;
    sent_if(rt, alloc, &mut reader, GET);
    let ticket = reader.kept.take().expect(rt, "a ticket");
    signs.close();
    let told = &signs;
    let ((), ()) = thread::join(
        rt,
        || put_and_wait(rt, alloc, &stamp),
        move || fetches_meanwhile(rt, alloc, ticket, told),
    );
    assert!(rt; signs.waited());
}

#[test]
fn a_ticket_is_fetched_while_its_slot_is_locked(rt: HostRuntime) {
    fetch_takes_no_lock(&rt, rt.alloc());
}

// Requests for three containers and a list, some of which the slots have while they are split.
fn serve_some<R: Wait + Abort>(rt: &R, alloc: Global, stamp: &Stamp<Script>) {
    let mut plain = Caller::new(rt, alloc, stamp);
    let mut shown = caller_of(rt, alloc, stamp, "pics");
    for _turn in 0..5 {
        assert!(rt; begins(rt, alloc, &mut plain, PUT, CREATED));
        assert!(rt; begins(rt, alloc, &mut plain, CREATE_LATER, CONFLICT));
        assert!(rt; begins(rt, alloc, &mut plain, CREATE_EARLIER, CONFLICT));
        assert!(rt; begins(rt, alloc, &mut plain, LIST, OK));
        assert!(rt; ends(rt, alloc, &mut shown, GET, b"\r\n\r\nhello"));
    }
}

// Splits the first slot again and again, and tends both halves.
fn split_often<R: Wait + Abort>(rt: &R, alloc: Global, stamp: &Stamp<Script>) {
    for container in ["z", "v", "q", "pics", "m", "b"] {
        let middle = key(rt, alloc, container);
        assert!(rt; stamp.split(rt, alloc, 0, &middle, steady(alloc)).is_ok());
        assert!(rt; stamp.tend(rt, alloc, 0, Care::Checkpoint).is_ok());
        assert!(rt; stamp.tend(rt, alloc, 1, Care::Seal).is_ok());
        assert!(rt; stamp.tend(rt, alloc, 1, Care::Unload).is_ok());
    }
}

fn splits_beside_eight<R: Threads + Wait + Abort + Sync>(rt: &R, alloc: Global) {
    let stamp = empty_stamp(rt, alloc);
    let mut plain = Caller::new(rt, alloc, &stamp);
    for container in [CREATE, CREATE_LATER, CREATE_EARLIER] {
        assert!(rt; begins(rt, alloc, &mut plain, container, CREATED));
    }
    let _ends = thread::map_indices(
        rt,
        alloc,
        9,
        &|thread| {
            if thread == 4 {
                split_often(rt, alloc, &stamp);
            } else {
                serve_some(rt, alloc, &stamp);
            }
        },
    );
    assert!(rt; stamp.tend(rt, alloc, 6, Care::Settle).is_ok());
    assert!(rt; stamp.tend(rt, alloc, 7, Care::Settle).is_err());
    serve_some(rt, alloc, &stamp);
    // The list ends at the bound of the first slot, which has only the first container.
    assert!(rt; says(rt, alloc, &mut plain, LIST, "<Name>alpha</Name>"));
    assert!(rt; says(rt, alloc, &mut plain, LIST, "<NextMarker>b</NextMarker>"));
    let mut shown = caller_of(rt, alloc, &stamp, "pics");
    assert!(rt; begins(rt, alloc, &mut shown, GET, OK));
    // The container, and eight threads and this one put five times each.
    assert_eq!(rt; front_len(&shown), 46);
}

#[test]
fn slots_are_split_while_eight_threads_serve(rt: HostRuntime) {
    splits_beside_eight(&rt, rt.alloc());
}

// Whether the split is refused with this cause. Then the wire comes back, which was called once.
fn is_refused<R: Wait + Abort>(
    rt: &R,
    alloc: Global,
    stamp: &Stamp<Script>,
    slot: usize,
    container: &str,
    cause: MapFault,
) -> bool {
    let mut wire = steady(alloc);
    let _delivery = wire.put(Node::Zero);
    match stamp.split(rt, alloc, slot, &key(rt, alloc, container), wire) {
        Ok(()) => false,
        Err((wire, fault)) => {
            matches!(fault, SplitError::Map(found) if found == cause) && wire.called().len() == 1
        }
    }
}

fn refuses_splits<R: Wait + Abort>(rt: &R, alloc: Global) {
    let stamp = empty_stamp(rt, alloc);
    assert!(rt; is_refused(rt, alloc, &stamp, 1, "q", MapFault::NoSuchSlot));
    let middle = key(rt, alloc, "q");
    assert!(rt; stamp.split(rt, alloc, 0, &middle, steady(alloc)).is_ok());
    assert!(rt; is_refused(rt, alloc, &stamp, 0, "q", MapFault::NotInside));
    assert!(rt; is_refused(rt, alloc, &stamp, 1, "q", MapFault::NotInside));
    assert!(rt; is_refused(rt, alloc, &stamp, 1, "pics", MapFault::NotInside));
}

#[test]
fn a_split_that_is_refused_gives_the_wire_back(rt: HostRuntime) {
    refuses_splits(&rt, rt.alloc());
}

// The repair of an extent of the log, on the second node.
fn repair_of(extent: u64) -> Care {
    Care::Repair {
        stream: StreamName::Log,
        extent,
        node: Node::One,
    }
}

// Moves the slot with this number, and says whether its rows were in memory.
fn moved<R: Wait + Abort>(
    rt: &R,
    alloc: Global,
    stamp: &Stamp<Script>,
    slot: usize,
) -> Result<bool, MoveFault> {
    match stamp.move_to(rt, alloc, slot, 7) {
        Ok(unloaded) => Ok(unloaded.rows().is_some()),
        Err(fault) => Err(fault),
    }
}

// What is done to a slot changes no reply; what is done to a slot that does not exist is refused.
fn tends<R: Wait + Abort>(rt: &R, alloc: Global) {
    let stamp = empty_stamp(rt, alloc);
    let mut caller = Caller::new(rt, alloc, &stamp);
    assert!(rt; begins(rt, alloc, &mut caller, CREATE, CREATED));
    assert!(rt; begins(rt, alloc, &mut caller, PUT, CREATED));
    assert!(rt;
        matches!(
            stamp.tend(rt, alloc, 0, repair_of(0)),
            Err(TendFault::Repair(Unrepaired::NoSuchExtent(_none)))
        )
    );
    for care in [
        Care::Settle,
        Care::Seal,
        repair_of(0),
        Care::Checkpoint,
        Care::Unload,
        Care::Load,
    ] {
        assert!(rt; stamp.tend(rt, alloc, 0, care).is_ok());
        assert!(rt; ends(rt, alloc, &mut caller, GET, b"\r\n\r\nhello"));
        assert!(rt; matches!(stamp.tend(rt, alloc, 9, care), Err(TendFault::NoSuchSlot)));
    }
    assert!(rt; moved(rt, alloc, &stamp, 0) == Ok(true));
    assert!(rt; ends(rt, alloc, &mut caller, GET, b"\r\n\r\nhello"));
    assert!(rt; begins(rt, alloc, &mut caller, GET_B, MISSING));
    assert!(rt; moved(rt, alloc, &stamp, 1) == Err(MoveFault::NoSuchSlot));
}

#[test]
fn what_is_done_to_a_slot_changes_no_reply(rt: HostRuntime) {
    tends(&rt, rt.alloc());
}

// Two slots whose rows are in memory: an unload and a move take out the rows of the slot that is named, and of no other slot.
fn takes_out_the_named_rows<R: Wait + Abort>(rt: &R, alloc: Global) {
    let stamp = empty_stamp(rt, alloc);
    let middle = key(rt, alloc, "q");
    assert!(rt; stamp.split(rt, alloc, 0, &middle, steady(alloc)).is_ok());
    let mut caller = Caller::new(rt, alloc, &stamp);
    assert!(rt; begins(rt, alloc, &mut caller, CREATE, CREATED));
    assert!(rt; begins(rt, alloc, &mut caller, CREATE_LATER, CREATED));
    assert!(rt; stamp.tend(rt, alloc, 1, Care::Unload).is_ok());
    assert!(rt; moved(rt, alloc, &stamp, 1) == Ok(false));
    assert!(rt; moved(rt, alloc, &stamp, 0) == Ok(true));
    assert!(rt; moved(rt, alloc, &stamp, 0) == Ok(false));
    assert!(rt; stamp.tend(rt, alloc, 1, Care::Load).is_ok());
    assert!(rt; moved(rt, alloc, &stamp, 0) == Ok(false));
    assert!(rt; moved(rt, alloc, &stamp, 1) == Ok(true));
    assert!(rt; moved(rt, alloc, &stamp, 2) == Err(MoveFault::NoSuchSlot));
}

#[test]
fn the_rows_of_the_named_slot_are_taken_out(rt: HostRuntime) {
    takes_out_the_named_rows(&rt, rt.alloc());
}
