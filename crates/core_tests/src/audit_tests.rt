//! Entries of the audit book that a slot over streams makes. What an entry has comes from the order of the requests.
ghost use Rattle.std.specs.Prelude.{⊤};

use crate::requests::{
    CREATE, CREATED, GET, GET_B, GET_BY_POLICY, LIST, MISSING, PUT, PUT_BY_NEW, PUT_POLICY,
};
use crate::samples::{begins, ends, pairs, says};
use crate::stored_samples::{D, R, is_covered, reply_of, rows};
use access_rules::Way;
use extent_node::{Delivery, Script};
use http_front::Service;
use policy_book::{Book, Entry};
use range_rows::Reading;
use slot_state::{AccountPairs, KeptHistories};
use stamp_types::{Moment, Op, Reply, Request};
use std::alloc::{AllocError, Global};
use std::process::Abort;
use std::sync::atomic::{AtomicUsize, Ordering};
use std::sync::{Arc, Mutex, Wait};
use std::thread;
use std::thread::Threads;
use stored_slot::{Audited, StoredSlot};

// A slot over streams, and the entries of the requests that it served.
#[derive(Drop)]
struct Booking {
    slot: StoredSlot<KeptHistories>,
    wire: Script,
    entries: Vec<Entry>,
}

impl Booking {
    fn serve(
        &mut self,
        alloc: Global,
        request: &Request,
        moment: Moment,
    ) -> Result<(Reply, Option<Entry>), AllocError> {
        if !is_covered(alloc, &self.slot, request)? {
            return Err(AllocError);
        }
        let reading = Reading::of(alloc, request)?;
        let Audited { answer, entry } = self
            .slot
            .serve_audited(alloc, request, None, reading, moment, &mut self.wire);
        match reply_of(answer, &mut self.wire) {
            Ok(reply) => Ok((reply, entry)),
            Err(fault) => {
                drop(entry);
                Err(fault)
            }
        }
    }
}

impl Service for Booking {
    ghost World = { ⊤ };

    ghost world = { λ s. tt };

    ghost answers = { λ old asked moment reply new. ⊤ };

    ghost starves = { λ old new. ⊤ };

    fn answer(
        &mut self,
        alloc: Global,
        request: Request,
        moment: Moment,
    ) -> Result<Reply, AllocError> {
        let (reply, entry) = self.serve(alloc, &request, moment)?;
        if let Some(entry) = entry {
            self.entries.push(entry)?;
        }
        Ok(reply)
    }
}

// A slot of the account, without containers. The wire gives these deliveries and answers in turn, and then Done and yes.
fn new_booking(rt: &impl Abort, alloc: Global, puts: &[Delivery], asks: &[bool]) -> Box<Booking> {
    let pairs = AccountPairs::of(alloc, pairs(rt, alloc)).expect(rt, "first pairs");
    let pairs = Arc::new(alloc, pairs).expect(rt, "memory");
    let puts = puts.to_vec(alloc).expect(rt, "memory");
    let asks = asks.to_vec(alloc).expect(rt, "memory");
    let booking = Booking {
        slot: StoredSlot::of_rows(alloc, rows(alloc), pairs),
        wire: Script::new(alloc, puts, asks),
        entries: Vec::new(alloc),
    };
    Box::new(alloc, booking).expect(rt, "memory")
}

// How many stored policies the container had by the entry. `None` if it did not exist.
fn policies_of(entry: &Entry) -> Option<usize> {
    let acl = entry.revision().acl()?;
    Some(acl.policies.as_slice().len())
}

// The entry at this index is of the operation, the place and the way.
fn is_entry(booking: &Booking, index: usize, op: Op, place: u64, way: Way) -> bool {
    match booking.entries.get(index) {
        Some(entry) => {
            entry.request().ask().op == op && entry.place() == place && entry.way() == way
        }
        None => false,
    }
}

// The entries of a caller who creates a container, puts a blob and gets it.
fn three_entries(rt: &impl Abort, alloc: Global, booking: &mut Booking) {
    assert!(rt; begins(rt, alloc, booking, CREATE, CREATED));
    assert!(rt; begins(rt, alloc, booking, PUT, CREATED));
    assert!(rt; ends(rt, alloc, booking, GET, b"\r\n\r\nhello"));
    assert_eq!(rt; booking.entries.len(), 3);
    assert!(rt; is_entry(booking, 0, Op::CreateContainer, 0, Way::Shared));
    assert!(rt; is_entry(booking, 1, Op::PutBlob, 1, Way::Shared));
    assert!(rt; is_entry(booking, 2, Op::GetBlob, 2, Way::Shared));
}

#[test]
fn each_place_is_the_number_of_changes_before(rt: HostRuntime) {
    let mut booking = new_booking(&rt, rt.alloc(), &[], &[]);
    three_entries(&rt, rt.alloc(), &mut *booking);
}

// A request that is refused by its signature, or since the blob does not exist, and one that names no container.
fn no_entries(rt: &impl Abort, alloc: Global, booking: &mut Booking) {
    assert!(rt; begins(rt, alloc, booking, CREATE, CREATED));
    assert!(rt; says(rt, alloc, booking, PUT_BY_NEW, "Refused by rule K5."));
    assert!(rt; begins(rt, alloc, booking, GET_B, MISSING));
    assert!(rt; ends(rt, alloc, booking, LIST, b"</EnumerationResults>"));
    assert_eq!(rt; booking.entries.len(), 1);
}

#[test]
fn a_refused_request_has_no_entry(rt: HostRuntime) {
    let mut booking = new_booking(&rt, rt.alloc(), &[], &[]);
    no_entries(&rt, rt.alloc(), &mut *booking);
}

// The policies of the entry at this index, or `None` if the container did not exist.
fn policies_at(booking: &Booking, index: usize) -> Option<usize> {
    booking.entries.get(index).and_then(policies_of)
}

// What an entry says of the container is what was so before its request.
fn revisions(rt: &impl Abort, alloc: Global, booking: &mut Booking) {
    assert!(rt; begins(rt, alloc, booking, CREATE, CREATED));
    assert!(rt; begins(rt, alloc, booking, PUT, CREATED));
    assert!(rt; begins(rt, alloc, booking, PUT_POLICY, b"HTTP/1.1 200 OK\r\n"));
    assert!(rt; ends(rt, alloc, booking, GET_BY_POLICY, b"\r\n\r\nhello"));
    assert!(rt; is_entry(booking, 2, Op::SetAcl, 2, Way::Shared));
    assert!(rt; is_entry(booking, 3, Op::GetBlob, 3, Way::Token));
    assert!(rt; policies_at(booking, 0).is_none());
    assert!(rt; policies_at(booking, 1) == Some(0));
    assert!(rt; policies_at(booking, 2) == Some(0));
    assert!(rt; policies_at(booking, 3) == Some(1));
}

#[test]
fn the_revision_is_the_one_before_the_change(rt: HostRuntime) {
    let mut booking = new_booking(&rt, rt.alloc(), &[], &[]);
    revisions(&rt, rt.alloc(), &mut *booking);
}

// All nodes refuse the record twice: the request is answered N1.
fn no_entry_of_n1(rt: &impl Abort, alloc: Global, booking: &mut Booking) {
    assert!(rt; says(rt, alloc, booking, CREATE, "Refused by rule N1."));
    assert_eq!(rt; booking.entries.len(), 0);
}

#[test]
fn a_change_that_is_not_made_has_no_entry(rt: HostRuntime) {
    let mut booking = new_booking(&rt, rt.alloc(), &[R, R, R, R, R, R], &[]);
    no_entry_of_n1(&rt, rt.alloc(), &mut *booking);
}

// One node takes the record, and then no node answers.
fn entry_of_a_doubt(rt: &impl Abort, alloc: Global, booking: &mut Booking) {
    assert!(rt; says(rt, alloc, booking, CREATE, "Refused by rule N2."));
    assert_eq!(rt; booking.entries.len(), 1);
    assert!(rt; is_entry(booking, 0, Op::CreateContainer, 0, Way::Shared));
}

#[test]
fn an_unknown_change_has_an_entry(rt: HostRuntime) {
    let mut booking = new_booking(&rt, rt.alloc(), &[D, R, R], &[false, false, false]);
    entry_of_a_doubt(&rt, rt.alloc(), &mut *booking);
}

// A caller beside others: the slot has a lock, and an entry is posted after the lock is given back.
#[derive(Drop)]
struct Caller<'a, R: Wait> {
    rt: &'a R,
    booking: &'a Mutex<Box<Booking>>,
    book: &'a Book,
}

impl<'a, R: Wait> Caller<'a, R> {
    fn served(
        &self,
        alloc: Global,
        request: &Request,
        moment: Moment,
    ) -> Result<(Reply, Option<Entry>), AllocError> {
        let mut booking = self.booking.lock(self.rt);
        booking.serve(alloc, request, moment)
    }
}

impl<'a, R: Wait> Service for Caller<'a, R> {
    ghost World = { ⊤ };

    ghost world = { λ s. tt };

    ghost answers = { λ old asked moment reply new. ⊤ };

    ghost starves = { λ old new. ⊤ };

    fn answer(
        &mut self,
        alloc: Global,
        request: Request,
        moment: Moment,
    ) -> Result<Reply, AllocError> {
        let (reply, entry) = self.served(alloc, &request, moment)?;
        if let Some(entry) = entry {
            let _refused = self.book.post(self.rt, entry).is_err();
        }
        Ok(reply)
    }
}

// Sends a request a hundred times.
fn call<T: Wait + Abort>(
    rt: &T,
    alloc: Global,
    booking: &Mutex<Box<Booking>>,
    book: &Book,
    input: &[u8],
    ended: &AtomicUsize,
) {
    let mut caller = Caller { rt, booking, book };
    for _ in 0..100u8 {
        assert!(rt; begins(rt, alloc, &mut caller, input, b"HTTP/1.1 20"));
    }
    ended.fetch_add(1, Ordering::SeqCst);
}

// Whether the entry has the revision that allowed it: a token needs the policy.
fn is_right(entry: &Entry) -> bool {
    match entry.way() {
        Way::Shared => entry.revision().keys().is_some_and(|keys| keys.epoch == 0),
        Way::Token => policies_of(entry) == Some(1),
        Way::Anonymous => false,
    }
}

// Reads all entries, and returns how many there are.
fn read(rt: &impl Abort, alloc: Global, book: &Book) -> usize {
    let entries = book.audit_from(alloc, 0).expect(rt, "memory");
    for entry in entries.iter() {
        assert!(rt; is_right(*entry));
    }
    entries.len()
}

// Reads until both callers have ended.
fn read_beside<T: Wait + Abort>(rt: &T, alloc: Global, book: &Book, ended: &AtomicUsize) {
    for _ in rt.forever() {
        if ended.load(Ordering::SeqCst) == 2 {
            break;
        }
        let _count = read(rt, alloc, book);
        thread::yield_now();
    }
}

fn call_and_read<T: Threads + Wait + Abort + Sync>(
    rt: &T,
    alloc: Global,
    booking: &Mutex<Box<Booking>>,
    book: &Book,
) {
    let ended = AtomicUsize::new(0);
    let (_, _) = thread::join(
        rt,
        || {
            thread::join(
                rt,
                || call(rt, alloc, booking, book, PUT, &ended),
                || call(rt, alloc, booking, book, GET_BY_POLICY, &ended),
            )
        },
        || read_beside(rt, alloc, book, &ended),
    );
}

#[test]
fn a_reader_walks_beside_two_callers(rt: HostRuntime) {
    let alloc = rt.alloc();
    let mut booking = new_booking(&rt, alloc, &[], &[]);
    revisions(&rt, alloc, &mut *booking);
    let booking = Mutex::new(booking);
    let book = Book::new(alloc, 1000).expect(&rt, "memory");
    call_and_read(&rt, alloc, &booking, &book);
    assert_eq!(rt; read(&rt, alloc, &book), 200);
}
