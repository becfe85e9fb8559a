//! Links: one that waits inside a body is gone on with after another was served, and its fault ends it alone. A body has the room of the
//! admitted ones or of the others, and none is read if memory is too short.
ghost use Rattle.std.specs.Prelude.{⊤};

use http_front::{Clock, End, FrontFault, Link, Rooms, Service, brings_content, go_on};
use stamp_types::{Ask, Code, Credential, Moment, Op, Refusal, Reply, Request, Rule};
use std::alloc::{AllocError, Global};
use std::io;
use std::io::{ErrorKind, Read, Write};
use std::sync::atomic::{AtomicBool, AtomicU64, Ordering};

// A Put Blob whose body is not whole.
const CUT_PUT: &[u8] =
    b"PUT /acct/box/b HTTP/1.1\r\nx-ms-blob-type: BlockBlob\r\nContent-Length: 5\r\n\r\nhe";

// The same, signed.
const SIGNED_CUT_PUT: &[u8] =
    b"PUT /acct/box/b HTTP/1.1\r\nx-ms-blob-type: BlockBlob\r\nAuthorization: SharedKey acct:c2lnbmF0dXJl\r\nContent-Length: 5\r\n\r\nhe";

const GET: &[u8] = b"GET /acct/box/b HTTP/1.1\r\n\r\n";

/// What the links tell the test.
#[derive(Drop)]
struct Told {
    /// A reply was written.
    answered: AtomicBool,
    /// The reader of the link that waited saw that.
    saw: AtomicBool,
    /// How many requests came to the services.
    requests: AtomicU64,
    /// How many heads were judged.
    judged: AtomicU64,
    /// Memory is too short for what brings content.
    is_short: AtomicBool,
    /// How often a service was told that memory ran out.
    starved: AtomicU64,
}

/// Gives its bytes. Then a patient reader has nothing until a reply was written, and fails; another reader is at its end.
#[derive(Drop)]
struct Script<'a> {
    bytes: &'static [u8],
    is_patient: bool,
    told: &'a Told,
}

impl Read for Script<'_> {
    fn read(&mut self, buf: &mut [u8]) -> io::Result<usize> {
        if !self.bytes.is_empty() || !self.is_patient {
            return self.bytes.read(buf);
        }
        if self.told.answered.load(Ordering::SeqCst) {
            self.told.saw.store(true, Ordering::SeqCst);
            return Err(io::Error::from(ErrorKind::ConnectionReset));
        }
        Err(io::Error::from(ErrorKind::WouldBlock))
    }
}

/// Drops what is written, and tells that a reply came.
#[derive(Drop)]
struct Bell<'a> {
    told: &'a Told,
}

impl Write for Bell<'_> {
    fn write(&mut self, buf: &[u8]) -> io::Result<usize> {
        self.told.answered.store(true, Ordering::SeqCst);
        Ok(buf.len())
    }

    fn flush(&mut self) -> io::Result<()> {
        Ok(())
    }
}

/// A clock that always gives the first moment.
#[derive(Drop)]
struct Start;

impl Clock for Start {
    ghost gives = { λ old moment new. ⊤ };

    fn now(&mut self) -> Moment {
        Moment::first()
    }
}

/// Refuses each request by P2, and counts it. The route of a request that brings the key of an account may admit it.
#[derive(Drop)]
struct Counted<'a> {
    told: &'a Told,
}

impl Service for Counted<'_> {
    ghost World = { ⊤ };

    ghost world = { λ s. tt };

    ghost answers = { λ old asked moment reply new. ⊤ };

    ghost starves = { λ old new. ⊤ };

    ghost admits = { λ ask. ⊤ };

    fn may_admit(&self, _alloc: Global, ask: &Ask) -> Result<bool, AllocError> {
        self.told.judged.fetch_add(1, Ordering::SeqCst);
        Ok(matches!(ask.credential, Credential::Shared(_)))
    }

    fn is_short_for(&self, _alloc: Global, op: Op) -> bool {
        self.told.is_short.load(Ordering::SeqCst) && brings_content(op)
    }

    fn starved(&self, _alloc: Global) {
        self.told.starved.fetch_add(1, Ordering::SeqCst);
    }

    fn answer(
        &mut self,
        alloc: Global,
        _request: Request,
        _moment: Moment,
    ) -> Result<Reply, AllocError> {
        self.told.requests.fetch_add(1, Ordering::SeqCst);
        Reply::denied(
            alloc,
            Refusal {
                rule: Rule::P2,
                code: Code::ResourceNotFound,
            },
        )
    }
}

type Given<'a> = Link<Script<'a>, Bell<'a>, Start, Counted<'a>>;

// A link of which these bytes come. If it is patient, it then waits until a reply was written.
fn link<'a>(alloc: Global, bytes: &'static [u8], is_patient: bool, told: &'a Told) -> Given<'a> {
    let reader = Script {
        bytes,
        is_patient,
        told,
    };
    let service = Counted { told };
    Link::new(alloc, reader, Bell { told }, Start, service, 100)
}

fn untold() -> Told {
    Told {
        answered: AtomicBool::new(false),
        saw: AtomicBool::new(false),
        requests: AtomicU64::new(0),
        judged: AtomicU64::new(0),
        is_short: AtomicBool::new(false),
        starved: AtomicU64::new(0),
    }
}

// Room for so many bytes of any body.
fn same(room: usize) -> Rooms {
    Rooms {
        admitted: room,
        others: room,
        replies: true,
    }
}

// How a link ended when it was gone on with. `None` if it waits.
fn end_of(alloc: Global, given: Given<'_>, rooms: Rooms) -> Option<Result<End, FrontFault>> {
    match go_on(alloc, given, rooms) {
        Ok(_waits) => None,
        Err(over) => Some(over.end()),
    }
}

#[test]
fn a_link_that_waits_inside_a_body_is_gone_on_with(rt: HostRuntime) {
    let (alloc, told) = (rt.alloc(), untold());
    let Ok(first) = go_on(alloc, link(alloc, CUT_PUT, true, &told), same(2)) else {
        panic!(rt; "it ended");
    };
    assert_eq!(rt; first.held(), Some(2));
    let second = link(alloc, GET, false, &told);
    assert!(rt; end_of(alloc, second, same(0)) == Some(Ok(End::Clean)));
    assert!(rt; end_of(alloc, first, same(2)) == Some(Err(FrontFault::Read)));
    assert!(rt; told.saw.load(Ordering::SeqCst));
    // The request whose body did not come reached no service.
    assert_eq!(rt; told.requests.load(Ordering::SeqCst), 1);
}

#[test]
fn a_body_that_waits_has_no_more_than_its_room(rt: HostRuntime) {
    let (alloc, told) = (rt.alloc(), untold());
    let cut = link(alloc, CUT_PUT, true, &told);
    assert!(rt; end_of(alloc, cut, same(1)) == Some(Err(FrontFault::NoMemory)));
    assert_eq!(rt; told.requests.load(Ordering::SeqCst), 0);
}

#[test]
fn a_link_rests_only_between_two_requests(rt: HostRuntime) {
    let (alloc, told) = (rt.alloc(), untold());
    let Ok(resting) = link(alloc, GET, false, &told).rest(alloc) else {
        panic!(rt; "it ended");
    };
    assert!(rt; end_of(alloc, resting.wake(), same(0)) == Some(Ok(End::Clean)));
    told.answered.store(false, Ordering::SeqCst);
    let Ok(cut) = go_on(alloc, link(alloc, CUT_PUT, true, &told), same(2)) else {
        panic!(rt; "it ended");
    };
    assert!(rt; cut.rest(alloc).is_err());
}

// Room for one byte of a body that is not admitted, and for two of one that is.
const UNLIKE: Rooms = Rooms {
    admitted: 2,
    others: 1,
    replies: true,
};

#[test]
fn a_body_beyond_the_small_room_ends_unless_its_head_is_signed(rt: HostRuntime) {
    let (alloc, told) = (rt.alloc(), untold());
    let stranger = link(alloc, CUT_PUT, true, &told);
    assert!(rt; end_of(alloc, stranger, UNLIKE) == Some(Err(FrontFault::NoMemory)));
    assert_eq!(rt; told.judged.load(Ordering::SeqCst), 1);
    // The reader fails after a reply.
    told.answered.store(false, Ordering::SeqCst);
    let Ok(signed) = go_on(alloc, link(alloc, SIGNED_CUT_PUT, true, &told), UNLIKE) else {
        panic!(rt; "it ended");
    };
    assert!(rt; signed.is_admitted());
    assert_eq!(rt; signed.held(), Some(2));
    assert_eq!(rt; told.judged.load(Ordering::SeqCst), 2);
    // The judgement is kept, and there is an end to the larger room too.
    assert!(rt; end_of(alloc, signed, same(1)) == Some(Err(FrontFault::NoMemory)));
    assert_eq!(rt; told.judged.load(Ordering::SeqCst), 2);
    assert_eq!(rt; told.starved.load(Ordering::SeqCst), 0);
}

#[test]
fn a_head_is_not_judged_while_the_small_room_does(rt: HostRuntime) {
    let (alloc, told) = (rt.alloc(), untold());
    let Ok(signed) = go_on(alloc, link(alloc, SIGNED_CUT_PUT, true, &told), same(2)) else {
        panic!(rt; "it ended");
    };
    assert!(rt; !signed.is_admitted());
    assert_eq!(rt; told.judged.load(Ordering::SeqCst), 0);
}

#[test]
fn no_body_is_read_while_memory_is_short(rt: HostRuntime) {
    let (alloc, told) = (rt.alloc(), untold());
    told.is_short.store(true, Ordering::SeqCst);
    let put = link(alloc, SIGNED_CUT_PUT, true, &told);
    assert!(rt; end_of(alloc, put, same(2)) == Some(Err(FrontFault::NoMemory)));
    assert_eq!(rt; told.starved.load(Ordering::SeqCst), 1);
    assert_eq!(rt; told.requests.load(Ordering::SeqCst), 0);
    // A Get is answered.
    let get = link(alloc, GET, false, &told);
    assert!(rt; end_of(alloc, get, same(0)) == Some(Ok(End::Clean)));
    assert_eq!(rt; told.requests.load(Ordering::SeqCst), 1);
}
