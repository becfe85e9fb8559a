//! Requests whose replies may be long wait for room, and other requests do not.
ghost use Rattle.std.specs.Prelude.{⊤};

use http_front::{Clock, End, FrontFault, Link, Over, Rooms, Service, go_on};
use stamp_types::{Ask, Credential, Items, Moment, Op, Reply, Request, Share, Shares, Status};
use std::alloc::{AllocError, Global};
use std::cell::Cell;
use std::io;
use std::io::{ErrorKind, Write};
use std::process::Abort;

const LIST: &[u8] = b"GET /acct/box?restype=container&comp=list HTTP/1.1\r\n\r\n";

const SIGNED_LIST: &[u8] =
    b"GET /acct?comp=list HTTP/1.1\r\nAuthorization: SharedKey acct:c2lnbmF0dXJl\r\n\r\n";

const GET: &[u8] = b"GET /acct/box/b HTTP/1.1\r\n\r\n";

// A Get Blob, Get Block List, List Blobs and a Get Blob.
const MIXED: &[u8] =
    b"GET /acct/box/b HTTP/1.1\r\n\r\nGET /acct/box/b?comp=blocklist HTTP/1.1\r\n\r\nGET /acct/box?restype=container&comp=list HTTP/1.1\r\n\r\nGET /acct/box/b HTTP/1.1\r\n\r\n";

// The replies to the first of these requests, to the next two, and to the last.
const FIRST: &[u8] =
    b"HTTP/1.1 200 OK\r\nDate: Thu, 01 Jan 1970 00:00:00 GMT\r\nx-ms-version: 2012-02-12\r\nContent-Length: 4\r\n\r\nblob";

const TEXTS: &[u8] =
    b"HTTP/1.1 200 OK\r\nDate: Thu, 01 Jan 1970 00:00:00 GMT\r\nx-ms-version: 2012-02-12\r\nContent-Length: 4\r\n\r\ntextHTTP/1.1 200 OK\r\nDate: Thu, 01 Jan 1970 00:00:00 GMT\r\nx-ms-version: 2012-02-12\r\nContent-Length: 4\r\n\r\ntext";

/// A clock that always gives the first moment.
#[derive(Drop)]
struct Start;

impl Clock for Start {
    ghost gives = { λ old moment new. ⊤ };

    fn now(&mut self) -> Moment {
        Moment::first()
    }
}

/// Answers Get Blob by `blob` and each other request by `text`, as often as it says, and counts the requests. The route of a request that brings
/// the key of an account may admit it; it counts the judgements too.
#[derive(Drop)]
struct Named<'a> {
    times: u64,
    asked: &'a Cell<u64>,
    judged: &'a Cell<u64>,
}

impl Service for Named<'_> {
    ghost World = { ⊤ };

    ghost world = { λ s. tt };

    ghost answers = { λ old asked moment reply new. ⊤ };

    ghost starves = { λ old new. ⊤ };

    ghost admits = { λ ask. ⊤ };

    fn may_admit(&self, _alloc: Global, ask: &Ask) -> Result<bool, AllocError> {
        self.judged.set(self.judged.get().saturating_add(1));
        Ok(matches!(ask.credential, Credential::Shared(_)))
    }

    fn answer(
        &mut self,
        alloc: Global,
        request: Request,
        _moment: Moment,
    ) -> Result<Reply, AllocError> {
        self.asked.set(self.asked.get().saturating_add(1));
        let word: &[u8] = if matches!(request.ask().op, Op::GetBlob) {
            b"blob"
        } else {
            b"text"
        };
        drop(request);
        let mut body = Shares::empty(alloc);
        for _ in 0..self.times {
            if body.len() < 1_000_000 {
                body.push(Share::new(alloc, word.to_vec(alloc)?)?)?;
            }
        }
        Ok(Reply {
            status: Status::Success,
            code: None,
            rule: None,
            headers: Items::new(Vec::new(alloc)),
            length: body.len() as u64,
            body,
        })
    }
}

/// Keeps what is written, up to so many bytes. Then it takes nothing now.
#[derive(Drop)]
struct Room {
    kept: Vec<u8>,
    left: usize,
}

impl Write for Room {
    fn write(&mut self, buf: &[u8]) -> io::Result<usize> {
        if self.left == 0 {
            return Err(io::Error::from(ErrorKind::WouldBlock));
        }
        let n = buf.len().min(self.left);
        self.left -= n;
        self.kept.extend_from_slice(&buf[..n])?;
        Ok(n)
    }

    fn flush(&mut self) -> io::Result<()> {
        Ok(())
    }
}

type Given<'a> = Link<&'static [u8], Room, Start, Named<'a>>;

type Ended<'a> = Over<&'static [u8], Room, Start, Named<'a>>;

// A link over these bytes, whose writer takes so many bytes.
fn link<'a>(alloc: Global, bytes: &'static [u8], left: usize, service: Named<'a>) -> Given<'a> {
    let writer = Room {
        kept: Vec::new(alloc),
        left,
    };
    Link::new(alloc, bytes, writer, Start, service, 100)
}

// No room for bodies, and room for long replies if it says so.
fn rooms(replies: bool) -> Rooms {
    Rooms {
        admitted: 0,
        others: 0,
        replies,
    }
}

// How a link ended, and what was written.
fn end_of(over: Ended<'_>) -> (Result<End, FrontFault>, Vec<u8>) {
    let end = over.end();
    let (_, writer, _, service) = over.into_parts();
    drop(service);
    (end, writer.kept)
}

// The link that still waits.
fn waits<'a>(rt: &impl Abort, gone: Result<Given<'a>, Ended<'a>>) -> Given<'a> {
    match gone {
        Ok(link) => link,
        Err(over) => {
            drop(over);
            panic!(rt; "it ended")
        }
    }
}

#[test]
fn lists_wait_for_room_and_other_requests_do_not(rt: HostRuntime) {
    let (asked, judged) = (Cell::new(0), Cell::new(0));
    let service = Named {
        times: 1,
        asked: &asked,
        judged: &judged,
    };
    let given = link(rt.alloc(), MIXED, 10_000, service);
    // The Get is answered, and the list after it waits, however often it is tried.
    let given = waits(&rt, go_on(rt.alloc(), given, rooms(false)));
    let given = waits(&rt, go_on(rt.alloc(), given, rooms(false)));
    assert!(rt; given.awaits_room() && !given.is_between() && !given.wants_write());
    assert!(rt; given.held() == Some(0));
    assert!(rt; given.writer().kept.as_slice() == FIRST);
    assert_eq!(rt; asked.get(), 1);
    assert_eq!(rt; judged.get(), 0);
    // Once there is room, all is answered in order.
    let Err(over) = go_on(rt.alloc(), given, rooms(true)) else {
        panic!(rt; "it waits");
    };
    let (end, kept) = end_of(over);
    assert!(rt; end == Ok(End::Clean));
    assert!(rt; kept.starts_with(FIRST) && kept.ends_with(FIRST));
    assert!(rt; kept.as_slice()[FIRST.len()..].starts_with(TEXTS));
    assert_eq!(rt; kept.len(), FIRST.len() * 2 + TEXTS.len());
    assert_eq!(rt; asked.get(), 4);
}

#[test]
fn the_route_of_a_list_that_waits_is_judged_if_somebody_asks(rt: HostRuntime) {
    let (asked, judged) = (Cell::new(0), Cell::new(0));
    for (bytes, is_admitted) in [(LIST, false), (SIGNED_LIST, true)] {
        let service = Named {
            times: 1,
            asked: &asked,
            judged: &judged,
        };
        let given = link(rt.alloc(), bytes, 10_000, service);
        let given = waits(&rt, go_on(rt.alloc(), given, rooms(false)));
        assert!(rt; given.may_admit(rt.alloc()) == is_admitted);
    }
    assert_eq!(rt; judged.get(), 2);
    assert_eq!(rt; asked.get(), 0);
}

// The body of a list counts until all of it is taken, and that of a blob does not count.
#[test]
fn a_long_reply_counts_while_it_is_not_taken(rt: HostRuntime) {
    let (asked, judged) = (Cell::new(0), Cell::new(0));
    for (bytes, wanted) in [(LIST, 8_000), (GET, 0)] {
        let service = Named {
            times: 2_000,
            asked: &asked,
            judged: &judged,
        };
        let given = link(rt.alloc(), bytes, 5_000, service);
        let given = waits(&rt, go_on(rt.alloc(), given, rooms(true)));
        assert!(rt; given.wants_write() && !given.awaits_room());
        assert_eq!(rt; given.long_reply(), wanted);
    }
}
