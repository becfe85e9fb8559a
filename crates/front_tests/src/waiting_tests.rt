//! Connections that are left whenever their reader has nothing or their writer takes nothing, and that are gone on with.
ghost use Rattle.std.specs.Prelude.{⊤};

use http_front::{
    Clock, Connection, End, FrontFault, Progress, Service, Stage, advance, finish, give_up, run,
};
use stamp_types::{Items, Moment, Reply, Request, Share, Shares, Status};
use std::alloc::{AllocError, Global};
use std::cell::Cell;
use std::io;
use std::io::{ErrorKind, Read, Write};
use std::process::Abort;

// A Put Blob that waits for the interim reply, with its body, and a Get Blob after it.
const STREAM: &[u8] =
    b"PUT /acct/box/b HTTP/1.1\r\nx-ms-blob-type: BlockBlob\r\nExpect: 100-continue\r\nContent-Length: 5\r\n\r\nhelloGET /acct/box/b HTTP/1.1\r\n\r\n";

const CONTINUE: &[u8] = b"HTTP/1.1 100 Continue\r\n\r\n";

// The head of the reply to each of the two requests, if its body has ten bytes.
const SHORT_HEAD: &[u8] =
    b"HTTP/1.1 200 OK\r\nDate: Thu, 01 Jan 1970 00:00:00 GMT\r\nx-ms-version: 2012-02-12\r\nContent-Length: 10\r\n\r\n";

// The same if its body has 5,000 bytes.
const LONG_HEAD: &[u8] =
    b"HTTP/1.1 200 OK\r\nDate: Thu, 01 Jan 1970 00:00:00 GMT\r\nx-ms-version: 2012-02-12\r\nContent-Length: 5000\r\n\r\n";

fn nothing_now() -> io::Error {
    io::Error::from(ErrorKind::WouldBlock)
}

/// Gives the bytes in events: the first has `first` bytes at most, and each later event has `most` bytes. Between two events, and before
/// the end, it has nothing once.
#[derive(Drop)]
struct Events<'a> {
    rest: &'a [u8],
    first: usize,
    most: usize,
    has_event: bool,
    reads: &'a Cell<u64>,
}

impl Read for Events<'_> {
    fn read(&mut self, buf: &mut [u8]) -> io::Result<usize> {
        self.reads.set(self.reads.get().saturating_add(1));
        self.has_event = !self.has_event;
        if !self.has_event {
            return Err(nothing_now());
        }
        let n = self.first.min(buf.len());
        self.first = self.most;
        self.rest.read(&mut buf[..n])
    }
}

/// Takes `first` bytes at once, and later `most` bytes. Between two writes that take bytes it takes nothing once. After `left` bytes each
/// further write fails.
#[derive(Drop)]
struct Taking {
    kept: Vec<u8>,
    first: usize,
    most: usize,
    left: usize,
    has_room: bool,
}

impl Taking {
    // Takes `first` bytes, and then `most` bytes at once.
    fn new(alloc: Global, first: usize, most: usize) -> Self {
        Self {
            kept: Vec::new(alloc),
            first,
            most,
            left: usize::MAX,
            has_room: false,
        }
    }
}

impl Write for Taking {
    fn write(&mut self, buf: &[u8]) -> io::Result<usize> {
        self.has_room = !self.has_room;
        if !self.has_room {
            return Err(nothing_now());
        }
        if self.left == 0 {
            return Err(io::Error::from(ErrorKind::BrokenPipe));
        }
        let n = self.first.min(buf.len()).min(self.left);
        self.first = self.most;
        self.left -= n;
        self.kept.extend_from_slice(&buf[..n])?;
        Ok(n)
    }

    fn flush(&mut self) -> io::Result<()> {
        Ok(())
    }
}

/// A clock that always gives the first moment.
#[derive(Drop)]
struct Start;

impl Clock for Start {
    ghost gives = { λ old moment new. ⊤ };

    fn now(&mut self) -> Moment {
        Moment::first()
    }
}

/// Answers each request by so many shares of ten bytes, with an empty share before each, and counts the requests.
#[derive(Drop)]
struct Tens<'a> {
    shares: u64,
    asked: &'a Cell<u64>,
}

impl Service for Tens<'_> {
    ghost World = { ⊤ };

    ghost world = { λ s. tt };

    ghost answers = { λ old asked moment reply new. ⊤ };

    ghost starves = { λ old new. ⊤ };

    fn answer(
        &mut self,
        alloc: Global,
        _request: Request,
        _moment: Moment,
    ) -> Result<Reply, AllocError> {
        self.asked.set(self.asked.get().saturating_add(1));
        let mut body = Shares::empty(alloc);
        for _ in 0..self.shares {
            if body.len() < 1_000_000 {
                let ten = b"0123456789".to_vec(alloc)?;
                body.push(Share::empty())?;
                body.push(Share::new(alloc, ten)?)?;
            }
        }
        Ok(Reply {
            status: Status::Success,
            code: None,
            rule: None,
            headers: Items::new(Vec::new(alloc)),
            length: body.len() as u64,
            body,
        })
    }
}

// What is written for both requests if each reply has so many shares of ten bytes.
fn output_of(alloc: Global, head: &[u8], shares: u64) -> Result<Vec<u8>, AllocError> {
    let mut output = CONTINUE.to_vec(alloc)?;
    for _ in 0..2 {
        output.extend_from_slice(head)?;
        for _ in 0..shares {
            output.extend_from_slice(b"0123456789")?;
        }
    }
    Ok(output)
}

/// What a connection came to that was gone on with as often as it waited.
#[derive(Drop)]
struct Course {
    ended: Option<Result<End, FrontFault>>,
    written: Vec<u8>,
    /// How often it waited for its reader.
    reads: u64,
    /// How often it waited for its writer.
    writes: u64,
    /// Whether a read was made between two waits for its writer that follow each other.
    went_on: bool,
}

// Goes on with a connection whenever it waits.
fn go_on(alloc: Global, first: usize, most: usize, writer: Taking, shares: u64) -> Course {
    let asked = Cell::new(0);
    let made = Cell::new(0);
    let reader = Events {
        rest: STREAM,
        first,
        most,
        has_event: false,
        reads: &made,
    };
    let mut connection = Connection::new(alloc, reader, writer, 1000);
    let mut service = Tens {
        shares,
        asked: &asked,
    };
    let mut stage = Stage::new();
    let mut ended = None;
    let mut reads: u64 = 0;
    let mut writes: u64 = 0;
    let mut waited = false;
    let mut went_on = false;
    for _ in 0..100_000 {
        let before = made.get();
        match advance(
            alloc,
            &mut connection,
            stage,
            &mut Start,
            &mut service,
            true,
        ) {
            Ok(Progress::Waits(next)) => {
                let waits = next.wants_write();
                if waits {
                    writes = writes.saturating_add(1);
                    went_on = went_on || (waited && made.get() != before);
                } else {
                    reads = reads.saturating_add(1);
                }
                waited = waits;
                stage = next;
            }
            Ok(Progress::Ended(end)) => {
                ended = Some(finish(&mut connection, Ok(end)));
                break;
            }
            Err(fault) => {
                ended = Some(finish(&mut connection, Err(fault)));
                break;
            }
        }
    }
    let (_, writer) = connection.into_parts();
    Course {
        ended,
        written: writer.kept,
        reads,
        writes,
        went_on,
    }
}

// However the requests are cut into events of at most 40 bytes, with nothing now between two of them, and however many bytes the writer
// takes at once, with no room between, the output is that of a connection that never waits.
#[test]
fn each_cutting_into_events_has_the_same_output(rt: HostRuntime) {
    let wanted = output_of(rt.alloc(), SHORT_HEAD, 1).expect(&rt, "memory");
    for most in 1..=40 {
        for first in 1..=most {
            for taken in [1, 7, 40, 8192] {
                let writer = Taking::new(rt.alloc(), taken, taken);
                let course = go_on(rt.alloc(), first, most, writer, 1);
                assert!(rt;
                    course.ended == Some(Ok(End::Clean)),
                    "{first} {most} {taken}"
                );
                assert!(rt;
                    course.written.as_slice() == wanted.as_slice(),
                    "{first} {most} {taken}"
                );
                assert!(rt;
                    course.reads > 0 && !course.went_on,
                    "{first} {most} {taken}"
                );
            }
        }
    }
}

// A writer that takes k bytes, then nothing, and then k bytes again, for each k up to more than all that is written.
#[test]
fn a_writer_that_takes_few_bytes_gets_the_same_output(rt: HostRuntime) {
    let wanted = output_of(rt.alloc(), SHORT_HEAD, 1).expect(&rt, "memory");
    for taken in 1..=300 {
        let writer = Taking::new(rt.alloc(), taken, taken);
        let course = go_on(rt.alloc(), 40, 40, writer, 1);
        assert!(rt; course.ended == Some(Ok(End::Clean)), "{taken}");
        assert!(rt; course.written.as_slice() == wanted.as_slice(), "{taken}");
        // Between two writes that take bytes, the writer takes nothing once.
        let takes = course.writes.saturating_add(1);
        assert!(rt; takes as usize >= wanted.len() / taken, "{taken}");
        assert!(rt; !course.went_on, "{taken}");
    }
}

// The first write takes so many bytes of the interim reply, the rest is taken after a wait, and the body is read only then.
#[test]
fn an_interim_reply_is_cut_at_each_byte(rt: HostRuntime) {
    let wanted = output_of(rt.alloc(), SHORT_HEAD, 1).expect(&rt, "memory");
    for first in 1..CONTINUE.len() {
        let writer = Taking::new(rt.alloc(), first, 8192);
        let course = go_on(rt.alloc(), 8192, 8192, writer, 1);
        assert!(rt; course.ended == Some(Ok(End::Clean)), "{first}");
        assert!(rt; course.written.as_slice() == wanted.as_slice(), "{first}");
        assert!(rt; course.writes == 3 && !course.went_on, "{first}");
    }
}

// Replies of 500 shares of ten bytes, with an empty share before each.
#[test]
fn a_large_reply_is_taken_in_pieces(rt: HostRuntime) {
    let wanted = output_of(rt.alloc(), LONG_HEAD, 500).expect(&rt, "memory");
    for taken in [199, 250, 1000, 1001, 4096, 4999, 5000, 65536] {
        let writer = Taking::new(rt.alloc(), taken, taken);
        let course = go_on(rt.alloc(), 8192, 8192, writer, 500);
        assert!(rt; course.ended == Some(Ok(End::Clean)), "{taken}");
        assert!(rt; course.written.as_slice() == wanted.as_slice(), "{taken}");
        assert!(rt; !course.went_on, "{taken}");
    }
}

// A writer that fails after so many bytes, of fewer than all, holds exactly these bytes.
fn fails_after(rt: &impl Abort, alloc: Global, left: usize, wanted: &[u8], shares: u64) {
    for taken in [64, 8192] {
        let mut writer = Taking::new(alloc, taken, taken);
        writer.left = left;
        let course = go_on(alloc, 40, 40, writer, shares);
        assert!(rt;
            course.ended == Some(Err(FrontFault::Write)),
            "{left} {taken}"
        );
        let front = &wanted[..left.min(wanted.len())];
        assert!(rt; course.written.as_slice() == front, "{left} {taken}");
    }
}

#[test]
fn a_writer_that_fails_at_any_byte_holds_the_bytes_before(rt: HostRuntime) {
    let wanted = output_of(rt.alloc(), SHORT_HEAD, 1).expect(&rt, "memory");
    for left in 0..wanted.len() {
        fails_after(&rt, rt.alloc(), left, &wanted, 1);
    }
}

#[test]
fn a_writer_that_fails_inside_a_large_reply_holds_the_bytes_before(rt: HostRuntime) {
    let wanted = output_of(rt.alloc(), LONG_HEAD, 500).expect(&rt, "memory");
    for left in [26, 100, 127, 128, 129, 137, 138, 139, 4096, 5127, 5128] {
        fails_after(&rt, rt.alloc(), left, &wanted, 500);
    }
}

// `run` waits for no writer: it ends as after a failed write, with what was taken.
#[test]
fn a_run_does_not_wait_for_its_writer(rt: HostRuntime) {
    let wanted = output_of(rt.alloc(), SHORT_HEAD, 1).expect(&rt, "memory");
    let asked = Cell::new(0);
    for taken in 1..wanted.len() {
        let mut writer = Taking::new(rt.alloc(), taken, taken);
        writer.has_room = false;
        let mut connection = Connection::new(rt.alloc(), STREAM, writer, 1000);
        let mut service = Tens {
            shares: 1,
            asked: &asked,
        };
        let ended = run(rt.alloc(), &mut connection, &mut Start, &mut service);
        let (_, writer) = connection.into_parts();
        assert!(rt; ended == Err(FrontFault::Write), "{taken}");
        assert!(rt; wanted.starts_with(&writer.kept), "{taken}");
    }
}

// A connection that is given up while it waits ends by the call that it waits for, and nothing more is written.
#[test]
fn a_connection_that_is_given_up_ends_by_what_it_waits_for(rt: HostRuntime) {
    let asked = Cell::new(0);
    for (taken, writes) in [(0, true), (8192, false)] {
        let made = Cell::new(0);
        let reader = Events {
            rest: STREAM,
            first: 120,
            most: 120,
            has_event: taken > 0,
            reads: &made,
        };
        let mut writer = Taking::new(rt.alloc(), 8192, 8192);
        writer.has_room = taken > 0;
        let mut connection = Connection::new(rt.alloc(), reader, writer, 9);
        let mut service = Tens {
            shares: 1,
            asked: &asked,
        };
        let mut stage = Stage::new();
        let mut ended = None;
        for _ in 0..9 {
            match advance(
                rt.alloc(),
                &mut connection,
                stage,
                &mut Start,
                &mut service,
                true,
            ) {
                Ok(Progress::Waits(next)) => {
                    if next.wants_write() == writes {
                        let fault = give_up(&mut connection, next);
                        ended = Some(finish(&mut connection, Err(fault)));
                        break;
                    }
                    stage = next;
                }
                Ok(Progress::Ended(_end)) => break,
                Err(_fault) => break,
            }
        }
        let wanted = if writes {
            FrontFault::Write
        } else {
            FrontFault::Read
        };
        assert!(rt; ended == Some(Err(wanted)), "{writes}");
    }
}

// While the reply to the first request waits, the second request is not answered, though it came.
#[test]
fn one_reply_is_held_at_a_time(rt: HostRuntime) {
    let asked = Cell::new(0);
    let mut writer = Taking::new(rt.alloc(), 30, 30);
    writer.has_room = true;
    let mut connection = Connection::new(rt.alloc(), STREAM, writer, 9);
    let mut service = Tens {
        shares: 500,
        asked: &asked,
    };
    let mut stage = Stage::new();
    let mut waits: u64 = 0;
    let mut most = 0;
    for _ in 0..100_000 {
        match advance(
            rt.alloc(),
            &mut connection,
            stage,
            &mut Start,
            &mut service,
            true,
        ) {
            Ok(Progress::Waits(next)) => {
                waits = waits.saturating_add(1);
                if waits == 100 {
                    most = asked.get();
                }
                stage = next;
            }
            Ok(Progress::Ended(_end)) => break,
            Err(_fault) => break,
        }
    }
    assert!(rt; most == 1);
    assert!(rt; asked.get() == 2);
}
