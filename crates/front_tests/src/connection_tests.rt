//! Connections over readers and writers that fail at a chosen call. The client gets the interim reply before the body is
//! awaited.
ghost use Rattle.std.specs.Prelude.{⊤};

use http_front::{
    Clock, Connection, End, FrontFault, Progress, Service, Stage, advance, finish, run,
};
use reply_form::out_of_memory_reply;
use stamp_types::{Code, Moment, Refusal, Reply, Request, Rule};
use std::alloc::{AllocError, Global};
use std::cell::Cell;
use std::io;
use std::io::{ErrorKind, Read, Write};

const GET: &[u8] = b"GET /acct/box/b HTTP/1.1\r\n\r\n";

// The head of a Put Blob that waits for the interim reply, and its body.
const PUT_HEAD: &[u8] =
    b"PUT /acct/box/b HTTP/1.1\r\nx-ms-blob-type: BlockBlob\r\nExpect: 100-continue\r\nContent-Length: 5\r\n\r\n";

// The head of a Put Blob that does not wait.
const PLAIN_HEAD: &[u8] =
    b"PUT /acct/box/b HTTP/1.1\r\nx-ms-blob-type: BlockBlob\r\nContent-Length: 5\r\n\r\n";

const BODY: &[u8] = b"hello";

const CONTINUE: &[u8] = b"HTTP/1.1 100 Continue\r\n\r\n";

const P2: &[u8] =
    b"HTTP/1.1 404 Not Found\r\nDate: Thu, 01 Jan 1970 00:00:00 GMT\r\nx-ms-version: 2012-02-12\r\nx-stamp-rule: P2\r\nContent-Type: application/xml\r\nContent-Length: 120\r\n\r\n<?xml version=\"1.0\" encoding=\"utf-8\"?><Error><Code>ResourceNotFound</Code><Message>Refused by rule P2.</Message></Error>";

fn broken() -> io::Error {
    io::Error::from(ErrorKind::BrokenPipe)
}

/// Gives at most `most` bytes at each read. After `reads` reads, each further read fails.
#[derive(Drop)]
struct Pieces<'a> {
    rest: &'a [u8],
    most: usize,
    reads: usize,
}

impl Read for Pieces<'_> {
    fn read(&mut self, buf: &mut [u8]) -> io::Result<usize> {
        if self.reads == 0 {
            return Err(broken());
        }
        self.reads -= 1;
        let n = self.most.min(buf.len());
        self.rest.read(&mut buf[..n])
    }
}

/// Takes at most `most` bytes at each write, and keeps them. After `calls` calls, each further call fails.
#[derive(Drop)]
struct Few {
    kept: Vec<u8>,
    most: usize,
    calls: usize,
}

impl Few {
    fn pass(&mut self) -> io::Result<()> {
        if self.calls == 0 {
            return Err(broken());
        }
        self.calls -= 1;
        Ok(())
    }
}

impl Write for Few {
    fn write(&mut self, buf: &[u8]) -> io::Result<usize> {
        self.pass()?;
        let n = self.most.min(buf.len());
        self.kept.extend_from_slice(&buf[..n])?;
        Ok(n)
    }

    fn flush(&mut self) -> io::Result<()> {
        self.pass()
    }
}

/// A client that sends a body only after it has got the interim reply.
#[derive(Drop)]
struct Waiting<'a> {
    head: &'a [u8],
    body: &'a [u8],
    told: &'a Cell<bool>,
}

impl Read for Waiting<'_> {
    fn read(&mut self, buf: &mut [u8]) -> io::Result<usize> {
        if !self.head.is_empty() {
            return self.head.read(buf);
        }
        if !self.told.get() {
            return Err(io::Error::from(ErrorKind::WouldBlock));
        }
        self.body.read(buf)
    }
}

/// Keeps what is written. At a flush, it tells the client if what was written is the interim reply.
#[derive(Drop)]
struct Passing<'a> {
    kept: Vec<u8>,
    told: &'a Cell<bool>,
}

impl Write for Passing<'_> {
    fn write(&mut self, buf: &[u8]) -> io::Result<usize> {
        self.kept.extend_from_slice(buf)?;
        Ok(buf.len())
    }

    fn flush(&mut self) -> io::Result<()> {
        if self.kept.as_slice() == CONTINUE {
            self.told.set(true);
        }
        Ok(())
    }
}

/// A clock that always gives the first moment.
#[derive(Drop)]
pub(crate) struct Start;

impl Clock for Start {
    ghost gives = { λ old moment new. ⊤ };

    fn now(&mut self) -> Moment {
        Moment::first()
    }
}

/// Refuses each request by P2, or fails as if memory ran out.
#[derive(Drop)]
pub(crate) struct Closed {
    pub(crate) starved: bool,
}

impl Service for Closed {
    ghost World = { ⊤ };

    ghost world = { λ s. tt };

    ghost answers = { λ old asked moment reply new. ⊤ };

    ghost starves = { λ old new. ⊤ };

    fn answer(
        &mut self,
        alloc: Global,
        _request: Request,
        _moment: Moment,
    ) -> Result<Reply, AllocError> {
        if self.starved {
            return Err(AllocError);
        }
        Reply::denied(
            alloc,
            Refusal {
                rule: Rule::P2,
                code: Code::ResourceNotFound,
            },
        )
    }
}

// How a connection to the service ends over a reader and a writer, and the writer.
fn serve<R: Read + Drop, W: Write + Drop>(
    alloc: Global,
    reader: R,
    writer: W,
    starved: bool,
    turns: u64,
) -> (Result<End, FrontFault>, W) {
    let mut connection = Connection::new(alloc, reader, writer, turns);
    let mut service = Closed { starved };
    let ended = run(alloc, &mut connection, &mut Start, &mut service);
    let (_, writer) = connection.into_parts();
    (ended, writer)
}

// The heads and the bodies of five requests, and what is written before a body comes.
const STREAM: [(&[u8], &[u8], &[u8]); 5] = [
    (GET, b"", b""),
    (PUT_HEAD, BODY, CONTINUE),
    (GET, b"", b""),
    (PLAIN_HEAD, BODY, b""),
    (PUT_HEAD, BODY, CONTINUE),
];

fn whole_stream(alloc: Global) -> Result<Vec<u8>, AllocError> {
    let mut all = Vec::new(alloc);
    for (head, body, _) in STREAM {
        all.extend_from_slice(head)?;
        all.extend_from_slice(body)?;
    }
    Ok(all)
}

// What is written if so many bytes of the stream come.
fn output_of(alloc: Global, count: usize) -> Result<Vec<u8>, AllocError> {
    let mut output = Vec::new(alloc);
    let mut left = count;
    for (head, body, interim) in STREAM {
        if left < head.len() {
            break;
        }
        output.extend_from_slice(interim)?;
        left -= head.len();
        if left < body.len() {
            break;
        }
        output.extend_from_slice(P2)?;
        left -= body.len();
    }
    Ok(output)
}

// Whether so many bytes of the stream end between two requests.
fn is_between(count: usize) -> bool {
    let mut left = count;
    for (head, body, _) in STREAM {
        let len = head.len().saturating_add(body.len());
        if left < len {
            break;
        }
        left -= len;
    }
    left == 0
}

/// Has nothing at each other read, and gives at most `most` bytes at the reads between.
#[derive(Drop)]
struct Halting<'a> {
    rest: &'a [u8],
    most: usize,
    halts: bool,
}

impl Read for Halting<'_> {
    fn read(&mut self, buf: &mut [u8]) -> io::Result<usize> {
        self.halts = !self.halts;
        if self.halts {
            return Err(io::Error::from(ErrorKind::WouldBlock));
        }
        let n = self.most.min(buf.len());
        self.rest.read(&mut buf[..n])
    }
}

// Goes on with a connection over these bytes as often as it waits. It may make one read for each byte, and one for the end. Returns how
// it ended, how often it waited, and what was written.
fn go_on(
    alloc: Global,
    bytes: &[u8],
    most: usize,
) -> (Option<Result<End, FrontFault>>, u64, Vec<u8>) {
    let reader = Halting {
        rest: bytes,
        most,
        halts: false,
    };
    let reads = (bytes.len() as u64).saturating_add(1);
    let mut connection = Connection::new(alloc, reader, Vec::new(alloc), reads);
    let mut service = Closed { starved: false };
    let mut stage = Stage::new();
    let mut ended = None;
    let mut waits = 0;
    for wait in 0..10_000 {
        match advance(
            alloc,
            &mut connection,
            stage,
            &mut Start,
            &mut service,
            true,
        ) {
            Ok(Progress::Waits(next)) => stage = next,
            Ok(Progress::Ended(end)) => {
                ended = Some(finish(&mut connection, Ok(end)));
                waits = wait;
                break;
            }
            Err(fault) => {
                ended = Some(finish(&mut connection, Err(fault)));
                waits = wait;
                break;
            }
        }
    }
    let (_, written) = connection.into_parts();
    (ended, waits, written)
}

// A connection that is left at each wait and gone on with has the output of one that is not.
#[test]
fn a_connection_that_waits_has_the_same_output(rt: HostRuntime) {
    let input = whole_stream(rt.alloc()).expect(&rt, "memory");
    for n in 0..=input.len() {
        for most in [1, 7, 8192] {
            let (ended, waits, written) = go_on(rt.alloc(), &input[..n], most);
            let output = output_of(rt.alloc(), n).expect(&rt, "memory");
            assert!(rt; written.as_slice() == output.as_slice(), "{n} {most}");
            let wanted = if is_between(n) {
                Ok(End::Clean)
            } else {
                Err(FrontFault::Read)
            };
            assert!(rt; ended == Some(wanted), "{n} {most}");
            assert!(rt; waits as usize >= n / most, "{n} {most}");
        }
    }
}

// An input that ends after any byte has one output, however it is cut into reads.
#[test]
fn an_input_has_one_output_wherever_it_ends(rt: HostRuntime) {
    let input = whole_stream(rt.alloc()).expect(&rt, "memory");
    for n in 0..=input.len() {
        let wanted = output_of(rt.alloc(), n).expect(&rt, "memory");
        let end = if is_between(n) {
            Ok(End::Clean)
        } else {
            Err(FrontFault::Read)
        };
        for most in [1, 7, 40, 8192] {
            let reader = Pieces {
                rest: &input[..n],
                most,
                reads: 1000,
            };
            let (ended, out) = serve(rt.alloc(), reader, Vec::new(rt.alloc()), false, 1000);
            assert!(rt; ended == end, "{n} bytes by {most}");
            assert!(rt; out.as_slice() == wanted.as_slice(), "{n} bytes by {most}");
        }
    }
}

// After a read that failed, and after the last read that is allowed, what was written is the output of what came.
#[test]
fn each_read_that_is_the_last_is_told(rt: HostRuntime) {
    let input = whole_stream(rt.alloc()).expect(&rt, "memory");
    for most in 1..=40 {
        // The last read finds the end.
        let whole = input.len().div_ceil(most).saturating_add(1);
        for reads in 0..=whole {
            let came = reads.saturating_mul(most).min(input.len());
            let wanted = output_of(rt.alloc(), came).expect(&rt, "memory");
            for (allowed, turns, fault) in [
                (reads, 1000, FrontFault::Read),
                (1000, reads, FrontFault::Turns),
            ] {
                let reader = Pieces {
                    rest: &input,
                    most,
                    reads: allowed,
                };
                let (ended, out) = serve(
                    rt.alloc(),
                    reader,
                    Vec::new(rt.alloc()),
                    false,
                    turns as u64,
                );
                let end = if reads == whole {
                    Ok(End::Clean)
                } else {
                    Err(fault)
                };
                assert!(rt; ended == end, "{reads} reads of {most} bytes");
                assert!(rt;
                    out.as_slice() == wanted.as_slice(),
                    "{reads} reads of {most} bytes"
                );
            }
        }
    }
}

// A writer that fails has a beginning of the output. Each call that it takes brings it further.
#[test]
fn each_write_that_is_the_last_is_told(rt: HostRuntime) {
    let input = whole_stream(rt.alloc()).expect(&rt, "memory");
    let wanted = output_of(rt.alloc(), input.len()).expect(&rt, "memory");
    for most in [1, 20, 100, 8192] {
        let mut before = 0;
        for calls in 0..1000 {
            let reader = Pieces {
                rest: &input,
                most: 40,
                reads: 1000,
            };
            let writer = Few {
                kept: Vec::new(rt.alloc()),
                most,
                calls,
            };
            let (ended, writer) = serve(rt.alloc(), reader, writer, false, 1000);
            assert!(rt;
                wanted.starts_with(&writer.kept),
                "{calls} calls of {most} bytes"
            );
            assert!(rt;
                before <= writer.kept.len(),
                "{calls} calls of {most} bytes"
            );
            before = writer.kept.len();
            if ended == Ok(End::Clean) {
                break;
            }
            assert!(rt;
                ended == Err(FrontFault::Write),
                "{calls} calls of {most} bytes"
            );
        }
        // The whole output is written if the calls are enough.
        assert!(rt; before == wanted.len() || most == 1, "{most} bytes");
    }
}

#[test]
fn out_of_memory_is_told(rt: HostRuntime) {
    let (ended, out) = serve(rt.alloc(), GET, Vec::new(rt.alloc()), true, 9);
    assert!(rt; ended == Err(FrontFault::NoMemory));
    assert!(rt; out.as_slice() == out_of_memory_reply());
}

#[test]
fn the_interim_reply_is_passed_on_before_the_body_is_awaited(rt: HostRuntime) {
    let told = Cell::new(false);
    let reader = Waiting {
        head: PUT_HEAD,
        body: BODY,
        told: &told,
    };
    let writer = Passing {
        kept: Vec::new(rt.alloc()),
        told: &told,
    };
    let (ended, writer) = serve(rt.alloc(), reader, writer, false, 9);
    assert!(rt; ended == Ok(End::Clean));
    assert!(rt; writer.kept.starts_with(CONTINUE));
    assert!(rt; &writer.kept[CONTINUE.len()..] == P2);
}
