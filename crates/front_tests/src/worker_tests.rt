//! Workers over a small source: each connection waits twice and is given again, and the fault of one ends only that one.
ghost use Rattle.std.specs.Prelude.{⊤};

use http_front::{Clock, End, FrontFault, Link, Over, Rooms, Service, Source, work};
use stamp_types::{Code, Moment, Refusal, Reply, Request, Rule};
use std::alloc::{AllocError, Global};
use std::collections::VecDeque;
use std::io;
use std::io::{ErrorKind, Read, Write};
use std::sync::{Mutex, Wait};
use std::test::Fail;

/// How many bytes of a body each connection may have.
const ROOMS: Rooms = Rooms {
    admitted: 16,
    others: 16,
    replies: true,
};

/// A request in three parts. A connection waits after the first and after the second.
const PARTS: [&[u8]; 3] = [b"GET /acct/box", b"/b HTTP/1.1\r\n", b"\r\n"];

/// Gives the parts, and has nothing between two of them. After the last it fails, or is at its end.
#[derive(Drop)]
struct Script {
    next: usize,
    waits: bool,
    fails: bool,
}

impl Read for Script {
    fn read(&mut self, buf: &mut [u8]) -> io::Result<usize> {
        if self.waits {
            self.waits = false;
            return Err(io::Error::from(ErrorKind::WouldBlock));
        }
        if self.next >= PARTS.len() && self.fails {
            return Err(io::Error::from(ErrorKind::ConnectionReset));
        }
        if self.next >= PARTS.len() {
            return Ok(0);
        }
        let mut part = PARTS[self.next];
        self.next += 1;
        self.waits = self.next < PARTS.len();
        part.read(buf)
    }
}

/// Drops what is written.
#[derive(Drop)]
struct Nowhere;

impl Write for Nowhere {
    fn write(&mut self, buf: &[u8]) -> io::Result<usize> {
        Ok(buf.len())
    }

    fn flush(&mut self) -> io::Result<()> {
        Ok(())
    }
}

/// A clock that always gives the first moment.
#[derive(Drop)]
struct Start;

impl Clock for Start {
    ghost gives = { λ old moment new. ⊤ };

    fn now(&mut self) -> Moment {
        Moment::first()
    }
}

/// Refuses each request by P2.
#[derive(Drop)]
struct Refuses;

impl Service for Refuses {
    ghost World = { ⊤ };

    ghost world = { λ s. tt };

    ghost answers = { λ old asked moment reply new. ⊤ };

    ghost starves = { λ old new. ⊤ };

    fn answer(
        &mut self,
        alloc: Global,
        _request: Request,
        _moment: Moment,
    ) -> Result<Reply, AllocError> {
        Reply::denied(
            alloc,
            Refusal {
                rule: Rule::P2,
                code: Code::ResourceNotFound,
            },
        )
    }
}

/// A connection that reads the parts.
type ScriptLink = Link<Script, Nowhere, Start, Refuses>;

/// The connections that have something to do, and what the workers told of them.
#[derive(Drop)]
struct Known {
    ready: VecDeque<ScriptLink>,
    waits: u8,
    clean: u8,
    failed: u8,
}

/// Gives each connection again after it waited.
#[derive(Drop)]
struct Two<'a, R: Wait> {
    rt: &'a R,
    known: Mutex<Known>,
}

impl<'a, R: Wait> Source<ScriptLink, Over<Script, Nowhere, Start, Refuses>> for Two<'a, R> {
    fn next(&self) -> Option<(ScriptLink, Rooms)> {
        let link = self.known.lock(self.rt).ready.pop_front()?;
        Some((link, ROOMS))
    }

    fn waits(&self, link: ScriptLink) {
        let mut known = self.known.lock(self.rt);
        if known.ready.push_back(link).is_ok() {
            known.waits = known.waits.wrapping_add(1);
        }
    }

    fn ended(&self, over: Over<Script, Nowhere, Start, Refuses>) {
        let mut known = self.known.lock(self.rt);
        if over.end() == Ok(End::Clean) {
            known.clean = known.clean.wrapping_add(1);
        }
        if over.end() == Err(FrontFault::Read) {
            known.failed = known.failed.wrapping_add(1);
        }
    }
}

// A connection on which the request comes.
fn link(alloc: Global, fails: bool) -> ScriptLink {
    let script = Script {
        next: 0,
        waits: false,
        fails,
    };
    Link::new(alloc, script, Nowhere, Start, Refuses, 100)
}

// Two connections. The first fails after its request.
fn two_connections<R: Wait>(rt: &R, alloc: Global) -> Result<Two<'_, R>, AllocError> {
    let mut ready = VecDeque::with_capacity(alloc, 2)?;
    ready.push_back(link(alloc, true))?;
    ready.push_back(link(alloc, false))?;
    Ok(Two {
        rt,
        known: Mutex::new(Known {
            ready,
            waits: 0,
            clean: 0,
            failed: 0,
        }),
    })
}

// How often the connections waited, how many ended `Clean`, and how many by a fault of the reader.
fn counts<R: Wait>(source: &Two<'_, R>) -> (u8, u8, u8) {
    let known = source.known.lock(source.rt);
    (known.waits, known.clean, known.failed)
}

#[test]
fn one_worker_serves_two_connections_that_wait(rt: HostRuntime) -> Result<(), Fail> {
    let source = two_connections(&rt, rt.alloc())?;
    work::<_, Script, Nowhere, Start, Refuses, _>(&rt, rt.alloc(), 1, &source)?;
    assert_eq!(rt; counts(&source), (4, 1, 1));
    Ok(())
}

#[test]
fn more_workers_than_connections_serve_each_once(rt: HostRuntime) -> Result<(), Fail> {
    let source = two_connections(&rt, rt.alloc())?;
    work::<_, Script, Nowhere, Start, Refuses, _>(&rt, rt.alloc(), 3, &source)?;
    assert_eq!(rt; counts(&source), (4, 1, 1));
    Ok(())
}
