//! Both ends of connections in one process, on a port that the system gives. A client gives up after ten seconds, so each test ends by itself.
//! Signatures, sums and replies were made outside of this repository's code.
ghost use Rattle.std.specs.Prelude.{◌≡◌, ◌∷◌, [], IfOk};
ghost use Rattle.std.specs.Thread.{IsSend};
ghost use Rattle.served_history.specs.declared.entry.Entry.TheVariants.{Opened};

use crate::console::{Console, Input};
use crate::machine::Machine;
use crate::serving::account_of;
use crate::sockets::{Common, Intake, Opening, SlotServices, serve_and_obey, serve_on};
use crate::words::{Served, read_served};
use access_rules::Keys;
use http_front::Clock as _;
use served_history::{Account, LogFront, NewHistory};
use served_slots::{Operator, Reserve, Slots};
use socket_gate::Limits;
use stamp_types::Text;
use std::alloc::{AllocError, Global};
use std::io::{Read, Write};
use std::marker::Brand;
use std::net::{Net, SocketAddr, TcpListener, TcpStream};
use std::os::fd::OwnedFd;
use std::sync::Wait;
use std::sync::atomic::{AtomicU64, Ordering};
use std::test::Fail;
use std::thread::Threads;
use std::time::{Clock, Duration};
use std::{io, thread};

// A Create Container of `pics`, signed by `key1`, a Put of `hello` under `a.txt`, signed by `key2`, and a Get of it, signed by `key1`.
pub(crate) const CREATE: &[u8] =
    b"PUT /devstoreaccount1/pics?restype=container HTTP/1.1\r\nHost: 127.0.0.1:10000\r\nContent-Length: 0\r\nx-ms-date: Mon, 01 Oct 2012 12:00:00 GMT\r\nx-ms-version: 2012-02-12\r\nAuthorization: SharedKey devstoreaccount1:/Zt/M8NwlklmDGB00sttbyo87McxrIOvJXhMqumuXk0=\r\n\r\n";

const PUT: &[u8] =
    b"PUT /devstoreaccount1/pics/a.txt HTTP/1.1\r\nHost: 127.0.0.1:10000\r\nContent-Length: 5\r\nx-ms-blob-type: BlockBlob\r\nx-ms-version: 2012-02-12\r\nx-ms-date: Mon, 01 Oct 2012 12:00:00 GMT\r\nAuthorization: SharedKey devstoreaccount1:O9UZNW452QDPdLw1F6p3ZC4NHU5qWVzYuTPZoHu3yXw=\r\n\r\nhello";

const GET: &[u8] =
    b"GET /devstoreaccount1/pics/a.txt HTTP/1.1\r\nHost: 127.0.0.1:10000\r\nx-ms-date: Mon, 01 Oct 2012 12:00:00 GMT\r\nx-ms-version: 2012-02-12\r\nAuthorization: SharedKey devstoreaccount1:1faO58/enDoA9unDNvD2pMLw3jmfkbnVyTRBzimElkI=\r\n\r\n";

// A head that says a body of one byte too many.
const TOO_LARGE: &[u8] =
    b"PUT /devstoreaccount1/pics/a.txt HTTP/1.1\r\nHost: 127.0.0.1:10000\r\nContent-Length: 67108865\r\nx-ms-blob-type: BlockBlob\r\nx-ms-version: 2012-02-12\r\n\r\n";

const CREATED: &[u8] =
    b"HTTP/1.1 201 Created\r\nDate: Mon, 01 Oct 2012 12:00:00 GMT\r\nx-ms-version: 2012-02-12\r\nETag: \"0x0000000000000001\"\r\nLast-Modified: Mon, 01 Oct 2012 12:00:00 GMT\r\nContent-Length: 0\r\n\r\n";

const WRITTEN: &[u8] =
    b"HTTP/1.1 201 Created\r\nDate: Mon, 01 Oct 2012 12:00:00 GMT\r\nx-ms-version: 2012-02-12\r\nContent-MD5: XUFAKrxLKna5cZ2REBfFkg==\r\nETag: \"0x0000000000000002\"\r\nLast-Modified: Mon, 01 Oct 2012 12:00:00 GMT\r\nContent-Length: 0\r\n\r\n";

const READ: &[u8] =
    b"HTTP/1.1 200 OK\r\nDate: Mon, 01 Oct 2012 12:00:00 GMT\r\nx-ms-version: 2012-02-12\r\nContent-Type: application/octet-stream\r\nContent-MD5: XUFAKrxLKna5cZ2REBfFkg==\r\nx-ms-blob-type: BlockBlob\r\nAccept-Ranges: bytes\r\nETag: \"0x0000000000000002\"\r\nLast-Modified: Mon, 01 Oct 2012 12:00:00 GMT\r\nContent-Length: 5\r\n\r\nhello";

const ABSENT: &[u8] =
    b"HTTP/1.1 404 Not Found\r\nDate: Mon, 01 Oct 2012 12:00:00 GMT\r\nx-ms-version: 2012-02-12\r\nx-stamp-rule: O3\r\nContent-Type: application/xml\r\nContent-Length: 116\r\n\r\n<?xml version=\"1.0\" encoding=\"utf-8\"?><Error><Code>BlobNotFound</Code><Message>Refused by rule O3.</Message></Error>";

const REFUSED: &[u8] =
    b"HTTP/1.1 413 Payload Too Large\r\nDate: Mon, 01 Oct 2012 12:00:00 GMT\r\nx-ms-version: 2012-02-12\r\nx-stamp-rule: F8\r\nContent-Type: application/xml\r\nConnection: close\r\nContent-Length: 123\r\n\r\n<?xml version=\"1.0\" encoding=\"utf-8\"?><Error><Code>RequestBodyTooLarge</Code><Message>Refused by rule F8.</Message></Error>";

// How many seconds a client waits for bytes.
const CLIENT_PATIENCE: u64 = 10;

// How many milliseconds the server waits for bytes.
const PATIENCE: u64 = 20_000;

// The same for a client that sends nothing, so that its test ends soon.
const LITTLE_PATIENCE: u64 = 300;

/// A clock by which it stays noon of 1 October 2012, though time passes as it does by another clock.
#[derive(Drop)]
pub(crate) struct Noon<'a, R>(pub(crate) &'a R);

impl<R: Clock> Clock for Noon<'_, R> {
    fn monotonic(&self) -> io::Result<Duration> {
        self.0.monotonic()
    }

    fn since_1970(&self) -> io::Result<Duration> {
        Ok(Duration::from_secs(1_349_092_800))
    }
}

/// What a client does next. Connections are numbered from zero, in the order in which they are opened.
#[derive(Clone, Copy)]
enum Turn {
    Opens,
    Sends(usize, &'static [u8]),
    /// Sends so many pieces of 65,536 bytes.
    SendsMore(usize, usize),
    Gets(usize, &'static [u8]),
    /// The server has closed the connection.
    IsClosed(usize),
    Leaves(usize),
}

// Reads as many bytes as are wanted, and returns whether they are the wanted ones.
fn gets(stream: &mut TcpStream, wanted: &[u8]) -> io::Result<bool> {
    let mut room = [0; 1024];
    let room = &mut room[..wanted.len().min(1024)];
    stream.read_exact(room)?;
    Ok(*room == *wanted)
}

// Does what a client does next. Returns whether the server did what the client expects.
fn take_turn<R: Net<Stream = TcpStream>>(
    rt: &R,
    address: SocketAddr,
    streams: &mut [Option<TcpStream>; 3],
    opened: &mut usize,
    turn: Turn,
) -> io::Result<bool> {
    match turn {
        Turn::Opens => {
            let stream = TcpStream::connect(rt, address)?;
            stream.set_read_timeout(Some(Duration::from_secs(CLIENT_PATIENCE)))?;
            if *opened < 3 {
                streams[*opened] = Some(stream);
                *opened += 1;
            }
        }
        Turn::Sends(at, bytes) => {
            if let Some(Some(stream)) = streams.get_mut(at) {
                stream.write_all(bytes)?;
            }
        }
        Turn::SendsMore(at, pieces) => {
            if let Some(Some(stream)) = streams.get_mut(at) {
                for _ in 0..pieces {
                    stream.write_all(&[b'x'; 65_536])?;
                }
            }
        }
        Turn::Gets(at, bytes) => {
            if let Some(Some(stream)) = streams.get_mut(at) {
                return gets(stream, bytes);
            }
        }
        Turn::IsClosed(at) => {
            if let Some(Some(stream)) = streams.get_mut(at) {
                return Ok(stream.read(&mut [0; 1])? == 0);
            }
        }
        Turn::Leaves(at) => {
            if let Some(stream) = streams.get_mut(at) {
                *stream = None;
            }
        }
    }
    Ok(true)
}

// Plays a client. Returns the number of the first turn at which the server did not do what the client expects.
fn play<R: Net<Stream = TcpStream>>(
    rt: &R,
    address: SocketAddr,
    turns: &[Turn],
) -> io::Result<Option<usize>> {
    let (mut streams, mut opened) = ([None, None, None], 0);
    for (number, turn) in turns.iter().enumerate() {
        if !take_turn(rt, address, &mut streams, &mut opened, *turn)? {
            return Ok(Some(number));
        }
    }
    Ok(None)
}

// The account `devstoreaccount1`, and its first pair with the keys `key1` and `key2`.
pub(crate) fn first_pairs(alloc: Global) -> Result<(Text, Vec<Keys>), AllocError> {
    let served = read_served(alloc, "", "1", "devstoreaccount1", "a2V5MQ==", "a2V5Mg==");
    let Served { keys, .. } = served.map_err(|_| AllocError)?;
    let account = account_of(alloc, &keys)?;
    let mut pairs = Vec::new(alloc);
    pairs.push(keys)?;
    Ok((account, pairs))
}

// The limits of the program, but for a client that sends nothing.
fn limits(patience: u64) -> Limits {
    Limits {
        idle: Duration::from_millis(patience),
        ..Limits::standard()
    }
}

// A client that is played, and how many connections are served meanwhile, by so many workers. A client that sends nothing has so many milliseconds.
#[derive(Drop)]
struct Scene<'a> {
    workers: usize,
    connections: u64,
    patience: u64,
    turns: &'a [Turn],
}

// Serves so many connections of new slots by so many workers, and plays a client beside them. Returns whether serving ended well, and the turn at
// which the server did not do what the client expects.
fn both_ends<
    A: Account + Send + Sync,
    R: Net<Stream = TcpStream, Listener = TcpListener> + Threads + Wait + Clock + Sync,
>(rt: &R, alloc: Global, opening: Opening, scene: &Scene<'_>) -> io::Result<(bool, Option<usize>)>
    requires book { opening.history.book ≡ A.history }
    requires fresh { opening.history.next ≡ 0 }
    requires log { opening.history.log ≡ Opened opening.pairs.items ∷ [] }
{
    let Opening {
        history,
        pairs,
        account,
    } = opening;
    let Ok((slots, first)) = Slots::<A>::new(alloc, pairs, history) else {
        return Err(io::Error::from(io::ErrorKind::OutOfMemory));
    };
    let common = Common {
        alloc,
        slots: &slots,
        reserve: &Reserve::new(alloc),
        first,
        account,
    };
    both_ends_of(rt, &Noon(rt), common, scene)
}

// The same of these slots. What is borrowed has one lifetime, since operator and services hold it.
fn both_ends_of<
    'a,
    A: Account + Send + Sync,
    R: Net<Stream = TcpStream, Listener = TcpListener> + Threads + Wait + Clock + Sync,
>(
    rt: &'a R,
    clock: &'a Noon<'a, R>,
    common: Common<'a, A>,
    scene: &Scene<'_>,
) -> io::Result<(bool, Option<usize>)> {
    let Common {
        alloc,
        slots,
        reserve,
        first,
        account,
    } = common;
    let connections = scene.connections;
    let listener = TcpListener::bind(rt, "127.0.0.1:0")?;
    let address = listener.local_addr()?;
    let mut operator = Operator::new(rt, slots, account, first.again());
    let services = SlotServices::new(rt, clock, slots, None, reserve, first, connections);
    let mut console = Console::new(b"".as_slice(), Vec::new(alloc), Input::Ready);
    let intake = Intake {
        listener: &listener,
        workers: scene.workers,
        limits: limits(scene.patience),
        connections,
    };
    let (served, played) = thread::join(
        rt,
        || -> bool
            requires { IsSend A.row }
        {
            serve_and_obey(
                rt,
                clock,
                alloc,
                &mut operator,
                &services,
                &intake,
                &mut console,
            )
            .is_ok()
        },
        || -> io::Result<Option<usize>> {
            let played = play(rt, address, scene.turns);
            // If the client broke off, the server still waits for connections.
            for _ in 0..connections {
                let _ = TcpStream::connect(rt, address);
            }
            played
        },
    );
    Ok((served, played?))
}

#[test]
fn connections_are_served_over_loopback(rt: HostRuntime) -> Result<(), Fail> {
    use Turn::{Gets, IsClosed, Leaves, Opens, Sends, SendsMore};
    let table: [(&str, usize, u32, u64, &[Turn]); 7] = [
        (
            "two at once",
            2,
            2,
            PATIENCE,
            &[
                Opens,
                Opens,
                Sends(0, CREATE),
                Gets(0, CREATED),
                Sends(1, PUT),
                Gets(1, WRITTEN),
                Sends(0, GET),
                Gets(0, READ),
                Sends(1, GET),
                Gets(1, READ),
            ],
        ),
        (
            "a head and a body that are not sent whole",
            1,
            3,
            PATIENCE,
            &[
                Opens,
                Sends(0, CREATE),
                Gets(0, CREATED),
                Sends(0, b"PUT /devstoreaccount1/pics/a.txt HTTP/1.1\r\nHost"),
                Leaves(0),
                Opens,
                Sends(1, PUT.split_at(PUT.len() - 2).0),
                Leaves(1),
                Opens,
                Sends(2, GET),
                Gets(2, ABSENT),
            ],
        ),
        (
            "a sender that goes on after a refusal",
            1,
            1,
            PATIENCE,
            &[
                Opens,
                Sends(0, TOO_LARGE),
                SendsMore(0, 100),
                Gets(0, REFUSED),
                IsClosed(0),
            ],
        ),
        (
            "more connections than workers",
            1,
            3,
            PATIENCE,
            &[
                Opens,
                Opens,
                Opens,
                Sends(0, CREATE),
                Gets(0, CREATED),
                Sends(2, PUT.split_at(PUT.len() - 2).0),
                Sends(1, PUT),
                Gets(1, WRITTEN),
                Sends(0, GET),
                Gets(0, READ),
                Sends(2, PUT.split_at(PUT.len() - 2).1),
                Gets(2, b"HTTP/1.1 201 Created\r\n"),
            ],
        ),
        (
            "a client that speaks TLS",
            1,
            1,
            PATIENCE,
            &[Opens, Sends(0, b"\x16\x03\x01\x00\x05"), IsClosed(0)],
        ),
        (
            "a client that sends nothing",
            1,
            2,
            LITTLE_PATIENCE,
            &[
                Opens,
                Opens,
                Sends(1, CREATE),
                Gets(1, CREATED),
                IsClosed(0),
            ],
        ),
        (
            "a client that leaves at once",
            2,
            1,
            PATIENCE,
            &[Opens, Leaves(0)],
        ),
    ];
    for (name, workers, connections, patience, turns) in table {
        let (account, pairs) = first_pairs(rt.alloc())?;
        let history = NewHistory::new(&pairs);
        let opening = Opening {
            history,
            pairs,
            account,
        };
        let scene = Scene {
            workers,
            connections: u64::from(connections),
            patience,
            turns,
        };
        let (served, differs) = both_ends::<Brand, _>(&rt, rt.alloc(), opening, &scene)?;
        assert!(rt; served, "{name}");
        assert!(rt; differs.is_none(), "{name}: {differs:?}");
    }
    Ok(())
}

#[test]
fn a_listener_that_fails_for_good_ends_serving(rt: HostRuntime) -> Result<(), Fail> {
    let bound = TcpListener::bind(&rt, "127.0.0.1:0")?;
    // A socket that is connected takes no connections.
    let connected = TcpStream::connect(&rt, bound.local_addr()?)?;
    let listener = TcpListener::from(OwnedFd::from(connected));
    let (account, pairs) = first_pairs(rt.alloc())?;
    let history = NewHistory::new(&pairs);
    let opening = Opening {
        history,
        pairs,
        account,
    };
    let intake = Intake {
        listener: &listener,
        workers: 2,
        limits: limits(PATIENCE),
        connections: 9,
    };
    let mut console = Console::new(b"".as_slice(), Vec::new(rt.alloc()), Input::Ready);
    let served = serve_on::<Brand, _, Noon<'_, HostRuntime>, &[u8], Vec<u8>, Vec<u8>>(
        &rt,
        &Noon(&rt),
        rt.alloc(),
        opening,
        &intake,
        &mut console,
        &mut None,
    );
    assert!(rt; served.is_ok());
    Ok(())
}

/// A clock that tells a list of times one after the other, and fails after them.
#[derive(Drop)]
struct Told {
    calls: AtomicU64,
    times: [Option<Duration>; 5],
}

impl Clock for Told {
    fn monotonic(&self) -> io::Result<Duration> {
        Err(io::Error::from(io::ErrorKind::Unsupported))
    }

    fn since_1970(&self) -> io::Result<Duration> {
        let call = self.calls.fetch_add(1, Ordering::SeqCst);
        let told = usize::try_from(call)
            .ok()
            .and_then(|at| self.times.get(at).copied());
        told.flatten()
            .ok_or(io::Error::from(io::ErrorKind::Unsupported))
    }
}

#[test]
fn a_clock_that_fails_tells_its_last_moment(rt: HostRuntime) {
    let clock = Told {
        calls: AtomicU64::new(0),
        times: [
            None,
            Some(Duration::new(1_349_092_800, 199)),
            // The year 10000.
            Some(Duration::from_secs(253_402_300_800)),
            // It goes back.
            Some(Duration::from_secs(1_349_092_799)),
            None,
        ],
    };
    let mut machine = Machine::new(&clock);
    for ticks in [
        0,
        13_490_928_000_000_001,
        13_490_928_000_000_001,
        13_490_927_990_000_000,
        13_490_927_990_000_000,
        13_490_927_990_000_000,
    ] {
        assert_eq!(rt; machine.now().ticks(), ticks);
    }
}
