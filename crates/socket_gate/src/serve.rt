//! A listener whose connections are served by workers.

use crate::gate::Gate;
use crate::limits::Limits;
use crate::listener::prepare;
use crate::place::{Place, SPAN};
use crate::poller::{LISTENER, WAKER};
use crate::ready::ReadyQueue;
use crate::room::Waits;
use crate::services::Services;
use crate::socket::Half;
use http_front as front;
use http_front::{Service, work};
use libc::types::rlimit;
use mio::unix::SourceFd;
use mio::{Events, Interest, Poll, Registry, Token, Waker};
use std::alloc::{AllocError, Global};
use std::net::{Net, TcpListener};
use std::os::fd::AsRawFd;
use std::sync::atomic::{AtomicBool, AtomicU64, AtomicUsize};
use std::sync::{Mutex, Wait};
use std::thread::Threads;
use std::time::Clock;
use std::{io, thread};

/// How many events one poll reports at most.
const EVENTS: usize = 256;

/// How many descriptors are left for all that is no connection.
const SPARE: u64 = 16;

// How many connections there may be: as many as the limits say, if the process may have as many descriptors.
fn most_connections(limits: &Limits) -> usize {
    let mut limit = rlimit {
        rlim_cur: 0,
        rlim_max: 0,
    };
    let mut most = limits.connections.min(SPAN);
    if libc::getrlimit(libc::RLIMIT_NOFILE, &mut limit) == 0 {
        let descriptors = limit.rlim_cur.saturating_sub(SPARE);
        most = most.min(usize::try_from(descriptors).unwrap_or(usize::MAX));
    }
    most.max(1)
}

// So many empty places.
fn empty_places<L: Drop, I: Drop>(
    alloc: Global,
    count: usize,
) -> Result<Vec<Mutex<Place<L, I>>>, AllocError> {
    let mut places = Vec::with_capacity(alloc, count)?;
    for index in 0..count {
        places.push(Mutex::new(Place::new(index)))?;
    }
    Ok(places)
}

// The indices of so many places, the first one last.
fn indices(alloc: Global, count: usize) -> Result<Vec<usize>, AllocError> {
    let mut indices = Vec::with_capacity(alloc, count)?;
    for index in (0..count).rev() {
        indices.push(index)?;
    }
    Ok(indices)
}

/// The places of a gate before it has connections.
#[derive(Drop)]
struct EmptyPlaces<L: Drop, I: Drop> {
    places: Vec<Mutex<Place<L, I>>>,
    indices: Vec<usize>,
    waits: Waits,
}

impl<L: Drop, I: Drop> EmptyPlaces<L, I> {
    fn new(alloc: Global, count: usize, limits: &Limits) -> Result<Self, AllocError> {
        Ok(Self {
            places: empty_places(alloc, count)?,
            indices: indices(alloc, count)?,
            waits: Waits::new(alloc, count, limits.replies)?,
        })
    }
}

/// What the thread that polls waits with, and what others change of that.
#[derive(Drop)]
struct Polling {
    poll: Poll,
    events: Events,
    registry: Registry,
    waker: Waker,
}

impl Polling {
    // Polls a listener.
    fn new<R: Net>(rt: &R, alloc: Global, listener: &TcpListener) -> io::Result<Self> {
        let poll = Poll::new(rt)?;
        let descriptor = listener.as_raw_fd();
        let mut source = SourceFd(&descriptor);
        poll.registry()
            .register(&mut source, Token(LISTENER), Interest::READABLE)?;
        let registry = poll.registry().try_clone()?;
        let waker = Waker::new(&registry, Token(WAKER))?;
        let events = Events::with_capacity(alloc, EVENTS)?;
        Ok(Self {
            poll,
            events,
            registry,
            waker,
        })
    }
}

// Has so many workers serve the connections of the gate.
fn run_workers<
    'a,
    R: Threads + Wait + Sync + Drop,
    C: Clock + Sync + Drop,
    K: front::Clock + Drop + Send,
    S: Service + Drop + Send,
>(gate: &Gate<'a, R, C, K, S>, workers: usize) -> Result<(), AllocError> {
    work::<R, Half<'a>, Half<'a>, K, S, Gate<'a, R, C, K, S>>(&gate.rt, gate.alloc, workers, gate)
}

/// Serves the connections of a listener by so many workers, until the listener fails for good or the services say that no more connections
/// are taken, and then until the connections have ended.
///
/// The error says why it could not begin: memory, descriptors or threads ran out.
pub fn serve_listener<
    'x,
    R: Net + Threads + Wait + Sync,
    C: Clock + Sync,
    K: front::Clock + Drop + Send,
    S: Service + Drop + Send,
    V: Services<K, S> + Sync,
>(
    rt: &'x R,
    clock: &'x C,
    alloc: Global,
    listener: &'x TcpListener,
    workers: usize,
    services: &'x V,
    limits: Limits,
) -> io::Result<()> {
    prepare(listener)?;
    let count = most_connections(&limits);
    let ready = ReadyQueue::new(alloc, count)?;
    let EmptyPlaces {
        places,
        indices,
        waits,
    } = EmptyPlaces::new(alloc, count, &limits)?;
    let Polling {
        mut poll,
        mut events,
        registry,
        waker,
    } = Polling::new(rt, alloc, listener)?;
    let gate = Gate::<'_, &'x R, &'x C, K, S> {
        rt,
        clock,
        alloc,
        listener,
        ready: &ready,
        limits,
        registry,
        waker,
        places,
        empty: Mutex::new(indices),
        waits: Mutex::new(waits),
        connections: AtomicUsize::new(0),
        held: AtomicU64::new(0),
        others: AtomicU64::new(0),
        is_full: AtomicBool::new(false),
        is_closed: AtomicBool::new(false),
    };
    let (_, worked) = thread::join(
        rt,
        || gate.poll(services, &mut poll, &mut events),
        || run_workers(&gate, workers),
    );
    worked?;
    Ok(())
}
