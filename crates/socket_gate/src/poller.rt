//! The thread that polls: it takes new connections, tells workers which connections have something to do, and ends those that are slow.
ghost use Rattle.std.specs.Prelude.{◌≡◌, IsSome, false};

use crate::gate::{Gate, IdleLink, LinkPlace, SocketLink, counts};
use crate::lingering::Lingering;
use crate::place::{Content, Phase, SPAN, Timer};
use crate::services::Services;
use crate::socket::{Half, Socket, comes_within, prepare};
use crate::turned_away::turn_away;
use http_front as front;
use http_front::{Link, Service};
use mio::unix::SourceFd;
use mio::{Events, Interest, Poll, Token};
use std::net::TcpStream;
use std::os::fd::{AsRawFd, RawFd};
use std::sync::atomic::Ordering;
use std::sync::{Arc, Wait};
use std::time::{Clock, Duration};
use std::{io, mem};

/// The token of the listener.
pub(crate) const LISTENER: usize = usize::MAX;

/// The token by which a worker wakes the thread that polls.
pub(crate) const WAKER: usize = usize::MAX - 1;

/// After how many milliseconds it is looked again for connections that are slow.
const LOOK: u64 = 1000;

/// How many milliseconds pass until the next connection is asked for after an error that passes, or while there is no place.
const PAUSE: u64 = 10;

/// How many connections are looked at to find one that gives way. There are at most 64 workers, so only a long queue hides one.
const LOOKS: usize = 256;

/// How many reads are made of one connection at most.
const TURNS: u64 = 4_294_967_296;

/// Errors of Linux after which a listener goes on at once: the connection was given up, or its network failed before it was taken (accept(2),
/// "Error handling").
const GIVEN_UP: [i32; 9] = [
    103, // ECONNABORTED
    71, // EPROTO
    100, // ENETDOWN
    92, // ENOPROTOOPT
    112, // EHOSTDOWN
    64, // ENONET
    113, // EHOSTUNREACH
    95, // EOPNOTSUPP
    101, // ENETUNREACH
];

/// The error of Linux if a rule of a firewall forbids the connection. It may come again at once, so the listener pauses.
const FORBIDDEN: [i32; 1] = [
    1, // EPERM
];

/// Errors of Linux after which a listener goes on once there is a descriptor or memory for one more.
const SHORT: [i32; 4] = [
    24, // EMFILE
    23, // ENFILE
    105, // ENOBUFS
    12, // ENOMEM
];

/// What asking for a connection came to.
#[derive(Clone, Copy, PartialEq, Eq)]
enum Asked {
    /// One came, or was given up by its peer, or there is room for it now.
    Came,
    /// None waits. The listener says when the next one comes.
    Nobody,
    /// There is no place, no descriptor or no memory for one more, or it is forbidden.
    Short,
    /// No more connections are taken.
    Closed,
}

// Whether the error has one of these numbers.
fn is_one_of(error: &io::Error, numbers: &[i32]) -> bool {
    error
        .raw_os_error()
        .is_some_and(|code| numbers.contains(&code))
}

impl<'a, R: Wait + Drop, C: Clock + Drop, K: front::Clock + Drop, S: Service + Drop> Gate<
    'a,
    R,
    C,
    K,
    S,
> {
    /// Polls until no more connections are taken and none is left, or until polling fails.
    pub(crate) fn poll<V: Services<K, S>>(
        &self,
        services: &V,
        poll: &mut Poll,
        events: &mut Events,
    ) {
        let mut looked = self.now();
        let mut next = None;
        let mut asked = Asked::Came;
        for _ in self.rt.forever() {
            let timeout = match asked {
                Asked::Came => 0,
                Asked::Short => PAUSE,
                Asked::Nobody | Asked::Closed => LOOK,
            };
            if poll
                .poll(events, Some(Duration::from_millis(timeout)))
                .is_err()
            {
                self.ready.close(&self.rt);
                return;
            }
            self.tell(events);
            // The listener's own event may come after many others.
            if asked != Asked::Closed {
                asked = self.accept_all(services, &mut next);
            }
            let now = self.now();
            if now.saturating_sub(looked) >= Duration::from_millis(LOOK) {
                looked = now;
                self.end_slow(now);
            }
            if asked == Asked::Closed && self.connections.load(Ordering::SeqCst) == 0 {
                self.ready.close(&self.rt);
                return;
            }
        }
    }

    // Tells workers which connections have something to do.
    fn tell(&self, events: &Events) {
        for event in events.iter() {
            match event.token().0 {
                LISTENER | WAKER => {}
                token => self.wake(token),
            }
        }
    }

    // Tells a worker that a connection has something to do. If a worker has it, no more is reported until it waits again.
    fn wake(&self, token: usize) {
        let index = token % SPAN;
        let Some(place) = self.places.get(index) else {
            return;
        };
        let mut place = place.lock(&self.rt);
        let place = &mut *place;
        if place.token != token || place.is_queued {
            return;
        }
        match place.content {
            // A connection that waits for room is polled anew once it waits for its peer. Until then each change is reported once at most, so a
            // peer that hung up is not reported again and again.
            Content::Empty | Content::Awaiting(_) => {}
            Content::Busy => {
                let _polled = self.poll_again(place.descriptor, token, Interest::PRIORITY);
            }
            Content::Idle(_) | Content::Waiting(_) | Content::Lingering(_) => {
                self.queue(place, index);
            }
        }
    }

    // Takes connections until none waits. No more than there are places are taken before other connections get their turn.
    fn accept_all<V: Services<K, S>>(&self, services: &V, next: &mut Option<(K, S)>) -> Asked {
        for _ in 0..self.places.len() {
            let asked = self.ask(services, next);
            if asked == Asked::Closed {
                self.is_closed.store(true, Ordering::SeqCst);
            }
            if asked != Asked::Came {
                return asked;
            }
        }
        Asked::Came
    }

    // Takes one connection.
    fn ask<V: Services<K, S>>(&self, services: &V, next: &mut Option<(K, S)>) -> Asked {
        if next.is_none() {
            *next = services.make();
        }
        if next.is_none() {
            return Asked::Closed;
        }
        let Some(index) = self.empty.lock(&self.rt).pop() else {
            return self.make_room();
        };
        self.is_full.store(false, Ordering::SeqCst);
        match self.listener.accept() {
            Ok((stream, _)) => {
                self.admit(index, stream, next.take());
                Asked::Came
            }
            Err(error) => {
                self.put_back(index);
                self.missed(&error)
            }
        }
    }

    // What it means that no connection was taken.
    fn missed(&self, error: &io::Error) -> Asked {
        if error.kind() == io::ErrorKind::WouldBlock {
            return Asked::Nobody;
        }
        if is_one_of(error, &GIVEN_UP) {
            return Asked::Came;
        }
        if is_one_of(error, &FORBIDDEN) {
            return Asked::Short;
        }
        if !is_one_of(error, &SHORT) {
            return Asked::Closed;
        }
        self.make_room()
    }

    // Lets a connection give way to one that waits to be taken: the one that is idle for the longest time, or else the one that has waited
    // inside a head for the longest time, or else one that its route does not admit and that has waited for room, or else inside a body, for
    // the longest time. If nobody waits to be taken, none gives way.
    fn make_room(&self) -> Asked {
        if !comes_within(self.listener.as_raw_fd(), 0) {
            self.is_full.store(false, Ordering::SeqCst);
            return Asked::Nobody;
        }
        for phase in [Phase::Idle, Phase::Head, Phase::OthersRoom, Phase::Body] {
            if self.end_longest(phase) {
                return Asked::Came;
            }
        }
        self.is_full.store(true, Ordering::SeqCst);
        Asked::Short
    }

    // Gives a new connection a place. If there is no memory for it, its peer is told so, and it is closed.
    fn admit(&self, index: usize, stream: TcpStream, next: Option<(K, S)>) {
        let descriptor = stream.as_raw_fd();
        let is_polled = match self.new_link(index, stream, next) {
            Some(link) => self.register(index, descriptor, link),
            None => false,
        };
        if !is_polled {
            self.put_back(index);
        }
    }

    // A new connection as one that waits for its first request.
    fn new_link(
        &self,
        index: usize,
        stream: TcpStream,
        next: Option<(K, S)>,
    ) -> Option<IdleLink<'a, K, S>> {
        let (clock, service) = next?;
        let token = self.token(index);
        let Some(socket) = self.socket(stream, index, token) else {
            // The next newcomer may find the memory that the service gives up.
            service.starved(self.alloc);
            return None;
        };
        let (reader, writer) = self.halves(socket)?;
        let link = Link::new(self.alloc, reader, writer, clock, service, TURNS);
        link.rest(self.alloc).ok()
    }

    // The token of the next connection of a place.
    fn token(&self, index: usize) -> usize {
        match self.places.get(index) {
            Some(place) => place.lock(&self.rt).token,
            None => index,
        }
    }

    // The socket of a new connection. If there is no memory for it, its peer is told so.
    fn socket(&self, stream: TcpStream, index: usize, token: usize) -> Option<Arc<Socket>> {
        if !prepare(&stream) {
            turn_away(self.alloc, &stream);
            return None;
        }
        match Arc::new(self.alloc, Socket::new(stream, index, token)) {
            Ok(socket) => Some(socket),
            Err(failed) => {
                turn_away(self.alloc, &failed.value.stream);
                None
            }
        }
    }

    // The reader and the writer of a socket.
    fn halves(&self, socket: Arc<Socket>) -> Option<(Half<'a>, Half<'a>)> {
        let other = Arc::try_clone(&socket).ok()?;
        Some((Half::new(other, self.ready), Half::new(socket, self.ready)))
    }

    // Puts a new connection into its place, and has it polled. If it cannot be polled, its peer is told that memory ran out. Returns whether
    // it is polled.
    fn register(&self, index: usize, descriptor: RawFd, link: IdleLink<'a, K, S>) -> bool {
        let Some(place) = self.places.get(index) else {
            return false;
        };
        let now = self.now();
        let mut place = place.lock(&self.rt);
        let place = &mut *place;
        let mut source = SourceFd(&descriptor);
        let polled = self
            .registry
            .register(&mut source, Token(place.token), Interest::READABLE)
            .is_ok();
        if polled {
            self.connections.fetch_add(1, Ordering::SeqCst);
            place.descriptor = descriptor;
            place.timer = Timer::new(now);
            place.content = Content::Idle(link);
            self.waits.lock(&self.rt).order.begin(index, Phase::Idle);
        } else {
            turn_away(self.alloc, &link.reader().socket.stream);
        }
        polled
    }

    // Ends the connections that were waited for too long.
    fn end_slow(&self, now: Duration) {
        if self.connections.load(Ordering::SeqCst) == 0 {
            return;
        }
        for index in 0..self.places.len() {
            if self.has_slow(index, now) {
                self.end_slow_at(index, now);
            }
        }
    }

    // Whether the connection of a place was waited for too long. Few connections are, so this test of all places has no room for one.
    fn has_slow(&self, index: usize, now: Duration) -> bool {
        let Some(place) = self.places.get(index) else {
            return false;
        };
        let mut place = place.lock(&self.rt);
        let place = &mut *place;
        !place.is_queued && self.is_slow(place, now)
    }

    // Ends the connection of a place that was waited for too long.
    fn end_slow_at(&self, index: usize, now: Duration) {
        match self.slow(index, now) {
            Some(Slow::Link(link)) => self.give_up(link),
            Some(Slow::Lingering(lingering)) => self.close(lingering.socket.index, lingering),
            None => {}
        }
    }

    // Whether a connection that waits may have something to do of which nobody was told yet. The poll tells of room for a reply only once a
    // third of all room is free, so only a write can find out.
    fn may_go_on(&self, place: &LinkPlace<'a, K, S>) -> bool {
        match &place.content {
            Content::Idle(_) => comes_within(place.descriptor, 0),
            Content::Waiting(link) => link.wants_write() || comes_within(place.descriptor, 0),
            Content::Awaiting(_) | Content::Lingering(_) | Content::Empty | Content::Busy => false,
        }
    }

    // Whether the connection of a place was waited for too long.
    fn is_slow(&self, place: &mut LinkPlace<'a, K, S>, now: Duration) -> bool {
        let keeps_room = self.keeps_room(place);
        match &place.content {
            Content::Idle(link) => {
                let counts = counts(link.reader(), link.writer());
                place.timer.is_late(counts, now, &self.limits, keeps_room)
            }
            Content::Waiting(link) => {
                let counts = counts(link.reader(), link.writer());
                place.timer.is_late(counts, now, &self.limits, keeps_room)
            }
            Content::Lingering(lingering) => lingering.is_late(now),
            // It waits for us.
            Content::Awaiting(_) => false,
            Content::Empty | Content::Busy => false,
        }
    }

    // Takes the connection of a place that was waited for too long.
    fn slow(&self, index: usize, now: Duration) -> Option<Slow<SocketLink<'a, K, S>>> {
        let mut place = self.places.get(index)?.lock(&self.rt);
        self.take_slow(&mut *place, index, now)
    }

    // The same of a place whose lock is held. If the connection may have something to do, a worker stays with it first, and then it is looked
    // at again. So a request that came in time and waits for a worker is not ended.
    fn take_slow(
        &self,
        place: &mut LinkPlace<'a, K, S>,
        index: usize,
        now: Duration,
    ) -> Option<Slow<SocketLink<'a, K, S>>>
        ensures { IsSome result → place.old.is_queued ≡ false }
    {
        if place.is_queued || !self.is_slow(place, now) {
            return None;
        }
        if self.may_go_on(place) {
            self.queue(place, index);
            return None;
        }
        match mem::replace(&mut place.content, Content::Busy) {
            Content::Idle(link) => Some(Slow::Link(link.wake())),
            Content::Waiting(link) => Some(Slow::Link(Box::into_inner(link))),
            Content::Lingering(lingering) => Some(Slow::Lingering(lingering)),
            content => {
                place.content = content;
                None
            }
        }
    }

    // Ends the connection that has waited in this phase for the longest time. Connections that a worker has, or will have next, are
    // passed over. Returns whether there was one among the first ones.
    fn end_longest(&self, phase: Phase) -> bool {
        let mut last = None;
        for _ in 0..LOOKS {
            let next = self.waits.lock(&self.rt).order.next(phase, last);
            let Some(index) = next else {
                return false;
            };
            match self.look_at(index, phase) {
                Looked::Taken(link) => {
                    self.give_way(link);
                    return true;
                }
                Looked::Stays => last = next,
                // Whoever comes after it now follows the one before it.
                Looked::Spared => {}
            }
        }
        false
    }

    // Takes the connection of a place if it waits in this phase, unless it waits inside a body that its route may admit: nobody looks at that
    // body again.
    fn look_at(&self, index: usize, phase: Phase) -> Looked<SocketLink<'a, K, S>> {
        if phase == Phase::Body && self.spares(index) {
            return Looked::Spared;
        }
        match self.take_waiting(index, phase) {
            Some(link) => Looked::Taken(link),
            None => Looked::Stays,
        }
    }

    // Takes the place of a connection out of the list of bodies, if its route may admit the body. So the service is asked once of each body.
    fn spares(&self, index: usize) -> bool {
        let Some(place) = self.places.get(index) else {
            return false;
        };
        let place = place.lock(&self.rt);
        let is_admitted = match &place.content {
            Content::Waiting(link) => link.is_admitted() || link.may_admit(self.alloc),
            Content::Idle(_) | Content::Awaiting(_) | Content::Lingering(_) => false,
            Content::Empty | Content::Busy => false,
        };
        let is_spared = is_admitted && place.timer.phase == Phase::Body;
        if is_spared {
            self.waits.lock(&self.rt).order.remove(index);
        }
        is_spared
    }

    // Ends a connection whose place somebody else needs. If its request is whole, its peer is told that memory ran out.
    fn give_way(&self, link: SocketLink<'a, K, S>) {
        if link.awaits_room() {
            self.starve(link);
        } else {
            self.give_up(link);
        }
    }

    // Takes the connection of a place if it waits in this phase.
    fn take_waiting(&self, index: usize, phase: Phase) -> Option<SocketLink<'a, K, S>> {
        let mut place = self.places.get(index)?.lock(&self.rt);
        self.take_in_phase(&mut *place, index, phase)
    }

    // The same of a place whose lock is held. A connection that waits for a worker does not give way.
    fn take_in_phase(
        &self,
        place: &mut LinkPlace<'a, K, S>,
        index: usize,
        phase: Phase,
    ) -> Option<SocketLink<'a, K, S>>
        ensures queued { IsSome result → place.old.is_queued ≡ false }
        ensures phase { IsSome result → place.old.timer.phase ≡ phase }
    {
        if place.timer.phase != phase || place.is_queued {
            return None;
        }
        if phase == Phase::Idle && self.may_go_on(place) {
            self.queue(place, index);
            return None;
        }
        match mem::replace(&mut place.content, Content::Busy) {
            Content::Idle(link) => Some(link.wake()),
            Content::Waiting(link) => Some(Box::into_inner(link)),
            Content::Awaiting(link) => Some(Box::into_inner(link)),
            content => {
                place.content = content;
                None
            }
        }
    }
}

/// What a look at a place found whose connection may give way.
#[derive(Drop)]
enum Looked<L: Drop> {
    /// The connection gives way.
    Taken(L),
    /// A worker has the connection, or will have it next. Its place stays in the list.
    Stays,
    /// The route of its request may admit its body. Its place is in no list any more.
    Spared,
}

/// A connection that was waited for too long.
#[derive(Drop)]
enum Slow<L: Drop> {
    Link(L),
    Lingering(Lingering),
}
