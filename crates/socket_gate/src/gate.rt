//! Connections, each in a place: one thread polls those that wait, and workers go on with those that have something to do.

use crate::limits::Limits;
use crate::lingering::Lingering;
use crate::place::{Content, Counts, Held, Phase, Place};
use crate::ready::ReadyQueue;
use crate::room::Waits;
use crate::socket::Half;
use crate::turned_away::turn_away;
use http_front as front;
use http_front::{Link, Over, Resting, Rooms, Service, go_on};
use mio::unix::SourceFd;
use mio::{Interest, Registry, Token, Waker};
use std::alloc::Global;
use std::mem;
use std::net::TcpListener;
use std::os::fd::RawFd;
use std::sync::atomic::{AtomicBool, AtomicU64, AtomicUsize, Ordering};
use std::sync::{Mutex, Wait};
use std::time::{Clock, Duration};

/// A connection with all that it is served with.
pub(crate) type SocketLink<'a, K, S> = Link<Half<'a>, Half<'a>, K, S>;

/// A connection that ended.
pub(crate) type SocketOver<'a, K, S> = Over<Half<'a>, Half<'a>, K, S>;

/// A connection that waits for a request.
pub(crate) type IdleLink<'a, K, S> = Resting<Half<'a>, Half<'a>, K, S>;

/// What is in a place.
pub(crate) type LinkContent<'a, K, S> = Content<SocketLink<'a, K, S>, IdleLink<'a, K, S>>;

/// A place of a connection.
pub(crate) type LinkPlace<'a, K, S> = Place<SocketLink<'a, K, S>, IdleLink<'a, K, S>>;

/// How a connection waits.
#[derive(Drop)]
struct Waiting {
    index: usize,
    token: usize,
    phase: Phase,
    counts: Counts,
    held: Held,
    /// How many bytes its long reply has.
    reply: u64,
    interest: Interest,
    /// How long the worker waited for its peer.
    waited: Duration,
}

/// Hands connections to workers, and takes back those that wait.
// It has `rt` and `clock` by value, so that no parameter has to live as long as `'a`: a call of `work` could not show that. Both may be
// references.
#[derive(Drop)]
pub(crate) struct Gate<
    'a,
    R: Wait + Drop,
    C: Clock + Drop,
    K: front::Clock + Drop,
    S: Service + Drop,
> {
    pub(crate) rt: R,
    pub(crate) clock: C,
    pub(crate) alloc: Global,
    pub(crate) listener: &'a TcpListener,
    pub(crate) ready: &'a ReadyQueue,
    pub(crate) limits: Limits,
    pub(crate) registry: Registry,
    pub(crate) waker: Waker,
    pub(crate) places: Vec<Mutex<LinkPlace<'a, K, S>>>,
    /// The indices of the empty places.
    pub(crate) empty: Mutex<Vec<usize>>,
    /// In which order the connections began to wait, and the room of long replies. It is locked while a place is locked, and never the other
    /// way round.
    pub(crate) waits: Mutex<Waits>,
    /// How many connections there are.
    pub(crate) connections: AtomicUsize,
    /// How many bytes the bodies have of the connections that wait.
    pub(crate) held: AtomicU64,
    /// How many of them are of bodies that the route of their request is not known to admit.
    pub(crate) others: AtomicU64,
    /// Whether a newcomer waits, and no connection can give way.
    pub(crate) is_full: AtomicBool,
    /// Whether no more connections are taken.
    pub(crate) is_closed: AtomicBool,
}

/// What a worker finds in a place.
#[derive(Drop)]
pub(crate) enum Taken<L: Drop> {
    Nothing,
    /// A connection, and which room it has.
    Link(L, Rooms),
    Lingering(Lingering),
}

/// How many bytes of a connection were received and sent.
pub(crate) fn counts(reader: &Half<'_>, writer: &Half<'_>) -> Counts {
    Counts {
        received: reader.count,
        sent: writer.count,
    }
}

// How many bytes of a body a connection has that waits.
fn held<K: front::Clock + Drop, S: Service + Drop>(link: &SocketLink<'_, K, S>) -> Held {
    let bytes = link.held().unwrap_or(0) as u64;
    Held {
        bytes,
        others: if link.is_admitted() { 0 } else { bytes },
    }
}

// So many bytes, or as many as can be counted.
fn counted(bytes: u64) -> usize {
    usize::try_from(bytes).unwrap_or(usize::MAX)
}

// What a connection waits for.
fn phase<K: front::Clock + Drop, S: Service + Drop>(link: &SocketLink<'_, K, S>) -> Phase {
    if link.is_between() {
        return Phase::Idle;
    }
    if link.wants_write() {
        return Phase::Reply;
    }
    if link.held().is_some() {
        return Phase::Body;
    }
    Phase::Head
}

// What a connection is polled for.
fn interest<K: front::Clock + Drop, S: Service + Drop>(link: &SocketLink<'_, K, S>) -> Interest {
    if link.wants_write() {
        Interest::WRITABLE
    } else {
        Interest::READABLE
    }
}

impl<'a, R: Wait + Drop, C: Clock + Drop, K: front::Clock + Drop, S: Service + Drop> Gate<
    'a,
    R,
    C,
    K,
    S,
> {
    /// How much time has passed. If the clock fails, none has.
    pub(crate) fn now(&self) -> Duration {
        self.clock.monotonic().unwrap_or(Duration::ZERO)
    }

    // How many bytes an unfinished body may have, if it had so many when it waited last, and whether a long reply may be made. Bodies that
    // the route of their request is not known to admit share a quarter of the room, so whoever has no key cannot take all of it.
    fn rooms(&self, held: Held, replies: bool) -> Rooms {
        let all = self.held.load(Ordering::SeqCst).saturating_sub(held.bytes);
        let others = self
            .others
            .load(Ordering::SeqCst)
            .saturating_sub(held.others);
        let left = self.limits.bodies.saturating_sub(all);
        let quarter = (self.limits.bodies / 4).saturating_sub(others);
        Rooms {
            admitted: counted(left),
            others: counted(left.min(quarter)),
            replies,
        }
    }

    // Notes how many bytes of a body the connection of a place has now.
    fn hold(&self, place: &mut LinkPlace<'a, K, S>, held: Held) {
        self.held.fetch_add(held.bytes, Ordering::SeqCst);
        self.others.fetch_add(held.others, Ordering::SeqCst);
        self.held.fetch_sub(place.held.bytes, Ordering::SeqCst);
        self.others.fetch_sub(place.held.others, Ordering::SeqCst);
        place.held = held;
    }

    // Notes how many bytes the long reply has of the connection of a place. Returns whether room was given back: then, once the place is not
    // locked, it has to be handed out.
    fn hold_reply(&self, place: &mut LinkPlace<'a, K, S>, bytes: u64) -> bool {
        let before = place.reply;
        if before.bytes == 0 && bytes == 0 {
            return false;
        }
        let is_admitted = before.bytes > 0 && before.others == 0;
        let others = if is_admitted { 0 } else { bytes };
        place.reply = Held { bytes, others };
        self.waits
            .lock(&self.rt)
            .exchange(before, Held { bytes, others });
        bytes < before.bytes
    }

    /// Hands a place to the next worker that is free.
    pub(crate) fn queue(&self, place: &mut LinkPlace<'a, K, S>, index: usize) {
        place.queued = self.now();
        place.is_queued = self.ready.push(&self.rt, index);
    }

    // A connection as one with which a worker begins to stay, and which room it has.
    fn begin_stay(
        &self,
        link: SocketLink<'a, K, S>,
        held: Held,
        has_room: bool,
    ) -> Taken<SocketLink<'a, K, S>> {
        link.reader().socket.stay.begin();
        if has_room {
            link.reader().socket.stay.give_room();
        }
        Taken::Link(link, self.rooms(held, has_room))
    }

    /// Takes what is in a place, for a worker.
    pub(crate) fn take(&self, index: usize) -> Taken<SocketLink<'a, K, S>> {
        let Some(place) = self.places.get(index) else {
            return Taken::Nothing;
        };
        let mut place = place.lock(&self.rt);
        let place = &mut *place;
        place.is_queued = false;
        match mem::replace(&mut place.content, Content::Busy) {
            Content::Idle(link) => self.begin_stay(link.wake(), place.held, false),
            Content::Waiting(link) => self.begin_stay(Box::into_inner(link), place.held, false),
            Content::Awaiting(link) => {
                let has_room = place.reply.bytes > 0;
                self.begin_stay(Box::into_inner(link), place.held, has_room)
            }
            Content::Lingering(lingering) => Taken::Lingering(lingering),
            content => {
                place.content = content;
                Taken::Nothing
            }
        }
    }

    /// Has the poller report when a descriptor is ready, also if it is ready now.
    pub(crate) fn poll_again(&self, descriptor: RawFd, token: usize, interest: Interest) -> bool {
        self.registry
            .reregister(&mut SourceFd(&descriptor), Token(token), interest)
            .is_ok()
    }

    /// Takes back a connection that waits. If it waits for room for its reply, and there is room, it is gone on with at once.
    pub(crate) fn park(&self, link: SocketLink<'a, K, S>) {
        if !link.awaits_room() {
            return self.keep(link);
        }
        let Some(rooms) = self.begin_reply(link.reader().socket.index) else {
            self.await_room(link);
            // What it held before was given back, and there may be room by now.
            return self.hand_out();
        };
        link.reader().socket.stay.give_room();
        match go_on(self.alloc, link, rooms) {
            Ok(link) => self.keep(link),
            Err(over) => self.end(over),
        }
    }

    // Takes room for a long reply of the connection of a place. Returns which room it has then. `None` if there is no room, or if somebody
    // waits for it.
    fn begin_reply(&self, index: usize) -> Option<Rooms> {
        let mut place = self.places.get(index)?.lock(&self.rt);
        let place = &mut *place;
        place.reply = self.waits.lock(&self.rt).begin(place.reply);
        if place.reply.bytes == 0 {
            return None;
        }
        Some(self.rooms(place.held, true))
    }

    // Lets a connection wait for room, unless there is no room for the body of its request either. Only now the service is asked whether its
    // route may admit it.
    fn await_room(&self, link: SocketLink<'a, K, S>) {
        let index = link.reader().socket.index;
        if !self.has_body_room(index, held(&link)) {
            return self.starve(link);
        }
        let phase = if link.may_admit(self.alloc) {
            Phase::Room
        } else {
            Phase::OthersRoom
        };
        match Box::new(self.alloc, link) {
            Ok(link) => self.enter_queue(index, phase, link),
            Err(failed) => self.await_starved(index, phase, failed.value),
        }
    }

    // Whether there is room for the body of a request that waits for room for its reply.
    fn has_body_room(&self, index: usize, held: Held) -> bool {
        match self.places.get(index) {
            Some(place) => {
                let rooms = self.rooms(place.lock(&self.rt).held, false);
                counted(held.bytes) <= rooms.others
            }
            None => false,
        }
    }

    // Lets a connection wait for room after memory ran out for that. It is tried once more, since the service may have given memory up.
    fn await_starved(&self, index: usize, phase: Phase, link: SocketLink<'a, K, S>) {
        link.starved(self.alloc);
        match Box::new(self.alloc, link) {
            Ok(link) => self.enter_queue(index, phase, link),
            Err(failed) => self.starve(failed.value),
        }
    }

    // Puts a connection that waits for room into its place, and the place at the end of its queue. Who takes the place out of the queue finds
    // the connection, since the place is locked until the connection is there. No event for it is heard meanwhile, and its time does not run.
    fn enter_queue(&self, index: usize, phase: Phase, link: Box<SocketLink<'a, K, S>>) {
        let Some(place) = self.places.get(index) else {
            return;
        };
        let (held, counts) = (held(&*link), counts(link.reader(), link.writer()));
        let mut place = place.lock(&self.rt);
        let place = &mut *place;
        self.hold(place, held);
        let _anew = place.timer.note(phase, counts, self.now());
        place.content = Content::Awaiting(link);
        self.waits.lock(&self.rt).order.begin(index, phase);
    }

    /// Hands connections that wait for room for their replies to workers, as long as there is room. No place may be locked by the caller.
    ///
    /// Each thread that gives room back calls this afterwards, and so does each that put a connection into a queue. So no connection waits
    /// while there is room.
    pub(crate) fn hand_out(&self) {
        for _ in self.rt.forever() {
            let Some((index, reply)) = self.next_awaiting() else {
                return;
            };
            self.grant(index, reply);
        }
    }

    // The place that waits first and for which there is room, and what it holds from now on.
    fn next_awaiting(&self) -> Option<(usize, Held)> {
        let mut waits = self.waits.lock(&self.rt);
        let next = waits.next();
        self.ready.note_room(waits.has_waiting());
        next
    }

    // Hands a connection to a worker that has room for its reply now. If it was ended in the meantime, the room is given back.
    fn grant(&self, index: usize, reply: Held) {
        let Some(place) = self.places.get(index) else {
            return;
        };
        let mut place = place.lock(&self.rt);
        let place = &mut *place;
        if matches!(place.content, Content::Awaiting(_)) && !place.is_queued {
            place.reply = reply;
            self.queue(place, index);
        } else {
            self.waits.lock(&self.rt).exchange(reply, Held::nothing());
        }
    }

    // Puts a connection that waits for its peer into its place, or ends it if it was waited for too long.
    fn keep(&self, link: SocketLink<'a, K, S>) {
        let waiting = Waiting {
            index: link.reader().socket.index,
            token: link.reader().socket.token,
            phase: phase(&link),
            counts: counts(link.reader(), link.writer()),
            held: held(&link),
            reply: link.long_reply() as u64,
            interest: interest(&link),
            waited: link.reader().socket.stay.waited(),
        };
        if self.is_late(&waiting) {
            return self.give_up(link);
        }
        match link.rest(self.alloc) {
            Ok(link) => self.put(&waiting, Content::Idle(link)),
            Err(link) => match Box::new(self.alloc, link) {
                Ok(link) => self.put(&waiting, Content::Waiting(link)),
                Err(failed) => self.put_starved(&waiting, failed.value),
            },
        }
    }

    // Puts a connection that waits into its place after memory ran out for that. It is tried once more, since the service may have given memory up.
    fn put_starved(&self, waiting: &Waiting, link: SocketLink<'a, K, S>) {
        link.starved(self.alloc);
        match Box::new(self.alloc, link) {
            Ok(link) => self.put(waiting, Content::Waiting(link)),
            Err(failed) => self.starve(failed.value),
        }
    }

    // Notes what a connection waits for after a stay. Returns whether it was waited for too long. The time from which on it had something
    // to do is left out, unless the worker waited for the peer.
    fn is_late(&self, waiting: &Waiting) -> bool {
        let now = self.now();
        let Some(place) = self.places.get(waiting.index) else {
            return false;
        };
        let mut place = place.lock(&self.rt);
        let place = &mut *place;
        if place.timer.note(waiting.phase, waiting.counts, now) {
            self.waits
                .lock(&self.rt)
                .order
                .begin(waiting.index, waiting.phase);
            return false;
        }
        let owed = now.saturating_sub(place.queued);
        place.timer.leave_out(owed.saturating_sub(waiting.waited));
        let keeps_room = self.keeps_room(place);
        !place.timer.tried(waiting.counts, now)
            && place
                .timer
                .is_late(waiting.counts, now, &self.limits, keeps_room)
    }

    /// Whether another connection waits for the room that the reply of a place takes, or a newcomer for the place.
    pub(crate) fn keeps_room(&self, place: &LinkPlace<'a, K, S>) -> bool {
        self.is_full.load(Ordering::SeqCst) || place.reply.bytes > 0 && self.ready.is_room_awaited()
    }

    // Puts a connection that waits into its place. If its reply has less room than before, the rest is handed out.
    fn put(&self, waiting: &Waiting, content: LinkContent<'a, K, S>) {
        if self.put_polled(waiting, content) {
            self.hand_out();
        }
    }

    // Puts a connection that waits into its place. What came in the meantime is reported, since the place is locked until the
    // connection is there. Returns whether room was given back.
    fn put_polled(&self, waiting: &Waiting, content: LinkContent<'a, K, S>) -> bool {
        let Some(place) = self.places.get(waiting.index) else {
            return false;
        };
        let mut place = place.lock(&self.rt);
        let place = &mut *place;
        self.hold(place, waiting.held);
        let gives_back = self.hold_reply(place, waiting.reply);
        let polled = self.poll_again(place.descriptor, waiting.token, waiting.interest);
        place.content = content;
        if !polled && !place.is_queued {
            // Nobody else would wake it.
            self.queue(place, waiting.index);
        }
        gives_back
    }

    /// Reads what a peer still sends, and closes its connection once nothing more comes.
    pub(crate) fn read_on(&self, mut lingering: Lingering) {
        if !lingering.read_on(self.now()) {
            return self.close(lingering.socket.index, lingering);
        }
        if self.linger(lingering) {
            self.hand_out();
        }
    }

    // Puts a connection into its place of which only what its peer still sends is read. Returns whether room was given back.
    fn linger(&self, lingering: Lingering) -> bool {
        let (index, token) = (lingering.socket.index, lingering.socket.token);
        let Some(place) = self.places.get(index) else {
            return false;
        };
        let mut place = place.lock(&self.rt);
        let place = &mut *place;
        self.hold(place, Held::nothing());
        let gives_back = self.hold_reply(place, 0);
        // It gives way to no newcomer.
        self.waits.lock(&self.rt).order.remove(index);
        // If it cannot be polled, it is closed when it was silent for too long.
        let _polled = self.poll_again(place.descriptor, token, Interest::READABLE);
        place.content = Content::Lingering(lingering);
        gives_back
    }

    // Empties a place. An event for the connection that was there is no event for the next one. Returns whether room was given back.
    fn clear(&self, index: usize) -> bool {
        let Some(place) = self.places.get(index) else {
            return false;
        };
        let mut place = place.lock(&self.rt);
        let place = &mut *place;
        self.hold(place, Held::nothing());
        let gives_back = self.hold_reply(place, 0);
        place.token = place.token.wrapping_add(crate::place::SPAN);
        place.descriptor = -1;
        place.content = Content::Empty;
        self.waits.lock(&self.rt).order.remove(index);
        gives_back
    }

    /// Closes a connection, and gives its place to the next one.
    pub(crate) fn close<T: Drop>(&self, index: usize, connection: T) {
        let gives_back = self.clear(index);
        drop(connection);
        if gives_back {
            self.hand_out();
        }
        let was_full = self.put_back(index);
        let left = self.connections.fetch_sub(1, Ordering::SeqCst);
        if left == 1 && self.is_closed.load(Ordering::SeqCst) {
            self.ready.close(&self.rt);
            let _woken = self.waker.wake();
        } else if was_full {
            let _woken = self.waker.wake();
        }
    }

    /// Notes that a place is empty. Returns whether it is the only one.
    pub(crate) fn put_back(&self, index: usize) -> bool {
        let mut empty = self.empty.lock(&self.rt);
        let was_full = empty.is_empty();
        // There is room for each place.
        let _pushed = empty.push(index);
        was_full
    }

    /// Ends a connection for which memory ran out. If no reply was begun, its peer is told so.
    pub(crate) fn starve(&self, link: SocketLink<'a, K, S>) {
        if !link.wants_write() {
            turn_away(self.alloc, &link.reader().socket.stream);
        }
        self.give_up(link);
    }

    /// Ends a connection that waited too long: its next read or write fails, and no long reply is made.
    pub(crate) fn give_up(&self, link: SocketLink<'a, K, S>) {
        let index = link.reader().socket.index;
        link.reader().socket.give_up();
        let rooms = Rooms {
            admitted: usize::MAX,
            others: usize::MAX,
            replies: false,
        };
        match go_on(self.alloc, link, rooms) {
            Ok(link) => self.close(index, link),
            Err(over) => self.end(over),
        }
    }
}
