//! The places of connections, and how long each is waited for.
ghost use Rattle.std.specs.Prelude.{◌≡◌};

use crate::limits::Limits;
use crate::lingering::Lingering;
use std::os::fd::RawFd;
use std::time::Duration;

/// Tokens of one place are so far apart: as many as there are places at most.
pub(crate) const SPAN: usize = 16_384;

/// After so many seconds a write is tried of a reply that waits. From then on all of the system's room is taken, and more of the reply goes
/// only if its peer takes some.
const TRIED: u64 = 1;

/// Over so many spans a reply is looked at. A client may take a part at once and then rest: curl that may read 50 KiB a second takes up to
/// 5 MB, and rests for 100 seconds.
const SPANS: u32 = 12;

/// Over so many spans a reply is looked at while another connection waits for the room of a long reply that it has, or a newcomer for its place.
const SHORT_SPANS: u32 = 2;

/// What a connection waits for.
#[derive(Clone, Copy, Debug, PartialEq, Eq)]
pub(crate) enum Phase {
    /// The first byte of a request.
    Idle,
    /// The rest of a head.
    Head,
    /// The rest of a body.
    Body,
    /// That more of a reply is taken.
    Reply,
    /// That there is room for the reply to a request that its route may admit.
    Room,
    /// That there is room for any other reply.
    OthersRoom,
}

/// How many bytes of a connection were received, and how many were sent.
#[derive(Clone, Copy, Debug, PartialEq, Eq)]
pub(crate) struct Counts {
    pub(crate) received: u64,
    pub(crate) sent: u64,
}

/// How many bytes of a body or of a long reply are held for a connection, and how many of them for a request that its route is not known to
/// admit.
#[derive(Clone, Copy, Debug)]
pub(crate) struct Held {
    pub(crate) bytes: u64,
    pub(crate) others: u64,
}

impl Held {
    /// No byte.
    pub(crate) const fn nothing() -> Self {
        Self {
            bytes: 0,
            others: 0,
        }
    }
}

/// Since when a connection waits for something.
#[derive(Clone, Copy, Debug)]
pub(crate) struct Timer {
    pub(crate) phase: Phase,
    pub(crate) since: Duration,
    counts: Counts,
    /// How often its time began anew since the connection began to wait for this: once a write was tried, and each time enough bytes were
    /// received or sent.
    renewed: u32,
}

/// What is in a place.
#[derive(Drop)]
pub(crate) enum Content<L: Drop, I: Drop> {
    /// No connection.
    Empty,
    /// A worker has the connection.
    Busy,
    /// A connection that waits for a request.
    Idle(I),
    /// A connection that waits for the rest of a request, or for its peer to take a reply.
    Waiting(Box<L>),
    /// A connection that waits for room for its reply, or was given room and waits for a worker. Its peer is not waited for.
    Awaiting(Box<L>),
    /// A connection that ended, and whose peer may still send.
    Lingering(Lingering),
}

/// A place for a connection.
#[derive(Drop)]
pub(crate) struct Place<L: Drop, I: Drop> {
    /// The token of the connection that is here, or of the next one.
    pub(crate) token: usize,
    pub(crate) descriptor: RawFd,
    pub(crate) timer: Timer,
    /// How many bytes its body had when it waited last.
    pub(crate) held: Held,
    /// How many bytes it has of the room of long replies.
    pub(crate) reply: Held,
    /// Whether a worker was told of the place and has not come yet.
    pub(crate) is_queued: bool,
    /// When a worker was told of the place last.
    pub(crate) queued: Duration,
    pub(crate) content: Content<L, I>,
}

impl Timer {
    /// A connection of which nothing came yet.
    pub(crate) fn new(start: Duration) -> Self
        ensures { result.since ≡ start }
    {
        Self {
            phase: Phase::Idle,
            since: start,
            counts: Counts {
                received: 0,
                sent: 0,
            },
            renewed: 0,
        }
    }

    /// Notes what the connection waits for. The time goes on if it already waited for that. Returns whether the time begins anew.
    pub(crate) fn note(&mut self, phase: Phase, counts: Counts, now: Duration) -> bool {
        let goes_on = match phase {
            Phase::Idle => counts.received == self.counts.received,
            // No item was answered since then.
            Phase::Head => counts.sent == self.counts.sent,
            Phase::Body | Phase::Reply => true,
            Phase::Room | Phase::OthersRoom => false,
        };
        if phase == self.phase && goes_on {
            return false;
        }
        *self = Self {
            phase,
            since: now,
            counts,
            renewed: 0,
        };
        true
    }

    /// Leaves a time out in which the peer was not waited for.
    pub(crate) fn leave_out(&mut self, owed: Duration) {
        self.since = self.since.saturating_add(owed);
    }

    // Begins the time anew.
    fn renew(&mut self, counts: Counts, now: Duration) {
        self.since = now;
        self.counts = counts;
        self.renewed = self.renewed.saturating_add(1);
    }

    /// Notes that a write of a reply was tried, if it was the first one after a second. Returns whether it was.
    pub(crate) fn tried(&mut self, counts: Counts, now: Duration) -> bool {
        let is_first = self.phase == Phase::Reply
            && self.renewed == 0
            && now.saturating_sub(self.since) >= Duration::from_secs(TRIED);
        if is_first {
            self.renew(counts, now);
        }
        is_first
    }

    /// Whether the connection was waited for too long, or a write of its reply has to be tried. If enough bytes of a body or a reply were received or sent, its time begins anew.
    ///
    /// `keeps_room` says whether somebody waits for the room that its reply takes, or for its place.
    pub(crate) fn is_late(
        &mut self,
        counts: Counts,
        now: Duration,
        limits: &Limits,
        keeps_room: bool,
    ) -> bool {
        let passed = now.saturating_sub(self.since);
        match self.phase {
            Phase::Idle => passed >= limits.idle,
            Phase::Head => passed >= limits.head,
            Phase::Body => passed >= limits.span && !self.moves(counts, now, limits.rate),
            // It waits for us.
            Phase::Room | Phase::OthersRoom => false,
            Phase::Reply => {
                if self.renewed == 0 {
                    return passed >= Duration::from_secs(TRIED);
                }
                let spans = if keeps_room { SHORT_SPANS } else { SPANS };
                let rate = limits.rate.saturating_mul(u64::from(spans));
                passed >= limits.span.saturating_mul(spans) && !self.moves(counts, now, rate)
            }
        }
    }

    // Whether so many bytes were received or sent since the time began. Then it begins anew.
    fn moves(&mut self, counts: Counts, now: Duration, rate: u64) -> bool {
        let received = counts.received.wrapping_sub(self.counts.received);
        let sent = counts.sent.wrapping_sub(self.counts.sent);
        let moves = received.saturating_add(sent) >= rate;
        if moves {
            self.renew(counts, now);
        }
        moves
    }
}

impl<L: Drop, I: Drop> Place<L, I> {
    /// An empty place.
    pub(crate) fn new(index: usize) -> Self {
        Self {
            token: index,
            descriptor: -1,
            timer: Timer::new(Duration::ZERO),
            held: Held::nothing(),
            reply: Held::nothing(),
            is_queued: false,
            queued: Duration::ZERO,
            content: Content::Empty,
        }
    }
}
