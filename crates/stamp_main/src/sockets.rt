//! The connections of `serve`: each gets a clock, and a service over slots that it shares with the others.
ghost use Rattle.std.specs.Prelude.{◌≡◌, ◌+◌, ◌∷◌, [], MatchBool};
ghost use Rattle.std.specs.Thread.{IsSend};
ghost use Rattle.served_history.specs.declared.entry.Entry.TheVariants.{Opened};

use crate::audit::Audit;
use crate::console::Console;
use crate::machine::Machine;
use crate::sweeper::{Bell, sweep_until};
use access_rules::Keys;
use audit_lines::{Books, write_books};
use served_history::{Account, LogFront, NewHistory};
use served_slots::{Operator, Reserve, Slots, SlotsService};
use slot_state::PairsFault;
use socket_gate::{Limits, Services, serve_listener};
use stamp_types::Text;
use std::alloc::Global;
use std::io::{ErrorKind, Read, Write};
use std::net::{Net, TcpListener};
use std::sync::atomic::{AtomicBool, Ordering};
use std::sync::{Mutex, Wait};
use std::thread::Threads;
use std::time::Clock;
use std::{io, thread};

/// Makes the services of a number of connections, which share slots and a reserve of memory. Each begins with what the history begins with. If there
/// are books, each service enters the requests that it let in and that name a container.
#[derive(Drop)]
pub(crate) struct SlotServices<'a, A: Account, R: Wait, C: Clock> {
    rt: &'a R,
    clock: &'a C,
    slots: &'a Slots<A>,
    books: Option<&'a Books>,
    reserve: &'a Reserve,
    first: LogFront<A>,
    // How many connections may still be taken.
    left: Mutex<u64>,
}

/// The start of a server: a new history, the first key pairs of its accounts, and the account whose keys an operator replaces.
#[derive(Drop)]
pub(crate) struct Opening {
    pub(crate) history: NewHistory,
    pub(crate) pairs: Vec<Keys>,
    pub(crate) account: Text,
}

/// How connections are taken: of this listener, by so many workers at once, within these limits, and so many in all.
#[derive(Drop)]
pub(crate) struct Intake<'a> {
    pub(crate) listener: &'a TcpListener,
    pub(crate) workers: usize,
    pub(crate) limits: Limits,
    pub(crate) connections: u64,
}

/// What the operator and the connections share, with what their history begins with.
#[derive(Drop)]
pub(crate) struct Common<'a, A: Account> {
    pub(crate) alloc: Global,
    pub(crate) slots: &'a Slots<A>,
    pub(crate) reserve: &'a Reserve,
    pub(crate) first: LogFront<A>,
    pub(crate) account: Text,
}

// Why slots could not be made, as an error of input or output.
fn error_of(fault: PairsFault) -> io::Error {
    match fault {
        PairsFault::NotFirst | PairsFault::Twice => io::Error::from(ErrorKind::InvalidInput),
        PairsFault::NoMemory => io::Error::from(ErrorKind::OutOfMemory),
    }
}

/// Serves connections, and obeys the lines of a console meanwhile, by which the keys of the account are replaced. The accounts of the first key pairs
/// have no containers at first. A connection that is beyond the limits ends. With an audit, a line of each request that was let in and names a
/// container goes to its writer.
///
/// It ends before that if the listener fails for good, and then when the lines are written. The error says why it could not begin.
pub(crate) fn serve_on<
    A: Account + Send + Sync,
    R: Net + Threads + Wait + Sync,
    C: Clock + Sync,
    L: Read + Drop + Send,
    O: Write + Drop + Send,
    W: Write + Drop + Send,
>(
    rt: &R,
    clock: &C,
    alloc: Global,
    opening: Opening,
    intake: &Intake<'_>,
    console: &mut Console<L, O>,
    audit: &mut Option<Audit<W>>,
) -> io::Result<()>
    requires book { opening.history.book ≡ A.history }
    requires fresh { opening.history.next ≡ 0 }
    requires log { opening.history.log ≡ Opened opening.pairs.items ∷ [] }
{
    let Opening {
        history,
        pairs,
        account,
    } = opening;
    let (slots, first) = match Slots::<A>::new(alloc, pairs, history) {
        Ok(made) => made,
        Err(fault) => return Err(error_of(fault)),
    };
    let reserve = Reserve::new(alloc);
    let common = Common {
        alloc,
        slots: &slots,
        reserve: &reserve,
        first,
        account,
    };
    match audit {
        Some(Audit { books, writer }) => {
            serve_and_write(rt, clock, common, books, writer, intake, console)
        }
        None => serve_by(rt, clock, common, intake, console),
    }
}

// The same by slots without books, with what their history begins with. What is borrowed has one lifetime, since operator and services hold it.
fn serve_by<
    'a,
    A: Account + Send + Sync,
    R: Net + Threads + Wait + Sync,
    C: Clock + Sync,
    L: Read + Drop + Send,
    O: Write + Drop + Send,
>(
    rt: &'a R,
    clock: &'a C,
    common: Common<'a, A>,
    intake: &Intake<'_>,
    console: &mut Console<L, O>,
) -> io::Result<()> {
    let Common {
        alloc,
        slots,
        reserve,
        first,
        account,
    } = common;
    let mut operator = Operator::new(rt, slots, account, first.again());
    let left = intake.connections;
    let services = SlotServices::new(rt, clock, slots, None, reserve, first, left);
    serve_and_obey(rt, clock, alloc, &mut operator, &services, intake, console)
}

// The same with books, whose lines go to a writer until serving has ended and they are written.
//
// If a write fails, serving goes on: the same bytes are tried again, and entries are dropped meanwhile. If no thread can be made for the writer,
// lines are written only after serving has ended.
fn serve_and_write<
    'a,
    A: Account + Send + Sync,
    R: Net + Threads + Wait + Sync,
    C: Clock + Sync,
    L: Read + Drop + Send,
    O: Write + Drop + Send,
    W: Write + Drop + Send,
>(
    rt: &'a R,
    clock: &'a C,
    common: Common<'a, A>,
    books: &'a Books,
    writer: &mut W,
    intake: &Intake<'_>,
    console: &mut Console<L, O>,
) -> io::Result<()> {
    let Common {
        alloc,
        slots,
        reserve,
        first,
        account,
    } = common;
    let mut operator = Operator::new(rt, slots, account, first.again());
    let left = intake.connections;
    let services = SlotServices::new(rt, clock, slots, Some(books), reserve, first, left);
    let ended = AtomicBool::new(false);
    let (_, served) = thread::join(
        rt,
        || write_books(rt, clock, alloc, books, writer, &ended),
        || -> io::Result<()>
            requires { IsSend A.row × IsSend L.row × IsSend O.row }
        {
            let served = serve_and_obey(
                rt,
                clock,
                alloc,
                &mut operator,
                &services,
                intake,
                console,
            );
            ended.store(true, Ordering::SeqCst);
            served
        },
    );
    served
}

// Serves connections by these services, and lets the operator obey the lines of a console until serving has ended. Rings the bell then.
fn serve_attended<
    'a,
    A: Account + Send + Sync,
    R: Net + Threads + Wait + Sync,
    C: Clock + Sync,
    L: Read + Drop + Send,
    O: Write + Drop + Send,
>(
    rt: &'a R,
    clock: &'a C,
    alloc: Global,
    operator: &mut Operator<'a, A, R>,
    services: &SlotServices<'a, A, R, C>,
    intake: &Intake<'_>,
    console: &mut Console<L, O>,
    bell: &Bell,
) -> io::Result<()> {
    let listener = intake.listener;
    let workers = intake.workers;
    let limits = intake.limits;
    let is_over = AtomicBool::new(false);
    let (_, served) = thread::join(
        rt,
        || console.attend(rt, operator, alloc, &is_over),
        || {
            let served = serve_listener(rt, clock, alloc, listener, workers, services, limits);
            is_over.store(true, Ordering::SeqCst);
            bell.ring(rt);
            served
        },
    );
    served
}

/// Serves connections by these services, lets the operator obey the lines of a console, and sweeps the slots that are to be swept, until serving has
/// ended. If no thread can be made for the sweeps, only requests that write make steps of sweeps.
pub(crate) fn serve_and_obey<
    'a,
    A: Account + Send + Sync,
    R: Net + Threads + Wait + Sync,
    C: Clock + Sync,
    L: Read + Drop + Send,
    O: Write + Drop + Send,
>(
    rt: &'a R,
    clock: &'a C,
    alloc: Global,
    operator: &mut Operator<'a, A, R>,
    services: &SlotServices<'a, A, R, C>,
    intake: &Intake<'_>,
    console: &mut Console<L, O>,
) -> io::Result<()> {
    let slots = services.slots;
    let reserve = services.reserve;
    let bell = Bell::new();
    let (_, served) = thread::join(
        rt,
        || sweep_until(rt, clock, alloc, slots, reserve, &bell),
        || -> io::Result<()>
            requires { IsSend A.row × IsSend L.row × IsSend O.row }
        { serve_attended(rt, clock, alloc, operator, services, intake, console, &bell) },
    );
    served
}

// Takes one of the connections that are left. Returns whether one was left.
fn take_one(left: &mut u64) -> bool
    ensures { MatchBool result (left.old ≡ left.new + 1) ((left.old ≡ 0) × (left.new ≡ 0)) }
{
    if *left == 0 {
        return false;
    }
    *left -= 1;
    true
}

impl<'a, A: Account, R: Wait, C: Clock> SlotServices<'a, A, R, C> {
    /// The services of so many connections, each of which begins with this front.
    pub(crate) fn new(
        rt: &'a R,
        clock: &'a C,
        slots: &'a Slots<A>,
        books: Option<&'a Books>,
        reserve: &'a Reserve,
        first: LogFront<A>,
        connections: u64,
    ) -> Self {
        SlotServices {
            rt,
            clock,
            slots,
            books,
            reserve,
            first,
            left: Mutex::new(connections),
        }
    }
}

impl<'a, A: Account, R: Wait, C: Clock> Services<Machine<'a, C>, SlotsService<'a, A, R>>
    for SlotServices<'a, A, R, C> {
    fn make(&self) -> Option<(Machine<'a, C>, SlotsService<'a, A, R>)> {
        if !take_one(&mut self.left.lock(self.rt)) {
            return None;
        }
        let service = SlotsService::audited(self.rt, self.slots, self.first.again(), self.books);
        Some((Machine::new(self.clock), service.with_reserve(self.reserve)))
    }
}
