//! Callers of a stamp, and a wire that waits.
ghost use Rattle.std.specs.Prelude.{⊤};

use crate::samples::{key, pairs};
use extent_node::{Delivery, Node, Script, Wire};
use http_front::Service;
use slot_pass::{AfterFault, Pass};
use stamp_locks::Stamp;
use stamp_types::{Moment, Reply, Request};
use std::alloc::{AllocError, Global};
use std::process::Abort;
use std::sync::Wait;
use std::sync::atomic::{AtomicUsize, Ordering};
use std::thread;
use tickets::{Answer, Ticket};

// How often a wire that waits looks whether it may go on.
const LOOKS: u32 = 10_000_000;

/// A wire that never fails.
pub(crate) fn steady(alloc: Global) -> Script {
    Script::new(alloc, Vec::new(alloc), Vec::new(alloc))
}

/// What a wire that waits and the other thread tell each other.
#[derive(Drop)]
pub(crate) struct Signs {
    /// Not 0: the wire may go on.
    pub(crate) open: AtomicUsize,
    /// 1: the wire waits, or waited. 2: it gave up.
    pub(crate) waits: AtomicUsize,
}

impl Signs {
    /// Signs by which the wire need not wait.
    pub(crate) fn new() -> Self {
        Self {
            open: AtomicUsize::new(1),
            waits: AtomicUsize::new(0),
        }
    }

    /// From now on the wire waits.
    pub(crate) fn close(&self) {
        self.open.store(0, Ordering::SeqCst);
    }

    /// The wire may go on.
    pub(crate) fn reopen(&self) {
        self.open.store(1, Ordering::SeqCst);
    }

    // Whether the number is not 0 in the end.
    fn becomes(number: &AtomicUsize) -> bool {
        for _look in 0..LOOKS {
            if number.load(Ordering::SeqCst) != 0 {
                return true;
            }
            thread::yield_now();
        }
        false
    }

    /// Whether the wire waits in the end.
    pub(crate) fn wire_waits(&self) -> bool {
        Self::becomes(&self.waits)
    }

    // Waits until the wire may go on, and tells if it gives up.
    fn wait(&self) {
        if self.open.load(Ordering::SeqCst) != 0 {
            return;
        }
        self.waits.store(1, Ordering::SeqCst);
        if !Self::becomes(&self.open) {
            self.waits.store(2, Ordering::SeqCst);
        }
    }

    /// Whether the wire waited, and did not give up.
    pub(crate) fn waited(&self) -> bool {
        self.waits.load(Ordering::SeqCst) == 1
    }
}

/// A wire that never fails. If it has signs, each put waits until they are open.
#[derive(Drop)]
pub(crate) struct Waiting<'a> {
    pub(crate) script: Script,
    pub(crate) signs: Option<&'a Signs>,
}

impl<'a> Wire for Waiting<'a> {
    ghost calls = { λ w. w.script.calls };

    ghost faults = { λ w. w.script.faults };

    fn put(&mut self, node: Node) -> Delivery {
        if let Some(signs) = self.signs {
            signs.wait();
        }
        self.script.put(node)
    }

    fn ask(&mut self, node: Node) -> bool {
        self.script.ask(node)
    }
}

/// A caller of a stamp, who goes by a pass, or by no pass. Tickets are fetched at once over a wire of the caller, or kept.
#[derive(Drop)]
pub(crate) struct Caller<'a, R: Wait, W: Wire + Drop> {
    rt: &'a R,
    stamp: &'a Stamp<W>,
    wire: Script,
    pub(crate) pass: Option<Pass>,
    pub(crate) fault: Option<AfterFault>,
    pub(crate) keeps: bool,
    pub(crate) kept: Option<Ticket>,
}

impl<'a, R: Wait, W: Wire + Drop> Caller<'a, R, W> {
    /// A caller without a pass.
    pub(crate) fn new(rt: &'a R, alloc: Global, stamp: &'a Stamp<W>) -> Self {
        Self {
            rt,
            stamp,
            wire: steady(alloc),
            pass: None,
            fault: None,
            keeps: false,
            kept: None,
        }
    }

    // The answer by this pass; `AllocError` if the stamp does not answer by it.
    fn by_pass(
        &mut self,
        alloc: Global,
        pass: Pass,
        request: &Request,
        moment: Moment,
    ) -> Result<Answer, AllocError> {
        if !request.ask().key.same(pass.key()) {
            self.pass = Some(pass);
            return Err(AllocError);
        }
        match self
            .stamp
            .handle_after(self.rt, alloc, pass, request, moment)
        {
            Ok((answer, pass)) => {
                self.pass = Some(pass);
                Ok(answer)
            }
            Err((pass, fault)) => {
                self.pass = Some(pass);
                self.fault = Some(fault);
                Err(AllocError)
            }
        }
    }

    // The reply of a ticket, or `AllocError` if the ticket is kept.
    fn fetched(&mut self, ticket: Ticket) -> Result<Reply, AllocError> {
        if self.keeps {
            self.kept = Some(ticket);
            return Err(AllocError);
        }
        ticket.fetch(&mut self.wire).map_err(|_| AllocError)
    }
}

impl<'a, R: Wait, W: Wire + Drop> Service for Caller<'a, R, W> {
    ghost World = { ⊤ };

    ghost world = { λ s. tt };

    ghost answers = { λ old asked moment reply new. ⊤ };

    ghost starves = { λ old new. ⊤ };

    fn answer(
        &mut self,
        alloc: Global,
        request: Request,
        moment: Moment,
    ) -> Result<Reply, AllocError> {
        let answer = match self.pass.take() {
            Some(pass) => self.by_pass(alloc, pass, &request, moment)?,
            None => self.stamp.handle(self.rt, alloc, &request, moment),
        };
        match answer {
            Answer::Done(reply) => Ok(reply),
            Answer::Later(ticket) => self.fetched(ticket),
            Answer::NoMemory => Err(AllocError),
        }
    }
}

/// A caller with a new pass of this container.
pub(crate) fn caller_of<'a, R: Wait + Abort, W: Wire + Drop>(
    rt: &'a R,
    alloc: Global,
    stamp: &'a Stamp<W>,
    container: &str,
) -> Caller<'a, R, W> {
    let mut caller = Caller::new(rt, alloc, stamp);
    caller.pass = Some(Pass::new(alloc, key(rt, alloc, container)));
    caller
}

/// How many entries the front of the caller's pass has.
pub(crate) fn front_len<R: Wait, W: Wire + Drop>(caller: &Caller<'_, R, W>) -> usize {
    match &caller.pass {
        Some(pass) => pass.front().len(),
        None => 0,
    }
}

/// A stamp of the account, without containers. No call of its wire fails.
pub(crate) fn empty_stamp(rt: &impl Abort, alloc: Global) -> Stamp<Script> {
    Stamp::new(alloc, pairs(rt, alloc), steady(alloc)).expect(rt, "first pairs")
}
