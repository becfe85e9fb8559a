//! The service of a connection.
ghost use Rattle.std.specs.Prelude.{◌≡◌, IfOk, OnErr};
ghost use Rattle.served_history.specs.Connections.{AreOfOneHistory};
ghost use Rattle.served_history.specs.Histories.{IsServed};

use crate::admission::is_admissible;
use crate::posting::post;
use crate::reserve::Reserve;
use crate::slots::Slots;
use audit_lines::Books;
use http_front::{Service, brings_content};
use range_rows::Reading;
use served_history::{Account, LogFront};
use stamp_types::{Ask, Moment, Op, Reply, Request};
use std::alloc::{AllocError, Global};
use std::sync::Wait;

/// The service of one connection: the slots, and what the connection knows of their history.
#[derive(Drop)]
pub struct SlotsService<'a, A: Account, R: Wait> {
    rt: &'a R,
    slots: &'a Slots<A>,
    known: LogFront<A>,
    // Where the entries of the requests are posted, if entries are made.
    books: Option<&'a Books>,
    // What is given up if memory runs out.
    reserve: Option<&'a Reserve>,
}

impl<'a, A: Account, R: Wait> SlotsService<'a, A, R> {
    /// A connection that knows this of the history.
    pub fn new(rt: &'a R, slots: &'a Slots<A>, known: LogFront<A>) -> Self
        ensures { result.known ≡ known }
    {
        Self::audited(rt, slots, known, None)
    }

    /// The same, with books in which each request is entered that was let in and names a container. Without books no entry is made.
    pub fn audited(
        rt: &'a R,
        slots: &'a Slots<A>,
        known: LogFront<A>,
        books: Option<&'a Books>,
    ) -> Self
        ensures { result.known ≡ known }
    {
        Self {
            rt,
            slots,
            known,
            books,
            reserve: None,
        }
    }

    /// The same, with a reserve that it gives up if memory runs out. A connection without a reserve refuses no request for its sake.
    pub fn with_reserve(self, reserve: &'a Reserve) -> Self
        ensures { result.known ≡ self.entry.known }
    {
        Self {
            rt: self.rt,
            slots: self.slots,
            known: self.known,
            books: self.books,
            reserve: Some(reserve),
        }
    }

    /// What the connection knows of the history.
    pub fn known(&self) -> &LogFront<A>
        ensures { result.now ≡ self.now.known }
    {
        &self.known
    }

    /// Ends the connection, and gives what it knows of the history.
    pub fn into_known(self) -> LogFront<A>
        ensures { result ≡ self.entry.known }
    {
        self.known
    }
}

impl<'a, A: Account, R: Wait> SlotsService<'a, A, R> {
    // Gives the reserve up, if there is one. Returns whether it was held.
    fn give_up_reserve(&self) -> bool {
        match self.reserve {
            Some(reserve) => reserve.give_up(self.rt),
            None => false,
        }
    }

    // Whether there is a reserve that is not held.
    fn is_short(&self) -> bool {
        match self.reserve {
            Some(reserve) => !reserve.is_held(),
            None => false,
        }
    }

    // Whether there is a reserve that is not held and cannot be taken again. Before that is said, the slots give up their garbage: if clients send
    // nothing but content, no other request has it collected.
    fn lacks_reserve(&self, alloc: Global) -> bool {
        let Some(reserve) = self.reserve else {
            return false;
        };
        if reserve.is_held() || reserve.take_again(self.rt, alloc) {
            return false;
        }
        !self.slots.collect(self.rt, alloc) || !reserve.take_again(self.rt, alloc)
    }

    // The reply to a request, and its entry.
    //
    // `AllocError` if memory runs out. Then the connection knows what it knew.
    fn answer_once(
        &mut self,
        alloc: Global,
        request: &Request,
        moment: Moment,
    ) -> Result<Reply, AllocError>
        ensures answered { IfOk result (λ reply. IsServed self.old.known request.now moment reply self.new.known) }
        ensures same { OnErr result (self.new.known ≡ self.old.known) }
    {
        let reading = Reading::of(alloc, request)?;
        let is_audited = self.books.is_some();
        let Ok(ready) = self
            .slots
            .ready(self.rt, alloc, request, moment, is_audited)
        else {
            drop(reading);
            return Err(AllocError);
        };
        let mut known = self.known.again();
        let told = self.slots.serve(self.rt, alloc, &mut known, &ready, reading, self.is_short())?;
        let (reply, entry) = told.fetch()?;
        post(self.rt, self.books, entry);
        self.known = known;
        Ok(reply)
    }
}

impl<'a, A: Account, R: Wait> Service for SlotsService<'a, A, R> {
    ghost use Rattle.std.specs.Prelude.{List};
    ghost use Rattle.served_history.specs.declared.entry.Entry.{Entry};
    ghost use Rattle.served_history.specs.Histories.{IsServed, IsUnchanged};
    ghost use Rattle.served_slots.specs.Admissions.{IsAdmissible};

    ghost World = { List Entry };

    ghost world = { λ s. s.known };

    ghost answers = { IsServed };

    ghost starves = { IsUnchanged };

    ghost admits = { IsAdmissible };

    /// The reply of the model after all entries of the history before the request, whatever slots made them. The history goes on from what the
    /// connection knew, and the request is then the last entry that the connection knows.
    ///
    /// The signature is judged and the body is read before a lock is taken. After the locks are given back, bytes of sealed extents are fetched,
    /// and the entry of the audit book is posted.
    ///
    /// If memory runs out, the reserve is given up, and the request is tried once more. If the reserve was gone before, a request that brings
    /// content is not tried again. If memory runs out again for a request that brings no content, the slots give up their garbage, and it is tried a
    /// third time: a deletion frees memory, so it should not be refused for want of a little.
    ///
    /// `AllocError` if memory runs out. Then the connection knows what it knew. If it runs out for these bytes, the request is an entry that changes
    /// nothing, and the connection does not know it.
    fn answer(
        &mut self,
        alloc: Global,
        request: Request,
        moment: Moment,
    ) -> Result<Reply, AllocError> {
        let op = request.ask().op;
        if self.is_short_for(alloc, op) {
            return Err(AllocError);
        }
        if let Ok(reply) = self.answer_once(alloc, &request, moment) {
            return Ok(reply);
        }
        let was_held = self.give_up_reserve();
        if brings_content(op) && !was_held {
            return Err(AllocError);
        }
        if let Ok(reply) = self.answer_once(alloc, &request, moment) {
            return Ok(reply);
        }
        if brings_content(op) || !self.slots.collect(self.rt, alloc) {
            return Err(AllocError);
        }
        self.answer_once(alloc, &request, moment)
    }

    /// Whether the signature of a request that asks this is true under the pair of keys in force.
    ///
    /// `AllocError` if memory runs out.
    fn may_admit(&self, alloc: Global, ask: &Ask) -> Result<bool, AllocError> {
        is_admissible(self.rt, alloc, self.slots, ask)
    }

    /// Whether the operation brings content, and there is a reserve that is not held and cannot be taken again.
    fn is_short_for(&self, alloc: Global, op: Op) -> bool {
        brings_content(op) && self.lacks_reserve(alloc)
    }

    /// Gives the reserve up.
    fn starved(&self, _alloc: Global) {
        let _was_held = self.give_up_reserve();
    }
}

/// What two connections of the same slots know are beginnings of one history.
pub fn two_connections_agree<A: Account, R: Wait>(
    one: &SlotsService<'_, A, R>,
    other: &SlotsService<'_, A, R>,
)
    ensures { AreOfOneHistory one.now.known other.now.known }
{
    served_history::two_connections_agree(one.known(), other.known());
}
