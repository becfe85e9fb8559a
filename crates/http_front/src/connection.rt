//! One connection: what was read of it, and what was written to it.
ghost use Rattle.std.specs.Prelude.{◌≡◌, ◌≢◌, true, false, ◌+◌, ◌*◌, ◌<◌, ◌≤◌, [], ◌++◌, Ok, Err, IfOk, OnOk, IfErr, OnErr, IsOkUnless, None, length, take, drop};
ghost use Rattle.request_form.specs.HeadForms.{with_body};
ghost use Rattle.http_front.specs.Admissions.{ReadsAdmitted, admitted_by, item_admitted};
ghost use Rattle.http_front.specs.Connections.{fresh_connection, IsTold, ConnectionState, GivesByte, GivesBytes, GivesUp, IsOpen, Leaves, LeavesRead, LeavesTry};
ghost use Rattle.http_front.specs.Connections.{LeavesWriter, ReadsOn, Sends, SendsFront, StopsWriting};
ghost use Rattle.http_front.specs.HeadEnds.{IsSearched};
ghost use Rattle.http_front.specs.Inputs.{IsFoundInBuffer, LeavesAwaited};
ghost use Rattle.http_front.specs.Stages.{IsCallOf, IsPartial, IsShort, LeavesBody, LeavesFound, ReadsFound, Suspends, TakesWork, item_work};
ghost use Rattle.http_front.specs.Streams.{HasHead, interim};
ghost use Rattle.http_front.specs.declared.admission.Admission.{Admission};
ghost use Rattle.http_front.specs.declared.counted.Input.{Input};
ghost use Rattle.http_front.specs.declared.counted.Output.{Output};
ghost use Rattle.http_front.specs.declared.counted.Came.{Came};
ghost use Rattle.http_front.specs.declared.end.FrontFault.{FrontFault};
ghost use Rattle.http_front.specs.declared.item.Awaited.{Awaited};
ghost use Rattle.http_front.specs.declared.item.PartialItem.{PartialItem};

use crate::admission::Admission;
use crate::buffer::Buffer;
use crate::counted::{Came, CountedReader, CountedWriter};
use crate::end::FrontFault;
use crate::head_end::Search;
use crate::item::{Asking, Awaited, Begun, Call, Found, NextItem, PartialItem};
use crate::library::{StdReader, StdWriter};
use crate::pending::Pending;
use crate::service::Service;
use reply_form::interim_reply;
use request_form::{HEAD_LIMIT, Head, HeadFault, no_head, read_head};
use stamp_types::{Gathering, Request};
use std::alloc::{AllocError, Global};
use std::io::{Read, Write};
use std::marker::Model;

/// One connection: its reader, its writer, and the bytes that came and are not taken yet.
///
/// Reads and writes are made by this type alone. So it knows why one of them was the last.
#[derive(Drop)]
pub struct Connection<R: Read, W: Write> {
    reader: CountedReader<StdReader<R>>,
    writer: CountedWriter<StdWriter<W>>,
    buffer: Buffer,
}

impl<R: Read, W: Write> Model for Connection<R, W> {
    ghost use Rattle.http_front.specs.Connections.{ConnectionState};

    ghost Value = { ConnectionState };

    ghost view = { λ c. record { reader = c.reader; writer = c.writer; bytes = c.buffer } };
}

// Moves bytes from the front of the buffer to a body: as many as the body misses, or all.
fn deal(body: &mut Gathering, buffer: &mut Buffer, missing: u64) -> Result<(), AllocError>
    ensures body { OnOk result (body.new ≡ body.old ++ take missing buffer.old) }
    ensures rest { OnOk result (buffer.new ≡ drop missing buffer.old) }
    ensures refused { OnErr result ((body.new ≡ body.old) × (buffer.new ≡ buffer.old)) }
{
    let here = missing.min(buffer.len() as u64) as usize;
    body.push(&buffer.as_slice()[..here])?;
    buffer.skip(here);
    Ok(())
}

// The request that a head and its body make.
fn request_of(alloc: Global, head: Head, body: Gathering) -> Result<Request, FrontFault>
    requires { length body ≡ head.body_len }
    ensures request { IfOk result (λ request. request ≡ with_body head body) }
    ensures fault { IsOkUnless result FrontFault.NoMemory }
{
    match body.finish(alloc) {
        Ok(body) => Ok(head.with_body(body)),
        Err(_) => {
            drop(head);
            Err(FrontFault::NoMemory)
        }
    }
}

// The request that a head and its body make, as an item.
fn join(alloc: Global, head: Head, body: Gathering) -> Result<Found, FrontFault>
    requires { length body ≡ head.body_len }
    ensures { IsCallOf head body result }
{
    let verb = head.verb();
    let closes = head.closes();
    let request = request_of(alloc, head, body)?;
    Ok(Found::Whole(NextItem::Called(Call {
        request,
        verb,
        closes,
    })))
}

// The interim reply, if the head asks for it (RFC 9110, section 10.1.1).
#[tactic(auto, unfolding(crate::specs::Streams::interim))]
fn interim_of(head: &Head) -> &'static [u8]
    ensures { result.now ≡ interim head.now }
{
    if head.expects() { interim_reply() } else { b"" }
}

impl<R: Read, W: Write> Connection<R, W> {
    /// A connection on which nothing was read or written. At most `turns` reads are made on it, and one read asks for at most 8,192
    /// bytes. The call takes no memory.
    pub fn new(alloc: Global, reader: R, writer: W, turns: u64) -> Self
        ensures { result ≡ fresh_connection (R.remaining reader) turns (W.contents writer) }
    {
        Self {
            reader: CountedReader::new(StdReader::new(reader), turns),
            writer: CountedWriter::new(StdWriter::new(writer)),
            buffer: Buffer::new(alloc),
        }
    }

    /// The reader. Its reads are made by this connection alone.
    pub fn reader(&self) -> &R
        ensures { R.remaining result.now ≡ self.now.reader.left }
    {
        self.reader.inner().inner()
    }

    /// The writer. Its writes are made by this connection alone.
    pub fn writer(&self) -> &W
        ensures { W.contents result.now ≡ self.now.writer.held }
    {
        self.writer.inner().inner()
    }

    /// Gives the room for bytes back if no byte is in it. The next read takes new room.
    pub fn rest(&mut self, alloc: Global)
        ensures { self.new ≡ self.old }
    {
        self.buffer.rest(alloc);
    }

    /// Gives the reader and the writer back. Bytes that came and were not taken are lost.
    pub fn into_parts(self) -> (R, W)
        ensures { (R.remaining result.0 ≡ self.reader.left) × (W.contents result.1 ≡ self.writer.held) }
    {
        (
            self.reader.into_inner().into_inner(),
            self.writer.into_inner().into_inner(),
        )
    }

    /// Says that how far input and output have come is what the calls of the reader and of the writer say. Does nothing.
    pub fn keeps_marks(&self)
        ensures { IsTold self.now }
    {
        self.reader.keeps_mark();
        self.writer.keeps_mark();
    }

    /// The bytes that came and are not taken yet.
    pub fn unread(&self) -> &[u8]
        ensures { result.now ≡ self.now.bytes }
    {
        self.buffer.as_slice()
    }

    /// Writes all of the bytes.
    ///
    /// `Write` if a write fails, or if the writer takes nothing now. Then no more is written.
    pub fn send(&mut self, bytes: &[u8]) -> Result<(), FrontFault>
        requires { self.old.writer.output ≢ Output.Failed }
        ensures sent { Sends self.old.writer self.new.writer bytes.now }
        ensures unread { (self.new.reader ≡ self.old.reader) × (self.new.bytes ≡ self.old.bytes) }
        ensures ok { OnOk result (self.new.writer.output ≢ Output.Failed) }
        ensures failed { OnErr result (self.new.writer.output ≡ Output.Failed) }
        ensures fault { IsOkUnless result FrontFault.Write }
    {
        self.writer.send(bytes)
    }

    /// Flushes what was written.
    ///
    /// `Write` if the flush fails, or if it would have to wait.
    pub fn flush(&mut self) -> Result<(), FrontFault>
        requires { self.old.writer.output ≢ Output.Failed }
        ensures unwritten { Sends self.old.writer self.new.writer [] }
        ensures unread { (self.new.reader ≡ self.old.reader) × (self.new.bytes ≡ self.old.bytes) }
        ensures flushed { OnOk result (self.new.writer.output ≡ Output.Flushed) }
        ensures still { self.old.writer.output ≡ Output.Flushed → self.new ≡ self.old }
        ensures failed { OnErr result (self.new.writer.output ≡ Output.Failed) }
        ensures fault { IsOkUnless result FrontFault.Write }
    {
        self.writer.flush()
    }

    // Sees to it that a read may be made. The writer is flushed before the read, since the client may wait for what was written.
    fn take_turn(&mut self) -> Result<(), FrontFault>
        requires { IsOpen self.old }
        ensures unread { (self.new.reader ≡ self.old.reader) × (self.new.bytes ≡ self.old.bytes) }
        ensures unwritten { Sends self.old.writer self.new.writer [] }
        ensures flushed { OnOk result (self.new.writer.output ≡ Output.Flushed) }
        ensures still { self.old.writer.output ≡ Output.Flushed → self.new ≡ self.old }
        ensures some { OnOk result (0 < self.new.reader.turns) }
        ensures left { Leaves result self.new }
    {
        if !self.reader.has_turns() {
            return Err(FrontFault::Turns);
        }
        self.flush()
    }

    /// Reads once, and returns what came. It came after the bytes that are not taken yet.
    ///
    /// `Turns` if all reads that are allowed were made, `Write` if a flush before the read fails, `Read` if the read fails, and
    /// `NoMemory` if memory runs out before the read.
    pub fn try_fill(&mut self) -> Result<Came, FrontFault>
        requires { IsOpen self.old }
        ensures read { ReadsOn self.old self.new self.old.bytes self.new.bytes }
        ensures came { GivesBytes result self.old.bytes self.new.bytes }
        ensures still { self.old.writer.output ≡ Output.Flushed → self.new.writer ≡ self.old.writer }
        ensures failed { result ≡ Err FrontFault.Read → self.new.reader.input ≡ Input.Failed }
        ensures left { LeavesTry result self.new }
    {
        self.take_turn()?;
        self.reader.read_to_buffer(&self.writer, &mut self.buffer)
    }

    /// Notes that what the reader has not now is not waited for. That is as if a read had failed.
    pub fn give_up(&mut self)
        requires open { (self.old.reader.input ≡ Input.Open) × (0 < self.old.reader.turns) }
        requires waits { self.old.reader.told.waits ≡ true }
        ensures gave_up { GivesUp self.old.reader self.new.reader }
        ensures still { (self.new.writer ≡ self.old.writer) × (self.new.bytes ≡ self.old.bytes) }
    {
        self.reader.give_up();
    }

    /// Notes that what the writer does not take now is not waited for. That is as if a write had failed.
    pub fn give_up_writing(&mut self)
        requires open { self.old.writer.output ≢ Output.Failed }
        requires waits { self.old.writer.told.waits ≡ true }
        ensures gave_up { StopsWriting self.old.writer self.new.writer }
        ensures still { (self.new.reader ≡ self.old.reader) × (self.new.bytes ≡ self.old.bytes) }
    {
        self.writer.give_up();
    }

    /// Reads once, and returns whether a byte came. It came after the bytes that are not taken yet. If the reader has nothing now, that
    /// is as if the read had failed.
    ///
    /// `Turns` if all reads that are allowed were made, `Write` if a flush before the read fails, `Read` if the read fails, and
    /// `NoMemory` if memory runs out before the read.
    #[tactic(auto, using(crate::proofs::ConnectionLemmas::given_up_on))]
    pub fn fill(&mut self) -> Result<bool, FrontFault>
        requires { IsOpen self.old }
        ensures read { ReadsOn self.old self.new self.old.bytes self.new.bytes }
        ensures came { GivesByte result self.old.bytes self.new.bytes }
        ensures still { self.old.writer.output ≡ Output.Flushed → self.new.writer ≡ self.old.writer }
        ensures failed { result ≡ Err FrontFault.Read → self.new.reader.input ≡ Input.Failed }
        ensures left { LeavesRead result self.new }
    {
        match self.try_fill()? {
            Came::Bytes => Ok(true),
            Came::End => Ok(false),
            Came::Nothing => {
                self.give_up();
                Err(FrontFault::Read)
            }
        }
    }

    // Reads until a head is whole, until no head can come, or until nothing comes now. No byte is searched twice, however the bytes are
    // cut into reads.
    fn await_head(&mut self, search: &mut Search) -> Result<Awaited, FrontFault>
        requires open { IsOpen self.old }
        requires searched { IsSearched search.old self.old.bytes }
        ensures read { ReadsOn self.old self.new self.old.bytes self.new.bytes }
        ensures head { IsFoundInBuffer result self.new.bytes }
        ensures searched { result ≡ Ok Awaited.Nothing → IsSearched search.new self.new.bytes }
        ensures cut { result ≡ Err FrontFault.Read → self.new.reader.input ≡ Input.Ended →
            self.new.bytes ≢ [] }
        ensures left { LeavesAwaited result self.new }
    {
        loop {
            if let Some(n) = search.look(self.buffer.as_slice()) {
                return Ok(Awaited::Head(n));
            }
            if self.buffer.len() > HEAD_LIMIT {
                return Ok(Awaited::TooLong);
            }
            match self.try_fill()? {
                Came::Bytes => {}
                Came::End if self.buffer.is_empty() => return Ok(Awaited::End),
                Came::End => return Err(FrontFault::Read),
                Came::Nothing => return Ok(Awaited::Nothing),
            }
        }
    }

    // Reads once for the body, and returns what came. The bytes after the body stay in the buffer.
    fn gather(&mut self, body: &mut Gathering, missing: u64) -> Result<Came, FrontFault>
        requires open { IsOpen self.old }
        requires missing { 0 < missing }
        requires none { self.old.bytes ≡ [] }
        ensures read { ReadsOn self.old self.new (body.old ++ self.old.bytes) (body.new ++ self.new.bytes) }
        ensures still { result ≢ Ok Came.Bytes → result ≢ Err FrontFault.NoMemory →
            (body.new ≡ body.old) × (self.new.bytes ≡ []) }
        ensures grown { result ≡ Ok Came.Bytes → length body.old < length body.new }
        ensures size { OnOk result (length body.new ≤ length body.old + missing) }
        ensures waiting { OnOk result
            (length body.new < length body.old + missing → self.new.bytes ≡ []) }
        ensures left { LeavesTry result self.new }
    {
        let came = self.try_fill()?;
        deal(body, &mut self.buffer, missing)?;
        Ok(came)
    }

    // Reads until the body is whole, and makes no read after that. Returns whether it is whole: if not, nothing comes now.
    fn await_body(&mut self, body: &mut Gathering, body_len: u64) -> Result<bool, FrontFault>
        requires open { IsOpen self.old }
        requires short { IsShort body_len body.old self.old.bytes }
        ensures read { ReadsOn self.old self.new (body.old ++ self.old.bytes) (body.new ++ self.new.bytes) }
        ensures whole { result ≡ Ok true → length body.new ≡ body_len }
        ensures short { result ≡ Ok false → (length body.new < body_len) × (self.new.bytes ≡ []) }
        ensures cut { IfErr result (λ fault. fault ≢ FrontFault.NoMemory →
            length (body.new ++ self.new.bytes) < body_len) }
        ensures left { LeavesBody result self.new }
    {
        loop {
            let missing = body_len - body.len() as u64;
            if missing == 0 {
                return Ok(true);
            }
            match self.gather(body, missing)? {
                Came::Bytes => {}
                Came::End => return Err(FrontFault::Read),
                Came::Nothing => return Ok(false),
            }
        }
    }

    // Takes the head and what came of its body off the front. The body gets its whole room here, so its bytes are never moved.
    fn take_start(
        &mut self,
        alloc: Global,
        count: usize,
        body_len: u64,
    ) -> Result<Gathering, FrontFault>
        requires { count ≤ length self.old.bytes }
        ensures body { IfOk result (λ body. body ≡ take body_len (drop count self.old.bytes)) }
        ensures rest { OnOk result (self.new.bytes ≡ drop body_len (drop count self.old.bytes)) }
        ensures unread { (self.new.reader ≡ self.old.reader) × (self.new.writer ≡ self.old.writer) }
        ensures fault { IsOkUnless result FrontFault.NoMemory }
    {
        let here = body_len.min((self.buffer.len() - count) as u64) as usize;
        let mut body = Gathering::with_room(alloc, body_len as usize)?;
        body.push(&self.buffer.as_slice()[count..count + here])?;
        self.buffer.skip(count + here);
        Ok(body)
    }

    // Writes the bytes until all of them are taken, or until the writer takes nothing now. Returns how many were taken.
    fn send_on(&mut self, bytes: &[u8]) -> Result<usize, FrontFault>
        requires { IsOpen self.old }
        ensures taken { IfOk result (λ n. (n ≤ length bytes.now)
            × Sends self.old.writer self.new.writer (take n bytes.now)) }
        ensures waits { IfOk result (λ n. n < length bytes.now → self.new.writer.told.waits ≡ true) }
        ensures cut { OnErr result (Sends self.old.writer self.new.writer bytes.now) }
        ensures unread { (self.new.reader ≡ self.old.reader) × (self.new.bytes ≡ self.old.bytes) }
        ensures left { Leaves result self.new }
        ensures fault { IsOkUnless result FrontFault.Write }
    {
        self.writer.send_on(bytes)
    }

    /// Writes on at a reply until all of it is taken, or until the writer takes nothing now. Returns whether all is taken.
    pub(crate) fn send_pending(&mut self, pending: &mut Pending) -> Result<bool, FrontFault>
        requires { self.old.writer.output ≢ Output.Failed }
        ensures sent { IfOk result (λ _. SendsFront self.old.writer self.new.writer pending.old pending.new) }
        ensures whole { result ≡ Ok true → pending.new ≡ [] }
        ensures waits { result ≡ Ok false → (pending.new ≢ []) × (self.new.writer.told.waits ≡ true) }
        ensures cut { OnErr result (Sends self.old.writer self.new.writer pending.old) }
        ensures unread { (self.new.reader ≡ self.old.reader) × (self.new.bytes ≡ self.old.bytes) }
        ensures left { LeavesWriter result self.new.writer }
        ensures fault { IsOkUnless result FrontFault.Write }
    {
        pending.send_on(&mut self.writer)
    }

    // Gives the room of the buffer back if no byte is in it.
    fn give_room_back(&mut self, alloc: Global)
        ensures { self.new ≡ self.old }
    {
        if self.buffer.is_empty() {
            self.buffer = Buffer::new(alloc);
        }
    }

    // Takes a head off the buffer that is at the front, and what came of its body. Takes nothing if memory is too short for the request.
    fn begin<S: Service>(
        &mut self,
        alloc: Global,
        service: &S,
        head: Head,
        count: usize,
    ) -> Result<Begun, FrontFault>
        requires { HasHead self.old.bytes count head }
        ensures begun { IfOk result (λ begun.
            (begun.head ≡ head) × (begun.body ++ self.new.bytes ≡ drop count self.old.bytes)
            × IsShort head.body_len begun.body self.new.bytes) }
        ensures unjudged { IfOk result (λ begun. begun.admission ≡ Admission.Unjudged) }
        ensures unread { (self.new.reader ≡ self.old.reader) × (self.new.writer ≡ self.old.writer) }
        ensures fault { IsOkUnless result FrontFault.NoMemory }
    {
        if service.is_short_for(alloc, head.ask().op) {
            drop(head);
            return Err(FrontFault::NoMemory);
        }
        let body = self.take_start(alloc, count, head.body_len())?;
        Ok(Begun {
            head,
            body,
            admission: Admission::Unjudged,
        })
    }

    // Reads the rest of a body.
    fn next_in_body(&mut self, alloc: Global, begun: Begun) -> Result<Found, FrontFault>
        requires open { IsOpen self.old }
        requires short { IsShort begun.head.body_len begun.body self.old.bytes }
        ensures read { (from : ConnectionState) → Suspends from (PartialItem.InBody begun) self.old → ReadsFound result from self.new }
        ensures less { TakesWork result (item_work (PartialItem.InBody begun) self.old) self.new }
        ensures admitted { ReadsAdmitted (admitted_by begun.admission begun.head.ask) result }
        ensures left { LeavesFound result self.new }
    {
        let Begun {
            head,
            mut body,
            admission,
        } = begun;
        let body_len = head.body_len();
        match self.await_body(&mut body, body_len) {
            Ok(true) => join(alloc, head, body),
            Ok(false) => Ok(Found::Waits(PartialItem::InBody(Begun {
                head,
                body,
                admission,
            }))),
            Err(fault) => {
                drop(head);
                Err(fault)
            }
        }
    }

    // Writes the rest of the interim reply, and then reads the body.
    fn next_in_interim(&mut self, alloc: Global, asking: Asking) -> Result<Found, FrontFault>
        requires open { IsOpen self.old }
        requires partial { IsPartial (PartialItem.Asking asking) self.old }
        ensures read { (from : ConnectionState) → Suspends from (PartialItem.Asking asking) self.old → ReadsFound result from self.new }
        ensures less { TakesWork result (item_work (PartialItem.Asking asking) self.old) self.new }
        ensures admitted { ReadsAdmitted (admitted_by asking.begun.admission asking.begun.head.ask) result }
        ensures left { LeavesFound result self.new }
    {
        let Asking { begun, taken } = asking;
        let rest = &interim_of(&begun.head)[taken..];
        let count = match self.send_on(rest) {
            Ok(count) => count,
            Err(fault) => {
                drop(begun);
                return Err(fault);
            }
        };
        if count < rest.len() {
            let taken = taken + count;
            return Ok(Found::Waits(PartialItem::Asking(Asking { begun, taken })));
        }
        self.next_in_body(alloc, begun)
    }

    // Reads on in a head, and then in its body.
    fn next_in_head<S: Service>(
        &mut self,
        alloc: Global,
        service: &S,
        mut search: Search,
    ) -> Result<Found, FrontFault>
        requires open { IsOpen self.old }
        requires searched { IsSearched search self.old.bytes }
        ensures read { (from : ConnectionState) → Suspends from (PartialItem.InHead search) self.old → ReadsFound result from self.new }
        ensures less { TakesWork result (item_work (PartialItem.InHead search) self.old) self.new }
        ensures admitted { ReadsAdmitted None result }
        ensures left { LeavesFound result self.new }
    {
        let count = match self.await_head(&mut search)? {
            Awaited::Head(count) => count,
            Awaited::TooLong => return Ok(Found::Whole(NextItem::Refused(no_head()))),
            Awaited::End => return Ok(Found::End),
            Awaited::Nothing => {
                self.give_room_back(alloc);
                return Ok(Found::Waits(PartialItem::InHead(search)));
            }
        };
        let head = match read_head(alloc, &self.buffer.as_slice()[..count]) {
            Ok(head) => head,
            Err(HeadFault::Denied(denial)) => {
                return Ok(Found::Whole(NextItem::Refused(denial)));
            }
            Err(HeadFault::NoMemory) => return Err(FrontFault::NoMemory),
        };
        let begun = self.begin(alloc, service, head, count)?;
        self.next_in_interim(alloc, Asking { begun, taken: 0 })
    }

    /// Reads the next item from where it has come to on, and takes a request off the buffer.
    pub(crate) fn next_item<S: Service>(
        &mut self,
        alloc: Global,
        service: &S,
        item: PartialItem,
    ) -> Result<Found, FrontFault>
        requires open { IsOpen self.old }
        requires partial { IsPartial item self.old }
        ensures read { (from : ConnectionState) → Suspends from item self.old → ReadsFound result from self.new }
        ensures less { TakesWork result (item_work item self.old) self.new }
        ensures admitted { ReadsAdmitted (item_admitted item) result }
        ensures left { LeavesFound result self.new }
    {
        match item {
            PartialItem::InHead(search) => self.next_in_head(alloc, service, search),
            PartialItem::Asking(asking) => self.next_in_interim(alloc, asking),
            PartialItem::InBody(begun) => self.next_in_body(alloc, begun),
        }
    }
}
