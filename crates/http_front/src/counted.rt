//! A reader whose reads are counted, and a writer. Each keeps in mind how its last call ended.
ghost use Rattle.std.specs.Prelude.{◌≡◌, ◌≢◌, ◌↔◌, ◌<◌, ◌≤◌, true, [], Ok, Err, IfOk, OnOk, OnErr, IsOkUnless, IsTrue, length, take};
ghost use Rattle.std.specs.Io.KnownBytes.{Appends, Keeps};
ghost use Rattle.http_front.specs.Calls.{IsMarkedInput, IsMarkedOutput, no_reads, no_writes};
ghost use Rattle.http_front.specs.Connections.{GivesUp, ReadsOnce, Sends, StopsWriting};
ghost use Rattle.http_front.specs.declared.incoming.Missed.{Missed};
ghost use Rattle.http_front.specs.declared.counted.Input.{Input};
ghost use Rattle.http_front.specs.declared.counted.Output.{Output};
ghost use Rattle.http_front.specs.declared.end.FrontFault.{FrontFault};

use crate::buffer::{Buffer, Unread};
use crate::end::FrontFault;
use crate::incoming::{Incoming, Missed};
use crate::outgoing::Outgoing;
use std::marker::Model;

/// How many times a write is made at most, if each is interrupted.
const WRITES: u32 = 1024;

/// How far the input of a connection has come.
#[derive(Clone, Copy, PartialEq, Eq)]
pub enum Input {
    /// More bytes may come.
    Open,
    /// The reader is at its end.
    Ended,
    /// A read failed.
    Failed,
}

/// How far the output of a connection has come.
#[derive(Clone, Copy, PartialEq, Eq)]
pub enum Output {
    /// All bytes that were written are flushed.
    Flushed,
    /// Bytes were written after the last flush.
    Pending,
    /// A write or a flush failed.
    Failed,
}

/// What one read came to.
#[derive(Clone, Copy, PartialEq, Eq)]
pub enum Came {
    /// At least one byte came.
    Bytes,
    /// The reader is at its end.
    End,
    /// The reader has nothing now, and may have bytes later.
    Nothing,
}

/// A writer. How far the output has come is what its calls say.
#[derive(Drop)]
pub(crate) struct CountedWriter<W: Outgoing> {
    writer: W,
    output: Output,
}

impl<W: Outgoing> Model for CountedWriter<W> {
    ghost use Rattle.http_front.specs.Calls.{IsMarkedOutput};
    ghost use Rattle.http_front.specs.Connections.{WriterState};

    ghost Value = { WriterState };

    ghost view = { λ w. record { held = W.held w.writer; told = W.told w.writer; output = w.output } };

    ghost invariant = { λ w. IsMarkedOutput w.output (W.told w.writer) };
}

/// A reader. No read is made but those that it counts. How far the input has come is what its reads say.
#[derive(Drop)]
pub(crate) struct CountedReader<R: Incoming> {
    reader: R,
    turns: u64,
    input: Input,
}

impl<R: Incoming> Model for CountedReader<R> {
    ghost use Rattle.http_front.specs.Calls.{IsMarkedInput};
    ghost use Rattle.http_front.specs.Connections.{ReaderState};

    ghost Value = { ReaderState };

    ghost view = { λ r. record { left = R.left r.reader; told = R.told r.reader; turns = r.turns; input = r.input } };

    ghost invariant = { λ r. IsMarkedInput r.input (R.told r.reader) };
}

impl<R: Incoming> CountedReader<R> {
    /// A reader of which at most `turns` reads are made.
    pub(crate) fn new(reader: R, turns: u64) -> Self
        requires { R.told reader ≡ no_reads }
        ensures { result ≡ record { left = R.left reader; told = no_reads; turns = turns; input = Input.Open } }
    {
        Self {
            reader,
            turns,
            input: Input::Open,
        }
    }

    /// The reader.
    pub(crate) fn inner(&self) -> &R
        ensures { R.left result.now ≡ self.now.left }
    {
        &self.reader
    }

    /// Gives the reader back.
    pub(crate) fn into_inner(self) -> R
        ensures { R.left result ≡ self.left }
    {
        self.reader
    }

    /// Says that how far the input has come is what the reads say. Does nothing.
    pub(crate) fn keeps_mark(&self)
        ensures { IsMarkedInput self.now.input self.now.told }
    {
        let _input = self.input;
    }

    /// Whether a read may still be made.
    pub(crate) fn has_turns(&self) -> bool
        ensures { IsTrue result ↔ (0 < self.now.turns) }
    {
        self.turns > 0
    }

    /// Notes that what the reader has not now is not waited for. That is as if the last read had failed.
    pub(crate) fn give_up(&mut self)
        requires open { (self.old.input ≡ Input.Open) × (0 < self.old.turns) }
        requires waits { self.old.told.waits ≡ true }
        ensures { GivesUp self.old self.new }
    {
        self.turns -= 1;
        self.input = Input::Failed;
    }

    /// Reads once, and puts the bytes after those of the buffer. A read that has nothing now takes no turn.
    pub(crate) fn read_to_buffer<W: Outgoing>(
        &mut self,
        written: &CountedWriter<W>,
        buffer: &mut Buffer,
    ) -> Result<Came, FrontFault>
        requires may_read { (self.old.input ≡ Input.Open) × (0 < self.old.turns) }
        requires flushed { written.now.output ≡ Output.Flushed }
        ensures { ReadsOnce result self.old self.new buffer.old buffer.new }
    {
        match buffer.read_from(&mut self.reader) {
            Ok(0) => {
                self.turns -= 1;
                self.input = Input::Ended;
                Ok(Came::End)
            }
            Ok(_) => {
                self.turns -= 1;
                Ok(Came::Bytes)
            }
            Err(Unread::Waits) => Ok(Came::Nothing),
            Err(Unread::Failed) => {
                self.turns -= 1;
                self.input = Input::Failed;
                Err(FrontFault::Read)
            }
            Err(Unread::NoMemory) => Err(FrontFault::NoMemory),
        }
    }
}

impl<W: Outgoing> CountedWriter<W> {
    /// A writer to which nothing was written.
    pub(crate) fn new(writer: W) -> Self
        requires { W.told writer ≡ no_writes }
        ensures { result ≡ record { held = W.held writer; told = no_writes; output = Output.Flushed } }
    {
        Self {
            writer,
            output: Output::Flushed,
        }
    }

    /// The writer.
    pub(crate) fn inner(&self) -> &W
        ensures { W.held result.now ≡ self.now.held }
    {
        &self.writer
    }

    /// Gives the writer back.
    pub(crate) fn into_inner(self) -> W
        ensures { W.held result ≡ self.held }
    {
        self.writer
    }

    /// Says that how far the output has come is what the writes and flushes say. Does nothing.
    pub(crate) fn keeps_mark(&self)
        ensures { IsMarkedOutput self.now.output self.now.told }
    {
        let _output = self.output;
    }

    /// Flushes the writer if bytes were written after the last flush.
    pub(crate) fn flush(&mut self) -> Result<(), FrontFault>
        requires { self.old.output ≢ Output.Failed }
        ensures unwritten { Sends self.old self.new [] }
        ensures flushed { OnOk result (self.new.output ≡ Output.Flushed) }
        ensures still { self.old.output ≡ Output.Flushed → self.new ≡ self.old }
        ensures failed { OnErr result (self.new.output ≡ Output.Failed) }
        ensures fault { IsOkUnless result FrontFault.Write }
    {
        if self.output == Output::Pending {
            if self.writer.flush().is_err() {
                self.output = Output::Failed;
                return Err(FrontFault::Write);
            }
            self.output = Output::Flushed;
        }
        Ok(())
    }

    // Writes once, and returns how many bytes were taken: at least one. A write that was interrupted, or that would have to wait, is not
    // noted.
    fn write_once(&mut self, bytes: &[u8]) -> Result<usize, Missed>
        requires open { self.old.output ≢ Output.Failed }
        requires some { 0 < length bytes.now }
        ensures written { IfOk result (λ n. (0 < n) × (n ≤ length bytes.now)
            × Appends self.old.held self.new.held (take n bytes.now)) }
        ensures output { OnOk result (self.new.output ≡ Output.Pending) }
        ensures unwritten { OnErr result (Keeps self.old.held self.new.held) }
        ensures waits { OnErr result (result ≢ Err Missed.Failed →
            (self.new.output ≡ self.old.output) × (self.new.told.waits ≡ true)) }
        ensures failed { result ≡ Err Missed.Failed → self.new.output ≡ Output.Failed }
    {
        match self.writer.write(bytes) {
            Ok(0) => {
                self.output = Output::Failed;
                Err(Missed::Failed)
            }
            Ok(n) => {
                self.output = Output::Pending;
                Ok(n)
            }
            Err(Missed::Waits) => Err(Missed::Waits),
            Err(Missed::Interrupted) => Err(Missed::Interrupted),
            Err(Missed::Failed) => {
                self.output = Output::Failed;
                Err(Missed::Failed)
            }
        }
    }

    // Writes once, and returns how many bytes were taken: none if the writer takes nothing now. A write that was interrupted has failed.
    fn write_last(&mut self, bytes: &[u8]) -> Result<usize, FrontFault>
        requires open { self.old.output ≢ Output.Failed }
        requires some { 0 < length bytes.now }
        ensures written { IfOk result (λ n. (n ≤ length bytes.now)
            × Appends self.old.held self.new.held (take n bytes.now)) }
        ensures waits { result ≡ Ok 0 → self.new.told.waits ≡ true }
        ensures unwritten { OnErr result (Keeps self.old.held self.new.held) }
        ensures output { OnOk result (self.new.output ≢ Output.Failed) }
        ensures failed { OnErr result (self.new.output ≡ Output.Failed) }
        ensures fault { IsOkUnless result FrontFault.Write }
    {
        match self.write_once(bytes) {
            Ok(n) => Ok(n),
            Err(Missed::Waits) => Ok(0),
            Err(Missed::Interrupted) => {
                self.output = Output::Failed;
                Err(FrontFault::Write)
            }
            Err(Missed::Failed) => Err(FrontFault::Write),
        }
    }

    // Writes some of the bytes, and returns how many: none if the writer takes nothing now. An interrupted write is made again.
    fn write_some(&mut self, bytes: &[u8]) -> Result<usize, FrontFault>
        requires open { self.old.output ≢ Output.Failed }
        requires some { 0 < length bytes.now }
        ensures written { IfOk result (λ n. (n ≤ length bytes.now)
            × Appends self.old.held self.new.held (take n bytes.now)) }
        ensures waits { result ≡ Ok 0 → self.new.told.waits ≡ true }
        ensures unwritten { OnErr result (Keeps self.old.held self.new.held) }
        ensures output { OnOk result (self.new.output ≢ Output.Failed) }
        ensures failed { OnErr result (self.new.output ≡ Output.Failed) }
        ensures fault { IsOkUnless result FrontFault.Write }
    {
        for _ in 1..WRITES {
            match self.write_once(bytes) {
                Ok(n) => return Ok(n),
                Err(Missed::Waits) => return Ok(0),
                Err(Missed::Interrupted) => {}
                Err(Missed::Failed) => return Err(FrontFault::Write),
            }
        }
        self.write_last(bytes)
    }

    /// Writes the bytes until the writer has all of them, or until it takes nothing now. Returns how many it took. After a fault the
    /// writer has some of them, from their front.
    pub(crate) fn send_on(&mut self, bytes: &[u8]) -> Result<usize, FrontFault>
        requires { self.old.output ≢ Output.Failed }
        ensures taken { IfOk result (λ n. (n ≤ length bytes.now)
            × Sends self.old self.new (take n bytes.now)) }
        ensures waits { IfOk result (λ n. n < length bytes.now → self.new.told.waits ≡ true) }
        ensures cut { OnErr result (Sends self.old self.new bytes.now) }
        ensures output { OnOk result (self.new.output ≢ Output.Failed) }
        ensures failed { OnErr result (self.new.output ≡ Output.Failed) }
        ensures fault { IsOkUnless result FrontFault.Write }
    {
        let mut rest = bytes;
        while !rest.is_empty() {
            let count = self.write_some(rest)?;
            if count == 0 {
                return Ok(bytes.len() - rest.len());
            }
            rest = &rest[count..];
        }
        Ok(bytes.len())
    }

    /// Notes that what the writer does not take now is not waited for. That is as if the last write had failed.
    pub(crate) fn give_up(&mut self)
        requires open { self.old.output ≢ Output.Failed }
        requires waits { self.old.told.waits ≡ true }
        ensures { StopsWriting self.old self.new }
    {
        self.output = Output::Failed;
    }

    /// Writes all of the bytes. If the writer takes nothing now, that is as if a write had failed. After a fault the writer has some of
    /// them, from their front.
    #[tactic(auto, using(crate::proofs::ConnectionLemmas::sends_whole))]
    pub(crate) fn send(&mut self, bytes: &[u8]) -> Result<(), FrontFault>
        requires { self.old.output ≢ Output.Failed }
        ensures sent { Sends self.old self.new bytes.now }
        ensures output { OnOk result (self.new.output ≢ Output.Failed) }
        ensures failed { OnErr result (self.new.output ≡ Output.Failed) }
        ensures fault { IsOkUnless result FrontFault.Write }
    {
        let count = self.send_on(bytes)?;
        if count < bytes.len() {
            self.give_up();
            return Err(FrontFault::Write);
        }
        Ok(())
    }
}
