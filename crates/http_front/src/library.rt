//! The library's readers and writers, as what a connection is read from and written to.
ghost use Rattle.std.specs.Prelude.{◌≡◌};
ghost use Rattle.http_front.specs.Calls.{no_reads, no_writes};

use crate::incoming::{Incoming, Missed};
use crate::outgoing::Outgoing;
use http_server::Log;
use std::io::{Error, ErrorKind, Read, Write};
use std::marker::Model;

/// A reader of the library, and which reads of it were made.
///
/// The numbers of the reads take no memory. They are believed: this file is the only one that calls the library's readers and
/// writers.
#[derive(Drop)]
pub(crate) struct StdReader<R: Read> {
    reader: R,
    gave: Log<(), ()>,
    ends: Log<(), ()>,
    faults: Log<(), ()>,
    waits: bool,
}

impl<R: Read> Model for StdReader<R> {
    ghost use Rattle.std.specs.Prelude.{length};
    ghost use Rattle.http_front.specs.Calls.{IncomingState};

    ghost Value = { IncomingState };

    ghost view = { λ r. record {
      left = R.remaining r.reader;
      told = record {
        gave = length r.gave.items;
        ends = length r.ends.items;
        faults = length r.faults.items;
        waits = r.waits;
      };
    } };
}

/// A writer of the library, and which writes and flushes of it were made.
#[derive(Drop)]
pub(crate) struct StdWriter<W: Write> {
    writer: W,
    faults: Log<(), ()>,
    behind: bool,
    waits: bool,
}

impl<W: Write> Model for StdWriter<W> {
    ghost use Rattle.std.specs.Prelude.{length};
    ghost use Rattle.http_front.specs.Calls.{OutgoingState};

    ghost Value = { OutgoingState };

    ghost view = { λ w. record {
      held = W.contents w.writer;
      told = record { faults = length w.faults.items; behind = w.behind; waits = w.waits };
    } };
}

// What an error of the library says.
fn missed(error: &Error) -> Missed {
    match error.kind() {
        ErrorKind::WouldBlock => Missed::Waits,
        ErrorKind::Interrupted => Missed::Interrupted,
        _ => Missed::Failed,
    }
}

impl<R: Read> StdReader<R> {
    /// A reader of which no read was made.
    pub(crate) fn new(reader: R) -> Self
        ensures { result ≡ record { left = R.remaining reader; told = no_reads } }
    {
        Self {
            reader,
            gave: Log::new(),
            ends: Log::new(),
            faults: Log::new(),
            waits: false,
        }
    }

    /// The library's reader.
    pub(crate) fn inner(&self) -> &R
        ensures { R.remaining result.now ≡ self.now.left }
    {
        &self.reader
    }

    /// Gives the library's reader back.
    pub(crate) fn into_inner(self) -> R
        ensures { R.remaining result ≡ self.left }
    {
        self.reader
    }
}

impl<W: Write> StdWriter<W> {
    /// A writer to which nothing was written.
    pub(crate) fn new(writer: W) -> Self
        ensures { result ≡ record { held = W.contents writer; told = no_writes } }
    {
        Self {
            writer,
            faults: Log::new(),
            behind: false,
            waits: false,
        }
    }

    /// The library's writer.
    pub(crate) fn inner(&self) -> &W
        ensures { W.contents result.now ≡ self.now.held }
    {
        &self.writer
    }

    /// Gives the library's writer back.
    pub(crate) fn into_inner(self) -> W
        ensures { W.contents result ≡ self.held }
    {
        self.writer
    }
}

impl<R: Read> Incoming for StdReader<R> {
    ghost left = { λ r. r.left };

    ghost told = { λ r. r.told };

    fn read(&mut self, room: &mut [u8]) -> Result<usize, Missed> {
        match self.reader.read(room) {
            Ok(0) => {
                self.waits = false;
                self.ends = self.ends.and(&(), &());
                Ok(0)
            }
            Ok(n) => {
                self.waits = false;
                self.gave = self.gave.and(&(), &());
                Ok(n)
            }
            Err(error) => {
                let missed = missed(&error);
                self.waits = missed == Missed::Waits;
                if missed != Missed::Waits {
                    self.faults = self.faults.and(&(), &());
                }
                Err(missed)
            }
        }
    }
}

impl<W: Write> Outgoing for StdWriter<W> {
    ghost held = { λ w. w.held };

    ghost told = { λ w. w.told };

    fn write(&mut self, bytes: &[u8]) -> Result<usize, Missed> {
        match self.writer.write(bytes) {
            Ok(0) => {
                self.waits = false;
                self.faults = self.faults.and(&(), &());
                Ok(0)
            }
            Ok(n) => {
                self.waits = false;
                self.behind = true;
                Ok(n)
            }
            Err(error) => {
                let missed = missed(&error);
                self.waits = missed != Missed::Failed;
                if missed == Missed::Failed {
                    self.faults = self.faults.and(&(), &());
                }
                Err(missed)
            }
        }
    }

    fn flush(&mut self) -> Result<(), Missed> {
        match self.writer.flush() {
            Ok(()) => {
                self.waits = false;
                self.behind = false;
                Ok(())
            }
            Err(error) => {
                let missed = missed(&error);
                self.waits = missed != Missed::Failed;
                if missed == Missed::Failed {
                    self.faults = self.faults.and(&(), &());
                }
                Err(missed)
            }
        }
    }
}
