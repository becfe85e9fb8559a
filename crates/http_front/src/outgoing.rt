//! What a connection is written to.
ghost use Rattle.std.specs.Prelude.{ℕ, List, Option};
ghost use Rattle.std.specs.Io.{WritesAtMost};
ghost use Rattle.std.specs.Io.KnownBytes.{Keeps, WriteAppends};
ghost use Rattle.http_front.specs.Calls.{TellsFlush, TellsWrite, Writes};

use crate::incoming::Missed;

/// A writer that tells which calls were made, and how they ended.
pub trait Outgoing {
    /// The bytes that the writer holds, if they are known.
    ghost held: { Self → Option (List ℕ) };

    /// The writes and flushes that were made so far.
    ghost told: { Self → Writes };

    /// Writes once, and returns how many bytes were taken. A writer that takes no byte has failed. `Missed::Waits` says that it takes
    /// nothing now, and no fault is counted then.
    fn write(&mut self, bytes: &[u8]) -> Result<usize, Missed>
        ensures bound { WritesAtMost result bytes.now }
        ensures bytes { WriteAppends (held self.old) (held self.new) result bytes.now }
        ensures told { TellsWrite result (told self.old) (told self.new) };

    /// Hands on the bytes that were taken.
    fn flush(&mut self) -> Result<(), Missed>
        ensures bytes { Keeps (held self.old) (held self.new) }
        ensures told { TellsFlush result (told self.old) (told self.new) };
}
