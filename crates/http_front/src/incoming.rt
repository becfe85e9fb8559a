//! What a connection is read from.
ghost use Rattle.std.specs.Prelude.{ℕ, List, Option};
ghost use Rattle.std.specs.Io.{ReadsAtMost};
ghost use Rattle.std.specs.Io.KnownBytes.{ReadConsumes};
ghost use Rattle.http_front.specs.Calls.{Reads, TellsRead};

/// Why a call gave or took no byte.
#[derive(Clone, Copy, PartialEq, Eq, Drop)]
pub enum Missed {
    /// There is nothing now, or there is no room now. A later call may do better.
    Waits,
    /// The call was interrupted before it did anything.
    Interrupted,
    /// The call failed.
    Failed,
}

/// A reader that tells which reads were made, and how they ended.
pub trait Incoming {
    /// The bytes that reads will give from here on, if they are known.
    ghost left: { Self → Option (List ℕ) };

    /// The reads that were made so far.
    ghost told: { Self → Reads };

    /// Reads once, and returns how many bytes came. No byte came if the reader is at its end, or if there is no room.
    fn read(&mut self, room: &mut [u8]) -> Result<usize, Missed>
        ensures bound { ReadsAtMost result room.new }
        ensures bytes { ReadConsumes (left self.old) (left self.new) result room.new }
        ensures told { TellsRead result (told self.old) (told self.new) };
}
