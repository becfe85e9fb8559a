//! Bytes that a writer takes in pieces.
ghost use Rattle.std.specs.Prelude.{◌≡◌, ◌↔◌, [], IsTrue};
ghost use Rattle.audit_lines.specs.Lines.{WritesFrom};

use std::io::{ErrorKind, Write};
use std::marker::Model;

// How many writes are made at most before a pause.
const WRITES: u32 = 1024;

/// Bytes of which the first were written. Contracts see those that are left.
#[derive(Drop)]
pub(crate) struct Unwritten {
    bytes: Vec<u8>,
    done: usize,
}

impl Model for Unwritten {
    ghost use Rattle.std.specs.Prelude.{List, ℕ, ◌≤◌, drop, vec_len};

    ghost Value = { List ℕ };

    ghost view = { λ u. drop u.done u.bytes.items };

    ghost invariant = { λ u. u.done ≤ vec_len u.bytes };
}

impl Unwritten {
    /// Bytes of which none was written.
    pub(crate) fn new(bytes: Vec<u8>) -> Self
        ensures { result ≡ bytes.items }
    {
        Self { bytes, done: 0 }
    }

    /// Whether all bytes were written.
    #[tactic(auto, using(crate::proofs::WriteLemmas::all_dropped, crate::proofs::WriteLemmas::no_more_dropped))]
    pub(crate) fn is_done(&self) -> bool
        ensures { IsTrue result ↔ self.now ≡ [] }
    {
        self.done >= self.bytes.len()
    }

    // The bytes that are left.
    fn left(&self) -> &[u8]
        ensures { result.now ≡ self.now }
    {
        &self.bytes[self.done..]
    }

    // Writes once, and answers whether to go on. What was written is gone from the bytes that are left.
    fn write_once<W: Write>(&mut self, writer: &mut W) -> bool
        ensures { WritesFrom (W.contents writer.old) (W.contents writer.new) self.old self.new }
    {
        match writer.write(self.left()) {
            Ok(0) => false,
            Ok(count) => {
                self.done += count;
                true
            }
            Err(error) => error.kind() == ErrorKind::Interrupted,
        }
    }

    /// Writes until nothing is left, or until the writer takes nothing.
    #[tactic(auto, using(crate::proofs::WriteLemmas::writes_none, crate::proofs::WriteLemmas::writes_joined))]
    pub(crate) fn write<W: Write>(&mut self, writer: &mut W)
        ensures { WritesFrom (W.contents writer.old) (W.contents writer.new) self.old self.new }
    {
        for _turn in 0..WRITES {
            if self.is_done() {
                return;
            }
            if !self.write_once(writer) {
                return;
            }
        }
    }
}
