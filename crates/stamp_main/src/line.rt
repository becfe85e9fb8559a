//! A line of an operator, byte by byte.
ghost use Rattle.std.specs.Prelude.{◌≡◌, [], Some, option_map};
ghost use Rattle.stamp_main.specs.Line.{with_byte};

use std::marker::Model;

/// The longest line, in bytes.
const LONGEST: usize = 4096;

/// A line as far as it has come. Contracts see its bytes, or `None` if they are too many.
#[derive(Drop)]
pub(crate) struct Line {
    bytes: [u8; LONGEST],
    count: usize,
    is_too_long: bool,
}

impl Model for Line {
    ghost use Rattle.std.specs.Prelude.{◌≤◌, ℕ, List, Option, Some, None, if◌then◌else◌, take};

    ghost Value = { Option (List ℕ) };

    ghost view = { λ l. if l.is_too_long then None else Some (take l.count l.bytes) };

    ghost invariant = { λ l. l.count ≤ 4096 };
}

impl Line {
    /// A line of which no byte has come.
    pub(crate) fn new() -> Self
        ensures { result ≡ Some [] }
    {
        Self {
            bytes: [0; LONGEST],
            count: 0,
            is_too_long: false,
        }
    }

    /// Takes one more byte.
    pub(crate) fn push(&mut self, byte: u8)
        ensures { self.new ≡ with_byte self.old byte }
    {
        if self.count < LONGEST {
            self.bytes[self.count] = byte;
            self.count += 1;
        } else {
            self.is_too_long = true;
        }
    }

    /// The bytes, or `None` if they are more than 4,096.
    pub(crate) fn bytes(&self) -> Option<&[u8]>
        ensures { option_map (λ bytes. bytes.now) result ≡ self.now }
    {
        if self.is_too_long {
            return None;
        }
        self.bytes.get(..self.count)
    }
}
