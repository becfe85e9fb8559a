//! What the program prints.

use crate::case::Case;
use crate::running::{Difference, Outcome};
use http_front::{End, FrontFault};
use std::io::Write;
use std::{fmt, io};

/// How many bytes are shown around the first byte that differs, and how many of these bytes come before that byte.
const SHOWN: usize = 40;

const SHOWN_BEFORE: usize = 10;

/// Bytes as a file of cases writes them.
#[derive(Clone, Copy)]
struct Escaped<'a>(&'a [u8]);

impl fmt::Display for Escaped<'_> {
    fn fmt<W: fmt::Write>(&self, f: &mut fmt::Formatter<W>) -> fmt::Result {
        for byte in self.0 {
            match *byte {
                b'\r' => f.write_str("\\r")?,
                b'\n' => f.write_str("\\n")?,
                b'\t' => f.write_str("\\t")?,
                b'\\' => f.write_str("\\\\")?,
                b' '..=b'~' => f.write_char(char::from(*byte))?,
                other => write!(f, "\\x{other:02x}")?,
            }
        }
        Ok(())
    }
}

// How a connection ended, in the words of a file of cases.
fn end_word(end: &Result<End, FrontFault>) -> &'static str {
    match end {
        Ok(End::Clean) => "clean",
        Ok(End::Closed) => "closed",
        Err(FrontFault::Read) => "read",
        Err(FrontFault::Turns) => "turns",
        Err(FrontFault::Write) => "write",
        Err(FrontFault::NoMemory) => "memory",
    }
}

// The index of the first byte that differs. If the longer list begins with the shorter, it is the length
// of the shorter list.
fn first_difference(a: &[u8], b: &[u8]) -> Option<usize> {
    let shorter = a.len().min(b.len());
    let differs = a.iter().zip(b).position(|(x, y)| x != y);
    if differs.is_some() || a.len() == b.len() {
        return differs;
    }
    Some(shorter)
}

// The bytes around an index.
fn around(bytes: &[u8], index: usize) -> &[u8] {
    let from = index.saturating_sub(SHOWN_BEFORE).min(bytes.len());
    let left = &bytes[from..];
    &left[..left.len().min(SHOWN)]
}

/// Writes the line for a case that differs.
pub(crate) fn write_difference<W: Write>(
    writer: &mut W,
    file: &str,
    case: &Case,
    difference: &Difference,
) -> io::Result<()> {
    let Difference { piece, outcome } = difference;
    let line = case.line;
    let name = case.name.as_str();
    write!(writer, "{file}:{line}: {name}: reads of {piece}: ")?;
    write_outcome(writer, case, outcome)
}

fn write_outcome<W: Write>(writer: &mut W, case: &Case, outcome: &Outcome) -> io::Result<()> {
    if outcome.ended != case.end {
        let ended = end_word(&outcome.ended);
        let wanted = end_word(&case.end);
        write!(writer, "ended {ended}, should end {wanted}; ")?;
    }
    match first_difference(&outcome.written, &case.wanted) {
        Some(index) => {
            let written = Escaped(around(&outcome.written, index));
            let wanted = Escaped(around(&case.wanted, index));
            writeln!(
                writer,
                "byte {index} differs: wrote \"{written}\", should write \"{wanted}\""
            )
        }
        None => writeln!(writer, "each byte is right"),
    }
}
