//! The bytes of an operator: the lines that they end are obeyed, and their answers are told.
ghost use Rattle.std.specs.Prelude.{◌≡◌, ◌≤◌, ◌==◌, ◌++◌, ℕ, List, [], MatchOption, codes, length, take};
ghost use Rattle.std.specs.Io.KnownBytes.{Appends};
ghost use Rattle.stamp_main.specs.Attending.{AttendsByte, EndsLine, IsAttended, IsAnswerLine, ObeysLine, Writes};

use crate::line::Line;
use crate::operator_lines::{Answer, obey};
use served_history::Account;
use served_slots::Operator;
use std::alloc::Global;
use std::io::{ErrorKind, Write};
use std::sync::Wait;

/// How many writes are made at most for a text.
const WRITES: u32 = 1024;

// Writes once, and returns how many of the bytes the writer took. `None` if it takes no more.
#[tactic(auto, using(crate::proofs::AttendingLemmas::appends_kept))]
fn write_some<O: Write>(writer: &mut O, bytes: &[u8]) -> Option<usize>
    ensures { MatchOption result (Appends (O.contents writer.old) (O.contents writer.new) [])
        (λ count. (count ≤ length bytes.now) × Appends (O.contents writer.old) (O.contents writer.new) (take count bytes.now)) }
{
    match writer.write(bytes) {
        Ok(0) => None,
        Ok(count) => Some(count),
        Err(error) => {
            if error.kind() == ErrorKind::Interrupted {
                Some(0)
            } else {
                None
            }
        }
    }
}

// Writes the bytes, and returns whether the writer took all of them.
fn write_whole<O: Write>(writer: &mut O, bytes: &[u8]) -> bool
    ensures { Writes (O.contents writer.old) (O.contents writer.new) bytes.now result }
{
    let mut left = bytes;
    for _turn in 0..WRITES {
        if left.is_empty() {
            return true;
        }
        match write_some(writer, left) {
            Some(count) => left = &left[count..],
            None => return false,
        }
    }
    left.is_empty()
}

// Writes a line feed, and returns whether the writer took it and flushed all.
fn write_end<O: Write>(writer: &mut O) -> bool
    ensures { Writes (O.contents writer.old) (O.contents writer.new) (codes "\n") result }
{
    if !write_whole(writer, b"\n") {
        return false;
    }
    writer.flush().is_ok()
}

// Writes a text and a line feed, and returns whether the writer took all of it.
fn write_line<O: Write>(writer: &mut O, text: &[u8]) -> bool
    ensures { Writes (O.contents writer.old) (O.contents writer.new) (text.now ++ codes "\n") result }
{
    if !write_whole(writer, text) {
        return false;
    }
    write_end(writer)
}

// Tells an answer. The text of an epoch is short, and if memory is lacking for it the answer says only that.
fn tell<O: Write>(writer: &mut O, alloc: Global, answer: Answer) -> bool
    ensures { (told : List ℕ) × (IsAnswerLine answer told × Writes (O.contents writer.old) (O.contents writer.new) told result) }
{
    match answer.text(alloc) {
        Ok(text) => write_line(writer, text.as_bytes()),
        Err(_) => write_line(writer, b"no memory for the answer"),
    }
}

// Obeys a whole line, if it is not too long.
fn obey_line<A: Account, R: Wait>(
    operator: &mut Operator<'_, A, R>,
    alloc: Global,
    line: &Line,
) -> Answer
    ensures obeyed { ObeysLine operator.old.account operator.old.known line.now result operator.new.known }
    ensures account { operator.new.account ≡ operator.old.account }
{
    match line.bytes() {
        Some(bytes) => obey(operator, alloc, bytes),
        None => Answer::Long,
    }
}

// Obeys a whole line, tells its answer, and begins another line. Returns whether the answer was written.
fn end_line<O: Write, A: Account, R: Wait>(
    writer: &mut O,
    operator: &mut Operator<'_, A, R>,
    alloc: Global,
    line: &mut Line,
) -> bool
    ensures ended { (told : List ℕ) × (EndsLine operator.old.account operator.old.known line.old told operator.new.known line.new
        × Writes (O.contents writer.old) (O.contents writer.new) told result) }
    ensures account { operator.new.account ≡ operator.old.account }
{
    let answer = obey_line(operator, alloc, line);
    *line = Line::new();
    tell(writer, alloc, answer)
}

// Takes one byte. Returns whether what is told for it was written.
fn take_byte<O: Write, A: Account, R: Wait>(
    writer: &mut O,
    operator: &mut Operator<'_, A, R>,
    alloc: Global,
    line: &mut Line,
    byte: u8,
) -> bool
    ensures taken { (told : List ℕ) × (AttendsByte (byte == 10) operator.old.account operator.old.known line.old byte told operator.new.known line.new
        × Writes (O.contents writer.old) (O.contents writer.new) told result) }
    ensures account { operator.new.account ≡ operator.old.account }
{
    if byte == b'\n' {
        end_line(writer, operator, alloc, line)
    } else {
        line.push(byte);
        true
    }
}

/// Takes the bytes that came: each whole line is obeyed and answered. A line without a line feed may have only a part of its key, so it is
/// not obeyed. It ends if an answer cannot be written, and returns whether all were.
pub(crate) fn take<O: Write, A: Account, R: Wait>(
    writer: &mut O,
    operator: &mut Operator<'_, A, R>,
    alloc: Global,
    line: &mut Line,
    came: &[u8],
) -> bool
    ensures attended { IsAttended operator.old.account operator.old.known line.old came.now (O.contents writer.old) (O.contents writer.new)
        result operator.new.known line.new }
    ensures account { operator.new.account ≡ operator.old.account }
{
    for byte in came {
        if !take_byte(writer, operator, alloc, line, *byte) {
            return false;
        }
    }
    true
}
