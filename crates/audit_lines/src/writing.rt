//! The lines of books, as one thread writes them.
ghost use Rattle.std.specs.Prelude.{◌≡◌, ◌++◌, ◌+◌, [], Ok, false, true};
ghost use Rattle.std.specs.Arc.{arc_value};
ghost use Rattle.audit_lines.specs.Lines.{AppendsLines, IsAt, line_of};
ghost use Rattle.audit_lines.specs.Rounds.{GoesOn, MakesLines, Renews, WritesBooks};
ghost use Rattle.policy_book.specs.Entries.{AuditEntry};

use crate::books::Books;
use crate::unwritten::Unwritten;
use crate::written::append_line_at;
use policy_book::Book;
use std::alloc::{AllocError, Global};
use std::io::Write;
use std::marker::Model;
use std::sync::atomic::{AtomicBool, Ordering};
use std::sync::{Arc, Wait};
use std::thread;
use std::time::{Clock, Duration};

// How many milliseconds the writer sleeps after each round.
const PAUSE: u64 = 50;

// How many rounds are made at most after the end.
const LAST_ROUNDS: u32 = 8;

// Appends the line of the entry at the index, and answers whether it did. It does not if the book has no entry there now, or if memory runs
// out.
fn append_whole(alloc: Global, out: &mut Vec<u8>, book: &Book, index: usize) -> bool
    ensures there { result ≡ true → (e : AuditEntry) × (IsAt book.now index e × (out.new.items ≡ out.old.items ++ line_of e)) }
    ensures absent { result ≡ false → out.new.items ≡ out.old.items }
{
    let mut line = Vec::new(alloc);
    match append_line_at(alloc, &mut line, book, index) {
        Ok(true) => out.extend_from_slice(&line).is_ok(),
        Ok(false) | Err(AllocError) => false,
    }
}

/// Appends the lines of the entries that the book has from an index on, and answers the index after the last of them. It ends at the first
/// index that has no entry now, or if memory runs out.
#[tactic(auto, using(crate::proofs::WriteLemmas::no_lines))]
pub fn append_from(alloc: Global, out: &mut Vec<u8>, book: &Book, from: usize) -> usize
    ensures { AppendsLines book.now from result out.old.items out.new.items }
{
    let end = book.count();
    for at in from..end {
        if !append_whole(alloc, out, book, at) {
            return at;
        }
    }
    end.max(from)
}

// The book whose lines are written, the index of the next line, and what is not written yet.
#[derive(Drop)]
struct Rounds {
    book: Arc<Book>,
    next: usize,
    left: Unwritten,
}

impl Model for Rounds {
    ghost use Rattle.std.specs.Arc.{arc_value};
    ghost use Rattle.audit_lines.specs.Rounds.{Round};

    ghost Value = { Round };

    ghost view = { λ r. record { book = arc_value r.book; next = r.next; left = r.left } };
}

impl Rounds {
    // The first round of a book, of which no line was made.
    fn new(alloc: Global, book: Arc<Book>) -> Self
        ensures { result ≡ record { book = arc_value book; next = 0; left = [] } }
    {
        Self {
            book,
            next: 0,
            left: Unwritten::new(Vec::new(alloc)),
        }
    }

    // Makes lines if all lines that were made are written.
    #[tactic(auto, using(crate::proofs::WriteLemmas::no_lines))]
    fn make_lines(&mut self, alloc: Global)
        ensures { MakesLines self.old self.new }
    {
        if self.left.is_done() {
            let mut lines = Vec::new(alloc);
            self.next = append_from(alloc, &mut lines, &self.book, self.next);
            self.left = Unwritten::new(lines);
        }
    }

    // Makes lines if all lines that were made are written, and writes what the writer takes.
    fn go_on<W: Write>(&mut self, alloc: Global, writer: &mut W)
        ensures { GoesOn (W.contents writer.old) (W.contents writer.new) self.old self.new }
    {
        self.make_lines(alloc);
        self.left.write(writer);
    }

    // Whether all entries of the book have lines that are written.
    fn is_done(&self) -> bool
        ensures { result ≡ true → self.now.left ≡ [] }
    {
        self.left.is_done() && self.book.count() <= self.next
    }

    // Goes on after the last post until all is written, for some rounds at most.
    fn finish<W: Write>(&mut self, alloc: Global, writer: &mut W)
        ensures { GoesOn (W.contents writer.old) (W.contents writer.new) self.old self.new }
    {
        for _round in 0..LAST_ROUNDS {
            if self.is_done() {
                return;
            }
            self.go_on(alloc, writer);
        }
    }

    // Begins a new book if this one is full and its lines are made. Without memory it is tried again later.
    fn renew<R: Wait>(&mut self, rt: &R, alloc: Global, books: &Books)
        ensures { Renews self.old self.new }
    {
        if self.next < self.book.limit() {
            return;
        }
        if let Ok(book) = books.renew(rt, alloc) {
            self.book = book;
            self.next = 0;
        }
    }
}

/// Writes a line for each entry that is posted, until `ended` is set, and then the lines of the entries that were posted before.
///
/// If the writer fails, the same bytes are tried again, so no line is cut before another line. Entries that are posted meanwhile come back once the book is full.
/// After `ended` is set, eight rounds are made at most, each up to a failure of the writer: what is left then is not written.
pub fn write_books<R: Wait, C: Clock, W: Write>(
    rt: &R,
    clock: &C,
    alloc: Global,
    books: &Books,
    writer: &mut W,
    ended: &AtomicBool,
)
    ensures { WritesBooks (W.contents writer.old) (W.contents writer.new) }
{
    let Ok(book) = books.current(rt) else {
        return;
    };
    let mut rounds = Rounds::new(alloc, book);
    for _round in rt.forever() {
        if ended.load(Ordering::SeqCst) {
            rounds.finish(alloc, writer);
            return;
        }
        rounds.go_on(alloc, writer);
        rounds.renew(rt, alloc, books);
        thread::sleep(clock, Duration::from_millis(PAUSE));
    }
}
