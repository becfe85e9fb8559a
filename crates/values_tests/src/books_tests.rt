//! What no clause says about books that follow each other: that posts and new books succeed, and that each entry that was posted is written once,
//! in its order, also if the writer fails now and then.

use crate::line_tests::{BY_FIRST, BY_SECOND, entry, put_by};
use crate::rule_tests::{FIRST, SECOND};
use audit_lines::{Books, Unposted, append_from, write_books};
use stamp_types::Request;
use std::alloc::Global;
use std::io::Write;
use std::process::Abort;
use std::sync::Wait;
use std::sync::atomic::{AtomicBool, Ordering};
use std::thread::Threads;
use std::time::Clock;
use std::{io, thread};

// Posts an entry of the request, and answers whether it was taken.
fn post<R: Wait + Abort>(
    rt: &R,
    alloc: Global,
    books: &Books,
    request: &Request,
    place: u64,
) -> bool {
    books.post(rt, entry(rt, alloc, request, place)).is_ok()
}

// Whether an entry of the request comes back since the book is full.
fn is_full<R: Wait + Abort>(rt: &R, alloc: Global, books: &Books, request: &Request) -> bool {
    let posted = books.post(rt, entry(rt, alloc, request, 7));
    matches!(posted, Err(Unposted::Full(_)))
}

// Whether the current book has these lines, and no others.
fn has_lines<R: Wait + Abort>(rt: &R, alloc: Global, books: &Books, lines: &[&str]) -> bool {
    let book = books.current(rt).expect(rt, "an owner");
    let mut out = Vec::new(alloc);
    let next = append_from(alloc, &mut out, &book, 0);
    next == lines.len() && out.as_slice() == lines.concat(alloc).expect(rt, "memory").as_bytes()
}

#[test]
fn a_full_book_is_begun_anew(rt: HostRuntime) {
    let alloc = rt.alloc();
    let books = Books::new(alloc, 2).expect(&rt, "memory");
    let first = put_by(&rt, alloc, &[FIRST]);
    let second = put_by(&rt, alloc, &[SECOND]);
    assert!(rt; post(&rt, alloc, &books, &first, 7));
    assert!(rt; post(&rt, alloc, &books, &second, 8));
    assert!(rt; is_full(&rt, alloc, &books, &first));
    assert!(rt; has_lines(&rt, alloc, &books, &[BY_FIRST, BY_SECOND]));
    assert!(rt; books.renew(&rt, alloc).is_ok());
    assert!(rt; has_lines(&rt, alloc, &books, &[]));
    assert!(rt; post(&rt, alloc, &books, &second, 8));
    assert!(rt; has_lines(&rt, alloc, &books, &[BY_SECOND]));
}

#[test]
fn books_without_entries_take_none(rt: HostRuntime) {
    let alloc = rt.alloc();
    let books = Books::new(alloc, 0).expect(&rt, "memory");
    assert!(rt; is_full(&rt, alloc, &books, &put_by(&rt, alloc, &[FIRST])));
    assert!(rt; has_lines(&rt, alloc, &books, &[]));
}

// A writer that takes at most 50 bytes at once, and fails at each seventh call.
#[derive(Drop)]
struct Stutter {
    out: Vec<u8>,
    calls: u32,
}

impl Write for Stutter {
    fn write(&mut self, buf: &[u8]) -> io::Result<usize> {
        self.calls = self.calls.wrapping_add(1);
        if self.calls % 7 == 0 {
            return Err(io::Error::from(io::ErrorKind::StorageFull));
        }
        let count = buf.len().min(50);
        self.out.write(&buf[..count])
    }

    fn flush(&mut self) -> io::Result<()> {
        Ok(())
    }
}

// Posts the entries of the places from 0 to 39, each as often as it comes back.
fn post_all<R: Wait + Abort>(
    rt: &R,
    alloc: Global,
    books: &Books,
    request: &Request,
    ended: &AtomicBool,
) {
    for place in 0..40u64 {
        for _ in rt.forever() {
            if post(rt, alloc, books, request, place) {
                break;
            }
            thread::yield_now();
        }
    }
    // The last book has five entries: some of them are written after the end.
    ended.store(true, Ordering::SeqCst);
}

fn post_and_write<R: Threads + Wait + Clock + Abort + Sync>(
    rt: &R,
    alloc: Global,
    writer: &mut Stutter,
) {
    let books = Books::new(alloc, 7).expect(rt, "memory");
    let request = put_by(rt, alloc, &[FIRST]);
    let ended = AtomicBool::new(false);
    let (_, _) = thread::join(
        rt,
        || post_all(rt, alloc, &books, &request, &ended),
        || write_books(rt, rt, alloc, &books, writer, &ended),
    );
}

#[test]
fn each_entry_is_written_once_in_its_order(rt: HostRuntime) {
    let alloc = rt.alloc();
    let mut writer = Stutter {
        out: Vec::new(alloc),
        calls: 0,
    };
    post_and_write(&rt, alloc, &mut writer);
    let start = BY_FIRST.split_at(BY_FIRST.len() - 2).0;
    let mut wanted = Vec::new(alloc);
    for place in 0..40u64 {
        let line = format!(in alloc; "{start}{place}\n").expect(&rt, "memory");
        wanted
            .extend_from_slice(line.as_bytes())
            .expect(&rt, "memory");
    }
    assert!(rt; writer.out.as_slice() == wanted.as_slice());
}
