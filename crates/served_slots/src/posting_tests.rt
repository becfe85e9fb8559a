//! What connections post to the audit book.
ghost use Rattle.std.specs.Prelude.{◌≡◌, ◌∷◌, []};
ghost use Rattle.served_history.specs.declared.entry.Entry.TheVariants.{Opened};

use crate::connection::SlotsService;
use crate::slots::Slots;
use crate::slots_tests::{CREATE_ZOO, CREATED, GET_ZOO, PUT_ZOO, pairs, sent};
use access_rules::{Keys, Way};
use audit_lines::Books;
use served_history::{Account, NewHistory};
use std::alloc::Global;
use std::marker::Brand;
use std::process::Abort;
use std::sync::Wait;

const CONFLICT: &[u8] = b"HTTP/1.1 409 Conflict\r\n";

// Whether the book has entries of these places, each of a request that a key signed, and no others.
fn has_places<R: Wait + Abort>(rt: &R, alloc: Global, books: &Books, places: &[u64]) -> bool {
    let book = books.current(rt).expect(rt, "an owner");
    let entries = book.audit_from(alloc, 0).expect(rt, "memory");
    for (entry, place) in entries.iter().zip(places) {
        if entry.place() != *place || entry.way() != Way::Shared {
            return false;
        }
    }
    entries.len() == places.len()
}

// A Create Container, a Put Blob and its Get Blob have the places 0, 1 and 2. A second Create Container is refused, and has no entry. A
// connection without books posts nothing.
fn posts<A: Account, R: Wait + Abort>(rt: &R, alloc: Global, pairs: Vec<Keys>, history: NewHistory)
    requires book { history.book ≡ A.history }
    requires fresh { history.next ≡ 0 }
    requires log { history.log ≡ Opened pairs.items ∷ [] }
{
    let (slots, front) = Slots::<A>::new(alloc, pairs, history).expect(rt, "memory");
    let books = Books::new(alloc, 10).expect(rt, "memory");
    let mut client = SlotsService::audited(rt, &slots, front.again(), Some(&books));
    let mut other = SlotsService::new(rt, &slots, front);
    assert!(rt; sent(rt, alloc, &mut client, CREATE_ZOO).starts_with(CREATED));
    assert!(rt; sent(rt, alloc, &mut client, CREATE_ZOO).starts_with(CONFLICT));
    assert!(rt; sent(rt, alloc, &mut client, PUT_ZOO).starts_with(CREATED));
    assert!(rt; sent(rt, alloc, &mut client, GET_ZOO).ends_with(b"\r\n\r\nhello"));
    assert!(rt; sent(rt, alloc, &mut other, GET_ZOO).ends_with(b"\r\n\r\nhello"));
    assert!(rt; has_places(rt, alloc, &books, &[0, 1, 2]));
}

#[test]
fn connections_post_what_is_let_in(rt: HostRuntime) {
    let pairs = pairs(&rt, rt.alloc());
    let history = NewHistory::new(&pairs);
    posts::<Brand, _>(&rt, rt.alloc(), pairs, history);
}
