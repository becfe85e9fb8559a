//! Entries of the audit book, after the locks were given back.

use audit_lines::Books;
use policy_book::Entry;
use std::sync::Wait;

/// Posts the entry, if there is one and books are kept. An entry that comes back is dropped: the book is true, and not whole.
pub(crate) fn post<R: Wait>(rt: &R, books: Option<&Books>, entry: Option<Entry>) {
    if let (Some(books), Some(entry)) = (books, entry) {
        drop(books.post(rt, entry));
    }
}
