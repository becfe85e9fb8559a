//! Entries of the audit book, after the locks were given back.

use policy_book::{Book, Entry};
use std::sync::Wait;

/// Posts the entry, if there is one and a book is kept. An entry that comes back is dropped: the book is true, and not whole.
pub(crate) fn post<R: Wait>(rt: &R, book: Option<&Book>, entry: Option<Entry>) {
    if let (Some(book), Some(entry)) = (book, entry) {
        drop(book.post(rt, entry));
    }
}
