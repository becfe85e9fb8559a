//! Books that follow each other.
ghost use Rattle.std.specs.Prelude.{◌≡◌, IfErr, IfOk};
ghost use Rattle.std.specs.Arc.{arc_value};
ghost use Rattle.policy_book.specs.Entries.{IsReceiptOf};
ghost use Rattle.audit_lines.specs.Unposted.{entry_back};

use policy_book::{Book, Entry, Receipt};
use std::alloc::{AllocError, Global};
use std::sync::{Arc, RwLock, Wait};

/// The book that is posted to now. A new one takes its place once all of it was written. Any number of threads post.
#[derive(Drop)]
pub struct Books {
    current: RwLock<Arc<Book>>,
}

/// What shows that a book has an entry.
#[derive(Drop)]
pub struct Posted {
    pub book: Arc<Book>,
    pub receipt: Receipt,
}

/// Why an entry was not posted. The entry comes back.
#[derive(Drop)]
pub enum Unposted {
    /// The book has given out all indexes that its limit allows.
    Full(Entry),
    /// Memory ran out, or the book can have no further owner.
    NoMemory(Entry),
}

// An entry that this book gave back.
fn given_back(book: &Book, entry: Entry) -> Unposted
    ensures { entry_back result ≡ entry }
{
    if book.count() >= book.limit() {
        Unposted::Full(entry)
    } else {
        Unposted::NoMemory(entry)
    }
}

// A book without entries, in an allocation that can be shared.
fn new_book(alloc: Global, limit: usize) -> Result<Arc<Book>, AllocError>
    ensures { IfOk result (λ book. (arc_value book).limit ≡ limit) }
{
    let book = Book::new(alloc, limit)?;
    let book = Arc::new(alloc, book)?;
    Ok(book)
}

impl Books {
    /// Books that take at most `limit` entries each.
    ///
    /// `AllocError` if memory runs out for the first book.
    pub fn new(alloc: Global, limit: usize) -> Result<Self, AllocError> {
        let book = new_book(alloc, limit)?;
        Ok(Self {
            current: RwLock::new(book),
        })
    }

    /// The book that is posted to now.
    ///
    /// `AllocError` if it can have no further owner.
    pub fn current<R: Wait>(&self, rt: &R) -> Result<Arc<Book>, AllocError> {
        self.current.read(rt).clone()
    }

    /// Posts an entry. The entry comes back if the book is full, or if memory runs out. No clause says that the cause is true, since other
    /// threads post meanwhile.
    pub fn post<R: Wait>(&self, rt: &R, entry: Entry) -> Result<Posted, Unposted>
        ensures posted { IfOk result (λ p. IsReceiptOf (arc_value p.book) p.receipt × (p.receipt.value ≡ entry)) }
        ensures back { IfErr result (λ e. entry_back e ≡ entry) }
    {
        let Ok(book) = self.current(rt) else {
            return Err(Unposted::NoMemory(entry));
        };
        match book.post(rt, entry) {
            Ok(receipt) => Ok(Posted { book, receipt }),
            Err(entry) => {
                let back = given_back(&book, entry);
                drop(book);
                Err(back)
            }
        }
    }

    /// Begins a book of the same limit, and answers it.
    ///
    /// `AllocError` if memory runs out for it. Then posts go to the book that was there.
    pub fn renew<R: Wait>(&self, rt: &R, alloc: Global) -> Result<Arc<Book>, AllocError> {
        let old = self.current(rt)?;
        let book = new_book(alloc, old.limit())?;
        let shared = book.clone()?;
        *self.current.write(rt) = shared;
        drop(old);
        Ok(book)
    }
}
