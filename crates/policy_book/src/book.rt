//! The audit book, which writers and readers share without a lock.
ghost use Rattle.std.specs.Prelude.{◌≡◌, ◌+◌, ◌-◌, ◌<◌, ◌≤◌, All, IfErr, IfOk, IfSome, IsSome, OnOk, vec_len};
ghost use Rattle.policy_book.specs.Entries.{IsReceiptOf, IsTrueEntry};

use crate::entry::Entry;
use boxcar::table::{Keeps, Placed, Table};
use boxcar::tag::{Names, Tag};
use std::alloc::{AllocError, Global};
use std::marker::Model;
use std::sync::Wait;
use std::sync::atomic::{AtomicUsize, Ordering};

// What a table of entries keeps: no entry is at the limit or past it. The table is tagged with the limit.
struct BelowLimit;

impl Keeps<Entry> for BelowLimit {
    ghost use Rattle.std.specs.Prelude.{◌<◌};
    ghost use Rattle.policy_book.specs.Entries.{limit_in};

    ghost holds = { λ tag index entry. index < limit_in tag };
}

// The tag of a table, which is its limit.
struct LimitTag;

impl Names<usize> for LimitTag {
    ghost use Rattle.std.specs.Prelude.{[], ◌∷◌};

    ghost numbers = { λ limit. limit ∷ [] };
}

/// Entries, which are only added, up to a limit. Any number of threads post and read at the same time, and no reader waits.
#[derive(Drop)]
pub struct Book {
    entries: Table<Entry, BelowLimit, Global>,
    next: AtomicUsize,
    limit: usize,
}

impl Model for Book {
    ghost use Rattle.std.specs.Prelude.{◌≡◌};
    ghost use Rattle.boxcar.specs.Table.{Shelves};
    ghost use Rattle.policy_book.specs.Entries.{Shelved, limit_in};

    ghost Value = { Shelved };

    ghost view = { λ b. record { limit = b.limit; shelves = b.entries } };

    ghost invariant = { λ b. limit_in b.entries.tag ≡ b.limit };
}

/// What shows that a book has an entry, and at which index. It is good as long as the book lasts.
#[derive(Drop)]
pub struct Receipt {
    placed: Placed<Entry, BelowLimit, Global>,
}

impl Model for Receipt {
    ghost use Rattle.boxcar.specs.Table.{Where};
    ghost use Rattle.policy_book.specs.Entries.{AuditEntry};

    ghost Value = { Where AuditEntry };

    ghost view = { λ r. r.placed };
}

impl Receipt {
    /// The index of the entry in its book. Indexes begin with 0.
    pub fn index(&self) -> usize
        ensures { result ≡ self.now.index }
    {
        self.placed.index()
    }
}

impl Book {
    /// A book without entries, which takes at most `limit` entries.
    ///
    /// `AllocError` if memory runs out for its rows.
    pub fn new(alloc: Global, limit: usize) -> Result<Self, AllocError>
        ensures { IfOk result (λ b. b.limit ≡ limit) }
    {
        let tag = Tag::of::<usize, LimitTag>(&limit);
        Ok(Self {
            entries: Table::new(alloc, tag)?,
            next: AtomicUsize::new(0),
            limit,
        })
    }

    // Gives an index out. `None` if the limit is reached, or if memory runs out for the entries around the index.
    fn claim<R: Wait>(&self, rt: &R) -> Option<usize>
        ensures { IfSome result (λ index. index < self.now.limit) }
    {
        for _ in rt.forever() {
            let next = self.next.load(Ordering::SeqCst);
            if next >= self.limit || self.entries.reserve_at(next).is_err() {
                break;
            }
            // An index is given out after its memory. Otherwise a post that is refused for memory would leave an index without an entry.
            let claimed = self
                .next
                .compare_exchange(next, next + 1, Ordering::SeqCst, Ordering::SeqCst);
            if claimed.is_ok() {
                return Some(next);
            }
        }
        None
    }

    /// Posts an entry. The entry comes back if the book has as many entries as its limit allows, or if memory runs out.
    pub fn post<R: Wait>(&self, rt: &R, entry: Entry) -> Result<Receipt, Entry>
        ensures posted { IfOk result (λ r. IsReceiptOf self.now r × (r.value ≡ entry)) }
        ensures limit { IfOk result (λ r. r.index < self.now.limit) }
        ensures back { IfErr result (λ e. e ≡ entry) }
    {
        let Some(index) = self.claim(rt) else {
            return Err(entry);
        };
        let placed = self.entries.set_placed(rt, index, entry)?;
        Ok(Receipt { placed })
    }

    /// The entry of a receipt. Each receipt of this book has an index below the limit.
    pub fn audit_one(&self, receipt: &Receipt) -> &Entry
        requires { IsReceiptOf self.now receipt.now }
        ensures value { result.now ≡ receipt.now.value }
        ensures limit { receipt.now.index < self.now.limit }
    {
        self.entries.value(&receipt.placed)
    }

    /// The receipt of the entry at an index, or `None` if no entry is there now.
    pub fn receipt_at(&self, index: usize) -> Option<Receipt>
        ensures { IfSome result (λ r. IsReceiptOf self.now r × (r.index ≡ index)) }
    {
        let placed = self.entries.witness(index)?;
        Some(Receipt { placed })
    }

    /// An index has one entry: two receipts of one book with one index are of one entry.
    pub fn receipts_agree(&self, one: &Receipt, other: &Receipt)
        requires one { IsReceiptOf self.now one.now }
        requires other { IsReceiptOf self.now other.now }
        requires index { one.now.index ≡ other.now.index }
        ensures { one.now.value ≡ other.now.value }
    {
        self.entries.agrees(&one.placed, &other.placed);
    }

    /// The entry at an index, or `None` if no entry is there now.
    pub fn at(&self, index: usize) -> Option<&Entry>
        ensures limit { IsSome result → index < self.now.limit }
        ensures truth { IfSome result (λ e. IsTrueEntry e.now) }
    {
        let entry = self.entries.get(index)?;
        let _true = entry.revision();
        Some(entry)
    }

    // Puts the entry at an index after those that were found, if there is one.
    fn add_at<'a>(&'a self, found: &mut Vec<&'a Entry>, index: usize) -> Result<(), AllocError>
        requires { All (λ e. IsTrueEntry e.now) found.old.items }
        ensures few { OnOk result (vec_len found.new ≤ vec_len found.old + 1) }
        ensures truth { OnOk result (All (λ e. IsTrueEntry e.now) found.new.items) }
    {
        match self.at(index) {
            Some(entry) => {
                found.push(entry)?;
                Ok(())
            }
            None => Ok(()),
        }
    }

    /// The entries from an index on, by rising index: those that are in the book when the call comes to them. An entry that is just
    /// being posted may be left out.
    ///
    /// `AllocError` if memory runs out for the list.
    pub fn audit_from(&self, alloc: Global, index: usize) -> Result<Vec<&Entry>, AllocError>
        ensures limit { IfOk result (λ found. vec_len found ≤ self.now.limit - index) }
        ensures truth { IfOk result (λ found. All (λ e. IsTrueEntry e.now) found.items) }
    {
        let mut found = Vec::new(alloc);
        let end = self.count();
        for at in index..end {
            self.add_at(&mut found, at)?;
        }
        Ok(found)
    }

    /// How many entries the book takes.
    pub fn limit(&self) -> usize
        ensures { result ≡ self.now.limit }
    {
        self.limit
    }

    /// How many indexes were given out, so at most as many entries are in the book. Posts that are under way fill the rest, unless memory
    /// runs out.
    pub fn count(&self) -> usize
        ensures { result ≤ self.now.limit }
    {
        self.next.load(Ordering::SeqCst).min(self.limit)
    }
}
