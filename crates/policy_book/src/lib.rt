//! Signatures that are judged before a lock is taken, snapshots of what judges a request, and the audit book.
#![tactic(auto)]

mod book;
mod entry;
mod judged;
mod laws;
mod revision;
mod verdict;
mod voucher;

pub use book::{Book, Receipt};
pub use entry::Entry;
pub use judged::{Judged, Signature, judge};
pub use laws::audit_entries_are_true;
pub use revision::Revision;
pub use verdict::{signer_by, verdict_by};
pub use voucher::{Voucher, vouch};
