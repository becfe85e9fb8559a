//! Lines of what a book has.
ghost use Rattle.std.specs.Prelude.{◌≡◌, ◌++◌, Ok, false, true};
ghost use Rattle.audit_lines.specs.Lines.{IsAt, line_of};
ghost use Rattle.policy_book.specs.Entries.{AuditEntry};

use crate::line::append_line;
use policy_book::Book;
use std::alloc::{AllocError, Global};

/// Appends the line of the entry that the book has at the index, and answers whether it has an entry there now.
///
/// `AllocError` if memory runs out. Then some of the line may have been appended.
pub fn append_line_at(
    alloc: Global,
    out: &mut Vec<u8>,
    book: &Book,
    index: usize,
) -> Result<bool, AllocError>
    ensures there { result ≡ Ok true → (e : AuditEntry) × (IsAt book.now index e × (out.new.items ≡ out.old.items ++ line_of e)) }
    ensures absent { result ≡ Ok false → out.new.items ≡ out.old.items }
{
    let Some(receipt) = book.receipt_at(index) else {
        return Ok(false);
    };
    append_line(alloc, out, book.audit_one(&receipt))?;
    Ok(true)
}
