//! The doubt of a row that a sweep has written: it ends without a change of any container.
ghost use Rattle.std.specs.Prelude.{◌≡◌, IfSome, None, OnErr};
ghost use Rattle.stamp_types.specs.ActKinds.{is_row};
ghost use Rattle.stored_rows.specs.Noting.{IfKept};
ghost use Rattle.stored_rows.specs.RowDoubts.{EndsRow, FitsMemory, HasRow, ended_row_by, spare_after};

use crate::logging::Unlogged;
use row_trees::{NewRow, Rows};
use stamp_types::{Act, Change};
use stream_manager::{Settled, StoredFault};

/// Whether an act is a row, which only a sweep or a checkpoint writes.
pub(crate) fn is_row(act: &Act) -> bool
    ensures { result ≡ is_row act.now }
{
    matches!(act, Act::ContainerRow(_) | Act::StoredBlob(_))
}

/// Keeps the row that memory will have if a row in doubt is kept. After another fault it is not needed.
pub(crate) fn keep_spare(spare: &mut Option<NewRow>, fault: &Unlogged, new: NewRow)
    ensures { spare.new ≡ spare_after fault.now spare.old new }
{
    match fault {
        Unlogged::Doubt(_) => drop(spare.replace(new)),
        _ => drop(new),
    }
}

// Puts the row of a blob that is kept into memory. The own row of a container changes nothing there.
fn put_row(rows: &mut Rows, row: &Change, new: NewRow)
    requires { FitsMemory rows.old (Some new) row.now }
    ensures { HasRow row.now.act (Some rows.old) row.now (Some rows.new) }
{
    match row.act() {
        Act::StoredBlob(stored) => rows.replace_row(row.key(), stored, new),
        _ => drop(new),
    }
}

// The same of rows that may be in memory, with the row that was made for them, if it is the row of a blob.
fn have_row(rows: &mut Option<Rows>, row: &Change, spare: Option<NewRow>)
    requires { IfSome rows.old (λ w. FitsMemory w spare row.now) }
    ensures { HasRow row.now.act rows.old row.now rows.new }
{
    match rows {
        Some(rows) => match spare {
            Some(new) => put_row(rows, row, new),
            None => {}
        },
        None => drop(spare),
    }
}

// Ends the doubt of a row that is kept.
fn keep_row(rows: &mut Option<Rows>, doubt: &mut Option<Change>, spare: &mut Option<NewRow>)
    requires { IfSome doubt.old (λ c. IfSome rows.old (λ w. FitsMemory w spare.old c)) }
    ensures has { IfSome doubt.old (λ c. HasRow c.act rows.old c rows.new) }
    ensures none { doubt.new ≡ None }
{
    let new = spare.take();
    match doubt.take() {
        Some(row) => {
            have_row(rows, &row, new);
            drop(row);
        }
        None => drop(new),
    }
}

// Ends the doubt of a row that is dropped.
fn drop_row(doubt: &mut Option<Change>, spare: &mut Option<NewRow>)
    ensures { doubt.new ≡ None }
{
    drop(spare.take());
    drop(doubt.take());
}

/// Ends the doubt of a row as its settle ended. The answer is whether the doubt has ended.
pub(crate) fn end_row(
    rows: &mut Option<Rows>,
    doubt: &mut Option<Change>,
    spare: &mut Option<NewRow>,
    settled: Result<Settled, StoredFault>,
) -> Result<(), StoredFault>
    requires { IfKept settled (IfSome doubt.old (λ c. IfSome rows.old (λ w. FitsMemory w spare.old c))) }
    ensures answer { result ≡ ended_row_by settled }
    ensures ended { EndsRow settled rows.old rows.new doubt.old doubt.new }
    ensures refused { OnErr result (spare.new ≡ spare.old) }
{
    match settled {
        Ok(Settled::Clean) => Ok(()),
        Ok(Settled::Kept(_place)) => {
            keep_row(rows, doubt, spare);
            Ok(())
        }
        Ok(Settled::Dropped) => {
            drop_row(doubt, spare);
            Ok(())
        }
        Err(fault) => Err(fault),
    }
}
