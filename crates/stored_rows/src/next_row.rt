//! The row that a sweep writes next.
ghost use Rattle.std.specs.Prelude.{◌≡◌, ℕ, IfOk, IfSome, List, Option, Some, None};
ghost use Rattle.std.specs.Global.{Vec};
ghost use Rattle.std.specs.Option.{option_map};
ghost use Rattle.stamp_types.specs.World.{World, part_at};
ghost use Rattle.stamp_types.specs.declared.piece.Piece.{Piece};
ghost use Rattle.row_trees.specs.Walks.{keyed_part, named_blob};
ghost use Rattle.checkpoint_rows.specs.Writing.{AreWritable, IsWritableBlob};
ghost use Rattle.stored_rows.specs.NextRows.{IsFirstAfter, IsNextOfSweep, IsOutside};
ghost use Rattle.stored_rows.specs.Swept.{is_past, is_upto};
ghost use Rattle.stored_rows.specs.declared.cursor.Cursor.{Cursor};
ghost use Rattle.stored_rows.specs.declared.cursor.Cursor.TheVariants as cursor;

use crate::cursor::Cursor;
use checkpoint_rows::blob_row;
use row_trees::{Found, FoundBlob, Rows};
use stamp_types::{Change, Text};
use stamp_values::Key;
use std::alloc::{AllocError, Global};

/// The row that comes after a cursor.
#[derive(Drop)]
pub(crate) enum NextRow {
    /// The own row of this container.
    Container(Key),
    /// A container that has seen no change is next. No program makes such rows, and no record says the row of such a container.
    Unseen,
    /// This row of a blob, whose name is given, in the container of this key, where the cursor is.
    Blob(Key, Vec<u8>, Change),
    /// No blob is left in the container of this key, where the cursor is.
    NoBlob(Key),
    /// No container is left.
    NoContainer,
}

// The first of all containers.
fn first_container(alloc: Global, rows: &Rows) -> Option<(&Key, Found<'_>)>
    ensures { IsFirstAfter (is_past cursor.Start) rows.now (option_map keyed_part result) }
{
    let first = Key {
        account: Text::empty(alloc),
        container: Text::empty(alloc),
    };
    let mut left = rows.containers_from(&first);
    left.next()
}

// The first container after a key.
fn container_after<'a>(rows: &'a Rows, last: &Key) -> Option<(&'a Key, Found<'a>)>
    ensures { IsFirstAfter (is_past (cursor.After last.now)) rows.now (option_map keyed_part result) }
{
    let mut left = rows.containers_from(last);
    let Some((key, found)) = left.next() else {
        return None;
    };
    if key.cmp(last).is_gt() {
        return Some((key, found));
    }
    left.next()
}

// The first blob of a container.
fn first_blob<'a>(alloc: Global, found: &Found<'a>) -> Option<(&'a [u8], FoundBlob<'a>)>
    ensures { IsFirstAfter (is_upto None) found.now.blobs (option_map named_blob result) }
{
    let mut left = found.blobs_from(&Vec::new(alloc));
    left.next()
}

// The first blob of a container after a name.
fn blob_after<'a>(found: &Found<'a>, last: &Vec<u8>) -> Option<(&'a [u8], FoundBlob<'a>)>
    ensures { IsFirstAfter (is_upto (Some last.now)) found.now.blobs (option_map named_blob result) }
{
    let mut left = found.blobs_from(last);
    let Some((name, blob)) = left.next() else {
        return None;
    };
    if name.cmp(last.as_slice()).is_gt() {
        return Some((name, blob));
    }
    left.next()
}

// The first blob of a container after a name, if there is a name.
fn next_blob<'a>(
    alloc: Global,
    rows: &'a Rows,
    at: &Key,
    last: &Option<Vec<u8>>,
) -> Option<(&'a [u8], FoundBlob<'a>)>
    ensures { IsFirstAfter (is_upto last.now) (part_at rows.now at.now).blobs (option_map named_blob result) }
{
    let found = rows.find(at);
    match last {
        Some(last) => blob_after(&found, last),
        None => first_blob(alloc, &found),
    }
}

// The own row of a container comes next, if there is a container.
fn row_of_container(container: Option<(&Key, Found<'_>)>) -> Result<NextRow, AllocError>
    ensures { IfOk result (λ next. (c : Cursor) (w : World (List Piece)) → IsOutside c → IsFirstAfter (is_past c) w (option_map keyed_part container.entry)
        → IsNextOfSweep c w next) }
{
    match container {
        Some((key, found)) => {
            if found.count() == 0 {
                return Ok(NextRow::Unseen);
            }
            Ok(NextRow::Container(key.clone()?))
        }
        None => Ok(NextRow::NoContainer),
    }
}

// The row of a blob of a container comes next, if there is a blob.
fn row_of_blob(
    alloc: Global,
    at: &Key,
    blob: Option<(&[u8], FoundBlob<'_>)>,
) -> Result<NextRow, AllocError>
    requires { IfSome (option_map named_blob blob) (λ e. IsWritableBlob at.now e.0 e.1) }
    ensures { IfOk result (λ next. (last : Option (Vec ℕ)) (w : World (List Piece))
        → IsFirstAfter (is_upto last) (part_at w at.now).blobs (option_map named_blob blob.entry) → IsNextOfSweep (cursor.In at.now last) w next) }
{
    let key = at.clone()?;
    let Some((name, blob)) = blob else {
        return Ok(NextRow::NoBlob(key));
    };
    let row = blob_row(alloc, at, name, &blob)?;
    let name = name.to_vec(alloc)?;
    Ok(NextRow::Blob(key, name, row))
}

/// The row that comes after the cursor.
///
/// `AllocError` if memory runs out for its texts.
pub(crate) fn next_row(alloc: Global, rows: &Rows, cursor: &Cursor) -> Result<NextRow, AllocError>
    requires { AreWritable rows.now }
    ensures { IfOk result (IsNextOfSweep cursor.now rows.now) }
{
    match cursor {
        Cursor::Start => row_of_container(first_container(alloc, rows)),
        Cursor::In(at, last) => row_of_blob(alloc, at, next_blob(alloc, rows, at, last)),
        Cursor::After(at) => row_of_container(container_after(rows, at)),
        Cursor::End => Ok(NextRow::NoContainer),
    }
}
