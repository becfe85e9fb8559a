//! A sweep of rows that is under way: where it began, how far it has come, and the rows that it has written beyond.
ghost use Rattle.std.specs.Prelude.{◌≡◌, ◌||◌, IfOk, MatchOption, None, OnErr, OnOk, false};
ghost use Rattle.std.specs.FinMap as finite;
ghost use Rattle.std.specs.Option.{option_copied};
ghost use Rattle.block_blobs.specs.StoredRows.{is_left};
ghost use Rattle.stamp_types.specs.World.{blob_in};
ghost use Rattle.stored_rows.specs.Swept.{IsOfHalf, IsOver, IsPartOf, is_end, is_over, is_touched, is_touched_blob, is_unseen, kept_sweep, knows_blob, knows_name, knows_read, knows_row, may_log, read_by, with_blob_row, with_container};
ghost use Rattle.stored_rows.specs.declared.cursor.Cursor.TheVariants as cursor;

use crate::cursor::Cursor;
use crate::waste::Waste;
use partition_stream::{Mark, Streams};
use row_trees::{Found, Rows};
use stamp_types::{Act, Change, Text};
use stamp_values::{Bytes, Key, Keyed, Named};
use std::alloc::{AllocError, Global};
use stream_manager::HandleRoom;

/// A row that was written since the mark.
#[derive(Drop)]
pub(crate) struct Written {}

/// A sweep that is under way.
#[derive(Drop)]
pub(crate) struct Sweep {
    // All that comes before it is given up at the end.
    pub(crate) mark: Mark,
    // For the handles of what is given up.
    pub(crate) room: HandleRoom,
    pub(crate) cursor: Cursor,
    // The containers whose row was written before the cursor came to it, each with the blobs whose rows were written.
    pub(crate) touched: Keyed<Named<Written>>,
    // The count of the streams when it began.
    pub(crate) began: Waste,
}

impl Sweep {
    /// A sweep that has written no row.
    pub(crate) fn begin(alloc: Global, mark: Mark, room: HandleRoom, began: Waste) -> Self
        ensures { result ≡ record { mark = mark; room = room; cursor = cursor.Start; touched = finite.empty; began = began } }
    {
        Self {
            mark,
            room,
            cursor: Cursor::Start,
            touched: Keyed::new(alloc),
            began,
        }
    }

    // The sweep of a part of the rows, with room of its own: it knows the rows up to the cursor, and none that was touched beyond.
    fn part(&self, alloc: Global, room: HandleRoom) -> Result<Self, AllocError>
        ensures part { IfOk result (IsPartOf self.now) }
        ensures room { IfOk result (λ part. part.room ≡ room) }
    {
        match self.cursor.copied() {
            Ok(cursor) => Ok(Self {
                mark: self.mark,
                room,
                cursor,
                touched: Keyed::new(alloc),
                began: self.began,
            }),
            Err(fault) => {
                drop(room);
                Err(fault)
            }
        }
    }

    /// Whether each row was written.
    pub(crate) fn is_done(&self) -> bool
        ensures { result ≡ is_end self.now.cursor }
    {
        matches!(self.cursor, Cursor::End)
    }

    /// Notes that the own row of a container was written.
    ///
    /// `AllocError` if memory runs out. It is then not noted.
    pub(crate) fn note_container(&mut self, alloc: Global, key: &Key) -> Result<(), AllocError>
        ensures noted { OnOk result (self.new ≡ with_container self.old key.now) }
        ensures refused { OnErr result (self.new ≡ self.old) }
    {
        if self.is_touched(key) {
            return Ok(());
        }
        let key = key.clone()?;
        self.touched.insert(key, Named::new(alloc))?;
        Ok(())
    }

    // Notes that the row of a blob was written, in a container that was not touched.
    fn note_first(&mut self, alloc: Global, key: &Key, name: Bytes) -> Result<(), AllocError>
        requires { finite.get self.old.touched key.now ≡ None }
        ensures noted { OnOk result (self.new ≡ with_blob_row self.old key.now name) }
        ensures refused { OnErr result (self.new ≡ self.old) }
    {
        let mut names = Named::new(alloc);
        names.insert(name, Written {})?;
        let key = key.clone()?;
        self.touched.insert(key, names)?;
        Ok(())
    }

    /// Notes that the row of a blob was written.
    ///
    /// `AllocError` if memory runs out. It is then not noted.
    pub(crate) fn note_blob(
        &mut self,
        alloc: Global,
        key: &Key,
        name: &Text,
    ) -> Result<(), AllocError>
        ensures noted { OnOk result (self.new ≡ with_blob_row self.old key.now name.now) }
        ensures refused { OnErr result (self.new ≡ self.old) }
    {
        let bytes = Bytes::new(name.as_str().as_bytes().to_vec(alloc)?);
        match self.touched.get_mut(key) {
            Some(names) => {
                names.insert(bytes, Written {})?;
                Ok(())
            }
            None => self.note_first(alloc, key, bytes),
        }
    }

    /// Whether the own row of the container was written since the mark, as far as the sweep knows, or the container has no such row.
    pub(crate) fn needs_no_row(&self, key: &Key, found: &Found<'_>) -> bool
        ensures { result ≡ knows_row self.now.cursor self.now.touched key.now || is_unseen found.now }
    {
        self.knows_row(key) || is_unseen(found)
    }

    // Whether the container was touched.
    fn is_touched(&self, key: &Key) -> bool
        ensures { result ≡ is_touched self.now.touched key.now }
    {
        self.touched.get(key).is_some()
    }

    // Whether the blob was touched.
    fn is_touched_blob(&self, key: &Key, name: &[u8]) -> bool
        ensures { result ≡ is_touched_blob self.now.touched key.now name.now }
    {
        match self.touched.get(key) {
            Some(names) => names.get(name).is_some(),
            None => false,
        }
    }

    /// Whether the row of the container was written since the mark, as far as the sweep knows.
    pub(crate) fn knows_row(&self, key: &Key) -> bool
        ensures { result ≡ knows_row self.now.cursor self.now.touched key.now }
    {
        self.cursor.is_past(key) || self.is_touched(key)
    }

    /// Whether the row of the blob was written since the mark, as far as the sweep knows.
    pub(crate) fn knows_blob(&self, key: &Key, name: &[u8]) -> bool
        ensures { result ≡ knows_blob self.now.cursor self.now.touched key.now name.now }
    {
        self.cursor.is_past_blob(key, name) || self.is_touched_blob(key, name)
    }

    /// Whether the row of the blob was written since the mark, as far as the sweep knows, or nothing is left of a blob of this name.
    pub(crate) fn knows_name(&self, key: &Key, found: &Found<'_>, name: &Text) -> bool
        ensures { result ≡ knows_name self.now.cursor self.now.touched key.now found.now name.now }
    {
        self.knows_blob(key, name.as_str().as_bytes()) || !has_blob(found, name)
    }

    // The same of the blob that an act reads, if it reads one.
    fn knows_read(&self, key: &Key, found: &Found<'_>, act: &Act) -> bool
        ensures { result ≡ knows_read self.now.cursor self.now.touched key.now found.now act.now }
    {
        match act {
            Act::SetMetadata(set) => self.knows_name(key, found, &set.blob),
            Act::PutBlock(put) => self.knows_name(key, found, &put.blob),
            Act::PutBlockList(list) => self.knows_name(key, found, &list.blob),
            _ => true,
        }
    }

    /// Whether an act may be logged before any row is written, as far as the sweep knows.
    pub(crate) fn may_log(&self, key: &Key, found: &Found<'_>, act: &Act) -> bool
        ensures { result ≡ may_log self.now.cursor self.now.touched key.now found.now act.now }
    {
        self.needs_no_row(key, found) && self.knows_read(key, found, act)
    }
}

/// The name of the blob that an act reads, if it reads one.
pub(crate) fn read_name(act: &Act) -> Option<&Text>
    ensures { option_copied result ≡ read_by act.now }
{
    match act {
        Act::SetMetadata(set) => Some(&set.blob),
        Act::PutBlock(put) => Some(&put.blob),
        Act::PutBlockList(list) => Some(&list.blob),
        _ => None,
    }
}

// Whether something is left of the blob.
fn has_blob(found: &Found<'_>, name: &Text) -> bool
    ensures { result ≡ is_left (blob_in found.now name.now) }
{
    let blob = found.seen(name);
    blob.committed().is_some() || blob.has_uncommitted()
}

// Whether the container has seen no change.
fn is_unseen(found: &Found<'_>) -> bool
    ensures { result ≡ is_unseen found.now }
{
    found.count() == 0 && found.standing().is_none()
}

/// Ends the sweep, if one is under way. The rows that it has written stay, and the garbage waits for the next sweep.
pub(crate) fn end_sweep(sweep: &mut Option<Sweep>)
    ensures { sweep.new ≡ None }
{
    *sweep = None;
}

/// Ends a sweep that does not know that the change may be logged: a row that the change reads would be given up with what comes before the
/// mark. A caller who touched the change keeps the sweep.
pub(crate) fn keep_sweep(sweep: &mut Option<Sweep>, rows: &Option<Rows>, change: &Change)
    ensures { sweep.new ≡ kept_sweep sweep.old rows.now change.now }
{
    let Some(under_way) = sweep else {
        return;
    };
    let Some(rows) = rows else {
        *sweep = None;
        return;
    };
    if !under_way.may_log(change.key(), &rows.find(change.key()), change.act()) {
        *sweep = None;
    }
}

/// The sweep of the upper half of rows that are cut, if a sweep of the rows is under way: it goes on from the same mark, and knows the rows up to the
/// cursor. These are the streams of the half, and it has room of its own for their handles. A row that was touched beyond the cursor may be written once
/// more.
///
/// `AllocError` if memory runs out.
pub(crate) fn sweep_of_half(
    alloc: Global,
    sweep: &Option<Sweep>,
    streams: &Streams,
) -> Result<Option<Sweep>, AllocError>
    ensures { IfOk result (IsOfHalf sweep.now streams.now) }
{
    let Some(under_way) = sweep else {
        return Ok(None);
    };
    let room = streams.sweep_room()?;
    let half = under_way.part(alloc, room)?;
    Ok(Some(half))
}

/// The parts of a sweep that has written each row. The sweep is then over.
#[derive(Drop)]
pub(crate) struct Swept {
    pub(crate) mark: Mark,
    pub(crate) room: HandleRoom,
    // The count of the streams when the sweep began.
    pub(crate) began: Waste,
    // To drop these takes time for each name.
    pub(crate) touched: Keyed<Named<Written>>,
}

// Takes a sweep apart.
fn parts_of(sweep: Sweep) -> Swept
    ensures mark { result.mark ≡ sweep.mark }
    ensures room { result.room ≡ sweep.room }
    ensures began { result.began ≡ sweep.began }
{
    let Sweep {
        mark,
        room,
        cursor,
        touched,
        began,
    } = sweep;
    drop(cursor);
    Swept {
        mark,
        room,
        began,
        touched,
    }
}

// Whether a sweep is under way that has written each row.
fn is_over(sweep: &Option<Sweep>) -> bool
    ensures { result ≡ is_over sweep.now }
{
    match sweep {
        Some(under_way) => under_way.is_done(),
        None => false,
    }
}

/// Ends a sweep that has written each row, and gives its parts. `None` if no sweep is under way, or rows are left.
pub(crate) fn end_if_over(sweep: &mut Option<Sweep>) -> Option<Swept>
    ensures over { MatchOption result (sweep.new ≡ sweep.old) (λ e. IsOver sweep.old e × (sweep.new ≡ None)) }
    ensures left { result ≡ None → is_over sweep.old ≡ false }
{
    if !is_over(sweep) {
        return None;
    }
    match sweep.take() {
        Some(over) => Some(parts_of(over)),
        None => None,
    }
}
