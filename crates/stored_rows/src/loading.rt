//! Rows that are made of the changes that streams keep.
ghost use Rattle.std.specs.Prelude.{◌≡◌, ◌≢◌, ◌<◌, Err, IfOk, IfSome, IsTrue, Ok, OnOk, false, true};
ghost use Rattle.extent_seal.specs.Counting.{Grows, all_faults};
ghost use Rattle.extent_seal.specs.Heard.{AsksAreHeard};
ghost use Rattle.extent_seal.specs.declared.sealed.ReadFault.TheVariants.{Unreachable};
ghost use Rattle.stamp_types.specs.Pieces.{pieces_len};
ghost use Rattle.stamp_types.specs.World.{changed_in, part_at, part_value, same_pieces};
ghost use Rattle.row_trees.specs.Fits.{fits};
ghost use Rattle.row_trees.specs.ListedBlocks.{AreFoundFor};
ghost use Rattle.stored_rows.specs.Fitting.{AllFit};
ghost use Rattle.stored_rows.specs.Loaded.{AreRowsOf, HaveRead, IsFollowed, changes_left, with_change};
ghost use Rattle.stored_rows.specs.Ranges.{covers};

use crate::key_range::KeyRange;
use block_blobs::FoundBlocks;
use extent_node::Wire;
use extent_seal::ReadFault;
use partition_stream::{Position, Streams};
use row_trees::Rows;
use stamp_types::Change;
use std::alloc::{AllocError, Global};

// Makes a change of a container of the range. A change of another container is passed.
fn make(alloc: Global, rows: &mut Rows, range: &KeyRange, change: Change) -> Result<(), ReadFault>
    requires { covers range.now change.key ≡ true → IsTrue (fits (part_value pieces_len (part_at rows.old change.key)) change.act) }
    ensures made { OnOk result (rows.new ≡ with_change range.now rows.old change) }
    ensures reached { result ≢ Err Unreachable }
{
    if !range.covers(change.key()) {
        drop(change);
        return Ok(());
    }
    match rows.take(alloc, change) {
        Ok(()) => Ok(()),
        Err(AllocError) => Err(ReadFault::NoMemory),
    }
}

// Reads the change after a position, and makes it if it is one of the range. The answer says whether there was a change.
fn make_next<W: Wire>(
    alloc: Global,
    rows: &mut Rows,
    streams: &Streams,
    range: &KeyRange,
    position: &mut Position,
    wire: &mut W,
) -> Result<bool, ReadFault>
    requires fit { AllFit streams.now }
    requires read { HaveRead range.now streams.now position.old rows.old }
    ensures made { OnOk result (HaveRead range.now streams.now position.new rows.new) }
    ensures more { result ≡ Ok true → changes_left streams.now position.new < changes_left streams.now position.old }
    ensures ended { result ≡ Ok false → changes_left streams.now position.new ≡ 0 }
    ensures unreachable { result ≡ Err Unreachable → all_faults (W.faults wire.old) < all_faults (W.faults wire.new) }
    ensures grown { Grows (W.faults wire.old) (W.faults wire.new) }
    ensures heard { result ≢ Err Unreachable → AsksAreHeard (W.calls wire.old) (W.calls wire.new) (W.faults wire.old) (W.faults wire.new) }
{
    let Some((change, _epoch)) = streams.next_change(position, wire)? else {
        return Ok(false);
    };
    make(alloc, rows, range, change)?;
    Ok(true)
}

/// Rows that have all changes of the streams, in their order, but only those of the range.
///
/// Unreachable: each node with a copy of some extent was asked, and answered no.
pub(crate) fn rows_of<W: Wire>(
    alloc: Global,
    streams: &Streams,
    range: &KeyRange,
    wire: &mut W,
) -> Result<Rows, ReadFault>
    requires { AllFit streams.now }
    ensures loaded { IfOk result (λ w. AreRowsOf range.now streams.now w) }
    ensures unreachable { result ≡ Err Unreachable → all_faults (W.faults wire.old) < all_faults (W.faults wire.new) }
    ensures grown { Grows (W.faults wire.old) (W.faults wire.new) }
    ensures heard { result ≢ Err Unreachable → AsksAreHeard (W.calls wire.old) (W.calls wire.new) (W.faults wire.old) (W.faults wire.new) }
{
    let mut rows = Rows::new(alloc);
    let mut position = Position::first();
    'changes: while make_next(alloc, &mut rows, streams, range, &mut position, wire)? {}
    Ok(rows)
}

// Makes a change in rows. If the blocks of its list were found in these rows before, no block is looked up.
fn make_found(
    alloc: Global,
    rows: &mut Rows,
    change: Change,
    found: Option<FoundBlocks>,
) -> Result<(), AllocError>
    requires fits { IsTrue (fits (part_value pieces_len (part_at rows.old change.key)) change.act) }
    requires found { IfSome found (λ blocks. AreFoundFor (part_at rows.old change.key) change.act blocks) }
    ensures { OnOk result (rows.new ≡ changed_in same_pieces rows.old change) }
{
    match found {
        Some(found) => rows.take_found(alloc, change, found),
        None => rows.take(alloc, change),
    }
}

/// Makes a change in the rows that are loaded, with the blocks that were found for it in these rows, if they were found. If the rows find no
/// memory they are dropped.
pub(crate) fn follow(
    alloc: Global,
    rows: &mut Option<Rows>,
    change: Change,
    found: Option<FoundBlocks>,
)
    requires fits { IfSome rows.old (λ w. IsTrue (fits (part_value pieces_len (part_at w change.key)) change.act)) }
    requires found { IfSome rows.old (λ w. IfSome found (λ blocks. AreFoundFor (part_at w change.key) change.act blocks)) }
    ensures { IsFollowed rows.old change rows.new }
{
    if let Some(loaded) = rows {
        if make_found(alloc, loaded, change, found).is_err() {
            *rows = None;
        }
    }
}

/// Makes the change that was in doubt, now that it is kept.
pub(crate) fn follow_doubt(alloc: Global, rows: &mut Option<Rows>, doubt: Option<Change>)
    requires { IfSome doubt (λ c. IfSome rows.old (λ w. IsTrue (fits (part_value pieces_len (part_at w c.key)) c.act))) }
    ensures { IfSome doubt (λ c. IsFollowed rows.old c rows.new) }
{
    match doubt {
        Some(change) => follow(alloc, rows, change, None),
        None => *rows = None,
    }
}
