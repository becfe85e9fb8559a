//! The rows of one container and of one blob, as changes.
ghost use Rattle.std.specs.Prelude.{◌≡◌, ◌≤◌, IfOk, MatchOption, false, true};
ghost use Rattle.stamp_values.specs.Names.{is_blob};
ghost use Rattle.stamp_values.specs.Texts.{is_utf8};
ghost use Rattle.stamp_types.specs.declared.act.Act.TheVariants as act;
ghost use Rattle.row_trees.specs.RowRecords.{blob_row_of, container_row_of};
ghost use Rattle.checkpoint_rows.specs.Writing.{HasGoodNames, IsWritableBlob};

use row_trees::{Found, FoundBlob};
use stamp_types::{Act, Change, Key, Text};
use std::alloc::{AllocError, Global};

// The text that the bytes are, if they are UTF-8.
fn utf8_text(bytes: &[u8]) -> Option<&str>
    ensures { MatchOption result (is_utf8 bytes.now ≡ false)
        (λ text. (is_utf8 bytes.now ≡ true) × (text.now ≡ bytes.now)) }
{
    match str::from_utf8(bytes) {
        Ok(text) => Some(text),
        Err(_error) => None,
    }
}

// The name of a blob as a text of its own.
#[tactic(auto, using(crate::proofs::RowLemmas::clean_name))]
fn name_of(alloc: Global, name: &[u8]) -> Result<Text, AllocError>
    requires text { is_utf8 name.now ≡ true }
    requires good { is_blob name.now ≡ true }
    ensures { IfOk result (λ t. t ≡ name.now) }
{
    let Some(text) = utf8_text(name) else {
        unreachable!("the name of a blob is UTF-8");
    };
    match Text::new(String::from_str(alloc, text)?) {
        Some(text) => Ok(text),
        None => unreachable!("the name of a blob is a text"),
    }
}

/// The row of a container without its blobs.
#[tactic(auto, using(crate::proofs::RowLemmas::container_good))]
pub fn container_row(key: &Key, found: &Found<'_>) -> Result<Change, AllocError>
    requires named { HasGoodNames key.now }
    requires counted { 1 ≤ found.now.count }
    ensures { IfOk result (λ c. c ≡ record { key = key.now; act = act.ContainerRow (container_row_of found.now) }) }
{
    let key = key.clone()?;
    let row = found.row()?;
    Ok(Change::fitting(key, Act::ContainerRow(row)))
}

/// The row of a blob of which something is left.
#[tactic(auto, using(crate::proofs::RowLemmas::blob_good))]
pub fn blob_row(
    alloc: Global,
    key: &Key,
    name: &[u8],
    blob: &FoundBlob<'_>,
) -> Result<Change, AllocError>
    requires { IsWritableBlob key.now name.now blob.now }
    ensures { IfOk result (λ c. c ≡ record { key = key.now; act = blob_row_of (name.now, blob.now) }) }
{
    let Some(row) = blob.row() else {
        unreachable!("the rows have this blob");
    };
    let key = key.clone()?;
    let name = name_of(alloc, name)?;
    let row = row.row(alloc, name)?;
    Ok(Change::fitting(key, Act::StoredBlob(row)))
}
