//! Lists in records.
ghost use Rattle.std.specs.Prelude.{◌≡◌, ◌++◌, IsOk, OnOk, All};
ghost use Rattle.std.specs.List.{flat_map};
ghost use Rattle.log_record.specs.Outcomes.{Gives};
ghost use Rattle.log_record.specs.Reading.{list_at, each_at};
ghost use Rattle.log_record.specs.Forms.{list_bytes, FitsList};

use crate::field::{Recorded, append_len};
use crate::left::Left;
use crate::record_fault::RecordFault;
use std::alloc::{AllocError, Global};

// Appends the bytes of each item.
fn append_each<T: Recorded>(items: &[T], out: &mut Vec<u8>) -> Result<(), AllocError>
    ensures written { OnOk result (out.new.items ≡ out.old.items ++ flat_map T.bytes items.now) }
    ensures fits { IsOk result → All T.Fits items.now }
{
    for item in items {
        item.append(out)?;
    }
    Ok(())
}

/// Appends a list: how many items it has, and then the items.
///
/// `AllocError` if memory runs out.
#[tactic(auto, unfolding(crate::specs::Forms::list_bytes))]
pub(crate) fn append_list<T: Recorded>(items: &[T], out: &mut Vec<u8>) -> Result<(), AllocError>
    ensures written { OnOk result (out.new.items ≡ out.old.items ++ list_bytes T.bytes items.now) }
    ensures fits { IsOk result → FitsList T.Fits items.now }
{
    append_len(out, items.len())?;
    append_each(items, out)
}

// Takes that many items.
fn read_each<T: Recorded + Drop>(
    alloc: Global,
    left: &mut Left<'_>,
    count: u32,
) -> Result<Vec<T>, RecordFault>
    ensures { Gives (λ v. v.items) result left.new.bytes.now
        (each_at T.at count left.old.bytes.now) }
{
    // An item has at least five bytes, so a count that is too large gets no more room than the
    // record itself can fill.
    let most = left.bytes.len() / 5;
    let mut items = Vec::with_capacity(alloc, (count as usize).min(most))?;
    for _ in 0..count {
        let item = T::read(alloc, left)?;
        items.push(item)?;
    }
    Ok(items)
}

/// Takes a list. `Form` if an item is not there.
#[tactic(auto, unfolding(crate::specs::Reading::list_at))]
pub(crate) fn read_list<T: Recorded + Drop>(
    alloc: Global,
    left: &mut Left<'_>,
) -> Result<Vec<T>, RecordFault>
    ensures { Gives (λ v. v.items) result left.new.bytes.now (list_at T.at left.old.bytes.now) }
{
    let count = left.short_number()?;
    read_each(alloc, left, count)
}
