//! Rows and streams that are cut at a key.
ghost use Rattle.std.specs.Prelude.{◌≡◌, IfOk, OnErr, OnOk};
ghost use Rattle.std.specs.Option.{option_map};
ghost use Rattle.std.specs.FinMap as finite;
ghost use Rattle.stamp_values.specs.Trees.{is_below, is_from};
ghost use Rattle.partition_stream.specs.Streams.{AreSealed, HaveSameBlocks, HaveSameLimits};
ghost use Rattle.stored_rows.specs.Swept.{IsOfHalf};

use crate::key_range::KeyRange;
use crate::sweep::{Sweep, sweep_of_half};
use partition_stream::Streams;
use row_trees::Rows;
use stamp_types::Key;
use std::alloc::{AllocError, Global};

/// The end of the lower half of a range that is cut at a key, and the range of the upper half.
pub(crate) fn ends_of(range: &KeyRange, middle: &Key) -> Result<(Key, KeyRange), AllocError>
    ensures lower { IfOk result (λ ends. ends.0 ≡ middle.now) }
    ensures upper { IfOk result (λ ends. ends.1 ≡ record { from = middle.now; to = range.now.to }) }
{
    let end = middle.clone()?;
    let from = middle.clone()?;
    let to = range.to.clone()?;
    Ok((end, KeyRange { from, to }))
}

// Takes the containers of a key and of each key after it out of the rows, if they are loaded, and gives them.
fn split_rows(rows: &mut Option<Rows>, middle: &Key) -> Result<Option<Rows>, AllocError>
    ensures below { OnOk result (rows.new ≡ option_map (λ w. finite.retain_keys w (is_below middle.now)) rows.old) }
    ensures from { IfOk result (λ upper. upper ≡ option_map (λ w. finite.retain_keys w (is_from middle.now)) rows.old) }
    ensures refused { OnErr result (rows.new ≡ rows.old) }
{
    match rows {
        Some(loaded) => {
            let upper = loaded.split_off(middle)?;
            Ok(Some(upper))
        }
        None => Ok(None),
    }
}

/// The streams, the rows and the sweep of the upper half of rows that are cut.
#[derive(Drop)]
pub(crate) struct UpperHalf {
    pub(crate) streams: Streams,
    pub(crate) rows: Option<Rows>,
    pub(crate) sweep: Option<Sweep>,
}

/// Streams that share what these have, a sweep that goes on over them, if one is under way, and the rows of the key and of each key after it, which
/// leave the rows.
///
/// `AllocError`: the streams and the rows are as they were.
pub(crate) fn share_upper(
    alloc: Global,
    streams: &mut Streams,
    rows: &mut Option<Rows>,
    sweep: &Option<Sweep>,
    middle: &Key,
) -> Result<UpperHalf, AllocError>
    requires sealed { AreSealed streams.old }
    ensures same { streams.new ≡ streams.old }
    ensures shared { IfOk result (λ upper. HaveSameBlocks streams.old upper.streams) }
    ensures whole { IfOk result (λ upper. AreSealed upper.streams) }
    ensures limits { IfOk result (λ upper. HaveSameLimits streams.old upper.streams) }
    ensures sweep { IfOk result (λ upper. IsOfHalf sweep.now upper.streams upper.sweep) }
    ensures below { OnOk result (rows.new ≡ option_map (λ w. finite.retain_keys w (is_below middle.now)) rows.old) }
    ensures from { IfOk result (λ upper. upper.rows ≡ option_map (λ w. finite.retain_keys w (is_from middle.now)) rows.old) }
    ensures refused { OnErr result (rows.new ≡ rows.old) }
{
    let shared = streams.share()?;
    let Ok(going_on) = sweep_of_half(alloc, sweep, &shared) else {
        drop(shared);
        return Err(AllocError);
    };
    match split_rows(rows, middle) {
        Ok(upper) => Ok(UpperHalf {
            streams: shared,
            rows: upper,
            sweep: going_on,
        }),
        Err(fault) => {
            drop(shared);
            drop(going_on);
            Err(fault)
        }
    }
}
