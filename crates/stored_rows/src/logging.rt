//! Changes whose content is put and which are logged.
ghost use Rattle.std.specs.Prelude.{◌≡◌, ◌≢◌, Err, IfOk, IfSome, IsSomeAnd, IsTrue, None, OnErr, false, length, map};
ghost use Rattle.extent_seal.specs.Heard.{AsksAreHeard};
ghost use Rattle.stamp_types.specs.ActKinds.{is_row};
ghost use Rattle.stamp_types.specs.Changes.{content_of};
ghost use Rattle.stamp_types.specs.Pieces.{is_held, piece_len};
ghost use Rattle.stream_manager.specs.Places.{GoesOn, KeepsPlaces};
ghost use Rattle.stream_manager.specs.Streams.{laid};
ghost use Rattle.stream_manager.specs.declared.faults.StoredFault.TheVariants as stored_fault;
ghost use Rattle.partition_stream.specs.Counting.{FailsPut};
ghost use Rattle.partition_stream.specs.Storing.{AreKept};
ghost use Rattle.partition_stream.specs.Streams.{HaveSameLimits, logged};
ghost use Rattle.partition_stream.specs.Sweeping.{AreFrom};
ghost use Rattle.partition_stream.specs.Written.{written_len};
ghost use Rattle.stored_rows.specs.Counting.{FailsLogged};
ghost use Rattle.stored_rows.specs.Faults.{unlogged_by, unlogged_of_put};
ghost use Rattle.stored_rows.specs.Heard.{HearsLogged};
ghost use Rattle.stored_rows.specs.Rewriting.{IfLogged};
ghost use Rattle.stored_rows.specs.Logging.{IsLoggedFrom, IsPutAt, IsPutAndLogged, KeepsFound, with_placed};

use extent_node::Wire;
use partition_stream::{Streams, TakeFault};
use stamp_types::{Change, Pieces};
use stream_manager::StoredFault;

/// Why a change was not logged.
#[derive(Drop)]
pub(crate) enum Unlogged {
    /// The change is not counted.
    Busy,
    /// The change is in doubt: this is the change as the log may keep it.
    Doubt(Change),
    /// Memory ran out. The change is not counted.
    NoMemory,
}

impl From<StoredFault> for Unlogged {
    ghost use Rattle.std.specs.Prelude.{◌≡◌};
    ghost use Rattle.stored_rows.specs.Faults.{unlogged_of_put};

    ghost from_gives = { λ f e. e ≡ unlogged_of_put f };

    fn from(fault: StoredFault) -> Self {
        match fault {
            StoredFault::Busy => Self::Busy,
            StoredFault::NoMemory => Self::NoMemory,
        }
    }
}

/// Why a change was not logged, with the change if it is in doubt.
pub(crate) fn not_logged(fault: TakeFault, kept: Change) -> Unlogged
    ensures { result ≡ unlogged_by fault kept }
{
    match fault {
        TakeFault::Doubt => Unlogged::Doubt(kept),
        TakeFault::Busy => {
            drop(kept);
            Unlogged::Busy
        }
        TakeFault::NoMemory => {
            drop(kept);
            Unlogged::NoMemory
        }
    }
}

// Puts the content of a change into the data, if it comes with content, and answers the pieces that say where it is. No byte is copied.
#[tactic(auto, using(stream_manager::proofs::RunLemmas::stays_on, extent_seal::proofs::HeardLemmas::heard_none))]
fn put_pieces<W: Wire>(
    streams: &mut Streams,
    change: &Change,
    wire: &mut W,
) -> Result<Option<Pieces>, StoredFault>
    requires held { IfSome (content_of change.now.act) (λ ps. IsTrue (is_held ps)) }
    ensures put { IfOk result (λ o. IsPutAt (laid streams.new.blobs) (content_of change.now.act) o) }
    ensures after { IfOk result (λ o. IfSome o (AreFrom (length streams.old.blobs.sealed))) }
    ensures places { KeepsPlaces (laid streams.old.blobs) (laid streams.new.blobs) }
    ensures follows { GoesOn (laid streams.old.blobs) (laid streams.new.blobs) }
    ensures log { streams.new.log ≡ streams.old.log }
    ensures rows { streams.new.rows ≡ streams.old.rows }
    ensures limit { streams.new.blobs.limit ≡ streams.old.blobs.limit }
    ensures counted { FailsPut result (W.faults wire.old) (W.faults wire.new) }
    ensures heard { result ≢ Err stored_fault.Busy → AsksAreHeard (W.calls wire.old) (W.calls wire.new) (W.faults wire.old) (W.faults wire.new) }
{
    match change.content() {
        Some(content) => match streams.put_data(content, wire) {
            Ok(pieces) => Ok(Some(pieces)),
            Err(fault) => Err(fault),
        },
        None => Ok(None),
    }
}

// The change with its content at these pieces, if it comes with content.
fn with_pieces(change: Change, pieces: Option<Pieces>) -> Change
    requires { IfSome pieces (λ ps. IsSomeAnd (content_of change.act) (λ qs. map piece_len qs ≡ map piece_len ps)) }
    ensures { result ≡ with_placed change pieces }
{
    match pieces {
        Some(pieces) => change.with_content(pieces),
        None => change,
    }
}

/// Puts the content of a change and then logs the change. The change that is answered is the one as the log keeps it: its content is at
/// places, and a list takes the same blocks. `written` is then how many bytes its record has. After a fault `written` is as it was.
#[tactic(auto, using(stream_manager::proofs::RunLemmas::stays_on))]
pub(crate) fn put_and_log<W: Wire>(
    streams: &mut Streams,
    change: Change,
    epoch: u64,
    written: &mut u64,
    wire: &mut W,
) -> Result<Change, Unlogged>
    requires plain { is_row change.act ≡ false }
    requires held { IfSome (content_of change.act) (λ ps. IsTrue (is_held ps)) }
    requires sure { (logged streams.old).doubt ≡ None }
    ensures logged { IsPutAndLogged result streams.old (change, epoch) streams.new }
    ensures found { IfOk result (λ kept. KeepsFound change kept) }
    ensures plain_kept { IfLogged result (λ kept. is_row kept.act ≡ false) }
    ensures length { IfOk result (λ kept. written.new ≡ written_len (kept, epoch)) }
    ensures unwritten { OnErr result (written.new ≡ written.old) }
    ensures counted { FailsLogged result (W.faults wire.old) (W.faults wire.new) }
    ensures heard { HearsLogged result (W.calls wire.old) (W.calls wire.new) (W.faults wire.old) (W.faults wire.new) }
    ensures from { IsLoggedFrom (length streams.old.blobs.sealed) change result }
    ensures log_follows { GoesOn (laid streams.old.log) (laid streams.new.log) }
    ensures blobs_follow { GoesOn (laid streams.old.blobs) (laid streams.new.blobs) }
    ensures whole { AreKept streams.old }
    ensures limits { HaveSameLimits streams.old streams.new }
{
    streams.kept();
    let pieces = match put_pieces(streams, &change, wire) {
        Ok(pieces) => pieces,
        Err(fault) => {
            drop(change);
            return Err(Unlogged::from(fault));
        }
    };
    let kept = with_pieces(change, pieces);
    match streams.log_change(&kept, epoch, wire) {
        Ok(length) => {
            *written = length;
            Ok(kept)
        }
        Err(fault) => Err(not_logged(fault, kept)),
    }
}
