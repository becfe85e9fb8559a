//! Records that are appended to a log.
ghost use Rattle.std.specs.Prelude.{◌≡◌, ◌≢◌, ◌≤◌, Err, IfOk, length};
ghost use Rattle.std.specs.Result.{IsOkUnless};
ghost use Rattle.extent_seal.specs.Heard.{AsksAreHeard};
ghost use Rattle.log_record.specs.Fits.{IsRecorded};
ghost use Rattle.log_record.specs.Records.{record_bytes};
ghost use Rattle.log_record.specs.Sizes.{IsPlacedChange};
ghost use Rattle.stream_manager.specs.Places.{GoesOn};
ghost use Rattle.stream_manager.specs.Streams.{laid};
ghost use Rattle.partition_stream.specs.Counting.{CallsLog, FailsLog};
ghost use Rattle.partition_stream.specs.Logging.{IsRecordAppended};
ghost use Rattle.partition_stream.specs.declared.faults.TakeFault.TheVariants.{Busy, Doubt, NoMemory};

use crate::faults::TakeFault;
use extent_node::Wire;
use log_record::write_change;
use stamp_types::Change;
use stamp_values::Share;
use std::alloc::Global;
use stream_manager::{AppendFault, Stream};

/// The record of a change with its epoch.
pub(crate) fn record_of(alloc: Global, change: &Change, epoch: u64) -> Result<Share, TakeFault>
    requires { IsPlacedChange change.now }
    ensures written { IfOk result (λ b. b ≡ record_bytes 2 change.now epoch) }
    ensures fits { IfOk result (λ b. IsRecorded change.now) }
    ensures short { IfOk result (λ b. length b ≤ 16_777_216) }
    ensures refused { IsOkUnless result NoMemory }
{
    let bytes = write_change(alloc, change, epoch)?;
    let record = Share::new(alloc, bytes)?;
    Ok(record)
}

/// Appends a record to the log, and answers how many bytes the record has.
pub(crate) fn append_record<W: Wire>(
    log: &mut Stream,
    block: &Share,
    wire: &mut W,
) -> Result<u64, TakeFault>
    requires { length block.now ≤ 16_777_216 }
    ensures length { IfOk result (λ n. n ≡ length block.now) }
    ensures appended { IsRecordAppended result log.old block.now log.new }
    ensures follows { GoesOn (laid log.old) (laid log.new) }
    ensures limit { log.new.limit ≡ log.old.limit }
    ensures called { CallsLog result (length log.old.sealed) (length log.new.sealed) (W.calls wire.old) (W.calls wire.new) }
    ensures counted { FailsLog result (length log.old.sealed) (length log.new.sealed) (W.faults wire.old) (W.faults wire.new) }
    ensures heard { result ≢ Err Doubt → result ≢ Err Busy → AsksAreHeard (W.calls wire.old) (W.calls wire.new) (W.faults wire.old) (W.faults wire.new) }
    ensures unheard { (result ≡ Err NoMemory) → wire.new ≡ wire.old }
{
    match log.append(block, wire) {
        Ok(_place) => Ok(block.len() as u64),
        Err(AppendFault::Busy) => Err(TakeFault::Busy),
        Err(AppendFault::Doubt) => Err(TakeFault::Doubt),
        Err(AppendFault::NoMemory) => Err(TakeFault::NoMemory),
        Err(AppendFault::TooLarge) => unreachable!("a record fits a block"),
    }
}
