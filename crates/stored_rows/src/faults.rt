//! Which fault of stored rows a fault of streams is, and what became of a change that was in doubt.
ghost use Rattle.std.specs.Prelude.{◌≡◌};
ghost use Rattle.stored_rows.specs.Faults.{stored_fault_of_compaction, stored_fault_of_read};

use extent_seal::ReadFault;
use partition_stream::CompactionFault;
use stream_manager::StoredFault;

/// The fault of a load whose read failed.
pub(crate) fn stored_fault_of_read(fault: ReadFault) -> StoredFault
    ensures { result ≡ stored_fault_of_read fault }
{
    match fault {
        ReadFault::Unreachable => StoredFault::Busy,
        ReadFault::NoMemory => StoredFault::NoMemory,
    }
}

/// The fault of a row whose content was not put again.
pub(crate) fn stored_fault_of_compaction(fault: CompactionFault) -> StoredFault
    ensures { result ≡ stored_fault_of_compaction fault }
{
    match fault {
        CompactionFault::Busy | CompactionFault::Unreachable => StoredFault::Busy,
        CompactionFault::NoMemory => StoredFault::NoMemory,
    }
}

/// What became of a change that was in doubt.
#[derive(Clone, Copy, PartialEq, Eq)]
pub enum Ended {
    /// No change was in doubt.
    Clean,
    /// The change is counted.
    Kept,
    /// The change is not counted.
    Dropped,
}
