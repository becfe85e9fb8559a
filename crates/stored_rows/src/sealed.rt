//! What a seal answers.
ghost use Rattle.std.specs.Prelude.{◌≡◌};
ghost use Rattle.stored_rows.specs.Noting.{sealed_by};

use stream_manager::StoredFault;

/// The log, the data and the rows were sealed. Only [`StoredRows::seal`](crate::StoredRows::seal) makes such a value.
#[derive(Clone, Copy)]
pub struct AllSealed {
    pub(crate) done: (),
}

/// The answer of a seal.
pub(crate) fn note_sealed(sealed: Result<(), StoredFault>) -> Result<AllSealed, StoredFault>
    ensures { result ≡ sealed_by sealed }
{
    match sealed {
        Ok(()) => Ok(AllSealed { done: () }),
        Err(fault) => Err(fault),
    }
}
