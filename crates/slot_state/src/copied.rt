//! Copies of histories.
ghost use Rattle.std.specs.Prelude.{◌≡◌, IfOk, OnErr, OnOk};
ghost use Rattle.std.specs.FinMap as finite;

use crate::history::History;
use stamp_types::Key;
use stamp_values::Keyed;
use std::alloc::{AllocError, Global};

// A copy of the list under a copy of its key.
fn copy_one(copy: &mut Keyed<History>, key: &Key, history: &History) -> Result<(), AllocError>
    ensures copied { OnOk result (copy.new ≡ finite.insert copy.old key.now history.now) }
    ensures refused { OnErr result (copy.new ≡ copy.old) }
{
    let own = key.clone()?;
    let list = history.clone()?;
    copy.insert(own, list)?;
    Ok(())
}

/// The same lists under the same keys. Entries are further owners of their requests.
///
/// `AllocError` if memory runs out.
#[tactic(auto, using(crate::proofs::CopyLemmas::all_put))]
pub(crate) fn copied(alloc: Global, lists: &Keyed<History>) -> Result<Keyed<History>, AllocError>
    ensures { IfOk result (λ copy. copy ≡ lists.now) }
{
    let mut copy = Keyed::new(alloc);
    for (key, history) in lists.iter() {
        copy_one(&mut copy, key, history)?;
    }
    Ok(copy)
}
