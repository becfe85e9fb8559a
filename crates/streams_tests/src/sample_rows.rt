//! Rows of one container, for tests.
ghost use Rattle.std.specs.Prelude.{◌≡◌, List};
ghost use Rattle.extent_node.specs.Copies.{Block};
ghost use Rattle.stamp_types.specs.Contents.{EachWorldContent};
ghost use Rattle.stamp_types.specs.declared.act.Act.TheVariants as act;
ghost use Rattle.stamp_types.specs.declared.act.CreateContainer.{CreateContainer};
ghost use Rattle.partition_stream.specs.Contents.{AreStored};
ghost use Rattle.checkpoint_rows.specs.Writing.{AreWritable};

use crate::sample_fields::{key, noon};
use row_trees::Rows;
use stamp_types::{Act, Change, CreateContainer, Level, Metadata};
use std::alloc::Global;
use std::process::Abort;

/// The change that creates the container `pics`.
pub(crate) fn created(rt: &impl Abort, alloc: Global) -> Change
    ensures { (a : CreateContainer) × (result.act ≡ act.CreateContainer a) }
{
    let created = CreateContainer {
        moment: noon(rt),
        level: Level::Closed,
        metadata: Metadata::empty(),
    };
    Change::new(key(rt, alloc), Act::CreateContainer(created)).expect(rt, "a good change")
}

/// Rows that have taken this change, which creates a container, and no other change. A checkpoint can write them.
#[tactic(auto, using(crate::proofs::CreatedLemmas::created_writable, crate::proofs::CreatedLemmas::created_stored))]
pub(crate) fn rows_of(rt: &impl Abort, alloc: Global, change: Change) -> Rows
    requires { (a : CreateContainer) × (change.act ≡ act.CreateContainer a) }
    ensures writable { AreWritable result }
    ensures stored { (es : List (List Block)) → EachWorldContent (AreStored es) result }
{
    let mut rows = Rows::new(alloc);
    let fits = rows.fits(alloc, &change).expect(rt, "memory");
    assert!(rt; fits);
    // A change has good names.
    let _names = change.act();
    rows.take(alloc, change).expect(rt, "memory");
    rows
}
