//! Extents of three replicas: how blocks are appended, how an extent is sealed, and how it is read.
#![tactic(auto)]

mod copying;
mod cutting;
mod laws;
mod open_extent;
mod repair;
mod sealed;
mod shares;

pub use laws::{asks_in_vain_are_not_heard, replicas_hold_prefixes};
pub use open_extent::{Appended, NoReplica, OpenExtent};
pub use sealed::{ReadFault, Sealed};
pub use shares::BlockOwners;
