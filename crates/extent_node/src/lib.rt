//! The three nodes that have the replicas of an extent, and the wire to them.
#![tactic(auto)]

mod replica;
mod script;
mod wire;

pub use replica::Replica;
pub use script::Script;
pub use wire::{Call, Delivery, Node, Wire};
