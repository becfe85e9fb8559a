//! Histories of containers, the key pairs of accounts, and what a request needs before a lock.
#![tactic(auto)]

mod account_pairs;
mod chunk;
mod copied;
mod event;
mod histories;
mod history;
mod kept;
mod kept_histories;
mod laws;
mod next_pairs;
mod pair_list;
mod pairs_fault;
mod proved;
mod ready;
mod rotate_fault;
mod rotating;

pub use account_pairs::AccountPairs;
pub use event::Event;
pub use histories::Histories;
pub use history::History;
pub use kept_histories::KeptHistories;
pub use laws::{
    a_slot_keeps_to_its_range, a_slot_serves_one_step, a_split_loses_nothing,
    what_is_pushed_back_was_not_there,
};
pub use pair_list::PairList;
pub use pairs_fault::PairsFault;
pub use proved::ProvedHistories;
pub use ready::{Ready, key_of_list};
pub use rotate_fault::RotateFault;
pub use rotating::Longer;
