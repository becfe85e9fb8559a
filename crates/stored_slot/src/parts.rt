//! The parts of a slot.

use crate::unknown_reply::UnknownReply;
use slot_state::{AccountPairs, Histories};
use stamp_types::Past;
use std::sync::Arc;
use stored_rows::StoredRows;

/// The parts of a slot. A step of a slot is a call of its parts: between two parts of a step, what is true of every slot may not
/// be true yet.
#[derive(Drop)]
pub(crate) struct SlotParts<H: Histories> {
    pub(crate) histories: H,
    pub(crate) stored: StoredRows,
    pub(crate) pairs: Arc<AccountPairs>,
    // The change that is in doubt, with the moment and the epoch at which it was served.
    pub(crate) doubt: Option<Past>,
    // The reply to the next change whose outcome is unknown, if it was made for an earlier change that did not need it.
    pub(crate) unknown: Option<UnknownReply>,
}
