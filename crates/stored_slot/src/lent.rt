//! What a slot lends of a container and of an account.
ghost use Rattle.std.specs.Prelude.{◌≡◌};
ghost use Rattle.std.specs.Option.{option_copied};
ghost use Rattle.stamp_model.specs.Histories.{IsLegal, NoneIsLater};
ghost use Rattle.slot_state.specs.HistoryMaps.{history_at};
ghost use Rattle.slot_state.specs.Pairs.{current_at, epoch_of, pairs_at};

use crate::stored_slot::StoredSlot;
use slot_state::{Histories, KeptHistories, PairList};
use stamp_types::{Key, Past, Text};

impl<H: Histories> StoredSlot<H> {
    /// The key pairs of the account, the oldest pair first; none if the stamp has no such account. Takes no memory.
    pub fn pairs(&self, account: &Text) -> &PairList
        ensures { result.now ≡ pairs_at self.now.pairs account.now }
    {
        self.parts.pairs.of_account(account)
    }

    /// The change of which it is not known whether it was made, if there is one. Takes no memory.
    pub fn doubt(&self) -> Option<&Past>
        ensures { option_copied result ≡ self.now.doubt }
    {
        self.parts.doubt.as_ref()
    }
}

impl StoredSlot<KeptHistories> {
    // The accepted changes of a container.
    fn found(&self, key: &Key) -> &[Past]
        ensures { result.now ≡ history_at self.now.histories key.now }
    {
        match self.parts.histories.history(key) {
            Some(history) => history.as_slice(),
            None => &[],
        }
    }

    /// The accepted changes of a container, the oldest first. They are legal by the key pairs of its account, and no change is of a later
    /// epoch than the pair in force. Takes no memory.
    pub fn history(&self, key: &Key) -> &[Past]
        ensures history { result.now ≡ history_at self.now.histories key.now }
        ensures legal { IsLegal (pairs_at self.now.pairs key.now.account) key.now result.now }
        ensures latest { NoneIsLater (epoch_of (current_at self.now.pairs key.now.account)) result.now }
    {
        let _pairs = &self.parts.pairs;
        self.found(key)
    }
}
