//! Key pairs of a slot that become longer.
ghost use Rattle.std.specs.Prelude.{◌≡◌, OnErr, OnOk};
ghost use Rattle.std.specs.Arc.{arc_value};
ghost use Rattle.slot_state.specs.NextPairs.{AreFront, IsNext, ReplaysBy, with_next, with_pairs};
ghost use Rattle.slot_state.specs.Pairs.{pairs_at};

use crate::stored_slot::StoredSlot;
use access_rules::Keys;
use slot_state::{AccountPairs, Histories};
use stamp_types::Text;
use std::alloc::{AllocError, Global};
use std::sync::Arc;

impl<H: Histories> StoredSlot<H> {
    /// The key pairs of all accounts, which the slot shares. Takes no memory.
    pub fn account_pairs(&self) -> &Arc<AccountPairs>
        ensures { arc_value result.now ≡ self.now.pairs }
    {
        &self.parts.pairs
    }

    /// The slot takes longer key pairs: each account has the pairs that it had, and may have more pairs after them. From now on requests are
    /// judged by the last pair. What was accepted before stays as it is, and a change that is in doubt keeps its epoch, so it is judged by the
    /// pair that was in force when it was served. Takes no memory: the slot shares the pairs.
    pub fn catch_up(&mut self, pairs: Arc<AccountPairs>)
        requires { AreFront self.old.pairs (arc_value pairs) }
        ensures pairs { self.new ≡ with_pairs (arc_value pairs) self.old }
        ensures replays { ReplaysBy (arc_value pairs) self.old }
    {
        pairs.numbered();
        self.parts.pairs = pairs;
    }

    /// One account gets one pair more, whose epoch is the one after the epoch of the account's pair in force. The new pair is then in force,
    /// as after [`catch_up`](StoredSlot::catch_up). The slot gets lists of its own: other slots keep theirs. The pair itself is shared.
    ///
    /// `AllocError` if memory runs out for the lists, or if a pair can have no further owner. The slot is then as it was.
    pub fn rotate(
        &mut self,
        alloc: Global,
        account: &Text,
        pair: Arc<Keys>,
    ) -> Result<(), AllocError>
        requires { IsNext (pairs_at self.old.pairs account.now) (arc_value pair) }
        ensures rotated { OnOk result (self.new ≡ with_pairs (with_next self.old.pairs account.now (arc_value pair)) self.old) }
        ensures replays { OnOk result (ReplaysBy (with_next self.old.pairs account.now (arc_value pair)) self.old) }
        ensures refused { OnErr result (self.new ≡ self.old) }
    {
        let pairs = self.parts.pairs.with_next(alloc, account, pair)?;
        self.catch_up(pairs);
        Ok(())
    }
}
