//! The key pairs of accounts.
ghost use Rattle.std.specs.Prelude.{◌≡◌, ◌≢◌, ◌↔◌, ◌∷◌, ◌⊎◌, [], Err, IfErr, IfOk, IsSome, IsTrue, None, OnErr, OnOk, Some};
ghost use Rattle.std.specs.Arc.{arc_value};
ghost use Rattle.std.specs.FinMap as finite;
ghost use Rattle.std.specs.Option.{option_copied};
ghost use Rattle.slot_state.specs.Pairs.{AreNumbered, current_at, epoch_of, first_pairs, pairs_at, with_first};
ghost use Rattle.slot_state.specs.PairFaults.{pairs_fault};
ghost use Rattle.slot_state.specs.declared.pairs_fault.PairsFault.TheVariants.{NoMemory, NotFirst, Twice};

use crate::pair_list::PairList;
use crate::pairs_fault::PairsFault;
use access_rules::Keys;
use stamp_types::Text;
use stamp_values::{Bytes, Named, Shared};
use std::alloc::{AllocError, Global};
use std::marker::Model;
use std::sync::Arc;

/// The key pairs of each account, seen as the map from the names of the accounts to their pairs. The epochs of an account's pairs are
/// 0, 1, 2 and so on.
#[derive(Drop)]
pub struct AccountPairs {
    pub(crate) by_account: Named<Shared<PairList>>,
    // The pairs of an account that the stamp does not have.
    pub(crate) none: PairList,
}

impl Model for AccountPairs {
    ghost use Rattle.std.specs.Prelude.{◌≡◌, []};
    ghost use Rattle.slot_state.specs.Pairs.{AreNumbered, Pairs};
    ghost use Rattle.slot_state.specs.Slots.{pairs_code};

    ghost Value = { Pairs };

    ghost coded = { pairs_code };

    ghost view = { λ p. p.by_account };

    ghost invariant = { λ p. AreNumbered p.by_account × (p.none ≡ []) };
}

// The list of one pair, which can be shared.
fn first_list(alloc: Global, pair: Keys) -> Result<Shared<PairList>, AllocError>
    ensures { IfOk result (λ list. list ≡ pair ∷ []) }
{
    let pair = share(alloc, pair)?;
    let list = PairList::first(alloc, pair)?;
    let shared = Shared::new(alloc, list)?;
    Ok(shared)
}

/// The pair in an allocation that can be shared.
pub(crate) fn share(alloc: Global, pair: Keys) -> Result<Arc<Keys>, AllocError>
    ensures { IfOk result (λ shared. arc_value shared ≡ pair) }
{
    let shared = Arc::new(alloc, pair)?;
    Ok(shared)
}

// The name of the pair's account, with bytes of its own.
fn name_of(alloc: Global, pair: &Keys) -> Result<Bytes, AllocError>
    ensures { IfOk result (λ name. name ≡ pair.now.account) }
{
    let mut name = Vec::new(alloc);
    name.extend_from_slice(pair.account.as_str().as_bytes())?;
    Ok(Bytes::new(name))
}

impl AccountPairs {
    /// No accounts. Takes no memory.
    #[tactic(auto, using(crate::proofs::PairLemmas::numbered_none))]
    pub fn new(alloc: Global) -> Self
        ensures { result ≡ finite.empty }
    {
        Self {
            by_account: Named::new(alloc),
            none: PairList::new(alloc),
        }
    }

    // Whether the account has pairs.
    fn has(&self, account: &str) -> bool
        ensures { IsTrue result ↔ IsSome (finite.get self.now account.now) }
    {
        self.by_account.get(account.as_bytes()).is_some()
    }

    // The pair as the only pair of its account.
    #[tactic(auto, using(crate::proofs::PairLemmas::numbered_first))]
    fn put(&mut self, alloc: Global, pair: Keys) -> Result<(), AllocError>
        requires { pair.epoch ≡ 0 }
        ensures added { OnOk result (self.new ≡ finite.insert self.old pair.account (pair ∷ [])) }
        ensures refused { OnErr result (self.new ≡ self.old) }
    {
        let name = name_of(alloc, &pair)?;
        let list = first_list(alloc, pair)?;
        self.by_account.insert(name, list)?;
        Ok(())
    }

    /// The first pair of one more account.
    ///
    /// `NotFirst` if the epoch of the pair is not 0, or else `Twice` if the account has pairs, or else `NoMemory` if memory runs out.
    /// The pairs are then as they were.
    pub fn add(&mut self, alloc: Global, pair: Keys) -> Result<(), PairsFault>
        ensures added { OnOk result (self.new ≡ finite.insert self.old pair.account (pair ∷ [])) }
        ensures refused { OnErr result (self.new ≡ self.old) }
        ensures not_first { (result ≡ Err NotFirst) ↔ (pair.epoch ≢ 0) }
        ensures twice { (result ≡ Err Twice)
            ↔ ((pair.epoch ≡ 0) × IsSome (finite.get self.old pair.account)) }
    {
        if pair.epoch != 0 {
            drop(pair);
            return Err(PairsFault::NotFirst);
        }
        if self.has(pair.account.as_str()) {
            drop(pair);
            return Err(PairsFault::Twice);
        }
        self.put(alloc, pair)?;
        Ok(())
    }

    /// The pairs of a stamp's accounts, each the first pair of its account.
    ///
    /// `NotFirst` if the epoch of a pair is not 0, `Twice` if two pairs are of one account, and `NoMemory` if memory runs out. If several
    /// pairs are refused, the last of them names the cause.
    #[tactic(auto, using(crate::proofs::PairLemmas::with_first_last))]
    pub fn of(alloc: Global, pairs: Vec<Keys>) -> Result<Self, PairsFault>
        ensures value { IfOk result (λ all. (all ≡ first_pairs pairs.items) × (pairs_fault pairs.items ≡ None)) }
        ensures refused { IfErr result (λ fault. (fault ≡ NoMemory) ⊎ (pairs_fault pairs.items ≡ Some fault)) }
    {
        let mut left = pairs;
        let mut all = Self::new(alloc);
        while let Some(pair) = left.pop() {
            all.add(alloc, pair)?;
        }
        Ok(all)
    }

    /// The pairs of the account, the oldest pair first; none if the stamp has no such account.
    pub fn of_account(&self, account: &Text) -> &PairList
        ensures { result.now ≡ pairs_at self.now account.now }
    {
        match self.by_account.get(account.as_str().as_bytes()) {
            Some(list) => list.get(),
            None => &self.none,
        }
    }

    /// The pair of the account that is in force.
    pub fn current(&self, account: &Text) -> Option<&Keys>
        ensures { option_copied result ≡ current_at self.now account.now }
    {
        self.of_account(account).current()
    }

    /// The epoch of the account's pair in force; 0 if the stamp has no such account.
    pub fn epoch(&self, account: &Text) -> u64
        ensures { result ≡ epoch_of (current_at self.now account.now) }
    {
        match self.current(account) {
            Some(pair) => pair.epoch,
            None => 0,
        }
    }

    /// The epochs of each account's pairs are 0, 1, 2 and so on. Does nothing.
    pub fn numbered(&self)
        ensures { AreNumbered self.now }
    {
        let _pairs = &self.by_account;
    }
}
