//! The key pairs of accounts, one of which gets a later pair.
ghost use Rattle.std.specs.Prelude.{◌≡◌, ◌∷◌, ◌++◌, [], IfOk, OnErr, OnOk};
ghost use Rattle.std.specs.Arc.{arc_value};
ghost use Rattle.std.specs.FinMap as finite;
ghost use Rattle.stamp_values.specs.Trees.{name_of};
ghost use Rattle.slot_state.specs.NextPairs.{IsNext, with_next};
ghost use Rattle.slot_state.specs.Pairs.{pairs_at};

use crate::account_pairs::AccountPairs;
use crate::pair_list::PairList;
use access_rules::Keys;
use stamp_types::Text;
use stamp_values::{Bytes, Named, Shared};
use std::alloc::{AllocError, Global};
use std::sync::Arc;

// One more owner of the list, under a copy of its name.
fn copy_one(
    copy: &mut Named<Shared<PairList>>,
    name: &Vec<u8>,
    list: &Shared<PairList>,
) -> Result<(), AllocError>
    ensures copied { OnOk result (copy.new ≡ finite.insert copy.old (name_of name.now) list.now) }
    ensures refused { OnErr result (copy.new ≡ copy.old) }
{
    let own = name.clone()?;
    let list = list.share()?;
    copy.insert(Bytes::new(own), list)?;
    Ok(())
}

// The same lists under the same names. No pair is copied: both have the same lists.
#[tactic(auto, using(crate::proofs::CopyLemmas::all_named))]
fn copied(
    alloc: Global,
    lists: &Named<Shared<PairList>>,
) -> Result<Named<Shared<PairList>>, AllocError>
    ensures { IfOk result (λ copy. copy ≡ lists.now) }
{
    let mut copy = Named::new(alloc);
    for (name, list) in lists.iter() {
        copy_one(&mut copy, name, list)?;
    }
    Ok(copy)
}

// The name of an account, with bytes of its own.
fn name_from(alloc: Global, account: &Text) -> Result<Bytes, AllocError>
    ensures { IfOk result (λ name. name ≡ account.now) }
{
    let mut name = Vec::new(alloc);
    name.extend_from_slice(account.as_str().as_bytes())?;
    Ok(Bytes::new(name))
}

// A list of these pairs and of one pair more, which can be shared.
fn longer_list(
    alloc: Global,
    list: &PairList,
    pair: Arc<Keys>,
) -> Result<Shared<PairList>, AllocError>
    ensures { IfOk result (λ longer. longer ≡ list.now ++ arc_value pair ∷ []) }
{
    let longer = list.longer(alloc, pair)?;
    let shared = Shared::new(alloc, longer)?;
    Ok(shared)
}

impl AccountPairs {
    // These pairs with one pair more of an account.
    #[tactic(auto, using(crate::proofs::NextLemmas::numbered_longer))]
    fn longer(&self, alloc: Global, account: &Text, pair: Arc<Keys>) -> Result<Self, AllocError>
        requires { IsNext (pairs_at self.now account.now) (arc_value pair) }
        ensures { IfOk result (λ longer. longer ≡ with_next self.now account.now (arc_value pair)) }
    {
        let list = longer_list(alloc, self.of_account(account), pair)?;
        let name = name_from(alloc, account)?;
        let mut by_account = copied(alloc, &self.by_account)?;
        by_account.insert(name, list)?;
        Ok(Self {
            by_account,
            none: PairList::new(alloc),
        })
    }

    /// These pairs with one pair more of an account, which is then in force, in an allocation that can be shared. All earlier pairs are shared,
    /// and so are the lists of the other accounts. Of the account's list [`longer`](PairList::longer) makes a longer one.
    ///
    /// `AllocError` if memory runs out for the longer list or for the names, or if a pair can have no further owner.
    pub fn with_next(
        &self,
        alloc: Global,
        account: &Text,
        pair: Arc<Keys>,
    ) -> Result<Arc<Self>, AllocError>
        requires { IsNext (pairs_at self.now account.now) (arc_value pair) }
        ensures { IfOk result (λ longer. arc_value longer ≡ with_next self.now account.now (arc_value pair)) }
    {
        let longer = self.longer(alloc, account, pair)?;
        let shared = Arc::new(alloc, longer)?;
        Ok(shared)
    }
}
