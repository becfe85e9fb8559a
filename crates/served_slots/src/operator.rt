//! The operator of an account, who replaces its keys and splits slots while connections are served.
ghost use Rattle.std.specs.Prelude.{◌≡◌, Err, IfErr, IfOk, None, OnErr, OnOk};
ghost use Rattle.access_rules.specs.declared.rotation.KeysFault.TheVariants.{Last};
ghost use Rattle.served_slots.specs.Rotations.{HasLastEpoch, HasRotated};
ghost use Rattle.served_slots.specs.Steps.{IsSplitFault, SpansSay};

use crate::slots::Slots;
use crate::splitting::SplitFault;
use access_rules::{KeysFault, Which};
use hmac_sign::SigningKey;
use served_history::{Account, LogFront};
use stamp_types::{Key, Text};
use std::alloc::{AllocError, Global};
use std::sync::Wait;

/// Whoever replaces the keys of an account and splits slots: the slots, the account, and what the operator knows of the history.
#[derive(Drop)]
pub struct Operator<'a, A: Account, R: Wait> {
    rt: &'a R,
    slots: &'a Slots<A>,
    account: Text,
    known: LogFront<A>,
}

impl<'a, A: Account, R: Wait> Operator<'a, A, R> {
    /// An operator of this account, who knows this of the history.
    pub fn new(rt: &'a R, slots: &'a Slots<A>, account: Text, known: LogFront<A>) -> Self
        ensures account { result.account ≡ account }
        ensures known { result.known ≡ known }
    {
        Self {
            rt,
            slots,
            account,
            known,
        }
    }

    /// What the operator knows of the history.
    pub fn known(&self) -> &LogFront<A>
        ensures { result.now ≡ self.now.known }
    {
        &self.known
    }

    /// Ends the work of the operator, and gives what the operator knows of the history.
    pub fn into_known(self) -> LogFront<A>
        ensures { result ≡ self.entry.known }
    {
        self.known
    }

    /// Replaces a key of the account for all slots, and returns the epoch of the new pair. Each slot enters the rotation: requests on its keys that
    /// come after its entry are judged by the new pair. Then the operator knows all these entries. No request is answered meanwhile.
    ///
    /// A slot of no use is passed over. `Last` if no epoch comes after that of a slot's pair. `NoMemory` if memory runs out, or if the stamp has no
    /// such account, or if a slot has made as many entries as it may, or if no slot is of use. Then no key is replaced.
    pub fn rotate(
        &mut self,
        alloc: Global,
        which: Which,
        key: &SigningKey,
    ) -> Result<u64, KeysFault>
        ensures rotated { IfOk result (λ epoch. HasRotated self.old.known self.old.account which key.now epoch self.new.known) }
        ensures unchanged { OnErr result (self.new.known ≡ self.old.known) }
        ensures last { result ≡ Err Last → HasLastEpoch self.old.known self.old.account }
        ensures account { self.new.account ≡ self.old.account }
    {
        self.slots
            .rotate(self.rt, alloc, &mut self.known, &self.account, which, key)
    }

    /// The key of the operator's container with this name.
    ///
    /// `AllocError` if memory runs out.
    pub fn container(&self, name: Text) -> Result<Key, AllocError>
        ensures { IfOk result (λ key. key ≡ record { account = self.now.account; container = name }) }
    {
        let account = self.account.clone()?;
        Ok(Key {
            account,
            container: name,
        })
    }

    /// Splits the slot that has the key. The key is then the first key of the upper half. No request is answered meanwhile.
    ///
    /// The faults are those of [`Slots::split`]. After a fault nothing is changed.
    pub fn split(&self, alloc: Global, middle: &Key) -> Result<(), SplitFault>
        ensures allowed { OnOk result (SpansSay middle.now None) }
        ensures fault { IfErr result (IsSplitFault middle.now) }
    {
        self.slots.split(self.rt, alloc, middle)
    }
}
