//! Whether the route of a request may admit it, as its head shows.
ghost use Rattle.std.specs.Prelude.{◌≡◌, IfOk, Ok, true};
ghost use Rattle.std.specs.Option.{option_copied};
ghost use Rattle.access_rules.specs.Signatures.{has_true_signature};
ghost use Rattle.served_slots.specs.Admissions.{IsAdmissible};

use crate::slots::Slots;
use access_rules::{Keys, is_true_signature};
use served_history::Account;
use stamp_types::Ask;
use std::alloc::{AllocError, Global};
use std::sync::Wait;

// Whether what is asked brings a signature that is true under these keys.
fn is_signed(alloc: Global, keys: Option<&Keys>, ask: &Ask) -> Result<bool, AllocError>
    ensures { IfOk result (λ is_signed. is_signed ≡ has_true_signature (option_copied keys.entry) ask.now) }
{
    match is_true_signature(alloc, keys, ask)? {
        Some(is_true) => Ok(is_true),
        None => Ok(false),
    }
}

/// Whether a request that asks this brings a signature that is true under the pair of keys in force. The route of no other request may admit it,
/// but for public access, which brings no body.
///
/// `AllocError` if memory runs out.
#[tactic(auto, using(crate::proofs::AdmissionLemmas::admissible))]
pub(crate) fn is_admissible<A: Account, R: Wait>(
    rt: &R,
    alloc: Global,
    slots: &Slots<A>,
    ask: &Ask,
) -> Result<bool, AllocError>
    ensures { result ≡ Ok true → IsAdmissible ask.now }
{
    let pairs = slots.judging_pairs(rt)?;
    is_signed(alloc, pairs.current(&ask.key.account), ask)
}
