//! Vouchers: judgements that found a signature true.
ghost use Rattle.std.specs.Prelude.{◌≡◌, ◌↔◌, IfOk, IfSome, IsSome, IsTrue, Some};
ghost use Rattle.std.specs.Arc.{arc_value};
ghost use Rattle.access_rules.specs.Signatures.{IsSigned};
ghost use Rattle.policy_book.specs.declared.judged.Signature.TheVariants as signature;

use crate::judged::{Judged, Signature, judge};
use access_rules::Keys;
use stamp_types::Request;
use std::alloc::{AllocError, Global};
use std::marker::Model;
use std::sync::Arc;

/// A request, whose body does not matter, whose signature was found true, and the pair of keys under which it is true.
///
/// It says nothing of a container, a policy or a moment.
#[derive(Drop)]
pub struct Voucher<'a> {
    judged: Judged<'a>,
}

impl<'a> Model for Voucher<'a> {
    ghost use Rattle.std.specs.Prelude.{◌≡◌};
    ghost use Rattle.policy_book.specs.Judgements.{Vouched};
    ghost use Rattle.policy_book.specs.declared.judged.Signature.TheVariants as signature;

    ghost Value = { Vouched };

    ghost view = { λ v. record { ask = v.judged.ask; keys = v.judged.keys } };

    ghost invariant = { λ v. v.judged.signature ≡ signature.True };
}

/// A voucher for the request, if its signature is true under the pair of keys. It borrows the request and
/// shares the pair.
///
/// `AllocError` if memory runs out for the string to sign or for a signature, or if the pair can have no further owner.
pub fn vouch<'a>(
    alloc: Global,
    keys: &Arc<Keys>,
    request: &'a Request,
) -> Result<Option<Voucher<'a>>, AllocError>
    ensures signed { IfOk result (λ o. IsSome o ↔ IsSigned (arc_value keys.now) request.now.ask) }
    ensures value { IfOk result (λ o.
        IfSome o (λ v. v ≡ record { ask = request.now.ask; keys = arc_value keys.now })) }
{
    let judged = judge(alloc, keys, request)?;
    if judged.signature() != Signature::True {
        drop(judged);
        return Ok(None);
    }
    Ok(Some(Voucher { judged }))
}

impl<'a> Voucher<'a> {
    /// Whether the voucher is for this request, whose body does not matter.
    pub fn is_for(&self, request: &Request) -> bool
        ensures { IsTrue result ↔ (self.now.ask ≡ request.now.ask) }
    {
        self.judged.is_for(request)
    }

    /// The pair of keys under which the signature is true.
    pub fn keys(&self) -> &Keys
        ensures { result.now ≡ self.now.keys }
    {
        self.judged.keys()
    }

    /// The judgement, which found the signature true.
    pub fn judged(&self) -> &Judged<'a>
        ensures { result.now ≡ record { ask = self.now.ask; keys = self.now.keys; signature = signature.True } }
    {
        &self.judged
    }
}
