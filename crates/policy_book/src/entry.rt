//! Entries of the audit book.
ghost use Rattle.std.specs.Prelude.{◌≡◌, IfOk, IsNone, IfSome, IsSome, ◌↔◌};
ghost use Rattle.access_rules.specs.declared.judgement.Verdict.TheVariants.{Allow};
ghost use Rattle.access_rules.specs.Rules.{first_rule, verdict_of, way_of};
ghost use Rattle.access_rules.specs.Signatures.{signed_by};
ghost use Rattle.policy_book.specs.Entries.{IsTrueEntry, audit_entry_of};

use crate::revision::Revision;
use crate::verdict::signer_by;
use access_rules::{SignedBy, Verdict, Way, verdict};
use stamp_types::{Moment, Request};
use std::alloc::{AllocError, Global};
use std::marker::Model;

/// A request that was allowed, and by what. Its type keeps that it is true: under the access and the keys of its revision no rule of
/// permission refuses the request at the moment. It also keeps that the key named gives the signature: the first key, if it does.
///
/// That `place` is the number of changes is what its maker says.
#[derive(Drop)]
pub struct Entry {
    request: Request,
    place: u64,
    way: Way,
    by: SignedBy,
    moment: Moment,
    revision: Revision,
}

impl Model for Entry {
    ghost use Rattle.std.specs.Prelude.{◌≡◌};
    ghost use Rattle.access_rules.specs.Signatures.{signed_by};
    ghost use Rattle.policy_book.specs.Entries.{AuditEntry, IsTrueEntry};

    ghost Value = { AuditEntry };

    ghost view = { λ e. record { request = e.request; place = e.place; way = e.way; moment = e.moment; revision = e.revision } };

    ghost invariant = { λ e. IsTrueEntry (record { request = e.request; place = e.place; way = e.way; moment = e.moment; revision = e.revision })
        × (e.by ≡ signed_by e.revision.keys e.request.ask) };
}

// The way by which a revision allows the request, or `None` if a rule of permission refuses it.
fn way_under(
    alloc: Global,
    revision: &Revision,
    request: &Request,
    moment: Moment,
) -> Result<Option<Way>, AllocError>
    ensures refused { IfOk result (λ o.
        IsNone o ↔ IsSome (first_rule revision.now.keys revision.now.acl request.now.ask moment)) }
    ensures allowed { IfOk result (λ o. IfSome o (λ way.
        verdict_of revision.now.keys revision.now.acl request.now.ask moment ≡ Allow way)) }
    ensures own { IfOk result (λ o. IfSome o (λ way. way ≡ way_of request.now.ask.credential)) }
{
    match verdict(alloc, revision.keys(), revision.acl(), request, moment)? {
        Verdict::Deny(_) => Ok(None),
        Verdict::Allow(way) => Ok(Some(way)),
    }
}

impl Entry {
    /// The entry of a request that was allowed, from the verdict that its caller has and from the key that gives the signature. It shares
    /// what the request asks, and keeps no body.
    ///
    /// `AllocError` if what is shared can have no further owner. Then `revision` is dropped.
    pub fn new(
        request: &Request,
        place: u64,
        way: Way,
        by: SignedBy,
        moment: Moment,
        revision: Revision,
    ) -> Result<Self, AllocError>
        requires allowed { verdict_of revision.keys revision.acl request.now.ask moment ≡ Allow way }
        requires signed { by ≡ signed_by revision.keys request.now.ask }
        ensures { IfOk result (λ e. e ≡ audit_entry_of request.now place way moment revision) }
    {
        let request = request.without_body()?;
        Ok(Self {
            request,
            place,
            way,
            by,
            moment,
            revision,
        })
    }

    /// The entry of a request that is judged here, or `None` if a rule of permission refuses the request.
    ///
    /// `AllocError` if memory runs out for the string to sign or for a signature, or if what is shared can have no further owner. Then,
    /// and if the request is refused, `revision` is dropped.
    pub fn judged(
        alloc: Global,
        request: &Request,
        place: u64,
        moment: Moment,
        revision: Revision,
    ) -> Result<Option<Self>, AllocError>
        ensures refused { IfOk result (λ o.
            IsNone o ↔ IsSome (first_rule revision.keys revision.acl request.now.ask moment)) }
        ensures value { IfOk result (λ o. IfSome o (λ e.
            e ≡ audit_entry_of request.now place (way_of request.now.ask.credential) moment revision)) }
    {
        let Some(way) = way_under(alloc, &revision, request, moment)? else {
            return Ok(None);
        };
        let by = signer_by(alloc, revision.keys(), request, None)?;
        Ok(Some(Self::new(request, place, way, by, moment, revision)?))
    }

    /// The request, without its body. It names the container.
    pub fn request(&self) -> &Request
        ensures { result.now ≡ self.now.request }
    {
        &self.request
    }

    /// How many changes the container had taken before the request.
    pub fn place(&self) -> u64
        ensures { result ≡ self.now.place }
    {
        self.place
    }

    /// The way by which the request was allowed.
    pub fn way(&self) -> Way
        ensures { result ≡ self.now.way }
    {
        self.way
    }

    /// The key of the revision that gives the signature that the request brings: the first key, if it gives it, or else the
    /// second. `Neither` if the request brings no signature.
    pub fn by(&self) -> SignedBy
        ensures { result ≡ signed_by self.now.revision.keys self.now.request.ask }
    {
        let _revision = &self.revision;
        let _request = &self.request;
        self.by
    }

    /// The moment at which the request was judged.
    pub fn moment(&self) -> Moment
        ensures { result ≡ self.now.moment }
    {
        self.moment
    }

    /// The access and the keys that allowed the request.
    pub fn revision(&self) -> &Revision
        ensures value { result.now ≡ self.now.revision }
        ensures truth { IsTrueEntry self.now }
    {
        let _request = &self.request;
        let _rest = (self.place, self.way, self.moment);
        &self.revision
    }
}
