//! Requests that are served with their entries of the audit book.
ghost use Rattle.std.specs.Prelude.{◌≡◌, IfOk, IfSome, IsSome, is_some, true};
ghost use Rattle.std.specs.Arc.{arc_value};
ghost use Rattle.std.specs.Option.{option_copied, option_map};
ghost use Rattle.extent_seal.specs.Counting.{Grows};
ghost use Rattle.stamp_values.specs.Operations.{names_container};
ghost use Rattle.access_rules.specs.declared.judgement.Verdict.TheVariants.{Allow};
ghost use Rattle.access_rules.specs.Rules.{verdict_of, way_of};
ghost use Rattle.policy_book.specs.Judgements.{IsOfAsk};
ghost use Rattle.range_rows.specs.Readings.{reading_of};
ghost use Rattle.stamp_model.specs.SeenContainers.{routed};
ghost use Rattle.stored_rows.specs.Ranges as ranges;
ghost use Rattle.stored_rows.specs.States.{pieces_of};
ghost use Rattle.slot_state.specs.Pairs.{current_at, in_force};
ghost use Rattle.slot_state.specs.Slots as slots;
ghost use Rattle.stored_slot.specs.Audits as audits;
ghost use Rattle.stored_slot.specs.Audits.{AuditsBy, SlotAudits};
ghost use Rattle.stored_slot.specs.Entries as entries;
ghost use Rattle.stored_slot.specs.Entries.{IsEntryBy, seen_at, seen_of};
ghost use Rattle.stored_slot.specs.Parts.{AreOfSlot, AreSettled, slot_of};
ghost use Rattle.stored_slot.specs.Served.{Faulted};

use crate::answering::failed;
use crate::parts::SlotParts;
use crate::stored_slot::StoredSlot;
use access_rules::{Keys, Way};
use extent_node::Wire;
use policy_book::{Entry, Judged, Revision, signer_by};
use range_rows::Reading;
use row_trees::Found;
use slot_state::{AccountPairs, Histories, PairList};
use stamp_types::{Acl, Credential, Moment, Request, Text};
use std::alloc::{AllocError, Global};
use std::sync::Arc;
use stored_rows::StoredRows;
use tickets::Answer;

/// What a request was answered, and its entry of the audit book.
#[derive(Drop)]
pub struct Audited {
    pub answer: Answer,
    /// `None` if the request was not let in, if it names no container, or if memory ran out for the entry.
    pub entry: Option<Entry>,
}

// What an entry says of the slot before its request: how many changes the container had taken, who could read it, and the pair in force.
#[derive(Drop)]
struct Seen {
    place: u64,
    revision: Revision,
}

// A copy of what a container says about who may read it.
fn copy_of(acl: &Acl) -> Result<Acl, AllocError>
    ensures { IfOk result (λ copy. copy ≡ acl.now) }
{
    acl.clone()
}

// The value in an allocation that can be shared.
fn share(alloc: Global, acl: Acl) -> Result<Arc<Acl>, AllocError>
    ensures { IfOk result (λ shared. arc_value shared ≡ acl) }
{
    let shared = Arc::new(alloc, acl)?;
    Ok(shared)
}

// A copy that can be shared, if there is something to copy.
fn shared_copy(alloc: Global, acl: Option<&Acl>) -> Result<Option<Arc<Acl>>, AllocError>
    ensures { IfOk result (λ shared. option_map arc_value shared ≡ option_copied acl.entry) }
{
    match acl {
        Some(acl) => {
            let copy = copy_of(acl)?;
            let shared = share(alloc, copy)?;
            Ok(Some(shared))
        }
        None => Ok(None),
    }
}

// The last of the pairs, which stays shared.
fn last_shared(pairs: &PairList) -> Result<Option<Arc<Keys>>, AllocError>
    ensures { IfOk result (λ pair. option_map arc_value pair ≡ in_force pairs.now) }
{
    match pairs.last() {
        Some(pair) => Ok(Some(pair.clone()?)),
        None => Ok(None),
    }
}

// The pair of the account that is in force. No byte of it is copied.
fn shared_pair(pairs: &AccountPairs, account: &Text) -> Result<Option<Arc<Keys>>, AllocError>
    ensures { IfOk result (λ pair. option_map arc_value pair ≡ current_at pairs.now account.now) }
{
    last_shared(pairs.of_account(account))
}

// Who may read the container now, and the pair in force of the account.
fn revision_of(
    alloc: Global,
    acl: Option<&Acl>,
    pairs: &AccountPairs,
    account: &Text,
) -> Result<Revision, AllocError>
    ensures { IfOk result (λ revision. revision ≡ record { acl = option_copied acl.entry; keys = current_at pairs.now account.now }) }
{
    let acl = shared_copy(alloc, acl)?;
    match shared_pair(pairs, account) {
        Ok(pair) => Ok(Revision::new(acl, pair)),
        Err(fault) => {
            drop(acl);
            Err(fault)
        }
    }
}

// What the entry of a request says of the slot, from what the rows found of the request's container.
fn seen_found(
    alloc: Global,
    found: &Found<'_>,
    pairs: &AccountPairs,
    request: &Request,
) -> Result<Seen, AllocError>
    ensures { IfOk result (λ seen. seen ≡ seen_at pairs.now found.now.count found.now request.now) }
{
    let revision = revision_of(alloc, found.acl(), pairs, &request.ask().key.account)?;
    Ok(Seen {
        place: found.count(),
        revision,
    })
}

// What the entry of a request says of the slot, from rows that are loaded. None if memory runs out.
fn seen_loaded(
    stored: &StoredRows,
    pairs: &AccountPairs,
    alloc: Global,
    request: &Request,
) -> Option<Seen>
    requires loaded { stored.now.is_loaded ≡ true }
    requires covered { ranges.covers stored.now.range request.now.ask.key ≡ true }
    ensures { IfSome result (λ seen. seen ≡ seen_at pairs.now
        (pieces_of stored.now request.now.ask.key).count (pieces_of stored.now request.now.ask.key) request.now) }
{
    let found = stored.find(&request.ask().key);
    match seen_found(alloc, &found, pairs, request) {
        Ok(seen) => Some(seen),
        Err(AllocError) => None,
    }
}

// The route by which a request asks.
fn way_of_credential(credential: &Credential) -> Way
    ensures { result ≡ way_of credential.now }
{
    match credential {
        Credential::Shared(_values) => Way::Shared,
        Credential::Token => Way::Token,
        Credential::Anonymous => Way::Anonymous,
    }
}

// The entry of a request that was let in, from what the slot was before it.
fn entry_by(
    alloc: Global,
    seen: Seen,
    request: &Request,
    judged: Option<&Judged<'_>>,
    moment: Moment,
) -> Result<Entry, AllocError>
    requires judged { IsOfAsk (option_copied judged) request.now.ask }
    requires allowed { verdict_of seen.revision.keys seen.revision.acl request.now.ask moment ≡ Allow (way_of request.now.ask.credential) }
    ensures { IfOk result (λ e. e ≡ entries.entry_by seen request.now moment) }
{
    let Seen { place, revision } = seen;
    let way = way_of_credential(&request.ask().credential);
    let by = signer_by(alloc, revision.keys(), request, judged)?;
    let entry = Entry::new(request, place, way, by, moment, revision)?;
    Ok(entry)
}

// The entry of a request, if something was seen for it and if the request was let in. None if memory runs out.
fn entry_if(
    alloc: Global,
    let_in: bool,
    seen: Option<Seen>,
    request: &Request,
    judged: Option<&Judged<'_>>,
    moment: Moment,
) -> Option<Entry>
    requires judged { IsOfAsk (option_copied judged) request.now.ask }
    requires allowed { let_in ≡ true → IfSome seen (λ s.
        verdict_of s.revision.keys s.revision.acl request.now.ask moment ≡ Allow (way_of request.now.ask.credential)) }
    ensures { IfSome result (λ e. (let_in ≡ true) × IsEntryBy seen request.now moment e) }
{
    if !let_in {
        drop(seen);
        return None;
    }
    let seen = seen?;
    match entry_by(alloc, seen, request, judged, moment) {
        Ok(entry) => Some(entry),
        Err(AllocError) => None,
    }
}

// Whether the request was let in. After a request on a slot without a doubt, a doubt is the change of this request.
fn is_let_in(answer: &Answer, has_doubt: bool) -> bool
    ensures { result ≡ audits.is_let_in answer.now has_doubt }
{
    match answer {
        Answer::Done(reply) => reply.rule.is_none() || has_doubt,
        Answer::Later(_ticket) => true,
        Answer::NoMemory => false,
    }
}

impl<H: Histories> SlotParts<H> {
    // Whether a change is in doubt.
    fn has_doubt(&self) -> bool
        ensures { result ≡ is_some self.now.doubt }
    {
        self.doubt.is_some()
    }

    // What the entry of the request would say of the slot as it is now. None if the request names no container, or if memory runs out.
    fn see(&self, alloc: Global, request: &Request) -> Option<Seen>
        requires before { AreSettled H.held self.now }
        requires loaded { self.now.stored.is_loaded ≡ true }
        requires covered { slots.covers (slot_of H.held self.now) (routed request.now) ≡ true }
        ensures names { IsSome result → names_container request.now.ask.op ≡ true }
        ensures value { IfSome result (λ seen. seen ≡ seen_of (arc_value self.now.pairs) (H.held self.now.histories) request.now) }
    {
        if !request.ask().op.names_container() {
            return None;
        }
        seen_loaded(&self.stored, &self.pairs, alloc, request)
    }

    // Serves a request on a slot without a doubt, whose rows are loaded, and makes its entry. What the entry says of the slot is taken before
    // the request may change its container.
    fn audit_loaded<W: Wire>(
        &mut self,
        alloc: Global,
        request: &Request,
        judged: Option<&Judged<'_>>,
        reading: Reading,
        moment: Moment,
        wire: &mut W,
    ) -> Audited
        requires before { AreSettled H.held self.old }
        requires loaded { self.old.stored.is_loaded ≡ true }
        requires covered { slots.covers (slot_of H.held self.old) (routed request.now) ≡ true }
        requires judged { IsOfAsk (option_copied judged) request.now.ask }
        requires read { reading ≡ reading_of request.now }
        ensures after { AreOfSlot H.held self.new }
        ensures served { AuditsBy (slot_of H.held self.old) request.now moment
            (Faulted (W.faults wire.old) (W.faults wire.new)) result.answer result.entry (slot_of H.held self.new) }
        ensures grown { Grows (W.faults wire.old) (W.faults wire.new) }
    {
        let seen = self.see(alloc, request);
        let answer = self.serve_loaded(alloc, request, judged, reading, moment, wire);
        let let_in = is_let_in(&answer, self.has_doubt());
        let entry = entry_if(alloc, let_in, seen, request, judged, moment);
        Audited { answer, entry }
    }

    // One step of the model, as `serve` makes it, with the entry of the request.
    fn audit<W: Wire>(
        &mut self,
        alloc: Global,
        request: &Request,
        judged: Option<&Judged<'_>>,
        reading: Reading,
        moment: Moment,
        wire: &mut W,
    ) -> Audited
        requires before { AreOfSlot H.held self.old }
        requires covered { slots.covers (slot_of H.held self.old) (routed request.now) ≡ true }
        requires judged { IsOfAsk (option_copied judged) request.now.ask }
        requires read { reading ≡ reading_of request.now }
        ensures after { AreOfSlot H.held self.new }
        ensures served { SlotAudits (slot_of H.held self.old) request.now moment
            (Faulted (W.faults wire.old) (W.faults wire.new)) result.answer result.entry (slot_of H.held self.new) }
        ensures grown { Grows (W.faults wire.old) (W.faults wire.new) }
    {
        match self.load(alloc, wire) {
            Ok(()) => self.audit_loaded(alloc, request, judged, reading, moment, wire),
            Err(fault) => {
                drop(reading);
                let answer = failed(alloc, fault);
                Audited {
                    answer,
                    entry: None,
                }
            }
        }
    }
}

impl<H: Histories> StoredSlot<H> {
    /// One step of the model, as `serve_read` makes it, with the entry of the request in the audit book. The entry is what the slot was before the
    /// request: its place is the number of the container's accepted changes, and its revision has what the container said about who may read
    /// it, and the pair in force of its account. It is made of what is in memory, and costs a copy of the container's stored policies.
    ///
    /// No entry is made if the request names no container, if it is refused, also by N1, or if memory runs out for the answer. If memory runs out
    /// for the entry only, the answer is the same as with it. A change whose outcome is unknown has its entry.
    pub fn serve_audited<W: Wire>(
        &mut self,
        alloc: Global,
        request: &Request,
        judged: Option<&Judged<'_>>,
        reading: Reading,
        moment: Moment,
        wire: &mut W,
    ) -> Audited
        requires judged { IsOfAsk (option_copied judged) request.now.ask }
        requires read { reading ≡ reading_of request.now }
        requires covered { slots.covers self.old (routed request.now) ≡ true }
        ensures served { SlotAudits self.old request.now moment (Faulted (W.faults wire.old) (W.faults wire.new)) result.answer result.entry self.new }
        ensures grown { Grows (W.faults wire.old) (W.faults wire.new) }
    {
        self.parts
            .audit(alloc, request, judged, reading, moment, wire)
    }
}
