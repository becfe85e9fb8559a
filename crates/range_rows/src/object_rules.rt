//! The rules of the object.
ghost use Rattle.std.specs.Prelude.{◌≡◌, ◌&&◌, ◌||◌, ℕ, IfOk, IsErr, is_none, is_some, nat_le, not};
ghost use Rattle.std.specs.Option.{option_copied};
ghost use Rattle.stamp_values.specs.Operations.{is_op};
ghost use Rattle.stamp_values.specs.declared.op.Op.TheVariants as op;
ghost use Rattle.stamp_types.specs.Pieces.{pieces_len};
ghost use Rattle.stamp_types.specs.World.{Part, blob_value};
ghost use Rattle.row_trees.specs.Fits.{count_limit};
ghost use Rattle.range_rows.specs.CauseGroups as groups;
ghost use Rattle.row_trees.specs.FoundParts.{sized, sizes_found};
ghost use Rattle.range_rows.specs.Judgements.{IfAllowed, IsAllowed, judged_by, judgement};
ghost use Rattle.range_rows.specs.NamedBlobs as blobs;
ghost use Rattle.range_rows.specs.NamedBlobs.{IsTarget};
ghost use Rattle.range_rows.specs.ObjectRules as rules;

use crate::block_rules::{Blocks, judged_blocks};
use crate::body_rules::body_refusal;
use crate::conditions::{fails_if_match, has_unwanted_etag, is_not_modified, must_be_new};
use crate::judged::{Allowed, ObjectVerdict};
use crate::reading::Reading;
use crate::target::Target;
use block_blobs::Resolved;
use row_trees::FoundBlob;
use stamp_types::{Ask, BlockKinds, ByteRange, Code, Op, Refusal, Request, Rule};
use std::alloc::{AllocError, Global};

// Whether the container has to exist.
fn needs_container(op: Op) -> bool
    ensures { result ≡ rules.needs_container op }
{
    !matches!(op, Op::ListContainers | Op::CreateContainer)
}

// Whether readers have to see the blob.
fn needs_blob(op: Op) -> bool
    ensures { result ≡ rules.needs_blob op }
{
    matches!(
        op,
        Op::GetBlob | Op::BlobProperties | Op::GetMetadata | Op::SetMetadata | Op::DeleteBlob
    )
}

// Whether the blob has what Get Block List shows.
#[tactic(auto, using(row_trees::proofs::BlockFits::has_uncommitted_read))]
fn has_listed(kinds: Option<BlockKinds>, seen: &FoundBlob<'_>) -> bool
    ensures { result ≡ blobs.has_listed kinds (blob_value pieces_len seen.now) }
{
    match kinds {
        None | Some(BlockKinds::Committed) => seen.committed().is_some(),
        _ => seen.committed().is_some() || seen.has_uncommitted(),
    }
}

// Whether the request needs something of the blob that the blob does not have.
fn lacks_blob(ask: &Ask, seen: &FoundBlob<'_>) -> bool
    ensures { result ≡ ((rules.needs_blob ask.now.op && is_none (sized seen.now.committed))
        || (is_op op.GetBlockList ask.now.op
        && not (blobs.has_listed ask.now.args.kinds (blob_value pieces_len seen.now)))) }
{
    (needs_blob(ask.op) && seen.committed().is_none())
        || (ask.op == Op::GetBlockList && !has_listed(ask.args.kinds, seen))
}

// Whether a range is sent, and its first byte comes after the last byte of the blob.
#[tactic(auto, using(crate::proofs::AnswerLemmas::sizes_of_blocks))]
fn starts_past(seen: &FoundBlob<'_>, range: Option<ByteRange>) -> bool
    ensures { result ≡ rules.starts_past (sized seen.now.committed) range }
{
    match (range, seen.committed()) {
        (Some(range), Some(_)) => seen.len() <= range.first,
        _ => false,
    }
}

/// A refusal by this rule with this code.
pub(crate) fn refused(rule: Rule, code: Code) -> Refusal
    ensures { result ≡ record { rule = rule; code = code } }
{
    Refusal { rule, code }
}

// The refusal because of the conditions.
#[tactic(auto, unfolding(crate::specs::CauseGroups::group_refusal))]
fn condition_refusal(request: &Request, seen: &FoundBlob<'_>) -> Option<Refusal>
    ensures { (p : Part ℕ) → sized seen.now.committed ≡ rules.named_blob p request.now.ask
        → result ≡ groups.group_refusal groups.condition_causes p request.now }
{
    let ask = request.ask();
    let blob = seen.committed();
    if fails_if_match(blob, ask) {
        return Some(refused(Rule::O4, Code::ConditionNotMet));
    }
    if is_not_modified(blob, ask) {
        return Some(refused(Rule::O4, Code::NotModified));
    }
    if must_be_new(blob, ask) {
        return Some(refused(Rule::O4, Code::BlobAlreadyExists));
    }
    if has_unwanted_etag(blob, ask) {
        return Some(refused(Rule::O4, Code::ConditionNotMet));
    }
    None
}

impl<'a> Target<'a> {
    ghost use Rattle.range_rows.specs.Readings.{reading_of};

    // Whether the container exists.
    fn exists(&self) -> bool
        ensures { result ≡ is_some self.now.container.standing }
    {
        self.container.standing().is_some()
    }

    // Whether the container takes no further change.
    fn is_full(&self) -> bool
        ensures { result ≡ nat_le count_limit self.now.container.count }
    {
        u64::MAX <= self.container.count()
    }

    // The refusal because of what the request names.
    #[tactic(auto, unfolding(crate::specs::CauseGroups::group_refusal))]
    fn name_refusal(&self, request: &Request, seen: &FoundBlob<'_>) -> Option<Refusal>
        requires part { sized seen.now.committed
            ≡ rules.named_blob (sizes_found self.now.container) request.now.ask }
        requires blob { blob_value pieces_len seen.now
            ≡ blobs.target_blob (sizes_found self.now.container) request.now.ask }
        ensures { result
            ≡ groups.group_refusal groups.name_causes (sizes_found self.now.container) request.now }
    {
        let ask = request.ask();
        let exists = self.exists();
        if needs_container(ask.op) && !exists {
            return Some(refused(Rule::O1, Code::ContainerNotFound));
        }
        if ask.op == Op::CreateContainer && exists {
            return Some(refused(Rule::O2, Code::ContainerAlreadyExists));
        }
        if lacks_blob(ask, seen) {
            return Some(refused(Rule::O3, Code::BlobNotFound));
        }
        None
    }

    // The refusal because of the range, or because the container takes no further change.
    #[tactic(auto, unfolding(crate::specs::CauseGroups::group_refusal))]
    fn last_refusal(&self, request: &Request, seen: &FoundBlob<'_>) -> Option<Refusal>
        requires part { sized seen.now.committed
            ≡ rules.named_blob (sizes_found self.now.container) request.now.ask }
        ensures { result
            ≡ groups.group_refusal groups.last_causes (sizes_found self.now.container) request.now }
    {
        let ask = request.ask();
        if ask.op == Op::GetBlob && starts_past(seen, ask.args.range) {
            return Some(refused(Rule::O6, Code::InvalidRange));
        }
        if ask.op.writes() && self.is_full() {
            return Some(refused(Rule::O6, Code::InternalError));
        }
        None
    }

    // What is judged last, if this was found of the blocks that the request wants: the range, and
    // whether the container takes a further change.
    fn last_judged(self, request: &Request, found: Resolved) -> ObjectVerdict<'a>
        requires { IsTarget self request.now.ask }
        ensures { result ≡ judged_by (groups.group_refusal groups.last_causes
            (sizes_found self.entry.container) request.now) self.entry found }
    {
        let seen = self.named(request.ask());
        match self.last_refusal(request, seen) {
            Some(refusal) => ObjectVerdict::Refused(refusal),
            None => ObjectVerdict::Allowed(Allowed {
                target: self,
                found,
            }),
        }
    }

    // The refusal of a request before its blocks are looked at.
    fn early_refusal(&self, request: &Request, reading: &Reading) -> Option<Refusal>
        requires target { IsTarget self.now request.now.ask }
        requires read { reading.now ≡ reading_of request.now }
        ensures { result
            ≡ groups.group_refusal groups.early_causes (sizes_found self.now.container) request.now }
    {
        let seen = self.named(request.ask());
        if let Some(refusal) = self.name_refusal(request, seen) {
            return Some(refusal);
        }
        if let Some(refusal) = condition_refusal(request, seen) {
            return Some(refusal);
        }
        body_refusal(request, reading)
    }

    /// Judges a request by the object: the refusal by the first cause, in the order of the rules; or,
    /// if no rule refuses the request, what was found for it. The target is the request's, and
    /// `reading` is what its body says. Reads no byte of that body.
    ///
    /// `AllocError` if memory runs out for the look-ups of a Put Block List. No other operation
    /// takes memory.
    pub fn judge(
        self,
        alloc: Global,
        request: &Request,
        reading: &Reading,
    ) -> Result<ObjectVerdict<'a>, AllocError>
        requires target { IsTarget self request.now.ask }
        requires read { reading.now ≡ reading_of request.now }
        ensures judged { IfOk result (λ judged. judged ≡ judgement self.entry request.now) }
        ensures allowed { IfOk result (λ judged.
            IfAllowed judged (λ a. IsAllowed a request.now × (a.target ≡ self.entry))) }
        ensures memory { IsErr result → request.now.ask.op ≡ op.PutBlockList }
    {
        if let Some(refusal) = self.early_refusal(request, reading) {
            return Ok(ObjectVerdict::Refused(refusal));
        }
        let blocks = judged_blocks(alloc, request, reading, self.named(request.ask()))?;
        match blocks {
            Blocks::Refused(refusal) => Ok(ObjectVerdict::Refused(refusal)),
            Blocks::Found(found) => Ok(self.last_judged(request, found)),
        }
    }
}
