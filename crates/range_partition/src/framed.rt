//! What is decided on a request, before the content of its reply is read.
ghost use Rattle.std.specs.Prelude.{◌≡◌, [], IfOk, false};
ghost use Rattle.std.specs.Option.{option_copied};
ghost use Rattle.stamp_values.specs.Operations.{lists_names};
ghost use Rattle.access_rules.specs.Rules.{verdict_of};
ghost use Rattle.policy_book.specs.Judgements.{IsOfAsk};
ghost use Rattle.row_trees.specs.Access.{acl_of};
ghost use Rattle.row_trees.specs.FoundParts.{sizes_found};
ghost use Rattle.range_rows.specs.Judgements.{IsAllowed, blocks_found};
ghost use Rattle.range_rows.specs.NamedBlobs.{IsTarget};
ghost use Rattle.range_rows.specs.ObjectRules.{object_refusal};
ghost use Rattle.range_rows.specs.Readings.{reading_of};
ghost use Rattle.range_rows.specs.RequestChanges.{change_of};
ghost use Rattle.stamp_model.specs.Refusals as refusals;
ghost use Rattle.range_partition.specs.Decisions.{AnswerCanBeSent, CanBeSent, found_answer, framed_by, framed_of, row_answer};
ghost use Rattle.range_partition.specs.declared.framed.FramedDecision.TheVariants as framed;

use crate::overrides::replacements;
use access_rules::{Keys, Verdict};
use block_blobs::FoundBlocks;
use body_forms::Draft;
use list_pages::{blob_list_reply, container_list_reply};
use policy_book::{Judged, verdict_by};
use range_rows::{Allowed, FramedAnswer, ObjectVerdict, Reading, Target};
use row_trees::Rows;
use stamp_types::{Change, Code, Items, Key, Moment, Op, Refusal, Request, Rule};
use std::alloc::{AllocError, Global};

/// What is decided on a request, before the content of its reply is read.
#[derive(Drop)]
pub enum FramedDecision {
    /// The request is refused.
    Refused(Refusal),
    /// Nothing refuses the request. This is the frame of its reply with the spans of the content, the change, if the request makes one,
    /// and the blocks that were found for it.
    Allowed(FramedAnswer, Option<Change>, FoundBlocks),
}

/// A request that is decided at a moment. Its signature may have been judged before.
#[derive(Drop)]
pub struct JudgedRequest<'a> {
    pub request: &'a Request,
    pub judged: Option<&'a Judged<'a>>,
    pub moment: Moment,
}

// The refusal by a rule of permission.
fn access_refusal(rule: Rule) -> Refusal
    ensures { result ≡ refusals.access_refusal rule }
{
    let code = match rule {
        Rule::K1 => Code::InvalidAuthenticationInfo,
        Rule::P1 | Rule::P2 => Code::ResourceNotFound,
        _ => Code::AuthenticationFailed,
    };
    Refusal { rule, code }
}

// Whether the request may be served, by the keys and by what its container says about who may read
// it.
fn permission(
    alloc: Global,
    keys: Option<&Keys>,
    asked: &JudgedRequest<'_>,
    target: &Target<'_>,
) -> Result<Verdict, AllocError>
    requires { IsOfAsk (option_copied asked.now.judged) asked.now.request.now.ask }
    ensures { IfOk result (λ verdict. verdict
        ≡ verdict_of (option_copied keys.entry) (acl_of target.now.container) asked.now.request.now.ask
        asked.now.moment) }
{
    let permission = verdict_by(
        alloc,
        keys,
        target.container.acl(),
        asked.request,
        asked.moment,
        asked.judged,
    )?;
    Ok(permission)
}

// The answer to a request that nothing refuses, if it does not ask for a list of names.
#[tactic(auto, using(crate::proofs::DecisionLemmas::fits_memory))]
fn answer_found(
    alloc: Global,
    allowed: &Allowed<'_>,
    asked: &JudgedRequest<'_>,
) -> Result<FramedAnswer, AllocError>
    requires judged { IsOfAsk (option_copied asked.now.judged) asked.now.request.now.ask }
    requires allowed { IsAllowed allowed.now asked.now.request.now }
    requires names { lists_names asked.now.request.now.ask.op ≡ false }
    ensures found { IfOk result (λ answer.
        answer ≡ found_answer allowed.now.target.container asked.now.request.now asked.now.moment) }
    ensures sent { IfOk result (λ answer. CanBeSent answer) }
{
    let replaced = replacements(asked.request.ask(), asked.judged);
    let answer = allowed.reply(alloc, asked.request, asked.moment, &replaced)?;
    Ok(answer)
}

// The answer whose content is all in its frame.
#[tactic(auto, using(crate::proofs::DecisionLemmas::sent_whole))]
fn whole(alloc: Global, frame: Draft) -> FramedAnswer
    ensures whole { result ≡ record { frame = frame; spans = [] } }
    ensures sent { CanBeSent result }
{
    FramedAnswer {
        frame,
        spans: Items::new(Vec::new(alloc)),
    }
}

// The rows from which a list of containers is made, and the key at which they end, if keys after it are elsewhere.
#[derive(Drop)]
struct Listed<'a> {
    rows: &'a Rows,
    bound: Option<&'a Key>,
}

// The answer to a request that nothing refuses.
fn answer(
    alloc: Global,
    listed: &Listed<'_>,
    allowed: &Allowed<'_>,
    asked: &JudgedRequest<'_>,
) -> Result<FramedAnswer, AllocError>
    requires judged { IsOfAsk (option_copied asked.now.judged) asked.now.request.now.ask }
    requires allowed { IsAllowed allowed.now asked.now.request.now }
    ensures answered { IfOk result (λ answer. answer ≡ row_answer listed.now.rows.now
        allowed.now.target.container asked.now.request.now asked.now.moment (option_copied listed.now.bound)) }
    ensures sent { IfOk result (λ answer. CanBeSent answer) }
{
    match asked.request.ask().op {
        Op::ListContainers => {
            let frame = container_list_reply(alloc, listed.rows, asked.request, listed.bound)?;
            Ok(whole(alloc, frame))
        }
        Op::ListBlobs => {
            let frame = blob_list_reply(alloc, &allowed.target.container, asked.request)?;
            Ok(whole(alloc, frame))
        }
        _ => answer_found(alloc, allowed, asked),
    }
}

// The change of a request that nothing refuses, if the request makes one.
fn change(
    alloc: Global,
    allowed: &Allowed<'_>,
    request: &Request,
    reading: Reading,
    moment: Moment,
) -> Result<Option<Change>, AllocError>
    requires allowed { IsAllowed allowed.now request.now }
    requires read { reading ≡ reading_of request.now }
    ensures { IfOk result (λ change. change
        ≡ change_of (sizes_found allowed.now.target.container) request.now moment) }
{
    if !request.ask().op.writes() {
        drop(reading);
        return Ok(None);
    }
    let change = allowed.change(alloc, request, reading, moment)?;
    Ok(Some(change))
}

// What is decided on a request that nothing refuses.
fn answered(
    alloc: Global,
    listed: &Listed<'_>,
    allowed: Allowed<'_>,
    asked: &JudgedRequest<'_>,
    reading: Reading,
) -> Result<FramedDecision, AllocError>
    requires judged { IsOfAsk (option_copied asked.now.judged) asked.now.request.now.ask }
    requires allowed { IsAllowed allowed asked.now.request.now }
    requires read { reading ≡ reading_of asked.now.request.now }
    ensures given { IfOk result (λ given. given
        ≡ framed.Allowed (row_answer listed.now.rows.now allowed.entry.target.container asked.now.request.now
        asked.now.moment (option_copied listed.now.bound))
        (change_of (sizes_found allowed.entry.target.container) asked.now.request.now asked.now.moment)
        allowed.entry.found.blocks) }
    ensures sent { IfOk result (λ given. AnswerCanBeSent given) }
{
    let answer = match answer(alloc, listed, &allowed, asked) {
        Ok(answer) => answer,
        Err(fault) => {
            drop(reading);
            return Err(fault);
        }
    };
    match change(alloc, &allowed, asked.request, reading, asked.moment) {
        Ok(change) => Ok(FramedDecision::Allowed(answer, change, allowed.found.blocks)),
        Err(fault) => {
            drop(answer);
            Err(fault)
        }
    }
}

// What is decided on a request that is permitted: the refusal by the object, or else the answer and the
// change.
fn permitted(
    alloc: Global,
    listed: &Listed<'_>,
    target: Target<'_>,
    asked: &JudgedRequest<'_>,
    reading: Reading,
) -> Result<FramedDecision, AllocError>
    requires judged { IsOfAsk (option_copied asked.now.judged) asked.now.request.now.ask }
    requires target { IsTarget target asked.now.request.now.ask }
    requires read { reading ≡ reading_of asked.now.request.now }
    ensures decided { IfOk result (λ decision. decision
        ≡ framed_by (object_refusal (sizes_found target.entry.container) asked.now.request.now)
        (row_answer listed.now.rows.now target.entry.container asked.now.request.now asked.now.moment
        (option_copied listed.now.bound))
        (change_of (sizes_found target.entry.container) asked.now.request.now asked.now.moment)
        (blocks_found target.entry.container asked.now.request.now).blocks) }
    ensures sent { IfOk result (λ decision. AnswerCanBeSent decision) }
{
    match target.judge(alloc, asked.request, &reading)? {
        ObjectVerdict::Refused(refusal) => Ok(FramedDecision::Refused(refusal)),
        ObjectVerdict::Allowed(allowed) => answered(alloc, listed, allowed, asked, reading),
    }
}

/// Decides on a request, and reads no content: the spans of the answer say which bytes go out after the body of the
/// frame. So the content of the rows may be anywhere, also at places in streams.
///
/// `AllocError` if memory runs out.
pub fn decide_frame<'a>(
    alloc: Global,
    keys: Option<&Keys>,
    asked: &JudgedRequest<'_>,
    rows: &'a Rows,
    target: Target<'_>,
    reading: Reading,
    bound: Option<&'a Key>,
) -> Result<FramedDecision, AllocError>
    requires judged { IsOfAsk (option_copied asked.now.judged) asked.now.request.now.ask }
    requires target { IsTarget target asked.now.request.now.ask }
    requires read { reading ≡ reading_of asked.now.request.now }
    ensures decided { IfOk result (λ decision. decision ≡ framed_of (option_copied keys.entry) rows.now
        target.entry.container asked.now.request.now asked.now.moment (option_copied bound.entry)) }
    ensures sent { IfOk result (λ decision. AnswerCanBeSent decision) }
{
    match permission(alloc, keys, asked, &target)? {
        Verdict::Deny(rule) => Ok(FramedDecision::Refused(access_refusal(rule))),
        Verdict::Allow(_way) => {
            let listed = Listed { rows, bound };
            permitted(alloc, &listed, target, asked, reading)
        }
    }
}
