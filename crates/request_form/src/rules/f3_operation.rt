//! Rule F3: the operation that a method and a target ask for.
ghost use Rattle.std.specs.Prelude.{◌≡◌, ◌||◌, MatchResult, None, Some, codes, is_none, option_map};
ghost use Rattle.stamp_types.specs.declared.code.Code.TheVariants.{InvalidQueryParameterValue};
ghost use Rattle.stamp_values.specs.declared.op.Op.TheVariants.{PutBlob};
ghost use Rattle.stamp_values.specs.Operations.{is_op};
ghost use Rattle.request_form.specs.HeadReads.{IsOperation, RefusesValue};
ghost use Rattle.request_form.specs.HeadRules as heads;
ghost use Rattle.request_form.specs.declared.parse.path_kind.PathKind.TheVariants as path;

use crate::parse::path::kind;
use crate::parse::path_kind::PathKind;
use crate::rules::f1_target::Target;
use crate::rules::f3_block_parameters::{block_by, kinds_by, read_id, read_kinds};
use crate::rules::f3_page_parameters::read_page;
use crate::rules::f3_parameters::is_bad_text;
use crate::value_fault::ValueFault;
use stamp_types::{BlockId, BlockKinds, Code, Op, Page, Verb};
use std::alloc::Global;

/// What a method and a target ask for.
#[derive(Drop)]
pub struct Operation {
    pub op: Op,
    /// The id of the block, if the operation is Put Block.
    pub block: Option<BlockId>,
    /// The kinds of blocks, if the operation is Get Block List.
    pub kinds: Option<BlockKinds>,
    /// The names that are to be listed, if the operation lists names.
    pub page: Option<Page>,
}

/// Whether the operation is Put Blob.
pub(crate) fn is_put_blob(op: Op) -> bool
    ensures { result ≡ is_op PutBlob op }
{
    matches!(op, Op::PutBlob)
}

// The value is this text, or both are missing.
fn is_value(value: Option<&[u8]>, wanted: Option<&str>) -> bool
    ensures { result
        ≡ heads.is_value (option_map (λ v. v.now) value.entry) (option_map (λ w. w.now) wanted.entry) }
{
    match (value, wanted) {
        (None, None) => true,
        (Some(value), Some(wanted)) => value == wanted.as_bytes(),
        _ => false,
    }
}

// The operation on an account that fits a method and a value of comp.
fn account_op(verb: Verb, comp: Option<&[u8]>) -> Option<Op>
    ensures { result ≡ heads.op_by verb path.Account None (option_map (λ v. v.now) comp.entry) }
{
    let list = is_value(comp, Some("list"));
    match verb {
        Verb::Get if list => Some(Op::ListContainers),
        _ => None,
    }
}

// The operation on a container that fits a method and a value of comp.
fn container_op(verb: Verb, comp: Option<&[u8]>) -> Option<Op>
    ensures { result ≡ heads.op_by verb path.Container (Some (codes "container"))
        (option_map (λ v. v.now) comp.entry) }
{
    let plain = is_value(comp, None);
    let metadata = is_value(comp, Some("metadata"));
    let acl = is_value(comp, Some("acl"));
    let list = is_value(comp, Some("list"));
    match verb {
        Verb::Put if plain => Some(Op::CreateContainer),
        Verb::Put if metadata => Some(Op::SetContainerMetadata),
        Verb::Put if acl => Some(Op::SetAcl),
        Verb::Get | Verb::Head if plain => Some(Op::ContainerProperties),
        Verb::Get | Verb::Head if acl => Some(Op::GetAcl),
        Verb::Get if list => Some(Op::ListBlobs),
        Verb::Delete if plain => Some(Op::DeleteContainer),
        _ => None,
    }
}

// The operation on a blob that fits a method and a value of comp.
fn blob_op(verb: Verb, comp: Option<&[u8]>) -> Option<Op>
    ensures { result ≡ heads.op_by verb path.Blob None (option_map (λ v. v.now) comp.entry) }
{
    let plain = is_value(comp, None);
    let metadata = is_value(comp, Some("metadata"));
    let list = is_value(comp, Some("blocklist"));
    match verb {
        Verb::Put if plain => Some(Op::PutBlob),
        Verb::Get if plain => Some(Op::GetBlob),
        Verb::Head if plain => Some(Op::BlobProperties),
        Verb::Delete if plain => Some(Op::DeleteBlob),
        Verb::Put if metadata => Some(Op::SetMetadata),
        Verb::Get | Verb::Head if metadata => Some(Op::GetMetadata),
        Verb::Put if list => Some(Op::PutBlockList),
        Verb::Get if list => Some(Op::GetBlockList),
        Verb::Put if is_value(comp, Some("block")) => Some(Op::PutBlock),
        _ => None,
    }
}

// The operation of the row that fits a method, what a path names, and the values of restype and comp.
#[tactic(auto, unfolding(crate::specs::HeadRules::row_at))]
fn row_at(verb: Verb, target: &Target) -> Option<Op>
    ensures { result ≡ heads.row_at verb target.now }
{
    let restype = target.query.first(b"restype");
    let comp = target.query.first(b"comp");
    match kind(target.path.as_slice()) {
        PathKind::Account if is_value(restype, None) => account_op(verb, comp),
        PathKind::Container if is_value(restype, Some("container")) => container_op(verb, comp),
        PathKind::Blob if is_value(restype, None) => blob_op(verb, comp),
        _ => None,
    }
}

// The operation that a request asks for. A Put Block has to give the id of its block.
#[tactic(auto, unfolding(crate::specs::HeadRules::op_at))]
fn op_at(verb: Verb, target: &Target) -> Option<Op>
    ensures { result ≡ heads.op_at verb target.now }
{
    match row_at(verb, target) {
        Some(Op::PutBlock) if !target.query.is_sent(b"blockid") => None,
        found => found,
    }
}

/// The operation of a method on a target, by rule F3.
///
/// `Refused` if the operation is not built, or a parameter that operations have is given twice or has a bad value.
#[tactic(auto, unfolding(crate::specs::HeadRules::has_bad_parameter, crate::specs::HeadRules::has_bad_page))]
pub(crate) fn read_operation(
    alloc: Global,
    verb: Verb,
    target: &Target,
) -> Result<Operation, ValueFault>
    ensures { MatchResult result (IsOperation verb target.now)
        (RefusesValue (is_none (heads.op_at verb target.now) || heads.has_bad_parameter target.now.query)
        InvalidQueryParameterValue) }
{
    let Some(op) = op_at(verb, target) else {
        return Err(ValueFault::Refused(Code::InvalidQueryParameterValue));
    };
    if is_bad_text(&target.query, "restype") || is_bad_text(&target.query, "comp") {
        return Err(ValueFault::Refused(Code::InvalidQueryParameterValue));
    }
    let kinds = read_kinds(&target.query)?;
    let id = read_id(alloc, &target.query)?;
    let page = match read_page(alloc, op, &target.query) {
        Ok(page) => page,
        Err(fault) => {
            drop(id);
            return Err(fault);
        }
    };
    Ok(Operation {
        op,
        block: block_by(op, id),
        kinds: kinds_by(op, kinds),
        page,
    })
}
