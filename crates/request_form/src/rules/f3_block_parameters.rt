//! Rule F3: the parameters of blocks (Blob service REST reference, 2012-02-12, Put Block, Get Block List).
ghost use Rattle.std.specs.Prelude.{◌≡◌, IfOk, MatchOption, MatchResult, None, Some, cond, false, true};
ghost use Rattle.std.specs.Option.{option_or};
ghost use Rattle.base64_text.specs.Base64.{standard, decoded_of};
ghost use Rattle.stamp_types.specs.declared.code.Code.TheVariants.{InvalidQueryParameterValue};
ghost use Rattle.stamp_values.specs.declared.block.BlockKinds.TheVariants.{Committed};
ghost use Rattle.stamp_values.specs.declared.op.Op.TheVariants.{GetBlockList, PutBlock};
ghost use Rattle.stamp_values.specs.Operations.{is_op};
ghost use Rattle.request_form.specs.HeadBlocks as blocks;
ghost use Rattle.request_form.specs.HeadReads.{RefusesValue};
ghost use Rattle.request_form.specs.HeadRules as heads;

use crate::rules::f3_parameters::is_text;
use crate::value_fault::ValueFault;
use base64_text::decoded_base64;
use stamp_types::{BlockId, BlockKinds, Bytes, Code, FieldList, Op};
use std::alloc::{AllocError, Global};

// The id that a value is the strict Base64 of, if the id has 1 to 64 bytes.
#[tactic(auto, unfolding(base64_text::specs::Base64::is_base64_within))]
fn id_of(alloc: Global, value: &[u8]) -> Result<Option<BlockId>, AllocError>
    ensures { IfOk result (λ o. MatchOption o
        (heads.is_good_value heads.is_id value.now ≡ false)
        (λ id. (heads.is_good_value heads.is_id value.now ≡ true)
        × (decoded_of standard value.now ≡ Some id))) }
{
    if !is_text(value) {
        return Ok(None);
    }
    match decoded_base64(alloc, value)? {
        Some(bytes) => Ok(BlockId::new(Bytes::new(bytes))),
        None => Ok(None),
    }
}

/// The id of a block that a query gives, if the query has the parameter.
///
/// `Refused` if the parameter is given twice, or its value is not the strict Base64 of 1 to 64 bytes.
#[tactic(auto, unfolding(crate::specs::HeadRules::has_bad_block_id, crate::specs::HeadRules::is_bad_parameter, crate::specs::HeadFields::is_bad))]
pub(crate) fn read_id(alloc: Global, query: &FieldList) -> Result<Option<BlockId>, ValueFault>
    ensures { MatchResult result
        (λ id. (heads.has_bad_block_id query.now ≡ false) × (id ≡ blocks.id_given query.now))
        (RefusesValue (heads.has_bad_block_id query.now) InvalidQueryParameterValue) }
{
    if query.is_sent_twice(b"blockid") {
        return Err(ValueFault::Refused(Code::InvalidQueryParameterValue));
    }
    let Some(value) = query.first(b"blockid") else {
        return Ok(None);
    };
    match id_of(alloc, value)? {
        Some(id) => Ok(Some(id)),
        None => Err(ValueFault::Refused(Code::InvalidQueryParameterValue)),
    }
}

// The kinds of blocks that a value names.
fn kinds_named(value: &[u8]) -> Option<BlockKinds>
    ensures { MatchOption result (heads.is_kinds value.now ≡ false)
        (λ kinds. (heads.is_kinds value.now ≡ true) × (kinds ≡ blocks.kinds_named value.now)) }
{
    if value == b"committed".as_slice() {
        Some(BlockKinds::Committed)
    } else if value == b"uncommitted".as_slice() {
        Some(BlockKinds::Uncommitted)
    } else if value == b"all".as_slice() {
        Some(BlockKinds::All)
    } else {
        None
    }
}

// The kinds of blocks that a value names, if the value is a text without control characters.
fn kinds_of(value: &[u8]) -> Option<BlockKinds>
    ensures { MatchOption result (heads.is_good_value heads.is_kinds value.now ≡ false)
        (λ kinds. (heads.is_good_value heads.is_kinds value.now ≡ true)
        × (kinds ≡ blocks.kinds_named value.now)) }
{
    if is_text(value) {
        kinds_named(value)
    } else {
        None
    }
}

/// The kinds of blocks that a query gives, if the query has the parameter.
///
/// `Refused` if the parameter is given twice, or its value does not name kinds of blocks.
#[tactic(auto, unfolding(crate::specs::HeadRules::has_bad_kinds, crate::specs::HeadRules::is_bad_parameter, crate::specs::HeadFields::is_bad))]
pub(crate) fn read_kinds(query: &FieldList) -> Result<Option<BlockKinds>, ValueFault>
    ensures { MatchResult result
        (λ kinds. (heads.has_bad_kinds query.now ≡ false) × (kinds ≡ blocks.kinds_given query.now))
        (RefusesValue (heads.has_bad_kinds query.now) InvalidQueryParameterValue) }
{
    if query.is_sent_twice(b"blocklisttype") {
        return Err(ValueFault::Refused(Code::InvalidQueryParameterValue));
    }
    let Some(value) = query.first(b"blocklisttype") else {
        return Ok(None);
    };
    match kinds_of(value) {
        Some(kinds) => Ok(Some(kinds)),
        None => Err(ValueFault::Refused(Code::InvalidQueryParameterValue)),
    }
}

/// The id that was given, if the operation is Put Block.
pub(crate) fn block_by(op: Op, id: Option<BlockId>) -> Option<BlockId>
    ensures { result ≡ cond (is_op PutBlock op) id None }
{
    if matches!(op, Op::PutBlock) { id } else { None }
}

/// The kinds of blocks that were given, if the operation is Get Block List; the committed blocks if no kinds were given.
pub(crate) fn kinds_by(op: Op, kinds: Option<BlockKinds>) -> Option<BlockKinds>
    ensures { result ≡ cond (is_op GetBlockList op) (option_or kinds (Some Committed)) None }
{
    if matches!(op, Op::GetBlockList) {
        Some(kinds.unwrap_or(BlockKinds::Committed))
    } else {
        None
    }
}
