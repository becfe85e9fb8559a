//! Tests of whether the parts of a request fit its operation.
ghost use Rattle.std.specs.Prelude.{◌≡◌, ◌↔◌, ◌≤◌, false, not, ◌==◌, IsTrue, IsSome, IfSome, is_some, length, [], None};
ghost use Rattle.stamp_values.specs.declared.op.Op.TheVariants.{ListContainers, GetBlob, PutBlock, GetBlockList};
ghost use Rattle.stamp_values.specs.Operations.{names_container, names_blob, has_conditions, checks_md5, keeps_headers, keeps_metadata, sets_level, lists_names};
ghost use Rattle.stamp_values.specs.Names as names;
ghost use Rattle.stamp_types.specs.Requests.{IsGiven, IsPage, IsNamed, HasNoMore, HasItsOwn, HasItsPage, IsAsk};

use crate::args::Page;
use crate::args_len::are_args_short;
use crate::ask::Ask;
use stamp_values::{
    BlockId, BlockKinds, ByteRange, Condition, Metadata, Op, PAGE_LIMIT, Text, account_ok,
    container_ok, is_blob,
};

fn is_container_there(op: Op, container: &Text) -> bool
    ensures { IsTrue result ↔ (not (length container.now == 0) ≡ names_container op) }
{
    container.as_str().is_empty() != op.names_container()
}

fn is_container_good(op: Op, container: &Text) -> bool
    ensures { IsTrue result
        ↔ (IsTrue (names_container op) → IsTrue (names.is_container container.now)) }
{
    !op.names_container() || container_ok(container.as_str().as_bytes())
}

fn is_blob_good(blob: &Option<Text>) -> bool
    ensures { IsTrue result ↔ IfSome blob.now (λ b. IsTrue (names.is_blob b)) }
{
    match blob {
        None => true,
        Some(blob) => is_blob(blob.as_str().as_bytes()),
    }
}

fn may_have_condition(op: Op, condition: Option<Condition>) -> bool
    ensures { IsTrue result ↔ (IsSome condition → IsTrue (has_conditions op)) }
{
    condition.is_none() || op.has_conditions()
}

fn may_have_md5(op: Op, md5: Option<[u8; 16]>) -> bool
    ensures { IsTrue result ↔ (IsSome md5 → IsTrue (checks_md5 op)) }
{
    md5.is_none() || op.checks_md5()
}

fn may_have_range(op: Op, range: Option<ByteRange>) -> bool
    ensures { IsTrue result ↔ (IsSome range → op ≡ GetBlob) }
{
    range.is_none() || op == Op::GetBlob
}

fn is_range_rising(range: Option<ByteRange>) -> bool
    ensures { IsTrue result ↔ IfSome range (λ r. IfSome r.last (λ last. r.first ≤ last)) }
{
    match range {
        None => true,
        Some(range) => match range.last {
            None => true,
            Some(last) => range.first <= last,
        },
    }
}

fn may_have_metadata(op: Op, metadata: &Metadata) -> bool
    ensures { IsTrue result ↔ (keeps_metadata op ≡ false → metadata.now ≡ []) }
{
    op.keeps_metadata() || metadata.as_slice().is_empty()
}

fn is_given_right(text: &Option<Text>) -> bool
    ensures { IsTrue result ↔ IsGiven text.now }
{
    match text {
        None => true,
        Some(text) => !text.as_str().is_empty(),
    }
}

fn is_page(page: &Page) -> bool
    ensures { IsTrue result ↔ IsPage page.now }
{
    1 <= page.max
        && page.max <= PAGE_LIMIT
        && is_given_right(&page.prefix)
        && is_given_right(&page.delimiter)
        && is_given_right(&page.marker)
}

fn is_page_good(page: &Option<Page>) -> bool
    ensures { IsTrue result ↔ IfSome page.now IsPage }
{
    match page {
        None => true,
        Some(page) => is_page(page),
    }
}

fn may_have_delimiter(op: Op, page: &Option<Page>) -> bool
    ensures { IsTrue result ↔ (op ≡ ListContainers → IfSome page.now (λ p. p.delimiter ≡ None)) }
{
    match page {
        None => true,
        Some(page) => op != Op::ListContainers || page.delimiter.is_none(),
    }
}

fn is_block_there(op: Op, block: &Option<BlockId>) -> bool
    ensures { IsTrue result ↔ (IsSome block.now ↔ (op ≡ PutBlock)) }
{
    block.is_some() == (op == Op::PutBlock)
}

fn are_kinds_there(op: Op, kinds: Option<BlockKinds>) -> bool
    ensures { IsTrue result ↔ (IsSome kinds ↔ (op ≡ GetBlockList)) }
{
    kinds.is_some() == (op == Op::GetBlockList)
}

fn is_named(ask: &Ask) -> bool
    ensures { IsTrue result ↔ IsNamed ask.now }
{
    account_ok(ask.key.account.as_str().as_bytes())
        && is_container_there(ask.op, &ask.key.container)
        && is_container_good(ask.op, &ask.key.container)
        && ask.blob.is_some() == ask.op.names_blob()
        && is_blob_good(&ask.blob)
}

fn has_no_more(ask: &Ask) -> bool
    ensures { IsTrue result ↔ HasNoMore ask.now }
{
    may_have_condition(ask.op, ask.args.if_match)
        && may_have_condition(ask.op, ask.args.if_none_match)
        && may_have_md5(ask.op, ask.args.content_md5)
        && may_have_range(ask.op, ask.args.range)
        && is_range_rising(ask.args.range)
        && may_have_metadata(ask.op, &ask.args.metadata)
}

fn has_its_own(ask: &Ask) -> bool
    ensures { IsTrue result ↔ HasItsOwn ask.now }
{
    ask.args.kept.is_some() == ask.op.keeps_headers()
        && ask.args.level.is_some() == ask.op.sets_level()
        && is_block_there(ask.op, &ask.args.block)
        && are_kinds_there(ask.op, ask.args.kinds)
}

fn has_its_page(ask: &Ask) -> bool
    ensures { IsTrue result ↔ HasItsPage ask.now }
{
    ask.args.page.is_some() == ask.op.lists_names()
        && is_page_good(&ask.args.page)
        && may_have_delimiter(ask.op, &ask.args.page)
}

// Whether path and arguments fit the operation.
pub(crate) fn is_ask(ask: &Ask) -> bool
    ensures { IsTrue result ↔ IsAsk ask.now }
{
    is_named(ask)
        && has_no_more(ask)
        && has_its_own(ask)
        && has_its_page(ask)
        && are_args_short(&ask.args)
}
