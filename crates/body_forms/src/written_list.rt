//! Writing block lists.
ghost use Rattle.std.specs.Prelude.{◌≡◌, ◌++◌, IfOk, OnOk, flat_map, map, option_map, string_bytes};
ghost use Rattle.xml_text.specs.WrittenElements.{closing_text, opening_text, prolog_text};
ghost use Rattle.body_forms.specs.WrittenLists.{block_view};
ghost use Rattle.body_forms.specs.WrittenLists as written;

use base64_text::append_base64;
use itoa::Buffer;
use stamp_values::BlockId;
use std::alloc::{AllocError, Global};

/// How many bytes a list without blocks has at most.
const LIST_ROOM: usize = 135;

/// How many bytes a block has at most: its tags, an id of 64 bytes in Base64, and the digits of its length.
const BLOCK_ROOM: usize = 41 + 88 + 20;

/// A block that Get Block List shows.
#[derive(Clone, Copy, Drop)]
pub struct ListedBlock<'a> {
    pub id: &'a BlockId,
    /// In bytes.
    pub len: u64,
}

#[tactic(auto, unfolding(crate::specs::WrittenLists::name_text))]
fn append_name(out: &mut String, id: &BlockId) -> Result<(), AllocError>
    ensures { OnOk result
        (string_bytes out.new ≡ string_bytes out.old ++ written.name_text id.now) }
{
    out.push_str("<Name>")?;
    append_base64(out, id.as_slice())?;
    out.push_str("</Name>")?;
    Ok(())
}

#[tactic(auto, unfolding(crate::specs::WrittenLists::size_text))]
fn append_size(out: &mut String, len: u64) -> Result<(), AllocError>
    ensures { OnOk result
        (string_bytes out.new ≡ string_bytes out.old ++ written.size_text len) }
{
    let mut digits = Buffer::new();
    out.push_str("<Size>")?;
    out.push_str(digits.format(len))?;
    out.push_str("</Size>")?;
    Ok(())
}

#[tactic(auto, unfolding(crate::specs::WrittenLists::block_text))]
fn append_block(out: &mut String, block: &ListedBlock<'_>) -> Result<(), AllocError>
    ensures { OnOk result
        (string_bytes out.new ≡ string_bytes out.old ++ written.block_text (block_view block.now)) }
{
    out.push_str("<Block>")?;
    append_name(out, block.id)?;
    append_size(out, block.len)?;
    out.push_str("</Block>")?;
    Ok(())
}

fn append_blocks(out: &mut String, blocks: &[ListedBlock<'_>]) -> Result<(), AllocError>
    ensures { OnOk result
        (string_bytes out.new
        ≡ string_bytes out.old ++ flat_map written.block_text (map block_view blocks.now)) }
{
    for block in blocks {
        append_block(out, block)?;
    }
    Ok(())
}

#[tactic(auto, unfolding(xml_text::specs::WrittenElements::opening_text))]
fn append_opening(out: &mut String, name: &str) -> Result<(), AllocError>
    ensures { OnOk result
        (string_bytes out.new ≡ string_bytes out.old ++ opening_text name.now) }
{
    out.push_str("<")?;
    out.push_str(name)?;
    out.push_str(">")?;
    Ok(())
}

#[tactic(auto, unfolding(xml_text::specs::WrittenElements::closing_text))]
fn append_closing(out: &mut String, name: &str) -> Result<(), AllocError>
    ensures { OnOk result
        (string_bytes out.new ≡ string_bytes out.old ++ closing_text name.now) }
{
    out.push_str("</")?;
    out.push_str(name)?;
    out.push_str(">")?;
    Ok(())
}

#[tactic(auto, unfolding(crate::specs::WrittenLists::blocks_text))]
fn append_element(
    out: &mut String,
    name: &str,
    blocks: &[ListedBlock<'_>],
) -> Result<(), AllocError>
    ensures { OnOk result
        (string_bytes out.new
        ≡ string_bytes out.old ++ written.blocks_text name.now (map block_view blocks.now)) }
{
    append_opening(out, name)?;
    append_blocks(out, blocks)?;
    append_closing(out, name)?;
    Ok(())
}

// Nothing is written for a list that was not asked for.
fn append_asked(
    out: &mut String,
    name: &str,
    blocks: Option<&[ListedBlock<'_>]>,
) -> Result<(), AllocError>
    ensures { OnOk result
        (string_bytes out.new
        ≡ string_bytes out.old
        ++ written.asked_text name.now (option_map (λ bs. map block_view bs.now) blocks.entry)) }
{
    match blocks {
        Some(blocks) => append_element(out, name, blocks),
        None => Ok(()),
    }
}

#[tactic(auto, unfolding(crate::specs::WrittenLists::lists_text))]
fn append_lists(
    out: &mut String,
    committed: Option<&[ListedBlock<'_>]>,
    uncommitted: Option<&[ListedBlock<'_>]>,
) -> Result<(), AllocError>
    ensures { OnOk result
        (string_bytes out.new
        ≡ string_bytes out.old ++ written.lists_text
        (option_map (λ bs. map block_view bs.now) committed.entry)
        (option_map (λ bs. map block_view bs.now) uncommitted.entry)) }
{
    append_asked(out, "CommittedBlocks", committed)?;
    append_asked(out, "UncommittedBlocks", uncommitted)?;
    Ok(())
}

#[tactic(auto, unfolding(xml_text::specs::WrittenElements::prolog_text))]
fn append_prolog(out: &mut String) -> Result<(), AllocError>
    ensures { OnOk result (string_bytes out.new ≡ string_bytes out.old ++ prolog_text) }
{
    out.push_str("<?xml version=\"1.0\" encoding=\"utf-8\"?>")
}

// How many bytes the list has at most.
fn room_for(
    committed: Option<&[ListedBlock<'_>]>,
    uncommitted: Option<&[ListedBlock<'_>]>,
) -> usize {
    let blocks = block_count(committed).saturating_add(block_count(uncommitted));
    blocks.saturating_mul(BLOCK_ROOM).saturating_add(LIST_ROOM)
}

fn block_count(blocks: Option<&[ListedBlock<'_>]>) -> usize {
    match blocks {
        Some(blocks) => blocks.len(),
        None => 0,
    }
}

/// Writes the body of a reply to Get Block List. Each list that was asked for is written, also if it has no blocks: the
/// committed blocks in the order of the blob, and then the uncommitted blocks in the order that the caller gives.
///
/// `AllocError` if memory runs out.
///
/// Blob service REST reference, 2012-02-12, Get Block List.
#[tactic(auto, unfolding(crate::specs::WrittenLists::block_list_text))]
pub fn write_block_list<'a>(
    alloc: Global,
    committed: Option<&'a [ListedBlock<'a>]>,
    uncommitted: Option<&'a [ListedBlock<'a>]>,
) -> Result<Vec<u8>, AllocError>
    ensures { IfOk result (λ text. text.items ≡ written.block_list_text
        (option_map (λ bs. map block_view bs.now) committed.entry)
        (option_map (λ bs. map block_view bs.now) uncommitted.entry)) }
{
    let mut out = String::with_capacity(alloc, room_for(committed, uncommitted))?;
    append_prolog(&mut out)?;
    append_opening(&mut out, "BlockList")?;
    append_lists(&mut out, committed, uncommitted)?;
    append_closing(&mut out, "BlockList")?;
    Ok(out.into_bytes())
}
