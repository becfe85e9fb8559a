//! The ids of a block list.
ghost use Rattle.std.specs.Prelude.{◌≡◌, ◌≤◌, ◌==◌, length, map, None, Some, IfOk, IfSome, MatchOption, MatchResult};
ghost use Rattle.std.specs.List.{list_any};
ghost use Rattle.stamp_values.specs.Ascii.{ampersand};
ghost use Rattle.base64_text.specs.Base64.{standard, encode_of};
ghost use Rattle.xml_text.specs.ElementReading.{value_of};
ghost use Rattle.body_forms.specs.BlockListReading.{entry_view};
ghost use Rattle.body_forms.specs.Ids.{wanted_entry, wanted_list};
ghost use Rattle.body_forms.specs.Ids as ids;
ghost use Rattle.body_forms.specs.Outcomes.{OnId};

use crate::body_fault::BodyFault;
use crate::elements::Element;
use base64::engine::general_purpose::STANDARD;
use base64_text::decoded_base64;
use stamp_values::{BlockId, Bytes, Wanted};
use std::alloc::{AllocError, Global};
use xml_text::without_white_ends;

// How many characters the Base64 of 16 bytes has. Most clients make shorter ids.
const SHORT: usize = 24;

fn has_reference(written: &[u8]) -> bool
    ensures { result ≡ list_any (λ c. c == ampersand) written.now }
{
    written.iter().any(|&byte| byte == b'&')
}

// The id of these bytes, or `None` if there are no bytes or more than 64.
fn id_of_bytes(alloc: Global, bytes: &[u8]) -> Result<Option<BlockId>, AllocError>
    ensures { IfOk result (λ o. MatchOption o (ids.if_id bytes.now ≡ None) (λ id. ids.if_id bytes.now ≡ Some id)) }
{
    BlockId::copied(alloc, bytes)
}

// The id that a short text is the Base64 of. The bytes are decoded into an array, and so without an allocation.
#[tactic(auto, unfolding(crate::specs::Ids::id_of, base64::specs::GeneralPurpose::decoded_of))]
fn short_id(alloc: Global, text: &[u8]) -> Result<Option<BlockId>, AllocError>
    requires { length text.now ≤ 24 }
    ensures value { IfOk result (λ o. MatchOption o (ids.id_of text.now ≡ None)
        (λ id. ids.id_of text.now ≡ Some id)) }
    ensures read { IfOk result (λ o. IfSome o (λ id. text.now ≡ encode_of standard id)) }
{
    let mut bytes = [0; 18];
    match STANDARD.decode_slice_unchecked(text, &mut bytes) {
        Ok(len) => id_of_bytes(alloc, &bytes[..len]),
        Err(_fault) => Ok(None),
    }
}

// The id that the text is the Base64 of.
#[tactic(auto, unfolding(crate::specs::Ids::id_of))]
fn decoded_id(alloc: Global, text: &[u8]) -> Result<Option<BlockId>, AllocError>
    ensures value { IfOk result (λ o. MatchOption o (ids.id_of text.now ≡ None)
        (λ id. ids.id_of text.now ≡ Some id)) }
    ensures read { IfOk result (λ o. IfSome o (λ id. text.now ≡ encode_of standard id)) }
{
    if text.len() <= SHORT {
        return short_id(alloc, text);
    }
    match decoded_base64(alloc, text)? {
        Some(bytes) => Ok(BlockId::new(Bytes::new(bytes))),
        None => Ok(None),
    }
}

// The id of a text that is written so. A text with a reference is not copied: its value has a byte that Base64 does not have.
fn id(alloc: Global, written: &[u8]) -> Result<Option<BlockId>, AllocError>
    ensures value { IfOk result (λ o. MatchOption o
        (ids.id_of (value_of written.now) ≡ None)
        (λ id. ids.id_of (value_of written.now) ≡ Some id)) }
    ensures read { IfOk result (λ o. IfSome o
        (λ id. value_of written.now ≡ encode_of standard id)) }
{
    if has_reference(written) {
        return Ok(None);
    }
    decoded_id(alloc, without_white_ends(written))
}

// The block that an element wants, if its text is the text of an id.
fn wanted(alloc: Global, element: &Element<'_>) -> Result<Option<Wanted>, AllocError>
    ensures value { IfOk result (λ o. MatchOption o (ids.wanted_of (entry_view element.now) ≡ None)
        (λ w. ids.wanted_of (entry_view element.now) ≡ Some w)) }
    ensures read { IfOk result (λ o. IfSome o (λ w. entry_view element.now ≡ wanted_entry w)) }
{
    let lookup = element.lookup;
    match id(alloc, element.written)? {
        Some(id) => Ok(Some(Wanted { id, lookup })),
        None => Ok(None),
    }
}

/// The blocks that the elements want, in their order.
///
/// `Id` if the text of an element is not the strict Base64 of 1 to 64 bytes, and `NoMemory` if memory runs out.
pub(crate) fn read_ids(alloc: Global, elements: &[Element<'_>]) -> Result<Vec<Wanted>, BodyFault>
    ensures value { MatchResult result
        (λ ws. wanted_list (map entry_view elements.now) ≡ Some ws.items)
        (OnId (wanted_list (map entry_view elements.now) ≡ None)) }
    ensures read { IfOk result (λ ws. map entry_view elements.now ≡ map wanted_entry ws.items) }
{
    let mut blocks = Vec::with_capacity(alloc, elements.len())?;
    for element in elements {
        match wanted(alloc, element)? {
            Some(block) => {
                if blocks.push(block).is_err() {
                    return Err(BodyFault::NoMemory);
                }
            }
            None => return Err(BodyFault::Id),
        }
    }
    Ok(blocks)
}
