//! Names, their groups, and bounds from which a walk goes on.
ghost use Rattle.std.specs.Prelude.{◌≡◌, IsTrue, IfOk, true};
ghost use Rattle.std.specs.Option.{option_map};
ghost use Rattle.list_pages.specs.Lists as lists;
ghost use Rattle.list_pages.specs.Names as names;
ghost use Rattle.list_pages.specs.Seeks as seeks;
ghost use Rattle.stamp_values.specs.Trees.{is_name_from};

use stamp_types::Text;
use std::alloc::{AllocError, Global};

/// The bytes of a text, which are empty if the text is not given. The last byte can be raised: no
/// text in UTF-8 has the byte 255.
#[tactic(auto, using(crate::proofs::Ends::text_ends))]
pub(crate) fn given(text: &Option<Text>) -> &[u8]
    ensures value { result.now ≡ lists.given text.now }
    ensures end { IsTrue (seeks.can_be_raised result.now) }
{
    match text {
        Some(text) => text.as_str().as_bytes(),
        None => &[],
    }
}

/// Whether the name begins with the prefix.
pub(crate) fn begins_with(name: &[u8], prefix: &[u8]) -> bool
    ensures { result ≡ names.begins_with name.now prefix.now }
{
    name.starts_with(prefix)
}

/// Whether the text is at the bound or past it.
pub(crate) fn is_from(bound: &[u8], text: &[u8]) -> bool
    ensures { result ≡ is_name_from bound.now text.now }
{
    bound.cmp(text).is_le()
}

/// The later of two bounds.
pub(crate) fn later_of<'a>(a: &'a [u8], b: &'a [u8]) -> &'a [u8]
    ensures { result.now ≡ seeks.later_of a.now b.now }
{
    if is_from(a, b) { b } else { a }
}

// Where the first delimiter ends, if the text has a delimiter.
#[tactic(auto, using(crate::proofs::Cuts::cut_on, crate::proofs::Cuts::cut_found))]
fn cut_end(delimiter: &[u8], text: &[u8]) -> Option<usize>
    ensures { result ≡ seeks.cut_from 0 delimiter.now text.now }
{
    for at in 0..text.len() {
        if begins_with(&text[at..], delimiter) {
            return Some(at + delimiter.len());
        }
    }
    None
}

/// The group of a name that begins with the prefix.
#[tactic(auto, using(crate::proofs::Cuts::no_delimiter, crate::proofs::Cuts::begins_long))]
pub(crate) fn group_of<'a>(prefix: &[u8], delimiter: &[u8], name: &'a [u8]) -> Option<&'a [u8]>
    requires { names.begins_with name.now prefix.now ≡ true }
    ensures { option_map (λ t. t.now) result
        ≡ names.group_of prefix.now delimiter.now name.now }
{
    if delimiter.len() == 0 {
        return None;
    }
    match cut_end(delimiter, &name[prefix.len()..]) {
        Some(end) => Some(&name[..prefix.len() + end]),
        None => None,
    }
}

/// The group with its last byte raised by one.
#[tactic(auto, using(crate::proofs::Cuts::raised_last, crate::proofs::Cuts::last_below, crate::proofs::Cuts::raised_none))]
pub(crate) fn raised(alloc: Global, group: &[u8]) -> Result<Vec<u8>, AllocError>
    requires { IsTrue (seeks.can_be_raised group.now) }
    ensures { IfOk result (λ bound. bound.items ≡ seeks.raised group.now) }
{
    match group {
        [front @ .., last] => {
            let mut bound = front.to_vec(alloc)?;
            bound.push(*last + 1)?;
            Ok(bound)
        }
        [] => Ok(Vec::new(alloc)),
    }
}
