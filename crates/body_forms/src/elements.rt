//! The elements of a block list, each with its text as it is written.
ghost use Rattle.std.specs.Prelude.{◌≡◌, ◌≤◌, ◌<◌, ◌++◌, ℕ, codes, length, map, Some, None, IfSome, option_map, MatchResult};
ghost use Rattle.xml_text.specs.Reading as tags;
ghost use Rattle.body_forms.specs.BlockLists.{list_name};
ghost use Rattle.body_forms.specs.Outcomes.{Finds, OnForm};
ghost use Rattle.body_forms.specs.BlockListReading.{entry_view};
ghost use Rattle.xml_text.specs.ElementReading as reading;
ghost use Rattle.body_forms.specs.BlockListReading as blocks;

use crate::body_fault::BodyFault;
use stamp_values::Lookup;
use std::alloc::Global;
use xml_text::{Kind, Tag, Tokens, content, is_tag};

/// The name of the root.
const LIST_NAME: &[u8] = b"BlockList";

// The tags of an element `Latest`, as clients write them.
const OPENING: &[u8] = b"<Latest>";

const CLOSING: &[u8] = b"</Latest>";

/// An element of a block list, with its text as it is written.
#[derive(Clone, Copy, Drop)]
pub(crate) struct Element<'a> {
    pub(crate) lookup: Lookup,
    pub(crate) written: &'a [u8],
}

// Where an element of this name looks for its block. `None` if no element of a block list has the name.
fn lookup_of(name: &[u8]) -> Option<Lookup>
    ensures { result ≡ blocks.lookup_of name.now }
{
    if name == b"Committed".as_slice() {
        Some(Lookup::Committed)
    } else if name == b"Uncommitted".as_slice() {
        Some(Lookup::Uncommitted)
    } else if name == b"Latest".as_slice() {
        Some(Lookup::Latest)
    } else {
        None
    }
}

// Takes the rest of the element that begins with this tag.
#[tactic(auto, unfolding(crate::specs::BlockListReading::entry_at))]
fn element_from<'a>(text: &mut Tokens<'a>, tag: Tag<'a>) -> Option<Element<'a>>
    ensures value { tags.Gives entry_view result text.new.left.now
        (blocks.entry_at (tags.tag_of tag.entry) text.old.left.now) }
    ensures within { IfSome result (λ _. length text.new.left.now ≤ length text.old.left.now) }
{
    let lookup = lookup_of(tag.name)?;
    let written = content(text, tag)?;
    Some(Element { lookup, written })
}

// The rest of a text that begins with the opening tag of an element `Latest`.
fn after_opening(text: &[u8]) -> Option<&[u8]>
    ensures begins { IfSome result (λ rest. text.now ≡ codes "<Latest>" ++ rest.now) }
    ensures shorter { IfSome result (λ rest. length rest.now < length text.now) }
{
    text.strip_prefix(OPENING)
}

// The rest of a text that begins with the closing tag of an element `Latest`.
fn after_closing(text: &[u8]) -> Option<&[u8]>
    ensures begins { IfSome result (λ rest. text.now ≡ codes "</Latest>" ++ rest.now) }
    ensures shorter { IfSome result (λ rest. length rest.now < length text.now) }
{
    text.strip_prefix(CLOSING)
}

// The element `Latest` at the front, if its tags have neither attributes nor white space, and what is left of the text after it.
#[tactic(auto, using(crate::proofs::LatestLemmas::latest_next))]
fn latest(text: &[u8]) -> Option<(Element<'_>, &[u8])>
    ensures value { IfSome result (λ r.
        reading.next_at list_name blocks.entry_at text.now ≡ Some (Some (entry_view r.0), r.1.now)) }
    ensures shorter { IfSome result (λ r. length r.1.now < length text.now) }
{
    let mut inside = Tokens {
        left: after_opening(text)?,
    };
    let written = inside.text()?;
    let rest = after_closing(inside.left)?;
    let element = Element {
        lookup: Lookup::Latest,
        written,
    };
    Some((element, rest))
}

// Takes one element, or the end of the list.
fn next_element<'a>(text: &mut Tokens<'a>) -> Option<Option<Element<'a>>>
    ensures value { tags.Gives (λ e. option_map entry_view e) result text.new.left.now
        (reading.next_at list_name blocks.entry_at text.old.left.now) }
    ensures shorter { IfSome result (λ _. length text.new.left.now < length text.old.left.now) }
{
    // Most elements are found by two comparisons, which cost less than the readings of their tags.
    if let Some((element, rest)) = latest(text.left) {
        text.left = rest;
        return Some(Some(element));
    }
    any_element(text)
}

// Takes one element, or the end of the list, however their tags are written.
#[tactic(auto, unfolding(xml_text::specs::ElementReading::next_at))]
fn any_element<'a>(text: &mut Tokens<'a>) -> Option<Option<Element<'a>>>
    ensures value { tags.Gives (λ e. option_map entry_view e) result text.new.left.now
        (reading.next_at list_name blocks.entry_at text.old.left.now) }
    ensures shorter { IfSome result (λ _. length text.new.left.now < length text.old.left.now) }
{
    text.skip_white();
    let tag = text.tag()?;
    if is_tag(Kind::Closing, LIST_NAME, tag) {
        return Some(None);
    }
    let element = element_from(text, tag)?;
    Some(Some(element))
}

// Takes the elements up to the end of the list.
fn elements<'a>(alloc: Global, text: &mut Tokens<'a>) -> Result<Vec<Element<'a>>, BodyFault>
    ensures value { (n : ℕ) → length text.old.left.now < n → MatchResult result
        (λ es. reading.elements_at list_name blocks.entry_at n text.old.left.now
        ≡ Some (map entry_view es.items, text.new.left.now))
        (OnForm (reading.elements_at list_name blocks.entry_at n text.old.left.now ≡ None)) }
{
    let mut elements = Vec::new(alloc);
    'elements: loop {
        match next_element(text) {
            None => return Err(BodyFault::Form),
            Some(None) => return Ok(elements),
            Some(Some(element)) => {
                if elements.push(element).is_err() {
                    return Err(BodyFault::NoMemory);
                }
            }
        }
    }
}

// Takes the rest of a root after its first tag.
#[tactic(auto, unfolding(xml_text::specs::ElementReading::inner_at))]
fn root<'a>(
    alloc: Global,
    text: &mut Tokens<'a>,
    tag: Tag<'a>,
) -> Result<Vec<Element<'a>>, BodyFault>
    ensures value { Finds (λ es. map entry_view es.items) result text.new.left.now
        (reading.inner_at list_name blocks.entry_at (tags.tag_of tag.entry) text.old.left.now) }
{
    if is_tag(Kind::Opening, LIST_NAME, tag) {
        elements(alloc, text)
    } else if is_tag(Kind::Empty, LIST_NAME, tag) {
        Ok(Vec::new(alloc))
    } else {
        Err(BodyFault::Form)
    }
}

/// The elements of a text that is a block list without a byte order mark and a prolog, in their order.
///
/// `Form` if the text is not a block list, and `NoMemory` if memory runs out.
#[tactic(auto, unfolding(xml_text::specs::ElementReading::root_of))]
pub(crate) fn read_elements(alloc: Global, text: &[u8]) -> Result<Vec<Element<'_>>, BodyFault>
    ensures { MatchResult result
        (λ es. blocks.entries_of text.now ≡ Some (map entry_view es.items))
        (OnForm (blocks.entries_of text.now ≡ None)) }
{
    let mut left = Tokens { left: text };
    left.skip_white();
    let Some(tag) = left.tag() else {
        return Err(BodyFault::Form);
    };
    let elements = root(alloc, &mut left, tag)?;
    left.skip_white();
    if left.left.is_empty() {
        Ok(elements)
    } else {
        Err(BodyFault::Form)
    }
}
