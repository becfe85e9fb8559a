//! The element of a stored policy that has the start, the expiry and the permissions.
ghost use Rattle.std.specs.Prelude.{◌≡◌, ◌≤◌, ◌<◌, ℕ, List, [], length, map, not, Some, None, IfSome, IfOk, option_map, MatchResult};
ghost use Rattle.xml_text.specs.Reading as tags;
ghost use Rattle.xml_text.specs.ElementReading.{value_of};
ghost use Rattle.xml_text.specs.ElementReading as elements;
ghost use Rattle.body_forms.specs.Policies.{is_nil, at_most_one, values, access_name};
ghost use Rattle.body_forms.specs.Policies as policies;
ghost use Rattle.body_forms.specs.PolicyReading.{given_view, access_view};
ghost use Rattle.body_forms.specs.PolicyReading as reading;
ghost use Rattle.body_forms.specs.Outcomes.{Finds, OnForm};

use crate::body_fault::BodyFault;
use std::alloc::Global;
use xml_text::{Kind, Tag, Tokens, content, is_tag};

/// The name of the element.
const ACCESS_NAME: &[u8] = b"AccessPolicy";

/// A field of a stored policy.
#[derive(Clone, Copy, PartialEq, Eq)]
pub(crate) enum Field {
    Start,
    Expiry,
    Permission,
}

/// A field with its text as it is written.
#[derive(Clone, Copy, Drop)]
pub(crate) struct Given<'a> {
    pub(crate) field: Field,
    pub(crate) written: &'a [u8],
}

/// The texts of the fields as they are written. The text is empty if the field is absent.
#[derive(Clone, Copy, Drop)]
pub(crate) struct Access<'a> {
    pub(crate) start: &'a [u8],
    pub(crate) expiry: &'a [u8],
    pub(crate) permission: &'a [u8],
}

// The field that an element of this name is. `None` if no field has the name.
fn field_of(name: &[u8]) -> Option<Field>
    ensures { result ≡ reading.field_of name.now }
{
    if name == b"Start".as_slice() {
        Some(Field::Start)
    } else if name == b"Expiry".as_slice() {
        Some(Field::Expiry)
    } else if name == b"Permission".as_slice() {
        Some(Field::Permission)
    } else {
        None
    }
}

// Takes the rest of the field that begins with this tag.
#[tactic(auto, unfolding(crate::specs::PolicyReading::given_at))]
fn given_from<'a>(text: &mut Tokens<'a>, tag: Tag<'a>) -> Option<Given<'a>>
    ensures value { tags.Gives given_view result text.new.left.now
        (reading.given_at (tags.tag_of tag.entry) text.old.left.now) }
    ensures within { IfSome result (λ _. length text.new.left.now ≤ length text.old.left.now) }
{
    let field = field_of(tag.name)?;
    let written = content(text, tag)?;
    Some(Given { field, written })
}

// Takes one field, or the end of the element.
#[tactic(auto, unfolding(xml_text::specs::ElementReading::next_at))]
fn next_given<'a>(text: &mut Tokens<'a>) -> Option<Option<Given<'a>>>
    ensures value { tags.Gives (λ g. option_map given_view g) result text.new.left.now
        (elements.next_at access_name reading.given_at text.old.left.now) }
    ensures shorter { IfSome result (λ _. length text.new.left.now < length text.old.left.now) }
{
    text.skip_white();
    let tag = text.tag()?;
    if is_tag(Kind::Closing, ACCESS_NAME, tag) {
        return Some(None);
    }
    let given = given_from(text, tag)?;
    Some(Some(given))
}

// Takes the fields up to the end of the element.
fn all_given<'a>(alloc: Global, text: &mut Tokens<'a>) -> Result<Vec<Given<'a>>, BodyFault>
    ensures value { (n : ℕ) → length text.old.left.now < n → MatchResult result
        (λ gs. elements.elements_at access_name reading.given_at n text.old.left.now
        ≡ Some (map given_view gs.items, text.new.left.now))
        (OnForm (elements.elements_at access_name reading.given_at n text.old.left.now ≡ None)) }
    ensures within { IfOk result (λ _. length text.new.left.now ≤ length text.old.left.now) }
{
    let mut fields = Vec::new(alloc);
    'fields: loop {
        match next_given(text) {
            None => return Err(BodyFault::Form),
            Some(None) => return Ok(fields),
            Some(Some(given)) => {
                if fields.push(given).is_err() {
                    return Err(BodyFault::NoMemory);
                }
            }
        }
    }
}

// Takes the rest of an element of this name after its first tag, and gives its fields.
#[tactic(auto, unfolding(xml_text::specs::ElementReading::inner_at))]
fn fields_inside<'a>(
    alloc: Global,
    text: &mut Tokens<'a>,
    tag: Tag<'a>,
) -> Result<Vec<Given<'a>>, BodyFault>
    ensures value { Finds (λ gs. map given_view gs.items) result text.new.left.now
        (elements.inner_at access_name reading.given_at (tags.tag_of tag.entry) text.old.left.now) }
    ensures within { IfOk result (λ _. length text.new.left.now ≤ length text.old.left.now) }
{
    if is_tag(Kind::Opening, ACCESS_NAME, tag) {
        all_given(alloc, text)
    } else if is_tag(Kind::Empty, ACCESS_NAME, tag) {
        Ok(Vec::new(alloc))
    } else {
        Err(BodyFault::Form)
    }
}

// Whether the field is among the fields.
#[tactic(auto, unfolding(crate::specs::Policies::values))]
fn has_field(fields: &[Given<'_>], wanted: Field) -> bool
    ensures { result ≡ not (is_nil (values wanted (map given_view fields.now))) }
{
    let mut left = fields;
    while let [first, rest @ ..] = left {
        if first.field == wanted {
            return true;
        }
        left = rest;
    }
    false
}

// The text of the field, which is empty if the field is absent. `None` if the field is given twice.
#[tactic(auto, unfolding(crate::specs::Policies::values))]
fn only<'a>(fields: &[Given<'a>], wanted: Field) -> Option<&'a [u8]>
    ensures { option_map (λ t. value_of t.now) result
        ≡ at_most_one [] (values wanted (map given_view fields.now)) }
{
    let mut left = fields;
    while let [first, rest @ ..] = left {
        if first.field == wanted {
            if has_field(rest, wanted) {
                return None;
            }
            return Some(first.written);
        }
        left = rest;
    }
    Some(&[])
}

// What the fields give. `None` if a field is given twice.
#[tactic(auto, unfolding(crate::specs::Policies::access_of))]
fn given_by<'a>(fields: &[Given<'a>]) -> Option<Access<'a>>
    ensures { option_map access_view result ≡ policies.access_of (map given_view fields.now) }
{
    let start = only(fields, Field::Start)?;
    let expiry = only(fields, Field::Expiry)?;
    let permission = only(fields, Field::Permission)?;
    Some(Access {
        start,
        expiry,
        permission,
    })
}

/// Takes the rest of AccessPolicy after its first tag.
///
/// `Form` if it is not this element, or if a field is given twice. `NoMemory` if memory runs out.
#[tactic(auto, unfolding(crate::specs::PolicyReading::access_at))]
pub(crate) fn access_from<'a>(
    alloc: Global,
    text: &mut Tokens<'a>,
    tag: Tag<'a>,
) -> Result<Access<'a>, BodyFault>
    ensures value { Finds access_view result text.new.left.now
        (reading.access_at (tags.tag_of tag.entry) text.old.left.now) }
    ensures within { IfOk result (λ _. length text.new.left.now ≤ length text.old.left.now) }
{
    let fields = fields_inside(alloc, text, tag)?;
    match given_by(&fields) {
        Some(access) => Ok(access),
        None => Err(BodyFault::Form),
    }
}
