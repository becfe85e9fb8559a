//! Rule F3: what holds of each parameter of a query.
ghost use Rattle.std.specs.Prelude.{◌≡◌, ◌&&◌, bytes_eq, codes, false};
ghost use Rattle.stamp_values.specs.Texts as texts;
ghost use Rattle.request_form.specs.HeadRules as heads;

use stamp_types::{FieldList, is_clean, is_utf8};

/// Whether the value is a text without control characters.
pub(crate) fn is_text(value: &[u8]) -> bool
    ensures { result ≡ (texts.is_utf8 value.now && texts.is_clean value.now) }
{
    is_utf8(value) && is_clean(value)
}

/// Whether a parameter that may have any text is given twice, or its value is not a text without control characters.
#[tactic(auto, unfolding(crate::specs::HeadRules::is_bad_parameter, crate::specs::HeadRules::is_value_of, crate::specs::HeadFields::is_bad))]
pub(crate) fn is_bad_text(query: &FieldList, name: &str) -> bool
    requires max { bytes_eq name.now (codes "maxresults") ≡ false }
    requires include { bytes_eq name.now (codes "include") ≡ false }
    ensures { result ≡ heads.is_bad_parameter query.now name.now (heads.is_value_of name.now) }
{
    if query.is_sent_twice(name.as_bytes()) {
        return true;
    }
    match query.first(name.as_bytes()) {
        Some(value) => !is_text(value),
        None => false,
    }
}
