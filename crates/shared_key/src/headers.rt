//! The headers in the string to sign.
ghost use Rattle.std.specs.Prelude.{◌≡◌, ◌++◌, IfOk, OnOk, map, filter};
ghost use Rattle.std.specs.List.{flat_map};
ghost use Rattle.std.specs.Map.Iter.{deref_pair};
ghost use Rattle.stamp_values.specs.Fields.{standard_names};
ghost use Rattle.shared_key.specs.Strings.{standard_value, standard_lines, is_ms, by_name, header_line, canonicalized_headers};

use stamp_values::header_names::{DATE, OWN_DATE, OWN_PREFIX, STANDARD_NAMES};
use stamp_values::{FieldList, FieldRef, trimmed};
use std::alloc::{AllocError, Global};
use std::collections::BTreeMap;

// The line of a standard header. The date is signed only once: if `x-ms-date` was sent, the line of the date is empty.
fn standard_value<'a>(headers: &'a FieldList, name: &[u8]) -> &'a [u8]
    ensures { result.now ≡ standard_value headers.now name.now }
{
    if name == DATE.as_bytes() && headers.is_sent(OWN_DATE.as_bytes()) {
        return &[];
    }
    match headers.first(name) {
        Some(value) => trimmed(value),
        None => &[],
    }
}

fn write_lines(out: &mut Vec<u8>, headers: &FieldList, names: &[&str]) -> Result<(), AllocError>
    ensures { OnOk result (out.new.items
        ≡ out.old.items ++ standard_lines headers.now (map (λ name. name.now) names.now)) }
{
    for name in names {
        out.extend_from_slice(standard_value(headers, name.as_bytes()))?;
        out.push(b'\n')?;
    }
    Ok(())
}

/// Puts the lines of the eleven standard headers at the end, each ended by LF. The line of a header that was not sent is empty.
pub(crate) fn write_standard(out: &mut Vec<u8>, headers: &FieldList) -> Result<(), AllocError>
    ensures { OnOk result (out.new.items
        ≡ out.old.items ++ standard_lines headers.now standard_names) }
{
    write_lines(out, headers, &STANDARD_NAMES)
}

fn is_ms(header: &FieldRef<'_>) -> bool
    ensures { result ≡ is_ms header.now }
{
    header.name.starts_with(OWN_PREFIX)
}

// The headers of the service by their names. They are inserted from the last to the first, so if a name was sent twice, its
// first value is kept.
fn named<'a>(
    alloc: Global,
    headers: &'a FieldList,
) -> Result<BTreeMap<&'a [u8], &'a [u8]>, AllocError>
    ensures { IfOk result (λ m. map deref_pair m.entries ≡ by_name (filter is_ms headers.now)) }
{
    let mut named = BTreeMap::new(alloc);
    let mut left = headers.fields();
    while let Some(header) = left.next_back() {
        if is_ms(&header) {
            named.insert(header.name, header.value)?;
        }
    }
    Ok(named)
}

fn write_header(out: &mut Vec<u8>, name: &[u8], value: &[u8]) -> Result<(), AllocError>
    ensures { OnOk result (out.new.items ≡ out.old.items ++ header_line (name.now, value.now)) }
{
    out.extend_from_slice(name)?;
    out.push(b':')?;
    out.extend_from_slice(trimmed(value))?;
    out.push(b'\n').map_err(AllocError::from)
}

fn write_named(out: &mut Vec<u8>, named: &BTreeMap<&[u8], &[u8]>) -> Result<(), AllocError>
    ensures { OnOk result (out.new.items
        ≡ out.old.items ++ flat_map header_line (map deref_pair named.now.entries)) }
{
    for (name, value) in named {
        write_header(out, *name, *value)?;
    }
    Ok(())
}

/// Puts the canonicalized headers at the end.
pub(crate) fn write_canonicalized(
    alloc: Global,
    out: &mut Vec<u8>,
    headers: &FieldList,
) -> Result<(), AllocError>
    ensures { OnOk result (out.new.items ≡ out.old.items ++ canonicalized_headers headers.now) }
{
    let named = named(alloc, headers)?;
    write_named(out, &named)
}
