//! The query in the string to sign.
ghost use Rattle.std.specs.Prelude.{◌≡◌, ◌++◌, IfOk, OnOk, Option, Some, None, map, List, ℕ};
ghost use Rattle.shared_key.specs.Arranged.{in_order};
ghost use Rattle.std.specs.Option.{option_map};
ghost use Rattle.shared_key.specs.Parameters.{pairs_of, pair_cmp, text_before_value, pairs_text};
ghost use Rattle.shared_key.specs.Strings.{field_pair, canonicalized_query};

use stamp_values::FieldList;
use std::alloc::{AllocError, Global};

// A parameter. The derived order is by the name, and then by the value.
#[derive(Debug, PartialEq, Eq, PartialOrd, Ord, Drop)]
struct Parameter<'a> {
    name: &'a [u8],
    value: &'a [u8],
}

fn read_parameters(alloc: Global, query: &FieldList) -> Result<Vec<Parameter<'_>>, AllocError>
    ensures { IfOk result (λ v. pairs_of v.items ≡ map field_pair query.now) }
{
    let mut parameters = Vec::with_capacity(alloc, query.len())?;
    for field in query.fields() {
        parameters.push(Parameter {
            name: field.name,
            value: field.value,
        })?;
    }
    Ok(parameters)
}

// Two parameters with the same name and the same value are equal, so an unstable sort is enough. It takes no memory.
fn arrange(parameters: &mut Vec<Parameter<'_>>)
    ensures { pairs_of parameters.new.items ≡ in_order pair_cmp (pairs_of parameters.old.items) }
{
    parameters.sort_unstable();
}

fn arranged(alloc: Global, query: &FieldList) -> Result<Vec<Parameter<'_>>, AllocError>
    ensures { IfOk result (λ v. pairs_of v.items ≡ in_order pair_cmp (map field_pair query.now)) }
{
    let mut parameters = read_parameters(alloc, query)?;
    arrange(&mut parameters);
    Ok(parameters)
}

// Writes what comes before a value: a comma if the parameter before it has the same name, and else a new line with the name.
fn write_before_value(
    out: &mut Vec<u8>,
    before: Option<&[u8]>,
    name: &[u8],
) -> Result<(), AllocError>
    ensures { OnOk result (out.new.items
        ≡ out.old.items ++ text_before_value (option_map (λ b. b.now) before.entry) name.now) }
{
    if let Some(before) = before
        && name == before
    {
        return out.push(b',').map_err(AllocError::from);
    }
    out.push(b'\n')?;
    out.extend_from_slice(name)?;
    out.push(b':').map_err(AllocError::from)
}

fn write_arranged(out: &mut Vec<u8>, parameters: &[Parameter<'_>]) -> Result<(), AllocError>
    ensures { OnOk result
        (out.new.items ≡ out.old.items ++ pairs_text None (pairs_of parameters.now)) }
{
    let mut before: Option<&[u8]> = None;
    for parameter in parameters {
        write_before_value(out, before, parameter.name)?;
        out.extend_from_slice(parameter.value)?;
        before = Some(parameter.name);
    }
    Ok(())
}

/// Puts the parameters of the query at the end.
pub(crate) fn write_canonicalized(
    alloc: Global,
    out: &mut Vec<u8>,
    query: &FieldList,
) -> Result<(), AllocError>
    ensures { OnOk result (out.new.items ≡ out.old.items ++ canonicalized_query query.now) }
{
    let parameters = arranged(alloc, query)?;
    write_arranged(out, &parameters)
}
