//! Lines of a request's head.
ghost use Rattle.std.specs.Prelude.{◌≡◌, ◌<◌, ◌++◌, [], ◌∷◌, length, MatchOption, IfOk, IfSome};
ghost use Rattle.std.specs.List.{flat_map, join_by};
ghost use Rattle.page_http.specs.Head.{values_of, first_of};

use edge_types::NoMemory;
use std::alloc::Global;

/// A line of a request's head.
#[derive(Clone, Copy)]
pub struct Field<'a> {
    /// Its name, in lower case.
    pub name: &'a [u8],
    /// Its value, without the white space around it.
    pub value: &'a [u8],
}

/// The first value with a name, and the lines after it. Takes no memory.
pub(crate) fn next_value<'a, 'b>(
    name: &[u8],
    fields: &'b [Field<'a>],
) -> Option<(&'a [u8], &'b [Field<'a>])>
    ensures value { MatchOption result (values_of name.now fields.now ≡ [])
        (λ (value, rest). values_of name.now fields.now ≡ value.now ∷ values_of name.now rest.now) }
    ensures shorter { IfSome result (λ (value, rest). length rest.now < length fields.now) }
{
    for (i, field) in fields.iter().enumerate() {
        if field.name == name {
            return Some((field.value, &fields[i + 1..]));
        }
    }
    None
}

/// The first value with a name, or nothing. Takes no memory.
pub(crate) fn first_value<'a>(name: &[u8], fields: &[Field<'a>]) -> &'a [u8]
    ensures { result.now ≡ first_of name.now fields.now }
{
    match next_value(name, fields) {
        Some((value, _)) => value,
        None => &[],
    }
}

/// The values with a name as one, with the separator between them; empty if there are none.
pub(crate) fn joined_values(
    alloc: Global,
    name: &[u8],
    separator: &[u8],
    fields: &[Field<'_>],
) -> Result<Vec<u8>, NoMemory>
    ensures { IfOk result (λ joined. joined.items ≡ join_by (λ value. value) separator.now (values_of name.now fields.now)) }
{
    let Some((first, mut left)) = next_value(name, fields) else {
        return Ok(Vec::new(alloc));
    };
    let mut joined = first.to_vec(alloc)?;
    while let Some((value, rest)) = next_value(name, left) {
        joined.extend_from_slice(separator)?;
        joined.extend_from_slice(value)?;
        left = rest;
    }
    Ok(joined)
}
