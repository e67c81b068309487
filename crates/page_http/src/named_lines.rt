//! The lines of a request whose fields have certain names.
ghost use Rattle.std.specs.Prelude.{◌≡◌, IfOk};
ghost use Rattle.page_http.specs.NamedLines as spec;

use crate::cookies::is_member;
use crate::field::Field;
use edge_types::{HeadField, NoMemory, Octets};
use std::alloc::Global;

/// Those lines of a request whose name is one of `names`, as they came, in their order.
///
/// In `names` commas stand between the names, and blanks may stand around each. They are compared byte for byte, so they
/// are to be in lower case, as those of lines are.
///
/// `NoMemory` if an allocation fails.
///
/// Source: RFC 9110, "Field Lines and Combined Field Value"; our profile.
pub fn lines_named(
    alloc: Global,
    names: &[u8],
    fields: &[Field<'_>],
) -> Result<Vec<HeadField>, NoMemory>
    ensures { IfOk result (λ lines. lines.items ≡ spec.lines_named names.now fields.now) }
{
    let mut lines = Vec::new(alloc);
    let mut left = fields;
    while let [field, rest @ ..] = left {
        if is_member(names, field.name) {
            lines.push(copy_of(alloc, field)?)?;
        }
        left = rest;
    }
    Ok(lines)
}

// The same line, with bytes of its own.
fn copy_of(alloc: Global, field: &Field<'_>) -> Result<HeadField, NoMemory>
    ensures { IfOk result (λ copy. copy ≡ spec.copy_of field.now) }
{
    Ok(HeadField {
        name: Octets::copy_of(alloc, field.name)?,
        value: Octets::copy_of(alloc, field.value)?,
    })
}
