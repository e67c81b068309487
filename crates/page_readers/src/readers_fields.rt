//! What a source is told of a reader.

ghost use Rattle.std.specs.Prelude.{◌≡◌, option_map, IfOk};
ghost use Rattle.page_readers.specs.OwnFields as spec;

use edge_types::{HeadField, HeadFields, NoMemory, Octets};
use page_http::{Field, cookies_named, lines_named};
use std::alloc::Global;

/// The fields of a request with these lines that are its reader's own, as origins of private URLs are told them: the lines
/// of the fields that `names` has, and a line of those cookies whose names `cookies` has.
///
/// `NoMemory` if an allocation fails. Without names nothing is looked for.
///
/// Source: RFC 6265, "The Cookie Header"; our profile.
pub fn own_fields(
    alloc: Global,
    names: Option<&[u8]>,
    cookies: Option<&[u8]>,
    fields: &[Field<'_>],
) -> Result<HeadFields, NoMemory>
    ensures { IfOk result (λ own. own ≡ spec.own_fields (option_map (λ names. names.now) names.entry) (option_map (λ cookies. cookies.now) cookies.entry) fields.now) }
{
    let mut own = named_lines(alloc, names, fields)?;
    let line = named_cookies(alloc, cookies, fields)?;
    if !line.is_empty() {
        own.push(cookie_line(alloc, line)?)?;
    }
    HeadFields::of(alloc, own)
}

// The lines of these fields, where some are named.
fn named_lines(
    alloc: Global,
    names: Option<&[u8]>,
    fields: &[Field<'_>],
) -> Result<Vec<HeadField>, NoMemory>
    ensures { IfOk result (λ lines. lines.items ≡ spec.named_lines (option_map (λ names. names.now) names.entry) fields.now) }
{
    match names {
        Some(names) => lines_named(alloc, names, fields),
        None => Ok(Vec::new(alloc)),
    }
}

// The cookies of these names, where some are named.
fn named_cookies(
    alloc: Global,
    names: Option<&[u8]>,
    fields: &[Field<'_>],
) -> Result<Vec<u8>, NoMemory>
    ensures { IfOk result (λ cookies. cookies.items ≡ spec.named_cookies (option_map (λ names. names.now) names.entry) fields.now) }
{
    match names {
        Some(names) => cookies_named(alloc, names, fields),
        None => Ok(Vec::new(alloc)),
    }
}

// The line of these cookies.
fn cookie_line(alloc: Global, cookies: Vec<u8>) -> Result<HeadField, NoMemory>
    ensures { IfOk result (λ line. line ≡ spec.cookie_line cookies.items) }
{
    Ok(HeadField {
        name: Octets::copy_of(alloc, b"cookie")?,
        value: Octets::of(cookies),
    })
}
