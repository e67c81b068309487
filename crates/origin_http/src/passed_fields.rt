//! The fields of a response that a page's reader gets.

ghost use Rattle.std.specs.Prelude.{◌≡◌, IfOk};
ghost use Rattle.origin_http.specs.Passing as spec;

use crate::head::names;
use crate::head_rules::HeadRules;
use edge_types::{HeadField, HeadFields, NoMemory, Octets};
use http::HeaderMap;
use http::header::{HeaderName, HeaderValue};
use std::alloc::Global;

// The fields that describe the very bytes of a body.
const DESCRIBING: &str =
    "etag,last-modified,accept-ranges,content-md5,digest,content-digest,repr-digest";

// The field that sets a cookie.
const SET_COOKIE: &[u8] = b"set-cookie";

/// The lines of the fields that are to reach a page's reader, as they came. Those that describe the bytes of a template say
/// nothing of a page that is made of it, and so are left out; so are those that set cookies, where the response is for more
/// than one reader.
///
/// Source: RFC 9110, "Field Names", "Validator Fields" and "Accept-Ranges"; RFC 9530; RFC 6265, "Set-Cookie"; our profile.
#[tactic(auto, unfolding(crate::specs::Passing::fields_passed))]
pub(crate) fn fields_passed(
    alloc: Global,
    rules: HeadRules<'_>,
    is_template: bool,
    fields: &HeaderMap<HeaderValue>,
) -> Result<HeadFields, NoMemory>
    ensures { IfOk result (λ passed. passed ≡ spec.fields_passed rules.entry is_template fields.now) }
{
    let mut passed = Vec::new(alloc);
    for (name, value) in fields.iter() {
        if is_passed(rules, is_template, name) {
            passed.push(field_of(alloc, name, value)?)?;
        }
    }
    HeadFields::of(alloc, passed)
}

// Whether a reader gets the field.
fn is_passed(rules: HeadRules<'_>, is_template: bool, name: &HeaderName) -> bool
    ensures { result ≡ spec.is_passed rules.entry is_template name.now }
{
    let name = name.as_bytes();
    names(rules.passed, name)
        && !(is_template && names(DESCRIBING.as_bytes(), name))
        && (rules.is_private || name != SET_COOKIE)
}

// A line of a field.
fn field_of(alloc: Global, name: &HeaderName, value: &HeaderValue) -> Result<HeadField, NoMemory>
    ensures { IfOk result (λ field. field ≡ spec.field_of (name.now, value.now)) }
{
    Ok(HeadField {
        name: Octets::copy_of(alloc, name.as_bytes())?,
        value: Octets::copy_of(alloc, value.as_bytes())?,
    })
}
