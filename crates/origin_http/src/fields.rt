//! The fields of a response that the edge uses.

ghost use Rattle.std.specs.Prelude.{◌≡◌, IfOk, codes};
ghost use Rattle.http_header.specs.HeaderMap.{get};
ghost use Rattle.http_header.specs.Token.{lowercase};
ghost use Rattle.origin_http.specs.Fetches as spec;
ghost use Rattle.origin_http.specs.Fetches.{IsControlFor, SaysHead, SaysType, control_asked, control_heeded};

use crate::head::ends_by_close;
use crate::head_rules::HeadRules;
use crate::passed_fields::fields_passed;
use edge_types::{Control, Head, NoMemory, Octets, is_content_type};
use http::HeaderMap;
use http::header::{CONTENT_TYPE, HeaderValue, SET_COOKIE};
use http::response::Parts;
use std::alloc::Global;
use surrogate_headers::{control, heeding};

/// What the head of a response says to a page's reader, where it asks of the edge what this control says.
pub(crate) fn head_of(
    alloc: Global,
    rules: HeadRules<'_>,
    parts: &Parts,
    control: Control,
) -> Result<Head, NoMemory>
    requires { spec.asks_processing parts.now.status control ≡ spec.is_template rules parts.now }
    ensures { IfOk result (SaysHead rules.entry parts.now) }
{
    let content_type = Octets::copy_of(alloc, content_type_of(&parts.headers))?;
    let mut head = Head::of(parts.status.as_u16(), content_type);
    let is_template = asks_processing(&head, control);
    head.fields = fields_passed(alloc, rules, is_template, &parts.headers)?;
    Ok(head)
}

// Whether a body under this head, of which so much is asked, is a template.
fn asks_processing(head: &Head, control: Control) -> bool
    ensures { result ≡ spec.asks_processing head.now.status control }
{
    control.esi && (head.is_success() || control.errors)
}

// The content type; empty if there is none, or if no answer may have it.
fn content_type_of(fields: &HeaderMap<HeaderValue>) -> &[u8]
    ensures { SaysType (get fields.now (codes "content-type")) result.now }
{
    match fields.get(CONTENT_TYPE) {
        Some(value) if is_content_type(value.as_bytes()) => value.as_bytes(),
        _ => &[],
    }
}

/// What an answer with this head asks of the edge: what the origin does, but it is never kept where nothing tells whether
/// the body is whole; and errors may be templates if these rules say so.
pub(crate) fn control_for(
    alloc: Global,
    rules: HeadRules<'_>,
    parts: &Parts,
) -> Result<Control, NoMemory>
    ensures control { IfOk result (IsControlFor rules.entry parts.now) }
    ensures template { IfOk result (λ control. spec.asks_processing parts.now.status control ≡ spec.is_template rules.entry parts.now) }
{
    let mut control = control_of(alloc, rules, &parts.headers)?;
    control.errors = rules.processes_errors && is_error(parts.status.as_u16());
    if ends_by_close(parts) {
        control.no_store = true;
    }
    Ok(control)
}

// Whether the status is that of an error.
fn is_error(status: u16) -> bool
    ensures { result ≡ spec.is_error status }
{
    400 <= status && status <= 599
}

// What the origin asks of this device, and of every cache, if that counts.
fn control_of(
    alloc: Global,
    rules: HeadRules<'_>,
    fields: &HeaderMap<HeaderValue>,
) -> Result<Control, NoMemory>
    ensures { IfOk result (λ control. control ≡ control_heeded rules.entry fields.now) }
{
    let asked = control_asked(alloc, fields, rules.device)?;
    if !rules.heeds_cache_control {
        return Ok(asked);
    }
    let value = value_of(alloc, "cache-control", fields)?;
    Ok(heeding(asked, value.as_slice(), sets_cookies(fields)))
}

fn sets_cookies(fields: &HeaderMap<HeaderValue>) -> bool
    ensures { result ≡ spec.sets_cookies fields.now }
{
    match fields.get(SET_COOKIE) {
        Some(_) => true,
        None => false,
    }
}

// What the origin asks of a device.
fn control_asked(
    alloc: Global,
    fields: &HeaderMap<HeaderValue>,
    device: &[u8],
) -> Result<Control, NoMemory>
    ensures { IfOk result (λ control. control ≡ control_asked fields.now device.now) }
{
    let value = value_of(alloc, "surrogate-control", fields)?;
    Ok(control(value.as_slice(), device))
}

// The lines of a field, joined: several count as one.
fn value_of(alloc: Global, name: &str, fields: &HeaderMap<HeaderValue>) -> Result<Vec<u8>, NoMemory>
    ensures { IfOk result (λ value. value.items ≡ spec.value_of (lowercase name.now) fields.now) }
{
    let mut lines = fields.get_all(name).iter();
    let Some(first) = lines.next() else {
        return Ok(Vec::new(alloc));
    };
    let mut value = first.as_bytes().to_vec(alloc)?;
    for line in lines {
        value.extend_from_slice(b", ")?;
        value.extend_from_slice(line.as_bytes())?;
    }
    Ok(value)
}
