//! What is sent for an outcome, and for a request that doesn't ask for a page.
ghost use Rattle.std.specs.Prelude.{◌≡◌, ◌∷◌, [], All, IfOk, MatchOption, codes, map, ◌≤◌};
ghost use Rattle.std.specs.Arc.{arc_value};
ghost use Rattle.http_header.specs.FieldName.{IsHeaderName};
ghost use Rattle.http_header.specs.FieldValue.{plain_value, IsFieldValue};
ghost use Rattle.http_header.specs.HeaderMap.{append, append_all};
ghost use Rattle.page_http.specs.Sent as spec;

use crate::body::EdgeBody;
use edge_types::{Head, HeadField, MAX_STATUS, MIN_STATUS, NoMemory, Outcome};
use http::header::{
    ALLOW, CONTENT_TYPE, HeaderName, HeaderNameError, HeaderValue, HeaderValueError,
};
use http::response::Parts;
use http::{HeaderMap, Response, StatusCode};
use std::alloc::Global;
use std::sync::Arc;

/// Makes the response for an outcome.
///
/// A page has its status, its content type if that isn't empty, its head's further fields, and a frame for each piece of
/// its body; with 204, 205 and 304 none. A fault is sent as 502 with a text of the edge's own, and so is a page whose
/// status isn't 200 to 599, or whose content type or fields aren't valid in HTTP.
///
/// The only refusal is out of memory; the outcome is dropped then.
///
/// Source: RFC 9110, "Status Codes", "Field Names" and "Field Values"; our profile.
pub fn response_of(alloc: Global, outcome: Arc<Outcome>) -> Result<Response<EdgeBody>, NoMemory>
    ensures { IfOk result (λ response. spec.Tells (arc_value outcome) (spec.sent response)) }
{
    let (status, parts) = match &*outcome {
        Outcome::Page { head, .. } => (head.status, page_parts(alloc, head)?),
        Outcome::Fault(_) => (0, None),
    };
    let Some(parts) = parts else {
        let parts = own_head(alloc, StatusCode::BAD_GATEWAY)?;
        return Ok(Response::from_parts(parts, EdgeBody::text(UNASSEMBLED)));
    };
    if is_bodiless(status) {
        return Ok(Response::from_parts(parts, EdgeBody::nothing()));
    }
    Ok(Response::from_parts(parts, EdgeBody::of(outcome)))
}

const UNASSEMBLED: &str = "The page could not be assembled.\n";

/// Makes the response for a refusal: 400 for a head that can't be read, 405 for a method that isn't
/// served, with the one that is, 508 for a request that has passed the edge before, and 503 for a lack of room.
///
/// The only refusal of the call itself is out of memory.
///
/// Source: RFC 9110, "400 Bad Request", "405 Method Not Allowed", "503 Service Unavailable"; RFC 5842, "508 Loop
/// Detected"; the texts are our profile.
pub fn refusal_of(alloc: Global, status: u16) -> Result<Response<EdgeBody>, NoMemory>
    requires { spec.IsRefusal status }
    ensures { IfOk result (λ response. spec.sent response ≡ spec.refusal status) }
{
    match status {
        400 => own_response(alloc, StatusCode::BAD_REQUEST, UNREADABLE),
        405 => only_get(alloc),
        508 => own_response(alloc, StatusCode::LOOP_DETECTED, LOOP),
        _ => own_response(alloc, StatusCode::SERVICE_UNAVAILABLE, NO_ROOM),
    }
}

const UNREADABLE: &str = "The request can't be read.\n";

const ONLY_GET: &str = "Only GET is served.\n";

const LOOP: &str = "The request has passed this edge before, or too many edges.\n";

const NO_ROOM: &str = "The edge has no room for the page.\n";

// The refusal of another method.
fn only_get(alloc: Global) -> Result<Response<EdgeBody>, NoMemory>
    ensures { IfOk result (λ response. spec.sent response ≡ spec.refusal 405) }
{
    let mut head = own_head(alloc, StatusCode::METHOD_NOT_ALLOWED)?;
    let get = HeaderValue::from_static("GET");
    if head.headers.insert(ALLOW, get).is_err() {
        return Err(NoMemory);
    }
    Ok(Response::from_parts(head, EdgeBody::text(ONLY_GET)))
}

// A response with a text of the edge's own.
fn own_response(
    alloc: Global,
    status: StatusCode,
    text: &'static str,
) -> Result<Response<EdgeBody>, NoMemory>
    ensures { IfOk result (λ response. spec.sent response ≡ spec.own status text.now []) }
{
    let head = own_head(alloc, status)?;
    Ok(Response::from_parts(head, EdgeBody::text(text)))
}

// The head of a response with a text of the edge's own.
fn own_head(alloc: Global, status: StatusCode) -> Result<Parts, NoMemory>
    ensures status { IfOk result (λ head. head.status ≡ status) }
    ensures fields { IfOk result (λ head. head.headers
        ≡ spec.field (codes "content-type") (codes "text/plain") ∷ []) }
{
    let mut head = Parts::new(alloc);
    head.status = status;
    let plain = HeaderValue::from_static("text/plain");
    if head.headers.insert(CONTENT_TYPE, plain).is_err() {
        return Err(NoMemory);
    }
    Ok(head)
}

// The head of a page's response; `None` if HTTP can't carry it.
fn page_parts(alloc: Global, head: &Head) -> Result<Option<Parts>, NoMemory>
    ensures { IfOk result (λ parts. MatchOption parts (¬ (spec.IsSendable head.now))
        (λ parts. spec.IsSendable head.now × (parts.status ≡ head.now.status)
        × (parts.headers ≡ spec.page_fields head.now))) }
{
    let Some(status) = final_status(head.status) else {
        return Ok(None);
    };
    let Some(typed) = type_field(alloc, head.content_type.as_bytes())? else {
        return Ok(None);
    };
    let Some(headers) = with_lines(alloc, typed, head.fields.as_slice())? else {
        return Ok(None);
    };
    let mut parts = Parts::new(alloc);
    parts.status = status;
    parts.headers = headers;
    Ok(Some(parts))
}

// The field of a content type, if there is one; `None` if HTTP can't carry it.
fn type_field(
    alloc: Global,
    content_type: &[u8],
) -> Result<Option<HeaderMap<HeaderValue>>, NoMemory>
    ensures { IfOk result (λ made. MatchOption made (¬ (IsFieldValue content_type.now))
        (λ fields. IsFieldValue content_type.now × (fields ≡ spec.type_field content_type.now))) }
{
    let mut fields = HeaderMap::new(alloc);
    if content_type.is_empty() {
        return Ok(Some(fields));
    }
    let Some(value) = value_of(alloc, content_type)? else {
        return Ok(None);
    };
    if fields.insert(CONTENT_TYPE, value).is_err() {
        return Err(NoMemory);
    }
    Ok(Some(fields))
}

// These fields with further ones behind them; `None` if HTTP can't carry one of those.
fn with_lines(
    alloc: Global,
    mut fields: HeaderMap<HeaderValue>,
    mut lines: &[HeadField],
) -> Result<Option<HeaderMap<HeaderValue>>, NoMemory>
    ensures { IfOk result (λ made. MatchOption made (¬ (All spec.IsLine lines.now))
        (λ all. All spec.IsLine lines.now × (all ≡ append_all fields (map spec.line_of lines.now)))) }
{
    while let [first, rest @ ..] = lines {
        let Some(more) = with_line(alloc, fields, first)? else {
            return Ok(None);
        };
        fields = more;
        lines = rest;
    }
    Ok(Some(fields))
}

// These fields with a further one behind them; `None` if HTTP can't carry it.
fn with_line(
    alloc: Global,
    mut fields: HeaderMap<HeaderValue>,
    line: &HeadField,
) -> Result<Option<HeaderMap<HeaderValue>>, NoMemory>
    ensures { IfOk result (λ made. MatchOption made (¬ (spec.IsLine line.now))
        (λ all. spec.IsLine line.now × (all ≡ append fields line.now.name (plain_value line.now.value)))) }
{
    let Some(name) = name_of(alloc, line.name.as_bytes())? else {
        return Ok(None);
    };
    let Some(value) = value_of(alloc, line.value.as_bytes())? else {
        return Ok(None);
    };
    if fields.append(name, value).is_err() {
        return Err(NoMemory);
    }
    Ok(Some(fields))
}

// A field's name; `None` if it isn't one in lower case.
fn name_of(alloc: Global, bytes: &[u8]) -> Result<Option<HeaderName>, NoMemory>
    ensures { IfOk result (λ made. MatchOption made (¬ (IsHeaderName bytes.now))
        (λ name. IsHeaderName bytes.now × (name ≡ bytes.now))) }
{
    match HeaderName::from_lowercase(alloc, bytes) {
        Ok(name) => Ok(Some(name)),
        Err(HeaderNameError::Invalid) => Ok(None),
        Err(HeaderNameError::OutOfMemory) => Err(NoMemory),
    }
}

// A field's value; `None` if HTTP can't carry it.
fn value_of(alloc: Global, bytes: &[u8]) -> Result<Option<HeaderValue>, NoMemory>
    ensures { IfOk result (λ made. MatchOption made (¬ (IsFieldValue bytes.now))
        (λ value. IsFieldValue bytes.now × (value ≡ plain_value bytes.now))) }
{
    match HeaderValue::from_bytes(alloc, bytes) {
        Ok(value) => Ok(Some(value)),
        Err(HeaderValueError::Invalid) => Ok(None),
        Err(HeaderValueError::OutOfMemory) => Err(NoMemory),
    }
}

// A status that ends an exchange.
fn final_status(status: u16) -> Option<StatusCode>
    ensures { MatchOption result (¬ ((200 ≤ status) × (status ≤ 599)))
        (λ code. (200 ≤ status) × (status ≤ 599) × (code ≡ status)) }
{
    if status < MIN_STATUS || MAX_STATUS < status {
        return None;
    }
    StatusCode::from_u16(status).ok()
}

// Whether no body is sent under the status.
fn is_bodiless(status: u16) -> bool
    ensures { result ≡ spec.is_bodiless status }
{
    status == 204 || status == 205 || status == 304
}
