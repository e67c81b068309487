//! What is sent to an operator.

ghost use Rattle.std.specs.Prelude.{◌≡◌, ◌∷◌, [], codes, IfOk};
ghost use Rattle.operator_http.specs.Operator as spec;

use crate::health::Health;
use crate::told::Told;
use bytes::Bytes;
use http::header::{ALLOW, CONTENT_TYPE, HeaderValue};
use http::response::Parts;
use http::{Response, StatusCode};
use http_body_util::Full;
use itoa::Buffer;
use std::alloc::{AllocError, Global};

// What has to change about a request of somebody else's.
const FORBIDDEN: &str =
    "forbidden: ask by an IP address, localhost or a name of --admin-host, and from no page of another site\n";

/// Makes the response that tells an operator this: 200 with some words, with metrics or with a page; 400 for a purge of
/// nobody knows what, and for a stop with a query that is no grace; 403 for a request that isn't the operator's own; 404 for
/// another path, and 405 for another method, with those that the path has; 503 of a server that accepts nobody any longer.
/// Of the response to HEAD the HTTP library leaves the body out.
///
/// The only refusal of the call itself is out of memory.
///
/// Source: RFC 9110, "400 Bad Request", "403 Forbidden", "404 Not Found", "405 Method Not Allowed", "503 Service Unavailable"; Prometheus, "Exposition formats"; the texts are our profile.
pub fn response_of(alloc: Global, told: Told) -> Result<Response<Full<Bytes>>, AllocError>
    ensures { IfOk result (spec.Says told) }
{
    match told {
        Told::Page(page) => shown(alloc, page),
        Told::Metrics(metrics) => measured(alloc, metrics),
        Told::Health(health) => shown_health(alloc, health),
        Told::Stopping => plain(alloc, StatusCode::OK, "stopping\n"),
        Told::Purged(count) => purged(alloc, count),
        Told::NoGrace => wanting(alloc, "grace=SECONDS is wanted\n"),
        Told::NoPurge => wanting(alloc, "url= or prefix= is wanted\n"),
        Told::OtherPath => plain(alloc, StatusCode::NOT_FOUND, "not found\n"),
        Told::NotRead => allowing(alloc, HeaderValue::from_static("GET, HEAD")),
        Told::NotPosted => allowing(alloc, HeaderValue::from_static("POST")),
        Told::Foreign => plain(alloc, StatusCode::FORBIDDEN, FORBIDDEN),
    }
}

// Whether a server accepts clients.
fn shown_health(alloc: Global, health: Health) -> Result<Response<Full<Bytes>>, AllocError>
    ensures { IfOk result (spec.Shows health) }
{
    let unavailable = StatusCode::SERVICE_UNAVAILABLE;
    match health {
        Health::Well => plain(alloc, StatusCode::OK, "ok\n"),
        Health::Ending => plain(alloc, unavailable, "ending\n"),
        Health::AcceptsFailed => plain(alloc, unavailable, "accepts failed\n"),
    }
}

// A plain text.
fn plain(
    alloc: Global,
    status: StatusCode,
    text: &'static str,
) -> Result<Response<Full<Bytes>>, AllocError>
    ensures { IfOk result (spec.Sends status (spec.plain ∷ []) text.now) }
{
    let head = head_of(alloc, status, HeaderValue::from_static("text/plain"))?;
    Ok(Response::from_parts(head, Full::from(text)))
}

// The refusal of a query, with what is wanted in its place.
fn wanting(alloc: Global, text: &'static str) -> Result<Response<Full<Bytes>>, AllocError>
    ensures { IfOk result (spec.Sends 400 (spec.plain ∷ []) text.now) }
{
    plain(alloc, StatusCode::BAD_REQUEST, text)
}

// How many answers went.
fn purged(alloc: Global, count: usize) -> Result<Response<Full<Bytes>>, AllocError>
    ensures { IfOk result (spec.Sends 200 (spec.plain ∷ []) (spec.purged count)) }
{
    let mut digits = Buffer::new();
    let mut text = Vec::from_slice(alloc, b"purged ")?;
    text.extend_from_slice(digits.format(count).as_bytes())?;
    text.extend_from_slice(b"\n")?;
    let head = head_of(
        alloc,
        StatusCode::OK,
        HeaderValue::from_static("text/plain"),
    )?;
    Ok(Response::from_parts(head, Full::from(Bytes::from_vec(text)?)))
}

// The page.
fn shown(alloc: Global, page: Bytes) -> Result<Response<Full<Bytes>>, AllocError>
    ensures { IfOk result (spec.Sends 200 (spec.of_page ∷ []) page) }
{
    let kind = HeaderValue::from_static("text/html; charset=utf-8");
    let head = head_of(alloc, StatusCode::OK, kind)?;
    Ok(Response::from_parts(head, Full::from(page)))
}

// The metrics.
fn measured(alloc: Global, metrics: Bytes) -> Result<Response<Full<Bytes>>, AllocError>
    ensures { IfOk result (spec.Sends 200 (spec.of_metrics ∷ []) metrics) }
{
    let kind = HeaderValue::from_static("text/plain; version=0.0.4; charset=utf-8");
    let head = head_of(alloc, StatusCode::OK, kind)?;
    Ok(Response::from_parts(head, Full::from(metrics)))
}

// The refusal of a method, with those that are allowed.
fn allowing(alloc: Global, methods: HeaderValue) -> Result<Response<Full<Bytes>>, AllocError>
    ensures { IfOk result (spec.Sends 405 (spec.plain ∷ spec.allow methods ∷ []) (codes "method not allowed\n")) }
{
    let plain = HeaderValue::from_static("text/plain");
    let mut head = head_of(alloc, StatusCode::METHOD_NOT_ALLOWED, plain)?;
    if head.headers.insert(ALLOW, methods).is_err() {
        return Err(AllocError);
    }
    Ok(Response::from_parts(head, Full::from("method not allowed\n")))
}

// The head of a body of this type.
fn head_of(alloc: Global, status: StatusCode, kind: HeaderValue) -> Result<Parts, AllocError>
    ensures status { IfOk result (λ head. head.status ≡ status) }
    ensures fields { IfOk result (λ head. head.headers ≡ spec.typed kind ∷ []) }
{
    let mut head = Parts::new(alloc);
    head.status = status;
    if head.headers.insert(CONTENT_TYPE, kind).is_err() {
        return Err(AllocError);
    }
    Ok(head)
}
