//! What origins are asked.

ghost use Rattle.std.specs.Prelude.{◌≡◌, [], ◌∷◌, ◌++◌, map, codes, IfOk, IfSome, Ok, option_map};
ghost use Rattle.edge_types.specs.Asked.{authority_of};
ghost use Rattle.http.specs.Request.{builder_result, head_of};
ghost use Rattle.surrogate_headers.specs.Capability.{capability_of};
ghost use Rattle.origin_http.specs.Asking as spec;
ghost use Rattle.origin_http.specs.Names.{device_of};

use crate::edge_name::{EdgeName, capability_for};
use bytes::Bytes;
use edge_types::{HeadField, PageUrl};
use fetch_outcomes::{FetchFault, Lost};
use http::header::{ACCEPT_ENCODING, CONNECTION, HOST};
use http::request::Builder;
use http::{Error, Request};
use http_body_util::Empty;
use std::alloc::Global;
use std::str;
use surrogate_headers::own_capability;

// The field that names those through whom a request goes.
const LOOP: &str = "cdn-loop";

/// A request for a URL by an edge of this name, if it has one, over a connection that may be kept or not. It says
/// nothing of the client but the way, if there is one: the edges through which what led to the request came, and this
/// one.
pub fn request_of(
    alloc: Global,
    url: &PageUrl,
    name: &Option<EdgeName>,
    way: &Option<Vec<u8>>,
    keeps: bool,
) -> Result<Builder, Lost>
    ensures { IfOk result (λ request. spec.HasLines (spec.own_lines (authority_of url.now) (capability_of (device_of name.now)) keeps (option_map (λ way. way.items) way.now) name.now) (builder_result request)) }
{
    match parts_of(url) {
        Some((authority, target)) => Ok(request_to(alloc, authority, target, name, way, keeps)),
        None => Err(Lost::Fault(FetchFault::Cut)),
    }
}

// The same, for this path, with its query, at this authority.
fn request_to(
    alloc: Global,
    authority: &str,
    target: &str,
    name: &Option<EdgeName>,
    way: &Option<Vec<u8>>,
    keeps: bool,
) -> Builder
    ensures { spec.HasLines (spec.own_lines authority.now (capability_of (device_of name.now)) keeps (option_map (λ way. way.items) way.now) name.now) (builder_result result) }
{
    let request = for_host(Request::get(alloc, target), authority);
    let request = for_connection(for_device(request, capability_for(name)), keeps);
    identified(uncoded(request), name, way)
}

// The request with the host that it asks.
fn for_host(request: Builder, authority: &str) -> Builder
    ensures { spec.Adds (spec.host_lines authority.now) (builder_result request) (builder_result result) }
{
    request.header(HOST, authority)
}

// The request with what this edge can do.
fn for_device(request: Builder, capability: &[u8]) -> Builder
    ensures { spec.Adds (spec.device_lines capability.now) (builder_result request) (builder_result result) }
{
    request.header(own_capability().0, capability)
}

// The request that asks for no coding.
fn uncoded(request: Builder) -> Builder
    ensures { spec.Adds spec.coding_lines (builder_result request) (builder_result result) }
{
    request.header(ACCEPT_ENCODING, "identity")
}

/// The request with these fields behind its own.
pub fn with_fields(request: Builder, fields: &[HeadField]) -> Builder
    ensures { spec.Adds (map spec.line_of fields.now) (builder_result request) (builder_result result) }
{
    let mut request = request;
    let mut fields = fields;
    while let [first, rest @ ..] = fields {
        request = with_field(request, first);
        fields = rest;
    }
    request
}

fn with_field(request: Builder, field: &HeadField) -> Builder
    ensures { spec.Adds (spec.line_of field.now ∷ []) (builder_result request) (builder_result result) }
{
    request.header(field.name.as_bytes(), field.value.as_bytes())
}

/// The request, which has no body, once it has all its fields.
pub fn whole(request: Builder) -> Result<Request<Empty<Bytes>>, Lost>
    ensures { IfOk result (λ whole. builder_result request ≡ Ok (head_of whole)) }
{
    match request.body(Empty::new()) {
        Ok(request) => Ok(request),
        Err(Error::OutOfMemory) => Err(Lost::NoMemory),
        Err(_) => Err(Lost::Fault(FetchFault::Cut)),
    }
}

// The request with what is to become of its connection.
fn for_connection(request: Builder, keeps: bool) -> Builder
    ensures { spec.Adds (spec.connection_lines keeps) (builder_result request) (builder_result result) }
{
    if keeps {
        return request;
    }
    request.header(CONNECTION, "close")
}

// The request with its way, or else with the edge's name, if it has one.
fn identified(request: Builder, name: &Option<EdgeName>, way: &Option<Vec<u8>>) -> Builder
    ensures { spec.Adds (spec.way_lines (option_map (λ way. way.items) way.now) name.now) (builder_result request) (builder_result result) }
{
    match (way, name) {
        (Some(way), _) => request.header(LOOP, way.as_slice()),
        (None, Some(name)) => request.header(LOOP, name.as_bytes()),
        (None, None) => request,
    }
}

// The authority of a URL, and its path with its query.
fn parts_of(url: &PageUrl) -> Option<(&str, &str)>
    ensures authority { IfSome result (λ parts. parts.0.now ≡ authority_of url.now) }
    ensures target { IfSome result (λ parts. url.now ≡ codes "http://" ++ parts.0.now ++ parts.1.now) }
{
    let text = str::from_utf8(url.as_bytes()).ok()?;
    let authority = str::from_utf8(url.authority()).ok()?;
    let target = text.strip_prefix("http://")?.strip_prefix(authority)?;
    Some((authority, target))
}
