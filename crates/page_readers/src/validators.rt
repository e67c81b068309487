//! The validators of pages.

ghost use Rattle.std.specs.Prelude.{◌≡◌, codes, IfOk, OnOk};
ghost use Rattle.http_header.specs.FieldValue.{plain_value};
ghost use Rattle.http_header.specs.HeaderMap.{get_all};
ghost use Rattle.page_http.specs.Sent.{sent};
ghost use Rattle.page_readers.specs.Validators as spec;

use access_log::Reason;
use edge_types::{NoMemory, trimmed};
use http::header::{CONTENT_TYPE, ETAG, HeaderValue, IF_NONE_MATCH};
use http::{HeaderMap, Response, StatusCode};
use page_http::{EdgeBody, entity_tag_of};
use std::alloc::Global;

/// What is sent for a request with these fields: a page as it should be has an entity tag, that of its bytes where its
/// origin has given none, and isn't sent to a client that has it already. `reason` says why it isn't as it should be.
///
/// `NoMemory` if an allocation fails.
///
/// Source: RFC 9110, "ETag", "If-None-Match" and "304 Not Modified".
pub fn validated(
    alloc: Global,
    fields: &HeaderMap<HeaderValue>,
    reason: Option<Reason>,
    response: Response<EdgeBody>,
) -> Result<Response<EdgeBody>, NoMemory>
    ensures { IfOk result (λ validated. sent validated ≡ spec.validated reason (get_all fields.now (codes "if-none-match")) (sent response)) }
{
    if !is_to_be_tagged(reason, &response) {
        return Ok(response);
    }
    let tag = entity_tag_of(alloc, response.body())?;
    let response = tagged(alloc, tag.as_slice(), response)?;
    if has_already(fields, tag.as_slice()) {
        Ok(not_modified(response))
    } else {
        Ok(response)
    }
}

// Whether it is a page as it should be, that has no tag of its origin's.
fn is_to_be_tagged(reason: Option<Reason>, response: &Response<EdgeBody>) -> bool
    ensures { result ≡ spec.is_to_be_tagged reason (sent response.now) }
{
    reason.is_none()
        && response.status() == StatusCode::OK
        && response.headers().get(ETAG).is_none()
}

// The page with its tag.
fn tagged(
    alloc: Global,
    tag: &[u8],
    response: Response<EdgeBody>,
) -> Result<Response<EdgeBody>, NoMemory>
    ensures { IfOk result (λ page. sent page ≡ spec.tagged tag.now (sent response)) }
{
    let mut response = response;
    let Ok(value) = HeaderValue::from_bytes(alloc, tag) else {
        return Err(NoMemory);
    };
    match response.headers_mut().insert(ETAG, value) {
        Ok(_) => Ok(response),
        Err(_) => Err(NoMemory),
    }
}

// What is sent in place of a page that the client has.
fn not_modified(page: Response<EdgeBody>) -> Response<EdgeBody>
    ensures { sent result ≡ spec.not_modified (sent page) }
{
    let (mut head, _) = page.into_parts();
    head.status = StatusCode::NOT_MODIFIED;
    head.headers.remove(CONTENT_TYPE);
    Response::from_parts(head, EdgeBody::nothing())
}

// Whether the client has what a tag is of.
fn has_already(fields: &HeaderMap<HeaderValue>, tag: &[u8]) -> bool
    ensures { result ≡ spec.has_already tag.now (get_all fields.now (codes "if-none-match")) }
{
    let mut lines = fields.get_all(IF_NONE_MATCH).iter();
    lines.any(|line| names_tag(line.as_bytes(), tag))
}

// Whether a list names a tag.
fn names_tag(list: &[u8], tag: &[u8]) -> bool
    ensures { result ≡ spec.names_tag tag.now list.now }
{
    list.split(|byte| *byte == b',')
        .any(|member| is_tag(member, tag))
}

// Whether a member of a list is a tag, weak or strong, or any.
#[tactic(auto, unfolding(crate::specs::Validators::is_tag))]
fn is_tag(member: &[u8], tag: &[u8]) -> bool
    ensures { result ≡ spec.is_tag tag.now member.now }
{
    let member = trimmed(member);
    member == b"*".as_slice() || member == tag || (member.starts_with(b"W/") && &member[2..] == tag)
}
