//! What the head of a request asks for.
ghost use Rattle.std.specs.Prelude.{◌≡◌, ◌≢◌, ◌↔◌, ◌∷◌, ◌++◌, ◌==◌, [], List, ℕ, IsTrue, IfOk, IfSome, IsErrOf, IsNone, MatchOption};
ghost use Rattle.std.specs.List.{before_first, flat_map, join_by};
ghost use Rattle.std.specs.Str.{byte};
ghost use Rattle.edge_types.specs.Asked.{asked};
ghost use Rattle.edge_types.specs.declared.request.Request.{Request};
ghost use Rattle.page_http.specs.declared.head.HeadFault.TheVariants as fault;
ghost use Rattle.page_http.specs.Head as spec;

use crate::field::{Field, first_value, joined_values, next_value};
use edge_types::{
    NoMemory, PageUrl, Request, RequestField, SaysFields, SharedBytes, around, query_of,
};
use std::alloc::Global;
use thiserror::Error;

/// Why a head doesn't ask for a page.
#[derive(Clone, Copy, Debug, Drop, PartialEq, Eq, Error)]
pub enum HeadFault {
    /// The method isn't `GET`.
    #[error("the method isn't GET: ask for pages by GET")]
    Method,
    /// There isn't exactly one `Host`, or it isn't a host's, or the target has a byte that none may have, or doesn't
    /// name a URL that the edge fetches.
    #[error("the request names no page: send one Host, and a target that names an http URL")]
    Unreadable,
    /// An allocation failed.
    #[error("out of memory: try again with more of it")]
    NoMemory,
}

impl From<NoMemory> for HeadFault {
    ghost from_gives = { λ _ e. e ≡ fault.NoMemory };

    fn from(_: NoMemory) -> HeadFault {
        HeadFault::NoMemory
    }
}

/// Reads the head of a request: the URL of the page that it asks for, and what the page's templates
/// may ask for of the request.
///
/// `target` is the request's target as it was sent, `fields` its lines in order. A target that
/// begins with `/` is a path at the host, any other is a whole URL. Several `Cookie` lines count as
/// one, joined by `; `; of `Referer`, `User-Agent` and `Accept-Language` the first line counts. The
/// query is the target's.
///
/// Refused in this order: a method other than `GET` (`Method`); not exactly one `Host`, one that is
/// empty or has a byte other than letters, digits and `.-_:[]`, or a target that doesn't denote a URL
/// that the edge fetches, or has before its first `?` a byte that no target may have: a control, a space, one
/// that isn't ASCII, a grave accent or any of `"<>\^{|}` (`Unreadable`); out of memory (`NoMemory`), which
/// comes after the test of method and `Host`.
///
/// Source: RFC 9112, "Request Line", "Request Target" and "Reconstructing the Target URI"; RFC 3986,
/// "Characters"; RFC 9110, "Host and :authority"; RFC 6265, "The Cookie Header"; our profile.
pub fn answer_head(
    alloc: Global,
    method: &[u8],
    target: &[u8],
    fields: &[Field<'_>],
) -> Result<(PageUrl, Request), HeadFault>
    ensures asks { IfOk result (λ (url, request).
        (method.now ≡ spec.served) × spec.Asks target.now fields.now url request) }
    ensures method { IsErrOf result fault.Method ↔ (method.now ≢ spec.served) }
    ensures unreadable { IsErrOf result fault.Unreadable →
        (url : List ℕ) (request : Request) → ¬ (spec.Asks target.now fields.now url request) }
    ensures no_memory { IsErrOf result fault.NoMemory →
        (method.now ≡ spec.served) × (host : List ℕ) × spec.NamesHost fields.now host }
{
    if !is_served(method) {
        return Err(HeadFault::Method);
    }
    let Some(host) = only_host(fields) else {
        return Err(HeadFault::Unreadable);
    };
    if !is_target(target) {
        return Err(HeadFault::Unreadable);
    }
    let Some(url) = url_of(alloc, host, target)? else {
        return Err(HeadFault::Unreadable);
    };
    let request = request_of(alloc, host, target, fields)?;
    Ok((url, request))
}

fn is_served(method: &[u8]) -> bool
    ensures { IsTrue result ↔ (method.now ≡ spec.served) }
{
    method == b"GET".as_slice()
}

// The lines of a head, once its host is known.
#[derive(Clone, Copy, Drop)]
struct Lines<'a> {
    host: &'a [u8],
    fields: &'a [Field<'a>],
}

impl SaysFields for Lines<'_> {
    ghost use Rattle.page_http.specs.Head.{field_said};

    ghost says = { λ lines field. field_said lines.host.now lines.fields.now field };

    fn said(&self, alloc: Global, field: RequestField) -> Result<SharedBytes, NoMemory> {
        match field {
            RequestField::Host => SharedBytes::copy_of(alloc, self.host),
            RequestField::Cookie => cookies_of(alloc, self.fields),
            // Of any other the first line counts.
            _ => SharedBytes::copy_of(alloc, first_value(field.line_name(), self.fields)),
        }
    }
}

// The fields of a request, once its host is known.
fn request_of(
    alloc: Global,
    host: &[u8],
    target: &[u8],
    fields: &[Field<'_>],
) -> Result<Request, NoMemory>
    ensures { IfOk result (λ request. request ≡ spec.said host.now target.now fields.now) }
{
    let query = SharedBytes::copy_of(alloc, query_of(target))?;
    Request::said_by(alloc, &Lines { host, fields }, query)
}

// The value of the `Host` field, if there is exactly one.
fn only_host<'a>(fields: &[Field<'a>]) -> Option<&'a [u8]>
    ensures some { IfSome result (λ host. spec.NamesHost fields.now host.now) }
    ensures none { IsNone result → (host : List ℕ) → ¬ (spec.NamesHost fields.now host) }
{
    let (host, rest) = next_value(b"host", fields)?;
    if next_value(b"host", rest).is_some() || !is_host(host) {
        return None;
    }
    Some(host)
}

// Whether the bytes are a host's, with or without a port.
#[tactic(auto, unfolding(crate::specs::Head::is_host))]
fn is_host(text: &[u8]) -> bool
    ensures { result ≡ spec.is_host text.now }
{
    !text.is_empty() && text.iter().all(|byte| is_host_byte(*byte))
}

// The bytes of a host other than letters and digits.
const HOST_MARKS: &[u8] = b".-_:[]";

#[tactic(auto, unfolding(crate::specs::Head::is_host_byte))]
fn is_host_byte(byte: u8) -> bool
    ensures { result ≡ spec.is_host_byte byte }
{
    byte.is_ascii_alphanumeric() || HOST_MARKS.contains(&byte)
}

// Whether what stands before the query is spelled as a target may be.
#[tactic(auto, unfolding(crate::specs::Head::is_target))]
fn is_target(target: &[u8]) -> bool
    ensures { result ≡ spec.is_target target.now }
{
    before_query(target)
        .iter()
        .all(|byte| is_target_byte(*byte))
}

#[tactic(auto, unfolding(edge_types::specs::Halves::around))]
fn before_query(target: &[u8]) -> &[u8]
    ensures { result.now ≡ before_first (λ b. b == byte "?") target.now }
{
    match around(b'?', target) {
        Some((before, _)) => before,
        None => target,
    }
}

// The printable bytes of ASCII that no target has before its query.
const NO_TARGET_MARKS: &[u8] = b"\"<>\\^`{|}";

#[tactic(auto, unfolding(crate::specs::Head::is_target_byte))]
fn is_target_byte(byte: u8) -> bool
    ensures { result ≡ spec.is_target_byte byte }
{
    byte.is_ascii_graphic() && !NO_TARGET_MARKS.contains(&byte)
}

// The URL of the page that a target names at a host.
fn url_of(alloc: Global, host: &[u8], target: &[u8]) -> Result<Option<PageUrl>, NoMemory>
    ensures { IfOk result (λ url. url ≡ asked None (spec.absolute_form host.now target.now)) }
{
    let [b'/', ..] = target else {
        return PageUrl::parse(alloc, target);
    };
    let mut text = b"http://".to_vec(alloc)?;
    text.extend_from_slice(host)?;
    text.extend_from_slice(target)?;
    PageUrl::parse(alloc, text.as_slice())
}

// The lines of `Cookie`, joined.
fn cookies_of(alloc: Global, fields: &[Field<'_>]) -> Result<SharedBytes, NoMemory>
    ensures { IfOk result (λ cookie. cookie ≡ spec.cookies_of fields.now) }
{
    SharedBytes::of(joined_values(alloc, b"cookie", b"; ", fields)?)
}
