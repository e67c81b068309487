//! Which requests are the operator's own, and not those that a page of another site has a browser send.

ghost use Rattle.std.specs.Prelude.{◌≡◌, ◌↔◌, codes, IsTrue};
ghost use Rattle.http_header.specs.HeaderMap.{get_all};
ghost use Rattle.operator_http.specs.Foreign as spec;

use crate::hosts::{HostNames, is_named};
use edge_types::around;
use http::HeaderMap;
use http::header::{HOST, HeaderName, HeaderValue, ORIGIN};
use std::net::{Ipv4Addr, Ipv6Addr};

/// Whether a request with these fields is the operator's own: it has no `Origin`, and no `Sec-Fetch-Site` but `none` and
/// `same-origin`; and its `Host`, if it has one, is an IP address, `localhost`, or one of these names. A browser adds the
/// first two to what a page of another site asks for, and the host is that page's own where a name was rebound to this
/// address.
///
/// Source: RFC 6454, "The HTTP Origin Header Field"; Fetch Metadata Request Headers, "The Sec-Fetch-Site HTTP Request
/// Header"; RFC 9110, "Host and :authority".
pub fn is_own(names: &HostNames, fields: &HeaderMap<HeaderValue>) -> bool
    ensures { IsTrue result ↔ spec.IsOwn (spec.names_of names.now) fields.now }
{
    !fields.contains_key(ORIGIN) && is_of_own_site(fields) && names_own_host(names, fields)
}

// Whether no line says that another site has caused the request.
fn is_of_own_site(fields: &HeaderMap<HeaderValue>) -> bool
    ensures { result ≡ spec.is_of_own_site fields.now }
{
    let mut sites = fields
        .get_all(HeaderName::from_static("sec-fetch-site"))
        .iter();
    sites.all(|site| is_own_site(site.as_bytes()))
}

fn is_own_site(site: &[u8]) -> bool
    ensures { result ≡ spec.is_own_site site.now }
{
    site == b"none".as_slice() || site == b"same-origin".as_slice()
}

// Whether the one line of `Host`, if there is one, names a host of this server.
fn names_own_host(names: &HostNames, fields: &HeaderMap<HeaderValue>) -> bool
    ensures { IsTrue result ↔ spec.NameOwnHost (spec.names_of names.now) (get_all fields.now (codes "host")) }
{
    let mut hosts = fields.get_all(HOST).iter();
    let Some(host) = hosts.next() else {
        return true;
    };
    hosts.next().is_none() && is_own_host(names, host.as_bytes())
}

// Whether an authority has a host of this server.
fn is_own_host(names: &HostNames, authority: &[u8]) -> bool
    ensures { IsTrue result ↔ spec.IsOwnHost (spec.names_of names.now) authority.now }
{
    let host = before(b':', authority);
    is_literal(authority)
        || is_ipv4(host)
        || is_named(host, b"localhost".as_slice())
        || names.has(host)
}

// Whether the host of an authority is an IPv6 address, in brackets.
fn is_literal(authority: &[u8]) -> bool
    ensures { IsTrue result ↔ spec.IsLiteral authority.now }
{
    match authority.strip_prefix(b"[".as_slice()) {
        Some(rest) => is_ipv6(before(b']', rest)),
        None => false,
    }
}

fn is_ipv4(text: &[u8]) -> bool
    ensures { IsTrue result ↔ spec.IsIpv4 text.now }
{
    match Ipv4Addr::parse_ascii(text) {
        Ok(_) => true,
        Err(_) => false,
    }
}

fn is_ipv6(text: &[u8]) -> bool
    ensures { IsTrue result ↔ spec.IsIpv6 text.now }
{
    match Ipv6Addr::parse_ascii(text) {
        Ok(_) => true,
        Err(_) => false,
    }
}

// The text before the first of this byte, or all of it.
#[tactic(auto, unfolding(crate::specs::Foreign::before))]
fn before(mark: u8, text: &[u8]) -> &[u8]
    ensures { result.now ≡ spec.before mark text.now }
{
    match around(mark, text) {
        Some((before, _)) => before,
        None => text,
    }
}
