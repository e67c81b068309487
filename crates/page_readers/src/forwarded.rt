//! The client for whom a proxy asks.

ghost use Rattle.std.specs.Prelude.{◌≡◌, MatchOption};
ghost use Rattle.http_header.specs.HeaderMap.{get_all};
ghost use Rattle.page_readers.specs.Forwarded.{Forwards, IsAddressIn, IsClient, IsLastMember, ReportsClient};

use edge_types::trimmed;
use http::HeaderMap;
use http::header::{HeaderName, HeaderValue};
use memchr::memrchr;
use std::net::IpAddr;

/// The client of a request with these fields over a connection from this peer: the one that a trusted proxy reports by a
/// field of this name, where there is one; else the peer.
pub fn client_of(
    name: Option<&HeaderName>,
    headers: &HeaderMap<HeaderValue>,
    peer: Option<IpAddr>,
) -> Option<IpAddr>
    ensures { MatchOption name.entry (result ≡ peer) (λ name. IsClient (get_all headers.now name.now) peer result) }
{
    match name {
        Some(name) => forwarded_client(name, headers).or(peer),
        None => peer,
    }
}

// The client that a proxy reports by a field of this name: the address that the last member of the field's last line
// is, which is what the nearest proxy has added. `None` where there is no such line, or that member is no address.
//
// Source: our profile, of the field `x-forwarded-for` as nginx and HAProxy write it.
fn forwarded_client(name: &HeaderName, headers: &HeaderMap<HeaderValue>) -> Option<IpAddr>
    ensures { Forwards (get_all headers.now name.now) result }
{
    match headers.get_all(name).iter().next_back() {
        Some(line) => reported_by(line.as_bytes()),
        None => None,
    }
}

// The client that a line of the field reports.
fn reported_by(line: &[u8]) -> Option<IpAddr>
    ensures { ReportsClient line.now result }
{
    address_in(trimmed(last_member(line)))
}

// The last member of a list, which is what follows its last comma.
fn last_member(list: &[u8]) -> &[u8]
    ensures { IsLastMember list.now result.now }
{
    match memrchr(b',', list) {
        Some(place) => &list[place + 1..],
        None => list,
    }
}

// The address that a text writes.
fn address_in(text: &[u8]) -> Option<IpAddr>
    ensures { IsAddressIn text.now result }
{
    IpAddr::parse_ascii(text).ok()
}
