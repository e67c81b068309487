//! The origin that a word of `--origin` names.
ghost use Rattle.std.specs.Prelude.{◌≡◌, IfOk, MatchOption, MatchResult};
ghost use Rattle.std.specs.List.{list_all, list_any};
ghost use Rattle.edge_setup.specs.OriginWord as spec;
ghost use Rattle.edge_setup.specs.Words.{IsJudged, NamesOrigin};

use crate::setup::Origin;
use edge_types::{NoMemory, PageUrl, around, decimal_of};
use std::alloc::{AllocError, Global};
use std::net::SocketAddr;

/// Where an origin listens.
#[derive(Drop)]
pub enum Place {
    /// At this address.
    Address(SocketAddr),
    /// At an address that the system knows for this name of a host, and at this port.
    Host(Vec<u8>, u16),
}

/// Why `--origin` is refused.
#[derive(Clone, Copy, Drop, PartialEq, Eq)]
pub enum OriginFault {
    /// A word has no `=`.
    Form,
    /// What follows the `=` is neither an address nor the name of a host, with a port.
    Place,
    /// A `*` is part of an authority.
    Star,
    /// There is no host before the `=`, or more than a host and a port.
    More,
    /// The authority has the port 80, which URLs don't write.
    Port,
    /// The authority isn't in lower case, in which URLs write it.
    Letters,
    /// An authority is given twice.
    Twice,
}

impl OriginFault {
    /// The line for the words.
    pub fn refusal(self) -> &'static str
        ensures { result.now ≡ spec.refusal_of self }
    {
        match self {
            OriginFault::Form => {
                "error: --origin takes AUTHORITY=ADDR, as a.test=127.0.0.1:8080"
            }
            OriginFault::Place => {
                "error: --origin takes an address with a port after the `=`, as 127.0.0.1:8080, or the name of a host with one, as backend.internal:8080"
            }
            OriginFault::Star => {
                "error: --origin takes one authority, or `*` alone for each that has no --origin of its own: there is no `*` within one"
            }
            OriginFault::More => {
                "error: --origin takes an authority as URLs have it: only the host, and the port unless that is 80, as a.test or a.test:8080; no `http://`, no `/` and no blank"
            }
            OriginFault::Port => {
                "error: --origin takes an authority as URLs have it: without `:80`, as a.test"
            }
            OriginFault::Letters => {
                "error: --origin takes an authority as URLs have it: in lower case, as a.test"
            }
            OriginFault::Twice => "error: --origin takes each authority once",
        }
    }
}

/// Whether a text has this byte.
pub(crate) fn has_byte(text: &[u8], wanted: u8) -> bool
    ensures { result ≡ spec.has_byte wanted text.now }
{
    text.iter().any(|byte| *byte == wanted)
}

fn has_capital(text: &[u8]) -> bool
    ensures { result ≡ list_any spec.is_capital text.now }
{
    text.iter().any(|byte| byte.is_ascii_uppercase())
}

// What to write instead of what is no authority.
fn advice_of(authority: &[u8]) -> OriginFault
    ensures { result ≡ spec.advice_of authority.now }
{
    if has_byte(authority, b'*') {
        OriginFault::Star
    } else if has_byte(authority, b'/') {
        OriginFault::More
    } else if authority.ends_with(b":80") {
        OriginFault::Port
    } else if has_capital(authority) {
        OriginFault::Letters
    } else {
        OriginFault::More
    }
}

// Whether URLs that are fetched may have an authority, written like this.
fn is_url_authority(alloc: Global, authority: &[u8]) -> Result<bool, NoMemory>
    ensures { IfOk result (λ is. is ≡ spec.is_url_authority authority.now) }
{
    let mut text = Vec::new(alloc);
    text.extend_from_slice(b"http://")?;
    text.extend_from_slice(authority)?;
    match PageUrl::parse(alloc, text.as_slice())? {
        Some(url) => Ok(url.authority() == authority),
        None => Ok(false),
    }
}

// Whether requests may be for an authority, or for each other one by `*`.
fn is_authority(alloc: Global, authority: &[u8]) -> Result<bool, NoMemory>
    ensures { IfOk result (λ is. is ≡ spec.is_authority authority.now) }
{
    if has_byte(authority, b'*') {
        return Ok(authority == b"*".as_slice());
    }
    is_url_authority(alloc, authority)
}

// What is wrong with an authority.
fn authority_fault(alloc: Global, authority: &[u8]) -> Result<Option<OriginFault>, AllocError>
    ensures { IfOk result (λ found. found ≡ spec.authority_fault authority.now) }
{
    match is_authority(alloc, authority) {
        Ok(true) => Ok(None),
        Ok(false) => Ok(Some(advice_of(authority))),
        Err(NoMemory) => Err(AllocError),
    }
}

fn is_name_byte(byte: u8) -> bool
    ensures { result ≡ spec.is_name_byte byte }
{
    byte.is_ascii_alphanumeric() || matches!(byte, b'-' | b'.' | b'_')
}

// Whether each byte is one of a host's name.
fn is_all_name(text: &[u8]) -> bool
    ensures { result ≡ list_all spec.is_name_byte text.now }
{
    text.iter().all(|byte| is_name_byte(*byte))
}

/// Whether a text is the name of a host.
pub(crate) fn is_name(text: &[u8]) -> bool
    ensures { result ≡ spec.is_name text.now }
{
    !text.is_empty() && is_all_name(text)
}

// The name of a host and the port that a text writes.
fn host_at(text: &[u8]) -> Option<(&[u8], u16)>
    ensures { spec.shown_host result ≡ spec.host_at text.now }
{
    let (host, port) = around(b':', text)?;
    let port = decimal_of(port, 65_535)? as u16;
    if is_name(host) {
        Some((host, port))
    } else {
        None
    }
}

// Where an origin listens, by a text.
fn place_of(alloc: Global, text: &[u8]) -> Result<Option<Place>, AllocError>
    ensures { IfOk result (λ found. MatchOption found (spec.IsNoPlace text.now) (spec.IsPlace text.now)) }
{
    if let Ok(address) = SocketAddr::parse_ascii(text) {
        return Ok(Some(Place::Address(address)));
    }
    let Some((host, port)) = host_at(text) else {
        return Ok(None);
    };
    Ok(Some(Place::Host(host.to_vec(alloc)?, port)))
}

/// The origin that a word names, or why it names none.
pub(crate) fn origin_of(
    alloc: Global,
    word: &[u8],
) -> Result<Result<Origin, OriginFault>, AllocError>
    ensures { IfOk result (λ found. MatchResult found (λ origin. NamesOrigin word.now origin.authority.items origin.place) (spec.IsFaultOf word.now)) }
{
    let Some((authority, place)) = around(b'=', word) else {
        return Ok(Err(OriginFault::Form));
    };
    if let Some(fault) = authority_fault(alloc, authority)? {
        return Ok(Err(fault));
    }
    let Some(place) = place_of(alloc, place)? else {
        return Ok(Err(OriginFault::Place));
    };
    let authority = authority.to_vec(alloc)?;
    Ok(Ok(Origin { authority, place }))
}

/// Whether a word of `--origin` names an origin.
pub fn is_origin_word(alloc: Global, word: &str) -> Result<bool, AllocError>
    ensures { IfOk result (IsJudged word.now) }
{
    match origin_of(alloc, word.as_bytes())? {
        Ok(_) => Ok(true),
        Err(_) => Ok(false),
    }
}
