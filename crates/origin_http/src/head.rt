//! What the head of a response says of its body and its connection.

ghost use Rattle.std.specs.Prelude.{◌≡◌, ◌↔◌, IsTrue};
ghost use Rattle.origin_http.specs.Heads as spec;
ghost use Rattle.origin_http.specs.Heads.{EndsByClose, StaysOpen};

use edge_types::trimmed;
use http::header::{CONNECTION, CONTENT_ENCODING, CONTENT_LENGTH, HeaderValue, TRANSFER_ENCODING};
use http::response::Parts;
use http::{HeaderMap, Version};

/// Whether the body is coded, although nobody asked for that: compressed, or on its way in another coding
/// than in chunks.
///
/// Source: RFC 9110, "Content-Encoding"; RFC 9112, "Transfer-Encoding".
#[tactic(auto, unfolding(crate::specs::Heads::is_coded))]
pub(crate) fn is_coded(fields: &HeaderMap<HeaderValue>) -> bool
    ensures { result ≡ spec.is_coded fields.now }
{
    has_content_coding(fields) || has_transfer_coding(fields)
}

fn has_content_coding(fields: &HeaderMap<HeaderValue>) -> bool
    ensures { result ≡ spec.has_content_coding fields.now }
{
    let mut lines = fields.get_all(CONTENT_ENCODING).iter();
    lines.any(|line| names_other(line.as_bytes(), b"identity"))
}

fn has_transfer_coding(fields: &HeaderMap<HeaderValue>) -> bool
    ensures { result ≡ spec.has_transfer_coding fields.now }
{
    let mut lines = fields.get_all(TRANSFER_ENCODING).iter();
    lines.any(|line| names_other(line.as_bytes(), b"chunked"))
}

fn is_comma(byte: u8) -> bool
    ensures { result ≡ spec.is_comma byte }
{
    byte == b','
}

// Whether a list has another element than this one. Empty ones don't count.
fn names_other(list: &[u8], only: &[u8]) -> bool
    ensures { result ≡ spec.names_other only.now list.now }
{
    list.split(|byte| is_comma(*byte))
        .any(|element| is_other(element, only))
}

#[tactic(auto, unfolding(crate::specs::Heads::is_other))]
fn is_other(element: &[u8], only: &[u8]) -> bool
    ensures { result ≡ spec.is_other only.now element.now }
{
    let element = trimmed(element);
    !element.is_empty() && !element.eq_ignore_ascii_case(only)
}

/// Whether only the end of the connection ends the body, so that nothing tells whether it is whole.
///
/// Source: RFC 9112, "Message Body Length".
pub(crate) fn ends_by_close(head: &Parts) -> bool
    ensures { IsTrue result ↔ EndsByClose head.now }
{
    let status = head.status.as_u16();
    status != 204
        && status != 304
        && !head.headers.contains_key(CONTENT_LENGTH)
        && !head.headers.contains_key(TRANSFER_ENCODING)
}

/// Whether the connection stays open behind the response, once that was read whole.
///
/// Source: RFC 9112, "Persistence".
pub fn stays_open(head: &Parts) -> bool
    ensures { IsTrue result → StaysOpen head.now }
{
    head.version == Version::HTTP_11 && !ends_by_close(head) && !asks_to_close(&head.headers)
}

fn asks_to_close(fields: &HeaderMap<HeaderValue>) -> bool
    ensures { result ≡ spec.asks_to_close fields.now }
{
    let mut lines = fields.get_all(CONNECTION).iter();
    lines.any(|line| names(line.as_bytes(), b"close"))
}

/// Whether a list has this element, without regard to case.
pub(crate) fn names(list: &[u8], word: &[u8]) -> bool
    ensures { result ≡ spec.names word.now list.now }
{
    list.split(|byte| is_comma(*byte))
        .any(|element| is_word(element, word))
}

#[tactic(auto, unfolding(crate::specs::Heads::is_word))]
fn is_word(element: &[u8], word: &[u8]) -> bool
    ensures { result ≡ spec.is_word word.now element.now }
{
    trimmed(element).eq_ignore_ascii_case(word)
}
