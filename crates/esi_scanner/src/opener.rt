//! Openers: where a token other than text can begin.

ghost use Rattle.std.specs.Prelude.{◌≡◌, ℕ, false, ◌<◌, ◌≤◌, length, drop, IfSome};
ghost use Rattle.esi_scanner.specs.Bytes.{shown, bytes_before};
ghost use Rattle.esi_scanner.specs.Scan.{begins_mark, begins_opener, mark_at};

use crate::bytes::begins_ws;
use crate::token::Kind;
use memchr::{memchr, memchr2};

// The mark at the front, and what follows it.
#[tactic(auto, unfolding(crate::specs::Scan::mark_at))]
pub(crate) fn mark_at(block: bool, text: &[u8]) -> Option<(Kind, &[u8])>
    ensures value { shown result ≡ mark_at block text.now }
    ensures shorter { IfSome result (λ found. length found.1.now < length text.now) }
{
    if block {
        let rest = text.strip_prefix(b"-->".as_slice())?;
        Some((Kind::BlockEnd, rest))
    } else {
        let rest = text.strip_prefix(b"<!--esi".as_slice())?;
        if begins_ws(rest) {
            Some((Kind::BlockStart, rest))
        } else {
            None
        }
    }
}

#[tactic(auto, unfolding(crate::specs::Scan::mark_at))]
fn begins_mark(block: bool, text: &[u8]) -> bool
    ensures { result ≡ begins_mark block text.now }
{
    mark_at(block, text).is_some()
}

fn begins_opener(block: bool, text: &[u8]) -> bool
    ensures { result ≡ begins_opener block text.now }
{
    text.starts_with(b"<esi:") || text.starts_with(b"</esi:") || begins_mark(block, text)
}

// How many bytes are before the first that can begin an opener.
fn plain_len(block: bool, text: &[u8]) -> usize
    ensures within { result ≤ length text.now }
    ensures plain { (i : ℕ) → i < result → begins_opener block (drop i text.now) ≡ false }
{
    if block {
        return memchr2(b'<', b'-', text).unwrap_or(text.len());
    }
    memchr(b'<', text).unwrap_or(text.len())
}

/// How many bytes are before the first opener. Takes no memory.
pub(crate) fn text_len(block: bool, text: &[u8]) -> usize
    ensures value { result ≡ bytes_before (begins_opener block) text.now }
    ensures within { result ≤ length text.now }
    ensures some { begins_opener block text.now ≡ false → 0 < length text.now → 0 < result }
{
    let mut len = plain_len(block, text);
    while len < text.len() {
        let (_, rest) = text.split_at(len);
        if begins_opener(block, rest) {
            return len;
        }
        let (_, rest) = rest.split_at(1);
        len += 1 + plain_len(block, rest);
    }
    len
}
