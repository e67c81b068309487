//! Cuts a text into its tokens.

ghost use Rattle.std.specs.Prelude.{◌≡◌, ℕ, ◌<◌, ◌≤◌, List, length, Ok, Err, IfOk, IfErr, IfSome};
ghost use Rattle.esi_scanner.specs.declared.token.Token.{Token};
ghost use Rattle.esi_scanner.specs.Spelling.{Spells, IsFaultAt, TellsFault};
ghost use Rattle.esi_scanner.specs.Bytes.{shown};
ghost use Rattle.esi_scanner.specs.Scan.{opened, open_at, close_at, text_at, token_at, block_after, scan_of, Gives};

use crate::element_name::ElementName;
use crate::fault::ScanFault;
use crate::opener::{mark_at, text_len};
use crate::remove::after_removed;
use crate::tag::{Tag, closing_at, tag_at};
use crate::token::{Kind, Span, Token};
use edge_types::NoMemory;
use std::alloc::Global;

// The token that an opening tag begins, and what follows it.
#[tactic(auto, unfolding(crate::specs::Scan::opened))]
fn opened(tag: Tag, rest: &[u8]) -> Option<(Kind, &[u8])>
    ensures value { shown result ≡ opened tag rest.now }
    ensures shorter { IfSome result (λ found. length found.1.now ≤ length rest.now) }
{
    match tag.name {
        ElementName::Remove if tag.closed => Some((Kind::Remove, rest)),
        ElementName::Remove => Some((Kind::Remove, after_removed(rest)?)),
        _ => Some((Kind::Open(tag), rest)),
    }
}

// The token of an opening tag, from after its `<esi:` on.
#[tactic(auto, unfolding(crate::specs::Scan::open_at))]
fn open_at(alloc: Global, text: &[u8]) -> Result<Option<(Kind, &[u8])>, NoMemory>
    ensures value { IfOk result (λ found. shown found ≡ open_at text.now) }
    ensures shorter { IfOk result (λ found. IfSome found (λ x. length x.1.now ≤ length text.now)) }
{
    match tag_at(alloc, text)? {
        Some((tag, rest)) => Ok(opened(tag, rest)),
        None => Ok(None),
    }
}

// The token of a closing tag, from after its `</esi:` on.
#[tactic(auto, unfolding(crate::specs::Scan::close_at))]
fn close_at(text: &[u8]) -> Option<(Kind, &[u8])>
    ensures value { shown result ≡ close_at text.now }
    ensures shorter { IfSome result (λ found. length found.1.now ≤ length text.now) }
{
    let (name, rest) = closing_at(text)?;
    Some((Kind::Close(name), rest))
}

// The token at the front of a text, and what follows it.
#[tactic(auto, unfolding(crate::specs::Scan::token_at, crate::specs::Scan::text_at))]
fn token_at(alloc: Global, block: bool, text: &[u8]) -> Result<Option<(Kind, &[u8])>, NoMemory>
    requires { 0 < length text.now }
    ensures value { IfOk result (λ found. shown found ≡ token_at block text.now) }
    ensures shorter { IfOk result (λ found. IfSome found (λ x. length x.1.now < length text.now)) }
{
    if let Some(after) = text.strip_prefix(b"<esi:".as_slice()) {
        return open_at(alloc, after);
    }
    if let Some(after) = text.strip_prefix(b"</esi:".as_slice()) {
        return Ok(close_at(after));
    }
    if let Some(mark) = mark_at(block, text) {
        return Ok(Some(mark));
    }
    let (_, rest) = text.split_at(text_len(block, text));
    Ok(Some((Kind::Text, rest)))
}

// The place where the open block begins, after a token that begins at `at`.
fn block_after(block: Option<usize>, at: usize, kind: &Kind) -> Option<usize>
    ensures { result ≡ block_after block at kind.now }
{
    match kind {
        Kind::BlockStart => Some(at),
        Kind::BlockEnd => None,
        _ => block,
    }
}

// The tokens of a text, one by one.
fn tokens_of(alloc: Global, text: &[u8]) -> Result<Vec<Token>, ScanFault>
    ensures { Gives result (scan_of text.now) }
{
    let mut tokens = Vec::new(alloc);
    let mut block = None;
    let mut at = 0;
    let mut rest = text;
    while !rest.is_empty() {
        let Some((kind, after)) = token_at(alloc, block.is_some(), rest)? else {
            return Err(ScanFault::Malformed(at));
        };
        let end = text.len() - after.len();
        block = block_after(block, at, &kind);
        let span = Span { start: at, end };
        tokens.push(Token { span, kind })?;
        at = end;
        rest = after;
    }
    match block {
        None => Ok(tokens),
        Some(start) => Err(ScanFault::Malformed(start)),
    }
}

/// Cuts a text into its tokens, in the text's order, from its first byte to its last.
///
/// Places are offsets in bytes. Names of elements are matched case for case, and values are decoded once.
/// `Malformed` reports the first place where an invalid opening or closing tag of the language begins; if there
/// is no such place, that of a `<!--esi` without its end. `NoMemory` if an allocation fails.
///
/// Source: ESI Language Specification 1.0, "ESI Language" and "ESI Markup Comment"; the spelling of tags in detail is our
/// profile.
pub fn scan(alloc: Global, text: &[u8]) -> Result<Vec<Token>, ScanFault>
    // The tokens that are read spell the text, and tokens that spell it are read.
    ensures found { IfOk result (λ tokens. Spells text.now tokens.items) }
    ensures only { (tokens : List Token) → Spells text.now tokens → Gives result (Ok tokens) }

    // A fault is reported by its place, and no other place is reported.
    ensures malformed { IfErr result (TellsFault text.now) }
    ensures refused { (at : ℕ) → IsFaultAt text.now at → Gives result (Err at) }

    // Both, as a function of the text.
    ensures exact { Gives result (scan_of text.now) }
{
    tokens_of(alloc, text)
}
