//! Which elements are open after tokens. The tokens are read backwards, from the last one on.

ghost use Rattle.std.specs.Prelude.{◌≡◌, ◌+◌, ◌^◌, ◌≤◌, ◌<◌, length, reverse, IfSome};
ghost use Rattle.template_check.specs.OpenElements as spec;

use esi_scanner::{ElementName, Kind, Token};

/// An element whose end hasn't come yet.
#[derive(Clone, Copy, Debug, Drop, PartialEq, Eq)]
pub struct Opened {
    pub name: ElementName,
    /// Of its opening tag, in bytes from the text's start.
    pub place: usize,
}

// How many elements that end after a token began before it; `None` if the token opens one that doesn't end.
fn ended_before(kind: &Kind, ended: usize) -> Option<usize>
    requires { ended < 2 ^ 63 }
    ensures value { result ≡ spec.ended_before kind.now ended }
    ensures few { IfSome result (λ more. more ≤ ended + 1) }
{
    match kind {
        Kind::Open(tag) if !tag.closed => ended.checked_sub(1),
        Kind::Close(_) => Some(ended + 1),
        _ => Some(ended),
    }
}

// The element that a token opens.
fn opened_by(token: &Token) -> Option<Opened>
    ensures { result ≡ spec.opened_by token.now }
{
    match &token.kind {
        Kind::Open(tag) => Some(Opened {
            name: tag.name,
            place: token.span.start,
        }),
        _ => None,
    }
}

// Whether a token, seen from its end, ends an element with this name.
fn ends(wanted: ElementName, kind: &Kind) -> bool
    ensures { result ≡ spec.ends wanted kind.now }
{
    match kind {
        Kind::Open(tag) => tag.closed && tag.name == wanted,
        Kind::Close(name) => *name == wanted,
        _ => false,
    }
}

// Whether it ends such an element directly in the innermost open one.
fn ends_part(wanted: ElementName, kind: &Kind, ended: usize) -> bool
    ensures { result ≡ spec.ends_part wanted kind.now ended }
{
    ended == 0 && ends(wanted, kind)
}

/// The innermost element that is open after these tokens.
pub(crate) fn innermost(tokens: &[Token]) -> Option<Opened>
    ensures { result ≡ spec.innermost 0 (reverse tokens.now) }
{
    let mut ended: usize = 0;
    let mut rest = tokens;
    while let Some((token, before)) = rest.split_last() {
        let Some(more) = ended_before(&token.kind, ended) else {
            return opened_by(token);
        };
        ended = more;
        rest = before;
    }
    None
}

/// How many elements are open after these tokens.
pub(crate) fn open_count(tokens: &[Token]) -> usize
    ensures { result ≡ spec.open_count 0 (reverse tokens.now) }
{
    let mut count: usize = 0;
    let mut ended: usize = 0;
    let mut rest = tokens;
    while let Some((token, before)) = rest.split_last() {
        match ended_before(&token.kind, ended) {
            Some(more) => ended = more,
            None => count += 1,
        }
        rest = before;
    }
    count
}

/// Whether an element with this name is directly in the innermost open one.
pub(crate) fn has_part(wanted: ElementName, tokens: &[Token]) -> bool
    ensures { result ≡ spec.has_part wanted 0 (reverse tokens.now) }
{
    let mut ended: usize = 0;
    let mut rest = tokens;
    while let Some((token, before)) = rest.split_last() {
        if ends_part(wanted, &token.kind, ended) {
            return true;
        }
        let Some(more) = ended_before(&token.kind, ended) else {
            return false;
        };
        ended = more;
        rest = before;
    }
    false
}
