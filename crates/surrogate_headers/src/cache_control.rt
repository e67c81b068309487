//! What `Cache-Control` lets an edge keep, where `Surrogate-Control` gives no age.

ghost use Rattle.std.specs.Prelude.{◌≡◌};
ghost use Rattle.std.specs.List.{list_all};
ghost use Rattle.std.specs.Option.{option_map};
ghost use Rattle.surrogate_headers.specs.CacheControl as spec;
ghost use Rattle.surrogate_headers.specs.CacheControl.{heeded, named, said, seconds_under, shown_cache_directive};

use crate::directive::is_named;
use crate::parameter::seconds_of;
use crate::parts::Parts;
use edge_types::{Control, around, is_token, trimmed};

// A directive, read.
#[derive(Clone, Copy, Drop)]
struct CacheDirective<'a> {
    name: &'a [u8],
    argument: Option<&'a [u8]>,
}

// Whether the byte stands for itself between quotes.
#[tactic(auto, unfolding(crate::specs::CacheControl::is_quotable))]
fn is_quotable(byte: u8) -> bool
    ensures { result ≡ spec.is_quotable byte }
{
    byte == b'\t' || (byte >= b' ' && !matches!(byte, b'"' | b'\\' | 127))
}

fn are_quotable(text: &[u8]) -> bool
    ensures { result ≡ list_all spec.is_quotable text.now }
{
    text.iter().all(|byte| is_quotable(*byte))
}

// The text of a quoted-string.
#[tactic(auto, unfolding(crate::specs::CacheControl::unquoted))]
fn unquoted(spelling: &[u8]) -> Option<&[u8]>
    ensures { option_map (λ text. text.now) result ≡ spec.unquoted spelling.now }
{
    let [b'"', rest @ ..] = spelling else {
        return None;
    };
    match around(b'"', rest)? {
        (text, []) if are_quotable(text) => Some(text),
        _ => None,
    }
}

// The argument that is written as a token or as a quoted-string.
#[tactic(auto, unfolding(crate::specs::CacheControl::argument_of))]
fn argument_of(spelling: &[u8]) -> Option<&[u8]>
    ensures { option_map (λ text. text.now) result ≡ spec.argument_of spelling.now }
{
    if is_token(spelling) {
        Some(spelling)
    } else {
        unquoted(spelling)
    }
}

fn named<'a>(name: &'a [u8], argument: Option<&'a [u8]>) -> Option<CacheDirective<'a>>
    ensures { option_map shown_cache_directive result ≡ named name.now (option_map (λ text. text.now) argument.entry) }
{
    if is_token(name) {
        Some(CacheDirective { name, argument })
    } else {
        None
    }
}

// The directive that a part is, if it is well formed.
#[tactic(auto, unfolding(crate::specs::CacheControl::cache_directive_of))]
fn cache_directive_of(part: &[u8]) -> Option<CacheDirective<'_>>
    ensures { option_map shown_cache_directive result ≡ spec.cache_directive_of part.now }
{
    match around(b'=', part) {
        Some((name, spelling)) => named(name, Some(argument_of(spelling)?)),
        None => named(part, None),
    }
}

// Whether a part is a directive or nothing.
#[tactic(auto, unfolding(crate::specs::CacheControl::is_element))]
fn is_element(part: &[u8]) -> bool
    ensures { result ≡ spec.is_element part.now }
{
    part.is_empty() || cache_directive_of(part).is_some()
}

// Whether the value is of the grammar.
fn is_cache_control(value: &[u8]) -> bool
    ensures { result ≡ spec.is_cache_control value.now }
{
    Parts::of(value).all(|part| is_element(trimmed(part)))
}

// What a part says under a name: a number of seconds, if it gives one.
#[tactic(auto, unfolding(crate::specs::CacheControl::said))]
fn said(name: &[u8], part: &[u8]) -> Option<Option<u32>>
    ensures { result ≡ said name.now part.now }
{
    let directive = cache_directive_of(trimmed(part))?;
    if is_named(directive.name, name) {
        Some(directive.argument.and_then(|digits| seconds_of(digits)))
    } else {
        None
    }
}

// Whether the value has a directive with this name.
fn has(name: &[u8], value: &[u8]) -> bool
    ensures { result ≡ spec.has name.now value.now }
{
    Parts::of(value).any(|part| said(name, part).is_some())
}

// The number of seconds that all directives with this name give. Where one gives no number, or another, none counts:
// which was meant can't be told.
#[tactic(auto, unfolding(crate::specs::CacheControl::seconds_under))]
fn seconds_under(name: &[u8], value: &[u8]) -> Option<u32>
    ensures { result ≡ seconds_under name.now value.now }
{
    let mut agreed: Option<u32> = None;
    for part in Parts::of(value) {
        if let Some(seconds) = said(name, part) {
            let seconds = seconds?;
            if agreed.is_some_and(|other| other != seconds) {
                return None;
            }
            agreed = Some(seconds);
        }
    }
    agreed
}

#[tactic(auto, unfolding(crate::specs::CacheControl::forbids_keeping))]
fn forbids_keeping(value: &[u8]) -> bool
    ensures { result ≡ spec.forbids_keeping value.now }
{
    has(b"private", value) || has(b"no-store", value) || has(b"no-cache", value)
}

#[tactic(auto, unfolding(crate::specs::CacheControl::forbids_staleness))]
fn forbids_staleness(value: &[u8]) -> bool
    ensures { result ≡ spec.forbids_staleness value.now }
{
    has(b"must-revalidate", value) || has(b"proxy-revalidate", value)
}

// For how many seconds past its age an answer may bridge a failing origin.
#[tactic(auto, unfolding(crate::specs::CacheControl::extension_of))]
fn extension_of(value: &[u8]) -> u32
    ensures { result ≡ spec.extension_of value.now }
{
    if forbids_staleness(value) {
        0
    } else {
        seconds_under(b"stale-if-error", value).unwrap_or(0)
    }
}

// Whether nothing stands against keeping the answer by `Cache-Control`.
#[tactic(auto, unfolding(crate::specs::CacheControl::may_heed))]
fn may_heed(control: Control, value: &[u8], sets_cookies: bool) -> bool
    ensures { result ≡ spec.may_heed control value.now sets_cookies }
{
    !(control.no_store || control.max_age.is_some() || sets_cookies)
        && is_cache_control(value)
        && !forbids_keeping(value)
}

/// What is asked of an edge that also heeds `Cache-Control`, where `control` is what `Surrogate-Control` asks.
///
/// `cache_control` is the raw value of the field, its lines joined by `, `; `sets_cookies` says whether the response
/// has a field `Set-Cookie`. Where `control` neither gives an age nor forbids storing, the seconds of `s-maxage` are the
/// age, and those of `stale-if-error` the extension, unless `must-revalidate` or `proxy-revalidate` forbids that.
/// Each of the two counts only if its argument is a number, and the same one wherever it stands. Nothing changes if the
/// response sets cookies, beside `private`, `no-store` or `no-cache`, with an argument or without, or if the value isn't
/// of the grammar or has a `\` in quotes. More seconds than `MAX_SECONDS` count as that many.
///
/// Takes no memory.
///
/// Source: RFC 9111, sections 1.2.2, 4.2.1 and 5.2; RFC 5861, section 4.
#[tactic(auto, unfolding(crate::specs::CacheControl::heeded))]
pub fn heeding(control: Control, cache_control: &[u8], sets_cookies: bool) -> Control
    ensures { result ≡ heeded control cache_control.now sets_cookies }
{
    if !may_heed(control, cache_control, sets_cookies) {
        return control;
    }
    let Some(seconds) = seconds_under(b"s-maxage", cache_control) else {
        return control;
    };
    Control {
        max_age: Some(seconds),
        extension: extension_of(cache_control),
        ..control
    }
}
