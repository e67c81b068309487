//! A directive: what it asks, and which device it is aimed at.

ghost use Rattle.std.specs.Prelude.{◌≡◌, ◌≤◌, length, bytes_eq, IfSome};
ghost use Rattle.std.specs.List.{position_or_len};
ghost use Rattle.std.specs.Option.{option_map};
ghost use Rattle.std.specs.Str.{str_eq_ignore_ascii_case};
ghost use Rattle.surrogate_headers.specs.Directive as spec;
ghost use Rattle.surrogate_headers.specs.Directive.{name_of, asked_by, token_behind, target_of, directive_of, shown_asked, shown_target, shown_directive};

use crate::parameter::{Age, age_of, names_esi, value_at};
use edge_types::{is_blank, is_token, skip_blanks};

// The names that count; `no-store-remote` counts as `no-store`.
#[derive(Clone, Copy, Drop)]
enum Name {
    NoStore,
    MaxAge,
    Content,
}

/// What a directive asks of an edge.
#[derive(Clone, Copy, Drop)]
pub(crate) enum Asks {
    /// Not to store the answer.
    NoStore,
    /// To hold the answer fresh for this long.
    MaxAge(Age),
    /// To process the body as an ESI template, or not to.
    Content(bool),
}

/// Which devices a directive is aimed at.
#[derive(Clone, Copy, Drop)]
pub(crate) enum Target<'a> {
    Every,
    /// The one with this token.
    Device(&'a [u8]),
}

/// A directive, read.
#[derive(Clone, Copy, Drop)]
pub(crate) struct Directive<'a> {
    pub(crate) asks: Asks,
    pub(crate) target: Target<'a>,
}

#[tactic(auto, unfolding(crate::specs::Directive::ends_name))]
fn ends_name(byte: u8) -> bool
    ensures { result ≡ spec.ends_name byte }
{
    is_blank(byte) || byte == b'=' || byte == b';'
}

// How many bytes are before the first that ends a name.
fn name_len(part: &[u8]) -> usize
    ensures value { result ≡ position_or_len spec.ends_name part.now }
    ensures within { result ≤ length part.now }
{
    for (i, byte) in part.iter().enumerate() {
        if ends_name(*byte) {
            return i;
        }
    }
    part.len()
}

pub(crate) fn is_named(text: &[u8], name: &[u8]) -> bool
    ensures { result ≡ str_eq_ignore_ascii_case text.now name.now }
{
    text.eq_ignore_ascii_case(name)
}

// The name that a text writes, ignoring case.
#[tactic(auto, unfolding(crate::specs::Directive::name_of))]
fn name_of(text: &[u8]) -> Option<Name>
    ensures { result ≡ name_of text.now }
{
    if is_named(text, b"no-store") || is_named(text, b"no-store-remote") {
        Some(Name::NoStore)
    } else if is_named(text, b"max-age") {
        Some(Name::MaxAge)
    } else if is_named(text, b"content") {
        Some(Name::Content)
    } else {
        None
    }
}

// What a name asks with its value, and the text after them.
#[tactic(auto, unfolding(crate::specs::Directive::asked_by))]
fn asked_by(name: Name, text: &[u8]) -> Option<(Asks, &[u8])>
    ensures { option_map shown_asked result ≡ asked_by name text.now }
{
    match name {
        Name::NoStore => Some((Asks::NoStore, text)),
        Name::MaxAge => {
            let (value, after) = value_at(text)?;
            Some((Asks::MaxAge(age_of(value)?), after))
        }
        Name::Content => {
            let (value, after) = value_at(text)?;
            Some((Asks::Content(names_esi(value)), after))
        }
    }
}

// The token after a `;`, with or without blanks before it.
fn token_behind(text: &[u8]) -> Option<Target<'_>>
    ensures { option_map shown_target result ≡ token_behind text.now }
{
    let [b';', rest @ ..] = text else {
        return None;
    };
    let token = skip_blanks(rest);
    if is_token(token) {
        Some(Target::Device(token))
    } else {
        None
    }
}

// The target that ends a directive.
#[tactic(auto, unfolding(crate::specs::Directive::target_of))]
fn target_of(text: &[u8]) -> Option<Target<'_>>
    ensures { option_map shown_target result ≡ target_of text.now }
{
    if text.is_empty() {
        return Some(Target::Every);
    }
    token_behind(skip_blanks(text))
}

/// The directive that a part of a header is, if it is well formed.
#[tactic(auto, unfolding(crate::specs::Directive::directive_of))]
pub(crate) fn directive_of(part: &[u8]) -> Option<Directive<'_>>
    ensures { option_map shown_directive result ≡ directive_of part.now }
{
    let (name, after) = part.split_at(name_len(part));
    let name = name_of(name)?;
    let (asks, after) = asked_by(name, after)?;
    let target = target_of(after)?;
    Some(Directive { asks, target })
}
