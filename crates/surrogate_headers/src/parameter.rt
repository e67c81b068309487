//! The parameter of a directive: the value after its name's `=`.

ghost use Rattle.std.specs.Prelude.{◌≡◌, ◌==◌, ◌<◌, ◌≤◌, length, position, bytes_eq, codes, IfSome};
ghost use Rattle.std.specs.List.{position_or_len};
ghost use Rattle.std.specs.Option.{option_map};
ghost use Rattle.surrogate_headers.specs.Parameter as spec;
ghost use Rattle.surrogate_headers.specs.Parameter.{bare_value, value_after_equals, value_at, seconds_of, age_of, names_esi};
ghost use Rattle.edge_types.specs.Halves.{lent_pair};

use edge_types::{around, is_ws};

/// The largest number of seconds that counts; a larger one counts as this.
pub const MAX_SECONDS: u32 = 2_147_483_647;

// The word of a `content` directive that asks for the language.
const ESI: &[u8] = b"ESI/1.0";

/// For how many seconds an answer is fresh, and for how many more it may bridge a failing origin.
#[derive(Clone, Copy, Drop)]
pub(crate) struct Age {
    pub(crate) seconds: u32,
    pub(crate) extension: u32,
}

// Whether the byte ends a value without quotes.
#[tactic(auto, unfolding(crate::specs::Parameter::ends_value))]
fn ends_value(byte: u8) -> bool
    ensures { result ≡ spec.ends_value byte }
{
    is_ws(byte) || matches!(byte, b',' | b';' | b'"')
}

// How many bytes are before the first that ends a value.
fn bare_len(text: &[u8]) -> usize
    ensures value { result ≡ position_or_len spec.ends_value text.now }
    ensures within { result ≤ length text.now }
{
    for (i, byte) in text.iter().enumerate() {
        if ends_value(*byte) {
            return i;
        }
    }
    text.len()
}

// The value without quotes at the front, and what follows it.
#[tactic(auto, unfolding(crate::specs::Parameter::bare_value))]
fn bare_value(text: &[u8]) -> Option<(&[u8], &[u8])>
    ensures { option_map lent_pair result ≡ bare_value text.now }
{
    let len = bare_len(text);
    if len == 0 {
        return None;
    }
    Some(text.split_at(len))
}

// The value in its quotes or without them, and what follows it.
#[tactic(auto, unfolding(crate::specs::Parameter::bare_value))]
fn value_after_equals(text: &[u8]) -> Option<(&[u8], &[u8])>
    ensures { option_map lent_pair result ≡ value_after_equals text.now }
{
    match text {
        [b'"', rest @ ..] => around(b'"', rest),
        _ => bare_value(text),
    }
}

// The value after the `=`, and what follows it.
#[tactic(auto, unfolding(crate::specs::Parameter::value_at))]
pub(crate) fn value_at(after: &[u8]) -> Option<(&[u8], &[u8])>
    ensures { option_map lent_pair result ≡ value_at after.now }
{
    match after {
        [b'=', rest @ ..] => value_after_equals(rest),
        _ => None,
    }
}

// The number that the digits write.
#[tactic(auto, unfolding(crate::specs::Parameter::seconds_of))]
pub(crate) fn seconds_of(digits: &[u8]) -> Option<u32>
    ensures { result ≡ seconds_of digits.now }
{
    if digits.is_empty() {
        return None;
    }
    let mut total: u32 = 0;
    for digit in digits {
        if !digit.is_ascii_digit() {
            return None;
        }
        // Cut back at each digit, so that no later one overflows.
        total = total
            .saturating_mul(10)
            .saturating_add(u32::from(*digit - b'0'))
            .min(MAX_SECONDS);
    }
    Some(total)
}

// The age that a value writes: a number, or two with a `+` between them.
#[tactic(auto, unfolding(crate::specs::Parameter::age_of))]
pub(crate) fn age_of(value: &[u8]) -> Option<Age>
    ensures { result ≡ age_of value.now }
{
    match around(b'+', value) {
        Some((seconds, extension)) => Some(Age {
            seconds: seconds_of(seconds)?,
            extension: seconds_of(extension)?,
        }),
        None => Some(Age {
            seconds: seconds_of(value)?,
            extension: 0,
        }),
    }
}

fn is_esi(word: &[u8]) -> bool
    ensures { result ≡ bytes_eq word.now (codes "ESI/1.0") }
{
    word == ESI
}

// Whether one of a value's words is `ESI/1.0`.
#[tactic(auto, unfolding(crate::specs::Parameter::names_esi))]
pub(crate) fn names_esi(value: &[u8]) -> bool
    ensures { result ≡ names_esi value.now }
{
    value.split(|byte| is_ws(*byte)).any(|word| is_esi(word))
}
