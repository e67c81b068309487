//! References as they are written, with the bytes lent from their text.

ghost use Rattle.std.specs.Prelude.{◌≡◌};
ghost use Rattle.esi_vars.specs.Reading.{quoted_key_at, key_text_at, braced_key_at, key_at, default_text_at, barred_default_at, default_at, body_at, written_at};
ghost use Rattle.esi_vars.specs.Shown.{shown_run, shown_optional, shown_found};

use crate::bytes::{ByteClass, after_byte, run_at};
use edge_types::around;

/// The quotation mark around keys and defaults.
const QUOTE: u8 = b'\'';

/// The name, the key and the default of a reference, lent from its text.
#[derive(Clone, Copy)]
pub(crate) struct Written<'a> {
    pub name: &'a [u8],
    pub key: Option<&'a [u8]>,
    pub default: Option<&'a [u8]>,
}

/// The parts of the reference at the front, and what follows it.
pub(crate) fn written_at(text: &[u8]) -> Option<(Written<'_>, &[u8])>
    ensures { shown_found result ≡ written_at text.now }
{
    match text {
        [b'$', b'(', body @ ..] => body_at(body),
        _ => None,
    }
}

// The parts of a reference from after its `$(` on, and what follows it.
#[tactic(auto, unfolding(crate::specs::Reading::body_at))]
fn body_at(text: &[u8]) -> Option<(Written<'_>, &[u8])>
    ensures { shown_found result ≡ body_at text.now }
{
    let (name, rest) = run_at(ByteClass::Name, text)?;
    let (key, rest) = key_at(rest)?;
    let (default, rest) = default_at(rest)?;
    let rest = after_byte(b')', rest)?;
    Some((Written { name, key, default }, rest))
}

// The key of a reference, if it has one, and what follows it.
fn key_at(text: &[u8]) -> Option<(Option<&[u8]>, &[u8])>
    ensures { shown_optional result ≡ key_at text.now }
{
    match text {
        [b'{', rest @ ..] => braced_key_at(rest),
        _ => Some((None, text)),
    }
}

// A key, from after its opening brace on.
#[tactic(auto, unfolding(crate::specs::Reading::braced_key_at))]
fn braced_key_at(text: &[u8]) -> Option<(Option<&[u8]>, &[u8])>
    ensures { shown_optional result ≡ braced_key_at text.now }
{
    let (key, rest) = key_text_at(text)?;
    let rest = after_byte(b'}', rest)?;
    Some((Some(key), rest))
}

// A key, with its quotes or without.
#[tactic(auto, unfolding(crate::specs::Reading::run_at))]
fn key_text_at(text: &[u8]) -> Option<(&[u8], &[u8])>
    ensures { shown_run result ≡ key_text_at text.now }
{
    match text {
        [QUOTE, rest @ ..] => quoted_key_at(rest),
        _ => run_at(ByteClass::Key, text),
    }
}

// A key, from after its opening quote on.
#[tactic(auto, unfolding(crate::specs::Reading::quoted_key_at))]
fn quoted_key_at(text: &[u8]) -> Option<(&[u8], &[u8])>
    ensures { shown_run result ≡ quoted_key_at text.now }
{
    let (key, rest) = run_at(ByteClass::Key, text)?;
    let rest = after_byte(QUOTE, rest)?;
    Some((key, rest))
}

// The default of a reference, if it has one, and what follows it.
fn default_at(text: &[u8]) -> Option<(Option<&[u8]>, &[u8])>
    ensures { shown_optional result ≡ default_at text.now }
{
    match text {
        [b'|', rest @ ..] => barred_default_at(rest),
        _ => Some((None, text)),
    }
}

// A default, from after its bar on.
#[tactic(auto, unfolding(crate::specs::Reading::barred_default_at))]
fn barred_default_at(text: &[u8]) -> Option<(Option<&[u8]>, &[u8])>
    ensures { shown_optional result ≡ barred_default_at text.now }
{
    let (default, rest) = default_text_at(text)?;
    Some((Some(default), rest))
}

// A default, with its quotes or without.
#[tactic(auto, unfolding(crate::specs::Reading::run_at))]
fn default_text_at(text: &[u8]) -> Option<(&[u8], &[u8])>
    ensures { shown_run result ≡ default_text_at text.now }
{
    match text {
        [QUOTE, rest @ ..] => around(QUOTE, rest),
        _ => run_at(ByteClass::Default, text),
    }
}
