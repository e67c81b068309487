//! The languages that a request accepts.

ghost use Rattle.std.specs.Prelude.{◌≡◌, MatchOption};
ghost use Rattle.std.specs.Str.{byte, str_eq_ignore_ascii_case};
ghost use Rattle.esi_vars.specs.Field as spec;
ghost use Rattle.esi_vars.specs.Finds.{BeginsPart, HasFirstLetter};

use crate::field::{first_part, from_part, halves};
use edge_types::trimmed;
use memchr::memchr2;

/// `true` if a part of the field names the language, ignoring ASCII case, else nothing.
pub(crate) fn language_value(language: &[u8], field: &[u8]) -> &'static [u8]
    ensures { result.now ≡ spec.language_value language.now field.now }
{
    let mut rest = Some(field);
    while let Some(text) = rest {
        let Some(text) = from_first_letter(language, text) else {
            break;
        };
        let (part, after) = first_part(b',', text);
        if names_language(language, part) {
            return b"true";
        }
        rest = after;
    }
    b""
}

// The text from the first part on that has the language's first letter, in either case; `None` if none has it.
fn from_first_letter<'a>(language: &[u8], text: &'a [u8]) -> Option<&'a [u8]>
    ensures { MatchOption result (¬ HasFirstLetter language.now text.now) (λ rest. BeginsPart (byte ",") (λ front. ¬ HasFirstLetter language.now front) text.now rest.now) }
{
    let [letter, ..] = language else {
        return Some(text);
    };
    let place = memchr2(
        letter.to_ascii_lowercase(),
        letter.to_ascii_uppercase(),
        text,
    )?;
    Some(from_part(b',', text, place))
}

// Whether a part of the language field is the language.
#[tactic(auto, unfolding(crate::specs::Field::names_language))]
fn names_language(language: &[u8], part: &[u8]) -> bool
    ensures { result ≡ spec.names_language language.now part.now }
{
    let (range, _) = halves(b';', part);
    same_but_for_case(trimmed(range), language)
}

// Whether the texts are equal, ignoring ASCII case.
fn same_but_for_case(a: &[u8], b: &[u8]) -> bool
    ensures { result ≡ str_eq_ignore_ascii_case a.now b.now }
{
    a.eq_ignore_ascii_case(b)
}
