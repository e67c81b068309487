//! Fields that are cut into parts.

ghost use Rattle.std.specs.Prelude.{◌≡◌, ◌<◌, ◌≤◌, length, IfSome, MatchOption};
ghost use Rattle.std.specs.Str.Iter.{HasSubslice};
ghost use Rattle.esi_vars.specs.Field as spec;
ghost use Rattle.esi_vars.specs.Finds.{BeginsPart};
ghost use Rattle.esi_vars.specs.Shown.{shown_parts, shown_halves};

use edge_types::around;
use memchr::memmem::Finder;
use memchr::memrchr;

/// The text from the first part on in which the name occurs; `None` if it occurs nowhere.
///
/// No part before can have the name, so these aren't cut: the search goes over them at the speed of memory.
#[tactic(auto, using(crate::proofs::SearchLemmas::lacks_word))]
pub(crate) fn from_name<'a>(end: u8, name: &Finder<'_>, text: &'a [u8]) -> Option<&'a [u8]>
    ensures { MatchOption result (¬ HasSubslice text.now name.now) (λ rest. BeginsPart end (λ front. ¬ HasSubslice front name.now) text.now rest.now) }
{
    let place = name.find(text)?;
    Some(from_part(end, text, place))
}

/// The text from the part on in which this place is.
pub(crate) fn from_part(end: u8, text: &[u8], place: usize) -> &[u8]
    requires { place ≤ length text.now }
    ensures { BeginsPart end (λ front. length front < place) text.now result.now }
{
    match memrchr(end, &text[..place]) {
        Some(before) => &text[before + 1..],
        None => text,
    }
}

/// The first part of a field, and what follows the byte at its end, if there is one.
pub(crate) fn first_part(end: u8, text: &[u8]) -> (&[u8], Option<&[u8]>)
    ensures value { shown_parts end result ≡ spec.parts_between end text.now }
    ensures shorter { IfSome result.1 (λ rest. length rest.now < length text.now) }
{
    match around(end, text) {
        Some((part, rest)) => (part, Some(rest)),
        None => (text, None),
    }
}

/// What is before the first such byte and what follows it; without one, the whole and nothing.
#[tactic(auto, unfolding(crate::specs::Field::halves))]
pub(crate) fn halves(byte: u8, text: &[u8]) -> (&[u8], &[u8])
    ensures { shown_halves result ≡ spec.halves byte text.now }
{
    around(byte, text).unwrap_or((text, b""))
}
