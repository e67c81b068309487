//! The names of a reader's fields that the origins of private URLs are told.

ghost use Rattle.std.specs.Prelude.{◌≡◌, option_map, IfOk};
ghost use Rattle.clap.specs.Words.{found_of, rows_of};
ghost use Rattle.edge_setup.specs.CarriedNames.{lowered};
ghost use Rattle.edge_setup.specs.ToldFields as spec;

use crate::carried_names::may_carry;
use crate::lists::is_comma;
use crate::private::has_private;
use crate::word::Word;
use crate::words::MAX_TOKEN;
use clap::ArgMatches;
use edge_types::{is_token, trimmed};
use std::alloc::{AllocError, Global};

/// The names that the options give; `None` if they are none that may be told, or no URL is private.
pub(crate) fn told_said<'a>(matches: &ArgMatches<'a>) -> Option<Option<&'a str>>
    ensures { option_map (λ names. option_map (λ n. n.now) names) result ≡ spec.told_said (rows_of (found_of matches.now)) }
{
    told_of(has_private(matches), Word::ForwardFields.said(matches))
}

// The names that a word writes, where there is one.
fn told_of(is_private: bool, word: Option<&str>) -> Option<Option<&str>>
    ensures { option_map (λ names. option_map (λ n. n.now) names) result ≡ spec.told_of is_private (option_map (λ w. w.now) word.entry) }
{
    let Some(names) = word else {
        return Some(None);
    };
    if is_private && are_told(names.as_bytes()) {
        Some(Some(names))
    } else {
        None
    }
}

// Whether the field of this name may be told.
fn may_tell(name: &[u8]) -> bool
    ensures { result ≡ spec.may_tell name.now }
{
    is_token(name) && name.len() <= MAX_TOKEN && may_carry(name)
}

// Whether a text is such names, with commas between, and blanks around each.
//
// Source: RFC 9110, "Field Names", "Lists"; which may be told: our profile.
fn are_told(text: &[u8]) -> bool
    ensures { result ≡ spec.are_told text.now }
{
    text.split(|byte| is_comma(*byte))
        .all(|name| may_tell(trimmed(name)))
}

/// The names in lower case, where there are some: those of fields that come are compared with them.
pub(crate) fn lowered_of(alloc: Global, names: Option<&str>) -> Result<Option<Vec<u8>>, AllocError>
    ensures { IfOk result (λ copy. option_map (λ c. c.items) copy ≡ option_map (λ n. lowered n.now) names.entry) }
{
    match names {
        Some(names) => Ok(Some(names.as_bytes().to_ascii_lowercase(alloc)?)),
        None => Ok(None),
    }
}
