//! The fields that each request to an origin carries.

ghost use Rattle.std.specs.Prelude.{◌≡◌, ◌==◌, map, option_map, IfOk, MatchOption};
ghost use Rattle.std.specs.List.{after_first, before_first, list_all};
ghost use Rattle.std.specs.Str.{byte};
ghost use Rattle.clap.specs.Words.{found_of, rows_of};
ghost use Rattle.edge_setup.specs.SentFields as spec;

use crate::carried_names::may_carry;
use crate::word::Word;
use clap::ArgMatches;
use edge_types::{HeadField, HeadFields, NoMemory, Octets, trimmed};
use std::alloc::Global;

/// The fields that the options say; `None` if requests may not carry them.
///
/// Our profile.
pub(crate) fn sent_said(
    alloc: Global,
    matches: &ArgMatches<'_>,
) -> Result<Option<HeadFields>, NoMemory>
    ensures { let said = spec.sent_said (rows_of (found_of matches.now)) in
        IfOk result (λ found. MatchOption found (¬ spec.AreSent said) (λ fields. (fields ≡ said) × spec.AreSent said)) }
{
    let fields = sent_of(alloc, Word::SendFields.all_said(matches))?;
    Ok(judged(HeadFields::of(alloc, fields)?))
}

// These fields, if requests may carry them.
fn judged(fields: HeadFields) -> Option<HeadFields>
    ensures { MatchOption result (¬ spec.AreSent fields) (λ same. (same ≡ fields) × spec.AreSent fields) }
{
    if fields.are_acceptable() && all_may_be_sent(fields.as_slice()) {
        Some(fields)
    } else {
        None
    }
}

fn all_may_be_sent(fields: &[HeadField]) -> bool
    ensures { result ≡ list_all spec.may_send fields.now }
{
    fields.iter().all(|field| may_send(field))
}

// Whether a field has a value, and a name that a request may carry.
fn may_send(field: &HeadField) -> bool
    ensures { result ≡ spec.may_send field.now }
{
    !field.value.as_bytes().is_empty() && may_carry(field.name.as_bytes())
}

// The fields that the words of the option write.
fn sent_of(alloc: Global, words: Option<&[&str]>) -> Result<Vec<HeadField>, NoMemory>
    ensures { IfOk result (λ fields. fields.items ≡ spec.sent_of (option_map (λ found. map (λ word. word.now) found.now) words.entry)) }
{
    match words {
        Some(words) => fields_in(alloc, words),
        None => Ok(Vec::new(alloc)),
    }
}

// The field that each of these words writes.
fn fields_in(alloc: Global, words: &[&str]) -> Result<Vec<HeadField>, NoMemory>
    ensures { IfOk result (λ fields. fields.items ≡ map spec.field_in (map (λ word. word.now) words.now)) }
{
    let mut fields = Vec::new(alloc);
    for word in words {
        let field = field_in(alloc, word)?;
        fields.push(field)?;
    }
    Ok(fields)
}

// The field that a word writes. Without a colon it has no value.
//
// Source: RFC 9112, "Field Syntax".
fn field_in(alloc: Global, word: &str) -> Result<HeadField, NoMemory>
    ensures { IfOk result (λ field. field ≡ spec.field_in word.now) }
{
    let (name, value) = halves(word);
    Ok(HeadField {
        name: Octets::of(name.as_bytes().to_ascii_lowercase(alloc)?),
        value: Octets::copy_of(alloc, trimmed(value.as_bytes()))?,
    })
}

// What stands before the first colon of a word, and what behind it.
fn halves(word: &str) -> (&str, &str)
    ensures first { result.0.now ≡ before_first (λ b. b == byte ":") word.now }
    ensures last { result.1.now ≡ after_first (λ b. b == byte ":") word.now }
{
    match word.split_once(':') {
        Some(halves) => halves,
        None => (word, ""),
    }
}
