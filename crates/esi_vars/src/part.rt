//! Texts in parts: references, and the text between them. Clauses see a `Part` with its bytes as a list.

ghost use Rattle.std.specs.Prelude.{◌≡◌, ◌<◌, ◌≤◌, ◌++◌, length, slice_range, IfOk, OnOk, IfSome, option_map};
ghost use Rattle.esi_vars.specs.Parts.{parts_of, next_reference, text_part};
ghost use Rattle.esi_vars.specs.Shown.{shown_next};
ghost use Rattle.esi_vars.specs.Values.{part_value, substituted, within};

use crate::lookups::Lookups;
use crate::reference::{Reference, owned};
use crate::values::value_by;
use crate::written::{Written, written_at};
use edge_types::{NoMemory, Request, SharedBytes, find_byte};
use std::alloc::Global;

/// The byte with which each reference begins.
const DOLLAR: u8 = b'$';

/// The byte with which each reference ends.
const CLOSE: u8 = b')';

/// A part of a text.
#[derive(Drop)]
pub enum Part {
    /// Text that denotes itself; one byte or more.
    Text(SharedBytes),
    /// A reference, which denotes its value.
    Reference(Reference),
}

// The first reference of a text, what is before it and what follows it.
#[derive(Clone, Copy)]
struct Found<'a> {
    before: &'a [u8],
    written: Written<'a>,
    rest: &'a [u8],
}

/// The parts of a text, read from the left: a reference where one begins, and between references the text in one
/// piece, which is a part of the bytes that are read. What doesn't begin a reference is text.
///
/// `NoMemory` if an allocation fails; no parts are made then.
///
/// Source: ESI Language Specification 1.0, "Variables"; the spelling of keys and defaults is our profile.
pub fn parts(alloc: Global, text: &SharedBytes) -> Result<Vec<Part>, NoMemory>
    ensures { IfOk result (λ parts. parts.items ≡ parts_of text.now) }
{
    let bytes = text.as_bytes();
    let len = bytes.len();
    let mut parts = Vec::new(alloc);
    let mut at = 0;
    while let Some(found) = next_reference(bytes.split_at(at).1) {
        let end = at + found.before.len();
        push_text(&mut parts, text, at, end)?;
        parts.push(Part::Reference(owned(alloc, found.written)?))?;
        at = len - found.rest.len();
    }
    push_text(&mut parts, text, at, len)?;
    Ok(parts)
}

// The first reference of a text.
fn next_reference(text: &[u8]) -> Option<Found<'_>>
    ensures value { shown_next result ≡ next_reference text.now }
    ensures shorter { IfSome result (λ found. length found.rest.now < length text.now) }
{
    // If no reference can end, none is tried: a text of nothing but openers is passed over at once.
    find_byte(CLOSE, text)?;
    let mut at = 0;
    'search: loop {
        let (_, from) = text.split_at(at);
        let step = find_byte(DOLLAR, from)?;
        let (_, here) = from.split_at(step);
        if let Some((written, rest)) = written_at(here) {
            let (before, _) = text.split_at(at + step);
            return Some(Found {
                before,
                written,
                rest,
            });
        }
        at += step + 1;
    }
}

// Adds the bytes `from` to `to` as a part, if there are any.
fn push_text(
    parts: &mut Vec<Part>,
    text: &SharedBytes,
    from: usize,
    to: usize,
) -> Result<(), NoMemory>
    requires order { from ≤ to }
    requires within { to ≤ length text.now }
    ensures { OnOk result (parts.new.items ≡ parts.old.items ++ text_part (slice_range text.now from to)) }
{
    let part = text.part(from, to)?;
    if part.is_empty() {
        return Ok(());
    }
    parts.push(Part::Text(part))?;
    Ok(())
}

/// The text of the parts for a request: each reference replaced by its value, and nothing else changed.
///
/// `NoMemory` if an allocation fails; no text is made then.
///
/// Source: ESI Language Specification 1.0, "Variables".
pub fn substitute(alloc: Global, request: &Request, parts: &[Part]) -> Result<Vec<u8>, NoMemory>
    ensures { IfOk result (λ text. text.items ≡ substituted request.now parts.now) }
{
    let mut text = Vec::new(alloc);
    let mut lookups = Lookups::none();
    for part in parts {
        text.extend_from_slice(part_value(request, part, &mut lookups))?;
    }
    Ok(text)
}

/// The text of the parts for a request, if it is no longer than the limit, in bytes; else `None`. Values are looked up as
/// by `value_by`.
///
/// `NoMemory` if an allocation fails; no text is made then.
///
/// Source: ESI Language Specification 1.0, "Variables"; a limit is our profile.
pub fn substitute_within(
    alloc: Global,
    request: &Request,
    parts: &[Part],
    limit: usize,
    lookups: &mut Lookups,
) -> Result<Option<Vec<u8>>, NoMemory>
    ensures { IfOk result (λ found. option_map (λ text. text.items) found ≡ within limit (substituted request.now parts.now)) }
{
    let mut text = Vec::new(alloc);
    for part in parts {
        let value = part_value(request, part, lookups);
        if value.len() > limit - text.len() {
            return Ok(None);
        }
        text.extend_from_slice(value)?;
    }
    Ok(Some(text))
}

// What a part denotes.
pub(crate) fn part_value<'a>(
    request: &'a Request,
    part: &'a Part,
    lookups: &mut Lookups,
) -> &'a [u8]
    ensures { result.now ≡ part_value request.now part.now }
{
    match part {
        Part::Text(bytes) => bytes.as_bytes(),
        Part::Reference(reference) => value_by(request, reference, lookups),
    }
}
