//! Why no token begins at a place.

ghost use Rattle.std.specs.Prelude.{◌≡◌, ◌<◌, ◌≤◌, [], length, IfOk, IfSome};
ghost use Rattle.esi_scanner.specs.Bytes.{shown_pair};
ghost use Rattle.esi_scanner.specs.Problems.{skipped_at, walked, value_problem, attribute_problem, end_problem, open_problem, close_problem, problem_of, trouble_at, shown_problem, shown_walk};

use crate::bytes::attribute_len;
use crate::tag::{element_at, end_at, equals_at, name_at, quoted_at};
use edge_types::{NoMemory, after_ws};
use std::alloc::Global;
use std::collections::BTreeSet;

/// What keeps an opener from beginning a token.
#[derive(Clone, Copy, Debug, Drop, PartialEq, Eq)]
pub enum Problem {
    /// No element of the language has the name.
    UnknownElement,
    /// No white space is before the attribute.
    NoSpace,
    /// No `=` follows the attribute's name.
    NoEquals,
    /// The attribute's value doesn't begin with a quote.
    NoQuote,
    /// The quote that opens the attribute's value is never closed.
    OpenQuote,
    /// An attribute with this name came before in the tag.
    Twice,
    /// The text ends inside the tag.
    TextEnds,
    /// The byte isn't allowed there in a tag.
    StrayByte,
    /// No `</esi:remove>` follows the tag.
    NoRemoveEnd,
    /// No `-->` follows the start of the block.
    NoBlockEnd,
}

/// A problem and where it is.
#[derive(Clone, Copy, Debug, Drop, PartialEq, Eq)]
pub struct Trouble {
    pub problem: Problem,
    /// In bytes from the text's start: the place of the name of the element or the attribute, of the byte, or of what
    /// follows the opener.
    pub place: usize,
}

// An attribute's name, and what follows its value.
#[tactic(auto, unfolding(crate::specs::Problems::skipped_at))]
fn skipped_at(text: &[u8]) -> Option<(&[u8], &[u8])>
    ensures value { shown_pair result ≡ skipped_at text.now }
    ensures shorter { IfSome result (λ found. length found.1.now < length text.now) }
{
    let (name, rest) = name_at(text)?;
    let rest = equals_at(rest)?;
    let (_, rest) = quoted_at(rest)?;
    Some((name, rest))
}

// Skips attributes up to one whose name came before, or to where there is none: whether it was the former, and
// what is there.
fn walked(alloc: Global, text: &[u8]) -> Result<(bool, &[u8]), NoMemory>
    ensures value { IfOk result (λ found. shown_walk found ≡ walked (length text.now) [] text.now) }
    ensures within { IfOk result (λ found. length found.1.now ≤ length text.now) }
{
    let mut seen = BTreeSet::new(alloc);
    let mut rest = text;
    while let Some((name, after)) = skipped_at(rest) {
        if !seen.insert(name)? {
            return Ok((true, rest));
        }
        rest = after;
    }
    Ok((false, rest))
}

// What is wrong with a value that can't be read.
fn value_problem(text: &[u8]) -> Problem
    ensures { result ≡ value_problem text.now }
{
    match text {
        [b'"' | b'\'', ..] => Problem::OpenQuote,
        _ => Problem::NoQuote,
    }
}

// What is wrong with an attribute that can't be read, after its name.
fn attribute_problem(text: &[u8]) -> Problem
    ensures { result ≡ attribute_problem text.now }
{
    match equals_at(text) {
        Some(value) => value_problem(value),
        None => Problem::NoEquals,
    }
}

// What is wrong if neither an attribute nor the end of a tag can be read, and where.
#[tactic(auto, unfolding(crate::specs::Problems::end_problem))]
fn end_problem(text: &[u8]) -> (Problem, &[u8])
    ensures value { shown_problem result ≡ end_problem text.now }
    ensures within { length result.1.now ≤ length text.now }
{
    let after = after_ws(text);
    if after.is_empty() {
        return (Problem::TextEnds, after);
    }
    if attribute_len(after) == 0 {
        return (Problem::StrayByte, after);
    }
    match name_at(text) {
        Some((_, rest)) => (attribute_problem(rest), after),
        None => (Problem::NoSpace, after),
    }
}

// What is wrong after `<esi:`.
#[tactic(auto, unfolding(crate::specs::Problems::open_problem))]
fn open_problem(alloc: Global, text: &[u8]) -> Result<(Problem, &[u8]), NoMemory>
    ensures value { IfOk result (λ found. shown_problem found ≡ open_problem text.now) }
    ensures within { IfOk result (λ found. length found.1.now ≤ length text.now) }
{
    let Some((_, rest)) = element_at(text) else {
        return Ok((Problem::UnknownElement, text));
    };
    let (repeats, rest) = walked(alloc, rest)?;
    if repeats {
        return Ok((Problem::Twice, after_ws(rest)));
    }
    match end_at(rest) {
        Some(_) => Ok((Problem::NoRemoveEnd, text)),
        None => Ok(end_problem(rest)),
    }
}

// What is wrong after `</esi:`.
#[tactic(auto, unfolding(crate::specs::Problems::close_problem))]
fn close_problem(text: &[u8]) -> (Problem, &[u8])
    ensures value { shown_problem result ≡ close_problem text.now }
    ensures within { length result.1.now ≤ length text.now }
{
    let Some((_, rest)) = element_at(text) else {
        return (Problem::UnknownElement, text);
    };
    let after = after_ws(rest);
    if after.is_empty() {
        (Problem::TextEnds, after)
    } else {
        (Problem::StrayByte, after)
    }
}

// What is wrong with the opener at the front, and where.
#[tactic(auto, unfolding(crate::specs::Problems::problem_of))]
fn problem_of(alloc: Global, text: &[u8]) -> Result<(Problem, &[u8]), NoMemory>
    ensures value { IfOk result (λ found. shown_problem found ≡ problem_of text.now) }
    ensures within { IfOk result (λ found. length found.1.now ≤ length text.now) }
{
    if let Some(after) = text.strip_prefix(b"<esi:".as_slice()) {
        return open_problem(alloc, after);
    }
    match text.strip_prefix(b"</esi:".as_slice()) {
        Some(after) => Ok(close_problem(after)),
        None => Ok((Problem::NoBlockEnd, text)),
    }
}

/// Says why a text is malformed at the place that `scan` reported: what is wrong with the tag there, and where; or, if
/// no tag of the language begins there, that the block has no end. Reads that tag alone, once more.
///
/// Of several attributes that are repeated the first is reported, before anything after it. A place past the
/// text's end counts as the end. `NoMemory` if an allocation fails.
#[tactic(auto, unfolding(crate::specs::Problems::trouble_at))]
pub fn trouble_at(alloc: Global, text: &[u8], place: usize) -> Result<Trouble, NoMemory>
    ensures { IfOk result (λ trouble. trouble ≡ trouble_at text.now place) }
{
    let (_, rest) = text.split_at(place.min(text.len()));
    let (problem, from) = problem_of(alloc, rest)?;
    let place = text.len() - from.len();
    Ok(Trouble { problem, place })
}
