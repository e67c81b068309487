//! Tags, read from the front of a text.

ghost use Rattle.std.specs.Prelude.{◌≡◌, ◌<◌, ◌≤◌, length, IfOk, IfSome};
ghost use Rattle.std.specs.Option.{option_copied};
ghost use Rattle.esi_scanner.specs.Bytes.{shown, shown_pair};
ghost use Rattle.esi_scanner.specs.Tag.{name_at, equals_at, quoted_at, attribute_at, attributes_at, distinct_attributes_at, all_distinct, names_of, end_at, element_at, tag_at, closing_at, after_removed};

use crate::attribute::{Attribute, AttributeName};
use crate::attributes::Attributes;
use crate::bytes::{attribute_len, element_len};
use crate::element_name::ElementName;
use crate::entity::decoded;
use edge_types::{NoMemory, after_ws, around, ws_len};
use std::alloc::Global;
use std::collections::BTreeSet;

/// An opening tag.
#[derive(Drop)]
pub struct Tag {
    pub name: ElementName,
    pub attributes: Attributes,
    /// It ends with `/>`, which means the tag and its end with nothing between.
    pub closed: bool,
}

// White space and an attribute's name, and what follows.
#[tactic(auto, unfolding(crate::specs::Tag::name_at))]
pub(crate) fn name_at(text: &[u8]) -> Option<(&[u8], &[u8])>
    ensures value { shown_pair result ≡ name_at text.now }
    ensures shorter { IfSome result (λ found. length found.1.now < length text.now) }
{
    let (space, after) = text.split_at(ws_len(text));
    let (name, rest) = after.split_at(attribute_len(after));
    if space.is_empty() || name.is_empty() {
        return None;
    }
    Some((name, rest))
}

// What follows `=`.
#[tactic(auto, unfolding(crate::specs::Tag::equals_at))]
pub(crate) fn equals_at(text: &[u8]) -> Option<&[u8]>
    ensures value { option_copied result ≡ equals_at text.now }
    ensures shorter { IfSome result (λ rest. length rest.now ≤ length text.now) }
{
    let after = after_ws(text).strip_prefix(b"=".as_slice())?;
    Some(after_ws(after))
}

// The bytes between two equal quotes, and what follows.
#[tactic(auto, unfolding(crate::specs::Tag::quoted_at))]
pub(crate) fn quoted_at(text: &[u8]) -> Option<(&[u8], &[u8])>
    ensures value { shown_pair result ≡ quoted_at text.now }
    ensures shorter { IfSome result (λ found. length found.1.now ≤ length text.now) }
{
    match text {
        [quote @ (b'"' | b'\''), rest @ ..] => around(*quote, rest),
        _ => None,
    }
}

// An attribute, with the white space before it, and what follows.
#[tactic(auto, unfolding(crate::specs::Tag::attribute_at))]
fn attribute_at(alloc: Global, text: &[u8]) -> Result<Option<(Attribute, &[u8])>, NoMemory>
    ensures value { IfOk result (λ found. shown found ≡ attribute_at text.now) }
    ensures shorter { IfOk result (λ found. IfSome found (λ x. length x.1.now < length text.now)) }
{
    let Some((name, rest)) = name_at(text) else {
        return Ok(None);
    };
    let Some(rest) = equals_at(rest) else {
        return Ok(None);
    };
    let Some((raw, rest)) = quoted_at(rest) else {
        return Ok(None);
    };
    let name = AttributeName::of(alloc, name)?;
    let value = decoded(alloc, raw)?;
    Ok(Some((Attribute { name, value }, rest)))
}

// The end of a tag: whether it is closed, and what follows.
#[tactic(auto, unfolding(crate::specs::Tag::end_at))]
pub(crate) fn end_at(text: &[u8]) -> Option<(bool, &[u8])>
    ensures value { shown result ≡ end_at text.now }
    ensures shorter { IfSome result (λ found. length found.1.now < length text.now) }
{
    match after_ws(text) {
        [b'>', rest @ ..] => Some((false, rest)),
        [b'/', b'>', rest @ ..] => Some((true, rest)),
        _ => None,
    }
}

// An element's name, and what follows.
#[tactic(auto, unfolding(crate::specs::Tag::element_at))]
pub(crate) fn element_at(text: &[u8]) -> Option<(ElementName, &[u8])>
    ensures value { shown result ≡ element_at text.now }
    ensures shorter { IfSome result (λ found. length found.1.now ≤ length text.now) }
{
    let (name, rest) = text.split_at(element_len(text));
    Some((ElementName::of(name)?, rest))
}

/// A closing tag, from after its `</esi:` on, and what follows.
#[tactic(auto, unfolding(crate::specs::Tag::closing_at))]
pub(crate) fn closing_at(text: &[u8]) -> Option<(ElementName, &[u8])>
    ensures value { shown result ≡ closing_at text.now }
    ensures shorter { IfSome result (λ found. length found.1.now ≤ length text.now) }
{
    let (name, rest) = element_at(text)?;
    let rest = after_ws(rest).strip_prefix(b">".as_slice())?;
    Some((name, rest))
}

// As many attributes as there are, and what follows them.
fn attributes_at(alloc: Global, text: &[u8]) -> Result<(Vec<Attribute>, &[u8]), NoMemory>
    ensures value { IfOk result (λ found. (found.0.items, found.1.now) ≡ attributes_at (length text.now) text.now) }
    ensures shorter { IfOk result (λ found. length found.1.now ≤ length text.now) }
{
    let mut attributes = Vec::new(alloc);
    let mut rest = text;
    while let Some((attribute, after)) = attribute_at(alloc, rest)? {
        attributes.push(attribute)?;
        rest = after;
    }
    Ok((attributes, rest))
}

// Whether no name comes twice. A set of the names seen keeps the time from growing with the square of their number.
fn are_distinct(alloc: Global, attributes: &[Attribute]) -> Result<bool, NoMemory>
    ensures { IfOk result (λ distinct. distinct ≡ all_distinct (names_of attributes.now)) }
{
    let mut seen = BTreeSet::new(alloc);
    let mut rest = attributes;
    while let Some((attribute, before)) = rest.split_last() {
        if !seen.insert(attribute.name.as_bytes())? {
            return Ok(false);
        }
        rest = before;
    }
    Ok(true)
}

// The attributes of a tag, no name twice, and what follows them.
#[tactic(auto, unfolding(crate::specs::Tag::distinct_attributes_at))]
fn distinct_attributes_at(
    alloc: Global,
    text: &[u8],
) -> Result<Option<(Attributes, &[u8])>, NoMemory>
    ensures value { IfOk result (λ found. shown found ≡ distinct_attributes_at text.now) }
    ensures shorter { IfOk result (λ found. IfSome found (λ x. length x.1.now ≤ length text.now)) }
{
    let (attributes, rest) = attributes_at(alloc, text)?;
    if !are_distinct(alloc, attributes.as_slice())? {
        return Ok(None);
    }
    Ok(Some((Attributes::of(attributes), rest)))
}

/// An opening tag, from after its `<esi:` on, and what follows; `None` if there isn't one.
#[tactic(auto, unfolding(crate::specs::Tag::tag_at))]
pub(crate) fn tag_at(alloc: Global, text: &[u8]) -> Result<Option<(Tag, &[u8])>, NoMemory>
    ensures value { IfOk result (λ found. shown found ≡ tag_at text.now) }
    ensures shorter { IfOk result (λ found. IfSome found (λ x. length x.1.now ≤ length text.now)) }
{
    let Some((name, rest)) = element_at(text) else {
        return Ok(None);
    };
    let Some((attributes, rest)) = distinct_attributes_at(alloc, rest)? else {
        return Ok(None);
    };
    let Some((closed, rest)) = end_at(rest) else {
        return Ok(None);
    };
    let tag = Tag {
        name,
        attributes,
        closed,
    };
    Ok(Some((tag, rest)))
}
