//! Says why no template continues with a token.

ghost use Rattle.std.specs.Prelude.{◌≡◌, ◌≤◌, length, reverse, IfOk};
ghost use Rattle.template_check.specs.Reasons as spec;

use crate::elements::{Opened, has_part, innermost, open_count};
use crate::reason::Reason;
use crate::trouble::trouble_of;
use edge_types::NoMemory;
use esi_scanner::{Attributes, ElementName, Kind, KnownAttribute, Tag, Token};
use esi_tree::{OPEN_LIMIT, stands_in_run};
use std::alloc::Global;

// Whether an element of this name may stand directly in an element of that name.
fn stands_in(name: ElementName, outer: ElementName) -> bool
    ensures { result ≡ spec.stands_in name outer }
{
    match outer {
        ElementName::Include | ElementName::Comment => false,
        ElementName::Choose => matches!(name, ElementName::When | ElementName::Otherwise),
        ElementName::Try => matches!(name, ElementName::Attempt | ElementName::Except),
        _ => stands_in_run(name),
    }
}

// Whether it may be directly in the innermost opened element.
fn may_stand(name: ElementName, within: Option<Opened>) -> bool
    ensures { result ≡ spec.may_stand name within }
{
    match within {
        Some(opened) => stands_in(name, opened.name),
        None => stands_in_run(name),
    }
}

// Whether an element takes at most one with this name.
fn is_single(name: ElementName) -> bool
    ensures { result ≡ spec.is_single name }
{
    matches!(
        name,
        ElementName::Otherwise | ElementName::Attempt | ElementName::Except
    )
}

// Why an element can't end. One with any other name always can.
fn ending(opened: Opened, before: &[Token]) -> Reason
    ensures { result ≡ spec.ending opened (reverse before.now) }
{
    match opened.name {
        ElementName::Choose => Reason::NoWhen(opened),
        ElementName::Try => {
            let part = if has_part(ElementName::Attempt, before) {
                ElementName::Except
            } else {
                ElementName::Attempt
            };
            Reason::NoHalf { part, opened }
        }
        _ => Reason::Unopened(opened.name),
    }
}

// Why a `when` can't be opened.
fn when_lacks(alloc: Global, attributes: &Attributes) -> Result<Reason, NoMemory>
    ensures { IfOk result (λ reason. reason ≡ spec.when_lacks attributes.now) }
{
    match attributes.value(KnownAttribute::Test) {
        Some(test) => Ok(Reason::BadTest(trouble_of(alloc, test)?)),
        None => Ok(Reason::Lacks {
            name: ElementName::When,
            attribute: KnownAttribute::Test,
        }),
    }
}

// Why a tag opens no element that may be there, or one that can't end at once.
fn lacking(alloc: Global, tag: &Tag, place: usize) -> Result<Reason, NoMemory>
    ensures { IfOk result (λ reason. reason ≡ spec.lacking tag.now place) }
{
    let name = tag.name;
    match name {
        ElementName::Include => Ok(Reason::Lacks {
            name,
            attribute: KnownAttribute::Src,
        }),
        ElementName::Inline => Ok(Reason::Lacks {
            name,
            attribute: KnownAttribute::Name,
        }),
        ElementName::When => when_lacks(alloc, &tag.attributes),
        ElementName::Try => Ok(Reason::NoHalf {
            part: ElementName::Attempt,
            opened: Opened { name, place },
        }),
        _ => Ok(Reason::NoWhen(Opened { name, place })),
    }
}

// Why no template continues with an opening tag.
fn open_reason(alloc: Global, tag: &Tag, place: usize, before: &[Token]) -> Result<Reason, NoMemory>
    ensures { IfOk result (λ reason. reason ≡ spec.open_reason tag.now place (reverse before.now)) }
{
    let name = tag.name;
    let within = innermost(before);
    if open_count(before) >= OPEN_LIMIT {
        Ok(Reason::TooDeep)
    } else if !may_stand(name, within) {
        Ok(Reason::Misplaced { name, within })
    } else if is_single(name) && has_part(name, before) {
        Ok(Reason::Second { name, within })
    } else {
        lacking(alloc, tag, place)
    }
}

// Why no template continues with a closing tag.
fn close_reason(name: ElementName, before: &[Token]) -> Reason
    ensures { result ≡ spec.close_reason name (reverse before.now) }
{
    match innermost(before) {
        Some(opened) if opened.name == name => ending(opened, before),
        Some(opened) => Reason::Crossed { name, opened },
        None => Reason::Unopened(name),
    }
}

// Why no template continues with this token, after those that are before it.
fn token_reason(alloc: Global, token: &Token, before: &[Token]) -> Result<Reason, NoMemory>
    ensures { IfOk result (λ reason. reason ≡ spec.token_reason token.now (reverse before.now)) }
{
    match &token.kind {
        Kind::Open(tag) => open_reason(alloc, tag, token.span.start, before),
        Kind::Close(name) => Ok(close_reason(*name, before)),
        _ => Ok(Reason::NoRun(innermost(before))),
    }
}

// How many tokens begin before a place.
fn count_before(tokens: &[Token], place: usize) -> usize
    ensures value { result ≡ spec.count_before tokens.now place }
    ensures within { result ≤ length tokens.now }
{
    for (i, token) in tokens.iter().enumerate() {
        if token.span.start >= place {
            return i;
        }
    }
    tokens.len()
}

/// Why no template continues with the token at this place; past all tokens, why the text can't end there.
///
/// `NoMemory` if an allocation fails.
pub(crate) fn reason_of(alloc: Global, tokens: &[Token], place: usize) -> Result<Reason, NoMemory>
    ensures { IfOk result (λ reason. reason ≡ spec.reason_of tokens.now place) }
{
    let (before, after) = tokens.split_at(count_before(tokens, place));
    match after {
        [token, ..] => token_reason(alloc, token, before),
        [] => Ok(Reason::Ends(innermost(before))),
    }
}
