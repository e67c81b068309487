//! What the tags and the text of a template mean.
ghost use Rattle.std.specs.Prelude.{◌≡◌, IfOk, option_map};
ghost use Rattle.esi_vars.specs.Parts.{parts_of};
ghost use Rattle.esi_tree.specs.Shown.{element_of};
ghost use Rattle.esi_tree.specs.Items.{bytes_at};
ghost use Rattle.esi_tree.specs.Attributes.{is_white, on_error_of};
ghost use Rattle.esi_tree.specs.Reading.{opened_by, text_element};
ghost use Rattle.esi_tree.specs.State.{frame_of};
ghost use Rattle.esi_scanner.specs.declared.element_name.ElementName.TheVariants as element;

use crate::halves::Halves;
use crate::include::{Include, OnError};
use crate::node::Node;
use crate::open_element::OpenElement;
use crate::parts::Parts;
use edge_types::{NoMemory, Octets, SharedBytes, is_ws};
use esi_expr::{Expr, parse};
use esi_scanner::{Attributes, ElementName, KnownAttribute, Span, Tag};
use std::alloc::Global;
use std::sync::Arc;

// The bytes of a text in this span, as a part of it.
#[tactic(auto, using(crate::proofs::SpanLemmas::clamped))]
pub(crate) fn part_at(text: &SharedBytes, span: Span) -> Result<SharedBytes, NoMemory>
    ensures { IfOk result (λ part. part ≡ bytes_at text.now span) }
{
    let end = span.end.min(text.len());
    let start = span.start.min(end);
    text.part(start, end)
}

// Whether the bytes are only white space.
pub(crate) fn is_white(bytes: &[u8]) -> bool
    ensures { result ≡ is_white bytes.now }
{
    bytes.iter().all(|byte| is_ws(*byte))
}

// A run of text: inside a `vars` in parts, else as it is.
pub(crate) fn text_node(alloc: Global, in_vars: bool, text: SharedBytes) -> Result<Node, NoMemory>
    ensures { IfOk result (λ node. element_of node ≡ text_element in_vars text) }
{
    if in_vars {
        Ok(Node::VarsText(Parts::of(alloc, &text)?))
    } else {
        Ok(Node::Text(text))
    }
}

// The parts of an attribute's value, which is decoded and so has bytes of its own.
fn parts_of_value(alloc: Global, value: &[u8]) -> Result<Parts, NoMemory>
    ensures { IfOk result (λ parts. parts ≡ parts_of value.now) }
{
    Parts::of(alloc, &SharedBytes::copy_of(alloc, value)?)
}

// What the include of a tag does where nothing that it names can be had.
#[tactic(auto, unfolding(crate::specs::Attributes::on_error_of))]
fn on_error_of(attributes: &Attributes) -> OnError
    ensures { result ≡ on_error_of attributes.now }
{
    match attributes.value(KnownAttribute::OnError) {
        Some(value) => OnError::of(value).unwrap_or(OnError::Fails),
        None => OnError::Fails,
    }
}

// An include, which needs a `src`.
#[tactic(auto, unfolding(crate::specs::Reading::opened_by))]
fn include_of(alloc: Global, attributes: &Attributes) -> Result<Option<OpenElement>, NoMemory>
    ensures { IfOk result (λ found. option_map frame_of found ≡ opened_by element.Include attributes.now) }
{
    let Some(src) = attributes.value(KnownAttribute::Src) else {
        return Ok(None);
    };
    let src = parts_of_value(alloc, src)?;
    let alt = match attributes.value(KnownAttribute::Alt) {
        Some(alt) => Some(parts_of_value(alloc, alt)?),
        None => None,
    };
    Ok(Some(OpenElement::Include(Include {
        src,
        alt,
        on_error: on_error_of(attributes),
    })))
}

// An inline, which needs a `name`.
#[tactic(auto, unfolding(crate::specs::Reading::opened_by))]
fn inline_of(alloc: Global, attributes: &Attributes) -> Result<Option<OpenElement>, NoMemory>
    ensures { IfOk result (λ found. option_map frame_of found ≡ opened_by element.Inline attributes.now) }
{
    let Some(name) = attributes.value(KnownAttribute::Name) else {
        return Ok(None);
    };
    Ok(Some(OpenElement::Inline {
        name: Octets::copy_of(alloc, name)?,
        content: Vec::new(alloc),
    }))
}

// A `when`, which needs a test that can be read.
#[tactic(auto, unfolding(crate::specs::Reading::opened_by))]
fn when_of(alloc: Global, attributes: &Attributes) -> Result<Option<OpenElement>, NoMemory>
    ensures { IfOk result (λ found. option_map frame_of found ≡ opened_by element.When attributes.now) }
{
    let Some(text) = attributes.value(KnownAttribute::Test) else {
        return Ok(None);
    };
    let Some(test) = parse(alloc, text)? else {
        return Ok(None);
    };
    Ok(Some(OpenElement::When {
        test: Arc::new(alloc, test)?,
        content: Vec::new(alloc),
    }))
}

// The element that a tag opens; `None` if something that the tag needs is missing.
#[tactic(auto, unfolding(crate::specs::Reading::opened_by))]
pub(crate) fn opened_by(alloc: Global, tag: &Tag) -> Result<Option<OpenElement>, NoMemory>
    ensures { IfOk result (λ found. option_map frame_of found ≡ opened_by tag.now.name tag.now.attributes) }
{
    Ok(match tag.name {
        ElementName::Include => include_of(alloc, &tag.attributes)?,
        ElementName::Inline => inline_of(alloc, &tag.attributes)?,
        ElementName::When => when_of(alloc, &tag.attributes)?,
        ElementName::Choose => Some(OpenElement::Choose(Vec::new(alloc))),
        ElementName::Otherwise => Some(OpenElement::Otherwise(Vec::new(alloc))),
        ElementName::Try => Some(OpenElement::Try(Halves::Neither)),
        ElementName::Attempt => Some(OpenElement::Attempt(Vec::new(alloc))),
        ElementName::Except => Some(OpenElement::Except(Vec::new(alloc))),
        ElementName::Comment => Some(OpenElement::Comment),
        ElementName::Remove => None,
        ElementName::Vars => Some(OpenElement::Vars(Vec::new(alloc))),
    })
}
