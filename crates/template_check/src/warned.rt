//! Collects likely mistakes in a template that aren't faults.

ghost use Rattle.std.specs.Prelude.{◌≡◌, ◌≤◌, ◌<◌, ◌+◌, ◌^◌, ◌++◌, IfOk, OnOk, length};
ghost use Rattle.esi_vars.specs.Shown.{shown_reference};
ghost use Rattle.template_check.specs.Warned as spec;

use crate::chosen::source_warning;
use crate::warning::Warning;
use edge_types::{NoMemory, PageUrl, after_ws};
use esi_scanner::{ElementName, Kind, KnownAttribute, ScanFault, Span, Tag, Token, scan};
use esi_vars::{Reference, Variable, reference_at};
use std::alloc::Global;

/// A warning, and where it applies.
#[derive(Clone, Copy, Debug, Drop, PartialEq, Eq)]
pub struct Warned {
    /// In bytes from the text's start: of the tag that the warning is about, else of the byte in the text.
    pub place: usize,
    pub warning: Warning,
}

// Whether requests can say something about a variable.
fn is_known(variable: &Variable) -> bool
    ensures { result ≡ spec.is_known variable.now }
{
    !matches!(variable, Variable::Unknown(_))
}

// The warning about a reference, or about a missing one after `$(`, where references are replaced or are not.
fn judged(replaced: bool, found: Option<(Reference, &[u8])>) -> Option<Warning>
    ensures { result ≡ spec.judged replaced (shown_reference found.entry) }
{
    match found {
        Some((reference, _)) if is_known(&reference.variable) => {
            if replaced {
                None
            } else {
                Some(Warning::IdleReference)
            }
        }
        Some(_) if replaced => Some(Warning::UnknownVariable),
        None if replaced => Some(Warning::NoReference),
        _ => None,
    }
}

// The warning about the `$(` at the front of a text. Each reading ends before the second `$(` or quote after it, so
// that all places of a text together take time in proportion to its length.
fn reference_warning(
    alloc: Global,
    replaced: bool,
    text: &[u8],
) -> Result<Option<Warning>, NoMemory>
    ensures { IfOk result (λ found. found ≡ spec.reference_warning replaced text.now) }
{
    if text.starts_with(b"$(") {
        Ok(judged(replaced, reference_at(alloc, text)?))
    } else {
        Ok(None)
    }
}

// Whether a text begins with `esi:`, in letters of any case.
fn begins_name(text: &[u8]) -> bool
    ensures { result ≡ spec.begins_name text.now }
{
    let (front, _) = text.split_at(text.len().min(4));
    front.eq_ignore_ascii_case(b"esi:")
}

// What follows the `/` of a closing tag and the white space after it, if there is one.
fn after_slash(text: &[u8]) -> &[u8]
    ensures { result.now ≡ spec.after_slash text.now }
{
    match text.strip_prefix(b"/".as_slice()) {
        Some(rest) => after_ws(rest),
        None => text,
    }
}

// Whether the text at the front looks like a tag.
fn begins_tag(text: &[u8]) -> bool
    ensures { result ≡ spec.begins_tag text.now }
{
    match text.strip_prefix(b"<".as_slice()) {
        Some(rest) => begins_name(after_slash(after_ws(rest))),
        None => false,
    }
}

// The warning about the front of a text.
fn text_warning(alloc: Global, replaced: bool, text: &[u8]) -> Result<Option<Warning>, NoMemory>
    ensures { IfOk result (λ found. found ≡ spec.text_warning replaced text.now) }
{
    if begins_tag(text) {
        Ok(Some(Warning::TagInText))
    } else {
        reference_warning(alloc, replaced, text)
    }
}

// Adds one more, if there is one.
fn add(found: &mut Vec<Warned>, place: usize, warning: Option<Warning>) -> Result<(), NoMemory>
    ensures { OnOk result (found.new.items ≡ found.old.items ++ spec.warned place warning) }
{
    if let Some(warning) = warning {
        found.push(Warned { place, warning })?;
    }
    Ok(())
}

// Adds the warnings about a text that begins at a place.
fn add_text(
    alloc: Global,
    found: &mut Vec<Warned>,
    replaced: bool,
    place: usize,
    text: &[u8],
) -> Result<(), NoMemory>
    requires { place + length text.now < 2 ^ 64 }
    ensures { OnOk result (found.new.items ≡ found.old.items ++ spec.text_warnings replaced place text.now) }
{
    for i in 0..text.len() {
        let (_, here) = text.split_at(i);
        let warning = text_warning(alloc, replaced, here)?;
        add(found, place + i, warning)?;
    }
    Ok(())
}

// The warning about the first reference in a value that needs one, where references are replaced.
fn value_warning(alloc: Global, value: &[u8]) -> Result<Option<Warning>, NoMemory>
    ensures { IfOk result (λ found. found ≡ spec.value_warning value.now) }
{
    for i in 0..value.len() {
        let (_, here) = value.split_at(i);
        let warning = reference_warning(alloc, true, here)?;
        if warning.is_some() {
            return Ok(warning);
        }
    }
    Ok(None)
}

// The warning about the references in an attribute, if the tag has it.
fn attribute_warning(
    alloc: Global,
    tag: &Tag,
    attribute: KnownAttribute,
) -> Result<Option<Warning>, NoMemory>
    ensures { IfOk result (λ found. found ≡ spec.attribute_warning tag.now attribute) }
{
    match tag.attributes.value(attribute) {
        Some(value) => value_warning(alloc, value),
        None => Ok(None),
    }
}

// The warning about an attribute's source whose host or folder a reader may choose, if the tag has it.
fn choice_warning(
    alloc: Global,
    tag: &Tag,
    attribute: KnownAttribute,
) -> Result<Option<Warning>, NoMemory>
    ensures { IfOk result (λ found. found ≡ spec.choice_warning tag.now attribute) }
{
    match tag.attributes.value(attribute) {
        Some(source) => source_warning(alloc, source),
        None => Ok(None),
    }
}

// A page at which the names of inlines are tried: relative ones denote a URL at any page.
const SOME_PAGE: &[u8] = b"http://localhost/";

// The warning about an inline's name that doesn't denote a URL that the edge fetches.
fn name_warning(alloc: Global, name: &[u8]) -> Result<Option<Warning>, NoMemory>
    ensures { IfOk result (λ found. found ≡ spec.name_warning name.now) }
{
    let Some(page) = PageUrl::parse(alloc, SOME_PAGE)? else {
        return Ok(None);
    };
    match page.resolve(alloc, name)? {
        Some(_) => Ok(None),
        None => Ok(Some(Warning::IdleName)),
    }
}

// The warning about the name of a tag, if it has one.
fn inline_warning(alloc: Global, tag: &Tag) -> Result<Option<Warning>, NoMemory>
    ensures { IfOk result (λ found. found ≡ spec.inline_warning tag.now) }
{
    match tag.attributes.value(KnownAttribute::Name) {
        Some(name) => name_warning(alloc, name),
        None => Ok(None),
    }
}

// Adds the warnings about a source of an include.
fn add_source(
    alloc: Global,
    found: &mut Vec<Warned>,
    place: usize,
    tag: &Tag,
    attribute: KnownAttribute,
) -> Result<(), NoMemory>
    ensures { OnOk result (found.new.items ≡ found.old.items ++ spec.source_warnings place tag.now attribute) }
{
    let of_references = attribute_warning(alloc, tag, attribute)?;
    let of_choice = choice_warning(alloc, tag, attribute)?;
    add(found, place, of_references)?;
    add(found, place, of_choice)
}

// Adds the warnings about the values in which references are replaced, and about names.
fn add_values(
    alloc: Global,
    found: &mut Vec<Warned>,
    place: usize,
    tag: &Tag,
) -> Result<(), NoMemory>
    ensures { OnOk result (found.new.items ≡ found.old.items ++ spec.value_warnings place tag.now) }
{
    match tag.name {
        ElementName::Include => {
            add_source(alloc, found, place, tag, KnownAttribute::Src)?;
            add_source(alloc, found, place, tag, KnownAttribute::Alt)
        }
        ElementName::When => {
            let of_test = attribute_warning(alloc, tag, KnownAttribute::Test)?;
            add(found, place, of_test)
        }
        ElementName::Inline => {
            let of_name = inline_warning(alloc, tag)?;
            add(found, place, of_name)
        }
        _ => Ok(()),
    }
}

// A warning, if it applies to a tag.
fn due(tag: &Tag, warning: Warning) -> Option<Warning>
    ensures { result ≡ spec.due tag.now warning }
{
    if warning.is_of(tag) {
        Some(warning)
    } else {
        None
    }
}

// Adds those of these that apply to a tag.
fn add_each(
    found: &mut Vec<Warned>,
    place: usize,
    tag: &Tag,
    warnings: &[Warning],
) -> Result<(), NoMemory>
    ensures { OnOk result (found.new.items ≡ found.old.items ++ spec.each_warning place tag.now warnings.now) }
{
    for warning in warnings {
        add(found, place, due(tag, *warning))?;
    }
    Ok(())
}

// Adds the warnings about a tag.
fn add_tag(alloc: Global, found: &mut Vec<Warned>, place: usize, tag: &Tag) -> Result<(), NoMemory>
    ensures { OnOk result (found.new.items ≡ found.old.items ++ spec.tag_warnings place tag.now) }
{
    add_each(found, place, tag, &Warning::OF_TAGS)?;
    add_values(alloc, found, place, tag)
}

// The bytes of a span.
fn spanned(text: &[u8], span: Span) -> &[u8]
    ensures value { result.now ≡ spec.spanned text.now span }
    ensures within { span.start + length result.now < 2 ^ 64 }
{
    let (front, _) = text.split_at(span.end.min(text.len()));
    let (_, run) = front.split_at(span.start.min(front.len()));
    run
}

// Adds the warnings about a token, by whether it is inside `vars`.
fn add_token(
    alloc: Global,
    found: &mut Vec<Warned>,
    replaced: bool,
    text: &[u8],
    token: &Token,
) -> Result<(), NoMemory>
    ensures { OnOk result (found.new.items ≡ found.old.items ++ spec.token_warnings replaced text.now token.now) }
{
    match &token.kind {
        Kind::Text => add_text(
            alloc,
            found,
            replaced,
            token.span.start,
            spanned(text, token.span),
        ),
        Kind::Open(tag) => add_tag(alloc, found, token.span.start, tag),
        _ => Ok(()),
    }
}

// How many `vars` are open after a token.
fn depth_behind(depth: usize, kind: &Kind) -> usize
    requires { depth < 2 ^ 63 }
    ensures value { result ≡ spec.depth_behind depth kind.now }
    ensures few { result ≤ depth + 1 }
{
    match kind {
        Kind::Open(tag) if tag.name == ElementName::Vars && !tag.closed => depth + 1,
        Kind::Close(ElementName::Vars) => depth.saturating_sub(1),
        _ => depth,
    }
}

// The warnings about tokens.
fn token_warnings(alloc: Global, text: &[u8], tokens: &[Token]) -> Result<Vec<Warned>, NoMemory>
    ensures { IfOk result (λ found. found.items ≡ spec.warnings_from 0 text.now tokens.now) }
{
    let mut found = Vec::new(alloc);
    let mut depth: usize = 0;
    for token in tokens {
        add_token(alloc, &mut found, depth > 0, text, token)?;
        depth = depth_behind(depth, &token.kind);
    }
    Ok(found)
}

/// The likely mistakes in a text that aren't faults of a template, in the text's order. Nothing is reported of a text
/// that has no tokens. `NoMemory` if an allocation fails.
pub fn warnings(alloc: Global, text: &[u8]) -> Result<Vec<Warned>, NoMemory>
    ensures { IfOk result (λ found. found.items ≡ spec.warnings_of text.now) }
{
    match scan(alloc, text) {
        Ok(tokens) => token_warnings(alloc, text, tokens.as_slice()),
        Err(ScanFault::Malformed(_)) => Ok(Vec::new(alloc)),
        Err(ScanFault::NoMemory) => Err(NoMemory),
    }
}
