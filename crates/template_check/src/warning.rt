//! Likely mistakes that aren't faults of a template.

ghost use Rattle.std.specs.Prelude.{◌≡◌, false, Some};
ghost use Rattle.std.specs.List.{list_any};
ghost use Rattle.template_check.specs.Messages.{warning_words};
ghost use Rattle.template_check.specs.Warnings as spec;

use esi_scanner::{Attribute, AttributeName, Attributes, ElementName, KnownAttribute, Tag};
use esi_tree::OnError;
use esi_vars::Variable;
use std::fmt;

/// A likely mistake in a template that isn't a fault.
#[derive(Clone, Copy, Debug, Drop, PartialEq, Eq)]
pub enum Warning {
    /// An `onerror` of an include that has no meaning: it counts as absent.
    OnError,
    /// An attribute that the language doesn't name: it has no meaning.
    UnknownAttribute,
    /// An empty `src`, which denotes the page's own URL.
    EmptySource,
    /// A `src` that begins with `https:`, which is never fetched.
    SecureSource,
    /// A `''` in a test that isn't a default: a comparison with it is false.
    EmptyText,
    /// A reference in text outside `vars`, where it isn't replaced.
    IdleReference,
    /// A reference to a variable that doesn't exist: it denotes its default, or nothing.
    UnknownVariable,
    /// A `$(` with which no reference begins: it denotes itself.
    NoReference,
    /// Text that looks like a tag of the language, and isn't one.
    TagInText,
    /// An inline's name that doesn't denote a URL that the edge fetches: no include can reach it.
    IdleName,
    /// A `src` or `alt` with bytes before any `?` that a reader writes: they may name another host or folder.
    ChosenSource,
}

impl Warning {
    /// Those that an opening tag alone shows.
    pub const OF_TAGS: [Warning; 5] = [
        Warning::OnError,
        Warning::UnknownAttribute,
        Warning::EmptySource,
        Warning::SecureSource,
        Warning::EmptyText,
    ];

    /// Whether this warning applies to a tag; never for one that isn't about tags alone. Takes no memory.
    pub fn is_of(self, tag: &Tag) -> bool
        ensures { result ≡ spec.is_of self tag.now }
    {
        match self {
            Warning::OnError => is_include(tag) && is_idle_onerror(&tag.attributes),
            Warning::UnknownAttribute => has_unknown(tag.attributes.as_slice()),
            Warning::EmptySource => is_include(tag) && is_source_empty(&tag.attributes),
            Warning::SecureSource => is_include(tag) && is_source_secure(&tag.attributes),
            Warning::EmptyText => is_when(tag) && has_empty_text(&tag.attributes),
            Warning::IdleReference
            | Warning::UnknownVariable
            | Warning::NoReference
            | Warning::TagInText
            | Warning::IdleName
            | Warning::ChosenSource => false,
        }
    }
}

fn is_include(tag: &Tag) -> bool
    ensures { result ≡ spec.is_include tag.now.name }
{
    tag.name == ElementName::Include
}

fn is_when(tag: &Tag) -> bool
    ensures { result ≡ spec.is_when tag.now.name }
{
    tag.name == ElementName::When
}

fn is_idle_onerror(attributes: &Attributes) -> bool
    ensures { result ≡ spec.is_idle_onerror attributes.now }
{
    match attributes.value(KnownAttribute::OnError) {
        Some(value) => OnError::of(value).is_none(),
        None => false,
    }
}

fn is_unknown(attribute: &Attribute) -> bool
    ensures { result ≡ spec.is_unknown attribute.now }
{
    matches!(attribute.name, AttributeName::Other(_))
}

fn has_unknown(attributes: &[Attribute]) -> bool
    ensures { result ≡ list_any spec.is_unknown attributes.now }
{
    attributes.iter().any(|attribute| is_unknown(attribute))
}

fn is_source_empty(attributes: &Attributes) -> bool
    ensures { result ≡ spec.is_source_empty attributes.now }
{
    match attributes.value(KnownAttribute::Src) {
        Some(value) => value.is_empty(),
        None => false,
    }
}

fn is_source_secure(attributes: &Attributes) -> bool
    ensures { result ≡ spec.is_source_secure attributes.now }
{
    match attributes.value(KnownAttribute::Src) {
        Some(value) => value.starts_with(b"https:"),
        None => false,
    }
}

// Whether `''` is at the front, with no bar before it.
fn begins_empty(behind_bar: bool, text: &[u8]) -> bool
    ensures { result ≡ spec.begins_empty behind_bar text.now }
{
    !behind_bar && text.starts_with(b"''")
}

// Whether `''` is in a test other than directly after a bar, where it is a default.
fn stands_empty(test: &[u8]) -> bool
    ensures { result ≡ spec.stands_empty false test.now }
{
    let mut behind_bar = false;
    let mut rest = test;
    while let Some((byte, after)) = rest.split_first() {
        if begins_empty(behind_bar, rest) {
            return true;
        }
        behind_bar = *byte == b'|';
        rest = after;
    }
    false
}

fn has_empty_text(attributes: &Attributes) -> bool
    ensures { result ≡ spec.has_empty_text attributes.now }
{
    match attributes.value(KnownAttribute::Test) {
        Some(value) => stands_empty(value),
        None => false,
    }
}

impl fmt::Display for Warning {
    ghost output = { λ warning. Some (warning_words warning) };

    fn fmt<W: fmt::Write>(&self, f: &mut fmt::Formatter<W>) -> fmt::Result {
        f.write_str(match self {
            Warning::OnError => {
                "`onerror` says nothing here: its one value is `continue`, which leaves out an include that fails"
            }
            Warning::UnknownAttribute => {
                "an attribute here says nothing: the language doesn't name it"
            }
            Warning::EmptySource => "an empty `src` asks for this page itself",
            Warning::SecureSource => {
                "this can only fail: origins are asked by `http:` alone, so write a path or an `http:` URL"
            }
            Warning::EmptyText => {
                "a comparison with `''` is always false: a reference alone asks whether it is empty"
            }
            Warning::IdleReference => {
                "this reference is printed as it stands: it isn't between <esi:vars> and </esi:vars>"
            }
            Warning::UnknownVariable => {
                return write!(
                    f,
                    "no variable has this name: there are {}",
                    Variable::names()
                );
            }
            Warning::NoReference => "this `$(` begins no reference: it stands as it is",
            Warning::TagInText => {
                "this is text and no tag: a tag begins with `<esi:`, in small letters and without spaces"
            }
            Warning::IdleName => {
                "no include can ask for this inline: name it by a path, such as /box, or by an `http:` URL"
            }
            Warning::ChosenSource => {
                "a reader may choose the host or the folder of this `src` or `alt`, by `//`, `\\` or `..`: put the reference behind a `?`, or choose by <esi:when>"
            }
        })
    }
}
