//! What one line of a configuration file denotes.

ghost use Rattle.std.specs.Prelude.{◌≡◌, ◌∷◌, ◌++◌, [], map, option_map, string_bytes, IfOk, OnOk};
ghost use Rattle.toml.specs.View.{items_view, view};
ghost use Rattle.toml.specs.Parse.{parse_document};
ghost use Rattle.config_file.specs.Lines as spec;

use crate::fault::Reason;
use crate::naming::{OptionNames, is_among, is_of_line, is_origin};
use edge_types::skip_blanks;
use itoa::Buffer;
use std::alloc::{AllocError, Global};
use toml::{Table, Value};

/// What a line denotes.
#[derive(Drop)]
pub(crate) enum Line {
    /// Nothing: it is blank or a comment.
    Nothing,
    /// The rows below it are origins.
    Origins,
    /// An option has this value.
    Setting {
        /// `--NAME`, and of an origin `--origin=AUTHORITY`.
        subject: String,
        /// The words of the command line; none for a flag that isn't set.
        words: Vec<String>,
    },
}

/// A name and why its line is refused.
#[derive(Drop)]
pub(crate) struct LineFault {
    /// The name; empty where none can be read.
    pub name: String,
    /// The reason.
    pub reason: Reason,
}

/// What a line denotes, among options or among origins.
pub(crate) fn line_of(
    alloc: Global,
    names: &OptionNames<'_>,
    among_origins: bool,
    text: &str,
) -> Result<Result<Line, LineFault>, AllocError>
    ensures { IfOk result (λ found. spec.shown_line found ≡ spec.line_of names.now among_origins text.now (parse_document text.now)) }
{
    let table = match toml::table_from_str(alloc, text) {
        Ok(table) => table,
        Err(error) if error.is_memory() => return Err(AllocError),
        Err(_) => return Ok(Err(LineFault {
            name: String::new(alloc),
            reason: Reason::Form,
        })),
    };
    let Some((name, value)) = table.into_iter().next() else {
        return Ok(Ok(Line::Nothing));
    };
    let found = if is_header(text.as_bytes()) {
        Ok(header_of(among_origins, name.as_str(), &value))
    } else if among_origins {
        origin_of(alloc, name.as_str(), &value)
    } else {
        option_of(alloc, names, name.as_str(), &value)
    };
    match found? {
        Ok(line) => Ok(Ok(line)),
        Err(reason) => Ok(Err(LineFault { name, reason })),
    }
}

// Whether a line begins a table.
fn is_header(text: &[u8]) -> bool
    ensures { result ≡ spec.is_header text.now }
{
    skip_blanks(text).starts_with(b"[")
}

// What the beginning of a table denotes.
fn header_of(among_origins: bool, name: &str, value: &Value) -> Result<Line, Reason>
    ensures { spec.shown result ≡ spec.header_of among_origins name.now (view value.now) }
{
    if name != "origins" || !is_empty(value) {
        Err(Reason::Header)
    } else if among_origins {
        Err(Reason::Twice)
    } else {
        Ok(Line::Origins)
    }
}

// Whether a value is a table without rows.
fn is_empty(value: &Value) -> bool
    ensures { result ≡ spec.is_empty (view value.now) }
{
    match value.as_table() {
        Some(table) => table.iter().next().is_none(),
        None => false,
    }
}

// What a row of origins denotes.
fn origin_of(alloc: Global, name: &str, value: &Value) -> Result<Result<Line, Reason>, AllocError>
    ensures { IfOk result (λ found. spec.shown found ≡ spec.origin_of name.now (view value.now)) }
{
    valued(alloc, joined(alloc, "--origin=", name)?, value)
}

// What a row of options denotes.
fn option_of(
    alloc: Global,
    names: &OptionNames<'_>,
    name: &str,
    value: &Value,
) -> Result<Result<Line, Reason>, AllocError>
    ensures { IfOk result (λ found. spec.shown found ≡ spec.option_of names.now name.now (view value.now)) }
{
    if is_of_line(name) {
        Ok(Err(Reason::OfLine))
    } else if is_origin(name) || name == "origins" {
        Ok(Err(Reason::Origin))
    } else if is_among(names.flags.as_slice(), name) {
        flagged(alloc, joined(alloc, "--", name)?, value)
    } else if is_among(names.valued.as_slice(), name) {
        valued(alloc, joined(alloc, "--", name)?, value)
    } else if is_among(names.repeated.as_slice(), name) {
        repeated(alloc, joined(alloc, "--", name)?, value)
    } else {
        Ok(Err(Reason::Unknown))
    }
}

// What a flag with this value denotes.
fn flagged(
    alloc: Global,
    subject: String,
    value: &Value,
) -> Result<Result<Line, Reason>, AllocError>
    ensures { IfOk result (λ found. spec.shown found ≡ spec.flagged (string_bytes subject) (view value.now)) }
{
    match value.as_bool() {
        Some(true) => {
            let words = one(alloc, subject.clone()?)?;
            Ok(Ok(Line::Setting { subject, words }))
        }
        Some(false) => Ok(Ok(Line::Setting {
            subject,
            words: Vec::new(alloc),
        })),
        None => Ok(Err(Reason::NoFlag)),
    }
}

// What an option with this value denotes.
fn valued(alloc: Global, subject: String, value: &Value) -> Result<Result<Line, Reason>, AllocError>
    ensures { IfOk result (λ found. spec.shown found ≡ spec.valued (string_bytes subject) (view value.now)) }
{
    if let Some(text) = value.as_str() {
        return set(alloc, subject, text);
    }
    if let Some(number) = value.as_integer() {
        return set(alloc, subject, Buffer::new().format(number));
    }
    Ok(Err(if value.is_table() {
        Reason::Table
    } else {
        Reason::NoWord
    }))
}

// What an option with the value of this text denotes.
fn set(alloc: Global, subject: String, text: &str) -> Result<Result<Line, Reason>, AllocError>
    ensures { IfOk result (λ found. spec.shown found ≡ spec.set (string_bytes subject) text.now) }
{
    let words = one(alloc, word_of(alloc, subject.as_str(), text)?)?;
    Ok(Ok(Line::Setting { subject, words }))
}

// The word of an option with the value of this text.
fn word_of(alloc: Global, subject: &str, text: &str) -> Result<String, AllocError>
    ensures { IfOk result (λ word. string_bytes word ≡ spec.word_of subject.now text.now) }
{
    let mut word = joined(alloc, subject, "=")?;
    word.push_str(text)?;
    Ok(word)
}

// This word alone.
fn one(alloc: Global, word: String) -> Result<Vec<String>, AllocError>
    ensures { IfOk result (λ words. map string_bytes words.items ≡ string_bytes word ∷ []) }
{
    let mut words = Vec::new(alloc);
    push(&mut words, word)?;
    Ok(words)
}

// What an option that may be given more than once denotes with this value.
fn repeated(
    alloc: Global,
    subject: String,
    value: &Value,
) -> Result<Result<Line, Reason>, AllocError>
    ensures { IfOk result (λ found. spec.shown found ≡ spec.repeated (string_bytes subject) (view value.now)) }
{
    match value.as_array() {
        Some(elements) => listed(alloc, subject, elements.as_slice()),
        None => valued(alloc, subject, value),
    }
}

// What an option with these values denotes.
fn listed(
    alloc: Global,
    subject: String,
    elements: &[Value],
) -> Result<Result<Line, Reason>, AllocError>
    ensures { IfOk result (λ found. spec.shown found ≡ spec.listed (string_bytes subject) (items_view elements.now)) }
{
    match words_of(alloc, subject.as_str(), elements)? {
        Some(words) => Ok(Ok(Line::Setting { subject, words })),
        None => Ok(Err(Reason::NoList)),
    }
}

// The words of an option with these values; `None` if one of them is no string.
fn words_of(
    alloc: Global,
    subject: &str,
    elements: &[Value],
) -> Result<Option<Vec<String>>, AllocError>
    ensures { IfOk result (λ found. option_map (λ words. map string_bytes words.items) found ≡ spec.words_of subject.now (items_view elements.now)) }
{
    let mut words = Vec::new(alloc);
    let mut left = elements;
    while let [first, rest @ ..] = left {
        let Some(text) = first.as_str() else {
            return Ok(None);
        };
        let word = word_of(alloc, subject, text)?;
        push(&mut words, word)?;
        left = rest;
    }
    Ok(Some(words))
}

// Adds a word.
fn push(words: &mut Vec<String>, word: String) -> Result<(), AllocError>
    ensures { OnOk result (map string_bytes words.new.items ≡ map string_bytes words.old.items ++ string_bytes word ∷ []) }
{
    match words.push(word) {
        Ok(()) => Ok(()),
        Err(_) => Err(AllocError),
    }
}

// A text after another.
fn joined(alloc: Global, first: &str, last: &str) -> Result<String, AllocError>
    ensures { IfOk result (λ text. string_bytes text ≡ first.now ++ last.now) }
{
    let mut text = String::from_str(alloc, first)?;
    text.push_str(last)?;
    Ok(text)
}
