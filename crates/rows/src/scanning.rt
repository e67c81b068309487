//! Tokens: their places, and what each is.

use crate::row::{Line, number, pair};
use esi_scanner::{Attributes, Kind, KnownAttribute, ScanFault, Tag, Token};
use std::alloc::Global;

/// A token is printed by its place and what it is, a tag by its name and its attributes.
pub fn scan(alloc: Global, row: &[u8], line: &mut Line) -> Option<()> {
    match esi_scanner::scan(alloc, row) {
        Ok(tokens) => {
            for token in &tokens {
                push_token(line, token);
            }
        }
        Err(ScanFault::Malformed(at)) => {
            line.push("malformed ");
            line.display(&at);
        }
        Err(ScanFault::NoMemory) => return None,
    }
    Some(())
}

fn push_token(line: &mut Line, token: &Token) {
    line.space();
    line.display(&token.span.start);
    line.push("-");
    line.display(&token.span.end);
    line.push(" ");
    match &token.kind {
        Kind::Text => line.push("text"),
        Kind::Open(tag) => push_tag(line, tag),
        Kind::Close(name) => {
            line.push("/");
            line.show(name.as_bytes());
        }
        Kind::Remove => line.push("remove"),
        Kind::BlockStart => line.push("start"),
        Kind::BlockEnd => line.push("end"),
    }
    line.push(";");
}

fn push_tag(line: &mut Line, tag: &Tag) {
    line.show(tag.name.as_bytes());
    for attribute in tag.attributes.as_slice() {
        line.space();
        line.show(attribute.name.as_bytes());
        line.push("=");
        line.show(attribute.value.as_bytes());
    }
    line.push(if tag.closed { "/" } else { "" });
}

/// The values of those attributes of the first tag that have a known name.
pub fn attributes(alloc: Global, row: &[u8], line: &mut Line) -> Option<()> {
    let tokens = esi_scanner::scan(alloc, row).ok()?;
    match &tokens.first()?.kind {
        Kind::Open(tag) => push_values(line, &tag.attributes),
        _ => return None,
    }
    Some(())
}

fn push_values(line: &mut Line, attributes: &Attributes) {
    for (word, name) in [
        ("src ", KnownAttribute::Src),
        ("alt ", KnownAttribute::Alt),
        ("onerror ", KnownAttribute::OnError),
        ("name ", KnownAttribute::Name),
        ("test ", KnownAttribute::Test),
    ] {
        if let Some(value) = attributes.value(name) {
            line.word(word);
            line.show(value);
            line.push(";");
        }
    }
}

/// A row is the place of an opener and, after a space, the text.
pub fn trouble_at(alloc: Global, row: &[u8], line: &mut Line) -> Option<()> {
    let (at, text) = pair(row);
    let trouble = esi_scanner::trouble_at(alloc, text, number(at)?).ok()?;
    line.debug(&trouble.problem);
    line.push(" at ");
    line.display(&trouble.place);
    Some(())
}
