//! References and tests, and their values for a request.

use crate::row::{Line, number, pair};
use edge_types::{Request, SharedBytes};
use esi_vars::{Lookups, Part, Reference, Variable};
use std::alloc::Global;

/// A request with this cookie.
fn request(alloc: Global, cookie: &[u8]) -> Option<Request> {
    let mut request = Request::empty();
    request.cookie = SharedBytes::copy_of(alloc, cookie).ok()?;
    Some(request)
}

/// The parts of a text.
pub fn parts_of(alloc: Global, text: &[u8]) -> Option<Vec<Part>> {
    let text = SharedBytes::copy_of(alloc, text).ok()?;
    esi_vars::parts(alloc, &text).ok()
}

/// The parts of a row, with a bar after each.
pub fn parts(alloc: Global, row: &[u8], line: &mut Line) -> Option<()> {
    for part in &parts_of(alloc, row)? {
        push_part(line, part);
        line.push("|");
    }
    Some(())
}

pub fn push_parts(line: &mut Line, parts: &[Part]) {
    for part in parts {
        push_part(line, part);
    }
}

fn push_part(line: &mut Line, part: &Part) {
    match part {
        Part::Text(bytes) => line.show(bytes.as_bytes()),
        Part::Reference(reference) => push_reference(line, reference),
    }
}

// A reference is printed as it is written, with its default in quotes.
fn push_reference(line: &mut Line, reference: &Reference) {
    line.push("$(");
    line.show(match &reference.variable {
        Variable::HttpAcceptLanguage => b"HTTP_ACCEPT_LANGUAGE",
        Variable::HttpCookie => b"HTTP_COOKIE",
        Variable::HttpHost => b"HTTP_HOST",
        Variable::HttpReferer => b"HTTP_REFERER",
        Variable::HttpUserAgent => b"HTTP_USER_AGENT",
        Variable::QueryString => b"QUERY_STRING",
        Variable::Unknown(name) => name.as_bytes(),
    });
    if let Some(key) = &reference.key {
        line.push("{");
        line.show(key.as_bytes());
        line.push("}");
    }
    if let Some(default) = &reference.default {
        line.push("|'");
        line.show(default.as_bytes());
        line.push("'");
    }
    line.push(")");
}

/// A row is the cookie and, after a space, the text.
pub fn substitute(alloc: Global, row: &[u8], line: &mut Line) -> Option<()> {
    let (cookie, text) = pair(row);
    let request = request(alloc, cookie)?;
    let parts = parts_of(alloc, text)?;
    let found = esi_vars::substitute(alloc, &request, parts.as_slice()).ok()?;
    line.show(found.as_slice());
    Some(())
}

/// A row is the limit, the cookie and the text.
pub fn substitute_within(alloc: Global, row: &[u8], line: &mut Line) -> Option<()> {
    let (limit, row) = pair(row);
    let limit = number(limit)?;
    let (cookie, text) = pair(row);
    let request = request(alloc, cookie)?;
    let parts = parts_of(alloc, text)?;
    let mut lookups = Lookups::none();
    let found = esi_vars::substitute_within(alloc, &request, parts.as_slice(), limit, &mut lookups);
    match found.ok()? {
        Some(text) => line.show(text.as_slice()),
        None => line.push("too long"),
    }
    Some(())
}

/// A row is the cookie and the text; the reference's value is printed and, after a bar, what follows it.
pub fn reference_at(alloc: Global, row: &[u8], line: &mut Line) -> Option<()> {
    let (cookie, text) = pair(row);
    let request = request(alloc, cookie)?;
    match &esi_vars::reference_at(alloc, text).ok()? {
        Some((reference, rest)) => {
            line.show(esi_vars::value(&request, reference));
            line.push("|");
            line.show(rest);
        }
        None => line.push("no reference"),
    }
    Some(())
}

/// A row is the cookie and, after a space, the test.
pub fn holds(alloc: Global, row: &[u8], line: &mut Line) -> Option<()> {
    let (cookie, text) = pair(row);
    let request = request(alloc, cookie)?;
    line.push(match &esi_expr::parse(alloc, text).ok()? {
        Some(test) if test.holds(&request) => "holds",
        Some(_) => "fails",
        None => "no test",
    });
    Some(())
}
