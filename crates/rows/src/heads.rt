//! Heads of requests.

use crate::row::{Line, number, pair};
use edge_types::{PageUrl, Request, RequestField, around};
use page_http::Field;
use std::alloc::Global;
use std::str;

/// A row is the method and, after a space, the target; then come the lines, with a bar before each.
pub fn answer_head(alloc: Global, row: &[u8], line: &mut Line) -> Option<()> {
    let (method, row) = pair(row);
    let (target, lines) = around(b'|', row).unwrap_or((row, b""));
    let fields = fields(alloc, lines)?;
    match &page_http::answer_head(alloc, method, target, fields.as_slice()) {
        Ok((url, request)) => push_asked(line, url, &request.copy(alloc).ok()?),
        Err(fault) => line.debug(fault),
    }
    Some(())
}

fn fields(alloc: Global, lines: &[u8]) -> Option<Vec<Field<'_>>> {
    let mut fields = Vec::new(alloc);
    for line in str::from_utf8(lines).ok()?.split('|') {
        let (name, value) = pair(line.as_bytes());
        if !name.is_empty() {
            fields.push(Field { name, value }).ok()?;
        }
    }
    Some(fields)
}

// The page that is asked for, and each field and the query, with a bar after each.
fn push_asked(line: &mut Line, url: &PageUrl, request: &Request) {
    push_part(line, url.as_bytes());
    for field in RequestField::ALL {
        push_part(line, request.field(field).as_bytes());
    }
    push_part(line, request.query.as_bytes());
}

fn push_part(line: &mut Line, bytes: &[u8]) {
    line.show(bytes);
    line.push("|");
}

/// A row is an edge's name and, after a space, the lines of a head, with a bar before each.
pub fn has_passed(alloc: Global, row: &[u8], line: &mut Line) -> Option<()> {
    let (name, lines) = pair(row);
    let fields = fields(alloc, lines)?;
    line.debug(&page_http::has_passed(name, fields.as_slice()));
    Some(())
}

/// A row is the lines of a head, with a bar before each; what is printed has a bar after it.
pub fn passed_edges(alloc: Global, row: &[u8], line: &mut Line) -> Option<()> {
    let fields = fields(alloc, row)?;
    let edges = page_http::passed_edges(alloc, fields.as_slice()).ok()?;
    push_part(line, edges.as_slice());
    Some(())
}

/// A row is names with commas between, and the lines of a head, with a bar before each; what is printed has a bar after it.
pub fn cookies_named(alloc: Global, row: &[u8], line: &mut Line) -> Option<()> {
    let (names, lines) = around(b'|', row).unwrap_or((row, b""));
    let fields = fields(alloc, lines)?;
    let cookies = page_http::cookies_named(alloc, names, fields.as_slice()).ok()?;
    push_part(line, cookies.as_slice());
    Some(())
}

/// A row is names with commas between, and the lines of a head, with a bar before each, as is each that is printed.
pub fn lines_named(alloc: Global, row: &[u8], line: &mut Line) -> Option<()> {
    let (names, lines) = around(b'|', row).unwrap_or((row, b""));
    let fields = fields(alloc, lines)?;
    let named = page_http::lines_named(alloc, names, fields.as_slice()).ok()?;
    for field in named.as_slice() {
        line.push("|");
        line.show(field.name.as_bytes());
        line.push(" ");
        line.show(field.value.as_bytes());
    }
    Some(())
}

/// A row is two bytes as numbers; those in this range that may be in a host are printed.
pub fn hosts(alloc: Global, row: &[u8], line: &mut Line) -> Option<()> {
    let (first, last) = pair(row);
    for byte in number::<u8>(first)?..=number(last)? {
        if is_host(alloc, &[byte]) {
            line.show(&[byte]);
        }
    }
    Some(())
}

fn is_host(alloc: Global, value: &[u8]) -> bool {
    let fields = [Field {
        name: b"host",
        value,
    }];
    page_http::answer_head(alloc, b"GET", b"http://b.test/", &fields).is_ok()
}
