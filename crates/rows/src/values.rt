//! URLs, answers, tables and bodies.

use crate::row::{Line, number, pair};
use edge_types::{
    Answer, Control, Octets, PageBody, PageFault, PageUrl, Reply, SharedBytes, Table, around,
    is_ws, query_of,
};
use std::alloc::Global;
use std::str;
use std::sync::Arc;

/// The URL of a text that is one.
pub fn url(alloc: Global, text: &[u8]) -> Option<PageUrl> {
    PageUrl::parse(alloc, text).ok()?
}

/// An answer without a type: its URL, status, what it asks, and body.
pub fn answer(
    alloc: Global,
    url: &PageUrl,
    status: u16,
    control: Control,
    body: &[u8],
) -> Option<Arc<Answer>> {
    let url = url.share().ok()?;
    let body = SharedBytes::copy_of(alloc, body).ok()?;
    let answer = Answer::got(url, status, Octets::empty(alloc), control, body)?;
    Arc::new(alloc, answer).ok()
}

pub fn push_url(line: &mut Line, found: &Option<PageUrl>) {
    match found {
        Some(url) => line.show(url.as_bytes()),
        None => line.push("no URL"),
    }
}

pub fn parse(alloc: Global, row: &[u8], line: &mut Line) -> Option<()> {
    push_url(line, &PageUrl::parse(alloc, row).ok()?);
    Some(())
}

/// A row is the base and, after a space, the text.
pub fn resolve(alloc: Global, row: &[u8], line: &mut Line) -> Option<()> {
    let (base, text) = pair(row);
    push_url(line, &url(alloc, base)?.resolve(alloc, text).ok()?);
    Some(())
}

pub fn authority(alloc: Global, row: &[u8], line: &mut Line) -> Option<()> {
    line.show(url(alloc, row)?.authority());
    Some(())
}

/// A row is two URLs.
pub fn compare(alloc: Global, row: &[u8], line: &mut Line) -> Option<()> {
    let (left, right) = pair(row);
    line.debug(&url(alloc, left)?.cmp(&url(alloc, right)?));
    Some(())
}

/// The query of a URL.
pub fn query(row: &[u8], line: &mut Line) -> Option<()> {
    line.show(query_of(row));
    Some(())
}

/// A row is two bytes as numbers; those in this range that are white space are printed.
pub fn white_space(row: &[u8], line: &mut Line) -> Option<()> {
    let (first, last) = pair(row);
    for byte in number::<u8>(first)?..=number(last)? {
        if is_ws(byte) {
            line.show(&[byte]);
        }
    }
    Some(())
}

/// The halves of a row around its first `=`, with a bar between.
pub fn halves(row: &[u8], line: &mut Line) -> Option<()> {
    match around(b'=', row) {
        Some((before, after)) => {
            line.show(before);
            line.push("|");
            line.show(after);
        }
        None => line.push("no halves"),
    }
    Some(())
}

/// A row is the URL, the status, `esi` or `plain`, and the type and, after a bar, the body.
pub fn got(alloc: Global, row: &[u8], line: &mut Line) -> Option<()> {
    let (at, row) = pair(row);
    let (status, row) = pair(row);
    let (word, row) = pair(row);
    let (content_type, body) = around(b'|', row)?;
    let control = Control {
        esi: word == b"esi".as_slice(),
        ..Control::default()
    };
    let status = number(status)?;
    let url = url(alloc, at)?;
    let content_type = Octets::copy_of(alloc, content_type).ok()?;
    let body = SharedBytes::copy_of(alloc, body).ok()?;
    match &Answer::got(url, status, content_type, control, body) {
        Some(answer) => push_answer(line, answer),
        None => line.push("no answer"),
    }
    Some(())
}

/// A row is a URL.
pub fn failed(alloc: Global, row: &[u8], line: &mut Line) -> Option<()> {
    push_answer(line, &Answer::failed(url(alloc, row)?));
    Some(())
}

fn push_answer(line: &mut Line, answer: &Answer) {
    if answer.succeeded() {
        line.push("succeeded ");
    }
    if answer.processed() {
        line.push("processed ");
    }
    if matches!(answer.reply(), Reply::Failed) {
        line.push("failed ");
    }
    line.show(answer.url().as_bytes());
    line.push("|");
    line.show(answer.body());
}

/// A row is calls of a new table, with `; ` between: `insert` and `get`, each with a URL, which is also the body of
/// an answer.
pub fn table(alloc: Global, row: &[u8], line: &mut Line) -> Option<()> {
    let calls = str::from_utf8(row).ok()?;
    let mut table = Table::new(alloc);
    for call in calls.split("; ") {
        call_table(alloc, &mut table, call.as_bytes(), line)?;
    }
    Some(())
}

fn call_table(alloc: Global, table: &mut Table, call: &[u8], line: &mut Line) -> Option<()> {
    let (name, at) = pair(call);
    let url = url(alloc, at)?;
    line.space();
    match name {
        b"insert" => insert(alloc, table, url, line)?,
        b"get" => line.show(table.get(&url).map_or(b"none".as_slice(), |it| it.body())),
        _ => return None,
    }
    line.push(";");
    Some(())
}

fn insert(alloc: Global, table: &mut Table, url: PageUrl, line: &mut Line) -> Option<()> {
    let body = SharedBytes::copy_of(alloc, url.as_bytes()).ok()?;
    let given = Answer::got(url, 200, Octets::empty(alloc), Control::default(), body)?;
    match table.insert(Arc::new(alloc, given).ok()?) {
        Ok(()) => line.push("taken"),
        Err((fault, back)) => {
            line.debug(&fault);
            line.push(", back is ");
            line.show(back.url().as_bytes());
        }
    }
    Some(())
}

/// A row is a text, and calls of a new body with a bar before each: `FROM TO` adds this part of the text, `mark` marks
/// a place, and `cut` goes back to it.
pub fn body(alloc: Global, row: &[u8], line: &mut Line) -> Option<()> {
    let (whole, calls) = around(b'|', row)?;
    let calls = str::from_utf8(calls).ok()?;
    let whole = SharedBytes::copy_of(alloc, whole).ok()?;
    let mut body = PageBody::new(alloc);
    let mut mark = 0;
    for call in calls.split('|') {
        match call {
            "mark" => mark = body.mark(),
            "cut" => body.cut(mark),
            _ => push_part(&mut body, &whole, call.as_bytes())?,
        }
    }
    push_pieces(line, &body);
    Some(())
}

fn push_part(body: &mut PageBody, whole: &SharedBytes, call: &[u8]) -> Option<()> {
    let (from, to) = pair(call);
    let from: usize = number(from)?;
    let to: usize = number(to)?;
    if to < from || whole.len() < to {
        return None;
    }
    body.push(whole.part(from, to).ok()?).ok()
}

/// Pushes the pieces of a body, with a bar after each.
pub fn push_pieces(line: &mut Line, body: &PageBody) {
    for number in 0..body.mark() {
        line.show(body.piece(number).unwrap_or(b""));
        line.push("|");
    }
}

/// The fault with a name.
pub fn fault_of(row: &[u8]) -> Option<PageFault> {
    match row {
        b"PageFetch" => Some(PageFault::PageFetch),
        b"BadTemplate" => Some(PageFault::BadTemplate(13)),
        b"IncludeFailed" => Some(PageFault::IncludeFailed),
        b"TooManyLegs" => Some(PageFault::TooManyLegs),
        _ => None,
    }
}

/// A row is the name of a fault.
pub fn page_fault(row: &[u8], line: &mut Line) -> Option<()> {
    let fault = fault_of(row)?;
    line.display(&fault.number());
    line.word(fault.name());
    Some(())
}
