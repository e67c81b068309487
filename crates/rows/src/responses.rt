//! Responses, and the frames of their bodies.

use crate::row::{Line, number, pair};
use crate::values::fault_of;
use bytes::Bytes;
use edge_types::{Head, HeadField, HeadFields, Octets, Outcome, PageBody, SharedBytes, around};
use futures::FutureExt;
use futures::future::poll_fn;
use http::Response;
use http_body::Body;
use page_http::EdgeBody;
use std::alloc::Global;
use std::str;
use std::sync::Arc;

/// A row is `fault` and a fault's name; or a status, a type, and the pieces of a body, with a bar before each.
pub fn response_of(rt: &HostRuntime, row: &[u8], line: &mut Line) -> Option<()> {
    let outcome = Arc::new(rt.alloc(), outcome(rt.alloc(), row)?).ok()?;
    let response = page_http::response_of(rt.alloc(), outcome).ok()?;
    push_response(rt, line, response)
}

fn outcome(alloc: Global, row: &[u8]) -> Option<Outcome> {
    let (status, row) = pair(row);
    if status == b"fault".as_slice() {
        return Some(Outcome::Fault(fault_of(row)?));
    }
    let status = number(status)?;
    let (content_type, pieces) = around(b'|', row).unwrap_or((row, b""));
    let content_type = Octets::copy_of(alloc, content_type).ok()?;
    let mut body = PageBody::new(alloc);
    push_pieces(alloc, &mut body, pieces)?;
    Some(Outcome::Page {
        head: Head::of(status, content_type),
        body,
    })
}

fn push_pieces(alloc: Global, body: &mut PageBody, pieces: &[u8]) -> Option<()> {
    for piece in str::from_utf8(pieces).ok()?.split('|') {
        let piece = SharedBytes::copy_of(alloc, piece.as_bytes()).ok()?;
        body.push(piece).ok()?;
    }
    Some(())
}

// The status, how many fields there are, those that are known, and the body.
fn push_response(rt: &HostRuntime, line: &mut Line, response: Response<EdgeBody>) -> Option<()> {
    push_head(line, &response);
    push_frames(rt, line, &mut response.into_body())
}

fn push_head(line: &mut Line, response: &Response<EdgeBody>) {
    let fields = response.headers();
    line.display(&response.status().as_u16());
    line.push(", fields ");
    line.display(&fields.len());
    for name in ["content-type", "allow"] {
        if let Some(value) = fields.get(name) {
            line.push(", ");
            line.push(name);
            line.push(": ");
            line.show(value.as_bytes());
        }
    }
}

// How long the body says that it is, and its frames in brackets, up to its end.
fn push_frames(rt: &HostRuntime, line: &mut Line, body: &mut EdgeBody) -> Option<()> {
    line.push(", bytes ");
    line.display(&body.size_hint().exact()?);
    for _ in 0..u64::MAX {
        if body.is_end_stream() {
            break;
        }
        line.push(" [");
        line.show(next_frame(rt, body)?.as_slice());
        line.push("]");
    }
    Some(())
}

// The bytes of the next frame, which has to come.
fn next_frame(rt: &HostRuntime, body: &mut EdgeBody) -> Option<Bytes> {
    let next = poll_fn(|cx| body.poll_frame(cx));
    let frame = next.now_or_never(rt).ok()???;
    frame.ok()?.into_data().ok()
}

/// A row is fields with a bar between, each a name and, after a space, a value: whether an answer may have them, and
/// what is sent of a page with them.
pub fn fields(rt: &HostRuntime, row: &[u8], line: &mut Line) -> Option<()> {
    let mut head = Head::of(200, Octets::empty(rt.alloc()));
    head.fields = head_fields(rt.alloc(), row)?;
    line.push(if head.is_acceptable() {
        "accepted, "
    } else {
        "refused, "
    });
    let body = PageBody::new(rt.alloc());
    let outcome = Arc::new(rt.alloc(), Outcome::Page { head, body }).ok()?;
    let response = page_http::response_of(rt.alloc(), outcome).ok()?;
    line.display(&response.status().as_u16());
    push_fields(line, &response);
    Some(())
}

fn head_fields(alloc: Global, row: &[u8]) -> Option<HeadFields> {
    let mut fields = Vec::new(alloc);
    for field in str::from_utf8(row).ok()?.split('|') {
        let (name, value) = pair(field.as_bytes());
        let name = Octets::copy_of(alloc, name).ok()?;
        let value = Octets::copy_of(alloc, value).ok()?;
        fields.push(HeadField { name, value }).ok()?;
    }
    HeadFields::of(alloc, fields).ok()
}

fn push_fields(line: &mut Line, response: &Response<EdgeBody>) {
    for (name, value) in response.headers().iter() {
        line.push(", ");
        line.push(name.as_str());
        line.push(": ");
        line.show(value.as_bytes());
    }
}

/// A row is a status with which the edge refuses a request.
pub fn refusal_of(rt: &HostRuntime, row: &[u8], line: &mut Line) -> Option<()> {
    let status: u16 = number(row)?;
    match status {
        400 | 405 | 503 | 508 => {
            let response = page_http::refusal_of(rt.alloc(), status).ok()?;
            push_response(rt, line, response)
        }
        _ => None,
    }
}

/// A row is the number of a body's pieces, all of them owners of the same bytes, and the number of these bytes. The
/// frames are counted, and their bytes.
pub fn frames(rt: &HostRuntime, row: &[u8], line: &mut Line) -> Option<()> {
    let outcome = Arc::new(rt.alloc(), shared_page(rt.alloc(), row)?).ok()?;
    let response = page_http::response_of(rt.alloc(), outcome).ok()?;
    push_counts(rt, line, &mut response.into_body())
}

fn shared_page(alloc: Global, row: &[u8]) -> Option<Outcome> {
    let (count, len) = pair(row);
    let count: usize = number(count)?;
    let piece = SharedBytes::of(vec![in alloc; 0u8; number(len)?].ok()?).ok()?;
    let mut body = PageBody::new(alloc);
    for _ in 0..count {
        body.push(piece.share().ok()?).ok()?;
    }
    Some(Outcome::Page {
        head: Head::of(200, Octets::empty(alloc)),
        body,
    })
}

fn push_counts(rt: &HostRuntime, line: &mut Line, body: &mut EdgeBody) -> Option<()> {
    let mut frames: u64 = 0;
    let mut bytes: usize = 0;
    for _ in 0..u64::MAX {
        if body.is_end_stream() {
            break;
        }
        bytes = bytes.wrapping_add(next_frame(rt, body)?.len());
        frames = frames.wrapping_add(1);
    }
    line.display(&frames);
    line.push(" frames, ");
    line.display(&bytes);
    line.push(" bytes");
    Some(())
}
