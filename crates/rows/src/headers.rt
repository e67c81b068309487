//! What origins say of their answers, and what this edge says to them.

use crate::row::Line;
use edge_types::{Control, around, is_token};
use std::alloc::Global;
use surrogate_headers::{own_capability, own_device};

/// A row is the value of a field `Surrogate-Control`: what it asks of this edge.
pub fn control(row: &[u8], line: &mut Line) -> Option<()> {
    push_control(surrogate_headers::control(row, own_device()), line);
    Some(())
}

/// A row is the value of a field `Cache-Control`, maybe a `|` and that of `Surrogate-Control`, and maybe a `|` and
/// a cookie: what is asked of an edge that heeds both fields.
pub fn heeding(row: &[u8], line: &mut Line) -> Option<()> {
    let (cache_control, rest) = around(b'|', row).unwrap_or((row, b""));
    let (asked, cookie) = around(b'|', rest).unwrap_or((rest, b""));
    let asked = surrogate_headers::control(asked, own_device());
    let heeded = surrogate_headers::heeding(asked, cache_control, !cookie.is_empty());
    push_control(heeded, line);
    Some(())
}

fn push_control(asked: Control, line: &mut Line) {
    if asked == Control::default() {
        line.push("nothing");
    }
    if asked.no_store {
        line.word("no-store");
    }
    if let Some(seconds) = asked.max_age {
        line.word("max-age=");
        line.display(&seconds);
    }
    if asked.extension > 0 {
        line.word("+");
        line.display(&asked.extension);
    }
    if asked.esi {
        line.word("esi");
    }
}

/// Whether a row is a token of HTTP.
pub fn token(row: &[u8], line: &mut Line) -> Option<()> {
    line.push(if is_token(row) { "a token" } else { "no token" });
    Some(())
}

/// A row is the name of a device, or `own` for this edge, whose field is printed whole.
pub fn capability(alloc: Global, row: &[u8], line: &mut Line) -> Option<()> {
    if row == b"own".as_slice() {
        let (name, value) = own_capability();
        line.push(name);
        line.push(": ");
        line.push(value);
    } else if is_token(row) {
        line.show(surrogate_headers::capability(alloc, row).ok()?.as_slice());
    }
    Some(())
}
