//! What calls are given: URLs, answers and a request.

use edge_types::{Answer, Control, Octets, PageUrl, Request, SharedBytes};
use std::alloc::Global;
use std::sync::Arc;

/// The URL of a path.
pub fn url(alloc: Global, path: &str) -> Option<PageUrl> {
    let text = format!(in alloc; "http://a.test{path}").ok()?;
    PageUrl::parse(alloc, text.as_bytes()).ok()?
}

/// An answer of status 200, of HTML.
pub fn answer(alloc: Global, path: &str, control: Control, body: &str) -> Option<Arc<Answer>> {
    let body = SharedBytes::copy_of(alloc, body.as_bytes()).ok()?;
    let html = Octets::copy_of(alloc, b"text/html").ok()?;
    let answer = Answer::got(url(alloc, path)?, 200, html, control, body)?;
    Arc::new(alloc, answer).ok()
}

/// What the origin says of an answer whose body is processed.
pub fn processed() -> Control {
    Control {
        esi: true,
        ..Control::default()
    }
}

/// What it says of one that may be kept for a minute, and be used for another minute if the origin fails.
pub fn stored() -> Control {
    Control {
        max_age: Some(60),
        extension: 60,
        ..Control::default()
    }
}

/// A request with some fields and a query.
pub fn request(alloc: Global) -> Option<Request> {
    let mut request = Request::empty();
    request.host = SharedBytes::copy_of(alloc, b"a.test").ok()?;
    request.cookie = SharedBytes::copy_of(alloc, b"c=1").ok()?;
    request.referer = SharedBytes::copy_of(alloc, b"r").ok()?;
    request.user_agent = SharedBytes::copy_of(alloc, b"u").ok()?;
    request.accept_language = SharedBytes::copy_of(alloc, b"l").ok()?;
    request.query = SharedBytes::copy_of(alloc, b"q=1").ok()?;
    Some(request)
}
