//! Texts of a chosen length, and URLs.

use edge_types::{Answer, Control, NoMemory, Octets, PageUrl, SharedBytes};
use std::alloc::{AllocError, Global};
use std::fmt::Write;
use std::io;
use std::sync::Arc;

/// A choose of two branches, which asks for a cookie.
pub const CHOOSE: &str =
    "<esi:choose><esi:when test=\"$(HTTP_COOKIE{g})=='1'\">Y</esi:when><esi:otherwise>N</esi:otherwise></esi:choose>";

/// The front, then the unit again and again, cut off at this length.
pub fn repeated_behind(
    alloc: Global,
    front: &[u8],
    unit: &[u8],
    len: usize,
) -> Result<Vec<u8>, AllocError> {
    let mut text = Vec::with_capacity(alloc, len)?;
    text.extend_from_slice(front)?;
    for i in 0..len.saturating_sub(front.len()) {
        if let Some(byte) = i.checked_rem(unit.len()).and_then(|at| unit.get(at)) {
            text.push(*byte)?;
        }
    }
    Ok(text)
}

/// The unit again and again, cut off at this length.
pub fn repeated(alloc: Global, unit: &[u8], len: usize) -> Result<Vec<u8>, AllocError> {
    repeated_behind(alloc, b"".as_slice(), unit, len)
}

/// A page of this length with includes at even distances.
pub fn page_of_includes(alloc: Global, len: usize, includes: usize) -> Result<Vec<u8>, AllocError> {
    let mut out = Vec::with_capacity(alloc, len)?;
    let gap = len.checked_div(includes).unwrap_or(0).saturating_sub(40);
    let text = repeated(
        alloc,
        b"Plain words of a page, and no tag. ".as_slice(),
        gap,
    )?;
    for i in 0..includes {
        let mut tag = String::new(alloc);
        write!(tag, "<esi:include src=\"/fragment/{i}\"/>")?;
        out.extend_from_slice(text.as_slice())?;
        out.extend_from_slice(tag.as_bytes())?;
    }
    let rest = len.saturating_sub(out.len());
    let tail = repeated(alloc, b"end. ".as_slice(), rest)?;
    out.extend_from_slice(tail.as_slice())?;
    Ok(out)
}

/// The URL of a text that is one.
pub fn url(alloc: Global, text: &[u8]) -> io::Result<PageUrl> {
    match or_io_error(PageUrl::parse(alloc, text))? {
        Some(url) => Ok(url),
        None => Err(io::Error::from(io::ErrorKind::InvalidInput)),
    }
}

/// The URL of the fragment with a number.
pub fn fragment_url(alloc: Global, number: usize) -> io::Result<PageUrl> {
    let mut text = String::new(alloc);
    write!(text, "http://a.test/fragments/{number}")?;
    url(alloc, text.as_bytes())
}

/// The answer of a URL with this body, which must be within the limits.
pub fn answer(
    alloc: Global,
    url: PageUrl,
    control: Control,
    body: SharedBytes,
) -> io::Result<Arc<Answer>> {
    match Answer::got(url, 200, Octets::empty(alloc), control, body) {
        Some(answer) => Ok(Arc::new(alloc, answer)?),
        None => Err(io::Error::from(io::ErrorKind::InvalidInput)),
    }
}

/// Out of memory as an I/O error, with which a benchmark ends.
pub fn or_io_error<T>(made: Result<T, NoMemory>) -> io::Result<T> {
    match made {
        Ok(value) => Ok(value),
        Err(NoMemory) => Err(io::Error::from(io::ErrorKind::OutOfMemory)),
    }
}

/// A text that can't be read as an I/O error; what was read is dropped.
pub fn or_input_error<T: Drop, E: Drop>(read: Result<T, E>) -> io::Result<()> {
    match read {
        Ok(_) => Ok(()),
        Err(_) => Err(io::Error::from(io::ErrorKind::InvalidInput)),
    }
}
