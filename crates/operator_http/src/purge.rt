//! Which of the answers that a server keeps go.

ghost use Rattle.std.specs.Prelude.{◌≡◌, IfOk};
ghost use Rattle.operator_http.specs.Purged as spec;
ghost use Rattle.percent_encoding.specs.Percent as percent;

use edge_types::{NoMemory, Octets, PageUrl};
use percent_encoding::percent_decode;
use std::alloc::Global;

/// Which answers an operator wants to go.
#[derive(Drop)]
pub enum Purge {
    /// That of this URL.
    Url(PageUrl),
    /// Those of all URLs that begin with these bytes, of which there is one at least.
    Prefix(Octets),
}

/// Which answers a query wants to go: `url=` or `prefix=`, and all that follows is the text, percent-decoded, so a URL may
/// stand there as it is, with `?` and `&`. `None` for another query, a text that is no URL of a page, and an empty prefix,
/// since a slip of the hand isn't to empty a cache.
///
/// Source: RFC 3986, "Percent-Encoding"; the words are our profile.
pub fn purge_of(alloc: Global, query: &[u8]) -> Result<Option<Purge>, NoMemory>
    ensures { IfOk result (λ purge. purge ≡ spec.purged_by query.now) }
{
    if let Some(text) = query.strip_prefix(b"url=".as_slice()) {
        return of_url(alloc, text);
    }
    match query.strip_prefix(b"prefix=".as_slice()) {
        Some(text) => of_prefix(alloc, text),
        None => Ok(None),
    }
}

fn of_url(alloc: Global, text: &[u8]) -> Result<Option<Purge>, NoMemory>
    ensures { IfOk result (λ purge. purge ≡ spec.of_url text.now) }
{
    let text = decoded(alloc, text)?;
    match PageUrl::parse(alloc, text.as_slice())? {
        Some(url) => Ok(Some(Purge::Url(url))),
        None => Ok(None),
    }
}

fn of_prefix(alloc: Global, text: &[u8]) -> Result<Option<Purge>, NoMemory>
    ensures { IfOk result (λ purge. purge ≡ spec.of_prefix text.now) }
{
    let prefix = decoded(alloc, text)?;
    if prefix.is_empty() {
        return Ok(None);
    }
    Ok(Some(Purge::Prefix(Octets::of(prefix))))
}

// A text with each escape replaced by its byte.
fn decoded(alloc: Global, text: &[u8]) -> Result<Vec<u8>, NoMemory>
    ensures { IfOk result (λ decoded. decoded.items ≡ percent.percent_decode text.now) }
{
    let mut decoded = Vec::new(alloc);
    percent_decode(text).append_to(&mut decoded)?;
    Ok(decoded)
}
