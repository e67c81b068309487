//! The URLs that an edge fetches.
ghost use Rattle.std.specs.Prelude.{◌≡◌, ◌↔◌, None, Some, IfOk, IsErr};

use crate::no_memory::NoMemory;
use std::alloc::Global;
use std::marker::Model;
use std::str;
use std::sync::Arc;
use url::{ParseError, Url};

/// The longest text that is resolved.
pub const MAX_TEXT: usize = 8192;
/// The longest URL that is fetched.
pub const MAX_URL: usize = 2048;

/// A URL that an edge fetches. Contracts see its bytes.
#[derive(Drop)]
pub struct PageUrl {
    url: Arc<Url>,
}

impl Model for PageUrl {
    ghost use Rattle.std.specs.Prelude.{List, ℕ};

    ghost Value = { List ℕ };

    ghost use Rattle.edge_types.specs.Asked.{IsAsked, url_text};

    ghost view = { λ u. url_text u.url.value };

    ghost invariant = { λ u. IsAsked u.url.value };
}

impl PageUrl {
    ghost use Rattle.edge_types.specs.Asked.{asked, resolve, authority_of};

    /// The URL that a text denotes on its own, without its `#` part.
    ///
    /// `None` if the text is longer than `MAX_TEXT` bytes, isn't UTF-8 or isn't a URL, and
    /// if the URL isn't `http`, has a user name or a password, or is longer than `MAX_URL`
    /// bytes.
    pub fn parse(alloc: Global, text: &[u8]) -> Result<Option<PageUrl>, NoMemory>
        ensures { IfOk result (λ found. found ≡ asked None text.now) }
    {
        let Some(text) = resolvable(text) else {
            return Ok(None);
        };
        match Url::parse(alloc, text) {
            Ok(url) => PageUrl::of(alloc, url),
            Err(e) => refused(e),
        }
    }

    /// The URL that a text denotes in a template at this one; `None` as in `parse`.
    pub fn resolve(&self, alloc: Global, text: &[u8]) -> Result<Option<PageUrl>, NoMemory>
        ensures { IfOk result (λ found. found ≡ resolve self.now text.now) }
    {
        join(alloc, &self.url, text)
    }

    /// The URL's bytes. A URL denotes itself. Takes no memory.
    #[tactic(auto, unfolding(crate::specs::Asked::url_text))]
    pub fn as_bytes(&self) -> &[u8]
        ensures value { result.now ≡ self.now }
        ensures asked { asked None self.now ≡ Some self.now }
    {
        self.url.as_str().as_bytes()
    }

    /// The host, followed by `:port` if that isn't 80. Takes no memory.
    pub fn authority(&self) -> &[u8]
        ensures { result.now ≡ authority_of self.now }
    {
        self.url.authority().as_bytes()
    }

    /// A second owner of the URL.
    pub fn share(&self) -> Result<PageUrl, NoMemory>
        ensures { IfOk result (λ u. u ≡ self.now) }
    {
        Ok(PageUrl {
            url: Arc::try_clone(&self.url)?,
        })
    }
}

impl PageUrl {
    ghost use Rattle.edge_types.specs.Asked.{asked_of};

    // The URL without its fragment, if the edge fetches it.
    #[tactic(auto, using(crate::proofs::AskedLemmas::is_asked), unfolding(crate::specs::Asked::asked_of))]
    fn of(alloc: Global, mut url: Url) -> Result<Option<PageUrl>, NoMemory>
        ensures { IfOk result (λ found. found ≡ asked_of url) }
    {
        match url.set_fragment(None) {
            Ok(()) => {}
            Err(_) => return Err(NoMemory),
        }
        if !is_page(&url) {
            return Ok(None);
        }
        Ok(Some(PageUrl {
            url: Arc::new(alloc, url)?,
        }))
    }
}

ghost use Rattle.edge_types.specs.Asked.{resolvable, is_page};
ghost use Rattle.std.specs.Option.{option_copied};
ghost use Rattle.url.specs.Parts.{IsValid};
ghost use Rattle.url.specs.Parser.{IsOutOfRoom};
ghost use Rattle.edge_types.specs.Asked.{asked};

// The URL that a text denotes relative to a base.
fn join(alloc: Global, base: &Url, text: &[u8]) -> Result<Option<PageUrl>, NoMemory>
    ensures { IfOk result (λ found. found ≡ asked (Some base.now) text.now) }
{
    let Some(text) = resolvable(text) else {
        return Ok(None);
    };
    match base.join(text) {
        Ok(url) => PageUrl::of(alloc, url),
        Err(e) => refused(e),
    }
}

// What a parser's error means: out of memory, or not a URL.
fn refused(e: ParseError) -> Result<Option<PageUrl>, NoMemory>
    ensures none { IfOk result (λ found. found ≡ None) }
    ensures room { IsErr result ↔ IsOutOfRoom e }
{
    match e {
        ParseError::OutOfMemory | ParseError::Overflow => Err(NoMemory),
        _ => Ok(None),
    }
}

// Whether the edge fetches the URL.
#[tactic(auto, using(crate::proofs::AskedLemmas::none_if_empty), unfolding(crate::specs::Asked::is_page, crate::specs::Asked::url_text))]
fn is_page(url: &Url) -> bool
    ensures value { result ≡ is_page url.now }
    ensures valid { IsValid url.now }
{
    url.as_str().len() <= MAX_URL
        && url.scheme() == "http"
        && url.username().is_empty()
        && url.password().is_none()
}

// The text, if it is short enough and UTF-8.
#[tactic(auto, unfolding(crate::specs::Asked::resolvable))]
fn resolvable(text: &[u8]) -> Option<&str>
    ensures { option_copied result ≡ resolvable text.now }
{
    if text.len() > MAX_TEXT {
        return None;
    }
    match str::from_utf8(text) {
        Ok(text) => Some(text),
        Err(_) => None,
    }
}
