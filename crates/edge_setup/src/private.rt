//! The URLs whose answers are one reader's own, and what of the reader their origins are told.
ghost use Rattle.std.specs.Prelude.{◌≡◌, map, option_map, IfOk, MatchResult};
ghost use Rattle.clap.specs.Words.{found_of, rows_of};
ghost use Rattle.edge_setup.specs.Private as spec;
ghost use Rattle.edge_setup.specs.Words.{HasAddresses, HasLog, HasNumbers, HasTokens, IsRefusedBy, SaysPrivate};

use crate::lists::{is_comma, members_of};
use crate::origin::has_byte;
use crate::setup::{Named, SetupFault};
use crate::told_fields::told_said;
use crate::word::Word;
use crate::words::MAX_TOKEN;
use clap::ArgMatches;
use edge_types::{NoMemory, PageUrl, is_token, trimmed};
use std::alloc::Global;

/// What is one reader's own.
#[derive(Drop)]
pub(crate) struct Private<'a> {
    /// The prefixes of its URLs.
    pub prefixes: Vec<PageUrl>,
    /// The names of the cookies by which it is fetched, with commas between, where there are some.
    pub cookies: Option<&'a str>,
    /// The names of the reader's fields that go with it, with commas between, where there are some.
    pub told: Option<&'a str>,
}

/// What the options say is one reader's own.
pub(crate) fn private_of<'a>(
    alloc: Global,
    matches: &ArgMatches<'a>,
) -> Result<Private<'a>, SetupFault>
    ensures { let rows = rows_of (found_of matches.now) in
        MatchResult result (SaysPrivate rows) (λ fault. HasAddresses rows → HasNumbers rows → HasLog rows → HasTokens rows → IsRefusedBy rows fault) }
{
    let Some(prefixes) = prefixes_of(alloc, Word::Private.said(matches))? else {
        return Err(SetupFault::Wrong(Named::Private));
    };
    let Some(cookies) = cookies_of(has_private(matches), Word::PrivateCookies.said(matches)) else {
        return Err(SetupFault::Wrong(Named::PrivateCookies));
    };
    let Some(told) = told_said(matches) else {
        return Err(SetupFault::Wrong(Named::ForwardFields));
    };
    Ok(Private {
        prefixes,
        cookies,
        told,
    })
}

/// Whether the options name private URLs.
pub(crate) fn has_private(matches: &ArgMatches<'_>) -> bool
    ensures { result ≡ spec.has_private (rows_of (found_of matches.now)) }
{
    Word::Private.said(matches).is_some()
}

// The prefixes that a word writes; `None` if one of them is none.
fn prefixes_of(alloc: Global, word: Option<&str>) -> Result<Option<Vec<PageUrl>>, NoMemory>
    ensures { IfOk result (λ found. option_map (λ prefixes. prefixes.items) found ≡ spec.prefixes_of (option_map (λ w. w.now) word.entry)) }
{
    let Some(text) = word else {
        return Ok(Some(Vec::new(alloc)));
    };
    let texts = members_of(alloc, text.as_bytes())?;
    prefixes_among(alloc, texts.as_slice())
}

// The prefixes that texts are; `None` if one of them is none.
fn prefixes_among(alloc: Global, texts: &[&[u8]]) -> Result<Option<Vec<PageUrl>>, NoMemory>
    ensures { IfOk result (λ found. option_map (λ prefixes. prefixes.items) found ≡ spec.prefixes_among (map (λ text. text.now) texts.now)) }
{
    let mut prefixes = Vec::new(alloc);
    for text in texts {
        let Some(prefix) = prefix_of(alloc, text)? else {
            return Ok(None);
        };
        prefixes.push(prefix)?;
    }
    Ok(Some(prefixes))
}

// The prefix that a text is. One with a `*` would be read as a pattern, which it isn't.
#[tactic(auto, unfolding(crate::specs::Private::is_prefix))]
fn prefix_of(alloc: Global, text: &[u8]) -> Result<Option<PageUrl>, NoMemory>
    ensures { IfOk result (λ found. found ≡ spec.prefix_of text.now) }
{
    if !text.ends_with(b"/") || has_byte(text, b'?') || has_byte(text, b'*') {
        return Ok(None);
    }
    match PageUrl::parse(alloc, text)? {
        Some(url) if url.as_bytes() == text => Ok(Some(url)),
        _ => Ok(None),
    }
}

// The names of cookies that a word writes, where there is one; `None` if one of them is none, or no URL is private.
fn cookies_of(is_private: bool, word: Option<&str>) -> Option<Option<&str>>
    ensures { option_map (λ cookies. option_map (λ c. c.now) cookies) result ≡ spec.cookies_of is_private (option_map (λ w. w.now) word.entry) }
{
    let Some(cookies) = word else {
        return Some(None);
    };
    if is_private && are_cookie_names(cookies.as_bytes()) {
        Some(Some(cookies))
    } else {
        None
    }
}

fn is_cookie_name(name: &[u8]) -> bool
    ensures { result ≡ spec.is_cookie_name name.now }
{
    is_token(name) && name.len() <= MAX_TOKEN
}

// Whether a text is names of cookies, with commas between, and blanks around each.
//
// Source: RFC 6265, "Syntax".
fn are_cookie_names(text: &[u8]) -> bool
    ensures { result ≡ spec.are_cookie_names text.now }
{
    text.split(|byte| is_comma(*byte))
        .all(|name| is_cookie_name(trimmed(name)))
}
