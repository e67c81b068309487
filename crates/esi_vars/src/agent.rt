//! What the user agent's field says of browser, version and system.

ghost use Rattle.std.specs.Prelude.{◌≡◌};
ghost use Rattle.std.specs.Option.{option_copied};
ghost use Rattle.esi_vars.specs.Agent as spec;
ghost use Rattle.esi_vars.specs.Shown.{said};

use crate::bytes::{ByteClass, run_len};
use crate::looked_up::LookedUp;
use memchr::memmem;

/// The kind of a user agent.
#[derive(Clone, Copy)]
pub(crate) enum Browser {
    Msie,
    Mozilla,
    Other,
}

/// What a field says under a key; nothing under another key, or if the field is empty.
#[tactic(auto, unfolding(crate::specs::Agent::agent_value))]
pub(crate) fn agent_value<'a>(key: &[u8], agent: &'a [u8]) -> LookedUp<'a>
    ensures { said result ≡ spec.agent_value key.now agent.now }
{
    if agent.is_empty() {
        return LookedUp::Name(b"");
    }
    if key == b"browser".as_slice() {
        LookedUp::Name(browser_name(browser_of(agent)))
    } else if key == b"version".as_slice() {
        version_of(browser_of(agent), agent)
    } else if key == b"os".as_slice() {
        LookedUp::Name(system_of(agent))
    } else {
        LookedUp::Name(b"")
    }
}

// The kind of an agent.
#[tactic(auto, unfolding(crate::specs::Agent::browser_of))]
fn browser_of(agent: &[u8]) -> Browser
    ensures { result ≡ spec.browser_of agent.now }
{
    if has(b"MSIE", agent) {
        Browser::Msie
    } else if has(b"Mozilla", agent) {
        Browser::Mozilla
    } else {
        Browser::Other
    }
}

// The standard's name of a browser.
fn browser_name(browser: Browser) -> &'static [u8]
    ensures { result.now ≡ spec.browser_name browser }
{
    match browser {
        Browser::Msie => b"MSIE",
        Browser::Mozilla => b"MOZILLA",
        Browser::Other => b"OTHER",
    }
}

// The version after the browser's mark.
fn version_of(browser: Browser, agent: &[u8]) -> LookedUp<'_>
    ensures { said result ≡ spec.version_of browser agent.now }
{
    match browser {
        Browser::Msie => version_at(agent, behind(b"MSIE ", agent)),
        Browser::Mozilla => version_at(agent, behind(b"Mozilla/", agent)),
        Browser::Other => LookedUp::Name(b""),
    }
}

// The digits and points at the front of what was found.
fn version_at<'a>(agent: &[u8], found: Option<&'a [u8]>) -> LookedUp<'a>
    ensures { said result ≡ spec.version_at (option_copied found.entry) }
{
    match found {
        Some(text) => {
            let version = text.split_at(run_len(ByteClass::Version, text)).0;
            LookedUp::behind(version, agent, text, 0)
        }
        None => LookedUp::Name(b""),
    }
}

// The standard's name of a system.
#[tactic(auto, unfolding(crate::specs::Agent::system_of))]
fn system_of(agent: &[u8]) -> &'static [u8]
    ensures { result.now ≡ spec.system_of agent.now }
{
    if has(b"Windows", agent) {
        b"WIN"
    } else if has(b"Mac", agent) {
        b"MAC"
    } else if has(b"X11", agent) || has(b"Linux", agent) || has(b"Unix", agent) {
        b"UNIX"
    } else {
        b"OTHER"
    }
}

fn has(word: &[u8], text: &[u8]) -> bool
    ensures { result ≡ spec.has word.now text.now }
{
    behind(word, text).is_some()
}

// What follows the first occurrence of the word. Nothing does in an empty text, not even the empty word.
#[tactic(auto, using(crate::proofs::AgentLemmas::behind_absent))]
fn behind<'a>(word: &[u8], text: &'a [u8]) -> Option<&'a [u8]>
    ensures { option_copied result ≡ spec.behind word.now text.now }
{
    if text.is_empty() {
        return None;
    }
    let at = memmem::find(text, word)?;
    Some(&text[at + word.len()..])
}
