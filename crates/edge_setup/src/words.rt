//! What the options of `serve` ask for.
ghost use Rattle.std.specs.Prelude.{◌≡◌, map, option_map, IfOk, MatchOption, MatchResult};
ghost use Rattle.std.specs.declared.net.socket_addr.SocketAddr.{SocketAddr};
ghost use Rattle.clap.specs.Words.{all_of, first_of, found_of, rows_of};
ghost use Rattle.edge_setup.specs.Rules.{is_set};
ghost use Rattle.edge_setup.specs.Words.{are_hosts, fields_of, hosts_of, fields_said, hosts_said, log_of, log_said, token_of, IsAddress, IsAdmin, IsNoAdmin, HasAddresses, HasLog, HasNumbers, IsFirstWrong, IsRefusedBy, SaysAddresses, SaysSetup, SaysTokens};

use crate::flag::Flag;
use crate::flags::Flags;
use crate::lists::is_comma;
use crate::numbers::Numbers;
use crate::origin::is_name;
use crate::origins::origins_of;
use crate::passed_names::are_passed;
use crate::private::{has_private, private_of};
use crate::sent_fields::sent_said;
use crate::setup::{Addresses, Named, PrivateUrls, Setup, SetupFault};
use crate::told_fields::lowered_of;
use crate::word::Word;
use access_log::LogFormat;
use clap::ArgMatches;
use edge_types::is_token;
use std::alloc::{AllocError, Global};
use std::net::SocketAddr;

/// The value of an option.
pub(crate) fn word_of<'a>(matches: &ArgMatches<'a>, name: &str) -> Option<&'a str>
    ensures { option_map (λ word. word.now) result ≡ first_of name.now (rows_of (found_of matches.now)) }
{
    matches.get_str(name)
}

/// The values of an option.
pub(crate) fn words_of<'b, 'a>(matches: &'b ArgMatches<'a>, name: &str) -> Option<&'b [&'a str]>
    ensures { option_map (λ words. map (λ word. word.now) words.now) result ≡ all_of name.now (rows_of (found_of matches.now)) }
{
    matches.get_raw(name)
}

/// The longest name of an edge or of a field.
pub(crate) const MAX_TOKEN: usize = 64;

// The token that a word writes, where there is one; `None` if it isn't one.
fn token_of(word: Option<&str>) -> Option<Option<&str>>
    ensures { option_map (λ token. option_map (λ t. t.now) token) result ≡ token_of (option_map (λ w. w.now) word.entry) }
{
    let Some(token) = word else {
        return Some(None);
    };
    if is_token(token.as_bytes()) && token.len() <= MAX_TOKEN {
        Some(Some(token))
    } else {
        None
    }
}

// A copy of a token.
fn copy_of(alloc: Global, token: Option<&str>) -> Result<Option<Vec<u8>>, AllocError>
    ensures { IfOk result (λ copy. option_map (λ c. c.items) copy ≡ option_map (λ t. t.now) token.entry) }
{
    match token {
        Some(token) => Ok(Some(token.as_bytes().to_vec(alloc)?)),
        None => Ok(None),
    }
}

// Whether a text is names of hosts, with commas between.
fn are_hosts(text: &[u8]) -> bool
    ensures { result ≡ are_hosts text.now }
{
    text.split(|byte| is_comma(*byte)).all(|name| is_name(name))
}

// The names of hosts that a word writes, where there is one; `None` if it writes none, or the operator isn't answered.
fn hosts_of(has_admin: bool, word: Option<&str>) -> Option<Option<&str>>
    ensures { option_map (λ hosts. option_map (λ h. h.now) hosts) result ≡ hosts_of has_admin (option_map (λ w. w.now) word.entry) }
{
    let Some(hosts) = word else {
        return Some(None);
    };
    if has_admin && are_hosts(hosts.as_bytes()) {
        Some(Some(hosts))
    } else {
        None
    }
}

// The names of hosts by which the operator may ask.
fn hosts_said<'a>(matches: &ArgMatches<'a>) -> Option<Option<&'a str>>
    ensures { option_map (λ hosts. option_map (λ h. h.now) hosts) result ≡ hosts_said (rows_of (found_of matches.now)) }
{
    let has_admin = Word::Admin.said(matches).is_some();
    hosts_of(has_admin, Word::AdminHost.said(matches))
}

// The names of fields that a word writes, where there is one; `None` if one of them may not be passed.
fn fields_of(has_private: bool, word: Option<&str>) -> Option<Option<&str>>
    ensures { option_map (λ fields. option_map (λ f. f.now) fields) result ≡ fields_of has_private (option_map (λ w. w.now) word.entry) }
{
    let Some(fields) = word else {
        return Some(None);
    };
    if are_passed(has_private, fields.as_bytes()) {
        Some(Some(fields))
    } else {
        None
    }
}

// The names of the fields that are passed.
fn fields_said<'a>(matches: &ArgMatches<'a>) -> Option<Option<&'a str>>
    ensures { option_map (λ fields. option_map (λ f. f.now) fields) result ≡ fields_said (rows_of (found_of matches.now)) }
{
    fields_of(has_private(matches), Word::PassFields.said(matches))
}

// The address that a word writes.
fn address_of(word: Option<&str>) -> Option<SocketAddr>
    ensures { MatchOption result ((address : SocketAddr) → IsAddress (option_map (λ w. w.now) word.entry) address → ⊥) (IsAddress (option_map (λ w. w.now) word.entry)) }
{
    word?.parse().ok()
}

// The address that a word writes, where there is one; `None` if it isn't one.
fn admin_of(word: Option<&str>) -> Option<Option<SocketAddr>>
    ensures { let admin = option_map (λ w. w.now) word.entry in MatchOption result (IsNoAdmin admin) (IsAdmin admin) }
{
    if word.is_none() {
        return Some(None);
    }
    match address_of(word) {
        Some(address) => Some(Some(address)),
        None => None,
    }
}

/// Whether a flag is set, by its option's value.
pub fn is_set(word: Option<&str>) -> bool
    ensures { result ≡ is_set (option_map (λ w. w.now) word.entry) }
{
    match word {
        Some(word) => word == "true",
        None => false,
    }
}

// The format of the log that a word names, where there is one; without it lines, if a log is asked for. `None` if the
// word names no format.
fn log_of(is_asked: bool, word: Option<&str>) -> Option<Option<LogFormat>>
    ensures { result ≡ log_of is_asked (option_map (λ w. w.now) word.entry) }
{
    let Some(word) = word else {
        return Some(if is_asked {
            Some(LogFormat::Line)
        } else {
            None
        });
    };
    if word == "line" {
        Some(Some(LogFormat::Line))
    } else if word == "combined" {
        Some(Some(LogFormat::Combined))
    } else if word == "json" {
        Some(Some(LogFormat::Json))
    } else {
        None
    }
}

// The log that the options ask for.
fn log_said(matches: &ArgMatches<'_>) -> Option<Option<LogFormat>>
    ensures { result ≡ log_said (rows_of (found_of matches.now)) }
{
    let is_asked = Flag::Log.is_set(matches);
    log_of(is_asked, Word::LogFormat.said(matches))
}

// Where the server listens.
fn addresses_of(matches: &ArgMatches<'_>) -> Result<Addresses, Named>
    ensures { let rows = rows_of (found_of matches.now) in
        MatchResult result (SaysAddresses rows) (IsFirstWrong rows) }
{
    Ok(Addresses {
        listen: address_of(Word::Listen.said(matches)).ok_or(Named::Listen)?,
        admin: admin_of(Word::Admin.said(matches)).ok_or(Named::Admin)?,
    })
}

// How requests are reported.
fn reported_of(matches: &ArgMatches<'_>) -> Result<Option<LogFormat>, Named>
    ensures { let rows = rows_of (found_of matches.now) in
        MatchResult result (λ log. log_said rows ≡ Some log) (λ option. HasAddresses rows → HasNumbers rows → IsFirstWrong rows option) }
{
    log_said(matches).ok_or(Named::LogFormat)
}

/// What the options name: the edge, the field by which a proxy names clients, the hosts by which the operator may ask, and the
/// fields that are passed.
#[derive(Clone, Copy)]
pub(crate) struct Tokens<'a> {
    name: Option<&'a str>,
    forwarded: Option<&'a str>,
    hosts: Option<&'a str>,
    fields: Option<&'a str>,
}

// What the options name.
fn tokens_of<'a>(matches: &ArgMatches<'a>) -> Result<Tokens<'a>, Named>
    ensures { let rows = rows_of (found_of matches.now) in
        MatchResult result (SaysTokens rows) (λ option. HasAddresses rows → HasNumbers rows → HasLog rows → IsFirstWrong rows option) }
{
    Ok(Tokens {
        name: token_of(Word::Name.said(matches)).ok_or(Named::Name)?,
        forwarded: token_of(Word::Forwarded.said(matches)).ok_or(Named::Forwarded)?,
        hosts: hosts_said(matches).ok_or(Named::AdminHost)?,
        fields: fields_said(matches).ok_or(Named::PassFields)?,
    })
}

/// What the options of `serve` ask for, or the first of them, in the order of their limits, whose value
/// is invalid.
///
/// Our profile.
pub fn setup_of(alloc: Global, matches: &ArgMatches<'_>) -> Result<Setup, SetupFault>
    ensures { MatchResult result (SaysSetup (rows_of (found_of matches.now))) (IsRefusedBy (rows_of (found_of matches.now))) }
{
    let addresses = addresses_of(matches)?;
    let numbers = Numbers::of(alloc, matches)?;
    let log = reported_of(matches)?;
    let tokens = tokens_of(matches)?;
    let private = private_of(alloc, matches)?;
    let Some(send_fields) = sent_said(alloc, matches)? else {
        return Err(SetupFault::Wrong(Named::SendFields));
    };
    let origins = match origins_of(alloc, matches)? {
        Ok(origins) => origins,
        Err(fault) => return Err(SetupFault::Wrong(Named::Origin(fault))),
    };
    Ok(Setup {
        addresses,
        origins,
        numbers,
        flags: Flags::of(alloc, matches)?,
        log,
        name: copy_of(alloc, tokens.name)?,
        forwarded: copy_of(alloc, tokens.forwarded)?,
        admin_hosts: copy_of(alloc, tokens.hosts)?,
        pass_fields: copy_of(alloc, tokens.fields)?,
        send_fields,
        private: PrivateUrls {
            prefixes: private.prefixes,
            cookies: copy_of(alloc, private.cookies)?,
            fields: lowered_of(alloc, private.told)?,
        },
    })
}
