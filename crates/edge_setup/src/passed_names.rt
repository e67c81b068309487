//! Which fields of an origin's answer may be passed on to the reader of its page, by their names.

ghost use Rattle.std.specs.Prelude.{◌≡◌, map};
ghost use Rattle.std.specs.Str.{str_eq_ignore_ascii_case};
ghost use Rattle.edge_setup.specs.PassedNames as spec;

use crate::lists::is_comma;
use crate::words::MAX_TOKEN;
use edge_types::{is_token, trimmed};

// Fields that are about one connection, and not for whoever is behind it.
//
// Source: RFC 9110, "Connection", "Proxy-Authenticate", "Proxy-Authorization", "Trailer".
const CONNECTION_FIELDS: [&str; 9] = [
    "connection",
    "keep-alive",
    "proxy-authenticate",
    "proxy-authorization",
    "proxy-connection",
    "te",
    "trailer",
    "transfer-encoding",
    "upgrade",
];

// Fields that the edge itself writes or reads.
const OWN_FIELDS: [&str; 6] = [
    "content-encoding",
    "content-length",
    "content-type",
    "date",
    "surrogate-capability",
    "surrogate-control",
];

fn is_named(name: &[u8], known: &str) -> bool
    ensures { result ≡ str_eq_ignore_ascii_case name.now known.now }
{
    name.eq_ignore_ascii_case(known.as_bytes())
}

/// Whether a name is one of these, whatever the case of its letters.
pub(crate) fn is_among(names: &[&str], name: &[u8]) -> bool
    ensures { result ≡ spec.is_among (map (λ known. known.now) names.now) name.now }
{
    names.iter().any(|known| is_named(name, known))
}

/// Whether it is the name of a field that is about one connection.
pub(crate) fn is_connection_field(name: &[u8]) -> bool
    ensures { result ≡ spec.is_connection_field name.now }
{
    is_among(&CONNECTION_FIELDS, name)
}

fn is_own_field(name: &[u8]) -> bool
    ensures { result ≡ spec.is_own_field name.now }
{
    is_among(&OWN_FIELDS, name)
}

// Whether it is the field that sets a cookie: an answer that is kept is anybody's.
fn sets_cookie(name: &[u8]) -> bool
    ensures { result ≡ spec.sets_cookie name.now }
{
    is_named(name, "set-cookie")
}

// Whether a field of this name may be passed, where there are private URLs or none.
fn may_pass(has_private: bool, name: &[u8]) -> bool
    ensures { result ≡ spec.may_pass has_private name.now }
{
    is_token(name)
        && name.len() <= MAX_TOKEN
        && !is_connection_field(name)
        && !is_own_field(name)
        && (has_private || !sets_cookie(name))
}

/// Whether a text is names of fields that may be passed, with commas between, and blanks around each. `Set-Cookie` is one
/// only where there are private URLs, whose answers are nobody else's.
///
/// Source: RFC 9110, "Field Names", "Lists"; which may be passed: our profile.
pub(crate) fn are_passed(has_private: bool, text: &[u8]) -> bool
    ensures { result ≡ spec.are_passed has_private text.now }
{
    text.split(|byte| is_comma(*byte))
        .all(|name| may_pass(has_private, trimmed(name)))
}
