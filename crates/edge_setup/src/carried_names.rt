//! Which fields a request to an origin may carry besides those that the edge itself sets, by their names.

ghost use Rattle.std.specs.Prelude.{◌≡◌};
ghost use Rattle.edge_setup.specs.CarriedNames as spec;

use crate::passed_names::{is_among, is_connection_field};

// Fields that the edge itself sets or that tell of a body, which its requests don't have, and the reader's cookies, which go by
// their names.
//
// Source: RFC 9110, "Host", "Content-Length", "Content-Type", "Expect", "Accept-Encoding"; RFC 8586; Edge Architecture
// Specification 1.0.
const EDGE_FIELDS: [&str; 8] = [
    "accept-encoding",
    "cdn-loop",
    "content-length",
    "content-type",
    "cookie",
    "expect",
    "host",
    "surrogate-capability",
];

// Fields by which the answer isn't the whole of what the URL has.
//
// Source: RFC 9110, "Conditional Requests", "Range Requests".
const CONDITION_FIELDS: [&str; 6] = [
    "if-match",
    "if-modified-since",
    "if-none-match",
    "if-range",
    "if-unmodified-since",
    "range",
];

fn is_edge_field(name: &[u8]) -> bool
    ensures { result ≡ spec.is_edge_field name.now }
{
    is_among(&EDGE_FIELDS, name)
}

fn is_condition_field(name: &[u8]) -> bool
    ensures { result ≡ spec.is_condition_field name.now }
{
    is_among(&CONDITION_FIELDS, name)
}

/// Whether a request may carry a field of this name: it is none of a connection, none that the edge sets, and none that changes
/// what the answer is.
///
/// Our profile.
pub(crate) fn may_carry(name: &[u8]) -> bool
    ensures { result ≡ spec.may_carry name.now }
{
    !is_connection_field(name) && !is_edge_field(name) && !is_condition_field(name)
}
