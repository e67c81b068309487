//! How long a server that is to stop may take.

ghost use Rattle.std.specs.Prelude.{◌≡◌};
ghost use Rattle.operator_http.specs.Stopped as spec;

use edge_types::decimal_of;

// The most seconds of a grace.
const MOST_SECONDS: u64 = u32::MAX as u64;

/// How long what is under way may still take once a server is to stop.
#[derive(Clone, Copy, Debug, Drop, PartialEq, Eq)]
pub enum Grace {
    /// As long as it takes.
    Unbounded,
    /// So many seconds.
    Seconds(u64),
}

/// How long what is under way may still take, by the query of a stop: `grace=` and a number of seconds, from 0 to
/// 4294967295 in decimal digits; with no query, as long as it takes. `None` for another query. Takes no memory.
///
/// Our profile.
pub fn grace_of(query: &[u8]) -> Option<Grace>
    ensures { result ≡ spec.grace_by query.now }
{
    if query.is_empty() {
        return Some(Grace::Unbounded);
    }
    let seconds = query.strip_prefix(b"grace=".as_slice())?;
    Some(Grace::Seconds(decimal_of(seconds, MOST_SECONDS)?))
}
