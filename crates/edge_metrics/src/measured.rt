//! What is measured of a server.

use crate::connection_counts::ConnectionCounts;
use crate::counts::Counts;
use fragment_cache::CacheTally;

/// What an operator is told of a server.
///
/// Our profile.
#[derive(Clone, Copy, Debug, Drop, PartialEq, Eq)]
pub struct Measured {
    /// What was counted of requests.
    pub requests: Counts,
    /// What was counted of its connections.
    pub connections: ConnectionCounts,
    /// What was counted of its cache.
    pub cache: CacheTally,
    /// How many fetches there were of URLs for whose authority there is no origin.
    pub without_origin: u64,
    /// How many lines of its log were lost.
    pub lost_lines: u64,
    /// How many bytes of its memory are resident, where that is known.
    pub resident: Option<u64>,
}
