//! What a server counts of its connections.

/// How many connections of clients there are now, and what was accepted since the start.
///
/// Our profile.
#[derive(Clone, Copy, Debug, Drop, PartialEq, Eq)]
pub struct ConnectionCounts {
    /// How many were accepted and haven't ended.
    pub open: u64,
    /// How many of those no thread holds, since their client is waited for.
    pub parked: u64,
    /// How many of those a thread holds.
    pub serving: u64,
    /// How many were accepted.
    pub accepted: u64,
    /// How many accepts failed.
    pub failed_accepts: u64,
}
