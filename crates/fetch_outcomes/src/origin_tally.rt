//! How the fetches from one origin ended.

use crate::fetch_tally::FetchTally;

/// How the fetches from the origin of an authority have ended since the start, and what it sent unasked.
///
/// Our profile.
#[derive(Drop)]
pub struct OriginTally {
    /// The authority.
    pub authority: Vec<u8>,
    /// How many fetches have ended how.
    pub fetches: FetchTally,
    /// How often bytes came from it that nobody had asked for, over a connection that was to be kept.
    pub strays: u64,
}
