//! What the operator of a cache asks of it.

use crate::cache::Cache;
use answer_sources::Answers;
use edge_types::{NoMemory, PageUrl};
use fragment_cache::CacheTally;
use std::sync::Wait;

impl<S, C> Cache<S, C> {
    /// Forgets the answer of a URL, which then neither answers nor bridges until the URL is fetched again. Returns whether
    /// there was one. A fetch that is under way is stored once it has come, though it may have begun before.
    ///
    /// Our profile.
    pub fn purge<R: Wait>(&self, rt: &R, url: &PageUrl) -> bool
    where
        S: Answers<R>,
    {
        match self.place_of::<R>(url) {
            Some(place) => self.shards.at(place).purge(rt, url),
            None => false,
        }
    }

    /// Forgets the answers of all URLs that begin with these bytes, as `purge` does that of one. Returns how many there
    /// were.
    ///
    /// `NoMemory` if there is none for the list of these URLs; some of them may be forgotten then.
    ///
    /// Our profile.
    pub fn purge_prefix<R: Wait>(&self, rt: &R, prefix: &[u8]) -> Result<usize, NoMemory> {
        let mut count: usize = 0;
        for shard in self.shards.all.iter() {
            count = count.saturating_add(shard.purge_prefix(rt, prefix)?);
        }
        Ok(count)
    }

    /// What is stored, and what was asked for since the cache was made.
    ///
    /// Our profile.
    pub fn tally<R: Wait>(&self, rt: &R) -> CacheTally {
        let mut tally = CacheTally::new();
        for shard in self.shards.all.iter() {
            tally = tally.plus(shard.tally(rt));
        }
        tally
    }
}
