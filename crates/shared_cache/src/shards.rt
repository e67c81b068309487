//! The shards of a cache, each under a lock of its own.

ghost use Rattle.std.specs.Prelude.{◌≡◌, ◌≤◌, ◌<◌, option_map, IfOk};
ghost use Rattle.shared_cache.specs.Shards.{place_for};
ghost use Rattle.shared_cache.specs.declared.cache.TheConstants.{SHARDS};

use crate::cache::SHARDS;
use crate::placing::Placing;
use crate::shared_shard::SharedShard;
use answer_sources::Answers;
use edge_types::{NoMemory, PageUrl};
use fragment_cache::MAX_CAPACITY;
use std::alloc::Global;
use std::array;

#[derive(Drop)]
pub(crate) struct Shards {
    placing: Placing,
    pub(crate) all: [SharedShard; SHARDS],
}

/// Where one of the shards is, and the shelf of what was made of its answers.
#[derive(Clone, Copy)]
pub(crate) struct ShardPlace {
    index: usize,
    ghost few: { index < SHARDS },
}

impl ShardPlace {
    /// Its number.
    pub(crate) fn index(self) -> usize
        ensures value { result ≡ self.index }
        ensures few { result < SHARDS }
    {
        self.index
    }
}

impl Shards {
    /// Empty shards, each for at most so many answers.
    pub(crate) fn new(alloc: Global, capacity: usize, placing: Placing) -> Result<Shards, NoMemory>
        requires from { 1 ≤ capacity }
        requires to { capacity ≤ MAX_CAPACITY }
        ensures { IfOk result (λ shards. shards.placing ≡ placing) }
    {
        let hashing = placing.hashing();
        let all: [SharedShard; SHARDS] = array::try_from_fn(|_| SharedShard::new(
            alloc, capacity, hashing,
        ))?;
        Ok(Shards { placing, all })
    }

    /// Where the one is that keeps the answers of a URL of this source: nowhere, where the URL is private. Nothing else gives
    /// a place, without which nothing is looked up, joined, kept or bridged.
    pub(crate) fn place_of<R, S: Answers<R>>(&self, source: &S, url: &PageUrl) -> Option<ShardPlace>
        ensures { option_map (λ place. place.index) result ≡ place_for (S.private source.now url.now) self.now.placing url.now }
    {
        if source.is_private(url) {
            return None;
        }
        Some(ShardPlace {
            index: self.placing.shard_of(url),
        })
    }

    /// The one at a place.
    pub(crate) fn at(&self, place: ShardPlace) -> &SharedShard {
        &self.all[place.index]
    }
}
