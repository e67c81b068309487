//! Which shard of a cache keeps the answers of a URL.

ghost use Rattle.std.specs.Prelude.{◌≡◌, ◌<◌, ◌%◌, sum};
ghost use Rattle.shared_cache.specs.Shards.{shard_of};

use crate::cache::SHARDS;
use edge_types::PageUrl;
use fragment_cache::UrlHashing;

/// What picks the shard of a URL.
#[derive(Clone, Copy)]
pub(crate) enum Placing {
    /// The sum of its bytes.
    BySum,
    /// Its hash.
    ByHash(UrlHashing),
}

// The sum of a URL's bytes, modulo the number of shards.
fn sum_of(url: &PageUrl) -> usize
    ensures { result ≡ sum url.now % SHARDS }
{
    let mut sum: usize = 0;
    for byte in url.as_bytes() {
        sum = (sum + usize::from(*byte)) % SHARDS;
    }
    sum
}

impl Placing {
    /// The shard of a URL.
    pub(crate) fn shard_of(self, url: &PageUrl) -> usize
        ensures value { result ≡ shard_of self url.now }
        ensures few { result < SHARDS }
    {
        match self {
            Placing::BySum => sum_of(url),
            Placing::ByHash(hashing) => (hashing.hash(url) >> 32) as usize % SHARDS,
        }
    }

    /// How the maps of the shards hash.
    pub(crate) fn hashing(self) -> UrlHashing {
        match self {
            Placing::BySum => UrlHashing::fixed(),
            Placing::ByHash(hashing) => hashing,
        }
    }
}
