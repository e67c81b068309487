//! Why the URLs couldn't be fetched that failed last. Clauses see the faults, that of the latest failure first, and how many
//! there may be.

ghost use Rattle.std.specs.Prelude.{◌≡◌, [], bytes_eq, IfOk, OnOk, OnErr};
ghost use Rattle.lru.specs.LruCache.{IsValid};

use edge_types::{NoMemory, PageUrl};
use fetch_outcomes::FetchFault;
use lru::LruCache;
use std::alloc::{AllocError, Global};
use std::marker::Model;
use std::num::NonZeroUsize;

/// Of how many URLs the fault is remembered: that which failed first is forgotten for one more.
///
/// Our profile.
pub const MAX_FAULTS: usize = 1024;

/// Why each of the URLs that failed last couldn't be fetched.
#[derive(Drop)]
pub(crate) struct LatestFaults {
    cache: LruCache<PageUrl, FetchFault>,
}

impl Model for LatestFaults {
    ghost use Rattle.origins.specs.Notes.{AreFaults, Faults};

    ghost Value = { Faults };

    ghost view = { λ f. record { entries = f.cache.entries; capacity = f.cache.cap } };

    ghost invariant = { λ f. AreFaults f.cache.cap f.cache.entries };
}

// States what `len` promises of the cache: its URLs are distinct, and no more than its capacity.
fn check(cache: &LruCache<PageUrl, FetchFault>)
    ensures { IsValid bytes_eq cache.now }
{
    let _ = cache.len();
}

impl LatestFaults {
    ghost use Rattle.origins.specs.Notes.{fault_of, noted};

    /// No URL has failed yet.
    pub(crate) fn new(alloc: Global) -> Result<LatestFaults, AllocError>
        ensures { IfOk result (λ faults. faults ≡ record { entries = []; capacity = 1_024 }) }
    {
        let capacity = match NonZeroUsize::new(MAX_FAULTS) {
            Some(capacity) => capacity,
            None => unreachable!(),
        };
        let cache = LruCache::new(alloc, capacity)?;
        check(&cache);
        Ok(LatestFaults { cache })
    }

    /// The fault with which a URL failed last, if that is remembered.
    pub(crate) fn fault_of(&self, url: &PageUrl) -> Option<FetchFault>
        ensures { result ≡ fault_of self.now url.now }
    {
        self.cache.peek(url).copied()
    }

    /// Remembers the fault with which a URL has just failed: it comes first.
    ///
    /// `NoMemory` if there is no room for it; nothing changes then.
    pub(crate) fn note(&mut self, url: &PageUrl, fault: FetchFault) -> Result<(), NoMemory>
        ensures ok { OnOk result (self.new ≡ noted fault url.now self.old) }
        ensures err { OnErr result (self.new ≡ self.old) }
    {
        self.cache.put(url.share()?, fault)?;
        check(&self.cache);
        Ok(())
    }
}
