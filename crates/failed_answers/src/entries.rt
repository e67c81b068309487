//! The answers of URLs that failed, that of the latest failure first. Clauses see the entries and the capacity.

ghost use Rattle.std.specs.Prelude.{◌≡◌, [], bytes_eq, None, Some, IfOk, OnOk, OnErr, IsSome, MatchOption};
ghost use Rattle.std.specs.Arc.{arc_value};
ghost use Rattle.lru.specs.LruCache.{IsValid};

use edge_types::{Answer, NoMemory, PageUrl, SharedAnswer};
use lru::LruCache;
use std::alloc::Global;
use std::marker::Model;
use std::num::NonZeroUsize;
use std::sync::Arc;

/// The most URLs that may rest at a time: that which failed first is forgotten for one more.
///
/// Our profile.
pub const MAX_URLS: usize = 1024;

// The answer with which a URL failed, and the second from which the URL is asked again.
#[derive(Drop)]
struct Failure {
    answer: SharedAnswer,
    end: u64,
}

impl Model for Failure {
    ghost use Rattle.fragment_cache.specs.Machine.{Entry};

    ghost Value = { Entry };

    ghost view = { λ f. record { answer = f.answer; expiry = f.end } };
}

// The answers of URLs that failed.
#[derive(Drop)]
pub(crate) struct Entries {
    cache: LruCache<PageUrl, Failure>,
}

impl Model for Entries {
    ghost use Rattle.fragment_cache.specs.Machine.{Shelf};
    ghost use Rattle.fragment_cache.specs.Sound.{AreEntries};

    ghost Value = { Shelf };

    ghost view = { λ c. record { entries = c.cache.entries; capacity = c.cache.cap } };

    ghost invariant = { λ c. AreEntries c.cache.cap c.cache.entries };
}

// States what `len` promises of the cache: its URLs are distinct, and no more than its capacity.
fn check(cache: &LruCache<PageUrl, Failure>)
    ensures { IsValid bytes_eq cache.now }
{
    let _ = cache.len();
}

impl Entries {
    ghost use Rattle.fragment_cache.specs.Machine.{fresh};
    ghost use Rattle.fragment_cache.specs.Sound.{AreEntries};
    ghost use Rattle.failed_answers.specs.Rest.{put_first, without};

    pub(crate) fn new(alloc: Global) -> Result<Entries, NoMemory>
        ensures { IfOk result (λ s. s ≡ record { entries = []; capacity = 1_024 }) }
    {
        let capacity = match NonZeroUsize::new(MAX_URLS) {
            Some(capacity) => capacity,
            None => unreachable!(),
        };
        let cache = LruCache::new(alloc, capacity)?;
        check(&cache);
        Ok(Entries { cache })
    }

    // The answer of a URL before its end. The order of the entries stays that of their failures.
    pub(crate) fn before_end(
        &self,
        url: &PageUrl,
        now: u64,
    ) -> Result<Option<Arc<Answer>>, NoMemory>
        ensures ok { IfOk result (λ found. MatchOption found
            (fresh self.now.entries url.now now ≡ None)
            (λ answer. fresh self.now.entries url.now now ≡ Some (arc_value answer))) }
        ensures err { OnErr result (IsSome (fresh self.now.entries url.now now)) }
    {
        let Some(failure) = self.cache.peek(url) else {
            return Ok(None);
        };
        if now >= failure.end {
            return Ok(None);
        }
        Ok(Some(failure.answer.share()?.into_arc()))
    }

    // Inserts an answer, in place of an older one of its URL, else of the last one where there are as many as may be.
    pub(crate) fn put(&mut self, answer: &SharedAnswer, end: u64) -> Result<(), NoMemory>
        ensures ok { OnOk result (self.new ≡ put_first answer.now end self.old) }
        ensures err { OnErr result (self.new ≡ self.old) }
    {
        let failure = Failure {
            answer: answer.share()?,
            end,
        };
        self.cache.put(answer.get().url().share()?, failure)?;
        check(&self.cache);
        Ok(())
    }

    pub(crate) fn remove(&mut self, url: &PageUrl)
        ensures { self.new ≡ without url.now self.old }
    {
        let _ = self.cache.pop(url);
        check(&self.cache);
    }

    // States the invariant of the entries for callers.
    pub(crate) fn sound(&self)
        ensures { AreEntries self.now.capacity self.now.entries }
    {
        let _ = &self.cache;
    }
}
