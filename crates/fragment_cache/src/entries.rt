//! The stored answers of a shard, newest use first. Clauses see the entries and the capacity.

ghost use Rattle.std.specs.Prelude.{◌≡◌, ◌≢◌, ◌≤◌, ◌<◌, [], filter, length, is_some, bytes_eq, None, Some, IfOk, OnOk, OnErr, IsSome, IsTrue, MatchOption, MatchBool, ℕ};
ghost use Rattle.std.specs.Arc.{arc_value};
ghost use Rattle.std.specs.NonZero.{non_zero_usize_get};
ghost use Rattle.lru.specs.LruCache.{IsValid, lru_cache, promoted};
ghost use Rattle.std.specs.Map.{keys_of};
ghost use Rattle.fragment_cache.specs.Machine.{begins, bytes_of};
ghost use Rattle.fragment_cache.specs.Times.{expiry_of};

use crate::hashing::UrlHashing;
use crate::times::{expiry, extension};
use edge_types::{Answer, NoMemory, PageUrl, Reply, SharedAnswer};
use lru::LruCache;
use std::alloc::Global;
use std::marker::Model;
use std::num::NonZeroUsize;
use std::sync::Arc;

// A stored answer, and the second at which it expires.
#[derive(Drop)]
struct Stored {
    answer: SharedAnswer,
    expiry: u64,
}

impl Model for Stored {
    ghost use Rattle.fragment_cache.specs.Machine.{Entry};

    ghost Value = { Entry };

    ghost view = { λ e. record { answer = e.answer; expiry = e.expiry } };
}

impl Stored {
    ghost use Rattle.fragment_cache.specs.Machine.{body_bytes, bridge_end};

    // How many bytes the answer's body has.
    fn body_bytes(&self) -> u64
        ensures { result ≡ body_bytes self.now }
    {
        match self.answer.get().reply() {
            Reply::Failed => 0,
            Reply::Got { body, .. } => body.len() as u64,
        }
    }

    // Until when the answer bridges a failing origin.
    fn bridge_end(&self) -> u64
        ensures { result ≡ bridge_end self.now }
    {
        self.expiry
            .saturating_add(u64::from(extension(self.answer.get())))
    }
}

type StoredByUrl = LruCache<PageUrl, Stored, UrlHashing>;

// The stored answers.
#[derive(Drop)]
pub(crate) struct Entries {
    cache: StoredByUrl,
}

impl Model for Entries {
    ghost use Rattle.fragment_cache.specs.Machine.{Shelf};
    ghost use Rattle.fragment_cache.specs.Sound.{AreEntries};

    ghost Value = { Shelf };

    ghost view = { λ c. record { entries = c.cache.entries; capacity = c.cache.cap } };

    ghost invariant = { λ c. AreEntries c.cache.cap c.cache.entries };
}

// States what `len` promises of the cache: its URLs are distinct, and no more than its capacity.
fn check(cache: &StoredByUrl)
    ensures { IsValid bytes_eq cache.now }
{
    let _ = cache.len();
}

// Whether the URL's entry is the newest.
fn is_newest(cache: &StoredByUrl, url: &PageUrl) -> bool
    ensures { IsTrue result → promoted (bytes_eq url.now) cache.now.entries ≡ cache.now.entries }
{
    match cache.peek_mru() {
        Some((newest, _)) => newest == url,
        None => false,
    }
}

// Makes the URL's entry the newest. Nothing is looked up where it is.
fn make_newest(cache: &mut StoredByUrl, url: &PageUrl)
    ensures { cache.new ≡ lru_cache (promoted (bytes_eq url.now) cache.old.entries) cache.old.cap }
{
    if !is_newest(cache, url) {
        cache.promote(url);
    }
}

// The URLs of the entries that begin so.
fn begun_by(alloc: Global, cache: &StoredByUrl, prefix: &[u8]) -> Result<Vec<PageUrl>, NoMemory>
    ensures { IfOk result (λ urls. urls.items ≡ filter (begins prefix.now) (keys_of cache.now.entries)) }
{
    let mut urls = Vec::new(alloc);
    for (url, _) in cache.iter() {
        if url.as_bytes().starts_with(prefix) {
            urls.push(url.share()?)?;
        }
    }
    Ok(urls)
}

// How many bytes the bodies of the entries have together.
fn bytes_in(cache: &StoredByUrl) -> u64
    ensures { result ≡ bytes_of cache.now.entries }
{
    let mut bytes: u64 = 0;
    for (_, stored) in cache.iter() {
        bytes = bytes.saturating_add(stored.body_bytes());
    }
    bytes
}

impl Entries {
    ghost use Rattle.fragment_cache.specs.Machine.{entry_of, others, left, is_among, begins, bytes_of, used, stored, fresh, bridging};
    ghost use Rattle.fragment_cache.specs.Sound.{AreEntries};

    pub(crate) fn new(
        alloc: Global,
        capacity: NonZeroUsize,
        hashing: UrlHashing,
    ) -> Result<Entries, NoMemory>
        ensures { IfOk result (λ s. s ≡ record { entries = []; capacity = non_zero_usize_get capacity }) }
    {
        let cache = LruCache::with_hasher(alloc, capacity, hashing)?;
        check(&cache);
        Ok(Entries { cache })
    }

    // States the invariant of the entries for callers.
    pub(crate) fn sound(&self)
        ensures { AreEntries self.now.capacity self.now.entries }
    {
        let _ = &self.cache;
    }

    // The answer of the URL's entry, before its expiry; the entry becomes the newest.
    pub(crate) fn hit(&mut self, url: &PageUrl, now: u64) -> Result<Option<Arc<Answer>>, NoMemory>
        ensures ok { IfOk result (λ found. MatchOption found
            ((fresh self.old.entries url.now now ≡ None) × (self.new ≡ self.old))
            (λ answer. (fresh self.old.entries url.now now ≡ Some (arc_value answer))
            × (self.new ≡ record self.old { entries = used url.now self.old.entries }))) }
        ensures err { OnErr result (IsSome (fresh self.old.entries url.now now) × (self.new ≡ self.old)) }
    {
        let Some(answer) = self.fresh(url, now)? else {
            return Ok(None);
        };
        self.promote(url);
        Ok(Some(answer))
    }

    // The answer of the URL's entry before its expiry.
    fn fresh(&self, url: &PageUrl, now: u64) -> Result<Option<Arc<Answer>>, NoMemory>
        ensures ok { IfOk result (λ found. MatchOption found
            (fresh self.now.entries url.now now ≡ None)
            (λ answer. fresh self.now.entries url.now now ≡ Some (arc_value answer))) }
        ensures err { OnErr result (IsSome (fresh self.now.entries url.now now)) }
    {
        let Some(stored) = self.cache.peek(url) else {
            return Ok(None);
        };
        if now >= stored.expiry {
            return Ok(None);
        }
        Ok(Some(stored.answer.share()?.into_arc()))
    }

    fn promote(&mut self, url: &PageUrl)
        ensures { self.new ≡ record self.old { entries = used url.now self.old.entries } }
    {
        make_newest(&mut self.cache, url);
        check(&self.cache);
    }

    // The answer of the URL's entry before its expiry plus its extension.
    pub(crate) fn bridge(&self, url: &PageUrl, now: u64) -> Result<Option<SharedAnswer>, NoMemory>
        ensures ok { IfOk result (λ found. found ≡ bridging self.now.entries url.now now) }
        ensures err { OnErr result (IsSome (bridging self.now.entries url.now now)) }
    {
        let Some(stored) = self.cache.peek(url) else {
            return Ok(None);
        };
        if now >= stored.bridge_end() {
            return Ok(None);
        }
        Ok(Some(stored.answer.share()?))
    }

    // Inserts an answer that is to be stored, in place of an older one of its URL; the older one also goes
    // if the answer isn't stored. Returns whether it was stored.
    pub(crate) fn put(&mut self, url: &PageUrl, answer: &SharedAnswer, now: u64) -> bool
        requires { answer.now.url ≡ url.now }
        ensures { MatchBool result
            ((expiry : ℕ) × (expiry_of answer.now now ≡ Some expiry)
            × (self.new ≡ record self.old { entries = stored self.old.capacity url.now (record { answer = answer.now; expiry = expiry }) self.old.entries }))
            (self.new ≡ record self.old { entries = others url.now self.old.entries }) }
    {
        if let Some(expiry) = expiry(answer.get(), now) {
            if self.try_put(url, answer, expiry).is_ok() {
                return true;
            }
        }
        self.remove(url);
        false
    }

    fn try_put(&mut self, url: &PageUrl, answer: &SharedAnswer, expiry: u64) -> Result<(), NoMemory>
        requires { answer.now.url ≡ url.now }
        ensures ok { OnOk result (self.new ≡ record self.old { entries = stored self.old.capacity url.now (record { answer = answer.now; expiry = expiry }) self.old.entries }) }
        ensures err { OnErr result (self.new ≡ self.old) }
    {
        let stored = Stored {
            answer: answer.share()?,
            expiry,
        };
        self.cache.put(url.share()?, stored)?;
        check(&self.cache);
        Ok(())
    }

    fn remove(&mut self, url: &PageUrl)
        ensures { self.new ≡ record self.old { entries = others url.now self.old.entries } }
    {
        let _ = self.cache.pop(url);
        check(&self.cache);
    }

    // How many bytes the bodies of the entries have together.
    pub(crate) fn bytes(&self) -> u64
        ensures { result ≡ bytes_of self.now.entries }
    {
        bytes_in(&self.cache)
    }

    // How many entries there are.
    pub(crate) fn len(&self) -> usize
        ensures { result ≡ length self.now.entries }
    {
        self.cache.len()
    }

    // Removes the entry of a URL. Whether there was one.
    pub(crate) fn purge(&mut self, url: &PageUrl) -> bool
        ensures entries { self.new ≡ record self.old { entries = others url.now self.old.entries } }
        ensures found { result ≡ is_some (entry_of self.old.entries url.now) }
    {
        let is_there = self.cache.contains(url);
        self.remove(url);
        is_there
    }

    // Removes the entries of all URLs that begin so.
    pub(crate) fn purge_prefix(&mut self, alloc: Global, prefix: &[u8]) -> Result<(), NoMemory>
        ensures ok { OnOk result (self.new ≡ record self.old { entries = left (begins prefix.now) self.old.entries }) }
        ensures err { OnErr result (self.new ≡ self.old) }
    {
        let gone = begun_by(alloc, &self.cache, prefix)?;
        self.remove_all(&gone);
        Ok(())
    }

    fn remove_all(&mut self, urls: &[PageUrl])
        ensures { self.new ≡ record self.old { entries = left (is_among urls.now) self.old.entries } }
    {
        for url in urls {
            self.remove(url);
        }
    }
}
