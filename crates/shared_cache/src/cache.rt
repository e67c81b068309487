//! One cache shared by all pages.

ghost use Rattle.std.specs.Prelude.{◌≡◌, ◌↔◌, ◌≤◌, option_map, IsTrue, IfOk};
ghost use Rattle.std.specs.Arc.{arc_value};
ghost use Rattle.shared_cache.specs.Circles.{IsForAll, says_circle};
ghost use Rattle.shared_cache.specs.Shards.{place_for};
ghost use Rattle.shared_cache.specs.declared.placing.Placing.TheVariants.{BySum, ByHash};

mod concurrent;

use crate::placing::Placing;
use crate::plan_shelves::PlanShelves;
use crate::shards::{ShardPlace, Shards};
use answer_sources::{
    Answers, Behalf, Clock, ConcurrentSource, Found, Given, OnBehalf, Source, Way, fetch_or_fail,
};
use edge_types::{Answer, NoMemory, PageUrl, Reply};
use fragment_cache::{Flight, MAX_CAPACITY, UrlHashing};
use plan_compiler::Prepared;
use std::alloc::Global;
use std::sync::{Arc, Wait};
use std::time;

/// How many shards a cache has, each under a lock of its own.
///
/// Our profile.
pub const SHARDS: usize = 8;

/// A source that keeps what another one gives, for as long as the answers allow: equal requests at the
/// same time cost one fetch, stored answers none, and a failing origin is bridged. A request for a private URL goes to the
/// other source each time, past all that is kept and all that others fetch.
///
/// Any number of threads may share it.
pub struct Cache<S, C> {
    source: S,
    clock: C,
    // Shared with the caches over sources that are asked on behalf of requests that have passed other edges.
    pub(crate) shards: Arc<Shards>,
    // Shared in the same way.
    plans: Arc<PlanShelves>,
    // How many may wait for one flight, where that is bounded.
    most_waiting: Option<u32>,
}

// By hand, so that who drops a cache needs no proof of what it is made of.
impl<S: Drop, C: Drop> Drop for Cache<S, C> {
    fn drop(self) {
        let Cache {
            source: _,
            clock: _,
            shards: _,
            plans: _,
            most_waiting: _,
        } = self;
    }
}

// The status of a request that goes in a circle (RFC 5842, "508 Loop Detected").
const LOOP_DETECTED: u16 = 508;

// Whether the answer of somebody else's flight is for everybody who asks for its URL. One that says that its request
// went in a circle is for whoever led the flight: which edges that request had passed is nothing of the page's.
fn is_for_all(answer: &Answer, url: &PageUrl) -> bool
    ensures { IsTrue result ↔ IsForAll url.now answer.now }
{
    answer.url() == url && !says_circle(answer.reply())
}

#[tactic(auto, unfolding(crate::specs::Circles::says_circle))]
fn says_circle(reply: &Reply) -> bool
    ensures { result ≡ says_circle reply.now }
{
    match reply {
        Reply::Failed => false,
        Reply::Got { head, .. } => head.status == LOOP_DETECTED,
    }
}

impl<S: Drop, C: Drop> Cache<S, C> {
    /// A cache that is still empty, over a source and a clock; each of its `SHARDS` shards keeps at
    /// most `capacity` answers, from 1 to `MAX_CAPACITY` of `fragment_cache`. The sum of a URL's bytes picks its shard.
    ///
    /// Our profile.
    pub fn new(alloc: Global, source: S, clock: C, capacity: usize) -> Result<Cache<S, C>, NoMemory>
        requires from { 1 ≤ capacity }
        requires to { capacity ≤ MAX_CAPACITY }
        ensures { IfOk result (λ cache. (arc_value cache.shards).placing ≡ BySum) }
    {
        Cache::placed(alloc, source, clock, capacity, Placing::BySum)
    }

    /// The same, but a URL's hash picks its shard, and its place there: with a secret, whoever chooses URLs can't have
    /// them all in one shard, which they would empty.
    ///
    /// Our profile.
    pub fn hashed(
        alloc: Global,
        source: S,
        clock: C,
        capacity: usize,
        hashing: UrlHashing,
    ) -> Result<Cache<S, C>, NoMemory>
        requires from { 1 ≤ capacity }
        requires to { capacity ≤ MAX_CAPACITY }
        ensures { IfOk result (λ cache. (arc_value cache.shards).placing ≡ ByHash hashing) }
    {
        Cache::placed(alloc, source, clock, capacity, Placing::ByHash(hashing))
    }

    fn placed(
        alloc: Global,
        source: S,
        clock: C,
        capacity: usize,
        placing: Placing,
    ) -> Result<Cache<S, C>, NoMemory>
        requires from { 1 ≤ capacity }
        requires to { capacity ≤ MAX_CAPACITY }
        ensures { IfOk result (λ cache. (arc_value cache.shards).placing ≡ placing) }
    {
        let shards = Shards::new(alloc, capacity, placing)?;
        let plans = PlanShelves::new(alloc, capacity, placing.hashing())?;
        Ok(Cache {
            source,
            clock,
            shards: Arc::new(alloc, shards)?,
            plans: Arc::new(alloc, plans)?,
            most_waiting: None,
        })
    }

    /// The same cache with this bound, if any, on how many wait for one fetch, apart from who makes it. Whoever is
    /// one too many gets what would bridge the fetch at once, else a failed answer, and fetches nothing.
    ///
    /// Our profile.
    pub fn bounded(self, most: Option<u32>) -> Cache<S, C> {
        let mut cache = self;
        cache.most_waiting = most;
        cache
    }
}

impl<S, C> Cache<S, C> {
    // Where what is kept of a URL is.
    pub(crate) fn place_of<R>(&self, url: &PageUrl) -> Option<ShardPlace>
    where
        S: Answers<R>,
        ensures { option_map (λ place. place.index) result ≡ place_for (S.private self.now.source url.now) (arc_value self.now.shards).placing url.now }
    {
        self.shards.place_of::<R, S>(&self.source, url)
    }

    // Lands a flight with the answer that was fetched for it, once that is ready for whoever picks it up.
    fn land<R: Wait>(
        &self,
        rt: &R,
        alloc: Global,
        place: ShardPlace,
        flight: Flight,
        answer: Arc<Answer>,
    ) -> Given
    where
        C: Clock<R>,
        requires { (arc_value answer).url ≡ flight.url }
        ensures { (arc_value result.answer).url ≡ flight.url }
    {
        let now = self.clock.now(rt);
        self.plans.prepare(rt, alloc, place, &answer);
        self.shards.at(place).land(rt, flight, answer, now)
    }

    // What is given at once for a URL of a shard while as many as may wait for its flight.
    fn crowded_out<R: Wait>(
        &self,
        rt: &R,
        alloc: Global,
        place: ShardPlace,
        url: &PageUrl,
    ) -> Result<Given, NoMemory>
    where
        C: Clock<R>,
        ensures { IfOk result (λ given. (arc_value given.answer).url ≡ url.now) }
    {
        let shard = self.shards.at(place);
        match shard.bridging(rt, url, self.clock.now(rt))? {
            Some(answer) => Ok(Given::new(answer, Way::Bridged)),
            None => Ok(Given::fetched(Arc::new(alloc, Answer::failed(url.share()?))?)),
        }
    }
}

impl<S, C: Copy> Cache<S, C> {
    // A cache with the same answers and flights over another source.
    fn over(&self, source: S) -> Result<Cache<S, C>, NoMemory>
    where
        S: Drop,
        ensures source { IfOk result (λ cache. cache.source ≡ source) }
        ensures clock { IfOk result (λ cache. cache.clock ≡ self.now.clock) }
        ensures shards { IfOk result (λ cache. arc_value cache.shards ≡ arc_value self.now.shards) }
        ensures plans { IfOk result (λ cache. arc_value cache.plans ≡ arc_value self.now.plans) }
        ensures most { IfOk result (λ cache. cache.most_waiting ≡ self.now.most_waiting) }
    {
        Ok(Cache {
            source,
            clock: self.clock,
            shards: Arc::try_clone(&self.shards)?,
            plans: Arc::try_clone(&self.plans)?,
            most_waiting: self.most_waiting,
        })
    }
}

impl<R: Wait, S: OnBehalf<R> + Drop, C: Clock<R> + Copy> OnBehalf<R> for Cache<S, C> {
    fn on_behalf(
        &self,
        alloc: Global,
        behalf: Behalf<'_>,
    ) -> Result<Option<Cache<S, C>>, NoMemory> {
        match self.source.on_behalf(alloc, behalf)? {
            Some(source) => Ok(Some(self.over(source)?)),
            None => Ok(None),
        }
    }
}

impl<R: Wait, S: Answers<R>, C: Clock<R>> Answers<R> for Cache<S, C> {
    ghost gives = { λ cache url answer. answer.url ≡ url };

    ghost names_url = { λ cache url answer named. named };

    ghost private = { λ cache url. S.private cache.source url };

    fn is_private(&self, url: &PageUrl) -> bool {
        self.source.is_private(url)
    }

    fn ready(&self, rt: &R, _alloc: Global, url: &PageUrl) -> Found {
        match self.place_of::<R>(url) {
            Some(place) => self.shards.at(place).look(rt, url, self.clock.now(rt)),
            None => Ok(None),
        }
    }

    fn bridging(&self, rt: &R, _alloc: Global, url: &PageUrl) -> Found {
        match self.place_of::<R>(url) {
            Some(place) => self.shards.at(place).bridging(rt, url, self.clock.now(rt)),
            None => Ok(None),
        }
    }

    fn prepared(&self, rt: &R, alloc: Global, answer: Arc<Answer>) -> Result<Prepared, NoMemory> {
        match self.place_of::<R>(answer.url()) {
            Some(place) => self.plans.prepared(rt, alloc, place, answer),
            None => Prepared::of(alloc, answer),
        }
    }
}

impl<R, S, C> Source<R> for Cache<S, C>
where
    R: Wait + time::Clock,
    S: ConcurrentSource<R>,
    C: Clock<R>,
{
    fn fetch(&self, rt: &R, alloc: Global, url: &PageUrl) -> Result<Given, NoMemory> {
        match self.ready(rt, alloc, url)? {
            Some(answer) => Ok(Given::new(answer, Way::Stored)),
            None => fetch_or_fail(self, rt, alloc, url),
        }
    }
}
