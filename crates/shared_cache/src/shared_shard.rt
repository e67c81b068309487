//! A shard of the cache under its lock. Each call locks, makes one call of the shard and unlocks;
//! nothing is fetched under the lock.

ghost use Rattle.std.specs.Prelude.{◌≡◌, IfOk, IfSome};
ghost use Rattle.std.specs.Arc.{arc_value};
ghost use Rattle.std.specs.Sync.Mutex.{mutex_guard_value};
ghost use Rattle.fragment_cache.specs.Shown.{begun_answer};
ghost use Rattle.fragment_cache.specs.Sound.{IsSound, NamesUrl};

use crate::cache_flights::{Joined, Led};
use answer_sources::{Found, Given, Way};
use edge_sockets::Bell;
use edge_types::{Answer, NoMemory, PageUrl};
use fragment_cache::{
    Begun, CacheTally, Flight, MAX_CAPACITY, Picked, Shard, UrlHashing, is_failing,
};
use std::alloc::Global;
use std::collections::BTreeMap;
use std::sync::atomic::{AtomicU64, Ordering};
use std::sync::{Arc, Condvar, Mutex, MutexGuard, Wait};
use std::time::{Clock, Duration};

#[derive(Drop)]
pub(crate) struct SharedShard {
    shelf: Mutex<Shelf>,
    // A flight has landed.
    landed: Condvar,
    // How many have, modulo 2^64. Counted before the lock is left under which the shard got the answer: so whoever finds a
    // flight landed finds the count changed, and whoever finds the count as it was has missed nothing by not looking.
    landings: AtomicU64,
}

// A shard, what was asked of it, how many have left each flight that they had joined: their pick-ups are made once it
// lands, and whom to tell then.
#[derive(Drop)]
struct Shelf {
    shard: Shard,
    asked: CacheTally,
    left: BTreeMap<u64, u64>,
    // What is rung once the flight of a number has landed.
    bells: BTreeMap<u64, Vec<Bell>>,
}

impl Shelf {
    // Lands a flight, and makes the pick-ups of those who have left it.
    fn land(&mut self, flight: Flight, answer: Arc<Answer>, now: u64) -> Given
        requires { (arc_value answer).url ≡ flight.url }
        ensures { (arc_value result.answer).url ≡ flight.url }
    {
        let number = flight.number();
        let fails = is_failing(&answer);
        let answer = self.shard.land(flight, answer, now);
        let mut way = Way::Fetched;
        if fails && !is_failing(&answer) {
            self.asked.note_bridge();
            way = Way::Bridged;
        }
        for _ in 0..self.left.remove(&number).unwrap_or(0) {
            let _ = self.shard.pick(number);
        }
        Given::new(answer, way)
    }

    // Begins for a URL, which is counted.
    fn begin(&mut self, url: &PageUrl, now: u64) -> Begun
        ensures { NamesUrl url.now (begun_answer result) }
    {
        let begun = self.shard.begin(url, now);
        self.asked.note(&begun);
        begun
    }

    // What the shard has ready for a URL, which is counted.
    fn look(&mut self, url: &PageUrl, now: u64) -> Found
        ensures { IfOk result (λ found. IfSome found (λ answer. (arc_value answer).url ≡ url.now)) }
    {
        let found = self.shard.look(url, now)?;
        if found.is_some() {
            self.asked.note_hit();
        }
        Ok(found)
    }

    // What would bridge a failing landing for a URL, which is counted as a bridge.
    fn bridging(&mut self, url: &PageUrl, now: u64) -> Found
        ensures { IfOk result (λ found. IfSome found (λ answer. (arc_value answer).url ≡ url.now)) }
    {
        let found = self.shard.bridging(url, now)?;
        if found.is_some() {
            self.asked.note_bridge();
        }
        Ok(found)
    }

    // Whether a flight hasn't landed.
    fn flies(&self, joined: &Joined) -> bool {
        self.shard.under_way(&joined.url) == Some(joined.number)
    }

    // How many wait for the flight with this number, apart from its leader.
    fn waiting(&self, number: u64) -> u64 {
        let left = self.left.get(&number).copied().unwrap_or(0);
        u64::from(self.shard.pick_ups(number)).saturating_sub(left)
    }

    // Whether as many wait for the URL's flight as may.
    fn is_crowded(&self, url: &PageUrl, most: u32) -> bool {
        match self.shard.under_way(url) {
            Some(number) => self.waiting(number) >= u64::from(most),
            None => false,
        }
    }

    // Has a bell rung once a flight has landed.
    fn hang(&mut self, alloc: Global, number: u64, bell: Bell) -> Result<(), NoMemory> {
        if let Some(bells) = self.bells.get_mut(&number) {
            bells.push(bell)?;
            return Ok(());
        }
        let mut bells = Vec::new(alloc);
        bells.push(bell)?;
        self.bells.insert(number, bells)?;
        Ok(())
    }

    // Notes that one more has left a flight.
    fn note_left(&mut self, number: u64) -> Result<(), NoMemory> {
        match self.left.get_mut(&number) {
            Some(count) => *count = count.saturating_add(1),
            None => {
                self.left.insert(number, 1)?;
            }
        }
        Ok(())
    }
}

impl SharedShard {
    ghost use Rattle.std.specs.Prelude.{◌≤◌};

    pub(crate) fn new(
        alloc: Global,
        capacity: usize,
        hashing: UrlHashing,
    ) -> Result<SharedShard, NoMemory>
        requires from { 1 ≤ capacity }
        requires to { capacity ≤ MAX_CAPACITY }
    {
        Ok(SharedShard {
            shelf: Mutex::new(Shelf {
                shard: Shard::hashed(alloc, capacity, hashing)?,
                asked: CacheTally::new(),
                left: BTreeMap::new(alloc),
                bells: BTreeMap::new(alloc),
            }),
            landed: Condvar::new(),
            landings: AtomicU64::new(0),
        })
    }

    // The shard, once nobody else holds the lock. It is sound whenever the lock is got.
    fn lock<R: Wait>(&self, rt: &R) -> MutexGuard<'_, Shelf>
        ensures { IsSound (mutex_guard_value result).shard }
    {
        let shelf = self.shelf.lock(rt);
        shelf.shard.sound();
        shelf
    }

    // Begins for a URL, unless as many as may already wait for its flight: then nothing is begun or joined.
    pub(crate) fn begin<R: Wait>(
        &self,
        rt: &R,
        url: &PageUrl,
        now: u64,
        most: Option<u32>,
    ) -> Option<Begun>
        ensures { IfSome result (λ begun. NamesUrl url.now (begun_answer begun)) }
    {
        let mut shelf = self.lock(rt);
        match most {
            Some(most) if shelf.is_crowded(url, most) => None,
            _ => Some(shelf.begin(url, now)),
        }
    }

    pub(crate) fn look<R: Wait>(&self, rt: &R, url: &PageUrl, now: u64) -> Found
        ensures { IfOk result (λ found. IfSome found (λ answer. (arc_value answer).url ≡ url.now)) }
    {
        self.lock(rt).look(url, now)
    }

    // The stored answer that would bridge a failing landing for the URL.
    pub(crate) fn bridging<R: Wait>(&self, rt: &R, url: &PageUrl, now: u64) -> Found
        ensures { IfOk result (λ found. IfSome found (λ answer. (arc_value answer).url ≡ url.now)) }
    {
        self.lock(rt).bridging(url, now)
    }

    pub(crate) fn purge<R: Wait>(&self, rt: &R, url: &PageUrl) -> bool {
        self.lock(rt).shard.purge(url)
    }

    pub(crate) fn purge_prefix<R: Wait>(&self, rt: &R, prefix: &[u8]) -> Result<usize, NoMemory> {
        self.lock(rt).shard.purge_prefix(prefix)
    }

    // What it keeps, and what was asked of it.
    pub(crate) fn tally<R: Wait>(&self, rt: &R) -> CacheTally {
        let shelf = self.lock(rt);
        let mut tally = shelf.asked;
        tally.entries = u64::try_from(shelf.shard.entries()).unwrap_or(u64::MAX);
        tally.bytes = shelf.shard.bytes();
        tally
    }

    // Lands a flight, and wakes those who wait for it to land.
    pub(crate) fn land<R: Wait>(
        &self,
        rt: &R,
        flight: Flight,
        answer: Arc<Answer>,
        now: u64,
    ) -> Given
        requires { (arc_value answer).url ≡ flight.url }
        ensures { (arc_value result.answer).url ≡ flight.url }
    {
        self.land_and_tell(self.lock(rt), flight, answer, now)
    }

    // Lands a flight under the lock, leaves it, and wakes those who wait for the flight.
    fn land_and_tell(
        &self,
        shelf: MutexGuard<'_, Shelf>,
        flight: Flight,
        answer: Arc<Answer>,
        now: u64,
    ) -> Given
        requires { (arc_value answer).url ≡ flight.url }
        ensures { (arc_value result.answer).url ≡ flight.url }
    {
        let mut shelf = shelf;
        let number = flight.number();
        let landed = shelf.land(flight, answer, now);
        let bells = shelf.bells.remove(&number);
        self.landings.fetch_add(1, Ordering::SeqCst);
        drop(shelf);
        self.landed.notify_all();
        if let Some(bells) = bells {
            for bell in &bells {
                bell.ring();
            }
        }
        landed
    }

    // Lands a flight with the failed answer of its leader, unless somebody else waits for it: then it comes back. Those who
    // have left it may have bells there yet.
    pub(crate) fn land_unless_awaited<R: Wait>(&self, rt: &R, led: Led, now: u64) -> Option<Led>
        ensures { IfSome result (λ back. back.flight ≡ led.flight) }
    {
        let shelf = self.lock(rt);
        if shelf.waiting(led.flight.number()) > 0 {
            return Some(led);
        }
        let (flight, ready) = led.into_parts();
        let _ = self.land_and_tell(shelf, flight, ready, now);
        None
    }

    // Has the bell rung once a flight has landed: at once, if it has.
    pub(crate) fn ring_once_landed<R: Wait>(
        &self,
        rt: &R,
        alloc: Global,
        joined: &Joined,
        bell: Bell,
    ) -> Result<(), NoMemory> {
        let mut shelf = self.lock(rt);
        if shelf.flies(joined) {
            return shelf.hang(alloc, joined.number, bell);
        }
        drop(shelf);
        bell.ring();
        Ok(())
    }

    // Waits until a flight has landed, or for `most`, where there is one.
    pub(crate) fn wait_for<R: Wait + Clock>(
        &self,
        rt: &R,
        joined: &Joined,
        most: Option<Duration>,
    ) {
        let shelf = self.lock(rt);
        let flies = |shelf: &mut Shelf| shelf.flies(joined);
        let _ = match most {
            Some(most) => self.landed.wait_timeout_while(rt, shelf, most, flies).0,
            None => self.landed.wait_while(rt, shelf, flies),
        };
    }

    /// How many flights have landed: as long as that stays the same, none of those that flew then has.
    pub(crate) fn landings(&self) -> u64 {
        self.landings.load(Ordering::SeqCst)
    }

    // Picks up the answer of the flight with this number, if it has landed.
    pub(crate) fn pick<R: Wait>(&self, rt: &R, number: u64) -> Picked {
        self.lock(rt).shard.pick(number)
    }

    // Somebody who has joined the flight with this number doesn't want its answer any longer. Where there is no
    // room to note it, that is waited for until it has landed.
    pub(crate) fn leave<R: Wait>(&self, rt: &R, number: u64) {
        if self.left(rt, number).is_err() {
            let _ = self.picked_up(rt, number);
        }
    }

    fn left<R: Wait>(&self, rt: &R, number: u64) -> Result<(), NoMemory> {
        let mut shelf = self.lock(rt);
        match shelf.shard.pick(number) {
            Picked::Flying => shelf.note_left(number),
            Picked::Here(_) | Picked::Unknown => Ok(()),
        }
    }

    // Waits until the flight with this number has landed, and picks its answer up; `None` if it is
    // unknown.
    pub(crate) fn picked_up<R: Wait>(&self, rt: &R, number: u64) -> Option<Arc<Answer>> {
        let mut shelf = self.lock(rt);
        for _ in rt.forever() {
            match shelf.shard.pick(number) {
                Picked::Here(answer) => return Some(answer),
                Picked::Unknown => return None,
                Picked::Flying => shelf = self.landed.wait(rt, shelf),
            }
        }
        unreachable!()
    }
}
