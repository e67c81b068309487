//! The fetches that one page has in flight.

ghost use Rattle.std.specs.Prelude.{◌≡◌, ◌<◌, [], length, IfSome};

use crate::errand::Errand;
use crate::fetch::{Fetch, FetchStep};
use edge_sockets::{Bell, Deadline, Poller};
use edge_types::{Answer, NoMemory, PageUrl};
use fetch_outcomes::Lost;
use origin_health::{FetchEnd, Permit};
use origin_queue::Place;
use origins::OriginGate;
use slab::Slab;
use std::alloc::Global;
use std::collections::VecDeque;
use std::mem;
use std::os::fd::RawFd;
use std::sync::{Arc, Wait};
use std::time::{Clock, Duration, Instant};

/// The fetches that one page has in flight.
pub struct FetchesInFlight {
    /// What they wait in; `None` before the first fetch.
    pub poller: Option<Poller>,
    /// Those that are under way, by their keys.
    pub fetches: Slab<Fetch>,
    permits: Vec<HeldPermit>,
    /// The keys of fetches that are to make a step.
    pub due: VecDeque<usize>,
    /// Answers that were there at once.
    pub answers: VecDeque<Arc<Answer>>,
    // What is to be fetched once its address lets it through.
    queued: VecDeque<Queued>,
    news: News,
}

// What is known of the sockets and of the poller's bell since the latest wait.
#[derive(Clone, Copy, Debug, PartialEq, Eq)]
enum News {
    // Nothing: only a wait will tell more.
    Nothing,
    // A wait has told, and the queue is to be looked at.
    Told,
    // Somebody else may have waited, who was told what is awaited.
    Elsewhere,
}

/// A fetch that asks the gate of its origin.
#[derive(Drop)]
pub struct Gated {
    pub errand: Errand,
    pub gate: OriginGate,
}

/// A fetch that waits at a place in the queue of its gate. It can't be dropped, since the gate has to be told that it
/// leaves.
pub struct Queued {
    pub gated: Gated,
    pub place: Place,
}

impl Queued {
    /// Whether it has waited as long as it may; so also where the clock can't be read.
    pub fn is_late(&self, now: Option<Instant>) -> bool {
        match now {
            Some(now) => self.gated.errand.patience.is_over(now),
            None => true,
        }
    }

    /// Gives the place up.
    pub fn leave<R: Wait>(self, rt: &R) {
        let Queued { gated, place } = self;
        gated.gate.leave(rt, place);
    }
}

/// The leave to make a fetch, of a gate that has to be told its end.
pub struct HeldPermit {
    pub key: usize,
    pub gate: OriginGate,
    pub permit: Permit,
}

impl HeldPermit {
    /// Tells the gate how the fetch has ended.
    pub fn ended<R: Wait + Clock>(self, rt: &R, end: FetchEnd) {
        let HeldPermit {
            key: _,
            gate,
            permit,
        } = self;
        gate.ended(rt, permit, end);
    }
}

impl FetchesInFlight {
    /// Nothing is in flight.
    pub fn new(alloc: Global) -> FetchesInFlight {
        FetchesInFlight {
            poller: None,
            fetches: Slab::new(alloc),
            permits: Vec::new(alloc),
            due: VecDeque::new(alloc),
            answers: VecDeque::new(alloc),
            queued: VecDeque::new(alloc),
            news: News::Nothing,
        }
    }

    /// Makes room for one more fetch, of which a wait may tell twice: that it is ready, and that it is late.
    pub fn reserve(&mut self) -> Result<(), NoMemory> {
        let more = self.queued.len().saturating_add(1);
        let count = self.fetches.len().saturating_add(more);
        self.fetches.reserve(more)?;
        self.permits.reserve(more)?;
        self.answers.reserve(more)?;
        self.queued.reserve(1)?;
        self.due.reserve(count.saturating_mul(2))?;
        Ok(())
    }

    /// Adds a fetch, and gives its key.
    pub fn admit(&mut self, fetch: Fetch) -> Result<usize, Lost> {
        match self.fetches.insert(fetch) {
            Ok(key) => Ok(key),
            Err(_) => Err(Lost::NoMemory),
        }
    }

    /// Holds the permit of a fetch until that ends. Without room for it the fetch has ended.
    pub fn hold<R: Wait + Clock>(&mut self, rt: &R, held: HeldPermit) -> Result<(), Lost> {
        match self.permits.push(held) {
            Ok(()) => Ok(()),
            Err(failed) => {
                let _ = self.fetches.try_remove(failed.value.key);
                failed.value.ended(rt, FetchEnd::Other);
                Err(Lost::NoMemory)
            }
        }
    }

    /// Takes out a fetch, and tells its gate, if it has one, how it has ended.
    pub fn remove<R: Wait + Clock>(&mut self, rt: &R, key: usize, end: FetchEnd) -> Option<Fetch> {
        if let Some(place) = place_of(self.permits.as_slice(), key) {
            self.permits.swap_remove(place).ended(rt, end);
        }
        self.fetches.try_remove(key)
    }

    /// Has a fetch wait behind the others. Without room for it, it gives its place up.
    pub fn queue<R: Wait>(&mut self, rt: &R, queued: Queued) -> Result<(), Lost> {
        match self.queued.push_back(queued) {
            Ok(()) => Ok(()),
            Err(failed) => {
                failed.value.leave(rt);
                Err(Lost::NoMemory)
            }
        }
    }

    /// How many fetches wait.
    pub fn count_queued(&self) -> usize {
        self.queued.len()
    }

    /// Takes out the fetch that has waited longest, to look at it.
    pub fn first_queued(&mut self) -> Option<Queued> {
        self.queued.pop_front()
    }

    /// Has the fetch of a key make a step, if it is there.
    pub fn step(&mut self, clock: &impl Clock, alloc: Global, key: usize) -> FetchStep {
        match (&self.poller, self.fetches.get_mut(key)) {
            (Some(poller), Some(fetch)) => fetch.step(clock, alloc, poller, key),
            _ => FetchStep::Waits,
        }
    }

    /// Waits until fetches are to make a step: sockets are ready, the first fetch is late, or the bell is rung; or for
    /// `most`, where there is one.
    pub fn wait(&mut self, clock: &impl Clock, most: Option<Duration>) -> Result<(), NoMemory> {
        let patience = at_most(self.patience(clock), most);
        self.told(clock, patience)?;
        self.news = News::Told;
        Ok(())
    }

    /// Whether a look may find a fetch that is to make a step, or that its origin calls. Without a wait, here or elsewhere,
    /// none does but for a fetch that goes on: a look then would take a call and tell what the next wait tells.
    pub fn has_news(&self) -> bool {
        self.news != News::Nothing || self.goes_on()
    }

    /// Looks which fetches are to make a step, and doesn't wait. A wait has told all that there is.
    pub fn look(&mut self, clock: &impl Clock) -> Result<(), NoMemory> {
        match mem::replace(&mut self.news, News::Nothing) {
            News::Told => Ok(()),
            News::Nothing | News::Elsewhere => self.told(clock, 0),
        }
    }

    // Lists what is to make a step, after at most this many milliseconds, or as long as it takes if below 0.
    fn told(&mut self, clock: &impl Clock, millis: i32) -> Result<(), NoMemory> {
        if let Some(poller) = &self.poller {
            poller.wait(millis, &mut self.due)?;
        }
        let now = Instant::now(clock).ok();
        for (key, fetch) in self.fetches.iter() {
            if fetch.is_due(now) {
                self.due.push_back(key)?;
            }
        }
        Ok(())
    }

    // For how many milliseconds a wait may take; below 0, for as long as it takes.
    fn patience(&self, clock: &impl Clock) -> i32 {
        if self.goes_on() || !self.answers.is_empty() || !self.due.is_empty() {
            return 0;
        }
        self.first_deadline().millis_left(clock)
    }

    /// Whether one of the fetches goes on without its socket being ready.
    pub fn goes_on(&self) -> bool {
        self.fetches.iter().any(|(_, fetch)| fetch.goes_on())
    }

    fn first_deadline(&self) -> Deadline {
        let mut first = Deadline::never();
        for (_, fetch) in self.fetches.iter() {
            first = first.or_earlier(fetch.deadline);
        }
        first.or_earlier(self.first_of_queued())
    }

    fn first_of_queued(&self) -> Deadline {
        let mut first = Deadline::never();
        for queued in &self.queued {
            first = first.or_earlier(queued.gated.errand.patience);
        }
        first
    }

    /// What is waited in, where there is anything. Somebody else waits in it from now on, so the next look is at the sockets
    /// themselves.
    pub fn awaited_elsewhere(&mut self) -> Option<RawFd> {
        let descriptor = self.poller.as_ref()?.descriptor();
        self.news = News::Elsewhere;
        Some(descriptor)
    }

    /// When the first of the fetches is late; `None` means never.
    pub fn until(&self) -> Option<Instant> {
        self.first_deadline().instant()
    }

    /// What rings whoever waits for these fetches.
    pub fn bell(&self) -> Option<Bell> {
        self.poller.as_ref()?.bell()
    }

    /// Whether nothing is in flight.
    pub fn is_idle(&self) -> bool {
        self.fetches.is_empty() && self.answers.is_empty() && self.queued.is_empty()
    }

    /// Gives all up: tells the gates, closes the sockets, and gives the poller back.
    pub fn into_poller<R: Wait + Clock>(self, rt: &R) -> Option<Poller> {
        let FetchesInFlight {
            poller,
            fetches: _,
            mut permits,
            due: _,
            answers: _,
            mut queued,
            news: _,
        } = self;
        // Before the permits, which would call them.
        leave_each(rt, &mut queued);
        queued.destroy_empty();
        end_each(rt, &mut permits);
        permits.destroy_empty();
        poller
    }
}

// Gives up the places of fetches that wait.
fn leave_each<R: Wait>(rt: &R, queued: &mut VecDeque<Queued>)
    ensures { queued.new.items ≡ [] }
{
    for _ in rt.forever() {
        match queued.pop_front() {
            Some(waiting) => waiting.leave(rt),
            None => return,
        }
    }
    unreachable!()
}

// Tells the gates that their fetches have ended otherwise.
fn end_each<R: Wait + Clock>(rt: &R, permits: &mut Vec<HeldPermit>)
    ensures { permits.new.items ≡ [] }
{
    for _ in rt.forever() {
        match permits.pop() {
            Some(held) => held.ended(rt, FetchEnd::Other),
            None => return,
        }
    }
    unreachable!()
}

// So many milliseconds, below 0 for as long as it takes, but no more than `most`.
fn at_most(millis: i32, most: Option<Duration>) -> i32 {
    let Some(most) = most else {
        return millis;
    };
    let most = i32::try_from(most.as_nanos().div_ceil(1_000_000)).unwrap_or(i32::MAX);
    if millis < 0 { most } else { millis.min(most) }
}

fn place_of(permits: &[HeldPermit], key: usize) -> Option<usize>
    ensures { IfSome result (λ i. i < length permits.now) }
{
    for (i, held) in permits.iter().enumerate() {
        if held.key == key {
            return Some(i);
        }
    }
    None
}
