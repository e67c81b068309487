//! What one page has in flight through a cache.

ghost use Rattle.std.specs.Prelude.{◌≡◌, [], length, IfNone, IfSome, IsTrue};
ghost use Rattle.std.specs.Arc.{arc_value};

use crate::shards::ShardPlace;
use answer_sources::Given;
use edge_types::{Answer, NoMemory, PageUrl};
use fragment_cache::Flight;
use std::alloc::Global;
use std::collections::VecDeque;
use std::sync::Arc;

/// What one page has in flight through a cache.
pub struct CacheFlights<F> {
    /// The fetches of the source below.
    pub(crate) fetches: F,
    // The flights that these fetches are made for, and that have to be landed.
    led: Vec<Led>,
    /// Flights that others lead.
    pub(crate) joined: VecDeque<Joined>,
    /// Answers that are there.
    pub(crate) here: Vec<Given>,
}

/// A flight that the thread leads, its shard, and the failed answer with which it lands if there is no other.
pub(crate) struct Led {
    pub(crate) flight: Flight,
    pub(crate) place: ShardPlace,
    ready: Arc<Answer>,
    ghost named: { (arc_value ready).url ≡ flight.url },
}

/// A flight that another thread leads: its URL, its shard and its number there.
#[derive(Drop)]
pub(crate) struct Joined {
    pub(crate) url: PageUrl,
    pub(crate) place: ShardPlace,
    pub(crate) number: u64,
    /// How many flights had landed in the shard when this one was last known to fly.
    pub(crate) landings: u64,
    /// Whether the page has left a bell there.
    pub(crate) has_bell: bool,
}

impl Led {
    pub(crate) fn new(flight: Flight, place: ShardPlace, ready: Arc<Answer>) -> Led
        requires { (arc_value ready).url ≡ flight.url }
        ensures flight { result.flight ≡ flight }
        ensures place { result.place ≡ place }
    {
        Led {
            flight,
            place,
            ready,
        }
    }

    /// The flight and its failed answer.
    pub(crate) fn into_parts(self) -> (Flight, Arc<Answer>)
        ensures flight { result.0 ≡ self.flight }
        ensures named { (arc_value result.1).url ≡ self.flight.url }
    {
        let Led {
            flight,
            place: _,
            ready,
        } = self;
        (flight, ready)
    }
}

impl<F> CacheFlights<F> {
    /// Nothing but these fetches.
    pub(crate) fn new(alloc: Global, fetches: F) -> CacheFlights<F> {
        CacheFlights {
            fetches,
            led: Vec::new(alloc),
            joined: VecDeque::new(alloc),
            here: Vec::new(alloc),
        }
    }

    /// Makes room for one more.
    pub(crate) fn reserve(&mut self) -> Result<(), NoMemory> {
        self.led.reserve(1)?;
        self.joined.reserve(1)?;
        // All that were joined may have landed by the next look.
        self.here.reserve(self.joined.len().saturating_add(1))?;
        Ok(())
    }

    /// Adds a flight that the thread leads; gives it back if there is no room.
    pub(crate) fn lead(&mut self, led: Led) -> Result<(), Led> {
        match self.led.push(led) {
            Ok(()) => Ok(()),
            Err(failed) => Err(failed.value),
        }
    }

    /// Takes out the flight of a URL that the thread leads.
    pub(crate) fn take_led(&mut self, url: &PageUrl) -> Option<Led>
        ensures { IfSome result (λ led. led.flight.url ≡ url.now) }
    {
        let place = self.led.iter().rposition(|led| is_for(led, url))?;
        Some(self.led.swap_remove(place))
    }

    /// Whether nothing is there beside the fetches.
    pub(crate) fn is_empty(&self) -> bool {
        self.led.is_empty() && self.joined.is_empty() && self.here.is_empty()
    }

    /// How many flights are led.
    pub(crate) fn led(&self) -> usize
        ensures { result ≡ length self.now.led.items }
    {
        self.led.len()
    }

    /// Takes out the flight at a place among those that are led.
    pub(crate) fn take_led_at(&mut self, place: usize) -> Option<Led> {
        if place >= self.led.len() {
            return None;
        }
        Some(self.led.swap_remove(place))
    }

    /// Takes out any flight that the thread leads.
    pub(crate) fn pop_led(&mut self) -> Option<Led>
        ensures { IfNone result (self.new.led.items ≡ []) }
    {
        self.led.pop()
    }

    /// The fetches, once the thread leads no flight.
    pub(crate) fn into_fetches(self) -> F
        requires { self.led.items ≡ [] }
    {
        let CacheFlights {
            fetches,
            led,
            joined: _,
            here: _,
        } = self;
        led.destroy_empty();
        fetches
    }
}

// Whether the flight is for a URL.
fn is_for(led: &Led, url: &PageUrl) -> bool
    ensures { IsTrue result → led.now.flight.url ≡ url.now }
{
    led.flight.url() == url
}
