//! What a page has in flight through a cache: fetches that it makes for all, and flights of others that it has joined.

ghost use Rattle.std.specs.Prelude.{◌≡◌, [], IfOk, IfSome};
ghost use Rattle.std.specs.Arc.{arc_value};
ghost use Rattle.shared_cache.specs.Circles.{IfLanded, IsForAll};

use crate::cache::{Cache, is_for_all};
use crate::cache_flights::{CacheFlights, Joined, Led};
use answer_sources::{Arrival, Awaited, Clock, ConcurrentSource, Given, Way};
use edge_sockets::Bell;
use edge_types::{NoMemory, PageUrl};
use fragment_cache::{Begun, Picked};
use std::alloc::Global;
use std::sync::Wait;
use std::time;
use std::time::Duration;

// What a look at a flight that another leads has found.
#[derive(Drop)]
pub(crate) enum Look {
    // It has landed, with an answer for all.
    Landed(Given),
    // It has landed, and its answer isn't for all, so a fetch was begun.
    Begun,
    // It hasn't landed.
    Flying,
}

impl<S, C> Cache<S, C> {
    // Begins the fetch of a flight that the thread leads. Without room for it the flight lands at once.
    fn depart<R: Wait>(
        &self,
        rt: &R,
        alloc: Global,
        in_flight: &mut CacheFlights<S::InFlight>,
        led: Led,
    ) -> Result<(), NoMemory>
    where
        S: ConcurrentSource<R>,
        C: Clock<R>,
    {
        let begun = self
            .source
            .begin(rt, alloc, &mut in_flight.fetches, led.flight.url());
        let left = match begun {
            Ok(()) => in_flight.lead(led),
            Err(NoMemory) => Err(led),
        };
        match left {
            Ok(()) => Ok(()),
            Err(led) => {
                let _ = self.land_ready(rt, led);
                Err(NoMemory)
            }
        }
    }

    // Lands a flight with the failed answer of its leader.
    fn land_ready<R: Wait>(&self, rt: &R, led: Led) -> Given
    where
        C: Clock<R>,
    {
        let shard = self.shards.at(led.place);
        let (flight, ready) = led.into_parts();
        shard.land(rt, flight, ready, self.clock.now(rt))
    }

    // Lands the flight for which an answer has come, if there is one.
    fn landed<R: Wait>(
        &self,
        rt: &R,
        alloc: Global,
        in_flight: &mut CacheFlights<S::InFlight>,
        given: Given,
    ) -> Given
    where
        S: ConcurrentSource<R>,
        C: Clock<R>,
    {
        let Some(led) = in_flight.take_led(given.answer.url()) else {
            return given;
        };
        let place = led.place;
        let (flight, _) = led.into_parts();
        self.land(rt, alloc, place, flight, given.into_answer())
    }

    // Whether a flight has landed, in a shard that has one which the page has joined, since that was last looked at.
    fn has_landings<F>(&self, in_flight: &CacheFlights<F>) -> bool {
        in_flight.joined.iter().any(|joined| self.shards.at(joined.place).landings()
            != joined.landings)
    }

    // Looks at each flight that others lead. Whether something has moved: an answer is there, or a fetch was begun.
    fn look_at_joined<R: Wait>(
        &self,
        rt: &R,
        alloc: Global,
        in_flight: &mut CacheFlights<S::InFlight>,
    ) -> Result<bool, NoMemory>
    where
        S: ConcurrentSource<R>,
    {
        let mut has_moved = false;
        if !self.has_landings(in_flight) {
            return Ok(has_moved);
        }
        for _ in 0..in_flight.joined.len() {
            let Some(joined) = in_flight.joined.pop_front() else {
                return Ok(has_moved);
            };
            match self.look_at(rt, alloc, in_flight, joined)? {
                Look::Landed(given) => {
                    in_flight.here.push(given)?;
                    has_moved = true;
                }
                Look::Begun => has_moved = true,
                Look::Flying => {}
            }
        }
        Ok(has_moved)
    }

    // Looks at a flight that another leads, which is kept while it flies; nothing is looked for where no flight has landed
    // since the last look. One whose answer can't be picked up, or isn't for all, is fetched.
    fn look_at<R: Wait>(
        &self,
        rt: &R,
        alloc: Global,
        in_flight: &mut CacheFlights<S::InFlight>,
        mut joined: Joined,
    ) -> Result<Look, NoMemory>
    where
        S: ConcurrentSource<R>,
        ensures { IfOk result (λ look. IfLanded look (λ given. IsForAll joined.url (arc_value given.answer))) }
    {
        let shard = self.shards.at(joined.place);
        let landings = shard.landings();
        if landings == joined.landings {
            in_flight.joined.push_back(joined)?;
            return Ok(Look::Flying);
        }
        match shard.pick(rt, joined.number) {
            Picked::Here(answer) if is_for_all(&answer, &joined.url) => {
                Ok(Look::Landed(Given::new(answer, Way::Joined)))
            }
            Picked::Flying => {
                joined.landings = landings;
                in_flight.joined.push_back(joined)?;
                Ok(Look::Flying)
            }
            Picked::Here(_) | Picked::Unknown => {
                self.source
                    .begin(rt, alloc, &mut in_flight.fetches, &joined.url)?;
                Ok(Look::Begun)
            }
        }
    }

    // Has the page told once a flight that others lead has landed.
    fn leave_bells<R: Wait>(
        &self,
        rt: &R,
        alloc: Global,
        in_flight: &mut CacheFlights<S::InFlight>,
    ) -> Result<(), NoMemory>
    where
        S: ConcurrentSource<R>,
    {
        if in_flight.joined.is_empty() {
            return Ok(());
        }
        let Some(bell) = self.source.bell(rt, &mut in_flight.fetches) else {
            return Err(NoMemory);
        };
        for joined in in_flight.joined.iter_mut() {
            if !joined.has_bell {
                let shard = self.shards.at(joined.place);
                shard.ring_once_landed(rt, alloc, joined, bell.share()?)?;
                joined.has_bell = true;
            }
        }
        Ok(())
    }

    // Leaves each flight that others lead.
    fn leave_joined<R: Wait>(&self, rt: &R, in_flight: &mut CacheFlights<S::InFlight>)
    where
        S: ConcurrentSource<R>,
    {
        for _ in rt.forever() {
            let Some(joined) = in_flight.joined.pop_front() else {
                return;
            };
            self.shards.at(joined.place).leave(rt, joined.number);
        }
        unreachable!()
    }

    // Lands each flight that is led and that nobody else waits for.
    fn land_unawaited<R: Wait>(&self, rt: &R, in_flight: &mut CacheFlights<S::InFlight>)
    where
        S: ConcurrentSource<R>,
        C: Clock<R>,
    {
        for place in (0..in_flight.led()).rev() {
            let Some(led) = in_flight.take_led_at(place) else {
                return;
            };
            let shard = self.shards.at(led.place);
            let Some(led) = shard.land_unless_awaited(rt, led, self.clock.now(rt)) else {
                continue;
            };
            if let Err(led) = in_flight.lead(led) {
                let _ = self.land_ready(rt, led);
            }
        }
    }

    // Ends each flight that the page leads by a failed answer.
    fn end_led<R: Wait>(&self, rt: &R, in_flight: &mut CacheFlights<S::InFlight>)
    where
        S: ConcurrentSource<R>,
        C: Clock<R>,
        ensures { in_flight.new.led.items ≡ [] }
    {
        for _ in rt.forever() {
            let Some(led) = in_flight.pop_led() else {
                return;
            };
            let _ = self.land_ready(rt, led);
        }
        unreachable!()
    }
}

impl<R, S, C> ConcurrentSource<R> for Cache<S, C>
where
    R: Wait + time::Clock,
    S: ConcurrentSource<R>,
    C: Clock<R>,
{
    type InFlight = CacheFlights<S::InFlight>;

    fn nothing_in_flight(&self, rt: &R, alloc: Global) -> CacheFlights<S::InFlight> {
        CacheFlights::new(alloc, self.source.nothing_in_flight(rt, alloc))
    }

    fn begin(
        &self,
        rt: &R,
        alloc: Global,
        in_flight: &mut CacheFlights<S::InFlight>,
        url: &PageUrl,
    ) -> Result<(), NoMemory> {
        let Some(place) = self.place_of::<R>(url) else {
            return self.source.begin(rt, alloc, &mut in_flight.fetches, url);
        };
        in_flight.reserve()?;
        let own = url.share()?;
        let shard = self.shards.at(place);
        // Before the flight is joined: what lands later is looked at.
        let landings = shard.landings();
        match shard.begin(rt, url, self.clock.now(rt), self.most_waiting) {
            None => Ok(
                in_flight
                    .here
                    .push(self.crowded_out(rt, alloc, place, url)?)?,
            ),
            Some(Begun::Hit(answer)) => {
                Ok(in_flight.here.push(Given::new(answer, Way::Stored))?)
            }
            Some(Begun::Join(number)) => {
                let joined = Joined {
                    url: own,
                    place,
                    number,
                    landings,
                    has_bell: false,
                };
                Ok(in_flight.joined.push_back(joined)?)
            }
            Some(Begun::Lead(flight, ready)) => {
                self.depart(rt, alloc, in_flight, Led::new(flight, place, ready))
            }
            Some(Begun::Bypass) => self.source.begin(rt, alloc, &mut in_flight.fetches, url),
        }
    }

    // What the source has to say first, which may take a ring: so whatever the ring is about is seen by the look at the
    // flights that others lead.
    fn next(&self, rt: &R, alloc: Global, in_flight: &mut CacheFlights<S::InFlight>) -> Arrival {
        for _ in rt.forever() {
            if let Some(given) = in_flight.here.pop() {
                return Ok(Some(given));
            }
            if let Some(given) = self.source.next(rt, alloc, &mut in_flight.fetches)? {
                return Ok(Some(self.landed(rt, alloc, in_flight, given)));
            }
            if self.look_at_joined(rt, alloc, in_flight)? {
                continue;
            }
            if !self.source.is_idle(&in_flight.fetches) {
                return Ok(None);
            }
            // A flight whose fetch the source has lost.
            return match in_flight.pop_led() {
                Some(led) => Ok(Some(self.land_ready(rt, led))),
                None => Ok(None),
            };
        }
        unreachable!()
    }

    fn is_idle(&self, in_flight: &CacheFlights<S::InFlight>) -> bool {
        in_flight.is_empty() && self.source.is_idle(&in_flight.fetches)
    }

    // Others' flights are waited for only once nothing else is in flight: nobody waits for this page's then. They are
    // waited for one after another, as they were joined, so most have landed when their turn comes.
    fn wait(
        &self,
        rt: &R,
        alloc: Global,
        in_flight: &mut CacheFlights<S::InFlight>,
        most: Option<Duration>,
    ) -> Result<(), NoMemory> {
        if !in_flight.here.is_empty() {
            return Ok(());
        }
        if !self.source.is_idle(&in_flight.fetches) {
            return self.source.wait(rt, alloc, &mut in_flight.fetches, most);
        }
        if let Some(joined) = in_flight.joined.front() {
            self.shards.at(joined.place).wait_for(rt, joined, most);
        }
        Ok(())
    }

    fn awaited(
        &self,
        rt: &R,
        alloc: Global,
        in_flight: &mut CacheFlights<S::InFlight>,
    ) -> Option<Awaited> {
        self.leave_bells(rt, alloc, in_flight).ok()?;
        self.source.awaited(rt, alloc, &mut in_flight.fetches)
    }

    fn bell(&self, rt: &R, in_flight: &mut CacheFlights<S::InFlight>) -> Option<Bell> {
        self.source.bell(rt, &mut in_flight.fetches)
    }

    fn let_go(&self, rt: &R, alloc: Global, in_flight: &mut CacheFlights<S::InFlight>) -> bool {
        self.leave_joined(rt, in_flight);
        for _ in rt.forever() {
            self.land_unawaited(rt, in_flight);
            if in_flight.led() == 0 {
                return true;
            }
            match self.source.next(rt, alloc, &mut in_flight.fetches) {
                Ok(Some(given)) => {
                    let _ = self.landed(rt, alloc, in_flight, given);
                }
                Ok(None) if !self.source.is_idle(&in_flight.fetches) => return false,
                _ => self.end_led(rt, in_flight),
            }
        }
        unreachable!()
    }

    fn give_up(&self, rt: &R, alloc: Global, in_flight: CacheFlights<S::InFlight>) {
        let mut in_flight = in_flight;
        self.leave_joined(rt, &mut in_flight);
        self.end_led(rt, &mut in_flight);
        self.source.give_up(rt, alloc, in_flight.into_fetches());
    }
}
