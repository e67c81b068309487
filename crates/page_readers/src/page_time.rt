//! The time that a page may take.

ghost use Rattle.std.specs.Prelude.{◌≡◌, ◌≢◌, [], false, None, Some, option_map, IfOk};
ghost use Rattle.std.specs.Arc.{arc_value};
ghost use Rattle.std.specs.Duration.{as_nanos};
ghost use Rattle.std.specs.Time.{instant_nanos};
ghost use Rattle.page_readers.specs.Departure.{is_over};
ghost use Rattle.page_readers.specs.PageTime.{GivesInTime, earlier_of, names_url};

use answer_sources::{Answers, Arrival, Awaited, ConcurrentSource, Given, Way};
use edge_connections::ClientWatch;
use edge_sockets::Bell;
use edge_types::{Answer, NoMemory, PageUrl};
use plan_compiler::Prepared;
use std::alloc::Global;
use std::sync::Arc;
use std::time::{Clock, Duration, Instant};

/// A source as one page sees it: once the page's time is over, or its client is known to have left, nothing is fetched, and
/// what would have been is bridged, or fails at once. What the source has ready costs no time, so it is still given.
#[derive(Drop)]
pub struct WithinTime<S> {
    pub source: Arc<S>,
    /// When the page's time is over; `None` means never.
    pub until: Option<Instant>,
    /// The client's socket, where it is looked at.
    pub client: Option<ClientWatch>,
}

// Whether nothing more is fetched for a page: the limit of its time is past by the clock, or its client has left.
fn is_over(until: Option<Instant>, now: Option<Instant>, has_left: bool) -> bool
    ensures { result ≡ is_over (option_map instant_nanos until) (option_map instant_nanos now) has_left }
{
    if has_left {
        return true;
    }
    match (until, now) {
        (Some(until), Some(now)) => now.duration_since(until).as_nanos() > 0,
        _ => false,
    }
}

// How long it is until then; no time at all where the clock can't be read.
fn left(until: Instant, clock: &impl Clock) -> Duration {
    match Instant::now(clock) {
        Ok(now) => until.duration_since(now),
        Err(_) => Duration::ZERO,
    }
}

// The shorter of two; `None` is any time.
fn shorter(most: Option<Duration>, other: Duration) -> Option<Duration>
    ensures { option_map as_nanos result ≡ earlier_of (option_map as_nanos most) (Some (as_nanos other)) }
{
    match most {
        Some(most) if most < other => Some(most),
        _ => Some(other),
    }
}

// The earlier of two; `None` is never.
fn earlier(one: Option<Instant>, other: Option<Instant>) -> Option<Instant>
    ensures { option_map instant_nanos result ≡ earlier_of (option_map instant_nanos one) (option_map instant_nanos other) }
{
    match (one, other) {
        (Some(one), Some(other)) => Some(one.min(other)),
        (Some(one), None) => Some(one),
        (None, other) => other,
    }
}

impl<S> WithinTime<S> {
    // When the page's time is over, as long as it waits for something.
    fn time_of<F>(&self, in_flight: &FetchesInTime<F>) -> Option<Instant>
        ensures idle { in_flight.now.awaited.items ≡ [] → result ≡ None }
        ensures waits { in_flight.now.awaited.items ≢ [] → result ≡ self.now.until }
    {
        if in_flight.awaited.is_empty() {
            None
        } else {
            self.until
        }
    }

    // Neither the clock nor the socket is looked at where it can't count.
    fn is_over(&self, clock: &impl Clock) -> bool
        ensures { self.now.until ≡ None → self.now.client ≡ None → result ≡ false }
    {
        let now = match self.until {
            Some(_) => Instant::now(clock).ok(),
            None => None,
        };
        let has_left = match &self.client {
            Some(client) => client.has_left(),
            None => false,
        };
        is_over(self.until, now, has_left)
    }

    // Whether the page's time was over when that was last looked at, which is now unless the look still serves.
    fn has_ended<F>(&self, clock: &impl Clock, in_flight: &mut FetchesInTime<F>) -> bool {
        if !in_flight.is_in_time {
            in_flight.is_in_time = !self.is_over(clock);
        }
        !in_flight.is_in_time
    }

    // What is given for a URL that isn't waited for: what would bridge its failing origin, else a failed answer.
    fn too_late<R>(&self, rt: &R, alloc: Global, url: &PageUrl) -> Result<Given, NoMemory>
    where
        S: Answers<R>,
        ensures given { IfOk result (λ given. GivesInTime (S.gives (arc_value self.now.source)) url.now (arc_value given.answer)) }
        ensures named { IfOk result (λ given. (arc_value given.answer).url ≡ url.now) }
    {
        match self.source.bridging(rt, alloc, url)? {
            Some(answer) => Ok(Given::new(answer, Way::Bridged)),
            None => Ok(Given::fetched(Arc::new(alloc, Answer::failed(url.share()?))?)),
        }
    }
}

/// What a page has in flight: the source's fetches, the URLs whose answers are waited for, and those that were asked for
/// too late.
pub struct FetchesInTime<F> {
    fetches: F,
    awaited: Vec<PageUrl>,
    late: Vec<PageUrl>,
    // Whether the page was seen to be in time since it last waited, or was given an answer: so one look serves fetches that
    // are begun one after another, and the wait for them.
    is_in_time: bool,
}

impl<F> FetchesInTime<F> {
    // The answer of a URL isn't waited for any longer. The latest that was asked for mostly comes first.
    fn answered(&mut self, url: &PageUrl) {
        if let Some(place) = self.awaited.iter().rposition(|awaited| awaited == url) {
            self.awaited.swap_remove(place);
        }
    }
}

impl<R, S: Answers<R>> Answers<R> for WithinTime<S> {
    ghost gives = { λ it. GivesInTime (S.gives (arc_value it.source)) };

    ghost names_url = { λ it. names_url (S.gives (arc_value it.source)) (S.names_url (arc_value it.source)) };

    ghost private = { λ it. S.private (arc_value it.source) };

    fn is_private(&self, url: &PageUrl) -> bool {
        self.source.is_private(url)
    }

    fn ready(&self, rt: &R, alloc: Global, url: &PageUrl) -> Result<Option<Arc<Answer>>, NoMemory> {
        self.source.ready(rt, alloc, url)
    }

    fn bridging(
        &self,
        rt: &R,
        alloc: Global,
        url: &PageUrl,
    ) -> Result<Option<Arc<Answer>>, NoMemory> {
        self.source.bridging(rt, alloc, url)
    }

    fn prepared(&self, rt: &R, alloc: Global, answer: Arc<Answer>) -> Result<Prepared, NoMemory> {
        self.source.prepared(rt, alloc, answer)
    }
}

impl<R: Clock, S: ConcurrentSource<R>> ConcurrentSource<R> for WithinTime<S> {
    type InFlight = FetchesInTime<S::InFlight>;

    fn nothing_in_flight(&self, rt: &R, alloc: Global) -> FetchesInTime<S::InFlight> {
        FetchesInTime {
            fetches: self.source.nothing_in_flight(rt, alloc),
            awaited: Vec::new(alloc),
            late: Vec::new(alloc),
            is_in_time: false,
        }
    }

    fn begin(
        &self,
        rt: &R,
        alloc: Global,
        in_flight: &mut FetchesInTime<S::InFlight>,
        url: &PageUrl,
    ) -> Result<(), NoMemory> {
        if self.has_ended(rt, in_flight) {
            in_flight.late.push(url.share()?)?;
            return Ok(());
        }
        in_flight.awaited.reserve(1)?;
        let own = url.share()?;
        self.source.begin(rt, alloc, &mut in_flight.fetches, url)?;
        Ok(in_flight.awaited.push(own)?)
    }

    fn next(&self, rt: &R, alloc: Global, in_flight: &mut FetchesInTime<S::InFlight>) -> Arrival {
        if let Some(url) = in_flight.late.pop() {
            return Ok(Some(self.too_late(rt, alloc, &url)?));
        }
        if let Some(given) = self.source.next(rt, alloc, &mut in_flight.fetches)? {
            in_flight.is_in_time = false;
            in_flight.answered(given.answer.url());
            return Ok(Some(given));
        }
        // A fetch that is under way may go on for others.
        if in_flight.awaited.is_empty() || !self.has_ended(rt, in_flight) {
            return Ok(None);
        }
        match in_flight.awaited.pop() {
            Some(url) => Ok(Some(self.too_late(rt, alloc, &url)?)),
            None => Ok(None),
        }
    }

    fn is_idle(&self, in_flight: &FetchesInTime<S::InFlight>) -> bool {
        in_flight.late.is_empty() && self.source.is_idle(&in_flight.fetches)
    }

    fn wait(
        &self,
        rt: &R,
        alloc: Global,
        in_flight: &mut FetchesInTime<S::InFlight>,
        most: Option<Duration>,
    ) -> Result<(), NoMemory> {
        in_flight.is_in_time = false;
        if !in_flight.late.is_empty() {
            return Ok(());
        }
        let most = match self.time_of(in_flight) {
            Some(until) => shorter(most, left(until, rt)),
            None => most,
        };
        self.source.wait(rt, alloc, &mut in_flight.fetches, most)
    }

    fn awaited(
        &self,
        rt: &R,
        alloc: Global,
        in_flight: &mut FetchesInTime<S::InFlight>,
    ) -> Option<Awaited> {
        in_flight.is_in_time = false;
        let below = self.source.awaited(rt, alloc, &mut in_flight.fetches)?;
        Some(Awaited {
            descriptor: below.descriptor,
            until: earlier(below.until, self.time_of(in_flight)),
        })
    }

    fn bell(&self, rt: &R, in_flight: &mut FetchesInTime<S::InFlight>) -> Option<Bell> {
        self.source.bell(rt, &mut in_flight.fetches)
    }

    fn let_go(&self, rt: &R, alloc: Global, in_flight: &mut FetchesInTime<S::InFlight>) -> bool {
        in_flight.awaited.clear();
        in_flight.late.clear();
        self.source.let_go(rt, alloc, &mut in_flight.fetches)
    }

    fn give_up(&self, rt: &R, alloc: Global, in_flight: FetchesInTime<S::InFlight>) {
        let FetchesInTime {
            fetches,
            awaited: _,
            late: _,
            is_in_time: _,
        } = in_flight;
        self.source.give_up(rt, alloc, fetches);
    }
}
