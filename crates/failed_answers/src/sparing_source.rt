//! A source that spares URLs that failed.

ghost use Rattle.std.specs.Prelude.{◌≡◌, None, IfOk, IfSome, IsTrue};
ghost use Rattle.std.specs.Arc.{arc_value};

use crate::shared_failures::SharedFailures;
use answer_sources::{
    Answers, Arrival, Awaited, Behalf, Clock, ConcurrentSource, Found, Given, OnBehalf,
};
use edge_sockets::Bell;
use edge_types::{Answer, NoMemory, PageUrl};
use std::alloc::Global;
use std::sync::{Arc, Wait};
use std::time::Duration;

/// A source that asks another one, and doesn't ask it again for a URL that rests since it failed: whoever asks for that one
/// gets the failing answer again, at once. A private URL never rests.
///
/// Any number of threads may share it. Nothing is locked while anything is fetched.
pub struct SparingSource<S, C> {
    source: S,
    clock: C,
    failures: SharedFailures,
}

// By hand, so that who drops one needs no proof of what it is made of.
impl<S: Drop, C: Drop> Drop for SparingSource<S, C> {
    fn drop(self) {
        let SparingSource {
            source: _,
            clock: _,
            failures: _,
        } = self;
    }
}

impl<S: Drop, C: Drop> SparingSource<S, C> {
    /// Over a source and a clock, with what is remembered of URLs that failed. Takes no memory.
    ///
    /// Our profile.
    pub fn new(source: S, clock: C, failures: SharedFailures) -> SparingSource<S, C> {
        SparingSource {
            source,
            clock,
            failures,
        }
    }
}

impl<S, C: Copy> SparingSource<S, C> {
    // The same over another source: it remembers the same failures.
    fn over(&self, source: S) -> Result<SparingSource<S, C>, NoMemory>
    where
        S: Drop,
        ensures source { IfOk result (λ sparing. sparing.source ≡ source) }
        ensures clock { IfOk result (λ sparing. sparing.clock ≡ self.now.clock) }
        ensures failures { IfOk result (λ sparing. sparing.failures ≡ self.now.failures) }
    {
        Ok(SparingSource {
            source,
            clock: self.clock,
            failures: self.failures.share()?,
        })
    }
}

impl<S, C> SparingSource<S, C> {
    // The answer with which a URL failed, if it rests now; a private one never does.
    fn failing<R: Wait>(&self, rt: &R, url: &PageUrl) -> Found
    where
        S: Answers<R>,
        C: Clock<R>,
        ensures named { IfOk result (λ found. IfSome found (λ answer. (arc_value answer).url ≡ url.now)) }
        ensures apart { IsTrue (S.private self.now.source url.now) → IfOk result (λ found. found ≡ None) }
    {
        if self.source.is_private(url) {
            return Ok(None);
        }
        self.failures.failing(rt, &self.clock, url)
    }

    // Notes an answer that has just come, unless its URL is private.
    fn note<R: Wait>(&self, rt: &R, answer: &Arc<Answer>)
    where
        S: Answers<R>,
        C: Clock<R>,
    {
        if !self.source.is_private(answer.url()) {
            self.failures.note(rt, &self.clock, answer);
        }
    }
}

impl<R, S: Answers<R>, C> Answers<R> for SparingSource<S, C> {
    ghost gives = { λ _ url answer. answer.url ≡ url };

    ghost names_url = { λ _ _ _ named. named };

    ghost private = { λ sparing url. S.private sparing.source url };

    fn is_private(&self, url: &PageUrl) -> bool {
        self.source.is_private(url)
    }

    fn ready(&self, rt: &R, alloc: Global, url: &PageUrl) -> Found {
        self.source.ready(rt, alloc, url)
    }

    fn bridging(&self, rt: &R, alloc: Global, url: &PageUrl) -> Found {
        self.source.bridging(rt, alloc, url)
    }
}

// It remembers the same failures, since 508, by which a source would say what the request has passed, isn't one.
impl<R, S: OnBehalf<R> + Drop, C: Copy> OnBehalf<R> for SparingSource<S, C> {
    fn on_behalf(
        &self,
        alloc: Global,
        behalf: Behalf<'_>,
    ) -> Result<Option<SparingSource<S, C>>, NoMemory> {
        match self.source.on_behalf(alloc, behalf)? {
            Some(source) => Ok(Some(self.over(source)?)),
            None => Ok(None),
        }
    }
}

/// What one thread has in flight: the fetches of the source below, and answers that were there at once.
pub struct SparedFetches<F> {
    fetches: F,
    here: Vec<Arc<Answer>>,
}

impl<R: Wait, S: ConcurrentSource<R>, C: Clock<R>> ConcurrentSource<R> for SparingSource<S, C> {
    type InFlight = SparedFetches<S::InFlight>;

    fn nothing_in_flight(&self, rt: &R, alloc: Global) -> SparedFetches<S::InFlight> {
        SparedFetches {
            fetches: self.source.nothing_in_flight(rt, alloc),
            here: Vec::new(alloc),
        }
    }

    fn begin(
        &self,
        rt: &R,
        alloc: Global,
        in_flight: &mut SparedFetches<S::InFlight>,
        url: &PageUrl,
    ) -> Result<(), NoMemory> {
        match self.failing(rt, url)? {
            Some(answer) => Ok(in_flight.here.push(answer)?),
            None => self.source.begin(rt, alloc, &mut in_flight.fetches, url),
        }
    }

    fn next(&self, rt: &R, alloc: Global, in_flight: &mut SparedFetches<S::InFlight>) -> Arrival {
        if let Some(answer) = in_flight.here.pop() {
            return Ok(Some(Given::fetched(answer)));
        }
        let came = self.source.next(rt, alloc, &mut in_flight.fetches)?;
        if let Some(given) = &came {
            self.note(rt, &given.answer);
        }
        Ok(came)
    }

    fn is_idle(&self, in_flight: &SparedFetches<S::InFlight>) -> bool {
        in_flight.here.is_empty() && self.source.is_idle(&in_flight.fetches)
    }

    fn wait(
        &self,
        rt: &R,
        alloc: Global,
        in_flight: &mut SparedFetches<S::InFlight>,
        most: Option<Duration>,
    ) -> Result<(), NoMemory> {
        if !in_flight.here.is_empty() {
            return Ok(());
        }
        self.source.wait(rt, alloc, &mut in_flight.fetches, most)
    }

    fn awaited(
        &self,
        rt: &R,
        alloc: Global,
        in_flight: &mut SparedFetches<S::InFlight>,
    ) -> Option<Awaited> {
        self.source.awaited(rt, alloc, &mut in_flight.fetches)
    }

    fn bell(&self, rt: &R, in_flight: &mut SparedFetches<S::InFlight>) -> Option<Bell> {
        self.source.bell(rt, &mut in_flight.fetches)
    }

    fn let_go(&self, rt: &R, alloc: Global, in_flight: &mut SparedFetches<S::InFlight>) -> bool {
        self.source.let_go(rt, alloc, &mut in_flight.fetches)
    }

    fn give_up(&self, rt: &R, alloc: Global, in_flight: SparedFetches<S::InFlight>) {
        let SparedFetches { fetches, here: _ } = in_flight;
        self.source.give_up(rt, alloc, fetches);
    }
}
