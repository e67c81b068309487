//! Fetches that a page owes to others.

use answer_sources::{Awaited, ConcurrentSource};
use std::alloc::Global;
use std::sync::Wait;
use std::time::Duration;

/// Fetches of a page that needs them no longer, for which others wait, who have joined them. Whoever has them goes on with
/// them, one thread at a time. They are given up where this is dropped: then who waits has a failed answer.
pub struct OwedFetches<R: Wait + Drop, S: ConcurrentSource<R> + Drop> {
    // In a box, since most pages owe nothing, and what they might owe is moved with each.
    owing: Box<Owing<R, S>>,
}

/// What is in flight for a page that needs it no longer.
pub(crate) struct Owing<R: Wait + Drop, S: ConcurrentSource<R> + Drop> {
    pub(crate) rt: R,
    pub(crate) alloc: Global,
    pub(crate) source: S,
    pub(crate) fetches: S::InFlight,
}

impl<R: Wait + Drop, S: ConcurrentSource<R> + Drop> Drop for OwedFetches<R, S> {
    fn drop(self) {
        let OwedFetches { owing } = self;
        Box::into_inner(owing).give_up();
    }
}

impl<R: Wait + Drop, S: ConcurrentSource<R> + Drop> OwedFetches<R, S> {
    /// Goes on as far as it gets without waiting. They come back if somebody still waits for them.
    pub fn go_on(self) -> Option<OwedFetches<R, S>> {
        let OwedFetches { mut owing } = self;
        if owing.has_let_go() {
            Box::into_inner(owing).give_up();
            return None;
        }
        Some(OwedFetches { owing })
    }

    /// What they wait for; `None` where only `wait` tells.
    pub fn awaited(&mut self) -> Option<Awaited> {
        self.owing.awaited()
    }

    /// Waits until they may be gone on with, or for `most`, where there is one.
    pub fn wait(&mut self, most: Option<Duration>) {
        self.owing.wait(most);
    }
}

impl<R: Wait + Drop, S: ConcurrentSource<R> + Drop> Owing<R, S> {
    /// What others wait for. What nobody waits for ends, and so does all of it where there is no room for it.
    pub(crate) fn owed(self) -> Option<OwedFetches<R, S>> {
        let mut owing = self;
        if owing.has_let_go() {
            owing.give_up();
            return None;
        }
        match Box::new(owing.alloc, owing) {
            Ok(owing) => Some(OwedFetches { owing }),
            Err(failed) => {
                failed.value.give_up();
                None
            }
        }
    }

    // Ends what nobody waits for. Whether nothing is left.
    fn has_let_go(&mut self) -> bool {
        let source = &self.source;
        source.let_go(&self.rt, self.alloc, &mut self.fetches)
    }

    /// Ends all of it: who waits has a failed answer.
    pub(crate) fn give_up(self) {
        let Owing {
            rt,
            alloc,
            source,
            fetches,
        } = self;
        source.give_up(&rt, alloc, fetches);
    }

    fn awaited(&mut self) -> Option<Awaited> {
        let source = &self.source;
        source.awaited(&self.rt, self.alloc, &mut self.fetches)
    }

    fn wait(&mut self, most: Option<Duration>) {
        // Without memory for what is told, they are gone on with at once.
        let source = &self.source;
        let _ = source.wait(&self.rt, self.alloc, &mut self.fetches, most);
    }
}
