//! A source that fetches one by one, also for whoever may have several fetches in flight.

ghost use Rattle.std.specs.Prelude.{◌≡◌};

use crate::answers::{Answers, Found};
use crate::concurrent_source::{Arrival, ConcurrentSource};
use crate::source::Source;
use edge_types::{Answer, NoMemory, PageUrl};
use plan_compiler::Prepared;
use std::alloc::Global;
use std::collections::VecDeque;
use std::sync::Arc;

/// A source for whoever may have several fetches in flight: they are made one after another, in the order in which
/// they were begun, each once its answer is waited for.
#[derive(Clone, Copy)]
pub struct OneByOne<'a, S> {
    /// The source.
    pub source: &'a S,
}

impl<'a, R, S: Source<R>> Answers<R> for OneByOne<'a, S> {
    ghost gives = { λ it url answer. S.gives it.source.now url answer };

    ghost names_url = { λ it url answer given. S.names_url it.source.now url answer given };

    ghost private = { λ it url. S.private it.source.now url };

    fn is_private(&self, url: &PageUrl) -> bool {
        self.source.is_private(url)
    }

    fn ready(&self, rt: &R, alloc: Global, url: &PageUrl) -> Found {
        self.source.ready(rt, alloc, url)
    }

    fn bridging(&self, rt: &R, alloc: Global, url: &PageUrl) -> Found {
        self.source.bridging(rt, alloc, url)
    }

    fn prepared(&self, rt: &R, alloc: Global, answer: Arc<Answer>) -> Result<Prepared, NoMemory> {
        self.source.prepared(rt, alloc, answer)
    }
}

impl<'a, R, S: Source<R>> ConcurrentSource<R> for OneByOne<'a, S> {
    type InFlight = VecDeque<PageUrl>;

    fn nothing_in_flight(&self, _rt: &R, alloc: Global) -> VecDeque<PageUrl> {
        VecDeque::new(alloc)
    }

    fn begin(
        &self,
        _rt: &R,
        _alloc: Global,
        in_flight: &mut VecDeque<PageUrl>,
        url: &PageUrl,
    ) -> Result<(), NoMemory> {
        in_flight.push_back(url.share()?)?;
        Ok(())
    }

    fn next(&self, rt: &R, alloc: Global, in_flight: &mut VecDeque<PageUrl>) -> Arrival {
        match in_flight.pop_front() {
            Some(url) => Ok(Some(self.source.fetch(rt, alloc, &url)?)),
            None => Ok(None),
        }
    }

    fn is_idle(&self, in_flight: &VecDeque<PageUrl>) -> bool {
        in_flight.is_empty()
    }

    fn give_up(&self, _rt: &R, _alloc: Global, _in_flight: VecDeque<PageUrl>) {}
}
