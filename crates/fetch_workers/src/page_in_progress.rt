//! Pages that wait for their fetches as values, and hold no thread.

ghost use Rattle.std.specs.Prelude.{◌≡◌, box_value, IfErr, IfOk, OnOk};
ghost use Rattle.fetch_workers.specs.Made.{IsAssembledBy};
ghost use Rattle.fetch_workers.specs.Progress.{AreGiven};

use crate::assembler::{Assembled, put_together};
use crate::concurrent_worker::Flights;
use crate::fault::AssembleFault;
use crate::log::Own;
use crate::owed_fetches::{OwedFetches, Owing};
use crate::shared_desk::SharedDesk;
use crate::wanted_page::WantedPage;
use crate::worker::Worker;
use answer_sources::{Answers, Awaited, ConcurrentSource, OpenGate};
use edge_types::NoMemory;
use plan_runner::Page;
use std::alloc::Global;
use std::marker::PhantomData;
use std::sync::Wait;
use std::time::Duration;

/// A page, or why it was not assembled.
pub type Made = Result<Assembled, AssembleFault>;

/// A page that is being assembled, by whoever has it: one thread at a time, not always the same one. It has fetches in
/// flight, and holds no thread while it waits for them. One that is dropped gives them up, by its own runtime.
pub struct PageInProgress<R: Wait + Drop, S: ConcurrentSource<R> + Drop> {
    pub(crate) work: Work<R, S>,
}

/// What a page has come to, and those of its fetches for which others wait.
#[derive(Drop)]
pub struct Ended<R: Wait + Drop, S: ConcurrentSource<R> + Drop> {
    /// The page.
    pub made: Made,
    /// What others wait for, who have joined fetches that the page began; `None` where nobody does.
    pub owed: Option<OwedFetches<R, S>>,
}

// A source, and what was posted of its answers.
struct Posted<R, S: Answers<R>> {
    source: S,
    own: Vec<Own>,
    runtime: PhantomData<R>,
    ghost given: { ∥ AreGiven (S.gives source) own.items ∥₁ },
}

impl<R, S: Answers<R>> Posted<R, S> {
    // States that the source gave what was posted. Does nothing.
    fn known(&self)
        ensures { AreGiven (S.gives self.now.source) self.now.own.items }
    {}
}

impl<R: Wait, S: ConcurrentSource<R>> Posted<R, S> {
    // The same once nothing can be done without waiting, or the work has ended; and whether it has, and how.
    fn worked(
        self,
        under_way: &mut UnderWay<R, S::InFlight>,
    ) -> (Posted<R, S>, Result<bool, AssembleFault>)
        ensures source { result.0.source ≡ self.source }
        ensures wanted { under_way.new.wanted ≡ under_way.old.wanted }
    {
        self.known();
        let alloc = under_way.alloc;
        let Posted {
            source,
            mut own,
            runtime: _,
        } = self;
        let worker = Worker {
            rt: &under_way.rt,
            alloc,
            source: &source,
            gate: &OpenGate,
            shared: &under_way.desk,
        };
        match worker.go_on(under_way.most, &mut under_way.flights, &mut own) {
            Ok(has_ended) => {
                let posted = Posted {
                    source,
                    own,
                    runtime: PhantomData,
                };
                (posted, Ok(has_ended))
            }
            Err(fault) => {
                let posted = Posted {
                    source,
                    own: Vec::new(alloc),
                    runtime: PhantomData,
                };
                (posted, Err(fault))
            }
        }
    }
}

// What a page has under way, and what was asked for.
struct UnderWay<R, F> {
    rt: R,
    alloc: Global,
    // The page, whose desk nobody else shares.
    desk: SharedDesk,
    // What it has in flight, once something is.
    flights: Option<Box<Flights<F>>>,
    // How many fetches it may have in flight.
    most: u16,
    wanted: WantedPage,
}

// The work for a page. Most of it lies in a box, so that a page is moved at little cost.
pub(crate) struct Work<R: Wait + Drop, S: ConcurrentSource<R> + Drop> {
    posted: Posted<R, S>,
    under_way: Box<UnderWay<R, S::InFlight>>,
}

impl<R: Wait + Drop, S: ConcurrentSource<R> + Drop> Drop for PageInProgress<R, S> {
    fn drop(self) {
        let PageInProgress { work } = self;
        work.give_up();
    }
}

impl<R: Wait + Drop, S: ConcurrentSource<R> + Drop> PageInProgress<R, S> {
    /// A page for which nobody has worked yet, with at most so many fetches in flight.
    pub(crate) fn new(
        rt: R,
        alloc: Global,
        source: S,
        page: Page,
        most: u16,
        wanted: WantedPage,
    ) -> Result<PageInProgress<R, S>, NoMemory>
        ensures source { IfOk result (λ page. page.work.posted.source ≡ source) }
        ensures wanted { IfOk result (λ page. (box_value page.work.under_way).wanted ≡ wanted) }
    {
        let under_way = UnderWay {
            rt,
            alloc,
            desk: SharedDesk::new(alloc, page, 1),
            flights: None,
            most,
            wanted,
        };
        let posted = Posted {
            source,
            own: Vec::new(alloc),
            runtime: PhantomData,
        };
        match Box::new(alloc, under_way) {
            Ok(under_way) => Ok(PageInProgress {
                work: Work { posted, under_way },
            }),
            Err(failed) => {
                if let Some(owing) = owing_of(posted, failed.value) {
                    owing.give_up();
                }
                Err(NoMemory)
            }
        }
    }

    /// Goes on as far as it gets without waiting for a fetch. The page comes back if it is to be gone on with, once what
    /// it waits for has moved: see `awaited`.
    pub fn go_on(self) -> Result<Ended<R, S>, PageInProgress<R, S>>
        ensures page { let wanted = (box_value self.work.under_way).wanted in
            IfOk result (λ ended. IfOk ended.made (λ made. IsAssembledBy (S.gives self.work.posted.source) wanted.request wanted.levels wanted.url made)) }
        ensures source { IfErr result (λ page. page.work.posted.source ≡ self.work.posted.source) }
        ensures wanted { IfErr result (λ page. (box_value page.work.under_way).wanted ≡ (box_value self.work.under_way).wanted) }
    {
        let PageInProgress { work } = self;
        let (work, has_ended) = work.worked();
        match has_ended {
            Ok(false) => Err(PageInProgress { work }),
            Ok(true) => Ok(work.ended()),
            Err(fault) => Ok(work.failed(fault)),
        }
    }

    /// What it waits for; `None` where only `wait` tells.
    pub fn awaited(&mut self) -> Option<Awaited>
        ensures source { self.new.work.posted.source ≡ self.old.work.posted.source }
        ensures wanted { (box_value self.new.work.under_way).wanted ≡ (box_value self.old.work.under_way).wanted }
    {
        self.work.awaited()
    }

    /// Waits until it may be gone on with, or for `most`, where there is one.
    pub fn wait(&mut self, most: Option<Duration>)
        ensures source { self.new.work.posted.source ≡ self.old.work.posted.source }
        ensures wanted { (box_value self.new.work.under_way).wanted ≡ (box_value self.old.work.under_way).wanted }
    {
        self.work.wait(most);
    }
}

impl<R: Wait + Drop, S: ConcurrentSource<R> + Drop> Work<R, S> {
    // The same once nothing can be done without waiting, or the work has ended; and whether it has, and how.
    fn worked(self) -> (Work<R, S>, Result<bool, AssembleFault>)
        ensures source { result.0.posted.source ≡ self.posted.source }
        ensures wanted { (box_value result.0.under_way).wanted ≡ (box_value self.under_way).wanted }
    {
        let Work {
            posted,
            mut under_way,
        } = self;
        let (posted, has_ended) = posted.worked(&mut *under_way);
        (Work { posted, under_way }, has_ended)
    }

    // What has come of the page, once its work has ended.
    fn ended(self) -> Ended<R, S>
        ensures page { let wanted = (box_value self.under_way).wanted in
            IfOk result.made (λ made. IsAssembledBy (S.gives self.posted.source) wanted.request wanted.levels wanted.url made) }
    {
        let Work { posted, under_way } = self;
        let UnderWay {
            rt,
            alloc,
            desk,
            flights,
            most: _,
            wanted,
        } = Box::into_inner(under_way);
        posted.known();
        let Posted {
            source,
            own,
            runtime: _,
        } = posted;
        let page = desk.into_page();
        let made = put_together::<R, S>(alloc, &source, page, own, &wanted);
        Ended {
            made,
            owed: owed(owing_for(rt, alloc, source, flights)),
        }
    }

    // The same of one whose work has failed.
    fn failed(self, fault: AssembleFault) -> Ended<R, S>
        ensures { result.made ≡ Err fault }
    {
        Ended {
            made: Err(fault),
            owed: owed(self.into_owing()),
        }
    }

    // What is in flight, if something is.
    fn into_owing(self) -> Option<Owing<R, S>> {
        let Work { posted, under_way } = self;
        owing_of(posted, Box::into_inner(under_way))
    }

    // Gives up what is in flight.
    fn give_up(self) {
        if let Some(owing) = self.into_owing() {
            owing.give_up();
        }
    }

    fn awaited(&mut self) -> Option<Awaited>
        ensures source { self.new.posted.source ≡ self.old.posted.source }
        ensures wanted { (box_value self.new.under_way).wanted ≡ (box_value self.old.under_way).wanted }
    {
        let posted = &self.posted;
        let under_way = &mut *self.under_way;
        let flights = under_way.flights.as_mut()?;
        posted
            .source
            .awaited(&under_way.rt, under_way.alloc, &mut flights.fetches)
    }

    fn wait(&mut self, most: Option<Duration>)
        ensures source { self.new.posted.source ≡ self.old.posted.source }
        ensures wanted { (box_value self.new.under_way).wanted ≡ (box_value self.old.under_way).wanted }
    {
        let posted = &self.posted;
        let under_way = &mut *self.under_way;
        if let Some(flights) = under_way.flights.as_mut() {
            // Without memory for what is told, the page is gone on with at once.
            let _ = posted
                .source
                .wait(&under_way.rt, under_way.alloc, &mut flights.fetches, most);
        }
    }
}

// What is in flight for a page, if something is.
fn owing_of<R: Wait + Drop, S: ConcurrentSource<R> + Drop>(
    posted: Posted<R, S>,
    under_way: UnderWay<R, S::InFlight>,
) -> Option<Owing<R, S>> {
    let Posted {
        source,
        own: _,
        runtime: _,
    } = posted;
    let UnderWay {
        rt,
        alloc,
        desk: _,
        flights,
        most: _,
        wanted: _,
    } = under_way;
    owing_for(rt, alloc, source, flights)
}

// What is in flight of a source, if something is.
fn owing_for<R: Wait + Drop, S: ConcurrentSource<R> + Drop>(
    rt: R,
    alloc: Global,
    source: S,
    flights: Option<Box<Flights<S::InFlight>>>,
) -> Option<Owing<R, S>> {
    match flights {
        Some(flights) => Some(Owing {
            rt,
            alloc,
            source,
            fetches: Box::into_inner(flights).into_fetches(),
        }),
        None => None,
    }
}

// What others wait for, of what is in flight.
fn owed<R: Wait + Drop, S: ConcurrentSource<R> + Drop>(
    owing: Option<Owing<R, S>>,
) -> Option<OwedFetches<R, S>> {
    match owing {
        Some(owing) => owing.owed(),
        None => None,
    }
}
