//! Pages that are assembled by several threads.

ghost use Rattle.std.specs.Prelude.{◌≡◌, ◌<◌, ◌≤◌, box_value, map, option_map, IfOk, IfErr, IsTrue};
ghost use Rattle.std.specs.Arc.{arc_value};
ghost use Rattle.edge_types.specs.Outcome.{Shown, shown};
ghost use Rattle.esi_meaning.specs.Ahead.{IsLegal};
ghost use Rattle.esi_meaning.specs.Meaning.{AreLevels};
ghost use Rattle.answer_board.specs.Board.{log_of};
ghost use Rattle.plan_runner.specs.declared.page.TheConstants.{MAX_AHEAD};
ghost use Rattle.plan_runner.specs.Page.{Finished, accepted};
ghost use Rattle.fetch_workers.specs.declared.log.Own.{Own};
ghost use Rattle.fetch_workers.specs.Faults.{fault_of_page};
ghost use Rattle.fetch_workers.specs.Given.{AllOwn};
ghost use Rattle.fetch_workers.specs.Made.{IsAssembledBy, failed_leg_in, log_in, outcome_in};
ghost use Rattle.fetch_workers.specs.Rests.{AreFetches, AreWorkers, IsFailedLeg, RestsOn};
ghost use Rattle.fetch_workers.specs.Ways.{counts_of};

use crate::fault::AssembleFault;
use crate::log::{Own, answers_of, is_log_of};
use crate::page_in_progress::PageInProgress;
use crate::shared_desk::SharedDesk;
use crate::wanted_page::WantedPage;
use crate::worker::Worker;
use answer_sources::{Answers, ConcurrentSource, Gate, OneByOne, OpenGate, Source, WayCounts};
use edge_types::{Answer, NoMemory, Outcome, PageUrl, Request};
use plan_runner::{Page, State};
use std::alloc::Global;
use std::sync::{Arc, Wait};
use std::thread::Threads;

/// The most threads that may work for a page, the calling one among them.
///
/// Our profile.
pub const MAX_WORKERS: u8 = 16;

/// The most fetches that a thread may have in flight for a page.
///
/// Our profile.
pub const MAX_FETCHES: u16 = 256;

/// How pages are assembled: the numbers of `assemble`, each within its limits.
///
/// Our profile.
#[derive(Clone, Copy)]
pub struct Assembling {
    /// How many slots may be opened ahead.
    pub ahead: u16,
    /// How many threads may work for a page.
    pub workers: u8,
    /// How many levels of fragments there may be.
    pub levels: u8,
    /// How many fetches the page may have in flight.
    pub fetches: u16,
    /// How many bytes the page may have.
    pub bytes: usize,
    ghost ahead_few: { ahead ≤ MAX_AHEAD },
    ghost workers_few: { AreWorkers workers },
    ghost levels_few: { AreLevels levels },
    ghost fetches_few: { AreFetches fetches },
}

/// An outcome, and the answers that it rests on.
#[derive(Drop)]
pub struct Assembled {
    /// The outcome of the page.
    pub outcome: Arc<Outcome>,
    /// The answers that were posted, in order of posting: a legal log.
    pub log: Vec<Arc<Answer>>,
    /// By which ways they came, one for each answer.
    pub ways: WayCounts,
    /// Where an include failed the page, the answer of the leg at which it failed, if that leg asked for one: see
    /// `Page::failed_leg`.
    pub failed_leg: Option<Arc<Answer>>,
}

/// Assembles a page with at most `workers` threads, the calling one among them. The others are started
/// only while answers have to be waited for; all have been joined whatever the result.
///
/// `ahead` is how many slots posts may open ahead, at most `MAX_AHEAD`. A fetch that is under way
/// when the page is done is waited for, and its answer is logged.
///
/// Our profile.
pub fn assemble<R, S>(
    rt: &R,
    alloc: Global,
    source: &S,
    url: PageUrl,
    request: Request,
    ahead: u16,
    workers: u8,
    levels: u8,
) -> Result<Assembled, AssembleFault>
where
    R: Wait + Threads + Sync,
    S: Source<R> + Sync,
    requires ahead { ahead ≤ MAX_AHEAD }
    requires workers { AreWorkers workers }
    requires levels { AreLevels levels }
    ensures page { IfOk result (λ made. IsAssembledBy (S.gives source.now) request levels url made) }
{
    assemble_gated(
        rt, alloc, source, &OpenGate, url, request, ahead, workers, levels,
    )
}

/// Assembles a page as `assemble` does, with a gate that is passed before each fetch.
///
/// Our profile.
pub fn assemble_gated<R, S, G>(
    rt: &R,
    alloc: Global,
    source: &S,
    gate: &G,
    url: PageUrl,
    request: Request,
    ahead: u16,
    workers: u8,
    levels: u8,
) -> Result<Assembled, AssembleFault>
where
    R: Wait + Threads + Sync,
    S: Source<R> + Sync,
    G: Gate<R> + Sync,
    requires ahead { ahead ≤ MAX_AHEAD }
    requires workers { AreWorkers workers }
    requires levels { AreLevels levels }
    ensures page { IfOk result (λ made. IsAssembledBy (S.gives source.now) request levels url made) }
{
    let how = Assembling::new(ahead, workers, levels);
    let wanted = how.wanted(url, request);
    how.assemble_gated(rt, alloc, &OneByOne { source }, gate, &wanted)
}

impl Assembling {
    /// With these numbers, one fetch in flight at a time, and any number of bytes.
    pub fn new(ahead: u16, workers: u8, levels: u8) -> Assembling
        requires ahead { ahead ≤ MAX_AHEAD }
        requires workers { AreWorkers workers }
        requires levels { AreLevels levels }
        ensures ahead { result.ahead ≡ ahead }
        ensures workers { result.workers ≡ workers }
        ensures levels { result.levels ≡ levels }
        ensures fetches { result.fetches ≡ 1 }
        ensures bytes { result.bytes ≡ usize.MAX }
    {
        Assembling {
            ahead,
            workers,
            levels,
            fetches: 1,
            bytes: usize::MAX,
        }
    }

    /// The same, with so many fetches in flight, from 1 to `MAX_FETCHES`.
    pub fn with_fetches(self, fetches: u16) -> Assembling
        requires { AreFetches fetches }
        ensures ahead { result.ahead ≡ self.ahead }
        ensures workers { result.workers ≡ self.workers }
        ensures levels { result.levels ≡ self.levels }
        ensures fetches { result.fetches ≡ fetches }
        ensures bytes { result.bytes ≡ self.bytes }
    {
        Assembling {
            ahead: self.ahead,
            workers: self.workers,
            levels: self.levels,
            fetches,
            bytes: self.bytes,
        }
    }

    /// The same, for pages of at most so many bytes. One that would have more is refused as if there were no memory
    /// for it.
    pub fn with_most_bytes(self, bytes: usize) -> Assembling
        ensures ahead { result.ahead ≡ self.ahead }
        ensures workers { result.workers ≡ self.workers }
        ensures levels { result.levels ≡ self.levels }
        ensures fetches { result.fetches ≡ self.fetches }
        ensures bytes { result.bytes ≡ bytes }
    {
        Assembling {
            ahead: self.ahead,
            workers: self.workers,
            levels: self.levels,
            fetches: self.fetches,
            bytes,
        }
    }

    /// Assembles a page by these numbers.
    ///
    /// If one fetch may be in flight, threads work for the page, as in `assemble`. If more may be, the calling
    /// thread works for it alone, and has as many in flight as may be and are asked for; what is in flight when the
    /// page is done is given up.
    ///
    /// Our profile.
    pub fn assemble<R, S>(
        self,
        rt: &R,
        alloc: Global,
        source: &S,
        url: PageUrl,
        request: Request,
    ) -> Result<Assembled, AssembleFault>
    where
        R: Wait + Threads + Sync,
        S: ConcurrentSource<R> + Sync,
        ensures page { IfOk result (λ made. IsAssembledBy (S.gives source.now) request self.levels url made) }
    {
        let wanted = self.wanted(url, request);
        self.assemble_gated(rt, alloc, source, &OpenGate, &wanted)
    }

    // The same with a gate that is passed before each fetch.
    fn assemble_gated<R, S, G>(
        self,
        rt: &R,
        alloc: Global,
        source: &S,
        gate: &G,
        wanted: &WantedPage,
    ) -> Result<Assembled, AssembleFault>
    where
        R: Wait + Threads + Sync,
        S: ConcurrentSource<R> + Sync,
        G: Gate<R> + Sync,
        ensures page { IfOk result (λ made. IsAssembledBy (S.gives source.now) wanted.now.request wanted.now.levels wanted.now.url made) }
    {
        let page = self.accept(alloc, wanted)?;
        let shared = SharedDesk::new(alloc, page, self.threads());
        let own = self.worked(rt, alloc, source, gate, &shared)?;
        put_together::<R, S>(alloc, source, shared.into_page(), own, wanted)
    }

    /// Begins a page by these numbers, which is then gone on with by one thread at a time, and has as many fetches in flight
    /// as may be and are asked for.
    ///
    /// Our profile.
    pub fn begin<R, S>(
        self,
        rt: R,
        alloc: Global,
        source: S,
        url: PageUrl,
        request: Request,
    ) -> Result<PageInProgress<R, S>, NoMemory>
    where
        R: Wait + Drop,
        S: ConcurrentSource<R> + Drop,
        ensures source { IfOk result (λ page. page.work.posted.source ≡ source) }
        ensures url { IfOk result (λ page. (box_value page.work.under_way).wanted.url ≡ url) }
        ensures request { IfOk result (λ page. (box_value page.work.under_way).wanted.request ≡ request) }
        ensures levels { IfOk result (λ page. (box_value page.work.under_way).wanted.levels ≡ self.levels) }
    {
        let wanted = self.wanted(url, request);
        let page = self.accept(alloc, &wanted)?;
        PageInProgress::new(rt, alloc, source, page, self.fetches, wanted)
    }

    // The page at this URL, for this request and with these levels.
    fn wanted(self, url: PageUrl, request: Request) -> WantedPage
        ensures url { result.url ≡ url }
        ensures request { result.request ≡ request }
        ensures levels { result.levels ≡ self.levels }
    {
        WantedPage {
            url,
            request,
            levels: self.levels,
        }
    }

    // How many threads may work for a page: its own alone where that has several fetches in flight.
    fn threads(self) -> u8
        ensures { 0 < result }
    {
        if self.fetches == 1 { self.workers } else { 1 }
    }

    // What was posted by all who work for the page on the desk.
    fn worked<R, S, G>(
        self,
        rt: &R,
        alloc: Global,
        source: &S,
        gate: &G,
        shared: &SharedDesk,
    ) -> Result<Vec<Own>, AssembleFault>
    where
        R: Wait + Threads + Sync,
        S: ConcurrentSource<R> + Sync,
        G: Gate<R> + Sync,
        ensures { IfOk result (λ own. AllOwn (S.gives source.now) own.items) }
    {
        let worker = Worker {
            rt,
            alloc,
            source,
            gate,
            shared,
        };
        if self.fetches == 1 {
            worker.work_with_others(self.workers)
        } else {
            worker.work_concurrently(self.fetches)
        }
    }

    // The page, before anybody works for it.
    fn accept(self, alloc: Global, wanted: &WantedPage) -> Result<Page, NoMemory>
        ensures { IfOk result (λ page. page ≡ accepted wanted.now.url wanted.now.request self.ahead self.levels) }
    {
        let page = Page::accept(
            alloc,
            wanted.url.share()?,
            wanted.request.copy(alloc)?,
            self.ahead,
            self.levels,
        )?;
        Ok(page.with_most_bytes(self.bytes))
    }
}

// The page that was worked for, if it is the one that its workers' answers make, all of which the source gave.
pub(crate) fn put_together<R, S: Answers<R>>(
    alloc: Global,
    _source: &S,
    mut page: Page,
    mut own: Vec<Own>,
    wanted: &WantedPage,
) -> Result<Assembled, AssembleFault>
    requires { AllOwn (S.gives _source.now) own.items }
    ensures page { IfOk result (λ made. IsAssembledBy (S.gives _source.now) wanted.now.request wanted.now.levels wanted.now.url made) }
{
    own.sort_unstable_by_key(|o| o.place);
    compared(alloc, &mut page, own, wanted)
}

// The page that was worked for, if it is done, it is the one that was asked for, and its log consists of
// the workers' own answers, each once and in this order.
fn compared(
    alloc: Global,
    page: &mut Page,
    own: Vec<Own>,
    wanted: &WantedPage,
) -> Result<Assembled, AssembleFault>
    ensures own { IfOk result (λ made. log_in made ≡ map (λ (o : Own). o.answer) own.items) }
    ensures legal { IfOk result (λ made. IsLegal wanted.now.request wanted.now.url (log_in made)) }
    ensures outcome { IfOk result (λ made. RestsOn wanted.now.request wanted.now.levels wanted.now.url (log_in made) (outcome_in made)) }
    ensures ways { IfOk result (λ made. made.ways ≡ counts_of (map (λ (o : Own). o.way) own.items)) }
    ensures failed_leg { IfOk result (λ made. IsFailedLeg wanted.now.request wanted.now.levels wanted.now.url (log_in made) (outcome_in made) (failed_leg_in made)) }
{
    let outcome = told(page)?;
    if !wanted.is(page) || !is_log_of(page, own.as_slice()) {
        return Err(AssembleFault::Torn);
    }
    legal(page);
    let failed_leg = failed_leg(page)?;
    let (log, ways) = answers_of(alloc, own)?;
    Ok(Assembled {
        outcome,
        log,
        ways,
        failed_leg,
    })
}

// The outcome of a page that is done; of any other, why it has none.
fn told(page: &mut Page) -> Result<Arc<Outcome>, AssembleFault>
    ensures outcome { IfOk result (λ outcome. RestsOn page.new.request page.new.levels page.new.url (log_of page.new.board) (shown (arc_value outcome))) }
    ensures standing { IfOk result (λ outcome. page.new.standing ≡ Finished (shown (arc_value outcome))) }
    ensures fault { IfErr result (λ fault. fault ≡ fault_of_page page.new.standing) }
{
    match page.advance() {
        Ok(State::Done(outcome)) => Ok(outcome),
        Ok(State::Waiting(_)) => Err(AssembleFault::Torn),
        Err(_) => Err(AssembleFault::NoMemory),
    }
}

// An owner of the answer of the leg at which the page failed, if an include failed it.
fn failed_leg(page: &Page) -> Result<Option<Arc<Answer>>, NoMemory>
    ensures { IfOk result (λ leg. (outcome : Shown) → page.now.standing ≡ Finished outcome
        → IsFailedLeg page.now.request page.now.levels page.now.url (log_of page.now.board) outcome (option_map arc_value leg)) }
{
    match page.failed_leg() {
        Some(answer) => Ok(Some(Arc::try_clone(answer)?)),
        None => Ok(None),
    }
}

// States the invariant of each page's log.
fn legal(page: &Page)
    ensures { IsLegal page.now.request page.now.url (log_of page.now.board) }
{
    let _ = page.logged(0);
}
