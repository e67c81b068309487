//! Pages of what is fetched, and one that is run by a list of events.
//!
//! One thread works for a page, so that its allocations come in the same order in each run, except where the page
//! is made through a cache.

use crate::sources::{cache, print_again, table};
use allocation_tools::printing::{answers, calls, out_of_memory, print_outcome, word};
use allocation_tools::values::{request, url};
use answer_sources::{ConcurrentSource, OpenGate, Source, TableSource};
use edge_types::{NoMemory, Table};
use fetch_workers::{
    AssembleFault, Assembled, Assembling, Ended, Made, PageInProgress, assemble, assemble_gated,
};
use http::Response;
use http_body::Body;
use hyper_edge::{EdgeBody, Field, respond};
use plan_runner::{Event, Page, PageError, Running, State, run_events};
use std::alloc::AllocGlobal;
use std::io::Print;
use std::sync::Wait;
use std::thread::Threads;
use std::time::Clock;

// How many slots may be opened ahead, and how many levels of fragments there may be.
const AHEAD: u16 = 2;

const LEVELS: u8 = 4;

fn print_assembled(rt: &impl Print, made: &Result<Assembled, AssembleFault>) -> Option<()> {
    match made {
        Ok(page) => print_outcome(rt, &page.outcome),
        Err(AssembleFault::NoMemory) => out_of_memory(rt),
        Err(AssembleFault::NoThread) => word(rt, "no thread"),
        Err(AssembleFault::Torn) => word(rt, "torn"),
    }
}

pub fn assemble_page<R>(rt: &R, name: &str) -> Option<()>
where
    R: Wait + Threads + AllocGlobal + Print + Sync,
{
    let source = TableSource::new(table(rt.alloc())?);
    assemble_from(rt, name, &source, Assembling::new(AHEAD, 1, LEVELS))
}

fn assemble_from<R, S>(rt: &R, name: &str, source: &S, how: Assembling) -> Option<()>
where
    R: Wait + Threads + AllocGlobal + Print + Sync,
    S: Source<R> + Sync,
{
    let (alloc, workers) = (rt.alloc(), how.workers);
    let (url, request) = (url(alloc, "/p")?, request(alloc)?);
    calls(rt, name)?;
    let made = assemble(
        rt, alloc, source, url, request, how.ahead, workers, how.levels,
    );
    answers(rt)?;
    print_assembled(rt, &made)
}

/// Assembles by two threads through a cache, from which one of the page's fragments is then fetched once more.
pub fn assemble_through_cache<R>(rt: &R, name: &str) -> Option<()>
where
    R: Wait + Threads + Clock + AllocGlobal + Print + Sync,
{
    assemble_and_fetch(rt, name, &cache(rt.alloc())?)
}

fn assemble_and_fetch<R, S>(rt: &R, name: &str, source: &S) -> Option<()>
where
    R: Wait + Threads + Clock + AllocGlobal + Print + Sync,
    S: Source<R> + Sync,
{
    assemble_from(rt, name, source, Assembling::new(AHEAD, 2, LEVELS))?;
    print_again(rt, source, "/x")
}

/// Assembles with two fetches in flight through a cache, from which one of the page's fragments is then fetched once
/// more.
pub fn assemble_with_flights<R>(rt: &R, name: &str) -> Option<()>
where
    R: Wait + Threads + Clock + AllocGlobal + Print + Sync,
{
    let alloc = rt.alloc();
    let source = cache(alloc)?;
    let how = Assembling::new(AHEAD, 1, LEVELS).with_fetches(2);
    let (url, request) = (url(alloc, "/p")?, request(alloc)?);
    calls(rt, name)?;
    let made = how.assemble(rt, alloc, &source, url, request);
    answers(rt)?;
    print_assembled(rt, &made)?;
    print_again(rt, &source, "/x")
}

/// Begins a page with two fetches in flight through a cache, and goes on with it.
pub fn go_on_with_page<R>(rt: &R, name: &str) -> Option<()>
where
    R: Wait + Clock + AllocGlobal + Print + Clone + Drop,
{
    let alloc = rt.alloc();
    let source = cache(alloc)?;
    let how = Assembling::new(AHEAD, 1, LEVELS).with_fetches(2);
    let (url, request) = (url(alloc, "/p")?, request(alloc)?);
    let own = rt.clone().ok()?;
    calls(rt, name)?;
    let made = match how.begin(own, alloc, source, url, request) {
        Ok(page) => made_at_once(page),
        Err(NoMemory) => Err(AssembleFault::NoMemory),
    };
    answers(rt)?;
    print_assembled(rt, &made)
}

// What a page has come to that waits for nothing, since its source fetches one by one.
fn made_at_once<R, S>(page: PageInProgress<R, S>) -> Made
where
    R: Wait + Drop,
    S: ConcurrentSource<R> + Drop,
{
    match page.go_on() {
        Ok(Ended { made, owed: _ }) => made,
        Err(_) => Err(AssembleFault::Torn),
    }
}

pub fn assemble_page_gated<R>(rt: &R, name: &str) -> Option<()>
where
    R: Wait + Threads + AllocGlobal + Print + Sync,
{
    let alloc = rt.alloc();
    let source = TableSource::new(table(alloc)?);
    let (url, request) = (url(alloc, "/p")?, request(alloc)?);
    calls(rt, name)?;
    let made = assemble_gated(
        rt, alloc, &source, &OpenGate, url, request, AHEAD, 1, LEVELS,
    );
    answers(rt)?;
    print_assembled(rt, &made)
}

const FIELDS: [Field<'static>; 1] = [Field {
    name: b"host",
    value: b"a.test",
}];

pub fn respond_with_page<R>(rt: &R, name: &str) -> Option<()>
where
    R: Wait + Threads + AllocGlobal + Print + Sync,
{
    let source = TableSource::new(table(rt.alloc())?);
    let how = Assembling::new(AHEAD, 1, LEVELS);
    calls(rt, name)?;
    let made = respond(rt, rt.alloc(), &source, b"GET", b"/p", &FIELDS, how);
    answers(rt)?;
    print_response(rt, &made)
}

// The status, and how many bytes the body has.
fn print_response(rt: &impl Print, made: &Result<Response<EdgeBody>, NoMemory>) -> Option<()> {
    match made {
        Ok(response) => {
            let bytes = response.body().size_hint().exact()?;
            print!(rt; " {} bytes {bytes}", response.status().as_u16()).ok()
        }
        Err(NoMemory) => out_of_memory(rt),
    }
}

// The page's answer, and then those of its fragments, the later one first.
const EVENTS: [Event; 6] = [
    Event::Claim,
    Event::Post(0),
    Event::Claim,
    Event::Claim,
    Event::Post(1),
    Event::Post(0),
];

pub fn run_page<R: AllocGlobal + Print>(rt: &R, name: &str) -> Option<()> {
    run_over(rt, name, &table(rt.alloc())?)
}

fn run_over<R: AllocGlobal + Print>(rt: &R, name: &str, table: &Table) -> Option<()> {
    let alloc = rt.alloc();
    let (url, request) = (url(alloc, "/p")?, request(alloc)?);
    let running = Running {
        ahead: AHEAD,
        events: &EVENTS,
        levels: LEVELS,
    };
    calls(rt, name)?;
    let ran = run_events(alloc, url, request, table, running);
    print_ran(rt, &ran)
}

fn print_ran(rt: &impl Print, ran: &Result<(Page, State), PageError>) -> Option<()> {
    answers(rt)?;
    match ran {
        Ok((_, State::Done(outcome))) => print_outcome(rt, outcome),
        Ok((_, State::Waiting(_))) => word(rt, "waits"),
        Err(_) => out_of_memory(rt),
    }
}
