//! Pages that several threads assemble: compared with the time that their fetches need, and with the page
//! core alone if nothing has to be waited for.

use crate::inputs::or_input_error;
use crate::site::{Site, includes, page_url, ran, table};
use crate::timing::{Least, ratio};
use answer_sources::{Answers, Given, Source, TableSource};
use edge_types::{Answer, NoMemory, PageUrl, Request, Table};
use fetch_workers::{MAX_WORKERS, assemble};
use plan_runner::MAX_AHEAD;
use std::alloc::Global;
use std::rt::Clock;
use std::sync::{Arc, Wait};
use std::thread::Threads;
use std::time::Duration;
use std::{io, thread};

const FRAGMENTS: usize = 20;
// How many milliseconds a fetch takes.
const FETCH: u64 = 2;

const TURNS: u32 = 15;
// How many pages whose answers are ready are assembled in a turn.
const PAGES: u32 = 200;

// A table all of whose answers are ready.
#[derive(Drop)]
struct Ready {
    table: TableSource,
}

impl<R> Answers<R> for Ready {
    ghost use Rattle.std.specs.Prelude.{◌≡◌, false};

    ghost gives = { λ ready url answer. answer.url ≡ url };

    ghost names_url = { λ ready url answer given. given };

    ghost private = { λ _ _. false };

    fn is_private(&self, _url: &PageUrl) -> bool {
        false
    }

    fn ready(&self, rt: &R, alloc: Global, url: &PageUrl) -> Result<Option<Arc<Answer>>, NoMemory> {
        Ok(Some(self.table.fetch(rt, alloc, url)?.into_answer()))
    }
}

impl<R> Source<R> for Ready {
    fn fetch(&self, rt: &R, alloc: Global, url: &PageUrl) -> Result<Given, NoMemory> {
        self.table.fetch(rt, alloc, url)
    }
}

// A source that has the page ready, and each fragment after a while.
#[derive(Drop)]
struct Slow {
    page: PageUrl,
    table: TableSource,
}

impl<R: Clock> Answers<R> for Slow {
    ghost use Rattle.std.specs.Prelude.{◌≡◌, false};

    ghost gives = { λ slow url answer. answer.url ≡ url };

    ghost names_url = { λ slow url answer given. given };

    ghost private = { λ _ _. false };

    fn is_private(&self, _url: &PageUrl) -> bool {
        false
    }

    fn ready(&self, rt: &R, alloc: Global, url: &PageUrl) -> Result<Option<Arc<Answer>>, NoMemory> {
        if *url == self.page {
            Ok(Some(self.table.fetch(rt, alloc, url)?.into_answer()))
        } else {
            Ok(None)
        }
    }
}

impl<R: Clock> Source<R> for Slow {
    fn fetch(&self, rt: &R, alloc: Global, url: &PageUrl) -> Result<Given, NoMemory> {
        thread::sleep(rt, Duration::from_millis(FETCH));
        self.table.fetch(rt, alloc, url)
    }
}

/// Prints how long pages take with this many workers.
pub fn run<R: Wait + Threads + Clock + Print + Sync>(rt: &R, alloc: Global) -> io::Result<()> {
    let page = includes(alloc, FRAGMENTS)?;
    let site = Site {
        page: page.as_str(),
        body: "plain",
        fragments: FRAGMENTS,
        is_processed: false,
    };
    slow_told(rt, alloc, site)?;
    ready_told(rt, alloc, site)
}

// Times a page each of whose fetches takes a while.
fn slow_told<R: Wait + Threads + Clock + Print + Sync>(
    rt: &R,
    alloc: Global,
    site: Site<'_>,
) -> io::Result<()> {
    let slow = Slow {
        page: page_url(alloc)?,
        table: TableSource::new(table(alloc, site)?),
    };
    rounds_told(rt, alloc, &slow, 1, 20)?;
    rounds_told(rt, alloc, &slow, 4, 5)?;
    rounds_told(rt, alloc, &slow, 16, 2)
}

// Prints the time compared with that of the rounds in which this many workers fetch.
fn rounds_told<R: Wait + Threads + Clock + Print + Sync>(
    rt: &R,
    alloc: Global,
    slow: &Slow,
    workers: u8,
    rounds: u64,
) -> io::Result<()> {
    let mut least = Least::new();
    for _ in 0..TURNS {
        least.time(rt, || assembled(rt, alloc, slow, workers))??;
    }
    let bound = Duration::from_millis(FETCH.wrapping_mul(rounds));
    println!(rt;
        "workers, {FRAGMENTS} fetches of {FETCH} ms by {workers}: {} us = {:.2} times {rounds} rounds",
        least.get().as_micros(),
        ratio(least.get(), bound)
    )
}

/// Assembles the page of a source.
pub fn assembled<R: Wait + Threads + Sync, S: Source<R> + Sync>(
    rt: &R,
    alloc: Global,
    source: &S,
    workers: u8,
) -> io::Result<()> {
    let url = page_url(alloc)?;
    let request = Request::empty();
    let workers = workers.clamp(1, MAX_WORKERS);
    or_input_error(assemble(rt, alloc, source, url, request, MAX_AHEAD, workers, 4))
}

// Times pages all of whose answers are ready.
fn ready_told<R: Wait + Threads + Clock + Print + Sync>(
    rt: &R,
    alloc: Global,
    site: Site<'_>,
) -> io::Result<()> {
    let answers = table(alloc, site)?;
    let source = Ready {
        table: TableSource::new(table(alloc, site)?),
    };
    let mut alone = Least::new();
    let mut by_workers = Least::new();
    for _ in 0..TURNS {
        alone.time(rt, || ran_many(alloc, &answers))??;
        by_workers.time(rt, || assembled_many(rt, alloc, &source))??;
    }
    println!(rt;
        "workers, {FRAGMENTS} ready answers: {PAGES} pages in {} us = {:.2} times the page core alone",
        by_workers.get().as_micros(),
        ratio(by_workers.get(), alone.get())
    )
}

fn ran_many(alloc: Global, table: &Table) -> io::Result<()> {
    for _ in 0..PAGES {
        ran(alloc, table, MAX_AHEAD, 4, &[])?;
    }
    Ok(())
}

fn assembled_many<R: Wait + Threads + Sync>(
    rt: &R,
    alloc: Global,
    source: &Ready,
) -> io::Result<()> {
    for _ in 0..PAGES {
        assembled(rt, alloc, source, 4)?;
    }
    Ok(())
}
