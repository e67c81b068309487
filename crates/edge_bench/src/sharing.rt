//! A cache that threads share: hits by several threads compared with those by one, and one fetch for all who
//! ask at the same time.

use crate::inputs::{answer, or_input_error, or_io_error, url};
use crate::timing::{Least, nanoseconds_each, ratio};
use answer_sources::{Answers, Clock as Seconds, Given, OneByOne, Source, TableSource};
use edge_types::{Control, NoMemory, PageUrl, SharedBytes, Table};
use shared_cache::Cache;
use std::alloc::Global;
use std::rt::Clock;
use std::sync::Wait;
use std::thread::Threads;
use std::time::Duration;
use std::{io, thread};

// How many URLs are asked for, and how many times a thread asks in a turn.
const URLS: usize = 1000;

const HITS: usize = 100_000;
// How many entries a shard may keep: it has all URLs that it is asked for.
const CAPACITY: usize = 1000;

// How many threads ask for one URL at the same time, and how many milliseconds its fetch takes.
const CROWD: usize = 64;

const FETCH: u64 = 20;

const TURNS: usize = 15;
// For how many seconds an answer is fresh.
const FRESH: u32 = 60;

// A table whose answers come after this many milliseconds.
#[derive(Drop)]
struct Far {
    table: TableSource,
    milliseconds: u64,
}

impl<R: Clock> Answers<R> for Far {
    ghost use Rattle.std.specs.Prelude.{◌≡◌, false};

    ghost gives = { λ far url answer. answer.url ≡ url };

    ghost names_url = { λ far url answer given. given };

    ghost private = { λ _ _. false };

    fn is_private(&self, _url: &PageUrl) -> bool {
        false
    }
}

impl<R: Clock> Source<R> for Far {
    fn fetch(&self, rt: &R, alloc: Global, url: &PageUrl) -> Result<Given, NoMemory> {
        thread::sleep(rt, Duration::from_millis(self.milliseconds));
        self.table.fetch(rt, alloc, url)
    }
}

/// It is always the same second.
#[derive(Drop)]
pub struct Still;

impl<R> Seconds<R> for Still {
    fn now(&self, _rt: &R) -> u64 {
        0
    }
}

/// Prints how many hits several threads make compared with one, and how long a crowd waits for one fetch.
pub fn run<R: Wait + Threads + Clock + Print + Sync>(rt: &R, alloc: Global) -> io::Result<()> {
    hits(rt, alloc)?;
    crowds(rt, alloc)
}

// This many URLs.
fn urls(alloc: Global, count: usize) -> io::Result<Vec<PageUrl>> {
    let mut urls = Vec::new(alloc);
    for i in 0..count {
        let text = format!(in alloc; "http://a.test/{i}")?;
        urls.push(url(alloc, text.as_bytes())?)?;
    }
    Ok(urls)
}

// The answers of these URLs, which come after this many milliseconds.
fn far_table(alloc: Global, urls: &[PageUrl], milliseconds: u64) -> io::Result<Far> {
    Ok(Far {
        table: TableSource::new(table(alloc, urls)?),
        milliseconds,
    })
}

// A cache over them.
fn cache(alloc: Global, far: &Far) -> io::Result<Cache<OneByOne<'_, Far>, Still>> {
    or_io_error(Cache::new(alloc, OneByOne { source: far }, Still, CAPACITY))
}

fn table(alloc: Global, urls: &[PageUrl]) -> io::Result<Table> {
    let mut table = Table::new(alloc);
    match fill(alloc, urls, &mut table) {
        Ok(()) => Ok(table),
        Err(error) => Err(error),
    }
}

fn fill(alloc: Global, urls: &[PageUrl], table: &mut Table) -> io::Result<()> {
    for url in urls {
        insert(alloc, url, table)?;
    }
    Ok(())
}

fn insert(alloc: Global, url: &PageUrl, table: &mut Table) -> io::Result<()> {
    let control = Control {
        max_age: Some(FRESH),
        ..Control::default()
    };
    let url = or_io_error(url.share())?;
    let body = or_io_error(SharedBytes::copy_of(alloc, b"plain".as_slice()))?;
    or_input_error(table.insert(answer(alloc, url, control, body)?))
}

// Hits by one thread, by two and by four.
fn hits<R: Wait + Threads + Clock + Print + Sync>(rt: &R, alloc: Global) -> io::Result<()> {
    let urls = urls(alloc, URLS)?;
    let far = far_table(alloc, urls.as_slice(), 0)?;
    let cache = cache(alloc, &far)?;
    hits_told(rt, alloc, &cache, urls.as_slice())
}

fn hits_told<R, S>(rt: &R, alloc: Global, source: &S, urls: &[PageUrl]) -> io::Result<()>
where
    R: Threads + Clock + Print + Sync,
    S: Source<R> + Sync,
{
    // From here on all are stored.
    ask_for_each(rt, alloc, source, urls)?;
    let one = hits_by(rt, alloc, source, urls, 1)?;
    beside_one(rt, 1, one, one)?;
    beside_one(rt, 2, hits_by(rt, alloc, source, urls, 2)?, one)?;
    beside_one(rt, 4, hits_by(rt, alloc, source, urls, 4)?, one)
}

fn beside_one<R: Print>(rt: &R, threads: u32, took: Duration, one: Duration) -> io::Result<()> {
    println!(rt;
        "sharing, hits of {URLS} URLs by {threads}: {:.0} ns a hit, {:.2} times as many as by one",
        nanoseconds_each(took, HITS),
        f64::from(threads) * ratio(one, took)
    )
}

// The quickest of several turns in which this many threads ask at the same time.
fn hits_by<R, S>(
    rt: &R,
    alloc: Global,
    source: &S,
    urls: &[PageUrl],
    threads: usize,
) -> io::Result<Duration>
where
    R: Threads + Clock + Sync,
    S: Source<R> + Sync,
{
    let mut least = Least::new();
    for _ in 0..TURNS {
        least.time(rt, || asked_by(rt, alloc, source, urls, threads))??;
    }
    Ok(least.get())
}

fn asked_by<R, S>(
    rt: &R,
    alloc: Global,
    source: &S,
    urls: &[PageUrl],
    threads: usize,
) -> io::Result<()>
where
    R: Threads + Sync,
    S: Source<R> + Sync,
{
    thread::map_indices(
        rt,
        alloc,
        threads,
        &|i| { ask_over_and_over(rt, alloc, source, urls, i) },
    )?;
    Ok(())
}

// Asks for one URL after the other, each thread from a place of its own. Returns how many came.
fn ask_over_and_over<R, S: Source<R>>(
    rt: &R,
    alloc: Global,
    source: &S,
    urls: &[PageUrl],
    thread: usize,
) -> usize {
    let mut came: usize = 0;
    let mut at = thread.wrapping_mul(URLS / 4);
    for _ in 0..HITS {
        at = at.wrapping_add(1) % URLS;
        if let Some(url) = urls.get(at) {
            came = came.wrapping_add(usize::from(source.fetch(rt, alloc, url).is_ok()));
        }
    }
    came
}

fn ask_for_each<R, S: Source<R>>(
    rt: &R,
    alloc: Global,
    source: &S,
    urls: &[PageUrl],
) -> io::Result<()> {
    for url in urls {
        or_io_error(source.fetch(rt, alloc, url))?;
    }
    Ok(())
}

// A crowd for each of some URLs, one after the other.
fn crowds<R: Wait + Threads + Clock + Print + Sync>(rt: &R, alloc: Global) -> io::Result<()> {
    let urls = urls(alloc, TURNS)?;
    let far = far_table(alloc, urls.as_slice(), FETCH)?;
    let cache = cache(alloc, &far)?;
    crowds_told(rt, alloc, &cache, urls.as_slice())
}

fn crowds_told<R, S>(rt: &R, alloc: Global, source: &S, urls: &[PageUrl]) -> io::Result<()>
where
    R: Threads + Clock + Print + Sync,
    S: Source<R> + Sync,
{
    let mut least = Least::new();
    for url in urls {
        least.time(rt, || crowd(rt, alloc, source, url))??;
    }
    println!(rt;
        "sharing, {CROWD} threads on one URL of {FETCH} ms: {} us for all",
        least.get().as_micros()
    )
}

fn crowd<R, S>(rt: &R, alloc: Global, source: &S, url: &PageUrl) -> io::Result<()>
where
    R: Threads + Sync,
    S: Source<R> + Sync,
{
    thread::map_indices(rt, alloc, CROWD, &|_| source.fetch(rt, alloc, url).is_ok())?;
    Ok(())
}
