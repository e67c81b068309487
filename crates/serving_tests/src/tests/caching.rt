//! A source under a cache whose clock is set by hand.

ghost use Rattle.std.specs.Prelude.{◌≤◌};

use super::{Origin, source_of, url};
use answer_sources::{Clock, OneByOne, Source, TableSource};
use edge_types::{Answer, NoMemory};
use fragment_cache::UrlHashing;
use shared_cache::Cache;
use std::alloc::Global;
use std::fmt::Write;
use std::process::Abort;
use std::random::RandomSource;
use std::sync::Wait;
use std::sync::atomic::{AtomicU64, Ordering};
use std::test::Fail;
use std::thread::Threads;
use std::{io, thread, time};

/// A clock whose hands are set.
#[derive(Clone, Copy)]
pub(super) struct Hands<'a>(pub(super) &'a AtomicU64);

impl<R> Clock<R> for Hands<'_> {
    fn now(&self, _rt: &R) -> u64 {
        self.0.load(Ordering::SeqCst)
    }
}

// Bytes that are the same in each run.
struct SameBytes;

impl RandomSource for SameBytes {
    fn fill_bytes(&self, buf: &mut [u8]) -> io::Result<()> {
        buf.fill(b'7');
        Ok(())
    }
}

// An origin that always answers, and counts how often.
fn lasting(table: TableSource, fetches: &AtomicU64) -> Origin<'_> {
    Origin {
        table,
        fetches,
        refused: u64::MAX,
        round: u64::MAX,
        ends: u64::MAX,
    }
}

// A cache over an origin, in which a URL's hash picks its shard, else the sum of its bytes.
fn cache_of<'a>(
    alloc: Global,
    origin: &'a Origin<'a>,
    seconds: &'a AtomicU64,
    capacity: usize,
    hashing: Option<UrlHashing>,
) -> Result<Cache<OneByOne<'a, Origin<'a>>, Hands<'a>>, NoMemory>
    requires from { 1 ≤ capacity }
    requires to { capacity ≤ 1024 }
{
    let source = OneByOne { source: origin };
    match hashing {
        Some(hashing) => Cache::hashed(alloc, source, Hands(seconds), capacity, hashing),
        None => Cache::new(alloc, source, Hands(seconds), capacity),
    }
}

// What a source gives for a path: the first byte of the body, `-` for a failed answer, `?` if it runs out
// of memory.
fn ask<R: Abort, S: Source<R>>(rt: &R, alloc: Global, source: &S, path: &str) -> u8 {
    let Ok(url) = url(rt, alloc, path) else {
        return b'?';
    };
    match source.fetch(rt, alloc, &url) {
        Ok(given) => first_byte(&given.answer),
        Err(NoMemory) => b'?',
    }
}

// What it has ready for a path, in the same way; `.` for nothing.
fn look<R: Abort, S: Source<R>>(rt: &R, alloc: Global, source: &S, path: &str) -> u8 {
    let Ok(url) = url(rt, alloc, path) else {
        return b'?';
    };
    match source.ready(rt, alloc, &url) {
        Ok(Some(answer)) => first_byte(&answer),
        Ok(None) => b'.',
        Err(NoMemory) => b'?',
    }
}

fn first_byte(answer: &Answer) -> u8 {
    answer.body().first().copied().unwrap_or(b'-')
}

/// Takes steps one after another: `+2` sets the clock two seconds on, a path is asked for, or with a `?` before it
/// looked for. Returns what was given.
pub(super) fn given<R: Abort, S: Source<R>>(
    rt: &R,
    alloc: Global,
    source: &S,
    seconds: &AtomicU64,
    steps: &str,
) -> Result<String, NoMemory> {
    let mut out = String::new(alloc);
    for step in steps.split(' ') {
        match step.strip_prefix("+") {
            Some(number) => {
                seconds.fetch_add(number.parse::<u64>().unwrap_or(0), Ordering::SeqCst);
            }
            None => out.push(char::from(given_for(rt, alloc, source, step)))?,
        }
    }
    Ok(out)
}

fn given_for<R: Abort, S: Source<R>>(rt: &R, alloc: Global, source: &S, step: &str) -> u8 {
    match step.strip_prefix("?") {
        Some(path) => look(rt, alloc, source, path),
        None => ask(rt, alloc, source, step),
    }
}

// How many answers each of the eight shards keeps; which fetch runs out of memory; from which on the origin has
// nothing; the case; the steps; and what is given, and how many times the origin was asked.
const ROWS: &str = "8|99|99|/x 200 60 1|/x /x|11 1
8|99|99|/x 200 60 1|/x +59 /x +1 /x|111 2
8|99|99|/x 200 60 1|?/x /x ?/x +59 ?/x +1 ?/x|.111. 1
8|99|99|/x 404 60 1|/x /x|11 2
8|99|99|/x failed|/x /x|-- 2
8|99|1|/x 200 1+60 1|/x +2 /x +59 /x|11- 3
8|0|99|/x 200 60 1|/x /x /x|?11 2";

// Where the sum of a URL's bytes picks its shard: the last bytes of `/0` and `/8` put these into one.
const ROWS_BY_SUM: &str = "1|99|99|/0 200 60 0;/1 200 60 1;/8 200 60 8|/0 /8 /0|080 3
1|99|99|/0 200 60 0;/1 200 60 1;/8 200 60 8|/0 /1 /0|010 2";

fn row_holds<R: Wait + time::Clock + Abort>(
    rt: &R,
    alloc: Global,
    row: &str,
    hashing: Option<UrlHashing>,
) -> Result<(), NoMemory> {
    let mut words = row.split('|');
    let capacity = words.next().unwrap_or("").parse::<usize>().unwrap_or(0);
    let refused = words.next().unwrap_or("").parse::<u64>().unwrap_or(0);
    let ends = words.next().unwrap_or("").parse::<u64>().unwrap_or(0);
    let case = words.next().unwrap_or("");
    let steps = words.next().unwrap_or("");
    let wanted = words.next().unwrap_or("");
    if capacity == 0 || capacity > 1024 {
        return Err(NoMemory);
    }
    let (fetches, seconds) = (AtomicU64::new(0), AtomicU64::new(100));
    let origin = Origin {
        table: source_of(rt, alloc, case)?,
        fetches: &fetches,
        refused,
        round: u64::MAX,
        ends,
    };
    let cache = cache_of(alloc, &origin, &seconds, capacity, hashing)?;
    let mut out = given(rt, alloc, &cache, &seconds, steps)?;
    write!(out, " {}", fetches.load(Ordering::SeqCst))?;
    assert!(rt; out.as_str() == wanted, "{row} {out}");
    Ok(())
}

#[test]
fn answers_are_kept_and_bridged(rt: HostRuntime) -> Result<(), Fail> {
    let hashing = UrlHashing::secret(&SameBytes).ok();
    assert!(rt; hashing.is_some());
    for row in ROWS.lines() {
        row_holds(&rt, rt.alloc(), row, None)?;
        row_holds(&rt, rt.alloc(), row, hashing)?;
    }
    for row in ROWS_BY_SUM.lines() {
        row_holds(&rt, rt.alloc(), row, None)?;
    }
    Ok(())
}

// One of 64 paths whose bytes have one sum.
fn path_of_one_sum(alloc: Global, number: u8) -> Result<String, NoMemory> {
    let (one, other) = (number / 8, number % 8);
    let mut path = String::new(alloc);
    path.push('/')?;
    for byte in [
        b'a'.wrapping_add(one),
        b'h'.wrapping_sub(one),
        b'a'.wrapping_add(other),
        b'h'.wrapping_sub(other),
    ] {
        path.push(char::from(byte))?;
    }
    Ok(path)
}

// How many answers are kept of those paths, where each of the eight shards keeps one.
fn kept_of_one_sum<R: Wait + time::Clock + Abort>(
    rt: &R,
    alloc: Global,
    hashing: Option<UrlHashing>,
) -> Result<u64, NoMemory> {
    let mut case = String::new(alloc);
    for number in 0..64u8 {
        case.push_str(path_of_one_sum(alloc, number)?.as_str())?;
        case.push_str(" 200 60 1;")?;
    }
    let (fetches, seconds) = (AtomicU64::new(0), AtomicU64::new(100));
    let table = source_of(rt, alloc, case.as_str().trim_end_matches(';'))?;
    let origin = lasting(table, &fetches);
    let cache = cache_of(alloc, &origin, &seconds, 1, hashing)?;
    for number in 0..64u8 {
        let given = ask(rt, alloc, &cache, path_of_one_sum(alloc, number)?.as_str());
        assert!(rt; given == b'1', "{number}");
    }
    Ok(cache.tally(rt).entries)
}

#[test]
fn a_secret_spreads_urls_of_one_sum(rt: HostRuntime) -> Result<(), Fail> {
    let hashing = UrlHashing::secret(&SameBytes).ok();
    assert!(rt; kept_of_one_sum(&rt, rt.alloc(), None)? == 1);
    assert!(rt; kept_of_one_sum(&rt, rt.alloc(), hashing)? == 8);
    Ok(())
}

// What is purged is fetched anew; what else is kept isn't.
#[test]
fn what_is_purged_is_fetched_anew(rt: HostRuntime) -> Result<(), Fail> {
    let alloc = rt.alloc();
    let (fetches, seconds) = (AtomicU64::new(0), AtomicU64::new(100));
    let table = source_of(&rt, alloc, "/a/x 200 60 1;/a/y 200 60 2;/b 200 60 3")?;
    let origin = lasting(table, &fetches);
    let cache = cache_of(alloc, &origin, &seconds, 8, None)?;
    let b = url(&rt, alloc, "/b")?;
    let at_first = given(&rt, alloc, &cache, &seconds, "/a/x /a/y /b /b")?;
    assert!(rt; at_first.as_str() == "1233", "{at_first}");
    assert!(rt; cache.purge(&rt, &b) && !cache.purge(&rt, &b));
    let looked = given(&rt, alloc, &cache, &seconds, "?/b /b ?/b ?/a/x")?;
    assert!(rt;
        looked.as_str() == ".331" && fetches.load(Ordering::SeqCst) == 4,
        "{looked}"
    );
    let gone = cache.purge_prefix(&rt, b"http://a.test/a/")?;
    assert!(rt; gone == 2, "{gone}");
    let looked = given(&rt, alloc, &cache, &seconds, "?/a/x ?/a/y ?/b /a/y")?;
    assert!(rt;
        looked.as_str() == "..32" && fetches.load(Ordering::SeqCst) == 5,
        "{looked}"
    );
    let tally = cache.tally(&rt);
    assert!(rt;
        tally.entries == 2 && tally.hits == 4 && tally.leads == 5,
        "{tally:?}"
    );
    assert!(rt; tally.joins == 0 && tally.bypasses == 0, "{tally:?}");
    Ok(())
}

// A thousand answers in eight shards, each of which may keep all of them: the second time none is fetched.
#[test]
fn as_many_answers_are_kept_as_may_be(rt: HostRuntime) -> Result<(), Fail> {
    let mut case = String::new(rt.alloc());
    for i in 0..1000u32 {
        write!(case, "/{i} 200 60 {i};")?;
    }
    let (fetches, seconds) = (AtomicU64::new(0), AtomicU64::new(100));
    let table = source_of(&rt, rt.alloc(), case.as_str().trim_end_matches(';'))?;
    let origin = lasting(table, &fetches);
    let cache = cache_of(rt.alloc(), &origin, &seconds, 1024, None)?;
    for i in 0..2000u32 {
        let path = format!(in rt.alloc(); "/{}", i % 1000)?;
        let first = ask(&rt, rt.alloc(), &cache, path.as_str());
        assert!(rt; path.as_bytes().get(1) == Some(&first), "{i}");
    }
    assert!(rt; fetches.load(Ordering::SeqCst) == 1000);
    Ok(())
}

const PATHS: [&str; 16] = [
    "/a", "/b", "/c", "/d", "/e", "/f", "/g", "/h", "/i", "/j", "/k", "/l", "/m", "/n", "/o", "/p",
];

// Asks for each path over and over; counts answers that are neither the origin's nor those of a failed
// flight.
fn wrong_answers<R: Abort, S: Source<R>>(rt: &R, alloc: Global, source: &S, first: usize) -> u64 {
    let mut wrong: u64 = 0;
    for k in 0..200usize {
        if let Some(path) = PATHS.get(first.wrapping_add(k) % 16) {
            let given = ask(rt, alloc, source, path);
            if given != b'-' && given != b'?' && path.as_bytes().last() != Some(&given) {
                wrong = wrong.wrapping_add(1);
            }
        }
    }
    wrong
}

// Counts these with 64 threads, and checks that there are none.
fn none_is_wrong<R: Threads + Abort + Sync, S: Source<R> + Sync>(
    rt: &R,
    alloc: Global,
    source: &S,
) -> Result<(), Fail> {
    let wrong = thread::map_indices(rt, alloc, 64, &|i| wrong_answers(rt, alloc, source, i))?;
    assert!(rt; wrong.iter().all(|count| *count == 0));
    Ok(())
}

// Sixteen URLs, of an origin that runs out of memory at every tenth fetch. Returns how often it was asked.
fn crowd<R: Wait + time::Clock + Threads + Abort + Sync>(
    rt: &R,
    alloc: Global,
    control: &str,
) -> Result<u64, Fail> {
    let mut case = String::new(alloc);
    for letter in 'a'..='p' {
        write!(case, "/{letter} 200 {control} {letter};")?;
    }
    let (fetches, seconds) = (AtomicU64::new(0), AtomicU64::new(100));
    let origin = Origin {
        table: source_of(rt, alloc, case.as_str().trim_end_matches(';'))?,
        fetches: &fetches,
        refused: 9,
        round: 10,
        ends: u64::MAX,
    };
    let cache = cache_of(alloc, &origin, &seconds, 8, None)?;
    none_is_wrong(rt, alloc, &cache)?;
    Ok(fetches.load(Ordering::SeqCst))
}

#[test]
fn many_threads_share_flights(rt: HostRuntime) -> Result<(), Fail> {
    // Each of the 16 is fetched until it is there: the tenth fetch ran out of memory.
    assert!(rt; crowd(&rt, rt.alloc(), "60")? == 17);
    assert!(rt; crowd(&rt, rt.alloc(), "plain")? <= 64 * 200);
    Ok(())
}
