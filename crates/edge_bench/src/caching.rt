//! The cache: the calls of a shard compared with `lru` alone, and flights with fewer flights.

use crate::inputs;
use crate::inputs::{fragment_url, or_io_error};
use crate::timing::{Least, print, print_count};
use edge_types::{Answer, Control, PageUrl, SharedAnswer, SharedBytes};
use fragment_cache::{Begun, MAX_CAPACITY, MAX_FLIGHTS, Picked, Shard};
use lru::LruCache;
use std::alloc::Global;
use std::io;
use std::num::NonZeroUsize;
use std::sync::Arc;
use std::time::{Duration, Instant};

// How many answers may be asked for: twice as many as a shard stores.
const URLS: usize = 2 * MAX_CAPACITY;
// How many are asked for in a turn.
const STEPS: usize = 100_000;
// How many flights are under way at a time where there are few.
const FEW: usize = 128;
// How many times each is measured; the quickest counts.
const TURNS: usize = 20;
// For how many seconds an answer is fresh.
const FRESH: u32 = 60;

/// Prints how many times as long as `lru` a shard takes, and how many steps of flights it makes in
/// a second, with few flights and with as many as it keeps.
pub fn run(rt: &HostRuntime) -> io::Result<()> {
    let answers = answers(rt.alloc(), URLS)?;
    let answers = answers.as_slice();
    beside_lru(rt, "caching beside lru: hits alone", answers, usize::MAX)?;
    beside_lru(rt, "caching beside lru: 90 % hits", answers, 10)?;
    let few = flights(rt, answers, FEW)?;
    let many = flights(rt, answers, MAX_FLIGHTS)?;
    let steps = MAX_FLIGHTS.wrapping_mul(4);
    print(
        rt,
        "caching: steps of 1,024 flights at a time beside 128",
        many,
        few,
        steps,
    )
}

// Answers of this many URLs.
fn answers(alloc: Global, count: usize) -> io::Result<Vec<Arc<Answer>>> {
    let mut answers = Vec::with_capacity(alloc, count)?;
    for i in 0..count {
        answers.push(answer(alloc, i)?)?;
    }
    Ok(answers)
}

// The answer of the URL with a number.
fn answer(alloc: Global, number: usize) -> io::Result<Arc<Answer>> {
    let control = Control {
        max_age: Some(FRESH),
        ..Control::default()
    };
    let url = fragment_url(alloc, number)?;
    let body = or_io_error(SharedBytes::copy_of(alloc, url.as_bytes()))?;
    inputs::answer(alloc, url, control, body)
}

// A store of answers by their URLs.
trait Store: Drop {
    // Whether the answer is stored; it is fetched and stored where it isn't.
    fn ask(&mut self, answer: &Arc<Answer>) -> io::Result<bool>;
}

impl Store for Shard {
    fn ask(&mut self, answer: &Arc<Answer>) -> io::Result<bool> {
        match self.begin(answer.url(), 0) {
            Begun::Hit(_) => Ok(true),
            Begun::Lead(flight, ready) => {
                self.land(flight, Arc::try_clone(answer).unwrap_or(ready), 0);
                Ok(false)
            }
            Begun::Join(_) | Begun::Bypass => Ok(false),
        }
    }
}

impl Store for LruCache<PageUrl, SharedAnswer> {
    fn ask(&mut self, answer: &Arc<Answer>) -> io::Result<bool> {
        if self.get(answer.url()).is_some() {
            return Ok(true);
        }
        let url = or_io_error(answer.url().share())?;
        self.put(url, SharedAnswer::of(Arc::try_clone(answer)?))?;
        Ok(false)
    }
}

// The times of a store, and how many hits there were in the last turn.
#[derive(Clone, Copy)]
struct Turns {
    least: Least,
    hits: usize,
}

// Prints the times of a shard and of `lru` for the same answers in the same order, of which one in
// `every` isn't stored.
fn beside_lru(
    rt: &HostRuntime,
    name: &str,
    answers: &[Arc<Answer>],
    every: usize,
) -> io::Result<()> {
    let (shard, lru) = measured(rt, answers, every)?;
    print_count(rt, "caching: hits of the shard", shard.hits)?;
    print_count(rt, "caching: hits of lru", lru.hits)?;
    print(rt, name, shard.least.get(), lru.least.get(), STEPS)
}

fn measured(rt: &HostRuntime, answers: &[Arc<Answer>], every: usize) -> io::Result<(Turns, Turns)> {
    let asked = asked(rt.alloc(), every)?;
    let mut shard = Turns {
        least: Least::new(),
        hits: 0,
    };
    let mut lru = shard;
    for _ in 0..TURNS {
        shard_turn(rt, &mut shard, answers, asked.as_slice())?;
        lru_turn(rt, &mut lru, answers, asked.as_slice())?;
    }
    Ok((shard, lru))
}

fn shard_turn(
    rt: &HostRuntime,
    turns: &mut Turns,
    answers: &[Arc<Answer>],
    asked: &[usize],
) -> io::Result<()> {
    let store = or_io_error(Shard::new(rt.alloc(), MAX_CAPACITY))?;
    turns.hits = turn(rt, &mut turns.least, store, answers, asked)?;
    Ok(())
}

fn lru_turn(
    rt: &HostRuntime,
    turns: &mut Turns,
    answers: &[Arc<Answer>],
    asked: &[usize],
) -> io::Result<()> {
    let store: LruCache<PageUrl, SharedAnswer> = LruCache::new(rt.alloc(), capacity())?;
    turns.hits = turn(rt, &mut turns.least, store, answers, asked)?;
    Ok(())
}

// Fills the store, and times how long it takes to ask for the answers; the hits are counted.
fn turn<S: Store>(
    rt: &HostRuntime,
    least: &mut Least,
    mut store: S,
    answers: &[Arc<Answer>],
    asked: &[usize],
) -> io::Result<usize> {
    for answer in answers.iter().take(MAX_CAPACITY) {
        store.ask(answer)?;
    }
    let begun = Instant::now(rt)?;
    let hits = hits(&mut store, answers, asked)?;
    least.note(rt, begun)?;
    Ok(hits)
}

// How many of the answers that are asked for are stored.
fn hits<S: Store>(store: &mut S, answers: &[Arc<Answer>], asked: &[usize]) -> io::Result<usize> {
    let mut hits: usize = 0;
    for at in asked.iter() {
        if let Some(answer) = answers.get(*at) {
            hits = hits.wrapping_add(usize::from(store.ask(answer)?));
        }
    }
    Ok(hits)
}

// Which answers are asked for: stored ones in scattered order, and one in `every` that
// isn't stored.
fn asked(alloc: Global, every: usize) -> io::Result<Vec<usize>> {
    let mut stored = first_stored(alloc)?;
    let mut asked = Vec::with_capacity(alloc, STEPS)?;
    for step in 1..=STEPS {
        let hit = step.checked_rem(every) != Some(0);
        let at = next(&stored, step.wrapping_mul(2_654_435_761), hit);
        stored.put(at, ())?;
        asked.push(at)?;
    }
    Ok(asked)
}

// The answers that are stored at first.
fn first_stored(alloc: Global) -> io::Result<LruCache<usize, ()>> {
    let mut stored = LruCache::new(alloc, capacity())?;
    for at in 0..MAX_CAPACITY {
        stored.put(at, ())?;
    }
    Ok(stored)
}

// The next answer from a place on that is stored, or that isn't.
fn next(stored: &LruCache<usize, ()>, from: usize, is_stored: bool) -> usize {
    let mut at = from % URLS;
    for _ in 0..URLS {
        if stored.contains(&at) == is_stored {
            break;
        }
        at = at.wrapping_add(1) % URLS;
    }
    at
}

fn capacity() -> NonZeroUsize {
    NonZeroUsize::new(MAX_CAPACITY).unwrap_or(NonZeroUsize::MIN)
}

// How long the steps take in which this many flights at a time leave, are joined, land and are picked
// up. A turn has the same number of steps for any such number.
fn flights(rt: &HostRuntime, answers: &[Arc<Answer>], count: usize) -> io::Result<Duration> {
    let answers = answers.get(..count).unwrap_or(answers);
    let rounds = MAX_FLIGHTS.checked_div(count).unwrap_or(1);
    let (took, picked) = flown(rt, answers, rounds)?;
    print_count(rt, "caching: flights picked up", picked)?;
    Ok(took)
}

// The quickest of several turns, and how many pick-ups all of them had.
fn flown(
    rt: &HostRuntime,
    answers: &[Arc<Answer>],
    rounds: usize,
) -> io::Result<(Duration, usize)> {
    let mut shard = or_io_error(Shard::new(rt.alloc(), MAX_CAPACITY))?;
    let mut least = Least::new();
    let mut picked: usize = 0;
    let mut now: u64 = 0;
    for _ in 0..TURNS {
        let begun = Instant::now(rt)?;
        let turn = several_rounds(rt.alloc(), &mut shard, answers, &mut now, rounds)?;
        least.note(rt, begun)?;
        picked = picked.wrapping_add(turn);
    }
    Ok((least.get(), picked))
}

// This many rounds, each after what the one before stored has expired.
fn several_rounds(
    alloc: Global,
    shard: &mut Shard,
    answers: &[Arc<Answer>],
    now: &mut u64,
    rounds: usize,
) -> io::Result<usize> {
    let mut picked: usize = 0;
    for _ in 0..rounds {
        picked = picked.wrapping_add(round(alloc, shard, answers, *now)?);
        *now = now.wrapping_add(u64::from(FRESH));
    }
    Ok(picked)
}

// Flights for the answers leave, are joined, land and are picked up; returns the number of pick-ups.
fn round(alloc: Global, shard: &mut Shard, answers: &[Arc<Answer>], now: u64) -> io::Result<usize> {
    let joined = fly(alloc, shard, answers, answers, now)?;
    Ok(pick(shard, joined.as_slice()))
}

// Flights for the remaining answers leave. Once all are under way they are joined; then they land,
// the last first. Returns the numbers of those that were joined.
fn fly(
    alloc: Global,
    shard: &mut Shard,
    left: &[Arc<Answer>],
    answers: &[Arc<Answer>],
    now: u64,
) -> io::Result<Vec<u64>> {
    let Some((answer, rest)) = left.split_first() else {
        return join(alloc, shard, answers, now);
    };
    match shard.begin(answer.url(), now) {
        Begun::Lead(flight, ready) => {
            let joined = fly(alloc, shard, rest, answers, now);
            shard.land(flight, Arc::try_clone(answer).unwrap_or(ready), now);
            joined
        }
        Begun::Hit(_) | Begun::Join(_) | Begun::Bypass => fly(alloc, shard, rest, answers, now),
    }
}

fn join(
    alloc: Global,
    shard: &mut Shard,
    answers: &[Arc<Answer>],
    now: u64,
) -> io::Result<Vec<u64>> {
    let mut joined = Vec::with_capacity(alloc, answers.len())?;
    for answer in answers.iter() {
        match shard.begin(answer.url(), now) {
            Begun::Join(number) => joined.push(number)?,
            Begun::Lead(flight, ready) => {
                shard.land(flight, ready, now);
            }
            Begun::Hit(_) | Begun::Bypass => {}
        }
    }
    Ok(joined)
}

fn pick(shard: &mut Shard, joined: &[u64]) -> usize {
    let mut picked: usize = 0;
    for number in joined.iter() {
        if let Picked::Here(_) = shard.pick(*number) {
            picked = picked.wrapping_add(1);
        }
    }
    picked
}
