//! Pages whose thread has several fetches in flight.

use super::{push_outcome, source_of, url};
use answer_sources::{
    Answers, Arrival, Clock, ConcurrentSource, Given, OneByOne, Source, TableSource,
};
use edge_types::{NoMemory, PageUrl, Request};
use fetch_workers::Assembling;
use shared_cache::Cache;
use std::alloc::{AllocGlobal, Global};
use std::process::Abort;
use std::sync::Wait;
use std::sync::atomic::{AtomicU64, Ordering};
use std::test::Fail;
use std::thread::Threads;

// How many fetches in flight may still end, and what was seen of them.
#[derive(Drop)]
struct Seen {
    let_through: AtomicU64,
    // The most at once.
    most: AtomicU64,
    ended: AtomicU64,
    given_up: AtomicU64,
}

impl Seen {
    fn of(let_through: u64) -> Seen {
        Seen {
            let_through: AtomicU64::new(let_through),
            most: AtomicU64::new(0),
            ended: AtomicU64::new(0),
            given_up: AtomicU64::new(0),
        }
    }

    // The most at once, how many ended, and how many were given up.
    fn counts(&self) -> (u64, u64, u64) {
        (
            self.most.load(Ordering::SeqCst),
            self.ended.load(Ordering::SeqCst),
            self.given_up.load(Ordering::SeqCst),
        )
    }
}

// Which of the fetches in flight ends first.
#[derive(Clone, Copy)]
enum Order {
    FirstBegun,
    LastBegun,
}

// A table whose fetches end in this order, as many as are let through.
#[derive(Drop)]
struct Flying<'a> {
    table: TableSource,
    order: Order,
    seen: &'a Seen,
}

impl<R> Answers<R> for Flying<'_> {
    ghost use Rattle.std.specs.Prelude.{◌≡◌, false};

    ghost gives = { λ it url answer. answer.url ≡ url };

    ghost names_url = { λ it url answer given. given };

    ghost private = { λ _ _. false };

    fn is_private(&self, _url: &PageUrl) -> bool {
        false
    }
}

impl<R> ConcurrentSource<R> for Flying<'_> {
    type InFlight = Vec<PageUrl>;

    fn nothing_in_flight(&self, _rt: &R, alloc: Global) -> Vec<PageUrl> {
        Vec::new(alloc)
    }

    fn begin(
        &self,
        _rt: &R,
        _alloc: Global,
        in_flight: &mut Vec<PageUrl>,
        url: &PageUrl,
    ) -> Result<(), NoMemory> {
        in_flight.push(url.share()?)?;
        self.seen
            .most
            .fetch_max(in_flight.len() as u64, Ordering::SeqCst);
        Ok(())
    }

    fn next(&self, rt: &R, alloc: Global, in_flight: &mut Vec<PageUrl>) -> Arrival {
        let last = in_flight.len().saturating_sub(1);
        let place = match self.order {
            Order::FirstBegun => 0,
            Order::LastBegun => last,
        };
        if place >= in_flight.len() || self.seen.let_through.load(Ordering::SeqCst) == 0 {
            return Ok(None);
        }
        self.seen.let_through.fetch_sub(1, Ordering::SeqCst);
        let url = in_flight.remove(place);
        self.seen.ended.fetch_add(1, Ordering::SeqCst);
        Ok(Some(self.table.fetch(rt, alloc, &url)?))
    }

    fn is_idle(&self, in_flight: &Vec<PageUrl>) -> bool {
        in_flight.is_empty()
    }

    fn give_up(&self, _rt: &R, _alloc: Global, in_flight: Vec<PageUrl>) {
        let left = in_flight.len() as u64;
        self.seen.given_up.fetch_add(left, Ordering::SeqCst);
    }
}

// It is always the same second.
#[derive(Drop)]
struct Still;

impl<R> Clock<R> for Still {
    fn now(&self, _rt: &R) -> u64 {
        0
    }
}

// The body of the page at `/p`, with so many fetches in flight.
fn body_of<R, S>(rt: &R, source: &S, fetches: u16) -> Result<String, NoMemory>
where
    R: Wait + Threads + Abort + AllocGlobal + Sync,
    S: ConcurrentSource<R> + Sync,
{
    let alloc = rt.alloc();
    let how = Assembling::new(16, 4, 4).with_fetches(fetches.clamp(1, 256));
    let (url, request) = (url(rt, alloc, "/p")?, Request::empty());
    let made = how.assemble(rt, alloc, source, url, request);
    let mut out = String::new(alloc);
    match made {
        Ok(page) => push_outcome(&mut out, &page.outcome)?,
        Err(_) => out.push_str("no page")?,
    }
    Ok(out)
}

// Four fragments, one of which has another in it.
const CASE: &str =
    "/p 200 esi A<esi:include src='/w'/><esi:include src='/x'/><esi:include src='/y'/><esi:include src='/z'/>B;/w 200 60 1;/x 200 esi (<esi:include src='/v'/>);/v 200 plain 2;/y 200 60 3;/z 200 plain 4";

#[test]
fn a_page_is_the_same_whatever_ends_first(rt: HostRuntime) -> Result<(), Fail> {
    let rows = [
        (1, (1, 6, 0)),
        (2, (2, 6, 0)),
        (3, (3, 6, 0)),
        (256, (4, 6, 0)),
    ];
    for (fetches, wanted) in rows {
        let seen = Seen::of(u64::MAX);
        let table = source_of(&rt, rt.alloc(), CASE)?;
        let source = Flying {
            table,
            order: Order::LastBegun,
            seen: &seen,
        };
        let out = body_of(&rt, &source, fetches)?;
        assert!(rt; out.as_str() == "A1(2)34B", "{out}");
        assert!(rt; seen.counts() == wanted);
    }
    Ok(())
}

// The alternate is fetched ahead, and not needed.
const SPARE: &str = "/p 200 esi <esi:include src='/x' alt='/a'/>;/x 200 plain 1;/a 200 plain 2";

#[test]
fn what_a_page_does_not_need_is_given_up(rt: HostRuntime) -> Result<(), Fail> {
    let seen = Seen::of(u64::MAX);
    let table = source_of(&rt, rt.alloc(), SPARE)?;
    let source = Flying {
        table,
        order: Order::FirstBegun,
        seen: &seen,
    };
    let out = body_of(&rt, &source, 2)?;
    assert!(rt; out.as_str() == "1", "{out}");
    assert!(rt; seen.counts() == (2, 2, 1));
    Ok(())
}

#[test]
fn a_cache_and_any_source_are_flown_through(rt: HostRuntime) -> Result<(), Fail> {
    let alloc = rt.alloc();
    let seen = Seen::of(u64::MAX);
    let table = source_of(&rt, alloc, CASE)?;
    let source = Flying {
        table,
        order: Order::LastBegun,
        seen: &seen,
    };
    let cache = Cache::new(alloc, source, Still, 8)?;
    // Two of the fragments are kept.
    for ended in [6, 10] {
        let out = body_of(&rt, &cache, 8)?;
        assert!(rt; out.as_str() == "A1(2)34B", "{out}");
        assert!(rt; seen.counts() == (4, ended, 0));
    }
    let table = source_of(&rt, alloc, CASE)?;
    let out = body_of(&rt, &OneByOne { source: &table }, 8)?;
    assert!(rt; out.as_str() == "A1(2)34B", "{out}");
    Ok(())
}

// Goes on with a page until it is made, each time once one more fetch has ended. How often it waited.
fn waits_of<R>(rt: &R, fetches: u16) -> Result<(u64, String), NoMemory>
where
    R: Wait + Threads + Abort + AllocGlobal + Clone + Sync + Drop,
{
    let alloc = rt.alloc();
    let seen = Seen::of(0);
    let source = Flying {
        table: source_of(rt, alloc, CASE)?,
        order: Order::LastBegun,
        seen: &seen,
    };
    let how = Assembling::new(16, 1, 4).with_fetches(fetches.clamp(1, 256));
    let mut page = how.begin(
        rt.clone()?,
        alloc,
        source,
        url(rt, alloc, "/p")?,
        Request::empty(),
    )?;
    let mut out = String::new(alloc);
    for waits in 0..1_000 {
        page = match page.go_on() {
            Ok(ended) => {
                if let Ok(made) = &ended.made {
                    push_outcome(&mut out, &made.outcome)?;
                }
                return Ok((waits, out));
            }
            Err(waiting) => waiting,
        };
        seen.let_through.fetch_add(1, Ordering::SeqCst);
    }
    Ok((1_000, out))
}

#[test]
fn a_page_waits_as_a_value(rt: HostRuntime) -> Result<(), Fail> {
    for fetches in [1, 2, 256] {
        let (waits, out) = waits_of(&rt, fetches)?;
        assert!(rt; out.as_str() == "A1(2)34B", "{out}");
        assert!(rt; waits == 6);
    }
    Ok(())
}
