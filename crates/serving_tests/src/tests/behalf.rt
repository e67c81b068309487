//! A cache, and those that are made of it on behalf of requests.

use super::caching::{Hands, given};
use super::{push_outcome, source_of, url};
use answer_sources::{
    Answers, Arrival, Behalf, ConcurrentSource, Given, OnBehalf, OneByOne, Source, TableSource,
};
use edge_types::{HeadFields, NoMemory, PageUrl, Request};
use fetch_workers::assemble;
use shared_cache::Cache;
use std::alloc::Global;
use std::collections::VecDeque;
use std::process::Abort;
use std::sync::Wait;
use std::sync::atomic::{AtomicU64, Ordering};
use std::test::Fail;
use std::thread::Threads;

// A table, in whose place another one is asked on behalf of edges. Private is what ends so.
#[derive(Clone, Copy)]
struct Twofold<'a> {
    table: &'a TableSource,
    other: &'a TableSource,
}

impl<R> Answers<R> for Twofold<'_> {
    ghost use Rattle.std.specs.Prelude.{◌≡◌, nat_eq, codes};
    ghost use Rattle.std.specs.List.{ends_with};

    ghost gives = { λ it url answer. answer.url ≡ url };

    ghost names_url = { λ it url answer given. given };

    ghost private = { λ _ url. ends_with nat_eq url (codes "/own") };

    fn is_private(&self, url: &PageUrl) -> bool {
        url.as_bytes().ends_with(b"/own")
    }
}

impl<R> Source<R> for Twofold<'_> {
    fn fetch(&self, rt: &R, alloc: Global, url: &PageUrl) -> Result<Given, NoMemory> {
        self.table.fetch(rt, alloc, url)
    }
}

impl<R> ConcurrentSource<R> for Twofold<'_> {
    type InFlight = VecDeque<PageUrl>;

    fn nothing_in_flight(&self, _rt: &R, alloc: Global) -> VecDeque<PageUrl> {
        VecDeque::new(alloc)
    }

    fn begin(
        &self,
        rt: &R,
        alloc: Global,
        in_flight: &mut VecDeque<PageUrl>,
        url: &PageUrl,
    ) -> Result<(), NoMemory> {
        self.table.begin(rt, alloc, in_flight, url)
    }

    fn next(&self, rt: &R, alloc: Global, in_flight: &mut VecDeque<PageUrl>) -> Arrival {
        OneByOne { source: self }.next(rt, alloc, in_flight)
    }

    fn is_idle(&self, in_flight: &VecDeque<PageUrl>) -> bool {
        in_flight.is_empty()
    }

    fn give_up(&self, _rt: &R, _alloc: Global, _in_flight: VecDeque<PageUrl>) {}
}

impl<'a, R> OnBehalf<R> for Twofold<'a> {
    fn on_behalf(
        &self,
        _alloc: Global,
        behalf: Behalf<'_>,
    ) -> Result<Option<Twofold<'a>>, NoMemory> {
        if behalf.passed != b"edge-a".as_slice() {
            return Ok(None);
        }
        Ok(Some(Twofold {
            table: self.other,
            other: self.other,
        }))
    }
}

// What is asked on behalf of an edge in place of this source.
fn made_for<R, S: OnBehalf<R>>(
    _rt: &R,
    alloc: Global,
    source: &S,
    edge: &[u8],
) -> Result<Option<S>, NoMemory> {
    let behalf = Behalf {
        passed: edge,
        own: &HeadFields::none(),
    };
    source.on_behalf(alloc, behalf)
}

// A cache and the one that is made of it on behalf of an edge: each fetches from its own table, and has what the other
// one keeps.
#[test]
fn caches_on_behalf_of_edges_keep_the_same(rt: HostRuntime) -> Result<(), Fail> {
    let alloc = rt.alloc();
    let seconds = AtomicU64::new(100);
    let table = source_of(&rt, alloc, "/x 200 60 1;/y 200 60 1")?;
    let other = source_of(&rt, alloc, "/x 200 60 2;/y 200 60 2")?;
    let source = Twofold {
        table: &table,
        other: &other,
    };
    let cache = Cache::new(alloc, source, Hands(&seconds), 8)?;
    let mut out = given(&rt, alloc, &cache, &seconds, "/x")?;
    if let Some(made) = made_for(&rt, alloc, &cache, b"edge-a")? {
        out.push_str(given(&rt, alloc, &made, &seconds, "/x /y")?.as_str())?;
    }
    out.push_str(given(&rt, alloc, &cache, &seconds, "/y +60 /y")?.as_str())?;
    assert!(rt; out.as_str() == "11221", "{out}");
    assert!(rt; made_for(&rt, alloc, &cache, b"edge-b")?.is_none());
    assert!(rt; made_for(&rt, alloc, &table, b"edge-a")?.is_none());
    Ok(())
}

// A private answer is fetched for each request for which it is asked, though it may be kept, and is given to no other.
#[test]
fn private_answers_stay_apart(rt: HostRuntime) -> Result<(), Fail> {
    let alloc = rt.alloc();
    let seconds = AtomicU64::new(100);
    let table = source_of(&rt, alloc, "/x 200 60 1;/own 200 60 1")?;
    let other = source_of(&rt, alloc, "/x 200 60 2;/own 200 60 2")?;
    let source = Twofold {
        table: &table,
        other: &other,
    };
    let cache = Cache::new(alloc, source, Hands(&seconds), 8)?;
    let mut out = given(&rt, alloc, &cache, &seconds, "/x /own")?;
    if let Some(made) = made_for(&rt, alloc, &cache, b"edge-a")? {
        out.push_str(given(&rt, alloc, &made, &seconds, "/x /own")?.as_str())?;
    }
    out.push_str(given(&rt, alloc, &cache, &seconds, "/own")?.as_str())?;
    assert!(rt; out.as_str() == "11121", "{out}");
    assert!(rt; cache.tally(&rt).entries == 1);
    Ok(())
}

// The page at `/p` of a source, so many times.
fn push_pages<R: Wait + Threads + Abort + Sync, S: Source<R> + Sync>(
    rt: &R,
    alloc: Global,
    source: &S,
    count: usize,
    out: &mut String,
) -> Result<(), NoMemory> {
    for _ in 0..count {
        let (url, request) = (url(rt, alloc, "/p")?, Request::empty());
        match assemble(rt, alloc, source, url, request, 2, 1, 4) {
            Ok(page) => push_outcome(out, &page.outcome)?,
            Err(_) => out.push_str("a fault")?,
        }
        out.push(' ')?;
    }
    Ok(())
}

// A template that is kept gives the same page again, and isn't used for the one that comes once it has expired.
#[test]
fn kept_templates_go_with_their_answers(rt: HostRuntime) -> Result<(), Fail> {
    let alloc = rt.alloc();
    let seconds = AtomicU64::new(100);
    let table = source_of(
        &rt,
        alloc,
        "/p 200 esi60 <esi:include src='/x'/>1;/x 200 90 a",
    )?;
    let other = source_of(
        &rt,
        alloc,
        "/p 200 esi60 2<esi:include src='/x'/>;/x 200 90 b",
    )?;
    let source = Twofold {
        table: &table,
        other: &other,
    };
    let cache = Cache::new(alloc, source, Hands(&seconds), 8)?;
    let mut out = String::new(alloc);
    push_pages(&rt, alloc, &cache, 2, &mut out)?;
    if let Some(made) = made_for(&rt, alloc, &cache, b"edge-a")? {
        push_pages(&rt, alloc, &made, 1, &mut out)?;
        seconds.fetch_add(60, Ordering::SeqCst);
        push_pages(&rt, alloc, &made, 2, &mut out)?;
    }
    push_pages(&rt, alloc, &cache, 1, &mut out)?;
    assert!(rt; out.as_str() == "a1 a1 a1 2a 2a 2a ", "{out}");
    Ok(())
}
