//! Fetches from each source.

use allocation_tools::printing::{answers, bytes, calls, out_of_memory, word};
use allocation_tools::values::{answer, processed, stored, url};
use answer_sources::{
    Answers, Behalf, Clock as Seconds, Given, OnBehalf, OneByOne, Source, TableSource,
};
use edge_connections::ServerRuntime;
use edge_types::{HeadField, HeadFields, NoMemory, Octets, PageUrl, SharedBytes, Table};
use fragment_cache::UrlHashing;
use hyper_source::HyperSource;
use origin_http::EdgeName;
use origins::Origin;
use shared_cache::Cache;
use std::alloc::{AllocGlobal, Global};
use std::io::Print;
use std::net::{Net, SocketAddr, TcpStream};
use std::random::RandomSource;
use std::sync::Wait;
use std::sync::atomic::{AtomicBool, Ordering};
use std::time::{Clock, Duration};

// How many answers a shard of a cache may keep.
const CAPACITY: usize = 2;

// How many seconds a fetch by HTTP may take.
const LIMIT: u64 = 10;

// It is always the same second.
#[derive(Clone, Copy)]
pub struct Still;

impl<R> Seconds<R> for Still {
    fn now(&self, _rt: &R) -> u64 {
        0
    }
}

// A source that is out of memory when it is asked first.
#[derive(Drop)]
struct Forgetful {
    table: TableSource,
    is_asked: AtomicBool,
}

impl<R> Answers<R> for Forgetful {
    ghost use Rattle.std.specs.Prelude.{◌≡◌, false};

    ghost gives = { λ forgetful url answer. answer.url ≡ url };

    ghost names_url = { λ forgetful url answer given. given };

    ghost private = { λ _ _. false };

    fn is_private(&self, _url: &PageUrl) -> bool {
        false
    }
}

impl<R> Source<R> for Forgetful {
    fn fetch(&self, rt: &R, alloc: Global, url: &PageUrl) -> Result<Given, NoMemory> {
        if self.is_asked.swap(true, Ordering::SeqCst) {
            self.table.fetch(rt, alloc, url)
        } else {
            Err(NoMemory)
        }
    }
}

// A page of three includes, and its two fragments, which may be stored.
const PAGE: &str = "A<esi:include src='/x'/><esi:include src='/y'/><esi:include src='/x'/>";

pub fn table(alloc: Global) -> Option<Table> {
    let mut table = Table::new(alloc);
    fill(alloc, &mut table)?;
    Some(table)
}

fn fill(alloc: Global, table: &mut Table) -> Option<()> {
    table.insert(answer(alloc, "/p", processed(), PAGE)?).ok()?;
    table.insert(answer(alloc, "/x", stored(), "1")?).ok()?;
    table.insert(answer(alloc, "/y", stored(), "2")?).ok()
}

/// A cache over these answers.
pub fn cache(alloc: Global) -> Option<Cache<TableSource, Still>> {
    let source = TableSource::new(table(alloc)?);
    Cache::new(alloc, source, Still, CAPACITY).ok()
}

pub fn fetch_from_table<R: AllocGlobal + Print>(rt: &R, name: &str, path: &str) -> Option<()> {
    let source = TableSource::new(table(rt.alloc())?);
    fetch(rt, name, &source, path)
}

fn fetch<R, S>(rt: &R, name: &str, source: &S, path: &str) -> Option<()>
where
    R: AllocGlobal + Print,
    S: Source<R>,
{
    let url = url(rt.alloc(), path)?;
    calls(rt, name)?;
    let fetched = source.fetch(rt, rt.alloc(), &url);
    answers(rt)?;
    print_fetched(rt, &fetched)
}

fn print_fetched(rt: &impl Print, fetched: &Result<Given, NoMemory>) -> Option<()> {
    match fetched {
        Ok(given) if !given.answer.succeeded() => word(rt, "failed"),
        Ok(given) => bytes(rt, given.answer.body()),
        Err(NoMemory) => out_of_memory(rt),
    }
}

/// Prints what a source answers for a path now.
pub fn print_again<R, S>(rt: &R, source: &S, path: &str) -> Option<()>
where
    R: AllocGlobal + Print,
    S: Source<R>,
{
    let url = url(rt.alloc(), path)?;
    word(rt, "again")?;
    print_fetched(rt, &source.fetch(rt, rt.alloc(), &url))
}

pub fn new_cache<R: Wait + Clock + AllocGlobal + Print>(rt: &R, name: &str) -> Option<()> {
    let source = TableSource::new(table(rt.alloc())?);
    calls(rt, name)?;
    let made = Cache::new(rt.alloc(), source, Still, CAPACITY);
    answers(rt)?;
    print_made(rt, &made)
}

pub fn hashed_cache<R>(rt: &R, name: &str) -> Option<()>
where
    R: Wait + Clock + AllocGlobal + RandomSource + Print,
{
    let source = TableSource::new(table(rt.alloc())?);
    let hashing = UrlHashing::secret(rt).ok()?;
    calls(rt, name)?;
    let made = Cache::hashed(rt.alloc(), source, Still, CAPACITY, hashing);
    answers(rt)?;
    print_made(rt, &made)
}

// What a cache that was made answers first.
fn print_made<R>(rt: &R, made: &Result<Cache<TableSource, Still>, NoMemory>) -> Option<()>
where
    R: Wait + Clock + AllocGlobal + Print,
{
    match made {
        Ok(cache) => print_again(rt, cache, "/x"),
        Err(NoMemory) => out_of_memory(rt),
    }
}

/// Makes what is asked on behalf of an edge in place of a cache over origins, of which there are none.
pub fn cache_on_behalf<R>(rt: &R, name: &str) -> Option<()>
where
    R: ServerRuntime + Net<Stream = TcpStream> + Print,
{
    let alloc = rt.alloc();
    let edge = EdgeName::of(alloc, b"edge-1").ok()??;
    let source = HyperSource::new(rt, alloc, Vec::new(alloc), None).ok()?;
    let cache = Cache::new(alloc, source.named(edge), Still, CAPACITY).ok()?;
    let own = own_fields(alloc)?;
    calls(rt, name)?;
    let made = made_for(rt, &cache, &own);
    answers(rt)?;
    match &made {
        Ok(Some(made)) => print_again(rt, made, "/x"),
        Ok(None) => word(rt, "the same"),
        Err(NoMemory) => out_of_memory(rt),
    }
}

/// Makes a source to which a URL is private.
pub fn source_apart<R>(rt: &R, name: &str) -> Option<()>
where
    R: ServerRuntime + Net<Stream = TcpStream> + Print,
{
    let alloc = rt.alloc();
    let source = HyperSource::new(rt, alloc, Vec::new(alloc), None).ok()?;
    let mut prefixes = Vec::new(alloc);
    prefixes.push(url(alloc, "/")?).ok()?;
    calls(rt, name)?;
    let made = source.apart(alloc, prefixes);
    answers(rt)?;
    match &made {
        Ok(made) => print_again(rt, made, "/x"),
        Err(NoMemory) => out_of_memory(rt),
    }
}

// Fields of a reader, of which each source shares one list.
fn own_fields(alloc: Global) -> Option<HeadFields> {
    let mut fields = Vec::new(alloc);
    fields
        .push(HeadField {
            name: Octets::copy_of(alloc, b"cookie").ok()?,
            value: Octets::copy_of(alloc, b"session=1").ok()?,
        })
        .ok()?;
    HeadFields::of(alloc, fields).ok()
}

fn made_for<R, S>(rt: &R, source: &S, own: &HeadFields) -> Result<Option<S>, NoMemory>
where
    R: AllocGlobal,
    S: OnBehalf<R>,
{
    let behalf = Behalf {
        passed: b"edge-2",
        own,
    };
    source.on_behalf(rt.alloc(), behalf)
}

// Fetches through a cache, and then once more with memory.
fn fetch_twice<R, S>(rt: &R, name: &str, source: &S, path: &str) -> Option<()>
where
    R: AllocGlobal + Print,
    S: Source<R>,
{
    fetch(rt, name, source, path)?;
    print_again(rt, source, path)
}

/// Fetches what isn't stored yet, or, where the table has no answer, never is.
pub fn fetch_through_cache<R>(rt: &R, name: &str, path: &str) -> Option<()>
where
    R: Wait + Clock + AllocGlobal + Print,
{
    fetch_twice(rt, name, &cache(rt.alloc())?, path)
}

/// Fetches what is stored.
pub fn fetch_from_cache<R: Wait + Clock + AllocGlobal + Print>(rt: &R, name: &str) -> Option<()> {
    fetch_stored(rt, name, &cache(rt.alloc())?)
}

fn fetch_stored<R, S>(rt: &R, name: &str, source: &S) -> Option<()>
where
    R: AllocGlobal + Print,
    S: Source<R>,
{
    source.fetch(rt, rt.alloc(), &url(rt.alloc(), "/x")?).ok()?;
    fetch_twice(rt, name, source, "/x")
}

/// Fetches where the source runs out of memory whether or not an allocation fails.
pub fn fetch_from_forgetful<R: Wait + Clock + AllocGlobal + Print>(
    rt: &R,
    name: &str,
) -> Option<()> {
    let forgetful = Forgetful {
        table: TableSource::new(table(rt.alloc())?),
        is_asked: AtomicBool::new(false),
    };
    let source = OneByOne { source: &forgetful };
    let cache = Cache::new(rt.alloc(), source, Still, CAPACITY).ok()?;
    fetch_twice(rt, name, &cache, "/x")
}

/// Fetches from the origin at an address; if that is none, no origin has the URL's authority.
pub fn fetch_by_http<R>(rt: &R, name: &str, address: &str) -> Option<()>
where
    R: ServerRuntime + Net<Stream = TcpStream> + Print,
{
    let mut origins = Vec::new(rt.alloc());
    if let Ok(address) = SocketAddr::parse_ascii(address.as_bytes()) {
        let authority = b"a.test".to_vec(rt.alloc()).ok()?;
        origins.push(Origin { authority, address }).ok()?;
    }
    fetch_from_origins(rt, name, origins)
}

fn fetch_from_origins<R>(rt: &R, name: &str, origins: Vec<Origin>) -> Option<()>
where
    R: ServerRuntime + Net<Stream = TcpStream> + Print,
{
    let limit = Duration::from_secs(LIMIT);
    let source = HyperSource::new(rt, rt.alloc(), origins, Some(limit))
        .ok()?
        .passing(SharedBytes::copy_of(rt.alloc(), b"x-a").ok()?)
        .heeding_cache_control();
    fetch(rt, name, &source, "/x")
}
