//! A shard of the cache. No flight is let go without its landing.

ghost use Rattle.std.specs.Prelude.{◌≡◌};
ghost use Rattle.std.specs.Arc.{arc_value};
ghost use Rattle.fragment_cache.specs.Shown.{begun_answer};
ghost use Rattle.fragment_cache.specs.Sound.{NamesUrl};

use allocation_tools::printing::{answers, bytes, calls, number, out_of_memory, word};
use allocation_tools::values::{answer, stored, url};
use edge_types::{Answer, NoMemory, PageUrl};
use fragment_cache::{Begun, Flight, Picked, Shard, UrlHashing};
use std::alloc::Global;
use std::sync::Arc;

// A shard for two answers.
fn shard(alloc: Global) -> Option<Shard> {
    Shard::new(alloc, 2).ok()
}

pub fn new_shard(rt: &HostRuntime, name: &str) -> Option<()> {
    let url = url(rt.alloc(), "/x")?;
    calls(rt, name)?;
    let made = Shard::new(rt.alloc(), 2);
    answers(rt)?;
    print_made(rt, made, &url)
}

pub fn hashed_shard(rt: &HostRuntime, name: &str) -> Option<()> {
    let url = url(rt.alloc(), "/x")?;
    let hashing = UrlHashing::secret(rt).ok()?;
    calls(rt, name)?;
    let made = Shard::hashed(rt.alloc(), 2, hashing);
    answers(rt)?;
    print_made(rt, made, &url)
}

// What a shard that was made answers first.
fn print_made(rt: &HostRuntime, made: Result<Shard, NoMemory>, url: &PageUrl) -> Option<()> {
    match made {
        Ok(mut shard) => print_begun(rt, &mut shard, url, 0),
        Err(NoMemory) => out_of_memory(rt),
    }
}

// Lands a flight of this URL that may have begun, with its failed answer.
fn end(shard: &mut Shard, url: &PageUrl, begun: Begun, now: u64)
    requires { NamesUrl url.now (begun_answer begun) }
{
    match begun {
        Begun::Lead(flight, ready) => {
            shard.land(flight, ready, now);
        }
        Begun::Hit(_) | Begun::Join(_) | Begun::Bypass => {}
    }
}

// Lands a flight with the answer, if it is of the flight's URL.
fn land_with(
    shard: &mut Shard,
    flight: Flight,
    ready: Arc<Answer>,
    told: Arc<Answer>,
    now: u64,
) -> Arc<Answer>
    requires { (arc_value ready).url ≡ flight.url }
{
    if *told.url() == *flight.url() {
        shard.land(flight, told, now)
    } else {
        shard.land(flight, ready, now)
    }
}

// Stores an answer, or doesn't if its URL is taken.
fn store(shard: &mut Shard, told: Arc<Answer>) {
    match shard.begin(told.url(), 0) {
        Begun::Lead(flight, ready) => {
            land_with(shard, flight, ready, told, 0);
        }
        Begun::Hit(_) | Begun::Join(_) | Begun::Bypass => {}
    }
}

// What `begin` answers now; a flight lands at once.
fn print_begun(rt: &HostRuntime, shard: &mut Shard, url: &PageUrl, now: u64) -> Option<()> {
    let begun = shard.begin(url, now);
    print_ended(rt, shard, url, begun, now)
}

fn print_ended(
    rt: &HostRuntime,
    shard: &mut Shard,
    url: &PageUrl,
    begun: Begun,
    now: u64,
) -> Option<()>
    requires { NamesUrl url.now (begun_answer begun) }
{
    match begun {
        Begun::Hit(answer) => print_body(rt, "hit", &answer),
        Begun::Join(number) => print!(rt; " join {number}").ok(),
        Begun::Lead(flight, ready) => {
            shard.land(flight, ready, now);
            word(rt, "lead")
        }
        Begun::Bypass => word(rt, "bypass"),
    }
}

fn print_body(rt: &HostRuntime, how: &str, answer: &Answer) -> Option<()> {
    word(rt, how)?;
    bytes(rt, answer.body())
}

// Begins at a shard, and then once more with memory.
fn begin_at(rt: &HostRuntime, name: &str, shard: &mut Shard, url: &PageUrl) -> Option<()> {
    calls(rt, name)?;
    let begun = shard.begin(url, 0);
    let marked = answers(rt);
    print_ended(rt, shard, url, begun, 0)?;
    marked?;
    word(rt, "again")?;
    print_begun(rt, shard, url, 0)
}

/// Begins where nothing is stored.
pub fn lead(rt: &HostRuntime, name: &str) -> Option<()> {
    begin_at(rt, name, &mut shard(rt.alloc())?, &url(rt.alloc(), "/x")?)
}

/// Begins where the answer is stored.
pub fn hit(rt: &HostRuntime, name: &str) -> Option<()> {
    let mut shard = shard(rt.alloc())?;
    store(&mut shard, answer(rt.alloc(), "/x", stored(), "1")?);
    begin_at(rt, name, &mut shard, &url(rt.alloc(), "/x")?)
}

pub fn look(rt: &HostRuntime, name: &str) -> Option<()> {
    let url = url(rt.alloc(), "/x")?;
    let mut shard = shard(rt.alloc())?;
    store(&mut shard, answer(rt.alloc(), "/x", stored(), "1")?);
    calls(rt, name)?;
    let found = shard.look(&url, 0);
    answers(rt)?;
    print_found(rt, &found)?;
    word(rt, "left")?;
    print_look(rt, &mut shard, "/x")
}

fn print_found(rt: &HostRuntime, found: &Result<Option<Arc<Answer>>, NoMemory>) -> Option<()> {
    match found {
        Ok(Some(answer)) => print_body(rt, "hit", answer),
        Ok(None) => word(rt, "nothing"),
        Err(NoMemory) => out_of_memory(rt),
    }
}

// Whether the answer of a path is stored.
fn print_look(rt: &HostRuntime, shard: &mut Shard, path: &str) -> Option<()> {
    let found = shard.look(&url(rt.alloc(), path)?, 0);
    word(rt, path)?;
    print_found(rt, &found)
}

// Lands with an answer a flight of its URL that another caller has joined.
fn land_at(
    rt: &HostRuntime,
    name: &str,
    shard: &mut Shard,
    told: Arc<Answer>,
    now: u64,
) -> Option<()> {
    match shard.begin(told.url(), now) {
        Begun::Lead(flight, ready) => {
            let joined = shard.begin(told.url(), now);
            end(shard, told.url(), joined, now);
            let marked = calls(rt, name);
            let given = land_with(shard, flight, ready, told, now);
            answers(rt)?;
            marked?;
            print_body(rt, "gives", &given)
        }
        Begun::Hit(_) | Begun::Join(_) | Begun::Bypass => None,
    }
}

/// Lands an answer that is to be stored, beside another one.
pub fn land(rt: &HostRuntime, name: &str) -> Option<()> {
    let mut shard = shard(rt.alloc())?;
    store(&mut shard, answer(rt.alloc(), "/y", stored(), "2")?);
    let told = answer(rt.alloc(), "/x", stored(), "1")?;
    land_at(rt, name, &mut shard, told, 0)?;
    word(rt, "left")?;
    print_look(rt, &mut shard, "/x")?;
    print_look(rt, &mut shard, "/y")?;
    print_pick(rt, &mut shard, 1)
}

/// Lands a failed answer where one that has expired can stand in.
pub fn bridge(rt: &HostRuntime, name: &str) -> Option<()> {
    let mut shard = shard(rt.alloc())?;
    store(&mut shard, answer(rt.alloc(), "/x", stored(), "1")?);
    let failed = Arc::new(rt.alloc(), Answer::failed(url(rt.alloc(), "/x")?)).ok()?;
    land_at(rt, name, &mut shard, failed, 100)?;
    word(rt, "left")?;
    print_look(rt, &mut shard, "/x")?;
    print_pick(rt, &mut shard, 1)
}

/// Purges one of two answers.
pub fn purge_prefix(rt: &HostRuntime, name: &str) -> Option<()> {
    let mut shard = shard(rt.alloc())?;
    store(&mut shard, answer(rt.alloc(), "/x", stored(), "1")?);
    store(&mut shard, answer(rt.alloc(), "/y", stored(), "2")?);
    calls(rt, name)?;
    let purged = shard.purge_prefix(b"http://a.test/x");
    answers(rt)?;
    match purged {
        Ok(count) => number(rt, count)?,
        Err(NoMemory) => out_of_memory(rt)?,
    }
    word(rt, "left")?;
    print_look(rt, &mut shard, "/x")?;
    print_look(rt, &mut shard, "/y")
}

// What is there for those who wait for a flight.
fn print_pick(rt: &HostRuntime, shard: &mut Shard, number: u64) -> Option<()> {
    let picked = shard.pick(number);
    print_picked(rt, &picked)
}

fn print_picked(rt: &HostRuntime, picked: &Picked) -> Option<()> {
    match picked {
        Picked::Here(answer) => print_body(rt, "here", answer),
        Picked::Flying => word(rt, "flying"),
        Picked::Unknown => word(rt, "unknown"),
    }
}

// Leads and joins a flight, and lands it with an answer.
fn land_joined(shard: &mut Shard, told: Arc<Answer>) {
    match shard.begin(told.url(), 0) {
        Begun::Lead(flight, ready) => {
            let joined = shard.begin(told.url(), 0);
            end(shard, told.url(), joined, 0);
            land_with(shard, flight, ready, told, 0);
        }
        Begun::Hit(_) | Begun::Join(_) | Begun::Bypass => {}
    }
}

/// Picks up the answer of a flight that has landed, which uses the only pick-up up.
pub fn pick(rt: &HostRuntime, name: &str) -> Option<()> {
    let mut shard = shard(rt.alloc())?;
    land_joined(&mut shard, answer(rt.alloc(), "/x", stored(), "1")?);
    calls(rt, name)?;
    let picked = shard.pick(0);
    answers(rt)?;
    print_picked(rt, &picked)?;
    word(rt, "again")?;
    print_pick(rt, &mut shard, 0)
}
