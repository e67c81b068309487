//! Threads that fetch for one page: a gate, and running out of memory.

use super::meeting::Meeting;
use super::{Origin, push_outcome, source_of, url};
use edge_types::{NoMemory, Request};
use fetch_workers::{AssembleFault, MAX_WORKERS, assemble_gated};
use std::alloc::Global;
use std::process::Abort;
use std::sync::Wait;
use std::sync::atomic::{AtomicU64, Ordering};
use std::test::Fail;
use std::thread::Threads;
use std::time::Clock;

// The output of the page at `/p` with this many threads, or the fault.
fn made<R: Wait + Threads + Clock + Abort + Sync>(
    rt: &R,
    alloc: Global,
    origin: &Origin,
    gate: &Meeting,
    workers: u8,
) -> Result<String, NoMemory> {
    if workers == 0 || workers > MAX_WORKERS {
        return Err(NoMemory);
    }
    let url = url(rt, alloc, "/p")?;
    let request = Request::empty();
    let mut out = String::new(alloc);
    match assemble_gated(rt, alloc, origin, gate, url, request, 16, workers, 4) {
        Ok(page) => push_outcome(&mut out, &page.outcome)?,
        Err(AssembleFault::NoMemory) => out.push_str("no memory")?,
        Err(_) => out.push_str("torn")?,
    }
    Ok(out)
}

const CASE: &str =
    "/p 200 esi <esi:include src='/1'/><esi:include src='/2'/><esi:include src='/3'/><esi:include src='/4'/><esi:include src='/5'/><esi:include src='/6'/>;/1 200 plain 1;/2 200 esi 2<esi:include src='/7'/>;/3 200 plain 3;/4 200 plain 4;/5 200 plain 5;/6 200 plain 6;/7 200 plain 7";

// How the page ends if the source runs out of memory at the fetch with this number, and how many fetches
// passed the gate without another.
fn ended<R: Wait + Threads + Clock + Abort + Sync>(
    rt: &R,
    alloc: Global,
    (refused, workers, millis): (u64, u8, u64),
    wanted: &str,
) -> Result<u64, NoMemory> {
    let fetches = AtomicU64::new(0);
    let gate = Meeting::of("", 3, millis);
    let origin = Origin {
        table: source_of(rt, alloc, CASE)?,
        fetches: &fetches,
        refused,
        round: u64::MAX,
        ends: u64::MAX,
    };
    let out = made(rt, alloc, &origin, &gate, workers)?;
    assert!(rt; out.as_str() == wanted, "{refused} {workers}: {out}");
    let (came, gave_up) = gate.counts();
    assert!(rt;
        came == fetches.load(Ordering::SeqCst),
        "{refused} {workers}: {came}"
    );
    assert!(rt; refused < 8 || came == 8, "{refused} {workers}: {came}");
    Ok(gave_up)
}

// Nobody waits for ever. The page is there if this many fetches aren't made.
#[test]
fn no_memory_at_any_fetch_is_told(rt: HostRuntime) -> Result<(), Fail> {
    for refused in 0..9 {
        let wanted = if refused < 8 { "no memory" } else { "1273456" };
        for workers in [1, 2, 4, 16] {
            ended(&rt, rt.alloc(), (refused, workers, 0), wanted)?;
        }
    }
    Ok(())
}

// One thread's fetch of the first fragment passes alone; two threads pass together, however busy the machine is.
#[test]
fn the_gate_opens_where_two_fetch(rt: HostRuntime) -> Result<(), Fail> {
    assert!(rt; ended(&rt, rt.alloc(), (9, 1, 50), "1273456")? == 1);
    assert!(rt; ended(&rt, rt.alloc(), (9, 2, 10_000), "1273456")? == 0);
    Ok(())
}
