//! What a page holds in memory, compared with its bodies alone: the program's memory is watched from outside.

use crate::inputs::or_io_error;
use crate::site::{Site, includes, page_url, table};
use edge_types::{PageUrl, Request, Table};
use plan_runner::{Event, MAX_AHEAD, Page, Running, run_events};
use std::alloc::Global;
use std::io;

// How many fragments the page has, and how long each is.
const FRAGMENTS: usize = 200;

const LENGTH: usize = 262_144;

// The answers of a page with this many plain fragments.
fn answers(alloc: Global) -> io::Result<Table> {
    let page = includes(alloc, FRAGMENTS)?;
    let body = "x".repeat(alloc, LENGTH)?;
    let site = Site {
        page: page.as_str(),
        body: body.as_str(),
        fragments: FRAGMENTS,
        is_processed: false,
    };
    table(alloc, site)
}

/// Holds the bodies alone.
pub fn bodies(rt: &HostRuntime) -> io::Result<()> {
    let _held = answers(rt.alloc())?;
    println!(rt; "held bodies: {FRAGMENTS} of {LENGTH} bytes")
}

/// Holds a page that is done, and its bodies.
pub fn page(rt: &HostRuntime) -> io::Result<()> {
    let table = answers(rt.alloc())?;
    held(rt, &table)
}

fn held(rt: &HostRuntime, table: &Table) -> io::Result<()> {
    let alloc = rt.alloc();
    let url = page_url(alloc)?;
    let events = events(alloc)?;
    let page = posted(alloc, url, table, events.as_slice())?;
    println!(rt;
        "held page: {} slots, {FRAGMENTS} bodies of {LENGTH} bytes",
        page.slots()
    )
}

// The page after these events.
fn posted(alloc: Global, url: PageUrl, table: &Table, events: &[Event]) -> io::Result<Page> {
    let running = Running {
        ahead: MAX_AHEAD,
        events,
        levels: 4,
    };
    match run_events(alloc, url, Request::empty(), table, running) {
        Ok((page, _)) => Ok(page),
        Err(_) => Err(io::Error::from(io::ErrorKind::OutOfMemory)),
    }
}

// The events by which all is claimed and posted.
fn events(alloc: Global) -> io::Result<Vec<Event>> {
    let mut events = Vec::new(alloc);
    for _ in 0..=FRAGMENTS {
        events.push(Event::Claim)?;
        events.push(Event::Post(0))?;
    }
    Ok(events)
}
