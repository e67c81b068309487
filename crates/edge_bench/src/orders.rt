//! Orders of posting: the cost of a page that advances after each post, compared with one that advances once.

use crate::site::{Site, includes, ran, table};
use crate::timing::{Least, ratio};
use edge_types::Table;
use plan_runner::{Event, MAX_AHEAD};
use std::alloc::{AllocError, Global};
use std::io;

const TURNS: u32 = 15;

/// Prints how long a page takes whose fragments are posted newest first, with an advance after each,
/// compared with one whose fragments are all posted before a single advance. What can't be opened ahead
/// comes one by one in both.
pub fn run(rt: &HostRuntime) -> io::Result<()> {
    told(rt, usize::from(MAX_AHEAD))?;
    told(rt, 1000)
}

fn told(rt: &HostRuntime, fragments: usize) -> io::Result<()> {
    let page = includes(rt.alloc(), fragments)?;
    let site = Site {
        page: page.as_str(),
        body: "plain",
        fragments,
        is_processed: false,
    };
    let table = table(rt.alloc(), site)?;
    let (each, once) = measured(rt, &table)?;
    println!(rt;
        "orders, {fragments} fragments: newest first with an advance after each {} us = {:.2} times all posted and one advance",
        each.get().as_micros(),
        ratio(each.get(), once.get())
    )
}

// The quickest of several turns of each.
fn measured(rt: &HostRuntime, table: &Table) -> io::Result<(Least, Least)> {
    let newest_first = newest_first(rt.alloc())?;
    let all_at_once = all_at_once(rt.alloc())?;
    let mut each = Least::new();
    let mut once = Least::new();
    for _ in 0..TURNS {
        timed(rt, table, newest_first.as_slice(), &mut each)?;
        timed(rt, table, all_at_once.as_slice(), &mut once)?;
    }
    Ok((each, once))
}

fn timed(rt: &HostRuntime, table: &Table, events: &[Event], least: &mut Least) -> io::Result<()> {
    least.time(rt, || ran(rt.alloc(), table, MAX_AHEAD, 4, events))?
}

// The page is posted, and all that is opened ahead is claimed.
fn claims(alloc: Global) -> Result<Vec<Event>, AllocError> {
    let mut events = Vec::new(alloc);
    events.push(Event::Claim)?;
    events.push(Event::Post(0))?;
    for _ in 0..MAX_AHEAD {
        events.push(Event::Claim)?;
    }
    Ok(events)
}

fn newest_first(alloc: Global) -> Result<Vec<Event>, AllocError> {
    let mut events = claims(alloc)?;
    for place in (0..usize::from(MAX_AHEAD)).rev() {
        events.push(Event::Post(place))?;
        events.push(Event::Advance)?;
    }
    Ok(events)
}

fn all_at_once(alloc: Global) -> Result<Vec<Event>, AllocError> {
    let mut events = claims(alloc)?;
    for _ in 0..MAX_AHEAD {
        events.push(Event::Post(0))?;
    }
    Ok(events)
}
