//! Whole pages: by the page core alone, and from case text to printed form, compared with the evaluator of
//! the meaning.
ghost use Rattle.std.specs.Prelude.{◌≤◌};
ghost use Rattle.esi_meaning.specs.Meaning.{AreLevels};
ghost use Rattle.plan_runner.specs.declared.page.TheConstants.{MAX_AHEAD};

use crate::inputs::{CHOOSE, or_input_error};
use crate::site::{Site, case_text, evaluated, includes, ran, table};
use crate::timing::{Least, ratio};
use edge_case::{Running, run_case};
use edge_types::Table;
use esi_meaning::are_levels;
use plan_runner::Event;
use std::io;
use std::io::{Read, Write};

const TURNS: u32 = 15;
// How many includes a page has.
const INCLUDES: usize = 1000;
// How long a plain page is.
const PLAIN: usize = 262_144;

// The times of one page.
#[derive(Clone, Copy)]
struct Times {
    evaluating: Least,
    running: Least,
    posted_before: Least,
    printing: Least,
    copying: Least,
}

/// Prints how long pages take.
pub fn run(rt: &HostRuntime) -> io::Result<()> {
    one_fragment(rt, CHOOSE)?;
    many_fragments(rt)?;
    plain(rt)?;
    limit(rt)
}

// Many includes of one processed fragment.
fn one_fragment(rt: &HostRuntime, body: &str) -> io::Result<()> {
    let page = "<esi:include src=\"/0\"/>".repeat(rt.alloc(), INCLUDES)?;
    let site = Site {
        page: page.as_str(),
        body,
        fragments: 1,
        is_processed: true,
    };
    told(rt, "1,000 includes of a choose", site, 4)
}

fn many_fragments(rt: &HostRuntime) -> io::Result<()> {
    let page = includes(rt.alloc(), INCLUDES)?;
    let site = Site {
        page: page.as_str(),
        body: "plain",
        fragments: INCLUDES,
        is_processed: false,
    };
    told(rt, "1,000 plain fragments", site, 4)
}

// A page without includes.
fn plain(rt: &HostRuntime) -> io::Result<()> {
    let page = "Plain words of a page. ".repeat(rt.alloc(), PLAIN / 23)?;
    let site = Site {
        page: page.as_str(),
        body: "",
        fragments: 0,
        is_processed: false,
    };
    told(rt, "256 KiB of plain text", site, 4)
}

fn limit(rt: &HostRuntime) -> io::Result<()> {
    let page = "<esi:include src=\"/0\"/>".repeat(rt.alloc(), 10)?;
    let body = "<esi:include src=\"/0\" onerror=\"continue\"/>".repeat(rt.alloc(), 10)?;
    let site = Site {
        page: page.as_str(),
        body: body.as_str(),
        fragments: 1,
        is_processed: true,
    };
    told(rt, "the limit of legs at five levels", site, 5)
}

// Prints how long a page takes.
fn told(rt: &HostRuntime, name: &str, site: Site<'_>, levels: u8) -> io::Result<()> {
    if !are_levels(levels) {
        return Ok(());
    }
    let text = case_text(rt.alloc(), site)?;
    let times = measured(rt, site, text.as_bytes(), levels)?;
    print(rt, name, times, text.len())
}

fn print(rt: &HostRuntime, name: &str, times: Times, read: usize) -> io::Result<()> {
    let evaluating = times.evaluating.get();
    println!(rt;
        "pages, {name}: evaluated {} us; run {} us, {:.1} times as fast; its fragment posted before {:.1} times",
        evaluating.as_micros(),
        times.running.get().as_micros(),
        ratio(evaluating, times.running.get()),
        ratio(evaluating, times.posted_before.get())
    )?;
    println!(rt;
        "pages, {name}: from case text to print {} us, {:.1} times as fast as evaluated; {:.0} times reading and writing {read} bytes",
        times.printing.get().as_micros(),
        ratio(evaluating, times.printing.get()),
        ratio(times.printing.get(), times.copying.get())
    )
}

// The quickest of several turns of each.
fn measured(rt: &HostRuntime, site: Site<'_>, text: &[u8], levels: u8) -> io::Result<Times>
    requires { AreLevels levels }
{
    let table = table(rt.alloc(), site)?;
    let mut times = Times {
        evaluating: Least::new(),
        running: Least::new(),
        posted_before: Least::new(),
        printing: Least::new(),
        copying: Least::new(),
    };
    for _ in 0..TURNS {
        turn(rt, &table, text, levels, &mut times)?;
    }
    Ok(times)
}

fn turn(
    rt: &HostRuntime,
    table: &Table,
    text: &[u8],
    levels: u8,
    times: &mut Times,
) -> io::Result<()>
    requires { AreLevels levels }
{
    let alloc = rt.alloc();
    times
        .evaluating
        .time(rt, || evaluated(alloc, table, levels))??;
    times
        .running
        .time(rt, || ran(alloc, table, 0, levels, &[]))??;
    times
        .posted_before
        .time(rt, || ran(alloc, table, 1, levels, &BEFORE))??;
    times.printing.time(rt, || printed(rt, text, levels))??;
    times.copying.time(rt, || copied(rt, text))?
}

// The page's answer and its fragment's are posted before the page first advances.
const BEFORE: [Event; 4] = [Event::Claim, Event::Post(0), Event::Claim, Event::Post(0)];

// From case text to printed form.
fn printed(rt: &HostRuntime, text: &[u8], levels: u8) -> io::Result<()>
    requires { AreLevels levels }
{
    let mut reader = text;
    let mut out = Vec::new(rt.alloc());
    let running = Running {
        ahead: 16,
        events: &[],
        levels,
    };
    or_input_error(run_case(rt.alloc(), &mut reader, &mut out, running))
}

// Reads the bytes, and writes what was read.
fn copied(rt: &HostRuntime, bytes: &[u8]) -> io::Result<()> {
    let mut reader = bytes;
    let mut text = Vec::new(rt.alloc());
    let mut copy = Vec::new(rt.alloc());
    reader.read_to_end(&mut text)?;
    copy.write_all(text.as_slice())
}
