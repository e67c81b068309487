//! Templates, compared with only scanning the same text.

use crate::inputs::{CHOOSE, or_input_error, or_io_error, page_of_includes};
use crate::timing::{Least, print};
use edge_types::SharedBytes;
use esi_scanner::scan;
use esi_tree::template;
use std::io;
use std::time::{Duration, Instant};

const PAGE: usize = 262_144;

const TAGS: usize = 200;

const ELEMENTS: usize = 30_000;

const TURNS: u32 = 15;

/// Prints how long a template takes, as a ratio to the scan of its text.
pub fn run(rt: &HostRuntime) -> io::Result<()> {
    let alloc = rt.alloc();
    let page = page_of_includes(alloc, PAGE, TAGS)?;
    told(
        rt,
        "templates beside the scan: 256 KiB with 200 tags",
        page.as_slice(),
    )?;
    let small = "<esi:vars/>".repeat(alloc, ELEMENTS)?;
    told(
        rt,
        "templates beside the scan: 30,000 small elements",
        small.as_bytes(),
    )?;
    let branches = CHOOSE.repeat(alloc, ELEMENTS / 3)?;
    told(
        rt,
        "templates beside the scan: 10,000 chooses of two branches",
        branches.as_bytes(),
    )
}

// Prints how long a template takes, compared with the scan alone.
fn told(rt: &HostRuntime, name: &str, text: &[u8]) -> io::Result<()> {
    let (reading, scanning) = measured(rt, text)?;
    print(rt, name, reading, scanning, text.len())
}

// The quickest of several turns of each.
fn measured(rt: &HostRuntime, text: &[u8]) -> io::Result<(Duration, Duration)> {
    let shared = or_io_error(SharedBytes::copy_of(rt.alloc(), text))?;
    let mut reading = Least::new();
    let mut scanning = Least::new();
    for _ in 0..TURNS {
        scanned(rt, text, &mut scanning)?;
        read(rt, &shared, &mut reading)?;
    }
    Ok((reading.get(), scanning.get()))
}

fn scanned(rt: &HostRuntime, text: &[u8], least: &mut Least) -> io::Result<()> {
    let begun = Instant::now(rt)?;
    let tokens = scan(rt.alloc(), text);
    least.note(rt, begun)?;
    or_input_error(tokens)
}

/// Reads the template of a text, and notes the time.
pub fn read(rt: &HostRuntime, text: &SharedBytes, least: &mut Least) -> io::Result<()> {
    let begun = Instant::now(rt)?;
    let template = template(rt.alloc(), text);
    least.note(rt, begun)?;
    or_input_error(template)
}
