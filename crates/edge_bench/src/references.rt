//! Speed of references: `parts` and `substitute` compared with a plain copy of the same bytes.

use crate::inputs::{or_input_error, or_io_error, repeated};
use crate::timing::{Least, print};
use edge_types::{NoMemory, Request, SharedBytes};
use esi_vars::{Part, parts, substitute};
use std::alloc::{AllocError, Global};
use std::io;
use std::time::{Duration, Instant};

/// How long the measured texts are.
const LEN: usize = 262_144;
/// How many times each step is run; the quickest run counts.
const TURNS: u32 = 200;

// What the openers of a reference are.
const OPENERS: [&str; 5] = ["$(", "$(A{", "$(A|'", "$(A|", "$"];

// The times that others are compared with: of a copy, and of reading plain text.
#[derive(Clone, Copy)]
struct Base {
    copy: Duration,
    plain: Duration,
}

/// Prints how long reading and substituting take, and the ratios to copying and to plain text.
pub fn run(rt: &HostRuntime) -> io::Result<()> {
    let mut request = Request::empty();
    or_io_error(fill_in(rt.alloc(), &mut request))?;
    all_told(rt, &request)
}

fn all_told(rt: &HostRuntime, request: &Request) -> io::Result<()> {
    let base = plain_told(rt, request)?;
    for unit in OPENERS {
        openers_told(rt, request, unit, base)?;
    }
    page_told(rt, request, base)
}

// The times of plain text, with which the others are compared.
fn plain_told(rt: &HostRuntime, request: &Request) -> io::Result<Base> {
    let plain = repeated(rt.alloc(), b"x", LEN)?;
    let copy = copied(rt, plain.as_slice())?;
    let base = Base { copy, plain: copy };
    let plain = told(rt, request, "plain text", plain.as_slice(), base)?;
    Ok(Base { copy, plain })
}

// Nothing but openers, and the same text with a last byte that may end them all.
fn openers_told(rt: &HostRuntime, request: &Request, unit: &str, base: Base) -> io::Result<()> {
    let mut text = repeated(rt.alloc(), unit.as_bytes(), LEN)?;
    told(rt, request, unit, text.as_slice(), base)?;
    text.pop();
    text.push(b')')?;
    told(rt, request, "  the same, then `)`", text.as_slice(), base)?;
    Ok(())
}

fn page_told(rt: &HostRuntime, request: &Request, base: Base) -> io::Result<()> {
    let page = page(rt.alloc())?;
    let name = "page with 2,000 references";
    told(rt, request, name, page.as_bytes(), base)?;
    Ok(())
}

// Prints the times of one text, and returns that of reading it.
fn told(
    rt: &HostRuntime,
    request: &Request,
    name: &str,
    text: &[u8],
    base: Base,
) -> io::Result<Duration> {
    let (reading, writing) = measured(rt, request, text)?;
    print(rt, name, reading, base.plain, LEN)?;
    print(rt, "  parts beside a copy", reading, base.copy, LEN)?;
    print(rt, "  substitute beside a copy", writing, base.copy, LEN)?;
    Ok(reading)
}

// The quickest of several turns, of `parts` and of `substitute`.
fn measured(rt: &HostRuntime, request: &Request, text: &[u8]) -> io::Result<(Duration, Duration)> {
    let text = or_io_error(SharedBytes::copy_of(rt.alloc(), text))?;
    turns(rt, request, &text)
}

fn turns(
    rt: &HostRuntime,
    request: &Request,
    text: &SharedBytes,
) -> io::Result<(Duration, Duration)> {
    let mut reading = Least::new();
    let mut writing = Least::new();
    for _ in 0..TURNS {
        let begun = Instant::now(rt)?;
        let found = or_io_error(parts(rt.alloc(), text))?;
        reading.note(rt, begun)?;
        write(rt, request, found.as_slice(), &mut writing)?;
    }
    Ok((reading.get(), writing.get()))
}

fn write(rt: &HostRuntime, request: &Request, found: &[Part], least: &mut Least) -> io::Result<()> {
    let begun = Instant::now(rt)?;
    let out = substitute(rt.alloc(), request, found);
    least.note(rt, begun)?;
    or_input_error(out)
}

// How long it takes to copy the bytes.
fn copied(rt: &HostRuntime, text: &[u8]) -> io::Result<Duration> {
    let mut least = Least::new();
    for _ in 0..TURNS {
        let begun = Instant::now(rt)?;
        let copy = text.to_vec(rt.alloc());
        least.note(rt, begun)?;
        or_input_error(copy)?;
    }
    Ok(least.get())
}

// A page of the measured length with 2,000 references in it.
fn page(alloc: Global) -> Result<String, AllocError> {
    let mut unit = String::new(alloc);
    unit.push_str("$(HTTP_COOKIE{group}|'none')")?;
    unit.push_str("x".repeat(alloc, 103)?.as_str())?;
    unit.repeat(alloc, 2000)
}

fn fill_in(alloc: Global, request: &mut Request) -> Result<(), NoMemory> {
    request.host = SharedBytes::copy_of(alloc, b"a.test")?;
    request.cookie = SharedBytes::copy_of(alloc, b"session=12345678; theme=dark; group=staff")?;
    Ok(())
}
