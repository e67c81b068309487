//! How fast texts are cut into tokens: in megabytes a second, and against a text four times as long.

use crate::inputs::{page_of_includes, repeated, repeated_behind};
use crate::timing::{Least, print, print_count};
use esi_scanner::scan;
use memchr::memchr;
use std::alloc::{AllocError, Global};
use std::fmt::Write;
use std::io;
use std::time::{Duration, Instant};

const PAGE: usize = 262_144;

const INCLUDES: usize = 200;

const ATTRIBUTES: usize = 40_000;

// How many times each text is scanned.
const TURNS: u32 = 15;

const PLAIN: &str = "Plain words of a page, and no tag. ";

// What a measured text is made of.
#[derive(Clone, Copy)]
enum Text {
    // A front, and then a unit again and again.
    Repeated(&'static str, &'static str),
    // A page with includes at even distances.
    Includes,
    // One tag with many attributes.
    Attributes,
    // One tag with many attributes, of which the last has the name of the first.
    AttributesTwice,
}

impl Text {
    // The text, this many times as long as its usual length.
    fn made(self, alloc: Global, times: usize) -> Result<Vec<u8>, AllocError> {
        let len = PAGE.saturating_mul(times);
        let attributes = ATTRIBUTES.saturating_mul(times);
        match self {
            Text::Repeated(front, unit) => {
                repeated_behind(alloc, front.as_bytes(), unit.as_bytes(), len)
            }
            Text::Includes => page_of_includes(alloc, len, INCLUDES.saturating_mul(times)),
            Text::Attributes => wide_tag(alloc, attributes, false),
            Text::AttributesTwice => wide_tag(alloc, attributes, true),
        }
    }
}

const TEXTS: [(&str, Text); 7] = [
    ("scanning four times: plain text", Text::Repeated("", PLAIN)),
    ("scanning four times: page of 200 includes", Text::Includes),
    (
        "scanning four times: page of other tags",
        Text::Repeated("", "<p class=\"a\">Words</p> - and more\n"),
    ),
    (
        "scanning four times: nothing but <",
        Text::Repeated("", "<"),
    ),
    (
        "scanning four times: - in an open block",
        Text::Repeated("<!--esi ", "-"),
    ),
    ("scanning four times: 40,000 attributes", Text::Attributes),
    (
        "scanning four times: 40,000 attributes, the last as the first",
        Text::AttributesTwice,
    ),
];

/// Prints the measurements.
pub fn run(rt: &HostRuntime) -> io::Result<()> {
    let plain = repeated(rt.alloc(), PLAIN.as_bytes(), PAGE)?;
    beside_memchr(rt, plain.as_slice())?;
    for (name, text) in TEXTS {
        told(rt, name, text)?;
    }
    Ok(())
}

// Prints how long a text four times as long takes, compared with one of its kind.
fn told(rt: &HostRuntime, name: &str, text: Text) -> io::Result<()> {
    let (short, _) = made_and_scanned(rt, text, 1)?;
    let (long, bytes) = made_and_scanned(rt, text, 4)?;
    print(rt, name, long, short, bytes)
}

// The least time for a text, and how many bytes it has.
fn made_and_scanned(rt: &HostRuntime, text: Text, times: usize) -> io::Result<(Duration, usize)> {
    let made = text.made(rt.alloc(), times)?;
    Ok((scanned(rt, made.as_slice())?, made.len()))
}

// Prints how long plain text takes, compared with a search for `<`.
fn beside_memchr(rt: &HostRuntime, plain: &[u8]) -> io::Result<()> {
    let scanning = scanned(rt, plain)?;
    let searching = searched(rt, plain)?;
    print(
        rt,
        "scanning: plain text beside memchr",
        scanning,
        searching,
        PAGE,
    )
}

fn searched(rt: &HostRuntime, plain: &[u8]) -> io::Result<Duration> {
    let mut least = Least::new();
    let mut places: usize = 0;
    for _ in 0..TURNS {
        let begun = Instant::now(rt)?;
        let place = memchr(b'<', plain);
        least.note(rt, begun)?;
        places = places.wrapping_add(place.unwrap_or(0));
    }
    print_count(rt, "scanning: places of <", places)?;
    Ok(least.get())
}

// The least time of several scans, which may be of a malformed text. Their results are dropped outside the
// time.
fn scanned(rt: &HostRuntime, text: &[u8]) -> io::Result<Duration> {
    let mut least = Least::new();
    for _ in 0..TURNS {
        let begun = Instant::now(rt)?;
        let _found = scan(rt.alloc(), text);
        least.note(rt, begun)?;
    }
    Ok(least.get())
}

// One tag with many attributes; the last repeats the first if that is asked for.
fn wide_tag(alloc: Global, attributes: usize, twice: bool) -> Result<Vec<u8>, AllocError> {
    let mut out = String::new(alloc);
    out.push_str("<esi:vars")?;
    for i in 0..attributes {
        let n = if twice && i + 1 == attributes { 0 } else { i };
        write!(out, " attribute-{n}=\"value\"")?;
    }
    out.push_str("/>")?;
    Ok(out.into_bytes())
}
