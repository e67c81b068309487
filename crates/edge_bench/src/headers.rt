//! `Surrogate-Control`: long values of one repeated unit cost no more per byte than short ones.

use crate::inputs::repeated;
use crate::timing::{Least, print, print_count};
use std::io;
use std::time::{Duration, Instant};
use surrogate_headers::control;

// The length of a small value, and of a large one.
const SMALL: usize = 65_536;

const LARGE: usize = 262_144;
// How many times each value is read.
const TURNS: usize = 40;

// What the values are made of.
const UNITS: [(&str, &str); 9] = [
    ("headers: quotes", "\""),
    ("headers: commas", ","),
    ("headers: semicolons", ";"),
    ("headers: blanks", " "),
    ("headers: letters", "a"),
    (
        "headers: digits",
        "max-age=11111111111111111111111111111111",
    ),
    ("headers: words", "content=\"ESI/1.0 a b c\","),
    (
        "headers: directives",
        "max-age=60, no-store;other, content=\"ESI/1.0\",",
    ),
    ("headers: open quote", "x\", "),
];

/// Prints for each unit the ratio of the longer value's time to the shorter's: 4 is linear, 16 quadratic.
pub fn run(rt: &HostRuntime) -> io::Result<()> {
    for (name, unit) in UNITS {
        let short = read(rt, unit, SMALL)?;
        let long = read(rt, unit, LARGE)?;
        print(rt, name, long, short, LARGE)?;
    }
    Ok(())
}

// The least time in which a value of this unit and this length is read.
fn read(rt: &HostRuntime, unit: &str, len: usize) -> io::Result<Duration> {
    let value = repeated(rt.alloc(), unit.as_bytes(), len)?;
    read_value(rt, value.as_slice())
}

fn read_value(rt: &HostRuntime, value: &[u8]) -> io::Result<Duration> {
    let mut least = Least::new();
    for _ in 0..TURNS {
        let begun = Instant::now(rt)?;
        let found = control(value, b"edge1");
        least.note(rt, begun)?;
        // Never the case: the answer is looked at so that no turn is optimised away.
        if found.extension == 7 {
            print_count(rt, "headers: an extension", 7)?;
        }
    }
    Ok(least.get())
}
