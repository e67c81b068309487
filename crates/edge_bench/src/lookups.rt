//! Speed of look-ups of a name in a long field, beside a search for the name in the same bytes; and of twenty in a page,
//! which remembers what it found.

use crate::inputs::{or_io_error, repeated};
use crate::timing::{Least, print, print_count};
use edge_types::{NoMemory, Octets, Request, SharedBytes};
use esi_vars::{Lookups, Reference, Variable, value, value_by};
use memchr::memmem;
use std::alloc::Global;
use std::io;
use std::time::Duration;

// How long the cookies before the last one are.
const LEN: usize = 59_500;

// The last cookie.
const LAST: &[u8] = b"b=2";

// How many times each look-up is made; the quickest counts.
const TURNS: u32 = 200;

// How many times a page asks for the name.
const AGAIN: u32 = 20;

// What each look-up is, the name, and the cookie that is repeated before the last one.
const LOOKUPS: [(&str, &str, &str); 3] = [
    ("lookups: an absent name", "zz", "a=1; "),
    ("lookups: the last name", "b", "a=1; "),
    ("lookups: a name that ends each other one", "b", "ab=; "),
];

/// Prints how long each look-up takes, compared with a search for the name.
pub fn run(rt: &HostRuntime) -> io::Result<()> {
    for (what, name, unit) in LOOKUPS {
        told(rt, what, name, unit)?;
    }
    Ok(())
}

fn told(rt: &HostRuntime, what: &str, name: &str, unit: &str) -> io::Result<()> {
    let mut cookies = repeated(rt.alloc(), unit.as_bytes(), LEN)?;
    cookies.extend_from_slice(LAST)?;
    let mut request = Request::empty();
    request.cookie = or_io_error(SharedBytes::copy_of(rt.alloc(), cookies.as_slice()))?;
    let reference = or_io_error(cookie_of(rt.alloc(), name.as_bytes()))?;
    let looking = looked_up(rt, &request, &reference)?;
    let searching = searched(rt, cookies.as_slice(), name.as_bytes())?;
    print(rt, what, looking, searching, cookies.len())?;
    let remembering = asked_again(rt, &request, &reference, true)?;
    let forgetting = asked_again(rt, &request, &reference, false)?;
    print(
        rt,
        "lookups: twenty times",
        remembering,
        forgetting,
        cookies.len(),
    )
}

// A reference to the cookie of this name.
fn cookie_of(alloc: Global, name: &[u8]) -> Result<Reference, NoMemory> {
    Ok(Reference {
        variable: Variable::HttpCookie,
        key: Some(Octets::copy_of(alloc, name)?),
        default: None,
    })
}

fn looked_up(rt: &HostRuntime, request: &Request, reference: &Reference) -> io::Result<Duration> {
    let mut least = Least::new();
    let mut bytes: usize = 0;
    for _ in 0..TURNS {
        let said = least.time(rt, || value(request, reference).len())?;
        bytes = bytes.wrapping_add(said);
    }
    print_count(rt, "lookups: bytes found", bytes)?;
    Ok(least.get())
}

// Twenty look-ups, of which the first may be remembered.
fn asked_again(
    rt: &HostRuntime,
    request: &Request,
    reference: &Reference,
    remembers: bool,
) -> io::Result<Duration> {
    let alloc = rt.alloc();
    let mut least = Least::new();
    let mut bytes: usize = 0;
    for _ in 0..TURNS {
        let mut lookups = if remembers {
            Lookups::new(alloc)
        } else {
            Lookups::none()
        };
        let said = least.time(rt, || said_again(request, reference, &mut lookups))?;
        bytes = bytes.wrapping_add(said);
    }
    print_count(rt, "lookups: bytes found", bytes)?;
    Ok(least.get())
}

// How many bytes twenty look-ups find.
fn said_again(request: &Request, reference: &Reference, lookups: &mut Lookups) -> usize {
    let mut bytes: usize = 0;
    for _ in 0..AGAIN {
        bytes = bytes.wrapping_add(value_by(request, reference, lookups).len());
    }
    bytes
}

fn searched(rt: &HostRuntime, cookies: &[u8], name: &[u8]) -> io::Result<Duration> {
    let mut least = Least::new();
    let mut places: usize = 0;
    for _ in 0..TURNS {
        let place = least.time(rt, || memmem::find(cookies, name).unwrap_or(0))?;
        places = places.wrapping_add(place);
    }
    print_count(rt, "lookups: places of the name", places)?;
    Ok(least.get())
}
