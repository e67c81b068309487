//! Plans, compared with only reading the template of the same text.

use crate::inputs::{answer, or_input_error, or_io_error, page_of_includes, url};
use crate::templates::read;
use crate::timing::{Least, print, print_count};
use edge_types::{Answer, Control, SharedBytes};
use esi_tree::template;
use plan_compiler::{Prepared, compile};
use std::alloc::Global;
use std::io;
use std::sync::Arc;
use std::time::Instant;

const PAGE: usize = 262_144;

const TAGS: usize = 200;

const ELEMENTS: usize = 30_000;

const TURNS: u32 = 15;
// How many plans of one body are held.
const HELD: usize = 2000;

/// Prints how long making an answer ready and compiling a template take, as ratios to reading the
/// template.
pub fn run(rt: &HostRuntime) -> io::Result<()> {
    prepared_told(rt, &page(rt.alloc())?)?;
    let small = "<esi:include src=\"/f\"/>".repeat(rt.alloc(), ELEMENTS)?;
    compiled_told(rt, &or_io_error(SharedBytes::of(small.into_bytes()))?)
}

/// Holds many plans of one body, so that the memory of the program can be looked at from outside.
pub fn hold(rt: &HostRuntime) -> io::Result<()> {
    let answer = processed(rt.alloc(), &page(rt.alloc())?)?;
    let held = held(rt.alloc(), &answer)?;
    print_count(rt, "held plans of one body", held.len())
}

fn page(alloc: Global) -> io::Result<SharedBytes> {
    let page = page_of_includes(alloc, PAGE, TAGS)?;
    or_io_error(SharedBytes::of(page))
}

// An answer with this body, which is to be processed.
fn processed(alloc: Global, body: &SharedBytes) -> io::Result<Arc<Answer>> {
    let control = Control {
        esi: true,
        ..Control::default()
    };
    let url = url(alloc, b"http://a.test/p".as_slice())?;
    answer(alloc, url, control, or_io_error(body.share())?)
}

fn prepared_told(rt: &HostRuntime, page: &SharedBytes) -> io::Result<()> {
    let answer = processed(rt.alloc(), page)?;
    let mut reading = Least::new();
    let mut preparing = Least::new();
    for _ in 0..TURNS {
        read(rt, page, &mut reading)?;
        prepare(rt, &answer, &mut preparing)?;
    }
    let name = "plans beside the template: 256 KiB with 200 tags";
    print(rt, name, preparing.get(), reading.get(), PAGE)
}

fn prepare(rt: &HostRuntime, answer: &Arc<Answer>, least: &mut Least) -> io::Result<()> {
    let owner = Arc::try_clone(answer)?;
    let begun = Instant::now(rt)?;
    let prepared = Prepared::of(rt.alloc(), owner);
    least.note(rt, begun)?;
    or_input_error(prepared)
}

fn compiled_told(rt: &HostRuntime, text: &SharedBytes) -> io::Result<()> {
    let mut reading = Least::new();
    let mut compiling = Least::new();
    for _ in 0..TURNS {
        read(rt, text, &mut reading)?;
        read_and_compile(rt, text, &mut compiling)?;
    }
    let name = "plans beside the template: 30,000 small elements";
    print(rt, name, compiling.get(), reading.get(), ELEMENTS)
}

fn read_and_compile(rt: &HostRuntime, text: &SharedBytes, least: &mut Least) -> io::Result<()> {
    let begun = Instant::now(rt)?;
    compiled(rt.alloc(), text)?;
    least.note(rt, begun)
}

// Reads the template and compiles it.
fn compiled(alloc: Global, text: &SharedBytes) -> io::Result<()> {
    let base = url(alloc, b"http://a.test/p".as_slice())?;
    match template(alloc, text) {
        Ok(template) => or_input_error(compile(alloc, &base, &template)),
        Err(_) => Err(io::Error::from(io::ErrorKind::InvalidInput)),
    }
}

// Several plans of one answer.
fn held(alloc: Global, answer: &Arc<Answer>) -> io::Result<Vec<Prepared>> {
    let mut held = Vec::with_capacity(alloc, HELD)?;
    for _ in 0..HELD {
        held.push(or_io_error(Prepared::of(alloc, Arc::try_clone(answer)?))?)?;
    }
    Ok(held)
}
