//! Pages of a long template that a cache keeps, compared with those over a table, where each page reads it anew.

use crate::inputs::{or_io_error, repeated};
use crate::sharing::Still;
use crate::site::{Site, table};
use crate::timing::{Least, ratio};
use crate::workers::assembled;
use answer_sources::{Source, TableSource};
use shared_cache::Cache;
use std::alloc::{AllocError, Global};
use std::io;
use std::rt::Clock;
use std::sync::Wait;
use std::thread::Threads;

const TAGS: usize = 200;
// How many bytes of text stand before each tag: together they are nearly as long as a body may be.
const GAP: usize = 1280;

const TURNS: u32 = 15;
// How many pages are assembled in a turn.
const PAGES: u32 = 100;

/// Prints how long a page takes whose template is kept.
pub fn run<R: Wait + Threads + Clock + Print + Sync>(rt: &R, alloc: Global) -> io::Result<()> {
    let text = template(alloc)?;
    let site = Site {
        page: text.as_str(),
        body: "plain",
        fragments: 1,
        is_processed: false,
    };
    let anew = TableSource::new(table(alloc, site)?);
    let below = TableSource::new(table(alloc, site)?);
    let kept = or_io_error(Cache::new(alloc, below, Still, 8))?;
    told(rt, alloc, &kept, &anew, text.len())
}

// A template that includes one fragment at even distances.
fn template(alloc: Global) -> Result<String, AllocError> {
    let gap = repeated(alloc, b"Plain words. ".as_slice(), GAP)?;
    let mut text = String::new(alloc);
    for _ in 0..TAGS {
        for byte in &gap {
            text.push(char::from(*byte))?;
        }
        text.push_str("<esi:include src=\"/0\"/>")?;
    }
    Ok(text)
}

fn told<R, S, T>(rt: &R, alloc: Global, kept: &S, anew: &T, bytes: usize) -> io::Result<()>
where
    R: Wait + Threads + Clock + Print + Sync,
    S: Source<R> + Sync,
    T: Source<R> + Sync,
{
    let mut by_cache = Least::new();
    let mut by_table = Least::new();
    for _ in 0..TURNS {
        by_cache.time(rt, || assembled_many(rt, alloc, kept))??;
        by_table.time(rt, || assembled_many(rt, alloc, anew))??;
    }
    println!(rt;
        "kept-templates, {bytes} bytes with {TAGS} includes: {PAGES} pages in {} us = {:.2} times those of a table",
        by_cache.get().as_micros(),
        ratio(by_cache.get(), by_table.get())
    )
}

fn assembled_many<R: Wait + Threads + Sync, S: Source<R> + Sync>(
    rt: &R,
    alloc: Global,
    source: &S,
) -> io::Result<()> {
    for _ in 0..PAGES {
        assembled(rt, alloc, source, 1)?;
    }
    Ok(())
}
