//! Tables of answers: ten times as many answers should cost little more than ten times as much.

use crate::inputs::{fragment_url, or_io_error};
use crate::timing::{Least, print, print_count};
use edge_types::{Answer, PageUrl, Table};
use std::alloc::Global;
use std::io;
use std::sync::Arc;
use std::time::{Duration, Instant};

const FEW: u32 = 10_000;

const MANY: u32 = 100_000;

const TURNS: u32 = 5;

/// Prints how long inserting and looking up take for many answers, compared with few.
pub fn run(rt: &HostRuntime) -> io::Result<()> {
    let few = measured(rt, FEW)?;
    let many = measured(rt, MANY)?;
    print(
        rt,
        "tables: 100,000 answers beside 10,000",
        many,
        few,
        100_000,
    )
}

// The quickest of several turns.
fn measured(rt: &HostRuntime, count: u32) -> io::Result<Duration> {
    let mut least = Least::new();
    for _ in 0..TURNS {
        let answers = answers(rt.alloc(), count)?;
        let urls = urls(rt.alloc(), answers.as_slice())?;
        if !turn(rt, &mut least, answers, urls.as_slice())? {
            print_count(rt, "tables: an answer is missing", 1)?;
        }
    }
    Ok(least.get())
}

// Times a table, and returns whether it has an answer for each URL. It is dropped outside the time.
fn turn(
    rt: &HostRuntime,
    least: &mut Least,
    answers: Vec<Arc<Answer>>,
    urls: &[PageUrl],
) -> io::Result<bool> {
    let begun = Instant::now(rt)?;
    let table = filled(rt.alloc(), answers, urls);
    least.note(rt, begun)?;
    Ok(table.is_some())
}

// A table into which the answers were inserted and in which each of the URLs was looked up; `None`
// if one has no answer.
fn filled(alloc: Global, answers: Vec<Arc<Answer>>, urls: &[PageUrl]) -> Option<Table> {
    let mut table = Table::new(alloc);
    for answer in answers {
        let _ = table.insert(answer);
    }
    if urls.iter().all(|url| table.get(url).is_some()) {
        Some(table)
    } else {
        None
    }
}

// Failed answers of this many URLs, in scattered order.
fn answers(alloc: Global, count: u32) -> io::Result<Vec<Arc<Answer>>> {
    let mut answers = Vec::new(alloc);
    for i in 0..count {
        answers.push(failed(alloc, i.wrapping_mul(2_654_435_761))?)?;
    }
    Ok(answers)
}

fn failed(alloc: Global, number: u32) -> io::Result<Arc<Answer>> {
    let url = fragment_url(alloc, number as usize)?;
    Ok(Arc::new(alloc, Answer::failed(url))?)
}

fn urls(alloc: Global, answers: &[Arc<Answer>]) -> io::Result<Vec<PageUrl>> {
    let mut urls = Vec::new(alloc);
    for answer in answers.iter() {
        urls.push(or_io_error(answer.url().share())?)?;
    }
    Ok(urls)
}
