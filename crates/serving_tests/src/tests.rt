// A case has answers with a `;` between two: a path, `failed` or a status with what its control says, and
// the body. A control is `plain`, or `esi` if the body is processed; a number in its place, or behind `esi`, is
// the max-age, and a second one after a `+` the extension.
use answer_sources::{Answers, Given, Source, TableSource};
use edge_types::{Answer, Control, NoMemory, Octets, Outcome, PageUrl, SharedBytes, Table};
use std::alloc::Global;
use std::process::Abort;
use std::str;
use std::sync::Arc;
use std::sync::atomic::{AtomicU64, Ordering};

mod assembling;
mod behalf;
mod caching;
mod failing;
mod fetching;
mod flying;
mod meeting;

fn url(rt: &impl Abort, alloc: Global, path: &str) -> Result<PageUrl, NoMemory> {
    let mut text = String::new(alloc);
    text.push_str("http://a.test")?;
    text.push_str(path)?;
    Ok(PageUrl::parse(alloc, text.as_bytes())?.expect(rt, "a URL"))
}

fn insert(rt: &impl Abort, alloc: Global, table: &mut Table, text: &str) -> Result<(), NoMemory> {
    let (path, said) = text.split_once(' ').unwrap_or((text, ""));
    let (status, said) = said.split_once(' ').unwrap_or(("", ""));
    let (kind, body) = said.split_once(' ').unwrap_or(("", ""));
    let ages = kind.trim_start_matches("esi");
    let (age, extension) = ages.split_once('+').unwrap_or((ages, ""));
    let control = Control {
        esi: kind.starts_with("esi"),
        max_age: age.parse::<u32>().ok(),
        extension: extension.parse::<u32>().unwrap_or(0),
        ..Control::default()
    };
    let url = url(rt, alloc, path)?;
    let body = SharedBytes::copy_of(alloc, body.as_bytes())?;
    // Nothing was fetched if there is no status.
    let status = status.parse::<u16>().unwrap_or(0);
    if let Some(answer) = Answer::got(url, status, Octets::empty(alloc), control, body) {
        assert!(rt; table.insert(Arc::new(alloc, answer)?).is_ok(), "{text}");
    }
    Ok(())
}

fn source_of(rt: &impl Abort, alloc: Global, case: &str) -> Result<TableSource, NoMemory> {
    let mut table = Table::new(alloc);
    for text in case.split(';') {
        insert(rt, alloc, &mut table, text)?;
    }
    Ok(TableSource::new(table))
}

// The body of a page, or that there is none.
fn push_outcome(out: &mut String, outcome: &Outcome) -> Result<(), NoMemory> {
    match outcome {
        Outcome::Page { body, .. } => {
            for i in 0..body.mark() {
                out.push_str(str::from_utf8(body.piece(i).unwrap_or(&[])).unwrap_or("?"))?;
            }
        }
        Outcome::Fault(_) => out.push_str("a fault")?,
    }
    Ok(())
}

// A table whose answers have to be waited for. It counts the fetches; runs out of memory at the one with a number
// in each round of this many; and has nothing from one on.
#[derive(Drop)]
struct Origin<'a> {
    table: TableSource,
    fetches: &'a AtomicU64,
    refused: u64,
    round: u64,
    ends: u64,
}

impl<R> Answers<R> for Origin<'_> {
    ghost use Rattle.std.specs.Prelude.{◌≡◌, false};

    ghost gives = { λ origin url answer. answer.url ≡ url };

    ghost names_url = { λ origin url answer given. given };

    ghost private = { λ _ _. false };

    fn is_private(&self, _url: &PageUrl) -> bool {
        false
    }
}

impl<R> Source<R> for Origin<'_> {
    fn fetch(&self, rt: &R, alloc: Global, url: &PageUrl) -> Result<Given, NoMemory> {
        let number = self.fetches.fetch_add(1, Ordering::SeqCst);
        if number.checked_rem(self.round) == Some(self.refused) {
            return Err(NoMemory);
        }
        if number >= self.ends {
            let failed = Answer::failed(url.share()?);
            return Ok(Given::fetched(Arc::new(alloc, failed)?));
        }
        self.table.fetch(rt, alloc, url)
    }
}
