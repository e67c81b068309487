//! A page and its fragments, as a table of answers and as a case text.
ghost use Rattle.std.specs.Prelude.{◌≤◌};
ghost use Rattle.esi_meaning.specs.Meaning.{AreLevels};
ghost use Rattle.plan_runner.specs.declared.page.TheConstants.{MAX_AHEAD};

use crate::inputs::{answer, or_input_error, or_io_error, url};
use edge_types::{Control, PageUrl, Request, SharedBytes, Table};
use esi_meaning::plain_page;
use plan_runner::{Event, Running, run_to_end};
use std::alloc::{AllocError, Global};
use std::fmt::Write;
use std::io;

/// The text of a page at `/p`, the body of each of its fragments, at `/0` and so on, how many of
/// these there are, and whether they are processed.
#[derive(Clone, Copy)]
pub struct Site<'a> {
    pub page: &'a str,
    pub body: &'a str,
    pub fragments: usize,
    pub is_processed: bool,
}

/// The URL of the page.
pub fn page_url(alloc: Global) -> io::Result<PageUrl> {
    url(alloc, b"http://a.test/p".as_slice())
}

/// This many includes, each of a fragment of its own.
pub fn includes(alloc: Global, count: usize) -> Result<String, AllocError> {
    let mut text = String::new(alloc);
    for i in 0..count {
        write!(text, "<esi:include src=\"/{i}\"/>")?;
    }
    Ok(text)
}

/// The answers of a site.
pub fn table(alloc: Global, site: Site<'_>) -> io::Result<Table> {
    let mut table = Table::new(alloc);
    match fill(alloc, site, &mut table) {
        Ok(()) => Ok(table),
        Err(error) => Err(error),
    }
}

fn fill(alloc: Global, site: Site<'_>, table: &mut Table) -> io::Result<()> {
    insert(alloc, "p", site.page, true, table)?;
    for i in 0..site.fragments {
        insert_fragment(alloc, i, site, table)?;
    }
    Ok(())
}

fn insert_fragment(alloc: Global, i: usize, site: Site<'_>, table: &mut Table) -> io::Result<()> {
    let name = format!(in alloc; "{i}")?;
    insert(alloc, name.as_str(), site.body, site.is_processed, table)
}

// One answer, which is processed if that is asked for.
fn insert(alloc: Global, name: &str, body: &str, esi: bool, table: &mut Table) -> io::Result<()> {
    let control = Control {
        esi,
        max_age: Some(60),
        ..Control::default()
    };
    let name = format!(in alloc; "http://a.test/{name}")?;
    let url = url(alloc, name.as_bytes())?;
    let body = or_io_error(SharedBytes::copy_of(alloc, body.as_bytes()))?;
    or_input_error(table.insert(answer(alloc, url, control, body)?))
}

/// The site as a case text.
pub fn case_text(alloc: Global, site: Site<'_>) -> Result<String, AllocError> {
    let mut text = String::new(alloc);
    text.push_str("page http://a.test/p\n")?;
    entry(&mut text, "p", site.page, true)?;
    for i in 0..site.fragments {
        let name = format!(in alloc; "{i}")?;
        entry(&mut text, name.as_str(), site.body, site.is_processed)?;
    }
    text.push_str("end\n")?;
    Ok(text)
}

// One answer of a case text.
fn entry(text: &mut String, name: &str, body: &str, is_processed: bool) -> Result<(), AllocError> {
    write!(text, "answer 200 {} http://a.test/{name}\n", body.len())?;
    if is_processed {
        text.push_str("control content=\"ESI/1.0\"\n")?;
    }
    text.push_str("body\n")?;
    text.push_str(body)?;
    text.push_str("\n")
}

/// Evaluates the page over the table, by the evaluator of the meaning.
pub fn evaluated(alloc: Global, table: &Table, levels: u8) -> io::Result<()>
    requires { AreLevels levels }
{
    let url = page_url(alloc)?;
    let request = Request::empty();
    or_input_error(plain_page(alloc, &url, &request, table, levels))
}

/// Runs the page over the table by these events, and then to its end.
pub fn ran(alloc: Global, table: &Table, ahead: u16, levels: u8, events: &[Event]) -> io::Result<()>
    requires ahead { ahead ≤ MAX_AHEAD }
    requires levels { AreLevels levels }
{
    let url = page_url(alloc)?;
    let running = Running {
        ahead,
        events,
        levels,
    };
    or_input_error(run_to_end(alloc, url, Request::empty(), table, running))
}
