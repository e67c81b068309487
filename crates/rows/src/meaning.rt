//! Pages, and the legs of their includes.

use crate::language::parts_of;
use crate::row::{Line, number, pair};
use crate::values::{answer, push_pieces, push_url, url};
use edge_types::{Control, Outcome, PageUrl, Request, Table};
use esi_vars::Lookups;
use std::alloc::Global;

/// A row is a page, a template without includes.
pub fn plain_page(alloc: Global, row: &[u8], line: &mut Line) -> Option<()> {
    let url = url(alloc, b"http://a.test/p")?;
    let mut table = Table::new(alloc);
    add_template(alloc, &url, 200, row, &mut table)?;
    push_page(alloc, &url, &table, line)
}

/// A row is a status and, after a space, a template that is a page under it, and asks for that also under errors. The
/// fragment `/e` is one under 404.
pub fn error_page(alloc: Global, row: &[u8], line: &mut Line) -> Option<()> {
    let (status, text) = pair(row);
    let page = url(alloc, b"http://a.test/p")?;
    let fragment = url(alloc, b"http://a.test/e")?;
    let mut table = Table::new(alloc);
    add_template(alloc, &page, number(status)?, text, &mut table)?;
    add_template(alloc, &fragment, 404, b"<esi:vars>e</esi:vars>", &mut table)?;
    push_page(alloc, &page, &table, line)
}

// Adds a template under a status, to be processed even if that is an error's.
fn add_template(
    alloc: Global,
    url: &PageUrl,
    status: u16,
    text: &[u8],
    table: &mut Table,
) -> Option<()> {
    let control = Control {
        esi: true,
        errors: true,
        ..Control::default()
    };
    table
        .insert(answer(alloc, url, status, control, text)?)
        .ok()
}

fn push_page(alloc: Global, url: &PageUrl, table: &Table, line: &mut Line) -> Option<()> {
    let request = Request::empty();
    match &esi_meaning::plain_page(alloc, url, &request, table, 4).ok()? {
        Outcome::Page { head, body } => {
            line.display(&head.status);
            line.push(" ");
            push_pieces(line, body);
        }
        Outcome::Fault(fault) => line.push(fault.name()),
    }
    Some(())
}

/// A row is the URL of the including template and, after a space, the source.
pub fn leg_url(alloc: Global, row: &[u8], line: &mut Line) -> Option<()> {
    let (base, source) = pair(row);
    let base = url(alloc, base)?;
    let source = parts_of(alloc, source)?;
    let request = Request::empty();
    let mut lookups = Lookups::none();
    let found = esi_meaning::leg_url(alloc, &request, &base, source.as_slice(), &mut lookups);
    push_url(line, &found.ok()?);
    Some(())
}

/// A row is a number.
pub fn are_levels(row: &[u8], line: &mut Line) -> Option<()> {
    let are_levels = esi_meaning::are_levels(number(row)?);
    line.push(if are_levels { "levels" } else { "no levels" });
    Some(())
}
