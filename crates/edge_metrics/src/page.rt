//! A page that shows what a server did of late.

ghost use Rattle.std.specs.Prelude.{◌≡◌, ◌≤◌, ◌++◌, length, IfOk, OnOk};
ghost use Rattle.edge_metrics.specs.Page as spec;

use crate::chart::push_chart;
use crate::history::History;
use crate::series::Series;
use std::alloc::{AllocError, Global};

/// A page in HTML that draws these last minutes as three charts of bars: the requests in each ten seconds, the hits of the
/// cache, and the slowest request. A browser fetches it anew every ten seconds. It needs no other file, and no script.
///
/// The only refusal is out of memory.
///
/// Source: HTML Living Standard; Scalable Vector Graphics (SVG) 2; what is drawn is our profile.
pub fn page_of(alloc: Global, history: &History) -> Result<Vec<u8>, AllocError>
    ensures { IfOk result (λ page. page.items ≡ spec.page history.now) }
{
    let samples = history.samples();
    let mut page = Vec::new(alloc);
    push_head(&mut page)?;
    push_chart(&mut page, Series::Requests, samples)?;
    push_chart(&mut page, Series::Hits, samples)?;
    push_chart(&mut page, Series::Slowest, samples)?;
    push_end(&mut page)?;
    Ok(page)
}

#[tactic(auto, unfolding(crate::specs::Page::head))]
fn push_head(page: &mut Vec<u8>) -> Result<(), AllocError>
    ensures { OnOk result (page.new.items ≡ page.old.items ++ spec.head) }
{
    push_begin(page)?;
    push_refresh(page)?;
    push_title(page)?;
    push_colours(page)?;
    push_drawing(page)?;
    push_heading(page)
}

#[tactic(auto, unfolding(crate::specs::Page::begin))]
fn push_begin(page: &mut Vec<u8>) -> Result<(), AllocError>
    ensures { OnOk result (page.new.items ≡ page.old.items ++ spec.begin) }
{
    page.extend_from_slice(b"<!DOCTYPE html>\n<html lang=\"en\">\n<meta charset=\"utf-8\">\n")
}

#[tactic(auto, unfolding(crate::specs::Page::refresh))]
fn push_refresh(page: &mut Vec<u8>) -> Result<(), AllocError>
    ensures { OnOk result (page.new.items ≡ page.old.items ++ spec.refresh) }
{
    page.extend_from_slice(b"<meta http-equiv=\"refresh\" content=\"10\">\n")
}

#[tactic(auto, unfolding(crate::specs::Page::page_title))]
fn push_title(page: &mut Vec<u8>) -> Result<(), AllocError>
    ensures { OnOk result (page.new.items ≡ page.old.items ++ spec.page_title) }
{
    page.extend_from_slice(b"<title>esi_edge: the last ten minutes</title>\n")
}

#[tactic(auto, unfolding(crate::specs::Page::colours))]
fn push_colours(page: &mut Vec<u8>) -> Result<(), AllocError>
    ensures { OnOk result (page.new.items ≡ page.old.items ++ spec.colours) }
{
    page.extend_from_slice(
        b"<style>:root{color-scheme:light dark;font-family:sans-serif}rect{fill:#38d}",
    )
}

#[tactic(auto, unfolding(crate::specs::Page::drawing))]
fn push_drawing(page: &mut Vec<u8>) -> Result<(), AllocError>
    ensures { OnOk result (page.new.items ≡ page.old.items ++ spec.drawing) }
{
    page.extend_from_slice(b"svg{width:100%;max-width:40em;border-bottom:1px solid}</style>\n")
}

#[tactic(auto, unfolding(crate::specs::Page::heading))]
fn push_heading(page: &mut Vec<u8>) -> Result<(), AllocError>
    ensures { OnOk result (page.new.items ≡ page.old.items ++ spec.heading) }
{
    page.extend_from_slice(
        b"<h1>The last ten minutes</h1>\n<p>A bar for each ten seconds, the newest at the right.</p>\n",
    )
}

#[tactic(auto, unfolding(crate::specs::Page::end))]
fn push_end(page: &mut Vec<u8>) -> Result<(), AllocError>
    ensures { OnOk result (page.new.items ≡ page.old.items ++ spec.end) }
{
    page.extend_from_slice(b"</html>\n")
}
