//! Pages: their outcomes, plans, boards, and runs over a table.

use crate::texts::{TEMPLATE, shared};
use allocation_tools::printing::{
    answers, bytes, calls, number, out_of_memory, print_outcome, word,
};
use allocation_tools::values::{answer, processed, request, url};
use answer_board::Board;
use edge_types::{Control, NoMemory, Outcome, PageUrl, Table};
use esi_vars::{Lookups, Part};
use plan_compiler::{Form, Leg, Plan, Prepared, Step, compile};
use std::alloc::Global;
use std::sync::Arc;

// The page, and its fragment.
fn table(alloc: Global) -> Option<Table> {
    let mut table = Table::new(alloc);
    table
        .insert(answer(alloc, "/p", processed(), TEMPLATE)?)
        .ok()?;
    table
        .insert(answer(alloc, "/xq=1&", Control::default(), "X")?)
        .ok()?;
    Some(table)
}

pub fn plain_page(rt: &HostRuntime, name: &str) -> Option<()> {
    let table = table(rt.alloc())?;
    let url = url(rt.alloc(), "/p")?;
    let request = request(rt.alloc())?;
    calls(rt, name)?;
    print_made(
        rt,
        &esi_meaning::plain_page(rt.alloc(), &url, &request, &table, 4),
    )
}

fn print_made(rt: &HostRuntime, made: &Result<Outcome, NoMemory>) -> Option<()> {
    answers(rt)?;
    match made {
        Ok(outcome) => print_outcome(rt, outcome),
        Err(NoMemory) => out_of_memory(rt),
    }
}

pub fn leg_url(rt: &HostRuntime, name: &str) -> Option<()> {
    let source = source_of(rt.alloc())?;
    let base = url(rt.alloc(), "/p")?;
    let request = request(rt.alloc())?;
    calls(rt, name)?;
    let mut lookups = Lookups::none();
    let found = esi_meaning::leg_url(rt.alloc(), &request, &base, source.as_slice(), &mut lookups);
    print_found(rt, &found)
}

// The parts of a `src` with a reference.
fn source_of(alloc: Global) -> Option<Vec<Part>> {
    esi_vars::parts(alloc, &shared(alloc, b"x?$(QUERY_STRING)")?).ok()
}

fn print_found(rt: &HostRuntime, found: &Result<Option<PageUrl>, NoMemory>) -> Option<()> {
    answers(rt)?;
    match found {
        Ok(Some(url)) => bytes(rt, url.as_bytes()),
        Ok(None) => word(rt, "no URL"),
        Err(NoMemory) => out_of_memory(rt),
    }
}

pub fn compile_template(rt: &HostRuntime, name: &str) -> Option<()> {
    let text = shared(rt.alloc(), TEMPLATE.as_bytes())?;
    let template = esi_tree::template(rt.alloc(), &text).ok()?;
    let base = url(rt.alloc(), "/p")?;
    calls(rt, name)?;
    let compiled = compile(rt.alloc(), &base, &template);
    answers(rt)?;
    match &compiled {
        Ok(plan) => print_plan(rt, plan)?,
        Err(NoMemory) => out_of_memory(rt)?,
    }
    word(rt, "left")?;
    number(rt, template.nodes().len())
}

fn print_plan(rt: &HostRuntime, plan: &Plan) -> Option<()> {
    number(rt, plan.len())?;
    word(
        rt,
        if plan.inline(0).is_some() {
            "an inline"
        } else {
            "no inline"
        },
    )
}

pub fn prepare(rt: &HostRuntime, name: &str) -> Option<()> {
    let answer = answer(rt.alloc(), "/p", processed(), TEMPLATE)?;
    let kept = Arc::try_clone(&answer).ok()?;
    calls(rt, name)?;
    let made = Prepared::of(rt.alloc(), answer);
    answers(rt)?;
    match &made {
        Ok(prepared) => print_prepared(rt, prepared)?,
        Err(NoMemory) => out_of_memory(rt)?,
    }
    word(rt, "left")?;
    number(rt, kept.body().len())
}

pub fn share_prepared(rt: &HostRuntime, name: &str) -> Option<()> {
    let answer = answer(rt.alloc(), "/p", processed(), TEMPLATE)?;
    let prepared = Prepared::of(rt.alloc(), answer).ok()?;
    calls(rt, name)?;
    let shared = prepared.share();
    answers(rt)?;
    match &shared {
        Ok(shared) => print_prepared(rt, shared)?,
        Err(NoMemory) => out_of_memory(rt)?,
    }
    word(rt, "left")?;
    print_prepared(rt, &prepared)
}

fn print_prepared(rt: &HostRuntime, prepared: &Prepared) -> Option<()> {
    match prepared.form() {
        Form::Planned(plan) => print_plan(rt, plan)?,
        Form::Plain | Form::BadAt(_) => word(rt, "no plan")?,
    }
    match prepared.inline_url(0) {
        Some(url) => bytes(rt, url.as_bytes()),
        None => word(rt, "no URL"),
    }
}

pub fn url_of_leg(rt: &HostRuntime, name: &str) -> Option<()> {
    let answer = answer(rt.alloc(), "/p", processed(), TEMPLATE)?;
    let prepared = Prepared::of(rt.alloc(), answer).ok()?;
    let request = request(rt.alloc())?;
    let leg = first_leg(&prepared)?;
    calls(rt, name)?;
    let mut lookups = Lookups::none();
    let found = leg.url(rt.alloc(), &request, prepared.url(), &mut lookups);
    print_found(rt, &found)
}

// The first leg of a plan, whose source has a reference.
fn first_leg(prepared: &Prepared) -> Option<&Leg> {
    let Form::Planned(plan) = prepared.form() else {
        return None;
    };
    for i in 0..plan.len() {
        if let Some(Step::Leg(leg)) = plan.step(i) {
            return Some(leg);
        }
    }
    None
}

/// Opens the first slot of a board, which makes room for further ones.
pub fn open(rt: &HostRuntime, name: &str) -> Option<()> {
    open_on(rt, name, &mut Board::new(rt.alloc()))
}

fn open_on(rt: &HostRuntime, name: &str, board: &mut Board) -> Option<()> {
    let url = url(rt.alloc(), "/p")?;
    calls(rt, name)?;
    let opened = board.open(&url, 0);
    answers(rt)?;
    print_opened(rt, opened)?;
    word(rt, "left")?;
    number(rt, board.len())?;
    print_number(rt, board.number(&url))?;
    word(rt, "again")?;
    print_opened(rt, board.open(&url, 0))
}

fn print_opened(rt: &HostRuntime, opened: Result<usize, NoMemory>) -> Option<()> {
    match opened {
        Ok(at) => number(rt, at),
        Err(NoMemory) => out_of_memory(rt),
    }
}

fn print_number(rt: &HostRuntime, found: Option<usize>) -> Option<()> {
    match found {
        Some(at) => number(rt, at),
        None => word(rt, "none"),
    }
}
