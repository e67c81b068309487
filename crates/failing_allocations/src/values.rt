//! Values that all layers share: owners, copies, tables, and lists of events.

use allocation_tools::printing::{answers, bytes, calls, number, out_of_memory, word};
use allocation_tools::values::{answer, processed, request, url};
use edge_types::{
    Answer, Control, InsertFault, NoMemory, PageBody, PageUrl, Request, RequestField, SharedAnswer,
    SharedBytes, Table, is_token,
};
use origin_lookup::Standings;
use std::alloc::AllocError;
use std::net::SocketAddr;
use std::sync::Arc;
use surrogate_headers::own_device;

/// Prints the fields that a request has, and its query.
pub fn print_request(rt: &HostRuntime, request: &Request) -> Option<()> {
    for field in RequestField::ALL {
        let value = request.field(field).as_bytes();
        if !value.is_empty() {
            bytes(rt, value)?;
        }
    }
    bytes(rt, request.query.as_bytes())
}

pub fn copy_request(rt: &HostRuntime, name: &str) -> Option<()> {
    let request = request(rt.alloc())?;
    calls(rt, name)?;
    print_copy(rt, &request, &request.copy(rt.alloc()))
}

fn print_copy(
    rt: &HostRuntime,
    request: &Request,
    copied: &Result<Request, NoMemory>,
) -> Option<()> {
    answers(rt)?;
    match copied {
        Ok(copy) => print_request(rt, copy)?,
        Err(NoMemory) => out_of_memory(rt)?,
    }
    word(rt, "left")?;
    print_request(rt, request)
}

pub fn parse_url(rt: &HostRuntime, name: &str) -> Option<()> {
    calls(rt, name)?;
    let parsed = PageUrl::parse(rt.alloc(), b"http://a.test/p?q#f");
    answers(rt)?;
    print_url(rt, &parsed)
}

pub fn resolve_url(rt: &HostRuntime, name: &str) -> Option<()> {
    let base = url(rt.alloc(), "/a/b")?;
    calls(rt, name)?;
    let resolved = base.resolve(rt.alloc(), b"../c d");
    answers(rt)?;
    print_url(rt, &resolved)?;
    word(rt, "left")?;
    bytes(rt, base.as_bytes())
}

fn print_url(rt: &HostRuntime, found: &Result<Option<PageUrl>, NoMemory>) -> Option<()> {
    match found {
        Ok(Some(url)) => bytes(rt, url.as_bytes()),
        Ok(None) => word(rt, "no URL"),
        Err(NoMemory) => out_of_memory(rt),
    }
}

pub fn share_url(rt: &HostRuntime, name: &str) -> Option<()> {
    let url = url(rt.alloc(), "/p")?;
    calls(rt, name)?;
    let shared = url.share();
    answers(rt)?;
    match &shared {
        Ok(shared) => bytes(rt, shared.as_bytes())?,
        Err(NoMemory) => out_of_memory(rt)?,
    }
    word(rt, "left")?;
    bytes(rt, url.as_bytes())
}

pub fn share_answer(rt: &HostRuntime, name: &str) -> Option<()> {
    let answer = SharedAnswer::of(answer(rt.alloc(), "/p", processed(), "A")?);
    calls(rt, name)?;
    let shared = answer.share();
    answers(rt)?;
    match &shared {
        Ok(shared) => bytes(rt, shared.get().body())?,
        Err(NoMemory) => out_of_memory(rt)?,
    }
    word(rt, "left")?;
    bytes(rt, answer.get().body())
}

pub fn share_body(rt: &HostRuntime, name: &str) -> Option<()> {
    let answer = answer(rt.alloc(), "/p", processed(), "AB")?;
    calls(rt, name)?;
    let shared = answer.share_body();
    answers(rt)?;
    print_bytes(rt, &shared)?;
    word(rt, "left")?;
    bytes(rt, answer.body())
}

pub fn part(rt: &HostRuntime, name: &str) -> Option<()> {
    let whole = SharedBytes::copy_of(rt.alloc(), b"ABC").ok()?;
    if whole.len() < 2 {
        return None;
    }
    calls(rt, name)?;
    let part = whole.part(1, 2);
    answers(rt)?;
    print_bytes(rt, &part)?;
    word(rt, "left")?;
    bytes(rt, whole.as_bytes())
}

fn print_bytes(rt: &HostRuntime, shared: &Result<SharedBytes, NoMemory>) -> Option<()> {
    match shared {
        Ok(shared) => bytes(rt, shared.as_bytes()),
        Err(NoMemory) => out_of_memory(rt),
    }
}

pub fn push_piece(rt: &HostRuntime, name: &str) -> Option<()> {
    let mut body = PageBody::new(rt.alloc());
    let piece = SharedBytes::copy_of(rt.alloc(), b"A").ok()?;
    calls(rt, name)?;
    let pushed = body.push(piece);
    answers(rt)?;
    match pushed {
        Ok(()) => word(rt, "pushed")?,
        Err(NoMemory) => out_of_memory(rt)?,
    }
    word(rt, "left")?;
    number(rt, body.len())?;
    for at in 0..body.mark() {
        bytes(rt, body.piece(at)?)?;
    }
    Some(())
}

/// Adds the first origin of those whose names are looked up.
pub fn add_standing(rt: &HostRuntime, name: &str) -> Option<()> {
    let mut standings = Standings::new(rt.alloc());
    calls(rt, name)?;
    let added = standings.add(SocketAddr::from(([127, 0, 0, 1], 80)));
    answers(rt)?;
    match added {
        Ok(()) => word(rt, "added")?,
        Err(AllocError) => out_of_memory(rt)?,
    }
    if standings.address_at(0).is_some() {
        word(rt, "left 1")?;
    }
    Some(())
}

/// Inserts the first answer of a table, which makes room for further ones, and then once more.
pub fn insert(rt: &HostRuntime, name: &str) -> Option<()> {
    insert_into(rt, name, &mut Table::new(rt.alloc()))
}

fn insert_into(rt: &HostRuntime, name: &str, table: &mut Table) -> Option<()> {
    let answer = answer(rt.alloc(), "/x", Control::default(), "1")?;
    calls(rt, name)?;
    let inserted = table.insert(answer);
    answers(rt)?;
    print_inserted(rt, inserted, table)?;
    word(rt, "left")?;
    print_answer(rt, table, "/x")
}

// Inserts what was handed back once more.
fn print_inserted(
    rt: &HostRuntime,
    inserted: Result<(), (InsertFault, Arc<Answer>)>,
    table: &mut Table,
) -> Option<()> {
    match inserted {
        Ok(()) => word(rt, "inserted"),
        Err((fault, back)) => {
            print!(rt; " {fault:?}").ok()?;
            print_answer(rt, table, "/x")?;
            word(rt, "again")?;
            table.insert(back).ok()
        }
    }
}

fn print_answer(rt: &HostRuntime, table: &Table, path: &str) -> Option<()> {
    match table.get(&url(rt.alloc(), path)?) {
        Some(answer) => bytes(rt, answer.body()),
        None => word(rt, "none"),
    }
}

pub fn capability(rt: &HostRuntime, name: &str) -> Option<()> {
    let device = own_device();
    if !is_token(device) {
        return None;
    }
    calls(rt, name)?;
    let made = surrogate_headers::capability(rt.alloc(), device);
    answers(rt)?;
    match &made {
        Ok(text) => bytes(rt, text.as_slice()),
        Err(NoMemory) => out_of_memory(rt),
    }
}
