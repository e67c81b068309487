//! Each call that makes a page, by its name: what it results in, and that the numbers that it is given count.

use super::meeting::{Held, Meeting};
use super::{push_outcome, source_of, url};
use answer_sources::{OpenGate, Source, TableSource};
use edge_connections::ServerRuntime;
use edge_types::{NoMemory, Request};
use fetch_workers::{AssembleFault, Assembled, Assembling, assemble, assemble_gated};
use futures::FutureExt;
use http::Response;
use http_body_util::BodyExt;
use hyper_edge::{EdgeBody, Field, respond};
use std::alloc::Global;
use std::fmt::Write;
use std::process::Abort;
use std::str;
use std::test::Fail;

// The body of a page, and the paths of its logged answers in order.
fn told(alloc: Global, made: Result<Assembled, AssembleFault>) -> Result<String, NoMemory> {
    let mut out = String::new(alloc);
    match made {
        Ok(page) => {
            push_outcome(&mut out, &page.outcome)?;
            for answer in page.log.iter() {
                let url = str::from_utf8(answer.url().as_bytes()).unwrap_or("?");
                write!(out, " {}", url.trim_start_matches("http://a.test"))?;
            }
        }
        Err(fault) => write!(out, "{fault}")?,
    }
    Ok(out)
}

// The status of a response and its body.
fn sent<R: ServerRuntime>(rt: &R, response: Response<EdgeBody>) -> Result<String, NoMemory> {
    let mut out = String::new(rt.alloc());
    write!(out, "{} ", response.status().as_u16())?;
    let body = response.into_body().collect(rt.alloc()).now_or_never(rt);
    let Ok(Some(Ok(body))) = body else {
        return Err(NoMemory);
    };
    let bytes = body.to_bytes()?;
    out.push_str(str::from_utf8(bytes.as_slice()).unwrap_or("?"))?;
    Ok(out)
}

// What is sent to a client that asks for the page at `/p`.
fn responded<R: ServerRuntime + Sync, S: Source<R> + Sync>(
    rt: &R,
    source: &S,
    how: Assembling,
) -> Result<String, NoMemory> {
    let host = [Field {
        name: b"host",
        value: b"a.test",
    }];
    let response = respond(rt, rt.alloc(), source, b"GET", b"/p", &host, how)?;
    sent(rt, response)
}

const CASE: &str =
    "/p 200 esi <esi:include src='/x'/><esi:include src='/y'/>;/x 200 plain 1;/y 200 plain 2";

#[test]
fn assemble_gives_a_page_and_its_log(rt: HostRuntime) -> Result<(), Fail> {
    let alloc = rt.alloc();
    let table = source_of(&rt, alloc, CASE)?;
    let (url, request) = (url(&rt, alloc, "/p")?, Request::empty());
    let out = told(alloc, assemble(&rt, alloc, &table, url, request, 2, 1, 4))?;
    assert!(rt; out.as_str() == "12 /p /x /y", "{out}");
    Ok(())
}

#[test]
fn assemble_gated_gives_a_page_and_its_log(rt: HostRuntime) -> Result<(), Fail> {
    let alloc = rt.alloc();
    let table = source_of(&rt, alloc, CASE)?;
    let (url, request) = (url(&rt, alloc, "/p")?, Request::empty());
    let made = assemble_gated(&rt, alloc, &table, &OpenGate, url, request, 2, 1, 4);
    let out = told(alloc, made)?;
    assert!(rt; out.as_str() == "12 /p /x /y", "{out}");
    Ok(())
}

#[test]
fn respond_sends_the_page(rt: HostRuntime) -> Result<(), Fail> {
    let alloc = rt.alloc();
    let table = source_of(&rt, alloc, CASE)?;
    let out = responded(&rt, &table, Assembling::new(2, 2, 4))?;
    assert!(rt; out.as_str() == "200 12", "{out}");
    Ok(())
}

// Where `/x` waits for `/y`, over a table: this many threads, how many fetches pass alone, and how long they wait.
fn gate_over_a_table<R: ServerRuntime + Abort + Sync>(
    rt: &R,
    workers: u8,
    millis: u64,
) -> Result<(u64, u64), NoMemory> {
    let alloc = rt.alloc();
    let meeting = Meeting::of("/x", 3, millis);
    let table = source_of(rt, alloc, CASE)?;
    let (url, request) = (url(rt, alloc, "/p")?, Request::empty());
    let workers = workers.clamp(1, 16);
    let made = assemble_gated(rt, alloc, &table, &meeting, url, request, 2, workers, 4);
    let out = told(alloc, made)?;
    assert!(rt; out.as_str().starts_with("12 /p /"), "{out}");
    Ok(meeting.counts())
}

#[test]
fn a_gate_is_passed_before_each_fetch_from_a_table(rt: HostRuntime) -> Result<(), Fail> {
    assert!(rt; gate_over_a_table(&rt, 2, 10_000)? == (3, 0));
    assert!(rt; gate_over_a_table(&rt, 1, 50)? == (3, 1));
    Ok(())
}

// Which call makes a page.
#[derive(Clone, Copy)]
enum Call {
    Assemble,
    AssembleGated,
    Respond,
}

// A page of 40 fragments, and its body.
fn wide<R: ServerRuntime + Abort>(rt: &R) -> Result<(TableSource, String), NoMemory> {
    let alloc = rt.alloc();
    let (mut case, mut body) = (String::new(alloc), String::new(alloc));
    case.push_str("/p 200 esi ")?;
    for i in 1..41u8 {
        write!(case, "<esi:include src='/{i}'/>")?;
        write!(body, "{i}")?;
    }
    for i in 1..41u8 {
        write!(case, ";/{i} 200 plain {i}")?;
    }
    Ok((source_of(rt, alloc, case.as_str())?, body))
}

// What this call makes of a page whose fetches meet.
fn made<R: ServerRuntime + Abort + Sync>(
    rt: &R,
    call: Call,
    how: Assembling,
    table: TableSource,
    meeting: &Meeting,
) -> Result<String, NoMemory> {
    let alloc = rt.alloc();
    let (url, request) = (url(rt, alloc, "/p")?, Request::empty());
    let held = Held { table, meeting };
    let (ahead, workers, levels) = (how.ahead, how.workers, how.levels);
    let made = match call {
        Call::Assemble => assemble(rt, alloc, &held, url, request, ahead, workers, levels),
        Call::AssembleGated => assemble_gated(
            rt,
            alloc,
            &held.table,
            meeting,
            url,
            request,
            ahead,
            workers,
            levels,
        ),
        Call::Respond => return responded(rt, &held, how),
    };
    told(alloc, made)
}

// How many fetches pass alone where this call makes a page of 40 fragments.
fn passed_alone<R: ServerRuntime + Abort + Sync>(
    rt: &R,
    call: Call,
    how: Assembling,
    meeting: Meeting,
) -> Result<u64, NoMemory> {
    let (table, body) = wide(rt)?;
    let out = made(rt, call, how, table, &meeting)?;
    assert!(rt; out.as_str().contains(body.as_str()), "{out}");
    Ok(meeting.counts().1)
}

// While the fetch of the first fragment waits, another thread fetches the 39 others, which are all opened ahead.
#[test]
fn as_many_slots_are_opened_ahead_as_may_be(rt: HostRuntime) -> Result<(), Fail> {
    for call in [Call::Assemble, Call::AssembleGated, Call::Respond] {
        let (all, fewer) = (Assembling::new(40, 2, 4), Assembling::new(39, 2, 4));
        assert!(rt; passed_alone(&rt, call, all, Meeting::of("/1", 41, 10_000))? == 0);
        assert!(rt; passed_alone(&rt, call, fewer, Meeting::of("/1", 41, 50))? == 1);
    }
    Ok(())
}

// Each fetch of a fragment waits until sixteen are made at one time.
#[test]
fn as_many_threads_fetch_as_may(rt: HostRuntime) -> Result<(), Fail> {
    for call in [Call::Assemble, Call::AssembleGated, Call::Respond] {
        let (all, fewer) = (Assembling::new(40, 16, 4), Assembling::new(40, 15, 4));
        assert!(rt; passed_alone(&rt, call, all, Meeting::of("", 17, 10_000))? == 0);
        assert!(rt; passed_alone(&rt, call, fewer, Meeting::of("", 17, 50))? > 0);
    }
    Ok(())
}
