//! The heads of requests, and responses with their frames.

use crate::values::print_request;
use allocation_tools::printing::{answers, bytes, calls, number, out_of_memory, word};
use bytes::Bytes;
use edge_types::{
    Head, HeadField, HeadFields, NoMemory, Octets, Outcome, PageBody, PageFault, PageUrl, Request,
    SharedBytes,
};
use futures::task::{Context, Poll};
use futures::{Future, FutureExt};
use http::Response;
use http_body::{Body, Frame};
use page_http::{EdgeBody, Field, HeadFault};
use std::alloc::{AllocError, Global};
use std::sync::Arc;

const FIELDS: [Field<'static>; 6] = [
    Field {
        name: b"host",
        value: b"a.test",
    },
    Field {
        name: b"cookie",
        value: b"c=1",
    },
    Field {
        name: b"cookie",
        value: b"d=2",
    },
    Field {
        name: b"referer",
        value: b"r",
    },
    Field {
        name: b"user-agent",
        value: b"u",
    },
    Field {
        name: b"accept-language",
        value: b"l",
    },
];

pub fn answer_head(rt: &HostRuntime, name: &str) -> Option<()> {
    calls(rt, name)?;
    print_read(
        rt,
        &page_http::answer_head(rt.alloc(), b"GET", b"/p?q=1", &FIELDS),
    )
}

fn print_read(rt: &HostRuntime, read: &Result<(PageUrl, Request), HeadFault>) -> Option<()> {
    answers(rt)?;
    match read {
        Ok((url, request)) => {
            bytes(rt, url.as_bytes())?;
            print_request(rt, request)
        }
        Err(HeadFault::NoMemory) => out_of_memory(rt),
        Err(fault) => print!(rt; " {fault:?}").ok(),
    }
}

const EDGES: [Field<'static>; 2] = [
    Field {
        name: b"cdn-loop",
        value: b"edge-1",
    },
    Field {
        name: b"cdn-loop",
        value: b"edge-2",
    },
];

pub fn passed_edges(rt: &HostRuntime, name: &str) -> Option<()> {
    calls(rt, name)?;
    let read = page_http::passed_edges(rt.alloc(), &EDGES);
    answers(rt)?;
    match &read {
        Ok(edges) => bytes(rt, edges.as_slice()),
        Err(NoMemory) => out_of_memory(rt),
    }
}

pub fn cookies_named(rt: &HostRuntime, name: &str) -> Option<()> {
    calls(rt, name)?;
    let read = page_http::cookies_named(rt.alloc(), b"d, c", &FIELDS);
    answers(rt)?;
    match &read {
        Ok(cookies) => bytes(rt, cookies.as_slice()),
        Err(NoMemory) => out_of_memory(rt),
    }
}

pub fn lines_named(rt: &HostRuntime, name: &str) -> Option<()> {
    calls(rt, name)?;
    let read = page_http::lines_named(rt.alloc(), b"cookie, host", &FIELDS);
    answers(rt)?;
    match &read {
        Ok(lines) => {
            for line in lines.as_slice() {
                bytes(rt, line.value.as_bytes())?;
            }
            Some(())
        }
        Err(NoMemory) => out_of_memory(rt),
    }
}

// A page of one piece, with a field of its own.
fn page(alloc: Global) -> Option<Arc<Outcome>> {
    let mut body = PageBody::new(alloc);
    body.push(SharedBytes::copy_of(alloc, b"A").ok()?).ok()?;
    let mut head = Head::of(200, Octets::copy_of(alloc, b"text/html").ok()?);
    let mut fields = Vec::new(alloc);
    fields
        .push(HeadField {
            name: Octets::copy_of(alloc, b"x-page").ok()?,
            value: Octets::copy_of(alloc, b"1").ok()?,
        })
        .ok()?;
    head.fields = HeadFields::of(alloc, fields).ok()?;
    Arc::new(alloc, Outcome::Page { head, body }).ok()
}

pub fn page_response(rt: &HostRuntime, name: &str) -> Option<()> {
    let outcome = page(rt.alloc())?;
    calls(rt, name)?;
    let made = page_http::response_of(rt.alloc(), outcome);
    answers(rt)?;
    print_response(rt, &made)
}

pub fn fault_response(rt: &HostRuntime, name: &str) -> Option<()> {
    let outcome = Arc::new(rt.alloc(), Outcome::Fault(PageFault::PageFetch)).ok()?;
    calls(rt, name)?;
    let made = page_http::response_of(rt.alloc(), outcome);
    answers(rt)?;
    print_response(rt, &made)
}

pub fn refusal(rt: &HostRuntime, name: &str) -> Option<()> {
    calls(rt, name)?;
    let made = page_http::refusal_of(rt.alloc(), 503);
    answers(rt)?;
    print_response(rt, &made)
}

pub fn refusal_of_method(rt: &HostRuntime, name: &str) -> Option<()> {
    calls(rt, name)?;
    let made = page_http::refusal_of(rt.alloc(), 405);
    answers(rt)?;
    print_response(rt, &made)
}

// The status, how many fields there are, and how many bytes.
fn print_response(rt: &HostRuntime, made: &Result<Response<EdgeBody>, NoMemory>) -> Option<()> {
    match made {
        Ok(response) => {
            number(rt, usize::from(response.status().as_u16()))?;
            number(rt, response.headers().len())?;
            print_left(rt, response.body())
        }
        Err(NoMemory) => out_of_memory(rt),
    }
}

fn print_left(rt: &HostRuntime, body: &EdgeBody) -> Option<()> {
    print!(rt; " bytes {}", body.size_hint().exact()?).ok()
}

// The next frame of a body.
#[derive(Drop)]
struct Next<'a> {
    body: &'a mut EdgeBody,
}

impl Future for Next<'_> {
    type Output = Option<Result<Frame<Bytes>, AllocError>>;

    fn poll(&mut self, cx: &mut Context<'_>) -> Poll<Option<Result<Frame<Bytes>, AllocError>>> {
        self.body.poll_frame(cx)
    }
}

/// The frame of a body, which is asked for once more if there was no memory.
pub fn frame(rt: &HostRuntime, name: &str) -> Option<()> {
    let response = page_http::response_of(rt.alloc(), page(rt.alloc())?).ok()?;
    let mut body = response.into_body();
    calls(rt, name)?;
    let polled = (Next { body: &mut body }).now_or_never(rt);
    answers(rt)?;
    let Ok(polled) = polled else {
        return word(rt, "no executor");
    };
    print_frame(rt, polled??)?;
    word(rt, "left")?;
    print_left(rt, &body)
}

fn print_frame(rt: &HostRuntime, frame: Result<Frame<Bytes>, AllocError>) -> Option<()> {
    match frame {
        Ok(frame) => bytes(rt, &frame.into_data().ok()?),
        Err(AllocError) => out_of_memory(rt),
    }
}
