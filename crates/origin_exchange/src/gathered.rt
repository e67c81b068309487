//! A response whose body is gathered whole.

ghost use Rattle.std.specs.Prelude.{◌≡◌, IfErr};
ghost use Rattle.origin_exchange.specs.Causes.{lost_in_body};
ghost use Rattle.fetch_outcomes.specs.declared.lost.Lost.TheVariants as spec;

use crate::intake::BodyCount;
use bytes::Bytes;
use fetch_outcomes::{FetchFault, Lost};
use futures::task::{Context, Poll};
use futures::{Future, ready};
use http::response::Parts;
use http_body::{Body, Frame};
use http_body_util::{Limited, LimitedError};
use hyper::body::Incoming;
use origin_http::Response;
use std::alloc::Global;
use std::mem;

/// What is still to come of a response: its body, frame by frame.
#[derive(Drop)]
pub(crate) struct Rest<I> {
    head: Option<Parts>,
    body: Limited<Incoming<I>>,
    bytes: Vec<u8>,
    // Told of each frame.
    count: BodyCount,
}

/// The frames that one poll takes.
const BUDGET: usize = 64;

// Why a body isn't whole.
fn lost_in_body<E>(error: &LimitedError<E>) -> Lost
    ensures { result ≡ lost_in_body error.now }
{
    match error {
        LimitedError::LengthLimit => Lost::Fault(FetchFault::TooLong),
        LimitedError::Body(_) => Lost::Fault(FetchFault::Cut),
    }
}

impl<I: Drop> Rest<I> {
    /// What is to come of a response, of whose body at most so many bytes are gathered.
    pub(crate) fn of(
        alloc: Global,
        response: http::Response<Incoming<I>>,
        most: usize,
        count: BodyCount,
    ) -> Rest<I> {
        let (head, body) = response.into_parts();
        Rest {
            head: Some(head),
            body: Limited::new(body, most),
            bytes: Vec::new(alloc),
            count,
        }
    }
}

impl<I> Rest<I> {
    fn keep(&mut self, frame: &Frame<Bytes>) -> Result<(), Lost>
        ensures { IfErr result (λ lost. lost ≡ spec.NoMemory) }
    {
        match frame.data_ref() {
            Some(data) => {
                self.count.add(data.len());
                match self.bytes.extend_from_slice(data.as_slice()) {
                    Ok(()) => Ok(()),
                    Err(_) => Err(Lost::NoMemory),
                }
            }
            None => Ok(()),
        }
    }

    fn end(&mut self) -> Response {
        let empty = Vec::new(*self.bytes.allocator());
        match self.head.take() {
            Some(head) => Ok((head, mem::replace(&mut self.bytes, empty))),
            None => Err(Lost::Fault(FetchFault::Cut)),
        }
    }
}

impl<I: Drop> Future for Rest<I> {
    type Output = Response;

    fn poll(&mut self, cx: &mut Context<'_>) -> Poll<Response> {
        for _ in 0..BUDGET {
            match ready!(self.body.poll_frame(cx)) {
                None => return Poll::Ready(self.end()),
                Some(Err(error)) => return Poll::Ready(Err(lost_in_body(&error))),
                Some(Ok(frame)) => {
                    if let Err(lost) = self.keep(&frame) {
                        return Poll::Ready(Err(lost));
                    }
                }
            }
        }
        cx.yield_now()
    }
}
