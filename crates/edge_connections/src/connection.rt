//! A connection that the HTTP library serves, and how far it gets.

ghost use Rattle.std.specs.Prelude.{◌≡◌, box_value, IsSomeAnd};
ghost use Rattle.edge_connections.specs.Refusals.{status_of_refusal};

use crate::executor::Executor;
use crate::handover::{Handover, HandsOver, IncomingRequest};
use crate::signals::{Pause, Signals};
use bytes::BytesMut;
use futures::Future;
use futures::task::{Context, Poll};
use hyper::rt::Timer;
use hyper::server::conn::http1;
use page_http::EdgeBody;
use polled_futures::Pollable;
use std::alloc::{AllocError, Global};
use std::os::fd::RawFd;
use std::sync::{Arc, Wait};
use tokio::io::{AsyncRead, AsyncWrite};

/// What serves a connection over a stream, which it can give back.
pub trait GivesStream<I> {
    /// The stream, and what was read from it beyond the requests that were handed over.
    fn into_stream(self) -> (I, BytesMut);
}

impl<I, T> GivesStream<I> for http1::Connection<I, HandsOver, EdgeBody, T>
where
    I: AsyncRead + AsyncWrite,
    T: Timer,
{
    fn into_stream(self) -> (I, BytesMut) {
        let http1::Parts {
            io,
            read_buf,
            service: _,
        } = self.into_parts();
        (io, read_buf)
    }
}

/// Why a connection stopped that may be gone on with.
#[derive(Drop)]
pub enum Stop {
    /// A request has come, and waits for its response.
    Request(IncomingRequest),
    /// A response has been written.
    Written,
    /// Its client lets it wait.
    Paused(Pause),
}

/// How far a connection got.
#[derive(Drop)]
pub enum Went<F: Future> {
    /// It stopped, and may be gone on with.
    Stopped(Connection<F>, Stop),
    /// It has ended; with the status by which the HTTP library refused what is no head, if it did.
    Ended(Option<u16>),
}

// The status of the response to what isn't a head of a request: one that is too large, or no HTTP. The HTTP library doesn't
// tell whether it was 414 that it sent for one that is too large.
fn status_of_refusal(ended: &hyper::Result<()>) -> Option<u16>
    ensures { result ≡ status_of_refusal ended.now }
{
    match ended {
        Err(error) if error.is_parse_too_large() => Some(431),
        Err(error) if error.is_parse() => Some(400),
        _ => None,
    }
}

/// A connection that may be gone on with, by one thread at a time.
#[derive(Drop)]
pub struct Connection<F: Future> {
    future: Pollable<F>,
    handover: Arc<Handover>,
    // Without them the connection is never paused, and nobody knows when a response has been written.
    signals: Option<Arc<Signals>>,
}

impl<F: Future<Output = hyper::Result<()>>> Connection<F> {
    /// A connection whose requests are handed over there, and whose stream tells these signals. Refused where there is no
    /// memory for it.
    pub fn new(
        alloc: Global,
        future: F,
        handover: Arc<Handover>,
        signals: Option<Arc<Signals>>,
    ) -> Result<Connection<F>, AllocError>
        requires { F.can_poll future }
    {
        Ok(Connection {
            future: Pollable::new(alloc, future)?,
            handover,
            signals,
        })
    }

    /// Where the responses to its requests are given.
    pub fn handover(&self) -> &Handover {
        &self.handover
    }

    /// Whether whoever serves it is told when it may be gone on with, so that it may be parked.
    pub fn may_pause(&self) -> bool {
        self.signals.is_some()
    }

    /// Its client's socket, where it is known.
    pub fn socket(&self) -> Option<RawFd> {
        self.signals.as_ref()?.socket()
    }

    /// Its stream, and what was read from it beyond the requests that were handed over.
    pub fn into_stream<I>(self) -> (I, BytesMut)
    where
        F: GivesStream<I>,
    {
        self.future.into_inner().into_stream()
    }

    /// Goes on until the connection stops, or has ended, as where the executor has no room.
    pub fn go_on(self, rt: &impl Wait, executor: &mut Executor) -> Went<F> {
        let stretch = Stretch {
            connection: Some(self),
        };
        match executor.pool.run_until(rt, stretch) {
            Ok(went) => went,
            Err(_) => Went::Ended(None),
        }
    }

    // Why the connection doesn't go on after a poll, if it doesn't. A pause counts for this poll alone.
    fn stop(&self) -> Option<Stop> {
        let pause = match &self.signals {
            Some(signals) => signals.take_pause(),
            None => None,
        };
        if let Some(incoming) = self.handover.take_incoming() {
            return Some(Stop::Request(incoming));
        }
        if self.signals.as_ref()?.take_written() {
            return Some(Stop::Written);
        }
        Some(Stop::Paused(pause?))
    }
}

// A connection from where it goes on to where it stops.
#[derive(Drop)]
struct Stretch<F: Future> {
    // `None` once it was given back, or has ended.
    connection: Option<Connection<F>>,
}

impl<F: Future<Output = hyper::Result<()>>> Future for Stretch<F> {
    type Output = Went<F>;

    ghost needs = { λ s n. IsSomeAnd s.connection (λ c. F.needs (box_value c.future.future) n) };

    fn poll(&mut self, cx: &mut Context<'_>) -> Poll<Went<F>> {
        let Some(connection) = self.connection.take() else {
            return Poll::Ready(Went::Ended(None));
        };
        let Connection {
            future,
            handover,
            signals,
        } = connection;
        let future = match future.poll(cx) {
            Ok(ended) => return Poll::Ready(Went::Ended(status_of_refusal(&ended))),
            Err(future) => future,
        };
        let connection = Connection {
            future,
            handover,
            signals,
        };
        match connection.stop() {
            Some(stop) => Poll::Ready(Went::Stopped(connection, stop)),
            None => {
                self.connection = Some(connection);
                Poll::Pending
            }
        }
    }
}
