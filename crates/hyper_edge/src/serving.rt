//! Connections whose requests an edge's service answers.

use crate::service::{EdgeService, TimedPage};
use answer_sources::{ConcurrentSource, OnBehalf};
use edge_connections::{Accept, Capacity, Executor, ServeEnd, ServerRuntime};
use edge_server::{Begun, Journal};
use edge_types::NoMemory;
use http::Request;
use std::marker::PhantomData;
use std::os::fd::RawFd;
use std::sync::{Mutex, Wait};
use std::thread::Threads;
use std::time::Clock;
use tokio::io::{AsyncRead, AsyncWrite};

// A service, as a closure has it that begins pages: the prover wants to know of the closure what a page has in flight, which
// crosses threads.
#[derive(Drop)]
struct Beginning<'a, R, S: ConcurrentSource<R>> {
    service: &'a EdgeService<S, R>,
    in_flight: PhantomData<Mutex<S::InFlight>>,
}

impl<'a, R, S: ConcurrentSource<R>> Beginning<'a, R, S> {
    fn of(service: &'a EdgeService<S, R>) -> Beginning<'a, R, S> {
        Beginning {
            service,
            in_flight: PhantomData,
        }
    }
}

impl<'a, R, S> Beginning<'a, R, S>
where
    R: Wait + Threads + Clock + Clone + Sync + Drop,
    S: ConcurrentSource<R> + OnBehalf<R> + Send + Sync + Drop,
{
    fn begin(
        &self,
        head: &Request<()>,
        socket: Option<RawFd>,
    ) -> Result<Begun<TimedPage<R, S>>, NoMemory> {
        self.service.begin(head, socket)
    }
}

/// Serves one request over one stream, and ends the connection, as `edge_server::serve_io` does.
pub fn serve_io<R, I, S>(rt: &R, executor: &mut Executor, io: I, service: EdgeService<S, R>)
where
    R: Wait + Threads + Clock + Clone + Send + Sync + Drop,
    I: AsyncRead + AsyncWrite,
    S: ConcurrentSource<R> + OnBehalf<R> + Send + Sync + Drop,
    S::InFlight: Send,
{
    let pages = Beginning::of(&service);
    let begins = |head: &Request<()>, socket: Option<RawFd>| pages.begin(head, socket);
    edge_server::serve_io(rt, executor, io, &service, &begins);
}

/// Serves connections with threads, as `edge_server::serve_accepts` does.
pub fn serve_accepts<'a, R, A, S, J>(
    rt: &'a R,
    acceptor: &'a A,
    service: &'a EdgeService<S, R>,
    journal: &'a J,
    capacity: Capacity,
    count: u64,
) -> ServeEnd
where
    R: ServerRuntime + Send + Sync,
    A: Accept<R> + Sync,
    A::Io: AsyncRead + AsyncWrite,
    S: ConcurrentSource<R> + OnBehalf<R> + Send + Sync + Drop,
    S::InFlight: Send,
    J: Journal<R> + Sync,
{
    let pages = Beginning::of(service);
    let begins = |head: &Request<()>, socket: Option<RawFd>| pages.begin(head, socket);
    edge_server::serve_accepts(rt, acceptor, service, &begins, journal, capacity, count)
}
