//! Where an operator is answered.

use crate::arrivals::{Arrival, Arrivals};
use crate::hosts::HostNames;
use crate::operated::Operated;
use crate::room::Room;
use crate::service::OperatorService;
use crate::stop::{StopRequest, StopState};
use crate::timer::OperatorTimer;
use futures::future::select;
use futures::{FutureExt, StreamExt};
use hyper::server::conn::http1::Builder;
use std::alloc::{AllocError, AllocGlobal};
use std::hash::RandomState;
use std::net::{Net, Shutdown, TcpListener, TcpStream};
use std::os::fd::OwnedFd;
use std::random::RandomSource;
use std::sync::atomic::{AtomicBool, Ordering};
use std::sync::{Arc, Wait};
use std::time::{Clock, Duration};
use std::{io, thread};
use tokio::net;
use tokio::runtime::{Handle, LocalRuntime};

// How long the head of a request may take to come, in seconds.
const HEAD_SECONDS: u64 = 1;

// How long connections may go on once it is closed, in seconds.
const END_SECONDS: u64 = 1;

// For how many milliseconds nobody is answered after the system or memory has failed.
const PAUSE_MILLIS: u64 = 100;

/// Where the operator of a server is answered, by a thread of its own, which waits for all connections at once: so it
/// answers while all threads of the server are at work, and beside connections that say nothing.
///
/// Each connection is for one request, whose head has a second to come, and ends after five seconds at most. Of more than
/// 64 the one that has gone on for longest is ended.
///
/// Our profile.
#[derive(Drop)]
pub struct OperatorListener {
    listener: TcpListener,
    // A second handle to the listener's socket.
    same: TcpStream,
    is_closed: AtomicBool,
    stop: Arc<StopState>,
    // The hash keys of the maps of fields.
    keys: RandomState,
    names: Arc<HostNames>,
}

impl OperatorListener {
    /// One over a socket that listens, whom the operator may also ask by these names of hosts. Refused if the system
    /// refuses, the clock can't be read, or there is no memory.
    pub fn new<R>(rt: &R, listener: TcpListener, names: HostNames) -> io::Result<OperatorListener>
    where
        R: Net + Clock + RandomSource + AllocGlobal,
    {
        let same = TcpStream::from(OwnedFd::from(listener.try_clone()?));
        Ok(OperatorListener {
            listener,
            same,
            is_closed: AtomicBool::new(false),
            stop: Arc::new(rt.alloc(), StopState::new(rt)?)?,
            keys: RandomState::new(rt)?,
            names: Arc::new(rt.alloc(), names)?,
        })
    }

    /// What tells whether the operator has asked the server to stop, and until when. `None` where there is no memory for
    /// it.
    pub fn stop_request(&self) -> Option<StopRequest> {
        Some(StopRequest {
            state: self.stop.clone().ok()?,
        })
    }

    /// Answers the operator of this server until it is closed. What fails for want of memory, a descriptor or a clock is
    /// tried again after a moment.
    pub fn serve<R, M>(&self, rt: &R, operated: &Arc<M>)
    where
        R: Wait + Clock + Net + RandomSource + AllocGlobal + Clone + Drop,
        M: Operated<R> + Drop,
    {
        for _ in rt.forever() {
            let _ = self.answer_all(rt, operated);
            if self.is_closed() {
                return;
            }
            thread::sleep(rt, Duration::from_millis(PAUSE_MILLIS));
        }
    }

    // Answers whoever comes until it is closed, or the system or memory has failed.
    fn answer_all<R, M>(&self, rt: &R, operated: &Arc<M>) -> io::Result<()>
    where
        R: Wait + Clock + Net + RandomSource + AllocGlobal + Clone + Drop,
        M: Operated<R> + Drop,
    {
        let mut runtime = LocalRuntime::new(rt)?;
        runtime.set_shutdown_timeout(Some(Duration::from_secs(END_SECONDS)));
        let handle = runtime.handle();
        let arrivals = Arrivals {
            desk: self,
            rt,
            operated,
            listener: net::TcpListener::from_std(self.listener.try_clone()?, handle.reactor())?,
            timers: handle.time().clone()?,
            room: Room::new(rt.alloc()),
            pause: None,
        };
        let http = self.http(rt, handle)?;
        let exchanges = arrivals.map(|arrival| {
            let Arrival {
                socket,
                service,
                limit,
                leaves,
            } = arrival;
            let exchange = http.serve_connection(socket, service);
            select(exchange, select(limit, leaves)).map(|_| ())
        });
        runtime.run_all(rt, exchanges)
    }

    // How a request is read and its response written, by the HTTP library.
    fn http<R>(&self, rt: &R, handle: &Handle) -> Result<Builder<OperatorTimer<R>>, AllocError>
    where
        R: Clock + AllocGlobal + Clone + Drop,
    {
        let mut http = Builder::new(rt.alloc(), self.keys);
        http.keep_alive(false);
        http.half_close(true);
        http.header_read_timeout(Some(Duration::from_secs(HEAD_SECONDS)));
        Ok(http.timer(OperatorTimer::new(rt.clone()?, handle.time().clone()?)))
    }

    /// What answers one connection.
    pub(crate) fn service<R, M>(
        &self,
        rt: &R,
        operated: &Arc<M>,
    ) -> Result<OperatorService<R, M>, AllocError>
    where
        R: Clone,
        M: Drop,
    {
        Ok(OperatorService {
            rt: rt.clone()?,
            operated: operated.clone()?,
            stop: self.stop.clone()?,
            names: self.names.clone()?,
        })
    }

    /// Closes it: nobody comes any longer, and whoever is there has a second.
    pub fn close(&self) {
        self.is_closed.store(true, Ordering::SeqCst);
        let _ = self.same.shutdown(Shutdown::Both);
    }

    pub(crate) fn is_closed(&self) -> bool {
        self.is_closed.load(Ordering::SeqCst)
    }
}
