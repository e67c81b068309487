//! Who comes to where the operator is answered.

ghost use Rattle.futures.specs.Task.{Covers, Keeps};
ghost use Rattle.futures.specs.Poll.{OnPending};

use crate::listener::OperatorListener;
use crate::operated::Operated;
use crate::room::Room;
use crate::service::OperatorService;
use futures::channel::oneshot::Receiver;
use futures::task::{Context, Poll};
use futures::{Future, Stream, ready};
use std::alloc::AllocGlobal;
use std::io;
use std::sync::{Arc, Wait};
use std::time::{Clock, Duration};
use tokio::net::{TcpListener, TcpStream};
use tokio::time::{Handle, Sleep};

// How long a connection may take, in seconds.
const LIMIT_SECONDS: u64 = 5;

// For how many milliseconds nobody is accepted after that has failed.
const PAUSE_MILLIS: u64 = 100;

/// A connection that has come.
#[derive(Drop)]
pub(crate) struct Arrival<R, M> {
    pub socket: TcpStream,
    /// What answers it.
    pub service: OperatorService<R, M>,
    /// Ready once its time is over.
    pub limit: Sleep,
    /// Ready once it has to make room.
    pub leaves: Receiver<()>,
}

/// The connections that come, until the operator's listener is closed.
#[derive(Drop)]
pub(crate) struct Arrivals<'a, R, M> {
    pub desk: &'a OperatorListener,
    pub rt: &'a R,
    pub operated: &'a Arc<M>,
    pub listener: TcpListener,
    pub timers: Handle,
    pub room: Room,
    /// Until it is ready, nobody is accepted.
    pub pause: Option<Sleep>,
}

impl<R, M> Arrivals<'_, R, M>
where
    R: Wait + Clock + AllocGlobal + Clone + Drop,
    M: Operated<R> + Drop,
{
    // Who came by this socket.
    fn admit(&mut self, socket: TcpStream) -> io::Result<Arrival<R, M>> {
        let limit = Duration::from_secs(LIMIT_SECONDS);
        Ok(Arrival {
            socket,
            service: self.desk.service(self.rt, self.operated)?,
            limit: self.timers.sleep(self.rt, limit)?,
            leaves: self.room.admit(self.rt.alloc())?,
        })
    }

    // Accepts nobody for a moment: what is lacked, as a descriptor, others may give back. Without a timer for that, nobody
    // comes any longer.
    fn rest<T>(&mut self, cx: &mut Context<'_>) -> Poll<Option<T>>
        ensures registered { OnPending result (Covers cx.new (λ _. ⊥)) }
        ensures kept { Keeps cx.old cx.new }
    {
        let pause = Duration::from_millis(PAUSE_MILLIS);
        match self.timers.sleep(self.rt, pause) {
            Ok(pause) => {
                self.pause = Some(pause);
                cx.yield_now()
            }
            Err(_) => Poll::Ready(None),
        }
    }
}

impl<R, M> Stream for Arrivals<'_, R, M>
where
    R: Wait + Clock + AllocGlobal + Clone + Drop,
    M: Operated<R> + Drop,
{
    type Item = Arrival<R, M>;

    fn poll_next(&mut self, cx: &mut Context<'_>) -> Poll<Option<Arrival<R, M>>> {
        if let Some(pause) = &mut self.pause {
            let _ = ready!(pause.poll(cx));
            self.pause = None;
        }
        let accepted = ready!(self.listener.poll_accept(cx));
        if self.desk.is_closed() {
            return Poll::Ready(None);
        }
        let Ok((socket, _)) = accepted else {
            return self.rest(cx);
        };
        match self.admit(socket) {
            Ok(arrival) => Poll::Ready(Some(arrival)),
            Err(_) => self.rest(cx),
        }
    }
}
