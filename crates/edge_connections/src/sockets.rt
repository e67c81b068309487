//! The sockets of a listener.

use crate::accept::{Accept, AcceptFault};
use crate::client_stream::{ClientStream, PATIENCE_MILLIS, Shared};
use crate::exchange::Limits;
use crate::set_aside::SetAside;
use crate::signals::{Pause, Signals};
use edge_sockets::Readiness;
use libc::EMFILE;
use libc::net::{
    EPOLL_CTL_ADD, EPOLL_CTL_MOD, EPOLLIN, EPOLLONESHOT, EPOLLOUT, EPOLLRDHUP, POLLIN, listen, poll,
};
use libc::types::pollfd;
use mio::Poll;
use os::EpollEvent;
use std::alloc::AllocGlobal;
use std::io::ErrorKind;
use std::net::{IpAddr, Net, Shutdown, TcpListener, TcpStream};
use std::os::fd::{AsRawFd, OwnedFd, RawFd};
use std::sync::Arc;
use std::sync::atomic::Ordering;
use std::time::{Clock, Duration};
use std::{io, thread};

// For how many milliseconds at most a thread waits for one of the sockets that are watched.
const TICK_MILLIS: i32 = 100;

// For how many milliseconds at most whoever starts threads waits for a client. Meanwhile it does nothing else.
const MOMENT_MILLIS: i32 = 10;

// How many clients may wait to be accepted, unless the system's own limit is lower.
const QUEUE: i32 = 1_024;

// The system has no descriptor left for anybody, or no memory for a socket (accept(2)).
const ENFILE: i32 = 23;

const ENOBUFS: i32 = 105;

/// What says that a server is to stop.
pub trait StopSign<R> {
    /// Whether it is to stop. Asked several times a second by one thread, which waits for nothing meanwhile.
    fn is_given(&self, rt: &R) -> bool;

    /// Whether what is under way is to be cut short. Asked in the same way, once the server is to stop. By default it
    /// isn't.
    fn cuts(&self, _rt: &R) -> bool {
        false
    }
}

/// Sockets of a listener, with limits of time.
#[derive(Drop)]
pub struct Sockets<Q> {
    listener: TcpListener,
    // A second handle to the listener's socket.
    same: TcpStream,
    limits: Limits,
    shared: Arc<Shared>,
    // The sockets that are watched. Several threads wait in it at once, which its own call doesn't allow.
    watched: Poll,
    stop: Q,
}

impl<Q: Drop> Sockets<Q> {
    /// Accepts from a listener, until the server is to stop. The sockets inherit from it for how long a write blocks: so setting it costs no call
    /// per connection. Each write is sent at once, since a kept connection would hold a short one back.
    ///
    /// Refused if the system refuses, or there is no memory.
    pub fn new<R: Net + AllocGlobal>(
        rt: &R,
        listener: TcpListener,
        limits: Limits,
        stop: Q,
    ) -> io::Result<Sockets<Q>> {
        let same = TcpStream::from(OwnedFd::from(listener.try_clone()?));
        same.set_write_timeout(Some(Duration::from_millis(PATIENCE_MILLIS)))?;
        same.set_nodelay(true)?;
        // Where that is refused, the queue that std has asked for stays.
        let _ = listen(listener.as_raw_fd(), QUEUE);
        Ok(Sockets {
            listener,
            same,
            limits,
            shared: Arc::new(rt.alloc(), Shared::new())?,
            watched: Poll::new(rt)?,
            stop,
        })
    }
}

impl<Q> Sockets<Q> {
    // Asks for one event of a descriptor, under a key. One that was watched before is known already.
    fn watches(&self, descriptor: RawFd, key: usize, events: u32) -> bool {
        let set = self.watched.as_raw_fd();
        let events = EPOLLONESHOT | events;
        os::epoll_ctl(set, EPOLL_CTL_MOD, descriptor, events, key as u64) == 0
            || os::epoll_ctl(set, EPOLL_CTL_ADD, descriptor, events, key as u64) == 0
    }

    // Waits for a connection.
    fn accepted<R>(&self, rt: &R) -> io::Result<ClientStream<R>>
    where
        R: Clock + AllocGlobal + Clone + Drop,
    {
        let (socket, address) = self.listener.accept()?;
        let rt = rt.clone()?;
        let shared = self.shared.clone()?;
        ClientStream::new(rt.alloc(), socket, address.ip(), rt, self.limits, shared)
    }
}

// Whether an accept failed for want of what connections hold.
fn fault_of(error: &io::Error) -> AcceptFault {
    if error.kind() == ErrorKind::OutOfMemory {
        return AcceptFault::Exhausted;
    }
    match error.raw_os_error() {
        Some(EMFILE | ENFILE | ENOBUFS) => AcceptFault::Exhausted,
        _ => AcceptFault::Other,
    }
}

impl<R, Q> Accept<R> for Sockets<Q>
where
    R: Clock + AllocGlobal + Clone + Drop + Send,
    Q: StopSign<R>,
{
    type Io = ClientStream<R>;

    fn accept(&self, rt: &R) -> Result<ClientStream<R>, AcceptFault> {
        match self.accepted(rt) {
            Ok(stream) => Ok(stream),
            Err(error) => Err(fault_of(&error)),
        }
    }

    fn has_client(&self, _rt: &R) -> bool {
        let mut watched = [pollfd {
            fd: self.listener.as_raw_fd(),
            events: POLLIN,
            revents: 0,
        }];
        0 < poll(&mut watched, MOMENT_MILLIS)
    }

    fn rest(&self, rt: &R, pause: Duration) {
        thread::sleep(rt, pause);
    }

    fn keeps(&self) -> bool {
        self.limits.idle.is_some()
    }

    fn signals(&self, io: &ClientStream<R>) -> Option<Arc<Signals>> {
        io.signals()
    }

    fn set_aside(&self, rt: &R, io: ClientStream<R>, unread: &[u8]) -> Option<SetAside> {
        io.set_aside(rt.alloc(), unread).ok()
    }

    fn take_up(&self, rt: &R, aside: SetAside) -> Option<ClientStream<R>> {
        let own = rt.clone().ok()?;
        let shared = self.shared.clone().ok()?;
        ClientStream::taken_up(rt.alloc(), own, self.limits, shared, aside).ok()
    }

    fn client(&self, io: &ClientStream<R>) -> Option<IpAddr> {
        Some(io.client())
    }

    fn set_may_wait(&self, may_wait: bool) {
        self.shared.may_wait.store(may_wait, Ordering::SeqCst);
    }

    // A client who can't be watched is looked at whenever his page goes on.
    fn watch(&self, key: usize, pause: &Pause) -> bool {
        if let Some(client) = &pause.client {
            let _ = self.watches(client.socket, key, client.events());
        }
        let events = match pause.readiness {
            Readiness::Readable => EPOLLIN | EPOLLRDHUP,
            Readiness::Writable => EPOLLOUT,
        };
        self.watches(pause.socket, key, events)
    }

    fn ready(&self, _rt: &R) -> Option<usize> {
        let mut events = [EpollEvent { events: 0, data: 0 }];
        if os::epoll_wait(self.watched.as_raw_fd(), &mut events, TICK_MILLIS) == 0 {
            return None;
        }
        usize::try_from(events[0].data).ok()
    }

    fn is_to_stop(&self, rt: &R) -> bool {
        self.stop.is_given(rt)
    }

    fn is_to_cut(&self, rt: &R) -> bool {
        self.stop.cuts(rt)
    }

    fn cut(&self) {
        self.shared.is_cut.store(true, Ordering::SeqCst);
    }

    fn end(&self, _rt: &R) {
        let _ = self.same.shutdown(Shutdown::Both);
    }
}
