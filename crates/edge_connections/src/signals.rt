//! What a stream tells those who serve its connection.

ghost use Rattle.std.specs.Prelude.{◌≡◌, ◌↔◌, ◌⊎◌, IsTrue, Some};
ghost use Rattle.edge_connections.specs.declared.signals.PausedBy.TheVariants as by;

use crate::departure::ClientWatch;
use edge_sockets::Readiness;
use std::os::fd::RawFd;
use std::sync::Mutex;
use std::sync::atomic::{AtomicBool, Ordering};
use std::time::Instant;

/// Who lets a connection wait.
#[derive(Clone, Copy, PartialEq, Eq)]
pub enum PausedBy {
    /// A client who has sent nothing yet.
    NewClient,
    /// A client whose connection is kept, and of whose further request nothing has come: it is idle.
    IdleClient,
    /// A client who sends a request, or receives a response.
    Client,
    /// Those who are asked for what is fetched.
    Fetches,
}

/// Why a connection, or what is fetched for one, can't go on now.
#[derive(Clone, Copy)]
pub struct Pause {
    /// The socket that it waits for.
    pub socket: RawFd,
    /// What that has to be ready for.
    pub readiness: Readiness,
    /// When the client's time, or that of the fetches, is over; `None` means never.
    pub until: Option<Instant>,
    /// Whom it waits for.
    pub by: PausedBy,
    /// The client who ends the wait by leaving, where that is looked at.
    pub(crate) client: Option<ClientWatch>,
}

impl Pause {
    /// Whether nothing of a request has come since the last response, so that the connection may be set aside.
    pub fn is_between_requests(&self) -> bool
        ensures { IsTrue result ↔ (self.now.by ≡ by.NewClient) ⊎ (self.now.by ≡ by.IdleClient) }
    {
        matches!(self.by, PausedBy::NewClient | PausedBy::IdleClient)
    }

    /// What fetches wait for, for a client where there is one: that this descriptor is readable, or their time is over, if it
    /// ever is.
    pub fn for_fetches(
        descriptor: RawFd,
        until: Option<Instant>,
        client: Option<ClientWatch>,
    ) -> Pause {
        Pause {
            socket: descriptor,
            readiness: Readiness::Readable,
            until,
            by: PausedBy::Fetches,
            client,
        }
    }
}

/// What a connection's stream tells whoever serves it. One thread at a time does, so the lock is free.
#[derive(Drop)]
pub struct Signals {
    // The stream's socket, where it has one.
    socket: Option<RawFd>,
    written: AtomicBool,
    pause: Mutex<Option<Pause>>,
}

impl Signals {
    /// Nothing is told yet.
    pub fn new() -> Signals {
        Signals {
            socket: None,
            written: AtomicBool::new(false),
            pause: Mutex::new(None),
        }
    }

    /// The same, of a stream over this socket.
    pub(crate) fn of_socket(socket: RawFd) -> Signals
        ensures { result.socket ≡ Some socket }
    {
        let mut signals = Signals::new();
        signals.socket = Some(socket);
        signals
    }

    /// The stream's socket, where it has one. It stays open for as long as the stream is there.
    pub(crate) fn socket(&self) -> Option<RawFd>
        ensures { result ≡ self.now.socket }
    {
        self.socket
    }

    /// Tells that a response has been written whole.
    pub fn wrote(&self) {
        self.written.store(true, Ordering::SeqCst);
    }

    /// Tells that a read or write would block.
    pub fn pauses(&self, pause: Pause) {
        if let Some(mut told) = self.pause.try_lock() {
            *told = Some(pause);
        }
    }

    /// Whether a response has been written since this was last asked.
    pub(crate) fn take_written(&self) -> bool {
        self.written.swap(false, Ordering::SeqCst)
    }

    /// Why the connection can't go on, if that was told since this was last asked.
    pub(crate) fn take_pause(&self) -> Option<Pause> {
        self.pause.try_lock()?.take()
    }
}
