//! Where connections come from.

use crate::set_aside::SetAside;
use crate::signals::{Pause, Signals};
use std::net::IpAddr;
use std::sync::Arc;
use std::time::Duration;

/// Why an accept has failed.
#[derive(Clone, Copy, Debug, PartialEq, Eq)]
pub enum AcceptFault {
    /// For want of a file descriptor, or of memory: connections that end give some back.
    Exhausted,
    /// For any other reason.
    Other,
}

/// What accepts connections, from any number of threads at once, and tells when one that waits can go on.
pub trait Accept<R> {
    /// The stream of a connection.
    type Io: Send + Drop;

    /// Waits for a connection. Refused if the accept fails.
    fn accept(&self, rt: &R) -> Result<Self::Io, AcceptFault>;

    /// Waits for a moment until a client comes, so that `accept` needn't wait, and tells whether one has come. By default it
    /// tells so at once, and `accept` waits.
    fn has_client(&self, _rt: &R) -> bool {
        true
    }

    /// Waits for so long, since an accept has failed and the next one would fail too. By default it doesn't.
    fn rest(&self, _rt: &R, _pause: Duration) {}

    /// Whether connections are kept for further requests. By default they aren't.
    fn keeps(&self) -> bool {
        false
    }

    /// By what a stream tells that a response has been written, and why it can't go on. By default no stream tells
    /// anything, so none is waited for by anything but its own reads and writes.
    fn signals(&self, _io: &Self::Io) -> Option<Arc<Signals>> {
        None
    }

    /// What is kept of a stream that has nothing to do, from which this was read beyond the requests that were answered.
    /// `None` where there is no room for it; by default nothing is kept, so the connection ends.
    fn set_aside(&self, _rt: &R, _io: Self::Io, _unread: &[u8]) -> Option<SetAside> {
        None
    }

    /// The stream of which this was kept, which gives again what was read. `None` where there is no memory for it; by default
    /// there is none.
    fn take_up(&self, _rt: &R, _aside: SetAside) -> Option<Self::Io> {
        None
    }

    /// The address of the client of a stream, where it is known. By default none is.
    fn client(&self, _io: &Self::Io) -> Option<IpAddr> {
        None
    }

    /// Whether streams may block for a moment from now on, since there are threads to spare.
    fn set_may_wait(&self, _may_wait: bool) {}

    /// Has `ready` tell a key, once, when the socket of a pause is ready, or its client leaves. Returns false if that isn't
    /// possible.
    fn watch(&self, _key: usize, _pause: &Pause) -> bool {
        false
    }

    /// Waits for a moment until a stream that is watched can go on, and tells its key.
    fn ready(&self, _rt: &R) -> Option<usize> {
        None
    }

    /// Whether the server is to stop: nothing more is accepted then, and what is under way ends. Asked several times a
    /// second. By default it isn't.
    fn is_to_stop(&self, _rt: &R) -> bool {
        false
    }

    /// Whether what is under way is to be cut short. Asked several times a second, once the server is to stop. By default
    /// it isn't.
    fn is_to_cut(&self, _rt: &R) -> bool {
        false
    }

    /// From now on each read and write of a stream fails. By default none does because of it.
    fn cut(&self) {}

    /// Ends each accept that waits; it fails then, and so does each later one.
    fn end(&self, rt: &R);
}
