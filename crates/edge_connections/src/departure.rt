//! Whether a client has left while its page is made.

ghost use Rattle.std.specs.Prelude.{◌≡◌, is_some};
ghost use Rattle.edge_connections.specs.Departure.{has_left, watch_of};

use libc::net::{EPOLLRDHUP, POLLERR, POLLHUP, POLLRDHUP, poll};
use libc::types::pollfd;
use std::os::fd::RawFd;
use std::time::Duration;

/// What a client's socket shows.
#[derive(Clone, Copy, PartialEq, Eq)]
pub(crate) enum ClientState {
    /// The client may still send.
    Open,
    /// It has ended its input, and may still receive its page.
    InputEnded,
    /// Its connection was reset.
    Reset,
}

/// The socket of a page's client, which is looked at before each fetch for the page, and while the page waits.
#[derive(Clone, Copy)]
pub struct ClientWatch {
    /// Its number. It stays open for as long as the page is made, by whoever serves the connection.
    pub socket: RawFd,
    /// Whether a client that has ended its input has left.
    pub end_leaves: bool,
}

impl ClientWatch {
    /// What a wait for its socket is to tell, beside a reset, which each wait tells.
    pub(crate) fn events(&self) -> u32 {
        if self.end_leaves { EPOLLRDHUP } else { 0 }
    }

    /// Whether the client is known to have left. Doesn't wait.
    pub fn has_left(&self) -> bool {
        has_left(self.end_leaves, state_of(self.socket))
    }
}

/// What is looked at, of the socket of a client whose page may have a limit of time; `None` where the socket isn't known, or
/// nothing of it counts.
///
/// Our profile.
pub fn watch_of(
    limit: Option<Duration>,
    end_leaves: bool,
    socket: Option<RawFd>,
) -> Option<ClientWatch>
    ensures { result ≡ watch_of (is_some limit) end_leaves socket }
{
    if limit.is_none() && !end_leaves {
        return None;
    }
    Some(ClientWatch {
        socket: socket?,
        end_leaves,
    })
}

// Whether a client has left, by what its socket shows.
fn has_left(end_leaves: bool, client: ClientState) -> bool
    ensures { result ≡ has_left end_leaves client }
{
    match client {
        ClientState::Open => false,
        ClientState::InputEnded => end_leaves,
        ClientState::Reset => true,
    }
}

// What a socket shows now. One that can't be looked at counts as open.
fn state_of(socket: RawFd) -> ClientState {
    let mut watched = [pollfd {
        fd: socket,
        events: POLLRDHUP,
        revents: 0,
    }];
    poll(&mut watched, 0);
    let shown = watched[0].revents;
    if shown & (POLLERR | POLLHUP) != 0 {
        ClientState::Reset
    } else if shown & POLLRDHUP != 0 {
        ClientState::InputEnded
    } else {
        ClientState::Open
    }
}
