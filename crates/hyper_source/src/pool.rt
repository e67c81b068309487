//! Connections to origins that are kept for further requests.

ghost use Rattle.std.specs.Prelude.{◌≡◌, ◌<◌, ◌↔◌, nat_lt, length, slice_get, IsTrue, IfOk, IfSome, IsOkAnd, IsErrAnd};
ghost use Rattle.std.specs.Arc.{arc_value};
ghost use Rattle.std.specs.IoError.{error_kind};
ghost use Rattle.hyper_source.specs.declared.pool.Heard.TheVariants as heard;

use crate::reuse;
use crate::reuse::{AddressReuse, Reuse};
use edge_sockets::millis;
use edge_types::NoMemory;
use origin_exchange::OriginSocket;
use origins::Origin;
use std::alloc::{AllocError, Global};
use std::io;
use std::io::ErrorKind;
use std::net::{SocketAddr, TcpStream};
use std::sync::{Arc, Mutex, Wait};
use std::time::{Clock, Duration, Instant};

// For how long a connection is kept that no request needs, in seconds.
const MAX_IDLE: u64 = 15;

/// A connection on which nothing is under way. Its socket doesn't block.
#[derive(Drop)]
pub(crate) struct IdleSocket {
    pub(crate) socket: OriginSocket,
    since: Instant,
}

/// Bytes have come over a connection that nobody had asked for.
#[derive(Clone, Copy, Debug, PartialEq, Eq)]
pub(crate) struct Strays;

/// The idle connections to all origins.
#[derive(Drop)]
pub(crate) struct Pool {
    /// How many it keeps for each address.
    pub(crate) most: u16,
    shared: Arc<Mutex<IdleSockets>>,
}

// What the lock guards.
#[derive(Drop)]
struct IdleSockets {
    // The one that was used last comes first.
    idle: Vec<IdleSocket>,
    // Of the address of each origin.
    reuses: Vec<AddressReuse>,
}

impl Pool {
    /// Keeps none to these origins.
    pub(crate) fn new(alloc: Global, origins: &[Origin]) -> Result<Pool, AllocError> {
        let sockets = IdleSockets {
            idle: Vec::new(alloc),
            reuses: reuses_of(alloc, origins)?,
        };
        Ok(Pool {
            most: 0,
            shared: Arc::new(alloc, Mutex::new(sockets))?,
        })
    }

    /// One more handle to the same connections.
    pub(crate) fn share(&self) -> Result<Pool, NoMemory>
        ensures most { IfOk result (λ pool. pool.most ≡ self.now.most) }
        ensures shared { IfOk result (λ pool. arc_value pool.shared ≡ arc_value self.now.shared) }
    {
        Ok(Pool {
            most: self.most,
            shared: Arc::try_clone(&self.shared)?,
        })
    }

    /// Whether any are kept.
    pub(crate) fn keeps(&self) -> bool
        ensures { result ≡ nat_lt 0 self.now.most }
    {
        self.most > 0
    }

    /// The connection to an address that was used last, of those that are open and silent. `Strays` where bytes have come
    /// over one: then none is left, as after `strayed`.
    pub(crate) fn take<R: Wait + Clock>(
        &self,
        rt: &R,
        address: SocketAddr,
    ) -> Result<Option<IdleSocket>, Strays>
        ensures { IfOk result (λ found. IfSome found (λ idle. idle.socket ≡ address)) }
    {
        for _ in rt.forever() {
            let Some(idle) = self.taken(rt, address) else {
                return Ok(None);
            };
            match heard_on(idle.socket.stream()) {
                Heard::Nothing => return Ok(Some(idle)),
                Heard::Bytes => {
                    self.strayed(rt, address);
                    return Err(Strays);
                }
                Heard::End => {}
            }
        }
        unreachable!()
    }

    fn taken<R: Wait + Clock>(&self, rt: &R, address: SocketAddr) -> Option<IdleSocket>
        ensures { IfSome result (λ idle. idle.socket ≡ address) }
    {
        if !self.keeps() {
            return None;
        }
        let now = Instant::now(rt).ok()?;
        let mut sockets = self.shared.lock(rt);
        close_old(&mut sockets.idle, now);
        taken_from(&mut sockets.idle, address)
    }

    /// Bytes came unasked from an address: its idle connections are closed, and for a minute none is kept.
    pub(crate) fn strayed<R: Wait + Clock>(&self, rt: &R, address: SocketAddr) {
        let now = millis(rt);
        self.shared.lock(rt).strayed(address, now);
    }

    /// Keeps a connection, whose socket doesn't block, unless none to its address is kept now, or as many as may be are.
    pub(crate) fn leave<R: Wait + Clock>(&self, rt: &R, socket: OriginSocket) {
        let Ok(since) = Instant::now(rt) else {
            return;
        };
        let address = socket.address();
        let now = millis(rt);
        let mut sockets = self.shared.lock(rt);
        let most = if sockets.keeps(address, now) {
            usize::from(self.most)
        } else {
            0
        };
        if count_of(sockets.idle.as_slice(), address) < most {
            // Without room it is closed.
            let _ = sockets.idle.insert(0, IdleSocket { socket, since });
        }
    }
}

impl IdleSockets {
    fn keeps(&self, address: SocketAddr, now: u64) -> bool {
        match reuse::place_of(self.reuses.as_slice(), address) {
            Some(place) => self.reuses[place].reuse.keeps(now),
            None => false,
        }
    }

    fn strayed(&mut self, address: SocketAddr, now: u64) {
        if let Some(place) = reuse::place_of(self.reuses.as_slice(), address) {
            self.reuses[place].reuse = Reuse::Strayed(now);
        }
        self.idle
            .retain(|idle| !is_same(idle.socket.address(), address));
    }
}

fn reuses_of(alloc: Global, origins: &[Origin]) -> Result<Vec<AddressReuse>, AllocError> {
    let mut reuses = Vec::with_capacity(alloc, origins.len())?;
    for origin in origins {
        reuses.push(AddressReuse {
            address: origin.address,
            reuse: Reuse::Kept,
        })?;
    }
    Ok(reuses)
}

fn is_same(one: SocketAddr, other: SocketAddr) -> bool
    ensures { IsTrue result ↔ (one ≡ other) }
{
    one == other
}

fn place_of(idle: &[IdleSocket], address: SocketAddr) -> Option<usize>
    ensures there { IfSome result (λ i. IfSome (slice_get idle.now i) (λ idle. idle.socket ≡ address)) }
    ensures within { IfSome result (λ i. i < length idle.now) }
{
    for (i, one) in idle.iter().enumerate() {
        if is_same(one.socket.address(), address) {
            return Some(i);
        }
    }
    None
}

fn taken_from(idle: &mut Vec<IdleSocket>, address: SocketAddr) -> Option<IdleSocket>
    ensures { IfSome result (λ idle. idle.socket ≡ address) }
{
    let place = place_of(idle.as_slice(), address)?;
    Some(idle.remove(place))
}

fn count_of(idle: &[IdleSocket], address: SocketAddr) -> usize {
    idle.iter()
        .filter(|idle| is_same(idle.socket.address(), address))
        .count()
}

// Closes those that were idle for too long: from the first of them on, all were.
fn close_old(idle: &mut Vec<IdleSocket>, now: Instant) {
    let old = idle.iter().position(|socket| now.duration_since(socket.since)
        >= Duration::from_secs(MAX_IDLE));
    if let Some(old) = old {
        idle.truncate(old);
    }
}

/// What has come over a connection since the last response.
#[derive(Clone, Copy, Debug, PartialEq, Eq)]
enum Heard {
    Nothing,
    /// They would be read as the next response.
    Bytes,
    /// The end, or that the connection is lost.
    End,
}

// Without a wait, since the socket doesn't block.
fn heard_on(socket: &TcpStream) -> Heard {
    let mut byte = [0; 1];
    heard_by(&socket.peek(&mut byte))
}

// What a look at a socket that doesn't block has found.
fn heard_by(look: &io::Result<usize>) -> Heard
    ensures bytes { (result ≡ heard.Bytes) ↔ IsOkAnd look.now (λ count. 0 < count) }
    ensures nothing { (result ≡ heard.Nothing) ↔ IsErrAnd look.now (λ e. error_kind e ≡ ErrorKind.WouldBlock) }
{
    match look {
        Ok(0) => Heard::End,
        Ok(_) => Heard::Bytes,
        Err(e) => match e.kind() {
            ErrorKind::WouldBlock => Heard::Nothing,
            _ => Heard::End,
        },
    }
}
