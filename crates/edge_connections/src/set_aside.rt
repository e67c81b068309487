//! What is kept of a connection that has nothing to do.

ghost use Rattle.std.specs.Prelude.{◌≡◌, length, take, drop, min, IfOk};

use crate::exchange::Exchange;
use bytes::Bytes;
use std::alloc::AllocError;
use std::net::{IpAddr, TcpStream};

/// What is kept of a connection of whose next request no head has come whole. What the HTTP library has for a connection is
/// made anew for that request, so that clients who say nothing hold little memory.
///
/// Our profile.
#[derive(Drop)]
pub struct SetAside {
    pub(crate) socket: TcpStream,
    pub(crate) client: IpAddr,
    pub(crate) exchange: Exchange,
    pub(crate) is_prompt: bool,
    /// What was read beyond the requests that were answered.
    pub(crate) unread: Bytes,
}

/// Gives what was read before, as far as there is room for it, and keeps the rest.
pub(crate) fn read_again(unread: &mut Bytes, buf: &mut [u8]) -> Result<usize, AllocError>
    ensures count { IfOk result (λ count. count ≡ min (length unread.old) (length buf.old)) }
    ensures given { IfOk result (λ count. take count buf.new ≡ take count unread.old) }
    ensures rest { IfOk result (λ count. unread.new ≡ drop count unread.old) }
    ensures length { length buf.new ≡ length buf.old }
{
    let count = unread.len().min(buf.len());
    let first = unread.split_to(count)?;
    buf[..count].copy_from_slice(&first);
    Ok(count)
}
