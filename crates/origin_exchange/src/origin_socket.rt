//! Sockets to origins. Clauses see the address of the origin that one was made to.

ghost use Rattle.std.specs.Prelude.{◌≡◌, IfOk};

use origins::Chosen;
use std::io;
use std::marker::Model;
use std::net::{Net, SocketAddr, TcpStream};

/// The socket of a connection to an origin, made or still being made; it doesn't block. It knows the address of the origin
/// that it was made to, as that was at the start, which nobody else can give it: so a connection that is kept is used for
/// requests to that origin alone.
#[derive(Drop)]
pub struct OriginSocket {
    address: SocketAddr,
    stream: TcpStream,
}

impl Model for OriginSocket {
    ghost use Rattle.std.specs.declared.net.socket_addr.SocketAddr.{SocketAddr};

    ghost Value = { SocketAddr };

    ghost view = { λ s. s.address };
}

impl OriginSocket {
    /// A connection to an origin, where it listens now, that need not be made yet.
    pub fn connecting<R: Net>(rt: &R, origin: Chosen) -> io::Result<OriginSocket>
        ensures { IfOk result (λ socket. socket ≡ origin.address) }
    {
        let stream = mio::net::TcpStream::connect(rt, origin.now)?;
        Ok(OriginSocket {
            address: origin.address,
            stream: TcpStream::from(stream),
        })
    }

    /// The address of the origin that the connection was made to, as it was at the start.
    pub fn address(&self) -> SocketAddr
        ensures { result ≡ self.now }
    {
        self.address
    }

    /// What is read from and written to.
    pub fn stream(&self) -> &TcpStream {
        &self.stream
    }
}
