//! Where a server listens, and for how many connections.

use crate::open_files::{Numbers, open_files_limit};
use crate::operator::{Operator, Stop, bound};
use crate::server_options::ServerOptions;
use edge_commands::Status;
use edge_connections::Sockets;
use edge_reports::EndOfInput;
use edge_setup::Flag;
use std::alloc::AllocGlobal;
use std::fs::File;
use std::io::Eprint;
use std::net::{Net, SocketAddr, TcpListener, TcpStream};
use std::rt::Files;

/// How many connections may be open at once: as many as the limit of open files leaves room for. Says so where these are fewer
/// than asked for, with the limit that would do.
pub fn room_of(rt: &impl Eprint, numbers: Numbers) -> u32 {
    let asked = numbers.connections;
    let Some(limit) = open_files_limit() else {
        return asked;
    };
    let room = numbers.room(limit);
    if room < asked {
        let needed = numbers.needed(asked);
        // If standard error can't be written, nobody reads it.
        let _ = eprintln!(rt;
            "warning: --connections {asked} is taken as {room}: {limit} files may be open, and {needed} would do (ulimit -n)"
        );
    }
    room
}

/// What accepts connections until they are to stop, and where it listens.
pub fn listening<R>(
    rt: &R,
    options: &ServerOptions,
    operator: Option<&Operator>,
) -> Result<(Sockets<Stop>, SocketAddr), Status>
where
    R: AllocGlobal + Files<File = File> + Net<Stream = TcpStream, Listener = TcpListener>,
{
    let input = EndOfInput::of(rt, options.flags.has(Flag::StopWithInput))?;
    let stop = Stop::of(input, operator)?;
    let (listener, address) = bound(rt, options.addresses.listen)?;
    let sockets = Sockets::new(rt, listener, options.clients, stop)?;
    Ok((sockets, address))
}
