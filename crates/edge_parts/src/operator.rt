//! The operator of a server: where it is answered, and how it stops the server.

use edge_commands::Status;
use edge_connections::StopSign;
use edge_reports::EndOfInput;
use operator_http::{HostNames, OperatorListener, StopRequest};
use std::alloc::AllocGlobal;
use std::net::{Net, SocketAddr, TcpListener, TcpStream};
use std::random::RandomSource;
use std::time::Clock;

/// What stops a server: the end of standard input, or its operator, each where it is asked for.
#[derive(Drop)]
pub struct Stop {
    pub input: EndOfInput,
    pub operator: Option<StopRequest>,
}

impl Stop {
    /// What stops a server with this operator. Refused if there is no memory.
    pub(crate) fn of(input: EndOfInput, operator: Option<&Operator>) -> Result<Stop, Status> {
        let Some(operator) = operator else {
            return Ok(Stop {
                input,
                operator: None,
            });
        };
        match operator.listener.stop_request() {
            Some(request) => Ok(Stop {
                input,
                operator: Some(request),
            }),
            None => Err(Status::NoMemory),
        }
    }
}

impl<R: Clock> StopSign<R> for Stop {
    fn is_given(&self, rt: &R) -> bool {
        let is_requested = match &self.operator {
            Some(operator) => operator.is_made(),
            None => false,
        };
        is_requested || self.input.is_given(rt)
    }

    fn cuts(&self, rt: &R) -> bool {
        match &self.operator {
            Some(operator) => operator.cuts(rt),
            None => false,
        }
    }
}

/// A listener at an address, and where that is.
pub(crate) fn bound<R>(rt: &R, address: SocketAddr) -> Result<(TcpListener, SocketAddr), Status>
where
    R: Net<Stream = TcpStream, Listener = TcpListener>,
{
    let listener = match TcpListener::bind(rt, address) {
        Ok(listener) => listener,
        Err(error) => return Err(Status::of_listening(error)),
    };
    let address = listener.local_addr()?;
    Ok((listener, address))
}

/// Where the operator of a server is answered.
#[derive(Drop)]
pub struct Operator {
    pub listener: OperatorListener,
    pub address: SocketAddr,
}

impl Operator {
    /// One that is answered at this address, port 0 for a free one, also by these names of hosts, with commas between.
    pub fn at<R>(rt: &R, address: SocketAddr, names: Option<Vec<u8>>) -> Result<Operator, Status>
    where
        R: AllocGlobal + Clock + RandomSource,
        R: Net<Stream = TcpStream, Listener = TcpListener>,
    {
        let (listener, address) = bound(rt, address)?;
        let names = match names {
            Some(names) => names,
            None => Vec::new(rt.alloc()),
        };
        Ok(Operator {
            listener: OperatorListener::new(rt, listener, HostNames::of(names))?,
            address,
        })
    }
}
