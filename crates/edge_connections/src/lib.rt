//! Connections of clients: how they are accepted, read, written and parked, each by one thread at a time, and when more
//! threads are started for them. Their requests are handed over to whoever answers them.
//!
//! Source: RFC 9112, "HTTP/1.1".
#![tactic(auto)]

mod accept;
mod client_stream;
mod connection;
mod date;
mod departure;
mod exchange;
mod executor;
mod handover;
mod parking;
mod roster;
mod runtime;
mod set_aside;
mod shared_roster;
mod signals;
mod sockets;
mod staff;

pub use accept::{Accept, AcceptFault};
pub use client_stream::ClientStream;
pub use connection::{Connection, GivesStream, Stop, Went};
pub use date::DateClock;
pub use departure::{ClientWatch, watch_of};
pub use exchange::{Limits, deadline};
pub use executor::Executor;
pub use handover::{Answered, ComesBack, Handover, HandsOver, IncomingRequest};
pub use parking::{Parked, ParkingPlace, Waiting};
pub use roster::{Admission, AfterFailure, Capacity, Roster, ServeEnd, Work};
pub use runtime::ServerRuntime;
pub use set_aside::SetAside;
pub use shared_roster::{Duty, SharedRoster, Wanted};
pub use signals::{Pause, PausedBy, Signals};
pub use sockets::{Sockets, StopSign};
