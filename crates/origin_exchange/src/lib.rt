//! One request to an origin and its response, over one connection.
//!
//! Source: RFC 9112, "HTTP/1.1".
#![tactic(auto)]

mod behind;
mod exchange;
mod exchange_end;
mod gathered;
mod intake;
mod origin_socket;
mod origin_stream;
mod reach;
mod stream_signals;

pub use behind::Behind;
pub use exchange::{Exchange, ExchangeStep};
pub use exchange_end::ExchangeEnd;
pub use origin_socket::OriginSocket;
pub use origin_stream::OriginStream;
pub use reach::{Reach, lost_by};
pub use stream_signals::StreamSignals;
