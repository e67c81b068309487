//! An address of its own at which the operator of a server sees how it is, lets go of what it keeps, and stops it.
//!
//! Source: RFC 9110, "HTTP Semantics", and RFC 9112, "HTTP/1.1"; the paths and texts are our profile.
#![tactic(auto)]

mod arrivals;
mod asked;
mod foreign;
mod grace;
mod health;
mod hosts;
mod listener;
mod operated;
mod purge;
mod response;
mod room;
mod service;
mod stop;
mod timer;
mod told;

pub use asked::{Asked, asked_by};
pub use foreign::is_own;
pub use grace::{Grace, grace_of};
pub use health::Health;
pub use hosts::HostNames;
pub use listener::OperatorListener;
pub use operated::Operated;
pub use purge::{Purge, purge_of};
pub use response::response_of;
pub use stop::StopRequest;
pub use told::Told;
