//! The headers by which an origin and an edge negotiate templates: `Surrogate-Control` is read, and
//! `Surrogate-Capability` is written. Of an origin that doesn't know them, `Cache-Control` is read.
//!
//! Source: Edge Architecture Specification 1.0; RFC 9111, "Cache-Control".
#![tactic(auto)]

mod cache_control;
mod directive;
mod found;
pub mod laws;
mod parameter;
mod parts;
mod surrogate_capability;
mod surrogate_control;
mod this_edge;

pub use cache_control::heeding;
pub use parameter::MAX_SECONDS;
pub use surrogate_capability::capability;
pub use surrogate_control::control;
pub use this_edge::{own_capability, own_device};
