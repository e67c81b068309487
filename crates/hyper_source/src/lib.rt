//! Answers from origins over HTTP: for each URL one `GET`, over a connection of its own or one that was kept,
//! within a limit of time.
//!
//! Source: RFC 9110, "HTTP Semantics", and RFC 9112, "HTTP/1.1".
#![tactic(auto)]

mod origin_runtime;
mod pool;
mod reuse;
mod source;

pub use origin_runtime::OriginRuntime;
pub use source::HyperSource;
