//! What an origin is asked over HTTP, and the answer that its response makes.
//!
//! Source: RFC 9110, "HTTP Semantics", and RFC 9112, "HTTP/1.1".
#![tactic(auto)]

mod answers;
mod body_limits;
mod edge_name;
mod fields;
mod head;
mod head_rules;
mod passed_fields;
mod private_urls;
mod request;
mod response;

pub use answers::{Fetched, answered};
pub use body_limits::BodyLimits;
pub use edge_name::{EdgeName, MAX_NAME, copy_of, device_of, way_behind};
pub use head::stays_open;
pub use head_rules::HeadRules;
pub use private_urls::{is_private, told_for};
pub use request::{request_of, whole, with_fields};
pub use response::Response;
