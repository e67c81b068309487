//! What a page's request asks for, and what is sent for it over HTTP: the heads of requests are read, and
//! outcomes become responses. Nothing here waits, and no socket is seen.
//!
//! Source: RFC 9110, "HTTP Semantics", and RFC 9112, "HTTP/1.1".
#![tactic(auto)]

mod body;
mod cookies;
mod entity_tag;
mod field;
mod head;
pub mod laws;
mod named_lines;
mod passed;
mod response;

pub use body::EdgeBody;
pub use cookies::cookies_named;
pub use entity_tag::entity_tag_of;
pub use field::Field;
pub use head::{HeadFault, answer_head};
pub use named_lines::lines_named;
pub use passed::{has_passed, passed_edges};
pub use response::{refusal_of, response_of};
