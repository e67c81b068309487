//! Pages over HTTP, assembled from what a source answers, and a server of them.
//!
//! Source: RFC 9110, "HTTP Semantics".
#![tactic(auto)]

mod finishing;
mod reasons;
mod responding;
mod service;
mod serving;

pub use edge_server::{Journal, NoJournal, RequestRecord};
// For whoever serves. `hyper_source` isn't among these: a server needs no client of HTTP.
pub use page_http::{
    EdgeBody, Field, HeadFault, answer_head, has_passed, passed_edges, refusal_of, response_of,
};
pub use responding::respond;
pub use service::{EdgeService, MAX_PASSED};
pub use serving::{serve_accepts, serve_io};
