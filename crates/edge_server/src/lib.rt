//! A server of pages over HTTP: each connection is served one request, or one after another, by threads that hold none
//! while it waits. Who implements `PageService` makes the pages.
//!
//! Source: RFC 9112, "HTTP/1.1".
#![tactic(auto)]

mod connections;
mod faults;
mod journal;
mod page_service;
mod server;
mod serving;
mod threads;
mod turn;

pub use access_log::RequestRecord;
pub use journal::{Journal, NoJournal};
pub use page_service::{Begun, Gone, PageService, Responded, Told};
pub use serving::serve_io;
pub use threads::serve_accepts;
