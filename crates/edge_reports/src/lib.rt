//! What a server reports of requests, of connections and of the cache that pages are assembled from: in the log, and to its
//! operator; and the end of standard input, by which it may be stopped.
#![tactic(auto)]

mod connections;
mod end_of_input;
mod kept;
mod measures;
mod memory;
mod readiness;
mod reports;
mod requests_log;

pub use connections::Connections;
pub use end_of_input::EndOfInput;
pub use kept::{Kept, MonotonicSeconds};
pub use measures::Measures;
pub use reports::Reports;
pub use requests_log::AccessLog;
