//! The log of a server: a line for each request, in one of three formats, and the queue in which lines wait until
//! standard error takes them.
#![tactic(auto)]

mod clock;
mod escape;
mod format;
mod line;
mod parts;
mod queue;
mod record;
mod text;

pub use clock::date_of;
pub use format::LogFormat;
pub use line::{line_of, report_of};
pub use queue::LineQueue;
pub use record::{Fault, Reason, RequestRecord, Version};
pub use text::LogLine;
