//! What a server counts of the requests that it has answered, of its connections, of its cache and of its fetches, the
//! text in which a monitoring system reads it, and a page that shows the last minutes of it.
#![tactic(auto)]

mod cache_text;
mod chart;
mod connection_counts;
mod connection_text;
mod counts;
mod durations;
mod escape;
mod fetch_text;
mod history;
mod lines;
mod measured;
mod memory;
mod page;
mod process_text;
mod series;
mod statuses;
mod text;

pub use connection_counts::ConnectionCounts;
pub use counts::Counts;
pub use durations::Durations;
pub use history::{History, Sample};
pub use measured::Measured;
pub use memory::resident_of;
pub use page::page_of;
pub use statuses::Statuses;
pub use text::text_of;
