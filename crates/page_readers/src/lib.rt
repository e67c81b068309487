//! What a page is to its reader: who he is behind a proxy, what origins are told of him, what he has already, which pages
//! are for him alone, and how long he waits.
#![tactic(auto)]

mod forwarded;
mod page_time;
mod privacy;
mod readers_fields;
mod validators;

pub use forwarded::client_of;
pub use page_time::{FetchesInTime, WithinTime};
pub use privacy::for_its_reader;
pub use readers_fields::own_fields;
pub use validators::validated;
