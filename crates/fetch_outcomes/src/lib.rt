//! How fetches from origins end.
#![tactic(auto)]

mod fetch_fault;
mod fetch_tally;
mod lost;
mod origin_tally;

pub use fetch_fault::FetchFault;
pub use fetch_tally::FetchTally;
pub use lost::Lost;
pub use origin_tally::OriginTally;
