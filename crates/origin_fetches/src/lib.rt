//! Fetches from origins that one page has in flight: each makes steps as its socket gets ready, or waits until its origin's
//! gate calls it.
#![tactic(auto)]

mod errand;
mod fetch;
mod in_flight;

pub use errand::Errand;
pub use fetch::{Attempt, Fetch, FetchStep};
pub use in_flight::{FetchesInFlight, Gated, HeldPermit, Queued};
