//! A shard of the fragment cache: equal requests meet at one fetch, stored fragments are served
//! until they expire, and a failing origin is bridged for as long as the stored answer allows.
#![tactic(auto)]

mod entries;
mod flight_state;
mod flights;
mod hashing;
pub mod laws;
mod numbered_flights;
mod shard;
mod tally;
mod times;

pub use flight_state::MAX_PICKS;
pub use flights::{Flight, MAX_FLIGHTS, Picked};
pub use hashing::UrlHashing;
pub use shard::{Begun, MAX_CAPACITY, Shard};
pub use tally::CacheTally;
pub use times::{is_failing, is_to_be_stored};
