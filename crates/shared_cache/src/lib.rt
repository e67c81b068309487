//! A cache that all pages share: a `Cache` is a source that keeps what another one gives.
#![tactic(auto)]

mod cache;
mod cache_flights;
pub mod laws;
mod placing;
mod plan_shelves;
mod shards;
mod shared_shard;
mod upkeep;

pub use cache::{Cache, SHARDS};
pub use cache_flights::CacheFlights;
