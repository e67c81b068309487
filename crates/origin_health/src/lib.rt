//! When an origin may be asked: how many fetches may be in flight to it, and for how long it rests once it has
//! failed.
#![tactic(auto)]

mod health;
pub mod laws;
mod standing;

pub use health::{Bounds, Leave, OriginHealth, Permit};
pub use standing::{FetchEnd, MAX_FAILURES, TRIAL_MILLIS};
