//! In what order fetches to an origin get its permits, where more are asked for than it has.
#![tactic(auto)]

pub mod laws;
mod queue;

pub use queue::{OriginQueue, Place, QueueBounds, Ruling};
