//! What sockets that don't block wait for, and who waits: readiness, deadlines, pollers and their bells.
#![tactic(auto)]

mod bell;
mod clock;
mod deadline;
mod poller;
mod readiness;

pub use bell::Bell;
pub use clock::millis;
pub use deadline::Deadline;
pub use poller::{IdlePollers, Poller, Watched};
pub use readiness::{Readiness, was_interrupted, would_block};
