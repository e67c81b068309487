//! Futures that are kept among other values, with the fact that they may be polled.
#![tactic(auto)]

mod pollable;

pub use pollable::Pollable;
