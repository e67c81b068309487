//! What the programs share whose allocations are made to fail: what is printed of a call, and the values that
//! calls are given.
#![tactic(auto)]

pub mod printing;
pub mod values;
