//! The machine's clock, in milliseconds.

use std::time::Clock;

/// The machine's monotonic clock, in milliseconds: nobody sets it, as they may set that of the day. 0 where it can't be
/// read.
pub fn millis<R: Clock>(rt: &R) -> u64 {
    match rt.monotonic() {
        Ok(time) => u64::try_from(time.as_millis()).unwrap_or(u64::MAX),
        Err(_) => 0,
    }
}
