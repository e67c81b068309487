//! The timers of the operator's connections.

use hyper::rt::Timer;
use std::alloc::AllocError;
use std::time::{Clock, Instant, SystemTime};
use tokio::time::{Handle, Sleep};

/// The clock of the field `date` (RFC 9110, "Date"), and of how long a head may take.
#[derive(Clone, Drop)]
pub(crate) struct OperatorTimer<R> {
    clock: R,
    timers: Handle,
}

impl<R> OperatorTimer<R> {
    pub(crate) fn new(clock: R, timers: Handle) -> OperatorTimer<R> {
        OperatorTimer { clock, timers }
    }
}

impl<R: Clock + Clone + Drop> Timer for OperatorTimer<R> {
    fn now(&self) -> Option<Instant> {
        Instant::now(&self.clock).ok()
    }

    fn system_time(&self) -> Option<SystemTime> {
        SystemTime::now(&self.clock).ok()
    }

    fn sleep_until(&self, deadline: Instant) -> Result<Option<Sleep>, AllocError> {
        Ok(Some(self.timers.sleep_until(deadline)?))
    }
}
