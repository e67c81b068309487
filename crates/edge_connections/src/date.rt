//! When a response was made, by the clock of the day.

use hyper::rt::Timer;
use std::alloc::AllocError;
use std::time::{Clock, Instant, SystemTime};
use tokio::time::Sleep;

/// The clock of the field `date` (RFC 9110, "Date"). No limit of time rests on it.
#[derive(Clone, Drop)]
pub struct DateClock<R> {
    rt: R,
}

impl<R> DateClock<R> {
    /// By the clock of the day of this runtime.
    pub fn new(rt: R) -> DateClock<R> {
        DateClock { rt }
    }
}

impl<R: Clock + Clone + Drop> Timer for DateClock<R> {
    fn now(&self) -> Option<Instant> {
        None
    }

    fn system_time(&self) -> Option<SystemTime> {
        SystemTime::now(&self.rt).ok()
    }

    fn sleep_until(&self, _deadline: Instant) -> Result<Option<Sleep>, AllocError> {
        Ok(None)
    }
}
