//! Until when a fetch has to end.

use std::io;
use std::io::ErrorKind;
use std::time::{Clock, Duration, Instant};

/// When a fetch has to end, connecting included; or that it may take as long as it likes.
#[derive(Clone, Copy, Drop)]
pub struct Deadline {
    at: Option<Instant>,
}

impl Deadline {
    /// The end of a fetch that begins now, and may take this long.
    pub fn after(clock: &impl Clock, limit: Option<Duration>) -> io::Result<Deadline> {
        let Some(limit) = limit else {
            return Ok(Deadline { at: None });
        };
        match Instant::now(clock)?.checked_add(limit) {
            Some(at) => Ok(Deadline { at: Some(at) }),
            None => Err(ErrorKind::InvalidInput.into()),
        }
    }

    /// Until when a fetch that is asked for now, and may take this long, may wait at a gate: half of the time is left for
    /// the fetch itself. Where more is asked for than an origin can answer, those who wait are let through as late as they
    /// may be; with all of the time none of them would be answered.
    pub fn of_wait(clock: &impl Clock, limit: Option<Duration>) -> io::Result<Deadline> {
        match limit {
            Some(limit) => Deadline::after(clock, Some(half_of(limit))),
            None => Ok(Deadline::never()),
        }
    }

    /// A fetch that may take as long as it likes.
    pub fn never() -> Deadline {
        Deadline { at: None }
    }

    /// When it is over; `None` means never.
    pub fn instant(self) -> Option<Instant> {
        self.at
    }

    /// The earlier of two.
    pub fn or_earlier(self, other: Deadline) -> Deadline {
        match (self.at, other.at) {
            (Some(one), Some(another)) if another < one => other,
            (None, Some(_)) => other,
            _ => self,
        }
    }

    /// Whether no time is left.
    pub fn is_over(self, now: Instant) -> bool {
        match self.at {
            Some(at) => at <= now,
            None => false,
        }
    }

    /// The time that is left, in milliseconds, rounded up: 0 past the deadline, below 0 if there is none.
    pub fn millis_left(&self, clock: &impl Clock) -> i32 {
        match self.left(clock) {
            Ok(None) => -1,
            Ok(Some(left)) => {
                i32::try_from(left.as_nanos().div_ceil(1_000_000)).unwrap_or(i32::MAX)
            }
            Err(_) => 0,
        }
    }

    /// The time that is left, which is more than zero; `None` if there is no deadline.
    pub fn left(&self, clock: &impl Clock) -> io::Result<Option<Duration>> {
        let Some(at) = self.at else {
            return Ok(None);
        };
        let left = at.duration_since(Instant::now(clock)?);
        if left.is_zero() {
            return Err(ErrorKind::TimedOut.into());
        }
        Ok(Some(left))
    }
}

// Half as long, in whole milliseconds.
fn half_of(limit: Duration) -> Duration {
    Duration::from_millis(u64::try_from(limit.as_millis() / 2).unwrap_or(u64::MAX))
}
