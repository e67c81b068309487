//! How long requests took.

ghost use Rattle.std.specs.Prelude.{◌≡◌};
ghost use Rattle.edge_metrics.specs.Counts as spec;

use crate::counts::one_more_if;

/// How many requests took no longer than each of some bounds, and how long all took.
///
/// Our profile.
#[derive(Clone, Copy, Debug, Drop, PartialEq, Eq)]
pub struct Durations {
    /// How many took a millisecond at most.
    pub millis_1: u64,
    /// How many took five milliseconds at most.
    pub millis_5: u64,
    /// How many took 10 milliseconds at most.
    pub millis_10: u64,
    /// How many took 50 milliseconds at most.
    pub millis_50: u64,
    /// How many took 100 milliseconds at most.
    pub millis_100: u64,
    /// How many took 500 milliseconds at most.
    pub millis_500: u64,
    /// How many took 1,000 milliseconds at most.
    pub millis_1000: u64,
    /// How many took 5,000 milliseconds at most.
    pub millis_5000: u64,
    /// How many took 10,000 milliseconds at most.
    pub millis_10000: u64,
    /// How many there were.
    pub all: u64,
    /// How many microseconds they took together.
    pub micros: u64,
}

impl Durations {
    pub(crate) fn new() -> Durations
        ensures { result ≡ spec.no_durations }
    {
        Durations {
            millis_1: 0,
            millis_5: 0,
            millis_10: 0,
            millis_50: 0,
            millis_100: 0,
            millis_500: 0,
            millis_1000: 0,
            millis_5000: 0,
            millis_10000: 0,
            all: 0,
            micros: 0,
        }
    }

    /// Counts a request that took so many microseconds.
    pub(crate) fn count(&mut self, micros: u64)
        ensures { self.new ≡ spec.counted_duration micros self.old }
    {
        *self = Durations {
            millis_1: one_more_if(micros <= 1_000, self.millis_1),
            millis_5: one_more_if(micros <= 5_000, self.millis_5),
            millis_10: one_more_if(micros <= 10_000, self.millis_10),
            millis_50: one_more_if(micros <= 50_000, self.millis_50),
            millis_100: one_more_if(micros <= 100_000, self.millis_100),
            millis_500: one_more_if(micros <= 500_000, self.millis_500),
            millis_1000: one_more_if(micros <= 1_000_000, self.millis_1000),
            millis_5000: one_more_if(micros <= 5_000_000, self.millis_5000),
            millis_10000: one_more_if(micros <= 10_000_000, self.millis_10000),
            all: self.all.saturating_add(1),
            micros: self.micros.saturating_add(micros),
        };
    }

    pub(crate) fn plus(&self, other: &Durations) -> Durations
        ensures { result ≡ spec.sum_of_durations self.now other.now }
    {
        Durations {
            millis_1: self.millis_1.saturating_add(other.millis_1),
            millis_5: self.millis_5.saturating_add(other.millis_5),
            millis_10: self.millis_10.saturating_add(other.millis_10),
            millis_50: self.millis_50.saturating_add(other.millis_50),
            millis_100: self.millis_100.saturating_add(other.millis_100),
            millis_500: self.millis_500.saturating_add(other.millis_500),
            millis_1000: self.millis_1000.saturating_add(other.millis_1000),
            millis_5000: self.millis_5000.saturating_add(other.millis_5000),
            millis_10000: self.millis_10000.saturating_add(other.millis_10000),
            all: self.all.saturating_add(other.all),
            micros: self.micros.saturating_add(other.micros),
        }
    }
}
