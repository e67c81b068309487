//! What a server counts.

ghost use Rattle.std.specs.Prelude.{◌≡◌};
ghost use Rattle.edge_metrics.specs.Counts as spec;

use crate::durations::Durations;
use crate::statuses::Statuses;
use std::mem;

/// What was counted of the requests that were answered. No number wraps: one that is the largest stays.
///
/// Our profile.
#[derive(Clone, Copy, Debug, Drop, PartialEq, Eq)]
pub struct Counts {
    /// How many there were, by their status.
    pub statuses: Statuses,
    /// How many bytes the bodies of their responses had.
    pub bytes: u64,
    /// How long they took.
    pub durations: Durations,
    /// How many microseconds the slowest took of those since that was last taken.
    pub slowest: u64,
}

impl Counts {
    /// Of no request.
    pub fn new() -> Counts
        ensures { result ≡ spec.nothing }
    {
        Counts {
            statuses: Statuses::new(),
            bytes: 0,
            durations: Durations::new(),
            slowest: 0,
        }
    }

    /// Counts a request that was answered with this status and a body of so many bytes, so many microseconds after its
    /// head had come.
    pub fn count(&mut self, status: u16, bytes: u64, micros: u64)
        ensures { self.new ≡ spec.counted status bytes micros self.old }
    {
        self.statuses.count(status);
        self.bytes = self.bytes.saturating_add(bytes);
        self.durations.count(micros);
        self.slowest = self.slowest.max(micros);
    }

    /// How many microseconds the slowest request took since this was last asked; 0 where there was none. The next slowest
    /// is sought anew.
    pub fn take_slowest(&mut self) -> u64
        ensures result { result ≡ self.old.slowest }
        ensures anew { self.new ≡ spec.anew self.old }
    {
        mem::take(&mut self.slowest)
    }

    /// What two have counted together.
    pub fn plus(&self, other: &Counts) -> Counts
        ensures { result ≡ spec.sum self.now other.now }
    {
        Counts {
            statuses: self.statuses.plus(&other.statuses),
            bytes: self.bytes.saturating_add(other.bytes),
            durations: self.durations.plus(&other.durations),
            slowest: self.slowest.max(other.slowest),
        }
    }
}

/// One more, where that is to be counted.
pub(crate) fn one_more_if(is_counted: bool, count: u64) -> u64
    ensures { result ≡ spec.one_more_if is_counted count }
{
    if is_counted {
        count.saturating_add(1)
    } else {
        count
    }
}
