//! What of a server's last minutes is drawn.

ghost use Rattle.std.specs.Prelude.{◌≡◌};
ghost use Rattle.edge_metrics.specs.Page as spec;

use crate::history::Sample;

/// A number of each sample, drawn as a chart.
#[derive(Clone, Copy, Debug, Drop, PartialEq, Eq)]
pub(crate) enum Series {
    Requests,
    Hits,
    Slowest,
}

impl Series {
    /// The number of a sample.
    pub(crate) fn value_in(self, sample: &Sample) -> u64
        ensures { result ≡ spec.value_in self sample.now }
    {
        match self {
            Series::Requests => sample.requests,
            Series::Hits => sample.hits,
            Series::Slowest => sample.slowest,
        }
    }

    /// The largest number of some samples, 0 of none.
    pub(crate) fn largest(self, samples: &[Sample]) -> u64
        ensures { result ≡ spec.largest self samples.now }
    {
        let mut largest = 0_u64;
        for sample in samples {
            largest = largest.max(self.value_in(sample));
        }
        largest
    }

    /// What the numbers are.
    pub(crate) fn title(self) -> &'static [u8]
        ensures { result.now ≡ spec.title self }
    {
        match self {
            Series::Requests => b"Requests",
            Series::Hits => b"Hits of the cache",
            Series::Slowest => b"Slowest request",
        }
    }

    /// What is counted, behind a number.
    pub(crate) fn unit(self) -> &'static [u8]
        ensures { result.now ≡ spec.unit self }
    {
        match self {
            Series::Requests | Series::Hits => b" in ten seconds",
            Series::Slowest => b" microseconds",
        }
    }
}
