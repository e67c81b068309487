//! Whether an origin is asked, rests, or is tried after its rest.

ghost use Rattle.std.specs.Prelude.{◌≡◌};
ghost use Rattle.origin_health.specs.Standing as spec;

/// After this many fetches in succession that didn't reach it, an origin rests.
pub const MAX_FAILURES: u32 = 5;

/// For so many milliseconds after a trial is let through no further one is: an origin that is there has taken a
/// connection by then, and one trial that waits for longer keeps nobody from it.
pub const TRIAL_MILLIS: u64 = 200;

/// How a fetch ended.
#[derive(Clone, Copy, Debug, PartialEq, Eq)]
pub enum FetchEnd {
    /// A connection to the origin was made, whatever came over it.
    Reached,
    /// The connection was refused, nothing leads to the origin, or the time was up before the connection was made.
    Unreachable,
    /// In another way, which says nothing of whether the origin can be reached: memory or descriptors ran out on
    /// our side, or the fetch was given up.
    Other,
}

/// What is known of an origin. Milliseconds are those of the caller's clock.
#[derive(Clone, Copy, Debug, PartialEq, Eq)]
pub(crate) enum Standing {
    /// It is asked, and this many fetches in succession haven't reached it.
    Asked(u32),
    /// It has rested since this millisecond.
    Rests(u64),
    /// It has rested, and since this millisecond the latest trial tries whether it can be reached.
    Tried(u64),
}

impl Standing {
    /// Whether no fetch is let through now, with a rest of this many milliseconds.
    pub(crate) fn is_resting(self, rest: u64, now: u64) -> bool
        ensures { result ≡ spec.is_resting rest self now }
    {
        match self {
            Standing::Asked(_) => false,
            Standing::Rests(since) => now.saturating_sub(since) < rest,
            Standing::Tried(since) => now.saturating_sub(since) < TRIAL_MILLIS,
        }
    }

    /// Whether the next fetch that is let through is a trial.
    pub(crate) fn has_rested(self) -> bool
        ensures { result ≡ spec.has_rested self }
    {
        match self {
            Standing::Asked(_) => false,
            Standing::Rests(_) | Standing::Tried(_) => true,
        }
    }

    /// Once a fetch is let through.
    pub(crate) fn let_through(self, now: u64) -> Standing
        ensures { result ≡ spec.let_through self now }
    {
        match self {
            Standing::Asked(_) => self,
            Standing::Rests(_) | Standing::Tried(_) => Standing::Tried(now),
        }
    }

    /// Once a fetch, or a trial, has ended like that.
    pub(crate) fn after(self, rest: u64, is_trial: bool, end: FetchEnd, now: u64) -> Standing
        ensures { result ≡ spec.after rest self is_trial end now }
    {
        match end {
            FetchEnd::Reached => Standing::Asked(0),
            FetchEnd::Unreachable => self.after_failure(rest, is_trial, now),
            FetchEnd::Other => self,
        }
    }

    // A fetch that was let through before the rest, and fails only now, neither begins a rest nor makes it longer; nor
    // does a trial once another one has failed.
    fn after_failure(self, rest: u64, is_trial: bool, now: u64) -> Standing
        ensures { result ≡ spec.after_failure rest self is_trial now }
    {
        match self {
            Standing::Asked(failures) => one_more_failure(failures, rest, now),
            Standing::Rests(_) => self,
            Standing::Tried(_) => { if is_trial { Standing::Rests(now) } else { self } }
        }
    }
}

fn one_more_failure(failures: u32, rest: u64, now: u64) -> Standing
    ensures { result ≡ spec.one_more_failure failures rest now }
{
    if rest == 0 {
        Standing::Asked(failures)
    } else if failures < MAX_FAILURES - 1 {
        Standing::Asked(failures + 1)
    } else {
        Standing::Rests(now)
    }
}
