//! What fetches to one origin ask before they begin, and tell when they have ended.

ghost use Rattle.std.specs.Prelude.{◌≡◌};
ghost use Rattle.origin_health.specs.Health as spec;

use crate::standing::{FetchEnd, Standing};

/// The bounds of the fetches to one origin.
#[derive(Clone, Copy, Debug, PartialEq, Eq)]
pub struct Bounds {
    /// How many fetches may be in flight; `None`: as many as there are.
    pub most_in_flight: Option<u32>,
    /// For how many milliseconds an origin rests once it has failed; 0: it never rests.
    pub rest: u64,
}

/// Leave to make one fetch. It can be neither copied nor dropped: `OriginHealth::ended` alone takes it, so each fetch
/// in flight is counted until it has ended.
#[must_use]
pub struct Permit {
    is_trial: bool,
}

/// Whether a fetch may be made. It can't be dropped, since a permit can't.
#[must_use]
pub enum Leave {
    /// It may, and counts as in flight until the permit is handed back.
    Granted(Permit),
    /// Not now: as many are in flight as may be.
    TooMany,
    /// Not now: the origin rests, or a trial after its rest has been under way for less than `TRIAL_MILLIS`.
    Rests,
}

/// The fetches in flight to one origin, and whether it can be reached.
///
/// ```text
///             five failures in succession
///     asked -------------------------------> rests <------+
///       ^                                      | over     | a trial fails
///       |        any connection is made        v          |
///       +----------------------------------- tried -------+
///                                            |   ^
///                                            +---+ 200 ms are over: a further trial
/// ```
///
/// Our profile.
#[derive(Debug, Drop)]
pub struct OriginHealth {
    bounds: Bounds,
    in_flight: u32,
    standing: Standing,
}

impl OriginHealth {
    /// Of an origin that nobody has asked yet.
    pub fn new(bounds: Bounds) -> OriginHealth
        ensures { result ≡ spec.fresh bounds }
    {
        OriginHealth {
            bounds,
            in_flight: 0,
            standing: Standing::Asked(0),
        }
    }

    /// Whether a fetch may be made at this millisecond of a clock that never goes back. Takes no memory.
    pub fn may_fetch(&mut self, now: u64) -> Leave
        ensures { spec.Asks self.old now result self.new }
    {
        if self.rests(now) {
            return Leave::Rests;
        }
        if !self.has_room() {
            return Leave::TooMany;
        }
        let is_trial = self.standing.has_rested();
        self.in_flight = self.in_flight.saturating_add(1);
        self.standing = self.standing.let_through(now);
        Leave::Granted(Permit { is_trial })
    }

    /// Whether a fetch that is asked for at this millisecond of the same clock fails because the origin rests.
    pub fn rests(&self, now: u64) -> bool
        ensures { result ≡ spec.rests_at self.now now }
    {
        self.standing.is_resting(self.bounds.rest, now)
    }

    /// A fetch has ended at this millisecond of the same clock. Takes no memory.
    pub fn ended(&mut self, permit: Permit, end: FetchEnd, now: u64)
        ensures { self.new ≡ spec.ended self.old permit end now }
    {
        let Permit { is_trial } = permit;
        self.in_flight = self.in_flight.saturating_sub(1);
        self.standing = self.standing.after(self.bounds.rest, is_trial, end, now);
    }

    fn has_room(&self) -> bool
        ensures { result ≡ spec.has_room self.now }
    {
        match self.bounds.most_in_flight {
            Some(most) => self.in_flight < most,
            None => true,
        }
    }
}
