//! The threads that do one kind of work.

ghost use Rattle.std.specs.Prelude.{◌≡◌, ◌↔◌, false, true, IsTrue, MatchBool};
ghost use Rattle.edge_connections.specs.Staff as spec;

// For how many milliseconds no thread is started after one couldn't be.
const PAUSE: u64 = 1_000;

/// How many threads do one kind of work, and whether one more is to be started.
#[derive(Clone, Copy)]
pub(crate) struct Staff {
    // How many threads there are, how many there may be, and how many of them are at work.
    threads: u16,
    most: u16,
    busy: u16,
    // One more thread is to be started.
    wanted: bool,
    // In which millisecond the last one couldn't be started.
    failed_at: Option<u64>,
}

impl Staff {
    /// Nobody, of whom there may be this many.
    pub(crate) fn new(most: u16, wanted: bool) -> Staff
        ensures { result ≡ spec.nobody most wanted }
    {
        Staff {
            threads: 0,
            most,
            busy: 0,
            wanted,
            failed_at: None,
        }
    }

    /// A thread is at work from now on.
    pub(crate) fn begins(&mut self)
        ensures { self.new ≡ spec.begun self.old }
    {
        self.busy = self.busy.saturating_add(1);
    }

    /// A thread has done its work.
    pub(crate) fn ends(&mut self)
        ensures { self.new ≡ spec.ended self.old }
    {
        self.busy = self.busy.saturating_sub(1);
    }

    /// Asks for one more thread, if one is wanted. Returns whether one is.
    pub(crate) fn ask(&mut self) -> bool
        ensures { MatchBool result
            (spec.WantsThread self.old × (self.new ≡ record self.old { wanted = true }))
            (¬ (spec.WantsThread self.old) × (self.new ≡ self.old)) }
    {
        if !self.wants_thread() {
            return false;
        }
        self.wanted = true;
        true
    }

    /// Counts one more thread, exactly if one was asked for and no pause after a failed start is under way.
    pub(crate) fn take_wanted(&mut self, now: u64) -> bool
        ensures { MatchBool result
            (spec.IsDue self.old now × (self.new ≡ spec.counted self.old))
            (¬ (spec.IsDue self.old now) × (self.new ≡ self.old)) }
    {
        if !self.is_due(now) {
            return false;
        }
        self.wanted = false;
        self.threads = self.threads.saturating_add(1);
        self.failed_at = None;
        true
    }

    /// A thread that was counted could not be started: it is wanted again once a pause is over.
    pub(crate) fn not_started(&mut self, now: u64)
        ensures { self.new ≡ spec.uncounted self.old now }
    {
        self.wanted = true;
        self.threads = self.threads.saturating_sub(1);
        self.failed_at = Some(now);
    }

    /// Whether there is no thread, and one is wanted.
    pub(crate) fn lacks(&self) -> bool
        ensures { IsTrue result ↔ spec.Lacks self.now }
    {
        self.wanted && self.threads == 0
    }

    /// Whether not all threads that there may be are at work.
    pub(crate) fn has_spare(&self) -> bool
        ensures { IsTrue result ↔ spec.HasSpare self.now }
    {
        self.busy < self.most
    }

    /// Whether fewer than three quarters of the threads that there may be are at work.
    pub(crate) fn has_reserve(&self) -> bool
        ensures { IsTrue result ↔ spec.HasReserve self.now }
    {
        u32::from(self.busy) * 4 < u32::from(self.most) * 3
    }

    fn is_due(&self, now: u64) -> bool
        ensures { IsTrue result ↔ spec.IsDue self.now now }
    {
        let has_rested = match self.failed_at {
            Some(at) => PAUSE <= now.saturating_sub(at),
            None => true,
        };
        self.wanted && has_rested
    }

    fn wants_thread(&self) -> bool
        ensures { IsTrue result ↔ spec.WantsThread self.now }
    {
        !self.wanted && self.threads <= self.busy && self.threads < self.most
    }
}
