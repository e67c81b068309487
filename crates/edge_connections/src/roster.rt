//! Every decision about connections and the threads that serve them: who may accept, when one more thread is
//! started, and when the work has ended.

ghost use Rattle.std.specs.Prelude.{◌≡◌, ◌↔◌, ◌<◌, not, None, Some, IsTrue, IsFalse, MatchBool, MatchOption};
ghost use Rattle.edge_connections.specs.Roster as spec;
ghost use Rattle.edge_connections.specs.Staff.{HasReserve, HasSpare, IsDue, Lacks, WantsThread};
ghost use Rattle.edge_connections.specs.declared.roster.Admission.TheVariants as admission;
ghost use Rattle.edge_connections.specs.declared.roster.AfterFailure.TheVariants as after;
ghost use Rattle.edge_connections.specs.declared.roster.ServeEnd.TheVariants as ended;
ghost use Rattle.edge_connections.specs.declared.roster.Work.TheVariants as kind;

use crate::accept::AcceptFault;
use crate::staff::Staff;

/// This many failed accepts in succession end a server.
pub(crate) const MAX_FAILED: u32 = 16;

// The longest pause after a failed accept, in milliseconds.
const MAX_PAUSE: u32 = 1_000;

/// How many clients a server serves.
#[derive(Clone, Copy, Debug, PartialEq, Eq)]
pub struct Capacity {
    /// How many threads accept and serve, and how many more go on with clients who waited.
    pub threads: u16,
    /// How many connections there may be that were accepted and haven't ended; at least one.
    pub connections: u32,
}

/// How a server ended.
#[derive(Clone, Copy, Debug, PartialEq, Eq)]
pub enum ServeEnd {
    /// As many connections as it was to serve were accepted, or it was stopped, and they have ended.
    Served,
    /// Accepts failed, sixteen in succession. One that lacked what open connections held isn't among these.
    AcceptsFailed,
}

/// Whether a thread may accept.
#[derive(Clone, Copy, Debug, PartialEq, Eq)]
pub enum Admission {
    /// It may, and its accept is counted.
    Accepts,
    /// Not now: as many others accept as there is room for connections, or an accept has failed just now.
    Waits,
    /// There is no room for any connection.
    IsFull,
    /// No more accepts are begun.
    IsOver,
}

/// What follows from a failed accept.
#[derive(Clone, Copy, Debug, PartialEq, Eq)]
pub enum AfterFailure {
    /// It was one failure too many: no more accepts are made.
    Ends,
    /// Nobody accepts until the thread has rested for so many milliseconds.
    Rests(u32),
    /// The same, and first a connection is ended that waits for its client, since it holds what the accept lacked. It
    /// doesn't count.
    GivesBack(u32),
    /// It doesn't count: another thread rests because of the same one, or the server was stopped.
    Waits,
}

/// What a thread is started for.
#[derive(Clone, Copy, Debug, PartialEq, Eq)]
pub enum Work {
    /// To accept and to serve.
    Accepting,
    /// To go on with clients who waited.
    Resuming,
}

/// The state under the lock that serving threads share.
#[derive(Drop)]
pub struct Roster {
    // How many accepts nobody has begun yet, and how many have been begun and haven't ended.
    left: u64,
    begun: u32,
    // The failed accepts that count since the last that succeeded, each before a pause; how many milliseconds the next
    // pause takes; and whether one is under way.
    failed: u32,
    pause: u32,
    resting: bool,
    // Whether the server was stopped.
    stopped: bool,
    // How many connections were accepted and haven't ended, and how many there may be.
    held: u32,
    room: u32,
    accepting: Staff,
    resuming: Staff,
}

impl Roster {
    /// For this many accepts. The first thread is wanted.
    pub fn new(count: u64, capacity: Capacity) -> Roster
        ensures { result ≡ spec.opened count capacity }
    {
        Roster {
            left: count,
            begun: 0,
            failed: 0,
            pause: 1,
            resting: false,
            stopped: false,
            held: 0,
            room: capacity.connections.max(1),
            accepting: Staff::new(capacity.threads, true),
            resuming: Staff::new(capacity.threads, false),
        }
    }

    /// Lets a thread accept, if there is an accept left to make, no pause under way, and room for the connection. A
    /// thread that waits in an accept has already counted it: so nobody waits once all are made, nor is one more
    /// connection accepted than there is room for.
    pub(crate) fn may_accept(&mut self) -> Admission
        ensures over { ¬ (spec.IsOpen self.old) → (result ≡ admission.IsOver) × (self.new ≡ self.old) }
        ensures rests { spec.IsOpen self.old → IsTrue self.old.resting → (result ≡ admission.Waits) × (self.new ≡ self.old) }
        ensures accepts { spec.IsOpen self.old → IsFalse self.old.resting → spec.HasRoom self.old → (result ≡ admission.Accepts) × (self.new ≡ spec.begun self.old) }
        ensures full { spec.IsOpen self.old → IsFalse self.old.resting → ¬ (spec.HasRoom self.old) → self.old.begun ≡ 0 → (result ≡ admission.IsFull) × (self.new ≡ self.old) }
        ensures waits { spec.IsOpen self.old → IsFalse self.old.resting → ¬ (spec.HasRoom self.old) → 0 < self.old.begun → (result ≡ admission.Waits) × (self.new ≡ self.old) }
    {
        if !self.is_open() {
            return Admission::IsOver;
        }
        if self.resting {
            return Admission::Waits;
        }
        if !self.has_room() {
            return if self.begun == 0 {
                Admission::IsFull
            } else {
                Admission::Waits
            };
        }
        self.left -= 1;
        self.begun = self.begun.saturating_add(1);
        Admission::Accepts
    }

    /// A thread has accepted a connection, and serves it from now on. Returns true if one more thread is wanted
    /// because of it.
    pub(crate) fn accepted(&mut self) -> bool
        ensures { MatchBool result
            (WantsThread (spec.succeeded self.old).accepting × (self.new ≡ spec.asked_to_accept (spec.succeeded self.old)))
            (¬ (WantsThread (spec.succeeded self.old).accepting) × (self.new ≡ spec.succeeded self.old)) }
    {
        self.failed = 0;
        self.pause = 1;
        self.begun = self.begun.saturating_sub(1);
        self.held = self.held.saturating_add(1);
        self.accepting.begins();
        self.accepting.ask()
    }

    /// The thread accepts again.
    pub(crate) fn served(&mut self)
        ensures { self.new ≡ spec.has_served self.old }
    {
        self.accepting.ends();
    }

    /// A connection is parked. Returns true if one more thread is wanted that may go on with it.
    pub(crate) fn parked(&mut self) -> bool
        ensures { MatchBool result
            (WantsThread self.old.resuming × (self.new ≡ spec.asked_to_resume self.old))
            (¬ (WantsThread self.old.resuming) × (self.new ≡ self.old)) }
    {
        self.resuming.ask()
    }

    /// A thread goes on with a connection that was parked. Returns true if one more thread is wanted because of it.
    pub(crate) fn resumed(&mut self) -> bool
        ensures { MatchBool result
            (WantsThread (spec.resumed self.old).resuming × (self.new ≡ spec.asked_to_resume (spec.resumed self.old)))
            (¬ (WantsThread (spec.resumed self.old).resuming) × (self.new ≡ spec.resumed self.old)) }
    {
        self.resuming.begins();
        self.resuming.ask()
    }

    /// The thread waits for the next one.
    pub(crate) fn rested(&mut self)
        ensures { self.new ≡ spec.rested self.old }
    {
        self.resuming.ends();
    }

    /// A connection has ended.
    pub(crate) fn ended(&mut self)
        ensures { self.new ≡ spec.let_go self.old }
    {
        self.held = self.held.saturating_sub(1);
    }

    /// An accept has failed, and is still to be made. A pause follows where none is under way, since what fails several
    /// threads at once is one failure, and the server wasn't stopped, which ends accepts. It counts unless open connections
    /// hold what it lacked: so however often that happens, it never ends a server.
    pub(crate) fn accept_failed(&mut self, fault: AcceptFault) -> AfterFailure
        ensures again { IsTrue (spec.is_no_failure self.old) → (result ≡ after.Waits) × (self.new ≡ spec.given_back self.old) }
        ensures held { IsFalse (spec.is_no_failure self.old) → spec.IsHeld self.old fault → (result ≡ after.GivesBack self.old.pause) × (self.new ≡ spec.paused self.old) }
        ensures counts { IsFalse (spec.is_no_failure self.old) → ¬ (spec.IsHeld self.old fault) → self.new ≡ spec.failed_once self.old }
        ensures ends { IsFalse (spec.is_no_failure self.old) → ¬ (spec.IsHeld self.old fault) → spec.HasFailed self.new → result ≡ after.Ends }
        ensures rests { IsFalse (spec.is_no_failure self.old) → ¬ (spec.IsHeld self.old fault) → ¬ (spec.HasFailed self.new) → result ≡ after.Rests self.old.pause }
        ensures lives { spec.IsHeld self.old fault → spec.HasFailed self.new → spec.HasFailed self.old }
    {
        self.left = self.left.saturating_add(1);
        self.begun = self.begun.saturating_sub(1);
        if self.resting || self.stopped {
            return AfterFailure::Waits;
        }
        let pause = self.pause;
        self.pause = pause.saturating_mul(2).min(MAX_PAUSE);
        self.resting = true;
        if self.is_held(fault) {
            return AfterFailure::GivesBack(pause);
        }
        self.failed = self.failed.saturating_add(1);
        if self.has_failed() {
            AfterFailure::Ends
        } else {
            AfterFailure::Rests(pause)
        }
    }

    /// The server is stopped: no more accepts are begun. Returns whether it wasn't stopped before.
    pub(crate) fn stop(&mut self) -> bool
        ensures stopped { self.new ≡ spec.stopped self.old }
        ensures first { result ≡ not self.old.stopped }
    {
        let is_first = !self.stopped;
        self.stopped = true;
        is_first
    }

    /// The pause is over.
    pub(crate) fn accepts_again(&mut self)
        ensures { self.new ≡ spec.after_pause self.old }
    {
        self.resting = false;
    }

    /// Counts one more thread, if one is to be started at this millisecond, and says for what.
    pub(crate) fn take_wanted(&mut self, now: u64) -> Option<Work>
        ensures accepting { IsDue self.old.accepting now → (result ≡ Some kind.Accepting) × (self.new ≡ spec.counted_to_accept self.old) }
        ensures resuming { ¬ (IsDue self.old.accepting now) → IsDue self.old.resuming now → (result ≡ Some kind.Resuming) × (self.new ≡ spec.counted_to_resume self.old) }
        ensures none { ¬ (IsDue self.old.accepting now) → ¬ (IsDue self.old.resuming now) → (result ≡ None) × (self.new ≡ self.old) }
    {
        if self.accepting.take_wanted(now) {
            Some(Work::Accepting)
        } else if self.resuming.take_wanted(now) {
            Some(Work::Resuming)
        } else {
            None
        }
    }

    /// A thread for this work could not be started at this millisecond. It is wanted again once a pause is over.
    pub(crate) fn not_started(&mut self, work: Work, now: u64)
        ensures accepting { work ≡ kind.Accepting → self.new ≡ spec.not_accepting self.old now }
        ensures resuming { work ≡ kind.Resuming → self.new ≡ spec.not_resuming self.old now }
    {
        match work {
            Work::Accepting => self.accepting.not_started(now),
            Work::Resuming => self.resuming.not_started(now),
        }
    }

    /// Whether there is this work to be done, and no thread for it.
    pub(crate) fn lacks(&self, work: Work) -> bool
        ensures accepting { work ≡ kind.Accepting → IsTrue result ↔ spec.LacksAccepting self.now }
        ensures resuming { work ≡ kind.Resuming → IsTrue result ↔ Lacks self.now.resuming }
    {
        match work {
            Work::Accepting => self.is_open() && self.accepting.lacks(),
            Work::Resuming => self.resuming.lacks(),
        }
    }

    /// Whether a thread that serves may wait a moment for its client: not all threads that there may be are serving.
    pub(crate) fn may_wait(&self) -> bool
        ensures { IsTrue result ↔ HasSpare self.now.accepting }
    {
        self.accepting.has_spare()
    }

    /// Whether a thread that does this work may wait for what is fetched for a page: there are threads for it in reserve.
    pub(crate) fn may_linger(&self, work: Work) -> bool
        ensures accepting { work ≡ kind.Accepting → IsTrue result ↔ HasReserve self.now.accepting }
        ensures resuming { work ≡ kind.Resuming → IsTrue result ↔ HasReserve self.now.resuming }
    {
        match work {
            Work::Accepting => self.accepting.has_reserve(),
            Work::Resuming => self.resuming.has_reserve(),
        }
    }

    /// Whether no more accepts are begun.
    pub(crate) fn is_over(&self) -> bool
        ensures { IsTrue result ↔ ¬ (spec.IsOpen self.now) }
    {
        !self.is_open()
    }

    /// Whether no accept is under way, and each connection has ended.
    pub(crate) fn is_empty(&self) -> bool
        ensures { IsTrue result ↔ spec.IsEmpty self.now }
    {
        self.begun == 0 && self.held == 0
    }

    /// Whether nothing is left to be done.
    pub(crate) fn is_done(&self) -> bool
        ensures { IsTrue result ↔ spec.IsDone self.now }
    {
        self.is_over() && self.is_empty()
    }

    /// How the server ends, once nobody is accepted any longer.
    pub(crate) fn ending(&self) -> Option<ServeEnd>
        ensures { MatchOption result
            (¬ (spec.IsClosed self.now))
            (λ end. spec.IsClosed self.now × ((end ≡ ended.AcceptsFailed) ↔ spec.HasFailed self.now)) }
    {
        if self.is_over() && self.begun == 0 {
            Some(self.end())
        } else {
            None
        }
    }

    /// How the server has ended.
    pub(crate) fn end(&self) -> ServeEnd
        ensures { (result ≡ ended.AcceptsFailed) ↔ spec.HasFailed self.now }
    {
        if self.has_failed() {
            ServeEnd::AcceptsFailed
        } else {
            ServeEnd::Served
        }
    }

    fn is_open(&self) -> bool
        ensures { IsTrue result ↔ spec.IsOpen self.now }
    {
        0 < self.left && self.failed < MAX_FAILED && !self.stopped
    }

    fn has_room(&self) -> bool
        ensures { IsTrue result ↔ spec.HasRoom self.now }
    {
        u64::from(self.held) + u64::from(self.begun) < u64::from(self.room)
    }

    // Whether an accept failed for want of what open connections hold.
    fn is_held(&self, fault: AcceptFault) -> bool
        ensures { IsTrue result ↔ spec.IsHeld self.now fault }
    {
        fault == AcceptFault::Exhausted && 0 < self.held
    }

    fn has_failed(&self) -> bool
        ensures { IsTrue result ↔ spec.HasFailed self.now }
    {
        MAX_FAILED <= self.failed
    }
}
