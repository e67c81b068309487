//! A roster that threads share.

use crate::accept::{Accept, AcceptFault};
use crate::roster::{Admission, AfterFailure, Roster, ServeEnd, Work};
use std::sync::{Condvar, CondvarTimeouts, Mutex, Wait};
use std::time::{Clock, Duration};

// For how many milliseconds at most a thread waits before it looks again whether there is room for a connection, or
// whether the server is to stop.
const TICK_MILLIS: u64 = 100;

/// What whoever starts threads has waited for.
pub enum Wanted {
    /// One more thread is wanted, and counted.
    Thread(Work),
    /// There is no thread for some of the work, and none can be started yet.
    Hands,
    /// Nothing yet: a moment has passed.
    Nothing,
    /// No thread ever will be wanted.
    Nobody,
}

/// A roster under its lock. Nothing is accepted or served under it.
#[derive(Drop)]
pub struct SharedRoster {
    roster: Mutex<Roster>,
    // A thread is wanted, or the work is done.
    moved: Condvar,
    // There may be room for a connection.
    room: Condvar,
}

/// The work that a thread does, and the roster that counts it.
#[derive(Drop)]
pub struct Duty<'r> {
    /// Who counts the thread.
    pub roster: &'r SharedRoster,
    /// What it was started for.
    pub work: Work,
}

impl<'r> Duty<'r> {
    /// Whether a page may hold the thread while it waits for its fetches.
    pub fn may_linger(&self, rt: &impl Wait) -> bool {
        self.roster.roster.lock(rt).may_linger(self.work)
    }
}

impl SharedRoster {
    /// This one, under a lock.
    pub fn new(roster: Roster) -> SharedRoster {
        SharedRoster {
            roster: Mutex::new(roster),
            moved: Condvar::new(),
            room: Condvar::new(),
        }
    }

    /// Whether a thread may accept now. If so its accept is counted.
    pub fn may_accept(&self, rt: &impl Wait) -> Admission {
        self.roster.lock(rt).may_accept()
    }

    /// A thread serves what it has accepted. Tells the acceptor whether streams may block for a moment from now on, and so
    /// does `served`.
    pub fn accepted<R: Wait, A: Accept<R>>(&self, rt: &R, acceptor: &A) {
        let mut roster = self.roster.lock(rt);
        let is_wanted = roster.accepted();
        acceptor.set_may_wait(roster.may_wait());
        drop(roster);
        self.tell(is_wanted);
    }

    /// A thread that served what it had accepted accepts again.
    pub fn served<R: Wait, A: Accept<R>>(&self, rt: &R, acceptor: &A) {
        let mut roster = self.roster.lock(rt);
        roster.served();
        acceptor.set_may_wait(roster.may_wait());
    }

    /// An accept has failed, and is still to be made. Tells what follows.
    pub fn accept_failed(&self, rt: &impl Wait, fault: AcceptFault) -> AfterFailure {
        let mut roster = self.roster.lock(rt);
        let what_follows = roster.accept_failed(fault);
        let is_done = roster.is_done();
        drop(roster);
        self.tell(is_done);
        what_follows
    }

    /// The pause after a failed accept is over.
    pub fn accepts_again(&self, rt: &impl Wait) {
        self.roster.lock(rt).accepts_again();
        self.room.notify_all();
    }

    /// A connection, or what is fetched, was parked. If it is an idle connection, it may be what makes room.
    pub fn parked(&self, rt: &impl Wait) {
        let is_wanted = self.roster.lock(rt).parked();
        self.tell(is_wanted);
        self.room.notify_one();
    }

    /// A thread goes on with what was parked.
    pub fn resumed(&self, rt: &impl Wait) {
        let is_wanted = self.roster.lock(rt).resumed();
        self.tell(is_wanted);
    }

    /// It has done so, and waits for the next one.
    pub fn rested(&self, rt: &impl Wait) {
        self.roster.lock(rt).rested();
    }

    /// A connection has ended.
    pub fn ended(&self, rt: &impl Wait) {
        let mut roster = self.roster.lock(rt);
        roster.ended();
        let is_done = roster.is_done();
        drop(roster);
        self.tell(is_done);
        self.room.notify_one();
    }

    /// A thread for this work couldn't be started. It is wanted again once a pause is over.
    pub fn not_started<R: Wait + Clock>(&self, rt: &R, work: Work) {
        let now = millisecond(rt);
        self.roster.lock(rt).not_started(work, now);
    }

    /// Whether there is this work to be done, and no thread for it.
    pub fn lacks(&self, rt: &impl Wait, work: Work) -> bool {
        self.roster.lock(rt).lacks(work)
    }

    /// Whether nothing is left to be done.
    pub fn is_done(&self, rt: &impl Wait) -> bool {
        self.roster.lock(rt).is_done()
    }

    /// Waits until there may be room for a connection, or a moment has passed.
    pub fn wait_for_room<R: Wait + Clock>(&self, rt: &R) {
        let roster = self.roster.lock(rt);
        let _ = self.room.wait_timeout(rt, roster, tick());
    }

    /// Waits until one more thread is wanted, and counts it; or until none ever will be, or a moment has passed. Doesn't
    /// wait where whoever starts threads has work to do.
    pub fn wait_for_wanted<R: Wait + Clock>(&self, rt: &R) -> Wanted {
        let now = millisecond(rt);
        let mut roster = self.roster.lock(rt);
        if roster.is_done() {
            return Wanted::Nobody;
        }
        if let Some(work) = roster.take_wanted(now) {
            return Wanted::Thread(work);
        }
        if roster.lacks(Work::Accepting) || roster.lacks(Work::Resuming) {
            return Wanted::Hands;
        }
        let _ = self.moved.wait_timeout(rt, roster, tick());
        Wanted::Nothing
    }

    /// No more accepts are begun. Returns whether that is new.
    pub fn stop(&self, rt: &impl Wait) -> bool {
        let mut roster = self.roster.lock(rt);
        let is_first = roster.stop();
        drop(roster);
        self.room.notify_all();
        is_first
    }

    /// How the server ends, once nobody is accepted any longer.
    pub fn ending(&self, rt: &impl Wait) -> Option<ServeEnd> {
        self.roster.lock(rt).ending()
    }

    /// How the server has ended.
    pub fn end(&self, rt: &impl Wait) -> ServeEnd {
        self.roster.lock(rt).end()
    }

    // Wakes who starts threads, if there is a reason.
    fn tell(&self, has_moved: bool) {
        if has_moved {
            self.moved.notify_all();
        }
    }
}

fn tick() -> Duration {
    Duration::from_millis(TICK_MILLIS)
}

// The millisecond of the machine's monotonic clock; 0 where it can't be read, so that no pause ends before it can.
fn millisecond(clock: &impl Clock) -> u64 {
    match clock.monotonic() {
        Ok(since_start) => u64::try_from(since_start.as_millis()).unwrap_or(u64::MAX),
        Err(_) => 0,
    }
}
