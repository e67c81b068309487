//! The standings of origins, shared by those who ask them and by whoever looks their names up.

use crate::standings::Standings;
use std::net::SocketAddr;
use std::sync::{Condvar, CondvarTimeouts, Mutex, Wait};
use std::time::{Clock, Duration};

/// The standings of origins under a lock. Nothing is looked up or fetched under it.
#[derive(Drop)]
pub struct SharedStandings {
    state: Mutex<State>,
    // An origin was lost, or nothing is to be looked up any longer.
    lost: Condvar,
    // Nothing is to be looked up any longer.
    closed: Condvar,
}

#[derive(Drop)]
struct State {
    standings: Standings,
    is_closed: bool,
}

impl SharedStandings {
    /// These standings, under a lock.
    pub fn new(standings: Standings) -> SharedStandings {
        let state = State {
            standings,
            is_closed: false,
        };
        SharedStandings {
            state: Mutex::new(state),
            lost: Condvar::new(),
            closed: Condvar::new(),
        }
    }

    /// Where the origin at this place listens now; none if there is no such origin.
    pub fn address_at<R: Wait>(&self, rt: &R, place: usize) -> Option<SocketAddr> {
        self.state.lock(rt).standings.address_at(place)
    }

    /// A connection to the origin at this place couldn't be made.
    pub fn lose<R: Wait>(&self, rt: &R, place: usize) {
        self.state.lock(rt).standings.lose(place);
        self.lost.notify_all();
    }

    /// Whether the origin at this place can't be reached.
    pub fn is_lost<R: Wait>(&self, rt: &R, place: usize) -> bool {
        self.state.lock(rt).standings.is_lost(place)
    }

    /// The name of the origin at this place was looked up, and the system knew this address, or none.
    pub fn looked_up<R: Wait>(&self, rt: &R, place: usize, found: Option<SocketAddr>) {
        self.state.lock(rt).standings.looked_up(place, found);
    }

    /// Waits until some origin can't be reached; `false` once nothing is to be looked up any longer.
    pub fn waits_for_lost<R: Wait>(&self, rt: &R) -> bool {
        let mut state = self.state.lock(rt);
        for _ in rt.forever() {
            if state.is_closed {
                return false;
            }
            if state.standings.has_lost() {
                return true;
            }
            state = self.lost.wait(rt, state);
        }
        unreachable!()
    }

    /// Waits so long, or until nothing is to be looked up any longer.
    pub fn rest<R: Wait + Clock>(&self, rt: &R, time: Duration) {
        let state = self.state.lock(rt);
        let goes_on = |state: &mut State| !state.is_closed;
        let _ = self.closed.wait_timeout_while(rt, state, time, goes_on).0;
    }

    /// Nothing is to be looked up any longer: whoever waits for that goes on.
    pub fn close<R: Wait>(&self, rt: &R) {
        self.state.lock(rt).is_closed = true;
        self.lost.notify_all();
        self.closed.notify_all();
    }
}
