//! Where connections are whose clients let them wait.

ghost use Rattle.std.specs.Prelude.{◌≡◌, None, IfNone, IfSome, IsSomeAnd};
ghost use Rattle.slab.specs.Slab.{get};

use crate::set_aside::SetAside;
use crate::signals::{Pause, PausedBy};
use slab::Slab;
use std::alloc::Global;
use std::collections::BTreeSet;
use std::mem;
use std::sync::{Mutex, Wait};
use std::time::Instant;

/// What waits: a connection, or fetches.
#[derive(Drop)]
pub enum Waiting<C, F> {
    /// A connection, for its client, or for what is fetched for it.
    Connection(C),
    /// A connection whose client has asked for nothing that isn't answered.
    SetAside(SetAside),
    /// Fetches that are no connection's any longer.
    Fetches(F),
}

/// What waits, under a lock. Each is known by its key.
#[derive(Drop)]
pub struct ParkingPlace<T> {
    lot: Mutex<Lot<T>>,
}

impl<T: Drop> ParkingPlace<T> {
    /// An empty one.
    pub fn new(alloc: Global) -> ParkingPlace<T> {
        ParkingPlace {
            lot: Mutex::new(Lot::new(alloc)),
        }
    }

    /// Takes in what can't go on, once `watch` has its key told as soon as it can. It comes back where there is no room for
    /// it, or it can't be watched.
    pub fn park<W: FnOnce(usize) -> bool>(
        &self,
        rt: &impl Wait,
        session: T,
        pause: Pause,
        watch: W,
    ) -> Result<(), Option<T>>
        requires { W.IsAlwaysCallable watch }
    {
        // Under the lock, so that the key is told only once the session is there.
        let mut lot = self.lot.lock(rt);
        let key = lot.park(session, pause)?;
        if watch(key) {
            Ok(())
        } else {
            Err(lot.take(key))
        }
    }

    /// The connection under a key, if it still waits.
    pub fn take(&self, rt: &impl Wait, key: usize) -> Option<T> {
        self.lot.lock(rt).take(key)
    }

    /// A connection whose client's time is over by now.
    pub fn take_late(&self, rt: &impl Wait, now: Instant) -> Option<T> {
        self.lot.lock(rt).take_late(now)
    }

    /// The connection that has been kept without a further request for longest.
    pub fn take_idle(&self, rt: &impl Wait) -> Option<T> {
        self.lot.lock(rt).take_idle()
    }

    /// The connection that has let it wait for longest, among those that wait for their clients: one that is idle before any
    /// other.
    pub fn take_client(&self, rt: &impl Wait) -> Option<T> {
        let mut lot = self.lot.lock(rt);
        match lot.take_idle() {
            Some(idle) => Some(idle),
            None => lot.take_client(),
        }
    }

    /// Each connection that waits; none waits any longer.
    pub fn take_all(&self, rt: &impl Wait, alloc: Global) -> Slab<Parked<T>> {
        let mut lot = self.lot.lock(rt);
        let Lot {
            parked,
            limits: _,
            idle: _,
            clients: _,
            numbered: _,
        } = mem::replace(&mut *lot, Lot::new(alloc));
        parked
    }
}

// The connections that wait, by their keys.
#[derive(Drop)]
struct Lot<T> {
    parked: Slab<Parked<T>>,
    // When the time of each is over that has a limit, and its key; and the same of those that are idle.
    limits: BTreeSet<(Instant, usize)>,
    idle: BTreeSet<(Instant, usize)>,
    // Of each other one that waits for its client, its number and its key; and how many numbers were given.
    clients: BTreeSet<(u64, usize)>,
    numbered: u64,
}

/// A connection that waits.
#[derive(Drop)]
pub struct Parked<T> {
    /// The connection, or what else was taken in.
    pub session: T,
    // When the time of its client is over.
    until: Option<Instant>,
    // Its number, if it waits for its client and isn't idle: one that was parked later has a greater one.
    number: Option<u64>,
}

impl<T: Drop> Lot<T> {
    fn new(alloc: Global) -> Lot<T> {
        Lot {
            parked: Slab::new(alloc),
            limits: BTreeSet::new(alloc),
            idle: BTreeSet::new(alloc),
            clients: BTreeSet::new(alloc),
            numbered: 0,
        }
    }

    // The key of what is taken in. It comes back where there is no room for it.
    fn park(&mut self, session: T, pause: Pause) -> Result<usize, Option<T>> {
        let until = pause.until;
        let number = match pause.by {
            PausedBy::NewClient | PausedBy::Client => Some(self.numbered),
            PausedBy::IdleClient | PausedBy::Fetches => None,
        };
        let parked = Parked {
            session,
            until,
            number,
        };
        let key = match self.parked.insert(parked) {
            Ok(key) => key,
            Err(failed) => {
                let Parked {
                    session,
                    until: _,
                    number: _,
                } = failed.value;
                return Err(Some(session));
            }
        };
        if self.list_client(key, number) && self.list_limit(key, pause) {
            Ok(key)
        } else {
            Err(self.take(key))
        }
    }

    // Lists what is under a key among those that wait for their clients. Returns false where there is no room for that.
    fn list_client(&mut self, key: usize, number: Option<u64>) -> bool {
        let Some(number) = number else {
            return true;
        };
        self.numbered = number.saturating_add(1);
        self.clients.insert((number, key)).is_ok()
    }

    // Lists when the time of what is under a key is over. Returns false where there is no room for that.
    fn list_limit(&mut self, key: usize, pause: Pause) -> bool {
        let Some(until) = pause.until else {
            return true;
        };
        let is_idle = pause.by == PausedBy::IdleClient;
        self.limits.insert((until, key)).is_ok()
            && (!is_idle || self.idle.insert((until, key)).is_ok())
    }

    // The connection under a key, which is there no longer.
    fn take(&mut self, key: usize) -> Option<T>
        ensures given { IfSome result (λ session. IsSomeAnd (get self.old.parked key) (λ parked. parked.session ≡ session)) }
        ensures absent { IfNone result (get self.old.parked key ≡ None) }
    {
        let Parked {
            session,
            until,
            number,
        } = self.parked.try_remove(key)?;
        if let Some(until) = until {
            self.limits.remove(&(until, key));
            self.idle.remove(&(until, key));
        }
        if let Some(number) = number {
            self.clients.remove(&(number, key));
        }
        Some(session)
    }

    fn take_late(&mut self, now: Instant) -> Option<T> {
        let (until, key) = *self.limits.first()?;
        if until < now { self.take(key) } else { None }
    }

    fn take_idle(&mut self) -> Option<T> {
        let (_, key) = *self.idle.first()?;
        self.take(key)
    }

    fn take_client(&mut self) -> Option<T> {
        let (_, key) = *self.clients.first()?;
        self.take(key)
    }
}
