//! What fetches to one address ask before they begin, and whom they call when they have ended.

ghost use Rattle.std.specs.Prelude.{◌≡◌, [], IsTrue, IsFalse, IfOk, IfErr};
ghost use Rattle.origin_health.specs.Health as health;
ghost use Rattle.origin_health.specs.declared.health.Leave.TheVariants as leave;
ghost use Rattle.origin_queue.specs.Queued.{stands};
ghost use Rattle.origin_queue.specs.Queue.{dismissed};
ghost use Rattle.origins.specs.declared.gate.Called.TheVariants as called;
ghost use Rattle.origins.specs.Gate.{Asks, Ends, Goes, Joins, Leaves, LooksWaiting, Looks, Withholds};

use edge_sockets::Bell;
use fetch_outcomes::{FetchFault, Lost};
use origin_health::{FetchEnd, Leave, OriginHealth, Permit};
use origin_queue::{OriginQueue, Place, QueueBounds, Ruling};
use std::alloc::{AllocError, Global};
use std::collections::BTreeMap;
use std::mem;

/// The bounds of the fetches to one address.
#[derive(Clone, Copy, Debug, PartialEq, Eq)]
pub struct Bounds {
    /// How many fetches may be in flight; `None`: as many as there are.
    pub most_in_flight: Option<u32>,
    /// How many more may wait until one of these has ended. Each further one fails.
    pub most_waiting: u32,
    /// For how many milliseconds an address rests once it has failed; 0: it never rests.
    pub rest: u64,
}

/// What a fetch is told that is to be made. It can't be dropped, since a permit can't.
#[must_use]
pub enum Chance {
    /// It may be made, and counts as in flight until the permit is handed back.
    Granted(Permit),
    /// It waits at this place.
    Waits(Place),
    /// It can't be made.
    Lost(Lost),
}

/// Whom the end of a fetch, or of a wait, calls. They are rung once the lock is left, so that nobody wakes to find it
/// taken.
#[derive(Drop)]
pub(crate) enum Called {
    /// Nobody.
    Nobody,
    /// Whoever waited first.
    Next(Bell),
    /// All who waited: they have failed.
    All(BTreeMap<u64, Bell>),
}

impl Called {
    /// Rings those who are called.
    pub(crate) fn ring(self) {
        match self {
            Called::Nobody => {}
            Called::Next(bell) => bell.ring(),
            Called::All(bells) => {
                for bell in bells.values() {
                    bell.ring();
                }
            }
        }
    }
}

/// The state of an address, which its lock guards.
#[derive(Drop)]
pub(crate) struct Gate {
    health: OriginHealth,
    queue: OriginQueue,
    // Of those who wait, by the numbers of their places. Whoever has none there waits no longer.
    bells: BTreeMap<u64, Bell>,
    alloc: Global,
}

impl Gate {
    /// Of an address that nobody has asked yet.
    pub(crate) fn new(alloc: Global, bounds: Bounds) -> Gate {
        let of_health = origin_health::Bounds {
            most_in_flight: bounds.most_in_flight,
            rest: bounds.rest,
        };
        let of_queue = QueueBounds {
            permits: bounds.most_in_flight.unwrap_or(u32::MAX),
            most_waiting: bounds.most_waiting,
        };
        Gate {
            health: OriginHealth::new(of_health),
            queue: OriginQueue::new(alloc, of_queue),
            bells: BTreeMap::new(alloc),
            alloc,
        }
    }

    /// Whether a fetch may be made at this millisecond; one that has to wait is called so.
    pub(crate) fn ask(&mut self, now: u64, bell: Bell) -> Chance
        ensures { Asks self.old now result self.new }
    {
        if self.health.rests(now) {
            return Chance::Lost(Lost::Fault(FetchFault::AtRest));
        }
        match self.queue.ask() {
            Ok(Ruling::Goes) => self.goes(now),
            Ok(Ruling::Waits(place)) => self.waits(place, bell),
            Ok(Ruling::Full) => Chance::Lost(Lost::Fault(FetchFault::TooMany)),
            Err(AllocError) => Chance::Lost(Lost::NoMemory),
        }
    }

    // Nobody waits where a fetch goes at once, so that nobody is called if it can't.
    fn goes(&mut self, now: u64) -> Chance
        ensures { Goes self.old now result self.new }
    {
        match self.permit(now) {
            Ok(permit) => Chance::Granted(permit),
            Err(fault) => {
                let _ = self.queue.freed();
                Chance::Lost(Lost::Fault(fault))
            }
        }
    }

    fn waits(&mut self, place: Place, bell: Bell) -> Chance
        ensures { Joins self.old place result self.new }
    {
        match self.bells.insert(place.number(), bell) {
            Ok(_) => Chance::Waits(place),
            Err(_) => {
                let _ = self.queue.leave(place);
                Chance::Lost(Lost::NoMemory)
            }
        }
    }

    fn permit(&mut self, now: u64) -> Result<Permit, FetchFault>
        ensures ok { IfOk result (λ permit. health.Asks self.old.health now (leave.Granted permit) self.new.health) }
        ensures err { IfErr result (λ fault. Withholds self.old.health now fault × (self.new.health ≡ self.old.health)) }
        ensures queue { self.new.queue ≡ self.old.queue }
    {
        match self.health.may_fetch(now) {
            Leave::Granted(permit) => Ok(permit),
            Leave::TooMany => Err(FetchFault::TooMany),
            Leave::Rests => Err(FetchFault::AtRest),
        }
    }

    /// What a fetch at a place is told now; and who is called, where it was and can't be made. One that waits no longer,
    /// and wasn't called, waited when the address began to rest.
    pub(crate) fn look(&mut self, now: u64, place: Place) -> (Chance, Called)
        ensures { Looks self.old now place result.0 self.new }
    {
        if !self.queue.take(place) {
            return (self.look_waiting(place), Called::Nobody);
        }
        match self.permit(now) {
            Ok(permit) => (Chance::Granted(permit), self.all_at_rest(now)),
            Err(fault) => {
                let next = self.queue.freed();
                (Chance::Lost(Lost::Fault(fault)), self.call(next))
            }
        }
    }

    fn look_waiting(&self, place: Place) -> Chance
        ensures { LooksWaiting place result }
    {
        if self.bells.contains_key(&place.number()) {
            Chance::Waits(place)
        } else {
            Chance::Lost(Lost::Fault(FetchFault::AtRest))
        }
    }

    /// A fetch at a place isn't made; who is called.
    pub(crate) fn leave(&mut self, place: Place) -> Called
        ensures { Leaves self.old place self.new }
    {
        let _ = self.bells.remove(&place.number());
        let next = self.queue.leave(place);
        self.call(next)
    }

    /// A fetch has ended at this millisecond; who is called. Once the address rests, all who wait have failed.
    pub(crate) fn ended(&mut self, permit: Permit, end: FetchEnd, now: u64) -> Called
        ensures { Ends self.old permit end now self.new }
    {
        self.health.ended(permit, end, now);
        let all = self.all_at_rest(now);
        let first = self.queue.freed();
        match all {
            Called::Nobody => self.call(first),
            all => all,
        }
    }

    // All who wait have failed if the address rests, also while one fetch tries it: they would find so one after the other.
    fn all_at_rest(&mut self, now: u64) -> Called
        ensures health { self.new.health ≡ self.old.health }
        ensures rests { IsTrue (health.rests_at self.old.health now) → self.new.queue ≡ dismissed self.old.queue }
        ensures asked { IsFalse (health.rests_at self.old.health now) → (result ≡ called.Nobody) × (self.new.queue ≡ self.old.queue) }
    {
        if !self.health.rests(now) {
            return Called::Nobody;
        }
        self.queue.dismiss();
        Called::All(mem::replace(&mut self.bells, BTreeMap::new(self.alloc)))
    }

    fn call(&mut self, next: Option<Place>) -> Called
        ensures health { self.new.health ≡ self.old.health }
        ensures queue { self.new.queue ≡ self.old.queue }
    {
        let Some(place) = next else {
            return Called::Nobody;
        };
        match self.bells.remove(&place.number()) {
            Some(caller) => Called::Next(caller),
            None => Called::Nobody,
        }
    }
}
