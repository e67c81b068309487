//! Who waits for a permit, and who is called to take one.

ghost use Rattle.std.specs.Prelude.{◌≡◌, ◌-◌, ◌^◌, ◌<◌, ◌≤◌, IfOk, OnErr};
ghost use Rattle.std.specs.VecDeque.{deque_len, deque_capacity};
ghost use Rattle.origin_queue.specs.Queued.{stands, without};

use std::alloc::{AllocError, Global};
use std::collections::VecDeque;
use std::marker::Model;

/// The bounds of a queue.
#[derive(Clone, Copy, Debug, PartialEq, Eq)]
pub struct QueueBounds {
    /// How many permits there are: as many fetches may go at once.
    pub permits: u32,
    /// How many fetches may wait.
    pub most_waiting: u32,
}

/// A place in a queue. Each has its own number, and a later one a greater number.
#[derive(Clone, Copy, Debug, PartialEq, Eq)]
pub struct Place {
    number: u64,
}

impl Place {
    /// How many places of the queue were given before it.
    pub fn number(self) -> u64
        ensures { result ≡ self.number }
    {
        self.number
    }
}

/// What whoever asks for a permit is told.
#[derive(Clone, Copy, Debug, PartialEq, Eq)]
pub enum Ruling {
    /// He has it, and goes.
    Goes,
    /// He waits at this place until he is called.
    Waits(Place),
    /// As many wait as may.
    Full,
}

/// Who waits for a permit of an origin, in the order of asking.
///
/// ```text
///             a permit is free, and nobody waits
///     asks ---------------------------------------> goes
///       |                                            ^
///       | joins          a permit is freed           | takes it
///       +------> waits -----------------> called ----+
///                  |                        |
///                  +-------> leaves <-------+ and so the next is called
/// ```
///
/// Our profile.
#[derive(Drop)]
pub struct OriginQueue {
    bounds: QueueBounds,
    // How many permits are with fetches that go, or kept for those that are called.
    out: u32,
    given: u64,
    waiting: VecDeque<u64>,
    // Has room for all who wait, so that to call one takes no memory.
    called: VecDeque<u64>,
}

impl Model for OriginQueue {
    ghost use Rattle.std.specs.Prelude.{◌+◌, ◌≤◌};
    ghost use Rattle.std.specs.VecDeque.{deque_len, deque_capacity};
    ghost use Rattle.origin_queue.specs.Queued.{Queued};

    ghost Value = { Queued };

    ghost view = { λ q. record { bounds = q.bounds; out = q.out; given = q.given; waiting = q.waiting.items; called = q.called.items } };

    ghost invariant = { λ q. deque_len q.called + deque_len q.waiting ≤ deque_capacity q.called };
}

impl OriginQueue {
    ghost use Rattle.origin_queue.specs.Queue as spec;

    /// A queue in which nobody waits, with all permits free. Takes no memory.
    pub fn new(alloc: Global, bounds: QueueBounds) -> OriginQueue
        ensures { result ≡ spec.fresh bounds }
    {
        OriginQueue {
            bounds,
            out: 0,
            given: 0,
            waiting: VecDeque::new(alloc),
            called: VecDeque::new(alloc),
        }
    }

    /// Asks for a permit. The only refusal is running out of memory, which changes nothing.
    pub fn ask(&mut self) -> Result<Ruling, AllocError>
        ensures ok { IfOk result (λ ruling. spec.Asks self.old ruling self.new) }
        ensures err { OnErr result (self.new ≡ self.old) }
    {
        if self.may_go() {
            self.out += 1;
            return Ok(Ruling::Goes);
        }
        if self.is_full() {
            return Ok(Ruling::Full);
        }
        let place = self.join()?;
        Ok(Ruling::Waits(place))
    }

    /// A permit is handed back: who waits first is called. Takes no memory.
    pub fn freed(&mut self) -> Option<Place>
        ensures { spec.Frees self.old result self.new }
    {
        match self.waiting.pop_front() {
            None => {
                self.out = self.out.saturating_sub(1);
                None
            }
            Some(number) => {
                if self.called.push_back(number).is_err() {
                    unreachable!();
                }
                Some(Place { number })
            }
        }
    }

    /// Whoever has this place takes his permit; whether he was called. Takes no memory.
    pub fn take(&mut self, place: Place) -> bool
        ensures was_called { result ≡ stands place.number self.old.called }
        ensures after { self.new ≡ spec.uncalled place.number self.old }
    {
        take_out(&mut self.called, place.number)
    }

    /// Whoever has this place gives it up: if he was called, who waits first is. Takes no memory.
    pub fn leave(&mut self, place: Place) -> Option<Place>
        ensures { spec.Leaves self.old place.number result self.new }
    {
        if take_out(&mut self.called, place.number) {
            return self.freed();
        }
        take_out(&mut self.waiting, place.number);
        None
    }

    /// Nobody waits any longer, as where the origin rests. Who is called stays so. Takes no memory.
    pub fn dismiss(&mut self)
        ensures { self.new ≡ spec.dismissed self.old }
    {
        self.waiting.clear();
    }

    fn may_go(&self) -> bool
        ensures { result ≡ spec.may_go self.now }
    {
        self.waiting.is_empty() && self.out < self.bounds.permits
    }

    // A number of 64 bits counts the places, so that the last one is never given.
    fn is_full(&self) -> bool
        ensures { result ≡ spec.is_full self.now }
    {
        self.waiting.len() >= self.bounds.most_waiting as usize || self.given == u64::MAX
    }

    fn join(&mut self) -> Result<Place, AllocError>
        requires { self.old.given < 2 ^ 64 - 1 }
        ensures ok { IfOk result (λ place. spec.Joins self.old place self.new) }
        ensures err { OnErr result (self.new ≡ self.old) }
    {
        self.called.reserve(self.waiting.len().saturating_add(1))?;
        let number = self.given;
        if self.waiting.push_back(number).is_err() {
            return Err(AllocError);
        }
        self.given += 1;
        Ok(Place { number })
    }
}

// Takes a place out of these; whether it was there.
fn take_out(places: &mut VecDeque<u64>, number: u64) -> bool
    ensures was_there { result ≡ stands number places.old.items }
    ensures after { places.new.items ≡ without number places.old.items }
    ensures len { deque_len places.new ≤ deque_len places.old }
    ensures capacity { deque_capacity places.new ≡ deque_capacity places.old }
{
    let was_there = places.contains(&number);
    places.retain(|other| *other != number);
    was_there
}
