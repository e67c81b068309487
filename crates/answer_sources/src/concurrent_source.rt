//! Sources that make several fetches at once in one thread.

ghost use Rattle.std.specs.Prelude.{IfOk, IfSome};
ghost use Rattle.std.specs.Arc.{arc_value};

use crate::answers::Answers;
use crate::given::Given;
use edge_sockets::Bell;
use edge_types::{NoMemory, PageUrl};
use std::alloc::Global;
use std::os::fd::RawFd;
use std::time::{Duration, Instant};

/// The answer of a fetch that has ended, if one has; `NoMemory` if an allocation failed.
pub type Arrival = Result<Option<Given>, NoMemory>;

/// What fetches in flight wait for.
#[derive(Clone, Copy)]
pub struct Awaited {
    /// This is readable once one of them may have moved.
    pub descriptor: RawFd,
    /// When one of them is late; `None` means never.
    pub until: Option<Instant>,
}

/// A source that makes several fetches at once for one page, which goes on with whichever ends first.
///
/// Each fetch that was begun ends once: `next` gives its answer, or it is given up with all that are in flight.
pub trait ConcurrentSource<R>: Answers<R> {
    /// What one page has in flight. One thread at a time has it, not always the same one. It can't be dropped: `give_up`
    /// takes it.
    type InFlight;

    /// Nothing is in flight yet.
    fn nothing_in_flight(&self, rt: &R, alloc: Global) -> Self::InFlight;

    /// Begins to fetch the answer of a URL, and doesn't wait for it.
    ///
    /// `NoMemory` if an allocation fails; nothing is begun then.
    fn begin(
        &self,
        rt: &R,
        alloc: Global,
        in_flight: &mut Self::InFlight,
        url: &PageUrl,
    ) -> Result<(), NoMemory>;

    /// The answer of a fetch that has ended, if one is known to have: by the latest `wait`, or by a look of its own where
    /// `awaited` was asked since then. A source that fetches one by one makes its next fetch for it; any other doesn't
    /// wait. What can't be fetched is a failed answer; `NoMemory` if an allocation fails, after which one fetch less may
    /// be in flight.
    fn next(&self, rt: &R, alloc: Global, in_flight: &mut Self::InFlight) -> Arrival
        ensures { IfOk result (λ found. IfSome found (λ given.
            Self.gives self.now (arc_value given.answer).url (arc_value given.answer))) };

    /// Whether nothing is in flight, so that `next` never will have an answer.
    fn is_idle(&self, in_flight: &Self::InFlight) -> bool;

    /// Waits until `next` may have an answer, which it hadn't, or for `most`, where there is one. By default there is
    /// nothing to wait for.
    fn wait(
        &self,
        _rt: &R,
        _alloc: Global,
        _in_flight: &mut Self::InFlight,
        _most: Option<Duration>,
    ) -> Result<(), NoMemory> {
        Ok(())
    }

    /// What is waited for, after `next` had no answer; `None` where only `wait` tells, as by default. Whatever has moved
    /// since then, or moves later, is told there.
    fn awaited(&self, _rt: &R, _alloc: Global, _in_flight: &mut Self::InFlight) -> Option<Awaited> {
        None
    }

    /// By what that is told from outside; `None` where it can't be, as by default. A ring is taken by a wait, or by the look
    /// of `next`, so whoever rings does it after what it is about, and `next` looks for that last.
    fn bell(&self, _rt: &R, _in_flight: &mut Self::InFlight) -> Option<Bell> {
        None
    }

    /// Ends what nobody else waits for, and goes on with what is left, without waiting. Whether nothing is left; by default
    /// nobody else ever waits.
    fn let_go(&self, _rt: &R, _alloc: Global, _in_flight: &mut Self::InFlight) -> bool {
        true
    }

    /// Gives up what is in flight, at once: whoever else waits for a fetch has a failed answer.
    fn give_up(&self, rt: &R, alloc: Global, in_flight: Self::InFlight);
}
