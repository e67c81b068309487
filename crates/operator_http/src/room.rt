//! How many connections of the operator's are answered at once.

ghost use Rattle.std.specs.Prelude.{◌≤◌, IfOk};
ghost use Rattle.std.specs.VecDeque.{deque_len};

use futures::channel::oneshot;
use futures::channel::oneshot::{Receiver, Sender};
use std::alloc::{AllocError, Global};
use std::collections::VecDeque;

// How many are answered at once: each holds a descriptor.
const MOST: usize = 64;

/// The connections that are answered, the latest first. Whoever isn't kept here any longer has to leave.
#[derive(Drop)]
pub(crate) struct Room {
    guests: VecDeque<Sender<()>>,
}

impl Room {
    /// An empty one.
    pub(crate) fn new(alloc: Global) -> Room {
        Room {
            guests: VecDeque::new(alloc),
        }
    }

    /// Takes in one more, who has to leave once what is returned is ready. Where there is no room, whoever has been there
    /// for longest has to leave. Refused where there is no memory.
    pub(crate) fn admit(&mut self, alloc: Global) -> Result<Receiver<()>, AllocError>
        ensures { IfOk result (λ _. deque_len self.new.guests ≤ 64) }
    {
        self.guests.retain(|guest| !guest.is_canceled());
        self.guests.truncate(MOST - 1);
        let (guest, leaves) = oneshot::channel(alloc)?;
        self.guests.push_front(guest)?;
        Ok(leaves)
    }
}
