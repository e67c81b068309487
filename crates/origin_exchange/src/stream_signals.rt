//! What the stream of a fetch tells whoever polls the fetch.

ghost use Rattle.std.specs.Prelude.{◌≡◌};

use crate::reach::Reach;
use edge_sockets::Readiness;
use std::io;
use std::sync::atomic::{AtomicBool, Ordering};

/// What a stream tells whoever polls its fetch. One thread at a time has both.
#[derive(Drop)]
pub struct StreamSignals {
    awaits_input: AtomicBool,
    awaits_room: AtomicBool,
    // Whether a byte has come.
    heard: AtomicBool,
    // Told of each read and write, where it may tell of the origin.
    reach: Option<Reach>,
}

impl StreamSignals {
    /// Nothing is told yet.
    pub fn new(reach: Option<Reach>) -> StreamSignals {
        StreamSignals {
            awaits_input: AtomicBool::new(false),
            awaits_room: AtomicBool::new(false),
            heard: AtomicBool::new(false),
            reach,
        }
    }

    /// Tells that a read or write would block.
    pub(crate) fn awaits(&self, need: Readiness) {
        self.flag(need).store(true, Ordering::SeqCst);
    }

    /// Tells what a read has done, and gives it back.
    pub(crate) fn has_read(&self, done: io::Result<usize>) -> io::Result<usize>
        ensures { result ≡ done }
    {
        self.awaits_input.store(false, Ordering::SeqCst);
        if matches!(&done, Ok(1..)) {
            self.heard.store(true, Ordering::SeqCst);
        }
        self.told(done)
    }

    /// Tells what a write has done, and gives it back.
    pub(crate) fn has_written(&self, done: io::Result<usize>) -> io::Result<usize>
        ensures { result ≡ done }
    {
        self.awaits_room.store(false, Ordering::SeqCst);
        self.told(done)
    }

    fn told(&self, done: io::Result<usize>) -> io::Result<usize>
        ensures { result ≡ done }
    {
        match &self.reach {
            Some(reach) => reach.told(done),
            None => done,
        }
    }

    fn flag(&self, need: Readiness) -> &AtomicBool {
        match need {
            Readiness::Readable => &self.awaits_input,
            Readiness::Writable => &self.awaits_room,
        }
    }

    /// What the socket has to be ready for, if a read or write of the last poll would block.
    pub(crate) fn awaited(&self) -> Option<Readiness> {
        if self.awaits_room.load(Ordering::SeqCst) {
            Some(Readiness::Writable)
        } else if self.awaits_input.load(Ordering::SeqCst) {
            Some(Readiness::Readable)
        } else {
            None
        }
    }

    /// Forgets what was awaited, before a further poll.
    pub(crate) fn begins_poll(&self) {
        self.awaits_input.store(false, Ordering::SeqCst);
        self.awaits_room.store(false, Ordering::SeqCst);
    }

    /// Whether a byte of the response has come.
    pub(crate) fn has_heard(&self) -> bool {
        self.heard.load(Ordering::SeqCst)
    }
}
