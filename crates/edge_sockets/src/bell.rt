//! What wakes whoever waits for fetches.

use edge_types::NoMemory;
use mio::Waker;
use std::alloc::{AllocError, Global};
use std::sync::Arc;
use std::sync::atomic::{AtomicBool, Ordering};

/// Wakes whoever waits for the fetches of one page, for something that no socket tells: a flight that the page has joined
/// has landed, or a fetch is called. A ring stays until it is heard, so it may come before the wait, and further rings
/// meanwhile cost no call.
#[derive(Drop)]
pub struct Bell {
    clapper: Arc<Clapper>,
}

#[derive(Drop)]
struct Clapper {
    waker: Waker,
    // Rung, and not heard since.
    is_rung: AtomicBool,
}

impl Bell {
    /// A bell that is heard where this waker wakes.
    pub fn new(alloc: Global, waker: Waker) -> Result<Bell, AllocError> {
        let clapper = Clapper {
            waker,
            is_rung: AtomicBool::new(false),
        };
        Ok(Bell {
            clapper: Arc::new(alloc, clapper)?,
        })
    }

    /// One more handle to the same bell.
    pub fn share(&self) -> Result<Bell, NoMemory> {
        Ok(Bell {
            clapper: Arc::try_clone(&self.clapper)?,
        })
    }

    /// Rings, unless it is rung. Doesn't wait.
    pub fn ring(&self) {
        if !self.clapper.is_rung.swap(true, Ordering::SeqCst) {
            // Refused only where the descriptor is gone, and with it whoever would hear.
            let _ = self.clapper.waker.wake();
        }
    }

    /// Whoever waited has been told of a ring, and is going to look what it is about: so each ring from now on is told
    /// again.
    pub fn heard(&self) {
        self.clapper.is_rung.store(false, Ordering::SeqCst);
    }
}
