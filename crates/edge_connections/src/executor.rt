//! What runs the futures of connections.

use futures::executor::LocalPool;
use futures::future::Ready;
use std::alloc::AllocGlobal;
use std::io;
use std::random::RandomSource;

/// Runs the connections of one thread, one at a time. To make one costs more than to keep it.
#[derive(Drop)]
pub struct Executor {
    pub(crate) pool: LocalPool<Ready<()>>,
}

impl Executor {
    /// An executor. Refused where the system has no random bytes for it, or an allocation fails.
    pub fn new<R: RandomSource + AllocGlobal>(rt: &R) -> io::Result<Executor> {
        Ok(Executor {
            pool: LocalPool::new(rt)?,
        })
    }
}
