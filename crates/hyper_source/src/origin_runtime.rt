//! What asking origins takes of the runtime.

use std::alloc::AllocGlobal;
use std::net::Net;
use std::random::RandomSource;
use std::sync::Wait;
use std::time::Clock;

/// A runtime by which origins are asked: it waits, opens sockets, reads the clock, and takes random bytes and memory.
pub trait OriginRuntime: Wait + Net + Clock + RandomSource + AllocGlobal {}

impl<R: Wait + Net + Clock + RandomSource + AllocGlobal> OriginRuntime for R {}
