//! What a server asks of its runtime.

use std::alloc::AllocGlobal;
use std::random::RandomSource;
use std::sync::Wait;
use std::thread::Threads;
use std::time::Clock;

/// A runtime by which threads serve: they wait, start others, read the clock, and take random bytes
/// and memory.
pub trait ServerRuntime: Wait + Threads + Clock + RandomSource + AllocGlobal + Clone + Drop {}

impl<R: Wait + Threads + Clock + RandomSource + AllocGlobal + Clone + Drop> ServerRuntime for R {}
