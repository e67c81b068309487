//! What pages are assembled from.

use failed_answers::SparingSource;
use hyper_source::HyperSource;
use shared_cache::Cache;
use std::time::Clock;

/// What pages are assembled from: what is stored, and below it what origins answer, unless a URL rests since it failed. So
/// a URL that rests is bridged like one that is asked and fails.
pub type Kept = Cache<SparingSource<HyperSource, MonotonicSeconds>, MonotonicSeconds>;

/// The machine's monotonic clock, in whole seconds: nobody sets it, as they may set that of the day. 0 where
/// it can't be read.
#[derive(Clone, Copy)]
pub struct MonotonicSeconds;

impl<R: Clock> answer_sources::Clock<R> for MonotonicSeconds {
    fn now(&self, rt: &R) -> u64 {
        match rt.monotonic() {
            Ok(time) => time.as_secs(),
            Err(_) => 0,
        }
    }
}
