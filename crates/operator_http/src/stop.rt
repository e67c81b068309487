//! That a server is to stop, and when that is over.

ghost use Rattle.std.specs.Prelude.{◌≡◌};
ghost use Rattle.operator_http.specs.Stopped as spec;

use crate::grace::Grace;
use std::io;
use std::sync::Arc;
use std::sync::atomic::{AtomicBool, AtomicU64, Ordering};
use std::time::{Clock, Instant};

// The millisecond in which a stop ends that has no bound.
const NEVER: u64 = u64::MAX;

/// Whether a server is to stop, and until when: what is told to the operator's thread and read by others. The latest
/// request counts.
#[derive(Drop)]
pub(crate) struct StopState {
    is_made: AtomicBool,
    // In milliseconds since the beginning.
    end: AtomicU64,
    began: Instant,
}

impl StopState {
    /// Nobody has asked for it yet. Refused if the clock can't be read.
    pub(crate) fn new(clock: &impl Clock) -> io::Result<StopState> {
        Ok(StopState {
            is_made: AtomicBool::new(false),
            end: AtomicU64::new(NEVER),
            began: Instant::now(clock)?,
        })
    }

    /// Asks for it. A grace begins now; where the clock can't be read, the stop has no bound.
    pub(crate) fn ask(&self, clock: &impl Clock, grace: Grace) {
        let end = end_of(self.millis(clock), grace);
        // Whoever sees that a stop was asked for sees its end too.
        self.end.store(end, Ordering::SeqCst);
        self.is_made.store(true, Ordering::SeqCst);
    }

    // How many milliseconds have passed since the beginning, where the clock tells.
    fn millis(&self, clock: &impl Clock) -> Option<u64> {
        let passed = self.began.elapsed(clock).ok()?;
        u64::try_from(passed.as_millis()).ok()
    }
}

// In which millisecond a stop ends that is asked for in this one.
fn end_of(now: Option<u64>, grace: Grace) -> u64
    ensures { result ≡ spec.end_of now grace }
{
    match (now, grace) {
        (Some(now), Grace::Seconds(seconds)) => now.saturating_add(seconds.saturating_mul(1_000)),
        _ => NEVER,
    }
}

// Whether that millisecond has come. Where it isn't known which one it is, it hasn't.
fn has_come(end: u64, now: Option<u64>) -> bool
    ensures { result ≡ spec.has_come end now }
{
    match now {
        Some(now) => end <= now,
        None => false,
    }
}

/// Tells whether the operator has asked a server to stop, and whether what is under way may still go on.
#[derive(Drop)]
pub struct StopRequest {
    pub(crate) state: Arc<StopState>,
}

impl StopRequest {
    /// Whether the operator has asked for it.
    pub fn is_made(&self) -> bool {
        self.state.is_made.load(Ordering::SeqCst)
    }

    /// Whether the operator has asked for it with a grace, and that is over, by the monotonic clock: what is under way is
    /// to be cut. Of several requests the latest one counts. Where the clock can't be read, it isn't over.
    pub fn cuts<R: Clock>(&self, rt: &R) -> bool {
        has_come(self.state.end.load(Ordering::SeqCst), self.state.millis(rt))
    }
}
