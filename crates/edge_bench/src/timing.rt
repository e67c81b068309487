//! Times of work, the least of several, and ratios of them.

use std::io;
use std::rt::Clock;
use std::time::{Duration, Instant};

/// The least of the times that some work took.
#[derive(Clone, Copy)]
pub struct Least {
    time: Duration,
}

impl Least {
    /// No time yet.
    pub fn new() -> Least {
        Least {
            time: Duration::MAX,
        }
    }

    /// Does the work, notes the time that it took, and returns its result.
    pub fn time<R: Clock, T: Drop, F: FnOnce() -> T>(&mut self, rt: &R, work: F) -> io::Result<T>
        requires { F.IsAlwaysCallable work }
    {
        let start = Instant::now(rt)?;
        let given = work();
        self.time = self.time.min(start.elapsed(rt)?);
        Ok(given)
    }

    /// Notes the time since some work was begun.
    pub fn note<R: Clock>(&mut self, rt: &R, begun: Instant) -> io::Result<()> {
        self.time = self.time.min(begun.elapsed(rt)?);
        Ok(())
    }

    /// The least time.
    pub fn get(&self) -> Duration {
        self.time
    }
}

/// How many times as long as the second the first took.
pub fn ratio(long: Duration, short: Duration) -> f64 {
    long.as_secs_f64() / short.as_secs_f64()
}

/// How many nanoseconds each of this many bytes or steps took.
pub fn nanoseconds_each(took: Duration, count: usize) -> f64 {
    let count = u32::try_from(count).unwrap_or(u32::MAX);
    took.as_secs_f64() * 1e9 / f64::from(count)
}

/// Prints how long this many bytes or steps took, and how that compares with something else.
pub fn print(
    rt: &HostRuntime,
    name: &str,
    took: Duration,
    beside: Duration,
    count: usize,
) -> io::Result<()> {
    let each = nanoseconds_each(took, count);
    println!(rt;
        "{name}: {} ns = {:.2} times {} ns; {count}, {each:.2} ns each, {:.2} million a second",
        took.as_nanos(),
        ratio(took, beside),
        beside.as_nanos(),
        1e3 / each
    )
}

/// Prints how many there were of something.
pub fn print_count(rt: &HostRuntime, name: &str, count: usize) -> io::Result<()> {
    println!(rt; "{name}: {count}")
}
