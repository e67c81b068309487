//! The log of requests, on standard error.

ghost use Rattle.std.specs.Prelude.{◌≡◌, is_some};

use crate::readiness::is_writable;
use access_log::{LineQueue, LogFormat, LogLine, line_of};
use edge_server::RequestRecord;
use std::alloc::{AllocError, AllocGlobal, Global};
use std::io::Eprint;
use std::sync::{Mutex, Wait};
use std::time::Clock;

// How many bytes may wait for the reader of the log.
const MOST_WAITING: usize = 1_048_576;

// A pipe that is ready takes so many bytes at once without a wait (POSIX's PIPE_BUF, on Linux), and so many of these
// are all that may wait.
const CHUNK: usize = 4_096;

const CHUNKS: usize = MOST_WAITING / CHUNK;

// For how many milliseconds the end of the server waits for a reader that takes nothing.
const PATIENCE_MILLIS: i32 = 1_000;

/// The log of requests, if there is to be one. Whoever reports a request leaves its line in a queue, and writes what
/// waits there only where nobody else does, and only while the reader takes it. So a reader that stalls holds no
/// thread, and costs lines: once the queue is full, further ones are counted in their place.
///
/// Where requests come fast their lines are written many at once, and wait for that until the server's next tick at most.
#[derive(Drop)]
pub struct AccessLog {
    format: Option<LogFormat>,
    // Nothing is written under the lock.
    queue: Mutex<LineQueue>,
}

impl AccessLog {
    /// A log in this format, or none. Takes no memory.
    pub fn new(alloc: Global, format: Option<LogFormat>) -> AccessLog
        ensures { result.format ≡ format }
    {
        AccessLog {
            format,
            queue: Mutex::new(LineQueue::new(alloc, MOST_WAITING)),
        }
    }

    /// Whether there is one.
    pub(crate) fn is_enabled(&self) -> bool
        ensures { result ≡ is_some self.now.format }
    {
        self.format.is_some()
    }

    /// How many lines were lost since the start.
    pub(crate) fn lost_lines(&self, rt: &impl Wait) -> u64 {
        self.queue.lock(rt).lost_in_all()
    }

    /// Reports a request.
    pub(crate) fn served<R>(&self, rt: &R, record: &RequestRecord)
    where
        R: AllocGlobal + Clock + Eprint + Wait,
    {
        let Some(format) = self.format else {
            return;
        };
        let second = seconds(rt);
        let is_due = match line_of(rt.alloc(), format, second, record) {
            Ok(line) => self.tell(rt, format, second, Ok(&line)),
            Err(_) => self.tell(rt, format, second, Err(AllocError)),
        };
        if is_due {
            self.write(rt, 0);
        }
    }

    /// Writes what waits, if nobody does.
    pub(crate) fn tick<R: Wait + Eprint>(&self, rt: &R) {
        if self.format.is_some() && self.queue.lock(rt).begin_now() {
            self.write(rt, 0);
        }
    }

    /// Writes what is left at the end of the server, as long as the reader takes some of it within a second.
    pub fn finish<R: Wait + Clock + Eprint + AllocGlobal>(&self, rt: &R) {
        let Some(format) = self.format else {
            return;
        };
        let second = seconds(rt);
        let _ = self.queue.lock(rt).tell_lost(rt.alloc(), format, second);
        // Nobody else writes any longer.
        self.write(rt, PATIENCE_MILLIS);
    }

    // Leaves a line, and says whether the caller is to write what waits. A line for which there is no memory is lost like one
    // for which there is no room.
    fn tell<R: Wait + Clock + AllocGlobal>(
        &self,
        rt: &R,
        format: LogFormat,
        second: u64,
        line: Result<&LogLine, AllocError>,
    ) -> bool {
        let now = millis(rt);
        let mut queue = self.queue.lock(rt);
        let told = match line {
            Ok(line) => queue.tell(rt.alloc(), format, second, line),
            Err(_) => Err(AllocError),
        };
        if told.is_err() {
            queue.lose();
        }
        queue.begin(now)
    }

    // Writes what waits, while standard error takes more within so many milliseconds. What comes meanwhile waits for more, so that
    // it isn't written line by line.
    fn write<R: Wait + Eprint>(&self, rt: &R, patience: i32) {
        let mut chunk = [0; CHUNK];
        for _ in 0..CHUNKS {
            if !is_writable(patience) {
                break;
            }
            let text = self.queue.lock(rt).take(&mut chunk);
            if text.is_empty() {
                return;
            }
            // What can't be written is dropped, since nobody reads it.
            let _ = eprint!(rt; "{text}");
            if text.len() < CHUNK {
                break;
            }
        }
        self.queue.lock(rt).stop();
    }
}

// The second since 1970; 0 where the clock can't be read.
fn seconds(rt: &impl Clock) -> u64 {
    match rt.since_1970() {
        Ok(time) => time.as_secs(),
        Err(_) => 0,
    }
}

// The millisecond of the machine's monotonic clock; 0 where it can't be read.
fn millis(rt: &impl Clock) -> u64 {
    match rt.monotonic() {
        Ok(time) => u64::try_from(time.as_millis()).unwrap_or(u64::MAX),
        Err(_) => 0,
    }
}
