//! What is measured for the operator alone.

ghost use Rattle.std.specs.Prelude.{◌≡◌};

use crate::memory::Memory;
use edge_metrics::{Counts, History, Sample, page_of};
use edge_server::RequestRecord;
use edge_types::NoMemory;
use std::alloc::{AllocError, AllocGlobal, Global};
use std::fs::File;
use std::rt::Files;
use std::sync::{Mutex, Wait};
use std::time::Clock;

// In how many sets requests are counted.
const SETS: usize = 16;

// How many seconds a sample of the last ten minutes has.
const STRETCH: u64 = 10;

// What the threads that serve have counted, in several sets, each behind a lock of its own: whoever counts takes one that is
// free, so as long as no more threads count at once than there are sets, none waits.
#[derive(Drop)]
struct SharedCounts {
    sets: Vec<Mutex<Counts>>,
}

impl SharedCounts {
    // Of no request. Refused if there is no memory.
    fn new(alloc: Global) -> Result<SharedCounts, NoMemory> {
        let mut sets = Vec::new(alloc);
        for _ in 0..SETS {
            sets.push(Mutex::new(Counts::new()))?;
        }
        Ok(SharedCounts { sets })
    }

    // Counts a request.
    fn count(&self, rt: &impl Wait, request: &RequestRecord) {
        for set in &self.sets {
            if let Some(mut counts) = set.try_lock() {
                counts.count(request.status, request.body, request.micros);
                return;
            }
        }
        if let Some(set) = self.sets.first() {
            set.lock(rt)
                .count(request.status, request.body, request.micros);
        }
    }

    // What was counted in all sets.
    fn sum(&self, rt: &impl Wait) -> Counts {
        let mut sum = Counts::new();
        for set in &self.sets {
            sum = sum.plus(&set.lock(rt));
        }
        sum
    }

    // How many microseconds the slowest request took since this was last asked.
    fn take_slowest(&self, rt: &impl Wait) -> u64 {
        let mut slowest: u64 = 0;
        for set in &self.sets {
            slowest = slowest.max(set.lock(rt).take_slowest());
        }
        slowest
    }
}

// The last ten minutes, and what had been counted when the stretch that is under way began.
#[derive(Drop)]
struct Recent {
    history: History,
    // Which stretch is under way, counted by the monotonic clock.
    stretch: u64,
    requests: u64,
    hits: u64,
}

impl Recent {
    // Ends the stretch that was under way, with what was counted until now. What there is no memory for is left out.
    fn end(&mut self, stretch: u64, requests: u64, hits: u64, slowest: u64)
        ensures stretch { self.new.stretch ≡ stretch }
        ensures begins { (self.new.requests ≡ requests) × (self.new.hits ≡ hits) }
    {
        let sample = Sample {
            requests: requests.saturating_sub(self.requests),
            hits: hits.saturating_sub(self.hits),
            slowest,
        };
        let _ = self.history.note(sample);
        self.stretch = stretch;
        self.requests = requests;
        self.hits = hits;
    }
}

/// What is measured for the operator alone: requests, the last ten minutes, and memory.
#[derive(Drop)]
pub struct Measures {
    counts: SharedCounts,
    recent: Mutex<Recent>,
    memory: Memory,
}

impl Measures {
    /// Of no request. Refused if there is no memory.
    pub fn new<R>(rt: &R) -> Result<Measures, NoMemory>
    where
        R: AllocGlobal + Clock + Files<File = File>,
    {
        let alloc = rt.alloc();
        let recent = Recent {
            history: History::new(alloc),
            stretch: stretch(rt),
            requests: 0,
            hits: 0,
        };
        Ok(Measures {
            counts: SharedCounts::new(alloc)?,
            recent: Mutex::new(recent),
            memory: Memory::of(rt),
        })
    }

    /// Counts a request.
    pub(crate) fn count(&self, rt: &impl Wait, request: &RequestRecord) {
        self.counts.count(rt, request);
    }

    /// What was counted of requests until now.
    pub(crate) fn requests(&self, rt: &impl Wait) -> Counts {
        self.counts.sum(rt)
    }

    /// How many bytes of memory are resident now; `None` where the system doesn't tell.
    pub(crate) fn resident(&self) -> Option<u64> {
        self.memory.resident()
    }

    /// Whether a stretch of the last ten minutes has ended.
    pub(crate) fn is_due<R: Wait + Clock>(&self, rt: &R) -> bool {
        self.recent.lock(rt).stretch != stretch(rt)
    }

    /// Notes the stretch that has ended, when so many look-ups had hit in all.
    pub(crate) fn note_stretch<R: Wait + Clock>(&self, rt: &R, hits: u64) {
        let requests = self.counts.sum(rt).durations.all;
        let slowest = self.counts.take_slowest(rt);
        self.recent
            .lock(rt)
            .end(stretch(rt), requests, hits, slowest);
    }

    /// The page that draws the last ten minutes.
    pub(crate) fn page<R: Wait + AllocGlobal>(&self, rt: &R) -> Result<Vec<u8>, AllocError> {
        page_of(rt.alloc(), &self.recent.lock(rt).history)
    }
}

// Which stretch this is, by the machine's monotonic clock; 0 where it can't be read.
fn stretch(rt: &impl Clock) -> u64 {
    match rt.monotonic() {
        Ok(time) => time.as_secs() / STRETCH,
        Err(_) => 0,
    }
}
