//! How much memory the process has.

use edge_metrics::resident_of;
use std::fs::File;
use std::os::unix::fs::FileExt;
use std::rt::Files;

// Where Linux tells it (proc(5)).
const STATM: &str = "/proc/self/statm";

// Seven numbers of 64 bits have no more bytes.
const MOST_BYTES: usize = 160;

/// The memory of the process, as the system tells it. The file is opened once, so that it can still be read where no
/// further one may be open.
#[derive(Drop)]
pub(crate) struct Memory {
    // Where the system tells it.
    statm: Option<File>,
}

impl Memory {
    /// That of this process.
    pub(crate) fn of<R: Files<File = File>>(rt: &R) -> Memory {
        Memory {
            statm: File::open(rt, STATM).ok(),
        }
    }

    /// How many of its bytes are resident now; `None` where the system doesn't tell.
    pub(crate) fn resident(&self) -> Option<u64> {
        let statm = self.statm.as_ref()?;
        let mut text = [0; MOST_BYTES];
        match statm.read_at(&mut text, 0) {
            Ok(count) => resident_of(&text[..count]),
            Err(_) => None,
        }
    }
}
