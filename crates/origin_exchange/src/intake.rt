//! How much is read of an answer: an origin may not send heads, or lines of chunks, without end.

ghost use Rattle.std.specs.Prelude.{◌≡◌, ◌+◌, ◌-◌, ◌≤◌, IfOk, IsErr, OnErr};
ghost use Rattle.std.specs.Io.{ReadsAtMost};
ghost use Rattle.origin_exchange.specs.Intake.{most_read};

use fetch_outcomes::Lost;
use std::alloc::Global;
use std::io;
use std::io::{ErrorKind, Read};
use std::net::TcpStream;
use std::sync::Arc;
use std::sync::atomic::{AtomicU32, Ordering};

// How many bytes are read of an answer besides those that its body allows: its heads, those of 1xx too.
const MOST_BESIDES: usize = 65_536;

// How many bytes are read for each byte of the body that was handed over: that byte, and the lines of a chunk that has no
// other, whose size may be padded with zeros.
const MOST_FOR_A_BYTE: usize = 16;

/// How many bytes of an answer's body were handed over: whoever gathers it tells the stream.
#[derive(Drop)]
pub(crate) struct BodyCount {
    bytes: Arc<AtomicU32>,
}

impl BodyCount {
    /// None yet.
    pub(crate) fn new(alloc: Global) -> Result<BodyCount, Lost> {
        match Arc::new(alloc, AtomicU32::new(0)) {
            Ok(bytes) => Ok(BodyCount { bytes }),
            Err(_) => Err(Lost::NoMemory),
        }
    }

    /// One more handle to the same count.
    pub(crate) fn share(&self) -> Result<BodyCount, Lost> {
        match self.bytes.clone() {
            Ok(bytes) => Ok(BodyCount { bytes }),
            Err(_) => Err(Lost::NoMemory),
        }
    }

    /// So many more were handed over.
    pub(crate) fn add(&self, more: usize) {
        let more = u32::try_from(more).unwrap_or(u32::MAX);
        self.bytes.fetch_add(more, Ordering::SeqCst);
    }

    fn bytes(&self) -> u32 {
        self.bytes.load(Ordering::SeqCst)
    }
}

/// What is read of one answer.
#[derive(Drop)]
pub(crate) struct Intake {
    // How many bytes were read.
    count: usize,
    body: BodyCount,
}

impl Intake {
    /// Nothing was read yet of an answer whose body is counted so.
    pub(crate) fn new(body: BodyCount) -> Intake
        ensures { result.count ≡ 0 }
    {
        Intake { count: 0, body }
    }

    /// Reads from a socket, no more than the answer may have: `InvalidData` once that was read.
    pub(crate) fn read(&mut self, socket: &TcpStream, buf: &mut [u8]) -> io::Result<usize>
        ensures { ReadsAtMost result buf.new }
    {
        let body = self.body.bytes();
        self.read_within(socket, body, buf)
    }

    // The same once so many bytes of the body were handed over.
    fn read_within(&mut self, socket: &TcpStream, body: u32, buf: &mut [u8]) -> io::Result<usize>
        ensures within { self.old.count ≤ most_read body → self.new.count ≤ most_read body }
        ensures counted { IfOk result (λ count. self.new.count ≡ self.old.count + count) }
        ensures uncounted { OnErr result (self.new.count ≡ self.old.count) }
        ensures refused { most_read body ≤ self.old.count → IsErr result }
        ensures bound { ReadsAtMost result buf.new }
    {
        let room = self.room(body);
        if room == 0 {
            return Err(ErrorKind::InvalidData.into());
        }
        let most = buf.len().min(room);
        let mut socket = socket;
        let count = socket.read(&mut buf[..most])?;
        self.count += count;
        Ok(count)
    }

    // How many more bytes may be read.
    fn room(&self, body: u32) -> usize
        ensures { result ≡ most_read body - self.now.count }
    {
        let most = MOST_BESIDES + MOST_FOR_A_BYTE * (body as usize);
        most.saturating_sub(self.count)
    }
}
