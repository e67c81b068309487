//! The bytes of lines that wait until they are written.

ghost use Rattle.std.specs.Prelude.{◌≡◌, not, length, take, OnOk, OnErr, if◌then◌else◌};
ghost use Rattle.access_log.specs.Text.{IsLogText};

use crate::format::LogFormat;
use crate::line::report_of;
use crate::text::LogLine;
use std::alloc::{AllocError, Global};
use std::marker::Model;
use std::str;

// A write is due as soon as so many bytes wait,
const CHUNK: usize = 4_096;

// or so many milliseconds after the last one began.
const PAUSE_MILLIS: u64 = 10;

/// Lines that wait until somebody writes them, as many as there is room for: whoever has a line leaves it here, and
/// writes what waits only where nobody else does and a write is due. What there is no room for is lost, and the next line
/// that is kept comes behind one that says how many were.
///
/// Our profile.
#[derive(Drop)]
pub struct LineQueue {
    bytes: Vec<u8>,
    // What is before it was taken.
    start: usize,
    most: usize,
    // Since the last line that was kept.
    lost: u64,
    lost_in_all: u64,
    is_written: bool,
    // The millisecond in which the last write began.
    begun_at: u64,
}

impl Model for LineQueue {
    ghost use Rattle.std.specs.Prelude.{vec_len, drop, ◌≤◌};
    ghost use Rattle.access_log.specs.Queued.{Queued};
    ghost use Rattle.access_log.specs.Text.{IsLogText};

    ghost Value = { Queued };

    ghost view = { λ q. record { waiting = drop q.start q.bytes.items; most = q.most; lost = q.lost; lost_in_all = q.lost_in_all; is_written = q.is_written; begun_at = q.begun_at } };

    ghost invariant = { λ q. (q.start ≤ vec_len q.bytes) × IsLogText (drop q.start q.bytes.items) };
}

impl LineQueue {
    ghost use Rattle.access_log.specs.Queue.{Tells, TellsLost, begun, begun_at, empty, fits, is_due, kept, lost_one, may_begin, stopped, taken};

    /// A queue in which this many bytes may wait. Takes no memory.
    pub fn new(alloc: Global, most: usize) -> LineQueue
        ensures { result ≡ empty most }
    {
        LineQueue {
            bytes: Vec::new(alloc),
            start: 0,
            most,
            lost: 0,
            lost_in_all: 0,
            is_written: false,
            begun_at: 0,
        }
    }

    /// A line of this second since 1970 is to be written, with the line before it that says how many were lost, if some
    /// were. Where there is no room for both, it is lost too. The only refusal is running out of memory, which changes
    /// nothing: `lose` then says that the line is lost.
    pub fn tell(
        &mut self,
        alloc: Global,
        format: LogFormat,
        second: u64,
        line: &LogLine,
    ) -> Result<(), AllocError>
        ensures ok { OnOk result (Tells format second line.now self.old self.new) }
        ensures err { OnErr result (self.new ≡ self.old) }
    {
        if self.lost == 0 {
            return self.keep(line.as_bytes());
        }
        let report = report_of(alloc, format, second, self.lost)?;
        let mut text = Vec::from_slice(alloc, report.as_bytes())?;
        text.extend_from_slice(line.as_bytes())?;
        self.keep(text.as_slice())
    }

    /// The line that says how many were lost is to be written, if some were. Where there is no room for it, it is lost
    /// too. The only refusal is running out of memory, which changes nothing.
    pub fn tell_lost(
        &mut self,
        alloc: Global,
        format: LogFormat,
        second: u64,
    ) -> Result<(), AllocError>
        ensures ok { OnOk result (TellsLost format second self.old self.new) }
        ensures err { OnErr result (self.new ≡ self.old) }
    {
        if self.lost > 0 {
            let report = report_of(alloc, format, second, self.lost)?;
            return self.keep(report.as_bytes());
        }
        Ok(())
    }

    // Has bytes wait that tell of all that was lost, if there is room for them.
    fn keep(&mut self, text: &[u8]) -> Result<(), AllocError>
        requires { IsLogText text.now }
        ensures ok { OnOk result (self.new ≡ (if fits text.now self.old then kept text.now self.old else lost_one self.old)) }
        ensures err { OnErr result (self.new ≡ self.old) }
    {
        let waiting = self.bytes.len() - self.start;
        if waiting > self.most || text.len() > self.most - waiting {
            self.lose();
            return Ok(());
        }
        self.make_room();
        self.bytes.extend_from_slice(text)?;
        self.lost = 0;
        Ok(())
    }

    /// A line is lost, as for want of memory.
    pub fn lose(&mut self)
        ensures { self.new ≡ lost_one self.old }
    {
        self.lost = self.lost.saturating_add(1);
        self.lost_in_all = self.lost_in_all.saturating_add(1);
    }

    /// How many lines were lost since the queue was made, whether a later one has told so or not.
    pub fn lost_in_all(&self) -> u64
        ensures { result ≡ self.now.lost_in_all }
    {
        self.lost_in_all
    }

    // Lets go of what was taken, once that is more than what waits: so each byte is moved once at most for each one taken.
    fn make_room(&mut self)
        ensures { self.new ≡ self.old }
    {
        let waiting = self.bytes.len() - self.start;
        if waiting < self.start {
            self.bytes.copy_within(self.start.., 0);
            self.bytes.truncate(waiting);
            self.start = 0;
        }
    }

    /// Whether the caller is to write what waits, at this millisecond of a clock: nobody does, and 4,096 bytes or more
    /// wait, or the last write that was begun so began ten milliseconds ago or earlier. Then nobody else is told so until
    /// it has stopped. What isn't written now waits for a later line, or for `begin_now`; so does what waits while the
    /// clock has gone back.
    pub fn begin(&mut self, now: u64) -> bool
        ensures due { result ≡ may_begin now self.old }
        ensures begun { self.new ≡ (if may_begin now self.old then begun_at now self.old else self.old) }
    {
        if self.is_written || !self.is_due(now) {
            return false;
        }
        self.is_written = true;
        self.begun_at = now;
        true
    }

    // Whether a write is worth its calls.
    fn is_due(&self, now: u64) -> bool
        ensures { result ≡ is_due now self.now }
    {
        let waiting = self.bytes.len() - self.start;
        waiting >= CHUNK || now.saturating_sub(self.begun_at) >= PAUSE_MILLIS
    }

    /// The same at any time, however few bytes wait. No later `begin` counts from it.
    pub fn begin_now(&mut self) -> bool
        ensures free { result ≡ not self.old.is_written }
        ensures begun { self.new ≡ begun self.old }
    {
        let is_free = !self.is_written;
        self.is_written = true;
        is_free
    }

    /// Takes the first bytes that wait, as many as there are and as the chunk holds, and returns them as a text, since
    /// all that waits is ASCII. Where there are none, the caller has stopped writing.
    pub fn take<'a>(&mut self, chunk: &'a mut [u8]) -> &'a str
        ensures text { result.now ≡ take (length chunk.old) self.old.waiting }
        ensures ascii { IsLogText result.now }
        ensures rest { self.new ≡ taken (length result.now) self.old }
    {
        let count = chunk.len().min(self.bytes.len() - self.start);
        if count == 0 {
            self.stop();
            return "";
        }
        let end = self.start + count;
        chunk[..count].copy_from_slice(&self.bytes[self.start..end]);
        self.start = end;
        as_text(&chunk[..count])
    }

    /// The caller writes no more.
    pub fn stop(&mut self)
        ensures { self.new ≡ stopped self.old }
    {
        self.is_written = false;
    }
}

// ASCII is UTF-8.
fn as_text(bytes: &[u8]) -> &str
    requires { IsLogText bytes.now }
    ensures { result.now ≡ bytes.now }
{
    str::from_utf8(bytes).unwrap()
}
