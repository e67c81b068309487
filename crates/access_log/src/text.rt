//! What lines are made of.

ghost use Rattle.std.specs.Prelude.{◌≡◌, ℕ, List, [], ◌++◌, codes, IfOk, OnOk};
ghost use Rattle.access_log.specs.Text.{IsLine, IsPrintable};

use std::alloc::{AllocError, Global};
use std::marker::Model;

/// A line of the log: printable ASCII, and the line feed that ends it.
#[derive(Drop)]
pub struct LogLine {
    bytes: Vec<u8>,
}

impl Model for LogLine {
    ghost Value = { List ℕ };

    ghost view = { λ line. line.bytes.items };

    ghost invariant = { λ line. IsLine line.bytes.items };
}

impl LogLine {
    /// Its bytes.
    pub fn as_bytes(&self) -> &[u8]
        ensures bytes { result.now ≡ self.now }
        ensures ascii { IsLine result.now }
    {
        self.bytes.as_slice()
    }
}

/// A line that has no end yet: printable ASCII.
#[derive(Drop)]
pub(crate) struct OpenLine {
    bytes: Vec<u8>,
}

impl Model for OpenLine {
    ghost Value = { List ℕ };

    ghost view = { λ line. line.bytes.items };

    ghost invariant = { λ line. IsPrintable line.bytes.items };
}

impl OpenLine {
    /// An empty one, which takes no memory.
    pub(crate) fn new(alloc: Global) -> OpenLine
        ensures { result ≡ [] }
    {
        OpenLine {
            bytes: Vec::new(alloc),
        }
    }

    /// An empty one with memory for so many bytes.
    pub(crate) fn with_capacity(alloc: Global, capacity: usize) -> Result<OpenLine, AllocError>
        ensures { IfOk result (λ line. line ≡ []) }
    {
        let bytes = Vec::with_capacity(alloc, capacity)?;
        Ok(OpenLine { bytes })
    }

    /// Appends printable ASCII.
    pub(crate) fn push(&mut self, text: &[u8]) -> Result<(), AllocError>
        requires { IsPrintable text.now }
        ensures { OnOk result (self.new ≡ self.old ++ text.now) }
    {
        self.bytes.extend_from_slice(text)
    }

    /// The line, with its end.
    pub(crate) fn end(self) -> Result<LogLine, AllocError>
        ensures line { IfOk result (λ line. line ≡ self ++ codes "\n") }
        ensures ascii { IfOk result IsLine }
    {
        let mut bytes = self.bytes;
        bytes.extend_from_slice(b"\n")?;
        Ok(LogLine { bytes })
    }
}
