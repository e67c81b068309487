//! Bytes with several owners. Clauses see the list of the bytes.

ghost use Rattle.std.specs.Prelude.{◌≡◌, ◌≤◌, ◌↔◌, [], length, slice_range, IfOk, IsTrue, MatchOption};

use crate::no_memory::NoMemory;
use bytes::Bytes;
use std::alloc::Global;
use std::marker::Model;

/// Bytes that several owners share, each seeing a part of one body in memory.
///
/// An owner of a part keeps the whole body alive.
#[derive(Drop)]
pub struct SharedBytes {
    bytes: Bytes,
}

impl Model for SharedBytes {
    ghost use Rattle.std.specs.Prelude.{List, ℕ};

    ghost Value = { List ℕ };

    ghost view = { λ s. s.bytes };
}

impl SharedBytes {
    ghost use Rattle.edge_types.specs.Pieces.{StandsAt};

    /// No bytes. Takes no memory.
    pub fn new() -> SharedBytes
        ensures { result ≡ [] }
    {
        SharedBytes {
            bytes: Bytes::new(),
        }
    }

    /// Keeps these bytes and copies none; it allocates only a count of owners.
    pub fn of(bytes: Vec<u8>) -> Result<SharedBytes, NoMemory>
        ensures { IfOk result (λ shared. shared ≡ bytes.items) }
    {
        Ok(SharedBytes {
            bytes: Bytes::from_vec(bytes)?,
        })
    }

    /// Copies these bytes, for several owners.
    pub fn copy_of(alloc: Global, bytes: &[u8]) -> Result<SharedBytes, NoMemory>
        ensures { IfOk result (λ shared. shared ≡ bytes.now) }
    {
        SharedBytes::of(bytes.to_vec(alloc)?)
    }

    /// Lends the bytes. Takes no memory.
    pub fn as_bytes(&self) -> &[u8]
        ensures { result.now ≡ self.now }
    {
        self.bytes.as_slice()
    }

    /// How many bytes there are. Takes no memory.
    pub fn len(&self) -> usize
        ensures { result ≡ length self.now }
    {
        self.bytes.len()
    }

    /// Whether there are no bytes. Takes no memory.
    pub fn is_empty(&self) -> bool
        ensures { IsTrue result ↔ (self.now ≡ []) }
    {
        self.len() == 0
    }

    /// A second owner. Refused only if the count of owners is full.
    pub fn share(&self) -> Result<SharedBytes, NoMemory>
        ensures { IfOk result (λ shared. shared ≡ self.now) }
    {
        Ok(SharedBytes {
            bytes: self.bytes.clone()?,
        })
    }

    /// A second owner, of the bytes `from` to `to` alone. Refused only if the count of
    /// owners is full.
    pub fn part(&self, from: usize, to: usize) -> Result<SharedBytes, NoMemory>
        requires order { from ≤ to }
        requires within { to ≤ length self.now }
        ensures { IfOk result (λ shared. shared ≡ slice_range self.now from to) }
    {
        Ok(SharedBytes {
            bytes: self.bytes.slice(from..to)?,
        })
    }

    /// A second owner of these bytes, if they stand here from `from` on; else `None`. Refused only if the count of
    /// owners is full.
    pub fn part_at(&self, from: usize, bytes: &[u8]) -> Result<Option<SharedBytes>, NoMemory>
        ensures { IfOk result (λ found. MatchOption found (¬ StandsAt from bytes.now self.now)
            (λ part. (part ≡ bytes.now) × StandsAt from bytes.now self.now)) }
    {
        if from > self.len() || bytes.len() > self.len() - from {
            return Ok(None);
        }
        let part = self.part(from, from + bytes.len())?;
        if part.as_bytes() != bytes {
            return Ok(None);
        }
        Ok(Some(part))
    }

    /// Gives the bytes up as those of a frame. Takes no memory.
    pub fn into_bytes(self) -> Bytes
        ensures { result ≡ self }
    {
        self.bytes
    }
}
