//! What a cache keeps, and how it was asked.

ghost use Rattle.std.specs.Prelude.{◌≡◌};
ghost use Rattle.fragment_cache.specs.Tally as spec;

use crate::shard::Begun;

/// What a cache keeps, and by what it gave the answers that were asked for. A look-up that is refused, since as many wait for its
/// fetch as may, is counted only where it is bridged. No number wraps: one that is the largest stays.
///
/// Our profile.
#[derive(Clone, Copy, Debug, Drop, PartialEq, Eq)]
pub struct CacheTally {
    /// Answers that are stored.
    pub entries: u64,
    /// The bytes of their bodies.
    pub bytes: u64,
    /// Given by an answer that is stored.
    pub hits: u64,
    /// Given by a fetch that somebody else makes.
    pub joins: u64,
    /// Given by a fetch for all who ask meanwhile.
    pub leads: u64,
    /// Given by a fetch for whoever asked alone, for want of room.
    pub bypasses: u64,
    /// Answers that are stored and were given in place of a fetch that failed, or wasn't made in time.
    pub bridges: u64,
}

impl CacheTally {
    /// Nothing is stored, and nothing was asked for.
    pub fn new() -> CacheTally
        ensures { result ≡ spec.nothing }
    {
        CacheTally {
            entries: 0,
            bytes: 0,
            hits: 0,
            joins: 0,
            leads: 0,
            bypasses: 0,
            bridges: 0,
        }
    }

    /// Counts an answer that is asked for.
    pub fn note(&mut self, begun: &Begun)
        ensures { self.new ≡ spec.noted begun.now self.old }
    {
        match begun {
            Begun::Hit(_) => self.note_hit(),
            Begun::Join(_) => self.joins = self.joins.saturating_add(1),
            Begun::Lead(_, _) => self.leads = self.leads.saturating_add(1),
            Begun::Bypass => self.bypasses = self.bypasses.saturating_add(1),
        }
    }

    /// Counts an answer that was there when it was looked for.
    pub fn note_hit(&mut self)
        ensures { self.new ≡ spec.hit self.old }
    {
        self.hits = self.hits.saturating_add(1);
    }

    /// Counts an answer that bridges.
    pub fn note_bridge(&mut self)
        ensures { self.new ≡ spec.bridged self.old }
    {
        self.bridges = self.bridges.saturating_add(1);
    }

    /// Both together.
    pub fn plus(self, other: CacheTally) -> CacheTally
        ensures { result ≡ spec.sum self other }
    {
        CacheTally {
            entries: self.entries.saturating_add(other.entries),
            bytes: self.bytes.saturating_add(other.bytes),
            hits: self.hits.saturating_add(other.hits),
            joins: self.joins.saturating_add(other.joins),
            leads: self.leads.saturating_add(other.leads),
            bypasses: self.bypasses.saturating_add(other.bypasses),
            bridges: self.bridges.saturating_add(other.bridges),
        }
    }
}
