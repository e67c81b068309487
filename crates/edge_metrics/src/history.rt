//! What a server did of late.

ghost use Rattle.std.specs.Prelude.{◌≡◌, ◌≤◌, [], ◌∷◌, ◌++◌, length, OnOk, OnErr};

use std::alloc::{AllocError, Global};
use std::marker::Model;

// Those of ten minutes.
const MOST: usize = 60;

/// What a server did in ten seconds.
///
/// Our profile.
#[derive(Clone, Copy, Debug, Drop, PartialEq, Eq)]
pub struct Sample {
    /// How many requests it answered.
    pub requests: u64,
    /// How many look-ups in its cache were answered from what is kept.
    pub hits: u64,
    /// How many microseconds its slowest request took, 0 where there was none.
    pub slowest: u64,
}

/// What a server did in the last ten minutes, the oldest first: at most 60 samples of ten seconds each.
///
/// Our profile.
#[derive(Drop)]
pub struct History {
    samples: Vec<Sample>,
}

impl Model for History {
    ghost use Rattle.std.specs.Prelude.{List, vec_len, ◌≤◌};
    ghost use Rattle.edge_metrics.specs.declared.history.Sample.{Sample};

    ghost Value = { List Sample };

    ghost view = { λ h. h.samples.items };

    ghost invariant = { λ h. vec_len h.samples ≤ 60 };
}

impl History {
    ghost use Rattle.edge_metrics.specs.Recent.{last_of};

    /// Of no time. Takes no memory.
    pub fn new(alloc: Global) -> History
        ensures { result ≡ [] }
    {
        History {
            samples: Vec::new(alloc),
        }
    }

    /// Notes what was done in the next ten seconds; where there are 60 samples, the oldest goes. The only refusal is out of
    /// memory, which changes nothing.
    pub fn note(&mut self, sample: Sample) -> Result<(), AllocError>
        ensures ok { OnOk result (self.new ≡ last_of 60 (self.old ++ sample ∷ [])) }
        ensures err { OnErr result (self.new ≡ self.old) }
    {
        if self.samples.push(sample).is_err() {
            return Err(AllocError);
        }
        if self.samples.len() > MOST {
            self.samples.remove(0);
        }
        Ok(())
    }

    /// The samples.
    pub fn samples(&self) -> &[Sample]
        ensures samples { result.now ≡ self.now }
        ensures few { length result.now ≤ 60 }
    {
        self.samples.as_slice()
    }
}
