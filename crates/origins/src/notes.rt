//! What a source notes of its fetches. Clauses see the authorities of its origins, in order.

ghost use Rattle.std.specs.Prelude.{◌≡◌, IfOk};
ghost use Rattle.origins.specs.Authorities as spec;
ghost use Rattle.origins.specs.Origins.{authorities_of};

use crate::fetch_counts::FetchCounts;
use crate::latest_faults::LatestFaults;
use crate::origin::Origin;
use edge_types::{NoMemory, PageUrl};
use fetch_outcomes::{FetchFault, OriginTally};
use std::alloc::{AllocError, Global};
use std::marker::Model;
use std::sync::atomic::{AtomicU64, Ordering};
use std::sync::{Mutex, Wait};

// An origin's authority, how the fetches from it have ended, and how often bytes came from it unasked.
#[derive(Drop)]
struct CountedOrigin {
    authority: Vec<u8>,
    counts: FetchCounts,
    strays: AtomicU64,
}

/// How the fetches of a `HyperSource`, and of all sources for other requests that were made of it, have ended: each is
/// noted once, at its end. One that is given up isn't, nor is one for which memory ran out.
///
/// Our profile.
#[derive(Drop)]
pub struct FetchNotes {
    origins: Vec<CountedOrigin>,
    without_origin: AtomicU64,
    latest: Mutex<LatestFaults>,
}

impl Model for FetchNotes {
    ghost use Rattle.std.specs.Prelude.{List, ℕ};
    ghost use Rattle.origins.specs.Authorities.{counted};

    ghost Value = { List (List ℕ) };

    ghost view = { λ n. counted n.origins.items };
}

impl FetchNotes {
    /// No fetch from these origins has ended yet.
    pub fn new(alloc: Global, origins: &[Origin]) -> Result<FetchNotes, AllocError>
        ensures { IfOk result (λ notes. notes ≡ authorities_of origins.now) }
    {
        Ok(FetchNotes {
            origins: counts_of(alloc, origins)?,
            without_origin: AtomicU64::new(0),
            latest: Mutex::new(LatestFaults::new(alloc)?),
        })
    }

    /// How the fetches from each origin have ended until now, in the order of the origins. Of several with one authority
    /// the first alone is asked.
    ///
    /// `NoMemory` if an allocation fails.
    pub fn tallies(&self, alloc: Global) -> Result<Vec<OriginTally>, NoMemory>
        ensures { IfOk result (λ tallies. spec.told tallies.items ≡ self.now) }
    {
        tallies_of(alloc, self.origins.as_slice())
    }

    /// How many fetches had no origin until now. Takes no memory.
    pub fn without_origin(&self) -> u64 {
        self.without_origin.load(Ordering::SeqCst)
    }

    /// Why a URL couldn't be fetched when that failed last. `None` if it hasn't failed, if 1,024 other URLs have failed
    /// since, or if there was no memory to note it. That it was fetched since then changes nothing. Takes no memory.
    pub fn fault_of<R: Wait>(&self, rt: &R, url: &PageUrl) -> Option<FetchFault> {
        self.latest.lock(rt).fault_of(url)
    }

    /// A fetch has ended, of a URL whose origin stands at this place, if it has one: with this fault, or with an answer.
    pub fn note<R: Wait>(
        &self,
        rt: &R,
        url: &PageUrl,
        place: Option<usize>,
        fault: Option<FetchFault>,
    ) {
        self.count_of(place, fault).fetch_add(1, Ordering::SeqCst);
        if let Some(fault) = fault {
            let _ = self.latest.lock(rt).note(url, fault);
        }
    }

    /// Bytes came unasked from the origin at this place.
    pub fn note_strays(&self, place: usize) {
        if let Some(origin) = self.origins.get(place) {
            origin.strays.fetch_add(1, Ordering::SeqCst);
        }
    }

    fn count_of(&self, place: Option<usize>, fault: Option<FetchFault>) -> &AtomicU64 {
        let origin = place.and_then(|place| self.origins.get(place));
        match origin.and_then(|origin| origin.counts.count_of(fault)) {
            Some(count) => count,
            None => &self.without_origin,
        }
    }
}

fn counts_of(alloc: Global, origins: &[Origin]) -> Result<Vec<CountedOrigin>, AllocError>
    ensures { IfOk result (λ made. spec.counted made.items ≡ authorities_of origins.now) }
{
    let mut made = Vec::new(alloc);
    for origin in origins {
        made.push(CountedOrigin {
            authority: origin.authority.as_slice().to_vec(alloc)?,
            counts: FetchCounts::new(),
            strays: AtomicU64::new(0),
        })?;
    }
    Ok(made)
}

fn tallies_of(alloc: Global, origins: &[CountedOrigin]) -> Result<Vec<OriginTally>, NoMemory>
    ensures { IfOk result (λ made. spec.told made.items ≡ spec.counted origins.now) }
{
    let mut made = Vec::new(alloc);
    for origin in origins {
        made.push(OriginTally {
            authority: origin.authority.as_slice().to_vec(alloc)?,
            fetches: origin.counts.tally(),
            strays: origin.strays.load(Ordering::SeqCst),
        })?;
    }
    Ok(made)
}
