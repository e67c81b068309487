//! How the fetches from one origin have ended.

use fetch_outcomes::{FetchFault, FetchTally};
use std::sync::atomic::{AtomicU64, Ordering};

/// How many fetches from one origin have ended how, which threads count without a lock.
#[derive(Drop)]
pub(crate) struct FetchCounts {
    answered: AtomicU64,
    too_many: AtomicU64,
    at_rest: AtomicU64,
    connect: AtomicU64,
    timeout: AtomicU64,
    cut: AtomicU64,
    too_long: AtomicU64,
    coded: AtomicU64,
    status: AtomicU64,
    fields: AtomicU64,
}

impl FetchCounts {
    /// None has ended yet.
    pub(crate) fn new() -> FetchCounts {
        FetchCounts {
            answered: AtomicU64::new(0),
            too_many: AtomicU64::new(0),
            at_rest: AtomicU64::new(0),
            connect: AtomicU64::new(0),
            timeout: AtomicU64::new(0),
            cut: AtomicU64::new(0),
            too_long: AtomicU64::new(0),
            coded: AtomicU64::new(0),
            status: AtomicU64::new(0),
            fields: AtomicU64::new(0),
        }
    }

    /// The count of the fetches that end so, by an answer or a fault; none if they have no origin.
    pub(crate) fn count_of(&self, fault: Option<FetchFault>) -> Option<&AtomicU64> {
        let Some(fault) = fault else {
            return Some(&self.answered);
        };
        match fault {
            FetchFault::NoOrigin => None,
            FetchFault::TooMany => Some(&self.too_many),
            FetchFault::AtRest => Some(&self.at_rest),
            FetchFault::Connect => Some(&self.connect),
            FetchFault::Timeout => Some(&self.timeout),
            FetchFault::Cut => Some(&self.cut),
            FetchFault::TooLong => Some(&self.too_long),
            FetchFault::Coded => Some(&self.coded),
            FetchFault::Status => Some(&self.status),
            FetchFault::Fields => Some(&self.fields),
        }
    }

    /// What was counted until now.
    pub(crate) fn tally(&self) -> FetchTally {
        FetchTally {
            answered: self.answered.load(Ordering::SeqCst),
            too_many: self.too_many.load(Ordering::SeqCst),
            at_rest: self.at_rest.load(Ordering::SeqCst),
            connect: self.connect.load(Ordering::SeqCst),
            timeout: self.timeout.load(Ordering::SeqCst),
            cut: self.cut.load(Ordering::SeqCst),
            too_long: self.too_long.load(Ordering::SeqCst),
            coded: self.coded.load(Ordering::SeqCst),
            status: self.status.load(Ordering::SeqCst),
            fields: self.fields.load(Ordering::SeqCst),
        }
    }
}
