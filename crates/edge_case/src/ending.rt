//! How the run of a case ends.
ghost use Rattle.std.specs.Prelude.{◌≡◌};
ghost use Rattle.edge_case.specs.declared.ending.CaseFault.TheVariants as fault;

use edge_types::NoMemory;
use std::alloc::{AllocError, AllocFailed};
use thiserror::Error;

/// What was printed.
#[derive(Clone, Copy, Debug, Drop, PartialEq, Eq)]
pub enum CaseEnd {
    /// A page.
    PagePrinted,
    /// The single line of a page's fault.
    FaultPrinted,
}

/// Why nothing was printed, or only a part.
#[derive(Clone, Copy, Debug, Drop, PartialEq, Eq, Error)]
pub enum CaseFault {
    /// The input isn't a case text.
    #[error("the input is no case text: write its lines in the form of case texts")]
    BadCase,
    /// An allocation failed.
    #[error("out of memory: run the case again with more of it")]
    NoMemory,
    /// A read failed.
    #[error("the input could not be read: hand it in again from its first byte")]
    Read,
    /// A write failed, or took no byte.
    #[error("the output could not be written: discard what was written, and run the case again")]
    Write,
}

impl From<NoMemory> for CaseFault {
    ghost from_gives = { λ _ e. e ≡ fault.NoMemory };

    fn from(_: NoMemory) -> CaseFault {
        CaseFault::NoMemory
    }
}

impl From<AllocError> for CaseFault {
    ghost from_gives = { λ _ e. e ≡ fault.NoMemory };

    fn from(_: AllocError) -> CaseFault {
        CaseFault::NoMemory
    }
}

impl<T: Drop> From<AllocFailed<T>> for CaseFault {
    ghost from_gives = { λ _ e. e ≡ fault.NoMemory };

    fn from(_: AllocFailed<T>) -> CaseFault {
        CaseFault::NoMemory
    }
}
