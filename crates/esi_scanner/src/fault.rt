//! Why a text has no tokens.

use edge_types::NoMemory;
use std::alloc::AllocFailed;
use thiserror::Error;

/// Why a text could not be cut into tokens.
#[derive(Clone, Copy, Debug, Drop, PartialEq, Eq, Error)]
pub enum ScanFault {
    /// No token begins at the opener at this place, or the block that begins there has no end.
    #[error("no token begins at byte {0}, or the block there has no end: correct it there")]
    Malformed(usize),
    /// Out of memory.
    #[error("out of memory: try again with more of it")]
    NoMemory,
}

impl From<NoMemory> for ScanFault {
    ghost use Rattle.std.specs.Prelude.{◌≡◌};
    ghost use Rattle.esi_scanner.specs.declared.fault.ScanFault.TheVariants as fault;

    ghost from_gives = { λ _ e. e ≡ fault.NoMemory };

    fn from(_: NoMemory) -> ScanFault {
        ScanFault::NoMemory
    }
}

impl<T: Drop> From<AllocFailed<T>> for ScanFault {
    ghost use Rattle.std.specs.Prelude.{◌≡◌};
    ghost use Rattle.esi_scanner.specs.declared.fault.ScanFault.TheVariants as fault;

    ghost from_gives = { λ _ e. e ≡ fault.NoMemory };

    fn from(_: AllocFailed<T>) -> ScanFault {
        ScanFault::NoMemory
    }
}
