//! Why a text isn't a template.

use edge_types::NoMemory;
use esi_scanner::ScanFault;
use std::alloc::AllocFailed;
use thiserror::Error;

/// Why a text isn't a template.
#[derive(Clone, Copy, Debug, Drop, PartialEq, Eq, Error)]
pub enum TreeFault {
    /// The place of the fault, in bytes: that of the tokens' fault, else of the first token that can't continue a
    /// template, else the text's length.
    #[error("no template begins with the text up to byte {0} and what stands there: correct it there")]
    Bad(usize),
    /// An allocation failed.
    #[error("out of memory: try again with more of it")]
    NoMemory,
}

impl From<NoMemory> for TreeFault {
    ghost use Rattle.std.specs.Prelude.{◌≡◌};
    ghost use Rattle.esi_tree.specs.declared.fault.TreeFault.TheVariants as fault;

    ghost from_gives = { λ _ e. e ≡ fault.NoMemory };

    fn from(_: NoMemory) -> TreeFault {
        TreeFault::NoMemory
    }
}

impl From<ScanFault> for TreeFault {
    ghost use Rattle.std.specs.Prelude.{◌≡◌};
    ghost use Rattle.esi_tree.specs.Fault.{fault_of};

    ghost from_gives = { λ scan e. e ≡ fault_of scan };

    fn from(scan: ScanFault) -> TreeFault {
        match scan {
            ScanFault::Malformed(at) => TreeFault::Bad(at),
            ScanFault::NoMemory => TreeFault::NoMemory,
        }
    }
}
