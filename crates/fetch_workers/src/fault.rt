//! Why a page was not assembled.

ghost use Rattle.std.specs.Prelude.{◌≡◌};
ghost use Rattle.fetch_workers.specs.Faults.{first_of};
ghost use Rattle.fetch_workers.specs.declared.fault.AssembleFault.TheVariants as fault;

use edge_types::NoMemory;
use thiserror::Error;

/// Why a page was not assembled. If several of them hold, the first in this order is reported.
#[derive(Clone, Copy, Debug, Drop, PartialEq, Eq, PartialOrd, Ord, Error)]
pub enum AssembleFault {
    /// An allocation failed.
    #[error("out of memory: assemble the page again with more of it")]
    NoMemory,
    /// A worker could not be started.
    #[error("a thread could not be started: assemble the page again, or with fewer workers")]
    NoThread,
    /// What the page logged is not what the workers posted, it is a page other than the one that was
    /// asked for, or it is not done.
    #[error("the page isn't the one that its workers' answers make: assemble it again")]
    Torn,
}

impl AssembleFault {
    /// The first of two.
    pub(crate) fn or_earlier(self, other: AssembleFault) -> AssembleFault
        ensures { result ≡ first_of self other }
    {
        self.min(other)
    }
}

impl From<NoMemory> for AssembleFault {
    ghost from_gives = { λ _ reported. reported ≡ fault.NoMemory };

    fn from(_: NoMemory) -> AssembleFault {
        AssembleFault::NoMemory
    }
}
