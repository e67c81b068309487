//! Whether connections to an address are kept: where bytes come unasked, some that come a little later would be taken for
//! an answer.

ghost use Rattle.std.specs.Prelude.{◌≡◌, ◌<◌, length, IfSome};
ghost use Rattle.hyper_source.specs.Reuse as spec;

use std::net::SocketAddr;

// For how many milliseconds no connection to an address is kept since bytes came from it unasked.
const STRAY_REST: u64 = 60_000;

/// Whether connections to an address are kept. Milliseconds are those of the caller's clock.
#[derive(Clone, Copy, Debug, PartialEq, Eq)]
pub(crate) enum Reuse {
    /// No bytes came from it unasked.
    Kept,
    /// Such bytes were seen last at this millisecond.
    Strayed(u64),
}

impl Reuse {
    /// Whether a connection may be kept now.
    pub(crate) fn keeps(self, now: u64) -> bool
        ensures { result ≡ spec.keeps self now }
    {
        match self {
            Reuse::Kept => true,
            Reuse::Strayed(since) => now.saturating_sub(since) >= STRAY_REST,
        }
    }
}

/// Whether connections to one address are kept.
#[derive(Clone, Copy, Debug, PartialEq, Eq)]
pub(crate) struct AddressReuse {
    pub(crate) address: SocketAddr,
    pub(crate) reuse: Reuse,
}

/// Where an address stands among these.
pub(crate) fn place_of(reuses: &[AddressReuse], address: SocketAddr) -> Option<usize>
    ensures { IfSome result (λ i. i < length reuses.now) }
{
    reuses.iter().position(|one| one.address == address)
}
