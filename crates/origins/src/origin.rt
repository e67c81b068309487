//! Where the pages of an authority are fetched from.

ghost use Rattle.std.specs.Prelude.{◌≡◌, ◌<◌, length, None, Some, IfSome, MatchOption};
ghost use Rattle.origins.specs.Origins as spec;

use std::net::SocketAddr;

/// An authority, and the address at which it is asked.
#[derive(Drop)]
pub struct Origin {
    /// The host, with `:port` if that isn't 80, as in a URL; or `*`, which means every
    /// authority that no origin in the list has.
    pub authority: Vec<u8>,
    /// Where it listens.
    pub address: SocketAddr,
}

// The authority of an origin that answers for all authorities without one.
const ANY: &[u8] = b"*";

/// The origin that is asked for an authority.
#[derive(Clone, Copy)]
pub struct Chosen {
    /// Where it stands in the list of all origins.
    pub place: usize,
    /// Where it listened at the start. Bounds and kept connections go by this.
    pub address: SocketAddr,
    /// Where it listens now.
    pub now: SocketAddr,
}

/// The first origin with an authority, byte for byte; else the first for any. It listens where it did at the start.
pub fn origin_for(origins: &[Origin], authority: &[u8]) -> Option<Chosen>
    ensures { MatchOption result
        (spec.place_of origins.now authority.now ≡ None)
        (λ chosen. (spec.place_of origins.now authority.now ≡ Some chosen.place) × (spec.address_at origins.now chosen.place ≡ Some chosen.address) × (chosen.now ≡ chosen.address)) }
{
    let place = place_of(origins, authority)?;
    let address = origins[place].address;
    Some(Chosen {
        place,
        address,
        now: address,
    })
}

fn place_of(origins: &[Origin], authority: &[u8]) -> Option<usize>
    ensures place { result ≡ spec.place_of origins.now authority.now }
    ensures within { IfSome result (λ i. i < length origins.now) }
{
    match own_place_of(origins, authority) {
        Some(place) => Some(place),
        None => own_place_of(origins, ANY),
    }
}

fn own_place_of(origins: &[Origin], authority: &[u8]) -> Option<usize>
    ensures place { result ≡ spec.own_place_of origins.now authority.now }
    ensures within { IfSome result (λ i. i < length origins.now) }
{
    origins
        .iter()
        .position(|origin| origin.authority.as_slice() == authority)
}
