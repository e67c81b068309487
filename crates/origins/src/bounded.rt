//! Addresses whose fetches are bounded: so many in flight to one, and none to one that rests.

ghost use Rattle.std.specs.Prelude.{◌≡◌, ◌≢◌, IfOk, MatchOption, MatchResult, All};
ghost use Rattle.std.specs.declared.net.socket_addr.SocketAddr.{SocketAddr};
ghost use Rattle.origin_health.specs.declared.standing.FetchEnd.TheVariants as ends;
ghost use Rattle.origins.specs.Bounded as spec;

use crate::gate::{Bounds, Chance, Gate};
use crate::origin::Origin;
use edge_sockets::{Bell, millis};
use edge_types::NoMemory;
use fetch_outcomes::{FetchFault, Lost};
use origin_health::{FetchEnd, Permit};
use origin_queue::Place;
use std::alloc::Global;
use std::net::SocketAddr;
use std::sync::{Arc, Mutex, Wait};
use std::time::Clock;

/// What fetches to one address ask before they begin, and tell when they have ended. Nobody holds its lock while
/// fetching.
#[derive(Drop)]
pub struct OriginGate {
    /// The address.
    pub address: SocketAddr,
    shared: Arc<Mutex<Gate>>,
}

impl OriginGate {
    /// One more handle to the same gate.
    pub fn share(&self) -> Result<OriginGate, Lost>
        ensures { IfOk result (λ gate. gate.address ≡ self.now.address) }
    {
        match self.shared.clone() {
            Ok(shared) => Ok(OriginGate {
                address: self.address,
                shared,
            }),
            Err(_) => Err(Lost::NoMemory),
        }
    }

    /// Whether a fetch may be made now, or waits until it is called so.
    pub fn ask<R: Wait + Clock>(&self, rt: &R, bell: Bell) -> Chance {
        self.shared.lock(rt).ask(millis(rt), bell)
    }

    /// The same of a fetch that waits at a place.
    pub fn look<R: Wait + Clock>(&self, rt: &R, place: Place) -> Chance {
        let (chance, called) = self.shared.lock(rt).look(millis(rt), place);
        called.ring();
        chance
    }

    /// A fetch that waits at a place isn't made.
    pub fn leave<R: Wait>(&self, rt: &R, place: Place) {
        let called = self.shared.lock(rt).leave(place);
        called.ring();
    }

    /// The fetch has ended.
    pub fn ended<R: Wait + Clock>(&self, rt: &R, permit: Permit, end: FetchEnd) {
        let called = self.shared.lock(rt).ended(permit, end, millis(rt));
        called.ring();
    }
}

/// A gate for each address of these origins.
pub fn gates_of(
    alloc: Global,
    origins: &[Origin],
    bounds: Bounds,
) -> Result<Vec<OriginGate>, NoMemory>
    ensures { IfOk result (λ gates. All (λ origin. spec.HasGate gates.items origin.address) origins.now) }
{
    let mut gates = Vec::new(alloc);
    for origin in origins {
        add_gate(alloc, &mut gates, origin.address, bounds)?;
    }
    Ok(gates)
}

// Adds the gate of an address, unless it is there.
fn add_gate(
    alloc: Global,
    gates: &mut Vec<OriginGate>,
    address: SocketAddr,
    bounds: Bounds,
) -> Result<(), NoMemory>
    ensures added { IfOk result (λ _. spec.HasGate gates.new.items address) }
    ensures others { (other : SocketAddr) → spec.HasGate gates.old.items other → spec.HasGate gates.new.items other }
{
    if gate_of(gates.as_slice(), address).is_some() {
        return Ok(());
    }
    gates.push(OriginGate {
        address,
        shared: Arc::new(alloc, Mutex::new(Gate::new(alloc, bounds)))?,
    })?;
    Ok(())
}

/// The gate of an address; none where fetches aren't bounded.
pub fn gate_of(gates: &[OriginGate], address: SocketAddr) -> Option<&OriginGate>
    ensures { MatchOption result (All (λ gate. gate.address ≢ address) gates.now) (λ gate. (gate.now.address ≡ address) × spec.HasGate gates.now address) }
{
    gates.iter().find(|gate| gate.address == address)
}

/// What a fetch says of its origin: a response, or else a connection that was made, that it can be reached.
pub fn end_of<T>(is_connected: bool, came: &Result<T, Lost>) -> FetchEnd
    ensures { MatchResult came.now (λ _. result ≡ ends.Reached) (λ lost. result ≡ spec.end_of is_connected lost) }
{
    match came {
        Ok(_) => FetchEnd::Reached,
        Err(_) if is_connected => FetchEnd::Reached,
        Err(Lost::Fault(FetchFault::Connect | FetchFault::Timeout)) => FetchEnd::Unreachable,
        Err(Lost::Fault(_) | Lost::NoMemory) => FetchEnd::Other,
    }
}
