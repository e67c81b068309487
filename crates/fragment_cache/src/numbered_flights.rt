//! The flights that a shard keeps, by number.

ghost use Rattle.std.specs.Prelude.{◌≡◌, ◌<◌, IsSome};
ghost use Rattle.std.specs.BTreeMap.{IsOrdered};
ghost use Rattle.std.specs.Ordering.{nat_cmp};
ghost use Rattle.fragment_cache.specs.Machine.{flight_at, picks_at, changed, without, picked, one_more, one_fewer, landed_with};
ghost use Rattle.fragment_cache.specs.Steps.{Arrives};

use crate::flight_state::{FlightState, MAX_PICKS};
use edge_types::{NoMemory, SharedAnswer};
use std::collections::BTreeMap;

// How many pick-ups the flight with a number has left.
pub(crate) fn picks(flights: &BTreeMap<u64, FlightState>, number: u64) -> u16
    ensures { result ≡ picks_at flights.now.entries number }
{
    match flights.get(&number) {
        Some(flight) => flight.picks(),
        None => 0,
    }
}

// Removes a flight.
pub(crate) fn take_out(flights: &mut BTreeMap<u64, FlightState>, number: u64)
    ensures { flights.new.entries ≡ without number flights.old.entries }
{
    ordered(flights);
    let _ = flights.remove(&number);
}

// States what `len` promises of the map: its numbers are in order.
fn ordered(flights: &BTreeMap<u64, FlightState>)
    ensures { IsOrdered nat_cmp flights.now }
{
    let _ = flights.len();
}

// Lands a flight with its pick-ups; it is gone if it has none, or if a second owner of the answer
// can't be made.
pub(crate) fn arrive(flights: &mut BTreeMap<u64, FlightState>, number: u64, answer: &SharedAnswer)
    requires { IsSome (flight_at flights.old.entries number) }
    ensures { Arrives flights.old.entries number answer.now flights.new.entries }
{
    if picks(flights, number) == 0 {
        take_out(flights, number);
        return;
    }
    match answer.share() {
        Ok(answer) => put_answer(flights, number, answer),
        Err(NoMemory) => take_out(flights, number),
    }
}

// Uses up a pick-up of a flight that has landed; the last one ends it.
pub(crate) fn use_up(flights: &mut BTreeMap<u64, FlightState>, number: u64)
    requires { IsSome (flight_at flights.old.entries number) }
    ensures { flights.new.entries ≡ picked number flights.old.entries }
{
    if picks(flights, number) > 1 {
        use_pick_up(flights, number);
    } else {
        take_out(flights, number);
    }
}

// Notes one more pick-up for a flight.
pub(crate) fn note_pick_up(flights: &mut BTreeMap<u64, FlightState>, number: u64)
    requires known { IsSome (flight_at flights.old.entries number) }
    requires room { picks_at flights.old.entries number < MAX_PICKS }
    ensures { flights.new.entries ≡ changed number one_more flights.old.entries }
{
    match flights.get_mut(&number) {
        Some(flight) => flight.join(),
        None => unreachable!(),
    }
}

fn use_pick_up(flights: &mut BTreeMap<u64, FlightState>, number: u64)
    requires known { IsSome (flight_at flights.old.entries number) }
    requires some { 0 < picks_at flights.old.entries number }
    ensures { flights.new.entries ≡ changed number one_fewer flights.old.entries }
{
    match flights.get_mut(&number) {
        Some(flight) => flight.pick(),
        None => unreachable!(),
    }
}

// Stores the answer with which a flight has landed.
fn put_answer(flights: &mut BTreeMap<u64, FlightState>, number: u64, answer: SharedAnswer)
    requires { IsSome (flight_at flights.old.entries number) }
    ensures { flights.new.entries ≡ changed number (landed_with answer) flights.old.entries }
{
    match flights.get_mut(&number) {
        Some(flight) => flight.land(answer),
        None => unreachable!(),
    }
}
