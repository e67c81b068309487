//! The flights of a shard: fetches that are under way, and answers that wait for their pick-ups.
//! Clauses see them by number, in order, and the next number.

use crate::flight_state::{FlightState, MAX_PICKS};
use crate::numbered_flights::{arrive, note_pick_up, picks, use_up};
use edge_types::{Answer, NoMemory, PageUrl, SharedAnswer};
use std::alloc::Global;
use std::collections::BTreeMap;
use std::marker::Model;
use std::sync::Arc;

/// The most flights that a shard keeps: those under way, and those that wait for pick-ups.
pub const MAX_FLIGHTS: usize = 1024;

/// The right and the duty to fetch a URL and to land the answer. It can be neither copied nor
/// dropped: `Shard::land` alone takes it, so nobody who joins a flight waits for one that was forgotten.
/// Clauses see its number and its URL.
#[must_use]
pub struct Flight {
    number: u64,
    url: PageUrl,
}

impl Model for Flight {
    ghost use Rattle.fragment_cache.specs.Machine as machine;

    ghost Value = { machine.Flight };

    ghost view = { λ f. record { number = f.number; url = f.url } };
}

impl Flight {
    ghost use Rattle.std.specs.Prelude.{◌≡◌};

    /// The URL to fetch. Takes no memory.
    pub fn url(&self) -> &PageUrl
        ensures { result.now ≡ self.now.url }
    {
        &self.url
    }

    /// The number under which others join it. Takes no memory.
    pub fn number(&self) -> u64
        ensures { result ≡ self.now.number }
    {
        self.number
    }

    // Ends the duty of a flight that was landed.
    pub(crate) fn end(self) {
        let Flight { number: _, url: _ } = self;
    }
}

/// The result of `pick`.
#[derive(Drop)]
pub enum Picked {
    /// The flight landed with this answer.
    Here(Arc<Answer>),
    /// The flight has not landed yet.
    Flying,
    /// The shard has no such flight.
    Unknown,
}

// The flights that the shard keeps.
#[derive(Drop)]
pub(crate) struct Flights {
    by_number: BTreeMap<u64, FlightState>,
    // The number of the flight that is under way for a URL.
    flying: BTreeMap<PageUrl, u64>,
    next: u64,
}

impl Model for Flights {
    ghost use Rattle.fragment_cache.specs.Machine.{Airspace};
    ghost use Rattle.fragment_cache.specs.Index.{Indexed};

    ghost Value = { Airspace };

    ghost view = { λ f. record { flights = f.by_number.entries; next = f.next } };

    ghost invariant = { λ f. Indexed f.flying f.by_number.entries f.next };
}

impl Flights {
    ghost use Rattle.std.specs.Prelude.{◌≡◌, ◌↔◌, ◌+◌, ◌-◌, ◌^◌, ◌<◌, ◌++◌, ◌∷◌, [], length, Some, IsTrue, IsSome, IfOk, OnErr, MatchOption, MatchBool};
    ghost use Rattle.std.specs.Arc.{arc_value};
    ghost use Rattle.edge_types.specs.Answered.{failed};
    ghost use Rattle.fragment_cache.specs.Machine as machine;
    ghost use Rattle.fragment_cache.specs.Machine.{flight_at, picks_at, flying_at, NoneFlies, changed, one_more, departed};
    ghost use Rattle.fragment_cache.specs.Sound.{AreFlights};
    ghost use Rattle.fragment_cache.specs.Steps.{Arrives, PicksUp, IsFull, Departs};
    ghost use Rattle.fragment_cache.specs.Shown.{picked_answer};

    pub(crate) fn new(alloc: Global) -> Flights
        ensures { result ≡ record { flights = []; next = 0 } }
    {
        Flights {
            by_number: BTreeMap::new(alloc),
            flying: BTreeMap::new(alloc),
            next: 0,
        }
    }

    // States the invariant of the flights for callers.
    pub(crate) fn sound(&self)
        ensures { AreFlights self.now.flights self.now.next }
    {
        let _ = &self.by_number;
    }

    // The number of the flight that is under way for a URL.
    pub(crate) fn flying(&self, url: &PageUrl) -> Option<u64>
        ensures { MatchOption result (NoneFlies self.now.flights url.now)
            (λ number. flying_at self.now.flights number ≡ Some url.now) }
    {
        self.flying.get(url).copied()
    }

    // Whether this very flight is under way here.
    pub(crate) fn flies(&self, flight: &Flight) -> bool
        ensures { IsTrue result ↔ (flying_at self.now.flights flight.now.number ≡ Some flight.now.url) }
    {
        match self.flying.get(flight.url()).copied() {
            Some(number) => number == flight.number,
            None => false,
        }
    }

    // Notes one more pick-up; returns whether there was room for it.
    pub(crate) fn join(&mut self, number: u64) -> bool
        requires { IsSome (flying_at self.old.flights number) }
        ensures { MatchBool result
            ((picks_at self.old.flights number < MAX_PICKS)
            × (self.new ≡ record self.old { flights = changed number one_more self.old.flights }))
            ((picks_at self.old.flights number ≡ MAX_PICKS) × (self.new ≡ self.old)) }
    {
        if picks(&self.by_number, number) == MAX_PICKS {
            return false;
        }
        note_pick_up(&mut self.by_number, number);
        true
    }

    // Opens a flight, and makes a failed answer for its leader; `None` only if there is no room.
    pub(crate) fn lead(
        &mut self,
        alloc: Global,
        url: &PageUrl,
    ) -> Result<Option<(Flight, Arc<Answer>)>, NoMemory>
        requires { NoneFlies self.old.flights url.now }
        ensures ok { IfOk result (λ found. MatchOption found
            (IsFull self.old × (self.new ≡ self.old))
            (λ lead. Departs self.old url.now lead.0 (arc_value lead.1) self.new)) }
        ensures err { OnErr result (self.new ≡ self.old) }
    {
        if self.by_number.len() >= MAX_FLIGHTS || self.next == u64::MAX {
            return Ok(None);
        }
        Ok(Some(self.try_lead(alloc, url)?))
    }

    fn try_lead(&mut self, alloc: Global, url: &PageUrl) -> Result<(Flight, Arc<Answer>), NoMemory>
        requires none { NoneFlies self.old.flights url.now }
        requires room { length self.old.flights < MAX_FLIGHTS }
        requires numbers { self.old.next < 2 ^ 64 - 1 }
        ensures ok { IfOk result (λ lead. Departs self.old url.now lead.0 (arc_value lead.1) self.new) }
        ensures err { OnErr result (self.new ≡ self.old) }
    {
        let number = self.next;
        let ready = Arc::new(alloc, Answer::failed(url.share()?))?;
        let own = url.share()?;
        open(&mut self.flying, &mut self.by_number, url, number)?;
        self.next = number + 1;
        Ok((Flight { number, url: own }, ready))
    }

    // How many pick-ups the flight with a number has left.
    pub(crate) fn pick_ups(&self, number: u64) -> u16
        ensures { result ≡ picks_at self.now.flights number }
    {
        picks(&self.by_number, number)
    }

    // Lands a flight that is under way, with its pick-ups; it is gone if it has none, or if a second
    // owner of the answer can't be made.
    pub(crate) fn land(&mut self, flight: &Flight, answer: &SharedAnswer)
        requires flies { flying_at self.old.flights flight.now.number ≡ Some flight.now.url }
        requires named { answer.now.url ≡ flight.now.url }
        ensures flights { Arrives self.old.flights flight.now.number answer.now self.new.flights }
        ensures next { self.new.next ≡ self.old.next }
    {
        self.flying.remove(flight.url());
        arrive(&mut self.by_number, flight.number, answer);
    }

    // Uses up one pick-up of a flight that has landed.
    pub(crate) fn pick(&mut self, number: u64) -> Picked
        ensures picks { PicksUp self.old.flights number (picked_answer result) self.new.flights }
        ensures next { self.new.next ≡ self.old.next }
    {
        let landed = match self.by_number.get(&number) {
            None => return Picked::Unknown,
            Some(flight) => match flight.landed() {
                None => return Picked::Flying,
                Some(landed) => landed.share(),
            },
        };
        use_up(&mut self.by_number, number);
        match landed {
            Ok(answer) => Picked::Here(answer.into_arc()),
            Err(NoMemory) => Picked::Unknown,
        }
    }
}

ghost use Rattle.std.specs.Prelude.{◌≡◌, ◌<◌, ◌++◌, ◌∷◌, [], None, Some, OnOk, OnErr};
ghost use Rattle.std.specs.List.{AllByRecursion};
ghost use Rattle.std.specs.BTreeMap.{get};
ghost use Rattle.std.specs.Ordering.{nat_cmp};
ghost use Rattle.std.specs.Cmp.Lexicographic.{slice_cmp};
ghost use Rattle.fragment_cache.specs.Machine.{departed};
ghost use Rattle.fragment_cache.specs.Index.{Changes, HaveSameNumbers};

// Adds a flight that has just left to both the index and the flights, or to neither.
fn open(
    flying: &mut BTreeMap<PageUrl, u64>,
    by_number: &mut BTreeMap<u64, FlightState>,
    url: &PageUrl,
    number: u64,
) -> Result<(), NoMemory>
    requires absent { get (slice_cmp nat_cmp) flying.old url.now ≡ None }
    requires last { AllByRecursion (λ e. e.0 < number) by_number.old.entries }
    ensures index { OnOk result (Changes url.now (Some number) flying.old flying.new) }
    ensures flights { OnOk result (by_number.new.entries ≡ by_number.old.entries ++ (number, departed url.now) ∷ []) }
    ensures index_stays { OnErr result (HaveSameNumbers flying.old flying.new) }
    ensures flights_stay { OnErr result (by_number.new.entries ≡ by_number.old.entries) }
{
    let departed = FlightState::departed(url.share()?);
    flying.insert(url.share()?, number)?;
    match by_number.insert(number, departed) {
        Ok(_) => Ok(()),
        Err(_) => {
            flying.remove(url);
            Err(NoMemory)
        }
    }
}
