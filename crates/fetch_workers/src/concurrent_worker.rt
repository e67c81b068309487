//! A worker that keeps several fetches in flight. It works for its page alone, and waits for whichever fetch ends
//! first.

ghost use Rattle.std.specs.Prelude.{◌≡◌, IfOk, IfSome, IsTrue, OnOk};
ghost use Rattle.fetch_workers.specs.Given.{AllOwn};

use crate::desk::{NextTask, SetAside};
use crate::fault::AssembleFault;
use crate::log::Own;
use crate::shared_desk::Shared;
use crate::worker::Worker;
use answer_board::Ticket;
use answer_sources::{ConcurrentSource, Gate, let_go};
use edge_types::{NoMemory, PageUrl};
use std::alloc::Global;
use std::sync::Wait;

/// What a worker has in flight: the fetches of its source, and the tickets whose answers they are to give.
pub(crate) struct Flights<F> {
    pub(crate) fetches: F,
    pub(crate) tickets: Vec<SetAside>,
}

impl<F> Flights<F> {
    /// The fetches, once nobody asks for their answers.
    pub(crate) fn into_fetches(self) -> F {
        let Flights {
            fetches,
            tickets: _,
        } = self;
        fetches
    }
}

/// How far a worker gets by what the source has ready.
pub(crate) enum Reached {
    /// The work has ended.
    End,
    /// Nothing is left to do before something was fetched.
    Sleep,
    /// This is to be fetched.
    Fetch(Ticket),
}

impl<'a, R: Wait, S: ConcurrentSource<R>, G: Gate<R>, D: Shared<R>> Worker<'a, R, S, G, D> {
    /// Works until the work has ended, with at most so many fetches in flight; those that are left then are given up.
    /// Returns what the worker posted.
    pub(crate) fn work_concurrently(&self, most: u16) -> Result<Vec<Own>, AssembleFault>
        ensures { IfOk result (λ own. AllOwn (S.gives self.now.source.now) own.items) }
    {
        let mut mine = Vec::new(self.alloc);
        let mut flights = self.nothing_in_flight();
        let worked = self.keep_working(most, &mut flights, &mut mine);
        let mut fetches = flights.into_fetches();
        let_go(self.source, self.rt, self.alloc, &mut fetches);
        self.source.give_up(self.rt, self.alloc, fetches);
        worked?;
        Ok(mine)
    }

    fn keep_working(
        &self,
        most: u16,
        flights: &mut Flights<S::InFlight>,
        mine: &mut Vec<Own>,
    ) -> Result<(), AssembleFault>
        requires { AllOwn (S.gives self.now.source.now) mine.old.items }
        ensures { OnOk result (AllOwn (S.gives self.now.source.now) mine.new.items) }
    {
        for _ in self.rt.forever() {
            if self.go_on_flying(most, flights, mine)? {
                return Ok(());
            }
            self.source
                .wait(self.rt, self.alloc, &mut flights.fetches, None)?;
        }
        unreachable!()
    }

    /// Works as far as it gets without waiting for a fetch. Whether the work has ended. What is in flight is kept there, once
    /// something is: most pages need nothing but what is ready.
    pub(crate) fn go_on(
        &self,
        most: u16,
        flights: &mut Option<Box<Flights<S::InFlight>>>,
        mine: &mut Vec<Own>,
    ) -> Result<bool, AssembleFault>
        requires { AllOwn (S.gives self.now.source.now) mine.old.items }
        ensures { OnOk result (AllOwn (S.gives self.now.source.now) mine.new.items) }
    {
        if flights.is_none() {
            match self.reach(mine)? {
                Reached::End => return Ok(true),
                Reached::Sleep => return Err(AssembleFault::Torn),
                Reached::Fetch(ticket) => self.begin_first(flights, ticket, mine)?,
            }
        }
        match flights {
            Some(flights) => self.go_on_flying(most, &mut **flights, mine),
            None => Err(AssembleFault::Torn),
        }
    }

    // The same with these fetches in flight.
    fn go_on_flying(
        &self,
        most: u16,
        flights: &mut Flights<S::InFlight>,
        mine: &mut Vec<Own>,
    ) -> Result<bool, AssembleFault>
        requires { AllOwn (S.gives self.now.source.now) mine.old.items }
        ensures { OnOk result (AllOwn (S.gives self.now.source.now) mine.new.items) }
    {
        for _ in self.rt.forever() {
            if flights.tickets.len() >= usize::from(most) {
                if !self.take_one(flights, mine)? {
                    return Ok(false);
                }
                continue;
            }
            match self.reach(mine)? {
                Reached::End => return Ok(true),
                Reached::Sleep => {
                    if !self.take_one(flights, mine)? {
                        return Ok(false);
                    }
                }
                Reached::Fetch(ticket) => self.begin(flights, ticket, mine)?,
            }
        }
        unreachable!()
    }

    // Works as far as it gets by what the source has ready.
    fn reach(&self, mine: &mut Vec<Own>) -> Result<Reached, AssembleFault>
        requires { AllOwn (S.gives self.now.source.now) mine.old.items }
        ensures { OnOk result (AllOwn (S.gives self.now.source.now) mine.new.items) }
    {
        for _ in self.rt.forever() {
            match self.shared.next_task(self.rt) {
                NextTask::End => return Ok(Reached::End),
                NextTask::NoMemory => return Err(AssembleFault::NoMemory),
                NextTask::Sleep => return Ok(Reached::Sleep),
                NextTask::Prepare(ticket) => self.prepare(ticket, mine)?,
                NextTask::StartAndFetch(ticket) | NextTask::Fetch(ticket) => {
                    return Ok(Reached::Fetch(ticket));
                }
            }
        }
        unreachable!()
    }

    // Begins the first fetch, for a ticket.
    fn begin_first(
        &self,
        flights: &mut Option<Box<Flights<S::InFlight>>>,
        ticket: Ticket,
        mine: &mut Vec<Own>,
    ) -> Result<(), NoMemory>
        ensures { mine.new.items ≡ mine.old.items }
    {
        let held = SetAside { ticket };
        let mut first = match Box::new(self.alloc, self.nothing_in_flight()) {
            Ok(first) => first,
            Err(failed) => {
                self.give_up(failed.value);
                return Err(NoMemory);
            }
        };
        let begun = self.begin(&mut *first, held.into_ticket(), mine);
        if let Some(earlier) = flights.replace(first) {
            self.give_up(Box::into_inner(earlier));
        }
        begun
    }

    fn nothing_in_flight(&self) -> Flights<S::InFlight> {
        Flights {
            fetches: self.source.nothing_in_flight(self.rt, self.alloc),
            tickets: Vec::new(self.alloc),
        }
    }

    fn give_up(&self, flights: Flights<S::InFlight>) {
        self.source
            .give_up(self.rt, self.alloc, flights.into_fetches());
    }

    // Begins to fetch for a ticket. The worker makes room for the answer before.
    fn begin(
        &self,
        flights: &mut Flights<S::InFlight>,
        ticket: Ticket,
        mine: &mut Vec<Own>,
    ) -> Result<(), NoMemory>
        ensures { mine.new.items ≡ mine.old.items }
    {
        let held = SetAside { ticket };
        mine.reserve(flights.tickets.len() + 1)?;
        flights.tickets.reserve(1)?;
        self.gate.before_fetch(self.rt, held.ticket.url());
        self.source.begin(self.rt, self.alloc, &mut flights.fetches, held.ticket.url())?;
        flights.tickets.push(held)?;
        Ok(())
    }

    // Posts the answer of a fetch that has ended; false if none has. Where the source has lost a fetch, it is made once
    // more.
    fn take_one(
        &self,
        flights: &mut Flights<S::InFlight>,
        mine: &mut Vec<Own>,
    ) -> Result<bool, AssembleFault>
        requires { AllOwn (S.gives self.now.source.now) mine.old.items }
        ensures { OnOk result (AllOwn (S.gives self.now.source.now) mine.new.items) }
    {
        let next = self.source.next(self.rt, self.alloc, &mut flights.fetches)?;
        let Some(given) = next else {
            if !self.source.is_idle(&flights.fetches) {
                return Ok(false);
            }
            match flights.tickets.pop() {
                Some(held) => self.fetch_one(held.into_ticket(), mine)?,
                None => return Err(AssembleFault::Torn),
            }
            return Ok(true);
        };
        // Else nobody has asked for it.
        if let Some(ticket) = take_ticket(&mut flights.tickets, given.answer.url()) {
            self.post(ticket, given, mine)?;
        }
        Ok(true)
    }
}

// Takes out the ticket for a URL. Of answers that are there at the same time the latest that was asked for mostly comes
// first.
fn take_ticket(tickets: &mut Vec<SetAside>, url: &PageUrl) -> Option<Ticket>
    ensures { IfSome result (λ ticket. ticket.url ≡ url.now) }
{
    let place = tickets.iter().rposition(|held| is_for(held, url))?;
    Some(tickets.swap_remove(place).into_ticket())
}

// Whether the ticket is for a URL.
fn is_for(held: &SetAside, url: &PageUrl) -> bool
    ensures { IsTrue result → held.now.ticket.url ≡ url.now }
{
    held.ticket.url() == url
}
