//! A page, and the tickets in hand. Clauses see both; `specs/Events.antt` says what each call does
//! to them, and `specs/Holding.antt` what holds between the calls.
ghost use Rattle.std.specs.Prelude.{◌≡◌, ◌≤◌, ◌<◌, false, slice_get, IfOk, OnOk, IfSome, IfNone};
ghost use Rattle.std.specs.Arc.{arc_value};
ghost use Rattle.edge_types.specs.Outcome.{shown};
ghost use Rattle.esi_meaning.specs.Meaning.{AreLevels, outcome};
ghost use Rattle.answer_board.specs.Board.{log_of};
ghost use Rattle.plan_machine.specs.Headline.{IsTrueOver};
ghost use Rattle.plan_runner.specs.Calls.{told_state};
ghost use Rattle.plan_runner.specs.Events.{IsClaim, IsPost, Advances, answered_by, empty_handed};
ghost use Rattle.plan_runner.specs.Holding.{IsHeld, IsAtEnd, IsSameBut, ClaimsOne, OnlyClaims, left};
ghost use Rattle.plan_runner.specs.Page.{accepted};

use crate::page::{MAX_AHEAD, Page, PageError, PostFault, State};
use answer_board::Ticket;
use edge_types::{Answer, NoMemory, Outcome, PageUrl, Request, Table};
use plan_compiler::Prepared;
use std::alloc::Global;
use std::marker::Model;
use std::sync::Arc;

// A ticket that is given up when it is dropped.
struct HeldTicket {
    ticket: Ticket,
}

impl Model for HeldTicket {
    ghost use Rattle.answer_board.specs.Board as board;

    ghost Value = { board.Ticket };

    ghost view = { λ h. h.ticket };
}

impl Drop for HeldTicket {
    fn drop(self) {
        let HeldTicket { ticket } = self;
        ticket.give_up();
    }
}

impl HeldTicket {
    fn url(&self) -> &PageUrl
        ensures { result.now ≡ self.now.url }
    {
        self.ticket.url()
    }

    fn into_ticket(self) -> Ticket
        ensures { result ≡ self }
    {
        let HeldTicket { ticket } = self;
        ticket
    }
}

/// A page, and the tickets in hand: those that were claimed and not posted, oldest first.
#[derive(Drop)]
pub(crate) struct Hand {
    alloc: Global,
    page: Page,
    tickets: Vec<HeldTicket>,
}

impl Model for Hand {
    ghost use Rattle.plan_runner.specs.Events.{Held};

    ghost Value = { Held };

    ghost view = { λ h. record { page = h.page; tickets = h.tickets.items } };
}

// The table's answer of a URL.
fn answer_of(alloc: Global, table: &Table, url: &PageUrl) -> Result<Arc<Answer>, NoMemory>
    ensures { IfOk result (λ answer. arc_value answer ≡ answered_by table.now url.now) }
{
    match table.get(url) {
        Some(answer) => Ok(Arc::try_clone(answer)?),
        None => Ok(Arc::new(alloc, Answer::failed(url.share()?))?),
    }
}

// The table's answer of a URL, made ready.
fn fetched(alloc: Global, table: &Table, url: &PageUrl) -> Result<Prepared, NoMemory>
    ensures { IfOk result (λ prepared. prepared ≡ answered_by table.now url.now) }
{
    Prepared::of(alloc, answer_of(alloc, table, url)?)
}

// A post of a ticket in hand is refused only if memory runs out.
fn want_of_memory(fault: PostFault) -> NoMemory
    requires { fault ≡ PostFault.NoMemory }
{
    match fault {
        PostFault::NoMemory => NoMemory,
        PostFault::Stranger(receipt)
        | PostFault::NotClaimed(receipt)
        | PostFault::Filled(receipt)
        | PostFault::Broken(receipt) => {
            receipt.give_up();
            unreachable!()
        }
    }
}

impl Hand {
    /// A page with no answers in, and with no tickets in hand.
    pub(crate) fn accept(
        alloc: Global,
        url: PageUrl,
        request: Request,
        ahead: u16,
        levels: u8,
    ) -> Result<Hand, NoMemory>
        requires ahead { ahead ≤ MAX_AHEAD }
        requires levels { AreLevels levels }
        ensures { IfOk result (λ hand. hand ≡ empty_handed (accepted url request ahead levels)) }
    {
        Ok(Hand {
            alloc,
            page: Page::accept(alloc, url, request, ahead, levels)?,
            tickets: Vec::new(alloc),
        })
    }

    /// The page; the tickets in hand are given up.
    pub(crate) fn into_page(self) -> Page
        ensures { result ≡ self.page }
    {
        let Hand {
            alloc: _,
            page,
            tickets: _,
        } = self;
        page
    }

    /// The page, with what it told.
    pub(crate) fn into_page_with<T>(self, told: Result<T, NoMemory>) -> Result<(Page, T), NoMemory>
        ensures page { IfOk result (λ (page, _). page ≡ self.page) }
        ensures told { IfOk result (λ (_, found). told ≡ Ok found) }
    {
        let page = self.into_page();
        Ok((page, told?))
    }

    /// Claims the first unclaimed slot. False if no ticket was given.
    pub(crate) fn claim(&mut self, table: &Table) -> Result<bool, NoMemory>
        requires { IsHeld table.now self.old }
        ensures claim { OnOk result (IsClaim self.old self.new) }
        ensures held { OnOk result (IsHeld table.now self.new) }
        ensures one { IfOk result (λ given. ClaimsOne given self.old.page self.new.page) }
        ensures only { OnOk result (OnlyClaims table.now self.old.page self.new.page) }
    {
        match self.page.claim() {
            Some(ticket) => {
                self.tickets.push(HeldTicket { ticket })?;
                Ok(true)
            }
            None => Ok(false),
        }
    }

    /// Posts the table's answer for the ticket at this place, if there is one.
    pub(crate) fn post(&mut self, table: &Table, place: usize) -> Result<(), NoMemory>
        requires { IsHeld table.now self.old }
        ensures post { OnOk result (IsPost table.now place (slice_get self.old.tickets place) self.old self.new) }
        ensures held { OnOk result (IsHeld table.now self.new) }
    {
        let Some(held) = self.tickets.get(place) else {
            return Ok(());
        };
        let prepared = fetched(self.alloc, table, held.url())?;
        let ticket = self.tickets.remove(place).into_ticket();
        let receipt = match ticket.answered(prepared) {
            Ok(receipt) => receipt,
            Err((ticket, _)) => {
                ticket.give_up();
                unreachable!()
            }
        };
        match self.page.post(receipt) {
            Ok(()) => {}
            Err(fault) => return Err(want_of_memory(fault)),
        }
        Ok(())
    }

    /// Lets the page go on to where it waits or is done.
    pub(crate) fn advance(&mut self, table: &Table) -> Result<State, NoMemory>
        requires { IsHeld table.now self.old }
        ensures advances { IfOk result (λ told. Advances told self.old.page self.new.page) }
        ensures tickets { OnOk result (self.new.tickets ≡ self.old.tickets) }
        ensures held { OnOk result (IsHeld table.now self.new) }
        ensures over_the_table { IfOk result (λ told. IsTrueOver (log_of self.new.page.board) table.now self.new.page.request self.new.page.levels self.new.page.url (told_state told)) }
    {
        let told = match self.page.advance() {
            Ok(told) => told,
            Err(PageError::NoMemory) => return Err(NoMemory),
            Err(PageError::Broken) => unreachable!(),
        };
        Ok(told)
    }

    // Claims all that is unclaimed.
    fn claim_all(&mut self, table: &Table) -> Result<(), NoMemory>
        requires { IsHeld table.now self.old }
        ensures held { OnOk result (IsHeld table.now self.new) }
        ensures all { OnOk result (ClaimsOne false self.old.page self.new.page) }
        ensures only { OnOk result (OnlyClaims table.now self.old.page self.new.page) }
    {
        loop {
            if !self.claim(table)? {
                return Ok(());
            }
        }
    }

    // Advances, and returns the outcome if the page is done; if it waits, one answer is posted.
    fn round(&mut self, table: &Table) -> Result<Option<Arc<Outcome>>, NoMemory>
        requires { IsHeld table.now self.old }
        ensures done { IfOk result (λ done. IfSome done (λ o. shown (arc_value o) ≡ outcome self.old.page.request table.now self.old.page.levels self.old.page.url)) }
        ensures end { IfOk result (λ done. IfSome done (λ o. IsAtEnd table.now self.old.page self.new.page (shown (arc_value o)))) }
        ensures held { IfOk result (λ done. IfNone done (IsHeld table.now self.new)) }
        ensures same { IfOk result (λ done. IfNone done (IsSameBut self.old.page self.new.page)) }
        ensures less { IfOk result (λ done. IfNone done (left table.now self.new.page < left table.now self.old.page)) }
    {
        match self.advance(table)? {
            State::Done(outcome) => Ok(Some(outcome)),
            State::Waiting(_) => {
                self.claim_all(table)?;
                self.page.sound();
                self.post(table, 0)?;
                Ok(None)
            }
        }
    }

    /// Goes on, claims and posts the oldest ticket's answer until the page is done.
    pub(crate) fn finish(&mut self, table: &Table) -> Result<Arc<Outcome>, NoMemory>
        requires { IsHeld table.now self.old }
        ensures outcome { IfOk result (λ o. shown (arc_value o) ≡ outcome self.old.page.request table.now self.old.page.levels self.old.page.url) }
        ensures end { IfOk result (λ o. IsAtEnd table.now self.old.page self.new.page (shown (arc_value o))) }
    {
        loop {
            if let Some(outcome) = self.round(table)? {
                return Ok(outcome);
            }
        }
    }
}
