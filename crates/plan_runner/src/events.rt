//! Pages that are run by a list of events over a table. Clauses see a page and the tickets in hand;
//! `specs/Events.antt` says what each event does to them.
ghost use Rattle.std.specs.Prelude.{◌≡◌, ◌≤◌, ◌<◌, length, IfOk, IfErr, OnOk};
ghost use Rattle.std.specs.Arc.{arc_value};
ghost use Rattle.edge_types.specs.Outcome.{shown};
ghost use Rattle.edge_types.specs.Table.{Agrees};
ghost use Rattle.esi_meaning.specs.Meaning.{AreLevels, outcome};
ghost use Rattle.esi_meaning.specs.State.{state};
ghost use Rattle.answer_board.specs.Board.{log_of};
ghost use Rattle.plan_machine.specs.Headline.{IsTrueOver};
ghost use Rattle.plan_runner.specs.declared.page.TheConstants.{MAX_AHEAD};
ghost use Rattle.plan_runner.specs.Calls.{told_state};
ghost use Rattle.plan_runner.specs.Events.{Happen, Ran, Advances, empty_handed};
ghost use Rattle.plan_runner.specs.Holding.{IsAtEnd, IsHeld};
ghost use Rattle.plan_runner.specs.Page.{accepted};

use crate::hand::Hand;
use crate::page::{MAX_AHEAD, Page, PageError, State};
use edge_types::{NoMemory, Outcome, PageUrl, Request, Table};
use std::alloc::Global;
use std::sync::Arc;

/// One call of a page, as an item of a list of events.
#[derive(Clone, Copy, Debug, Drop, PartialEq, Eq)]
pub enum Event {
    /// The first unclaimed slot is claimed; its ticket is the newest in hand.
    Claim,
    /// The table's answer is posted for the ticket in hand at this place, from 0, oldest first.
    Post(usize),
    /// The page goes on to where it waits or is done.
    Advance,
}

/// How a page is run over a table. Its outcome depends on the levels alone.
///
/// Our profile.
#[derive(Clone, Copy)]
pub struct Running<'a> {
    /// How many slots posts may open ahead.
    pub ahead: u16,
    /// The events that come first, in order.
    pub events: &'a [Event],
    /// How many levels of fragments there may be.
    pub levels: u8,
    ghost ahead_few: { ahead ≤ MAX_AHEAD },
    ghost levels_few: { AreLevels levels },
}

// The events, in order.
fn run_all(hand: &mut Hand, table: &Table, events: &[Event]) -> Result<(), NoMemory>
    requires { IsHeld table.now hand.old }
    ensures happen { OnOk result (Happen table.now events.now hand.old hand.new) }
    ensures held { OnOk result (IsHeld table.now hand.new) }
{
    let mut rest = events;
    while let Some((event, after)) = rest.split_first() {
        match event {
            Event::Claim => {
                hand.claim(table)?;
            }
            Event::Post(place) => hand.post(table, *place)?,
            Event::Advance => {
                hand.advance(table)?;
            }
        }
        rest = after;
    }
    Ok(())
}

// The events, in order, and then an advance.
fn told_after(hand: &mut Hand, table: &Table, events: &[Event]) -> Result<State, NoMemory>
    requires { IsHeld table.now hand.old }
    ensures ran { IfOk result (λ told. Ran table.now events.now hand.old told hand.new.page) }
    ensures held { OnOk result (IsHeld table.now hand.new) }
    ensures over_the_table { IfOk result (λ told. IsTrueOver (log_of hand.new.page.board) table.now hand.new.page.request hand.new.page.levels hand.new.page.url (told_state told)) }
{
    run_all(hand, table, events)?;
    hand.advance(table)
}

// The events, in order, and then all that is left.
fn outcome_after(hand: &mut Hand, table: &Table, events: &[Event]) -> Result<Arc<Outcome>, NoMemory>
    requires { IsHeld table.now hand.old }
    ensures outcome { IfOk result (λ o. shown (arc_value o) ≡ outcome hand.old.page.request table.now hand.old.page.levels hand.old.page.url) }
    ensures end { IfOk result (λ o. IsAtEnd table.now hand.old.page hand.new.page (shown (arc_value o))) }
{
    run_all(hand, table, events)?;
    hand.finish(table)
}

/// Runs a page over a table by its events, in order, and then lets it go on to where it waits or
/// is done, and returns that state. A claim without an unclaimed slot does nothing, nor does a post
/// without a ticket in hand at its place.
///
/// `NoMemory` at the first event that runs out of it; `Broken` never. Tickets that are still in hand at
/// the end are given up.
///
/// Source: ESI Language Specification 1.0, "ESI Language"; events and limits are our profile.
pub fn run_events(
    alloc: Global,
    url: PageUrl,
    request: Request,
    table: &Table,
    running: Running<'_>,
) -> Result<(Page, State), PageError>
    // Each event happens, in order and none left out, and then an advance.
    ensures ran { IfOk result (λ (page, told). Ran table.now running.entry.events.now (empty_handed (accepted url request running.entry.ahead running.entry.levels)) told page) }
    ensures agrees { IfOk result (λ (page, told). Agrees (log_of page.board) table.now) }
    ensures told { IfOk result (λ (page, told). told_state told ≡ state request (log_of page.board) running.entry.levels url) }
    ensures over_the_table { IfOk result (λ (page, told). IsTrueOver (log_of page.board) table.now request running.entry.levels url (told_state told)) }
    ensures err { IfErr result (λ e. e ≡ PageError.NoMemory) }
{
    let mut hand = Hand::accept(alloc, url, request, running.ahead, running.levels)?;
    let told = told_after(&mut hand, table, running.events);
    Ok(hand.into_page_with(told)?)
}

/// Runs a page over a table by its events, in order, and then to its end: it goes on to where it
/// waits, what is unclaimed is claimed, and the table's answer is posted for the oldest ticket in
/// hand, until the page is done. Whatever the events are, its outcome is that over the table. The page is
/// returned too, since it knows more than its outcome, as which leg failed it.
///
/// `NoMemory` if an allocation fails.
///
/// Source: ESI Language Specification 1.0, "ESI Language"; events and limits are our profile.
pub fn run_to_end(
    alloc: Global,
    url: PageUrl,
    request: Request,
    table: &Table,
    running: Running<'_>,
) -> Result<(Page, Arc<Outcome>), NoMemory>
    ensures outcome { IfOk result (λ (page, done). shown (arc_value done) ≡ outcome request table.now running.entry.levels url) }
    ensures page { IfOk result (λ (page, done). IsAtEnd table.now (accepted url request running.entry.ahead running.entry.levels) page (shown (arc_value done))) }
{
    let mut hand = Hand::accept(alloc, url, request, running.ahead, running.levels)?;
    let outcome = outcome_after(&mut hand, table, running.events);
    hand.into_page_with(outcome)
}
