//! What a single worker does: it looks for answers that are ready, fetches, and posts. It keeps
//! a handle to each answer that it posted.

ghost use Rattle.std.specs.Prelude.{◌≡◌, ◌<◌, IfOk, OnOk, OnSome};
ghost use Rattle.std.specs.Arc.{arc_value};
ghost use Rattle.fetch_workers.specs.Given.{AllOwn};

use crate::desk::NextTask;
use crate::fault::AssembleFault;
use crate::log::Own;
use crate::shared_desk::Shared;
use answer_board::{Receipt, Ticket};
use answer_sources::{ConcurrentSource, Gate, Given, Way, fetch_alone};
use edge_types::{Answer, NoMemory, SharedAnswer};
use plan_compiler::Prepared;
use std::alloc::Global;
use std::sync::{Arc, Wait};

/// What works for a page in one thread.
#[derive_where(Clone, Copy)]
pub(crate) struct Worker<'a, R, S, G, D> {
    pub rt: &'a R,
    pub alloc: Global,
    pub source: &'a S,
    pub gate: &'a G,
    /// The desk of the page.
    pub shared: &'a D,
}

impl<'a, R: Wait, S: ConcurrentSource<R>, G: Gate<R>, D: Shared<R>> Worker<'a, R, S, G, D> {
    // The receipt from a ticket and the answer of its URL, which the source makes ready, and a second handle to the
    // answer. If memory runs out the ticket is given up.
    fn receipt_of(
        &self,
        ticket: Ticket,
        answer: Arc<Answer>,
    ) -> Result<(Receipt, SharedAnswer), NoMemory>
        requires { (arc_value answer).url ≡ ticket.url }
        ensures { IfOk result (λ (receipt, own). own ≡ arc_value answer) }
    {
        let (own, prepared) = match self.made_ready(answer) {
            Ok(made) => made,
            Err(NoMemory) => {
                ticket.give_up();
                return Err(NoMemory);
            }
        };
        match ticket.answered(prepared) {
            Ok(receipt) => Ok((receipt, own)),
            Err((ticket, _)) => {
                ticket.give_up();
                Err(NoMemory)
            }
        }
    }

    fn made_ready(&self, answer: Arc<Answer>) -> Result<(SharedAnswer, Prepared), NoMemory>
        ensures { IfOk result (λ (own, prepared). (own ≡ arc_value answer) × (prepared ≡ arc_value answer)) }
    {
        let own = SharedAnswer::of(Arc::try_clone(&answer)?);
        Ok((own, self.source.prepared(self.rt, self.alloc, answer)?))
    }

    /// Posts the answer of a ticket, and keeps a handle to it.
    pub(crate) fn post(
        &self,
        ticket: Ticket,
        given: Given,
        mine: &mut Vec<Own>,
    ) -> Result<(), AssembleFault>
        requires mine { AllOwn (S.gives self.now.source.now) mine.old.items }
        requires answer { S.gives self.now.source.now ticket.url (arc_value given.answer) }
        ensures { OnOk result (AllOwn (S.gives self.now.source.now) mine.new.items) }
    {
        let Given { answer, way } = given;
        let (receipt, own) = self.receipt_of(ticket, answer)?;
        let place = self.shared.post(self.rt, receipt)?;
        match mine.push(Own {
            place,
            answer: own,
            way,
        }) {
            Ok(()) => Ok(()),
            Err(_) => Err(AssembleFault::NoMemory),
        }
    }

    /// Posts the answer of a ticket if the source has it ready, and otherwise sets the ticket aside.
    pub(crate) fn prepare(&self, ticket: Ticket, mine: &mut Vec<Own>) -> Result<(), AssembleFault>
        requires { AllOwn (S.gives self.now.source.now) mine.old.items }
        ensures { OnOk result (AllOwn (S.gives self.now.source.now) mine.new.items) }
    {
        match self.source.ready(self.rt, self.alloc, ticket.url()) {
            Ok(Some(answer)) => self.post(ticket, Given::new(answer, Way::Stored), mine),
            Ok(None) => {
                self.shared.set_aside(self.rt, ticket)?;
                Ok(())
            }
            Err(NoMemory) => {
                ticket.give_up();
                Err(AssembleFault::NoMemory)
            }
        }
    }

    /// Fetches once, and posts the answer. The worker makes room for the answer before it fetches.
    pub(crate) fn fetch_one(&self, ticket: Ticket, mine: &mut Vec<Own>) -> Result<(), AssembleFault>
        requires { AllOwn (S.gives self.now.source.now) mine.old.items }
        ensures { OnOk result (AllOwn (S.gives self.now.source.now) mine.new.items) }
    {
        if mine.reserve(1).is_err() {
            ticket.give_up();
            return Err(AssembleFault::NoMemory);
        }
        self.gate.before_fetch(self.rt, ticket.url());
        match fetch_alone(self.source, self.rt, self.alloc, ticket.url()) {
            Ok(Some(given)) => self.post(ticket, given, mine),
            Ok(None) => {
                ticket.give_up();
                Err(AssembleFault::Torn)
            }
            Err(NoMemory) => {
                ticket.give_up();
                Err(AssembleFault::NoMemory)
            }
        }
    }

    /// Works until the work has ended, or until one more worker is to be started before a ticket is
    /// fetched.
    pub(crate) fn work(
        &self,
        others: u8,
        mine: &mut Vec<Own>,
    ) -> Result<Option<Ticket>, AssembleFault>
        requires { AllOwn (S.gives self.now.source.now) mine.old.items }
        ensures given { OnOk result (AllOwn (S.gives self.now.source.now) mine.new.items) }
        ensures others { IfOk result (λ found. OnSome found (0 < others)) }
    {
        for _ in self.rt.forever() {
            match self.shared.wait_for_task(self.rt) {
                NextTask::End => return Ok(None),
                NextTask::NoMemory => return Err(AssembleFault::NoMemory),
                NextTask::Sleep => {}
                NextTask::Prepare(ticket) => self.prepare(ticket, mine)?,
                NextTask::StartAndFetch(ticket) if others > 0 => return Ok(Some(ticket)),
                NextTask::StartAndFetch(ticket) | NextTask::Fetch(ticket) => {
                    self.fetch_one(ticket, mine)?;
                }
            }
        }
        unreachable!()
    }
}
