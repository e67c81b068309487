//! The state under a page's lock, and every decision about it.

ghost use Rattle.std.specs.Prelude.{◌≡◌, ◌↔◌, ◌+◌, ◌-◌, ◌^◌, ◌<◌, ◌≤◌, min, IsTrue, MatchBool};
ghost use Rattle.std.specs.VecDeque.{deque_len};
ghost use Rattle.plan_runner.specs.Sound.{IsSound};
ghost use Rattle.fetch_workers.specs.Faults.{fault_of_refusal};

use crate::fault::AssembleFault;
use answer_board::{Receipt, Ticket};
use edge_types::NoMemory;
use plan_runner::{Page, PostFault, State};
use std::alloc::Global;
use std::collections::VecDeque;

/// A ticket whose answer has to be waited for. It is given up with whoever holds it.
pub(crate) struct SetAside {
    pub(crate) ticket: Ticket,
}

impl Drop for SetAside {
    fn drop(self) {
        self.into_ticket().give_up();
    }
}

impl SetAside {
    pub(crate) fn into_ticket(self) -> Ticket
        ensures { result ≡ self.ticket }
    {
        let SetAside { ticket } = self;
        ticket
    }
}

/// A page, and how its workers share the work.
#[derive(Drop)]
pub(crate) struct Desk {
    page: Page,
    // An answer came in since the page was last advanced.
    news: bool,
    aside: VecDeque<SetAside>,
    // How many threads work for the page, and how many may.
    threads: u8,
    limit: u8,
    asleep: u8,
    // The work has ended: the page is done, or somebody can't go on. This isn't an event of the page.
    ended: bool,
    ghost few: { threads ≤ limit },
}

/// What a worker does next.
pub(crate) enum NextTask {
    /// To look whether the answer is ready.
    Prepare(Ticket),
    Fetch(Ticket),
    /// To start one more worker, and then to fetch.
    StartAndFetch(Ticket),
    Sleep,
    End,
    NoMemory,
}

impl Desk {
    pub(crate) fn new(alloc: Global, page: Page, workers: u8) -> Desk
        requires { 0 < workers }
        ensures page { result.page ≡ page }
        ensures limit { result.limit ≡ workers }
        ensures threads { (result.threads ≡ 1) × (result.asleep ≡ 0) }
    {
        Desk {
            page,
            news: true,
            aside: VecDeque::new(alloc),
            threads: 1,
            limit: workers,
            asleep: 0,
            ended: false,
        }
    }

    /// States what holds of the page whenever the desk is taken from its lock. Does nothing.
    pub(crate) fn sound(&self)
        ensures { IsSound self.now.page }
    {
        self.page.sound();
    }

    /// What a worker does next. A ticket that was set aside is handed out once no slot is unclaimed.
    pub(crate) fn next_task(&mut self) -> NextTask {
        if self.ended {
            return NextTask::End;
        }
        match self.advance() {
            Ok(false) => {}
            Ok(true) => return NextTask::End,
            Err(NoMemory) => return NextTask::NoMemory,
        }
        if let Some(ticket) = self.page.claim() {
            return NextTask::Prepare(ticket);
        }
        match self.aside.pop_front() {
            None => NextTask::Sleep,
            Some(aside) => self.hand_out(aside.into_ticket()),
        }
    }

    // Advances the page if an answer came in. `true` means that it is done, and the work has ended; the work
    // also ends if memory runs out.
    fn advance(&mut self) -> Result<bool, NoMemory> {
        if !self.news {
            return Ok(false);
        }
        self.news = false;
        let advanced = match self.page.advance() {
            Ok(State::Waiting(_)) => return Ok(false),
            Ok(State::Done(_)) => Ok(true),
            Err(_) => Err(NoMemory),
        };
        self.ended = true;
        advanced
    }

    fn hand_out(&mut self, ticket: Ticket) -> NextTask {
        if self.take_place() {
            NextTask::StartAndFetch(ticket)
        } else {
            NextTask::Fetch(ticket)
        }
    }

    // Counts one more thread, exactly if a ticket is left for it, nobody who could take that ticket is asleep,
    // and one more may be started.
    fn take_place(&mut self) -> bool
        ensures count { MatchBool result (self.new.threads ≡ self.old.threads + 1) (self.new.threads ≡ self.old.threads) }
        ensures start { IsTrue result ↔ ((0 < deque_len self.old.aside) × (self.old.asleep ≡ 0) × (self.old.threads < self.old.limit)) }
    {
        if self.aside.is_empty() || self.asleep > 0 || self.threads >= self.limit {
            return false;
        }
        self.threads += 1;
        true
    }

    /// Keeps a ticket until all others are looked at.
    pub(crate) fn set_aside(&mut self, ticket: Ticket) -> Result<(), NoMemory> {
        self.aside.push_back(SetAside { ticket })?;
        Ok(())
    }

    /// Posts an answer, and returns its place in the log. If the page refuses it the work has ended.
    pub(crate) fn post(&mut self, receipt: Receipt) -> Result<usize, AssembleFault> {
        let place = self.page.posted();
        match self.page.post(receipt) {
            Ok(()) => {
                self.news = true;
                Ok(place)
            }
            Err(fault) => {
                self.ended = true;
                Err(refused(fault))
            }
        }
    }

    pub(crate) fn falls_asleep(&mut self)
        ensures { self.new.asleep ≡ min (self.old.asleep + 1) (2 ^ 8 - 1) }
    {
        self.asleep = self.asleep.saturating_add(1);
    }

    pub(crate) fn wakes(&mut self)
        ensures { self.new.asleep ≡ self.old.asleep - 1 }
    {
        self.asleep = self.asleep.saturating_sub(1);
    }

    pub(crate) fn end(&mut self) {
        self.ended = true;
    }

    /// The page, without the state of its workers.
    pub(crate) fn into_page(self) -> Page {
        let Desk {
            page,
            news: _,
            aside: _,
            threads: _,
            limit: _,
            asleep: _,
            ended: _,
        } = self;
        page
    }
}

// What a page's refusal means. Only a page other than the one that gave the ticket refuses a
// receipt.
fn refused(fault: PostFault) -> AssembleFault
    ensures { result ≡ fault_of_refusal fault }
{
    match fault {
        PostFault::NoMemory => AssembleFault::NoMemory,
        PostFault::Broken(receipt) => {
            receipt.give_up();
            AssembleFault::NoMemory
        }
        PostFault::Stranger(receipt)
        | PostFault::NotClaimed(receipt)
        | PostFault::Filled(receipt) => {
            receipt.give_up();
            AssembleFault::Torn
        }
    }
}
