//! A fetch among others of its page.

ghost use Rattle.std.specs.Prelude.{IfOk};
ghost use Rattle.origin_exchange.specs.Behind.{FollowsHead};

use crate::errand::Errand;
use edge_sockets::{Deadline, Poller, Readiness, Watched};
use edge_types::PageUrl;
use fetch_outcomes::Lost;
use origin_exchange::{Behind, Exchange, ExchangeEnd, ExchangeStep, OriginSocket, Reach, lost_by};
use origins::Chosen;
use std::alloc::Global;
use std::time::{Clock, Instant};

/// A fetch that is under way.
#[derive(Drop)]
pub struct Fetch {
    /// What is fetched.
    pub url: PageUrl,
    /// The origin that is asked.
    pub origin: Chosen,
    /// Until when the fetch may take.
    pub deadline: Deadline,
    // What new connections tell of the origin.
    reach: Reach,
    // Whether its latest connection was made.
    is_connected: bool,
    // `None` once its latest attempt has ended.
    attempt: Option<Attempt>,
    // Whether it goes on without its socket being ready.
    goes_on: bool,
}

/// An attempt at a fetch, over one connection.
#[derive(Drop)]
pub struct Attempt {
    /// What goes over the connection.
    pub exchange: Exchange,
    /// Whether the connection was kept from an earlier fetch.
    pub is_kept: bool,
    /// What is told of its socket.
    pub watched: Watched,
}

/// What a step of a fetch has come to.
#[derive(Drop)]
pub enum FetchStep {
    /// The fetch waits for its next step.
    Waits,
    /// The fetch has ended so.
    Ended(ExchangeEnd<OriginSocket>),
    /// A kept connection was closed before the response began.
    Unheard,
}

impl Fetch {
    /// A fetch that makes this attempt, and for whose new connections `reach` tells of the origin.
    pub fn new(errand: Errand, reach: Reach, attempt: Attempt) -> Fetch {
        let Errand {
            url,
            origin,
            deadline,
            patience: _,
        } = errand;
        Fetch {
            url,
            origin,
            deadline,
            reach,
            is_connected: attempt.is_kept,
            attempt: Some(attempt),
            goes_on: false,
        }
    }

    /// Whether it is to make a step although nothing is told of its socket: it goes on, or is late.
    pub fn is_due(&self, now: Option<Instant>) -> bool {
        match now {
            Some(now) => self.goes_on || self.deadline.is_over(now),
            None => true,
        }
    }

    /// Whether its next step needs no wait.
    pub fn goes_on(&self) -> bool {
        self.goes_on
    }

    /// What a new connection of this fetch tells of the origin.
    pub fn told(&self) -> Result<Reach, Lost> {
        self.reach.share()
    }

    /// Whether the connection was made over which it was tried last.
    pub fn is_connected(&self) -> bool {
        self.is_connected
    }

    /// Makes another attempt.
    pub fn retries(&mut self, attempt: Attempt) {
        self.attempt = Some(attempt);
    }

    /// Goes on as far as it gets without a wait, or until others are to go on.
    pub fn step(
        &mut self,
        clock: &impl Clock,
        alloc: Global,
        poller: &Poller,
        key: usize,
    ) -> FetchStep {
        self.goes_on = false;
        let Some(mut attempt) = self.attempt.take() else {
            return FetchStep::Ended(ExchangeEnd::cut());
        };
        let step = attempt.exchange.step(alloc, poller.task());
        self.is_connected = attempt.is_kept || self.reach.is_connected();
        match step {
            ExchangeStep::Ended => return self.ended(poller, attempt),
            ExchangeStep::GoesOn => self.goes_on = true,
            ExchangeStep::Waits(need) => {
                if !attempt.is_watched(poller, key, need) {
                    return FetchStep::Ended(ExchangeEnd::cut());
                }
            }
        }
        match self.deadline.left(clock) {
            Ok(_) => {
                self.attempt = Some(attempt);
                FetchStep::Waits
            }
            Err(late) => FetchStep::Ended(ExchangeEnd::lost(lost_by(&late))),
        }
    }

    fn ended(&mut self, poller: &Poller, attempt: Attempt) -> FetchStep {
        let may_retry = attempt.is_kept && !attempt.exchange.has_heard();
        let ExchangeEnd { came, behind } = attempt.end(poller);
        match came {
            Err(Lost::Fault(_)) if may_retry => {
                self.is_connected = false;
                FetchStep::Unheard
            }
            came => FetchStep::Ended(ExchangeEnd {
                came: self.reach.judged(came),
                behind,
            }),
        }
    }
}

impl Attempt {
    // Has the poller tell when the socket is ready. Refused by the system only.
    fn is_watched(&mut self, poller: &Poller, key: usize, need: Readiness) -> bool {
        let socket = self.exchange.socket();
        match poller.watch(socket, key, self.watched, need) {
            Some(watched) => {
                self.watched = watched;
                true
            }
            None => false,
        }
    }

    // How it has ended. The socket of what is left isn't watched any longer.
    fn end(self, poller: &Poller) -> ExchangeEnd<OriginSocket>
        ensures { IfOk result.came (λ page. FollowsHead page.0 result.behind) }
    {
        let Attempt {
            exchange,
            is_kept: _,
            watched,
        } = self;
        let descriptor = exchange.socket();
        let ExchangeEnd { came, behind } = exchange.end();
        let behind = match behind {
            Behind::Open(stream) if watched == Watched::Nothing || poller.forget(descriptor) => {
                Behind::Open(stream.into_socket())
            }
            Behind::Open(_) | Behind::End => Behind::End,
            Behind::Strays => Behind::Strays,
        };
        ExchangeEnd { came, behind }
    }
}
