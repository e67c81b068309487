//! A thread's turn at a connection: it answers what the connection asks, until that has to wait.

use crate::journal::{Journal, Unreported, record_of};
use crate::page_service::{Begun, PageService, Responded, Told};
use crate::serving::Serving;
use edge_connections::{Answered, Connection, Duty, Handover, IncomingRequest, Pause};
use edge_types::NoMemory;
use futures::Future;
use http::header::HeaderValue;
use http::{Request, Response, header};
use page_http::EdgeBody;
use std::alloc::AllocError;
use std::mem;
use std::net::IpAddr;
use std::os::fd::RawFd;
use std::sync::Wait;
use std::time::{Clock, Duration, Instant};

// For how many milliseconds at most a page holds its thread while it waits for its fetches, where there are threads in
// reserve: longer than a near origin takes.
const LINGERS_MILLIS: u64 = 30;

// After how many of them it looks again whether there are.
const STEP_MILLIS: u64 = 5;

/// A page that is being assembled, and the request that asked for it.
#[derive(Drop)]
pub(crate) struct PageAsked<P> {
    page: P,
    request: Requested,
}

/// A request that waits for its response, and when its head had come, where that is to be reported.
#[derive(Drop)]
pub(crate) struct Requested {
    pub incoming: IncomingRequest,
    begun: Option<Instant>,
}

/// Why a connection has to wait.
#[derive(Drop)]
pub(crate) struct Halt<P> {
    /// The page that waits for its fetches, if one does.
    pub page: Option<Box<PageAsked<P>>>,
    /// What is waited for.
    pub pause: Pause,
}

/// What a turn needs of its connection.
#[derive(Clone, Copy)]
pub(crate) struct Wire<'c> {
    // Where the responses to its requests are given.
    handover: &'c Handover,
    /// Its client's socket, where it is known.
    pub socket: Option<RawFd>,
    // Whether it may be parked.
    may_pause: bool,
}

impl<'c> Wire<'c> {
    /// That of this connection.
    pub(crate) fn of<C>(connection: &'c Connection<C>) -> Wire<'c>
    where
        C: Future<Output = hyper::Result<()>>,
    {
        Wire {
            handover: connection.handover(),
            socket: connection.socket(),
            may_pause: connection.may_pause(),
        }
    }
}

/// What a thread needs to answer the requests of a connection, and what comes of them beside the responses.
#[derive(Drop)]
pub(crate) struct Turn<'t, 'a, R, V: PageService<R>, J> {
    serving: &'t Serving<'a, R, V, J>,
    // What knows whether a page may hold the thread while it waits for its fetches; without it none may.
    duty: Option<Duty<'t>>,
    /// The client, where it is known.
    pub client: Option<IpAddr>,
    /// What is to be reported.
    pub unreported: Vec<Unreported>,
    /// What the pages that have ended owe to others.
    pub owed: Vec<V::Owed>,
}

impl<'t, 'a, R, V, J> Turn<'t, 'a, R, V, J>
where
    R: Wait + Clock,
    V: PageService<R>,
    J: Journal<R>,
{
    /// A turn at a connection of this client, of whose requests this is to be reported.
    pub(crate) fn new(
        serving: &'t Serving<'a, R, V, J>,
        duty: Option<Duty<'t>>,
        client: Option<IpAddr>,
        unreported: Vec<Unreported>,
    ) -> Turn<'t, 'a, R, V, J> {
        Turn {
            serving,
            duty,
            client,
            unreported,
            owed: Vec::new(serving.service.alloc()),
        }
    }

    /// Reports what is to be reported of a connection that has ended; and that the HTTP library refused it with this status,
    /// if it did.
    pub(crate) fn ended(&mut self, refusal: Option<u16>) {
        self.report();
        self.serving.report_refusal(self.client, refusal);
    }

    /// Reports what is to be reported, now that the responses have been written or the connection has ended.
    pub(crate) fn report(&mut self) {
        let alloc = self.serving.service.alloc();
        let unreported = mem::replace(&mut self.unreported, Vec::new(alloc));
        self.serving.report(unreported);
    }

    /// The request that has come, whose response is still to be begun.
    pub(crate) fn requested(&self, incoming: IncomingRequest) -> Requested {
        let begun = match self.serving.journal.is_enabled() {
            true => Instant::now(self.serving.rt).ok(),
            false => None,
        };
        Requested { incoming, begun }
    }

    /// Goes on with a request whose response was begun so. Tells why the connection has to wait, if it does.
    pub(crate) fn begun(
        &mut self,
        begun: Result<Begun<V::Page>, NoMemory>,
        request: Requested,
        wire: Wire<'_>,
    ) -> Option<Halt<V::Page>> {
        match begun {
            Ok(Err(page)) => return self.paged(page, request, wire),
            Ok(Ok(responded)) => {
                let answered = self.answered(responded, &request);
                wire.handover.answer(answered);
            }
            Err(NoMemory) => wire.handover.answer(Err(AllocError)),
        }
        None
    }

    // Goes on with a page from its beginning: the thread may linger for its fetches.
    fn paged(
        &mut self,
        page: V::Page,
        request: Requested,
        wire: Wire<'_>,
    ) -> Option<Halt<V::Page>> {
        let waiting = self.gone_on(page, &request, wire)?;
        let lingers = Lingers::begun(self.serving.rt);
        self.waited(waiting, request, lingers, wire)
    }

    /// Goes on with a page that was parked. Its fetches have taken long before, so that the thread doesn't linger.
    pub(crate) fn resumed(
        &mut self,
        asked: PageAsked<V::Page>,
        wire: Wire<'_>,
    ) -> Option<Halt<V::Page>> {
        let PageAsked { page, request } = asked;
        let waiting = self.gone_on(page, &request, wire)?;
        self.waited(waiting, request, None, wire)
    }

    // Goes on with a page that waits for its fetches, until its response was given to the connection, or it has to wait for
    // longer than the thread may linger.
    fn waited(
        &mut self,
        page: V::Page,
        request: Requested,
        mut lingers: Option<Lingers>,
        wire: Wire<'_>,
    ) -> Option<Halt<V::Page>> {
        let rt = self.serving.rt;
        let mut waiting = page;
        for _ in rt.forever() {
            let patience = self.patience(&mut lingers);
            if patience.is_none() {
                if let Some(pause) = self.pause(&mut waiting, wire) {
                    return self.left(waiting, request, pause, wire);
                }
            }
            self.serving.service.wait(&mut waiting, patience);
            waiting = self.gone_on(waiting, &request, wire)?;
        }
        unreachable!()
    }

    // Goes on with a page. It comes back if it has to wait; else its response is given to the connection.
    fn gone_on(&mut self, page: V::Page, request: &Requested, wire: Wire<'_>) -> Option<V::Page> {
        match self.serving.service.go_on(page, &request.incoming.head) {
            Ok(Err(page)) => return Some(page),
            Ok(Ok(Told { responded, owed })) => {
                let answered = self.answered(responded, request);
                wire.handover.answer(answered);
                if let Some(owed) = owed {
                    // Without room for them they are given up.
                    let _ = self.owed.push(owed);
                }
            }
            Err(NoMemory) => wire.handover.answer(Err(AllocError)),
        }
        None
    }

    // For how long a page may hold this thread now; `None` where it may not: it has lingered for long enough, or there are
    // no threads in reserve, which is looked at once for each step.
    fn patience(&self, lingers: &mut Option<Lingers>) -> Option<Duration> {
        let now = Instant::now(self.serving.rt).ok()?;
        let lingers = lingers.as_mut()?;
        if now >= lingers.until {
            return None;
        }
        if now >= lingers.step_ends {
            let duty = self.duty.as_ref()?;
            if !duty.may_linger(self.serving.rt) {
                return None;
            }
            lingers.step_ends = now.checked_add(Duration::from_millis(STEP_MILLIS))?;
        }
        Some(lingers.step_ends.duration_since(now))
    }

    // Why a page can't go on now; `None` where only a wait in this thread would tell when it can.
    fn pause(&self, page: &mut V::Page, wire: Wire<'_>) -> Option<Pause> {
        if !wire.may_pause {
            return None;
        }
        let service = self.serving.service;
        let client = service.watch(wire.socket);
        let awaited = service.awaited(page)?;
        Some(Pause::for_fetches(awaited.descriptor, awaited.until, client))
    }

    // A page that is left by its thread. Without room for it, its connection ends.
    fn left(
        &self,
        page: V::Page,
        request: Requested,
        pause: Pause,
        wire: Wire<'_>,
    ) -> Option<Halt<V::Page>> {
        match Box::new(self.serving.service.alloc(), PageAsked { page, request }) {
            Ok(asked) => Some(Halt {
                page: Some(asked),
                pause,
            }),
            Err(_) => {
                wire.handover.answer(Err(AllocError));
                None
            }
        }
    }

    // The response to a request, which is to be reported. Over a connection that is kept it says that it is the last one,
    // where something of the request's body is left, which nobody reads.
    fn answered(&mut self, responded: Responded, request: &Requested) -> Answered {
        let serving = self.serving;
        let incoming = &request.incoming;
        if let Some(begun) = request.begun {
            let record = record_of(
                serving.rt,
                serving.journal,
                serving.service.alloc(),
                serving.service.client_of(&incoming.head, self.client),
                &incoming.head,
                &responded,
            );
            let _ = self.unreported.push(Unreported { begun, record });
        }
        let mut response = responded.response;
        if serving.keeps && !incoming.is_whole {
            closes(&mut response)?;
        }
        Ok(response)
    }
}

// A page that holds its thread: until when at most, and until when there need be no further look whether it may.
#[derive(Clone, Copy)]
struct Lingers {
    until: Instant,
    step_ends: Instant,
}

impl Lingers {
    // From now on; `None` where the clock can't be read.
    fn begun(clock: &impl Clock) -> Option<Lingers> {
        let now = Instant::now(clock).ok()?;
        Some(Lingers {
            until: now.checked_add(Duration::from_millis(LINGERS_MILLIS))?,
            step_ends: now,
        })
    }
}

// Says of a response that it is the last one of its connection.
fn closes(response: &mut Response<EdgeBody>) -> Result<(), AllocError> {
    match response
        .headers_mut()
        .insert(header::CONNECTION, HeaderValue::from_static("close"))
    {
        Ok(_) => Ok(()),
        Err(_) => Err(AllocError),
    }
}
