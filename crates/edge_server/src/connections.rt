//! The connections that a server has, and what becomes of them while no thread serves them.

use crate::journal::Journal;
use crate::page_service::PageService;
use crate::serving::{Served, Serving, Session};
use edge_connections::{
    Accept, AcceptFault, AfterFailure, GivesStream, ParkingPlace, Pause, ServeEnd, ServerRuntime,
    SetAside, SharedRoster, Waiting,
};
use futures::Future;
use std::time::{Duration, Instant};

/// What is parked: a connection, whose client is waited for, or what is fetched for its page; or fetches of a page that has
/// ended, for which others wait.
type Parked<C, P, O> = Waiting<Session<C, P>, O>;

/// The connections of an acceptor, and who serves them.
#[derive(Drop)]
pub(crate) struct Connections<'a, R, A, V: PageService<R>, J, C: Future> {
    pub acceptor: &'a A,
    pub serving: Serving<'a, R, V, J>,
    /// What is parked.
    pub parked: ParkingPlace<Parked<C, V::Page, V::Owed>>,
    /// Who works, and who is wanted.
    pub roster: SharedRoster,
}

impl<R, A, V, J, C> Connections<'_, R, A, V, J, C>
where
    R: ServerRuntime,
    A: Accept<R>,
    V: PageService<R>,
    J: Journal<R>,
    C: Future<Output = hyper::Result<()>> + GivesStream<A::Io>,
{
    /// How the server has ended.
    pub(crate) fn end(&self) -> ServeEnd {
        self.roster.end(self.serving.rt)
    }

    /// What one thread does again and again: it tells the journal that a moment has passed, and that nobody is accepted any
    /// longer where that is so, and stops the server if that is asked for.
    pub(crate) fn tick(&self) {
        let rt = self.serving.rt;
        self.serving.journal.tick(rt);
        self.look_for_stop();
        if let Some(end) = self.roster.ending(rt) {
            self.serving.journal.closed(end);
        }
    }

    // Stops the server if that is asked for: nobody accepts any longer, and connections that are idle are ended. Where
    // what is under way is to be cut short, so is each other connection that is parked; one that a thread serves ends at
    // its next read or write, and until then what is assembled for it goes on.
    fn look_for_stop(&self) {
        let rt = self.serving.rt;
        if !self.acceptor.is_to_stop(rt) {
            return;
        }
        if self.roster.stop(rt) {
            self.acceptor.end(rt);
        }
        if self.acceptor.is_to_cut(rt) {
            self.acceptor.cut();
            self.end_parked();
        }
        for _ in rt.forever() {
            if !self.end_idle() {
                return;
            }
        }
    }

    /// Accepts a connection; `None` where that fails.
    pub(crate) fn accept(&self) -> Option<A::Io> {
        let rt = self.serving.rt;
        match self.acceptor.accept(rt) {
            Ok(io) => {
                self.roster.accepted(rt, self.acceptor);
                self.serving.journal.accepted();
                Some(io)
            }
            Err(fault) => {
                self.goes_on_after_failure(fault);
                None
            }
        }
    }

    // After a failed accept. What it lacked, as a file descriptor, connections that wait for their clients hold, and others
    // may give back within a moment.
    fn goes_on_after_failure(&self, fault: AcceptFault) {
        let rt = self.serving.rt;
        match self.roster.accept_failed(rt, fault) {
            AfterFailure::Ends => {
                self.serving.journal.accept_failed();
                self.acceptor.end(rt);
            }
            AfterFailure::GivesBack(millis) => {
                if let Some(waiting) = self.parked.take_client(rt) {
                    self.end_waiting(waiting);
                }
                self.rest(millis);
            }
            AfterFailure::Rests(millis) => self.rest(millis),
            AfterFailure::Waits => {}
        }
    }

    // The pause after a failed accept.
    fn rest(&self, millis: u32) {
        let rt = self.serving.rt;
        self.serving.journal.accept_failed();
        self.acceptor
            .rest(rt, Duration::from_millis(u64::from(millis)));
        self.roster.accepts_again(rt);
    }

    /// Ends the connection that has been idle for longest; if there is none, waits.
    pub(crate) fn make_room(&self) {
        if !self.end_idle() {
            self.roster.wait_for_room(self.serving.rt);
        }
    }

    /// Takes out what was parked and can go on within a moment, if anything can. The thread that takes it counts as at work.
    pub(crate) fn next(&self) -> Option<Parked<C, V::Page, V::Owed>> {
        let waiting = self.first_ready()?;
        self.roster.resumed(self.serving.rt);
        Some(waiting)
    }

    // What has no time left, which it finds out by itself; or what waits for a socket that is ready.
    fn first_ready(&self) -> Option<Parked<C, V::Page, V::Owed>> {
        let rt = self.serving.rt;
        let now = Instant::now(rt).ok()?;
        match self.parked.take_late(rt, now) {
            Some(late) => Some(late),
            None => {
                let key = self.acceptor.ready(rt)?;
                self.parked.take(rt, key)
            }
        }
    }

    /// Parks what a thread has served, as far as it hasn't ended. Without room for that, it ends.
    pub(crate) fn leave(&self, served: Served<C, V::Page, V::Owed>) {
        let Served { left, owed } = served;
        match left {
            Some((session, pause)) => self.park_connection(session, pause),
            None => self.ended(),
        }
        for fetches in owed {
            self.park_fetches(fetches);
        }
    }

    /// Goes on with fetches that others wait for, and parks what is left of them.
    pub(crate) fn go_on_with_owed(&self, fetches: V::Owed) {
        if let Some(left) = self.serving.service.go_on_with_owed(fetches) {
            self.park_fetches(left);
        }
    }

    // Parks a connection, or only its socket where it has nothing to do. Without room for that, it ends.
    fn park_connection(&self, session: Session<C, V::Page>, pause: Pause) {
        if !pause.is_between_requests() {
            return self.park(Waiting::Connection(session), pause);
        }
        match self.set_aside(session) {
            Some(aside) => self.park(Waiting::SetAside(aside), pause),
            None => self.ended(),
        }
    }

    // What is kept of a connection that has nothing to do. `None` where there is no room for it.
    fn set_aside(&self, session: Session<C, V::Page>) -> Option<SetAside> {
        let (io, unread) = self.serving.released(session).into_stream();
        self.acceptor
            .set_aside(self.serving.rt, io, unread.as_slice())
    }

    // Parks a connection. Without room for that, it ends, and what is to be reported of it is.
    fn park(&self, connection: Parked<C, V::Page, V::Owed>, pause: Pause) {
        let rt = self.serving.rt;
        // The journal is told before another thread can take the connection out.
        let parked = self.parked.park(rt, connection, pause, |key| {
            let is_watched = self.acceptor.watch(key, &pause);
            if is_watched {
                self.serving.journal.parked();
            }
            is_watched
        });
        match parked {
            Ok(()) => self.roster.parked(rt),
            Err(Some(Waiting::Connection(session))) => {
                drop(self.serving.released(session));
                self.ended();
            }
            Err(_) => self.ended(),
        }
    }

    // Parks fetches that others wait for. Without room for that, this thread sees them through.
    fn park_fetches(&self, mut fetches: V::Owed) {
        let rt = self.serving.rt;
        let Some(awaited) = self.serving.service.awaited_of_owed(&mut fetches) else {
            return self.serving.see_through(fetches);
        };
        let pause = Pause::for_fetches(awaited.descriptor, awaited.until, None);
        let waiting = Waiting::Fetches(fetches);
        match self
            .parked
            .park(rt, waiting, pause, |key| self.acceptor.watch(key, &pause))
        {
            Ok(()) => self.roster.parked(rt),
            Err(Some(Waiting::Fetches(fetches))) => self.serving.see_through(fetches),
            Err(_) => {}
        }
    }

    /// A connection has ended.
    pub(crate) fn ended(&self) {
        self.serving.journal.ended();
        self.roster.ended(self.serving.rt);
    }

    // Ends the connection that has been idle for longest. Returns false if there is none.
    fn end_idle(&self) -> bool {
        let rt = self.serving.rt;
        let Some(idle) = self.parked.take_idle(rt) else {
            return false;
        };
        self.end_waiting(idle);
        true
    }

    // Ends each connection that is parked, and gives up what is fetched for others.
    fn end_parked(&self) {
        let rt = self.serving.rt;
        for (_, parked) in self.parked.take_all(rt, rt.alloc()) {
            self.end_waiting(parked.session);
        }
    }

    // Ends what was parked.
    fn end_waiting(&self, waiting: Parked<C, V::Page, V::Owed>) {
        match waiting {
            Waiting::Connection(session) => {
                self.serving.journal.unparked();
                drop(self.serving.released(session));
                self.ended();
            }
            Waiting::SetAside(_) => {
                self.serving.journal.unparked();
                self.ended();
            }
            Waiting::Fetches(_) => {}
        }
    }
}
