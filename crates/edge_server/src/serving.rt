//! One connection, over which requests are answered.

ghost use Rattle.edge_server.specs.Opening.{GivesPollable};

use crate::journal::{Journal, NoJournal, Unreported, refused_head};
use crate::page_service::{Begun, PageService};
use crate::turn::{Halt, PageAsked, Turn, Wire};
use edge_connections::{
    Connection, DateClock, Duty, Executor, Handover, HandsOver, Pause, Signals, Stop, Went,
};
use edge_types::NoMemory;
use futures::Future;
use http::Request;
use hyper::server::conn::http1::Builder;
use std::net::IpAddr;
use std::os::fd::RawFd;
use std::sync::{Arc, Wait};
use std::time::Clock;
use tokio::io::{AsyncRead, AsyncWrite};

/// Serves one request over one stream, and ends the connection. Anything that goes wrong ends it too: a fault
/// of the stream, a head that isn't HTTP/1, and running out of memory for the response.
///
/// A client may end its input after its request, and still gets whole bodies. What a client sends
/// after its request is never answered.
///
/// Source: RFC 9112, "Persistence" and "Tear-down".
pub fn serve_io<R, I, V, B>(rt: &R, executor: &mut Executor, io: I, service: &V, begins: &B)
where
    R: Wait + Clock + Clone + Drop,
    I: AsyncRead + AsyncWrite,
    V: PageService<R>,
    B: Fn(&Request<()>, Option<RawFd>) -> Result<Begun<V::Page>, NoMemory>,
    requires { B.IsAlwaysCallable begins.now }
{
    let serving = Serving {
        rt,
        service,
        journal: &NoJournal,
        keeps: false,
    };
    let http = http_of(rt, service, false);
    let opens = |io: I, handover: Arc<Handover>| http.serve_connection(io, HandsOver { handover });
    serving.serve_one(&opens, io, executor, begins);
}

/// How the requests of connections are read and their responses written, by the HTTP library, as a service needs it;
/// and whether connections are kept for further requests.
pub(crate) fn http_of<R, V>(rt: &R, service: &V, keeps: bool) -> Builder<Option<DateClock<R>>>
where
    R: Clock + Clone + Drop,
    V: PageService<R>,
{
    let mut http = Builder::new(service.alloc(), service.keys());
    http.keep_alive(keeps);
    // Without it a long body waits for the client to send more.
    http.half_close(true);
    // The stream has limits of its own.
    http.header_read_timeout(None);
    http.timer(date_clock(rt))
}

// The clock for the dates of responses, if there is memory for one more.
fn date_clock<R: Clone>(rt: &R) -> Option<DateClock<R>> {
    Some(DateClock::new(rt.clone().ok()?))
}

/// A connection, the page that waits for its fetches, if one does, and what is to be reported of its requests.
#[derive(Drop)]
pub(crate) struct Session<C: Future, P> {
    connection: Connection<C>,
    // In a box, since most sessions have none, and each is moved.
    page: Option<Box<PageAsked<P>>>,
    client: Option<IpAddr>,
    unreported: Vec<Unreported>,
}

/// How far a thread got with a connection.
#[derive(Drop)]
pub(crate) struct Served<C: Future, P, O> {
    /// The connection, and what it waits for; `None` where it has ended.
    pub left: Option<(Session<C, P>, Pause)>,
    /// What its pages owe to others.
    pub owed: Vec<O>,
}

/// What answers the requests of connections.
#[derive(Drop)]
pub(crate) struct Serving<'a, R, V, J> {
    pub rt: &'a R,
    pub service: &'a V,
    pub journal: &'a J,
    /// Whether connections are kept for further requests.
    pub keeps: bool,
}

impl<R, V, J> Serving<'_, R, V, J>
where
    R: Wait + Clock,
    V: PageService<R>,
    J: Journal<R>,
{
    // Serves a connection over a stream that tells no signals.
    fn serve_one<I, C, M, B>(&self, opens: &M, io: I, executor: &mut Executor, begins: &B)
    where
        I: Drop,
        C: Future<Output = hyper::Result<()>>,
        M: Fn(I, Arc<Handover>) -> C,
        B: Fn(&Request<()>, Option<RawFd>) -> Result<Begun<V::Page>, NoMemory>,
        requires callable { M.IsAlwaysCallable opens.now }
        requires opened { GivesPollable (M.post opens.now) C.can_poll }
        requires begun { B.IsAlwaysCallable begins.now }
    {
        let Some(session) = self.session(opens, io, None, None) else {
            return;
        };
        let Served { left: _, owed } = self.serve(session, executor, None, begins);
        for fetches in owed {
            self.see_through(fetches);
        }
    }

    /// A connection of this client over a stream that tells these signals. `None` where there is no memory for it.
    pub(crate) fn session<I, C, M>(
        &self,
        opens: &M,
        io: I,
        client: Option<IpAddr>,
        signals: Option<Arc<Signals>>,
    ) -> Option<Session<C, V::Page>>
    where
        I: Drop,
        C: Future<Output = hyper::Result<()>>,
        M: Fn(I, Arc<Handover>) -> C,
        requires callable { M.IsAlwaysCallable opens.now }
        requires opened { GivesPollable (M.post opens.now) C.can_poll }
    {
        let alloc = self.service.alloc();
        let handover = Arc::new(alloc, Handover::new()).ok()?;
        let future = opens(io, handover.clone().ok()?);
        Some(Session {
            connection: Connection::new(alloc, future, handover, signals).ok()?,
            page: None,
            client,
            unreported: Vec::new(alloc),
        })
    }

    /// Serves a connection until it has ended, or has to wait for its client, or for fetches; `begins` begins the responses
    /// to its requests. The fetches of a new page are first waited for in the thread, as long as its duty lets pages linger;
    /// without one they aren't.
    pub(crate) fn serve<C, B>(
        &self,
        session: Session<C, V::Page>,
        executor: &mut Executor,
        duty: Option<Duty<'_>>,
        begins: &B,
    ) -> Served<C, V::Page, V::Owed>
    where
        C: Future<Output = hyper::Result<()>>,
        B: Fn(&Request<()>, Option<RawFd>) -> Result<Begun<V::Page>, NoMemory>,
        requires { B.IsAlwaysCallable begins.now }
    {
        let Session {
            mut connection,
            page,
            client,
            unreported,
        } = session;
        let mut turn = Turn::new(self, duty, client, unreported);
        let mut halt = match page {
            Some(asked) => turn.resumed(Box::into_inner(asked), Wire::of(&connection)),
            None => None,
        };
        for _ in self.rt.forever() {
            if let Some(halt) = halt {
                return waiting(connection, turn, halt);
            }
            match connection.go_on(self.rt, executor) {
                Went::Stopped(stopped, stop) => {
                    halt = stopped_for(stop, &mut turn, Wire::of(&stopped), begins);
                    connection = stopped;
                }
                Went::Ended(refusal) => {
                    turn.ended(refusal);
                    return Served {
                        left: None,
                        owed: turn.owed,
                    };
                }
            }
        }
        unreachable!()
    }

    /// Goes on with fetches that others wait for until nobody does.
    pub(crate) fn see_through(&self, fetches: V::Owed) {
        let mut left = Some(fetches);
        for _ in self.rt.forever() {
            let Some(mut fetches) = left else {
                return;
            };
            self.service.wait_for_owed(&mut fetches);
            left = self.service.go_on_with_owed(fetches);
        }
        unreachable!()
    }

    /// The connection of a session that nothing more is done for. What is to be reported of it is.
    pub(crate) fn released<C: Future>(&self, session: Session<C, V::Page>) -> Connection<C> {
        let Session {
            connection,
            page,
            client: _,
            unreported,
        } = session;
        drop(page);
        self.report(unreported);
        connection
    }

    /// Reports what is to be reported, now that the responses have been written or the connection has ended.
    pub(crate) fn report(&self, unreported: Vec<Unreported>) {
        for answer in unreported {
            answer.report(self.rt, self.journal);
        }
    }

    /// Reports that this client was refused by the HTTP library, if it was.
    pub(crate) fn report_refusal(&self, client: Option<IpAddr>, refusal: Option<u16>) {
        if let Some(status) = refusal {
            if self.journal.is_enabled() {
                let record = refused_head(self.service.alloc(), client, status);
                self.journal.served(self.rt, &record);
            }
        }
    }
}

// Does what a connection stopped for in this turn, where `begins` begins the response to a request. Tells why it has to
// wait, if it does.
fn stopped_for<R, V, J, B>(
    stop: Stop,
    turn: &mut Turn<'_, '_, R, V, J>,
    wire: Wire<'_>,
    begins: &B,
) -> Option<Halt<V::Page>>
where
    R: Wait + Clock,
    V: PageService<R>,
    J: Journal<R>,
    B: Fn(&Request<()>, Option<RawFd>) -> Result<Begun<V::Page>, NoMemory>,
    requires { B.IsAlwaysCallable begins.now }
{
    match stop {
        Stop::Request(incoming) => {
            let request = turn.requested(incoming);
            let begun = begins(&request.incoming.head, wire.socket);
            turn.begun(begun, request, wire)
        }
        Stop::Written => {
            turn.report();
            None
        }
        Stop::Paused(pause) => Some(Halt { page: None, pause }),
    }
}

// What is left after a turn by a connection that has to wait.
fn waiting<C, R, V, J>(
    connection: Connection<C>,
    turn: Turn<'_, '_, R, V, J>,
    halt: Halt<V::Page>,
) -> Served<C, V::Page, V::Owed>
where
    C: Future,
    V: PageService<R>,
{
    let session = Session {
        connection,
        page: halt.page,
        client: turn.client,
        unreported: turn.unreported,
    };
    Served {
        left: Some((session, halt.pause)),
        owed: turn.owed,
    }
}
