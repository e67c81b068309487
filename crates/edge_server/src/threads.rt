//! The threads that serve.

ghost use Rattle.edge_server.specs.Opening.{GivesPollable};

use crate::connections::Connections;
use crate::journal::Journal;
use crate::page_service::{Begun, PageService};
use crate::server::Server;
use crate::serving::{Serving, http_of};
use edge_connections::{
    Accept, Capacity, GivesStream, Handover, HandsOver, ParkingPlace, Roster, ServeEnd,
    ServerRuntime, SharedRoster,
};
use edge_types::NoMemory;
use futures::Future;
use http::Request;
use std::os::fd::RawFd;
use std::sync::Arc;
use std::thread;
use tokio::io::{AsyncRead, AsyncWrite};

/// Serves connections with threads, until `count` of them have been accepted, or the server is stopped, and they have
/// ended.
///
/// Each thread accepts for itself, and serves what it accepted. One more is started only once all existing ones are
/// serving, up to `capacity.threads`, and at least one. A connection that can't go on, since its client sends or receives
/// nothing, is parked, and holds no thread: as soon as it can, one of as many further threads goes on with it, which are
/// started in the same way.
///
/// A thread that can't be started is tried again after a second. Until then the existing ones go on; for work that has
/// none, the calling thread accepts and serves one connection after another, and goes on with those that were parked.
///
/// No more than `capacity.connections` connections are accepted that haven't ended. Where there is no room for one
/// more, the one that has been kept without a further request for longest is ended.
///
/// A failed accept is skipped, and doesn't add to `count`. After one nobody accepts for a moment, from a millisecond up
/// to a second, twice as long each time; sixteen in succession end the server. One that fails for want of a file
/// descriptor or of memory while connections are open isn't among these: the connection that has waited for its client for
/// longest is ended, an idle one before any other.
///
/// Where the acceptor says that the server is to stop, nobody accepts any longer, connections that are idle are ended,
/// and what is under way goes on to its end. Once it says that this is to be cut short, each read and write of a
/// connection fails, and what is parked is ended, so within a few tenths of a second; but a page that is being assembled
/// goes on until it is done, or its own limits end it.
///
/// Where the acceptor keeps connections, each serves one request after another.
///
/// Each request that was answered is reported to the journal once its response has been written or its connection has
/// ended, by the thread that has the connection then, unless there was no room to take note of it, or to park the connection.
/// So is a head that the HTTP library refused, as far as it tells of that.
///
/// Our profile.
pub fn serve_accepts<'a, R, A, V, J, B>(
    rt: &'a R,
    acceptor: &'a A,
    service: &'a V,
    begins: &'a B,
    journal: &'a J,
    capacity: Capacity,
    count: u64,
) -> ServeEnd
where
    R: ServerRuntime + Send + Sync,
    A: Accept<R> + Sync,
    A::Io: AsyncRead + AsyncWrite,
    V: PageService<R> + Sync,
    J: Journal<R> + Sync,
    B: Fn(&Request<()>, Option<RawFd>) -> Result<Begun<V::Page>, NoMemory> + Sync,
    requires { B.IsAlwaysCallable begins.now }
{
    let keeps = acceptor.keeps();
    let http = http_of(rt, service, keeps);
    let opens = |io: A::Io, handover: Arc<Handover>| http.serve_connection(
        io,
        HandsOver { handover },
    );
    let serving = Serving {
        rt,
        service,
        journal,
        keeps,
    };
    let roster = SharedRoster::new(Roster::new(count, capacity));
    Server::serve_opened(acceptor, serving, roster, &opens, begins)
}

impl<'a, R, A, V, J, C, M, B> Server<'a, R, A, V, J, C, M, B>
where
    R: ServerRuntime + Send + Sync,
    A: Accept<R> + Sync,
    V: PageService<R> + Sync,
    J: Journal<R> + Sync,
    C: Future<Output = hyper::Result<()>> + GivesStream<A::Io> + Send,
    M: Fn(A::Io, Arc<Handover>) -> C + Sync,
    B: Fn(&Request<()>, Option<RawFd>) -> Result<Begun<V::Page>, NoMemory> + Sync,
{
    // Serves the connections that are made of what the acceptor gives.
    fn serve_opened(
        acceptor: &'a A,
        serving: Serving<'a, R, V, J>,
        roster: SharedRoster,
        opens: &'a M,
        begins: &'a B,
    ) -> ServeEnd
        requires callable { M.IsAlwaysCallable opens.now }
        requires opened { GivesPollable (M.post opens.now) C.can_poll }
        requires begun { B.IsAlwaysCallable begins.now }
    {
        let rt = serving.rt;
        let server = Server {
            connections: Connections {
                acceptor,
                serving,
                parked: ParkingPlace::new(rt.alloc()),
                roster,
            },
            opens,
            begins,
        };
        Server::start_all(rt, &server);
        server.connections.end()
    }

    // Starts threads as they are wanted, and joins them. The calling thread starts all: one that started another would call
    // itself in a circle.
    fn start_all(rt: &R, server: &Server<'a, R, A, V, J, C, M, B>)
        requires callable { M.IsAlwaysCallable server.now.opens.now }
        requires opened { GivesPollable (M.post server.now.opens.now) C.can_poll }
        requires begun { B.IsAlwaysCallable server.now.begins.now }
    {
        thread::scope(
            thread::scope_env(),
            rt,
            |scope|
                requires callable { M.IsAlwaysCallable server.now.opens.now }
                requires opened { GivesPollable (M.post server.now.opens.now) C.can_poll }
                requires begun { B.IsAlwaysCallable server.now.begins.now }
            {
                let mut executor = None;
                for _ in rt.forever() {
                    let Some(work) = server.wait_for_work(&mut executor) else {
                        return;
                    };
                    let started = scope.spawn(
                        move ||
                            requires callable { M.IsAlwaysCallable server.now.opens.now }
                            requires opened { GivesPollable (M.post server.now.opens.now) C.can_poll }
                            requires begun { B.IsAlwaysCallable server.now.begins.now }
                        { server.work(work) },
                    );
                    if started.is_err() {
                        server.connections.roster.not_started(rt, work);
                    }
                }
            },
        );
    }
}
