//! What the threads of a server do.

ghost use Rattle.edge_server.specs.Opening.{GivesPollable};

use crate::connections::Connections;
use crate::journal::Journal;
use crate::page_service::{Begun, PageService};
use crate::serving::Session;
use edge_connections::{
    Accept, Admission, Duty, Executor, GivesStream, Handover, ServerRuntime, Waiting, Wanted, Work,
};
use edge_types::NoMemory;
use futures::Future;
use http::Request;
use std::os::fd::RawFd;
use std::sync::Arc;

/// What the threads share that serve the connections of an acceptor.
#[derive(Drop)]
pub(crate) struct Server<'a, R, A, V: PageService<R>, J, C: Future, M, B> {
    pub connections: Connections<'a, R, A, V, J, C>,
    /// What makes a connection of a stream.
    pub opens: &'a M,
    /// What begins the responses to requests.
    pub begins: &'a B,
}

impl<R, A, V, J, C, M, B> Server<'_, R, A, V, J, C, M, B>
where
    R: ServerRuntime,
    A: Accept<R>,
    V: PageService<R>,
    J: Journal<R>,
    C: Future<Output = hyper::Result<()>> + GivesStream<A::Io>,
    M: Fn(A::Io, Arc<Handover>) -> C,
    B: Fn(&Request<()>, Option<RawFd>) -> Result<Begun<V::Page>, NoMemory>,
{
    /// Waits until one more thread is wanted, and says for what; `None` once none ever will be. Does some of the work for
    /// which no thread can be started, in small steps, since it also looks for a stop.
    pub(crate) fn wait_for_work(&self, executor: &mut Option<Executor>) -> Option<Work>
        requires callable { M.IsAlwaysCallable self.now.opens.now }
        requires opened { GivesPollable (M.post self.now.opens.now) C.can_poll }
        requires begun { B.IsAlwaysCallable self.now.begins.now }
    {
        let connections = &self.connections;
        let rt = connections.serving.rt;
        for _ in rt.forever() {
            match connections.roster.wait_for_wanted(rt) {
                Wanted::Thread(work) => return Some(work),
                Wanted::Hands => {
                    connections.tick();
                    self.stand_in(executor);
                }
                Wanted::Nothing => connections.tick(),
                Wanted::Nobody => return None,
            }
        }
        unreachable!()
    }

    /// What one thread does that is started for this work. Without an executor it counts as not started.
    pub(crate) fn work(&self, work: Work)
        requires callable { M.IsAlwaysCallable self.now.opens.now }
        requires opened { GivesPollable (M.post self.now.opens.now) C.can_poll }
        requires begun { B.IsAlwaysCallable self.now.begins.now }
    {
        let connections = &self.connections;
        let rt = connections.serving.rt;
        let Ok(mut executor) = Executor::new(rt) else {
            connections.roster.not_started(rt, work);
            return;
        };
        for _ in rt.forever() {
            let is_done = match work {
                Work::Accepting => !self.accept_next(&mut executor),
                Work::Resuming => self.resume_next(&mut executor),
            };
            if is_done {
                return;
            }
        }
    }

    // What whoever starts threads does of the work for which there are none: it accepts and serves one connection, and
    // goes on with one that was parked. Waits for either for a moment only, so that its caller may do something else, and
    // where it has no executor, for the next try to make one.
    fn stand_in(&self, executor: &mut Option<Executor>)
        requires callable { M.IsAlwaysCallable self.now.opens.now }
        requires opened { GivesPollable (M.post self.now.opens.now) C.can_poll }
        requires begun { B.IsAlwaysCallable self.now.begins.now }
    {
        let connections = &self.connections;
        let rt = connections.serving.rt;
        if executor.is_none() {
            *executor = Executor::new(rt).ok();
        }
        let Some(executor) = executor else {
            connections.roster.wait_for_room(rt);
            return;
        };
        if connections.roster.lacks(rt, Work::Accepting) && connections.acceptor.has_client(rt) {
            self.accept_next(executor);
        }
        if connections.roster.lacks(rt, Work::Resuming) {
            self.resume(executor);
        }
    }

    // Accepts a connection and serves it, or waits for a moment where it may not. Returns false where no more accepts are
    // begun.
    fn accept_next(&self, executor: &mut Executor) -> bool
        requires callable { M.IsAlwaysCallable self.now.opens.now }
        requires opened { GivesPollable (M.post self.now.opens.now) C.can_poll }
        requires begun { B.IsAlwaysCallable self.now.begins.now }
    {
        let connections = &self.connections;
        let rt = connections.serving.rt;
        match connections.roster.may_accept(rt) {
            Admission::IsOver => return false,
            Admission::IsFull => connections.make_room(),
            Admission::Waits => connections.roster.wait_for_room(rt),
            Admission::Accepts => {
                if let Some(io) = connections.accept() {
                    self.serve_stream(io, executor, Work::Accepting);
                    connections.roster.served(rt, connections.acceptor);
                }
            }
        }
        true
    }

    // Goes on with a connection that was parked, or tells that each has ended.
    fn resume_next(&self, executor: &mut Executor) -> bool
        requires callable { M.IsAlwaysCallable self.now.opens.now }
        requires opened { GivesPollable (M.post self.now.opens.now) C.can_poll }
        requires begun { B.IsAlwaysCallable self.now.begins.now }
    {
        let connections = &self.connections;
        if connections.roster.is_done(connections.serving.rt) {
            return true;
        }
        self.resume(executor);
        false
    }

    // Goes on with what was parked, if something can go on within a moment.
    fn resume(&self, executor: &mut Executor)
        requires callable { M.IsAlwaysCallable self.now.opens.now }
        requires opened { GivesPollable (M.post self.now.opens.now) C.can_poll }
        requires begun { B.IsAlwaysCallable self.now.begins.now }
    {
        let connections = &self.connections;
        let rt = connections.serving.rt;
        let Some(waiting) = connections.next() else {
            return;
        };
        match waiting {
            Waiting::Connection(session) => {
                connections.serving.journal.unparked();
                self.go_on(session, executor, Work::Resuming);
            }
            Waiting::SetAside(aside) => {
                connections.serving.journal.unparked();
                match connections.acceptor.take_up(rt, aside) {
                    Some(io) => self.serve_stream(io, executor, Work::Resuming),
                    None => connections.ended(),
                }
            }
            Waiting::Fetches(fetches) => connections.go_on_with_owed(fetches),
        }
        connections.roster.rested(rt);
    }

    // Serves the connection of a stream, by a thread that does this work. Without memory for it, it ends.
    fn serve_stream(&self, io: A::Io, executor: &mut Executor, work: Work)
        requires callable { M.IsAlwaysCallable self.now.opens.now }
        requires opened { GivesPollable (M.post self.now.opens.now) C.can_poll }
        requires begun { B.IsAlwaysCallable self.now.begins.now }
    {
        let connections = &self.connections;
        let client = connections.acceptor.client(&io);
        let signals = connections.acceptor.signals(&io);
        match connections.serving.session(self.opens, io, client, signals) {
            Some(session) => self.go_on(session, executor, work),
            None => connections.ended(),
        }
    }

    // Serves a connection by a thread that does this work, until it has ended or is parked.
    fn go_on(&self, session: Session<C, V::Page>, executor: &mut Executor, work: Work)
        requires { B.IsAlwaysCallable self.now.begins.now }
    {
        let connections = &self.connections;
        let duty = Duty {
            roster: &connections.roster,
            work,
        };
        let served = connections
            .serving
            .serve(session, executor, Some(duty), self.begins);
        connections.leave(served);
    }
}
